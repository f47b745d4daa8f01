//! A read that isn't interrupted.

ghost use Rattle.std.specs.Prelude.{◌≤◌, length, IfOk};
ghost use Rattle.std.specs.Io.KnownBytes.{ReadConsumes};

use std::io::{ErrorKind, Read};
use thiserror::Error;

/// A reader that failed.
#[derive(Clone, Copy, Debug, PartialEq, Eq, Error)]
#[error("read")]
pub struct ReadFault;

/// One read into the front of `room`: how many bytes came. There are none at the end of the stream, or if there is no
/// room. A read that was interrupted is tried again; if one fails, nothing was read.
pub fn read_some<R: Read>(reader: &mut R, room: &mut [u8]) -> Result<usize, ReadFault>
    ensures bytes { ReadConsumes (R.remaining reader.old) (R.remaining reader.new) result room.new }
    ensures within { IfOk result (λ count. count ≤ length room.new) }
{
    for _turn in 0..u64::MAX {
        match reader.read(room) {
            Ok(count) => return Ok(count),
            Err(error) => {
                if error.kind() != ErrorKind::Interrupted {
                    return Err(ReadFault);
                }
            }
        }
    }
    Err(ReadFault)
}
