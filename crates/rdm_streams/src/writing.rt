//! A loop of writes.

ghost use Rattle.std.specs.Prelude.{◌≡◌, ◌≤◌, ◌<◌, ℕ, length, take, OnOk, OnErr, MatchResult};
ghost use Rattle.std.specs.Io.KnownBytes.{Keeps, Appends};

use std::io::{ErrorKind, Write};
use thiserror::Error;

/// A writer that failed, or took no byte.
#[derive(Clone, Copy, Debug, PartialEq, Eq, Error)]
#[error("write")]
pub struct WriteFault;

/// Writes all of the bytes, in as many writes as the writer wants. A write that was interrupted is tried again; after one
/// that failed or took no byte, none is.
pub fn write_all<W: Write>(writer: &mut W, bytes: &[u8]) -> Result<(), WriteFault>
    ensures ok { OnOk result (Appends (W.contents writer.old) (W.contents writer.new) bytes.now) }
    // If it failed, a front of the bytes is written that isn't all of them.
    ensures front { OnErr result ((count : ℕ) × (count < length bytes.now)
        × Appends (W.contents writer.old) (W.contents writer.new) (take count bytes.now)) }
{
    let mut written = 0;
    while written < bytes.len() {
        let count = write_some(writer, &bytes[written..])?;
        if count == 0 {
            return Err(WriteFault);
        }
        written += count;
    }
    Ok(())
}

/// One write. A write that was interrupted is tried again; another that fails is a fault.
fn write_some<W: Write>(writer: &mut W, bytes: &[u8]) -> Result<usize, WriteFault>
    ensures bytes { MatchResult result
        (λ count. (count ≤ length bytes.now) × Appends (W.contents writer.old) (W.contents writer.new) (take count bytes.now))
        (λ _. Keeps (W.contents writer.old) (W.contents writer.new)) }
{
    for _turn in 0..u64::MAX {
        match writer.write(bytes) {
            Ok(count) => return Ok(count),
            Err(error) => {
                if error.kind() != ErrorKind::Interrupted {
                    return Err(WriteFault);
                }
            }
        }
    }
    Err(WriteFault)
}
