//! Reading on, behind what is held of a stream.

ghost use Rattle.std.specs.Prelude.{◌≡◌, ◌≤◌, ◌<◌, ◌+◌, ◌++◌, ℕ, List, length, take, drop, IfOk, IfErr, OnOk, OnErr, true, false};
ghost use Rattle.std.specs.Io.KnownBytes.{Keeps, Consumes, IsAtEnd};

use crate::framing::{MOST_BYTES, Packet};
use rdm_frame::Bytes;
use rdm_streams::{ReadFault, read_some};
use std::io::Read;

/// One read, behind the bytes that are held, for which there must be room: says how many came. There are none at the end of the
/// stream, or when a reader that waits no longer gives none.
pub fn take_more<R: Read>(reader: &mut R, held: &mut Packet) -> Result<usize, ReadFault>
    requires { length held.old < 605 }
    ensures bytes { IfOk result (λ count. (bytes : List ℕ) × (held.new ≡ held.old ++ bytes) × (length bytes ≡ count)
        × Consumes (R.remaining reader.old) (R.remaining reader.new) bytes × (count ≡ 0 → IsAtEnd (R.remaining reader.new))) }
    ensures within { IfOk result (λ _. length held.new ≤ 605) }
    ensures err { OnErr result (Keeps (R.remaining reader.old) (R.remaining reader.new)) }
    ensures same { OnErr result (held.new ≡ held.old) }
{
    let mut piece = [0u8; MOST_BYTES];
    let room = MOST_BYTES - held.as_slice().len();
    match read_some(reader, &mut piece[..room]) {
        Ok(count) => {
            held.append(&piece[..count]);
            Ok(count)
        }
        Err(fault) => Err(fault),
    }
}

/// What is left of these bytes without the first ones.
pub fn rest_of(bytes: &Packet, done: usize) -> Packet
    requires { done ≤ length bytes.now }
    ensures { result ≡ drop done bytes.now }
{
    let mut rest = Bytes::new();
    rest.append(&bytes.as_slice()[done..]);
    rest
}
