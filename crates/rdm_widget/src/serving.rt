//! A stream of messages is read, and each is answered.

ghost use Rattle.std.specs.Prelude.{◌≡◌, ◌≤◌, ◌<◌, ◌+◌, ℕ, List, [], length, IfOk, OnOk};
ghost use Rattle.std.specs.Io.KnownBytes.{IsAtEnd, Keeps};
ghost use Rattle.rdm_widget.specs.declared.serving.ServeError.TheVariants.{Read as ReadFault, Write as WriteFault};
ghost use Rattle.rdm_messages.specs.Ends.{end_at};
ghost use Rattle.rdm_messages.specs.Serving.{IsServed, IsServedOnce, IsCutShort};

use crate::answering::answer_all;
use crate::on_line::OnLine;
use rdm_messages::{Clock, Packet, rest_of, take_more};
use std::io::{Read, Write};
use thiserror::Error;

/// Why serving ended before the stream did.
#[derive(Clone, Copy, Debug, PartialEq, Eq, Error)]
pub enum ServeError {
    /// The reader failed.
    #[error("read")]
    Read,
    /// The writer failed, or took no byte.
    #[error("write")]
    Write,
}

/// One read, behind what is held, and the answers to all messages that are whole then; and says how many bytes were read,
/// which is 0 at the end of the stream. What isn't a message is skipped, and held is then the beginning of a message.
///
/// It takes no memory. A caller begins with nothing held, and ends if it fails to write: then an answer is cut off.
pub fn serve_some<R: Read, W: Write, C: Clock, L: OnLine>(
    reader: &mut R,
    writer: &mut W,
    clock: &mut C,
    line: &mut L,
    held: &mut Packet,
) -> Result<usize, ServeError>
    requires { length held.old < 605 }
    // All messages that are whole are answered, and only the beginning of one is held.
    ensures ok { IfOk result (λ count. (s : L.Situation) → L.hearing.is_in line.old s → IsServedOnce C.tells L.hearing
        (end_at clock.old (R.remaining reader.old) (W.contents writer.old) held.old)
        (end_at clock.new (R.remaining reader.new) (W.contents writer.new) held.new) count s line.new) }
    // No more is read than there is room for behind what was held.
    ensures within { IfOk result (λ count. length held.old + count ≤ 605) }
    ensures room { OnOk result (length held.new < 605) }
    ensures end { result ≡ Ok 0 → IsAtEnd (R.remaining reader.new) }
    // Where the reader failed nothing has changed.
    ensures read { result ≡ Err ReadFault → Keeps (R.remaining reader.old) (R.remaining reader.new)
        × (writer.new ≡ writer.old) × (clock.new ≡ clock.old) × (line.new ≡ line.old) × (held.new ≡ held.old) }
    // Where the writer failed, a message was read whose answer isn't all written, and the answers before it are.
    ensures write { result ≡ Err WriteFault → (s : L.Situation) → L.hearing.is_in line.old s → IsCutShort C.tells L.hearing
        (end_at clock.old (R.remaining reader.old) (W.contents writer.old) held.old)
        (end_at clock.new (R.remaining reader.new) (W.contents writer.new) held.new) s line.new }
{
    let Ok(count) = take_more(reader, held) else {
        return Err(ServeError::Read);
    };
    let Ok(done) = answer_all(writer, clock, line, held.as_slice()) else {
        return Err(ServeError::Write);
    };
    *held = rest_of(held, done);
    Ok(count)
}

/// Answers each message of a stream, until the stream ends: `serve_some` again and again. What isn't a message is skipped.
///
/// It takes no memory, and holds 604 bytes of the stream at most.
pub fn serve<R: Read, W: Write, C: Clock, L: OnLine>(
    reader: &mut R,
    writer: &mut W,
    clock: &mut C,
    line: &mut L,
) -> Result<(), ServeError>
    // All messages of the stream are answered,
    ensures ok { OnOk result ((s : L.Situation) → L.hearing.is_in line.old s → (held : List ℕ) × IsServed C.tells L.hearing
        (end_at clock.old (R.remaining reader.old) (W.contents writer.old) [])
        (end_at clock.new (R.remaining reader.new) (W.contents writer.new) held) s line.new) }
    // and it is read to its end.
    ensures whole { OnOk result (IsAtEnd (R.remaining reader.new)) }
    // Where the reader failed, all messages of what was read before are answered.
    ensures read { result ≡ Err ReadFault → (s : L.Situation) → L.hearing.is_in line.old s → (held : List ℕ) × IsServed C.tells L.hearing
        (end_at clock.old (R.remaining reader.old) (W.contents writer.old) [])
        (end_at clock.new (R.remaining reader.new) (W.contents writer.new) held) s line.new }
    // Where the writer failed, a message was read whose answer isn't all written, and the answers before it are.
    ensures write { result ≡ Err WriteFault → (s : L.Situation) → L.hearing.is_in line.old s → IsCutShort C.tells L.hearing
        (end_at clock.old (R.remaining reader.old) (W.contents writer.old) [])
        (end_at clock.new (R.remaining reader.new) (W.contents writer.new) []) s line.new }
{
    let mut held = Packet::new();
    for _turn in 0..u64::MAX {
        match serve_some(reader, writer, clock, line, &mut held) {
            Ok(count) => {
                if count == 0 {
                    return Ok(());
                }
            }
            Err(error) => return Err(error),
        }
    }
    Err(ServeError::Read)
}
