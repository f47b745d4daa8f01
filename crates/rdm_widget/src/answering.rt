//! The messages of a buffer are answered.

ghost use Rattle.std.specs.Prelude.{◌≡◌, ◌≤◌, ◌++◌, ℕ, List, length, drop, IfOk, OnOk, OnErr};
ghost use Rattle.rdm_messages.specs.Framing.{IsMessage, IsUnfinished, message_bytes, message_in};
ghost use Rattle.rdm_messages.specs.Serving.{AreDone, AllWritten, LastCutShort};

use crate::on_line::OnLine;
use crate::protocol::answer;
use rdm_messages::{Clock, FRAME_BYTES, Front, MessageView, front_of};
use rdm_streams::{WriteFault, write_all};
use std::io::Write;

/// Answers all messages that stand in these bytes, and says how many bytes are done with.
pub(crate) fn answer_all<W: Write, C: Clock, L: OnLine>(
    writer: &mut W,
    clock: &mut C,
    line: &mut L,
    bytes: &[u8],
) -> Result<usize, WriteFault>
    ensures ok { IfOk result (λ count. (s : L.Situation) → L.hearing.is_in line.old s → AreDone C.tells L.hearing clock.old clock.new
        bytes.now (drop count bytes.now) s line.new (AllWritten L.hearing (W.contents writer.old) (W.contents writer.new))) }
    ensures rest { IfOk result (λ count. (count ≤ length bytes.now) × IsUnfinished (drop count bytes.now)) }
    ensures err { OnErr result ((s : L.Situation) → L.hearing.is_in line.old s → (rest : List ℕ) × AreDone C.tells L.hearing clock.old clock.new
        bytes.now rest s line.new (LastCutShort L.hearing (W.contents writer.old) (W.contents writer.new))) }
{
    let mut done = 0;
    while done < bytes.len() {
        match answer_front(writer, clock, line, &bytes[done..]) {
            Ok(count) => {
                done += count;
                if count == 0 {
                    return Ok(done);
                }
            }
            Err(fault) => return Err(fault),
        }
    }
    Ok(done)
}

/// Answers the message at the front of these bytes, or passes over a byte with which none begins, and says how many bytes are
/// done with. It is 0 if a message begins of which more must be read.
fn answer_front<W: Write, C: Clock, L: OnLine>(
    writer: &mut W,
    clock: &mut C,
    line: &mut L,
    bytes: &[u8],
) -> Result<usize, WriteFault>
    ensures ok { IfOk result (λ count. (s : L.Situation) → L.hearing.is_in line.old s → AreDone C.tells L.hearing clock.old clock.new
        bytes.now (drop count bytes.now) s line.new (AllWritten L.hearing (W.contents writer.old) (W.contents writer.new))) }
    ensures within { IfOk result (λ count. count ≤ length bytes.now) }
    ensures unfinished { IfOk result (λ count. count ≡ 0 → IsUnfinished bytes.now) }
    ensures err { OnErr result ((s : L.Situation) → L.hearing.is_in line.old s → (rest : List ℕ) × AreDone C.tells L.hearing clock.old clock.new
        bytes.now rest s line.new (LastCutShort L.hearing (W.contents writer.old) (W.contents writer.new))) }
{
    match front_of(bytes) {
        Front::Unfinished => Ok(0),
        Front::Stray => Ok(1),
        Front::Whole(message) => match answer_one(writer, clock, line, &message) {
            Ok(()) => Ok(message.body.len() + FRAME_BYTES),
            Err(fault) => Err(fault),
        },
    }
}

/// Answers a message.
fn answer_one<W: Write, C: Clock, L: OnLine>(
    writer: &mut W,
    clock: &mut C,
    line: &mut L,
    message: &MessageView<'_>,
) -> Result<(), WriteFault>
    ensures ok { OnOk result ((s : L.Situation) (bytes rest : List ℕ) → L.hearing.is_in line.old s → IsMessage (message_in message.now) →
        bytes ≡ message_bytes (message_in message.now) ++ rest → AreDone C.tells L.hearing clock.old clock.new
        bytes rest s line.new (AllWritten L.hearing (W.contents writer.old) (W.contents writer.new))) }
    ensures err { OnErr result ((s : L.Situation) (bytes rest : List ℕ) → L.hearing.is_in line.old s → IsMessage (message_in message.now) →
        bytes ≡ message_bytes (message_in message.now) ++ rest → AreDone C.tells L.hearing clock.old clock.new
        bytes rest s line.new (LastCutShort L.hearing (W.contents writer.old) (W.contents writer.new))) }
{
    let now = clock.now();
    let packet = answer(line, now, message);
    write_all(writer, packet.as_slice())
}
