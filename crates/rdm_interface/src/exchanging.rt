//! What is asked of the interface, and what it answers.

ghost use Rattle.std.specs.Prelude.{◌≡◌, ◌≢◌, ◌<◌, ◌≤◌, ℕ, List, length, true, Option, Some, None, IfOk, OnOk, OnErr};
ghost use Rattle.std.specs.Io.KnownBytes.{Appends, IsAtEnd};
ghost use Rattle.rdm_messages.specs.Ends.{end_at};
ghost use Rattle.rdm_messages.specs.Framing.{Message, message_bytes, message_in};
ghost use Rattle.rdm_interface.specs.Answers.{belongs, has_end, label_for, request_message, wanted_by};
ghost use Rattle.rdm_interface.specs.Exchanges.{IsAsked, IsCutOff, IsEnded, IsExchanged, IsReadOn};

use crate::answer::Answer;
use crate::waiting::await_answer;
use crate::wanted::{Wanted, wanted_by};
use rdm_collector::PortError;
use rdm_frame::Wire;
use rdm_messages::labels::TIMEOUT;
use rdm_messages::{Clock, MessageView, Packet, packet_of};
use rdm_streams::write_all;
use std::io::{Read, Write};

/// Sends the bytes of a request on the line, and says what is heard there.
pub(crate) fn exchange<R: Read, W: Write, C: Clock>(
    reader: &mut R,
    writer: &mut W,
    clock: &mut C,
    held: &mut Packet,
    span: u16,
    request: &[u8],
) -> Result<Option<Wire>, PortError>
    requires held { length held.old < 605 }
    requires fits { length request.now ≤ 600 }
    ensures exchanged { IfOk result (IsExchanged C.tells span
        (end_at clock.old (R.remaining reader.old) (W.contents writer.old) held.old)
        (end_at clock.new (R.remaining reader.new) (W.contents writer.new) held.new) request.now) }
    ensures passed { OnErr result (label_for (wanted_by request.now) ≡ 7 → IsReadOn (belongs (wanted_by request.now))
        (R.remaining reader.old) (R.remaining reader.new) held.old held.new None) }
    ensures closed { result ≡ Err PortError.Closed → IsAtEnd (R.remaining reader.new) }
    ensures written { result ≢ Err PortError.Write
        → Appends (W.contents writer.old) (W.contents writer.new) (message_bytes (request_message request.now)) }
    ensures cut { result ≡ Err PortError.Write
        → IsCutOff (W.contents writer.old) (W.contents writer.new) (message_bytes (request_message request.now)) }
    ensures room { length held.new < 605 }
{
    let wanted = wanted_by(request);
    let asked = MessageView {
        label: wanted.label(),
        body: request,
    };
    match ask(reader, writer, clock, held, span, &asked, &wanted) {
        Ok(Some(answer)) => match await_end(reader, clock, held, span, &wanted, &answer) {
            Ok(()) => Ok(answer.heard()),
            Err(error) => Err(error),
        },
        Ok(None) => Ok(None),
        Err(error) => Err(error),
    }
}

/// Writes a message, and waits for the one that answers it.
pub(crate) fn ask<R: Read, W: Write, C: Clock>(
    reader: &mut R,
    writer: &mut W,
    clock: &mut C,
    held: &mut Packet,
    span: u16,
    asked: &MessageView<'_>,
    wanted: &Wanted<'_>,
) -> Result<Option<Answer>, PortError>
    requires held { length held.old < 605 }
    requires fits { length asked.now.body.now ≤ 600 }
    ensures asked { IfOk result (IsAsked C.tells span
        (end_at clock.old (R.remaining reader.old) (W.contents writer.old) held.old)
        (end_at clock.new (R.remaining reader.new) (W.contents writer.new) held.new) (message_in asked.now) (belongs wanted.now)) }
    ensures passed { OnErr result
        (IsReadOn (belongs wanted.now) (R.remaining reader.old) (R.remaining reader.new) held.old held.new None) }
    ensures closed { result ≡ Err PortError.Closed → IsAtEnd (R.remaining reader.new) }
    ensures written { result ≢ Err PortError.Write
        → Appends (W.contents writer.old) (W.contents writer.new) (message_bytes (message_in asked.now)) }
    ensures cut { result ≡ Err PortError.Write
        → IsCutOff (W.contents writer.old) (W.contents writer.new) (message_bytes (message_in asked.now)) }
    ensures room { length held.new < 605 }
{
    let packet = packet_of(asked.label, asked.body);
    match write_all(writer, packet.as_slice()) {
        Ok(()) => await_answer(reader, clock, held, wanted, span),
        Err(_) => Err(PortError::Write),
    }
}

/// Waits until the interface says that the bytes which answer DISC_UNIQUE_BRANCH were all, or the limit is over.
fn await_end<R: Read, C: Clock>(
    reader: &mut R,
    clock: &mut C,
    held: &mut Packet,
    span: u16,
    wanted: &Wanted<'_>,
    answer: &Answer,
) -> Result<(), PortError>
    requires { length held.old < 605 }
    // Whatever was written stays.
    ensures ended { OnOk result ((end : Option Message) × ((written : Option (List ℕ)) → IsEnded C.tells span
        (end_at clock.old (R.remaining reader.old) written held.old)
        (end_at clock.new (R.remaining reader.new) written held.new) (has_end wanted.now (Some answer.now)) end)) }
    ensures failed { OnErr result (has_end wanted.now (Some answer.now) ≡ true) }
    ensures closed { result ≡ Err PortError.Closed → IsAtEnd (R.remaining reader.new) }
    ensures read { result ≢ Err PortError.Write }
    ensures room { length held.new < 605 }
{
    if !has_end(wanted, answer) {
        return Ok(());
    }
    let end = Wanted::Labelled(TIMEOUT);
    match await_answer(reader, clock, held, &end, span) {
        Ok(_end) => Ok(()),
        Err(error) => Err(error),
    }
}

/// Whether a message comes behind an answer which says that it was all.
fn has_end(wanted: &Wanted<'_>, answer: &Answer) -> bool
    ensures { result ≡ has_end wanted.now (Some answer.now) }
{
    match wanted {
        Wanted::Branch => answer.is_from_line(),
        Wanted::Labelled(_) | Wanted::Response(_) | Wanted::Anything => false,
    }
}
