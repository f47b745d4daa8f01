//! What is answered to a message.

ghost use Rattle.std.specs.Prelude.{◌≡◌, ◌≤◌, length};
ghost use Rattle.rdm_messages.specs.Framing.{bytes_of, message_bytes, message_in};
ghost use Rattle.rdm_messages.specs.Protocol as says;

use crate::on_line::OnLine;
use rdm_frame::{Bytes, Wire};
use rdm_messages::labels::{DISCOVERY, FROM_LINE, PARAMETERS, REQUEST, SERIAL_NUMBER, TIMEOUT};
use rdm_messages::{MessageView, Packet, packet_of};

/// Firmware 2.4, a break of 9 and a mark of 1 times 10.67 µs, and 40 packets a second.
const PARAMETER_BYTES: [u8; 5] = [0x04, 0x02, 9, 1, 40];

const SERIAL_BYTES: [u8; 4] = [0x01, 0x00, 0x00, 0x00];

/// The bytes of the answer to a message that comes now.
pub(crate) fn answer<L: OnLine>(line: &mut L, now: u64, message: &MessageView<'_>) -> Packet
    ensures bytes { (s : L.Situation) → L.hearing.is_in line.old s →
        result ≡ bytes_of (says.answer_to L.hearing now s (message_in message.now)) }
    ensures heard { (s : L.Situation) → L.hearing.is_in line.old s →
        L.hearing.is_in line.new (says.after_message L.hearing now s (message_in message.now)) }
{
    match message.label {
        PARAMETERS => packet_of(PARAMETERS, &PARAMETER_BYTES),
        SERIAL_NUMBER => packet_of(SERIAL_NUMBER, &SERIAL_BYTES),
        REQUEST => answer_request(line, now, message.body),
        DISCOVERY => answer_discovery(line, now, message.body),
        _ => Bytes::new(),
    }
}

/// The answer to a request for the line: the reply, or that none came.
fn answer_request<L: OnLine>(line: &mut L, now: u64, request: &[u8]) -> Packet
    ensures bytes { (s : L.Situation) → L.hearing.is_in line.old s →
        result ≡ bytes_of (says.answer_of_line (L.hearing.reply now s request.now)) }
    ensures heard { (s : L.Situation) → L.hearing.is_in line.old s → L.hearing.is_in line.new (L.hearing.heard now s request.now) }
{
    let mut reply = Wire::new();
    if line.hear(now, request, &mut reply) {
        from_line(&reply)
    } else {
        packet_of(TIMEOUT, &[])
    }
}

/// The answer to a discovery request: the reply, if one came, and the end.
fn answer_discovery<L: OnLine>(line: &mut L, now: u64, request: &[u8]) -> Packet
    ensures bytes { (s : L.Situation) → L.hearing.is_in line.old s →
        result ≡ bytes_of (says.answer_of_discovery (L.hearing.reply now s request.now)) }
    ensures heard { (s : L.Situation) → L.hearing.is_in line.old s → L.hearing.is_in line.new (L.hearing.heard now s request.now) }
{
    let mut reply = Wire::new();
    let end = packet_of(TIMEOUT, &[]);
    if line.hear(now, request, &mut reply) {
        let mut packet = from_line(&reply);
        packet.append(end.as_slice());
        packet
    } else {
        end
    }
}

/// The message with what came from the line. Its first byte says that nothing went wrong.
fn from_line(reply: &Wire) -> Packet
    ensures bytes { result ≡ message_bytes (says.from_line reply.now) }
    ensures size { length result ≤ 263 }
{
    let mut body: Bytes<258> = Bytes::new();
    body.append(&[0]);
    body.append(reply.as_slice());
    packet_of(FROM_LINE, body.as_slice())
}
