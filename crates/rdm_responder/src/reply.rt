//! The reply: a heading, the data and the count of what waits, as the bytes of a response.

ghost use Rattle.std.specs.Prelude.{◌≡◌, ◌<◌, ◌≤◌, length};
ghost use Rattle.std.specs.Bool.{OnFalse};
ghost use Rattle.rdm_frame.specs.Addressing.{is_broadcast};
ghost use Rattle.rdm_outbox.specs.Account.{Account};
ghost use Rattle.rdm_outbox.specs.Shows.{Shows};
ghost use Rattle.rdm_responder.specs.Headings.{response_with, own_heading, message_heading};
ghost use Rattle.rdm_responder.specs.Requests.{IsFrom};
ghost use Rattle.rdm_responder.specs.Rules.{ack_message, answered, answer_with, message_count};

use rdm_frame::standard::ACK;
use rdm_frame::{FrameView, Uid, Wire, encode_into, uid_at};
use rdm_outbox::Outbox;
use rdm_params::Message;

/// What a response says beside its data, and beside whom it is for.
#[derive(Clone, Copy, Debug)]
pub(crate) struct Heading {
    port: u8,
    class: u8,
    sub: u16,
    pid: u16,
}

impl Heading {
    /// The heading of a response to the request itself, of this response type (E1.20 section 6.2.7).
    pub(crate) fn of_own(request: &FrameView<'_>, port: u8) -> Heading
        requires { request.now.class < 255 }
        ensures { result ≡ own_heading request.now port }
    {
        Heading {
            port,
            class: request.class + 1,
            sub: request.sub,
            pid: request.pid,
        }
    }

    /// The heading of a response that carries a message.
    fn of_message(message: &Message) -> Heading
        ensures { result ≡ message_heading message.now }
    {
        Heading {
            port: ACK,
            class: message.class,
            sub: message.sub,
            pid: message.pid,
        }
    }
}

/// Writes the bytes of a response that carries the last message.
// Inlined, as `carry_out` says.
#[inline(always)]
pub(crate) fn send_last(
    own: Uid,
    bytes: &[u8],
    request: &FrameView<'_>,
    many: bool,
    outbox: &Outbox,
    wire: &mut Wire,
) -> bool
    requires from { IsFrom bytes.now request.now }
    requires many { many ≡ is_broadcast request.now.dst }
    ensures reply { (b : Account) → Shows outbox.now b →
        answered result wire.new ≡ answer_with own request.now (message_count b) (ack_message outbox.now.last) }
    ensures silent { OnFalse result (wire.new ≡ wire.old) }
{
    let message = outbox.last();
    let heading = Heading::of_message(message);
    send(
        own,
        bytes,
        request,
        many,
        heading,
        message.body.as_slice(),
        outbox.count(),
        wire,
    )
}

/// Writes the bytes of a response, unless the request was for more than one device: that is never answered, and `wire`
/// stays as it was. It says whether there is a response.
// Source and transaction number are read here from the bytes of the request: those that were read first would take registers
// through all that lies between.
#[inline(always)]
#[tactic(auto, unfolding(crate::specs::Rules::answer_with))]
pub(crate) fn send(
    own: Uid,
    bytes: &[u8],
    request: &FrameView<'_>,
    many: bool,
    heading: Heading,
    data: &[u8],
    count: u8,
    wire: &mut Wire,
) -> bool
    requires from { IsFrom bytes.now request.now }
    requires many { many ≡ is_broadcast request.now.dst }
    requires fits { length data.now ≤ 231 }
    ensures reply { answered result wire.new ≡ answer_with own request.now count (response_with heading data.now) }
    ensures silent { OnFalse result (wire.new ≡ wire.old) }
{
    if many {
        return false;
    }
    let response = FrameView {
        dst: uid_at(bytes, 9),
        src: own,
        tn: bytes[15],
        port: heading.port,
        count,
        sub: heading.sub,
        class: heading.class,
        pid: heading.pid,
        body: data,
    };
    encode_into(&response, wire);
    true
}
