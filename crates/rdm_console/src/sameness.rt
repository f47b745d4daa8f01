//! When what a device said goes on with what it said before, or says the same.

ghost use Rattle.std.specs.Prelude.{◌≡◌};
ghost use Rattle.rdm_collector.specs.AnyDevice.Items.{type_code};
ghost use Rattle.rdm_collector.specs.AnyDevice.Parts.{goes_on, is_part, is_repeat, same_parameter};
ghost use Rattle.rdm_console.specs.Mailboxes.{says_the_same, told_of};

use crate::MessageView;
use rdm_collector::{Collected, Message, Response};
use rdm_frame::standard::{ACK, ACK_OVERFLOW, ACK_TIMER, NACK_REASON};

/// Whether this may be a repeat of what was collected before it.
#[tactic(auto, unfolding(rdm_collector::specs::AnyDevice::Items::same_item, rdm_collector::specs::Recording::same_message))]
pub(crate) fn is_repeat(before: &Collected, item: &Collected) -> bool
    ensures { result ≡ is_repeat before.now item.now }
{
    item.again && says_the_same(&view_of(before), &view_of(item))
}

/// Whether this goes on with the message of what was collected before it.
pub(crate) fn goes_on(before: &Collected, item: &Collected) -> bool
    ensures { result ≡ goes_on before.now item.now }
{
    is_repeat(before, item)
        || (is_part(before.response) && is_same_parameter(&before.message, &item.message))
}

/// Whether more of the message follows.
pub(crate) fn is_part(response: Response) -> bool
    ensures { result ≡ is_part response }
{
    type_code(response) == ACK_OVERFLOW
}

/// Whether two messages say the same.
#[tactic(auto, unfolding(rdm_collector::specs::AnyDevice::Items::same_item, rdm_collector::specs::Recording::same_message))]
pub(crate) fn says_the_same(a: &MessageView<'_>, b: &MessageView<'_>) -> bool
    ensures { result ≡ says_the_same a.now b.now }
{
    type_code(a.response) == type_code(b.response)
        && a.class == b.class
        && a.pid == b.pid
        && a.sub == b.sub
        && a.body == b.body
}

/// What was collected, as a message.
fn view_of(item: &Collected) -> MessageView<'_>
    ensures { result ≡ told_of item.now }
{
    MessageView {
        response: item.response,
        class: item.message.class,
        sub: item.message.sub,
        pid: item.message.pid,
        body: item.message.body.as_slice(),
    }
}

/// Whether two messages are of one command class, parameter and sub-device.
fn is_same_parameter(a: &Message, b: &Message) -> bool
    ensures { result ≡ same_parameter a.now b.now }
{
    a.class == b.class && a.pid == b.pid && a.sub == b.sub
}

/// The code of a response type (E1.20 table A-2).
fn type_code(response: Response) -> u8
    ensures { result ≡ type_code response }
{
    match response {
        Response::Ack => ACK,
        Response::AckTimer { .. } => ACK_TIMER,
        Response::Nack { .. } => NACK_REASON,
        Response::AckOverflow => ACK_OVERFLOW,
    }
}
