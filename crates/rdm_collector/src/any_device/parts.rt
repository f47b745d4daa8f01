//! The parts of a message that doesn't fit one response, and their data joined (E1.20 section 6.3.2).

ghost use Rattle.std.specs.Prelude.{◌≡◌, ◌≤◌, ◌++◌, [], length, take, is_some, IfSome, OnOk, OnErr};
ghost use Rattle.rdm_collector.specs.AnyDevice.Items.{item_of, same_item, type_code};
ghost use Rattle.rdm_collector.specs.AnyDevice.Parts.{is_part, same_parameter, is_repeat, goes_on, run_behind, first_run, ends_in_part, has_whole, is_unsure, is_unsure_behind, is_sure, data_behind, joined_data};

use crate::any_device::collected::Collected;
use crate::reply::Response;
use rdm_frame::Message;
use rdm_frame::standard::{ACK, ACK_OVERFLOW, ACK_TIMER, NACK_REASON};
use std::alloc::AllocError;

/// The first message of what was recorded, if it is whole: the one that came first and its repeats, or all its parts in order
/// (E1.20 section 6.3.2). So many may be forgotten when it is done with.
///
/// Parts are of one message as long as the next that was recorded is of the same command class, parameter and sub-device. If
/// something else follows a part, the rest won't come, and what came is given: its last is then an ACK_OVERFLOW.
pub fn first_message(recorded: &[Collected]) -> Option<&[Collected]>
    ensures items { IfSome result (λ items. items.now ≡ take (first_run recorded.now) recorded.now) }
    ensures whole { is_some result ≡ has_whole recorded.now }
{
    let count = first_run(recorded);
    if recorded.is_empty() || (count == recorded.len() && ends_in_part(recorded)) {
        return None;
    }
    Some(&recorded[..count])
}

/// How many of what was recorded make up the first message, as far as it came.
fn first_run(recorded: &[Collected]) -> usize
    ensures count { result ≡ first_run recorded.now }
    ensures within { result ≤ length recorded.now }
{
    match recorded.split_first() {
        Some((first, others)) => run_behind(first, others) + 1,
        None => 0,
    }
}

/// How many of those behind go on, one after the other.
fn run_behind(first: &Collected, others: &[Collected]) -> usize
    ensures count { result ≡ run_behind first.now others.now }
    ensures within { result ≤ length others.now }
{
    let mut before = first;
    for (index, item) in others.iter().enumerate() {
        if !goes_on(before, item) {
            return index;
        }
        before = item;
    }
    others.len()
}

/// Replaces `bytes` by the data of a message that `first_message` gave: those of its parts, one behind the other, at most 231
/// bytes for each. A part that was asked for again and says the same as the one before it is taken for a repeat, and left out.
///
/// It fails if there is no memory for them, and then `bytes` is empty.
pub fn join_data(items: &[Collected], bytes: &mut Vec<u8>) -> Result<(), AllocError>
    ensures ok { OnOk result (bytes.new.items ≡ joined_data items.now) }
    ensures err { OnErr result (bytes.new.items ≡ []) }
{
    bytes.clear();
    let Some((first, others)) = items.split_first() else {
        return Ok(());
    };
    if let Err(error) = append_data(first, others, bytes) {
        bytes.clear();
        return Err(error);
    }
    Ok(())
}

/// Puts the data of these at the end, the repeats left out.
fn append_data(
    first: &Collected,
    others: &[Collected],
    bytes: &mut Vec<u8>,
) -> Result<(), AllocError>
    ensures { OnOk result (bytes.new.items ≡ bytes.old.items ++ (first.now.message.body ++ data_behind first.now others.now)) }
{
    bytes.extend_from_slice(first.message.body.as_slice())?;
    let mut before = first;
    for item in others {
        if !is_repeat(before, item) {
            bytes.extend_from_slice(item.message.body.as_slice())?;
        }
        before = item;
    }
    Ok(())
}

/// Whether each poll between the first and the last part of a message that `first_message` gave was answered. If one wasn't, a
/// part may be missing: one that says the same as the part before it can't be told from a repeat, and `join_data` leaves it out.
pub fn is_sure(items: &[Collected]) -> bool
    ensures { result ≡ is_sure items.now }
{
    match items.split_first() {
        Some((first, others)) => !is_unsure_behind(first, others),
        None => true,
    }
}

/// Whether one of those behind is unsure.
fn is_unsure_behind(first: &Collected, others: &[Collected]) -> bool
    ensures { result ≡ is_unsure_behind first.now others.now }
{
    let mut before = first;
    for item in others {
        if is_unsure(before, item) {
            return true;
        }
        before = item;
    }
    false
}

/// Whether this goes on with a message, and a poll has no answer since the part before it.
fn is_unsure(before: &Collected, item: &Collected) -> bool
    ensures { result ≡ is_unsure before.now item.now }
{
    is_part(before.response) && item.after_loss
}

/// Whether this goes on with the message of what was recorded before it.
fn goes_on(before: &Collected, item: &Collected) -> bool
    ensures { result ≡ goes_on before.now item.now }
{
    is_repeat(before, item)
        || (is_part(before.response) && is_same_parameter(&before.message, &item.message))
}

/// Whether this may be a repeat of what was recorded before it.
fn is_repeat(before: &Collected, item: &Collected) -> bool
    ensures { result ≡ is_repeat before.now item.now }
{
    item.again && says_the_same(before, item)
}

/// Whether the two have one response type, and their messages say the same.
#[tactic(auto, unfolding(crate::specs::AnyDevice::Items::same_item, crate::specs::Recording::same_message))]
fn says_the_same(a: &Collected, b: &Collected) -> bool
    ensures { result ≡ same_item (item_of a.now) (item_of b.now) }
{
    type_code(a.response) == type_code(b.response)
        && a.message.class == b.message.class
        && a.message.pid == b.message.pid
        && a.message.sub == b.message.sub
        && a.message.body.as_slice() == b.message.body.as_slice()
}

/// Whether two messages are of one command class, parameter and sub-device.
fn is_same_parameter(a: &Message, b: &Message) -> bool
    ensures { result ≡ same_parameter a.now b.now }
{
    a.class == b.class && a.pid == b.pid && a.sub == b.sub
}

/// Whether the last of these is a part.
fn ends_in_part(recorded: &[Collected]) -> bool
    ensures { result ≡ ends_in_part recorded.now }
{
    match recorded.last() {
        Some(last) => is_part(last.response),
        None => false,
    }
}

/// Whether more of the message follows.
fn is_part(response: Response) -> bool
    ensures { result ≡ is_part response }
{
    type_code(response) == ACK_OVERFLOW
}

/// The code of a response type (E1.20 table A-2).
fn type_code(response: Response) -> u8
    ensures { result ≡ type_code response }
{
    match response {
        Response::Ack => ACK,
        Response::AckTimer { .. } => ACK_TIMER,
        Response::Nack { .. } => NACK_REASON,
        Response::AckOverflow => ACK_OVERFLOW,
    }
}
