//! The rule that a response breaks, beside one that a fixture gives to the same request.

ghost use Rattle.std.specs.Prelude.{◌≡◌};
ghost use Rattle.rdm_frame.specs.Addressing.{same_uid};
ghost use Rattle.rdm_judge.specs.Judging.{acks_beside, broken, broken_by_type, comes_before, fetches, first_word, is_either, is_set, may_be_taken, may_stand_beside, nack_beside, rule_unless, same_parameter};

use crate::verdict::Rule;
use rdm_frame::standard::{
    ACK_TIMER, GET_COMMAND, NACK_REASON, QUEUED_MESSAGE, SET_COMMAND, STATUS_MESSAGES,
    SUB_DEVICE_ALL_CALL,
};
use rdm_frame::{FrameView, Nack, Uid};

/// The first rule that a response to a request breaks, if the other response is one that a fixture with this UID and profile gives.
pub(crate) fn broken(
    request: &FrameView<'_>,
    given: &FrameView<'_>,
    reply: &FrameView<'_>,
) -> Option<Rule>
    ensures { result ≡ broken request.now given.now reply.now }
{
    if !is_same(given.dst, reply.dst) || !is_same(given.src, reply.src) {
        return Some(Rule::Addresses);
    }
    if given.tn != reply.tn {
        return Some(Rule::TransactionNumber);
    }
    if !fetches(request) && !have_same_parameter(given, reply) {
        return Some(Rule::Parameter);
    }
    let given = (given.port, first_word(given.body));
    broken_by_type(request, given, (reply.port, first_word(reply.body)))
}

/// Whether two UIDs are one.
fn is_same(first: Uid, second: Uid) -> bool
    ensures { result ≡ same_uid first second }
{
    first.maker == second.maker && first.device == second.device
}

/// Whether two responses are of one sub-device, command class and parameter.
fn have_same_parameter(given: &FrameView<'_>, reply: &FrameView<'_>) -> bool
    ensures { result ≡ same_parameter given.now reply.now }
{
    given.sub == reply.sub && given.class == reply.class && given.pid == reply.pid
}

/// The first two slots of parameter data: the reason of a NACK, or the estimate of ACK_TIMER (E1.20 sections 6.3.3 and 6.3.4).
fn first_word(body: &[u8]) -> u16
    ensures { result ≡ first_word body.now }
{
    match body {
        [upper, lower, ..] => u16::from_be_bytes([*upper, *lower]),
        _ => 0,
    }
}

/// The rule that two response types break, each with its first word (table A-2).
fn broken_by_type(request: &FrameView<'_>, given: (u8, u16), reply: (u8, u16)) -> Option<Rule>
    ensures { result ≡ broken_by_type request.now given.0 given.1 reply.0 reply.1 }
{
    if given.0 == NACK_REASON {
        if reply.0 == NACK_REASON {
            return rule_unless(is_either(request, given.1, reply.1), Rule::Reason);
        }
        return nack_beside(request, given.1, reply.0);
    }
    if reply.0 == NACK_REASON {
        return nack_beside(request, reply.1, given.0);
    }
    acks_beside(given, reply)
}

/// The rule that is broken by two response types of which neither is a NACK.
fn acks_beside(given: (u8, u16), reply: (u8, u16)) -> Option<Rule>
    ensures { result ≡ acks_beside given.0 given.1 reply.0 reply.1 }
{
    if given.0 != reply.0 {
        return Some(Rule::ResponseType);
    }
    if given.0 == ACK_TIMER && given.1 != reply.1 {
        return Some(Rule::Estimate);
    }
    None
}

/// A rule that is broken unless this holds.
pub(crate) fn rule_unless(kept: bool, rule: Rule) -> Option<Rule>
    ensures { result ≡ rule_unless kept rule }
{
    if kept { None } else { Some(rule) }
}

/// A NACK beside another response type.
fn nack_beside(request: &FrameView<'_>, reason: u16, other: u8) -> Option<Rule>
    ensures { result ≡ nack_beside request.now reason other }
{
    rule_unless(may_stand_beside(request, reason, other), Rule::Reason)
}

/// Whether a fixture may reject for this reason what it answers with this response type if it keeps other values: ACK_TIMER is due
/// unless there is no room for the job (table A-17).
fn may_stand_beside(request: &FrameView<'_>, reason: u16, other: u8) -> bool
    ensures { result ≡ may_stand_beside request.now reason other }
{
    if other == ACK_TIMER {
        return reason == Nack::BufferFull.code();
    }
    may_be_taken(request, reason)
}

/// Whether a request that is rejected for this reason is acknowledged if the fixture keeps other values.
fn may_be_taken(request: &FrameView<'_>, reason: u16) -> bool
    ensures { result ≡ may_be_taken request.now reason }
{
    reason == Nack::DataOutOfRange.code() || is_set(request) && reason == Nack::WriteProtect.code()
}

/// Whether a request is rejected for one reason or the other, as the values of the fixture are.
fn is_either(request: &FrameView<'_>, first: u16, second: u16) -> bool
    ensures { result ≡ is_either request.now first second }
{
    first == second || comes_before(request, first, second) || comes_before(request, second, first)
}

/// Whether a SET gets the first reason in place of the second, if the values of the fixture are others.
fn comes_before(request: &FrameView<'_>, first: u16, second: u16) -> bool
    ensures { result ≡ comes_before request.now first second }
{
    let is_locked = first == Nack::WriteProtect.code();
    let is_out_of_range = first == Nack::DataOutOfRange.code();
    let before_data = is_locked
        && (second == Nack::FormatError.code() || second == Nack::DataOutOfRange.code());
    let before_jobs = second == Nack::SubDeviceOutOfRange.code()
        && (is_locked || is_out_of_range)
        && request.sub == SUB_DEVICE_ALL_CALL;
    is_set(request) && (before_data || before_jobs)
}

/// Whether it is a SET.
fn is_set(request: &FrameView<'_>) -> bool
    ensures { result ≡ is_set request.now }
{
    request.class == SET_COMMAND
}

/// Whether it is a GET that fetches what waits in the fixture (sections 10.3.1 and 10.3.2).
pub(crate) fn fetches(request: &FrameView<'_>) -> bool
    ensures { result ≡ fetches request.now }
{
    request.class == GET_COMMAND
        && (request.pid == QUEUED_MESSAGE || request.pid == STATUS_MESSAGES)
}
