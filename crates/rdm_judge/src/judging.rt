//! The verdict on a reply.

ghost use Rattle.std.specs.Prelude.{◌≡◌, Option, Some, None, option_map};
ghost use Rattle.rdm_frame.specs.Addressing.{same_uid};
ghost use Rattle.rdm_frame.specs.Reading.{frame_in};
ghost use Rattle.rdm_responder.specs.History.{History, Heard, then_event};
ghost use Rattle.rdm_responder.specs.Rules.{is_between, reply_of};
ghost use Rattle.rdm_responder.specs.StandsFor.{StandsFor};
ghost use Rattle.rdm_judge.specs.Judging.{judged, on_asked, on_branch, on_frames, on_mute, on_other, on_rule, on_silence, verdict_beside};

use crate::asked::{Asked, asked_by};
use crate::comparing::broken;
use crate::verdict::{Doubt, Judged, Rule, Verdict};
use rdm_frame::{FrameView, Uid, Wire, decode_view, disc_reply};
use rdm_responder::Responder;

/// What is said of the reply to a request, or of that there is none.
///
/// `twin` is a responder with the UID and the profile of the fixture that replies, which receives the same requests, this one too. A reply
/// is `Right` if it is the twin's. Otherwise it is `Wrong` if no fixture with this UID and profile gives it, whatever happened to it: its
/// jobs may have ended, somebody may have turned its menu, its firmware may have placed values.
pub fn judge(twin: &mut Responder, request: &[u8], reply: Option<&[u8]>) -> Judged
    ensures verdict { (h : History) → StandsFor twin.old h → result.verdict ≡ judged h request.now (option_map (λ bytes. bytes.now) reply.entry) }
    ensures given { (h : History) → StandsFor twin.old h → result.given ≡ reply_of h request.now }
    ensures stands { (h : History) → StandsFor twin.old h → StandsFor twin.new (then_event h (Heard request.now)) }
{
    let own = twin.uid();
    let (given, _job) = twin.step(request);
    let verdict = beside_wire(own, request, &given, reply);
    Judged { verdict, given }
}

/// What is said of a reply beside the reply that is given.
fn beside_wire(own: Uid, request: &[u8], given: &Option<Wire>, reply: Option<&[u8]>) -> Verdict
    ensures { result ≡ verdict_beside own (frame_in request.now) given.now (option_map (λ bytes. bytes.now) reply.entry) }
{
    match given {
        Some(given) => beside(own, request, Some(given.as_slice()), reply),
        None => beside(own, request, None, reply),
    }
}

/// The same, beside the reply that is given.
fn beside(own: Uid, request: &[u8], given: Option<&[u8]>, reply: Option<&[u8]>) -> Verdict
    ensures { result ≡ verdict_beside own (frame_in request.now) (option_map (λ bytes. bytes.now) given.entry) (option_map (λ bytes. bytes.now) reply.entry) }
{
    match (given, reply) {
        (None, None) => Verdict::Right,
        (Some(_), None) => Verdict::Open(Doubt::Lost),
        (Some(given), Some(reply)) if reply == given => Verdict::Right,
        (_, Some(reply)) => on_other(own, request, given, reply),
    }
}

/// A reply that isn't the one that is given.
fn on_other(own: Uid, request: &[u8], given: Option<&[u8]>, reply: &[u8]) -> Verdict
    ensures { result ≡ on_other own (frame_in request.now) (option_map (λ bytes. bytes.now) given.entry) reply.now }
{
    match decode_view(request) {
        Ok(request) => on_asked(own, &request, given, reply),
        Err(_) => on_silence(own, reply),
    }
}

/// A reply to a frame that isn't the one that is given.
fn on_asked(own: Uid, request: &FrameView<'_>, given: Option<&[u8]>, reply: &[u8]) -> Verdict
    ensures { result ≡ on_other own (Some request.now) (option_map (λ bytes. bytes.now) given.entry) reply.now }
{
    match (asked_by(own, request), given) {
        (Asked::Branch { lower, upper }, _) => on_branch(own, lower, upper, reply),
        (Asked::Mute, Some(given)) => on_mute(on_frames(request, given, reply)),
        (Asked::Command, Some(given)) => on_frames(request, given, reply),
        _ => on_silence(own, reply),
    }
}

/// Two responses, if both are frames.
fn on_frames(request: &FrameView<'_>, given: &[u8], reply: &[u8]) -> Verdict
    ensures { result ≡ on_frames request.now (frame_in given.now) (frame_in reply.now) }
{
    match (decode_view(given), decode_view(reply)) {
        (Ok(given), Ok(reply)) => on_rule(broken(request, &given, &reply)),
        _ => Verdict::Open(Doubt::Altered),
    }
}

/// What follows from the rule that a response breaks.
fn on_rule(rule: Option<Rule>) -> Verdict
    ensures { result ≡ on_rule rule }
{
    match rule {
        Some(rule) => Verdict::Wrong(rule),
        None => Verdict::Open(Doubt::Kept),
    }
}

/// The same of a mute, whose response doesn't depend on what the device keeps (E1.20 section 7.6).
fn on_mute(verdict: Verdict) -> Verdict
    ensures { result ≡ on_mute verdict }
{
    match verdict {
        Verdict::Open(Doubt::Kept) => Verdict::Wrong(Rule::Mute),
        verdict => verdict,
    }
}

/// A reply to DISC_UNIQUE_BRANCH (section 7.5).
fn on_branch(own: Uid, lower: Uid, upper: Uid, reply: &[u8]) -> Verdict
    ensures { result ≡ on_branch own (is_between lower own upper) reply.now }
{
    if reply != disc_reply(own).as_slice() {
        return Verdict::Open(Doubt::Other);
    }
    if lower.number() <= own.number() && own.number() <= upper.number() {
        Verdict::Open(Doubt::Muted)
    } else {
        Verdict::Wrong(Rule::Branch)
    }
}

/// A reply where none is given.
fn on_silence(own: Uid, reply: &[u8]) -> Verdict
    ensures { result ≡ on_silence own (frame_in reply.now) }
{
    match decode_view(reply) {
        Ok(reply) if is_from(own, &reply) => Verdict::Wrong(Rule::Silence),
        Ok(_) => Verdict::Open(Doubt::Other),
        Err(_) => Verdict::Open(Doubt::Altered),
    }
}

/// Whether a frame is from the device with this UID.
pub(crate) fn is_from(own: Uid, reply: &FrameView<'_>) -> bool
    ensures { result ≡ same_uid reply.now.src own }
{
    reply.src.maker == own.maker && reply.src.device == own.device
}
