//! Expectations are judged by the lines of a trace.

ghost use Rattle.std.specs.Prelude.{◌≡◌, ◌≤◌, ◌++◌, [], ◌∷◌, map, filter, find, slice_get, length, IfOk, OnOk, option_map};
ghost use Rattle.rdm_expect.specs.Verdicts.{is_send, is_reply, is_heard, sends_of, parts_of, bytes_told, heard_told, answered_in, heard_in, answer_in, came_of, came_in, time_told, sent_at, heard_at, passed_in, heard_of, is_answer_of, is_branch, asks_branch, is_found, is_ack, is_timer, is_overflow, is_nack, is_met, holds, verdict_if, in_time, judged, judged_at, verdict_of};

use crate::sheet::Expectation;
use crate::wish::Wish;
use rdm_collector::{Body, Heard, Response, Uid, Wire, read_reply};
use rdm_frame::standard::{DISC_UNIQUE_BRANCH, DISCOVERY_COMMAND};
use rdm_frame::{decode_view, disc_reply};
use rdm_trace::Line;
use std::alloc::{AllocError, Global};

/// What came to a request.
#[derive(Drop)]
pub enum Came {
    /// There was no such request: the run stopped before it.
    NoRequest,
    /// The controller heard nothing.
    Nothing,
    /// It heard something that isn't a reply to the request.
    Other,
    /// A reply that says this.
    Reply(Answer),
    /// A reply that took this many milliseconds.
    After(u64),
}

/// What a reply says.
#[derive(Drop)]
pub struct Answer {
    /// How the request is answered (E1.20 section 6.3).
    pub response: Response,
    /// How many messages wait in the device, at most 255 (section 6.2.8).
    pub waiting: u8,
    /// The parameter ID (table A-3).
    pub pid: u16,
    /// The parameter data, at most 231 bytes.
    pub body: Body,
}

/// What comes of an expectation.
#[derive(Drop)]
pub enum Verdict {
    /// It holds.
    Passed,
    /// It doesn't, by what came.
    Failed(Came),
    /// It can't be judged, since the trace has no times.
    Skipped,
}

/// What comes of each expectation of the device with this UID, by the lines of the trace of its script.
pub fn judge(
    alloc: Global,
    uid: Uid,
    expectations: &[Expectation],
    lines: &[Line],
) -> Result<Vec<Verdict>, AllocError>
    ensures { IfOk result (λ verdicts. verdicts.items ≡ map (verdict_of uid (sends_of lines.now) (parts_of lines.now)) expectations.now) }
{
    let sends = sends_of(alloc, lines)?;
    let parts = parts_of(alloc, lines)?;
    let mut verdicts = Vec::new(alloc);
    for expectation in expectations {
        put(&mut verdicts, verdict_of(uid, &sends, &parts, expectation))?;
    }
    Ok(verdicts)
}

/// Puts a verdict behind others.
fn put(verdicts: &mut Vec<Verdict>, verdict: Verdict) -> Result<(), AllocError>
    ensures { OnOk result (verdicts.new.items ≡ verdicts.old.items ++ verdict ∷ []) }
{
    match verdicts.push(verdict) {
        Ok(()) => Ok(()),
        Err(_) => Err(AllocError),
    }
}

/// The requests, each with what goes wrong on the way.
fn sends_of(alloc: Global, lines: &[Line]) -> Result<Vec<&Line>, AllocError>
    ensures { IfOk result (λ sends. map (λ line. line.now) sends.items ≡ sends_of lines.now) }
{
    lines.iter().filter(|line| is_send(line)).collect(alloc)
}

/// What stands before the first request, and behind each up to the next.
fn parts_of(alloc: Global, lines: &[Line]) -> Result<Vec<&[Line]>, AllocError>
    ensures { IfOk result (λ parts. map (λ part. part.now) parts.items ≡ parts_of lines.now) }
{
    lines.split(|line| is_send(line)).collect(alloc)
}

/// Whether a line tells of a request.
fn is_send(line: &Line) -> bool
    ensures { result ≡ is_send line.now }
{
    matches!(line, Line::Send { .. })
}

/// Whether a line tells what the device answers.
fn is_reply(line: &Line) -> bool
    ensures { result ≡ is_reply line.now }
{
    matches!(line, Line::Reply(_))
}

/// Whether a line tells what an answer is taken for.
fn is_heard(line: &Line) -> bool
    ensures { result ≡ is_heard line.now }
{
    matches!(line, Line::Heard(_))
}

/// What comes of an expectation.
fn verdict_of(uid: Uid, sends: &[&Line], parts: &[&[Line]], expectation: &Expectation) -> Verdict
    ensures { result ≡ verdict_of uid (map (λ line. line.now) sends.now) (map (λ part. part.now) parts.now) expectation.now }
{
    let before = part_at(parts, expectation.request);
    let sent = send_at(sends, expectation.request);
    let part = part_at(parts, expectation.request.saturating_add(1));
    match (before, part) {
        (Some(before), Some(part)) => judged(uid, &expectation.wish, before, sent, part),
        _ => Verdict::Failed(Came::NoRequest),
    }
}

/// The request at this index.
fn send_at<'a>(sends: &[&'a Line], index: usize) -> Option<&'a Line>
    ensures { option_map (λ line. line.now) result ≡ slice_get (map (λ line. line.now) sends.now) index }
{
    match sends.get(index) {
        Some(sent) => Some(*sent),
        None => None,
    }
}

/// The part at this index.
fn part_at<'a>(parts: &[&'a [Line]], index: usize) -> Option<&'a [Line]>
    ensures { option_map (λ part. part.now) result ≡ slice_get (map (λ part. part.now) parts.now) index }
{
    match parts.get(index) {
        Some(part) => Some(*part),
        None => None,
    }
}

/// Whether a wish is met by a request, and what stands before it and behind it.
fn judged(uid: Uid, wish: &Wish, before: &[Line], sent: Option<&Line>, part: &[Line]) -> Verdict
    ensures { result ≡ judged uid wish.now before.now (option_map (λ line. line.now) sent.entry) part.now }
{
    let came = came_in(part);
    match wish {
        Wish::Within(most) => in_time(*most, passed_in(before, part), came),
        Wish::Found => verdict_if(is_found(uid, sent, part), came),
        _ => verdict_if(holds(wish, &came), came),
    }
}

/// Passed, or failed by what came.
fn verdict_if(holds: bool, came: Came) -> Verdict
    ensures { result ≡ verdict_if holds came }
{
    if holds {
        Verdict::Passed
    } else {
        Verdict::Failed(came)
    }
}

/// Whether the request is DISC_UNIQUE_BRANCH, and the controller hears the answer of this device to it.
fn is_found(uid: Uid, sent: Option<&Line>, part: &[Line]) -> bool
    ensures { result ≡ is_found uid (option_map (λ line. line.now) sent.entry) part.now }
{
    match heard_of(sent, part) {
        Some(bytes) => asks_branch(sent) && is_answer_of(uid, bytes.as_slice()),
        None => false,
    }
}

/// Whether a line is of a request that is DISC_UNIQUE_BRANCH.
fn asks_branch(sent: Option<&Line>) -> bool
    ensures { result ≡ asks_branch (option_map (λ line. line.now) sent.entry) }
{
    match sent {
        Some(Line::Send { bytes, .. }) => is_branch(bytes.as_slice()),
        _ => false,
    }
}

/// Whether a request is DISC_UNIQUE_BRANCH.
fn is_branch(request: &[u8]) -> bool
    ensures { result ≡ is_branch request.now }
{
    match decode_view(request) {
        Ok(frame) => frame.class == DISCOVERY_COMMAND && frame.pid == DISC_UNIQUE_BRANCH,
        Err(_) => false,
    }
}

/// Whether bytes are the answer of this device to DISC_UNIQUE_BRANCH, of whose preamble interfaces may lose up to 7 (E1.20 section 7.5).
fn is_answer_of(uid: Uid, bytes: &[u8]) -> bool
    ensures { result ≡ is_answer_of uid bytes.now }
{
    let answer = disc_reply(uid);
    let lost = 24usize.saturating_sub(bytes.len());
    lost <= 7 && bytes == &answer[lost..]
}

/// The bytes of a reply that the controller hears, with what goes wrong on the way.
fn heard_of(sent: Option<&Line>, part: &[Line]) -> Option<Wire>
    ensures { result ≡ heard_of (option_map (λ line. line.now) sent.entry) part.now }
{
    match sent {
        Some(Line::Send { fault, .. }) => fault.reply_heard(answered_in(part)?),
        _ => None,
    }
}

/// What came to a request, by the lines behind it.
#[tactic(auto, unfolding(crate::specs::Verdicts::came_in))]
fn came_in(part: &[Line]) -> Came
    ensures { result ≡ came_in part.now }
{
    match heard_in(part) {
        None => Came::Nothing,
        Some(Heard::Ignored) => Came::Other,
        Some(Heard::Message | Heard::Reply) => answer_in(answered_in(part)),
    }
}

/// What the controller takes the answer for.
fn heard_in(part: &[Line]) -> Option<Heard>
    ensures { result ≡ heard_in part.now }
{
    heard_told(first_heard(part))
}

/// The first line that tells what an answer is taken for.
fn first_heard(part: &[Line]) -> Option<&Line>
    ensures { option_map (λ line. line.now) result ≡ find is_heard part.now }
{
    part.iter().find(|line| is_heard(line))
}

/// What a line tells that an answer is taken for.
fn heard_told(line: Option<&Line>) -> Option<Heard>
    ensures { result ≡ heard_told (option_map (λ line. line.now) line.entry) }
{
    match line {
        Some(Line::Heard(heard)) => *heard,
        _ => None,
    }
}

/// The bytes that the device answers.
fn answered_in(part: &[Line]) -> Option<&Wire>
    ensures { option_map (λ bytes. bytes.now) result ≡ answered_in part.now }
{
    bytes_told(first_reply(part))
}

/// The first line that tells what the device answers.
fn first_reply(part: &[Line]) -> Option<&Line>
    ensures { option_map (λ line. line.now) result ≡ find is_reply part.now }
{
    part.iter().find(|line| is_reply(line))
}

/// The bytes that a line tells that the device answers.
fn bytes_told(line: Option<&Line>) -> Option<&Wire>
    ensures { option_map (λ bytes. bytes.now) result ≡ bytes_told (option_map (λ line. line.now) line.entry) }
{
    match line {
        Some(Line::Reply(Some(bytes))) => Some(bytes),
        _ => None,
    }
}

/// What bytes say that are taken for an answer.
fn answer_in(bytes: Option<&Wire>) -> Came
    ensures { result ≡ answer_in (option_map (λ bytes. bytes.now) bytes.entry) }
{
    let Some(bytes) = bytes else {
        return Came::Other;
    };
    match read_reply(bytes.as_slice()) {
        Some(reply) => Came::Reply(Answer {
            response: reply.response,
            waiting: reply.waiting,
            pid: reply.pid,
            body: copied(reply.body),
        }),
        None => Came::Other,
    }
}

/// The same data again.
fn copied(data: &[u8]) -> Body
    requires { length data.now ≤ 231 }
    ensures { result ≡ data.now }
{
    let mut body = Body::new();
    body.append(data);
    body
}

/// How many milliseconds pass from a request to its reply.
#[tactic(auto, unfolding(crate::specs::Verdicts::passed_in))]
fn passed_in(before: &[Line], part: &[Line]) -> Option<u64>
    ensures { result ≡ passed_in before.now part.now }
{
    let sent = time_told(before.last())?;
    let heard = time_told(part.first())?;
    Some(heard.saturating_sub(sent))
}

/// The time that a line tells, if it does.
fn time_told(line: Option<&Line>) -> Option<u64>
    ensures { result ≡ time_told (option_map (λ line. line.now) line.entry) }
{
    match line {
        Some(Line::Time { millis }) => Some(*millis),
        _ => None,
    }
}

/// Whether a reply comes in time.
fn in_time(most: u64, passed: Option<u64>, came: Came) -> Verdict
    ensures { result ≡ in_time most passed came }
{
    match (passed, came) {
        (None, _) => Verdict::Skipped,
        (Some(millis), Came::Reply(_)) if millis <= most => Verdict::Passed,
        (Some(millis), Came::Reply(_)) => Verdict::Failed(Came::After(millis)),
        (Some(_), came) => Verdict::Failed(came),
    }
}

/// Whether a wish holds of what came.
fn holds(wish: &Wish, came: &Came) -> bool
    ensures { result ≡ holds wish.now came.now }
{
    match came {
        Came::Nothing => matches!(wish, Wish::Nothing),
        Came::Reply(answer) => is_met(wish, answer),
        Came::NoRequest | Came::Other | Came::After(_) => false,
    }
}

/// Whether a reply meets a wish.
fn is_met(wish: &Wish, answer: &Answer) -> bool
    ensures { result ≡ is_met wish.now answer.now }
{
    let data = answer.body.as_slice();
    match wish {
        Wish::Ack => matches!(answer.response, Response::Ack),
        Wish::AckTimer => matches!(answer.response, Response::AckTimer { .. }),
        Wish::AckOverflow => matches!(answer.response, Response::AckOverflow),
        Wish::Nack(reason) => is_nack(*reason, answer.response),
        Wish::Data(wanted) => data == wanted.as_slice(),
        Wish::Length { least, most } => {
            usize::from(*least) <= data.len() && data.len() <= usize::from(*most)
        }
        Wish::MessageCount(count) => answer.waiting == *count,
        Wish::Parameter(pid) => answer.pid == *pid,
        Wish::Reply => true,
        Wish::Found | Wish::Nothing | Wish::Within(_) => false,
    }
}

/// Whether a response is a NACK, and for this reason if one is named.
fn is_nack(wanted: Option<u16>, response: Response) -> bool
    ensures { result ≡ is_nack wanted response }
{
    match (wanted, response) {
        (None, Response::Nack { .. }) => true,
        (Some(code), Response::Nack { reason }) => code == reason,
        _ => false,
    }
}
