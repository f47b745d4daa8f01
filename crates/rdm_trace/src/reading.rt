//! A line of a trace is read.

ghost use Rattle.std.specs.Prelude.{◌≡◌};
ghost use Rattle.rdm_trace.specs.Reading.{line_in, said_by, told_by, request_in, reply_in, heard_in, message_in};

use crate::Line;
use crate::digits::{body_in, code_in, wire_in};
use crate::fault::fault_in;
use crate::panel::panel_in;
use crate::report::{job_in, report_in};
use crate::time::time_in;
use crate::words::first_word;
use rdm_collector::Heard;
use rdm_frame::Uid;
use rdm_frame::digits::word_in;
use rdm_params::Message;

/// What a line of a trace says, without its line end, or `None` if it isn't a line of a trace.
///
/// More is read than `put_line` writes: digits of either case, spaces and tabs between the bytes of a reply, and decimal
/// numbers with a plus or with zeros in front.
#[tactic(auto, unfolding(crate::specs::Reading::line_in))]
pub fn read(line: &[u8]) -> Option<Line>
    ensures { result ≡ line_in line.now }
{
    let (word, rest) = first_word(line);
    said_by(word, rest)
}

/// What a line says by its first word and the rest, if it tells of a transaction.
#[tactic(auto, unfolding(crate::specs::Reading::said_by))]
fn said_by(word: &[u8], rest: &[u8]) -> Option<Line>
    ensures { result ≡ said_by word.now rest.now }
{
    if word == b"send".as_slice() {
        request_in(rest)
    } else if word == b"reply".as_slice() {
        reply_in(rest)
    } else if word == b"job".as_slice() {
        Some(Line::Job(job_in(rest)?))
    } else if word == b"heard".as_slice() {
        Some(Line::Heard(heard_in(rest)?))
    } else if word == b"found".as_slice() {
        Some(Line::Found(Uid::from_text(rest)?))
    } else {
        told_by(word, rest)
    }
}

/// What any other line says.
#[tactic(auto, unfolding(crate::specs::Reading::told_by))]
fn told_by(word: &[u8], rest: &[u8]) -> Option<Line>
    ensures { result ≡ told_by word.now rest.now }
{
    if word == b"arrive".as_slice() {
        report_in(rest)
    } else if word == b"panel".as_slice() {
        panel_in(rest)
    } else if word == b"message".as_slice() {
        Some(Line::Message(message_in(rest)?))
    } else if word == b"#".as_slice() {
        time_in(rest)
    } else if word == b"end".as_slice() && rest.is_empty() {
        Some(Line::End)
    } else {
        None
    }
}

/// A request, and what goes wrong.
#[tactic(auto, unfolding(crate::specs::Reading::request_in))]
fn request_in(words: &[u8]) -> Option<Line>
    ensures { result ≡ request_in words.now }
{
    let (bytes, fault) = first_word(words);
    Some(Line::Send {
        bytes: wire_in(bytes)?,
        fault: fault_in(fault)?,
    })
}

/// A reply, or its absence.
#[tactic(auto, unfolding(crate::specs::Reading::reply_in))]
fn reply_in(words: &[u8]) -> Option<Line>
    ensures { result ≡ reply_in words.now }
{
    if words == b"none".as_slice() {
        return Some(Line::Reply(None));
    }
    Some(Line::Reply(Some(wire_in(words)?)))
}

/// What the controller took a reply for.
fn heard_in(word: &[u8]) -> Option<Option<Heard>>
    ensures { result ≡ heard_in word.now }
{
    if word == b"message".as_slice() {
        Some(Some(Heard::Message))
    } else if word == b"reply".as_slice() {
        Some(Some(Heard::Reply))
    } else if word == b"ignored".as_slice() {
        Some(Some(Heard::Ignored))
    } else if word == b"nothing".as_slice() {
        Some(None)
    } else {
        None
    }
}

/// A message: its command class, parameter, sub-device and data.
#[tactic(auto, unfolding(crate::specs::Reading::message_in))]
fn message_in(words: &[u8]) -> Option<Message>
    ensures { result ≡ message_in words.now }
{
    let (class, rest) = first_word(words);
    let (pid, rest) = first_word(rest);
    let (sub, body) = first_word(rest);
    Some(Message {
        class: code_in(class)?,
        pid: word_in(pid)?,
        sub: word_in(sub)?,
        body: body_in(body)?,
    })
}
