//! The text of a line is written.

ghost use Rattle.std.specs.Prelude.{◌≡◌, ◌++◌, ◌∷◌, OnOk, codes, decimal};
ghost use Rattle.rdm_frame.specs.Digits.{digits};
ghost use Rattle.rdm_frame.specs.UidText.{uid_text};
ghost use Rattle.rdm_trace.specs.LineText.{whole_line, line_text, fault_words, reply_words, job_words, heard_word, outcome_words, change_words, refused_words, pair_words, seconds_words};
ghost use Rattle.rdm_trace.specs.declared.line.Line.TheVariants.{Message as TheMessage};

use crate::put::{put_data, put_number, put_pair, put_status, put_word};
use crate::time::put_seconds;
use crate::{JobName, Line};
use rdm_collector::Heard;
use rdm_frame::digits::put_digits;
use rdm_frame::{Fault, Uid, Wire};
use rdm_params::{Change, Message, Outcome};
use std::alloc::AllocError;

/// Puts a line at the end of a text, with its line end. Fails only if memory is refused.
pub fn put_line(text: &mut Vec<u8>, line: &Line) -> Result<(), AllocError>
    ensures { OnOk result (text.new.items ≡ text.old.items ++ whole_line line.now) }
{
    put_words(text, line)?;
    text.extend_from_slice(b"\n")
}

/// The text of a line, without its line end.
#[tactic(auto, unfolding(crate::specs::LineText::line_text))]
fn put_words(text: &mut Vec<u8>, line: &Line) -> Result<(), AllocError>
    ensures { OnOk result (text.new.items ≡ text.old.items ++ line_text line.now) }
{
    match line {
        Line::Send { bytes, fault } => put_sent(text, bytes, *fault),
        Line::Reply(reply) => put_reply(text, reply),
        Line::Job(job) => {
            text.extend_from_slice(b"job ")?;
            put_job(text, *job)
        }
        Line::Heard(heard) => {
            text.extend_from_slice(b"heard ")?;
            text.extend_from_slice(heard_word(*heard))
        }
        Line::Found(uid) => put_found(text, *uid),
        Line::Arrive { job, outcome } => put_report(text, *job, *outcome),
        Line::Panel { change, refused } => put_panel(text, change, *refused),
        Line::Message(message) => put_message(text, message),
        Line::Time { millis } => put_time(text, *millis),
        Line::End => text.extend_from_slice(b"end"),
    }
}

/// A request: its bytes, and what goes wrong.
fn put_sent(text: &mut Vec<u8>, sent: &Wire, fault: Fault) -> Result<(), AllocError>
    ensures { OnOk result (text.new.items ≡ text.old.items ++ (codes "send " ++ digits sent.now ++ fault_words fault)) }
{
    text.extend_from_slice(b"send ")?;
    put_digits(text, sent.as_slice())?;
    put_fault(text, fault)
}

/// What goes wrong, in the words of a script.
fn put_fault(text: &mut Vec<u8>, fault: Fault) -> Result<(), AllocError>
    ensures { OnOk result (text.new.items ≡ text.old.items ++ fault_words fault) }
{
    match fault {
        Fault::None => Ok(()),
        Fault::LostRequest => text.extend_from_slice(b" lost-request"),
        Fault::LostReply => text.extend_from_slice(b" lost-reply"),
        Fault::BadRequest(slot, raise) => put_raise(text, b" bad-request ", slot, raise),
        Fault::BadReply(slot, raise) => put_raise(text, b" bad-reply ", slot, raise),
    }
}

/// The words of a frame that is altered, its slot, and by how much this is raised.
fn put_raise(text: &mut Vec<u8>, words: &[u8], slot: u16, raise: u8) -> Result<(), AllocError>
    ensures { OnOk result (text.new.items ≡ text.old.items ++ (words.now ++ pair_words slot raise)) }
{
    text.extend_from_slice(words)?;
    put_pair(text, u32::from(slot), u32::from(raise))
}

/// A reply, or its absence.
fn put_reply(text: &mut Vec<u8>, reply: &Option<Wire>) -> Result<(), AllocError>
    ensures { OnOk result (text.new.items ≡ text.old.items ++ (codes "reply " ++ reply_words reply.now)) }
{
    text.extend_from_slice(b"reply ")?;
    match reply {
        Some(bytes) => put_digits(text, bytes.as_slice()),
        None => text.extend_from_slice(b"none"),
    }
}

/// A job: its worker and its number.
fn put_job(text: &mut Vec<u8>, job: JobName) -> Result<(), AllocError>
    ensures { OnOk result (text.new.items ≡ text.old.items ++ job_words job) }
{
    put_pair(text, u32::from(job.worker), job.number)
}

/// What the controller took a reply for.
fn heard_word(heard: Option<Heard>) -> &'static [u8]
    ensures { result.now ≡ heard_word heard }
{
    match heard {
        Some(Heard::Message) => b"message",
        Some(Heard::Reply) => b"reply",
        Some(Heard::Ignored) => b"ignored",
        None => b"nothing",
    }
}

/// A fixture that was found: its UID.
fn put_found(text: &mut Vec<u8>, uid: Uid) -> Result<(), AllocError>
    ensures { OnOk result (text.new.items ≡ text.old.items ++ (codes "found " ++ uid_text uid)) }
{
    text.extend_from_slice(b"found ")?;
    text.extend_from_slice(&uid.text())
}

/// The report of a job.
fn put_report(text: &mut Vec<u8>, job: JobName, outcome: Outcome) -> Result<(), AllocError>
    ensures { OnOk result (text.new.items ≡ text.old.items ++ (codes "arrive " ++ job_words job ++ outcome_words outcome)) }
{
    text.extend_from_slice(b"arrive ")?;
    put_job(text, job)?;
    put_outcome(text, outcome)
}

/// How a job ended.
fn put_outcome(text: &mut Vec<u8>, outcome: Outcome) -> Result<(), AllocError>
    ensures { OnOk result (text.new.items ≡ text.old.items ++ outcome_words outcome) }
{
    match outcome {
        Outcome::Done => text.extend_from_slice(b" done"),
        Outcome::Reading(value) => {
            text.extend_from_slice(b" reading ")?;
            put_number(text, value)
        }
        Outcome::Failed {
            severity,
            id,
            v1,
            v2,
        } => {
            text.extend_from_slice(b" failed ")?;
            put_status(text, severity, id, v1, v2)
        }
    }
}

/// A change at the device's menu, and whether it is rejected.
fn put_panel(text: &mut Vec<u8>, change: &Change, refused: bool) -> Result<(), AllocError>
    ensures { OnOk result (text.new.items ≡ text.old.items ++ (codes "panel " ++ change_words change.now ++ refused_words refused)) }
{
    text.extend_from_slice(b"panel ")?;
    put_change(text, change)?;
    if refused {
        text.extend_from_slice(b" refused")
    } else {
        Ok(())
    }
}

/// What is changed at the device's menu, and to which value.
fn put_change(text: &mut Vec<u8>, change: &Change) -> Result<(), AllocError>
    ensures { OnOk result (text.new.items ≡ text.old.items ++ change_words change.now) }
{
    match change {
        Change::Start(start) => put_setting(text, b"start ", *start),
        Change::Personality(number) => put_setting(text, b"personality ", u16::from(*number)),
        Change::Label(label) => {
            text.extend_from_slice(b"label ")?;
            put_data(text, label.as_slice())
        }
    }
}

/// A word of a change, and the number that is set.
fn put_setting(text: &mut Vec<u8>, words: &[u8], number: u16) -> Result<(), AllocError>
    ensures { OnOk result (text.new.items ≡ text.old.items ++ (words.now ++ decimal number)) }
{
    text.extend_from_slice(words)?;
    put_number(text, number)
}

/// A time, in seconds.
fn put_time(text: &mut Vec<u8>, millis: u64) -> Result<(), AllocError>
    ensures { OnOk result (text.new.items ≡ text.old.items ++ (codes "# " ++ seconds_words millis ++ codes " s")) }
{
    text.extend_from_slice(b"# ")?;
    put_seconds(text, millis)?;
    text.extend_from_slice(b" s")
}

/// A message: its command class, parameter ID, sub-device and data.
#[tactic(auto, unfolding(crate::specs::LineText::line_text))]
fn put_message(text: &mut Vec<u8>, message: &Message) -> Result<(), AllocError>
    ensures { OnOk result (text.new.items ≡ text.old.items ++ line_text (TheMessage message.now)) }
{
    text.extend_from_slice(b"message ")?;
    put_digits(text, &[message.class])?;
    put_word(text, message.pid)?;
    put_word(text, message.sub)?;
    text.extend_from_slice(b" ")?;
    put_data(text, message.body.as_slice())
}
