//! The words of the lines of a trace.

ghost use Rattle.std.specs.Prelude.{◌≡◌, ℕ, List, [], ◌∷◌, ◌++◌, Some, OnOk, option_map, string_bytes};
ghost use Rattle.std.specs.Fmt.{signed_decimal};
ghost use Rattle.rdm_words.specs.Fixed.{AreWordsOfBytes, AreWordsOfLine, answerer_words, fault_line, found_words, heard_words, job_words, raised_words, time_words};
ghost use Rattle.rdm_words.specs.FrameFacts.{AreFactsOfLine, message_facts, outcome_facts};
ghost use Rattle.rdm_words.specs.LineWords.{change_words, heading_words, panel_words, refused_words};
ghost use Rattle.rdm_words.specs.Naming.{AddsNames, SaysFacts};
ghost use Rattle.rdm_words.specs.Before.{IsAnswerIn};
ghost use Rattle.rdm_words.specs.Plain.{IsFixed, IsPlain};
ghost use Rattle.rdm_frame.specs.declared.uid.Uid.{Uid as TheUid};
ghost use Rattle.rdm_collector.specs.declared.transaction.Heard.TheVariants.{Ignored};
ghost use Rattle.rdm_words.specs.Unread.{AreUnread, AreLastOfLine, data_line};

use crate::data::known::Facts;
use crate::data::layout::layout_of;
use crate::data::own::{own_name, put_own_words, put_parameter_by};
use crate::data::statuses::{Status, put_failure};
use crate::frame::class::put_class;
use crate::frame::frame_words::{Subject, put_bytes_words, put_data_lines};
use crate::frame::place::put_place;
use crate::text::{put_below, put_quoted};
use crate::{Before, Known};
use rdm_collector::Heard;
use rdm_frame::{Fault, Uid};
use rdm_params::{Change, Message, Outcome};
use rdm_trace::Line;
use std::alloc::AllocError;
use std::fmt::Write;

/// The words of a line of a trace.
pub(crate) fn put_trace_line(
    text: &mut String,
    before: &Before,
    line: &Line,
    known: &Known<'_>,
) -> Result<(), AllocError>
    ensures fixed { OnOk result
        ((words : List ℕ) → AreWordsOfLine before.now line.now words → IsFixed words × (string_bytes text.new ≡ string_bytes text.old ++ words)) }
    ensures last { OnOk result ((words : List ℕ) → AreLastOfLine line.now words
        → IsFixed words × (front : List ℕ) × (string_bytes text.new ≡ string_bytes text.old ++ (front ++ words))) }
    ensures named { OnOk result ((facts : List (List ℕ)) → AreFactsOfLine line.now facts → SaysFacts facts (string_bytes text.old) (string_bytes text.new)) }
{
    match line {
        Line::Send { bytes, fault } => {
            put_bytes_words(text, bytes, known)?;
            put_fault(text, *fault)
        }
        Line::Reply(reply) => match reply {
            Some(bytes) => put_bytes_words(text, bytes, known),
            None => text.push_str("no reply"),
        },
        Line::Job(job) => {
            put_job(text, job.worker, job.number)?;
            text.push_str(" starts")
        }
        Line::Heard(heard) => put_heard(text, before, *heard),
        Line::Found(uid) => put_found(text, *uid),
        Line::Arrive { job, outcome } => {
            put_job(text, job.worker, job.number)?;
            put_outcome(text, *outcome, &before.facts(known))
        }
        Line::Panel { change, refused } => put_panel(text, change, *refused),
        Line::Message(message) => put_message(text, message, &before.facts(known)),
        Line::Time { millis } => put_time(text, *millis),
        Line::End => text.push_str("end of the trace"),
    }
}

/// What goes wrong with a transaction, on a line of its own.
fn put_fault(text: &mut String, fault: Fault) -> Result<(), AllocError>
    ensures words { OnOk result (string_bytes text.new ≡ string_bytes text.old ++ fault_line fault) }
    ensures plain { IsPlain (fault_line fault) }
{
    match fault {
        Fault::None => Ok(()),
        Fault::LostRequest => text.push_str("\n  fault: the request is lost"),
        Fault::LostReply => text.push_str("\n  fault: the reply is lost"),
        Fault::BadRequest(slot, raise) => put_raised(text, slot, "request", raise),
        Fault::BadReply(slot, raise) => put_raised(text, slot, "reply", raise),
    }
}

/// A slot that is raised, on a line of its own.
fn put_raised(text: &mut String, slot: u16, of: &str, raise: u8) -> Result<(), AllocError>
    ensures words { OnOk result (string_bytes text.new ≡ string_bytes text.old ++ raised_words slot of.now raise) }
    ensures plain { IsPlain of.now → IsPlain (raised_words slot of.now raise) }
{
    write!(
        text,
        "\n  fault: slot {slot} of the {of} is raised by {raise}"
    )
}

/// Which job.
fn put_job(text: &mut String, worker: u8, number: u32) -> Result<(), AllocError>
    ensures words { OnOk result (string_bytes text.new ≡ string_bytes text.old ++ job_words worker number) }
    ensures plain { IsPlain (job_words worker number) }
{
    write!(text, "job {number} of worker {worker}")
}

/// What the controller took a reply for.
fn heard_words(heard: Option<Heard>) -> &'static str
    ensures { result.now ≡ heard_words heard }
{
    match heard {
        Some(Heard::Message) => "the controller records the message",
        Some(Heard::Reply) => "the controller has its reply",
        Some(Heard::Ignored) => "the controller ignores what it hears",
        None => "the controller hears nothing",
    }
}

/// What the controller took the last reply for.
fn put_heard(text: &mut String, before: &Before, heard: Option<Heard>) -> Result<(), AllocError>
    ensures answer { (uid : TheUid) → heard ≡ Some Ignored → IsAnswerIn before.now.reply uid
        → OnOk result (string_bytes text.new ≡ string_bytes text.old ++ answerer_words uid) }
    ensures other { (heard ≡ Some Ignored → (uid : TheUid) → IsAnswerIn before.now.reply uid → ⊥)
        → OnOk result (string_bytes text.new ≡ string_bytes text.old ++ heard_words heard) }
{
    match heard {
        Some(Heard::Ignored) => put_ignored(text, before),
        _ => text.push_str(heard_words(heard)),
    }
}

/// What the controller heard that it took for no reply: the answer of a device to DISC_UNIQUE_BRANCH, or something else.
fn put_ignored(text: &mut String, before: &Before) -> Result<(), AllocError>
    ensures answer { (uid : TheUid) → IsAnswerIn before.now.reply uid
        → OnOk result (string_bytes text.new ≡ string_bytes text.old ++ answerer_words uid) }
    ensures other { ((uid : TheUid) → IsAnswerIn before.now.reply uid → ⊥)
        → OnOk result (string_bytes text.new ≡ string_bytes text.old ++ heard_words (Some Ignored)) }
{
    if let Some(uid) = before.answerer() {
        return write!(text, "the controller hears the answer of {uid}");
    }
    text.push_str(heard_words(Some(Heard::Ignored)))
}

/// When the next line happened: seconds, with three digits behind the point.
fn put_time(text: &mut String, millis: u64) -> Result<(), AllocError>
    ensures words { OnOk result (string_bytes text.new ≡ string_bytes text.old ++ time_words millis) }
    ensures plain { IsPlain (time_words millis) }
{
    let (seconds, tenth) = (millis / 1000, millis / 100 % 10);
    let (hundredth, last) = (millis / 10 % 10, millis % 10);
    write!(text, "at {seconds}.{tenth}{hundredth}{last} s")
}

/// Which fixture the controller finds.
fn put_found(text: &mut String, uid: Uid) -> Result<(), AllocError>
    ensures { OnOk result (string_bytes text.new ≡ string_bytes text.old ++ found_words uid) }
{
    write!(text, "the controller finds {uid}")
}

/// How a job ended.
fn put_outcome(text: &mut String, outcome: Outcome, known: &Facts<'_>) -> Result<(), AllocError>
    ensures { OnOk result (AddsNames (outcome_facts outcome) (string_bytes text.old) (string_bytes text.new)) }
{
    match outcome {
        Outcome::Done => text.push_str(" is done"),
        Outcome::Reading(value) => put_reading(text, value),
        Outcome::Failed {
            severity,
            id,
            v1,
            v2,
        } => {
            text.push_str(" has failed: ")?;
            let status = Status {
                severity: severity.code(),
                id,
                first: v1,
                second: v2,
            };
            put_failure(text, &status, known)
        }
    }
}

/// What was measured.
#[tactic(auto, using(crate::proofs::LaidOut::measured_fact))]
fn put_reading(text: &mut String, value: i16) -> Result<(), AllocError>
    ensures { OnOk result (AddsNames (signed_decimal value ∷ []) (string_bytes text.old) (string_bytes text.new)) }
{
    write!(text, " has measured {value}")
}

/// A change at the fixture's own menu.
fn put_panel(text: &mut String, change: &Change, refused: bool) -> Result<(), AllocError>
    ensures { OnOk result (string_bytes text.new ≡ string_bytes text.old ++ panel_words change.now refused) }
{
    text.push_str("at the fixture's menu: ")?;
    put_change(text, change)?;
    put_refused(text, refused)
}

/// What is changed.
fn put_change(text: &mut String, change: &Change) -> Result<(), AllocError>
    ensures { OnOk result (string_bytes text.new ≡ string_bytes text.old ++ change_words change.now) }
{
    match change {
        Change::Start(start) => write!(text, "DMX start address {start}"),
        Change::Personality(number) => write!(text, "personality {number}"),
        Change::Label(label) => {
            text.push_str("device label ")?;
            put_quoted(text, label.as_slice())
        }
    }
}

/// Whether it was refused.
fn put_refused(text: &mut String, refused: bool) -> Result<(), AllocError>
    ensures { OnOk result (string_bytes text.new ≡ string_bytes text.old ++ refused_words refused) }
{
    if refused {
        return text.push_str(", refused");
    }
    Ok(())
}

/// A message that the controller recorded.
fn put_message(text: &mut String, message: &Message, known: &Facts<'_>) -> Result<(), AllocError>
    ensures last { AreUnread message.now.class message.now.pid message.now.body → OnOk result (IsPlain (data_line message.now.body)
        × (front : List ℕ) × (string_bytes text.new ≡ string_bytes text.old ++ (front ++ data_line message.now.body))) }
    ensures named { OnOk result (SaysFacts (message_facts message.now) (string_bytes text.old) (string_bytes text.new)) }
{
    let (class, pid) = (message.class, message.pid);
    let mut head = String::new(*text.allocator());
    put_heading(&mut head, class, pid, message.sub, own_name(pid, known))?;
    let mut own = String::new(*text.allocator());
    put_own_words(&mut own, class, pid, message.body.as_slice(), known)?;
    text.push_str(head.as_str())?;
    put_below(text, own.as_str())?;
    let layout = layout_of(class, pid);
    put_data_lines(
        text,
        Subject::whole(pid),
        layout,
        message.body.as_slice(),
        known,
    )
}

/// What a message is, and of what.
#[tactic(auto, unfolding(crate::specs::LineWords::heading_words))]
fn put_heading(
    text: &mut String,
    class: u8,
    pid: u16,
    sub: u16,
    own: Option<&[u8]>,
) -> Result<(), AllocError>
    ensures { OnOk result (string_bytes text.new ≡ string_bytes text.old ++ heading_words class pid sub (option_map (λ name. name.now) own.entry)) }
{
    text.push_str("recorded: ")?;
    put_class(text, class)?;
    text.push_str(" ")?;
    put_parameter_by(text, pid, own)?;
    text.push_str(", ")?;
    put_place(text, sub)
}
