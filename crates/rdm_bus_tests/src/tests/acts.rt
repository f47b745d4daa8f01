//! What is done with a system on which a test plays, and what must come of it. Rows are text.

use super::{CONTROLLER, DEVICE, TOO_MANY, bytes_of, command, printed, words_for};
use rdm_bus::{Action, Collector, Command, Event, Fault, Heard, PlayError, Step, System, Want};
use rdm_frame::Wire;
use rdm_outbox::Job;
use rdm_params::{Change, Message, Outcome, Plate, Profile};
use rdm_responder::{Report, Responder};
use std::alloc::Global;
use std::process::Abort;

/// A new system of a device without sub-devices, with room for `queue_size` results of slow commands.
pub(super) fn system(rt: &impl Abort, alloc: Global, queue_size: u16) -> System {
    let responder = Responder::new(alloc, DEVICE, Profile::demo(0), queue_size);
    let collector = Collector::new(alloc, CONTROLLER, DEVICE, Want::Advisory);
    System::new(alloc, responder.expect(rt, "a responder"), collector)
}

/// The job that started at this place of the trace's jobs.
fn job_at(rt: &impl Abort, system: &System, at: usize) -> Job {
    let mut before = at;
    for event in system.trace() {
        if let Event::Bus { job: Some(job), .. } = event {
            if before == 0 {
                return *job;
            }
            before -= 1;
        }
    }
    panic!(rt; "a job")
}

/// The report that a job is done.
fn done(job: Job) -> Report {
    Report {
        job,
        outcome: Outcome::Done,
    }
}

/// The same work with the next number.
fn next(job: Job) -> Job {
    Job {
        number: job.number.wrapping_add(1),
        work: job.work,
    }
}

/// The step that words say: `get PID` and `set PID DATA` are commands to the root of the device, and `collect` is a poll; behind a comma
/// stands what goes wrong on the bus. `ends NUMBER` reports that the job that started at this place of the run's jobs is done, and `astray
/// NUMBER` the same with the next number. `start`, `personality` and `label` are changes at the device's own menu.
fn step_in(rt: &impl Abort, alloc: Global, system: &System, words: &str) -> Step {
    let (said, wrong) = words.split_once(", ").unwrap_or((words, ""));
    let (verb, rest) = cut(said);
    match verb {
        "get" => Step::Ask(
            command_in(rt, alloc, Action::Get, rest),
            fault_in(rt, wrong),
        ),
        "set" => Step::Ask(
            command_in(rt, alloc, Action::Set, rest),
            fault_in(rt, wrong),
        ),
        "collect" => Step::Collect(fault_in(rt, wrong)),
        "ends" => Step::Arrive(done(job_at(rt, system, place(rt, rest)))),
        "astray" => Step::Arrive(done(next(job_at(rt, system, place(rt, rest))))),
        _ => Step::Change(change_in(rt, alloc, verb, rest).expect(rt, words)),
    }
}

/// The command of this parameter ID, with these data, or with `too many`.
fn command_in(rt: &impl Abort, alloc: Global, action: Action, words: &str) -> Command {
    let (pid, data) = cut(words);
    let pid = u16::from_str_radix(pid, 16).ok().expect(rt, words);
    if data == "too many" {
        command(rt, action, pid, &TOO_MANY)
    } else {
        command(rt, action, pid, &bytes_of(rt, alloc, data))
    }
}

/// What words say that goes wrong. The numbers behind it are a slot, and how far it is raised.
fn fault_in(rt: &impl Abort, words: &str) -> Fault {
    match words {
        "" => Fault::None,
        "lost request" => Fault::LostRequest,
        "lost reply" => Fault::LostReply,
        _ => altered_in(words).expect(rt, words),
    }
}

fn altered_in(words: &str) -> Option<Fault> {
    if let Some(numbers) = words.strip_prefix("bad request ") {
        let (slot, raise) = numbers.split_once(' ')?;
        return Some(Fault::BadRequest(slot.parse::<u16>().ok()?, raise.parse::<u8>().ok()?));
    }
    let (slot, raise) = words.strip_prefix("bad reply ")?.split_once(' ')?;
    Some(Fault::BadReply(slot.parse::<u16>().ok()?, raise.parse::<u8>().ok()?))
}

/// The change that words say.
fn change_in(rt: &impl Abort, alloc: Global, verb: &str, value: &str) -> Option<Change> {
    match verb {
        "start" => Some(Change::Start(value.parse::<u16>().ok()?)),
        "personality" => Some(Change::Personality(value.parse::<u8>().ok()?)),
        "label" => Some(Change::Label(Plate::new(&bytes_of(rt, alloc, value))?)),
        _ => None,
    }
}

/// A place in a list.
fn place(rt: &impl Abort, digits: &str) -> usize {
    digits.parse::<usize>().ok().expect(rt, digits)
}

/// The first word of a text, and what follows it.
fn cut(text: &str) -> (&str, &str) {
    text.split_once(' ').unwrap_or((text, ""))
}

/// Plays the step that words say, which may be refused.
pub(super) fn play(
    rt: &impl Abort,
    alloc: Global,
    system: &mut System,
    words: &str,
) -> Result<(), PlayError> {
    let step = step_in(rt, alloc, system, words);
    if let Some(0) = step.fault().raise() {
        panic!(rt; "a slot that isn't raised")
    }
    system.play(&step)
}

/// Plays the step that words say, and nothing refuses it.
pub(super) fn does(rt: &impl Abort, alloc: Global, system: &mut System, words: &str) {
    assert!(rt; play(rt, alloc, system, words) == Ok(()), "{words}");
}

/// The bytes from the slot of the transaction number on.
fn from_number(rt: &impl Abort, alloc: Global, wire: &Wire) -> String {
    let slots = wire.as_slice().get(15..).expect(rt, "a frame");
    printed(rt, alloc, slots)
}

/// What a reply was taken for.
fn name_of(heard: &Option<Heard>) -> &'static str {
    match heard {
        Some(Heard::Message) => "message",
        Some(Heard::Reply) => "reply",
        Some(Heard::Ignored) => "ignored",
        None => "nothing",
    }
}

/// A request, its reply, and what this was taken for.
fn exchanged(
    rt: &impl Abort,
    alloc: Global,
    sent: &Wire,
    reply: &Option<Wire>,
    heard: &Option<Heard>,
) -> String {
    let sent = from_number(rt, alloc, sent);
    let reply = match reply {
        Some(reply) => from_number(rt, alloc, reply),
        None => words_for(rt, alloc, &"-"),
    };
    let heard = name_of(heard);
    format!(in alloc; "{sent} {reply} {heard}").expect(rt, "memory")
}

/// What happened: the request, the reply, and what it was taken for; that a report arrived; or the message of a change,
/// if there is one.
fn happened(rt: &impl Abort, alloc: Global, event: &Event) -> String {
    match event {
        Event::Bus {
            sent,
            reply,
            heard,
            ..
        } => exchanged(rt, alloc, sent, reply, heard),
        Event::Arrived { .. } => words_for(rt, alloc, &"arrived"),
        Event::Changed {
            message: Some(message),
            ..
        } => text_of(rt, alloc, message),
        Event::Changed { message: None, .. } => words_for(rt, alloc, &"refused"),
    }
}

/// Plays a step, and tells what happened, or why nothing did.
fn told(rt: &impl Abort, alloc: Global, system: &mut System, words: &str) -> String {
    let before = system.trace().len();
    let played = play(rt, alloc, system, words);
    match (system.trace().get(before), played) {
        (Some(event), _) => happened(rt, alloc, event),
        (None, Err(refusal)) => words_for(rt, alloc, &refusal),
        (None, Ok(())) => String::new(alloc),
    }
}

/// The room for results; rows, each with a step and what happens, or why nothing does; and how many messages are recorded.
pub(super) type Run = (u16, &'static str, usize);

/// Plays the rows of a run on a new system.
pub(super) fn plays(rt: &impl Abort, alloc: Global, (queue_size, rows, recorded): Run) {
    let mut system = system(rt, alloc, queue_size);
    for row in rows.lines() {
        if !row.is_empty() {
            plays_row(rt, alloc, &mut system, row);
        }
    }
    assert!(rt; system.recorded().len() == recorded, "{rows}");
}

fn plays_row(rt: &impl Abort, alloc: Global, system: &mut System, row: &str) {
    let (words, expected) = row.split_once(" = ").expect(rt, row);
    let told = told(rt, alloc, system, words);
    assert!(rt; told.trim_end() == expected, "{words}: {told}");
}

/// What a message says: its class, parameter ID, sub-device and data.
pub(super) fn text_of(rt: &impl Abort, alloc: Global, message: &Message) -> String {
    let body = printed(rt, alloc, message.body.as_slice());
    let (class, pid, sub) = (message.class, message.pid, message.sub);
    format!(in alloc; "{class:02X} {pid:04X} {sub:04X} {body}").expect(rt, "memory")
}
