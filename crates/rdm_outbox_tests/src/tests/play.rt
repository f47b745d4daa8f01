//! Plays rows that are written as text.

use super::{LAMP, SELF_TEST, entry, set_response};
use rdm_outbox::{Dispensed, Outbox};
use rdm_params::{Ask, Message, Severity, Work};
use std::alloc::Global;
use std::fmt::Display;
use std::process::Abort;

/// Plays rows on an outbox, one after another. A row says what is done, and behind ` =` all that comes of it.
///
/// - `reserve lamp` and `reserve self-test` reserve a job: its number, or `none`.
/// - `oldest WORKER` is the worker's oldest job: its number and its PID, or `none`; `ring WORKER` is the number of the job at the front of
///   the worker's ring.
/// - `finish WORKER PID` ends the oldest job of a worker with the response to its SET, and `post PID` is such a response without a job.
/// - `dispense ASK` and `status ASK` give a message, `fresh` or `again`: its class, its PID and its data. `length ASK` gives a status message
///   too, of which it tells how many bytes the data have. `answer ASK` and `answer-status ASK` only say which, and `last` is the message then.
/// - `note SEVERITY VALUE` is a status entry, and `notes COUNT SEVERITY` so many, with the values from 0 on: `kept` or `dropped`. `clear`
///   drops all.
/// - `counts` are the jobs that are outstanding, the messages that wait, and how many of these a frame says; `room` is whether there is room
///   for one more; `front` is the PID of the message that waits longest.
pub(super) fn plays(rt: &impl Abort, alloc: Global, outbox: &mut Outbox, rows: &str) {
    for row in rows.lines() {
        if !row.is_empty() {
            plays_row(rt, alloc, outbox, row);
        }
    }
}

fn plays_row(rt: &impl Abort, alloc: Global, outbox: &mut Outbox, row: &str) {
    let (said, expected) = row.split_once(" =").expect(rt, row);
    let (verb, words) = cut(said);
    let told = told(rt, alloc, outbox, verb, words);
    assert!(rt;
        without_blanks(rt, alloc, &told).as_str() == without_blanks(rt, alloc, expected).as_str(),
        "{row}, not {told}"
    );
}

/// What comes of it.
fn told(rt: &impl Abort, alloc: Global, outbox: &mut Outbox, verb: &str, words: &str) -> String {
    match verb {
        "reserve" | "oldest" | "ring" | "finish" | "post" => jobs(rt, alloc, outbox, verb, words),
        "note" | "notes" | "clear" => entries(rt, alloc, outbox, verb, words),
        "counts" | "room" | "front" => sizes(rt, alloc, outbox, verb),
        _ => messages(rt, alloc, outbox, verb, words),
    }
}

/// What comes of jobs and of responses to them.
fn jobs(rt: &impl Abort, alloc: Global, outbox: &mut Outbox, verb: &str, words: &str) -> String {
    let (worker, rest) = cut(words);
    match verb {
        "reserve" => number(rt, alloc, reserved(outbox, work_in(rt, words))),
        "oldest" => oldest(rt, alloc, outbox, byte(rt, worker)),
        "ring" => number(rt, alloc, oldest_in_ring(outbox, byte(rt, worker))),
        "finish" => finish(rt, alloc, outbox, byte(rt, worker), hex(rt, rest)),
        _ => post(rt, alloc, outbox, hex(rt, words)),
    }
}

/// Reserves a job, and says its number.
fn reserved(outbox: &mut Outbox, work: Work) -> Option<u32> {
    Some(outbox.reserve(work).ok()?.number)
}

fn work_in(rt: &impl Abort, word: &str) -> Work {
    if word == "lamp" {
        LAMP
    } else {
        assert!(rt; word == "self-test");
        SELF_TEST
    }
}

/// The oldest job of a worker.
fn oldest(rt: &impl Abort, alloc: Global, outbox: &Outbox, worker: u8) -> String {
    match outbox.oldest(worker) {
        Some(job) => {
            let (number, pid) = (job.number, job.work.pid);
            format!(in alloc; "{number} {pid:04X}").expect(rt, "memory")
        }
        None => words_for(rt, alloc, &"none"),
    }
}

/// The number of the job at the front of a worker's ring.
fn oldest_in_ring(outbox: &Outbox, worker: u8) -> Option<u32> {
    Some(outbox.job_ring(worker)?.front()?.number)
}

/// Ends the oldest job of a worker with the response to its SET.
fn finish(rt: &impl Abort, alloc: Global, outbox: &mut Outbox, worker: u8, pid: u16) -> String {
    assert!(rt;
        outbox.oldest(worker).is_some(),
        "worker {worker} has a job"
    );
    outbox.arrive(worker, set_response(pid));
    String::new(alloc)
}

fn post(rt: &impl Abort, alloc: Global, outbox: &mut Outbox, pid: u16) -> String {
    assert!(rt; outbox.room(), "{pid:04X} has room");
    outbox.post(set_response(pid));
    String::new(alloc)
}

/// What comes of status entries.
fn entries(rt: &impl Abort, alloc: Global, outbox: &mut Outbox, verb: &str, words: &str) -> String {
    let (first, second) = cut(words);
    let kept = match verb {
        "note" => outbox.note(entry(severity_in(rt, first), decimal(rt, second))),
        "notes" => notes(outbox, decimal(rt, first), severity_in(rt, second)),
        _ => {
            outbox.clear_status();
            return String::new(alloc);
        }
    };
    words_for(rt, alloc, &if kept { "kept" } else { "dropped" })
}

/// Whether so many entries are all kept.
fn notes(outbox: &mut Outbox, count: u16, severity: Severity) -> bool {
    for v2 in 0..count {
        if !outbox.note(entry(severity, v2)) {
            return false;
        }
    }
    true
}

/// What there is.
fn sizes(rt: &impl Abort, alloc: Global, outbox: &Outbox, verb: &str) -> String {
    let (waiting, outstanding) = (outbox.waiting(), outbox.outstanding());
    let count = outbox.count();
    match verb {
        "counts" => format!(in alloc; "{outstanding} {waiting} {count}").expect(rt, "memory"),
        "room" => words_for(rt, alloc, &outbox.room()),
        _ => {
            let pid = outbox
                .waiting_ring()
                .front()
                .map_or(0, |message| message.pid);
            format!(in alloc; "{pid:04X}").expect(rt, "memory")
        }
    }
}

/// What comes of what is asked for.
fn messages(rt: &impl Abort, alloc: Global, outbox: &mut Outbox, verb: &str, word: &str) -> String {
    if verb == "last" {
        return message_told(rt, alloc, "", outbox.last());
    }
    let ask = ask_in(rt, word);
    match verb {
        "dispense" => dispensed_told(rt, alloc, &outbox.dispense(ask)),
        "status" => dispensed_told(rt, alloc, &outbox.status(ask)),
        "length" => words_for(rt, alloc, &outbox.status(ask).message.body.as_slice().len()),
        "answer" => words_for(rt, alloc, &fresh_or_again(outbox.answer(ask))),
        _ => {
            assert!(rt; verb == "answer-status");
            words_for(rt, alloc, &fresh_or_again(outbox.answer_status(ask)))
        }
    }
}

fn fresh_or_again(fresh: bool) -> &'static str {
    if fresh { "fresh" } else { "again" }
}

fn dispensed_told(rt: &impl Abort, alloc: Global, answer: &Dispensed) -> String {
    message_told(rt, alloc, fresh_or_again(answer.fresh), &answer.message)
}

/// A message of the root: its class, its PID and its data.
fn message_told(rt: &impl Abort, alloc: Global, fresh: &str, message: &Message) -> String {
    let data = hex::encode_upper(alloc, message.body.as_slice()).expect(rt, "memory");
    let (class, pid) = (message.class, message.pid);
    assert!(rt; message.sub == 0);
    format!(in alloc; "{fresh} {class:02X} {pid:04X} {data}").expect(rt, "memory")
}

fn ask_in(rt: &impl Abort, word: &str) -> Ask {
    match word {
        "none" => Ask::None,
        "last" => Ask::Last,
        "advisory" => Ask::Advisory,
        "warning" => Ask::Warning,
        _ => {
            assert!(rt; word == "error");
            Ask::Error
        }
    }
}

fn severity_in(rt: &impl Abort, word: &str) -> Severity {
    match word {
        "advisory" => Severity::Advisory,
        "advisory-cleared" => Severity::AdvisoryCleared,
        "warning" => Severity::Warning,
        "warning-cleared" => Severity::WarningCleared,
        "error-cleared" => Severity::ErrorCleared,
        _ => {
            assert!(rt; word == "error");
            Severity::Error
        }
    }
}

/// A number, or `none`.
fn number(rt: &impl Abort, alloc: Global, number: Option<u32>) -> String {
    match number {
        Some(number) => words_for(rt, alloc, &number),
        None => words_for(rt, alloc, &"none"),
    }
}

/// The words for something.
fn words_for(rt: &impl Abort, alloc: Global, it: &impl Display) -> String {
    format!(in alloc; "{it}").expect(rt, "memory")
}

/// The text without its blanks, which are for the eye.
fn without_blanks(rt: &impl Abort, alloc: Global, text: &str) -> String {
    text.replace(alloc, " ", "").expect(rt, "memory")
}

/// The first word of a text, and what follows it.
fn cut(text: &str) -> (&str, &str) {
    text.split_once(' ').unwrap_or((text, ""))
}

fn byte(rt: &impl Abort, digits: &str) -> u8 {
    digits.parse::<u8>().ok().expect(rt, digits)
}

fn decimal(rt: &impl Abort, digits: &str) -> u16 {
    digits.parse::<u16>().ok().expect(rt, digits)
}

fn hex(rt: &impl Abort, digits: &str) -> u16 {
    u16::from_str_radix(digits, 16).ok().expect(rt, digits)
}
