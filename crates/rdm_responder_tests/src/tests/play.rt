//! Plays runs that are written as text.

use super::{byte, cut, printed, responder_with, word};
use rdm_frame::Wire;
use rdm_outbox::Job;
use rdm_params::{Change, Entry, Outcome, PlaceError, Plate, Severity};
use rdm_responder::{Report, Responder, Started, Stepped};
use std::alloc::Global;
use std::process::Abort;

/// What happens to a new responder: how many sub-devices it has, for how many results there is room, and lines.
///
/// Six lines say what is done. `send` has the bytes of a frame that is heard. `arrive` reports on a job: as which of the run's
/// jobs it started, counted from 0, the number that the report says, and how the job ended, in the words of a trace. `change` has
/// what is changed at the fixture's own menu, and the value. `place` has the sub-device, the PID and the data that the firmware
/// places, and `note` the sub-device and the severity of a status entry. `count` asks how many messages wait and jobs are outstanding.
///
/// The others say all that comes of it. `reply` has the bytes of the reply, or `none`, and `job` the worker and the number of a
/// job that started. After a report stands `kept` where a status entry was kept, and `astray` where the report may not arrive.
/// After a change stands `queued` where it has a message, and `no room` where there is none for it. After what is placed stands
/// why it is refused, if it is, and after an entry `noted` where it was kept.
///
/// Blanks in a line are for the eye.
pub(super) type Run<'a> = (u16, u16, &'a str);

/// Plays a run: what comes of each line is what the next lines say, and nothing else.
pub(super) fn plays(rt: &impl Abort, alloc: Global, (subs, queue_size, lines): Run<'_>) {
    let mut play = Play::new(rt, alloc, subs, queue_size);
    for line in lines.lines() {
        play.goes_on(rt, alloc, line);
    }
    ends_as(rt, alloc, &play.told, lines);
}

/// The lines that came are those of the run.
fn ends_as(rt: &impl Abort, alloc: Global, told: &str, lines: &str) {
    let bare = told.replace(alloc, " ", "").expect(rt, "memory");
    let expected = lines.replace(alloc, " ", "").expect(rt, "memory");
    assert!(rt; bare.as_str() == expected.as_str(), "{told}, not {lines}");
}

/// A run that is being played.
#[derive(Drop)]
struct Play {
    responder: Responder,
    /// Hears and takes the same, and puts its replies in the caller's list.
    other: Responder,
    /// The jobs that started.
    jobs: Vec<Job>,
    /// The lines that were played, each with what came of it.
    told: String,
}

impl Play {
    /// A run that begins: nothing was played yet.
    fn new(rt: &impl Abort, alloc: Global, subs: u16, queue_size: u16) -> Play {
        Play {
            responder: responder_with(rt, alloc, subs, queue_size),
            other: responder_with(rt, alloc, subs, queue_size),
            jobs: Vec::new(alloc),
            told: String::new(alloc),
        }
    }

    /// Does what a line says, where it says what is done, and tells what comes of it.
    fn goes_on(&mut self, rt: &impl Abort, alloc: Global, line: &str) {
        let (verb, words) = cut(line);
        match verb {
            "send" => self.hears(rt, alloc, line, words),
            "arrive" => self.takes(rt, line, words),
            "change" => self.changes(rt, line, words),
            "place" => self.places(rt, line, words),
            "note" => self.notes(rt, line, words),
            "count" => self.counts(rt, alloc, line),
            _ => (),
        }
    }

    /// Puts a line at the end.
    fn tells(&mut self, rt: &impl Abort, line: &str) {
        self.told.push_str(line).expect(rt, "memory");
        self.told.push_str("\n").expect(rt, "memory");
    }

    /// Hears a frame. Both responders answer the same.
    fn hears(&mut self, rt: &impl Abort, alloc: Global, line: &str, words: &str) {
        self.tells(rt, line);
        let heard = printed(rt, words);
        let mut wire = Wire::new();
        let (reply, job) = self.responder.step(heard.as_slice());
        let stepped = self.other.step_into(heard.as_slice(), &mut wire);
        let is_same = match &reply {
            Some(bytes) => stepped.replied && wire.as_slice() == bytes.as_slice(),
            None => !stepped.replied,
        };
        assert!(rt; is_same && stepped.job() == job, "{line}");
        self.tells_answer(rt, alloc, &stepped, wire.as_slice());
    }

    /// Tells of what was heard: the reply, if there is one, and the job that started, if one did.
    fn tells_answer(&mut self, rt: &impl Abort, alloc: Global, stepped: &Stepped, wire: &[u8]) {
        if stepped.replied {
            self.tells_reply(rt, alloc, wire);
        } else {
            self.tells(rt, "reply none");
        }
        if let Some(started) = stepped.started {
            self.starts(rt, alloc, started, wire);
        }
    }

    /// A job started. Where there is a reply it is ACK_TIMER, and the estimate is the one that it carries.
    fn starts(&mut self, rt: &impl Abort, alloc: Global, started: Started, wire: &[u8]) {
        let line = format!(in alloc; "job {} {}", started.worker, started.job.number);
        let line = line.expect(rt, "memory");
        if let Some(carried) = wire.get(24..26) {
            assert!(rt;
                carried == started.estimate.to_be_bytes().as_slice(),
                "{line}"
            );
        }
        self.tells(rt, &line);
        self.jobs.push(started.job).expect(rt, "memory");
    }

    /// Prints the bytes of a reply.
    fn tells_reply(&mut self, rt: &impl Abort, alloc: Global, bytes: &[u8]) {
        self.told.push_str("reply ").expect(rt, "memory");
        for byte in bytes {
            let digits = format!(in alloc; "{byte:02X}").expect(rt, "memory");
            self.told.push_str(&digits).expect(rt, "memory");
        }
        self.told.push_str("\n").expect(rt, "memory");
    }

    /// Takes a report. One that is astray comes back as it is, and nothing waits or ends by it.
    fn takes(&mut self, rt: &impl Abort, line: &str, words: &str) {
        let report = self.report_in(rt, words);
        let counts = (self.responder.waiting(), self.responder.outstanding());
        let is_taken = self.other.arrive(report).is_ok();
        let (is_same, told) = match self.responder.arrive(report) {
            Ok(arrival) => (is_taken, if arrival.kept { "kept" } else { "" }),
            Err(astray) => (!is_taken && astray.report == report, "astray"),
        };
        let after = (self.responder.waiting(), self.responder.outstanding());
        assert!(rt; is_same && (is_taken || after == counts), "{line}");
        self.tells_of(rt, line, told);
    }

    /// Puts a line at the end, and behind it what there is to tell, if there is something.
    fn tells_of(&mut self, rt: &impl Abort, line: &str, told: &str) {
        self.tells(rt, line);
        if !told.is_empty() {
            self.tells(rt, told);
        }
    }

    /// Takes a change. One for which there is no room comes back as it is.
    fn changes(&mut self, rt: &impl Abort, line: &str, words: &str) {
        let change = change_in(rt, words);
        let has_room = self.responder.room();
        let (is_so, told) = match self.responder.change(change) {
            Ok(message) => (has_room, if message.is_some() { "queued" } else { "" }),
            Err(refused) => (!has_room && refused.change == change, "no room"),
        };
        let is_same = self.other.change(change).is_ok() == has_room;
        assert!(rt; is_so && is_same, "{line}");
        self.tells_of(rt, line, told);
    }

    /// Places a value, as both responders do.
    fn places(&mut self, rt: &impl Abort, line: &str, words: &str) {
        let (sub, words) = cut(words);
        let (pid, words) = cut(words);
        let (sub, pid, data) = (word(rt, sub), word(rt, pid), printed(rt, words));
        let placed = self.responder.place(sub, pid, data.as_slice());
        let is_same = self.other.place(sub, pid, data.as_slice()) == placed;
        assert!(rt; is_same, "{line}");
        self.tells_of(rt, line, refusal_of(&placed));
    }

    /// Notes a status entry, as both responders do.
    fn notes(&mut self, rt: &impl Abort, line: &str, words: &str) {
        let entry = entry_in(rt, words);
        let noted = self.responder.note(entry);
        let is_same = self.other.note(entry) == noted;
        assert!(rt; is_same, "{line}");
        self.tells_of(rt, line, if noted { "noted" } else { "" });
    }

    /// Tells how many messages wait, and how many jobs are outstanding.
    fn counts(&mut self, rt: &impl Abort, alloc: Global, line: &str) {
        let (waiting, outstanding) = (self.responder.waiting(), self.responder.outstanding());
        let told = format!(in alloc; "{waiting} waiting, {outstanding} outstanding");
        self.tells_of(rt, line, &told.expect(rt, "memory"));
    }

    /// The report that words say: which job, a number and an outcome.
    fn report_in(&self, rt: &impl Abort, words: &str) -> Report {
        let (at, words) = cut(words);
        let (number, outcome) = cut(words);
        let started = self.jobs.get(decimal(rt, at) as usize).expect(rt, at);
        let number = decimal(rt, number);
        Report {
            job: Job { number, ..*started },
            outcome: outcome_in(rt, outcome),
        }
    }
}

/// Why a value isn't placed.
fn refusal_of(placed: &Result<(), PlaceError>) -> &'static str {
    match placed {
        Ok(()) => "",
        Err(PlaceError::NoDevice) => "no device",
        Err(PlaceError::NoValue) => "no value",
        Err(PlaceError::Length) => "length",
        Err(PlaceError::OutOfRange) => "out of range",
    }
}

/// The entry that words say, of the sub-device and the severity: a fan that stands still, with two values.
fn entry_in(rt: &impl Abort, words: &str) -> Entry {
    let (sub, severity) = cut(words);
    Entry {
        sub: word(rt, sub),
        severity: severity_in(rt, severity),
        id: 0x8001,
        v1: 5,
        v2: 6,
    }
}

/// The change that words say: a number in decimal digits, or a label in hexadecimal ones.
fn change_in(rt: &impl Abort, words: &str) -> Change {
    let (kind, value) = cut(words);
    match kind {
        "start" => Change::Start(value.parse::<u16>().ok().expect(rt, words)),
        "personality" => Change::Personality(value.parse::<u8>().ok().expect(rt, words)),
        _ => {
            assert!(rt; kind == "label", "{words}");
            Change::Label(Plate::new(printed(rt, value).as_slice()).expect(rt, words))
        }
    }
}

/// The outcome that words say.
fn outcome_in(rt: &impl Abort, words: &str) -> Outcome {
    let (kind, value) = cut(words);
    match kind {
        "done" => Outcome::Done,
        "reading" => Outcome::Reading(value.parse::<i16>().ok().expect(rt, words)),
        _ => {
            assert!(rt; kind == "failed", "{words}");
            failed_in(rt, value)
        }
    }
}

/// A failure: the code of its severity, the number of its status message, and two values.
fn failed_in(rt: &impl Abort, words: &str) -> Outcome {
    let (severity, words) = cut(words);
    let (id, words) = cut(words);
    let (v1, v2) = cut(words);
    Outcome::Failed {
        severity: severity_in(rt, severity),
        id: word(rt, id),
        v1: word(rt, v1),
        v2: word(rt, v2),
    }
}

/// The number that decimal digits print.
fn decimal(rt: &impl Abort, digits: &str) -> u32 {
    digits.parse::<u32>().ok().expect(rt, digits)
}

/// The severity of this code (E1.20 table A-4).
fn severity_in(rt: &impl Abort, code: &str) -> Severity {
    Severity::of(byte(rt, code)).expect(rt, code)
}
