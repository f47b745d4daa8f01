//! Whole runs of a bus, worked out by hand.

use super::acts::{Run, does, plays, system, text_of};
use super::panel;
use rdm_bus::{Event, Heard, System};
use rdm_frame::{Wire, decode};
use rdm_params::Message;
use std::alloc::Global;
use std::process::Abort;

/// A request is refused, or altered on the way.
const REFUSED_OR_ALTERED: &str = "
get 0030 = reserved
set 0030 too many = reserved
set 1000 too many = too long
get 1000, bad request 2 1 = 00010000002010000003F7 - nothing
";

/// What is lost is asked for again.
const REPLY_LOST: &str = "
set 0403 01 = 000100000030040301010401 00010000003104030200320435 reply
astray 0 = astray
ends 0 = arrived
ends 0 = astray
collect, lost reply = 01010000002000200102040C 01000000003104030003FF nothing
collect = 02010000002000200101040C 0200000000310403000400 message
";

const REQUEST_LOST_AND_REPLY_ALTERED: &str = "
collect, lost request = 00010000002000200102040B - nothing
collect, bad reply 2 1 = 01010000002000200101040B 0100000000210030000418 ignored
collect = 02010000002000200101040C 0200000000210030000419 message
";

/// Equal results are given one by one.
const EQUAL_RESULTS: &str = "
set 0403 01 = 000100000030040301010401 00010000003104030200320435 reply
set 0403 01 = 010100000030040301010402 01010000003104030200320436 reply
ends 0 = arrived
ends 1 = arrived
collect = 02010000002000200102040D 0200010000310403000401 message
collect = 03010000002000200102040E 0300000000310403000401 message
";

/// A slow command waits for room.
const NO_ROOM: &str = "
set 0403 01 = 000100000030040301010401 00010000003104030200320435 reply
set 0403 00 = 010100000030040301000401 0102000000310403020007040C reply
ends 0 = arrived
set 0403 00 = 020100000030040301000402 0202010000310403020007040E reply
collect = 03010000002000200102040E 0300000000310403000401 message
set 0403 00 = 040100000030040301000404 04010000003104030200320439 reply
";

const RUNS: &[Run] = &[
    (8, REFUSED_OR_ALTERED, 0),
    (8, REPLY_LOST, 1),
    (8, REQUEST_LOST_AND_REPLY_ALTERED, 1),
    (8, EQUAL_RESULTS, 2),
    (1, NO_ROOM, 1),
];

#[test]
fn runs_go_as_printed(rt: HostRuntime) {
    play_all(&rt, rt.alloc(), RUNS);
    play_all(&rt, rt.alloc(), panel::RUNS);
}

fn play_all(rt: &impl Abort, alloc: Global, runs: &[Run]) {
    for run in runs {
        plays(rt, alloc, *run);
    }
}

/// The message of a reply.
fn message_of(rt: &impl Abort, bytes: &Wire) -> Message {
    let frame = decode(bytes.as_slice()).expect(rt, "a frame");
    Message {
        class: frame.class,
        pid: frame.pid,
        sub: frame.sub,
        body: frame.body,
    }
}

/// Adds what a message says, unless it is what the last one said.
fn join(rt: &impl Abort, alloc: Global, texts: &mut Vec<String>, message: &Message) {
    let text = text_of(rt, alloc, message);
    if let Some(last) = texts.last()
        && *last == text
    {
        return;
    }
    texts.push(text).expect(rt, "memory");
}

/// The texts of the messages that the device dispensed to polls, joined, and whether the last poll was answered.
fn dispensed(rt: &impl Abort, alloc: Global, system: &System) -> (Vec<String>, bool) {
    let mut texts = Vec::new(alloc);
    let mut answered = true;
    for event in system.trace() {
        if let Event::Bus {
            poll: true,
            reply,
            heard,
            ..
        } = event
        {
            answered = *heard == Some(Heard::Message);
            if let Some(reply) = reply {
                join(rt, alloc, &mut texts, &message_of(rt, reply));
            }
        }
    }
    (texts, answered)
}

/// The texts of the messages that were recorded, joined.
fn recorded(rt: &impl Abort, alloc: Global, system: &System) -> Vec<String> {
    let mut texts = Vec::new(alloc);
    for message in system.recorded() {
        join(rt, alloc, &mut texts, message);
    }
    texts
}

/// The record is what was dispensed, or one message shorter where the last poll isn't answered.
fn compare(rt: &impl Abort, alloc: Global, system: &System) {
    let (dispensed, answered) = dispensed(rt, alloc, system);
    let recorded = recorded(rt, alloc, system);
    assert!(rt;
        is_front(&recorded, &dispensed, usize::from(!answered)),
        "{dispensed:?}"
    );
}

/// Whether a list is the front of another one, of which at most so many items are missing.
fn is_front(front: &[String], all: &[String], most_missing: usize) -> bool {
    let are_equal = front.iter().zip(all).all(|(one, other)| *one == *other);
    are_equal && front.len() <= all.len() && all.len().saturating_sub(front.len()) <= most_missing
}

/// Polls, with each thing that can go wrong with one.
const POLLS: [&str; 5] = [
    "collect",
    "collect, lost request",
    "collect, lost reply",
    "collect, bad request 3 1",
    "collect, bad reply 3 1",
];

/// Two results wait.
const RESULTS: &[&str] = &["set 0403 01", "set 1020 01", "ends 0", "ends 1"];

/// A new system, with two results that wait.
fn with_results(rt: &impl Abort, alloc: Global) -> System {
    let mut system = system(rt, alloc, 8);
    for words in RESULTS {
        does(rt, alloc, &mut system, words);
    }
    assert!(rt; system.responder().waiting() == 2);
    system
}

/// Polls four times: with what goes wrong is counted by the digits to base 5.
fn polls(rt: &impl Abort, alloc: Global, system: &mut System, list: usize) {
    let mut rest = list;
    for _ in 0..4 {
        does(rt, alloc, system, POLLS[rest % 5]);
        rest /= 5;
        compare(rt, alloc, system);
    }
    assert!(rt; system.trace().len() == 8);
}

#[test]
fn the_record_is_what_was_dispensed(rt: HostRuntime) {
    for list in 0..625usize {
        polls(&rt, rt.alloc(), &mut with_results(&rt, rt.alloc()), list);
    }
}
