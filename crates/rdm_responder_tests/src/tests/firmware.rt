//! What the firmware of a fixture does beside answering.

use super::play::Run;
use super::{DEVICE, GET, request, responder_with};
use rdm_frame::Body;
use rdm_params::{Entry, Outcome, Severity};
use rdm_responder::{Report, Responder};
use std::process::Abort;

/// A fan that stands still, with two values.
fn entry(sub: u16, severity: Severity) -> Entry {
    Entry {
        sub,
        severity,
        id: 0x8001,
        v1: 5,
        v2: 6,
    }
}

/// Runs that were worked out by hand.
pub(super) const RUNS: &[Run] = &[
    // With a full queue a change has no room, and what is placed needs none: the console reads it, and no message tells of it.
    (
        2,
        1,
        "change personality 2
queued
change start 101
no room
place 0000 00F0 0065
count
1 waiting, 0 outstanding
send CC0118 7FF000000001 7FF000000002 00 01 00 0000 20 00F0 00 04D7
reply CC011A 7FF000000002 7FF000000001 00 00 01 0000 21 00F0 02 0065 0541
",
    ),
    // A lamp that failed is a state that the firmware alone knows.
    (
        2,
        1,
        "place 0000 0403 7F
send CC0118 7FF000000001 7FF000000002 00 01 00 0000 20 0403 00 03EE
reply CC0119 7FF000000002 7FF000000001 00 00 00 0000 21 0403 01 7F 046F
",
    ),
    // A device, a PID and data that don't fit, and why.
    (
        2,
        1,
        "place 0003 1000 01
no device
place 0000 0060
no value
place 0001 0082 414141414141414141414141414141414141414141414141414141414141414141
length
place 0000 00F0 0201
out of range
",
    ),
    // An entry is shown once, if its device is there and reports of it.
    (
        2,
        1,
        "place 0000 0033 03
note 0000 02
note 0003 04
note 0000 03
noted
send CC0119 7FF000000001 7FF000000002 00 01 00 0000 20 0030 01 02 041B
reply CC0121 7FF000000002 7FF000000001 00 00 00 0000 21 0030 09 0000 03 8001 0005 0006 04B8
send CC0119 7FF000000001 7FF000000002 01 01 00 0000 20 0030 01 02 041C
reply CC0118 7FF000000002 7FF000000001 01 00 00 0000 21 0030 00 0418
",
    ),
];

/// A slow GET that fails tells what the sensor shows.
#[test]
fn a_sensor_tells_what_is_placed(rt: HostRuntime) {
    let slots = [1, 0, 25, 0xFF, 0xF6, 1, 0x2C, 0xFF, 0xFF];
    let mut responder = responder_with(&rt, rt.alloc(), 0, 1);
    assert!(rt; responder.place(0, 0x0201, &slots) == Ok(()));
    let body = body_of_failure(&rt, &mut responder);
    assert!(rt; body.as_slice() == slots.as_slice());
}

/// The data of the message where a GET of sensor 1 fails.
fn body_of_failure(rt: &impl Abort, responder: &mut Responder) -> Body {
    let heard = request(rt, DEVICE, 0, GET, 0x0201, &[1]);
    let (_, job) = responder.step(heard.as_slice());
    let outcome = Outcome::Failed {
        severity: Severity::Advisory,
        id: 1,
        v1: 0,
        v2: 0,
    };
    let report = Report {
        job: job.expect(rt, "a job"),
        outcome,
    };
    let arrival = responder.arrive(report);
    arrival.expect(rt, "a report that may arrive").message.body
}

#[test]
fn at_most_1024_entries_are_noted(rt: HostRuntime) {
    let mut responder = responder_with(&rt, rt.alloc(), 0, 1);
    for _ in 0..1024 {
        assert!(rt; responder.note(entry(0, Severity::Error)));
    }
    assert!(rt; !responder.note(entry(0, Severity::Error)));
}
