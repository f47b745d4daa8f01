//! The lines of a trace that no script prints: those of reports, and of messages with data.

use rdm_bus::Event;
use rdm_frame::Body;
use rdm_outbox::Job;
use rdm_params::{Message, Outcome, Severity, Verb, Work, Worker, Workers};
use rdm_responder::Report;
use rdm_script::{Finds, trace_lines};
use rdm_trace::text_of;
use std::alloc::Global;
use std::process::Abort;

const LAMP_STATE: u16 = 0x0403;

const SENSOR_VALUE: u16 = 0x0201;

/// A job of worker 0.
const LAMP: Work = Work {
    sub: 0,
    pid: LAMP_STATE,
    verb: Verb::Set,
    arg: 2,
};

/// A job of worker 1.
const SENSOR: Work = Work {
    sub: 0,
    pid: SENSOR_VALUE,
    verb: Verb::Get,
    arg: 0,
};

/// What is reported, and the trace.
const REPORTS: &[(Work, u32, Outcome, &str)] = &[
    (LAMP, 0, Outcome::Done, "arrive 0 0 done\nend\n"),
    (
        SENSOR,
        10,
        Outcome::Reading(25),
        "arrive 1 10 reading 25\nend\n",
    ),
    (
        SENSOR,
        4_294_967_294,
        Outcome::Reading(-32_768),
        "arrive 1 4294967294 reading -32768\nend\n",
    ),
    (
        LAMP,
        7,
        Outcome::Failed {
            severity: Severity::Error,
            id: 0x8001,
            v1: 2,
            v2: 0xABCD,
        },
        "arrive 0 7 failed 04 8001 0002 ABCD\nend\n",
    ),
    (
        SENSOR,
        1,
        Outcome::Failed {
            severity: Severity::AdvisoryCleared,
            id: 0,
            v1: 0xFFFF,
            v2: 1,
        },
        "arrive 1 1 failed 12 0000 FFFF 0001\nend\n",
    ),
];

/// A message with this class, PID and data.
fn message(rt: &impl Abort, class: u8, pid: u16, sub: u16, data: &[u8]) -> Message {
    let body = Body::from_slice(data).expect(rt, "at most 231 bytes");
    Message {
        class,
        pid,
        sub,
        body,
    }
}

/// Events and messages have this trace.
fn prints(rt: &impl Abort, alloc: Global, events: &[Event], messages: &[Message], trace: &str) {
    prints_as(rt, alloc, &Workers::usual(), events, messages, trace);
}

/// The same where the jobs have these workers.
fn prints_as(
    rt: &impl Abort,
    alloc: Global,
    workers: &Workers,
    events: &[Event],
    messages: &[Message],
    trace: &str,
) {
    let lines = trace_lines(alloc, workers, Finds::Untold, events, messages).expect(rt, "memory");
    let text = text_of(alloc, lines.as_slice()).expect(rt, "memory");
    assert!(rt; text.as_slice() == trace.as_bytes());
}

/// One event has this trace.
pub(super) fn prints_event(rt: &impl Abort, alloc: Global, event: Event, trace: &str) {
    prints(rt, alloc, &[event], &[], trace);
}

/// A report, on which nothing is kept.
fn event_of(work: Work, number: u32, outcome: Outcome) -> Event {
    Event::Arrived {
        report: Report {
            job: Job { number, work },
            outcome,
        },
        message: Message {
            class: 0x31,
            pid: work.pid,
            sub: work.sub,
            body: Body::new(),
        },
        kept: false,
    }
}

#[test]
fn prints_reports(rt: HostRuntime) {
    for (work, number, outcome, trace) in REPORTS {
        let event = event_of(*work, *number, *outcome);
        prints_event(&rt, rt.alloc(), event, trace);
    }
}

/// A choice by which the second worker has all jobs.
const SECOND: Workers = Workers {
    lamp: Worker::Second,
    power: Worker::Second,
    self_test: Worker::Second,
    sensor: Worker::Second,
};

#[test]
fn a_job_is_named_by_the_worker_that_has_it(rt: HostRuntime) {
    let events = [event_of(LAMP, 7, Outcome::Done)];
    let trace = "arrive 1 7 done\nend\n";
    prints_as(&rt, rt.alloc(), &SECOND, &events, &[], trace);
}

/// What a sensor measured.
const MEASURED: [u8; 9] = [0x00, 0x00, 0x19, 0x00, 0x00, 0x00, 0x19, 0x00, 0x00];

/// The lines of messages with and without data.
const MESSAGES: &str = "message 31 0403 0000 -
message 21 0201 0000 000019000000190000
message 21 00E0 01FF 02FE
end
";

#[test]
fn prints_messages_after_all_events(rt: HostRuntime) {
    let lamp = message(&rt, 0x31, LAMP_STATE, 0, &[]);
    let sensor = message(&rt, 0x21, SENSOR_VALUE, 0, &MEASURED);
    let address = message(&rt, 0x21, 0x00E0, 0x01FF, &[0x02, 0xFE]);
    prints(&rt, rt.alloc(), &[], &[lamp, sensor, address], MESSAGES);
}
