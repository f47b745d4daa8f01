//! What a profile says of slow commands: how long they take, who carries them out, and which sensors are answered at once.

use super::{CONTROLLER, DEVICE, GET, SET, request};
use rdm_frame::{Body, Frame, Wire, encode};
use rdm_outbox::Job;
use rdm_params::{Estimates, Outcome, Particular, Particulars, Profile, Worker, Workers};
use rdm_responder::{Report, Responder, Started};
use std::alloc::Global;
use std::process::Abort;

const LAMP_STATE: u16 = 0x0403;

const POWER_STATE: u16 = 0x1010;

const PERFORM_SELFTEST: u16 = 0x1020;

const SENSOR_VALUE: u16 = 0x0201;

/// Times that are all unlike the usual ones.
const TIMES: Estimates = Estimates {
    lamp: 0x0102,
    power: 0,
    self_test: 0xFFFF,
    sensor: 7,
};

/// The lamp and the sensors have the other worker than usual.
const SHUFFLED: Workers = Workers {
    lamp: Worker::Second,
    power: Worker::First,
    self_test: Worker::Second,
    sensor: Worker::First,
};

/// All jobs are one worker's.
const ALONE: Workers = Workers {
    lamp: Worker::First,
    power: Worker::First,
    self_test: Worker::First,
    sensor: Worker::First,
};

/// A responder of the demo fixture with these times and workers, whose sensor 1 is answered at once.
fn responder(rt: &impl Abort, alloc: Global, estimates: Estimates, workers: Workers) -> Responder {
    let mut profile = Profile::demo(0);
    let mut particular = Particular::usual();
    particular.estimates = estimates;
    profile.particulars = Particulars::of(alloc, particular).expect(rt, "memory");
    profile.workers = workers;
    if let Some(sensor) = profile.sensors.as_mut_slice().get_mut(1) {
        sensor.at_once = true;
    }
    Responder::new(alloc, DEVICE, profile, 8).expect(rt, "a good profile")
}

/// What the device replies, by its type, the class, the PID and the slots.
fn reply(rt: &impl Abort, kind: u8, class: u8, pid: u16, slots: &[u8]) -> Wire {
    encode(&Frame {
        dst: CONTROLLER,
        src: DEVICE,
        tn: 0,
        port: kind,
        count: 0,
        sub: 0,
        class,
        pid,
        body: Body::from_slice(slots).expect(rt, "slots of a frame"),
    })
}

/// A slow command: the class, the PID, the slot, the slots of ACK_TIMER, the worker of the job and its number.
type SlowCommand = (u8, u16, u8, [u8; 2], u8, u32);

/// Slow commands of each kind.
const COMMANDS: &[SlowCommand] = &[
    (SET, LAMP_STATE, 1, [0x01, 0x02], 1, 0),
    (SET, POWER_STATE, 0, [0, 0], 0, 0),
    (SET, PERFORM_SELFTEST, 1, [0xFF, 0xFF], 1, 1),
    (GET, SENSOR_VALUE, 0, [0, 7], 0, 1),
];

#[test]
fn a_job_has_the_time_and_the_worker_of_the_profile(rt: HostRuntime) {
    let mut responder = responder(&rt, rt.alloc(), TIMES, SHUFFLED);
    for command in COMMANDS {
        is_slow(&rt, &mut responder, *command);
    }
}

/// A command is answered by ACK_TIMER, and its job starts.
fn is_slow(rt: &impl Abort, responder: &mut Responder, command: SlowCommand) {
    let (class, pid, slot, time, worker, number) = command;
    let heard = request(rt, DEVICE, 0, class, pid, &[slot]);
    let expected = reply(rt, 1, class.wrapping_add(1), pid, &time);
    let mut wire = Wire::new();
    let stepped = responder.step_into(heard.as_slice(), &mut wire);
    assert!(rt; stepped.replied && wire == expected, "{pid:04X}");
    let Started {
        job,
        worker: hand,
        estimate,
    } = stepped.started.expect(rt, "a job");
    let told = (hand, estimate, job.number);
    assert!(rt;
        told == (worker, u16::from_be_bytes(time), number),
        "{pid:04X}"
    );
    assert!(rt; responder.oldest(worker).is_some(), "{pid:04X}");
}

/// The job of a SET.
fn started(rt: &impl Abort, responder: &mut Responder, pid: u16, slot: u8) -> Job {
    let heard = request(rt, DEVICE, 0, SET, pid, &[slot]);
    let (_, job) = responder.step(heard.as_slice());
    job.expect(rt, "a job")
}

/// Whether a self test may be done before the lamp, which was switched before it.
fn tests_first(rt: &impl Abort, alloc: Global, workers: Workers) -> bool {
    let mut responder = responder(rt, alloc, Estimates::usual(), workers);
    does_both(rt, &mut responder)
}

/// Switches the lamp and tests, and reports on the test first, if that may be.
fn does_both(rt: &impl Abort, responder: &mut Responder) -> bool {
    let lamp = started(rt, responder, LAMP_STATE, 1);
    let test = started(rt, responder, PERFORM_SELFTEST, 1);
    let is_first = ends(responder, test);
    assert!(rt; ends(responder, lamp));
    assert!(rt; is_first || ends(responder, test));
    is_first
}

/// Whether a report that a job is done may arrive.
fn ends(responder: &mut Responder, job: Job) -> bool {
    let outcome = Outcome::Done;
    responder.arrive(Report { job, outcome }).is_ok()
}

#[test]
fn one_worker_does_its_jobs_in_order(rt: HostRuntime) {
    for (workers, expected) in [(Workers::usual(), true), (ALONE, false), (SHUFFLED, false)] {
        assert!(rt; tests_first(&rt, rt.alloc(), workers) == expected);
    }
}

/// What sensor 1 shows.
const SHOWN: [u8; 9] = [1, 0, 25, 0xFF, 0xF6, 1, 0x2C, 0, 0];

#[test]
fn a_sensor_at_once_shows_what_the_firmware_placed(rt: HostRuntime) {
    let heard = request(&rt, DEVICE, 0, GET, SENSOR_VALUE, &[1]);
    let expected = reply(&rt, 0, GET + 1, SENSOR_VALUE, &SHOWN);
    let mut responder = responder(&rt, rt.alloc(), TIMES, SHUFFLED);
    assert!(rt; responder.place(0, SENSOR_VALUE, &SHOWN) == Ok(()));
    assert!(rt; responder.step(heard.as_slice()) == (Some(expected), None));
    assert!(rt; (responder.waiting(), responder.outstanding()) == (0, 0));
}
