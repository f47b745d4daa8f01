//! Slow commands, the ends of their jobs, and what QUEUED_MESSAGE and STATUS_MESSAGES ask for.

use super::*;

pub(super) const RUNS: &[Run] = &[(1, ASKED)];

pub(super) const FAILED: Outcome = Outcome::Failed {
    severity: Severity::Error,
    id: 0x8001,
    v1: 2,
    v2: 0,
};

/// Slow SETs: the sub-device and the PID, the byte that is set, and what a GET shows before the job is done and after it.
const SETS: &str = "<sub> | <pid> | <byte> | <before> | <after>
0000 | 0403 | 02 | 00 | 02
0001 | 0403 | 03 | 00 | 03
0000 | 1010 | 01 | FF | 01
0001 | 1010 | 00 | FF | 00
0000 | 1020 | 02 | 00 | 01";

/// A value is the one before the job is done, and then the other, also if another job fails.
const CHANGES_WHEN_DONE: &str = "
end set <sub> <pid> <byte> failed = 21 <before>
get <sub> <pid> = ack <before>
end set <sub> <pid> <byte> done = 31
get <sub> <pid> = ack <after>
end set <sub> <pid> <byte> failed = 21 <after>
";

/// What another sub-device shows after them.
const ANOTHER: &str = "
get 0002 0403 = ack 00
get 0002 1010 = ack FF
";

#[test]
fn a_slow_set_changes_its_device_when_it_is_done(rt: HostRuntime) {
    let mut devices = demo(&rt, rt.alloc(), 2);
    plays_each(&rt, rt.alloc(), &mut devices, SETS, CHANGES_WHEN_DONE);
    plays(&rt, &mut devices, ANOTHER);
}

/// A work of a command.
pub(super) fn work_of(verb: Verb, sub: u16, pid: u16, arg: u8) -> Work {
    Work {
        sub,
        pid,
        verb,
        arg,
    }
}

const MEASURED: &str = "
end get 0000 0201 01 reading -5 = 21 01 FF FB FF FB 00 00 00 00
end get 0000 0201 01 reading 25 = 21 01 00 19 FF FB 00 19 00 00
end get 0000 0201 01 failed = 21 01 00 19 FF FB 00 19 00 00
end get 0000 0201 00 failed = 21 00 00 00 00 00 00 00 00 00
end get 0000 0201 00 reading 25 = 21 00 00 19 00 00 00 19 00 00
";

/// Then all that the sensor shows is set to its present value.
const RESET: &str = "
set 0000 0201 01 = ack 01 00 19 00 19 00 19 00 19
";

#[test]
fn a_sensor_shows_what_it_measured(rt: HostRuntime) {
    let mut devices = demo(&rt, rt.alloc(), 0);
    plays(&rt, &mut devices, MEASURED);
    plays(&rt, &mut devices, RESET);
}

/// The worker of a work, how long it takes, and whether `Done`, a reading and `FAILED` can be its outcome.
type Told = (u16, Verb, u8, u16, [bool; 3]);

const WORKS: &[Told] = &[
    (0x0403, Set, 0, 50, [true, false, true]),
    (0x1010, Set, 0, 20, [true, false, true]),
    (0x1020, Set, 1, 100, [true, false, true]),
    (0x0201, Get, 1, 5, [false, true, true]),
    (0x0201, Set, 1, 0, [false, false, false]),
    (0x0403, Get, 1, 0, [false, false, false]),
    (0x1000, Set, 1, 0, [false, false, false]),
    (0x0020, Get, 1, 0, [false, false, false]),
    (0x0030, Get, 1, 0, [false, false, false]),
    (0x0015, Get, 1, 0, [false, false, false]),
];

/// Whether `Done`, a reading and `FAILED` can be the outcome.
fn outcomes_of(work: &Work) -> [bool; 3] {
    [
        fits(work, &Outcome::Done),
        fits(work, &Outcome::Reading(1)),
        fits(work, &FAILED),
    ]
}

#[test]
fn each_work_has_its_worker_and_its_outcomes(rt: HostRuntime) {
    let devices = demo(&rt, rt.alloc(), 0);
    for row in WORKS {
        is_told(&rt, &devices, *row);
    }
}

/// This is told of a work.
fn is_told(rt: &impl Abort, devices: &Devices, (pid, verb, worker, estimate, fitting): Told) {
    let work = work_of(verb, 0, pid, 0);
    let told = (worker_of(&work), outcomes_of(&work));
    assert!(rt; told == (worker, fitting), "{pid:04X}");
    let times = (devices.estimate_of(&work), estimate_of(&work));
    assert!(rt; times == (estimate, estimate), "{pid:04X}");
}

/// Other estimates than the usual ones.
const OTHER: Estimates = Estimates {
    lamp: 1,
    power: 0,
    self_test: 65535,
    sensor: 7,
};

/// The estimates of slow commands, as a controller is told: the command, its data and the estimate.
const TIMES: &[(Verb, u16, u8, u16)] = &[
    (Set, 0x0403, 1, 1),
    (Set, 0x1010, 0, 0),
    (Set, 0x1020, 1, 65535),
    (Get, 0x0201, 0, 7),
];

#[test]
fn a_job_takes_as_long_as_the_profile_says(rt: HostRuntime) {
    let mut devices = made(&rt, rt.alloc(), as_slow(&rt, rt.alloc()));
    for (verb, pid, arg, expected) in TIMES {
        let (_, estimate) = started(&rt, &mut devices, *verb, *pid, *arg);
        assert!(rt; estimate == *expected, "{pid:04X}");
    }
}

/// A demonstration device with these estimates.
fn as_slow(rt: &impl Abort, alloc: Global) -> Profile {
    let mut profile = Profile::demo(0);
    let mut particular = Particular::usual();
    particular.estimates = OTHER;
    profile.particulars = Particulars::of(alloc, particular).expect(rt, "memory");
    profile
}

/// The worker and the estimate of the job that a command starts.
fn started(rt: &impl Abort, devices: &mut Devices, verb: Verb, pid: u16, arg: u8) -> (u8, u16) {
    let mut body = Body::new();
    let told = match verb {
        Get => devices.get_into(0, pid, &[arg], &mut body),
        Set => devices.set_into(0, pid, &[arg], &mut body).0,
    };
    match told {
        Answer::Starts {
            worker,
            estimate,
            ..
        } => (worker, estimate),
        _ => {
            assert!(rt; false, "{pid:04X}: {told:?}");
            (0, 0)
        }
    }
}

/// Both workers have jobs of the other one, too.
const SHUFFLED: Workers = Workers {
    lamp: Worker::Second,
    power: Worker::First,
    self_test: Worker::First,
    sensor: Worker::Second,
};

/// The workers of slow commands: the command, its data and the worker.
const HANDS: &[(Verb, u16, u8, u8)] = &[
    (Set, 0x0403, 1, 1),
    (Set, 0x1010, 0, 0),
    (Set, 0x1020, 1, 0),
    (Get, 0x0201, 0, 1),
];

#[test]
fn a_job_has_the_worker_that_the_profile_says(rt: HostRuntime) {
    let mut profile = Profile::demo(0);
    profile.workers = SHUFFLED;
    let mut devices = made(&rt, rt.alloc(), profile);
    assert!(rt; devices.workers() == SHUFFLED);
    for (verb, pid, arg, expected) in HANDS {
        let (worker, _) = started(&rt, &mut devices, *verb, *pid, *arg);
        assert!(rt; worker == *expected, "{pid:04X}");
        let work = work_of(*verb, 0, *pid, *arg);
        is_of(&rt, &devices, &work, *expected);
    }
}

/// A work is this worker's.
fn is_of(rt: &impl Abort, devices: &Devices, work: &Work, worker: u8) {
    let told = (devices.worker_of(work), worker_at(&SHUFFLED, work));
    assert!(rt; told == (worker, worker), "{work:?}");
    let fitting = fitting_worker(&SHUFFLED, work, &FAILED);
    assert!(rt; fitting == Some(worker), "{work:?}");
}

/// What sensor 1 shows.
const SHOWN: &str = "
place 0000 0201 01 00 19 FF F6 01 2C 00 00 = ok
";

/// Sensor 1 is answered at once, sensor 0 isn't.
const QUICK: &str = "
get 0000 0201 00 = job 00
get 0000 0201 01 = ack 01 00 19 FF F6 01 2C 00 00
get 0000 0201 02 = nack data out of range
set 0000 0403 01 = job 01
";

#[test]
fn a_sensor_is_answered_at_once_with_what_was_placed(rt: HostRuntime) {
    let mut profile = Profile::demo(0);
    if let Some(sensor) = profile.sensors.as_mut_slice().get_mut(1) {
        sensor.at_once = true;
    }
    let mut devices = made(&rt, rt.alloc(), profile);
    plays(&rt, &mut devices, SHOWN);
    plays(&rt, &mut devices, QUICK);
}

/// Two parameters ask for what waits.
const ASKED: &str = "
get 0000 0020 01 = queue last
get 0000 0030 01 = status last
get 0000 0020 02 = queue advisory
get 0000 0030 02 = status advisory
get 0000 0020 03 = queue warning
get 0000 0030 03 = status warning
get 0000 0020 04 = queue error
get 0000 0030 04 = status error
get 0000 0030 00 = status none
get 0000 0020 00 = nack data out of range
get 0000 0020 05 = nack data out of range
get 0000 0030 05 = nack data out of range
get 0000 0020 = nack format error
get 0000 0030 = nack format error
get 0000 0030 01 01 = nack format error
get 0001 0020 02 = nack unknown PID
get 0001 0030 02 = nack unknown PID
get 0002 0020 02 = nack sub-device out of range
";
