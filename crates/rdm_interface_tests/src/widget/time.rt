//! Slow commands and the clock.

use super::{Told, fixture, fixture_of, put};
use rdm_params::{Estimates, Particular, Particulars, Profile, Worker, Workers};
use rdm_widget::{Clock, LiveFixture, RealClock, serve};
use std::alloc::Global;
use std::process::Abort;
use std::test::Fail;
use std::time::{Duration, Instant};

/// A request, when it comes, and the reply, both in hexadecimal digits.
pub(super) struct Turn {
    pub(super) at: u64,
    pub(super) asked: &'static str,
    pub(super) told: &'static str,
}

/// SET LAMP_STATE, which takes 5 s, and half a second before its end GET SENSOR_VALUE, which takes half a second: both jobs end
/// at once. A poll before then finds nothing; afterwards there is the message of the first worker, and then that of the second.
const BOTH_END_AT_ONCE: &[Turn] = &[
    Turn {
        at: 0,
        asked: "CC01197FF0000000017FF000000002000100000030040301010401",
        told: "CC011A7FF0000000027FF00000000100010000003104030200320435",
    },
    Turn {
        at: 4500,
        asked: "CC01197FF0000000017FF0000000020101000000200201010003ED",
        told: "CC011A7FF0000000027FF000000001010100000021020102000503F5",
    },
    Turn {
        at: 4999,
        asked: "CC01197FF0000000017FF00000000202010000002000200104040F",
        told: "CC01187FF0000000027FF0000000010200000000210030000419",
    },
    Turn {
        at: 5000,
        asked: "CC01197FF0000000017FF000000002030100000020002001040410",
        told: "CC01187FF0000000027FF0000000010300010000310403000402",
    },
    Turn {
        at: 5000,
        asked: "CC01197FF0000000017FF000000002040100000020002001040411",
        told: "CC01217FF0000000027FF0000000010400000000210201090000190000001900000432",
    },
];

/// The same lamp on a clock that stands still: it never strikes.
const STANDS_STILL: &[Turn] = &[
    Turn {
        at: 7,
        asked: "CC01197FF0000000017FF000000002000100000030040301010401",
        told: "CC011A7FF0000000027FF00000000100010000003104030200320435",
    },
    Turn {
        at: 7,
        asked: "CC01197FF0000000017FF00000000202010000002000200104040F",
        told: "CC01187FF0000000027FF0000000010200000000210030000419",
    },
    Turn {
        at: 7,
        asked: "CC01197FF0000000017FF00000000202010000002000200104040F",
        told: "CC01187FF0000000027FF0000000010200000000210030000419",
    },
];

/// The bytes of the requests and of the replies, and when each request comes.
fn put_turns(
    rt: &(impl AllocGlobal + Abort),
    turns: &[Turn],
    input: &mut Vec<u8>,
    told: &mut Vec<u8>,
    times: &mut Vec<u64>,
) {
    for turn in turns {
        put(rt, input, 7, "", turn.asked);
        put(rt, told, 5, "00", turn.told);
        times.push(turn.at).expect(rt, "memory");
    }
}

/// A fixture answers so, by a clock that tells these times.
fn serves(
    rt: &(impl AllocGlobal + Abort),
    fixture: &mut LiveFixture,
    input: &[u8],
    times: &[u64],
    told: &[u8],
) {
    let mut output = Vec::new(rt.alloc());
    let mut reader = input;
    let served = serve(&mut reader, &mut output, &mut Told { times }, fixture);
    let is_so = served.is_ok() && output.as_slice() == told;
    assert!(rt; is_so);
}

/// What a fixture is asked in these turns is answered so.
pub(super) fn answers_in_time(
    rt: &(impl AllocGlobal + Abort),
    fixture: &mut LiveFixture,
    turns: &[Turn],
) {
    let mut input = Vec::new(rt.alloc());
    let mut told = Vec::new(rt.alloc());
    let mut times = Vec::new(rt.alloc());
    put_turns(rt, turns, &mut input, &mut told, &mut times);
    let (input, told) = (input.as_slice(), told.as_slice());
    serves(rt, fixture, input, times.as_slice(), told);
}

#[test]
fn jobs_end_when_their_time_is_up(rt: HostRuntime) {
    answers_in_time(&rt, &mut fixture(&rt), BOTH_END_AT_ONCE);
    answers_in_time(&rt, &mut fixture(&rt), STANDS_STILL);
}

/// The lamp takes a second, a self test half of one.
const QUICK: Estimates = Estimates {
    lamp: 10,
    power: 20,
    self_test: 5,
    sensor: 5,
};

/// All jobs are one worker's.
const ALONE: Workers = Workers {
    lamp: Worker::First,
    power: Worker::First,
    self_test: Worker::First,
    sensor: Worker::First,
};

/// SET LAMP_STATE and PERFORM_SELFTEST at once: the test begins when the lamp burns. Polls before the end of each job, which find
/// nothing, and then, which find the message; and GET SENSOR_VALUE of a sensor that is answered at once.
const ONE_BY_ONE: &[Turn] = &[
    Turn {
        at: 0,
        asked: "CC01197FF0000000017FF000000002000100000030040301010401",
        told: "CC011A7FF0000000027FF000000001000100000031040302000A040D",
    },
    Turn {
        at: 0,
        asked: "CC01197FF0000000017FF00000000201010000003010200101042B",
        told: "CC011A7FF0000000027FF00000000101010000003110200200050432",
    },
    Turn {
        at: 999,
        asked: "CC01197FF0000000017FF00000000202010000002000200104040F",
        told: "CC01187FF0000000027FF0000000010200000000210030000419",
    },
    Turn {
        at: 1000,
        asked: "CC01197FF0000000017FF000000002030100000020002001040410",
        told: "CC01187FF0000000027FF0000000010300000000310403000401",
    },
    Turn {
        at: 1499,
        asked: "CC01197FF0000000017FF000000002040100000020002001040411",
        told: "CC01187FF0000000027FF000000001040000000021003000041B",
    },
    Turn {
        at: 1500,
        asked: "CC01197FF0000000017FF000000002050100000020002001040412",
        told: "CC01187FF0000000027FF000000001050000000031102000042C",
    },
    Turn {
        at: 1500,
        asked: "CC01197FF0000000017FF0000000020601000000200201010103F3",
        told: "CC01217FF0000000027FF0000000010600000000210201090100000000000000000403",
    },
];

/// The demonstration fixture with these estimates and workers, and with a sensor that is read at once.
fn quick(rt: &impl Abort, alloc: Global) -> Profile {
    let mut profile = Profile::demo(0);
    let mut particular = Particular::usual();
    particular.estimates = QUICK;
    profile.particulars = Particulars::of(alloc, particular).expect(rt, "memory");
    profile.workers = ALONE;
    if let Some(sensor) = profile.sensors.as_mut_slice().get_mut(1) {
        sensor.at_once = true;
    }
    profile
}

#[test]
fn jobs_take_the_time_and_the_worker_of_the_profile(rt: HostRuntime) {
    let profile = quick(&rt, rt.alloc());
    answers_in_time(&rt, &mut fixture_of(&rt, 1, profile), ONE_BY_ONE);
}

/// A clock lies between two of the system's that were started before and after it, as fast as it is told to be: so it isn't in
/// microseconds, and no speed is forgotten.
#[test]
fn a_clock_is_in_milliseconds_and_as_fast_as_it_is_told(rt: HostRuntime) -> Result<(), Fail> {
    for speed in [1, 1000] {
        let before = Instant::now(&rt)?;
        let mut clock = RealClock::start(&rt, speed)?;
        let after = Instant::now(&rt)?;
        let mut least = after.elapsed(&rt)?;
        for _turn in 0..u64::MAX {
            if least >= Duration::from_millis(2) {
                break;
            }
            least = after.elapsed(&rt)?;
        }
        let told = clock.now() / u64::from(speed);
        let most = before.elapsed(&rt)?;
        assert!(rt; least.as_millis() <= u128::from(told));
        assert!(rt; u128::from(told) <= most.as_millis());
    }
    Ok(())
}
