//! Two fixtures on one line, 7FF0:00000001 and 7FF0:00000003.

use super::{Told, fixture_with, put};
use rdm_line::{Collision, Line};
use rdm_widget::{LiveFixture, serve};
use std::process::Abort;

/// A request, when it comes, and what is on the line then, both in hexadecimal digits.
struct Turn {
    at: u64,
    asked: &'static str,
    told: &'static str,
}

/// SET LAMP_STATE, which takes 5 s, at one fixture and a second later at the other. Polls before the end of each job, which find
/// nothing, and after it, which find the message; and a broadcast, which isn't answered.
const EACH_IN_ITS_TIME: &[Turn] = &[
    Turn {
        at: 0,
        asked: "CC01197FF0000000017FF000000002000100000030040301010401",
        told: "CC011A7FF0000000027FF00000000100010000003104030200320435",
    },
    Turn {
        at: 1000,
        asked: "CC01197FF0000000037FF000000002010100000030040301010404",
        told: "CC011A7FF0000000027FF00000000301010000003104030200320438",
    },
    Turn {
        at: 4999,
        asked: "CC01197FF0000000017FF00000000202010000002000200104040F",
        told: "CC01187FF0000000027FF0000000010200000000210030000419",
    },
    Turn {
        at: 5000,
        asked: "CC01197FF0000000017FF000000002030100000020002001040410",
        told: "CC01187FF0000000027FF0000000010300000000310403000401",
    },
    Turn {
        at: 5999,
        asked: "CC01197FF0000000037FF000000002040100000020002001040413",
        told: "CC01187FF0000000027FF000000003040000000021003000041D",
    },
    Turn {
        at: 6000,
        asked: "CC01197FF0000000037FF000000002050100000020002001040414",
        told: "CC01187FF0000000027FF0000000030500000000310403000405",
    },
    Turn {
        at: 6000,
        asked: "CC0119FFFFFFFFFFFF7FF00000000206010000003010000101089A",
        told: "",
    },
];

/// DISC_UNIQUE_BRANCH over all UIDs.
const BRANCH: &str = "CC0124FFFFFFFFFFFF7FF00000000200010000001000010C000000000000FFFFFFFFFFFF0E74";

/// What is on the line of the answers of both.
const COLLISIONS: &[(Collision, &str)] = &[
    (
        Collision::AllBits,
        "FEFEFEFEFEFEFEAAFF7FFAF5AA55AA55AA55AB57AF57EE7F",
    ),
    (
        Collision::First,
        "FEFEFEFEFEFEFEAAFF7FFAF5AA55AA55AA55AB55AF57EA7F",
    ),
    (
        Collision::Rubbish(7),
        "7E4328BC0F7DFB8AF4A61A7F8FA82E91E8155A62CD769FCC",
    ),
];

/// A line with both fixtures.
fn line(rt: &(impl AllocGlobal + Abort), rule: Collision) -> Line<LiveFixture> {
    let mut line = Line::new(rt.alloc(), rule);
    for device in [3, 1] {
        let joined = line.join(fixture_with(rt, device));
        assert!(rt; joined.is_ok());
    }
    line
}

/// The bytes of the requests, and of what is on the line then; and when each request comes.
fn put_turns(
    rt: &(impl AllocGlobal + Abort),
    input: &mut Vec<u8>,
    told: &mut Vec<u8>,
    times: &mut Vec<u64>,
) {
    for turn in EACH_IN_ITS_TIME {
        put(rt, input, 7, "", turn.asked);
        if turn.told.is_empty() {
            put(rt, told, 12, "", "");
        } else {
            put(rt, told, 5, "00", turn.told);
        }
        times.push(turn.at).expect(rt, "memory");
    }
}

/// A line answers so, by a clock that tells these times.
fn serves(
    rt: &(impl AllocGlobal + Abort),
    rule: Collision,
    input: &[u8],
    times: &[u64],
    told: &[u8],
) {
    let mut line = line(rt, rule);
    let mut output = Vec::new(rt.alloc());
    let mut reader = input;
    let served = serve(&mut reader, &mut output, &mut Told { times }, &mut line);
    let is_so = served.is_ok() && output.as_slice() == told;
    assert!(rt; is_so);
}

#[test]
fn jobs_of_each_fixture_end_in_their_time(rt: HostRuntime) {
    let mut input = Vec::new(rt.alloc());
    let mut told = Vec::new(rt.alloc());
    let mut times = Vec::new(rt.alloc());
    put_turns(&rt, &mut input, &mut told, &mut times);
    let (input, told) = (input.as_slice(), told.as_slice());
    serves(&rt, Collision::AllBits, input, times.as_slice(), told);
}

#[test]
fn a_collision_is_told_as_the_line_makes_it(rt: HostRuntime) {
    for (rule, bytes) in COLLISIONS {
        let mut input = Vec::new(rt.alloc());
        put(&rt, &mut input, 11, "", BRANCH);
        let mut told = Vec::new(rt.alloc());
        put(&rt, &mut told, 5, "00", bytes);
        put(&rt, &mut told, 12, "", "");
        serves(&rt, *rule, input.as_slice(), &[], told.as_slice());
    }
}
