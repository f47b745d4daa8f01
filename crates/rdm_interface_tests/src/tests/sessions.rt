//! A virtual fixture at the other end of the line.

use super::{hears, interface, stream};
use rdm_frame::Uid;
use rdm_outcomes::demo_rules;
use rdm_params::Profile;
use rdm_widget::{Clock, LiveFixture, serve};
use std::process::Abort;

/// A request, when it comes, and what is heard then, both in hexadecimal digits.
struct Turn {
    at: u64,
    label: u8,
    asked: &'static str,
    heard: Option<&'static str>,
}

/// SET LAMP_STATE, which takes 5 s; a poll before that time, which finds nothing, and one after it, which finds the message; a
/// request to nobody; DISC_UN_MUTE, which nobody answers; and DISC_UNIQUE_BRANCH over all UIDs.
const TURNS: &[Turn] = &[
    Turn {
        at: 0,
        label: 7,
        asked: "CC01197FF0000000017FF000000002000100000030040301010401",
        heard: Some("CC011A7FF0000000027FF00000000100010000003104030200320435"),
    },
    Turn {
        at: 4999,
        label: 7,
        asked: "CC01197FF0000000017FF00000000202010000002000200104040F",
        heard: Some("CC01187FF0000000027FF0000000010200000000210030000419"),
    },
    Turn {
        at: 5000,
        label: 7,
        asked: "CC01197FF0000000017FF000000002030100000020002001040410",
        heard: Some("CC01187FF0000000027FF0000000010300000000310403000401"),
    },
    Turn {
        at: 5000,
        label: 7,
        asked: "CC01187FF0000000037FF0000000020501000000200082000470",
        heard: None,
    },
    Turn {
        at: 5000,
        label: 7,
        asked: "CC0118FFFFFFFFFFFF7FF000000002080100000010000300086C",
        heard: None,
    },
    Turn {
        at: 5000,
        label: 11,
        asked: "CC0124FFFFFFFFFFFF7FF00000000207010000001000010C000000000000FFFFFFFFFFFF0E7B",
        heard: Some("FEFEFEFEFEFEFEAAFF7FFAF5AA55AA55AA55AB55AF57EA7F"),
    },
];

/// A clock that tells when each request comes.
#[derive(Drop)]
struct OfTurns<'a> {
    turns: &'a [Turn],
}

impl Clock for OfTurns<'_> {
    ghost tells = { λ _ _ _. Unit {0} };

    fn now(&mut self) -> u64 {
        let Some((first, rest)) = self.turns.split_first() else {
            return 0;
        };
        self.turns = rest;
        first.at
    }
}

/// What is written for the requests is served, and what is answered is heard.
#[test]
fn what_a_fixture_replies_is_heard(rt: HostRuntime) {
    let written = written(&rt);
    let told = served(&rt, written.as_slice());
    are_heard(&rt, &[told.as_slice()]);
}

/// What is written for the requests.
fn written(rt: &(impl AllocGlobal + Abort)) -> Vec<u8> {
    let mut written = Vec::new(rt.alloc());
    for turn in TURNS {
        write_one(rt, turn, &mut written);
    }
    written
}

/// Puts what is written for a request behind others.
fn write_one(rt: &(impl AllocGlobal + Abort), turn: &Turn, written: &mut Vec<u8>) {
    let mut line = interface(rt, &[]);
    hears(rt, &mut line, turn.asked, None);
    let (_reader, sent, _clock) = line.into_parts();
    let asked = stream(rt, &[(turn.label, turn.asked)]);
    assert!(rt; sent.as_slice() == asked.as_slice());
    written
        .extend_from_slice(sent.as_slice())
        .expect(rt, "memory");
}

const FIXTURE: Uid = Uid {
    maker: 0x7FF0,
    device: 1,
};

/// What the fixture answers to that.
fn served(rt: &(impl AllocGlobal + Abort), written: &[u8]) -> Vec<u8> {
    let mut told = Vec::new(rt.alloc());
    let made = LiveFixture::new(rt.alloc(), FIXTURE, Profile::demo(0), 8, &demo_rules());
    serves(rt, written, &mut told, &mut made.expect(rt, "memory"));
    told
}

/// A fixture answers what is written.
fn serves(rt: &impl Abort, written: &[u8], told: &mut Vec<u8>, fixture: &mut LiveFixture) {
    let mut clock = OfTurns { turns: TURNS };
    let mut reader = written;
    serve(&mut reader, told, &mut clock, fixture).expect(rt, "nothing fails");
}

/// Each answer is heard.
fn are_heard(rt: &(impl AllocGlobal + Abort), pieces: &[&[u8]]) {
    let mut line = interface(rt, pieces);
    for turn in TURNS {
        hears(rt, &mut line, turn.asked, turn.heard);
    }
}
