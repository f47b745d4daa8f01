//! What no clause says: that the clauses say what the standard and the profile mean. The expected bytes are worked
//! out by hand. Most rows are text, which `plays` reads.

use Verb::{Get, Set};
use play::{plays, plays_each};
use rdm_frame::{Body, Text};
use rdm_params::*;
use std::alloc::Global;
use std::process::Abort;

mod added;
mod blocks;
mod changes;
mod choices;
mod devices;
mod fitting;
mod locks;
mod modes;
mod orders;
mod panel;
mod placing;
mod play;
mod profiles;
mod rows;
mod scalars;
mod scenes;
mod sensors;
mod slow;
mod standards;
mod thresholds;
mod values;
mod words;

/// How many sub-devices the demonstration device has, and rows.
type Run = (u16, &'static str);

fn demo(rt: &impl Abort, alloc: Global, subs: u16) -> Devices {
    made(rt, alloc, Profile::demo(subs))
}

fn made(rt: &impl Abort, alloc: Global, profile: Profile) -> Devices {
    Devices::new(alloc, profile).expect(rt, "a good profile")
}

fn message(class: u8, pid: u16, sub: u16, body: Body) -> Message {
    Message {
        class,
        pid,
        sub,
        body,
    }
}

#[test]
fn commands_are_answered_as_expected(rt: HostRuntime) {
    play_all(&rt, rt.alloc(), added::RUNS);
    play_all(&rt, rt.alloc(), devices::RUNS);
    play_all(&rt, rt.alloc(), rows::RUNS);
    play_all(&rt, rt.alloc(), scalars::RUNS);
    play_all(&rt, rt.alloc(), slow::RUNS);
    play_all(&rt, rt.alloc(), thresholds::RUNS);
}

/// Each run is of devices of its own.
fn play_all(rt: &impl Abort, alloc: Global, runs: &[Run]) {
    for (subs, rows) in runs {
        let mut devices = demo(rt, alloc, *subs);
        assert!(rt; devices.sub_devices() == usize::from(*subs));
        plays(rt, &mut devices, rows);
    }
}
