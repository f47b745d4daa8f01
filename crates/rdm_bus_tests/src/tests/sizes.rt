//! A run with more events and messages than any small size: none is lost, and none is refused for want of memory.

use super::acts::{does, system, text_of};
use rdm_bus::System;
use std::alloc::Global;
use std::process::Abort;

/// How many changes are made and collected. Transaction numbers go round once.
const ROUNDS: u16 = 300;

/// The last message that is recorded tells this start address.
fn tells(rt: &impl Abort, alloc: Global, system: &System, start: u16) {
    let last = system.recorded().last().expect(rt, "a message");
    let expected = format!(in alloc; "21 00F0 0000 {start:04X}").expect(rt, "memory");
    assert!(rt; text_of(rt, alloc, last).as_str() == expected.as_str());
}

/// A change is made and collected, and tells of itself.
fn goes_round(rt: &impl Abort, alloc: Global, system: &mut System, round: u16) {
    let words = format!(in alloc; "start {round}").expect(rt, "memory");
    does(rt, alloc, system, &words);
    does(rt, alloc, system, "collect");
    let rounds = usize::from(round);
    assert!(rt; (system.trace().len() / 2, system.recorded().len()) == (rounds, rounds));
    tells(rt, alloc, system, round);
}

#[test]
fn long_runs_are_recorded_whole(rt: HostRuntime) {
    let mut system = system(&rt, rt.alloc(), 1);
    for round in 1..=ROUNDS {
        goes_round(&rt, rt.alloc(), &mut system, round);
    }
}
