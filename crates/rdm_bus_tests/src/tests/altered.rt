//! Replies of which one slot was altered on the way.

use super::acts::{does, system, text_of};
use rdm_bus::{Event, Heard, System};
use std::alloc::Global;
use std::process::Abort;

/// How many slots the reply to a poll has where nothing waits.
const SLOTS: usize = 26;

/// How many slots the last reply had before it was altered, and what it was taken for.
fn last_heard(system: &System) -> Option<(usize, Heard)> {
    match system.trace().last()? {
        Event::Bus {
            reply: Some(reply),
            heard: Some(heard),
            ..
        } => Some((reply.as_slice().len(), *heard)),
        _ => None,
    }
}

/// Polls, as words say, and takes the reply for this.
fn hears(rt: &impl Abort, alloc: Global, system: &mut System, words: &str, heard: Heard) {
    does(rt, alloc, system, words);
    assert!(rt; last_heard(system) == Some((SLOTS, heard)), "{words}");
}

/// A reply of which this slot is raised is ignored.
fn is_ignored(rt: &impl Abort, alloc: Global, system: &mut System, slot: u16) {
    for raise in &[1u8, 128, 255] {
        let words = format!(in alloc; "collect, bad reply {slot} {raise}").expect(rt, "memory");
        hears(rt, alloc, system, &words, Heard::Ignored);
    }
}

#[test]
fn a_reply_with_an_altered_slot_is_ignored(rt: HostRuntime) {
    let mut system = system(&rt, rt.alloc(), 8);
    for slot in 0..SLOTS as u16 {
        is_ignored(&rt, rt.alloc(), &mut system, slot);
    }
    assert!(rt; system.recorded().is_empty());
    hears(&rt, rt.alloc(), &mut system, "collect", Heard::Message);
    only_message(&rt, rt.alloc(), &system, "21 0030 0000 ");
}

/// One message is recorded, and says this.
fn only_message(rt: &impl Abort, alloc: Global, system: &System, expected: &str) {
    let [message] = system.recorded() else {
        panic!(rt; "one message")
    };
    assert!(rt; text_of(rt, alloc, message).as_str() == expected);
}
