//! A message in the place of one that still waits and tells of the same.

use super::made;
use rdm_frame::Body;
use rdm_outbox::{Outbox, Settings};
use rdm_params::{Ask, Message};
use std::process::Abort;

/// What a message tells: its class, its parameter, its sub-device, and a value of one byte.
type Told = (u8, u16, u16, u8);

/// The response to a GET of DMX_START_ADDRESS at the root, with a value of one byte.
fn start(value: u8) -> Told {
    (0x21, 0x00F0, 0, value)
}

fn message(rt: &impl Abort, (class, pid, sub, value): Told) -> Message {
    Message {
        class,
        pid,
        sub,
        body: Body::from_slice(&[value]).expect(rt, "a byte"),
    }
}

/// Puts messages at the back of the queue.
fn post(rt: &impl Abort, outbox: &mut Outbox, messages: &[Told]) {
    for told in messages {
        let room = outbox.room();
        assert!(rt; room, "{told:?} has room");
        if room {
            outbox.post(message(rt, *told));
        }
    }
}

/// Puts a message in the place of one that tells of the same.
fn renew(rt: &impl Abort, outbox: &mut Outbox, told: Told) {
    let room = outbox.room();
    assert!(rt; room, "{told:?} has room");
    if room {
        outbox.post_newest(message(rt, told));
    }
}

fn told_in(message: &Message) -> Option<Told> {
    let value = *message.body.as_slice().first()?;
    Some((message.class, message.pid, message.sub, value))
}

/// What the message with this index tells.
fn waits(outbox: &Outbox, index: usize) -> Option<Told> {
    told_in(outbox.waiting_at(index)?)
}

/// Another parameter, another device and another class are something else.
#[test]
fn newest_takes_the_place_of_the_first_that_tells_of_the_same(rt: HostRuntime) {
    let mut outbox = made(&rt, rt.alloc(), &Settings::usual(8, 8));
    let others = [
        (0x21, 0x0082, 0, 2),
        (0x21, 0x00F0, 1, 3),
        (0x31, 0x00F0, 0, 4),
    ];
    post(&rt, &mut outbox, &others);
    renew(&rt, &mut outbox, start(1));
    post(&rt, &mut outbox, &[start(5)]);
    renew(&rt, &mut outbox, start(6));
    for (index, told) in others.iter().enumerate() {
        assert!(rt; waits(&outbox, index) == Some(*told), "{told:?} waits");
    }
    assert!(rt; waits(&outbox, 3) == Some(start(6)));
    assert!(rt; waits(&outbox, 4) == Some(start(5)));
    assert!(rt; outbox.waiting() == 5);
}

/// In a queue of four, one message waits behind another, however often a newer one takes its place.
#[test]
fn newest_waits_alone_however_often_it_is_posted(rt: HostRuntime) {
    let mut outbox = made(&rt, rt.alloc(), &Settings::usual(4, 8));
    let label = (0x21, 0x0082, 0, 7);
    post(&rt, &mut outbox, &[label]);
    for value in 0..32 {
        renew(&rt, &mut outbox, start(value));
    }
    let left = (waits(&outbox, 0), waits(&outbox, 1), waits(&outbox, 2));
    assert!(rt; left == (Some(label), Some(start(31)), None));
}

#[test]
fn fetched_message_is_not_replaced(rt: HostRuntime) {
    let mut outbox = made(&rt, rt.alloc(), &Settings::usual(4, 8));
    renew(&rt, &mut outbox, start(1));
    assert!(rt; told_in(&outbox.dispense(Ask::Advisory).message) == Some(start(1)));
    renew(&rt, &mut outbox, start(2));
    assert!(rt; told_in(&outbox.dispense(Ask::Last).message) == Some(start(1)));
    assert!(rt; told_in(&outbox.dispense(Ask::Advisory).message) == Some(start(2)));
    assert!(rt; outbox.waiting() == 0);
}
