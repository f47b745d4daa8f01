//! The message of a change in place of one that still waits, where the profile asks for the newest only.

use super::{DEVICE, printed};
use rdm_params::{Change, Message, Particular, Particulars, Plate, Profile};
use rdm_responder::Responder;
use std::alloc::Global;
use std::process::Abort;

const DMX_START_ADDRESS: u16 = 0x00F0;

const DEVICE_LABEL: u16 = 0x0082;

/// A responder with a queue of four.
fn made(rt: &impl Abort, alloc: Global, newest_only: bool) -> Responder {
    let mut profile = Profile::demo(0);
    let mut particular = Particular::usual();
    particular.newest_only = newest_only;
    profile.particulars = Particulars::of(alloc, particular).expect(rt, "memory");
    Responder::new(alloc, DEVICE, profile, 4).expect(rt, "a good profile")
}

/// Turns the menu to a start address.
fn turn(rt: &impl Abort, responder: &mut Responder, start: u16) {
    let taken = responder.change(Change::Start(start)).is_ok();
    assert!(rt; taken, "{start} has room");
}

/// Types a label at the menu.
fn label(rt: &impl Abort, responder: &mut Responder) {
    let plate = Plate::new(b"Panel").expect(rt, "a short text");
    let taken = responder.change(Change::Label(plate)).is_ok();
    assert!(rt; taken, "the label has room");
}

/// The parameter of a message, and its first two bytes as a number.
fn told(message: &Message) -> Option<(u16, u16)> {
    match message.body.as_slice() {
        [high, low, ..] => Some((message.pid, u16::from_be_bytes([*high, *low]))),
        _ => None,
    }
}

/// What the message with this index tells.
fn waits(responder: &Responder, index: usize) -> Option<(u16, u16)> {
    told(responder.waiting_at(index)?)
}

#[test]
fn menu_turned_often_has_one_message_waiting(rt: HostRuntime) {
    let mut responder = made(&rt, rt.alloc(), true);
    for start in 1..33 {
        turn(&rt, &mut responder, start);
    }
    let left = (waits(&responder, 0), waits(&responder, 1));
    assert!(rt; left == (Some((DMX_START_ADDRESS, 32)), None));
}

/// `Pa` is 5061.
#[test]
fn other_parameter_keeps_its_place(rt: HostRuntime) {
    let mut responder = made(&rt, rt.alloc(), true);
    turn(&rt, &mut responder, 101);
    label(&rt, &mut responder);
    turn(&rt, &mut responder, 102);
    let left = (
        waits(&responder, 0),
        waits(&responder, 1),
        waits(&responder, 2),
    );
    assert!(rt;
        left == (
            Some((DMX_START_ADDRESS, 102)),
            Some((DEVICE_LABEL, 0x5061)),
            None
        )
    );
}

#[test]
fn each_message_waits_where_all_are_kept(rt: HostRuntime) {
    let mut responder = made(&rt, rt.alloc(), false);
    turn(&rt, &mut responder, 101);
    label(&rt, &mut responder);
    turn(&rt, &mut responder, 102);
    let first = (waits(&responder, 0), waits(&responder, 1));
    assert!(rt; first == (Some((DMX_START_ADDRESS, 101)), Some((DEVICE_LABEL, 0x5061))));
    assert!(rt; waits(&responder, 2) == Some((DMX_START_ADDRESS, 102)));
    assert!(rt; responder.waiting() == 3);
}

/// The bytes of a request, and those of the reply to it.
const TALK: &[(&str, &str)] = &[
    (
        "CC0119 7FF000000001 7FF000000002 01 01 00 0000 20 0020 01 01 040B",
        "CC011A 7FF000000002 7FF000000001 01 00 01 0000 21 00F0 02 0065 0542",
    ),
    (
        "CC0119 7FF000000001 7FF000000002 02 01 00 0000 20 0020 01 02 040D",
        "CC011A 7FF000000002 7FF000000001 02 00 00 0000 21 00F0 02 0066 0543",
    ),
];

/// The address 101 was fetched, and is told again. 102 is the next message.
#[test]
fn fetched_message_is_not_replaced(rt: HostRuntime) {
    let mut responder = made(&rt, rt.alloc(), true);
    turn(&rt, &mut responder, 101);
    let poll = printed(
        &rt,
        "CC0119 7FF000000001 7FF000000002 00 01 00 0000 20 0020 01 02 040B",
    );
    assert!(rt; responder.step(poll.as_slice()).0.is_some());
    turn(&rt, &mut responder, 102);
    for (request, reply) in TALK {
        let (request, reply) = (printed(&rt, request), printed(&rt, reply));
        assert!(rt; responder.step(request.as_slice()) == (Some(reply), None));
    }
}
