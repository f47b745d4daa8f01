//! Requests and replies that were worked out by hand, byte for byte.
//!
//! The device is 7FF0:00000001, the controller 7FF0:00000002.

mod changes;
mod chosen;
mod clear;
mod cuts;
mod discovery;
mod dropping;
mod firmware;
mod identify;
mod judge;
mod making;
mod muting;
mod newest;
mod panel;
mod parameters;
mod play;
mod saving;
mod slow;
mod waiting;
mod words;

use play::{Run, plays};
use rdm_frame::digits::bytes_in;
use rdm_frame::standard::{DISCOVERY_COMMAND as DISCOVERY, GET_COMMAND as GET, SET_COMMAND as SET};
use rdm_frame::{Body, Frame, Uid, Wire, encode};
use rdm_params::Profile;
use rdm_responder::{Input, Output, Responder};
use std::alloc::Global;
use std::process::Abort;

const DEVICE: Uid = Uid {
    maker: 0x7FF0,
    device: 1,
};

const CONTROLLER: Uid = Uid {
    maker: 0x7FF0,
    device: 2,
};

const IDENTIFY_DEVICE: u16 = 0x1000;

/// A request of the controller to root devices.
fn request(rt: &impl Abort, dst: Uid, tn: u8, class: u8, pid: u16, slots: &[u8]) -> Wire {
    encode(&Frame {
        dst,
        src: CONTROLLER,
        tn,
        port: 1,
        count: 0,
        sub: 0,
        class,
        pid,
        body: Body::from_slice(slots).expect(rt, "slots of a frame"),
    })
}

/// The bytes that hexadecimal digits print. Blanks between them are for the eye.
fn printed(rt: &impl Abort, text: &str) -> Wire {
    let mut bytes = Wire::new();
    for word in text.split_whitespace() {
        let digits = word.as_bytes();
        let is_short = digits.len() <= 510;
        assert!(rt; is_short, "{word}");
        if is_short {
            append(rt, &mut bytes, bytes_in(digits).expect(rt, word).as_slice());
        }
    }
    bytes
}

/// Puts bytes at the end.
fn append(rt: &impl Abort, wire: &mut Wire, bytes: &[u8]) {
    let fits = wire.as_slice().len() + bytes.len() <= 257;
    assert!(rt; fits, "{bytes:?} are too many");
    if fits {
        wire.append(bytes);
    }
}

/// The first word of a text, and what follows it.
fn cut(text: &str) -> (&str, &str) {
    text.split_once(' ').unwrap_or((text, ""))
}

/// The number that hexadecimal digits print.
fn word(rt: &impl Abort, digits: &str) -> u16 {
    u16::from_str_radix(digits, 16).ok().expect(rt, digits)
}

/// The byte that hexadecimal digits print.
fn byte(rt: &impl Abort, digits: &str) -> u8 {
    u8::from_str_radix(digits, 16).ok().expect(rt, digits)
}

/// A responder of the demo fixture with so many sub-devices, and room for so many results of slow commands.
fn responder_with(rt: &impl Abort, alloc: Global, subs: u16, queue_size: u16) -> Responder {
    let made = Responder::new(alloc, DEVICE, Profile::demo(subs), queue_size);
    made.expect(rt, "a good profile and size")
}

#[test]
fn runs_go_as_printed(rt: HostRuntime) {
    play_all(&rt, rt.alloc(), discovery::RUNS);
    play_all(&rt, rt.alloc(), identify::RUNS);
    play_all(&rt, rt.alloc(), parameters::RUNS);
    play_all(&rt, rt.alloc(), waiting::RUNS);
    play_all(&rt, rt.alloc(), clear::RUNS);
    play_all(&rt, rt.alloc(), panel::RUNS);
    play_all(&rt, rt.alloc(), firmware::RUNS);
}

fn play_all(rt: &impl Abort, alloc: Global, runs: &[Run<'_>]) {
    for run in runs {
        plays(rt, alloc, *run);
    }
}

#[test]
fn requests_have_the_printed_bytes(rt: HostRuntime) {
    for (dst, class, pid, slots, text) in REQUESTS {
        let bytes = request(&rt, *dst, 0, *class, *pid, slots);
        assert!(rt; bytes == printed(&rt, text), "{text}");
    }
}

/// A request: to which device, the class, the PID, the slots, and its bytes.
type Request = (Uid, u8, u16, &'static [u8], &'static str);

/// IDENTIFY_DEVICE, and a branch of the device alone.
const REQUESTS: &[Request] = &[
    (
        DEVICE,
        GET,
        IDENTIFY_DEVICE,
        &[],
        "CC0118 7FF000000001 7FF000000002 00 01 00 0000 20 1000 00 03F7",
    ),
    (
        Uid::ALL,
        SET,
        IDENTIFY_DEVICE,
        &[1],
        "CC0119 FFFFFFFFFFFF 7FF000000002 00 01 00 0000 30 1000 01 01 0894",
    ),
    (
        Uid::ALL,
        DISCOVERY,
        0x0001,
        &[0x7F, 0xF0, 0, 0, 0, 1, 0x7F, 0xF0, 0, 0, 0, 1],
        "CC0124 FFFFFFFFFFFF 7FF000000002 00 01 00 0000 10 0001 0C 7FF000000001 7FF000000001 0B5A",
    ),
];

/// IDENTIFY_DEVICE is set to on at all devices, and asked for.
const SET_ON: &str = "CC0119 FFFFFFFFFFFF 7FF000000002 00 01 00 0000 30 1000 01 01 0894";

const ASK: &str = "CC0118 7FF000000001 7FF000000002 02 01 00 0000 20 1000 00 03F9";

const IS_ON: &str = "CC0119 7FF000000002 7FF000000001 02 00 00 0000 21 1000 01 01 03FC";

#[test]
fn a_whole_run_is_answered_in_order(rt: HostRuntime) {
    let (set, get) = (printed(&rt, SET_ON), printed(&rt, ASK));
    let inputs = [Input::Heard(set.as_slice()), Input::Heard(get.as_slice())];
    let mut responder = responder_with(&rt, rt.alloc(), 0, 8);
    let outputs = responder.step_all(rt.alloc(), &inputs);
    are_none_and(&rt, &outputs.expect(&rt, "memory"), IS_ON);
}

/// A broadcast isn't answered, and a request then is, by these bytes. Neither starts a job.
fn are_none_and(rt: &impl Abort, outputs: &[Output], reply: &str) {
    let is_so = match outputs {
        [
            Output::Answered(None, None),
            Output::Answered(Some(told), None),
        ] => *told == printed(rt, reply),
        _ => false,
    };
    assert!(rt; is_so, "{outputs:?}");
}
