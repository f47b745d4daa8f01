//! Requests that lost their end, or have one slot altered: none of them is a frame, or none the same.

ghost use Rattle.std.specs.Prelude.{◌<◌};

use super::REQUEST;
use rdm_frame::{Frame, FrameError, decode};
use std::process::Abort;

/// The controller gives the device a label of 32 letters.
const LABEL: &[u8] = &[
    0xCC, 0x01, 0x38, 0x7F, 0xF0, 0x00, 0x00, 0x00, 0x01, 0x7F, 0xF0, 0x00, 0x00, 0x00, 0x02, 0x00,
    0x01, 0x00, 0x00, 0x00, 0x30, 0x00, 0x82, 0x20, 0x41, 0x41, 0x41, 0x41, 0x41, 0x41, 0x41, 0x41,
    0x41, 0x41, 0x41, 0x41, 0x41, 0x41, 0x41, 0x41, 0x41, 0x41, 0x41, 0x41, 0x41, 0x41, 0x41, 0x41,
    0x41, 0x41, 0x41, 0x41, 0x41, 0x41, 0x41, 0x41, 0x0C, 0xD9,
];

/// A request whose data the first request doesn't have.
const WITH_DATA: &[u8] = &[
    0xCC, 0x01, 0x19, 0x7F, 0xF0, 0x00, 0x00, 0x00, 0x01, 0x7F, 0xF0, 0x00, 0x00, 0x00, 0x02, 0x00,
    0x01, 0x00, 0x00, 0x00, 0x20, 0x10, 0x00, 0x01, 0x00, 0x03, 0xF9,
];

/// The request with another byte at one slot.
fn altered(slot: usize, byte: u8) -> [u8; 26]
    requires { slot < 26 }
{
    let mut text = REQUEST;
    text[slot] = byte;
    text
}

/// Why a request is no frame where so many of its bytes are left: from a count, to below another.
fn try_fronts(rt: &impl Abort, request: &[u8], from: usize, to: usize, error: FrameError) {
    for count in from..to {
        let front = request.get(..count).unwrap_or(request);
        assert!(rt; decode(front).err() == Some(error), "{front:?}");
    }
}

#[test]
fn no_front_of_a_request_is_a_frame(rt: HostRuntime) {
    assert!(rt; decode(&REQUEST).is_ok() && decode(LABEL).is_ok());
    try_fronts(&rt, &REQUEST, 0, 26, FrameError::Short);
    try_fronts(&rt, LABEL, 0, 26, FrameError::Short);
    try_fronts(&rt, LABEL, 26, 58, FrameError::Length);
}

/// Why a request of 26 bytes with this slot altered is no frame.
fn fault_at(slot: usize) -> FrameError {
    match slot {
        0 => FrameError::Start,
        1 => FrameError::SubStart,
        2 => FrameError::Length,
        23 => FrameError::Pdl,
        _ => FrameError::Checksum,
    }
}

/// Whether a request with an altered slot has the fault of that slot.
fn has_fault(slot: usize, raise: u8) -> bool
    requires { slot < 26 }
{
    let text = altered(slot, REQUEST[slot].wrapping_add(raise));
    decode(&text).err() == Some(fault_at(slot))
}

#[test]
fn no_request_with_an_altered_slot_is_a_frame(rt: HostRuntime) {
    for slot in 0..26 {
        for raise in 1..=255 {
            assert!(rt; has_fault(slot, raise), "slot {slot} raised by {raise}");
        }
    }
}

/// Whether bytes are a frame, and not this one.
fn is_other(bytes: &[u8], frame: &Frame) -> bool {
    match decode(bytes) {
        Ok(other) => other != *frame,
        Err(_) => false,
    }
}

/// Whether the request with a slot raised by one, and its checksum too, is a frame, and not this one.
fn differs(slot: usize, frame: &Frame) -> bool
    requires { slot < 26 }
{
    let mut text = altered(slot, REQUEST[slot].wrapping_add(1));
    text[25] = text[25].wrapping_add(1);
    is_other(&text, frame)
}

#[test]
fn different_frames_differ(rt: HostRuntime) {
    let frame = decode(&REQUEST).expect(&rt, "a frame");
    for slot in 3..23 {
        assert!(rt; differs(slot, &frame), "slot {slot}");
    }
    assert!(rt; is_other(WITH_DATA, &frame));
}
