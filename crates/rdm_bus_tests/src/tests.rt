//! What happens on a bus with faults, worked out by hand, byte for byte.
//!
//! The device is 7FF0:00000001, the controller 7FF0:00000002, and what it wants is advisory.

mod acts;
mod altered;
mod panel;
mod playing;
mod readme;
mod sizes;
mod words;

use rdm_bus::{Action, Command, Fault};
use rdm_frame::{Load, Uid, Wire};
use std::alloc::Global;
use std::fmt::Display;
use std::process::Abort;

const DEVICE: Uid = Uid {
    maker: 0x7FF0,
    device: 1,
};

const CONTROLLER: Uid = Uid {
    maker: 0x7FF0,
    device: 2,
};

/// A command to the root of the device.
fn command(rt: &impl Abort, action: Action, pid: u16, bytes: &[u8]) -> Command {
    Command {
        dst: DEVICE,
        action,
        sub: 0,
        pid,
        load: Load::from_slice(bytes).expect(rt, "at most 255 bytes"),
    }
}

/// Bytes in hexadecimal digits.
fn printed(rt: &impl Abort, alloc: Global, bytes: &[u8]) -> String {
    hex::encode_upper(alloc, bytes).expect(rt, "memory")
}

/// The bytes that hexadecimal digits print.
fn bytes_of(rt: &impl Abort, alloc: Global, text: &str) -> Vec<u8> {
    hex::decode(alloc, text).expect(rt, "two digits a byte")
}

/// The words for something, such as a refusal.
fn words_for(rt: &impl Abort, alloc: Global, it: &impl Display) -> String {
    format!(in alloc; "{it}").expect(rt, "memory")
}

/// More bytes than a frame can carry.
const TOO_MANY: [u8; 232] = [0; 232];

/// The bytes that are sent.
const WHOLE: [u8; 3] = [0xCC, 0x01, 0x18];

/// What goes wrong, and what is heard then of a request and of a reply.
const FAULTS: &[(Fault, Option<&[u8]>, Option<&[u8]>)] = &[
    (Fault::None, Some(&WHOLE), Some(&WHOLE)),
    (Fault::LostRequest, None, Some(&WHOLE)),
    (Fault::LostReply, Some(&WHOLE), None),
    (
        Fault::BadRequest(2, 1),
        Some(&[0xCC, 0x01, 0x19]),
        Some(&WHOLE),
    ),
    (
        Fault::BadReply(2, 1),
        Some(&WHOLE),
        Some(&[0xCC, 0x01, 0x19]),
    ),
    // The slot is counted modulo the number of bytes, and raised modulo 256.
    (
        Fault::BadRequest(3, 0x34),
        Some(&[0x00, 0x01, 0x18]),
        Some(&WHOLE),
    ),
    (
        Fault::BadReply(301, 0xFF),
        Some(&WHOLE),
        Some(&[0xCC, 0x00, 0x18]),
    ),
];

/// What is heard are these bytes, or none.
fn hears(rt: &impl Abort, fault: Fault, heard: Option<Wire>, expected: Option<&[u8]>) {
    let heard = match &heard {
        Some(wire) => Some(wire.as_slice()),
        None => None,
    };
    assert!(rt; heard == expected, "{fault:?}");
}

#[test]
fn faults_lose_or_alter_bytes(rt: HostRuntime) {
    let bytes = Wire::of(&WHOLE);
    for (fault, request, reply) in FAULTS {
        hears(&rt, *fault, fault.request_heard(&bytes), *request);
        hears(&rt, *fault, fault.reply_heard(&bytes), *reply);
    }
}
