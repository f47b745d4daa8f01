//! What the answers to DISC_MUTE and DISC_UN_MUTE tell (E1.20 section 7.6).

use super::{DEVICE, printed};
use rdm_frame::{Uid, Wire};
use rdm_params::{MuteReply, Particular, Particulars, Profile};
use rdm_responder::Responder;
use std::alloc::Global;
use std::process::Abort;

/// The UID of a device's first port.
const FIRST_PORT: Uid = Uid {
    maker: 0x7FF0,
    device: 0x1234_5678,
};

/// The UID that is all zeros.
const UID_0: Uid = Uid {
    maker: 0,
    device: 0,
};

/// DISC_MUTE and DISC_UN_MUTE.
const MUTE: &str = "CC0118 7FF000000001 7FF000000002 01 01 00 0000 10 0002 00 03DA";

const UN_MUTE: &str = "CC0118 7FF000000001 7FF000000002 02 01 00 0000 10 0003 00 03DC";

/// How many sub-devices there are, whether the device is a boot loader and whether it is proxied, its binding UID, and its answers to
/// DISC_MUTE and DISC_UN_MUTE.
type Row = (u16, bool, bool, Option<Uid>, &'static str, &'static str);

const ROWS: &[Row] = &[
    // A device with one port, which answers for itself and can work, and the same with sub-devices.
    (
        0,
        false,
        false,
        None,
        "CC011A 7FF000000002 7FF000000001 01 00 00 0000 11 0002 02 0000 03DE",
        "CC011A 7FF000000002 7FF000000001 02 00 00 0000 11 0003 02 0000 03E0",
    ),
    (
        2,
        false,
        false,
        None,
        "CC011A 7FF000000002 7FF000000001 01 00 00 0000 11 0002 02 0002 03E0",
        "CC011A 7FF000000002 7FF000000001 02 00 00 0000 11 0003 02 0002 03E2",
    ),
    // A boot loader, a proxied device, and both with sub-devices.
    (
        0,
        true,
        false,
        None,
        "CC011A 7FF000000002 7FF000000001 01 00 00 0000 11 0002 02 0004 03E2",
        "CC011A 7FF000000002 7FF000000001 02 00 00 0000 11 0003 02 0004 03E4",
    ),
    (
        0,
        false,
        true,
        None,
        "CC011A 7FF000000002 7FF000000001 01 00 00 0000 11 0002 02 0008 03E6",
        "CC011A 7FF000000002 7FF000000001 02 00 00 0000 11 0003 02 0008 03E8",
    ),
    (
        2,
        true,
        true,
        None,
        "CC011A 7FF000000002 7FF000000001 01 00 00 0000 11 0002 02 000E 03EC",
        "CC011A 7FF000000002 7FF000000001 02 00 00 0000 11 0003 02 000E 03EE",
    ),
    // The second port of a device, whose first port has another UID.
    (
        0,
        false,
        false,
        Some(FIRST_PORT),
        "CC0120 7FF000000002 7FF000000001 01 00 00 0000 11 0002 08 0000 7FF012345678 066D",
        "CC0120 7FF000000002 7FF000000001 02 00 00 0000 11 0003 08 0000 7FF012345678 066F",
    ),
    (
        2,
        true,
        true,
        Some(FIRST_PORT),
        "CC0120 7FF000000002 7FF000000001 01 00 00 0000 11 0002 08 000E 7FF012345678 067B",
        "CC0120 7FF000000002 7FF000000001 02 00 00 0000 11 0003 08 000E 7FF012345678 067D",
    ),
    // UID 0 binds as any other does.
    (
        0,
        false,
        false,
        Some(UID_0),
        "CC0120 7FF000000002 7FF000000001 01 00 00 0000 11 0002 08 0000 000000000000 03EA",
        "CC0120 7FF000000002 7FF000000001 02 00 00 0000 11 0003 08 0000 000000000000 03EC",
    ),
];

#[test]
fn a_muted_device_tells_what_its_profile_says(rt: HostRuntime) {
    for (subs, boot_loader, proxied_device, binding, muted, un_muted) in ROWS {
        let reply = MuteReply {
            proxied_device: *proxied_device,
            boot_loader: *boot_loader,
            binding: *binding,
        };
        let mut responder = responder_that_tells(&rt, rt.alloc(), *subs, reply);
        answers(&rt, &mut responder, MUTE, muted);
        answers(&rt, &mut responder, UN_MUTE, un_muted);
    }
}

/// A responder of the demo fixture with so many sub-devices, which tells this when it is muted.
fn responder_that_tells(rt: &impl Abort, alloc: Global, subs: u16, reply: MuteReply) -> Responder {
    let mut profile = Profile::demo(subs);
    let mut particular = Particular::usual();
    particular.mute_reply = reply;
    profile.particulars = Particulars::of(alloc, particular).expect(rt, "memory");
    let made = Responder::new(alloc, DEVICE, profile, 8);
    made.expect(rt, "a good profile and size")
}

/// The responder answers the bytes of a frame with these.
fn answers(rt: &impl Abort, responder: &mut Responder, heard: &str, expected: &str) {
    let request = printed(rt, heard);
    let mut wire = Wire::new();
    let stepped = responder.step_into(request.as_slice(), &mut wire);
    let is_so = stepped.replied && wire == printed(rt, expected);
    assert!(rt; is_so, "{wire:?}, not {expected}");
}
