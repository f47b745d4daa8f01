//! Why a command failed.

use super::{demo, says};
use rdm_device::Profile;
use rdm_frame::Uid;
use rdm_params::{Entry, Severity};
use rdm_words::put_cause;

/// The device ID of a fixture, the status ID and the two values, and what they say. The demonstration fixture is known, and has device
/// ID 1.
const CAUSES: &[(u32, u16, u16, u16, &str)] = &[
    (1, 0x8001, 2, 0, "Lamp failed to strike (8001)"),
    (2, 0x8001, 2, 0, "status ID 8001"),
    (1, 0x80AB, 0, 0, "status ID 80AB"),
    (1, 0x0012, 0, 0, "lamp failed to strike (0012)"),
    (
        2,
        0x0022,
        3,
        0xFFF6,
        "sensor 3 under temp at -10 degrees C (0022)",
    ),
];

#[test]
fn causes_are_said_by_their_texts(rt: HostRuntime) {
    let profile = Profile::demo(0);
    for (device, id, v1, v2, expected) in CAUSES {
        let uid = Uid {
            maker: 0x7FF0,
            device: *device,
        };
        let cause = Entry {
            sub: 0,
            severity: Severity::Error,
            id: *id,
            v1: *v1,
            v2: *v2,
        };
        let mut said = String::new(rt.alloc());
        put_cause(&mut said, uid, &cause, &demo(&profile)).expect(&rt, "memory");
        says(&rt, said.as_bytes(), expected);
    }
}
