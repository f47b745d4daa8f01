//! The start address that a device is to have.

use rdm_frame::Uid;

/// The start address that the root or a sub-device of a fixture is to have.
#[derive(Clone, Copy, Debug, PartialEq, Eq)]
pub struct Assignment {
    /// The fixture.
    pub uid: Uid,
    /// The sub-device, or 0 for the root (E1.20 section 9).
    pub sub: u16,
    /// The start address that it has: what DEVICE_INFO told (section 10.5.1). It is right already if it equals `address`.
    pub was: u16,
    /// The start address that it is to have, from 1 to 512 (section 10.6.3).
    pub address: u16,
    /// How many slots it takes: at least 1.
    pub footprint: u16,
}
