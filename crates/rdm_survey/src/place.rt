//! The slots of DMX512 that a device takes.

use rdm_frame::Uid;

/// The slots that the root or a sub-device of a fixture takes, from `first` to `last`.
#[derive(Clone, Copy, Debug, PartialEq, Eq)]
pub struct Place {
    /// The fixture.
    pub uid: Uid,
    /// The sub-device, or 0 for the root (E1.20 section 9).
    pub sub: u16,
    /// The first slot: the start address.
    pub first: u16,
    /// The last slot, which may be past 512.
    pub last: u32,
}

/// What is wrong with the slots of a line.
#[derive(Clone, Copy, Debug, PartialEq, Eq)]
pub enum Clash {
    /// The slots of a place go past slot 512.
    PastEnd(Place),
    /// Two places have a slot in common: the earlier one and the later one.
    Overlap(Place, Place),
}
