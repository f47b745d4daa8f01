//! What a file describes.

use crate::starting::Starting;
use arrayvec::ArrayVec;
use rdm_device::Profile;
use rdm_frame::Uid;
use rdm_outcomes::{MOST_RULES, Rule};

/// A device: its own UID, what it is made with, and how its jobs end.
#[derive(Debug, Drop, PartialEq, Eq)]
pub struct Fixture {
    /// The UID of the device, which isn't a broadcast (E1.20 section 6.2.4).
    pub uid: Uid,
    /// What the device and its sub-devices are made with.
    pub profile: Profile,
    /// How the jobs of its slow commands end: the first rule that speaks of a job says it.
    pub outcomes: ArrayVec<Rule, MOST_RULES>,
    /// What its counters and its sensors show when it is switched on.
    pub start: Starting,
}
