//! What a script is played on.

use crate::dialect::Spelling;
use rdm_frame::Uid;
use rdm_params::Profile;

/// A fixture, and what does its work while a script is played.
#[derive(Debug, Drop)]
pub struct Stage<P, Q, N> {
    /// The UID of the device (E1.20 section 6.2.4). The words `dev` and `maker` of a script speak of it.
    pub device: Uid,
    /// What the device is. It has as many sub-devices as the script says, at most as many as stand here.
    pub profile: Profile,
    /// How the words of a script are spelled.
    pub spelling: Spelling,
    /// Does the jobs of the first worker.
    pub first: P,
    /// Does the jobs of the second worker.
    pub second: Q,
    /// Offers what a person changes at the fixture's own menu.
    pub panel: N,
}
