//! What a run is set up with.

use rdm_collector::Want;
use rdm_frame::Uid;
use rdm_params::Profile;

/// A device and a controller on one bus.
#[derive(Debug, Drop)]
pub struct Setup {
    /// The UID of the device (E1.20 section 6.2.4).
    pub device: Uid,
    /// The UID of the controller.
    pub controller: Uid,
    /// Which status messages the controller collects.
    pub want: Want,
    /// What the device is.
    pub profile: Profile,
    /// For how many results of slow commands the device has room.
    pub queue_size: u16,
}
