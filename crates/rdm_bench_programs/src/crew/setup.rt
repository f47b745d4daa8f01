//! The device and its controller.

use rdm_bus::Want;
use rdm_crew::Setup;
use rdm_frame::Uid;
use rdm_params::Profile;

/// How many results the device has room for.
pub(crate) const QUEUE_SIZE: u16 = 8;

pub(crate) const DEVICE: Uid = Uid {
    maker: 0x7FF0,
    device: 1,
};

pub(crate) const CONTROLLER: Uid = Uid {
    maker: 0x7FF0,
    device: 2,
};

/// A device without sub-devices, and its controller.
pub(crate) fn setup() -> Setup {
    Setup {
        device: DEVICE,
        controller: CONTROLLER,
        want: Want::Advisory,
        profile: Profile::demo(0),
        queue_size: QUEUE_SIZE,
    }
}
