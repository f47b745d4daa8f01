//! Who takes part when a script is played.

use rdm_frame::Uid;

/// The UID of the device of the demonstration.
pub const DEMO_DEVICE: Uid = Uid {
    maker: 0x7FF0,
    device: 0x0000_0001,
};

/// The UID of the controller that plays a script.
pub const CONTROLLER: Uid = Uid {
    maker: 0x7FF0,
    device: 0x0000_0002,
};
