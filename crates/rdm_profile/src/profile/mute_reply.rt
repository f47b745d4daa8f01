//! What a device tells of itself when it is muted.

ghost use Rattle.std.specs.Prelude.{◌≡◌};
ghost use Rattle.rdm_profile.specs.MuteReply.{plain_reply};

use rdm_frame::Uid;

/// What the answers to DISC_MUTE and DISC_UN_MUTE tell of a device, beside whether it has sub-devices (E1.20 section 7.6).
#[derive(Clone, Copy, Debug, PartialEq, Eq)]
pub struct MuteReply {
    /// Whether a proxy answers for the device, which isn't on this line itself.
    pub proxied_device: bool,
    /// Whether the device can do nothing else until firmware is uploaded to it.
    pub boot_loader: bool,
    /// The UID of the device's first port, if it has several ports, each with a UID of its own.
    pub binding: Option<Uid>,
}

impl MuteReply {
    /// That of a device with one port, which answers for itself and can work.
    pub fn plain() -> MuteReply
        ensures { result ≡ plain_reply }
    {
        MuteReply {
            proxied_device: false,
            boot_loader: false,
            binding: None,
        }
    }
}
