//! Unique identifiers of devices.

ghost use Rattle.std.specs.Prelude.{◌≡◌, ◌↔◌, IsTrue};

/// A unique identifier (UID): a manufacturer ID and a device ID (E1.20 sections 6.2.4 and 6.2.5).
///
/// It is ordered as the 48-bit number whose upper 16 bits are the manufacturer ID.
#[derive(Clone, Copy, Debug, PartialEq, Eq, PartialOrd, Ord)]
pub struct Uid {
    /// The manufacturer ID: the upper 16 bits.
    pub maker: u16,
    /// The device ID: the lower 32 bits.
    pub device: u32,
}

impl Uid {
    ghost use Rattle.rdm_frame.specs.Addressing.{all_of, is_broadcast, is_addressed};
    ghost use Rattle.rdm_frame.specs.UidNumber.{uid_number};

    /// The manufacturer ID that, in a broadcast, addresses the devices of every manufacturer (section 6.2.4).
    pub const EVERY_MAKER: u16 = 0xFFFF;

    /// The device ID that addresses every device (section 6.2.4).
    pub const EVERY_DEVICE: u32 = 0xFFFF_FFFF;

    /// The broadcast to all devices, `FFFF:FFFFFFFF`.
    pub const ALL: Uid = Uid {
        maker: Uid::EVERY_MAKER,
        device: Uid::EVERY_DEVICE,
    };

    /// The broadcast to all devices of a manufacturer.
    pub const fn all_of(maker: u16) -> Uid
        ensures { result ≡ all_of maker }
    {
        Uid {
            maker,
            device: Uid::EVERY_DEVICE,
        }
    }

    /// Whether this UID addresses more than one device: all there are, or all of its manufacturer.
    pub fn is_broadcast(&self) -> bool
        ensures value { result ≡ is_broadcast self.now }
        ensures device { IsTrue result ↔ (self.now.device ≡ 0xFFFF_FFFF) }
    {
        self.device == Uid::EVERY_DEVICE
    }

    /// Whether a frame with this destination is for the device with that UID: it is its own UID, the broadcast to all
    /// devices, or the broadcast to the devices of its manufacturer (section 6.2.4).
    pub fn addresses(&self, own: Uid) -> bool
        ensures { result ≡ is_addressed own self.now }
    {
        *self == own
            || self.is_broadcast() && (self.maker == Uid::EVERY_MAKER || self.maker == own.maker)
    }

    /// The UID as a 48-bit number, by which UIDs are ordered.
    pub fn number(&self) -> u64
        ensures { result ≡ uid_number self.now }
    {
        u64::from(self.maker) * (1 << 32) + u64::from(self.device)
    }
}
