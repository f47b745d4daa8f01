//! A fixture that a search found, as numbers.

ghost use Rattle.std.specs.Prelude.{◌≡◌};
ghost use Rattle.rdm_c.specs.Searches.{found_numbers};

use rdm_frame::Uid;
use rdm_search::Found;

/// A fixture that a search found. The header calls it `felosumay_found`.
#[repr(C)]
#[derive(Clone, Copy)]
pub struct FoundNumbers {
    /// Its device ID.
    pub device: u32,
    /// The device ID of the binding UID, or 0 if it told none.
    pub binding_device: u32,
    /// Its manufacturer ID.
    pub maker: u16,
    /// The manufacturer ID of the binding UID, or 0 if it told none.
    pub binding_maker: u16,
    /// The control field of its answer to DISC_MUTE (E1.20 section 7.6).
    pub control: u16,
    /// 1 if its answer told a binding UID, else 0.
    pub has_binding: u8,
}

impl FoundNumbers {
    /// The numbers of a fixture.
    pub(crate) fn of(found: &Found) -> FoundNumbers
        ensures { result ≡ found_numbers found.now }
    {
        let (has_binding, binding) = match found.binding {
            Some(uid) => (1, uid),
            None => (
                0,
                Uid {
                    maker: 0,
                    device: 0,
                },
            ),
        };
        FoundNumbers {
            device: found.uid.device,
            binding_device: binding.device,
            maker: found.uid.maker,
            binding_maker: binding.maker,
            control: found.control,
            has_binding,
        }
    }
}
