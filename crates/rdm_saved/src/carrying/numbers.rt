//! The numbers that the root keeps beside what every device keeps.

ghost use Rattle.std.specs.Prelude.{◌≡◌, ◌≤◌, ◌++◌, [], ◌∷◌, length, take, drop, List};
ghost use Rattle.rdm_profile.specs.Values.{word_slots, long_slots};
ghost use Rattle.rdm_added.specs.Map.{entry};
ghost use Rattle.rdm_added.specs.Views.State.{own_entries, sensor_entries, added_entries};
ghost use Rattle.rdm_saved.specs.Carrying.{carried_device, root_place};
ghost use Rattle.rdm_saved.specs.Views.{number_entries};

use super::fitting::takes;
use super::{either_byte, either_long, either_word};
use rdm_device::{Place, RootValues};

/// The numbers of the root that last.
#[derive(Drop)]
pub(super) struct Numbers {
    language: u16,
    device_hours: u32,
    power_cycles: u32,
    display_invert: u8,
    display_level: u8,
    pan_invert: u8,
    tilt_invert: u8,
    pan_tilt_swap: u8,
}

impl Numbers {
    /// Puts them into the values of the root.
    #[tactic(auto, unfolding(rdm_added::specs::Views::State::own_entries))]
    pub(super) fn put_into(self, own: &mut RootValues)
        ensures numbers { take 8 (own_entries own.new) ≡ number_entries self }
        ensures moment { take 2 (drop 8 (own_entries own.new)) ≡ take 2 (drop 8 (own_entries own.old)) }
        ensures sensors { own.new.sensors.items ≡ own.old.sensors.items }
        ensures added { own.new.added.items ≡ own.old.added.items }
    {
        own.language = self.language;
        own.device_hours = self.device_hours;
        own.power_cycles = self.power_cycles;
        own.display_invert = self.display_invert;
        own.display_level = self.display_level;
        own.pan_invert = self.pan_invert;
        own.tilt_invert = self.tilt_invert;
        own.pan_tilt_swap = self.pan_tilt_swap;
    }
}

/// The numbers of the root, after what these bytes say is carried over.
#[tactic(auto, unfolding(rdm_added::specs::Views::State::own_entries))]
pub(super) fn carried_numbers(
    here: &Place<'_>,
    image: &[u8],
    now: &RootValues,
    bytes: &[u8],
) -> Numbers
    requires image { root_place image.now ≤ length image.now }
    requires bytes { length bytes.now ≡ 15 }
    ensures { number_entries result ≡ carried_device here.now image.now (take 8 (own_entries now.now)) bytes.now }
{
    let (language, rest) = bytes.split_at(2);
    let (hours, rest) = rest.split_at(4);
    let (cycles, flags) = rest.split_at(4);
    let flags = flags_in(flags);
    Numbers {
        language: either_word(
            takes(here, image, 0x00B0, language),
            word_of(language),
            now.language,
        ),
        device_hours: either_long(
            takes(here, image, 0x0400, hours),
            long_of(hours),
            now.device_hours,
        ),
        power_cycles: either_long(
            takes(here, image, 0x0405, cycles),
            long_of(cycles),
            now.power_cycles,
        ),
        display_invert: either_byte(
            takes(here, image, 0x0500, &[flags[0]]),
            flags[0],
            now.display_invert,
        ),
        display_level: either_byte(
            takes(here, image, 0x0501, &[flags[1]]),
            flags[1],
            now.display_level,
        ),
        pan_invert: either_byte(
            takes(here, image, 0x0600, &[flags[2]]),
            flags[2],
            now.pan_invert,
        ),
        tilt_invert: either_byte(
            takes(here, image, 0x0601, &[flags[3]]),
            flags[3],
            now.tilt_invert,
        ),
        pan_tilt_swap: either_byte(
            takes(here, image, 0x0602, &[flags[4]]),
            flags[4],
            now.pan_tilt_swap,
        ),
    }
}

/// The number that two bytes say.
fn word_of(bytes: &[u8]) -> u16
    requires { length bytes.now ≡ 2 }
    ensures { word_slots result ≡ bytes.now }
{
    u16::from_be_bytes([bytes[0], bytes[1]])
}

/// The number that four bytes say.
fn long_of(bytes: &[u8]) -> u32
    requires { length bytes.now ≡ 4 }
    ensures { long_slots result ≡ bytes.now }
{
    u32::from_be_bytes([bytes[0], bytes[1], bytes[2], bytes[3]])
}

/// Five numbers of 8 bits.
fn flags_in(bytes: &[u8]) -> [u8; 5]
    requires { length bytes.now ≡ 5 }
    ensures { result ≡ bytes.now }
{
    [bytes[0], bytes[1], bytes[2], bytes[3], bytes[4]]
}
