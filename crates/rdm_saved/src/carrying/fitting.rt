//! Whether a value that an image has can be one of this device.

ghost use Rattle.std.specs.Prelude.{◌≡◌, ◌≤◌, ◌&&◌, ◌||◌, not, nat_le, length, slice_index};
ghost use Rattle.rdm_profile.specs.declared.value.Value.TheVariants.{Byte, Word};
ghost use Rattle.rdm_profile.specs.Forms.{byte, word};
ghost use Rattle.rdm_profile.specs.Values.{front_word};
ghost use Rattle.rdm_device.specs.Columns.Ranges.{below, a_threshold, a_language, a_personality, lamp_modes_told};
ghost use Rattle.rdm_saved.specs.Carrying.{can_have, is_omitted, root_place};

use crate::said::is_omitted;
use rdm_device::columns::ranges::{a_language, a_personality, a_threshold, below, lamp_modes_told};
use rdm_device::{Argument, Place};
use rdm_frame::standard::MOST_DMX_SLOTS;

/// Whether a device takes the value of a PID of the table: if the profile of the image had the parameter, and the device can have the value.
pub(super) fn takes(here: &Place<'_>, image: &[u8], pid: u16, bytes: &[u8]) -> bool
    requires { root_place image.now ≤ length image.now }
    ensures { result ≡ (not (is_omitted image.now pid) && can_have here.now pid bytes.now) }
{
    !is_omitted(image, pid) && can_have(here, pid, bytes)
}

/// Whether the value of a PID of the table can be one of the device.
fn can_have(here: &Place<'_>, pid: u16, bytes: &[u8]) -> bool
    ensures { result ≡ can_have here.now pid bytes.now }
{
    match pid {
        0x0033 => a_threshold(here, &front_byte(bytes)),
        0x00B0 => a_language(here, &Argument::from_word(front_word(bytes))),
        0x00E0 => a_personality(here, &front_byte(bytes)),
        0x00F0 => is_start(front_word(bytes)),
        0x0404 => is_lamp_mode(here, &front_byte(bytes)),
        0x0500 => below(here, &front_byte(bytes), 3),
        0x0600 | 0x0601 | 0x0602 => below(here, &front_byte(bytes), 2),
        _ => true,
    }
}

/// Whether it is the number of a slot of a universe.
fn is_start(start: u16) -> bool
    ensures { result ≡ (nat_le 1 start && nat_le start 512) }
{
    1 <= start && start <= MOST_DMX_SLOTS
}

/// One of the standard's modes, or of a maker's.
fn is_lamp_mode(here: &Place<'_>, mode: &Argument<'_>) -> bool
    ensures { result ≡ (below 4 byte here.now mode.now || lamp_modes_told byte here.now mode.now) }
{
    below(here, mode, 4) || lamp_modes_told(here, mode)
}

/// The first byte, as a number of 8 bits.
fn front_byte<'a>(bytes: &[u8]) -> Argument<'a>
    ensures { result ≡ Byte (slice_index bytes.now 0) }
{
    Argument::from_byte(byte_or_0(bytes, 0))
}

/// The number of 16 bits that the first two bytes say.
fn front_word(bytes: &[u8]) -> u16
    ensures { result ≡ front_word bytes.now }
{
    256 * u16::from(byte_or_0(bytes, 0)) + u16::from(byte_or_0(bytes, 1))
}

/// The byte at a place, or 0 where there is none.
fn byte_or_0(bytes: &[u8], place: usize) -> u8
    ensures { result ≡ slice_index bytes.now place }
{
    match bytes.get(place) {
        Some(byte) => *byte,
        None => 0,
    }
}
