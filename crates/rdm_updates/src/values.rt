//! The values that an image has, one by one.

ghost use Rattle.std.specs.Prelude.{◌≡◌, ◌≤◌, ◌+◌, length, slice_get};
ghost use Rattle.std.specs.Option.{option_map};
ghost use Rattle.rdm_updates.specs.SavedValues.{saved_values, told, value_at};

use crate::places::{ValuePlace, place_count, value_place};
use rdm_saved::said_len;

/// A value that an image has.
#[derive(Clone, Copy, Debug)]
pub struct SavedValue<'a> {
    /// The number of the sub-device, or 0: the root.
    pub device: u16,
    /// The PID of its parameter. Of a sensor it is SENSOR_VALUE.
    pub pid: u16,
    /// The number of the sensor or of the scene, else 0; 1 is the count of an order.
    pub index: u16,
    /// Its bytes: of a sensor the recorded value, of a text those that it has.
    pub bytes: &'a [u8],
}

/// How many values an image has. It is 0 for bytes that are no image, since they are fewer or more than they say.
pub fn saved_count(image: &[u8]) -> usize
    ensures { result ≡ length (saved_values image.now) }
{
    if image.len() == said_len(image) {
        place_count(image)
    } else {
        0
    }
}

/// The value of an image with this number, from 0: first those of the root, then of its sensors, of the parameters that the maker adds, and of
/// each sub-device. It is `None` past the last one, and for bytes that are no image.
///
/// A value of a PID that the profile left out is there too.
pub fn saved_value(image: &[u8], number: usize) -> Option<SavedValue<'_>>
    ensures { option_map told result ≡ slice_get (saved_values image.now) number }
{
    if image.len() != said_len(image) {
        return None;
    }
    if number >= place_count(image) {
        return None;
    }
    Some(value_at(image, value_place(image, number)))
}

/// The value at a place.
fn value_at(image: &[u8], place: ValuePlace) -> SavedValue<'_>
    requires { place.start + place.len ≤ length image.now }
    ensures { told result ≡ value_at image.now place }
{
    SavedValue {
        device: place.device,
        pid: place.pid,
        index: place.index,
        bytes: &image[place.start..place.start + place.len],
    }
}
