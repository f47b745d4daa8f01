//! Which values of an image weren't taken over by an update.

ghost use Rattle.std.specs.Prelude.{◌≡◌, slice_get, false};
ghost use Rattle.std.specs.Option.{option_map, option_map_or};
ghost use Rattle.rdm_updates.specs.Left.{has, is_value, left, told_left};
ghost use Rattle.rdm_updates.specs.SavedValues.{saved_values, told};

use crate::values::{SavedValue, saved_count, saved_value};

/// A value of the old image that the new one doesn't have.
#[derive(Clone, Copy, Debug)]
pub struct LeftValue<'a> {
    /// Its number in the old image.
    pub number: usize,
    /// The value.
    pub value: SavedValue<'a>,
}

/// The first value of the old image, from a number on, that the new image doesn't have: none of the same device, PID and index, or one with
/// other bytes. Asked again from the next number on, it tells the next one.
///
/// A program that has restored the image of another version saves into a new one, and asks which values weren't taken over.
pub fn left<'a>(old: &'a [u8], new: &[u8], from: usize) -> Option<LeftValue<'a>>
    ensures { option_map told_left result ≡ left old.now new.now from }
{
    for number in from..saved_count(old) {
        if let Some(value) = saved_value(old, number) {
            if !has(new, &value) {
                return Some(LeftValue { number, value });
            }
        }
    }
    None
}

/// Whether an image has a value.
fn has(image: &[u8], value: &SavedValue<'_>) -> bool
    ensures { result ≡ has image.now (told value.now) }
{
    for number in 0..saved_count(image) {
        if is_at(image, number, value) {
            return true;
        }
    }
    false
}

/// Whether it has it with this number.
fn is_at(image: &[u8], number: usize, value: &SavedValue<'_>) -> bool
    ensures { result ≡ option_map_or (is_value (told value.now)) (slice_get (saved_values image.now) number) false }
{
    match saved_value(image, number) {
        Some(other) => is_value(value, &other),
        None => false,
    }
}

/// Whether two values are the same.
fn is_value(value: &SavedValue<'_>, other: &SavedValue<'_>) -> bool
    ensures { result ≡ is_value (told value.now) (told other.now) }
{
    value.device == other.device
        && value.pid == other.pid
        && value.index == other.index
        && value.bytes == other.bytes
}
