//! From the bytes of an image that another version of a fixture has saved to values: those that both know, and that this one can have.

ghost use Rattle.std.specs.Prelude.{◌≡◌, ◌≤◌, ◌+◌, ◌*◌, ◌++◌, [], ◌∷◌, length, take, drop, map, bytes_eq, if◌then◌else◌, not, ◌&&◌};
ghost use Rattle.rdm_profile.specs.Values.{word_slots, long_slots};
ghost use Rattle.rdm_added.specs.Map.{entry};
ghost use Rattle.rdm_added.specs.Spot.{Spot, sub_device};
ghost use Rattle.rdm_added.specs.Views.State.{common_entries, own_entries, sensor_entries, added_entries};
ghost use Rattle.rdm_saved.specs.SameProfile.{restored_device};
ghost use Rattle.rdm_saved.specs.SavedText.{kept};
ghost use Rattle.rdm_saved.specs.Carrying.{can_have, carried, carried_device, carried_devices, carried_kept, carried_sensors, carried_subs, carried_values, is_omitted, root_place, sensors_place, kept_place, subs_place, said_len, said_sensors, said_subs, root_of};

mod added;
mod fitting;
mod numbers;

use crate::restoring::{restore_common, restore_sensors};
use crate::said::{root_place, said_sensors, said_subs, sensors_place, subs_place};
use crate::saving::{COMMON_BYTES, OWN_BYTES};
use added::carry_added;
use fitting::takes;
use numbers::carried_numbers;
use rdm_device::{CommonValues, Measured, Place, Profile, RootValues};
use rdm_frame::Text;

/// Carries over what the image has.
pub(crate) fn carry_over(
    profile: &Profile,
    root: &mut CommonValues,
    own: &mut RootValues,
    subs: &mut [CommonValues],
    image: &[u8],
)
    requires { length image.now ≡ said_len image.now }
    ensures { kept profile.now root.new own.new subs.new ≡ carried (kept profile.now root.old own.old subs.old) image.now }
{
    carry_root(profile, root, own, image);
    carry_sensors_of(own, image);
    carry_added(profile, own.added.as_mut_slice(), image);
    carry_subs(profile, subs, image);
}

/// Carries over the values of the root, but for the parameters that the maker adds.
fn carry_root(profile: &Profile, root: &mut CommonValues, own: &mut RootValues, image: &[u8])
    requires { length image.now ≡ said_len image.now }
    ensures root { common_entries root.new ++ take 10 (own_entries own.new)
        ≡ carried_device (root_of (kept profile.now root.old own.old [])) image.now (common_entries root.old ++ take 10 (own_entries own.old))
        (drop (root_place image.now) image.now) }
    ensures sensors { own.new.sensors.items ≡ own.old.sensors.items }
    ensures added { own.new.added.items ≡ own.old.added.items }
{
    let place = root_place(image);
    let here = Place::of_root(profile, root, own);
    let common = carried_common(&here, image, root, &image[place..place + COMMON_BYTES]);
    let place = place + COMMON_BYTES;
    let numbers = carried_numbers(&here, image, own, &image[place..place + OWN_BYTES]);
    *root = common;
    numbers.put_into(own);
}

/// Restores what was recorded of the sensors of the root that the image has.
#[tactic(auto, unfolding(rdm_added::specs::Views::State::own_entries))]
fn carry_sensors_of(own: &mut RootValues, image: &[u8])
    requires { length image.now ≡ said_len image.now }
    ensures numbers { take 10 (own_entries own.new) ≡ take 10 (own_entries own.old) }
    ensures sensors { sensor_entries 0 own.new.sensors.items
        ≡ carried_sensors (said_sensors image.now) (sensor_entries 0 own.old.sensors.items) (drop (sensors_place image.now) image.now) }
    ensures added { own.new.added.items ≡ own.old.added.items }
{
    carry_sensors(own.sensors.as_mut_slice(), image);
}

/// Restores what was recorded of the sensors that the image has.
fn carry_sensors(sensors: &mut [Measured], image: &[u8])
    requires { length image.now ≡ said_len image.now }
    ensures { sensor_entries 0 sensors.new
        ≡ carried_sensors (said_sensors image.now) (sensor_entries 0 sensors.old) (drop (sensors_place image.now) image.now) }
{
    let count = sensors.len().min(said_sensors(image));
    let place = sensors_place(image);
    let (first, _) = sensors.split_at_mut(count);
    restore_sensors(first, &image[place..place + 2 * count]);
}

/// What every device keeps, after what these bytes say is carried over.
fn carried_common(here: &Place<'_>, image: &[u8], now: &CommonValues, bytes: &[u8]) -> CommonValues
    requires image { root_place image.now ≤ length image.now }
    requires bytes { length bytes.now ≡ 46 }
    ensures { common_entries result ≡ carried_device here.now image.now (common_entries now.now) bytes.now }
{
    let mut said = copy_of(now);
    restore_common(&mut said, bytes);
    either_common(here, image, now, said)
}

/// Of each value that every device keeps that which is said, where the device takes it.
#[tactic(auto, unfolding(rdm_added::specs::Views::State::common_entries))]
fn either_common(
    here: &Place<'_>,
    image: &[u8],
    now: &CommonValues,
    said: CommonValues,
) -> CommonValues
    requires image { root_place image.now ≤ length image.now }
    ensures { common_entries result ≡ carried_values here.now image.now (common_entries now.now) (common_entries said) }
{
    let threshold = takes(here, image, 0x0033, &[said.report_threshold]);
    let label = takes(here, image, 0x0082, said.label.as_slice());
    let personality = takes(here, image, 0x00E0, &[said.personality]);
    let start = takes(here, image, 0x00F0, &said.start.to_be_bytes());
    let hours = takes(here, image, 0x0401, &said.lamp_hours.to_be_bytes());
    let strikes = takes(here, image, 0x0402, &said.lamp_strikes.to_be_bytes());
    let mode = takes(here, image, 0x0404, &[said.lamp_on_mode]);
    CommonValues {
        label: either_text(label, &said.label, &now.label),
        personality: either_byte(personality, said.personality, now.personality),
        report_threshold: either_byte(threshold, said.report_threshold, now.report_threshold),
        start: either_word(start, said.start, now.start),
        lamp_hours: either_long(hours, said.lamp_hours, now.lamp_hours),
        lamp_strikes: either_long(strikes, said.lamp_strikes, now.lamp_strikes),
        lamp_state: now.lamp_state,
        lamp_on_mode: either_byte(mode, said.lamp_on_mode, now.lamp_on_mode),
        identify: now.identify,
        power_state: now.power_state,
    }
}

/// The same values once more.
#[tactic(auto, unfolding(rdm_added::specs::Views::State::common_entries))]
fn copy_of(values: &CommonValues) -> CommonValues
    ensures { common_entries result ≡ common_entries values.now }
{
    CommonValues {
        label: values.label.copy(),
        personality: values.personality,
        report_threshold: values.report_threshold,
        start: values.start,
        lamp_hours: values.lamp_hours,
        lamp_strikes: values.lamp_strikes,
        lamp_state: values.lamp_state,
        lamp_on_mode: values.lamp_on_mode,
        identify: values.identify,
        power_state: values.power_state,
    }
}

/// The text that is said, if it is taken, else that of now.
fn either_text(takes: bool, said: &Text, now: &Text) -> Text
    ensures { result ≡ (if takes then said.now else now.now) }
{
    if takes { said.copy() } else { now.copy() }
}

/// The number that is said, if it is taken, else that of now.
pub(super) fn either_byte(takes: bool, said: u8, now: u8) -> u8
    ensures { result ∷ [] ≡ (if takes then said ∷ [] else now ∷ []) }
{
    if takes { said } else { now }
}

/// The number that is said, if it is taken, else that of now.
pub(super) fn either_word(takes: bool, said: u16, now: u16) -> u16
    ensures { word_slots result ≡ (if takes then word_slots said else word_slots now) }
{
    if takes { said } else { now }
}

/// The number that is said, if it is taken, else that of now.
pub(super) fn either_long(takes: bool, said: u32, now: u32) -> u32
    ensures { long_slots result ≡ (if takes then long_slots said else long_slots now) }
{
    if takes { said } else { now }
}

/// Carries over the values of the sub-devices that the image has, if they are of the same model.
fn carry_subs(profile: &Profile, subs: &mut [CommonValues], image: &[u8])
    requires { length image.now ≡ said_len image.now }
    ensures { map common_entries subs.new ≡ carried_devices (carried_subs profile.now image.now) profile.now image.now
        (map common_entries subs.old) (drop (subs_place image.now) image.now) }
{
    let count = subs.len().min(carried_subs(profile, image));
    let bytes = &image[subs_place(image)..];
    for i in 0..count {
        carry_sub(
            profile,
            &mut subs[i],
            image,
            &bytes[COMMON_BYTES * i..COMMON_BYTES * i + COMMON_BYTES],
        );
    }
}

/// Carries over what these bytes say of a sub-device.
fn carry_sub(profile: &Profile, values: &mut CommonValues, image: &[u8], bytes: &[u8])
    requires image { root_place image.now ≤ length image.now }
    requires bytes { length bytes.now ≡ 46 }
    ensures { common_entries values.new ≡ carried_device (sub_device profile.now (common_entries values.old)) image.now
        (common_entries values.old) bytes.now }
{
    let here = Place::of_sub(profile, values);
    let common = carried_common(&here, image, values, bytes);
    *values = common;
}

/// How many sub-devices an image has values of that can be carried over: all, if they are of the same model.
fn carried_subs(profile: &Profile, image: &[u8]) -> usize
    ensures value { result ≡ carried_subs profile.now image.now }
    ensures few { result ≤ said_subs image.now }
{
    match image.get(9..11) {
        Some(model) if model == profile.sub.model.to_be_bytes().as_slice() => said_subs(image),
        _ => 0,
    }
}
