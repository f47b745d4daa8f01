//! From the bytes of an image to values.

ghost use Rattle.std.specs.Prelude.{◌≡◌, ◌+◌, ◌*◌, [], ◌∷◌, length, take, drop, map};
ghost use Rattle.rdm_added.specs.Views.State.{common_entries, own_entries, sensor_entries, kept_entry, added_entries};
ghost use Rattle.rdm_profile.specs.Values.{word_slots, long_slots, signed_slots};
ghost use Rattle.rdm_saved.specs.SameProfile.{kept_said, restored_device, restored_kept, restored_added, restored_devices};

use crate::saving::{COMMON_BYTES, KEPT_BYTES, LABEL_BYTES, OWN_BYTES};
use rdm_device::{CommonValues, Kept, Measured, RootValues};
use rdm_frame::Text;

/// Restores what every device keeps.
#[tactic(auto, unfolding(rdm_added::specs::Views::State::common_entries), using(crate::proofs::Restored::common_is))]
pub(crate) fn restore_common(values: &mut CommonValues, bytes: &[u8])
    requires { length bytes.now ≡ 46 }
    ensures { common_entries values.new ≡ restored_device (common_entries values.old) bytes.now }
{
    let (front, rest) = bytes.split_at(2);
    let (label, numbers) = rest.split_at(LABEL_BYTES);
    let [threshold, len] = front else {
        return;
    };
    let [personality, s0, s1, h0, h1, h2, h3, k0, k1, k2, k3, mode] = numbers else {
        return;
    };
    values.report_threshold = *threshold;
    values.label = label_in(*len, label);
    values.personality = *personality;
    values.start = word_of(*s0, *s1);
    values.lamp_hours = long_of(*h0, *h1, *h2, *h3);
    values.lamp_strikes = long_of(*k0, *k1, *k2, *k3);
    values.lamp_on_mode = *mode;
}

/// The label of so many bytes that these begin with, or all of them.
fn label_in(len: u8, bytes: &[u8]) -> Text
    requires { length bytes.now ≡ 32 }
    ensures { result ≡ take len bytes.now }
{
    let len = (len as usize).min(bytes.len());
    Text::of(&bytes[..len])
}

/// The number that two bytes say.
fn word_of(first: u8, second: u8) -> u16
    ensures { word_slots result ≡ first ∷ second ∷ [] }
{
    u16::from_be_bytes([first, second])
}

/// The number that four bytes say.
fn long_of(first: u8, second: u8, third: u8, fourth: u8) -> u32
    ensures { long_slots result ≡ first ∷ second ∷ third ∷ fourth ∷ [] }
{
    u32::from_be_bytes([first, second, third, fourth])
}

/// The signed number that two bytes say.
fn signed_of(first: u8, second: u8) -> i16
    ensures { signed_slots result ≡ first ∷ second ∷ [] }
{
    i16::from_be_bytes([first, second])
}

/// Restores what every sub-device keeps.
pub(crate) fn restore_each(subs: &mut [CommonValues], bytes: &[u8])
    requires { length bytes.now ≡ 46 * length subs.old }
    ensures { map common_entries subs.new ≡ restored_devices (map common_entries subs.old) bytes.now }
{
    for i in 0..subs.len() {
        restore_common(
            &mut subs[i],
            &bytes[COMMON_BYTES * i..COMMON_BYTES * i + COMMON_BYTES],
        );
    }
}

/// Restores what the root keeps beside it.
#[tactic(auto, unfolding(rdm_added::specs::Views::State::own_entries))]
pub(crate) fn restore_own(values: &mut RootValues, bytes: &[u8], added: &[u8])
    requires own { length bytes.now ≡ 15 + 2 * length values.old.sensors.items }
    requires added { length added.now ≡ 37 * length values.old.added.items }
    ensures own { own_entries values.new ≡ restored_device (own_entries values.old) bytes.now }
    ensures added { added_entries values.new.added.items ≡ restored_added (added_entries values.old.added.items) added.now }
{
    let (numbers, sensors) = bytes.split_at(OWN_BYTES);
    let [
        l0,
        l1,
        h0,
        h1,
        h2,
        h3,
        c0,
        c1,
        c2,
        c3,
        invert,
        level,
        pan,
        tilt,
        swap,
    ] = numbers
    else {
        return;
    };
    values.language = word_of(*l0, *l1);
    values.device_hours = long_of(*h0, *h1, *h2, *h3);
    values.power_cycles = long_of(*c0, *c1, *c2, *c3);
    values.display_invert = *invert;
    values.display_level = *level;
    values.pan_invert = *pan;
    values.tilt_invert = *tilt;
    values.pan_tilt_swap = *swap;
    restore_sensors(values.sensors.as_mut_slice(), sensors);
    restore_added(values.added.as_mut_slice(), added);
}

/// Restores the values of parameters that the maker adds.
fn restore_added(values: &mut [Kept], bytes: &[u8])
    requires { length bytes.now ≡ 37 * length values.old }
    ensures { added_entries values.new ≡ restored_added (added_entries values.old) bytes.now }
{
    for i in 0..values.len() {
        restore_kept(
            &mut values[i],
            &bytes[KEPT_BYTES * i..KEPT_BYTES * i + KEPT_BYTES],
        );
    }
}

/// Restores the value of one.
fn restore_kept(kept: &mut Kept, bytes: &[u8])
    requires { length bytes.now ≡ 37 }
    ensures { kept_entry kept.new ≡ restored_kept (kept_entry kept.old) bytes.now }
{
    kept.bytes = kept_in(bytes);
}

/// What these bytes say of a value: behind its key, the first tells how many of the others it has.
pub(crate) fn kept_in(bytes: &[u8]) -> Text
    requires { length bytes.now ≡ 37 }
    ensures { result ≡ kept_said bytes.now }
{
    let (front, rest) = bytes.split_at(5);
    label_in(front[4], rest)
}

/// Restores the recorded values of sensors.
pub(crate) fn restore_sensors(sensors: &mut [Measured], bytes: &[u8])
    requires { length bytes.now ≡ 2 * length sensors.old }
    ensures { sensor_entries 0 sensors.new ≡ restored_device (sensor_entries 0 sensors.old) bytes.now }
{
    for i in 0..sensors.len() {
        sensors[i].recorded = signed_of(bytes[2 * i], bytes[2 * i + 1]);
    }
}
