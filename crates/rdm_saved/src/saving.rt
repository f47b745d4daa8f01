//! From values to the image of them.

ghost use Rattle.std.specs.Prelude.{◌≡◌, ◌≤◌, ◌*◌, ◌-◌, ◌%◌, ◌^◌, ◌++◌, [], ◌∷◌, length, replicate, flat_map, map, sum};
ghost use Rattle.rdm_added.specs.Views.State.{common_entries, own_entries, sensor_entries, kept_entry, added_entries};
ghost use Rattle.rdm_profile.specs.Values.{word_slots, long_slots, signed_slots};
ghost use Rattle.rdm_saved.specs.SavedText.{device_text, kept_text, label_text};
ghost use Rattle.rdm_saved.specs.Laws.{IsWhole, AreTexts, AreWhole};

use rdm_device::{CommonValues, Kept, Measured, RootValues};

/// How many bytes are saved of what every device keeps.
pub(crate) const COMMON_BYTES: usize = 46;

/// How many bytes are saved of what the root keeps beside it, but for its sensors.
pub(crate) const OWN_BYTES: usize = 15;

/// How many bytes are saved of a parameter that the maker adds.
pub(crate) const KEPT_BYTES: usize = 37;

/// The most bytes of a label.
pub(crate) const LABEL_BYTES: usize = 32;

/// Writes what is saved of what every device keeps.
#[tactic(auto, unfolding(rdm_added::specs::Views::State::common_entries), using(crate::proofs::Whole::common_whole))]
pub(crate) fn save_common(values: &CommonValues, out: &mut [u8])
    requires { length out.old ≡ 46 }
    ensures text { out.new ≡ device_text (common_entries values.now) }
    ensures whole { IsWhole (common_entries values.now) }
{
    let label = values.label.as_slice();
    let (front, rest) = out.split_at_mut(2);
    let (middle, back) = rest.split_at_mut(LABEL_BYTES);
    front.copy_from_slice(&[values.report_threshold, label.len() as u8]);
    write_label(label, middle);
    back.copy_from_slice(&numbers_of(values));
}

/// Writes a label, and zeros behind it.
fn write_label(label: &[u8], out: &mut [u8])
    requires room { length out.old ≡ 32 }
    requires fits { length label.now ≤ 32 }
    ensures { out.new ≡ label.now ++ replicate (32 - length label.now) 0 }
{
    let (front, back) = out.split_at_mut(label.len());
    front.copy_from_slice(label);
    back.fill(0);
}

/// What is saved behind the label.
fn numbers_of(values: &CommonValues) -> [u8; 12]
    ensures { result ≡ values.now.personality ∷ word_slots values.now.start ++ long_slots values.now.lamp_hours
        ++ long_slots values.now.lamp_strikes ++ values.now.lamp_on_mode ∷ [] }
{
    let start = values.start.to_be_bytes();
    let hours = values.lamp_hours.to_be_bytes();
    let strikes = values.lamp_strikes.to_be_bytes();
    [
        values.personality,
        start[0],
        start[1],
        hours[0],
        hours[1],
        hours[2],
        hours[3],
        strikes[0],
        strikes[1],
        strikes[2],
        strikes[3],
        values.lamp_on_mode,
    ]
}

/// Writes what is saved of what every sub-device keeps.
#[tactic(auto, using(crate::proofs::Whole::whole_more))]
pub(crate) fn save_each(subs: &[CommonValues], out: &mut [u8])
    requires { length out.old ≡ 46 * length subs.now }
    ensures text { out.new ≡ flat_map (λ values. device_text (common_entries values)) subs.now }
    ensures whole { AreWhole (map common_entries subs.now) }
{
    for i in 0..subs.len() {
        save_common(
            &subs[i],
            &mut out[COMMON_BYTES * i..COMMON_BYTES * i + COMMON_BYTES],
        );
    }
}

/// Writes what is saved of parameters that the maker adds.
#[tactic(auto, using(crate::proofs::Whole::texts_more))]
pub(crate) fn save_added(values: &[Kept], out: &mut [u8])
    requires { length out.old ≡ 37 * length values.now }
    ensures text { out.new ≡ flat_map (λ kept. kept_text (kept_entry kept)) values.now }
    ensures whole { AreTexts (added_entries values.now) }
{
    for i in 0..values.len() {
        save_kept(
            &values[i],
            &mut out[KEPT_BYTES * i..KEPT_BYTES * i + KEPT_BYTES],
        );
    }
}

/// Writes what is saved of one.
fn save_kept(kept: &Kept, out: &mut [u8])
    requires { length out.old ≡ 37 }
    ensures text { out.new ≡ kept_text (kept_entry kept.now) }
    ensures short { length kept.now.bytes ≤ 32 }
{
    let bytes = kept.bytes.as_slice();
    let pid = kept.pid.to_be_bytes();
    let index = kept.index.to_be_bytes();
    let (front, rest) = out.split_at_mut(5);
    front.copy_from_slice(&[pid[0], pid[1], index[0], index[1], bytes.len() as u8]);
    write_label(bytes, rest);
}

/// Writes what is saved of sensors.
#[tactic(auto, using(crate::proofs::Sensors::sensors_text))]
pub(crate) fn save_sensors(sensors: &[Measured], out: &mut [u8])
    requires { length out.old ≡ 2 * length sensors.now }
    ensures { out.new ≡ device_text (sensor_entries 0 sensors.now) }
{
    write_recorded(sensors, out);
}

/// Writes the recorded values of sensors.
fn write_recorded(sensors: &[Measured], out: &mut [u8])
    requires { length out.old ≡ 2 * length sensors.now }
    ensures { out.new ≡ flat_map (λ m. signed_slots m.recorded) sensors.now }
{
    for i in 0..sensors.len() {
        out[2 * i..2 * i + 2].copy_from_slice(&sensors[i].recorded.to_be_bytes());
    }
}

/// What is saved of what the root keeps beside it, but for its sensors.
#[tactic(auto, unfolding(rdm_added::specs::Views::State::own_entries))]
pub(crate) fn own_text(values: &RootValues) -> [u8; 15]
    ensures { device_text (own_entries values.now) ≡ result ++ device_text (sensor_entries 0 values.now.sensors.items) }
{
    let language = values.language.to_be_bytes();
    let hours = values.device_hours.to_be_bytes();
    let cycles = values.power_cycles.to_be_bytes();
    [
        language[0],
        language[1],
        hours[0],
        hours[1],
        hours[2],
        hours[3],
        cycles[0],
        cycles[1],
        cycles[2],
        cycles[3],
        values.display_invert,
        values.display_level,
        values.pan_invert,
        values.tilt_invert,
        values.pan_tilt_swap,
    ]
}

/// The sum of the bytes, modulo 4294967296.
pub(crate) fn sum_of(bytes: &[u8]) -> u32
    ensures { result ≡ sum bytes.now % 2 ^ 32 }
{
    let mut total: u32 = 0;
    for byte in bytes {
        total = total.wrapping_add(u32::from(*byte));
    }
    total
}
