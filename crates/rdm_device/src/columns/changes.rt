//! What a SET changes beside one stored value.
//!
//! Each is a call, since a match over all rows would keep room for all that it inlines.

ghost use Rattle.std.specs.Prelude.{◌≡◌, ◌↔◌, ◌<◌, ◌≤◌, [], ◌∷◌, false, true, length, slice_index_or, if◌then◌else◌};
ghost use Rattle.rdm_profile.specs.declared.value.Value.{Value};
ghost use Rattle.rdm_added.specs.declared.state.Measured.{Measured};
ghost use Rattle.rdm_device.specs.Columns.Changes.{IsChanged, set_back, sensors_reset, sensors_recorded, sensor_change, reset, record_present};
ghost use Rattle.rdm_added.specs.Map.{entry, update};
ghost use Rattle.rdm_profile.specs.Values.{word_slots};
ghost use Rattle.rdm_added.specs.Views.State.{common_entries, own_entries, added_entries, sensor_entries, measured_slots};

use arrayvec::ArrayVec;
use rdm_added::added::is_locked;
use rdm_added::{CommonValues, Kept, Measured, RootValues};
use rdm_frame::Text;
use rdm_frame::standard::ALL_SENSORS;
use rdm_profile::{Argument, Profile, writes};

/// Sets back what FACTORY_DEFAULTS sets back of the values that every device keeps, but for those that are locked while these are the
/// values of the maker's own parameters, and says whether that changed one.
#[tactic(auto, unfolding(rdm_added::specs::Views::State::common_entries, rdm_added::specs::Parameters::common_at_start, rdm_added::specs::Parameters::own_at_start))]
#[inline(never)]
pub fn common_set_back(profile: &Profile, added: &[Kept], common: &mut CommonValues) -> bool
    ensures after { (v : Value) → IsChanged set_back v profile.now (added_entries added.now) (common_entries common.old) (common_entries common.new) }
    ensures same { (result ≡ false) ↔ (common_entries common.new ≡ common_entries common.old) }
{
    let label = text_back(
        is_locked(profile, added, 0x0082),
        &mut common.label,
        profile.root.label.as_slice(),
    );
    let personality = byte_back(
        is_locked(profile, added, 0x00E0),
        &mut common.personality,
        1,
    );
    let start = word_back(
        is_locked(profile, added, 0x00F0),
        &mut common.start,
        profile.root.start,
    );
    let lamp_on_mode = byte_back(
        is_locked(profile, added, 0x0404),
        &mut common.lamp_on_mode,
        0,
    );
    label || personality || start || lamp_on_mode
}

/// Sets back what FACTORY_DEFAULTS sets back of the values that the root alone keeps, but for those that are locked, and says whether
/// that changed one.
#[tactic(auto, unfolding(rdm_added::specs::Views::State::own_entries, rdm_added::specs::Parameters::common_at_start, rdm_added::specs::Parameters::own_at_start), using(crate::proofs::Sensors::sensors_stay))]
#[inline(never)]
pub fn own_set_back(profile: &Profile, value: &Argument<'_>, own: &mut RootValues) -> bool
    ensures after { IsChanged set_back value.now profile.now (added_entries own.old.added.items) (own_entries own.old) (own_entries own.new) }
    ensures same { (result ≡ false) ↔ (own_entries own.new ≡ own_entries own.old) }
    ensures added { own.new.added ≡ own.old.added }
{
    let _ = value;
    let first = profile.languages.first().copied().unwrap_or(0);
    let added = own.added.as_slice();
    let language = word_back(is_locked(profile, added, 0x00B0), &mut own.language, first);
    let display_invert = byte_back(
        is_locked(profile, added, 0x0500),
        &mut own.display_invert,
        0,
    );
    let display_level = byte_back(
        is_locked(profile, added, 0x0501),
        &mut own.display_level,
        0xFF,
    );
    let pan_invert = byte_back(is_locked(profile, added, 0x0600), &mut own.pan_invert, 0);
    let tilt_invert = byte_back(is_locked(profile, added, 0x0601), &mut own.tilt_invert, 0);
    let pan_tilt_swap = byte_back(is_locked(profile, added, 0x0602), &mut own.pan_tilt_swap, 0);
    language || display_invert || display_level || pan_invert || tilt_invert || pan_tilt_swap
}

/// Sets a number back, unless it is locked, and says whether it is another one now.
fn byte_back(locked: bool, field: &mut u8, first: u8) -> bool
    ensures now { field.new ∷ [] ≡ (if locked then field.old ∷ [] else first ∷ []) }
    ensures same { (result ≡ false) ↔ (field.new ∷ [] ≡ field.old ∷ []) }
{
    !locked && writes::byte(field, first)
}

/// The same of 16 bits.
fn word_back(locked: bool, field: &mut u16, first: u16) -> bool
    ensures now { word_slots field.new ≡ (if locked then word_slots field.old else word_slots first) }
    ensures same { (result ≡ false) ↔ (word_slots field.new ≡ word_slots field.old) }
{
    !locked && writes::word(field, first)
}

/// The same of a text.
fn text_back(locked: bool, field: &mut Text, first: &[u8]) -> bool
    requires { length first.now ≤ 32 }
    ensures now { field.new ≡ (if locked then field.old else first.now) }
    ensures same { (result ≡ false) ↔ (field.new ≡ field.old) }
{
    !locked && writes::text(field, first)
}

/// Makes the lowest, the highest and the recorded value of the named sensors the present one, and says whether that
/// changed one.
#[tactic(auto, unfolding(rdm_added::specs::Views::State::own_entries))]
#[inline(never)]
pub fn sensors_reset(profile: &Profile, value: &Argument<'_>, own: &mut RootValues) -> bool
    ensures after { IsChanged sensors_reset value.now profile.now (added_entries own.old.added.items) (own_entries own.old) (own_entries own.new) }
    ensures same { (result ≡ false) ↔ (own_entries own.new ≡ own_entries own.old) }
    ensures added { own.new.added ≡ own.old.added }
{
    let after = changed(own.sensors.as_slice(), value.byte().unwrap_or(0), true);
    let differ = !are_same(after.as_slice(), own.sensors.as_slice());
    own.sensors = after;
    differ
}

/// Makes the recorded value of the named sensors the present one, and says whether that changed one.
#[tactic(auto, unfolding(rdm_added::specs::Views::State::own_entries))]
#[inline(never)]
pub fn sensors_recorded(profile: &Profile, value: &Argument<'_>, own: &mut RootValues) -> bool
    ensures after { IsChanged sensors_recorded value.now profile.now (added_entries own.old.added.items) (own_entries own.old) (own_entries own.new) }
    ensures same { (result ≡ false) ↔ (own_entries own.new ≡ own_entries own.old) }
    ensures added { own.new.added ≡ own.old.added }
{
    let after = changed(own.sensors.as_slice(), value.byte().unwrap_or(0), false);
    let differ = !are_same(after.as_slice(), own.sensors.as_slice());
    own.sensors = after;
    differ
}

/// The sensors after a change of the one with this number, or with FF of all.
fn changed(sensors: &[Measured], number: u8, resets: bool) -> ArrayVec<Measured, 8>
    requires { length sensors.now ≤ 8 }
    ensures as_many { length result.items ≡ length sensors.now }
    ensures after { sensor_entries 0 result.items
        ≡ update (sensor_change (if resets then reset else record_present) number) (sensor_entries 0 sensors.now) }
{
    let mut after = ArrayVec::new();
    for i in 0..sensors.len() {
        after.push(changed_at(sensors, i, number, resets));
    }
    after
}

/// Whether as many sensors show the same values.
fn are_same(after: &[Measured], before: &[Measured]) -> bool
    requires { length after.now ≡ length before.now }
    ensures { (result ≡ true) ↔ (sensor_entries 0 after.now ≡ sensor_entries 0 before.now) }
{
    for i in 0..after.len() {
        if !is_same(after[i], before[i]) {
            return false;
        }
    }
    true
}

/// Whether two sensors show the same values.
fn is_same(a: Measured, b: Measured) -> bool
    ensures { (result ≡ true) ↔ (measured_slots a ≡ measured_slots b) }
{
    a.present == b.present
        && a.lowest == b.lowest
        && a.highest == b.highest
        && a.recorded == b.recorded
}

/// A sensor after that change.
#[tactic(auto, using(std::proofs::lemmas::List::get_or_default))]
fn changed_at(sensors: &[Measured], index: usize, number: u8, resets: bool) -> Measured
    requires { index < length sensors.now }
    ensures { (d : Measured)
        → measured_slots result
        ≡ sensor_change (if resets then reset else record_present) number (entry 0x0201 index (measured_slots (slice_index_or sensors.now index d))) }
{
    let measured = sensors[index];
    if number == ALL_SENSORS || index == number as usize {
        renewed(measured, resets)
    } else {
        measured
    }
}

/// What a sensor measured, with the present value recorded, and the lowest and highest reset too if they are to be.
fn renewed(measured: Measured, resets: bool) -> Measured
    ensures { measured_slots result ≡ (if resets then reset else record_present) (measured_slots measured) }
{
    let recorded = measured.present;
    if resets {
        Measured {
            present: recorded,
            lowest: recorded,
            highest: recorded,
            recorded,
        }
    } else {
        Measured {
            recorded,
            ..measured
        }
    }
}
