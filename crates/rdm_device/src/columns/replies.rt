//! Replies that aren't what is stored at a key.
//!
//! Each is a call, since a match over all rows would keep room for all that it inlines.

mod lists;

ghost use Rattle.std.specs.Prelude.{◌≡◌, ◌==◌, [], ◌∷◌, ◌++◌, find, bytes_eq, slice_get, length, is_some, if◌then◌else◌};
ghost use Rattle.std.specs.List.{list_all};
ghost use Rattle.std.specs.Option.{option_copied};
ghost use Rattle.std.specs.Int.{w16, from_be_bytes};
ghost use Rattle.rdm_device.specs.Columns.Replies.{status_text, factory_pids, device_info, at_factory_defaults, personality_of_all, personality_described, start_address, slot_described, sensor_described, sensor_measured, self_test_runs, self_test_described};
ghost use Rattle.rdm_added.specs.Map.{lookup};
ghost use Rattle.rdm_added.specs.Spot.{footprint, personalities};
ghost use Rattle.rdm_device.specs.Device.Measuring.{shown_slots};
ghost use Rattle.rdm_added.specs.Parameters.{root_at_start};
ghost use Rattle.rdm_added.specs.Views.State.{common_entries, own_entries, sensor_entries, measured_slots};
ghost use Rattle.rdm_profile.specs.Values.{bytes_of, word_slots};

pub use crate::columns::replies::lists::{languages, slot_defaults, slot_infos};
use crate::device::footprint::{footprint, personality_at, personality_count, slots};
use crate::device::supporting::shown;
use rdm_added::added::are_at_start;
use rdm_added::{CommonValues, Measured, Place, RootValues};
use rdm_frame::Body;
use rdm_frame::standard::ALL_SENSORS;
use rdm_profile::{Argument, Profile, SelfTest, StatusText, Value, write_into};

/// The version of the protocol: 1.0 (E1.20 section 10.5.1).
const PROTOCOL_VERSION: u16 = 0x0100;

/// The meaning of a status ID.
#[inline(never)]
pub fn status_text(place: &Place<'_>, value: &Argument<'_>, body: &mut Body)
    requires { body.old ≡ [] }
    ensures { body.new ≡ status_text place.now value.now }
{
    let texts = place.profile.status_texts.as_slice();
    if let Some(status) = status_of(texts, value.word().unwrap_or(0)) {
        body.append(status.text.as_slice());
    }
}

fn status_of(texts: &[StatusText], id: u16) -> Option<&StatusText>
    ensures { option_copied result ≡ find (λ t. t.id == id) texts.now }
{
    texts.iter().find(|t| t.id == id)
}

/// What the device is.
#[tactic(auto, unfolding(rdm_added::specs::Views::State::common_entries))]
#[inline(never)]
pub fn device_info(place: &Place<'_>, body: &mut Body)
    requires { body.old ≡ [] }
    ensures { body.new ≡ device_info place.now }
{
    // Numbers are read before the first byte is written, so that the compiler looks nothing up twice, and stores the length of the
    // list once. Read as arrays of bytes they would lie in memory, and each append would test whether the list does too.
    let unit = place.unit;
    let (model, category, software) = (unit.model, unit.category, unit.software);
    let personality = place.common.personality;
    let slots = footprint(place);
    let start = start_number(place, slots);
    let (personalities, sensors) = counts(place);
    let subs = place.profile.subs;
    // It is empty already. Here the compiler sees that, and looks for room no more.
    body.clear();
    body.append(&PROTOCOL_VERSION.to_be_bytes());
    body.append(&model.to_be_bytes());
    body.append(&category.to_be_bytes());
    body.append(&software.to_be_bytes());
    body.append(&slots.to_be_bytes());
    body.append(&[personality, personalities]);
    body.append(&start.to_be_bytes());
    body.append(&subs.to_be_bytes());
    body.append(&[sensors]);
}

/// How many personalities and sensors the device has: only the root has modes, and any sensors.
fn counts(place: &Place<'_>) -> (u8, u8)
    ensures personalities { result.0 ≡ length (personalities place.now) }
    ensures sensors { result.1 ≡ if place.now.is_root then length place.now.profile.sensors.items else 0 }
{
    let units = place.unit.personalities.len();
    match place.own {
        Some(_) => {
            let modes = place.profile.particulars.modes().len();
            ((units + modes) as u8, place.profile.sensors.len() as u8)
        }
        None => (units as u8, 0),
    }
}

/// 1 if each parameter that FACTORY_DEFAULTS sets back has the value that it starts with, else 0.
#[tactic(auto, unfolding(rdm_added::specs::Views::State::common_entries, rdm_added::specs::Views::State::own_entries, rdm_added::specs::Parameters::common_at_start, rdm_added::specs::Parameters::own_at_start), using(crate::proofs::Words::never))]
#[inline(never)]
pub fn at_factory_defaults(place: &Place<'_>, body: &mut Body)
    requires { body.old ≡ [] }
    ensures { body.new ≡ at_factory_defaults place.now }
{
    match place.own {
        Some(own)
            if is_set_back(place.profile, place.common, own)
                && are_at_start(place.profile.particulars.own(), own.added.as_slice()) => {
            body.append(&[1])
        }
        _ => body.append(&[0]),
    }
}

#[tactic(auto, unfolding(rdm_added::specs::Views::State::common_entries, rdm_added::specs::Views::State::own_entries, rdm_added::specs::Parameters::common_at_start, rdm_added::specs::Parameters::own_at_start))]
fn is_set_back(profile: &Profile, common: &CommonValues, own: &RootValues) -> bool
    ensures { result ≡ list_all (λ pid. bytes_eq (lookup (common_entries common.now ++ own_entries own.now) pid 0)
        (lookup (root_at_start profile.now) pid 0)) factory_pids }
{
    let first_language = profile.languages.first().copied().unwrap_or(0);
    same(common.label.as_slice(), profile.root.label.as_slice())
        && same(&own.language.to_be_bytes(), &first_language.to_be_bytes())
        && same(&[common.personality], &[1])
        && same(
            &common.start.to_be_bytes(),
            &profile.root.start.to_be_bytes(),
        )
        && same(&[common.lamp_on_mode], &[0])
        && same(&[own.display_invert], &[0])
        && same(&[own.display_level], &[0xFF])
        && same(&[own.pan_invert], &[0])
        && same(&[own.tilt_invert], &[0])
        && same(&[own.pan_tilt_swap], &[0])
}

fn same(stored: &[u8], first: &[u8]) -> bool
    ensures { result ≡ bytes_eq stored.now first.now }
{
    stored == first
}

/// The current personality, and how many there are.
#[tactic(auto, unfolding(rdm_added::specs::Views::State::common_entries))]
#[inline(never)]
pub fn personality_of_all(place: &Place<'_>, body: &mut Body)
    requires { body.old ≡ [] }
    ensures { body.new ≡ personality_of_all place.now }
{
    body.append(&[place.common.personality, personality_count(place)]);
}

/// What a personality uses and is called.
#[inline(never)]
pub fn personality_described(place: &Place<'_>, value: &Argument<'_>, body: &mut Body)
    requires { body.old ≡ [] }
    ensures { body.new ≡ personality_described place.now value.now }
{
    let number = value.byte().unwrap_or(0);
    if let Some(personality) = personality_at(place, number) {
        body.append(&[number]);
        body.append(&personality.footprint.to_be_bytes());
        body.append(personality.name.as_slice());
    }
}

/// The DMX512 start address, or FFFF if the device uses no slots.
#[inline(never)]
pub fn start_address(place: &Place<'_>, body: &mut Body)
    requires { body.old ≡ [] }
    ensures { body.new ≡ start_address place.now }
{
    body.append(&shown_start(place, footprint(place)).to_be_bytes());
}

/// The start address that is told, where so many slots are used.
#[tactic(auto, unfolding(rdm_added::specs::Views::State::common_entries))]
fn shown_start(place: &Place<'_>, slots: u16) -> u16
    requires { slots ≡ footprint place.now }
    ensures { word_slots result ≡ start_address place.now }
{
    if slots == 0 {
        0xFFFF
    } else {
        place.common.start
    }
}

#[tactic(auto, using(crate::proofs::Words::word_read))]
fn start_number(place: &Place<'_>, slots: u16) -> u16
    requires { slots ≡ footprint place.now }
    ensures { result ≡ from_be_bytes w16 (start_address place.now) }
{
    shown_start(place, slots)
}

/// What a slot is called.
#[inline(never)]
pub fn slot_described(place: &Place<'_>, value: &Argument<'_>, body: &mut Body)
    requires { body.old ≡ [] }
    ensures { body.new ≡ slot_described place.now value.now }
{
    let offset = value.word().unwrap_or(0);
    if let Some(slot) = slots(place).get(offset as usize) {
        body.append(&offset.to_be_bytes());
        body.append(slot.name.as_slice());
    }
}

/// What a sensor measures.
#[inline(never)]
pub fn sensor_described(place: &Place<'_>, value: &Argument<'_>, body: &mut Body)
    requires { body.old ≡ [] }
    ensures { body.new ≡ sensor_described place.now value.now }
{
    let number = value.byte().unwrap_or(0);
    if let Some(sensor) = place.profile.sensors.get(number as usize) {
        let def = sensor.copy();
        write_into(&Value::Sensor { number, def }, body);
    }
}

/// What a sensor measured, or FF and eight 00 for all sensors.
#[tactic(auto, unfolding(rdm_added::specs::Views::State::common_entries, rdm_added::specs::Views::State::own_entries))]
#[inline(never)]
pub fn sensor_measured(place: &Place<'_>, value: &Argument<'_>, body: &mut Body)
    requires { body.old ≡ [] }
    ensures { body.new ≡ sensor_measured place.now value.now }
{
    let number = value.byte().unwrap_or(0);
    if number == ALL_SENSORS {
        body.append(&[ALL_SENSORS, 0, 0, 0, 0, 0, 0, 0, 0]);
        return;
    }
    match place.own {
        Some(own) => write_reading(place.profile, own.sensors.as_slice(), number, body),
        None => body.append(&[number]),
    }
}

fn write_reading(profile: &Profile, sensors: &[Measured], number: u8, body: &mut Body)
    requires { body.old ≡ [] }
    ensures { body.new ≡ number ∷ shown_slots (slice_get profile.now.sensors.items number) (lookup (sensor_entries 0 sensors.now) 0x0201 number) }
{
    write_into(&reading_of(profile, sensors, number), body);
}

fn reading_of(profile: &Profile, sensors: &[Measured], number: u8) -> Value
    ensures { bytes_of result ≡ number ∷ shown_slots (slice_get profile.now.sensors.items number) (lookup (sensor_entries 0 sensors.now) 0x0201 number) }
{
    match measured_at(sensors, number) {
        Some(measured) => reading(number, shown(profile, number, measured)),
        None => Value::Byte(number),
    }
}

fn measured_at(sensors: &[Measured], number: u8) -> Option<Measured>
    ensures { result ≡ slice_get sensors.now number }
{
    sensors.get(number as usize).copied()
}

fn reading(number: u8, measured: Measured) -> Value
    ensures { bytes_of result ≡ number ∷ measured_slots measured }
{
    Value::Reading {
        number,
        present: measured.present,
        lowest: measured.lowest,
        highest: measured.highest,
        recorded: measured.recorded,
    }
}

/// 1 if the self test that was last switched on isn't off, else 0.
#[tactic(auto, unfolding(rdm_added::specs::Views::State::common_entries, rdm_added::specs::Views::State::own_entries))]
#[inline(never)]
pub fn self_test_runs(place: &Place<'_>, body: &mut Body)
    requires { body.old ≡ [] }
    ensures { body.new ≡ self_test_runs place.now }
{
    match place.own {
        Some(own) if own.self_test != 0 => body.append(&[1]),
        _ => body.append(&[0]),
    }
}

/// What a self test is called.
#[inline(never)]
pub fn self_test_described(place: &Place<'_>, value: &Argument<'_>, body: &mut Body)
    requires { body.old ≡ [] }
    ensures { body.new ≡ self_test_described place.now value.now }
{
    let number = value.byte().unwrap_or(0);
    if let Some(test) = test_of(place.profile.tests.as_slice(), number) {
        body.append(&[number]);
        body.append(test.name.as_slice());
    }
}

fn test_of(tests: &[SelfTest], number: u8) -> Option<&SelfTest>
    ensures { option_copied result ≡ find (λ t. t.number == number) tests.now }
{
    tests.iter().find(|t| t.number == number)
}
