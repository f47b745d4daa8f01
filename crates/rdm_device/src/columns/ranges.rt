//! The ranges of the data of commands.
//!
//! Going through a list is a call, since a match over all rows would keep room for it.

ghost use Rattle.std.specs.Prelude.{◌≡◌, ◌==◌, false, slice_get};
ghost use Rattle.std.specs.Option.{option_map_or};
ghost use Rattle.std.specs.List.{list_any};
ghost use Rattle.rdm_profile.specs.Forms.{byte, word, preset};
ghost use Rattle.rdm_device.specs.Columns.Ranges.{below, a_message_type, a_threshold, a_status, a_language, a_personality, a_start, a_slot, a_sensor, sensors, a_power_state, a_test, a_self_test, a_preset, recording_sensors, lamp_states_told, lamp_modes_told};
ghost use Rattle.rdm_device.specs.Device.Measuring.{records};

use crate::device::footprint::{footprint, personality_count, slots};
use crate::device::supporting::records;
use rdm_added::Place;
use rdm_frame::standard::{ALL_SENSORS, MOST_DMX_SLOTS};
use rdm_profile::{Argument, SelfTest, SensorDef, StatusText};

/// An 8-bit number below a limit.
#[inline]
pub fn below(place: &Place<'_>, value: &Argument<'_>, limit: u8) -> bool
    ensures { result ≡ below limit byte place.now value.now }
{
    match value.byte() {
        Some(number) => number < limit,
        None => false,
    }
}

/// A status type that QUEUED_MESSAGE can name: any but none.
#[inline]
pub fn a_message_type(place: &Place<'_>, value: &Argument<'_>) -> bool
    ensures { result ≡ a_message_type byte place.now value.now }
{
    match value.byte() {
        Some(status_type) => 1 <= status_type && status_type <= 4,
        None => false,
    }
}

/// Off, or report from an advisory, a warning or an error on (E1.20 table A-4).
#[inline]
pub fn a_threshold(place: &Place<'_>, value: &Argument<'_>) -> bool
    ensures { result ≡ a_threshold byte place.now value.now }
{
    match value.byte() {
        Some(threshold) => threshold == 0 || threshold == 2 || threshold == 3 || threshold == 4,
        None => false,
    }
}

/// A status ID of the profile.
#[inline]
pub fn a_status(place: &Place<'_>, value: &Argument<'_>) -> bool
    ensures { result ≡ a_status word place.now value.now }
{
    match value.word() {
        Some(id) => has_status(place.profile.status_texts.as_slice(), id),
        None => false,
    }
}

/// Whether one of the texts has this status ID.
#[inline(never)]
fn has_status(texts: &[StatusText], id: u16) -> bool
    ensures { result ≡ list_any (λ t. t.id == id) texts.now }
{
    texts.iter().any(|t| t.id == id)
}

/// A language of the profile.
#[inline(never)]
pub fn a_language(place: &Place<'_>, value: &Argument<'_>) -> bool
    ensures { result ≡ a_language word place.now value.now }
{
    match value.word() {
        Some(code) => place.profile.languages.as_slice().contains(&code),
        None => false,
    }
}

/// A personality of the device, numbered from 1.
#[inline]
pub fn a_personality(place: &Place<'_>, value: &Argument<'_>) -> bool
    ensures { result ≡ a_personality byte place.now value.now }
{
    match value.byte() {
        Some(number) => 1 <= number && number <= personality_count(place),
        None => false,
    }
}

/// A start address, at a device that uses slots.
#[inline]
pub fn a_start(place: &Place<'_>, value: &Argument<'_>) -> bool
    ensures { result ≡ a_start word place.now value.now }
{
    match value.word() {
        Some(start) => 1 <= start && start <= MOST_DMX_SLOTS && footprint(place) != 0,
        None => false,
    }
}

/// A slot that the current personality uses, and the profile describes.
#[inline]
pub fn a_slot(place: &Place<'_>, value: &Argument<'_>) -> bool
    ensures { result ≡ a_slot word place.now value.now }
{
    match value.word() {
        Some(offset) => offset < footprint(place) && (offset as usize) < slots(place).len(),
        None => false,
    }
}

/// A sensor.
#[inline]
pub fn a_sensor(place: &Place<'_>, value: &Argument<'_>) -> bool
    ensures { result ≡ a_sensor byte place.now value.now }
{
    match value.byte() {
        Some(number) => (number as usize) < place.profile.sensors.len(),
        None => false,
    }
}

/// A sensor or, if there is one, FF for all.
#[inline]
pub fn sensors(place: &Place<'_>, value: &Argument<'_>) -> bool
    ensures { result ≡ sensors byte place.now value.now }
{
    match value.byte() {
        Some(number) => {
            let count = place.profile.sensors.len();
            (number as usize) < count || (number == ALL_SENSORS && 0 < count)
        }
        None => false,
    }
}

/// A sensor that records its value or, if there is one, FF for all that do (E1.20 section 10.7.3).
// A call: it asks the definitions of the sensors.
#[inline(never)]
pub fn recording_sensors(place: &Place<'_>, value: &Argument<'_>) -> bool
    ensures { result ≡ recording_sensors byte place.now value.now }
{
    match value.byte() {
        Some(number) => {
            let sensors = place.profile.sensors.as_slice();
            does_record(sensors, number) || (number == ALL_SENSORS && does_one_record(sensors))
        }
        None => false,
    }
}

/// Whether there is a sensor of this number, and it records its value.
fn does_record(sensors: &[SensorDef], number: u8) -> bool
    ensures { result ≡ option_map_or records (slice_get sensors.now number) false }
{
    match sensors.get(number as usize) {
        Some(sensor) => records(sensor),
        None => false,
    }
}

/// Whether one of the sensors records its value.
fn does_one_record(sensors: &[SensorDef]) -> bool
    ensures { result ≡ list_any records sensors.now }
{
    sensors.iter().any(|sensor| records(sensor))
}

/// A lamp state that a GET may reply, and no SET asks for: no lamp, failure, or one of the maker's (E1.20 section 10.8.4).
pub fn lamp_states_told(place: &Place<'_>, value: &Argument<'_>) -> bool
    ensures { result ≡ lamp_states_told byte place.now value.now }
{
    match value.byte() {
        Some(state) => state == 0x04 || state == 0x7F || (0x80 <= state && state <= 0xDF),
        None => false,
    }
}

/// A mode of switching the lamp on that a GET may reply, and no SET asks for: one of the maker's (E1.20 section 10.8.5).
pub fn lamp_modes_told(place: &Place<'_>, value: &Argument<'_>) -> bool
    ensures { result ≡ lamp_modes_told byte place.now value.now }
{
    match value.byte() {
        Some(mode) => 0x80 <= mode && mode <= 0xDF,
        None => false,
    }
}

/// Full off, shutdown, standby or normal (E1.20 table A-11).
#[inline]
pub fn a_power_state(place: &Place<'_>, value: &Argument<'_>) -> bool
    ensures { result ≡ a_power_state byte place.now value.now }
{
    match value.byte() {
        Some(state) => state == 0 || state == 1 || state == 2 || state == 0xFF,
        None => false,
    }
}

/// A test of the profile.
#[inline]
pub fn a_test(place: &Place<'_>, value: &Argument<'_>) -> bool
    ensures { result ≡ a_test byte place.now value.now }
{
    match value.byte() {
        Some(test) => has_test(place.profile.tests.as_slice(), test),
        None => false,
    }
}

/// Off, a test of the profile, or FF for all tests.
#[inline]
pub fn a_self_test(place: &Place<'_>, value: &Argument<'_>) -> bool
    ensures { result ≡ a_self_test byte place.now value.now }
{
    match value.byte() {
        Some(test) => test == 0 || test == 0xFF || has_test(place.profile.tests.as_slice(), test),
        None => false,
    }
}

/// Whether one of the tests has this number.
#[inline(never)]
fn has_test(tests: &[SelfTest], number: u8) -> bool
    ensures { result ≡ list_any (λ t. t.number == number) tests.now }
{
    tests.iter().any(|t| t.number == number)
}

/// Off, a preset of the profile, or FFFF for all presets, at any level.
#[inline]
pub fn a_preset(place: &Place<'_>, value: &Argument<'_>) -> bool
    ensures { result ≡ a_preset preset place.now value.now }
{
    match value.preset() {
        Some((mode, _)) => mode <= place.profile.presets || mode == 0xFFFF,
        None => false,
    }
}
