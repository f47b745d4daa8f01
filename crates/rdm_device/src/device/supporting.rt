//! What a sensor shows of its values: 0 for each that it doesn't support.

ghost use Rattle.std.specs.Prelude.{◌≡◌, slice_get};
ghost use Rattle.rdm_added.specs.declared.state.Measured.{Measured};
ghost use Rattle.rdm_device.specs.Device.Measuring.{records, keeps_extremes, or_zero, supported_slots, shown_slots};
ghost use Rattle.rdm_profile.specs.Values.{signed_slots};
ghost use Rattle.rdm_added.specs.Views.State.{measured_slots};

use rdm_added::Measured;
use rdm_profile::{Profile, SensorDef};

/// What the sensor of this number shows of these values, if the profile has it (E1.20 section 10.7.2).
pub(crate) fn shown(profile: &Profile, number: u8, measured: Measured) -> Measured
    ensures { measured_slots result ≡ shown_slots (slice_get profile.now.sensors.items number) (measured_slots measured) }
{
    match profile.sensors.get(number as usize) {
        Some(def) => supported(def, measured),
        None => measured,
    }
}

fn supported(def: &SensorDef, measured: Measured) -> Measured
    ensures { measured_slots result ≡ supported_slots def.now (measured_slots measured) }
{
    let extremes = keeps_extremes(def);
    Measured {
        present: measured.present,
        lowest: or_zero(extremes, measured.lowest),
        highest: or_zero(extremes, measured.highest),
        recorded: or_zero(records(def), measured.recorded),
    }
}

/// A value that is supported, and 0 in its place if it isn't.
fn or_zero(supported: bool, value: i16) -> i16
    ensures { signed_slots result ≡ or_zero supported (signed_slots value) }
{
    if supported { value } else { 0 }
}

/// Whether the sensor supports the recorded value.
pub(crate) fn records(def: &SensorDef) -> bool
    ensures { result ≡ records def.now }
{
    def.support % 2 == 1
}

/// Whether the sensor supports the lowest and the highest value.
fn keeps_extremes(def: &SensorDef) -> bool
    ensures { result ≡ keeps_extremes def.now }
{
    2 <= def.support % 4
}
