//! What a sensor shows after it has measured, and after its values were placed.

ghost use Rattle.std.specs.Prelude.{◌≡◌, [], ◌∷◌, length, drop};
ghost use Rattle.rdm_added.specs.declared.state.Measured.{Measured};
ghost use Rattle.rdm_added.specs.Map.{update};
ghost use Rattle.rdm_device.specs.Device.Measuring.{measured, measured_by, at_sensor, placed_by};
ghost use Rattle.rdm_added.specs.Views.State.{own_entries, sensor_entries, measured_slots};
ghost use Rattle.rdm_profile.specs.Values.{signed_slots};

use rdm_added::{Measured, RootValues};

/// Makes a value the present one of the sensor of this number, if there is one, and takes it into the lowest and the
/// highest value.
#[tactic(auto, unfolding(rdm_added::specs::Views::State::own_entries))]
pub fn measure(own: &mut RootValues, number: u8, value: i16)
    ensures own { own_entries own.new ≡ update (measured_by number value) (own_entries own.old) }
    ensures added { own.new.added ≡ own.old.added }
{
    measure_among(own.sensors.as_mut_slice(), number as usize, value);
}

fn measure_among(sensors: &mut [Measured], index: usize, value: i16)
    ensures { sensor_entries 0 sensors.new ≡ update (measured_by index value) (sensor_entries 0 sensors.old) }
{
    if index < sensors.len() {
        sensors[index] = with_reading(sensors[index], value);
    }
}

fn with_reading(before: Measured, value: i16) -> Measured
    ensures { measured_slots result ≡ measured value (measured_slots before) }
{
    with_value(before.lowest, before.highest, before.recorded, value)
}

// The fields come one by one, since a contract knows the range of a number that is handed in.
fn with_value(lowest: i16, highest: i16, recorded: i16, value: i16) -> Measured
    ensures { (before : Measured) → before.lowest ≡ lowest → before.highest ≡ highest → before.recorded ≡ recorded
        → measured_slots result ≡ measured value (measured_slots before) }
{
    Measured {
        present: value,
        lowest: lowest.min(value),
        highest: highest.max(value),
        recorded,
    }
}

/// Makes the last eight of these nine slots the values of the sensor that the first one names, if there is one: the
/// present, the lowest, the highest and the recorded value (E1.20 section 10.7.2).
#[tactic(auto, unfolding(rdm_added::specs::Views::State::own_entries))]
pub fn place_measured(own: &mut RootValues, slots: &[u8])
    requires { length slots.now ≡ 9 }
    ensures own { own_entries own.new ≡ update (placed_by slots.now) (own_entries own.old) }
    ensures added { own.new.added ≡ own.old.added }
{
    place_among(own.sensors.as_mut_slice(), slots[0] as usize, slots);
}

fn place_among(sensors: &mut [Measured], index: usize, slots: &[u8])
    requires { length slots.now ≡ 9 }
    ensures { sensor_entries 0 sensors.new ≡ update (at_sensor (λ bytes. drop 1 slots.now) index) (sensor_entries 0 sensors.old) }
{
    if index < sensors.len() {
        sensors[index] = measured_in(slots);
    }
}

/// What the last eight of nine slots say of a sensor.
fn measured_in(slots: &[u8]) -> Measured
    requires { length slots.now ≡ 9 }
    ensures { measured_slots result ≡ drop 1 slots.now }
{
    match slots {
        [_, a, b, c, d, e, f, g, h] => Measured {
            present: signed_of(*a, *b),
            lowest: signed_of(*c, *d),
            highest: signed_of(*e, *f),
            recorded: signed_of(*g, *h),
        },
        _ => Measured::default(),
    }
}

/// The number that two slots say.
fn signed_of(first: u8, second: u8) -> i16
    ensures { signed_slots result ≡ first ∷ second ∷ [] }
{
    i16::from_be_bytes([first, second])
}
