//! What a fixture shows when it is switched on.

ghost use Rattle.std.specs.Prelude.{◌≡◌, IfErr};
ghost use Rattle.rdm_fixture_keys.specs.Faults.{told};
ghost use Rattle.rdm_fixture.specs.FirstWrong as parts;
ghost use Rattle.rdm_fixture_keys.specs.Keys.{Reads};
ghost use Rattle.rdm_fixture.specs.Starting as says;
ghost use Rattle.rdm_fixture.specs.Starting.{IsStarting, SaysPresent};
ghost use Rattle.rdm_fixture_keys.specs.Wrong.{FirstWrong};
ghost use Rattle.toml.specs.View.{table_view};

use crate::courses::no_courses;
use crate::lists::{FromEntry, list};
use arrayvec::ArrayVec;
use rdm_courses::{Course, Notice};
use rdm_device::SensorDef;
use rdm_fixture_keys::Refusal;
use rdm_fixture_keys::keys::{find, number_or, signed_in};
use toml::Table;

/// The values with which a device is switched on, beside those of its profile.
#[derive(Debug, Drop, PartialEq, Eq)]
pub struct Starting {
    /// What DEVICE_HOURS shows (E1.20 section 10.8.1).
    pub device_hours: u32,
    /// What LAMP_HOURS shows (section 10.8.2).
    pub lamp_hours: u32,
    /// What LAMP_STRIKES shows (section 10.8.3).
    pub lamp_strikes: u32,
    /// What DEVICE_POWER_CYCLES shows (section 10.8.6).
    pub device_power_cycles: u32,
    /// What each sensor has measured, in their order: nothing, where there is none (section 10.7.2).
    pub presents: ArrayVec<Option<i16>, 8>,
    /// What each sensor shows over time, in their order: no points, where nothing is said of it.
    pub courses: ArrayVec<Course, 8>,
    /// The status messages that come by themselves (section 10.3.2).
    pub notices: ArrayVec<Notice, 16>,
}

impl Starting {
    /// Counters that show 0, and sensors that have measured nothing.
    pub fn nothing(sensors: &ArrayVec<SensorDef, 8>) -> Starting
        ensures { result ≡ says.nothing_measured sensors.now.items }
    {
        let mut presents = ArrayVec::new();
        for _sensor in sensors.iter() {
            presents.push(None);
        }
        Starting {
            device_hours: 0,
            lamp_hours: 0,
            lamp_strikes: 0,
            device_power_cycles: 0,
            presents,
            courses: no_courses(sensors),
            notices: ArrayVec::new(),
        }
    }
}

/// The data that place what a sensor of this number has measured, with nothing recorded: as SENSOR_VALUE replies (E1.20 section 10.7.2).
pub fn shown_at_start(number: u8, present: i16, sensor: &SensorDef) -> [u8; 9]
    ensures { result ≡ says.shown_at_start number present sensor.now.support }
{
    let [high, low] = present.to_be_bytes();
    let [most, least] = ends_at_start(present, sensor.support);
    [number, high, low, most, least, most, least, 0, 0]
}

/// The lowest and the highest value, if the sensor keeps them.
fn ends_at_start(present: i16, support: u8) -> [u8; 2]
    ensures { result ≡ says.ends_at_start present support }
{
    if support / 2 % 2 == 1 {
        present.to_be_bytes()
    } else {
        [0, 0]
    }
}

impl FromEntry for Option<i16> {
    ghost says = { λ _. SaysPresent };

    ghost wrong = { λ _. FirstWrong parts.present_parts };

    fn from_entry(table: &Table, _slots: u16) -> Result<Option<i16>, Refusal> {
        match find(table, "present") {
            Some(value) => match signed_in(value, "present") {
                Ok(present) => Ok(Some(present)),
                Err(refusal) => Err(refusal),
            },
            None => Ok(None),
        }
    }
}

/// What the counters and the sensors show at the start: 0, where the table says nothing of it.
pub(crate) fn values_at_start(table: &Table) -> Result<Starting, Refusal>
    ensures read { Reads IsStarting (table_view table.now) result }
    ensures wrong { IfErr result (λ e. FirstWrong parts.starting_parts (table_view table.now) (told e)) }
{
    Ok(Starting {
        device_hours: number_or(table, "device_hours", 0, 0, 0xFFFF_FFFF)?,
        lamp_hours: number_or(table, "lamp_hours", 0, 0, 0xFFFF_FFFF)?,
        lamp_strikes: number_or(table, "lamp_strikes", 0, 0, 0xFFFF_FFFF)?,
        device_power_cycles: number_or(table, "device_power_cycles", 0, 0, 0xFFFF_FFFF)?,
        presents: list(table, "sensor", 0, 0)?,
        courses: list(table, "sensor", 0, 0)?,
        notices: list(table, "status_message", 0, 0)?,
    })
}
