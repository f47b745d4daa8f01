//! What SENSOR_DEFINITION and SENSOR_VALUE tell (E1.20 sections 10.7.1 and 10.7.2).

ghost use Rattle.std.specs.Prelude.{◌≡◌, ◌+◌, ◌≤◌, drop, length};
ghost use Rattle.rdm_health.specs.Sensors.{definition_in, keeps_extremes, records, signed_at, value_in};

use rdm_frame::Text;

/// How many slots stand before the description of a sensor.
const SLOTS_BEFORE: usize = 13;

/// How many slots a definition has at most.
const MOST_SLOTS: usize = SLOTS_BEFORE + 32;

/// How many slots a value has.
const VALUE_SLOTS: usize = 9;

/// How many it has without the recorded value.
const SLOTS_UNRECORDED: usize = 7;

/// How many it has without the lowest and the highest value.
const SLOTS_WITHOUT_EXTREMES: usize = 5;

/// What a fixture answers to SENSOR_DEFINITION (E1.20 section 10.7.1). All values are in the unit with the prefix, as -3 mV.
#[derive(Debug, Drop, PartialEq, Eq)]
pub struct SensorDefinition {
    /// The number of the sensor, from 0.
    pub number: u8,
    /// What it measures (table A-12).
    pub kind: u8,
    /// The unit (table A-13).
    pub unit: u8,
    /// The prefix of the unit (table A-14).
    pub prefix: u8,
    /// The least value that it can measure, or -32768 if that isn't defined.
    pub lowest: i16,
    /// The greatest value that it can measure, or 32767 if that isn't defined.
    pub highest: i16,
    /// The least value that is normal, or -32768 if that isn't defined.
    pub normal_lowest: i16,
    /// The greatest value that is normal, or 32767 if that isn't defined.
    pub normal_highest: i16,
    /// Whether it keeps the lowest and the highest value.
    pub keeps_extremes: bool,
    /// Whether it keeps a recorded value.
    pub keeps_recorded: bool,
    /// What it is called.
    pub description: Text,
}

/// What a fixture answers to SENSOR_VALUE (E1.20 section 10.7.2), in the unit of the definition. What the sensor doesn't keep is 0 or is
/// left out.
#[derive(Clone, Copy, Debug, PartialEq, Eq)]
pub struct SensorValue {
    /// The number of the sensor.
    pub number: u8,
    /// What it measures now.
    pub present: i16,
    /// The lowest value so far.
    pub lowest: Option<i16>,
    /// The highest value so far.
    pub highest: Option<i16>,
    /// The recorded value.
    pub recorded: Option<i16>,
}

impl SensorDefinition {
    /// What the parameter data of a reply to SENSOR_DEFINITION tell, or `None` if they aren't 13 slots and a text of at most 32.
    pub fn of(slots: &[u8]) -> Option<SensorDefinition>
        ensures { result ≡ definition_in slots.now }
    {
        if slots.len() < SLOTS_BEFORE || MOST_SLOTS < slots.len() {
            return None;
        }
        Some(SensorDefinition {
            number: slots[0],
            kind: slots[1],
            unit: slots[2],
            prefix: slots[3],
            lowest: signed_at(slots, 4),
            highest: signed_at(slots, 6),
            normal_lowest: signed_at(slots, 8),
            normal_highest: signed_at(slots, 10),
            keeps_extremes: keeps_extremes(slots[12]),
            keeps_recorded: records(slots[12]),
            description: description_in(slots),
        })
    }
}

impl SensorValue {
    /// What the parameter data of a reply to SENSOR_VALUE tell, or `None` if they aren't nine slots, nor seven or five without what is left
    /// out: the recorded value, or the lowest and the highest.
    pub fn of(slots: &[u8]) -> Option<SensorValue>
        ensures { result ≡ value_in slots.now }
    {
        let (lowest, highest, recorded) = match slots.len() {
            VALUE_SLOTS => (
                Some(signed_at(slots, 3)),
                Some(signed_at(slots, 5)),
                Some(signed_at(slots, 7)),
            ),
            SLOTS_UNRECORDED => (Some(signed_at(slots, 3)), Some(signed_at(slots, 5)), None),
            SLOTS_WITHOUT_EXTREMES => (None, None, Some(signed_at(slots, 3))),
            _ => return None,
        };
        Some(SensorValue {
            number: slots[0],
            present: signed_at(slots, 1),
            lowest,
            highest,
            recorded,
        })
    }
}

/// What a sensor is called: the text behind the other slots of its definition.
#[tactic(auto, using(crate::proofs::Slices::rest_of))]
fn description_in(slots: &[u8]) -> Text
    requires { (13 ≤ length slots.now) × (length slots.now ≤ 45) }
    ensures { result ≡ drop 13 slots.now }
{
    Text::of(&slots[SLOTS_BEFORE..])
}

/// The number with a sign in two slots.
fn signed_at(slots: &[u8], place: usize) -> i16
    requires { place + 2 ≤ length slots.now }
    ensures { result ≡ signed_at slots.now place }
{
    i16::from_be_bytes([slots[place], slots[place + 1]])
}

/// Whether a sensor that supports this records a value: bit 0.
fn records(support: u8) -> bool
    ensures { result ≡ records support }
{
    support % 2 == 1
}

/// Whether it keeps the lowest and the highest value: bit 1.
fn keeps_extremes(support: u8) -> bool
    ensures { result ≡ keeps_extremes support }
{
    support / 2 % 2 == 1
}
