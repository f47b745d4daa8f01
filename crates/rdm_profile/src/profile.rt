//! What a device is made with: its texts, personalities, slots, sensors and tests.

mod blank;
pub(crate) mod choices;
mod demo;
mod described;
pub(crate) mod estimates;
pub(crate) mod fields;
pub(crate) mod left_out;
pub(crate) mod locks;
mod making;
pub(crate) mod modes;
pub(crate) mod mute_reply;
pub(crate) mod own;
pub(crate) mod particulars;
pub(crate) mod workers;

ghost use Rattle.std.specs.Prelude.{◌≡◌};

use crate::{Particulars, Workers};
use arrayvec::ArrayVec;
use rdm_frame::Text;

/// One way in which a device uses its DMX512 slots (E1.20 section 10.6.1).
#[derive(Debug, Drop, PartialEq, Eq)]
pub struct Personality {
    /// How many slots it uses.
    pub footprint: u16,
    /// What the personality is called.
    pub name: Text,
}

/// What a DMX512 slot is for (sections 10.6.4 to 10.6.6).
#[derive(Debug, Drop, PartialEq, Eq)]
pub struct Slot {
    /// The slot type.
    pub kind: u8,
    /// The slot label ID.
    pub label: u16,
    /// The value of the slot when none is received.
    pub value: u8,
    /// What the slot is called.
    pub name: Text,
}

/// What a sensor measures (section 10.7.1).
#[derive(Debug, Drop, PartialEq, Eq)]
pub struct SensorDef {
    /// The sensor type.
    pub kind: u8,
    /// The unit of its values.
    pub unit: u8,
    /// The prefix of the unit.
    pub prefix: u8,
    /// The least value that it can give.
    pub low: i16,
    /// The greatest value that it can give.
    pub high: i16,
    /// The least value in normal use.
    pub normal_low: i16,
    /// The greatest value in normal use.
    pub normal_high: i16,
    /// Which of the recorded, lowest and highest values it supports.
    pub support: u8,
    /// Whether SENSOR_VALUE is answered at once with what the firmware placed last, and no job measures (section 10.7.2).
    pub at_once: bool,
    /// What the sensor is called.
    pub name: Text,
}

impl SensorDef {
    /// The same definition again.
    pub fn copy(&self) -> SensorDef
        ensures { result ≡ self.now }
    {
        SensorDef {
            kind: self.kind,
            unit: self.unit,
            prefix: self.prefix,
            low: self.low,
            high: self.high,
            normal_low: self.normal_low,
            normal_high: self.normal_high,
            support: self.support,
            at_once: self.at_once,
            name: self.name.copy(),
        }
    }
}

/// A self test that the device can perform (section 10.11).
#[derive(Debug, Drop, PartialEq, Eq)]
pub struct SelfTest {
    /// The number of the test: neither 0 nor 255.
    pub number: u8,
    /// What the test is called.
    pub name: Text,
}

/// What a status ID means (section 10.3.3).
#[derive(Debug, Drop, PartialEq, Eq)]
pub struct StatusText {
    /// The status ID.
    pub id: u16,
    /// Its meaning.
    pub text: Text,
}

/// What the root device and a sub-device each have (section 9).
#[derive(Debug, Drop, PartialEq, Eq)]
pub struct Unit {
    /// The model ID (section 10.5.1).
    pub model: u16,
    /// The product category (section 10.5.1).
    pub category: u16,
    /// The software version ID (section 10.5.1).
    pub software: u32,
    /// What the model is called (section 10.5.3).
    pub model_text: Text,
    /// What the manufacturer is called (section 10.5.4).
    pub maker_text: Text,
    /// The label that the device starts with (section 10.5.5).
    pub label: Text,
    /// What the software version is called (section 10.5.9).
    pub software_text: Text,
    /// The personalities, of which the first is number 1 (section 10.6.1).
    pub personalities: ArrayVec<Personality, 8>,
    /// The DMX512 start address that the device starts with (section 10.6.3).
    pub start: u16,
}

/// What a root device and its sub-devices are made with.
// The numbers of 16 bits and fewer stand side by side, so that none leaves a gap: on a small machine each byte counts.
#[derive(Debug, Drop, PartialEq, Eq)]
pub struct Profile {
    /// The root device.
    pub root: Unit,
    /// What each sub-device starts as.
    pub sub: Unit,
    /// How many sub-devices there are.
    pub subs: u16,
    /// How many presets there are (section 10.11).
    pub presets: u16,
    /// Which of the two workers carries out its slow commands.
    pub workers: Workers,
    /// The boot software version ID (section 10.5.10).
    pub boot: u32,
    /// What the boot software version is called (section 10.5.11).
    pub boot_text: Text,
    /// The language codes, each of two letters (section 10.5.7). The device starts with the first.
    pub languages: ArrayVec<u16, 8>,
    /// The DMX512 slots of the root device (section 10.6.4).
    pub slots: ArrayVec<Slot, 46>,
    /// The sensors of the root device (section 10.7).
    pub sensors: ArrayVec<SensorDef, 8>,
    /// The self tests of the root device (section 10.11).
    pub tests: ArrayVec<SelfTest, 8>,
    /// The status IDs of the device (section 10.3.3).
    pub status_texts: ArrayVec<StatusText, 8>,
    /// What sets it apart from a device that has the standard's parameters as the table has them.
    pub particulars: Particulars,
}
