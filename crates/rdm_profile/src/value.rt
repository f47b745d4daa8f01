//! The values of parameters, and the bytes that stand for them.

pub(crate) mod argument;
pub(crate) mod writing;

use crate::SensorDef;
use rdm_frame::{Body, Text};

/// What the parameter data of a command or of a reply says (E1.20 section 6.2.10).
#[derive(Debug, Drop, PartialEq, Eq)]
pub enum Value {
    /// No data.
    Nothing,
    /// An 8-bit number.
    Byte(u8),
    /// A 16-bit number, or a language code of two letters.
    Word(u16),
    /// A 32-bit number.
    Long(u32),
    /// Two 8-bit numbers.
    Pair(u8, u8),
    /// A text.
    Label(Text),
    /// A preset and its level (section 10.11).
    Preset {
        /// The number of the preset, or 0 or 65535.
        mode: u16,
        /// The level.
        level: u8,
    },
    /// A number and what it is called.
    Named {
        /// The number.
        number: u8,
        /// What it is called.
        name: Text,
    },
    /// A slot and what it is called (section 10.6.5).
    SlotName {
        /// The offset of the slot.
        offset: u16,
        /// What it is called.
        name: Text,
    },
    /// A personality (section 10.6.2).
    Mode {
        /// The number of the personality, from 1.
        number: u8,
        /// How many slots it uses.
        footprint: u16,
        /// What it is called.
        name: Text,
    },
    /// What a sensor measured (section 10.7.2).
    Reading {
        /// The number of the sensor.
        number: u8,
        /// The present value.
        present: i16,
        /// The lowest value so far.
        lowest: i16,
        /// The highest value so far.
        highest: i16,
        /// The recorded value.
        recorded: i16,
    },
    /// What a sensor measures (section 10.7.1).
    Sensor {
        /// The number of the sensor.
        number: u8,
        /// What it measures.
        def: SensorDef,
    },
    /// What a device is (section 10.5.1).
    Info {
        /// The protocol version.
        protocol: u16,
        /// The model ID.
        model: u16,
        /// The product category.
        category: u16,
        /// The software version ID.
        software: u32,
        /// How many slots the current personality uses.
        footprint: u16,
        /// The number of the current personality.
        personality: u8,
        /// How many personalities there are.
        personalities: u8,
        /// The DMX512 start address.
        start: u16,
        /// How many sub-devices there are.
        subs: u16,
        /// How many sensors there are.
        sensors: u8,
    },
    /// A list, as its bytes.
    Block(Body),
}
