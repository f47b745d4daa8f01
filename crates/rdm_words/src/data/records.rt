//! The fields of parameter data, by the sections of the standard that have them.

use crate::data::form::{Field, Meaning, REST, Record, Value};
use crate::tables::settings::{PRESETS, SELF_TESTS};
use rdm_frame::standard::ALL_SENSORS;
use rdm_standard_names::Table;
use rdm_standard_names::products::PRODUCT_CATEGORIES;
use rdm_standard_names::sensors::{KEPT_VALUES, SENSOR_TYPES};

/// A text of up to 32 characters.
pub(crate) const TEXT: Record = Record::AtLeast(0, &[Field("", 0, REST, Value::Text)]);

/// An 8-bit number.
pub(crate) const NUMBER: Record = Record::Exactly(1, &[Field("", 0, 1, Value::Number)]);

/// A 32-bit number that counts.
pub(crate) const COUNT: Record = Record::Exactly(4, &[Field("", 0, 4, Value::Number)]);

/// A 32-bit version.
pub(crate) const VERSION: Record = Record::Exactly(4, &[Field("", 0, 4, Value::Digits)]);

/// What a device is (section 10.5.1).
pub(crate) const DEVICE_INFO: Record = Record::Exactly(
    19,
    &[
        Field("protocol ", 0, 1, Value::Number),
        Field(".", 1, 1, Value::Number),
        Field(", model ", 2, 2, Value::Digits),
        Field(", category ", 4, 2, Value::Code(PRODUCT_CATEGORIES)),
        Field(", software ", 6, 4, Value::Digits),
        Field(", footprint ", 10, 2, Value::Number),
        Field(", personality ", 12, 1, Value::Number),
        Field(" of ", 13, 1, Value::Number),
        Field(", ", 14, 2, Value::Counted("DMX start address ", NO_SLOTS)),
        Field(", sub-devices ", 16, 2, Value::Number),
        Field(", sensors ", 18, 1, Value::Number),
    ],
);

/// What a device is, in a few words.
pub(crate) const PRODUCT: Record = Record::AtLeast(
    6,
    &[
        Field("model ", 2, 2, Value::Digits),
        Field(", ", 4, 2, Value::Code(PRODUCT_CATEGORIES)),
    ],
);

/// The start address of a device that uses no slots, as DEVICE_INFO says it.
const NO_SLOTS: Table = Table(&[(0xFFFF, "no DMX start address")]);

/// The current personality and how many there are (section 10.6.1).
pub(crate) const PERSONALITY: Record = Record::Exactly(
    2,
    &[
        Field("personality ", 0, 1, Value::Number),
        Field(" of ", 1, 1, Value::Number),
    ],
);

/// A personality with its footprint and its text (section 10.6.2).
pub(crate) const PERSONALITY_TEXT: Record = Record::AtLeast(
    3,
    &[
        Field("personality ", 0, 1, Value::Number),
        Field(": ", 3, REST, Value::Text),
        Field(", footprint ", 1, 2, Value::Number),
    ],
);

/// A start address (section 10.6.3).
pub(crate) const START_ADDRESS: Record = Record::Exactly(
    2,
    &[Field("", 0, 2, Value::Counted("", NO_ADDRESS))],
);

/// The start address of a device that uses no slots.
const NO_ADDRESS: Table = Table(&[(0xFFFF, "none")]);

/// A slot, and what it is for (section 10.6.4).
pub(crate) const SLOT_INFO: Record = Record::Exactly(
    5,
    &[
        Field("slot ", 0, 2, Value::Number),
        Field(": ", 2, 3, Value::Other(Meaning::SlotUse)),
    ],
);

/// The number of a slot.
pub(crate) const SLOT: Record = Record::Exactly(2, &[Field("slot ", 0, 2, Value::Number)]);

/// A slot with its text (section 10.6.5).
pub(crate) const SLOT_TEXT: Record = Record::AtLeast(
    2,
    &[
        Field("slot ", 0, 2, Value::Number),
        Field(": ", 2, REST, Value::Text),
    ],
);

/// A slot with its default value (section 10.6.6).
pub(crate) const SLOT_DEFAULT: Record = Record::Exactly(
    3,
    &[
        Field("slot ", 0, 2, Value::Number),
        Field(": default value ", 2, 1, Value::Number),
    ],
);

/// The number of a sensor, or all of them (sections 10.7.1 to 10.7.3).
pub(crate) const SENSOR: Record = Record::Exactly(
    1,
    &[Field("", 0, 1, Value::Counted("sensor ", EVERY_SENSOR))],
);

/// The number that stands for all sensors.
const EVERY_SENSOR: Table = Table(&[(ALL_SENSORS as u32, "all sensors")]);

/// What a sensor measures (section 10.7.1).
pub(crate) const SENSOR_DEFINITION: Record = Record::AtLeast(
    13,
    &[
        Field("sensor ", 0, 1, Value::Number),
        Field(": ", 13, REST, Value::Text),
        Field(", ", 1, 1, Value::Code(SENSOR_TYPES)),
        Field(", range ", 4, 4, Value::Other(Meaning::Range)),
        Field(", normal ", 8, 4, Value::Other(Meaning::Range)),
        Field(", unit ", 2, 2, Value::Other(Meaning::Unit)),
        Field(", ", 12, 1, Value::Code(KEPT_VALUES)),
    ],
);

/// What a sensor is called.
pub(crate) const SENSOR_NAME: Record = Record::AtLeast(
    13,
    &[
        Field("sensor ", 0, 1, Value::Number),
        Field(": ", 13, REST, Value::Text),
    ],
);

/// What a sensor has measured (section 10.7.2).
pub(crate) const SENSOR_VALUE: Record = Record::Exactly(
    9,
    &[
        Field("", 0, 1, Value::Counted("sensor ", EVERY_SENSOR)),
        Field(": ", 0, 3, Value::Other(Meaning::Measured)),
        Field(", lowest ", 3, 2, Value::Other(Meaning::Signed)),
        Field(", highest ", 5, 2, Value::Other(Meaning::Signed)),
        Field(", recorded ", 7, 2, Value::Other(Meaning::Signed)),
    ],
);

/// The same of a sensor that says no lowest and highest value.
pub(crate) const SENSOR_RECORDED: Record = Record::Exactly(
    5,
    &[
        Field("", 0, 1, Value::Counted("sensor ", EVERY_SENSOR)),
        Field(": ", 0, 3, Value::Other(Meaning::Measured)),
        Field(", recorded ", 3, 2, Value::Other(Meaning::Signed)),
    ],
);

/// The same of a sensor that says no recorded value.
pub(crate) const SENSOR_EXTREMES: Record = Record::Exactly(
    7,
    &[
        Field("", 0, 1, Value::Counted("sensor ", EVERY_SENSOR)),
        Field(": ", 0, 3, Value::Other(Meaning::Measured)),
        Field(", lowest ", 3, 2, Value::Other(Meaning::Signed)),
        Field(", highest ", 5, 2, Value::Other(Meaning::Signed)),
    ],
);

/// The number of a self test, none or all of them (section 10.11).
pub(crate) const SELF_TEST: Record = Record::Exactly(
    1,
    &[Field("self test ", 0, 1, Value::Counted("", SELF_TESTS))],
);

/// A self test with its text (section 10.11).
pub(crate) const SELF_TEST_TEXT: Record = Record::AtLeast(
    1,
    &[
        Field("self test ", 0, 1, Value::Number),
        Field(": ", 1, REST, Value::Text),
    ],
);

/// A preset and its level (section 10.11).
pub(crate) const PRESET: Record = Record::Exactly(
    3,
    &[
        Field("preset playback ", 0, 2, Value::Counted("scene ", PRESETS)),
        Field(", level ", 2, 1, Value::Number),
    ],
);

/// A parameter that is supported (section 10.4.1).
pub(crate) const SUPPORTED: Record = Record::Exactly(
    2,
    &[Field("supports ", 0, 2, Value::Other(Meaning::Parameter))],
);

/// A status message: how bad it is, what it is, and where (section 10.3.2).
pub(crate) const STATUS: Record = Record::Exactly(
    9,
    &[
        Field("status: ", 2, 7, Value::Other(Meaning::Failure)),
        Field(", ", 0, 2, Value::Other(Meaning::Place)),
    ],
);

/// A status ID that a controller asks about (section 10.3.3).
pub(crate) const STATUS_ID: Record = Record::Exactly(
    2,
    &[Field("status ID ", 0, 2, Value::Other(Meaning::StatusId))],
);

/// Between which UIDs devices are looked for (section 7.5).
pub(crate) const BRANCH: Record = Record::Exactly(
    12,
    &[
        Field("from ", 0, 6, Value::Other(Meaning::Uid)),
        Field(" to ", 6, 6, Value::Other(Meaning::Uid)),
    ],
);

/// What a device says of itself that is muted, or no longer: its control field (section 7.6).
pub(crate) const MUTED: Record = Record::Exactly(
    2,
    &[Field("control field ", 0, 2, Value::Other(Meaning::Control))],
);

/// The same of a device that has several ports: the UID that they all are bound to follows.
pub(crate) const MUTED_PORT: Record = Record::Exactly(
    8,
    &[
        Field("control field ", 0, 2, Value::Other(Meaning::Control)),
        Field(", binding UID ", 2, 6, Value::Other(Meaning::Uid)),
    ],
);
