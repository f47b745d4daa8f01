//! How the data of commands are laid out: the fields of parameters, a layout each.

use crate::Field;
use crate::field::{BYTE, LONG, WORD};
use rdm_device::Width;
use rdm_standard_names::Table;
use rdm_words::tables::dimmers::{IDENTIFY_MODES, MERGE_MODES};
use rdm_words::tables::settings::{
    DISPLAY_INVERSIONS, LAMP_ON_MODES, LAMP_STATES, POWER_STATES, PRESETS, RESETS, SELF_TESTS,
    SWITCHES, TRUTHS,
};

/// Which messages are wanted (table A-4).
const STATUS_TYPES: Table = Table(&[
    (0x00, "none"),
    (0x01, "get last message"),
    (0x02, "advisory"),
    (0x03, "warning"),
    (0x04, "error"),
]);

/// A sensor that isn't one alone (section 10.7.2).
const SENSORS: Table = Table(&[(0xFF, "all")]);

/// A time that is none (E1.37-1).
const ENDLESS: Table = Table(&[(0xFFFF, "without end")]);

/// A status type.
pub(crate) const STATUS_TYPE: &[Field] = &[Field::Named(Width::One, STATUS_TYPES)];

/// A PID or a status ID.
pub(crate) const AN_IDENTIFIER: &[Field] = &[Field::Identifier];

/// A number of one slot.
pub(crate) const A_BYTE: &[Field] = &[BYTE];

/// A number of two slots.
pub(crate) const A_WORD: &[Field] = &[WORD];

/// A number of four slots.
pub(crate) const A_LONG: &[Field] = &[LONG];

/// No data.
pub(crate) const NOTHING: &[Field] = &[];

/// A label (section 10.5.5).
pub(crate) const LABEL: &[Field] = &[Field::Text(32)];

/// A language.
pub(crate) const LANGUAGE: &[Field] = &[Field::Language];

/// A sensor, or all of them.
pub(crate) const SENSOR: &[Field] = &[Field::Named(Width::One, SENSORS)];

/// A preset and its level.
pub(crate) const PRESET: &[Field] = &[Field::Named(Width::Two, PRESETS), BYTE];

/// A state of a lamp.
pub(crate) const LAMP_STATE: &[Field] = &[Field::Named(Width::One, LAMP_STATES)];

/// When a lamp is switched on.
pub(crate) const LAMP_ON_MODE: &[Field] = &[Field::Named(Width::One, LAMP_ON_MODES)];

/// Whether a display is inverted.
pub(crate) const DISPLAY_INVERSION: &[Field] = &[Field::Named(Width::One, DISPLAY_INVERSIONS)];

/// Whether something is on.
pub(crate) const SWITCH: &[Field] = &[Field::Named(Width::One, SWITCHES)];

/// A power state.
pub(crate) const POWER_STATE: &[Field] = &[Field::Named(Width::One, POWER_STATES)];

/// A self test.
pub(crate) const SELF_TEST: &[Field] = &[Field::Named(Width::One, SELF_TESTS)];

/// REAL_TIME_CLOCK: year, month, day, hour, minute and second.
pub(crate) const CLOCK: &[Field] = &[WORD, BYTE, BYTE, BYTE, BYTE, BYTE];

/// RESET_DEVICE.
pub(crate) const RESET: &[Field] = &[Field::Named(Width::One, RESETS)];

/// CAPTURE_PRESET: a scene, and its up, down and wait times in tenths of a second.
pub(crate) const CAPTURE: &[Field] = &[WORD, WORD, WORD, WORD];

/// DMX_FAIL_MODE and DMX_STARTUP_MODE: a scene, delay and hold time in tenths of a second, and a level.
pub(crate) const MODE: &[Field] = &[
    WORD,
    Field::Named(Width::Two, ENDLESS),
    Field::Named(Width::Two, ENDLESS),
    BYTE,
];

/// MINIMUM_LEVEL: increasing, decreasing, and whether it is on below it.
pub(crate) const MINIMUM_LEVEL: &[Field] = &[WORD, WORD, Field::Named(Width::One, TRUTHS)];

/// LOCK_PIN: the new PIN and the one before.
pub(crate) const NEW_PIN: &[Field] = &[Field::Pin, Field::Pin];

/// LOCK_STATE: the PIN and the state.
pub(crate) const LOCK_STATE: &[Field] = &[Field::Pin, BYTE];

/// IDENTIFY_MODE.
pub(crate) const IDENTIFY_MODE: &[Field] = &[Field::Named(Width::One, IDENTIFY_MODES)];

/// PRESET_STATUS: a scene, its up, down and wait times in tenths of a second, and whether it is cleared.
pub(crate) const SCENE: &[Field] = &[WORD, WORD, WORD, WORD, Field::Named(Width::One, TRUTHS)];

/// PRESET_MERGEMODE.
pub(crate) const MERGE_MODE: &[Field] = &[Field::Named(Width::One, MERGE_MODES)];
