//! The data of the standards' parameters that a fixture can add to the table, by their fields (E1.20 and E1.37-1).

use crate::data::form::{Field, Meaning, Record, Value};
use crate::frame::class::Class;
use crate::tables::dimmers::{IDENTIFY_MODES, MERGE_MODES, NO_BLOCK, SCENES};
use crate::tables::settings::{RESETS, SWITCHES, TRUTHS};
use rdm_standard_names::Table;

/// The fields of the data of a parameter, in frames of this class, if it is one of these.
pub(crate) fn fields_of(class: Class, pid: u16) -> Option<Record> {
    match class {
        Class::Get => record_in(ASKED, pid),
        Class::GetResponse => match record_in(TOLD, pid) {
            Some(record) => Some(record),
            None => record_in(BOTH, pid),
        },
        Class::Set => match record_in(SET, pid) {
            Some(record) => Some(record),
            None => record_in(BOTH, pid),
        },
        _ => None,
    }
}

/// The fields of a parameter in a table.
fn record_in(table: &[(u16, Record)], pid: u16) -> Option<Record> {
    for row in table {
        if row.0 == pid {
            return Some(row.1);
        }
    }
    None
}

/// What a GET asks with.
const ASKED: &[(u16, Record)] = &[(0x1042, SCENE_NUMBER)];

/// What a GET is told.
const TOLD: &[(u16, Record)] = &[
    (0x0011, PROXIED_COUNT),
    (0x0015, COMMS_STATUS),
    (0x0140, BLOCK),
    (0x0340, DIMMER_INFO),
    (0x0640, PIN),
    (0x0641, LOCK_STATE),
    (0x1041, PRESET_INFO),
    (0x1042, SCENE),
];

/// What a SET hands in.
const SET: &[(u16, Record)] = &[
    (0x0140, BASE_ADDRESS),
    (0x0640, NEW_PIN),
    (0x0641, NEW_LOCK_STATE),
    (0x1001, RESET),
    (0x1030, CAPTURE),
    (0x1042, NEW_SCENE),
];

/// What a GET is told and a SET hands in.
const BOTH: &[(u16, Record)] = &[
    (0x0141, MODE),
    (0x0142, MODE),
    (0x0341, MINIMUM_LEVEL),
    (0x0342, LEVEL),
    (0x0440, HOURS),
    (0x0603, CLOCK),
    (0x1040, IDENTIFY_MODE),
    (0x1043, MERGE_MODE),
    (0x1044, SWITCH),
];

/// PROXIED_DEVICE_COUNT.
const PROXIED_COUNT: Record = Record::Exactly(
    3,
    &[
        Field("proxied devices ", 0, 2, Value::Number),
        Field(", list changed ", 2, 1, Value::Code(TRUTHS)),
    ],
);

/// COMMS_STATUS: what was heard and wasn't understood.
const COMMS_STATUS: Record = Record::Exactly(
    6,
    &[
        Field("short messages ", 0, 2, Value::Number),
        Field(", wrong lengths ", 2, 2, Value::Number),
        Field(", wrong checksums ", 4, 2, Value::Number),
    ],
);

/// DMX_BLOCK_ADDRESS: the slots of all sub-devices together.
const BLOCK: Record = Record::Exactly(
    4,
    &[
        Field("footprint ", 0, 2, Value::Number),
        Field(", base address ", 2, 2, Value::Counted("", NO_BLOCK)),
    ],
);

/// Where they are to begin.
const BASE_ADDRESS: Record = Record::Exactly(2, &[Field("base address ", 0, 2, Value::Number)]);

/// DMX_FAIL_MODE and DMX_STARTUP_MODE.
const MODE: Record = Record::Exactly(
    7,
    &[
        Field("", 0, 2, Value::Other(Meaning::ModeScene)),
        Field(", delay ", 2, 2, Value::Other(Meaning::Endless)),
        Field(", hold time ", 4, 2, Value::Other(Meaning::Endless)),
        Field(", level ", 6, 1, Value::Number),
    ],
);

/// DIMMER_INFO.
const DIMMER_INFO: Record = Record::Exactly(
    11,
    &[
        Field("minimum level ", 0, 2, Value::Number),
        Field(" to ", 2, 2, Value::Number),
        Field(", maximum level ", 4, 2, Value::Number),
        Field(" to ", 6, 2, Value::Number),
        Field(", curves ", 8, 1, Value::Number),
        Field(", bits ", 9, 1, Value::Number),
        Field(", split levels ", 10, 1, Value::Code(TRUTHS)),
    ],
);

/// MINIMUM_LEVEL.
const MINIMUM_LEVEL: Record = Record::Exactly(
    5,
    &[
        Field("increasing ", 0, 2, Value::Number),
        Field(", decreasing ", 2, 2, Value::Number),
        Field(", on below it ", 4, 1, Value::Code(TRUTHS)),
    ],
);

/// MAXIMUM_LEVEL.
const LEVEL: Record = Record::Exactly(2, &[Field("level ", 0, 2, Value::Number)]);

/// BURN_IN.
const HOURS: Record = Record::Exactly(1, &[Field("hours ", 0, 1, Value::Number)]);

/// REAL_TIME_CLOCK.
const CLOCK: Record = Record::Exactly(7, &[Field("", 0, 7, Value::Other(Meaning::Clock))]);

/// LOCK_PIN.
const PIN: Record = Record::Exactly(2, &[Field("PIN ", 0, 2, Value::Other(Meaning::Pin))]);

const NEW_PIN: Record = Record::Exactly(
    4,
    &[
        Field("new PIN ", 0, 2, Value::Other(Meaning::Pin)),
        Field(", PIN ", 2, 2, Value::Other(Meaning::Pin)),
    ],
);

/// LOCK_STATE.
const LOCK_STATE: Record = Record::Exactly(
    2,
    &[
        Field("lock state ", 0, 1, Value::Number),
        Field(" of ", 1, 1, Value::Number),
        Field("", 0, 1, Value::Other(Meaning::LockName)),
    ],
);

const NEW_LOCK_STATE: Record = Record::Exactly(
    3,
    &[
        Field("PIN ", 0, 2, Value::Other(Meaning::Pin)),
        Field(", lock state ", 2, 1, Value::Number),
        Field("", 2, 1, Value::Other(Meaning::LockName)),
    ],
);

/// RESET_DEVICE.
const RESET: Record = Record::Exactly(1, &[Field("reset ", 0, 1, Value::Code(RESETS))]);

/// CAPTURE_PRESET.
const CAPTURE: Record = Record::Exactly(
    8,
    &[
        Field("scene ", 0, 2, Value::Number),
        Field(", up ", 2, 2, Value::Other(Meaning::Tenths)),
        Field(", down ", 4, 2, Value::Other(Meaning::Tenths)),
        Field(", wait ", 6, 2, Value::Other(Meaning::Tenths)),
    ],
);

/// IDENTIFY_MODE.
const IDENTIFY_MODE: Record = Record::Exactly(1, &[Field("", 0, 1, Value::Code(IDENTIFY_MODES))]);

/// PRESET_INFO.
const PRESET_INFO: Record = Record::Exactly(
    32,
    &[
        Field("level field ", 0, 1, Value::Code(TRUTHS)),
        Field(", sequence ", 1, 1, Value::Code(TRUTHS)),
        Field(", split times ", 2, 1, Value::Code(TRUTHS)),
        Field(", endless fail delay ", 3, 1, Value::Code(TRUTHS)),
        Field(", endless fail hold ", 4, 1, Value::Code(TRUTHS)),
        Field(", endless startup hold ", 5, 1, Value::Code(TRUTHS)),
        Field(", scenes ", 6, 2, Value::Number),
        Field(", fade ", 8, 4, Value::Other(Meaning::Times)),
        Field(", wait ", 12, 4, Value::Other(Meaning::Times)),
        Field(", fail delay ", 16, 4, Value::Other(Meaning::Times)),
        Field(", fail hold ", 20, 4, Value::Other(Meaning::Times)),
        Field(", startup delay ", 24, 4, Value::Other(Meaning::Times)),
        Field(", startup hold ", 28, 4, Value::Other(Meaning::Times)),
    ],
);

/// PRESET_STATUS.
const SCENE_NUMBER: Record = Record::Exactly(2, &[Field("scene ", 0, 2, Value::Number)]);

const SCENE: Record = Record::Exactly(
    9,
    &[
        Field("scene ", 0, 2, Value::Number),
        Field(", up ", 2, 2, Value::Other(Meaning::Tenths)),
        Field(", down ", 4, 2, Value::Other(Meaning::Tenths)),
        Field(", wait ", 6, 2, Value::Other(Meaning::Tenths)),
        Field(", ", 8, 1, Value::Code(SCENES)),
    ],
);

const NEW_SCENE: Record = Record::Exactly(
    9,
    &[
        Field("scene ", 0, 2, Value::Number),
        Field(", up ", 2, 2, Value::Other(Meaning::Tenths)),
        Field(", down ", 4, 2, Value::Other(Meaning::Tenths)),
        Field(", wait ", 6, 2, Value::Other(Meaning::Tenths)),
        Field(", clear ", 8, 1, Value::Code(TRUTHS)),
    ],
);

/// PRESET_MERGEMODE.
const MERGE_MODE: Record = Record::Exactly(1, &[Field("", 0, 1, Value::Code(MERGE_MODES))]);

/// POWER_ON_SELF_TEST.
const SWITCH: Record = Record::Exactly(1, &[Field("", 0, 1, Value::Code(SWITCHES))]);
