//! The fields of what a GET is replied (E1.20 section 10, E1.37-1).

use crate::Field;
use crate::field::{BYTE, LONG, WORD};
use crate::layouts::{A_BYTE, A_LONG, A_WORD, LABEL};
use crate::table::fields_of;
use rdm_device::Width;
use rdm_params::Verb;
use std::alloc::{AllocError, Global};

/// A number of two slots with a sign.
const MEASURED: Field = Field::Signed(Width::Two);

/// A text of at most 32 characters.
const TEXT: Field = Field::Text(32);

/// DEVICE_INFO: the version of the protocol, the model, the product category, the software version, the footprint, the personality and how
/// many there are, the start address, and the numbers of sub-devices and of sensors (section 10.5.1).
const DEVICE: &[Field] = &[
    BYTE, BYTE, WORD, WORD, LONG, WORD, BYTE, BYTE, WORD, WORD, BYTE,
];

/// SENSOR_DEFINITION: the number, the type, the unit, its prefix, the range, the normal range, which values are kept, and the text
/// (section 10.7.1).
const SENSOR: &[Field] = &[
    BYTE, BYTE, BYTE, BYTE, MEASURED, MEASURED, MEASURED, MEASURED, BYTE, TEXT,
];

/// SENSOR_VALUE: the number, and the present, the lowest, the highest and the recorded value (section 10.7.2).
const READING: &[Field] = &[BYTE, MEASURED, MEASURED, MEASURED, MEASURED];

/// DIMMER_INFO: the lower and the upper limits of both levels, the curves, the bits, and whether the minimum levels are apart.
const DIMMER: &[Field] = &[WORD, WORD, WORD, WORD, BYTE, BYTE, BYTE];

/// COMMS_STATUS: short messages, wrong lengths and wrong checksums (section 10.2.1).
const COUNTS: &[Field] = &[WORD, WORD, WORD];

/// DMX_PERSONALITY_DESCRIPTION: the number, the footprint and the text (section 10.6.2).
const PERSONALITY: &[Field] = &[BYTE, WORD, TEXT];

/// SLOT_DESCRIPTION: the slot and the text (section 10.6.5).
const SLOT: &[Field] = &[WORD, TEXT];

/// A number and its text.
const NAMED_NUMBER: &[Field] = &[BYTE, TEXT];

/// DMX_BLOCK_ADDRESS: the slots of all sub-devices, and where they begin.
const BLOCK: &[Field] = &[WORD, WORD];

/// MODULATION_FREQUENCY_DESCRIPTION: the number, the frequency in hertz and the text.
const FREQUENCY: &[Field] = &[BYTE, LONG, TEXT];

/// The current one, and how many there are.
const ONE_OF_MANY: &[Field] = &[BYTE, BYTE];

/// The fields of the data that a GET of a parameter is replied in so many slots, or `None` if the standards have no such parameter, or if it
/// is a list of entries of several fields. Where a GET reads what a SET writes, they are the fields of the SET.
pub fn fields_replied(
    alloc: Global,
    pid: u16,
    slots: usize,
) -> Result<Option<Vec<Field>>, AllocError> {
    match pid {
        // SUPPORTED_PARAMETERS.
        0x0050 => Ok(Some(vec![in alloc; Field::Identifier; slots / 2]?)),
        // LANGUAGE_CAPABILITIES.
        0x00A0 => Ok(Some(vec![in alloc; Field::Language; slots / 2]?)),
        _ => match fixed(pid) {
            Some(fields) => Ok(Some(Vec::from_slice(alloc, fields)?)),
            None => Ok(None),
        },
    }
}

/// The same, if their number doesn't depend on the data.
fn fixed(pid: u16) -> Option<&'static [Field]> {
    match replied_alone(pid) {
        Some(fields) => Some(fields),
        None => dimmer_replied(pid),
    }
}

/// The same of E1.20, where a SET takes something else, or there is no SET.
fn replied_alone(pid: u16) -> Option<&'static [Field]> {
    match pid {
        // STATUS_ID_DESCRIPTION, DEVICE_MODEL_DESCRIPTION, MANUFACTURER_LABEL, SOFTWARE_VERSION_LABEL, BOOT_SOFTWARE_VERSION_LABEL.
        0x0031 | 0x0080 | 0x0081 | 0x00C0 | 0x00C2 => Some(LABEL),
        // COMMS_STATUS.
        0x0015 => Some(COUNTS),
        // DEVICE_INFO.
        0x0060 => Some(DEVICE),
        // FACTORY_DEFAULTS, PERFORM_SELFTEST.
        0x0090 | 0x1020 => Some(A_BYTE),
        // BOOT_SOFTWARE_VERSION_ID.
        0x00C1 => Some(A_LONG),
        // DMX_PERSONALITY.
        0x00E0 => Some(ONE_OF_MANY),
        // DMX_PERSONALITY_DESCRIPTION.
        0x00E1 => Some(PERSONALITY),
        // SLOT_DESCRIPTION.
        0x0121 => Some(SLOT),
        // SENSOR_DEFINITION, SENSOR_VALUE.
        0x0200 => Some(SENSOR),
        0x0201 => Some(READING),
        // SELF_TEST_DESCRIPTION.
        0x1021 => Some(NAMED_NUMBER),
        _ => None,
    }
}

/// The same of E1.37-1, and of what a SET writes as a GET reads it.
fn dimmer_replied(pid: u16) -> Option<&'static [Field]> {
    match pid {
        // DMX_BLOCK_ADDRESS.
        0x0140 => Some(BLOCK),
        // DIMMER_INFO.
        0x0340 => Some(DIMMER),
        // CURVE, OUTPUT_RESPONSE_TIME, MODULATION_FREQUENCY, LOCK_STATE.
        0x0343 | 0x0345 | 0x0347 | 0x0641 => Some(ONE_OF_MANY),
        // CURVE_DESCRIPTION, OUTPUT_RESPONSE_TIME_DESCRIPTION, LOCK_STATE_DESCRIPTION.
        0x0344 | 0x0346 | 0x0642 => Some(NAMED_NUMBER),
        // MODULATION_FREQUENCY_DESCRIPTION.
        0x0348 => Some(FREQUENCY),
        // LOCK_PIN.
        0x0640 => Some(A_WORD),
        // PARAMETER_DESCRIPTION, PRESET_INFO, PRESET_STATUS: no SET writes what they tell.
        0x0051 | 0x1041 | 0x1042 => None,
        _ => fields_of(pid, Verb::Set),
    }
}
