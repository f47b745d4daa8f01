//! The fields of the parameters that the standards describe (E1.20 section 10, E1.37-1).

ghost use Rattle.std.specs.Option.{option_map};
ghost use Rattle.rdm_params.specs.Table.Kinds.{pid_of};
ghost use Rattle.rdm_params.specs.Table.Rows.{row_of};
ghost use Rattle.rdm_entry.specs.Slots.{Fit};

use crate::Field;
use crate::layouts::{
    A_BYTE, A_LONG, A_WORD, AN_IDENTIFIER, CAPTURE, CLOCK, DISPLAY_INVERSION, IDENTIFY_MODE, LABEL,
    LAMP_ON_MODE, LAMP_STATE, LANGUAGE, LOCK_STATE, MERGE_MODE, MINIMUM_LEVEL, MODE, NEW_PIN,
    NOTHING, POWER_STATE, PRESET, RESET, SCENE, SELF_TEST, SENSOR, STATUS_TYPE, SWITCH,
};
use rdm_params::{Kind, Verb, kind_of};

/// The fields of the data that a command of a parameter hands in, or `None` if the standards have no such command.
pub fn fields_of(pid: u16, verb: Verb) -> Option<&'static [Field]>
    ensures { Fit (row_of pid) verb (option_map (λ fields. fields.now) result) }
{
    match kind_of(pid) {
        Some(kind) => fields_in_table(kind, verb),
        None => other_fields(pid, verb),
    }
}

/// The same of a parameter of the table.
fn fields_in_table(kind: Kind, verb: Verb) -> Option<&'static [Field]>
    ensures { Fit (row_of (pid_of kind)) verb (option_map (λ fields. fields.now) result) }
{
    match verb {
        Verb::Get => get_fields(kind),
        Verb::Set => set_fields(kind),
    }
}

/// The same of a parameter that isn't in the table.
fn other_fields(pid: u16, verb: Verb) -> Option<&'static [Field]> {
    match verb {
        Verb::Get => other_get_fields(pid),
        Verb::Set => other_set_fields(pid),
    }
}

/// What a GET hands in of a parameter of the table.
#[tactic(auto, unfolding(rdm_table::specs::Table::Rows::row_of, rdm_table::specs::Table::Rows::table))]
fn get_fields(kind: Kind) -> Option<&'static [Field]>
    ensures { Fit (row_of (pid_of kind)) Verb.Get (option_map (λ fields. fields.now) result) }
{
    match kind {
        Kind::ClearStatusId | Kind::RecordSensors => None,
        Kind::QueuedMessage | Kind::StatusMessages => Some(STATUS_TYPE),
        Kind::StatusIdDescription => Some(AN_IDENTIFIER),
        Kind::DmxPersonalityDescription => Some(A_BYTE),
        Kind::SlotDescription => Some(A_WORD),
        Kind::SensorDefinition | Kind::SensorValue => Some(A_BYTE),
        Kind::SelfTestDescription => Some(A_BYTE),
        _ => Some(NOTHING),
    }
}

/// What a SET hands in of a parameter of the table.
#[tactic(auto, unfolding(rdm_table::specs::Table::Rows::row_of, rdm_table::specs::Table::Rows::table))]
fn set_fields(kind: Kind) -> Option<&'static [Field]>
    ensures { Fit (row_of (pid_of kind)) Verb.Set (option_map (λ fields. fields.now) result) }
{
    match kind {
        Kind::SubDeviceStatusReportThreshold => Some(STATUS_TYPE),
        Kind::DeviceLabel => Some(LABEL),
        Kind::FactoryDefaults | Kind::ClearStatusId => Some(NOTHING),
        Kind::Language => Some(LANGUAGE),
        Kind::DmxPersonality | Kind::DisplayLevel => Some(A_BYTE),
        Kind::DmxStartAddress => Some(A_WORD),
        Kind::SensorValue | Kind::RecordSensors => Some(SENSOR),
        Kind::DeviceHours | Kind::LampHours | Kind::LampStrikes | Kind::DevicePowerCycles => {
            Some(A_LONG)
        }
        Kind::PresetPlayback => Some(PRESET),
        Kind::LampState => Some(LAMP_STATE),
        Kind::LampOnMode => Some(LAMP_ON_MODE),
        Kind::DisplayInvert => Some(DISPLAY_INVERSION),
        Kind::PanInvert | Kind::TiltInvert | Kind::PanTiltSwap | Kind::IdentifyDevice => {
            Some(SWITCH)
        }
        Kind::PowerState => Some(POWER_STATE),
        Kind::PerformSelfTest => Some(SELF_TEST),
        _ => None,
    }
}

/// What a GET hands in of a parameter that isn't in the table.
fn other_get_fields(pid: u16) -> Option<&'static [Field]> {
    match pid {
        // PARAMETER_DESCRIPTION.
        0x0051 => Some(AN_IDENTIFIER),
        // The descriptions of E1.37-1: of a curve, a response time, a frequency, a lock state.
        0x0344 | 0x0346 | 0x0348 | 0x0642 => Some(A_BYTE),
        // PRESET_STATUS.
        0x1042 => Some(A_WORD),
        // Those that are asked for without data.
        0x0010 | 0x0011 | 0x0015 | 0x0070 | 0x0603 => Some(NOTHING),
        0x0140..=0x0142 | 0x0340..=0x0343 | 0x0345 | 0x0347 | 0x0440 => Some(NOTHING),
        0x0640 | 0x0641 | 0x1040 | 0x1041 | 0x1043 | 0x1044 => Some(NOTHING),
        _ => None,
    }
}

/// What a SET hands in of a parameter of E1.20 that isn't in the table.
fn other_set_fields(pid: u16) -> Option<&'static [Field]> {
    match pid {
        // COMMS_STATUS.
        0x0015 => Some(NOTHING),
        // REAL_TIME_CLOCK: year, month, day, hour, minute, second.
        0x0603 => Some(CLOCK),
        // RESET_DEVICE.
        0x1001 => Some(RESET),
        // CAPTURE_PRESET: scene, up, down and wait, each time in tenths of a second.
        0x1030 => Some(CAPTURE),
        _ => dimmer_set_fields(pid),
    }
}

/// What a SET hands in of a parameter of E1.37-1.
fn dimmer_set_fields(pid: u16) -> Option<&'static [Field]> {
    match pid {
        // DMX_BLOCK_ADDRESS, MAXIMUM_LEVEL.
        0x0140 | 0x0342 => Some(A_WORD),
        // DMX_FAIL_MODE, DMX_STARTUP_MODE: scene, delay, hold time, level.
        0x0141 | 0x0142 => Some(MODE),
        // MINIMUM_LEVEL: increasing, decreasing, on below it.
        0x0341 => Some(MINIMUM_LEVEL),
        // CURVE, OUTPUT_RESPONSE_TIME, MODULATION_FREQUENCY, BURN_IN.
        0x0343 | 0x0345 | 0x0347 | 0x0440 => Some(A_BYTE),
        // LOCK_PIN: the new one, the old one. LOCK_STATE: the PIN, the state.
        0x0640 => Some(NEW_PIN),
        0x0641 => Some(LOCK_STATE),
        _ => preset_set_fields(pid),
    }
}

/// The same of how presets are played and a device identifies itself.
fn preset_set_fields(pid: u16) -> Option<&'static [Field]> {
    match pid {
        // IDENTIFY_MODE.
        0x1040 => Some(IDENTIFY_MODE),
        // PRESET_STATUS: scene, up, down, wait, clear.
        0x1042 => Some(SCENE),
        // PRESET_MERGEMODE.
        0x1043 => Some(MERGE_MODE),
        // POWER_ON_SELF_TEST.
        0x1044 => Some(SWITCH),
        _ => None,
    }
}
