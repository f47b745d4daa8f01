//! Which data a parameter has in its requests and in its replies (E1.20 section 10).

ghost use Rattle.std.specs.Prelude.{◌≡◌, ◌≢◌, ℕ, List as ListOf, true, Some, None};
ghost use Rattle.rdm_params.specs.Table.Rows.{row_of};
ghost use Rattle.rdm_words.specs.DataFacts.{asked_facts, data_facts, discovery_facts, done_facts, kind_facts, set_facts, told_facts, value_facts};
ghost use Rattle.rdm_words.specs.FieldFacts.{as_data};
ghost use Rattle.rdm_words.specs.LaidOut.{layout_facts};
ghost use Rattle.rdm_words.specs.Unread.{is_discovery};

use crate::data::form::{Form, Layout, List};
use crate::data::records::{
    BRANCH, COUNT, DEVICE_INFO, MUTED, MUTED_PORT, NUMBER, PERSONALITY, PERSONALITY_TEXT, PRESET,
    PRODUCT, SELF_TEST, SELF_TEST_TEXT, SENSOR, SENSOR_DEFINITION, SENSOR_EXTREMES, SENSOR_NAME,
    SENSOR_RECORDED, SENSOR_VALUE, SLOT, SLOT_TEXT, START_ADDRESS, STATUS_ID, TEXT, VERSION,
};
use crate::tables::settings::{
    DISPLAY_INVERSIONS, LAMP_ON_MODES, LAMP_STATES, POWER_STATES, SWITCHES, TRUTHS,
};
use rdm_frame::standard::{
    DISC_MUTE, DISC_UN_MUTE, DISC_UNIQUE_BRANCH, DISCOVERY_COMMAND, DISCOVERY_COMMAND_RESPONSE,
    GET_COMMAND, GET_COMMAND_RESPONSE, SET_COMMAND, SET_COMMAND_RESPONSE,
};
use rdm_params::{Kind, kind_of};

/// No data.
const NOTHING: Layout = Layout("", Form::Nothing);

/// Data that are shown as they are: those of a command that the parameter doesn't have.
const SHOWN: Layout = Layout("", Form::Shown);

/// What a sensor has measured, with which values it keeps or without.
const MEASURED: Layout = Layout(
    "",
    Form::OneOf(SENSOR_VALUE, SENSOR_RECORDED, SENSOR_EXTREMES),
);

/// The data of a parameter in frames of the command class with this code. If the class or the parameter isn't known there is
/// no layout, and the data are shown as they are.
pub(crate) fn layout_of(code: u8, pid: u16) -> Option<Layout>
    ensures unknown { is_discovery code ≢ true → row_of pid ≡ None → result ≡ None }
    ensures facts { (d : ListOf ℕ) → layout_facts result d ≡ data_facts code pid d }
{
    match kind_of(pid) {
        Some(kind) => known_layout(code, kind),
        None => discovery_layout(code, pid),
    }
}

/// The data of a parameter of the table.
fn known_layout(code: u8, kind: Kind) -> Option<Layout>
    ensures { (d : ListOf ℕ) → layout_facts result d ≡ kind_facts code kind d }
{
    match code {
        GET_COMMAND => Some(get_layout(kind)),
        GET_COMMAND_RESPONSE => Some(get_reply_layout(kind)),
        SET_COMMAND => Some(set_layout(kind)),
        SET_COMMAND_RESPONSE => Some(set_reply_layout(kind)),
        DISCOVERY_COMMAND | DISCOVERY_COMMAND_RESPONSE => Some(SHOWN),
        _ => None,
    }
}

/// The data of a parameter of discovery.
fn discovery_layout(code: u8, pid: u16) -> Option<Layout>
    ensures unknown { is_discovery code ≢ true → result ≡ None }
    ensures facts { (d : ListOf ℕ) → layout_facts result d ≡ discovery_facts code pid d }
{
    if code == DISCOVERY_COMMAND && pid == DISC_UNIQUE_BRANCH {
        return Some(Layout("", Form::Fields(BRANCH)));
    }
    if code == DISCOVERY_COMMAND_RESPONSE && (pid == DISC_MUTE || pid == DISC_UN_MUTE) {
        return Some(Layout("", Form::OneOf(MUTED, MUTED_PORT, MUTED_PORT)));
    }
    None
}

/// The data of a GET.
fn get_layout(kind: Kind) -> Layout
    ensures { (d : ListOf ℕ) → layout_facts (Some result) d ≡ asked_facts kind d }
{
    match kind {
        Kind::QueuedMessage | Kind::StatusMessages => Layout("status type", Form::StatusType),
        Kind::StatusIdDescription => Layout("", Form::Fields(STATUS_ID)),
        Kind::DmxPersonalityDescription => Layout("personality", Form::Fields(NUMBER)),
        Kind::SlotDescription => Layout("", Form::Fields(SLOT)),
        Kind::SensorDefinition | Kind::SensorValue => Layout("", Form::Fields(SENSOR)),
        Kind::SelfTestDescription => Layout("", Form::Fields(SELF_TEST)),
        _ => NOTHING,
    }
}

/// The data of a SET.
fn set_layout(kind: Kind) -> Layout
    ensures { (d : ListOf ℕ) → layout_facts (Some result) d ≡ set_facts kind d }
{
    match kind {
        Kind::FactoryDefaults | Kind::ClearStatusId => NOTHING,
        Kind::DmxPersonality => Layout("personality", Form::Fields(NUMBER)),
        Kind::SensorValue | Kind::RecordSensors => Layout("", Form::Fields(SENSOR)),
        Kind::PerformSelfTest => Layout("", Form::Fields(SELF_TEST)),
        _ => value_layout(kind),
    }
}

/// The data of a response to a SET.
fn set_reply_layout(kind: Kind) -> Layout
    ensures { (d : ListOf ℕ) → layout_facts (Some result) d ≡ done_facts kind d }
{
    match kind {
        Kind::SensorValue => MEASURED,
        _ => NOTHING,
    }
}

/// The data of a response to a GET.
fn get_reply_layout(kind: Kind) -> Layout
    ensures { (d : ListOf ℕ) → layout_facts (Some result) d ≡ told_facts kind d }
{
    match kind {
        Kind::FactoryDefaults => Layout("factory defaults in use", Form::Code(TRUTHS)),
        Kind::DmxPersonality => Layout("", Form::Fields(PERSONALITY)),
        Kind::PerformSelfTest => Layout("self test active", Form::Code(TRUTHS)),
        Kind::StatusMessages => Layout("", Form::List(List::Statuses)),
        Kind::SupportedParameters => Layout("", Form::List(List::Parameters)),
        Kind::DeviceInfo => Layout("", Form::InShort(DEVICE_INFO, PRODUCT)),
        Kind::DmxPersonalityDescription => Layout("", Form::Fields(PERSONALITY_TEXT)),
        Kind::SlotInfo => Layout("", Form::List(List::Slots)),
        Kind::SlotDescription => Layout("", Form::Fields(SLOT_TEXT)),
        Kind::DefaultSlotValue => Layout("", Form::List(List::SlotDefaults)),
        Kind::SensorDefinition => Layout("", Form::InShort(SENSOR_DEFINITION, SENSOR_NAME)),
        Kind::SensorValue => MEASURED,
        Kind::SelfTestDescription => Layout("", Form::Fields(SELF_TEST_TEXT)),
        _ => value_layout(kind),
    }
}

/// The value of a parameter, if a GET reads it as a SET writes it.
fn value_layout(kind: Kind) -> Layout
    ensures { (d : ListOf ℕ) → layout_facts (Some result) d ≡ value_facts kind d }
{
    match kind {
        Kind::StatusIdDescription => Layout("status text", Form::Fields(TEXT)),
        Kind::DeviceModelDescription => Layout("device model description", Form::Fields(TEXT)),
        Kind::ManufacturerLabel => Layout("manufacturer label", Form::Fields(TEXT)),
        Kind::DeviceLabel => Layout("device label", Form::Fields(TEXT)),
        Kind::SoftwareVersionLabel => Layout("software version label", Form::Fields(TEXT)),
        Kind::BootSoftwareVersionLabel => Layout("boot software version label", Form::Fields(TEXT)),
        Kind::BootSoftwareVersionId => Layout("boot software version ID", Form::Fields(VERSION)),
        Kind::LanguageCapabilities => Layout("languages", Form::Languages),
        Kind::Language => Layout("language", Form::Languages),
        Kind::DmxStartAddress => Layout("DMX start address", Form::Fields(START_ADDRESS)),
        Kind::DeviceHours => Layout("device hours", Form::Fields(COUNT)),
        Kind::LampHours => Layout("lamp hours", Form::Fields(COUNT)),
        Kind::LampStrikes => Layout("lamp strikes", Form::Fields(COUNT)),
        Kind::DevicePowerCycles => Layout("device power cycles", Form::Fields(COUNT)),
        Kind::DisplayLevel => Layout("display level", Form::Fields(NUMBER)),
        Kind::PresetPlayback => Layout("", Form::Fields(PRESET)),
        _ => code_layout(kind),
    }
}

/// The same of a parameter whose value is a number of a table.
fn code_layout(kind: Kind) -> Layout
    ensures { (d : ListOf ℕ) → layout_facts (Some result) d ≡ as_data d }
{
    match kind {
        Kind::SubDeviceStatusReportThreshold => Layout("report threshold", Form::StatusType),
        Kind::LampState => Layout("lamp state", Form::Code(LAMP_STATES)),
        Kind::LampOnMode => Layout("lamp on mode", Form::Code(LAMP_ON_MODES)),
        Kind::DisplayInvert => Layout("display invert", Form::Code(DISPLAY_INVERSIONS)),
        Kind::PanInvert => Layout("pan invert", Form::Code(SWITCHES)),
        Kind::TiltInvert => Layout("tilt invert", Form::Code(SWITCHES)),
        Kind::PanTiltSwap => Layout("pan/tilt swap", Form::Code(SWITCHES)),
        Kind::IdentifyDevice => Layout("identify device", Form::Code(SWITCHES)),
        Kind::PowerState => Layout("power state", Form::Code(POWER_STATES)),
        _ => SHOWN,
    }
}
