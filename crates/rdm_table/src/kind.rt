//! Which parameters there are, and which commands.

ghost use Rattle.std.specs.Prelude.{◌≡◌, ◌↔◌, Some, IfSome, IsSome, find, option_copied};
ghost use Rattle.std.specs.Str.{bytes_eq};
ghost use Rattle.rdm_frame.specs.Names.{for_c};
ghost use Rattle.rdm_table.specs.Table.Kinds.{pid_of, name_of, kinds, kind_named, kind_with};
ghost use Rattle.rdm_table.specs.Table.Rows.{row_of};

use crate::table::rows;

/// A parameter of the table, in the order of the PIDs.
#[derive(Clone, Copy, Debug, PartialEq, Eq)]
pub enum Kind {
    /// QUEUED_MESSAGE (E1.20 section 10.3.1).
    QueuedMessage,
    /// STATUS_MESSAGES (section 10.3.2).
    StatusMessages,
    /// STATUS_ID_DESCRIPTION (section 10.3.3).
    StatusIdDescription,
    /// CLEAR_STATUS_ID (section 10.3.4).
    ClearStatusId,
    /// SUB_DEVICE_STATUS_REPORT_THRESHOLD (section 10.3.5).
    SubDeviceStatusReportThreshold,
    /// SUPPORTED_PARAMETERS (section 10.4.1).
    SupportedParameters,
    /// DEVICE_INFO (section 10.5.1).
    DeviceInfo,
    /// DEVICE_MODEL_DESCRIPTION (section 10.5.3).
    DeviceModelDescription,
    /// MANUFACTURER_LABEL (section 10.5.4).
    ManufacturerLabel,
    /// DEVICE_LABEL (section 10.5.5).
    DeviceLabel,
    /// FACTORY_DEFAULTS (section 10.5.6).
    FactoryDefaults,
    /// LANGUAGE_CAPABILITIES (section 10.5.7).
    LanguageCapabilities,
    /// LANGUAGE (section 10.5.8).
    Language,
    /// SOFTWARE_VERSION_LABEL (section 10.5.9).
    SoftwareVersionLabel,
    /// BOOT_SOFTWARE_VERSION_ID (section 10.5.10).
    BootSoftwareVersionId,
    /// BOOT_SOFTWARE_VERSION_LABEL (section 10.5.11).
    BootSoftwareVersionLabel,
    /// DMX_PERSONALITY (section 10.6.1).
    DmxPersonality,
    /// DMX_PERSONALITY_DESCRIPTION (section 10.6.2).
    DmxPersonalityDescription,
    /// DMX_START_ADDRESS (section 10.6.3).
    DmxStartAddress,
    /// SLOT_INFO (section 10.6.4).
    SlotInfo,
    /// SLOT_DESCRIPTION (section 10.6.5).
    SlotDescription,
    /// DEFAULT_SLOT_VALUE (section 10.6.6).
    DefaultSlotValue,
    /// SENSOR_DEFINITION (section 10.7.1).
    SensorDefinition,
    /// SENSOR_VALUE (section 10.7.2).
    SensorValue,
    /// RECORD_SENSORS (section 10.7.3).
    RecordSensors,
    /// DEVICE_HOURS (section 10.8.1).
    DeviceHours,
    /// LAMP_HOURS (section 10.8.2).
    LampHours,
    /// LAMP_STRIKES (section 10.8.3).
    LampStrikes,
    /// LAMP_STATE (section 10.8.4).
    LampState,
    /// LAMP_ON_MODE (section 10.8.5).
    LampOnMode,
    /// DEVICE_POWER_CYCLES (section 10.8.6).
    DevicePowerCycles,
    /// DISPLAY_INVERT (section 10.9).
    DisplayInvert,
    /// DISPLAY_LEVEL (section 10.9).
    DisplayLevel,
    /// PAN_INVERT (section 10.10).
    PanInvert,
    /// TILT_INVERT (section 10.10).
    TiltInvert,
    /// PAN_TILT_SWAP (section 10.10).
    PanTiltSwap,
    /// IDENTIFY_DEVICE (section 10.11).
    IdentifyDevice,
    /// POWER_STATE (section 10.11).
    PowerState,
    /// PERFORM_SELFTEST (section 10.11).
    PerformSelfTest,
    /// SELF_TEST_DESCRIPTION (section 10.11).
    SelfTestDescription,
    /// PRESET_PLAYBACK (section 10.11).
    PresetPlayback,
}

macro_rules! pid_rows {
    (($kind:ident) $(($name:ident $pid:tt $at:ident $get:tt $set:tt))*) => {
        match $kind {
            $(Kind::$name => $pid,)*
        }
    };
}

macro_rules! kind_rows {
    (($pid:ident) $(($name:ident $number:tt $at:ident $get:tt $set:tt))*) => {
        match $pid {
            $($number => Some(Kind::$name),)*
            _ => None,
        }
    };
}

macro_rules! each_kind {
    ((all) $(($name:ident $pid:tt $at:ident $get:tt $set:tt))*) => {
        [$(Kind::$name),*]
    };
}

/// The names, a row each.
macro_rules! named {
    ($use:ident!($argument:ident)) => {
        $use! {
            ($argument)
            (QueuedMessage "QUEUED_MESSAGE")
            (StatusMessages "STATUS_MESSAGES")
            (StatusIdDescription "STATUS_ID_DESCRIPTION")
            (ClearStatusId "CLEAR_STATUS_ID")
            (SubDeviceStatusReportThreshold "SUB_DEVICE_STATUS_REPORT_THRESHOLD")
            (SupportedParameters "SUPPORTED_PARAMETERS")
            (DeviceInfo "DEVICE_INFO")
            (DeviceModelDescription "DEVICE_MODEL_DESCRIPTION")
            (ManufacturerLabel "MANUFACTURER_LABEL")
            (DeviceLabel "DEVICE_LABEL")
            (FactoryDefaults "FACTORY_DEFAULTS")
            (LanguageCapabilities "LANGUAGE_CAPABILITIES")
            (Language "LANGUAGE")
            (SoftwareVersionLabel "SOFTWARE_VERSION_LABEL")
            (BootSoftwareVersionId "BOOT_SOFTWARE_VERSION_ID")
            (BootSoftwareVersionLabel "BOOT_SOFTWARE_VERSION_LABEL")
            (DmxPersonality "DMX_PERSONALITY")
            (DmxPersonalityDescription "DMX_PERSONALITY_DESCRIPTION")
            (DmxStartAddress "DMX_START_ADDRESS")
            (SlotInfo "SLOT_INFO")
            (SlotDescription "SLOT_DESCRIPTION")
            (DefaultSlotValue "DEFAULT_SLOT_VALUE")
            (SensorDefinition "SENSOR_DEFINITION")
            (SensorValue "SENSOR_VALUE")
            (RecordSensors "RECORD_SENSORS")
            (DeviceHours "DEVICE_HOURS")
            (LampHours "LAMP_HOURS")
            (LampStrikes "LAMP_STRIKES")
            (LampState "LAMP_STATE")
            (LampOnMode "LAMP_ON_MODE")
            (DevicePowerCycles "DEVICE_POWER_CYCLES")
            (DisplayInvert "DISPLAY_INVERT")
            (DisplayLevel "DISPLAY_LEVEL")
            (PanInvert "PAN_INVERT")
            (TiltInvert "TILT_INVERT")
            (PanTiltSwap "PAN_TILT_SWAP")
            (IdentifyDevice "IDENTIFY_DEVICE")
            (PowerState "POWER_STATE")
            (PerformSelfTest "PERFORM_SELFTEST")
            (SelfTestDescription "SELF_TEST_DESCRIPTION")
            (PresetPlayback "PRESET_PLAYBACK")
        }
    };
}

macro_rules! names {
    (($kind:ident) $(($name:ident $text:literal))*) => {
        match $kind {
            $(Kind::$name => $text,)*
        }
    };
}

macro_rules! names_for_c {
    (($kind:ident) $(($name:ident $text:literal))*) => {
        match $kind {
            $(Kind::$name => concat!($text, "\0").as_bytes(),)*
        }
    };
}

impl Kind {
    /// Every parameter of the table, in the order of the PIDs.
    pub fn all() -> [Kind; 41]
        ensures { result ≡ kinds }
    {
        rows!(each_kind!(all))
    }

    /// The parameter with this name in the standard, such as `DMX_START_ADDRESS`, or `None` if the table has none: the
    /// text is compared byte for byte.
    pub fn named(name: &[u8]) -> Option<Kind>
        ensures value { result ≡ kind_named name.now }
        ensures named { (kind : Kind) → (result ≡ Some kind) ↔ (name_of kind ≡ name.now) }
    {
        kind_named(name)
    }

    /// The PID (E1.20 table A-3).
    // Inlined, since most callers name the parameter, and then it is a number.
    #[inline(always)]
    pub fn pid(self) -> u16
        ensures { result ≡ pid_of self }
    {
        let kind = self;
        rows!(pid_rows!(kind))
    }

    /// The name in the standard, such as `DMX_START_ADDRESS` (table A-3).
    pub fn name(self) -> &'static str
        ensures { result.now ≡ name_of self }
    {
        let kind = self;
        named!(names!(kind))
    }

    /// The name in the standard and a NUL behind it, as C wants a text.
    pub fn name_for_c(self) -> &'static [u8]
        ensures { result.now ≡ for_c (name_of self) }
    {
        let kind = self;
        named!(names_for_c!(kind))
    }
}

/// The first parameter with this name.
#[tactic(auto, unfolding(crate::specs::Table::Kinds::kind_named))]
fn kind_named(name: &[u8]) -> Option<Kind>
    ensures { result ≡ kind_named name.now }
{
    first_named(&Kind::all(), name).copied()
}

/// The first of these parameters with this name.
fn first_named<'a>(kinds: &'a [Kind], name: &[u8]) -> Option<&'a Kind>
    ensures { option_copied result ≡ find (λ kind. bytes_eq (name_of kind) name.now) kinds.now }
{
    kinds.iter().find(|kind| kind.name().as_bytes() == name)
}

/// What a command does with a parameter (E1.20 section 6.2.10).
#[derive(Clone, Copy, Debug, PartialEq, Eq)]
pub enum Verb {
    /// It asks for the value.
    Get,
    /// It changes the value.
    Set,
}

/// The parameter of a PID (table A-3), or `None` if the table has none.
#[tactic(auto, unfolding(crate::specs::Table::Rows::row_of, crate::specs::Table::Rows::table, crate::specs::Table::Kinds::kind_with))]
pub fn kind_of(pid: u16) -> Option<Kind>
    ensures value { IfSome result (λ kind. pid_of kind ≡ pid) }
    ensures known { IsSome result ↔ IsSome (row_of pid) }
    ensures first { result ≡ kind_with pid }
{
    rows!(kind_rows!(pid))
}
