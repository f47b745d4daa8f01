//! The table of parameters, one line a row, in the order of the PIDs.
//!
//! A row names its `Kind`, its PID, where it is (`both`: the root and every sub-device; `root`: the root alone), its
//! GET and its SET. `rows!(use! (arguments))` hands the rows to the macro of one use.
//!
//! - GET: `none`; `(reads SOURCE)`; `(asks FORM (RANGE) REPLY)`, which hands in data;
//!   `(measures FORM (RANGE) SLOW REPLY)`, which a job of that kind carries out; `(fetches FORM (RANGE) WAY)`, which is answered from what waits for the controller. A source
//!   is a field of the device's values, of its unit, of the root's own values or of the profile, with the form of the
//!   value, `computed` by a function of `replies`, or `listed` from the rows.
//! - SET: `none`; `(takes FORM (RANGE) FIELD)`, which writes that field, and in which `tells MORE` behind a range says what a GET may reply
//!   beside it; `(sets FORM (RANGE) (COMMON OWN) REPLY)`,
//!   which changes a device by these functions of `changes`; `(starts FORM (RANGE) SLOW FIELD)`, which
//!   writes that field at the end of a job of that kind; `(clears FORM (RANGE))`, which clears the list of status
//!   entries that wait.

pub(crate) mod chosen;
pub(crate) mod find;
pub(crate) mod keep;
pub(crate) mod list;
pub(crate) mod names;
pub(crate) mod read;
pub(crate) mod respond;
pub(crate) mod store;
pub(crate) mod sub_devices;
pub(crate) mod within;

macro_rules! rows {
    ($use:ident! $args:tt) => {
        $use! { $args
            (QueuedMessage 0x0020 root (fetches byte (a_message_type) FromQueue) none)
            (StatusMessages 0x0030 root (fetches byte (below 5) FromStatus) none)
            (StatusIdDescription 0x0031 root (asks word (a_status) status_text) none)
            (ClearStatusId 0x0032 root none (clears nothing (any)))
            (SubDeviceStatusReportThreshold 0x0033 both (reads (common byte report_threshold)) (takes byte (a_threshold) (common report_threshold)))
            (SupportedParameters 0x0050 both (reads (listed)) none)
            (DeviceInfo 0x0060 both (reads (computed device_info)) none)
            (DeviceModelDescription 0x0080 both (reads (unit text model_text)) none)
            (ManufacturerLabel 0x0081 both (reads (unit text maker_text)) none)
            (DeviceLabel 0x0082 both (reads (common text label)) (takes label (any) (common label)))
            (FactoryDefaults 0x0090 root (reads (computed at_factory_defaults)) (sets nothing (any) (common_set_back own_set_back) none))
            (LanguageCapabilities 0x00A0 root (reads (computed languages)) none)
            (Language 0x00B0 root (reads (own word language)) (takes word (a_language) (own language)))
            (SoftwareVersionLabel 0x00C0 both (reads (unit text software_text)) none)
            (BootSoftwareVersionId 0x00C1 root (reads (profile long boot)) none)
            (BootSoftwareVersionLabel 0x00C2 root (reads (profile text boot_text)) none)
            (DmxPersonality 0x00E0 both (reads (computed personality_of_all)) (takes byte (a_personality) (common personality)))
            (DmxPersonalityDescription 0x00E1 both (asks byte (a_personality) personality_described) none)
            (DmxStartAddress 0x00F0 both (reads (computed start_address)) (takes word (a_start) (common start)))
            (SlotInfo 0x0120 root (reads (computed slot_infos)) none)
            (SlotDescription 0x0121 root (asks word (a_slot) slot_described) none)
            (DefaultSlotValue 0x0122 root (reads (computed slot_defaults)) none)
            (SensorDefinition 0x0200 root (asks byte (a_sensor) sensor_described) none)
            (SensorValue 0x0201 root (measures byte (a_sensor) Sensor sensor_measured) (sets byte (sensors) (none sensors_reset) sensor_measured))
            (RecordSensors 0x0202 root none (sets byte (recording_sensors) (none sensors_recorded) none))
            (DeviceHours 0x0400 root (reads (own long device_hours)) (takes long (any) (own device_hours)))
            (LampHours 0x0401 both (reads (common long lamp_hours)) (takes long (any) (common lamp_hours)))
            (LampStrikes 0x0402 both (reads (common long lamp_strikes)) (takes long (any) (common lamp_strikes)))
            (LampState 0x0403 both (reads (common byte lamp_state)) (starts byte (below 4 tells lamp_states_told) Lamp (common lamp_state)))
            (LampOnMode 0x0404 both (reads (common byte lamp_on_mode)) (takes byte (below 4 tells lamp_modes_told) (common lamp_on_mode)))
            (DevicePowerCycles 0x0405 root (reads (own long power_cycles)) (takes long (any) (own power_cycles)))
            (DisplayInvert 0x0500 root (reads (own byte display_invert)) (takes byte (below 3) (own display_invert)))
            (DisplayLevel 0x0501 root (reads (own byte display_level)) (takes byte (any) (own display_level)))
            (PanInvert 0x0600 root (reads (own byte pan_invert)) (takes byte (below 2) (own pan_invert)))
            (TiltInvert 0x0601 root (reads (own byte tilt_invert)) (takes byte (below 2) (own tilt_invert)))
            (PanTiltSwap 0x0602 root (reads (own byte pan_tilt_swap)) (takes byte (below 2) (own pan_tilt_swap)))
            (IdentifyDevice 0x1000 both (reads (common byte identify)) (takes byte (below 2) (common identify)))
            (PowerState 0x1010 both (reads (common byte power_state)) (starts byte (a_power_state) Power (common power_state)))
            (PerformSelfTest 0x1020 root (reads (computed self_test_runs)) (starts byte (a_self_test) SelfTest (own self_test)))
            (SelfTestDescription 0x1021 root (asks byte (a_test) self_test_described) none)
            (PresetPlayback 0x1031 root (reads (own preset preset)) (takes preset (a_preset) (own preset)))
        }
    };
}

pub(crate) use rows;
