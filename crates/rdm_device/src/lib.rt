//! One RDM device (ANSI E1.20-2010, sections 9 and 10): which data fit a command, what it replies, and how a command changes it.
//!
//! The modules of `columns` have what the rows of the table of parameters name. What is below is handed on: the profile of a device, the
//! rules of profiles, and what a device keeps.
#![tactic(auto)]

pub mod columns;
mod device;

pub use device::blocks::{block_fits, block_shown, moved_block_is_told, start_block};
pub use device::footprint::footprint;
pub use device::measuring::{measure, place_measured};
pub use rdm_added::{CommonValues, Kept, Measured, Place, RootValues};
pub use rdm_profile::{
    Argument, ChoiceName, ChoiceNames, Estimates, Field, Lock, Locks, Mode, ModeShape, Modes,
    MuteReply, OwnParameters, ParameterDef, Particular, Particulars, Personality, Profile, Rights,
    SelfTest, SensorDef, Shape, Slot, SlotList, StatusText, Unit, Value, Width, Worker, Workers,
    are_optional, choice_names_are_equal_by_value, choices_of_workers_are_equal_by_value,
    estimates_are_equal_by_value, fields_are_equal_by_value, leave_no_need,
    locks_are_equal_by_value, modes_are_equal_by_value, mute_replies_are_equal_by_value,
    parameter_defs_are_equal_by_value, particulars_are_equal_by_value,
    personalities_are_equal_by_value, profiles_are_equal_by_value, rights_are_equal_by_value,
    self_tests_are_equal_by_value, sensor_defs_are_equal_by_value, shapes_are_equal_by_value,
    slots_are_equal_by_value, status_texts_are_equal_by_value, units_are_equal_by_value,
    values_are_equal_by_value, widths_are_equal_by_value, workers_are_equal_by_value, write_value,
};
pub use rdm_profile_rules::{
    ProfileFault, agree, can_hold, can_open, can_start, follows, has_good_fields, have_states,
    is_addable, is_good, mode_fault, mute_fault, own_fault, profile_fault, profile_fault_with,
    profile_faults_are_equal_by_value,
};
