//! The parameters of an RDM device (ANSI E1.20-2010, section 10): the table of them, and the values that a root
//! device and its sub-devices keep.
//!
//! `Devices` answers GET and SET commands by the table. Each row says where a parameter is, which data its
//! commands take, in which way and with what they are answered, and which values they write. A slow command starts a
//! job, and `Devices::commit` carries it out when the job has ended.
//!
//! The table is in rdm_table, and the commands are in rdm_commands: what they have is passed on from here, with the laws that hold of
//! both.
#![tactic(auto)]

mod jobs;
mod laws;

pub use jobs::{
    one_command_clears, sensor_is_answered_at_once, slow_command_stays_accepted,
    started_work_is_its_command, two_commands_fetch, usual_profile_is_as_slow_as_the_table,
};
pub use laws::{
    answers_are_equal_by_value, asks_are_equal_by_value, changes_are_equal_by_value,
    commit_changes_its_own_keys, kinds_are_equal_by_value, last_pin_opens, locked_parameters_stay,
    locked_values_stay, locks_know_the_table, new_errors_are_equal_by_value, orders_are_told,
    outcomes_are_equal_by_value, panel_changes_its_own_key, place_errors_are_equal_by_value,
    placing_is_setting, plain_profile_has_the_table, plates_are_equal_by_value,
    set_changes_its_own_keys, set_changes_what_it_tells, supported_parameters_are_exact,
    supported_parameters_ascend, told_changes_are_equal_by_value, verbs_are_equal_by_value,
    verdicts_are_equal_by_value, works_are_equal_by_value, written_value_is_read_back,
};
pub use rdm_commands::{
    Answer, Ask, Change, Changed, Devices, NewError, Outcome, PlaceError, Plate, Verdict, Work,
    estimate_of, fits, fitting_worker, worker_at, worker_of,
};
pub use rdm_device::{
    ChoiceName, ChoiceNames, Estimates, Field, Lock, Locks, Mode, ModeShape, Modes, MuteReply,
    OwnParameters, ParameterDef, Particular, Particulars, Personality, Profile, Rights, SelfTest,
    SensorDef, Shape, Slot, SlotList, StatusText, Unit, Value, Width, Worker, Workers, write_value,
};
pub use rdm_frame::{
    Entry, Message, Nack, Severity, entries_are_equal_by_value, messages_are_equal_by_value,
    nacks_are_equal_by_value, reason_name, reason_name_for_c, severities_are_equal_by_value,
};
pub use rdm_saved::{RestoreError, SaveError};
pub use rdm_table::{
    Kind, Verb, kind_of, other_name, parameter_name, parameter_name_for_c, pid_named, read_value,
};
