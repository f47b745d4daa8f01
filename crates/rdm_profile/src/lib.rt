//! What an RDM device is made with (ANSI E1.20-2010, sections 9 and 10, and E1.37-1): its profile, and the values that the data of its
//! parameters say.
#![tactic(auto)]

pub mod forms;
mod laws;
mod profile;
mod value;
pub mod writes;

pub use laws::{
    choice_names_are_equal_by_value, choices_of_workers_are_equal_by_value,
    estimates_are_equal_by_value, fields_are_equal_by_value, locks_are_equal_by_value,
    modes_are_equal_by_value, mute_replies_are_equal_by_value, parameter_defs_are_equal_by_value,
    particulars_are_equal_by_value, personalities_are_equal_by_value, profiles_are_equal_by_value,
    rights_are_equal_by_value, self_tests_are_equal_by_value, sensor_defs_are_equal_by_value,
    shapes_are_equal_by_value, slots_are_equal_by_value, status_texts_are_equal_by_value,
    units_are_equal_by_value, values_are_equal_by_value, widths_are_equal_by_value,
    workers_are_equal_by_value,
};
pub use profile::choices::{ChoiceName, ChoiceNames};
pub use profile::estimates::Estimates;
pub use profile::fields::{Field, Width};
pub use profile::left_out::{are_lacking, are_optional, leave_no_need};
pub use profile::locks::{Lock, Locks};
pub use profile::modes::{Mode, ModeShape, Modes, SlotList};
pub use profile::mute_reply::MuteReply;
pub use profile::own::{OwnParameters, ParameterDef, Rights, Shape, is_makers};
pub use profile::particulars::{Particular, Particulars};
pub use profile::workers::{Worker, Workers};
pub use profile::{Personality, Profile, SelfTest, SensorDef, Slot, StatusText, Unit};
pub use value::Value;
pub use value::argument::{Argument, ValueRef};
pub use value::writing::{write_into, write_value};
