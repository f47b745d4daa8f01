//! Whether an RDM device can be made with a profile, and else which rule it breaks first.
#![tactic(auto)]

mod checks;
mod choice_checks;
mod faults;
mod field_checks;
mod laws;
mod lines;
mod locks;
mod modes;
mod own_checks;
mod standards;

pub use checks::is_good;
pub use choice_checks::agree;
pub use faults::{
    ProfileFault, mode_fault, mute_fault, own_fault, profile_fault, profile_fault_with,
};
pub use field_checks::has_good_fields;
pub use laws::profile_faults_are_equal_by_value;
pub use locks::{can_hold, can_open, have_states};
pub use own_checks::{can_start, is_addable};
pub use standards::follows;
