//! What an update of the firmware keeps of the values that the version before has saved.
//!
//! It allocates nothing.
#![tactic(auto)]

mod comparing;
mod laws;
mod places;
mod values;

pub use comparing::{LeftValue, left};
pub use laws::{saved_values_are_read, start_is_counted, update_keeps_values, words_are_compared};
pub use values::{SavedValue, saved_count, saved_value};
