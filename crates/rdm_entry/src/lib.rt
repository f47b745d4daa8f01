//! The data of commands as people write them: one word for each field, in decimal digits, in hexadecimal ones behind `0x`, by a
//! name of the standard's tables, or as a text.
//!
//! `fields_of` gives the fields of a parameter that the standards describe, and `fields_described` those of one that a fixture
//! describes by PARAMETER_DESCRIPTION. `data_in` reads words for them, by `specs/Words.antt` and `specs/Entries.antt`.
#![tactic(auto)]

mod described;
mod error;
mod field;
mod laws;
mod layouts;
mod numeral;
mod parameter;
mod plain;
mod reading;
mod replied;
mod signed;
mod table;
mod word;

pub use described::fields_described;
pub use error::{Complaint, EntryError, Wrong};
pub use field::Field;
pub use laws::{
    data_have_the_slots_of_their_fields, printed_numbers_are_read_back, unclear_digits_are_refused,
    words_of_data_are_read_back,
};
pub use parameter::{nearest_parameter, parameter_named};
pub use plain::words_of;
pub use reading::data_in;
pub use replied::fields_replied;
pub use table::fields_of;
