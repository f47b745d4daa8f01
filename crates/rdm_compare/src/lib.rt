//! Yesterday's survey of an RDM line beside today's: what is kept of a survey, and what has changed since.
//!
//! `keep` takes from the rows of a survey what is kept of them. `put_saved` writes it as JSON, and `read_saved` reads it back.
//! `differences` compares what was kept with what is there now, and `put_difference` says each difference in a line. `remedies` says what
//! sets the fixtures back to what they were.
#![tactic(auto)]

mod difference;
mod difference_words;
mod field;
mod fixture_reading;
mod kept;
mod laws;
mod read_error;
mod remedy;
mod saved_reading;
mod saved_text;
mod sub_devices;
mod word_reading;
mod words;

pub use difference::{Difference, differences};
pub use difference_words::put_difference;
pub use field::{Field, Told};
pub use kept::{Kept, keep};
pub use laws::{
    remedies_are_of_what_differs, same_survey_has_no_difference, saved_survey_is_read_back,
    surveys_with_no_difference_agree,
};
pub use read_error::ReadError;
pub use remedy::{Remedy, remedies};
pub use saved_reading::read_saved;
pub use saved_text::put_saved;
pub use sub_devices::SubDevices;
