//! Settings of many fixtures out of a table: a file of CSV whose first line names its columns, and whose further lines are fixtures.
//!
//! `settings_in` reads such a file, by `specs/Columns.antt`, `specs/Cells.antt` and `specs/Sheets.antt`: what each of its cells sets, and
//! what is wrong with the others. `data_of` and `digits_of` read the data of one command out of words.
#![tactic(auto)]

mod cell;
mod column;
mod complaint;
mod data;
mod findings;
mod laws;
mod line;
mod place;
mod reading;
mod setting;
mod showing;
mod twice;

pub use complaint::{Complaint, Trouble};
pub use data::{Unsaid, data_of, digits_of};
pub use laws::{guarded_text_is_read_back, settings_are_equal_by_value};
pub use reading::settings_in;
pub use setting::{Setting, Sheet};
