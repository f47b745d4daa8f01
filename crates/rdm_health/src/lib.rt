//! How the fixtures of an RDM line are: what their sensors measure, and what their status messages say.
//!
//! `SensorDefinition::of`, `SensorValue::of` and `status_entries_in` read the parameter data of replies. `put_sensor_row` puts a sensor into
//! a table, with a verdict on its value; `put_status_row` puts a status message, `put_waiting_row` messages that wait, and `put_lamp_row` a
//! lamp that isn't well.
#![tactic(auto)]

mod laws;
mod names;
mod sensor_row;
mod sensor_table;
mod sensor_words;
mod sensors;
mod status_row;
mod status_words;
mod statuses;
mod verdict;

pub use laws::{normal_values_are_fine, status_entries_are_the_data, verdicts_are_right};
pub use sensor_row::SensorRow;
pub use sensor_table::{put_sensor_heading, put_sensor_row};
pub use sensors::{SensorDefinition, SensorValue};
pub use status_row::{
    StatusRow, is_lamp_well, put_lamp_row, put_status_heading, put_status_row, put_status_rows,
    put_waiting_row,
};
pub use statuses::{StatusEntry, status_entries_in};
pub use verdict::Verdict;
