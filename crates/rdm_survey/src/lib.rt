//! What a survey of an RDM line says: which fixtures there are, and which of their slots clash.
//!
//! A `Row` is what is known of a fixture. `clashes` finds the slots that two of them take, `sort` puts them in order, `put_csv` and
//! `put_json` write them as documents that are read back as what they say, and `put_heading` and `put_row` as a table. Other tables of
//! fixtures are written by `put_heading_line` and `put_row_line`, with a `TableColumn` of their own.
#![tactic(auto)]

mod clashing;
mod column_words;
mod columns;
mod csv_text;
mod device;
mod device_info;
mod json_text;
mod laws;
mod member;
mod order;
mod partner;
mod place;
mod row;
mod shown;
mod table;

pub use clashing::clashes;
pub use column_words::put_words;
pub use columns::{Column, all_columns, put_heading, put_row};
pub use csv_text::{KEYS, put_csv};
pub use device::{Device, devices};
pub use device_info::DeviceInfo;
pub use json_text::put_json;
pub use laws::{
    csv_is_read_back, device_infos_are_equal_by_value, guarded_word_is_read_back,
    members_have_the_keys, places_meet_in_a_slot, shown_text_is_read_back,
};
pub use order::{Order, sort};
pub use partner::put_place;
pub use place::{Clash, Place};
pub use row::{Row, StatusCounts, SubDevice};
pub use shown::put_shown;
pub use table::{TableColumn, Width, put_heading_line, put_padded, put_row_line};
