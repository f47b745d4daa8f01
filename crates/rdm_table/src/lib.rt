//! The table of parameters (ANSI E1.20-2010, section 10), one line a row: which data the commands of each take, which values are in
//! their range, in which way they are answered, what they reply and what they write.
//!
//! A row is asked of one device at a time. Which devices a command is for, and what is answered if it is rejected, is not said here.
#![tactic(auto)]

mod kind;
mod slow;
mod table;
mod way;

pub use kind::{Kind, Verb, kind_of};
pub use slow::Slow;
pub use table::find::{Found, find};
pub use table::keep::keeps_data;
pub use table::names::{other_name, parameter_name, parameter_name_for_c, pid_named};
pub use table::read::{read_argument, read_form, read_value};
pub use table::respond::{reply_into, state_into};
pub use table::store::{store_added, store_common, store_own};
pub use table::sub_devices::{all_in_range, store_at, store_each};
pub use table::within::{is_in_range, is_taken_at, is_told};
pub use way::Way;
