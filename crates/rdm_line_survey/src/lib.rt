//! All devices of a line are surveyed, and set by what a survey tells: lists, start addresses, and surveys that are kept and compared.
#![tactic(auto)]

mod addressing;
mod clashing;
mod keeping;
mod listing;
mod reading;

pub use addressing::{Addressing, address};
pub use keeping::{Restoring, Then, compare, restore, save};
pub use listing::{Listing, list};
