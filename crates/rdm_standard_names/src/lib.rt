//! The names that the standard's tables give to numbers (ANSI E1.20-2010, appendices A and C): sensor types, units and their prefixes,
//! product categories and details, types and labels of slots.
#![tactic(auto)]

mod kind;
mod laws;
pub mod products;
pub mod sensors;
pub mod slots;
mod table;

pub use kind::{KIND_WORDS, NameKind};
pub use laws::name_kinds_are_equal_by_value;
pub use table::Table;
