//! The keys of a fixture's file: what each of them says, and what is told of the first that is wrong.
//!
//! `keys` reads a key of a table of TOML, and `entries` a table that stands in a list; both reject what isn't valid with a `Refusal`, which
//! names the key and what was wanted of it. The definitions are `specs/Values.antt`, `specs/Entries.antt` and `specs/Wrong.antt`.
#![tactic(auto)]

pub mod entries;
pub mod keys;
mod laws;
mod message;
mod refusal;

pub use laws::{
    agreements_are_equal_by_value, entries_are_equal_by_value, refusals_are_equal_by_value,
    sections_are_equal_by_value, wanteds_are_equal_by_value,
};
pub use refusal::{Agreement, Entry, Name, Refusal, Section, Wanted, name_of};
