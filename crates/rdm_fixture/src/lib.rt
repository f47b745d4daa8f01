//! A fixture from a file: a document of TOML says what a device is made with, each parameter of ANSI E1.20-2010 under
//! its name.
//!
//! `Fixture::from_toml` parses the text, and rejects what isn't a fixture with the key and what was wanted there;
//! `Fixture::to_toml` writes one. The format is `specs/Format.antt`.
#![tactic(auto)]

mod courses;
mod document;
mod entries;
mod estimates;
mod fixture;
mod laws;
mod line;
mod lists;
mod modes;
mod muting;
mod notices;
mod outcomes;
mod parameters;
mod profile;
mod starting;
mod unit;
mod workers;
mod working;
mod writing;

pub use courses::no_courses;
pub use document::FixtureError;
pub use fixture::Fixture;
pub use laws::{
    fixtures_are_equal_by_value, starts_are_equal_by_value, text_describes_one_fixture,
    write_errors_are_equal_by_value,
};
pub use rdm_fixture_keys::{
    Agreement, Entry, Name, Refusal, Section, Wanted, agreements_are_equal_by_value,
    entries_are_equal_by_value, refusals_are_equal_by_value, sections_are_equal_by_value,
    wanteds_are_equal_by_value,
};
pub use starting::{Starting, shown_at_start};
pub use writing::WriteError;
