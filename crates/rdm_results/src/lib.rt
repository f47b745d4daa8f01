//! What is told of the expectations of a script: why they can't be judged, what came of them, and the file of JUnit XML; and what came of
//! several scripts.
#![tactic(auto)]

mod results;
mod suite;

pub use results::{Results, sheet_in};
pub use suite::SuiteResults;
