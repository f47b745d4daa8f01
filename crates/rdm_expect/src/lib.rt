//! Expectations of scripts: lines `expect ..` that say what must come of the command before them.
//!
//! `parse` takes the expectations out of a text, and leaves the script, in which each of them is an empty line. `judge` says of each by the
//! lines of a trace whether it holds, and what came if it doesn't; `put_report` and `put_junit` tell that. Which lines are expectations
//! stands in `specs/Sheets.antt`, what their words want in `specs/Wishes.antt`, and when they hold in `specs/Verdicts.antt`.
#![tactic(auto)]

mod judging;
mod junit;
mod laws;
mod lines;
mod reasons;
mod sheet;
mod tally;
mod telling;
mod wish;
mod words;

pub use judging::{Answer, Came, Verdict, judge};
pub use junit::{put_junit, put_suite, put_suites};
pub use laws::{found_is_the_answer_to_discovery, text_without_expectations_is_its_script};
pub use sheet::{Expectation, MOST_BYTES, Sheet, SheetError, parse};
pub use tally::{Tally, tally_of};
pub use telling::{Failure, put_report};
pub use wish::{Flaw, Wish};
