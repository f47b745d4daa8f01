//! When the jobs of a responder are due by their estimates (ANSI E1.20-2010, section 6.3.3): for firmware that sleeps in between.
//!
//! `Deadlines` looks which job each worker is at, and says in how many milliseconds the first of their estimates ends.
//! `specs/Deadlines.antt` says when a job began.
#![tactic(auto)]

mod deadlines;
mod laws;

pub use deadlines::{AtJob, Deadlines};
pub use laws::zeros_have_seen_nothing;
