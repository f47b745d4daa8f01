//! The subcommands of felosumay, but its console on a line: it plays a script, says what frames say, draws them, judges replies, checks a fixture's file,
//! lists parameters, and is a virtual fixture on a line, or a rig of them.
#![tactic(auto)]

mod capture;
pub mod chart;
pub mod check;
pub mod fixture;
mod left;
pub mod parameters;
pub mod play;
mod printed;
mod rig;
mod saved;
mod told;
pub mod widget;
pub mod words;
