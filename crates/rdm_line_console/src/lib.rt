//! `felosumay line`: a console on a real line, through an interface; and `felosumay test`, which tests a device there.
#![tactic(auto)]

mod errand;
mod hint;
mod line;

pub use line::{run, test};
pub use rdm_line_talk::Terminals;
