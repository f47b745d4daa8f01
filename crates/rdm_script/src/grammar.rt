//! What a script says: its lines, their words, and the numbers in them.

mod command;
mod decimals;
mod fault;
pub(crate) mod line;
pub(crate) mod parsing;
mod search;
mod telling;
mod words;
mod wrong;

pub use parsing::{MOST_BYTES, ScriptError, parse, parse_as};
pub use telling::refusal_at;
