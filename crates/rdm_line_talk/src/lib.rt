//! A console on a real line: it talks with the fixtures of a line through a port, and tells what it hears.
//!
//! A `Console` sends commands, waits for their results, searches the line and fetches messages. Each request and reply goes through its
//! `Recorder`, which keeps a trace; and what the fixtures say of themselves is in its `Knowledge`, so that replies can be told in words.
#![tactic(auto)]

mod asking;
mod collecting;
mod console;
mod finding;
mod knowledge;
mod log;
mod making;
mod parts;
mod recorder;
mod targets;
mod telling;
mod trace_file;

pub use asking::{Outcome, fault_of};
pub use console::Console;
pub use knowledge::Knowledge;
pub use log::{Log, NotKept, Printed};
pub use making::{done_by, make_all, reading_back, setting};
pub use recorder::Recorder;
pub use targets::{Tally, Targets, uid_in};
pub use telling::{CONSOLE, Place, Teller, Terminals};
pub use trace_file::TraceFile;
