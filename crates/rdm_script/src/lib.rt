//! Scripts of RDM commands: they are read, played on a responder that has just been switched on, and told as a trace
//! of the bytes that went over the bus.
//!
//! `play_script` plays a text on any fixture, and gives the lines of its trace, or the line at which it stops; `play_demonstration`
//! does so on the fixture of the demonstration. `run_script` goes from any reader to any writer with that, in strict words, and
//! `run_program` ends a program with what came of it. `parse_as` reads scripts in any dialect, `parse` those of the demonstration in
//! strict words. The language stands in `specs/Spelling.antt`, what
//! `find` spells in `specs/Search.antt`, how a run is set up and why it stops in `specs/Running.antt`, the demonstration in
//! `specs/DemoParts.antt`. `trace_lines` gives the lines of a run: which these are stands in `specs/RunLines.antt`, and whom a
//! transaction finds in `specs/Finds.antt`. What a run is, rdm_crew says, and how a line is written rdm_trace.
#![tactic(auto)]

mod demo;
mod dialect;
mod error_line;
mod exit;
mod found;
mod grammar;
mod laws;
mod parties;
mod playing;
mod program;
mod refusal;
mod rules;
mod run_lines;
mod running;
mod script;
mod stage;
mod streams;

pub use demo::DemoPanel;
pub use dialect::{Dialect, Spelling};
pub use exit::{report, run_program};
pub use found::Finds;
pub use grammar::{MOST_BYTES, ScriptError, parse, parse_as, refusal_at};
pub use laws::{
    line_says_what_its_words_spell, program_errors_are_equal_by_value, refusals_are_equal_by_value,
    script_errors_are_equal_by_value, script_is_never_refused, setups_are_equal_by_value,
    strict_steps_are_friendly, text_is_one_script, unplayeds_are_equal_by_value,
    wanteds_are_equal_by_value,
};
pub use parties::{CONTROLLER, DEMO_DEVICE};
pub use playing::{Unplayed, play_demonstration, play_script};
pub use program::{ProgramError, run_script};
pub use refusal::{Excerpt, Reason, Refusal, Wanted};
pub use rules::{RuledPart, ruled_parts_fit};
pub use run_lines::trace_lines;
pub use script::{Script, ScriptSetup};
pub use stage::Stage;
