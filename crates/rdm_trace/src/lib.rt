//! The lines of a trace: what happens on a bus, as the programs that play scripts tell it.
//!
//! A `Line` is what a line says. `put_line` writes it, `read` reads it, and what is written is read back
//! (`written_line_is_read_back`); `text_of` and `lines_of` do so for a whole trace. The text of each line stands in
//! `specs/LineText.antt`, and how a line is read in `specs/Reading.antt`. Which lines tell of a run, rdm_script says.
#![tactic(auto)]

mod beginnings;
mod digits;
mod fault;
mod laws;
mod line;
mod numbers;
mod panel;
mod put;
mod reading;
mod report;
mod text;
mod time;
mod words;
mod writing;

pub use digits::wire_in;
pub use laws::{trace_errors_are_equal_by_value, written_line_is_read_back};
pub use line::{JobName, Line};
pub use reading::read;
pub use text::{TraceError, is_remark, lines_of, text_of};
pub use writing::put_line;
