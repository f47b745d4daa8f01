//! What frames of RDM and traces say, in words (ANSI E1.20-2010): who asks whom, the parameter by its name, and the data by
//! their fields, units and enumerations.
//!
//! `words` reads a whole text, of which each line is a line of a trace or a frame in hexadecimal digits, as a sniffer
//! writes it. No line is lost: one that is neither is shown escaped, and nothing is
//! written that commands a terminal. `docs/FELOSUMAY.md#the-words` has the forms.
#![tactic(auto)]

mod before;
mod data;
mod fixture;
mod frame;
mod laws;
mod learned;
mod line_words;
pub mod tables;
mod text;
mod trace_words;

pub use before::Before;
pub use data::causes::put_cause;
pub use data::known::Known;
pub use fixture::put_fixture;
pub use frame::short::{put_reply_words, put_request_words};
pub use laws::{escaped_text_is_read_back, what_is_said_is_plain};
pub use learned::{Learned, Question};
pub use line_words::{put_line_words, put_text_line, words, words_of_lines};
