//! A fixture that answers on a line, as a fixture of a file that stands in for it.
//!
//! `questions` says what a fixture is asked, in three rounds. `describe` gives the fixture that its answers describe, and notes of what a
//! file can't say of it. `put_comments` puts these at the end of a text, as comments of its file.
//!
//! `specs/Plan.antt` has the questions, `specs/Fixtures.antt` the fixture, `specs/Notes.antt` the notes, and `specs/Comments.antt` what is
//! written of them.
#![tactic(auto)]

mod added;
mod answers;
mod capped;
mod choices;
mod comments;
mod describing;
mod drafts;
mod fixture_parts;
mod notes;
mod own;
mod plan;
mod scenes;
mod texts;
mod units;

pub use answers::{Answer, Question};
pub use comments::{DescribeError, put_description};
pub use describing::{Description, describe};
pub use notes::Note;
pub use plan::{Round, questions};
