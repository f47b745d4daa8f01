//! What an RDM device keeps for its controller (ANSI E1.20-2010, section 10.3): the jobs that slow commands became, the
//! messages that tell of their ends, the status entries, and the message that was given last.
//!
//! `Outbox` answers QUEUED_MESSAGE and STATUS_MESSAGES. What it has to answer is told by an account of all that happened
//! to it, over lists that only grow, in `specs/`. Only a message that still waits may be replaced, by a newer one that tells
//! of the same.
#![tactic(auto)]

mod dispensed;
mod error;
mod giving;
mod job;
mod kept;
mod laws;
mod outbox;
mod queue;
mod ring;
mod settings;
mod showing;

pub use dispensed::Dispensed;
pub use error::NewError;
pub use job::{Full, Job};
pub use laws::{
    dispensed_are_equal_by_value, jobs_are_equal_by_value, new_errors_are_equal_by_value,
    refusals_are_equal_by_value, status_messages_mark_what_they_send,
};
pub use outbox::Outbox;
pub use settings::{MOST_ENTRIES, MOST_WAITING, Settings};
