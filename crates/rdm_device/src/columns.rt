//! What the columns of the table name: the forms of data, their ranges, and what a command changes and replies.

pub mod changes;
pub mod ranges;
pub mod replies;

pub use rdm_added::added;
pub use rdm_profile::{forms, writes};
