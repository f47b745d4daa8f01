//! The threads of a run besides the bus thread: two workers and the watcher of the panel, what they share, and how they wait for
//! each other.

pub(crate) mod equipment;
pub(crate) mod joining;
pub(crate) mod putting;
pub(crate) mod waiting;
pub(crate) mod watcher;
pub(crate) mod worker;
