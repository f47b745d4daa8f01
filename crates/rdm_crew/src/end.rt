//! The end of a run, when the steps are over: the threads are joined, and the lanes settled.

pub(crate) mod closing;
pub(crate) mod settling;
