//! Slow commands: what a job does, how it ends, and the message that tells of it.

mod ask;
mod outcome;
mod work;

pub use ask::Ask;
pub use outcome::{Outcome, fits, fitting_worker};
pub(crate) use work::estimate_by;
pub use work::{Work, estimate_of, worker_at, worker_of};
