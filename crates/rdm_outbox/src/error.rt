//! Why an outbox can't be made.

use thiserror::Error;

/// Why an outbox can't be made, tested from the last to the first.
#[derive(Clone, Copy, Debug, PartialEq, Eq, Error)]
pub enum NewError {
    /// Out of memory.
    #[error("out of memory")]
    OutOfMemory,
    /// The number of jobs and messages isn't 1 to 1,024, no worker may be given a job, or the number of status entries isn't
    /// 1 to 1,024.
    #[error("bad outbox size")]
    BadSize,
}
