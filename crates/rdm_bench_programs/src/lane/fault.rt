//! Why items aren't counted.

use std::io;
use thiserror::Error;

/// Why items aren't counted.
#[derive(Debug, Drop, Error)]
pub(crate) enum LaneFault {
    /// Memory or a thread was refused.
    #[error("out of memory or threads")]
    Refused,
    /// Not every item came.
    #[error("items were lost")]
    Lost,
    /// The system refused something else.
    #[error("{0}")]
    System(#[from] io::Error),
}
