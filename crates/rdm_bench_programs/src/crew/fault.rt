//! Why commands aren't played.

use rdm_crew::RunError;
use std::alloc::AllocError;
use std::io;
use thiserror::Error;

/// Why commands aren't played.
#[derive(Debug, Drop, Error)]
pub(crate) enum CrewFault {
    /// Memory was refused to the plan, or to the run on one thread.
    #[error("out of memory")]
    Refused,
    /// A report or a message is missing.
    #[error("messages were lost")]
    Lost,
    /// The run with two workers failed.
    #[error("{0}")]
    Run(#[from] RunError),
    /// The system refused something else.
    #[error("{0}")]
    System(#[from] io::Error),
}

impl From<AllocError> for CrewFault {
    fn from(_refused: AllocError) -> CrewFault {
        CrewFault::Refused
    }
}
