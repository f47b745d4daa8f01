//! Why the program stops.

use crate::crew::CrewFault;
use crate::lane::LaneFault;
use rdm_responder::NewError;
use std::alloc::AllocError;
use std::io;
use std::process::ExitCode;
use thiserror::Error;

/// Why the program stops.
#[derive(Debug, Drop, Error)]
pub(crate) enum Fault {
    /// The arguments are none of those that it knows.
    #[error("usage: rdm_bench_programs [(lane | crew | alone) ROUNDS | slow JOBS | (line | gaps | scattered) DEVICES ROUNDS]")]
    Usage,
    /// The items of the lane weren't counted.
    #[error("{0}")]
    Lane(#[from] LaneFault),
    /// The commands weren't played.
    #[error("{0}")]
    Crew(#[from] CrewFault),
    /// A device couldn't be made.
    #[error("{0}")]
    Device(#[from] NewError),
    /// A device couldn't join the line.
    #[error("a device can't join the line")]
    Refused,
    /// Memory was refused.
    #[error("out of memory")]
    OutOfMemory(#[from] AllocError),
    /// The arguments weren't told, or nothing could be printed.
    #[error("{0}")]
    System(#[from] io::Error),
}

impl Fault {
    /// The exit status that stands for it.
    pub(crate) fn status(&self) -> ExitCode {
        match self {
            Fault::Usage => ExitCode::from(2),
            Fault::Lane(_)
            | Fault::Crew(_)
            | Fault::Device(_)
            | Fault::Refused
            | Fault::OutOfMemory(_)
            | Fault::System(_) => ExitCode::FAILURE,
        }
    }
}
