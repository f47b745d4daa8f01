//! Why the program stops.

use rdm_script::Unplayed;
use std::alloc::AllocError;
use std::io;
use thiserror::Error;

/// Why the program stops.
#[derive(Debug, Drop, Error)]
pub enum Fault {
    /// Standard input or output failed.
    #[error("standard input or output: {0}")]
    Io(#[from] io::Error),
    /// The script isn't played to its end.
    #[error("{0}")]
    Unplayed(#[from] Unplayed),
    /// Out of memory for the words.
    #[error("out of memory")]
    OutOfMemory(#[from] AllocError),
}
