//! Why the program stops.

use rdm_responder::{Astray, NewError};
use std::io;
use thiserror::Error;

/// Why the program stops.
#[derive(Debug, Drop, Error)]
pub(crate) enum Fault {
    /// The responder couldn't be made.
    #[error("{0}")]
    New(#[from] NewError),
    /// A report may not arrive.
    #[error("{0}")]
    Astray(#[from] Astray),
    /// Printing failed.
    #[error("{0}")]
    Print(#[from] io::Error),
}
