//! What is found wrong.

use std::io;
use thiserror::Error;

/// Why the program stops.
#[derive(Debug, Drop, Error)]
pub(crate) enum Fault {
    /// A call didn't answer what it should.
    #[error("{0}")]
    Wrong(&'static str),
    /// The system refused something else.
    #[error("{0}")]
    System(#[from] io::Error),
}

/// A fault that says what doesn't hold, where it doesn't.
pub(crate) fn check(holds: bool, otherwise: &'static str) -> Result<(), Fault> {
    if holds {
        Ok(())
    } else {
        Err(Fault::Wrong(otherwise))
    }
}

/// The fault of a call that answers want of memory although nothing more is refused.
pub(crate) const ALWAYS: Fault = Fault::Wrong("memory is always wanted");

/// The fault of a call that answers something else in place of want of memory, or of what it should answer.
pub(crate) const OTHER: Fault = Fault::Wrong("another answer");
