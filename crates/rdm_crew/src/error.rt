//! Why a run ends early.

use std::alloc::AllocError;
use std::error::Error;
use std::fmt;

/// Why a run ends before its last step. `BadSetup` is tested first; the others come at the step that meets them.
#[derive(Clone, Copy, Debug, PartialEq, Eq)]
pub enum RunError {
    /// Out of memory, or a thread couldn't be started.
    OutOfMemory = 1,
    /// A command asks for QUEUED_MESSAGE or STATUS_MESSAGES, which the controller keeps for itself.
    Reserved = 2,
    /// A command has more data than a frame can carry.
    TooLong = 3,
    /// A `Settle` found no report once more often than it allows.
    Unsettled = 4,
    /// A report isn't of the oldest outstanding job of its worker, or its outcome doesn't fit the job. It never comes.
    Astray = 5,
    /// A job has no report when the workers have ended. It never comes.
    Missing = 6,
    /// No responder can be set up so, or the controller's UID is a broadcast or the device's.
    BadSetup = 7,
}

impl fmt::Display for RunError {
    ghost use Rattle.std.specs.Prelude.{Some};
    ghost use Rattle.rdm_crew.specs.Errors.{error_words};

    ghost output = { λ e. Some (error_words e) };

    fn fmt<W: fmt::Write>(&self, f: &mut fmt::Formatter<W>) -> fmt::Result {
        match self {
            RunError::OutOfMemory => f.write_str("out of memory"),
            RunError::Reserved => f.write_str("reserved"),
            RunError::TooLong => f.write_str("too long"),
            RunError::Unsettled => f.write_str("unsettled"),
            RunError::Astray => f.write_str("astray"),
            RunError::Missing => f.write_str("missing"),
            RunError::BadSetup => f.write_str("bad setup"),
        }
    }
}

impl Error for RunError {}

impl From<AllocError> for RunError {
    ghost use Rattle.std.specs.Prelude.{◌≡◌};
    ghost use Rattle.rdm_crew.specs.declared.error.RunError.TheVariants.{OutOfMemory};

    ghost from_gives = { λ _ e. e ≡ OutOfMemory };

    fn from(_e: AllocError) -> RunError {
        RunError::OutOfMemory
    }
}
