//! Why a run ends early, and at which step.

ghost use Rattle.std.specs.Prelude.{◌≡◌};
ghost use Rattle.rdm_crew.specs.Stops.{error_of, step_of};

use crate::RunError;
use std::alloc::AllocError;

/// Why a run ends before its last step, and at which step if one is the cause. Steps count from 0.
#[derive(Clone, Copy, Debug, PartialEq, Eq)]
pub enum Stopped {
    /// Out of memory, or a thread couldn't be started.
    OutOfMemory,
    /// No responder can be set up so, or the controller's UID is a broadcast or the device's. No step was played.
    BadSetup,
    /// The command of this step asks for QUEUED_MESSAGE or STATUS_MESSAGES, which the controller keeps for itself. It is the
    /// first command that can't be sent.
    Reserved(usize),
    /// The command of this step has more data than a frame can carry. It is the first command that can't be sent.
    TooLong(usize),
    /// The `Settle` at this step found no report once more often than it allows. Each command before it can be sent.
    Unsettled(usize),
}

impl Stopped {
    /// The cause alone, as `run` answers it.
    pub fn error(self) -> RunError
        ensures { result ≡ error_of self }
    {
        match self {
            Stopped::OutOfMemory => RunError::OutOfMemory,
            Stopped::BadSetup => RunError::BadSetup,
            Stopped::Reserved(_) => RunError::Reserved,
            Stopped::TooLong(_) => RunError::TooLong,
            Stopped::Unsettled(_) => RunError::Unsettled,
        }
    }

    /// The step at which the run stopped, if one is the cause.
    pub fn step(self) -> Option<usize>
        ensures { result ≡ step_of self }
    {
        match self {
            Stopped::OutOfMemory | Stopped::BadSetup => None,
            Stopped::Reserved(step) => Some(step),
            Stopped::TooLong(step) => Some(step),
            Stopped::Unsettled(step) => Some(step),
        }
    }
}

impl From<AllocError> for Stopped {
    ghost use Rattle.rdm_crew.specs.declared.stopped.Stopped.TheVariants.{OutOfMemory};

    ghost from_gives = { λ _ stopped. stopped ≡ OutOfMemory };

    fn from(_e: AllocError) -> Stopped {
        Stopped::OutOfMemory
    }
}
