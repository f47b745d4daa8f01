//! Why the steps of a run end early.

ghost use Rattle.std.specs.Prelude.{◌≡◌};
ghost use Rattle.rdm_crew.specs.Stops.{stop_of, told_of};

use crate::Stopped;
use rdm_bus::PlayError;
use std::alloc::AllocError;

/// Why a step isn't played to its end, while the workers are still there.
#[derive(Clone, Copy, Debug, PartialEq, Eq)]
pub(crate) enum Stop {
    OutOfMemory,
    Reserved,
    TooLong,
    Unsettled,
    Astray,
}

/// Why the steps of a run end early, and at which of them.
#[derive(Clone, Copy)]
pub(crate) struct StopAt {
    pub(crate) why: Stop,
    /// Steps count from 0.
    pub(crate) step: usize,
}

impl StopAt {
    /// What is told of it when the run has ended. If a report seemed astray, memory was refused.
    pub(crate) fn told(self) -> Stopped
        ensures { result ≡ told_of self.why self.step }
    {
        match self.why {
            Stop::OutOfMemory | Stop::Astray => Stopped::OutOfMemory,
            Stop::Reserved => Stopped::Reserved(self.step),
            Stop::TooLong => Stopped::TooLong(self.step),
            Stop::Unsettled => Stopped::Unsettled(self.step),
        }
    }
}

impl From<PlayError> for Stop {
    ghost from_gives = { λ e stop. stop ≡ stop_of e };

    fn from(e: PlayError) -> Stop {
        match e {
            PlayError::OutOfMemory => Stop::OutOfMemory,
            PlayError::Reserved => Stop::Reserved,
            PlayError::TooLong => Stop::TooLong,
            // Neither comes of a command or a poll.
            PlayError::Astray | PlayError::NoRoom => Stop::Astray,
        }
    }
}

impl From<AllocError> for Stop {
    ghost use Rattle.rdm_crew.specs.declared.bus.stop.Stop.TheVariants.{OutOfMemory};

    ghost from_gives = { λ _ stop. stop ≡ OutOfMemory };

    fn from(_e: AllocError) -> Stop {
        Stop::OutOfMemory
    }
}
