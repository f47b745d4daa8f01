//! The report of a job, and what becomes of it; a change at the fixture's own menu that is rejected.

use rdm_outbox::Job;
use rdm_params::{Change, Message, Outcome};
use thiserror::Error;

/// What a worker reports: a job, and how it ended.
#[derive(Clone, Copy, Debug, PartialEq, Eq)]
pub struct Report {
    /// The job, as the responder gave it out.
    pub job: Job,
    /// How it ended.
    pub outcome: Outcome,
}

/// What a report became.
#[derive(Debug, Drop, PartialEq, Eq)]
pub struct Arrival {
    /// The message that waits for the controller now (E1.20 section 10.3.1).
    pub message: Message,
    /// Whether a status entry was noted (section 10.3.2). It is if the job failed, the threshold of its
    /// device is not above the entry (section 10.3.5), and there was room for it.
    pub kept: bool,
}

/// A report that isn't of the oldest outstanding job of its worker, or whose outcome doesn't fit the job.
#[derive(Clone, Copy, Debug, PartialEq, Eq, Error)]
#[error("astray")]
pub struct Astray {
    /// The report.
    pub report: Report,
}

/// A change at the fixture's own menu, for whose message there is no room.
#[derive(Clone, Copy, Debug, PartialEq, Eq, Error)]
#[error("no room")]
pub struct NoRoom {
    /// The change.
    pub change: Change,
}
