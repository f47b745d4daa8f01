//! What a line of a trace says.

use rdm_collector::Heard;
use rdm_frame::{Fault, Uid, Wire};
use rdm_params::{Change, Message, Outcome};

/// A line of a trace.
#[derive(Debug, Drop)]
pub enum Line {
    /// `send`: a request.
    Send {
        /// Its bytes, as they were sent.
        bytes: Wire,
        /// What goes wrong with the transaction.
        fault: Fault,
    },
    /// `reply`: the bytes of the reply as the device sent them, or `None` if it sent none.
    Reply(Option<Wire>),
    /// `job`: a slow command starts this job.
    Job(JobName),
    /// `heard`: what the controller took the reply for, or `None` if no bytes reached it.
    Heard(Option<Heard>),
    /// `found`: the controller finds the fixture with this UID, which has answered its mute.
    Found(Uid),
    /// `arrive`: the report of a job arrives at the device.
    Arrive {
        /// The job.
        job: JobName,
        /// How it ended.
        outcome: Outcome,
    },
    /// `panel`: a change at the fixture's own menu.
    Panel {
        /// The change.
        change: Change,
        /// Whether it is rejected.
        refused: bool,
    },
    /// `message`: a message that the controller recorded.
    Message(Message),
    /// `#`: when the next line happened.
    Time {
        /// So many milliseconds after the first. 4,294,967,295 seconds and 999 milliseconds are the most that is read.
        millis: u64,
    },
    /// `end`: the trace is whole.
    End,
}

/// Which job: its worker and its number among that worker's jobs, from 0.
#[derive(Clone, Copy, Debug)]
pub struct JobName {
    /// The worker that has the job.
    pub worker: u8,
    /// The number of the job among that worker's jobs.
    pub number: u32,
}
