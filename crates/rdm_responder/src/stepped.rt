//! What became of bytes that were heard.

ghost use Rattle.std.specs.Prelude.{◌≡◌, false, None};
ghost use Rattle.rdm_responder.specs.Started.{job_in};

use rdm_outbox::Job;
use rdm_params::Changed;

/// A job that started, with what the table of parameters and the profile say of its command: so nobody needs to ask them again.
#[derive(Clone, Copy, Debug, PartialEq, Eq)]
pub struct Started {
    /// The job.
    pub job: Job,
    /// The worker that has it: 0 or 1.
    pub worker: u8,
    /// How long it takes, in tenths of a second, as ACK_TIMER tells the controller (E1.20 section 6.3.3).
    pub estimate: u16,
}

/// What became of bytes that were heard.
#[derive(Clone, Copy, Debug, PartialEq, Eq)]
pub struct Stepped {
    /// Whether there is a reply. Its bytes stand in the list that was handed in.
    pub replied: bool,
    /// The job that started, if one did.
    pub started: Option<Started>,
    /// What changed of the parameters, and `None` if every value is what it was.
    pub changed: Option<Changed>,
}

impl Stepped {
    /// No reply, no job, and no change.
    pub(crate) fn silent() -> Stepped
        ensures { result ≡ record { replied = false; started = None; changed = None } }
    {
        Stepped {
            replied: false,
            started: None,
            changed: None,
        }
    }

    /// The job that started, if one did, by itself.
    pub fn job(&self) -> Option<Job>
        ensures { result ≡ job_in self.now.started }
    {
        match self.started {
            Some(started) => Some(started.job),
            None => None,
        }
    }
}
