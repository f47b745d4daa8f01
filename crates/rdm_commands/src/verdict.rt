//! What becomes of a command.

ghost use Rattle.std.specs.Prelude.{◌≡◌};
ghost use Rattle.rdm_commands.specs.Views.Verdicts.{verdict_with};

use crate::{Ask, Work};
use rdm_frame::{Body, Nack};

/// What a command answers.
#[derive(Debug, Drop, PartialEq, Eq)]
pub enum Verdict {
    /// It is carried out, and this is the data of the reply (E1.20 section 6.3.1).
    Reply(Body),
    /// It starts this job, and nothing has changed yet (section 6.3.3).
    Start(Work),
    /// It asks for the next message that waits, or for the last one again (section 10.3.1).
    Queue(Ask),
    /// It asks for status entries, or for the last message again (section 10.3.2).
    Status(Ask),
    /// It clears the list of status entries, and is answered without data (section 10.3.4).
    Clear,
    /// It is rejected, and nothing changes (section 6.3.4).
    Refuse(Nack),
}

/// What a command answers, without the data of a reply, which stand beside it.
#[derive(Clone, Copy, Debug, PartialEq, Eq)]
pub enum Answer {
    /// It is carried out, and the data of the reply stand beside this (E1.20 section 6.3.1).
    Done,
    /// It starts a job, and nothing has changed yet (section 6.3.3).
    Starts {
        /// What the job is to do.
        work: Work,
        /// The worker that has the job, as `Devices::worker_of` tells.
        worker: u8,
        /// How long it takes, in tenths of a second, as `Devices::estimate_of` tells.
        estimate: u16,
    },
    /// It asks for the next message that waits, or for the last one again (section 10.3.1).
    Queues(Ask),
    /// It asks for status entries, or for the last message again (section 10.3.2).
    Statuses(Ask),
    /// It clears the list of status entries, and is answered without data (section 10.3.4).
    Clears,
    /// It is rejected, and nothing changes (section 6.3.4).
    Refused(Nack),
}

impl Answer {
    /// What the command answers, with the data of the reply.
    pub fn with(self, body: Body) -> Verdict
        ensures { result ≡ verdict_with self body }
    {
        match self {
            Answer::Done => Verdict::Reply(body),
            Answer::Starts { work, .. } => Verdict::Start(work),
            Answer::Queues(ask) => Verdict::Queue(ask),
            Answer::Statuses(ask) => Verdict::Status(ask),
            Answer::Clears => Verdict::Clear,
            Answer::Refused(nack) => Verdict::Refuse(nack),
        }
    }
}
