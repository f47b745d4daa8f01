//! The steps of a bus, and what happens at each.

ghost use Rattle.std.specs.Prelude.{◌≡◌};
ghost use Rattle.rdm_bus.specs.BusRun.{fault_of};

use rdm_collector::{Command, Heard};
use rdm_frame::{Fault, Wire};
use rdm_outbox::Job;
use rdm_params::{Change, Message};
use rdm_responder::Report;

/// What is to happen next on a bus.
#[derive(Debug, Drop)]
pub enum Step {
    /// The controller sends a command, and this goes wrong.
    Ask(Command, Fault),
    /// The controller polls for a message, and this goes wrong.
    Collect(Fault),
    /// The report of a job arrives at the device.
    Arrive(Report),
    /// A person changes a value at the device's own menu.
    Change(Change),
}

impl Step {
    /// What goes wrong.
    pub fn fault(&self) -> Fault
        ensures { result ≡ fault_of self.now }
    {
        match self {
            Step::Ask(_, fault) | Step::Collect(fault) => *fault,
            Step::Arrive(_) | Step::Change(_) => Fault::None,
        }
    }
}

/// A step whose command is lent, so that it is played from where it stands, and its data aren't copied.
#[derive(Clone, Copy, Debug)]
pub enum StepRef<'a> {
    /// The controller sends a command, and this goes wrong.
    Ask(&'a Command, Fault),
    /// The controller polls for a message, and this goes wrong.
    Collect(Fault),
    /// The report of a job arrives at the device.
    Arrive(Report),
    /// A person changes a value at the device's own menu.
    Change(Change),
}

/// What has happened on a bus.
#[derive(Debug, Drop)]
pub enum Event {
    /// A transaction of the controller and the device.
    Bus {
        /// The bytes of the request, as they were sent.
        sent: Wire,
        /// Whether it was a poll.
        poll: bool,
        /// What went wrong.
        fault: Fault,
        /// The bytes of the reply, as the device sent them, if it did.
        reply: Option<Wire>,
        /// The job that started, if one did.
        job: Option<Job>,
        /// What the controller took the reply for, if any bytes reached it.
        heard: Option<Heard>,
    },
    /// A report arrived at the device.
    Arrived {
        /// The report.
        report: Report,
        /// The message that waits for the controller since then (E1.20 section 10.3.1).
        message: Message,
        /// Whether a status entry was noted (section 10.3.2).
        kept: bool,
    },
    /// A person changed a value at the device's own menu.
    Changed {
        /// The change.
        change: Change,
        /// The message that waits for the controller since then, if the device took the value (section 10.3.1).
        message: Option<Message>,
    },
}
