//! The result of a command is waited for.

ghost use Rattle.std.specs.Prelude.{◌≡◌};
ghost use Rattle.rdm_console.specs.Endings.{new_waiting, tells_value, verdict_by, verdict_on, after_hearing};

use crate::MessageView;
use crate::belonging::{belongs, index_size, is_same_index};
use crate::causes::{cause_in, is_ack};
use rdm_collector::{Action, Command, Response};
use rdm_frame::Entry;
use rdm_frame::standard::GET_COMMAND_RESPONSE;
use std::marker::Model;

/// What a message says of a command whose result is waited for.
#[derive(Clone, Copy, Debug, PartialEq, Eq)]
pub enum Verdict {
    /// The result is still to come.
    Waits,
    /// It is done: this was its result.
    Done,
    /// It is rejected, by a deferred NACK with this code of the reason (E1.20 section 6.3.4, table A-17).
    Rejected {
        /// The code of the reason.
        reason: u16,
    },
    /// It needs more time, so many tenths of a second (section 6.3.3).
    NeedsTime {
        /// The estimate, in tenths of a second.
        tenths: u16,
    },
    /// It failed, and this is what the device says of it (section 10.3.2).
    Failed(Entry),
}

/// A console that waits for the result of a command which was answered by ACK_TIMER (E1.20 section 6.3.3).
///
/// E1.20 doesn't say how a device tells that a SET failed. The devices of this library tell the value that they kept, in a GET response,
/// and note a status entry. So a SET failed if such a response comes in place of its result, and behind it a status message with an
/// entry for its sub-device. A value alone may be one that somebody changed at the device.
#[derive(Debug, Drop)]
pub struct Awaiting<'a> {
    command: &'a Command,
    value_told: bool,
}

impl<'a> Model for Awaiting<'a> {
    ghost use Rattle.rdm_console.specs.Endings.{Waiting};

    ghost Value = { Waiting };

    ghost view = { λ a. record { command = a.command.now; value_told = a.value_told } };
}

impl<'a> Awaiting<'a> {
    /// One that has heard nothing since this command was answered.
    pub fn new(command: &'a Command) -> Awaiting<'a>
        ensures { result ≡ new_waiting command.now }
    {
        Awaiting {
            command,
            value_told: false,
        }
    }

    /// What the command does.
    pub(crate) fn action(&self) -> Action
        ensures { result ≡ self.now.command.action }
    {
        self.command.action
    }

    /// Hears a message of the device, and says what it means for the command. The messages are heard in the order in which they
    /// come.
    #[tactic(auto, unfolding(crate::specs::Endings::verdict_on))]
    pub fn hear(&mut self, message: &MessageView<'_>) -> Verdict
        ensures verdict { result ≡ verdict_on self.old message.now }
        ensures new { self.new ≡ after_hearing self.old message.now }
    {
        let was_told = self.value_told;
        self.value_told = was_told || tells_value(self.command, message);
        if belongs(self.command, message) {
            return verdict_by(message.response);
        }
        if !was_told {
            return Verdict::Waits;
        }
        match cause_in(self.command.sub, message) {
            Some(entry) => Verdict::Failed(entry),
            None => Verdict::Waits,
        }
    }
}

/// What a command's own result comes to.
fn verdict_by(response: Response) -> Verdict
    ensures { result ≡ verdict_by response }
{
    match response {
        Response::Ack => Verdict::Done,
        Response::AckTimer { tenths } => Verdict::NeedsTime { tenths },
        Response::Nack { reason } => Verdict::Rejected { reason },
        Response::AckOverflow => Verdict::Waits,
    }
}

/// Whether a message tells the value of what a SET was to set.
#[tactic(auto, unfolding(crate::specs::Endings::tells_value))]
fn tells_value(command: &Command, message: &MessageView<'_>) -> bool
    ensures { result ≡ tells_value command.now message.now }
{
    command.action == Action::Set
        && is_ack(message.response)
        && message.class == GET_COMMAND_RESPONSE
        && message.pid == command.pid
        && message.sub == command.sub
        && is_same_index(index_size(command.pid), command, message)
}
