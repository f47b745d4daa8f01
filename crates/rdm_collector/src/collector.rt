//! The collector.

ghost use Rattle.std.specs.Prelude.{◌≡◌, ◌↔◌, drop, is_some, IsSome, IfOk, OnOk, OnErr, IsErrOf};
ghost use Rattle.std.specs.Result.{result_err};
ghost use Rattle.rdm_frame.specs.FrameText.{frame_text, IsFrame};
ghost use Rattle.rdm_collector.specs.Collecting.{new_collector, refusal_of, poll_request, command_request, after_ask, after_poll, heard_in, after_hearing, without_transaction};

use crate::command::{Command, queued_message, request_of};
use crate::message::message_of;
use crate::record::{forget, make_room};
use crate::sender::{AskError, PollError, Sender};
use crate::transaction::{Heard, taken_for};
use crate::want::Want;
use rdm_frame::{Message, Uid, Wire};
use std::alloc::Global;
use std::marker::Model;

/// A controller that collects the messages of one device, the target, and sends its user's commands meanwhile.
///
/// One transaction is open at a time. Its transaction numbers start at 0 and rise by 1 with each request, modulo 256.
#[derive(Debug, Drop)]
pub struct Collector {
    sender: Sender,
    recorded: Vec<Message>,
}

impl Model for Collector {
    ghost use Rattle.std.specs.Prelude.{◌<◌, IsTrue, vec_len, vec_capacity};
    ghost use Rattle.rdm_collector.specs.Answers.{is_poll};
    ghost use Rattle.rdm_collector.specs.Collecting.{State, collector_with};

    ghost Value = { State };

    ghost view = { λ c. collector_with c.sender c.recorded.items };

    // While a poll is open there is room for its answer.
    ghost invariant = { λ c. IsTrue (is_poll c.sender.transaction) → vec_len c.recorded < vec_capacity c.recorded };
}

impl Collector {
    /// A collector with this UID, for the messages of the target, that has sent nothing and recorded nothing.
    pub fn new(alloc: Global, uid: Uid, target: Uid, want: Want) -> Self
        ensures { result ≡ new_collector uid target want }
    {
        Collector {
            sender: Sender::new(uid, target, want),
            recorded: Vec::new(alloc),
        }
    }

    /// Sends a user's command: gives the bytes of its request, and opens its transaction.
    ///
    /// A command that asks for QUEUED_MESSAGE or STATUS_MESSAGES is rejected first, then any while a transaction is
    /// open, and then one with more than 231 bytes of data. If it is rejected, nothing changes.
    pub fn ask(&mut self, command: &Command) -> Result<Wire, AskError>
        ensures refused { result_err result ≡ refusal_of self.old command.now }
        ensures sent { IfOk result (λ wire. wire ≡ frame_text (command_request self.old command.now)) }
        ensures is_frame { OnOk result (IsFrame (command_request self.old command.now)) }
        ensures new { OnOk result (self.new ≡ after_ask self.old command.now) }
        ensures err { OnErr result (self.new ≡ self.old) }
    {
        let tn = self.sender.open_command(command)?;
        let (uid, _) = self.sender.uids();
        Ok(request_of(uid, tn, command))
    }

    /// Sends a poll: gives the bytes of a request for the target's next message, and opens its transaction. If the
    /// last poll wasn't answered, it asks for the last message again, which may be the one that was lost.
    ///
    /// It is rejected while a transaction is open, and then if there is no memory for the answer. If it is rejected,
    /// nothing changes.
    pub fn poll(&mut self) -> Result<Wire, PollError>
        ensures sent { IfOk result (λ wire. wire ≡ frame_text (poll_request self.old)) }
        ensures is_frame { OnOk result (IsFrame (poll_request self.old)) }
        ensures new { OnOk result (self.new ≡ after_poll self.old) }
        ensures busy { IsErrOf result PollError.Busy ↔ IsSome self.old.transaction }
        ensures err { OnErr result (self.new ≡ self.old) }
    {
        make_room(&mut self.recorded, self.sender.is_open())?;
        let (tn, status_type) = self.sender.open_poll()?;
        let (uid, target) = self.sender.uids();
        Ok(request_of(uid, tn, &queued_message(target, status_type)))
    }

    /// Hears bytes, and says what they are taken for. A frame from the target to this collector in the open
    /// transaction ends it if it answers it; the answer to a poll is recorded. All else changes nothing.
    pub fn hear(&mut self, bytes: &[u8]) -> Heard
        ensures heard { result ≡ heard_in self.old bytes.now }
        ensures new { self.new ≡ after_hearing self.old bytes.now }
    {
        let Some(frame) = self.sender.frame_from_target(bytes) else {
            return Heard::Ignored;
        };
        let heard = taken_for(self.sender.transaction(), &frame);
        match heard {
            Heard::Message => {
                self.recorded.push_reserved(message_of(&frame));
                self.sender.answered(false);
            }
            Heard::Reply => self.sender.over(),
            Heard::Ignored => {}
        }
        heard
    }

    /// Ends the open transaction, if there is one, without an answer. A poll that ends so stays unanswered.
    pub fn over(&mut self)
        ensures { self.new ≡ without_transaction self.old }
    {
        self.sender.over();
    }

    /// Whether a transaction is open: its answer wasn't heard, and it isn't over.
    pub fn is_open(&self) -> bool
        ensures { result ≡ is_some self.now.transaction }
    {
        self.sender.is_open()
    }

    /// Whether the last poll has no answer, so that the next one asks for the last message again (E1.20 table A-4). Its answer
    /// may be the message that was recorded last.
    pub fn is_unanswered(&self) -> bool
        ensures { result ≡ self.now.unanswered }
    {
        self.sender.is_unanswered()
    }

    /// The messages that were recorded and not forgotten, in order.
    pub fn recorded(&self) -> &[Message]
        ensures { result.now ≡ self.now.recorded }
    {
        self.recorded.as_slice()
    }

    /// Forgets the first `count` messages that were recorded, or all if there are fewer. Later ones take their room.
    pub fn forget(&mut self, count: usize)
        ensures { self.new ≡ record self.old { recorded = drop count self.old.recorded } }
    {
        forget(&mut self.recorded, count);
    }
}
