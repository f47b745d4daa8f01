//! What is sent to the device whose messages are fetched.

ghost use Rattle.std.specs.Prelude.{◌≡◌, ◌≤◌, length, is_some, IfOk, OnOk, OnErr};
ghost use Rattle.std.specs.Result.{result_err};
ghost use Rattle.rdm_frame.specs.FrameText.{frame_text, IsFrame};
ghost use Rattle.rdm_collector.specs.Sending.{new_sender, refusal_of, command_request, after_ask, poll_refusal, poll_type, poll_request, after_poll, is_from_target, frame_from_target, after_over, after_answer};

use crate::command::{Command, class_of, is_reserved, queued_message, request_of};
use crate::transaction::Transaction;
use crate::want::{Want, type_of};
use rdm_frame::standard::{GET_LAST_MESSAGE, MOST_DATA};
use rdm_frame::{FrameView, Uid, Wire, decode_view};
use std::marker::Model;
use thiserror::Error;

/// Why a command isn't sent, tested in this order.
#[derive(Clone, Copy, Debug, PartialEq, Eq, Error)]
pub enum AskError {
    /// It asks for QUEUED_MESSAGE or STATUS_MESSAGES, which whoever fetches the messages keeps for itself.
    #[error("reserved")]
    Reserved,
    /// A transaction is open.
    #[error("busy")]
    Busy,
    /// It has more data than a frame can carry.
    #[error("too long")]
    TooLong,
}

/// Why no poll is sent, tested from the last to the first.
#[derive(Clone, Copy, Debug, PartialEq, Eq, Error)]
pub enum PollError {
    /// Out of memory for the answer.
    #[error("out of memory")]
    OutOfMemory,
    /// A transaction is open.
    #[error("busy")]
    Busy,
}

/// The side of a controller that sends: requests to fetch the messages of one device, the target, and its user's commands
/// meanwhile. A `Collector` and a `DeviceCollector` have one each, and record what is answered.
///
/// One transaction is open at a time. Its transaction numbers start at 0 and rise by 1 with each request, modulo 256.
#[derive(Debug, Drop)]
pub struct Sender {
    uid: Uid,
    target: Uid,
    want: Want,
    tn: u8,
    transaction: Option<Transaction>,
    unanswered: bool,
}

impl Model for Sender {
    ghost use Rattle.rdm_collector.specs.Sending.{SenderState};

    ghost Value = { SenderState };

    ghost view = { λ s. record {
      uid = s.uid;
      target = s.target;
      want = s.want;
      tn = s.tn;
      transaction = s.transaction;
      unanswered = s.unanswered;
    } };
}

impl Sender {
    /// A sender with this UID, which wants such messages of the target, and has sent nothing.
    pub fn new(uid: Uid, target: Uid, want: Want) -> Self
        ensures { result ≡ new_sender uid target want }
    {
        Sender {
            uid,
            target,
            want,
            tn: 0,
            transaction: None,
            unanswered: false,
        }
    }

    /// Sends a user's command: gives the bytes of its request, and opens its transaction.
    ///
    /// A command that asks for QUEUED_MESSAGE or STATUS_MESSAGES is rejected first, then any while a transaction is
    /// open, and then one with more than 231 bytes of data. If it is rejected, nothing changes.
    pub fn ask(&mut self, command: &Command) -> Result<Wire, AskError>
        ensures refused { result_err result ≡ refusal_of self.old command.now }
        ensures sent { IfOk result (λ wire. wire ≡ frame_text (command_request self.old command.now)) }
        ensures is_frame { OnOk result (IsFrame (command_request self.old command.now)) }
        ensures new { OnOk result (self.new ≡ after_ask self.old command.now) }
        ensures err { OnErr result (self.new ≡ self.old) }
    {
        let tn = self.open_command(command)?;
        Ok(request_of(self.uid, tn, command))
    }

    /// Sends a poll: gives the bytes of a request for the target's next message, and opens its transaction. If the last poll
    /// wasn't answered, it asks for the last message again, which may be the one that was lost (E1.20 section 10.3.1).
    ///
    /// It is rejected as `Busy` while a transaction is open, and then nothing changes. It takes no memory: that for the answer is
    /// the collector's.
    pub fn poll(&mut self) -> Result<Wire, PollError>
        ensures refused { result_err result ≡ poll_refusal self.old }
        ensures sent { IfOk result (λ wire. wire ≡ frame_text (poll_request self.old)) }
        ensures is_frame { OnOk result (IsFrame (poll_request self.old)) }
        ensures new { OnOk result (self.new ≡ after_poll self.old) }
        ensures err { OnErr result (self.new ≡ self.old) }
    {
        let (tn, status_type) = self.open_poll()?;
        Ok(request_of(self.uid, tn, &queued_message(self.target, status_type)))
    }

    /// Opens the transaction of a user's command, and gives its transaction number. A collector writes the request itself, so that
    /// a request is copied once.
    pub(crate) fn open_command(&mut self, command: &Command) -> Result<u8, AskError>
        ensures refused { result_err result ≡ refusal_of self.old command.now }
        ensures fits { OnOk result (length command.now.load ≤ 231) }
        ensures tn { IfOk result (λ tn. tn ≡ self.old.tn) }
        ensures new { OnOk result (self.new ≡ after_ask self.old command.now) }
        ensures err { OnErr result (self.new ≡ self.old) }
    {
        if is_reserved(command.pid) {
            return Err(AskError::Reserved);
        }
        if self.transaction.is_some() {
            return Err(AskError::Busy);
        }
        if command.load.as_slice().len() > MOST_DATA {
            return Err(AskError::TooLong);
        }
        let tn = self.tn;
        self.transaction = Some(Transaction::Command {
            tn,
            class: class_of(command.action),
            sub: command.sub,
            pid: command.pid,
        });
        self.tn = tn.wrapping_add(1);
        Ok(tn)
    }

    /// Opens the transaction of a poll, and gives its transaction number and the status type that it asks for.
    pub(crate) fn open_poll(&mut self) -> Result<(u8, u8), PollError>
        ensures refused { result_err result ≡ poll_refusal self.old }
        ensures poll { IfOk result (λ poll. poll ≡ (self.old.tn, poll_type self.old)) }
        ensures new { OnOk result (self.new ≡ after_poll self.old) }
        ensures err { OnErr result (self.new ≡ self.old) }
    {
        if self.transaction.is_some() {
            return Err(PollError::Busy);
        }
        let (tn, status_type) = (self.tn, self.poll_type());
        self.transaction = Some(Transaction::Poll { tn });
        self.tn = tn.wrapping_add(1);
        self.unanswered = true;
        Ok((tn, status_type))
    }

    /// The frame that the bytes are the text of, if it goes from the target to this sender.
    pub fn frame_from_target<'a>(&self, bytes: &'a [u8]) -> Option<FrameView<'a>>
        ensures { result ≡ frame_from_target self.now bytes.now }
    {
        match decode_view(bytes) {
            Ok(frame) if self.is_from_target(&frame) => Some(frame),
            _ => None,
        }
    }

    /// Ends the open transaction, if there is one. A poll that ends so stays unanswered.
    pub fn over(&mut self)
        ensures { self.new ≡ after_over self.old }
    {
        self.transaction = None;
    }

    /// Ends the open poll, which was answered. The next one asks for the next message, or for the last one again if `again` says so.
    pub fn answered(&mut self, again: bool)
        ensures { self.new ≡ after_answer self.old again }
    {
        self.transaction = None;
        self.unanswered = again;
    }

    /// Whether a transaction is open: its answer wasn't heard, and it isn't over.
    pub fn is_open(&self) -> bool
        ensures { result ≡ is_some self.now.transaction }
    {
        self.transaction.is_some()
    }

    /// Whether the last poll has no answer, so that the next one asks for the last message again (E1.20 table A-4).
    pub fn is_unanswered(&self) -> bool
        ensures { result ≡ self.now.unanswered }
    {
        self.unanswered
    }

    /// The UID of the sender, and that of its target.
    pub(crate) fn uids(&self) -> (Uid, Uid)
        ensures { result ≡ (self.now.uid, self.now.target) }
    {
        (self.uid, self.target)
    }

    /// The open transaction.
    pub(crate) fn transaction(&self) -> Option<Transaction>
        ensures { result ≡ self.now.transaction }
    {
        self.transaction
    }

    /// The status type of the next poll.
    fn poll_type(&self) -> u8
        ensures { result ≡ poll_type self.now }
    {
        if self.unanswered {
            GET_LAST_MESSAGE
        } else {
            type_of(self.want)
        }
    }

    /// Whether a frame goes from the target to this sender.
    fn is_from_target(&self, frame: &FrameView<'_>) -> bool
        ensures { result ≡ is_from_target self.now frame.now }
    {
        frame.src == self.target && frame.dst == self.uid
    }
}
