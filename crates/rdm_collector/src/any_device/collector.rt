//! The collector for any device.

ghost use Rattle.std.specs.Prelude.{◌≡◌, ◌↔◌, drop, IsSome, IsTrue, IfOk, OnOk, OnErr, IsErrOf};
ghost use Rattle.std.specs.Result.{result_err};
ghost use Rattle.rdm_frame.specs.FrameText.{frame_text, IsFrame};
ghost use Rattle.rdm_collector.specs.Sending.{refusal_of, poll_request, command_request};
ghost use Rattle.rdm_collector.specs.Answers.{is_poll};
ghost use Rattle.rdm_collector.specs.AnyDevice.Answers.{poll_heard};
ghost use Rattle.rdm_collector.specs.AnyDevice.Collecting.{new_device_collector, sender, after_ask, after_poll, after_over, heard_in, collected, after_answer, after_hearing};

use crate::any_device::collected::{Collected, record_of};
use crate::any_device::heard::{DeviceHeard, Taken, poll_heard, taken_for};
use crate::command::{Command, queued_message, request_of};
use crate::record::{forget, make_room};
use crate::reply::Response;
use crate::sender::{AskError, PollError, Sender};
use crate::want::Want;
use rdm_frame::{FrameView, Uid, Wire};
use std::alloc::Global;
use std::marker::Model;

/// A controller that collects the messages of one device, the target, whatever response types it answers polls by, and sends
/// its user's commands meanwhile.
///
/// It sends what a `Collector` sends, and hears more: a poll is answered by any response that comes in its transaction, so that
/// the next one goes on after a NACK (E1.20 section 6.3.4). A deferred NACK is a message like others, and so is a part of a
/// message (section 6.3.2). One transaction is open at a time. Its transaction numbers start at 0 and rise by 1 with each
/// request, modulo 256.
#[derive(Debug, Drop)]
pub struct DeviceCollector {
    sender: Sender,
    again: bool,
    lost: bool,
    recorded: Vec<Collected>,
}

impl Model for DeviceCollector {
    ghost use Rattle.std.specs.Prelude.{◌<◌, IsTrue, vec_len, vec_capacity};
    ghost use Rattle.rdm_collector.specs.Answers.{is_poll};
    ghost use Rattle.rdm_collector.specs.AnyDevice.Collecting.{DeviceState, collector_with};

    ghost Value = { DeviceState };

    ghost view = { λ c. collector_with c.sender c.again c.lost c.recorded.items };

    // While a poll is open there is room for its answer.
    ghost invariant = { λ c. IsTrue (is_poll c.sender.transaction) → vec_len c.recorded < vec_capacity c.recorded };
}

impl DeviceCollector {
    /// A collector with this UID, for the messages of the target, that has sent nothing and recorded nothing.
    pub fn new(alloc: Global, uid: Uid, target: Uid, want: Want) -> Self
        ensures { result ≡ new_device_collector uid target want }
    {
        DeviceCollector {
            sender: Sender::new(uid, target, want),
            again: false,
            lost: false,
            recorded: Vec::new(alloc),
        }
    }

    /// Sends a user's command: gives the bytes of its request, and opens its transaction.
    ///
    /// A command that asks for QUEUED_MESSAGE or STATUS_MESSAGES is rejected first, then any while a transaction is
    /// open, and then one with more than 231 bytes of data. If it is rejected, nothing changes.
    pub fn ask(&mut self, command: &Command) -> Result<Wire, AskError>
        ensures refused { result_err result ≡ refusal_of (sender self.old) command.now }
        ensures sent { IfOk result (λ wire. wire ≡ frame_text (command_request (sender self.old) command.now)) }
        ensures is_frame { OnOk result (IsFrame (command_request (sender self.old) command.now)) }
        ensures new { OnOk result (self.new ≡ after_ask self.old command.now) }
        ensures err { OnErr result (self.new ≡ self.old) }
    {
        let tn = self.sender.open_command(command)?;
        let (uid, _) = self.sender.uids();
        Ok(request_of(uid, tn, command))
    }

    /// Sends a poll: gives the bytes of a request for the target's next message, and opens its transaction. If the
    /// last poll wasn't answered, it asks for the last message again, which may be the one that was lost (E1.20 section 10.3.1).
    ///
    /// It is rejected while a transaction is open, and then if there is no memory for the answer. If it is rejected,
    /// nothing changes.
    pub fn poll(&mut self) -> Result<Wire, PollError>
        ensures sent { IfOk result (λ wire. wire ≡ frame_text (poll_request (sender self.old))) }
        ensures is_frame { OnOk result (IsFrame (poll_request (sender self.old))) }
        ensures new { OnOk result (self.new ≡ after_poll self.old) }
        ensures busy { IsErrOf result PollError.Busy ↔ IsSome self.old.transaction }
        ensures err { OnErr result (self.new ≡ self.old) }
    {
        make_room(&mut self.recorded, self.sender.is_open())?;
        self.again = self.sender.is_unanswered();
        self.lost = self.lost || self.again;
        let (tn, status_type) = self.sender.open_poll()?;
        let (uid, target) = self.sender.uids();
        Ok(request_of(uid, tn, &queued_message(target, status_type)))
    }

    /// Hears bytes, and says what they are taken for. A frame from the target to this collector in the open
    /// transaction ends it if it answers it, whatever its response type; messages and parts of them are recorded. All else
    /// changes nothing.
    pub fn hear(&mut self, bytes: &[u8]) -> DeviceHeard
        ensures heard { result ≡ heard_in self.old bytes.now }
        ensures new { self.new ≡ after_hearing self.old bytes.now }
    {
        let Some(frame) = self.sender.frame_from_target(bytes) else {
            return DeviceHeard::Ignored;
        };
        match taken_for(self.sender.transaction(), &frame) {
            Taken::Answer(response) => self.take_answer(&frame, response),
            Taken::Reply => {
                self.sender.over();
                DeviceHeard::Reply
            }
            Taken::Nothing => DeviceHeard::Ignored,
        }
    }

    /// Ends the open poll by its answer, of this response type. A message and a part of one are recorded.
    fn take_answer(&mut self, frame: &FrameView<'_>, response: Response) -> DeviceHeard
        requires poll { IsTrue (is_poll self.old.transaction) }
        ensures heard { result ≡ poll_heard frame.now.pid response }
        ensures new { self.new ≡ after_answer self.old (collected self.old.again self.old.lost frame.now response) result }
    {
        let heard = poll_heard(frame.pid, response);
        match heard {
            DeviceHeard::Message | DeviceHeard::Part => {
                let collected = record_of(self.again, self.lost, frame, response);
                self.recorded.push_reserved(collected);
                self.sender.answered(false);
                self.lost = false;
            }
            DeviceHeard::NotYet { .. } => self.sender.answered(self.again),
            DeviceHeard::Unsupported
            | DeviceHeard::Refused { .. }
            | DeviceHeard::Reply
            | DeviceHeard::Ignored => self.sender.answered(false),
        }
        heard
    }

    /// Ends the open transaction, if there is one, without an answer. A poll that ends so stays unanswered.
    pub fn over(&mut self)
        ensures { self.new ≡ after_over self.old }
    {
        self.sender.over();
    }

    /// What was recorded and not forgotten, in order.
    pub fn recorded(&self) -> &[Collected]
        ensures { result.now ≡ self.now.recorded }
    {
        self.recorded.as_slice()
    }

    /// Forgets the first `count` of what was recorded, or all if there are fewer. Later messages take their room.
    pub fn forget(&mut self, count: usize)
        ensures { self.new ≡ record self.old { recorded = drop count self.old.recorded } }
    {
        forget(&mut self.recorded, count);
    }
}
