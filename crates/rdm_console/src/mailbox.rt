//! The messages of one device, sorted as they come.

ghost use Rattle.std.specs.Prelude.{◌≡◌, ◌↔◌, ◌≤◌, ◌+◌, ◌++◌, [], ◌∷◌, List, Some, None, IsSome, IsTrue, IfOk, OnOk, OnErr, IsErrOf, vec_len, vec_capacity};
ghost use Rattle.std.specs.Option.{option_to_list};
ghost use Rattle.std.specs.Result.{result_err};
ghost use Rattle.rdm_frame.specs.FrameText.{frame_text, IsFrame};
ghost use Rattle.rdm_collector.specs.declared.any_device.collected.Collected.{Collected as Item};
ghost use Rattle.rdm_collector.specs.Answers.{is_poll};
ghost use Rattle.rdm_collector.specs.Sending.{command_request, poll_request, refusal_of};
ghost use Rattle.rdm_collector.specs.AnyDevice.Collecting.{after_ask, after_poll, sender};
ghost use Rattle.rdm_console.specs.Mailboxes.{IsSorted, Keeps, after_bytes, came_as, collected_of, first_of, heard_as, is_said_by, new_mail, post_in, repeats_last, says_nothing};
ghost use Rattle.rdm_console.specs.Sorting.{cleared, draft_in, put_before, put_message, said_with};

use crate::parcel::Parcel;
use crate::sameness::{goes_on, is_part, is_repeat, says_the_same};
use crate::{Letter, MessageView};
use rdm_collector::{
    AskError, Collected, Command, DeviceCollector, DeviceHeard, PollError, Uid, Want, Wire,
};
use rdm_frame::standard::STATUS_MESSAGES;
use std::alloc::Global;
use std::marker::Model;
use std::mem;

/// What a message is for a console, or a part of one.
#[derive(Clone, Copy, Debug, PartialEq, Eq)]
pub enum Sorted {
    /// A message, or the last part of one: it is handed on, and `letter` has it.
    Letter,
    /// A part, of which more follow (E1.20 section 6.3.2).
    Part,
    /// A message that was handed on before: it was asked for again, and says the same (section 10.3.1).
    Repeat,
    /// Nothing waits: it is a status message that is empty, or says what the message before it said (section 10.3.2).
    Nothing,
}

/// What comes of a request.
#[derive(Clone, Copy, Debug, PartialEq, Eq)]
pub enum Came {
    /// The answer to a poll: a message, or a part of one.
    Message(Sorted),
    /// The reply to a command.
    Reply,
    /// The device has no queue: it rejects QUEUED_MESSAGE as an unknown PID.
    NoQueue,
    /// The device rejects the poll.
    Refused {
        /// The code of the reason (table A-17).
        reason: u16,
    },
    /// The device needs time for the poll (section 6.3.3).
    NotYet {
        /// The estimate, in tenths of a second.
        tenths: u16,
    },
    /// Nothing that answers it.
    Ignored,
}

/// The messages of one device, which a console fetches and sorts as they come.
///
/// It sends what a `DeviceCollector` sends. Parts are joined as they come; what is handed on is each message once, whole. A message
/// whose rest doesn't come, since something else came behind its parts, isn't handed on.
#[derive(Debug, Drop)]
pub struct Mailbox {
    uid: Uid,
    collector: DeviceCollector,
    /// Whether a request waits for its answer.
    is_open: bool,
    /// What was collected last.
    last: Option<Collected>,
    /// The message that it belongs to.
    message: Parcel,
    /// The message before that.
    before: Parcel,
}

impl Model for Mailbox {
    ghost use Rattle.std.specs.Prelude.{◌≡◌, ◌≤◌, ◌+◌, [], IsTrue, is_some, vec_len, vec_capacity};
    ghost use Rattle.rdm_collector.specs.Answers.{is_poll};
    ghost use Rattle.rdm_console.specs.Mailboxes.{Mail};
    ghost use Rattle.rdm_console.specs.Sorting.{draft_in, is_ended};

    ghost Value = { Mail };

    ghost view = { λ m. record {
      device = m.uid;
      collector = m.collector;
      last = m.last;
      message = draft_in m.message;
      before = draft_in m.before;
    } };

    // What was collected is sorted at once; while a poll is open there is room for its answer; and a message has its end as soon as what
    // came last is no part.
    ghost invariant = { λ m.
        (m.collector.recorded ≡ [])
        × (m.is_open ≡ is_some m.collector.transaction)
        × (is_some m.message.end ≡ is_ended m.last)
        × (IsTrue (is_poll m.collector.transaction) → (vec_len m.message.body + 231 ≤ vec_capacity m.message.body) × (231 ≤ vec_capacity m.before.body)) };
}

impl Mailbox {
    /// One for the messages of the target, for a console with this UID. Nothing came yet.
    pub fn new(alloc: Global, console: Uid, target: Uid, want: Want) -> Mailbox
        ensures { result ≡ new_mail console target want }
    {
        Mailbox {
            uid: target,
            collector: DeviceCollector::new(alloc, console, target, want),
            is_open: false,
            last: None,
            message: Parcel::new(alloc),
            before: Parcel::new(alloc),
        }
    }

    /// The device.
    pub fn uid(&self) -> Uid
        ensures { result ≡ self.now.device }
    {
        self.uid
    }

    /// The message that came last, if it is whole.
    pub fn letter(&self) -> Option<Letter<'_>>
        ensures { result ≡ post_in self.now.message }
    {
        self.message.letter()
    }

    /// Sends a command: gives the bytes of its request. It is rejected as a `DeviceCollector` rejects it, and then nothing changes.
    pub fn ask(&mut self, command: &Command) -> Result<Wire, AskError>
        ensures refused { result_err result ≡ refusal_of (sender self.old.collector) command.now }
        ensures sent { IfOk result (λ wire. wire ≡ frame_text (command_request (sender self.old.collector) command.now)) }
        ensures new { OnOk result (self.new ≡ record self.old { collector = after_ask self.old.collector command.now }) }
        ensures err { OnErr result (self.new ≡ self.old) }
    {
        match self.collector.ask(command) {
            Ok(request) => {
                self.is_open = true;
                Ok(request)
            }
            Err(error) => Err(error),
        }
    }

    /// Fetches the next message, or the next part of one: gives the bytes of a poll. It is rejected while a request waits for its
    /// answer, and then if there is no memory for what it may fetch; and then nothing changes.
    pub fn poll(&mut self) -> Result<Wire, PollError>
        ensures sent { IfOk result (λ wire. wire ≡ frame_text (poll_request (sender self.old.collector))) }
        ensures new { OnOk result (self.new ≡ record self.old { collector = after_poll self.old.collector }) }
        ensures busy { IsErrOf result PollError.Busy ↔ IsSome self.old.collector.transaction }
        ensures err { OnErr result (self.new ≡ self.old) }
    {
        if self.is_open {
            return Err(PollError::Busy);
        }
        if self.message.reserve().is_err() || self.before.reserve().is_err() {
            return Err(PollError::OutOfMemory);
        }
        match self.collector.poll() {
            Ok(request) => {
                self.is_open = true;
                Ok(request)
            }
            Err(error) => Err(error),
        }
    }

    /// Hears what came after a request, or that nothing did, ends its transaction, and says what it is.
    pub fn hear(&mut self, heard: &Option<Wire>) -> Came
        // What is collected is sorted as the whole list of what was collected says.
        ensures sorted { (all : List Item) (item : Item) → Keeps self.old all → collected_of self.old.collector heard.now ≡ Some item
            → (said : Sorted) × (result ≡ Came.Message said) × IsSorted all self.old.last item said (post_in self.new.message) }
        ensures keeps { (all : List Item) → Keeps self.old all → Keeps self.new (all ++ option_to_list (collected_of self.old.collector heard.now)) }
        ensures other { collected_of self.old.collector heard.now ≡ None → result ≡ came_as (heard_as self.old.collector heard.now) }
        ensures device { self.new.device ≡ self.old.device }
        ensures collector { self.new.collector ≡ cleared (after_bytes self.old.collector heard.now) }
    {
        let (taken, item) = listen(&mut self.collector, heard);
        self.is_open = false;
        let Some(item) = item else {
            return came_of(taken);
        };
        let repeats = repeats_last(&self.last, &item);
        put(&mut self.message, &mut self.before, &self.last, &item);
        let is_part = is_part(item.response);
        self.last = Some(item);
        Came::Message(sort_of(is_part, repeats, &self.before, &self.message))
    }
}

/// What a collector takes what came for, and what it collected then, which it forgets.
#[tactic(auto, using(crate::proofs::Hearing::polls_alone))]
fn listen(collector: &mut DeviceCollector, heard: &Option<Wire>) -> (DeviceHeard, Option<Collected>)
    requires { collector.old.recorded ≡ [] }
    ensures heard { result.0 ≡ heard_as collector.old heard.now }
    ensures item { result.1 ≡ collected_of collector.old heard.now }
    ensures poll { IsSome result.1 → IsTrue (is_poll collector.old.transaction) }
    ensures new { collector.new ≡ cleared (after_bytes collector.old heard.now) }
{
    let taken = take(collector, heard);
    let item = first_of(collector.recorded());
    collector.forget(collector.recorded().len());
    (taken, item)
}

/// What a collector takes what came for. Its transaction is over then.
fn take(collector: &mut DeviceCollector, heard: &Option<Wire>) -> DeviceHeard
    ensures heard { result ≡ heard_as collector.old heard.now }
    ensures new { collector.new ≡ after_bytes collector.old heard.now }
{
    let taken = match heard {
        Some(bytes) => collector.hear(bytes.as_slice()),
        None => DeviceHeard::Ignored,
    };
    collector.over();
    taken
}

/// The first of what was collected, copied.
fn first_of(recorded: &[Collected]) -> Option<Collected>
    ensures { result ≡ first_of recorded.now }
{
    match recorded {
        [] => None,
        [item, ..] => Some(Collected {
            response: item.response,
            message: item.message.copy(),
            again: item.again,
            after_loss: item.after_loss,
        }),
    }
}

/// What it comes to if nothing was collected.
fn came_of(taken: DeviceHeard) -> Came
    ensures { result ≡ came_as taken }
{
    match taken {
        DeviceHeard::Reply => Came::Reply,
        DeviceHeard::Unsupported => Came::NoQueue,
        DeviceHeard::Refused { reason } => Came::Refused { reason },
        DeviceHeard::NotYet { tenths } => Came::NotYet { tenths },
        DeviceHeard::Message | DeviceHeard::Part | DeviceHeard::Ignored => Came::Ignored,
    }
}

/// Whether this may be a repeat of what was collected last.
fn repeats_last(last: &Option<Collected>, item: &Collected) -> bool
    ensures { result ≡ repeats_last last.now item.now }
{
    match last {
        Some(last) => is_repeat(last, item),
        None => false,
    }
}

/// Adds what was collected to the message that it goes on with, or begins another with it.
fn put(message: &mut Parcel, before: &mut Parcel, last: &Option<Collected>, item: &Collected)
    requires room { vec_len message.old.body + 231 ≤ vec_capacity message.old.body }
    requires room_before { 231 ≤ vec_capacity before.old.body }
    ensures message { draft_in message.new ≡ put_message (draft_in message.old) last.now item.now }
    ensures before { draft_in before.new ≡ put_before (draft_in before.old) (draft_in message.old) last.now item.now }
{
    match last {
        Some(last) if goes_on(last, item) => message.add(last, item),
        _ => {
            mem::swap(message, before);
            message.begin(item);
        }
    }
}

/// What was collected last is for a console, by its message and the one before that.
fn sort_of(is_part: bool, repeats: bool, before: &Parcel, message: &Parcel) -> Sorted
    ensures { result ≡ said_with is_part repeats (post_in (draft_in before.now)) (post_in (draft_in message.now)) }
{
    if is_part {
        return Sorted::Part;
    }
    if repeats {
        return Sorted::Repeat;
    }
    match message.letter() {
        Some(letter) if !says_nothing(before, &letter.message) => Sorted::Letter,
        _ => Sorted::Nothing,
    }
}

/// Whether a message says that nothing waits, behind the message before it.
fn says_nothing(before: &Parcel, message: &MessageView<'_>) -> bool
    ensures { result ≡ says_nothing (post_in (draft_in before.now)) message.now }
{
    message.pid == STATUS_MESSAGES && (message.body.len() == 0 || is_said_by(before, message))
}

/// Whether a message says what the one before it said.
fn is_said_by(before: &Parcel, message: &MessageView<'_>) -> bool
    ensures { result ≡ is_said_by (post_in (draft_in before.now)) message.now }
{
    match before.letter() {
        Some(letter) => says_the_same(&letter.message, message),
        None => false,
    }
}
