//! What a console does to carry a command out.

ghost use Rattle.std.specs.Prelude.{◌≡◌, ◌-◌, Some};
ghost use Rattle.rdm_console.specs.Conversations.{after_answer, after_fetched, after_letter, after_message, after_poll, after_verdict, after_wait, answered_as, ask_if, behind_answer, behind_poll, fresh, letter_of, new_talk, poll_if, without_queue};
ghost use Rattle.rdm_console.specs.Mailboxes.{post_in};

use crate::fetching::Patience;
use crate::{Awaiting, Came, Fetched, Fetching, Mailbox, Verdict};
use rdm_collector::{Action, Command, Response, Wire, read_reply};
use rdm_frame::Entry;
use std::marker::Model;

/// How many messages are fetched at most while a result is waited for.
const MOST_FETCHES: u16 = 60;

/// How many tenths of a second there are between two polls for a result that is late.
const BETWEEN: u16 = 5;

/// How a device answers a command that is sent once.
#[derive(Clone, Copy, Debug, PartialEq, Eq)]
pub enum Answered {
    /// By this response.
    By(Response),
    /// By a response type that E1.20 doesn't have (table A-2).
    Unknown,
    /// Not at all.
    Silent,
}

impl Answered {
    /// How a command was answered of which this came, and these bytes.
    pub fn of(came: Came, heard: &Option<Wire>) -> Answered
        ensures { result ≡ answered_as came heard.now }
    {
        let (Came::Reply, Some(bytes)) = (came, heard) else {
            return Answered::Silent;
        };
        match read_reply(bytes.as_slice()) {
            Some(said) => Answered::By(said.response),
            None => Answered::Unknown,
        }
    }
}

/// Why the result of a command isn't had.
#[derive(Clone, Copy, Debug, PartialEq, Eq)]
pub enum Lack {
    /// The device doesn't answer, as often as it was asked.
    Silent,
    /// It answers by a response type that E1.20 doesn't have.
    Unknown,
    /// It gives no messages, and the command is no GET: it can't be sent again, since it was carried out perhaps.
    NoQueue,
    /// The result isn't among as many messages as are fetched.
    NoResult,
    /// The device gives more parts of a message or of a reply than there can be.
    Endless,
}

/// What a console does next.
#[derive(Clone, Copy, Debug, PartialEq, Eq)]
pub enum Next {
    /// It sends the command.
    Ask,
    /// It sends a poll, which fetches a message, or a part of one.
    Poll,
    /// It waits.
    Wait {
        /// So many tenths of a second.
        tenths: u16,
    },
    /// It has the result: the command was answered so at last, by ACK or by NACK_REASON.
    Over(Response),
    /// It knows that the command failed, and this is what the device says of it (E1.20 section 10.3.2).
    Failed(Entry),
    /// It can't have the result.
    GiveUp(Lack),
}

/// What a console does to carry a command out that is for one device.
///
/// It sends the command, and all parts of the reply are had by sending it again (E1.20 section 6.3.2). If the device needs time
/// (section 6.3.3), it waits for as long as the device estimates, and then fetches its messages, until the result is among them.
/// A device that gives none is asked again, if the command is a GET. A request that isn't answered is sent again, three times in a row at
/// most.
#[derive(Debug, Drop)]
pub struct Conversation<'a> {
    awaiting: Awaiting<'a>,
    /// With the reply to the command.
    answering: Patience,
    /// The message that is fetched.
    fetching: Fetching,
    /// How many more messages are fetched.
    left: u16,
}

impl<'a> Model for Conversation<'a> {
    ghost use Rattle.rdm_console.specs.Conversations.{Talk};

    ghost Value = { Talk };

    ghost view = { λ c. record {
      waiting = c.awaiting;
      answering = c.answering;
      fetching = c.fetching;
      fetches_left = c.left;
    } };
}

impl<'a> Conversation<'a> {
    /// One for this command. Nothing was sent yet, and the command is to be sent next: `Next::Ask`.
    pub fn new(command: &'a Command) -> Conversation<'a>
        ensures { result ≡ new_talk command.now }
    {
        Conversation {
            awaiting: Awaiting::new(command),
            answering: Patience::fresh(),
            fetching: Fetching::new(),
            left: MOST_FETCHES,
        }
    }

    /// Hears how the command was answered, which was sent once. Says what is done next.
    pub fn hear_answer(&mut self, answered: Answered) -> Next
        ensures next { result ≡ after_answer self.old answered }
        ensures new { self.new ≡ behind_answer self.old answered }
    {
        match answered {
            Answered::By(Response::AckOverflow) => {
                let has_more = self.answering.has_more();
                self.answering = self.answering.with_part();
                ask_if(has_more, Lack::Endless)
            }
            Answered::Silent => {
                let may_repeat = self.answering.may_repeat();
                self.answering = self.answering.with_silence();
                ask_if(may_repeat, Lack::Silent)
            }
            Answered::By(Response::Ack) => self.answered(Next::Over(Response::Ack)),
            Answered::By(Response::Nack { reason }) => {
                self.answered(Next::Over(Response::Nack { reason }))
            }
            Answered::By(Response::AckTimer { tenths }) => self.answered(Next::Wait { tenths }),
            Answered::Unknown => self.answered(Next::GiveUp(Lack::Unknown)),
        }
    }

    /// Hears what came of a poll, which was sent once; a message is in the mailbox. Says what is done next.
    pub fn hear_poll(&mut self, came: Came, mailbox: &Mailbox) -> Next
        ensures next { result ≡ after_poll self.old came (post_in mailbox.now.message) }
        ensures new { self.new ≡ behind_poll self.old came (post_in mailbox.now.message) }
    {
        match self.fetching.hear(came) {
            Some(fetched) => self.hear_fetched(fetched, mailbox),
            None => Next::Poll,
        }
    }

    /// What is done next when it was waited.
    pub fn waited(&self) -> Next
        ensures { result ≡ after_wait self.now }
    {
        poll_if(self.left)
    }

    /// The reply ended, and this is done next.
    fn answered(&mut self, next: Next) -> Next
        ensures next { result ≡ next }
        ensures new { self.new ≡ record self.old { answering = fresh } }
    {
        self.answering = Patience::fresh();
        next
    }

    /// Hears what was fetched.
    fn hear_fetched(&mut self, fetched: Fetched, mailbox: &Mailbox) -> Next
        ensures next { result ≡ after_fetched (self.old.fetches_left - 1) self.old.waiting (post_in mailbox.now.message) fetched }
        ensures new { self.new ≡ record self.old {
          waiting = after_letter self.old.waiting (letter_of (Some fetched) (post_in mailbox.now.message));
          fetches_left = self.old.fetches_left - 1;
        } }
    {
        self.left = self.left.saturating_sub(1);
        match fetched {
            Fetched::Message => hear_message(&mut self.awaiting, self.left, mailbox),
            Fetched::Repeat => poll_if(self.left),
            Fetched::Nothing => Next::Wait { tenths: BETWEEN },
            Fetched::NotYet { tenths } => Next::Wait { tenths },
            Fetched::NoQueue => without_queue(self.awaiting.action()),
            Fetched::Refused { .. } => without_queue(self.awaiting.action()),
            Fetched::Silent => Next::GiveUp(Lack::Silent),
            Fetched::Endless => Next::GiveUp(Lack::Endless),
        }
    }
}

/// Hears the message that a mailbox has, when so many more may be fetched.
fn hear_message(awaiting: &mut Awaiting<'_>, left: u16, mailbox: &Mailbox) -> Next
    ensures next { result ≡ after_message left awaiting.old (post_in mailbox.now.message) }
    ensures new { awaiting.new ≡ after_letter awaiting.old (post_in mailbox.now.message) }
{
    match mailbox.letter() {
        Some(letter) => after_verdict(left, awaiting.hear(&letter.message)),
        None => poll_if(left),
    }
}

/// What a message says of the command, when so many more may be fetched.
fn after_verdict(left: u16, verdict: Verdict) -> Next
    ensures { result ≡ after_verdict left verdict }
{
    match verdict {
        Verdict::Waits => poll_if(left),
        Verdict::Done => Next::Over(Response::Ack),
        Verdict::Rejected { reason } => Next::Over(Response::Nack { reason }),
        Verdict::NeedsTime { tenths } => Next::Wait { tenths },
        Verdict::Failed(entry) => Next::Failed(entry),
    }
}

/// The command is sent again, if it may be, or given up for this reason.
fn ask_if(may: bool, lack: Lack) -> Next
    ensures { result ≡ ask_if may lack }
{
    if may { Next::Ask } else { Next::GiveUp(lack) }
}

/// A message is fetched, if so many more may be.
fn poll_if(left: u16) -> Next
    ensures { result ≡ poll_if left }
{
    if left > 0 {
        Next::Poll
    } else {
        Next::GiveUp(Lack::NoResult)
    }
}

/// What is done where a device gives no messages.
fn without_queue(action: Action) -> Next
    ensures { result ≡ without_queue action }
{
    match action {
        Action::Get => Next::Ask,
        Action::Set | Action::Disc => Next::GiveUp(Lack::NoQueue),
    }
}
