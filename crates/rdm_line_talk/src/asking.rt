//! A command is sent, and its result waited for.

use crate::console::Console;
use crate::parts::Parts;
use crate::telling::CONSOLE;
use rdm_collector::{Command, Port, Response, Want};
use rdm_console::{Answered, Came, Conversation, Entry, Lack, Mailbox, Next, ask_once, poll_once};
use rdm_frame::Uid;
use rdm_host::fault::Fault;
use rdm_host::host::Host;
use rdm_host::line_fault::LineFault;
use rdm_words::put_cause;
use std::io::Write;

/// What came of a command.
#[derive(Debug, Drop)]
pub enum Outcome {
    /// The device did it, and these are the data of its reply.
    Done(Vec<u8>),
    /// It rejects it, for the reason with this code (E1.20 table A-17).
    Rejected(u16),
    /// It failed after some time, for this reason.
    Failed(String),
    /// The result isn't had.
    Lacks(Lack),
}

/// What is told of that which a command is answered.
#[derive(Clone, Copy, PartialEq, Eq)]
enum Voice {
    /// All of it.
    Loud,
    /// Messages that aren't its result: the device doesn't give them again.
    Quiet,
}

impl<'a, H: Host, P: Port, F: Write> Console<'a, H, P, F> {
    /// Sends a command, and tells what is answered. If the result comes later, it is waited for. What is for several devices isn't
    /// answered (E1.20 section 6.2.4).
    pub fn ask(&mut self, command: &Command) -> Result<(), Fault<'a>> {
        let alloc = self.teller.rt().alloc();
        let mut mailbox = Mailbox::new(alloc, CONSOLE, command.dst, Want::Advisory);
        if command.dst.is_broadcast() {
            let request = mailbox.ask(command)?;
            self.port.exchange(&request)?;
            return Ok(());
        }
        let mut estimate = None;
        match self.converse(&mut mailbox, command, Voice::Loud, &mut estimate)? {
            Outcome::Done(_) => Ok(()),
            outcome => Err(Fault::Line(fault_of(command.dst, outcome))),
        }
    }

    /// Sends a command to the device of a mailbox, and gives what came of it. If the result comes later, it is waited for. It isn't told, but
    /// other messages are that are fetched meanwhile.
    pub fn outcome(
        &mut self,
        mailbox: &mut Mailbox,
        command: &Command,
    ) -> Result<Outcome, Fault<'a>> {
        let (outcome, _estimate) = self.outcome_in_time(mailbox, command)?;
        Ok(outcome)
    }

    /// The same, and how long the device said at first that it takes, in tenths of a second, if the result came later (E1.20 section
    /// 6.3.3).
    pub fn outcome_in_time(
        &mut self,
        mailbox: &mut Mailbox,
        command: &Command,
    ) -> Result<(Outcome, Option<u16>), Fault<'a>> {
        let mut estimate = None;
        let outcome = self.converse(mailbox, command, Voice::Quiet, &mut estimate)?;
        Ok((outcome, estimate))
    }

    /// Does what is to be done for a command, until it is over. Notes the first time that is to be waited.
    fn converse(
        &mut self,
        mailbox: &mut Mailbox,
        command: &Command,
        voice: Voice,
        estimate: &mut Option<u16>,
    ) -> Result<Outcome, Fault<'a>> {
        let uid = command.dst;
        let mut conversation = Conversation::new(command);
        let mut parts = Parts::new(self.teller.rt().alloc());
        let mut next = Next::Ask;
        for _turn in 0..u64::MAX {
            next = match next {
                Next::Ask => {
                    let answered = self.answered(mailbox, command, voice, &mut parts)?;
                    conversation.hear_answer(answered)
                }
                Next::Poll => self.polled(mailbox, voice, &mut conversation, &mut parts)?,
                Next::Wait { tenths } => {
                    *estimate = Some(estimate.unwrap_or(tenths));
                    self.teller.wait(uid, tenths);
                    conversation.waited()
                }
                Next::Over(Response::Nack { reason }) => return Ok(Outcome::Rejected(reason)),
                Next::Over(_) => return Ok(Outcome::Done(parts.into_data())),
                Next::Failed(cause) => return Ok(Outcome::Failed(self.cause_words(uid, &cause)?)),
                Next::GiveUp(lack) => return Ok(Outcome::Lacks(lack)),
            };
        }
        Ok(Outcome::Lacks(Lack::NoResult))
    }

    /// Sends a command once. What is answered is told if all is, and the data of all parts, if it is the last of several (E1.20 section
    /// 6.3.2).
    fn answered(
        &mut self,
        mailbox: &mut Mailbox,
        command: &Command,
        voice: Voice,
        parts: &mut Parts,
    ) -> Result<Answered, Fault<'a>> {
        let (came, heard) = ask_once(mailbox, &mut self.port, command)?;
        if let (Came::Reply, Some(reply)) = (came, &heard) {
            let is_last_of_several = parts.take(reply)?;
            if voice == Voice::Loud {
                self.tell_reply(mailbox, reply)?;
                if is_last_of_several {
                    self.teller.tell_joined(parts.data())?;
                }
            }
        }
        Ok(Answered::of(came, &heard))
    }

    /// Polls once, and says what is done next. A message is told, unless it is the result and that isn't told.
    fn polled(
        &mut self,
        mailbox: &mut Mailbox,
        voice: Voice,
        conversation: &mut Conversation<'_>,
        parts: &mut Parts,
    ) -> Result<Next, Fault<'a>> {
        let (came, heard) = poll_once(mailbox, &mut self.port)?;
        let next = conversation.hear_poll(came, mailbox);
        let is_over = matches!(next, Next::Over(_));
        if let (true, Some(letter)) = (is_over, mailbox.letter()) {
            parts.hold(letter.message.body)?;
        }
        if voice == Voice::Loud || !is_over {
            self.tell_polled(mailbox, came, &heard)?;
        }
        Ok(next)
    }

    /// The reason for which a command failed, in words.
    fn cause_words(&mut self, uid: Uid, cause: &Entry) -> Result<String, Fault<'a>> {
        let mut words = String::new(self.teller.rt().alloc());
        put_cause(&mut words, uid, cause, &self.port.log().knowledge.of(uid))?;
        Ok(words)
    }
}

/// The fault of a command to this device that wasn't done, of which this came.
pub fn fault_of<'a>(uid: Uid, outcome: Outcome) -> LineFault<'a> {
    match outcome {
        Outcome::Failed(words) => LineFault::Failed(words),
        Outcome::Lacks(Lack::Silent) => LineFault::Silent(uid),
        Outcome::Lacks(Lack::Unknown) => LineFault::Unknown(uid),
        Outcome::Lacks(Lack::NoQueue) => LineFault::NoQueue(uid),
        Outcome::Lacks(Lack::NoResult) => LineFault::NoResult(uid),
        Outcome::Lacks(Lack::Endless) => LineFault::Endless(uid),
        Outcome::Done(_) | Outcome::Rejected(_) => LineFault::Rejected(uid),
    }
}
