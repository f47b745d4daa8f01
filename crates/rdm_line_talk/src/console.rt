//! A console: it sends commands through a port, and tells what is answered.

use crate::recorder::Recorder;
use crate::telling::Teller;
use rdm_collector::{Action, Command, Port, Response, Wire, read_reply};
use rdm_console::{Mailbox, ask_through};
use rdm_host::fault::Fault;
use rdm_host::host::Host;
use rdm_words::Question;
use std::io::Write;

/// How many questions are asked at most before a reply is told: a status message has at most 25 entries.
const MOST_QUESTIONS: u32 = 32;

/// What a console talks through, and how it tells what it hears.
#[derive(Drop)]
pub struct Console<'a, H, P, F> {
    /// The port, with its trace.
    pub port: Recorder<'a, H, P, F>,
    /// What tells.
    pub teller: Teller<H>,
}

impl<'a, H: Host, P: Port, F: Write> Console<'a, H, P, F> {
    /// What a device answers to a command, which is sent again while it doesn't; nothing if it never does.
    pub fn answer(
        &mut self,
        mailbox: &mut Mailbox,
        command: &Command,
    ) -> Result<Option<Wire>, Fault<'a>> {
        Ok(ask_through(mailbox, &mut self.port, command)?)
    }

    /// Tells the words of a reply of the device of a mailbox. What it takes to say it in words, as the unit of a sensor, is asked
    /// first.
    pub fn tell_reply(&mut self, mailbox: &mut Mailbox, reply: &Wire) -> Result<(), Fault<'a>> {
        self.learn(mailbox, reply)?;
        let teller = self.teller;
        let known = self.port.log().knowledge.of(mailbox.uid());
        teller.tell_reply(reply, &known)
    }

    /// Asks the device of a mailbox what it takes to say a reply in words.
    pub fn learn(&mut self, mailbox: &mut Mailbox, reply: &Wire) -> Result<(), Fault<'a>> {
        for _turn in 0..MOST_QUESTIONS {
            let missing = self
                .port
                .log()
                .knowledge
                .missing(mailbox.uid(), reply.as_slice());
            let Some(question) = missing else {
                return Ok(());
            };
            let answer = self.inquire(mailbox, &question)?;
            self.port.log().knowledge.note(&question, data_in(&answer))?;
        }
        Ok(())
    }

    /// What the device of a mailbox answers to a question, if it does.
    fn inquire(
        &mut self,
        mailbox: &mut Mailbox,
        question: &Question,
    ) -> Result<Option<Wire>, Fault<'a>> {
        let command = Command {
            dst: question.uid,
            action: Action::Get,
            sub: 0,
            pid: question.pid,
            load: question.data.copy(),
        };
        self.answer(mailbox, &command)
    }
}

/// The data of an answer, if it is an ACK.
fn data_in(answer: &Option<Wire>) -> Option<&[u8]> {
    let Some(reply) = answer else {
        return None;
    };
    match read_reply(reply.as_slice()) {
        Some(said) if said.response == Response::Ack => Some(said.body),
        _ => None,
    }
}
