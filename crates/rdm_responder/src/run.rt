//! A whole run: byte strings that are heard, reports that are handed in and changes at the fixture's own menu, one after
//! another.

ghost use Rattle.std.specs.Prelude.{◌≡◌, [], ◌∷◌, IfOk, OnErr};
ghost use Rattle.rdm_responder.specs.History.{History};
ghost use Rattle.rdm_responder.specs.Runs.{IsRun};
ghost use Rattle.rdm_responder.specs.StandsFor.{StandsFor};

use crate::{Arrival, Astray, NoRoom, Report, Responder};
use rdm_frame::Wire;
use rdm_outbox::Job;
use rdm_params::{Change, Message};
use std::alloc::{AllocError, Global};

/// What a responder is given in a run.
#[derive(Clone, Copy, Debug)]
pub enum Input<'a> {
    /// These bytes are heard.
    Heard(&'a [u8]),
    /// This report is handed in.
    Reported(Report),
    /// This is changed at the fixture's own menu.
    Changed(Change),
}

/// What a responder answers in a run.
#[derive(Debug, Drop, PartialEq, Eq)]
pub enum Output {
    /// To bytes that were heard: the bytes of the reply, if there is one, and the job that started, if one did.
    Answered(Option<Wire>, Option<Job>),
    /// To a report that arrived.
    Arrived(Arrival),
    /// To a report that may not arrive: it comes back.
    HandedBack(Astray),
    /// To a change: the message of it, unless the change is out of range.
    Changed(Option<Message>),
    /// To a change for whose message there is no room: it comes back.
    NoRoom(NoRoom),
}

impl Responder {
    /// Takes these inputs one after another, and gives the output of each.
    ///
    /// Memory for the outputs is taken first, so that if it is refused, nothing was heard and nothing arrived.
    pub fn step_all(
        &mut self,
        alloc: Global,
        inputs: &[Input<'_>],
    ) -> Result<Vec<Output>, AllocError>
        // Each output is that of the rules after all inputs before it.
        ensures ok { IfOk result (λ outputs. (h : History) → StandsFor self.old h →
            (end : History) × StandsFor self.new end × IsRun h inputs.now outputs.items end) }
        ensures err { OnErr result (self.new ≡ self.old) }
    {
        let mut outputs = Vec::with_capacity(alloc, inputs.len())?;
        for input in inputs {
            outputs.push_reserved(self.take(input));
        }
        Ok(outputs)
    }

    /// Takes one input.
    fn take(&mut self, input: &Input<'_>) -> Output
        ensures { (h : History) → StandsFor self.old h →
            (end : History) × StandsFor self.new end × IsRun h (input.now ∷ []) (result ∷ []) end }
    {
        match input {
            Input::Heard(bytes) => {
                let (reply, job) = self.step(bytes);
                Output::Answered(reply, job)
            }
            Input::Reported(report) => match self.arrive(*report) {
                Ok(arrival) => Output::Arrived(arrival),
                Err(astray) => Output::HandedBack(astray),
            },
            Input::Changed(change) => match self.change(*change) {
                Ok(message) => Output::Changed(message),
                Err(refused) => Output::NoRoom(refused),
            },
        }
    }
}
