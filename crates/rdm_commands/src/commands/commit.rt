//! The ends of jobs.

ghost use Rattle.std.specs.Prelude.{◌≡◌, true};
ghost use Rattle.rdm_table.specs.declared.kind.Verb.TheVariants.{Set};
ghost use Rattle.rdm_profile.specs.declared.value.Value.TheVariants.{Byte};
ghost use Rattle.rdm_table.specs.Table.Rows.{command_of};
ghost use Rattle.rdm_commands.specs.Commands.Commands.{carried_out};
ghost use Rattle.rdm_added.specs.Map.{update};
ghost use Rattle.rdm_device.specs.Device.Measuring.{measured_by};
ghost use Rattle.rdm_commands.specs.Jobs.Commit.{after_commit, committed, set_response, get_response};
ghost use Rattle.rdm_table.specs.Table.Uses.{is_slow};

use super::Devices;
use crate::{Outcome, Work};
use rdm_device::{Argument, measure};
use rdm_frame::standard::{GET_COMMAND_RESPONSE, SET_COMMAND_RESPONSE};
use rdm_frame::{Body, Message};
use rdm_table::{Verb, kind_of, reply_into};

impl Devices {
    /// Ends the job of a slow command, and gives the message that tells of it (E1.20 sections 6.3.3 and 10.3.1).
    ///
    /// `Done` carries out the SET, and the message is its response, without data. With `Reading` the sensor shows what
    /// it measured, and after `Failed` nothing has changed: the message is then the response to a GET, with the data
    /// that it reads now.
    #[tactic(auto, unfolding(crate::specs::Jobs::Commit::after_commit, crate::specs::Jobs::Commit::committed))]
    pub fn commit(&mut self, work: &Work, outcome: Outcome) -> Message
        requires { is_slow (command_of work.now.pid work.now.verb) ≡ true }
        ensures message { result ≡ committed self.old work.now outcome }
        ensures after { self.new ≡ after_commit self.old work.now outcome }
    {
        match outcome {
            Outcome::Done => {
                self.finish(work);
                set_response(work)
            }
            Outcome::Reading(value) => {
                self.measure(work.arg, value);
                self.get_response(work)
            }
            Outcome::Failed { .. } => self.get_response(work),
        }
    }

    /// Carries out the SET of a job.
    fn finish(&mut self, work: &Work)
        requires { is_slow (command_of work.now.pid work.now.verb) ≡ true }
        ensures { self.new ≡ carried_out self.old work.now.sub (command_of work.now.pid Set) (Byte work.now.arg) }
    {
        if let Some(kind) = kind_of(work.pid) {
            let value = Argument::from_byte(work.arg);
            self.carry_out(work.sub, kind, &value);
        }
    }

    /// A sensor has measured a value.
    #[tactic(auto, using(rdm_device::proofs::SensorReads::root_measures))]
    fn measure(&mut self, number: u8, value: i16)
        ensures { self.new ≡ record self.old { root = update (measured_by number value) self.old.root } }
    {
        measure(&mut self.own, number, value);
    }

    /// The response to a GET of the parameter, with the data that it reads now.
    fn get_response(&self, work: &Work) -> Message
        requires { is_slow (command_of work.now.pid work.now.verb) ≡ true }
        ensures { result ≡ get_response self.now work.now }
    {
        let mut body = Body::new();
        if let Some(kind) = kind_of(work.pid) {
            if let Some(place) = self.first_place(work.sub, Verb::Get) {
                let value = Argument::from_byte(work.arg);
                reply_into(kind, Verb::Get, &place, &value, &mut body);
            }
        }
        Message {
            class: GET_COMMAND_RESPONSE,
            pid: work.pid,
            sub: work.sub,
            body,
        }
    }
}

/// The response to the SET of a work.
fn set_response(work: &Work) -> Message
    ensures { result ≡ set_response work.now }
{
    Message {
        class: SET_COMMAND_RESPONSE,
        pid: work.pid,
        sub: work.sub,
        body: Body::new(),
    }
}
