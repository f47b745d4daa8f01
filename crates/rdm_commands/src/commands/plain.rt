//! GETs that hand in no data and are answered at once, as most are.

ghost use Rattle.std.specs.Prelude.{◌≡◌, ◌≢◌, ◌≤◌, length, true, [], Err, IfOk, IfErr};
ghost use Rattle.rdm_table.specs.declared.kind.Verb.TheVariants.{Get};
ghost use Rattle.rdm_table.specs.declared.way.Way.TheVariants.{AtOnce};
ghost use Rattle.rdm_commands.specs.Commands.Commands.{read_data, verdict};
ghost use Rattle.rdm_table.specs.Table.Rows.{command_of};
ghost use Rattle.rdm_table.specs.Table.Kinds.{pid_of};
ghost use Rattle.rdm_table.specs.Table.Uses.{is_bare, way_of};
ghost use Rattle.rdm_commands.specs.Views.Verdicts.{verdict_with, NamesItsJob};

use super::Devices;
use crate::Answer;
use rdm_frame::{Body, Nack};
use rdm_table::{Kind, state_into};

impl Devices {
    /// What such a GET answers, or the first reason to reject it, if this is the first device that it is for.
    // Apart from the other commands: the value that they hand in, and the ways to answer them, would be kept in memory here too.
    #[inline(always)]
    #[tactic(auto, using(crate::proofs::ReadData::one_device, crate::proofs::ReadData::bare_command))]
    pub(super) fn get_plain(
        &self,
        sub: u16,
        kind: Kind,
        data: &[u8],
        body: &mut Body,
    ) -> Result<Answer, Nack>
        requires empty { body.old ≡ [] }
        requires some { sub ≤ length self.now.subs }
        requires bare { is_bare (command_of (pid_of kind) Get) ≡ true }
        requires way { way_of (command_of (pid_of kind) Get) ≡ AtOnce }
        ensures ok { IfOk result (λ answer. verdict_with answer body.new
            ≡ verdict self.now sub (pid_of kind) (command_of (pid_of kind) Get) Get (read_data self.now sub (command_of (pid_of kind) Get) Get data.now)) }
        ensures err { IfErr result (λ nack. read_data self.now sub (command_of (pid_of kind) Get) Get data.now ≡ Err nack) }
        ensures job { IfOk result (λ answer. NamesItsJob self.now.profile answer) }
        ensures empty { result ≢ Ok Answer.Done → body.new ≡ [] }
    {
        if !data.is_empty() {
            return Err(Nack::FormatError);
        }
        state_into(kind, &self.place_of(sub), body);
        Ok(Answer::Done)
    }
}
