//! DMX_BLOCK_ADDRESS (E1.37-1), which tells and sets where the slots of all sub-devices lie. The root keeps nothing of it.

ghost use Rattle.std.specs.Prelude.{◌≡◌, ◌≢◌, ◌↔◌, [], false, true, Ok, Err, IfOk, IfErr};
ghost use Rattle.rdm_table.specs.declared.kind.Verb.TheVariants.{Set};
ghost use Rattle.rdm_commands.specs.declared.verdict.Verdict.TheVariants.{Reply, Refuse};
ghost use Rattle.rdm_device.specs.Device.Blocks.{fits};
ghost use Rattle.rdm_commands.specs.Commands.Added.{row_here, handed_here};
ghost use Rattle.rdm_commands.specs.Commands.Commands.{accepted, root_spot, sub_spots, block_taken, got, answer_to_set, after_set};

use super::Devices;
use crate::commands::added::{is_protected, parameter_of, take_set};
use rdm_device::columns::added;
use rdm_device::{Argument, block_fits, block_shown, start_block};
use rdm_frame::{Body, Nack};

/// DMX_BLOCK_ADDRESS (E1.37-1).
pub(crate) const DMX_BLOCK_ADDRESS: u16 = 0x0140;

impl Devices {
    /// What a GET of it at the root answers.
    // A call, so that the others don't make room for it.
    #[cold]
    #[inline(never)]
    pub(super) fn get_block(&self, data: &[u8], body: &mut Body) -> Result<(), Nack>
        requires { body.old ≡ [] }
        ensures ok { IfOk result (λ u. got self.now 0 0x0140 data.now ≡ Reply body.new) }
        ensures err { IfErr result (λ nack. got self.now 0 0x0140 data.now ≡ Refuse nack) }
        ensures empty { result ≢ Ok tt → body.new ≡ [] }
    {
        match self.get_at_root(DMX_BLOCK_ADDRESS, data, body) {
            Ok(()) => {
                body.clear();
                block_shown(&self.profile, self.subs.as_slice(), body);
                Ok(())
            }
            Err(nack) => Err(nack),
        }
    }

    /// What a SET of it at the root changes, and whether that is another value of a start address.
    // A call, as that for a GET.
    #[cold]
    #[inline(never)]
    #[tactic(auto, using(crate::proofs::BlockCommands::block_moves, crate::proofs::BlockCommands::block_stays, crate::proofs::BlockCommands::block_answers, crate::proofs::BlockCommands::block_refuses))]
    pub(super) fn set_block(&mut self, data: &[u8]) -> Result<bool, Nack>
        ensures ok { IfOk result (λ differs. answer_to_set self.old 0 0x0140 data.now ≡ Reply []) }
        ensures err { IfErr result (λ nack. answer_to_set self.old 0 0x0140 data.now ≡ Refuse nack) }
        ensures after { self.new ≡ after_set self.old 0 0x0140 data.now }
        ensures same { IfOk result (λ differs. (differs ≡ false) ↔ (self.new ≡ self.old)) }
        ensures kept { IfErr result (λ nack. self.new ≡ self.old) }
    {
        match self.take_block(data) {
            Ok(base) => Ok(start_block(&self.profile, self.subs.as_mut_slice(), base)),
            Err(nack) => Err(nack),
        }
    }

    /// The base address that a SET of it at the root hands in, or the first reason to refuse it.
    #[tactic(auto, using(crate::proofs::BlockCommands::taken_at_root))]
    fn take_block(&self, data: &[u8]) -> Result<u16, Nack>
        ensures ok { IfOk result (λ base. block_taken self.now (accepted self.now 0 0x0140 Set data.now) ≡ Ok base) }
        ensures err { IfErr result (λ nack. block_taken self.now (accepted self.now 0 0x0140 Set data.now) ≡ Err nack) }
        ensures fits { IfOk result (λ base. fits base (sub_spots self.now) ≡ true) }
    {
        match self.take_at_root(data) {
            Ok(value) => self.base_in(&value),
            Err(nack) => Err(nack),
        }
    }

    /// What the data of a SET at the root stand for, or the first reason to refuse it: as of any parameter that the profile adds.
    #[tactic(auto, using(crate::proofs::AddedRows::parameter_here, crate::proofs::AddedRows::nothing_here))]
    fn take_at_root<'a>(&self, data: &'a [u8]) -> Result<Argument<'a>, Nack>
        ensures { result ≡ handed_here (root_spot self.now) 0x0140 (row_here self.now.profile 0x0140) Set data.now }
    {
        let profile = &self.profile;
        match parameter_of(profile, DMX_BLOCK_ADDRESS) {
            Some(def) => {
                let values = self.own.added.as_slice();
                let protected = is_protected(profile, values, DMX_BLOCK_ADDRESS, def, data);
                let no_pin = added::is_no_pin(DMX_BLOCK_ADDRESS, data);
                take_set(def, protected, no_pin, data, &self.own)
            }
            None => Err(Nack::UnknownPid),
        }
    }

    /// The base address in a value, if the block can start there.
    fn base_in(&self, value: &Argument<'_>) -> Result<u16, Nack>
        ensures value { result ≡ block_taken self.now (Ok value.now) }
        ensures fits { IfOk result (λ base. fits base (sub_spots self.now) ≡ true) }
    {
        let base = value.word().unwrap_or(0);
        if block_fits(&self.profile, self.subs.as_slice(), base) {
            Ok(base)
        } else {
            Err(Nack::DataOutOfRange)
        }
    }
}
