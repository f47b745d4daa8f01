//! Whether devices can take what the data of a command stand for.

ghost use Rattle.std.specs.Prelude.{Some, Ok, Err, ◌≡◌, ◌≤◌, length, slice_get, true, IfSome, IfErr, IsOk};
ghost use Rattle.std.specs.List.{list_all};
ghost use Rattle.rdm_commands.specs.Commands.Commands.{read_data, suits, addressed, is_all_call};
ghost use Rattle.rdm_table.specs.Table.Rows.{command_of};
ghost use Rattle.rdm_table.specs.Table.Kinds.{pid_of};
ghost use Rattle.rdm_table.specs.Table.Uses.{way_of, is_bare, read, in_range_of};

use super::Devices;
use super::addressing::is_all_call;
use rdm_device::{Argument, Place};
use rdm_frame::Nack;
use rdm_table::{Found, Kind, Verb, all_in_range, is_taken_at};

impl Devices {
    /// Whether the devices that a command is for can take the value that its data stand for, or the first reason why not.
    // The caller keeps the value: one that is handed on behind these tests is copied.
    #[inline(always)]
    #[tactic(auto, using(crate::proofs::ReadData::out_of_range, crate::proofs::ReadData::one_taken, crate::proofs::ReadData::all_taken, crate::proofs::ReadData::unsuited))]
    pub(super) fn can_take(
        &self,
        sub: u16,
        verb: Verb,
        found: Found,
        place: &Place<'_>,
        data: &[u8],
        value: &Argument<'_>,
    ) -> Result<(), Nack>
        requires first { slice_get (addressed self.now sub verb) 0 ≡ Some place.now }
        requires way { found.way ≡ way_of (command_of (pid_of found.kind) verb) }
        requires bare { found.is_bare ≡ is_bare (command_of (pid_of found.kind) verb) }
        requires read { read (command_of (pid_of found.kind) verb) data.now ≡ Ok value.now }
        ensures ok { IsOk result → read_data self.now sub (command_of (pid_of found.kind) verb) verb data.now ≡ Ok value.now }
        ensures err { IfErr result (λ nack. read_data self.now sub (command_of (pid_of found.kind) verb) verb data.now ≡ Err nack) }
    {
        if !is_taken_at(verb, found, place, value) {
            return Err(Nack::DataOutOfRange);
        }
        if is_all_call(sub, verb) {
            self.suits_each(sub, verb, found, value)?;
        }
        Ok(())
    }

    /// Whether every sub-device can take a value at once, if the first can, or the first reason why not.
    // Inlined, as is what it calls but for the loop: a call would save and restore the registers of the SET.
    #[inline(always)]
    fn suits_each(
        &self,
        sub: u16,
        verb: Verb,
        found: Found,
        value: &Argument<'_>,
    ) -> Result<(), Nack>
        requires all { is_all_call sub verb ≡ true }
        requires some { 1 ≤ length self.now.subs }
        requires first { IfSome (slice_get (addressed self.now sub verb) 0) (λ spot. in_range_of (command_of (pid_of found.kind) verb) spot value.now ≡ true) }
        requires way { found.way ≡ way_of (command_of (pid_of found.kind) verb) }
        ensures { result ≡ suits self.now sub (command_of (pid_of found.kind) verb) verb value.now }
    {
        if !self.is_in_range_at_each(sub, found.kind, verb, value) {
            return Err(Nack::DataOutOfRange);
        }
        if found.way.is_by_job() {
            return Err(Nack::SubDeviceOutOfRange);
        }
        Ok(())
    }

    /// Whether a value that is in the range of a SET of every sub-device at the first of them is so at all.
    // The range of a start address alone depends on what a sub-device keeps: no other is asked for again.
    #[inline(always)]
    #[tactic(auto, using(crate::proofs::OtherRanges::in_range_at_all))]
    fn is_in_range_at_each(&self, sub: u16, kind: Kind, verb: Verb, value: &Argument<'_>) -> bool
        requires all { is_all_call sub verb ≡ true }
        requires some { 1 ≤ length self.now.subs }
        requires first { IfSome (slice_get (addressed self.now sub verb) 0) (λ spot. in_range_of (command_of (pid_of kind) verb) spot value.now ≡ true) }
        ensures { result ≡ list_all (λ spot. in_range_of (command_of (pid_of kind) verb) spot value.now) (addressed self.now sub verb) }
    {
        if kind.pid() == Kind::DmxStartAddress.pid() {
            all_in_range(&self.profile, kind, verb, &self.subs[1..], value)
        } else {
            true
        }
    }
}
