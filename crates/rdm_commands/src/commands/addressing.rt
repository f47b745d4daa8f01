//! The devices that a command is for.

ghost use Rattle.std.specs.Prelude.{◌≡◌, ◌≤◌, IsTrue, Some, length, slice_get};
ghost use Rattle.std.specs.List.{list_all};
ghost use Rattle.std.specs.Option.{option_map};
ghost use Rattle.rdm_table.specs.declared.kind.Verb.TheVariants.{Get};
ghost use Rattle.rdm_commands.specs.Commands.Commands.{addressed, is_some_device, is_all_call, root_spot, sub_spot};
ghost use Rattle.rdm_table.specs.Table.Rows.{command_of};
ghost use Rattle.rdm_table.specs.Table.Kinds.{pid_of};
ghost use Rattle.rdm_table.specs.Table.Uses.{in_range_of};

use super::Devices;
use rdm_device::{Argument, Place};
use rdm_frame::standard::SUB_DEVICE_ALL_CALL;
use rdm_table::{Kind, Verb, all_in_range, is_in_range};

impl Devices {
    /// Whether there is the device that a GET is for.
    // Apart from `first_place`, since most GETs need the place of the device, which lies in memory, only after they were found.
    #[inline(always)]
    #[tactic(auto, using(crate::proofs::Places::is_there, crate::proofs::Places::is_not_there))]
    pub(super) fn has_device(&self, sub: u16) -> bool
        ensures there { result ≡ is_some_device (addressed self.now sub Get) }
        ensures within { IsTrue result → sub ≤ length self.now.subs }
    {
        usize::from(sub) <= self.subs.len()
    }

    /// The device that a GET is for, where `has_device` said that there is one.
    #[inline(always)]
    #[tactic(auto, using(crate::proofs::Places::first_of_one))]
    pub(super) fn place_of(&self, sub: u16) -> Place<'_>
        requires { sub ≤ length self.now.subs }
        ensures { slice_get (addressed self.now sub Get) 0 ≡ Some result }
    {
        if sub == 0 {
            return self.root_place();
        }
        Place::of_sub(&self.profile, &self.subs[usize::from(sub) - 1])
    }

    /// The first device that a command is for, if there is one.
    #[tactic(auto, using(crate::proofs::Places::first_of_subs, crate::proofs::Places::first_of_one))]
    pub(super) fn first_place(&self, sub: u16, verb: Verb) -> Option<Place<'_>>
        ensures { result ≡ slice_get (addressed self.now sub verb) 0 }
    {
        if sub == 0 {
            return Some(self.root_place());
        }
        if is_all_call(sub, verb) {
            return self.sub_place(0);
        }
        self.sub_place(sub as usize - 1)
    }

    /// The sub-device at this place, from 0, if there is one.
    #[tactic(auto, using(crate::proofs::Places::at_place))]
    pub(super) fn sub_place(&self, index: usize) -> Option<Place<'_>>
        ensures { result ≡ option_map (sub_spot self.now) (slice_get self.now.subs index) }
    {
        match self.subs.get(index) {
            Some(common) => Some(Place::of_sub(&self.profile, common)),
            None => None,
        }
    }

    /// The root.
    #[inline(always)]
    pub(super) fn root_place(&self) -> Place<'_>
        ensures { result ≡ root_spot self.now }
    {
        Place::of_root(&self.profile, &self.root, &self.own)
    }

    /// Whether a value is in range at each device that a command is for, of which this is the first place.
    #[inline(always)]
    pub(super) fn is_in_range_at(
        &self,
        sub: u16,
        kind: Kind,
        verb: Verb,
        place: &Place<'_>,
        value: &Argument<'_>,
    ) -> bool
        requires { slice_get (addressed self.now sub verb) 0 ≡ Some place.now }
        ensures { result ≡ list_all (λ spot. in_range_of (command_of (pid_of kind) verb) spot value.now) (addressed self.now sub verb) }
    {
        if is_all_call(sub, verb) {
            all_in_range(&self.profile, kind, verb, &self.subs, value)
        } else {
            is_in_range(kind, verb, place, value)
        }
    }
}

/// Whether a command is a SET of every sub-device.
pub(super) fn is_all_call(sub: u16, verb: Verb) -> bool
    ensures { result ≡ is_all_call sub verb }
{
    match verb {
        Verb::Get => false,
        Verb::Set => sub == SUB_DEVICE_ALL_CALL,
    }
}
