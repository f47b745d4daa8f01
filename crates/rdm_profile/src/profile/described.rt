//! The personalities of the root, and the slots that are described of each.

ghost use Rattle.std.specs.Prelude.{◌≡◌, ◌≤◌, length};
ghost use Rattle.std.specs.Option.{option_copied};
ghost use Rattle.rdm_profile.specs.Modes.{mode_at, own_slots, root_personalities, slots_at, slots_of};

use crate::{Mode, Profile, Slot};

impl Profile {
    /// How many personalities the root has: those of its `Unit`, and the modes behind them (E1.20 section 10.6.1).
    pub fn root_personality_count(&self) -> u8
        ensures { result ≡ length (root_personalities self.now) }
    {
        (self.root.personalities.len() + self.particulars.modes().len()) as u8
    }

    /// The slots that are described of the root's personality of this number, from 1 (section 10.6.4).
    pub fn slots_at(&self, number: u8) -> &[Slot]
        ensures value { result.now ≡ slots_at self.now number }
        ensures few { length result.now ≤ 46 }
    {
        self.own_slots(self.slots_of(number))
    }

    /// The number of the personality whose slots the one of this number has.
    fn slots_of(&self, number: u8) -> u8
        ensures { result ≡ slots_of self.now number }
    {
        match self.mode_at(number) {
            Some(mode) if mode.slots_of != 0 => mode.slots_of,
            _ => number,
        }
    }

    /// The slots that are described with the personality of this number: a mode's own, and else those of the profile.
    fn own_slots(&self, number: u8) -> &[Slot]
        ensures value { result.now ≡ own_slots self.now number }
        ensures few { length result.now ≤ 46 }
    {
        match self.mode_at(number) {
            Some(mode) => mode.slots.as_slice(),
            None => self.slots.as_slice(),
        }
    }

    /// The mode that the personality of this number is, if it is one.
    fn mode_at(&self, number: u8) -> Option<&Mode>
        ensures { option_copied result ≡ mode_at self.now number }
    {
        let (number, units) = (number as usize, self.root.personalities.len());
        if number <= units {
            return None;
        }
        self.particulars.modes().get(number - units - 1)
    }
}
