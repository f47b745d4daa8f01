//! Personalities that have slots of their own.

ghost use Rattle.std.specs.Prelude.{◌≡◌, ◌<◌, ◌≤◌, [], ◌∷◌, ◌++◌, length, IfOk, OnErr, OnOk};
ghost use Rattle.rdm_profile.specs.Modes.{shape_of};

use crate::{Personality, Slot};
use std::alloc::{AllocError, Global};
use std::marker::Model;

/// The slots that are described of one personality: at most 46, which is how many SLOT_INFO can list. A contract sees the list of them.
#[derive(Debug, Drop)]
pub struct SlotList {
    slots: Option<Vec<Slot>>,
}

impl Model for SlotList {
    ghost use Rattle.std.specs.Prelude.{List, ◌≤◌, length};
    ghost use Rattle.rdm_profile.specs.declared.profile.Slot.{Slot};
    ghost use Rattle.rdm_profile.specs.Views.Own.{gathered};

    ghost Value = { List Slot };

    ghost view = { λ l. gathered l.slots };

    ghost invariant = { λ l. length (gathered l.slots) ≤ 46 };
}

impl SlotList {
    /// No slots.
    pub fn none() -> Self
        ensures { result ≡ [] }
    {
        SlotList { slots: None }
    }

    /// These slots, of which there are at most 46.
    pub fn of(slots: Vec<Slot>) -> Self
        requires { length slots.items ≤ 46 }
        ensures { result ≡ slots.items }
    {
        SlotList { slots: Some(slots) }
    }

    /// The slots.
    pub fn as_slice(&self) -> &[Slot]
        ensures value { result.now ≡ self.now }
        ensures few { length result.now ≤ 46 }
    {
        match &self.slots {
            Some(slots) => slots.as_slice(),
            None => &[],
        }
    }
}

impl PartialEq for SlotList {
    ghost use Rattle.std.specs.Cmp.Lexicographic.{lists_per, pointwise};
    ghost use Rattle.rdm_profile.specs.contracts.profile.SlotPartialEq.TheImpl.Laws as slots;

    ghost eq = { pointwise ⟦<Slot as PartialEq>⟧.eq };

    ghost laws = { lists_per slots.laws-law };

    fn eq(&self, other: &Self) -> bool {
        self.as_slice() == other.as_slice()
    }
}

impl Eq for SlotList {
    ghost use Rattle.std.specs.Cmp.Lexicographic.{lists_equiv};
    ghost use Rattle.rdm_profile.specs.contracts.profile.SlotEq.TheImpl.Laws as slots;

    ghost laws = { lists_equiv slots.laws-law };
}

/// A personality of the root that has slots of its own, or those of another one (E1.20 sections 10.6.1 and 10.6.4).
#[derive(Debug, Drop, PartialEq, Eq)]
pub struct Mode {
    /// How many slots it uses, and what it is called.
    pub personality: Personality,
    /// The number of the personality whose slots it has, from 1; 0 if it has its own.
    pub slots_of: u8,
    /// Its own slots, from the first on.
    pub slots: SlotList,
}

/// What the rules of a profile ask of a mode.
#[derive(Clone, Copy, Debug, Default, PartialEq, Eq)]
pub struct ModeShape {
    /// How many slots it uses.
    pub footprint: u16,
    /// The number of the personality whose slots it has; 0 if it has its own.
    pub slots_of: u8,
    /// How many slots of its own it has.
    pub slots: u8,
}

impl Mode {
    /// What the rules of a profile ask of it.
    pub fn shape(&self) -> ModeShape
        ensures { result ≡ shape_of self.now }
    {
        ModeShape {
            footprint: self.personality.footprint,
            slots_of: self.slots_of,
            slots: self.slots.as_slice().len() as u8,
        }
    }
}

/// The personalities of the root behind those of its `Unit`: at most 247, and most often none. A contract sees the list of them.
// Behind a pointer, as `OwnParameters`.
#[derive(Debug, Drop)]
pub struct Modes {
    list: Option<Box<Vec<Mode>>>,
}

impl Model for Modes {
    ghost use Rattle.std.specs.Prelude.{List, ◌≤◌, length};
    ghost use Rattle.rdm_profile.specs.declared.profile.modes.Mode.{Mode};
    ghost use Rattle.rdm_profile.specs.Views.Own.{grown};

    ghost Value = { List Mode };

    ghost view = { λ m. grown m.list };

    ghost invariant = { λ m. length (grown m.list) ≤ 247 };
}

impl Modes {
    /// No modes.
    pub fn none() -> Self
        ensures { result ≡ [] }
    {
        Modes { list: None }
    }

    /// No modes, with room for so many: pushing them takes no more memory.
    pub fn with_room(alloc: Global, count: usize) -> Result<Self, AllocError>
        ensures { IfOk result (λ modes. modes ≡ []) }
    {
        if count == 0 {
            return Ok(Modes::none());
        }
        let list = Some(Box::new(alloc, Vec::with_capacity(alloc, count)?)?);
        Ok(Modes { list })
    }

    /// The modes.
    pub fn as_slice(&self) -> &[Mode]
        ensures value { result.now ≡ self.now }
        ensures few { length result.now ≤ 247 }
    {
        match &self.list {
            Some(list) => list.as_slice(),
            None => &[],
        }
    }

    /// Adds a mode, behind those that there are. There must be room.
    pub fn push(&mut self, alloc: Global, mode: Mode) -> Result<(), AllocError>
        requires { length self.old < 247 }
        ensures pushed { OnOk result (self.new ≡ self.old ++ mode ∷ []) }
        ensures same { OnErr result (self.new ≡ self.old) }
    {
        match &mut self.list {
            Some(list) => list.push(mode)?,
            None => {
                let mut list = Vec::new(alloc);
                list.push(mode)?;
                self.list = Some(Box::new(alloc, list)?);
            }
        }
        Ok(())
    }
}

impl PartialEq for Modes {
    ghost use Rattle.std.specs.Cmp.Lexicographic.{lists_per, pointwise};
    ghost use Rattle.rdm_profile.specs.contracts.profile.modes.ModePartialEq.TheImpl.Laws as modes;

    ghost eq = { pointwise ⟦<Mode as PartialEq>⟧.eq };

    ghost laws = { lists_per modes.laws-law };

    fn eq(&self, other: &Self) -> bool {
        self.as_slice() == other.as_slice()
    }
}

impl Eq for Modes {
    ghost use Rattle.std.specs.Cmp.Lexicographic.{lists_equiv};
    ghost use Rattle.rdm_profile.specs.contracts.profile.modes.ModeEq.TheImpl.Laws as modes;

    ghost laws = { lists_equiv modes.laws-law };
}
