//! What the things are called of which one is chosen.

ghost use Rattle.std.specs.Prelude.{◌≡◌, ◌<◌, ◌≤◌, [], ◌∷◌, ◌++◌, length, IfOk, OnErr, OnOk};

use arrayvec::ArrayVec;
use rdm_frame::Text;
use std::alloc::{AllocError, Global};
use std::marker::Model;

/// What one of several things is called of which one is chosen, as a curve or a frequency (E1.37-1).
#[derive(Debug, Drop, PartialEq, Eq)]
pub struct ChoiceName {
    /// The PID of the parameter that tells it, such as CURVE_DESCRIPTION.
    pub pid: u16,
    /// The number of the thing, from 1.
    pub number: u8,
    /// The frequency, in hertz, if it is one; else it isn't told.
    pub hertz: u32,
    /// What it is called.
    pub name: Text,
}

/// What the things are called of which one is chosen: at most 64, and most often none. A contract sees the list of them.
// Behind a pointer, as `OwnParameters`.
#[derive(Debug, Drop)]
pub struct ChoiceNames {
    list: Option<Box<ArrayVec<ChoiceName, 64>>>,
}

impl Model for ChoiceNames {
    ghost use Rattle.std.specs.Prelude.{List};
    ghost use Rattle.rdm_profile.specs.declared.profile.choices.ChoiceName.{ChoiceName};
    ghost use Rattle.rdm_profile.specs.Views.Own.{listed};

    ghost Value = { List ChoiceName };

    ghost view = { λ c. listed 64 c.list };
}

impl ChoiceNames {
    /// No names.
    pub fn none() -> Self
        ensures { result ≡ [] }
    {
        ChoiceNames { list: None }
    }

    /// These names. They take memory unless there are none.
    pub fn of(alloc: Global, list: ArrayVec<ChoiceName, 64>) -> Result<Self, AllocError>
        ensures { IfOk result (λ names. names ≡ list.items) }
    {
        if list.is_empty() {
            return Ok(ChoiceNames::none());
        }
        let list = Some(Box::new(alloc, list)?);
        Ok(ChoiceNames { list })
    }

    /// The names.
    pub fn as_slice(&self) -> &[ChoiceName]
        ensures value { result.now ≡ self.now }
        ensures few { length result.now ≤ 64 }
    {
        match &self.list {
            Some(list) => list.as_slice(),
            None => &[],
        }
    }

    /// Adds a name, behind those that there are. There must be room.
    pub fn push(&mut self, alloc: Global, name: ChoiceName) -> Result<(), AllocError>
        requires { length self.old < 64 }
        ensures pushed { OnOk result (self.new ≡ self.old ++ name ∷ []) }
        ensures same { OnErr result (self.new ≡ self.old) }
    {
        match &mut self.list {
            Some(list) => list.push(name),
            None => {
                let mut list = ArrayVec::new();
                list.push(name);
                self.list = Some(Box::new(alloc, list)?);
            }
        }
        Ok(())
    }
}

impl PartialEq for ChoiceNames {
    ghost use Rattle.std.specs.Cmp.Lexicographic.{lists_per, pointwise};
    ghost use Rattle.rdm_profile.specs.contracts.profile.choices.ChoiceNamePartialEq.TheImpl.Laws as names;

    ghost eq = { pointwise ⟦<ChoiceName as PartialEq>⟧.eq };

    ghost laws = { lists_per names.laws-law };

    fn eq(&self, other: &Self) -> bool {
        self.as_slice() == other.as_slice()
    }
}

impl Eq for ChoiceNames {
    ghost use Rattle.std.specs.Cmp.Lexicographic.{lists_equiv};
    ghost use Rattle.rdm_profile.specs.contracts.profile.choices.ChoiceNameEq.TheImpl.Laws as names;

    ghost laws = { lists_equiv names.laws-law };
}
