//! Which parameters a lock state keeps from being set.

ghost use Rattle.std.specs.Prelude.{◌≡◌, ◌<◌, ◌≤◌, [], ◌∷◌, ◌++◌, length, IfOk, OnErr, OnOk};

use arrayvec::ArrayVec;
use std::alloc::{AllocError, Global};
use std::marker::Model;

/// A parameter that a lock state keeps from being set (E1.37-1 LOCK_STATE).
#[derive(Clone, Copy, Debug, Default, PartialEq, Eq)]
pub struct Lock {
    /// The lock state, from 1. In state 0 the device is unlocked.
    pub state: u8,
    /// The PID of the parameter.
    pub pid: u16,
}

/// Which parameters lock states keep from being set: at most 64, and most often none. A contract sees the list of them.
// Behind a pointer, as `OwnParameters`.
#[derive(Debug, Drop)]
pub struct Locks {
    list: Option<Box<ArrayVec<Lock, 64>>>,
}

impl Model for Locks {
    ghost use Rattle.std.specs.Prelude.{List};
    ghost use Rattle.rdm_profile.specs.declared.profile.locks.Lock.{Lock};
    ghost use Rattle.rdm_profile.specs.Views.Own.{listed};

    ghost Value = { List Lock };

    ghost view = { λ c. listed 64 c.list };
}

impl Locks {
    /// No locks.
    pub fn none() -> Self
        ensures { result ≡ [] }
    {
        Locks { list: None }
    }

    /// These locks. They take memory unless there are none.
    pub fn of(alloc: Global, list: ArrayVec<Lock, 64>) -> Result<Self, AllocError>
        ensures { IfOk result (λ locks. locks ≡ list.items) }
    {
        if list.is_empty() {
            return Ok(Locks::none());
        }
        let list = Some(Box::new(alloc, list)?);
        Ok(Locks { list })
    }

    /// The locks.
    pub fn as_slice(&self) -> &[Lock]
        ensures value { result.now ≡ self.now }
        ensures few { length result.now ≤ 64 }
    {
        match &self.list {
            Some(list) => list.as_slice(),
            None => &[],
        }
    }

    /// Adds a lock, behind those that there are. There must be room.
    pub fn push(&mut self, alloc: Global, lock: Lock) -> Result<(), AllocError>
        requires { length self.old < 64 }
        ensures pushed { OnOk result (self.new ≡ self.old ++ lock ∷ []) }
        ensures same { OnErr result (self.new ≡ self.old) }
    {
        match &mut self.list {
            Some(list) => list.push(lock),
            None => {
                let mut list = ArrayVec::new();
                list.push(lock);
                self.list = Some(Box::new(alloc, list)?);
            }
        }
        Ok(())
    }
}

impl PartialEq for Locks {
    ghost use Rattle.std.specs.Cmp.Lexicographic.{lists_per, pointwise};
    ghost use Rattle.rdm_profile.specs.contracts.profile.locks.LockPartialEq.TheImpl.Laws as each;

    ghost eq = { pointwise ⟦<Lock as PartialEq>⟧.eq };

    ghost laws = { lists_per each.laws-law };

    fn eq(&self, other: &Self) -> bool {
        self.as_slice() == other.as_slice()
    }
}

impl Eq for Locks {
    ghost use Rattle.std.specs.Cmp.Lexicographic.{lists_equiv};
    ghost use Rattle.rdm_profile.specs.contracts.profile.locks.LockEq.TheImpl.Laws as each;

    ghost laws = { lists_equiv each.laws-law };
}
