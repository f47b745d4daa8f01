//! What sets a device apart from one that has the standard's parameters as the table has them.

ghost use Rattle.std.specs.Prelude.{◌≡◌, ◌≤◌, [], length, IfOk, IsTrue};
ghost use Rattle.rdm_profile.specs.Particulars.{usual_particular};

use crate::{
    ChoiceName, ChoiceNames, Estimates, Lock, Locks, Mode, Modes, MuteReply, OwnParameters,
    ParameterDef,
};
use arrayvec::ArrayVec;
use std::alloc::{AllocError, Global};
use std::marker::Model;

/// What sets a device apart from one that has the standard's parameters as the table has them.
#[derive(Debug, Drop, PartialEq, Eq)]
pub struct Particular {
    /// The parameters that the maker adds, in the order of their PIDs.
    pub own: OwnParameters,
    /// What the things are called of which parameters let choose one, by ascending PID and number.
    pub choices: ChoiceNames,
    /// Which parameters the lock states keep from being set.
    pub locks: Locks,
    /// The PIDs of the standard's parameters that the device doesn't have. Most devices need not have them (table A-3).
    pub without: ArrayVec<u16, 36>,
    /// How many DMX512 slots the root device uses beside those that the profile describes.
    pub more_slots: u16,
    /// How long its slow commands take.
    pub estimates: Estimates,
    /// What the answers to DISC_MUTE and DISC_UN_MUTE tell of it (section 7.6).
    pub mute_reply: MuteReply,
    /// Whether the message of a change at its menu takes the place of one that still waits and tells of the same parameter.
    pub newest_only: bool,
    /// The personalities of the root that have slots of their own, behind those of its `Unit`.
    pub modes: Modes,
}

impl Particular {
    /// Nothing that sets it apart.
    pub fn usual() -> Self
        ensures { result ≡ usual_particular }
    {
        Particular {
            own: OwnParameters::none(),
            choices: ChoiceNames::none(),
            locks: Locks::none(),
            without: ArrayVec::new(),
            more_slots: 0,
            estimates: Estimates::usual(),
            mute_reply: MuteReply::plain(),
            newest_only: false,
            modes: Modes::none(),
        }
    }

    /// Whether there is nothing that sets it apart.
    fn is_usual(&self) -> bool
        ensures { IsTrue result → self.now ≡ usual_particular }
    {
        self.adds_none()
            && self.without.is_empty()
            && self.more_slots == 0
            && self.estimates == Estimates::usual()
            && self.mute_reply == MuteReply::plain()
            && !self.newest_only
            && self.modes.as_slice().is_empty()
    }

    /// Whether it adds no parameters, and nothing that belongs to them.
    fn adds_none(&self) -> bool
        ensures own { IsTrue result → self.now.own ≡ [] }
        ensures choices { IsTrue result → self.now.choices ≡ [] }
        ensures locks { IsTrue result → self.now.locks ≡ [] }
    {
        self.own.as_slice().is_empty()
            && self.choices.as_slice().is_empty()
            && self.locks.as_slice().is_empty()
    }
}

/// What sets a device apart. A contract sees the `Particular`.
// Behind a pointer, so that a device which nothing sets apart has no room for it, and a request asks no more than whether it is there.
#[derive(Debug, Drop)]
pub struct Particulars {
    inner: Option<Box<Particular>>,
}

impl Model for Particulars {
    ghost use Rattle.rdm_profile.specs.declared.profile.particulars.Particular.{Particular};
    ghost use Rattle.rdm_profile.specs.Particulars.{particular_of};

    ghost Value = { Particular };

    ghost view = { λ p. particular_of p.inner };
}

impl Particulars {
    /// Nothing that sets a device apart.
    pub fn usual() -> Self
        ensures { result ≡ usual_particular }
    {
        Particulars { inner: None }
    }

    /// These. They take memory unless nothing is set apart by them.
    pub fn of(alloc: Global, particular: Particular) -> Result<Self, AllocError>
        ensures { IfOk result (λ particulars. particulars ≡ particular) }
    {
        if particular.is_usual() {
            return Ok(Particulars::usual());
        }
        let inner = Some(Box::new(alloc, particular)?);
        Ok(Particulars { inner })
    }

    /// The parameters that the maker adds.
    #[inline(always)]
    pub fn own(&self) -> &[ParameterDef]
        ensures value { result.now ≡ self.now.own }
        ensures few { length result.now ≤ 32 }
    {
        match &self.inner {
            Some(particular) => particular.own.as_slice(),
            None => &[],
        }
    }

    /// What the things are called of which parameters let choose one.
    #[inline(always)]
    pub fn choices(&self) -> &[ChoiceName]
        ensures value { result.now ≡ self.now.choices }
        ensures few { length result.now ≤ 64 }
    {
        match &self.inner {
            Some(particular) => particular.choices.as_slice(),
            None => &[],
        }
    }

    /// Which parameters the lock states keep from being set.
    #[inline(always)]
    pub fn locks(&self) -> &[Lock]
        ensures value { result.now ≡ self.now.locks }
        ensures few { length result.now ≤ 64 }
    {
        match &self.inner {
            Some(particular) => particular.locks.as_slice(),
            None => &[],
        }
    }

    /// The PIDs of the standard's parameters that the device doesn't have.
    #[inline(always)]
    pub fn without(&self) -> &[u16]
        ensures value { result.now ≡ self.now.without.items }
        ensures few { length result.now ≤ 36 }
    {
        match &self.inner {
            Some(particular) => particular.without.as_slice(),
            None => &[],
        }
    }

    /// How many DMX512 slots the root device uses beside those that the profile describes.
    pub fn more_slots(&self) -> u16
        ensures { result ≡ self.now.more_slots }
    {
        match &self.inner {
            Some(particular) => particular.more_slots,
            None => 0,
        }
    }

    /// How long its slow commands take.
    #[inline(always)]
    pub fn estimates(&self) -> Estimates
        ensures { result ≡ self.now.estimates }
    {
        match &self.inner {
            Some(particular) => particular.estimates,
            None => Estimates::usual(),
        }
    }

    /// What the answers to DISC_MUTE and DISC_UN_MUTE tell of it.
    pub fn mute_reply(&self) -> MuteReply
        ensures { result ≡ self.now.mute_reply }
    {
        match &self.inner {
            Some(particular) => particular.mute_reply,
            None => MuteReply::plain(),
        }
    }

    /// Whether the message of a change at its menu takes the place of one that still waits and tells of the same parameter.
    pub fn newest_only(&self) -> bool
        ensures { result ≡ self.now.newest_only }
    {
        match &self.inner {
            Some(particular) => particular.newest_only,
            None => false,
        }
    }

    /// The personalities of the root that have slots of their own.
    #[inline(always)]
    pub fn modes(&self) -> &[Mode]
        ensures value { result.now ≡ self.now.modes }
        ensures few { length result.now ≤ 247 }
    {
        match &self.inner {
            Some(particular) => particular.modes.as_slice(),
            None => &[],
        }
    }
}

impl PartialEq for Particulars {
    ghost use Rattle.rdm_profile.specs.contracts.profile.particulars.ParticularPartialEq.TheImpl.Laws as each;

    ghost eq = { ⟦<Particular as PartialEq>⟧.eq };

    ghost laws = { each.laws-law };

    fn eq(&self, other: &Self) -> bool {
        self.own() == other.own()
            && self.choices() == other.choices()
            && self.locks() == other.locks()
            && self.without() == other.without()
            && self.more_slots() == other.more_slots()
            && self.estimates() == other.estimates()
            && self.mute_reply() == other.mute_reply()
            && self.newest_only() == other.newest_only()
            && self.modes() == other.modes()
    }
}

impl Eq for Particulars {
    ghost use Rattle.rdm_profile.specs.contracts.profile.particulars.ParticularEq.TheImpl.Laws as each;

    ghost laws = { each.laws-law };
}
