//! A personality that has slots of its own as a plain struct of C's.

ghost use Rattle.std.specs.Prelude.{◌≡◌, ◌≤◌, IfOk, length, map};
ghost use Rattle.rdm_profile.specs.Modes.{shape_of};
ghost use Rattle.rdm_c.specs.Modes.{are_there, mode_in, own_slots_in, slot_in, HaveFewSlots};

use crate::profile::lists::Numbers;
use crate::profile::{SlotNumbers, TextNumbers};
use arrayvec::ArrayVec;
use rdm_device::{Mode, ModeShape, Modes, SlotList};
use rdm_params::{Personality, Slot};
use std::alloc::{AllocError, Global};

/// More slots than a mode can have of its own.
const TOO_MANY_SLOTS: u8 = 47;

/// A personality of the root that has slots of its own, or those of another one (E1.20 sections 10.6.1 and 10.6.4). The header calls it
/// `felosumay_mode`.
#[repr(C)]
#[derive(Clone, Copy)]
pub struct ModeNumbers {
    /// How many DMX512 slots it uses.
    pub footprint: u16,
    /// Which of the slots of all modes is the first of its own, from 0.
    pub first_slot: u16,
    /// How many are its own, from that one on.
    pub slot_count: u8,
    /// The number of the personality whose slots it has, from 1; 0 if it has its own.
    pub slots_of: u8,
    /// What it is called.
    pub name: TextNumbers,
}

impl ModeNumbers {
    /// Whether its slots are there, among so many.
    fn are_there(&self, count: usize) -> bool
        ensures { result ≡ are_there self.now count }
    {
        usize::from(self.first_slot) + usize::from(self.slot_count) <= count
    }

    /// What the rules of a profile ask of it, with its slots among these.
    fn shape(&self, slots: &[SlotNumbers]) -> ModeShape
        ensures { result ≡ shape_of (mode_in slots.now self.now) }
    {
        ModeShape {
            footprint: self.footprint,
            slots_of: self.slots_of,
            slots: self.own_count(slots),
        }
    }

    /// How many slots of its own it has, of these.
    fn own_count(&self, slots: &[SlotNumbers]) -> u8
        ensures { result ≡ length (own_slots_in slots.now self.now) }
    {
        if self.are_there(slots.len()) {
            self.slot_count
        } else {
            TOO_MANY_SLOTS
        }
    }

    /// The mode, with its slots among these.
    fn mode(&self, alloc: Global, slots: &[SlotNumbers]) -> Result<Mode, AllocError>
        requires { length (own_slots_in slots.now self.now) ≤ 46 }
        ensures { IfOk result (λ mode. mode ≡ mode_in slots.now self.now) }
    {
        let slots = listed(alloc, self.own_slots(slots))?;
        Ok(Mode {
            personality: Personality {
                footprint: self.footprint,
                name: self.name.text(),
            },
            slots_of: self.slots_of,
            slots,
        })
    }

    /// Its own slots, of these.
    fn own_slots<'a>(&self, slots: &'a [SlotNumbers]) -> &'a [SlotNumbers]
        requires { length (own_slots_in slots.now self.now) ≤ 46 }
        ensures value { map slot_in result.now ≡ own_slots_in slots.now self.now }
        ensures few { length result.now ≤ 46 }
    {
        let first = usize::from(self.first_slot);
        &slots[first..first + usize::from(self.slot_count)]
    }
}

/// A list of these slots.
fn listed(alloc: Global, numbers: &[SlotNumbers]) -> Result<SlotList, AllocError>
    requires { length numbers.now ≤ 46 }
    ensures { IfOk result (λ list. list ≡ map slot_in numbers.now) }
{
    if numbers.is_empty() {
        return Ok(SlotList::none());
    }
    let mut slots: Vec<Slot> = Vec::with_capacity(alloc, numbers.len())?;
    for number in numbers {
        slots.push(number.entry())?;
    }
    Ok(SlotList::of(slots))
}

/// What the rules of a profile ask of these modes, with their slots among these.
pub(super) fn shapes_of(modes: &[ModeNumbers], slots: &[SlotNumbers]) -> ArrayVec<ModeShape, 247>
    requires { length modes.now ≤ 247 }
    ensures { result.items ≡ map shape_of (map (mode_in slots.now) modes.now) }
{
    let mut shapes = ArrayVec::new();
    for mode in modes {
        shapes.push(mode.shape(slots));
    }
    shapes
}

/// The modes, with their slots among these.
pub(super) fn modes_of(
    alloc: Global,
    modes: &[ModeNumbers],
    slots: &[SlotNumbers],
) -> Result<Modes, AllocError>
    requires count { length modes.now ≤ 247 }
    requires slots { HaveFewSlots slots.now modes.now }
    ensures { IfOk result (λ made. made ≡ map (mode_in slots.now) modes.now) }
{
    let mut made = Modes::with_room(alloc, modes.len())?;
    for mode in modes {
        made.push(alloc, mode.mode(alloc, slots)?)?;
    }
    Ok(made)
}
