//! Where devices are likely to stand.

use std::alloc::{AllocError, Global};

/// How many slots there are for each device.
const SLOTS_EACH: usize = 4;

/// 2^64 divided by the golden ratio. Products of numbers that are counted up with it differ in their upper bits.
const SPREAD: u64 = 0x9E37_79B9_7F4A_7C15;

/// Where the devices of a line are likely to stand, by which one of many is found without a search. That takes 8 bytes for each.
///
/// The number of a UID gives a slot, and the slot says where the last device stands whose number gives it. So a hint may be wrong, and
/// whoever takes it looks at what stands there.
#[derive(Drop)]
pub(crate) struct Hints {
    slots: Vec<u16>,
}

impl Hints {
    /// No hints.
    pub(crate) fn new(alloc: Global) -> Hints {
        Hints {
            slots: Vec::new(alloc),
        }
    }

    /// Makes room for the hints of so many devices.
    pub(crate) fn make_room(&mut self, devices: usize) -> Result<(), AllocError> {
        let slots = devices.saturating_mul(SLOTS_EACH);
        self.slots
            .reserve_exact(slots.saturating_sub(self.slots.len()))
    }

    /// Notes where the devices with these numbers stand. There has to be room.
    pub(crate) fn note_all(&mut self, numbers: &[u64]) {
        self.slots.clear();
        // If there were no room there would be no hints, and all would be searched for.
        let _ = self
            .slots
            .resize(numbers.len().saturating_mul(SLOTS_EACH), 0);
        for index in 0..numbers.len() {
            self.note(numbers[index], index);
        }
    }

    /// Notes where the device with this number stands. From the 65,537th on none is noted.
    fn note(&mut self, number: u64, index: usize) {
        let slot = slot_of(number, self.slots.len());
        if let (Some(hint), Ok(place)) = (self.slots.get_mut(slot), u16::try_from(index)) {
            *hint = place;
        }
    }

    /// Where the device with this number stands, unless the hint is wrong.
    pub(crate) fn place(&self, number: u64) -> usize {
        match self.slots.get(slot_of(number, self.slots.len())) {
            Some(place) => *place as usize,
            None => 0,
        }
    }
}

/// The slot that a number gives, of so many: the upper half of its product with the constant says how far it is from the first.
fn slot_of(number: u64, slots: usize) -> usize {
    let spread = number.wrapping_mul(SPREAD) >> 32;
    (spread.wrapping_mul(slots as u64) >> 32) as usize
}
