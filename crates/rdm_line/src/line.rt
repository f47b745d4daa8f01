//! The line.

ghost use Rattle.std.specs.Prelude.{◌≡◌, ◌<◌, length, slice_index, IfSome};

use crate::hints::Hints;
use crate::{Collision, Device};
use rdm_frame::{Uid, Wire};
use std::alloc::Global;
use std::marker::Model;

/// A line: devices of different UIDs on one pair of wires.
///
/// Beside what the devices take, there are 16 bytes of memory for each: 8 for the number of its UID, and 8 for hints where it stands.
#[derive(Drop)]
pub struct Line<D: Device> {
    // In the order of their UIDs.
    pub(crate) devices: Vec<D>,
    // The number of the UID of each device, by which it is found.
    pub(crate) numbers: Vec<u64>,
    // Where each number is likely to stand.
    pub(crate) hints: Hints,
    pub(crate) rule: Collision,
    // Where the answers to a broadcast are heard. It has a place here so that none is made for each.
    pub(crate) spare: Wire,
}

impl<D: Device> Model for Line<D> {
    ghost use Rattle.std.specs.Prelude.{◌≡◌, length, map};
    ghost use Rattle.rdm_line.specs.Line.{State, AreInOrder, uid_of};

    ghost Value = { State D };

    ghost view = { λ l. record { devices = l.devices.items; uids = map uid_of l.numbers.items; rule = l.rule } };

    ghost invariant = { λ l. AreInOrder l.numbers.items × (length l.devices.items ≡ length l.numbers.items) };
}

impl<D: Device> Line<D> {
    ghost use Rattle.std.specs.Prelude.{◌≡◌, ◌≢◌, ◌↔◌, ◌<◌, ℕ, true, [], length, slice_get, All, AllPairs, Contains, IsSome, IfSome, Some};
    ghost use Rattle.rdm_search.specs.Line.{IsDevice};
    ghost use Rattle.std.specs.Borrow.{sem};
    ghost use Rattle.rdm_line.specs.Lends.{lends_device};
    ghost use Rattle.rdm_line.specs.Line.{StandFor, IsOnlyAt};

    /// A line with no device, on which collisions sound so.
    pub fn new(alloc: Global, rule: Collision) -> Line<D>
        ensures devices { result.devices ≡ [] }
        ensures rule { result.rule ≡ rule }
        ensures stands { StandFor D.stands result [] }
    {
        Line {
            devices: Vec::new(alloc),
            numbers: Vec::new(alloc),
            hints: Hints::new(alloc),
            rule,
            spare: Wire::new(),
        }
    }

    /// How many devices there are.
    pub fn len(&self) -> usize
        ensures { result ≡ length self.now.devices }
    {
        self.devices.len()
    }

    /// Whether there is none.
    pub fn is_empty(&self) -> bool
        ensures { (result ≡ true) ↔ (self.now.devices ≡ []) }
    {
        self.devices.is_empty()
    }

    /// The devices, in the order of their UIDs.
    pub fn devices(&self) -> &[D]
        ensures { result.now ≡ self.now.devices }
    {
        self.devices.as_slice()
    }

    /// The device with this UID.
    pub fn get(&self, uid: Uid) -> Option<&D>
        ensures found { IsSome result ↔ Contains self.now.uids uid }
        ensures one { IfSome result (λ d. (i : ℕ) × IsOnlyAt uid self.now.uids i × (slice_get self.now.devices i ≡ Some d.now)) }
    {
        let index = self.find(uid)?;
        Some(&self.devices[index])
    }

    /// The device with this UID, for what happens to it beside the line: it must keep its UID. The others stay.
    pub fn get_mut(&mut self, uid: Uid) -> Option<&mut D>
        ensures* writes_back { sem 𝓛 (lends_device D.row D.Device self.entry uid result) }
        ensures found { IsSome result ↔ Contains self.old.uids uid }
    {
        let index = self.find(uid)?;
        self.devices.get_mut(index)
    }

    /// Its devices have different UIDs, each that of one device. The call does nothing: it is there for its clauses.
    pub fn uids_differ(&self)
        ensures devices { All (λ u. IsDevice u) self.now.uids }
        ensures differ { AllPairs (λ u v. u ≢ v) self.now.uids }
    {
        // What holds of every line is known where a field is read.
        let _count = self.numbers.len();
    }

    /// Where the device with this UID stands.
    pub fn find(&self, uid: Uid) -> Option<usize>
        ensures found { IsSome result ↔ Contains self.now.uids uid }
        ensures place { IfSome result (λ i. IsOnlyAt uid self.now.uids i × (i < length self.now.devices)) }
    {
        let number = uid.number();
        match place_if_there(self.numbers.as_slice(), number, self.hints.place(number)) {
            Some(index) => Some(index),
            None => self.numbers.binary_search(&number).ok(),
        }
    }
}

/// This place, if the number stands there.
fn place_if_there(numbers: &[u64], number: u64, place: usize) -> Option<usize>
    ensures { IfSome result (λ i. (i < length numbers.now) × (slice_index numbers.now i ≡ number)) }
{
    if place < numbers.len() && numbers[place] == number {
        Some(place)
    } else {
        None
    }
}
