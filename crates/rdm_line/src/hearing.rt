//! What a line hears.

ghost use Rattle.std.specs.Prelude.{◌≡◌, ◌≢◌, ◌<◌, ◌≤◌, ◌∷◌, ◌++◌, [], List, ℕ, length, map, slice_index_or, false, IfSome};
ghost use Rattle.std.specs.Bool.{OnFalse};
ghost use Rattle.std.specs.List.{AllZip};
ghost use Rattle.rdm_frame.specs.Addressing.{is_broadcast};
ghost use Rattle.rdm_frame.specs.Reading.{uid_at};
ghost use Rattle.rdm_responder.specs.History.{History, Heard, then_event};
ghost use Rattle.rdm_responder.specs.Rules.{answered, reply_of};
ghost use Rattle.rdm_line.specs.Collisions.{on_wire as wave};
ghost use Rattle.rdm_line.specs.Hearing.{answers, heard_by};
ghost use Rattle.rdm_line.specs.Keeping.{CameTo, HasKept, HaveKept};
ghost use Rattle.rdm_line.specs.Line.{StandFor};

use crate::collision::collide;
use crate::{Collision, Device, Line, OnWire};
use rdm_frame::{Uid, Wire, uid_at};

/// The slot of the destination UID, and the slot behind it (E1.20 section 6.2.4).
const DESTINATION: usize = 3;

const DESTINATION_END: usize = 9;

impl<D: Device> Line<D> {
    /// Gives bytes to each device that their destination addresses, and tells what is on the wire then. Its bytes stand in
    /// `wire`, which stays as it was if nobody answers.
    pub fn hear(&mut self, bytes: &[u8], wire: &mut Wire) -> OnWire
        ensures line { (hs : List History) → StandFor D.stands self.old hs
            → (result, wire.new) ≡ wave self.old.rule wire.old (answers bytes.now hs) }
        ensures stands { (hs : List History) → StandFor D.stands self.old hs
            → StandFor D.stands self.new (map (heard_by bytes.now) hs) }
        ensures kept { (hs : List History) → StandFor D.stands self.old hs
            → HaveKept D.came_to bytes.now hs self.old.devices self.new.devices }
        ensures rest { map D.rest self.new.devices ≡ map D.rest self.old.devices }
        ensures uids { self.new.uids ≡ self.old.uids }
        ensures rule { self.new.rule ≡ self.old.rule }
    {
        if bytes.len() < DESTINATION_END {
            return OnWire::Nothing;
        }
        let destination = uid_at(bytes, DESTINATION);
        if destination.is_broadcast() {
            hear_all(
                self.devices.as_mut_slice(),
                self.rule,
                bytes,
                wire,
                &mut self.spare,
            )
        } else {
            self.hear_one(destination, bytes, wire)
        }
    }

    /// Gives bytes to the one device that they are for, if it is on the line.
    fn hear_one(&mut self, destination: Uid, bytes: &[u8], wire: &mut Wire) -> OnWire
        requires long { 9 ≤ length bytes.now }
        requires destination { destination ≡ uid_at bytes.now 3 }
        requires single { is_broadcast destination ≡ false }
        ensures line { (hs : List History) → StandFor D.stands self.old hs
            → (result, wire.new) ≡ wave self.old.rule wire.old (answers bytes.now hs) }
        ensures stands { (hs : List History) → StandFor D.stands self.old hs
            → StandFor D.stands self.new (map (heard_by bytes.now) hs) }
        ensures kept { (hs : List History) → StandFor D.stands self.old hs
            → HaveKept D.came_to bytes.now hs self.old.devices self.new.devices }
        ensures rest { map D.rest self.new.devices ≡ map D.rest self.old.devices }
        ensures uids { self.new.uids ≡ self.old.uids }
        ensures rule { self.new.rule ≡ self.old.rule }
    {
        let index = match self.find(destination) {
            Some(index) => index,
            None => return OnWire::Nothing,
        };
        if hear_at(self.devices.as_mut_slice(), index, bytes, wire) {
            OnWire::Reply
        } else {
            OnWire::Nothing
        }
    }
}

/// Gives bytes to the device at a place, and says whether it replied.
fn hear_at<D: Device>(devices: &mut [D], index: usize, bytes: &[u8], wire: &mut Wire) -> bool
    requires { index < length devices.old }
    ensures reply { (before after : List History) (h : History) → length before ≡ index
        → AllZip D.stands devices.old (before ++ h ∷ after) → answered result wire.new ≡ reply_of h bytes.now }
    ensures stands { (before after : List History) (h : History) → length before ≡ index
        → AllZip D.stands devices.old (before ++ h ∷ after)
        → AllZip D.stands devices.new (before ++ then_event h (Heard bytes.now) ∷ after) }
    ensures silent { OnFalse result (wire.new ≡ wire.old) }
    ensures kept { (before after : List History) (h : History) → length before ≡ index
        → AllZip D.stands devices.old (before ++ h ∷ after)
        → (d : D) → IfSome (D.came_to (slice_index_or devices.new index d)) (CameTo h bytes.now) }
    ensures others { (i : ℕ) (d : D) → i ≢ index → slice_index_or devices.new i d ≡ slice_index_or devices.old i d }
    ensures rest { map D.rest devices.new ≡ map D.rest devices.old }
    ensures len { length devices.new ≡ length devices.old }
{
    devices[index].hear(bytes, wire)
}

/// Gives bytes to each device that they address, and tells what is on the wire then.
fn hear_all<D: Device>(
    devices: &mut [D],
    rule: Collision,
    bytes: &[u8],
    wire: &mut Wire,
    spare: &mut Wire,
) -> OnWire
    requires long { 9 ≤ length bytes.now }
    ensures line { (hs : List History) → AllZip D.stands devices.old hs
        → (result, wire.new) ≡ wave rule wire.old (answers bytes.now hs) }
    ensures stands { (hs : List History) → AllZip D.stands devices.old hs
        → AllZip D.stands devices.new (map (heard_by bytes.now) hs) }
    ensures kept { (hs : List History) → AllZip D.stands devices.old hs
        → HaveKept D.came_to bytes.now hs devices.old devices.new }
    ensures rest { map D.rest devices.new ≡ map D.rest devices.old }
    ensures len { length devices.new ≡ length devices.old }
{
    let mut on_wire = OnWire::Nothing;
    for i in 0..devices.len() {
        on_wire = hear_next(devices, i, rule, bytes, on_wire, wire, spare);
    }
    on_wire
}

/// Gives bytes to the device at a place, if they address it, and adds what it answers to what is on the wire.
fn hear_next<D: Device>(
    devices: &mut [D],
    index: usize,
    rule: Collision,
    bytes: &[u8],
    on_wire: OnWire,
    wire: &mut Wire,
    spare: &mut Wire,
) -> OnWire
    requires long { 9 ≤ length bytes.now }
    requires within { index < length devices.old }
    ensures line { (before after : List History) (h : History) (first : List ℕ) (sofar : List (List ℕ)) → length before ≡ index
        → AllZip D.stands devices.old (before ++ h ∷ after)
        → (on_wire, wire.old) ≡ wave rule first sofar
        → (result, wire.new) ≡ wave rule first (sofar ++ answers bytes.now (h ∷ [])) }
    ensures stands { (before after : List History) (h : History) → length before ≡ index
        → AllZip D.stands devices.old (before ++ h ∷ after)
        → AllZip D.stands devices.new (before ++ heard_by bytes.now h ∷ after) }
    ensures kept { (before after : List History) (h : History) → length before ≡ index
        → AllZip D.stands devices.old (before ++ h ∷ after)
        → (d : D) → HasKept D.came_to bytes.now h (slice_index_or devices.old index d) (slice_index_or devices.new index d) }
    ensures others { (i : ℕ) (d : D) → i ≢ index → slice_index_or devices.new i d ≡ slice_index_or devices.old i d }
    ensures rest { map D.rest devices.new ≡ map D.rest devices.old }
    ensures len { length devices.new ≡ length devices.old }
{
    if uid_at(bytes, DESTINATION).addresses(devices[index].uid())
        && hear_at(devices, index, bytes, spare)
    {
        put(on_wire, rule, spare.as_slice(), wire)
    } else {
        on_wire
    }
}

/// Puts one more answer on the wire.
#[tactic(auto, using(crate::proofs::Waves::wave_first, crate::proofs::Waves::wave_of_reply, crate::proofs::Waves::wave_of_collision))]
fn put(on_wire: OnWire, rule: Collision, answer: &[u8], wire: &mut Wire) -> OnWire
    requires { length answer.now ≤ 257 }
    ensures { (first : List ℕ) (sofar : List (List ℕ)) → (on_wire, wire.old) ≡ wave rule first sofar
        → (result, wire.new) ≡ wave rule first (sofar ++ answer.now ∷ []) }
{
    match on_wire {
        OnWire::Nothing => {
            wire.clear();
            wire.append(answer);
            OnWire::Reply
        }
        OnWire::Reply | OnWire::Collision => {
            collide(rule, answer, wire);
            OnWire::Collision
        }
    }
}
