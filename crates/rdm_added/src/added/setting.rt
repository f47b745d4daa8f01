//! What a SET of a parameter that a maker adds takes, and keeps.

ghost use Rattle.std.specs.Prelude.{◌≡◌, ◌↔◌, ◌≤◌, ◌||◌, ◌&&◌, ◌∷◌, [], length, map, slice_index, false};
ghost use Rattle.rdm_profile.specs.declared.value.Value.{Value};
ghost use Rattle.rdm_added.specs.Added.{order_stored, counts_cleared, counted, form_taken, set_form, slots_in, taken_as, takes, index_kept, bytes_kept, bytes_ordered, kept_stored, stored_by, own_stored};
ghost use Rattle.rdm_profile.specs.Forms.{value_of};
ghost use Rattle.rdm_added.specs.Scenes.{scene_of, scene_kept};
ghost use Rattle.rdm_profile.specs.Values.{front_word, bytes_of};
ghost use Rattle.rdm_profile.specs.declared.value.Value.TheVariants.{Byte, Word};
ghost use Rattle.rdm_added.specs.Locking.{pin_kept, knows_pin, knows_old_pin, state_of, new_pin};
ghost use Rattle.rdm_profile.specs.OwnParameters.{is_within};
ghost use Rattle.rdm_added.specs.Map.{lookup, update};
ghost use Rattle.rdm_added.specs.Spot.{Spot};
ghost use Rattle.rdm_added.specs.Views.State.{added_entries, own_entries, stored_in};

use crate::added::{
    bytes_of, is_set_of, is_within, kept_of, knows_old_pin, knows_pin, new_pin, read_shape,
    scene_kept, scene_of, sized, state_of, store_in, store_value,
};
use crate::state::{Kept, RootValues};
use rdm_profile::{Argument, ParameterDef, Rights, Shape, forms};

/// The value that the data of a SET say, if they have the length that it takes.
#[inline(always)]
pub fn read_set<'a>(def: &ParameterDef, data: &'a [u8]) -> Option<Argument<'a>>
    ensures { result ≡ value_of (set_form def.now) data.now }
{
    match def.rights {
        Rights::Clear => forms::nothing(data),
        Rights::Get | Rights::Set | Rights::Both => read_taken(def.shape, data),
    }
}

/// The value that the data of a SET say, by their shape.
#[inline(always)]
fn read_taken(shape: Shape, data: &[u8]) -> Option<Argument<'_>>
    ensures { result ≡ value_of (form_taken shape) data.now }
{
    match shape {
        Shape::Scenes => sized(9, data),
        Shape::Lock => sized(3, data),
        Shape::Pin => sized(4, data),
        Shape::Block => forms::word(data),
        _ => read_shape(shape, data),
    }
}

/// Whether a SET takes a value.
#[inline(always)]
pub fn takes(def: &ParameterDef, value: &Argument<'_>, own: &RootValues) -> bool
    ensures { result ≡ takes def.now (pin_kept (added_entries own.now.added.items)) value.now }
{
    match def.rights {
        Rights::Clear => true,
        Rights::Get | Rights::Set | Rights::Both => takes_shape(
            def.shape,
            def,
            own.added.as_slice(),
            value,
        ),
    }
}

/// Whether a SET takes a value, by the shape of its data.
#[inline(always)]
fn takes_shape(shape: Shape, def: &ParameterDef, values: &[Kept], value: &Argument<'_>) -> bool
    ensures { result ≡ taken_as shape def.now (pin_kept (added_entries values.now)) value.now }
{
    match shape {
        Shape::Scenes => is_set_of(def, slots_in(value)),
        Shape::Lock => takes_state(def, values, slots_in(value)),
        Shape::Pin => takes_pin(def, values, slots_in(value)),
        Shape::Block => true,
        _ => is_within(def, value),
    }
}

/// Whether slots begin with the PIN that is kept, and name a lock state.
#[inline(never)]
fn takes_state(def: &ParameterDef, values: &[Kept], slots: &[u8]) -> bool
    ensures { result ≡ (knows_pin (pin_kept (added_entries values.now)) slots.now && is_within def.now (Byte (state_of slots.now))) }
{
    knows_pin(values, slots) && is_within(def, &Argument::from_byte(state_of(slots)))
}

/// Whether slots end with the PIN that is kept, and begin with one that can be.
#[inline(never)]
fn takes_pin(def: &ParameterDef, values: &[Kept], slots: &[u8]) -> bool
    ensures { result ≡ (knows_old_pin (pin_kept (added_entries values.now)) slots.now && is_within def.now (Word (front_word slots.now))) }
{
    knows_old_pin(values, slots) && is_within(def, &Argument::from_word(scene_of(slots)))
}

/// The slots of a value that is slots, else none.
pub(crate) fn slots_in<'a>(value: &'a Argument<'_>) -> &'a [u8]
    ensures value { result.now ≡ slots_in value.now }
    ensures few { length result.now ≤ 32 }
{
    match value.label() {
        Some(slots) => slots,
        None => &[],
    }
}

/// Keeps what a SET makes of a parameter: its data, counts that are zero, or that an order came; and says whether anything is another.
#[inline(always)]
pub fn store_set(def: &ParameterDef, value: &Argument<'_>, own: &mut RootValues) -> bool
    ensures own { own_entries own.new ≡ own_entries own.old }
    ensures after { (spot : Spot) → spot.added ≡ added_entries own.old.added.items
        → added_entries own.new.added.items ≡ update (own_stored def.now spot value.now) (added_entries own.old.added.items) }
    ensures same { (result ≡ false) ↔ (added_entries own.new.added.items ≡ added_entries own.old.added.items) }
{
    store_by(def.rights, def, value, own)
}

/// The same for these commands.
#[inline(always)]
fn store_by(rights: Rights, def: &ParameterDef, value: &Argument<'_>, own: &mut RootValues) -> bool
    ensures own { own_entries own.new ≡ own_entries own.old }
    ensures after { (spot : Spot) → spot.added ≡ added_entries own.old.added.items
        → added_entries own.new.added.items ≡ update (stored_by rights def.now spot value.now) (added_entries own.old.added.items) }
    ensures same { (result ≡ false) ↔ (added_entries own.new.added.items ≡ added_entries own.old.added.items) }
{
    match rights {
        Rights::Set => store_order(def, value, own),
        Rights::Clear => store_start(def, own),
        Rights::Get => store_kept(def, value, own),
        Rights::Both => store_kept(def, value, own),
    }
}

/// Keeps what the data of a SET stand for, and says whether it is another value.
#[inline(always)]
#[tactic(auto, unfolding(crate::specs::Views::State::own_entries))]
fn store_kept(def: &ParameterDef, value: &Argument<'_>, own: &mut RootValues) -> bool
    ensures own { own_entries own.new ≡ own_entries own.old }
    ensures after { (spot : Spot) → added_entries own.new.added.items ≡ update (kept_stored def.now spot value.now) (added_entries own.old.added.items) }
    ensures same { (result ≡ false) ↔ (added_entries own.new.added.items ≡ added_entries own.old.added.items) }
{
    store_shaped(def.shape, def.pid, value, &mut own.added)
}

/// Keeps it in the shape of the data.
#[inline(always)]
fn store_shaped(shape: Shape, pid: u16, value: &Argument<'_>, values: &mut Vec<Kept>) -> bool
    ensures after { added_entries values.new.items
        ≡ map (stored_in pid (index_kept shape value.now) (bytes_kept shape value.now)) (added_entries values.old.items) }
    ensures same { (result ≡ false) ↔ (added_entries values.new.items ≡ added_entries values.old.items) }
{
    match shape {
        Shape::Scenes => store_scene(values, pid, value),
        Shape::Lock => store_in(values, pid, 0, &[state_of(slots_in(value))]),
        Shape::Pin => store_in(values, pid, 0, new_pin(slots_in(value))),
        Shape::Block => store_in(values, pid, 0, &[]),
        _ => store_value(values, pid, 0, value),
    }
}

/// Keeps the scene that its slots say.
// A call, so that other values don't make room for it.
#[inline(never)]
fn store_scene(values: &mut Vec<Kept>, pid: u16, value: &Argument<'_>) -> bool
    ensures after { added_entries values.new.items
        ≡ map (stored_in pid (scene_of (slots_in value.now)) (scene_kept (slots_in value.now))) (added_entries values.old.items) }
    ensures same { (result ≡ false) ↔ (added_entries values.new.items ≡ added_entries values.old.items) }
{
    let slots = slots_in(value);
    store_in(values, pid, scene_of(slots), scene_kept(slots).as_slice())
}

/// Keeps what an order keeps of its data and counts it, and says whether that or its count are others.
#[inline(never)]
#[tactic(auto, unfolding(crate::specs::Views::State::own_entries), using(crate::proofs::KeptValues::ordered_all))]
fn store_order(def: &ParameterDef, value: &Argument<'_>, own: &mut RootValues) -> bool
    ensures own { own_entries own.new ≡ own_entries own.old }
    ensures after { (spot : Spot) → spot.added ≡ added_entries own.old.added.items
        → added_entries own.new.added.items ≡ update (order_stored def.now spot value.now) (added_entries own.old.added.items) }
    ensures same { (result ≡ false) ↔ (added_entries own.new.added.items ≡ added_entries own.old.added.items) }
{
    store_ordered(def.shape, def.pid, value, &mut own.added)
}

/// The same in the shape of its data.
fn store_ordered(shape: Shape, pid: u16, value: &Argument<'_>, values: &mut Vec<Kept>) -> bool
    ensures after { added_entries values.new.items ≡ map (stored_in pid 1 (counted (lookup (added_entries values.old.items) pid 1)))
        (map (stored_in pid 0 (bytes_ordered shape value.now)) (added_entries values.old.items)) }
    ensures same { (result ≡ false) ↔ (added_entries values.new.items ≡ added_entries values.old.items) }
{
    match shape {
        Shape::Lock => store_counted(values, pid, &[state_of(slots_in(value))]),
        Shape::Pin => store_counted(values, pid, new_pin(slots_in(value))),
        Shape::Block => store_counted(values, pid, &[]),
        _ => store_data(pid, value, values),
    }
}

/// Keeps the data of an order as they are, and counts it.
fn store_data(pid: u16, value: &Argument<'_>, values: &mut Vec<Kept>) -> bool
    ensures after { added_entries values.new.items ≡ map (stored_in pid 1 (counted (lookup (added_entries values.old.items) pid 1)))
        (map (stored_in pid 0 (bytes_of value.now)) (added_entries values.old.items)) }
    ensures same { (result ≡ false) ↔ (added_entries values.new.items ≡ added_entries values.old.items) }
{
    let bytes = bytes_of(value);
    store_counted(values, pid, bytes.as_slice())
}

fn store_counted(values: &mut Vec<Kept>, pid: u16, bytes: &[u8]) -> bool
    requires { length bytes.now ≤ 32 }
    ensures after { added_entries values.new.items ≡ map (stored_in pid 1 (counted (lookup (added_entries values.old.items) pid 1)))
        (map (stored_in pid 0 bytes.now) (added_entries values.old.items)) }
    ensures same { (result ≡ false) ↔ (added_entries values.new.items ≡ added_entries values.old.items) }
{
    let count = [next_count(values.as_slice(), pid)];
    let differs = store_in(values, pid, 0, bytes);
    let more = store_in(values, pid, 1, &count);
    either(differs, more)
}

fn either(one: bool, other: bool) -> bool
    ensures { result ≡ (one || other) }
{
    one || other
}

/// The count of an order with one more.
#[tactic(auto, using(crate::proofs::KeptValues::kept_is))]
fn next_count(values: &[Kept], pid: u16) -> u8
    ensures { result ∷ [] ≡ counted (lookup (added_entries values.now) pid 1) }
{
    match kept_of(values, pid, 1) {
        Some(kept) => first_of(kept.bytes.as_slice()).wrapping_add(1),
        None => 1,
    }
}

/// The first byte, or 0 if there is none.
pub(crate) fn first_of(bytes: &[u8]) -> u8
    ensures { result ≡ slice_index bytes.now 0 }
{
    match bytes {
        [first, ..] => *first,
        [] => 0,
    }
}

/// Lets the counts of COMMS_STATUS start again at zero (E1.20 section 10.2.1), and says whether one was another number.
#[inline(never)]
#[tactic(auto, unfolding(crate::specs::Views::State::own_entries))]
fn store_start(def: &ParameterDef, own: &mut RootValues) -> bool
    ensures own { own_entries own.new ≡ own_entries own.old }
    ensures after { (spot : Spot) → (v : Value) → added_entries own.new.added.items ≡ update (counts_cleared def.now spot v) (added_entries own.old.added.items) }
    ensures same { (result ≡ false) ↔ (added_entries own.new.added.items ≡ added_entries own.old.added.items) }
{
    store_in(&mut own.added, def.pid, 0, &[0, 0, 0, 0, 0, 0])
}
