//! Numbers, which most SETs of the parameters that a maker adds hand in.
//!
//! Apart from other data: what those need isn't looked at, and a number is kept from where its data lie.

ghost use Rattle.std.specs.Prelude.{◌≡◌, ◌↔◌, ◌≤◌, length, map, false, true};
ghost use Rattle.rdm_added.specs.Added.{own_stored};
ghost use Rattle.rdm_profile.specs.Forms.{has_length, value_in};
ghost use Rattle.rdm_added.specs.Numbers.{is_number, number_said, sets_number};
ghost use Rattle.rdm_added.specs.Map.{update};
ghost use Rattle.rdm_profile.specs.OwnParameters.{form_of};
ghost use Rattle.rdm_added.specs.Spot.{Spot};
ghost use Rattle.rdm_added.specs.Views.State.{added_entries, own_entries, stored_in};

use crate::added::{number_in, read_shape, store_among};
use crate::state::{Kept, RootValues};
use rdm_profile::{ParameterDef, Rights, Shape};

/// Whether a parameter keeps a number that a SET hands in.
#[inline(always)]
pub fn sets_number(def: &ParameterDef) -> bool
    ensures { result ≡ sets_number def.now.rights def.now.shape }
{
    match def.rights {
        Rights::Both => is_number(def.shape),
        Rights::Get | Rights::Set | Rights::Clear => false,
    }
}

/// Whether the data that a SET hands in are a number, and nothing beside it.
fn is_number(shape: Shape) -> bool
    ensures { result ≡ is_number shape }
{
    matches!(
        shape,
        Shape::Byte
            | Shape::Word
            | Shape::Long
            | Shape::SignedByte
            | Shape::SignedWord
            | Shape::SignedLong
            | Shape::Choice
    )
}

/// The number that data say in a shape, in two's complement where that is signed, or `None` if they haven't its length.
#[inline(always)]
pub fn number_said(shape: Shape, data: &[u8]) -> Option<i64>
    ensures { result ≡ number_said shape data.now }
{
    number_in(shape, &read_shape(shape, data)?)
}

/// Keeps the data of a number that a SET hands in, and says whether it is another one.
#[inline(always)]
#[tactic(auto, unfolding(crate::specs::Views::State::own_entries))]
pub fn store_number(def: &ParameterDef, data: &[u8], own: &mut RootValues) -> bool
    requires number { sets_number def.now.rights def.now.shape ≡ true }
    requires long { has_length (form_of def.now.shape) (length data.now) ≡ true }
    ensures own { own_entries own.new ≡ own_entries own.old }
    ensures after { (spot : Spot) → added_entries own.new.added.items
        ≡ update (own_stored def.now spot (value_in (form_of def.now.shape) data.now)) (added_entries own.old.added.items) }
    ensures same { (result ≡ false) ↔ (added_entries own.new.added.items ≡ added_entries own.old.added.items) }
{
    store_slots(&mut own.added, def.pid, data)
}

/// Keeps these slots as a value of a parameter, and says whether they are others.
// In place: a call that keeps data of any length would save and restore its registers for few steps.
#[inline(always)]
fn store_slots(values: &mut Vec<Kept>, pid: u16, slots: &[u8]) -> bool
    requires { length slots.now ≤ 32 }
    ensures after { added_entries values.new.items ≡ map (stored_in pid 0 slots.now) (added_entries values.old.items) }
    ensures same { (result ≡ false) ↔ (added_entries values.new.items ≡ added_entries values.old.items) }
{
    store_among(values.as_mut_slice(), pid, 0, slots)
}
