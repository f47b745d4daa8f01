//! What the firmware of a fixture places of a parameter that a maker adds.

ghost use Rattle.std.specs.Prelude.{◌≡◌, ◌↔◌, ◌≤◌, length, map, false};
ghost use Rattle.rdm_added.specs.Added.{keeps_data, placed_form, placed_within, bytes_placed, placed_stored, index_kept, slots_in};
ghost use Rattle.rdm_profile.specs.Forms.{value_of};
ghost use Rattle.rdm_added.specs.Scenes.{scene_of, is_set_of, scene_placed};
ghost use Rattle.rdm_added.specs.Map.{update};
ghost use Rattle.rdm_added.specs.Spot.{Spot};
ghost use Rattle.rdm_added.specs.Views.State.{added_entries, own_entries, stored_in};

use crate::added::setting::slots_in;
use crate::added::{
    is_set_of, is_within, read_shape, scene_of, scene_placed, sized, store_in, store_value,
};
use crate::state::{Kept, RootValues};
use rdm_profile::{Argument, ParameterDef, Shape};

/// Whether a parameter of this shape keeps data, which can be placed.
pub fn keeps_data(shape: Shape) -> bool
    ensures { result ≡ keeps_data shape }
{
    match shape {
        Shape::Names | Shape::Rates | Shape::Block => false,
        _ => true,
    }
}

/// The value that data say which the firmware places, if they have its length.
pub fn read_placed(shape: Shape, data: &[u8]) -> Option<Argument<'_>>
    ensures { result ≡ value_of (placed_form shape) data.now }
{
    match shape {
        Shape::Scenes => sized(9, data),
        _ => read_shape(shape, data),
    }
}

/// Whether a value that the firmware places is in range.
pub fn is_placed_within(def: &ParameterDef, value: &Argument<'_>) -> bool
    ensures { result ≡ placed_within def.now.shape def.now value.now }
{
    is_shape_within(def.shape, def, value)
}

/// The same by the shape of its data.
fn is_shape_within(shape: Shape, def: &ParameterDef, value: &Argument<'_>) -> bool
    ensures { result ≡ placed_within shape def.now value.now }
{
    match shape {
        Shape::Scenes => is_set_of(def, slots_in(value)),
        _ => is_within(def, value),
    }
}

/// Keeps what the firmware places of a parameter that the maker adds, and says whether it is another value.
#[tactic(auto, unfolding(crate::specs::Views::State::own_entries))]
pub fn store_placed(def: &ParameterDef, value: &Argument<'_>, own: &mut RootValues) -> bool
    ensures own { own_entries own.new ≡ own_entries own.old }
    ensures after { (spot : Spot) → added_entries own.new.added.items
        ≡ update (placed_stored def.now spot value.now) (added_entries own.old.added.items) }
    ensures same { (result ≡ false) ↔ (added_entries own.new.added.items ≡ added_entries own.old.added.items) }
{
    place_shaped(def.shape, def, value, &mut own.added)
}

/// Keeps it in the shape of the data.
fn place_shaped(
    shape: Shape,
    def: &ParameterDef,
    value: &Argument<'_>,
    values: &mut Vec<Kept>,
) -> bool
    ensures after { added_entries values.new.items
        ≡ map (stored_in def.now.pid (index_kept shape value.now) (bytes_placed shape def.now value.now)) (added_entries values.old.items) }
    ensures same { (result ≡ false) ↔ (added_entries values.new.items ≡ added_entries values.old.items) }
{
    match shape {
        Shape::Scenes => place_scene(values, def, value),
        _ => store_value(values, def.pid, 0, value),
    }
}

/// Keeps the scene that its slots say.
// A call, so that other values don't make room for it.
#[inline(never)]
fn place_scene(values: &mut Vec<Kept>, def: &ParameterDef, value: &Argument<'_>) -> bool
    ensures after { added_entries values.new.items
        ≡ map (stored_in def.now.pid (scene_of (slots_in value.now)) (scene_placed def.now (slots_in value.now)))
        (added_entries values.old.items) }
    ensures same { (result ≡ false) ↔ (added_entries values.new.items ≡ added_entries values.old.items) }
{
    let slots = slots_in(value);
    store_in(
        values,
        def.pid,
        scene_of(slots),
        scene_placed(def, slots).as_slice(),
    )
}
