//! The rules of personalities that have slots of their own.

ghost use Rattle.std.specs.Prelude.{◌≡◌, ◌==◌, ◌↔◌, ◌≤◌, All, IsTrue, false, length, map, slice_get};
ghost use Rattle.std.specs.Option.{option_map_or};
ghost use Rattle.rdm_profile.specs.Modes.{describes, has_slots, shape_of};

use arrayvec::ArrayVec;
use rdm_frame::standard::MOST_DMX_SLOTS;
use rdm_profile::{Mode, ModeShape};

/// How many modes there can be, so that there are at most 255 personalities with the 8 of the root's unit.
pub(crate) const MOST_MODES: usize = 247;

/// How many slots a mode can have of its own, so that SLOT_INFO can list them (E1.20 section 10.6.4).
const MOST_SLOTS: u8 = 46;

/// What the rules ask of these modes.
pub(crate) fn shapes_of(modes: &[Mode]) -> ArrayVec<ModeShape, 247>
    requires { length modes.now ≤ 247 }
    ensures { result.items ≡ map shape_of modes.now }
{
    let mut shapes = ArrayVec::new();
    for mode in modes {
        shapes.push(mode.shape());
    }
    shapes
}

/// Whether no mode uses more slots than DMX512 has.
pub(crate) fn modes_fit(shapes: &[ModeShape]) -> bool
    ensures { IsTrue result ↔ All (λ s. s.footprint ≤ 512) shapes.now }
{
    shapes.iter().all(|shape| shape.footprint <= MOST_DMX_SLOTS)
}

/// Whether each mode has slots of its own, or else those of a personality that has its own.
pub(crate) fn have_slots(units: usize, shapes: &[ModeShape]) -> bool
    ensures { IsTrue result ↔ All (λ s. IsTrue (has_slots units shapes.now s)) shapes.now }
{
    shapes.iter().all(|shape| has_slots(units, shapes, shape))
}

fn has_slots(units: usize, shapes: &[ModeShape], shape: &ModeShape) -> bool
    ensures { result ≡ has_slots units shapes.now shape.now }
{
    if shape.slots_of == 0 {
        shape.slots <= MOST_SLOTS
    } else {
        shape.slots == 0 && describes(units, shapes, shape.slots_of)
    }
}

/// Whether the personality of this number is there, behind so many of the unit, and has slots of its own.
fn describes(units: usize, shapes: &[ModeShape], number: u8) -> bool
    ensures { result ≡ describes units shapes.now number }
{
    let number = number as usize;
    1 <= number && (number <= units || has_its_own(shapes, number - units - 1))
}

/// Whether there is a mode in this place that has slots of its own.
fn has_its_own(shapes: &[ModeShape], index: usize) -> bool
    ensures { result ≡ option_map_or (λ s. s.slots_of == 0) (slice_get shapes.now index) false }
{
    match shapes.get(index) {
        Some(shape) => shape.slots_of == 0,
        None => false,
    }
}
