//! Which fields the parameters of the maker's own can have.

ghost use Rattle.std.specs.Prelude.{◌≡◌, ◌↔◌, ◌≤◌, length, IsTrue};
ghost use Rattle.std.specs.List.{list_all};
ghost use Rattle.rdm_profile.specs.Fields.{can_say, are_taken, slots_of};
ghost use Rattle.rdm_profile.specs.OwnParameters.{has_good_fields};
ghost use Rattle.rdm_profile.specs.Profiles.{HaveFields};

use rdm_profile::{Field, ParameterDef, Shape};

/// Whether the fields of each take all of its slots, if it has any, and can say their limits.
pub(crate) fn have_fields(defs: &[ParameterDef]) -> bool
    ensures { IsTrue result ↔ HaveFields defs.now }
{
    defs.iter().all(|def| has_good_fields(def))
}

/// Whether the fields of a parameter take all of its slots, if it has any, and can say their limits.
pub fn has_good_fields(def: &ParameterDef) -> bool
    ensures { result ≡ has_good_fields def.now }
{
    let fields = def.fields.as_slice();
    can_each_say(fields) && are_taken(def.shape, fields)
}

/// Whether each field can say its limits.
fn can_each_say(fields: &[Field]) -> bool
    ensures { result ≡ list_all can_say fields.now }
{
    fields.iter().all(|field| can_say(field))
}

/// Whether a field can say its limits, the least first, and the number beside them.
fn can_say(field: &Field) -> bool
    ensures { result ≡ can_say field.now }
{
    let reach = field.width.reach();
    field.low <= field.high && (field.high as u64) < reach && (field.also as u64) < reach
}

/// Whether fields take all slots of a shape, or there are none: only slots have any.
fn are_taken(shape: Shape, fields: &[Field]) -> bool
    requires { length fields.now ≤ 8 }
    ensures { result ≡ are_taken shape fields.now }
{
    match shape {
        Shape::Slots(size) => fields.is_empty() || slots_of(fields) == size as usize,
        Shape::Byte
        | Shape::Word
        | Shape::Long
        | Shape::SignedByte
        | Shape::SignedWord
        | Shape::SignedLong
        | Shape::Text
        | Shape::Bits(_)
        | Shape::Choice
        | Shape::Names
        | Shape::Rates
        | Shape::Scenes
        | Shape::Lock
        | Shape::Pin
        | Shape::Block => fields.is_empty(),
    }
}

/// How many slots the fields take.
#[tactic(auto, using(rdm_profile::proofs::FieldSteps::one_counted, std::proofs::lemmas::Grind::common_steps))]
fn slots_of(fields: &[Field]) -> usize
    requires { length fields.now ≤ 8 }
    ensures { result ≡ slots_of fields.now }
{
    let mut slots = 0;
    for i in 0..fields.len() {
        slots += fields[i].width.slots();
    }
    slots
}
