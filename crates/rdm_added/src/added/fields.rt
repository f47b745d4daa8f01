//! Which numbers the slots of a parameter say.

ghost use Rattle.std.specs.Prelude.{◌≡◌, ◌≤◌, length, nat_le, drop};
ghost use Rattle.rdm_profile.specs.Fields.{width_of, front_number, is_of_field, begins_with, say, says};
ghost use Rattle.rdm_profile.specs.declared.profile.fields.Width.TheVariants as widths;

use rdm_profile::{Argument, Field, Width};

/// Whether a value that is slots says numbers of these fields, one after another.
pub(crate) fn says(fields: &[Field], value: &Argument<'_>) -> bool
    ensures { result ≡ says fields.now value.now }
{
    match value.label() {
        Some(bytes) => say(fields, bytes),
        None => true,
    }
}

/// Whether data begin with numbers of these fields, one after another.
#[tactic(auto, using(rdm_profile::proofs::FieldSteps::one_said, rdm_profile::proofs::FieldSteps::one_not_said, rdm_profile::proofs::FieldSteps::all_said, std::proofs::lemmas::Grind::common_steps))]
fn say(fields: &[Field], bytes: &[u8]) -> bool
    ensures { result ≡ say fields.now bytes.now }
{
    let mut at = 0;
    for i in 0..fields.len() {
        let field = &fields[i];
        if !begins_with(field, &bytes[at..]) {
            return false;
        }
        at += field.width.slots();
    }
    true
}

/// Whether data begin with a number of a field.
fn begins_with(field: &Field, bytes: &[u8]) -> bool
    ensures { result ≡ begins_with field.now bytes.now }
{
    field.width.slots() <= bytes.len() && is_of_field(field, front_number(field.width, bytes))
}

/// The number that the first slots of data say. There must be so many.
fn front_number(width: Width, bytes: &[u8]) -> u32
    requires { width_of width ≤ length bytes.now }
    ensures { result ≡ front_number width bytes.now }
{
    match width {
        Width::One => one(bytes),
        Width::Two => two(bytes),
        Width::Four => four(bytes),
    }
}

/// The number of the first slot.
fn one(bytes: &[u8]) -> u32
    requires { 1 ≤ length bytes.now }
    ensures { result ≡ front_number widths.One bytes.now }
{
    match bytes {
        [a, ..] => *a as u32,
        _ => 0,
    }
}

/// The number of the first two slots.
fn two(bytes: &[u8]) -> u32
    requires { 2 ≤ length bytes.now }
    ensures { result ≡ front_number widths.Two bytes.now }
{
    match bytes {
        [a, b, ..] => u16::from_be_bytes([*a, *b]) as u32,
        _ => 0,
    }
}

/// The number of the first four slots.
fn four(bytes: &[u8]) -> u32
    requires { 4 ≤ length bytes.now }
    ensures { result ≡ front_number widths.Four bytes.now }
{
    match bytes {
        [a, b, c, d, ..] => u32::from_be_bytes([*a, *b, *c, *d]),
        _ => 0,
    }
}

/// Whether a field can be this number.
fn is_of_field(field: &Field, number: u32) -> bool
    ensures { result ≡ is_of_field field.now number }
{
    (field.low <= number && number <= field.high) || number == field.also
}
