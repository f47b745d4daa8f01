//! What PARAMETER_DESCRIPTION replies (E1.20 section 10.4.2).

ghost use Rattle.std.specs.Prelude.{◌≡◌, ◌<◌, ◌≤◌, []};
ghost use Rattle.rdm_added.specs.Added.{size_of, data_type_of, class_of, span_of, four_slots, first_number, description_of, described};

use crate::added::{number_in, parameter_of, read_shape};
use crate::place::Place;
use rdm_frame::Body;
use rdm_frame::standard::MOST_TEXT;
use rdm_profile::{Argument, ParameterDef, Rights, Shape};

/// The description of the parameter that the value names, if the maker adds one with this PID.
pub fn described(place: &Place<'_>, value: &Argument<'_>, body: &mut Body)
    requires { body.old ≡ [] }
    ensures { body.new ≡ described place.now value.now }
{
    let pid = value.word().unwrap_or(0);
    if let Some(def) = parameter_of(place.profile.particulars.own(), pid) {
        describe(def, body);
    }
}

/// Writes the description of a parameter into an empty list.
fn describe(def: &ParameterDef, body: &mut Body)
    requires { body.old ≡ [] }
    ensures { body.new ≡ description_of def.now }
{
    let (size, data_type, class) = (
        size_of(def.shape),
        data_type_of(def.shape),
        class_of(def.rights),
    );
    body.append(&def.pid.to_be_bytes());
    body.append(&[size, data_type, class, 0, def.unit, def.prefix]);
    body.append(&four_slots(def.shape, def.low));
    body.append(&four_slots(def.shape, def.high));
    body.append(&four_slots(def.shape, first_number(def)));
    body.append(def.name.as_slice());
}

/// How many slots the data have; of a text, how many at most.
pub fn size_of(shape: Shape) -> u8
    ensures { result ≡ size_of shape }
{
    match shape {
        Shape::Byte | Shape::SignedByte | Shape::Choice | Shape::Lock => 1,
        Shape::Word | Shape::SignedWord | Shape::Pin => 2,
        Shape::Long | Shape::SignedLong => 4,
        Shape::Text => MOST_TEXT as u8,
        Shape::Bits(size) => size,
        Shape::Slots(size) => size,
        Shape::Names | Shape::Rates | Shape::Block => 0,
        Shape::Scenes => 9,
    }
}

/// The type of the data (table A-15).
pub fn data_type_of(shape: Shape) -> u8
    ensures { result ≡ data_type_of shape }
{
    match shape {
        Shape::Slots(_) | Shape::Names | Shape::Rates | Shape::Scenes | Shape::Block => 0x00,
        Shape::Bits(_) => 0x01,
        Shape::Text => 0x02,
        Shape::Byte | Shape::Choice | Shape::Lock => 0x03,
        Shape::SignedByte => 0x04,
        Shape::Word | Shape::Pin => 0x05,
        Shape::SignedWord => 0x06,
        Shape::Long => 0x07,
        Shape::SignedLong => 0x08,
    }
}

/// The commands that a parameter has (table A-16).
fn class_of(rights: Rights) -> u8
    ensures { result ≡ class_of rights }
{
    match rights {
        Rights::Get => 0x01,
        Rights::Set => 0x02,
        Rights::Both | Rights::Clear => 0x03,
    }
}

/// How many numbers the data can say, and one where they are no number.
fn span_of(shape: Shape) -> u64
    ensures value { result ≡ span_of shape }
    ensures some { 0 < result }
    ensures few { result ≤ 0x100000000 }
{
    match shape {
        Shape::Byte | Shape::SignedByte | Shape::Choice | Shape::Lock => 0x100,
        Shape::Word | Shape::SignedWord | Shape::Pin => 0x1_0000,
        Shape::Long | Shape::SignedLong => 0x1_0000_0000,
        Shape::Text
        | Shape::Bits(_)
        | Shape::Slots(_)
        | Shape::Names
        | Shape::Rates
        | Shape::Scenes
        | Shape::Block => 1,
    }
}

/// A number of the data in four slots.
fn four_slots(shape: Shape, number: i64) -> [u8; 4]
    ensures { result ≡ four_slots shape number }
{
    let cut = number.cast_unsigned() % span_of(shape);
    (cut as u32).to_be_bytes()
}

/// The number that a parameter starts with, and 0 where its data are no number.
fn first_number(def: &ParameterDef) -> i64
    ensures { result ≡ first_number def.now }
{
    match read_shape(def.shape, def.start.as_slice()) {
        Some(value) => number_in(def.shape, &value).unwrap_or(0),
        None => 0,
    }
}
