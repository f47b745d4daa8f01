//! What a parameter starts with.

ghost use Rattle.std.specs.Prelude.{◌≡◌, IfErr, codes};
ghost use Rattle.std.specs.Result.{result_ok};
ghost use Rattle.toml.specs.Data.{get_member};
ghost use Rattle.toml.specs.View.{view, table_view};
ghost use Rattle.rdm_profile.specs.declared.profile.own.Shape.TheVariants as shapes;
ghost use Rattle.rdm_fixture_keys.specs.Faults.{told};
ghost use Rattle.rdm_fixture.specs.FirstWrong as parts;
ghost use Rattle.rdm_fixture_keys.specs.Keys.{must};
ghost use Rattle.rdm_fixture.specs.Parameters as says;

use rdm_device::Shape;
use rdm_fixture_keys::keys::{find, integer_from, printable_in};
use rdm_fixture_keys::{Refusal, Wanted};
use rdm_frame::Text;
use rdm_frame::digits::bytes_in;
use toml::{Table, Value};

/// The data that a parameter starts with.
pub(super) fn start(table: &Table, shape: Shape, low: i64, high: i64) -> Result<Text, Refusal>
    ensures value { result_ok result ≡ must (says.start shape low high) (get_member (codes "default_value") (table_view table.now)) }
    ensures wrong { IfErr result (λ e. (parts.start_part shape low high).Wrong (table_view table.now) (told e)) }
{
    match find(table, "default_value") {
        Some(value) => match start_in(value, shape, low, high) {
            Some(start) => Ok(start),
            None => Err(Refusal::at("default_value", wanted_start(shape, low, high))),
        },
        None => Err(Refusal::at("default_value", Wanted::Key)),
    }
}

/// What data can start with.
fn wanted_start(shape: Shape, low: i64, high: i64) -> Wanted
    ensures { result ≡ parts.wanted_start shape low high }
{
    match shape {
        Shape::Text => Wanted::Text,
        Shape::Bits(_) | Shape::Slots(_) => Wanted::Slots,
        Shape::Names | Shape::Rates => Wanted::Slots,
        Shape::Scenes | Shape::Block => Wanted::Slots,
        Shape::Byte
        | Shape::SignedByte
        | Shape::Word
        | Shape::SignedWord
        | Shape::Long
        | Shape::SignedLong
        | Shape::Choice
        | Shape::Lock
        | Shape::Pin => Wanted::Number {
            least: low,
            most: high,
        },
    }
}

fn start_in(value: &Value, shape: Shape, low: i64, high: i64) -> Option<Text>
    ensures { result ≡ says.start shape low high (view value.now) }
{
    match shape {
        Shape::Text => printable_in(value),
        Shape::Bits(_) => spelled(value),
        Shape::Slots(_) => spelled(value),
        Shape::Names => spelled(value),
        Shape::Rates => spelled(value),
        Shape::Scenes => spelled(value),
        Shape::Block => spelled(value),
        Shape::Choice => Some(one_slot(integer_from(value, low, high)?)),
        Shape::Lock => Some(one_slot(integer_from(value, low, high)?)),
        Shape::Byte => Some(one_slot(integer_from(value, low, high)?)),
        Shape::SignedByte => Some(one_slot(integer_from(value, low, high)?)),
        Shape::Pin => Some(two_slots(integer_from(value, low, high)?)),
        Shape::Word => Some(two_slots(integer_from(value, low, high)?)),
        Shape::SignedWord => Some(two_slots(integer_from(value, low, high)?)),
        Shape::Long => Some(four_slots(integer_from(value, low, high)?)),
        Shape::SignedLong => Some(four_slots(integer_from(value, low, high)?)),
    }
}

/// A number of 8 bits, in two's complement.
fn one_slot(number: i64) -> Text
    ensures { result ≡ says.number_slots shapes.Byte number }
{
    Text::of(&[(number.cast_unsigned() % 0x100) as u8])
}

/// A number of 16 bits, in two's complement.
fn two_slots(number: i64) -> Text
    ensures { result ≡ says.number_slots shapes.Word number }
{
    Text::of(&((number.cast_unsigned() % 0x1_0000) as u16).to_be_bytes())
}

/// A number of 32 bits, in two's complement.
fn four_slots(number: i64) -> Text
    ensures { result ≡ says.number_slots shapes.Long number }
{
    Text::of(&((number.cast_unsigned() % 0x1_0000_0000) as u32).to_be_bytes())
}

/// The slots that a text has two hexadecimal digits for.
fn spelled(value: &Value) -> Option<Text>
    ensures { result ≡ says.spelled (view value.now) }
{
    let Value::String(digits) = value else {
        return None;
    };
    if digits.len() > 64 {
        return None;
    }
    let slots = bytes_in(digits.as_bytes())?;
    Some(Text::of(slots.as_slice()))
}
