//! What is written of the parameters that the profile adds.

ghost use Rattle.std.specs.Prelude.{◌≡◌, IfOk, IsTrue, Some, option_and_then, string_bytes};
ghost use Rattle.std.specs.Str.Lossy.{utf8_lossy};
ghost use Rattle.toml.specs.View.{view};
ghost use Rattle.rdm_frame.specs.Digits.{digits};
ghost use Rattle.rdm_profile.specs.Forms.{value_of};
ghost use Rattle.rdm_profile.specs.OwnParameters.{is_addable, form_of, number_in, can_start, has_good_fields};
ghost use Rattle.rdm_profile.specs.Standards.{follows};
ghost use Rattle.rdm_fixture.specs.Describable.{is_sayable, can_stand};
ghost use Rattle.rdm_fixture.specs.Parameters as says;
ghost use Rattle.rdm_profile.specs.Fields.{width_of};
ghost use Rattle.rdm_fixture.specs.Parameters.{IsField, IsParameter};
ghost use Rattle.rdm_fixture.specs.Writing.{IsPlain, rights_name, shape_name, written_slots};

use super::fields::{
    ToEntry, list_of, put, put_byte, put_flag, put_integer, put_long, put_name, put_named_byte,
    put_text, put_word,
};
use rdm_device::columns::added::{number_in, read_shape};
use rdm_device::{Field, ParameterDef, Rights, Shape, Width};
use rdm_frame::digits::put_digits;
use rdm_standard_names::NameKind;
use std::alloc::{AllocError, Global};
use toml::{Table, Value};

impl ToEntry for ParameterDef {
    ghost says = { λ _. IsParameter };

    ghost can = { λ _ d. IsTrue (is_addable d.pid) × IsTrue (can_start d) × IsTrue (has_good_fields d) × IsTrue (follows d) × IsTrue (is_sayable d) };

    ghost deep = { 3 };

    fn to_entry(&self, alloc: Global) -> Result<Table, AllocError> {
        let mut table = Table::new(alloc);
        put_word(alloc, &mut table, "pid", self.pid)?;
        put_name(alloc, &mut table, "command_class", rights_name(self.rights))?;
        put_name(alloc, &mut table, "data_type", shape_name(self.shape))?;
        put_integer(alloc, &mut table, "minimum_valid_value", self.low)?;
        put_integer(alloc, &mut table, "maximum_valid_value", self.high)?;
        let fields = list_of(alloc, self.fields.as_slice())?;
        put(alloc, &mut table, "fields", fields)?;
        let start = start_of(alloc, self.shape, self.start.as_slice())?;
        put(alloc, &mut table, "default_value", Some(start))?;
        put_named_byte(alloc, &mut table, "unit", NameKind::Units, self.unit)?;
        put_named_byte(alloc, &mut table, "prefix", NameKind::Prefixes, self.prefix)?;
        put_flag(alloc, &mut table, "factory_defaults", self.resets)?;
        put_text(alloc, &mut table, "description", &self.name)?;
        Ok(table)
    }
}

impl ToEntry for Field {
    ghost says = { λ _. IsField };

    ghost can = { λ _ _. Unit {0} };

    ghost deep = { 1 };

    fn to_entry(&self, alloc: Global) -> Result<Table, AllocError> {
        let mut table = Table::new(alloc);
        put_byte(alloc, &mut table, "slots", slots_of(self.width))?;
        put_long(alloc, &mut table, "minimum_valid_value", self.low)?;
        put_long(alloc, &mut table, "maximum_valid_value", self.high)?;
        put_long(alloc, &mut table, "also_valid_value", self.also)?;
        Ok(table)
    }
}

/// How many slots a number has.
fn slots_of(width: Width) -> u8
    ensures { result ≡ width_of width }
{
    match width {
        Width::One => 1,
        Width::Two => 2,
        Width::Four => 4,
    }
}

/// The name of the commands (E1.20 table A-16; `get_clear` is a GET with a SET that clears to zero).
fn rights_name(rights: Rights) -> &'static str
    ensures { result.now ≡ rights_name rights }
{
    match rights {
        Rights::Get => "get",
        Rights::Set => "set",
        Rights::Both => "get_set",
        Rights::Clear => "get_clear",
    }
}

/// The name of the type of the data (table A-15).
fn shape_name(shape: Shape) -> &'static str
    ensures { result.now ≡ shape_name shape }
{
    match shape {
        Shape::Byte => "unsigned_byte",
        Shape::SignedByte => "signed_byte",
        Shape::Word => "unsigned_word",
        Shape::SignedWord => "signed_word",
        Shape::Long => "unsigned_dword",
        Shape::SignedLong => "signed_dword",
        Shape::Text => "ascii",
        Shape::Bits(_) => "bit_field",
        Shape::Slots(_) => "not_defined",
        Shape::Choice => "choice",
        Shape::Names => "names",
        Shape::Rates => "rates",
        Shape::Scenes => "scenes",
        Shape::Lock => "lock",
        Shape::Pin => "pin",
        Shape::Block => "block",
    }
}

/// What is written of the data that a parameter starts with: a number, a text, or the digits of its slots.
fn start_of(alloc: Global, shape: Shape, start: &[u8]) -> Result<Value, AllocError>
    ensures says { IfOk result (λ v. (d : ParameterDef) → d.shape ≡ shape → d.start ≡ start.now → IsTrue (can_start d) → IsTrue (can_stand d.shape d.start)
        → says.start d.shape d.low d.high (view v) ≡ Some d.start) }
    ensures plain { IfOk result (λ v. IsPlain 0 (view v)) }
{
    match number_of(shape, start) {
        Some(number) => Ok(Value::from(number)),
        None => Ok(Value::String(text_of(alloc, shape, start)?)),
    }
}

/// The number that slots say.
fn number_of(shape: Shape, slots: &[u8]) -> Option<i64>
    ensures { result ≡ option_and_then (number_in shape) (value_of (form_of shape) slots.now) }
{
    number_in(shape, &read_shape(shape, slots)?)
}

/// A text as it is, and other slots in digits.
fn text_of(alloc: Global, shape: Shape, slots: &[u8]) -> Result<String, AllocError>
    ensures { IfOk result (λ text. string_bytes text ≡ written_slots shape slots.now) }
{
    match shape {
        Shape::Text => String::from_utf8_lossy(alloc, slots),
        Shape::Byte | Shape::SignedByte | Shape::Word => digits_of(alloc, slots),
        Shape::SignedWord | Shape::Long | Shape::SignedLong => digits_of(alloc, slots),
        Shape::Bits(_) | Shape::Slots(_) => digits_of(alloc, slots),
        Shape::Choice | Shape::Names | Shape::Rates => digits_of(alloc, slots),
        Shape::Scenes | Shape::Block => digits_of(alloc, slots),
        Shape::Lock | Shape::Pin => digits_of(alloc, slots),
    }
}

/// Two hexadecimal digits for each slot.
fn digits_of(alloc: Global, slots: &[u8]) -> Result<String, AllocError>
    ensures { IfOk result (λ text. string_bytes text ≡ utf8_lossy (digits slots.now)) }
{
    let mut text = Vec::new(alloc);
    put_digits(&mut text, slots)?;
    String::from_utf8_lossy(alloc, text.as_slice())
}
