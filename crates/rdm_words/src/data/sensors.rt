//! The words of what sensors measure (E1.20 section 10.7).

ghost use Rattle.std.specs.Prelude.{◌≡◌, [], ◌++◌, OnOk, string_bytes};
ghost use Rattle.std.specs.Fmt.{signed_decimal};
ghost use Rattle.std.specs.Int.{w16, cast_signed};
ghost use Rattle.rdm_words.specs.FieldFacts.{as_digits, as_measured, as_range, as_signed, has_highest, has_lowest, range_facts};
ghost use Rattle.rdm_words.specs.Naming.{AddsNames, PutsFacts};

use crate::data::known::Facts;
use crate::data::values::{put_behind, put_data, slots_at};
use crate::frame::header::word_in;
use rdm_standard_names::sensors::{SENSOR_UNITS, UNIT_PREFIXES};
use std::alloc::AllocError;
use std::fmt::Write;

/// Four slots that are a range of values.
#[tactic(auto, using(crate::proofs::Reports::other_range, crate::proofs::Reports::range_in_put))]
pub(crate) fn put_range_in(text: &mut String, slots: &[u8]) -> Result<(), AllocError>
    ensures { OnOk result (PutsFacts (as_range slots.now) (string_bytes text.old) (string_bytes text.new)) }
{
    if slots.len() != 4 {
        return put_data(text, slots);
    }
    let low = u16::from_be_bytes([slots[0], slots[1]]).cast_signed();
    let high = u16::from_be_bytes([slots[2], slots[3]]).cast_signed();
    put_range(text, low, high)
}

/// A range of values, of which an end that isn't defined is left out.
pub(crate) fn put_range(text: &mut String, low: i16, high: i16) -> Result<(), AllocError>
    ensures { OnOk result (PutsFacts (range_facts low high) (string_bytes text.old) (string_bytes text.new)) }
{
    match (has_lowest(low), has_highest(high)) {
        (false, false) => text.push_str("not defined"),
        (false, true) => write!(text, "up to {high}"),
        (true, false) => write!(text, "from {low}"),
        (true, true) => write!(text, "{low} to {high}"),
    }
}

/// Whether a range has a lower end: -32768 stands for none (section 10.7.1).
fn has_lowest(low: i16) -> bool
    ensures { result ≡ has_lowest low }
{
    i16::MIN < low
}

/// Whether a range has an upper end: 32767 stands for none (section 10.7.1).
fn has_highest(high: i16) -> bool
    ensures { result ≡ has_highest high }
{
    high < i16::MAX
}

/// Behind these words, a space and a unit with its prefix, or their numbers if the tables have no symbol. Nothing is put if
/// the tables say that there is no unit.
pub(crate) fn put_unit(
    text: &mut String,
    before: &str,
    prefix: u8,
    unit: u8,
) -> Result<(), AllocError> {
    if has_no_unit(prefix, unit) {
        return Ok(());
    }
    text.push_str(before)?;
    put_symbol(text, prefix, unit)
}

/// Whether the tables say that there is no unit, nor a prefix.
fn has_no_unit(prefix: u8, unit: u8) -> bool {
    let multiple = UNIT_PREFIXES.name(u32::from(prefix));
    let symbol = SENSOR_UNITS.name(u32::from(unit));
    matches!((multiple, symbol), (Some(""), Some("")))
}

/// A space and a unit.
fn put_symbol(text: &mut String, prefix: u8, unit: u8) -> Result<(), AllocError>
    ensures { OnOk result (AddsNames [] (string_bytes text.old) (string_bytes text.new)) }
{
    let mut words = String::new(*text.allocator());
    put_symbol_words(&mut words, prefix, unit)?;
    text.push_str(" ")?;
    text.push_str(words.as_str())
}

/// Two slots that are a unit and its prefix: their symbol, and the slots.
pub(crate) fn put_unit_code(text: &mut String, slots: &[u8]) -> Result<(), AllocError>
    ensures { OnOk result (PutsFacts (as_digits slots.now) (string_bytes text.old) (string_bytes text.new)) }
{
    let mut words = String::new(*text.allocator());
    match slots {
        [unit, prefix] => put_unit_name(&mut words, *prefix, *unit)?,
        _ => words.push_str("unknown")?,
    }
    text.push_str(words.as_str())?;
    put_behind(text, slots)
}

/// The symbol of a unit with its prefix, if the tables have one.
fn put_unit_name(text: &mut String, prefix: u8, unit: u8) -> Result<(), AllocError> {
    let multiple = UNIT_PREFIXES.name(u32::from(prefix));
    let symbol = SENSOR_UNITS.name(u32::from(unit));
    match (multiple, symbol) {
        (Some(""), Some("")) => text.push_str("none"),
        (Some(multiple), Some(symbol)) => write!(text, "{multiple}{symbol}"),
        _ => text.push_str("unknown"),
    }
}

/// A unit with its prefix, or their numbers.
fn put_symbol_words(text: &mut String, prefix: u8, unit: u8) -> Result<(), AllocError> {
    let multiple = UNIT_PREFIXES.name(u32::from(prefix));
    let symbol = SENSOR_UNITS.name(u32::from(unit));
    match (multiple, symbol) {
        (Some(multiple), Some(symbol)) => write!(text, "{multiple}{symbol}"),
        _ => write!(text, "(prefix {prefix:02X}, unit {unit:02X})"),
    }
}

/// Two slots that are a number with a sign.
#[tactic(auto, using(crate::proofs::LaidOut::other_signed, crate::proofs::LaidOut::signed_put))]
pub(crate) fn put_signed(text: &mut String, slots: &[u8]) -> Result<(), AllocError>
    ensures { OnOk result (PutsFacts (as_signed slots.now) (string_bytes text.old) (string_bytes text.new)) }
{
    if slots.len() != 2 {
        return put_data(text, slots);
    }
    put_signed_word(text, word_in(slots))
}

/// The number with a sign that 16 bits are.
pub(crate) fn put_signed_word(text: &mut String, word: u16) -> Result<(), AllocError>
    ensures { OnOk result (string_bytes text.new ≡ string_bytes text.old ++ signed_decimal (cast_signed w16 word)) }
{
    let number = word.cast_signed();
    write!(text, "{number}")
}

/// The number of a sensor that was said, and what it measures now, in its unit if that is known.
#[tactic(auto, using(crate::proofs::LaidOut::other_measured, crate::proofs::LaidOut::measured_put))]
pub(crate) fn put_measured(
    text: &mut String,
    slots: &[u8],
    known: &Facts<'_>,
) -> Result<(), AllocError>
    ensures { OnOk result (PutsFacts (as_measured slots.now) (string_bytes text.old) (string_bytes text.new)) }
{
    if slots.len() != 3 {
        return put_data(text, slots);
    }
    put_signed(text, slots_at(slots, 1, 2))?;
    put_unit_of(text, slots[0], known)
}

/// The unit of a sensor, if it is known.
#[tactic(auto, using(crate::proofs::Naming::adds_nothing))]
fn put_unit_of(text: &mut String, number: u8, known: &Facts<'_>) -> Result<(), AllocError>
    ensures { OnOk result (AddsNames [] (string_bytes text.old) (string_bytes text.new)) }
{
    match known.unit_of(number) {
        Some((prefix, unit)) if !has_no_unit(prefix, unit) => put_symbol(text, prefix, unit),
        _ => Ok(()),
    }
}
