//! What stands in a column of the table of sensors.

ghost use Rattle.std.specs.Prelude.{◌≡◌, ◌++◌, OnOk};
ghost use Rattle.std.specs.Fmt.{signed_decimal};
ghost use Rattle.rdm_health.specs.SensorTable.{byte_digits, defined_words, highest_words, lowest_words, measured_words, number_words, present_words, range_words, recorded_words, spaced, told_words, type_words, unit_numbers, unit_words, words_in};

use crate::names::{prefix_symbol, sensor_type, unit_symbol};
use crate::sensor_table::Column;
use crate::{SensorDefinition, SensorRow, SensorValue, Verdict};
use itoa::Buffer;
use rdm_frame::digits::put_digits;
use rdm_survey::{put_place, put_shown};
use std::alloc::AllocError;

/// What stands in a column.
pub(crate) fn put_words(
    text: &mut Vec<u8>,
    column: Column,
    row: &SensorRow,
) -> Result<(), AllocError>
    ensures { OnOk result (text.new.items ≡ text.old.items ++ words_in column row.now) }
{
    match column {
        Column::Place => put_place(text, row.uid, row.sub),
        Column::Number => text.extend_from_slice(Buffer::new().format(row.number).as_bytes()),
        Column::Name | Column::Kind | Column::Normal => put_told(text, column, &row.definition),
        Column::Value => put_present(text, &row.definition, &row.value),
        Column::Lowest => put_lowest(text, &row.definition, &row.value),
        Column::Highest => put_highest(text, &row.definition, &row.value),
        Column::Recorded => put_recorded(text, &row.definition, &row.value),
        Column::Verdict => {
            text.extend_from_slice(Verdict::on(&row.definition, &row.value).name().as_bytes())
        }
    }
}

/// What the definition tells for a column, or a hyphen.
fn put_told(
    text: &mut Vec<u8>,
    column: Column,
    definition: &Option<SensorDefinition>,
) -> Result<(), AllocError>
    ensures { OnOk result (text.new.items ≡ text.old.items ++ told_words column definition.now) }
{
    match definition {
        Some(definition) => put_defined(text, column, definition),
        None => text.extend_from_slice(b"-"),
    }
}

/// What a definition tells for a column.
fn put_defined(
    text: &mut Vec<u8>,
    column: Column,
    definition: &SensorDefinition,
) -> Result<(), AllocError>
    ensures { OnOk result (text.new.items ≡ text.old.items ++ defined_words column definition.now) }
{
    match column {
        Column::Name => put_shown(text, definition.description.as_slice()),
        Column::Kind => put_type(text, definition.kind),
        Column::Normal => put_range(text, definition.normal_lowest, definition.normal_highest),
        _ => Ok(()),
    }
}

/// The value now, in its unit if that is told.
fn put_present(
    text: &mut Vec<u8>,
    definition: &Option<SensorDefinition>,
    value: &Option<SensorValue>,
) -> Result<(), AllocError>
    ensures { OnOk result (text.new.items ≡ text.old.items ++ present_words definition.now value.now) }
{
    match (definition, value) {
        (_, None) => text.extend_from_slice(b"-"),
        (None, Some(value)) => put_signed(text, value.present),
        (Some(definition), Some(value)) => put_measured(text, definition, value.present),
    }
}

/// The lowest value, if it is told and kept.
fn put_lowest(
    text: &mut Vec<u8>,
    definition: &Option<SensorDefinition>,
    value: &Option<SensorValue>,
) -> Result<(), AllocError>
    ensures { OnOk result (text.new.items ≡ text.old.items ++ lowest_words definition.now value.now) }
{
    match (definition, value) {
        (Some(definition), Some(value)) if definition.keeps_extremes => {
            put_number(text, value.lowest)
        }
        _ => text.extend_from_slice(b"-"),
    }
}

/// The highest value, if it is told and kept.
fn put_highest(
    text: &mut Vec<u8>,
    definition: &Option<SensorDefinition>,
    value: &Option<SensorValue>,
) -> Result<(), AllocError>
    ensures { OnOk result (text.new.items ≡ text.old.items ++ highest_words definition.now value.now) }
{
    match (definition, value) {
        (Some(definition), Some(value)) if definition.keeps_extremes => {
            put_number(text, value.highest)
        }
        _ => text.extend_from_slice(b"-"),
    }
}

/// The recorded value, if it is told and kept.
fn put_recorded(
    text: &mut Vec<u8>,
    definition: &Option<SensorDefinition>,
    value: &Option<SensorValue>,
) -> Result<(), AllocError>
    ensures { OnOk result (text.new.items ≡ text.old.items ++ recorded_words definition.now value.now) }
{
    match (definition, value) {
        (Some(definition), Some(value)) if definition.keeps_recorded => {
            put_number(text, value.recorded)
        }
        _ => text.extend_from_slice(b"-"),
    }
}

/// A number with a sign, if it is told.
fn put_number(text: &mut Vec<u8>, number: Option<i16>) -> Result<(), AllocError>
    ensures { OnOk result (text.new.items ≡ text.old.items ++ number_words number) }
{
    match number {
        Some(number) => put_signed(text, number),
        None => text.extend_from_slice(b"-"),
    }
}

/// A number with a sign.
fn put_signed(text: &mut Vec<u8>, number: i16) -> Result<(), AllocError>
    ensures { OnOk result (text.new.items ≡ text.old.items ++ signed_decimal number) }
{
    text.extend_from_slice(Buffer::new().format(number).as_bytes())
}

/// A value in the unit of a sensor.
fn put_measured(
    text: &mut Vec<u8>,
    definition: &SensorDefinition,
    value: i16,
) -> Result<(), AllocError>
    ensures { OnOk result (text.new.items ≡ text.old.items ++ measured_words definition.now value) }
{
    put_signed(text, value)?;
    put_unit(text, definition.prefix, definition.unit)
}

/// A unit with its prefix, behind a space, if there is one.
fn put_unit(text: &mut Vec<u8>, prefix: u8, unit: u8) -> Result<(), AllocError>
    ensures { OnOk result (text.new.items ≡ text.old.items ++ spaced (unit_words prefix unit)) }
{
    let multiple = prefix_symbol(prefix);
    let symbol = unit_symbol(unit);
    match (multiple, symbol) {
        (Some(multiple), Some(symbol)) => put_symbol(text, multiple, symbol),
        _ => put_unit_numbers(text, prefix, unit),
    }
}

/// A prefix and a unit, behind a space, unless both are nothing.
fn put_symbol(text: &mut Vec<u8>, multiple: &str, symbol: &str) -> Result<(), AllocError>
    ensures { OnOk result (text.new.items ≡ text.old.items ++ spaced (multiple.now ++ symbol.now)) }
{
    if multiple.is_empty() && symbol.is_empty() {
        return Ok(());
    }
    text.extend_from_slice(b" ")?;
    text.extend_from_slice(multiple.as_bytes())?;
    text.extend_from_slice(symbol.as_bytes())
}

/// What a sensor measures, by its name or its number.
fn put_type(text: &mut Vec<u8>, kind: u8) -> Result<(), AllocError>
    ensures { OnOk result (text.new.items ≡ text.old.items ++ type_words kind) }
{
    match sensor_type(kind) {
        Some(name) => text.extend_from_slice(name.as_bytes()),
        None => {
            text.extend_from_slice(b"type ")?;
            put_byte(text, kind)
        }
    }
}

/// A prefix and a unit by their numbers, behind a space.
fn put_unit_numbers(text: &mut Vec<u8>, prefix: u8, unit: u8) -> Result<(), AllocError>
    ensures { OnOk result (text.new.items ≡ text.old.items ++ spaced (unit_numbers prefix unit)) }
{
    text.extend_from_slice(b" (prefix ")?;
    put_byte(text, prefix)?;
    text.extend_from_slice(b", unit ")?;
    put_byte(text, unit)?;
    text.extend_from_slice(b")")
}

/// A normal range, of which an end that isn't defined is left out.
fn put_range(text: &mut Vec<u8>, lowest: i16, highest: i16) -> Result<(), AllocError>
    ensures { OnOk result (text.new.items ≡ text.old.items ++ range_words lowest highest) }
{
    match (i16::MIN < lowest, highest < i16::MAX) {
        (true, true) => {
            put_signed(text, lowest)?;
            text.extend_from_slice(b" to ")?;
            put_signed(text, highest)
        }
        (true, false) => {
            text.extend_from_slice(b"from ")?;
            put_signed(text, lowest)
        }
        (false, true) => {
            text.extend_from_slice(b"up to ")?;
            put_signed(text, highest)
        }
        (false, false) => text.extend_from_slice(b"-"),
    }
}

/// The two digits of a byte.
#[tactic(auto, unfolding(crate::specs::SensorTable::byte_digits))]
fn put_byte(text: &mut Vec<u8>, byte: u8) -> Result<(), AllocError>
    ensures { OnOk result (text.new.items ≡ text.old.items ++ byte_digits byte) }
{
    put_digits(text, &[byte])
}
