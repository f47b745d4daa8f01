//! The words of parameters that a fixture adds (E1.20 section 10.4.2, E1.37-1).

ghost use Rattle.std.specs.Prelude.{◌≡◌, ◌++◌, OnOk, option_map, string_bytes};
ghost use Rattle.rdm_words.specs.HeaderWords.{parameter_words};

use crate::data::added::fields_of;
use crate::data::described::{Added, common_shape};
use crate::data::form::Record;
use crate::data::known::Facts;
use crate::data::lengths::put_other_length;
use crate::data::sensors::put_unit;
use crate::data::values::{number_of as number_in_slots, put_behind, put_coded, put_record};
use crate::frame::class::Class;
use crate::tables::parameters::parameter;
use crate::text::{put_hex, put_quoted};
use rdm_device::columns::added::{number_in, read_shape};
use rdm_device::{Field, Shape};
use rdm_frame::standard::{PARAMETER_DESCRIPTION, PRODUCT_DETAIL_ID_LIST, PROXIED_DEVICES};
use rdm_frame::uid_at;
use rdm_standard_names::Table;
use rdm_standard_names::products::PRODUCT_DETAILS;
use std::alloc::AllocError;
use std::fmt::Write;

/// The types of data (table A-15).
const DATA_TYPES: Table = Table(&[
    (0x00, "not defined"),
    (0x01, "bit field"),
    (0x02, "ASCII"),
    (0x03, "unsigned byte"),
    (0x04, "signed byte"),
    (0x05, "unsigned word"),
    (0x06, "signed word"),
    (0x07, "unsigned dword"),
    (0x08, "signed dword"),
]);

/// The commands of a parameter (table A-16).
const COMMAND_CLASSES: Table = Table(&[(0x01, "GET"), (0x02, "SET"), (0x03, "GET and SET")]);

/// A parameter: its name in the standard, or the one that the fixture is known to give it, and its number; the number alone
/// if it has no name.
pub(crate) fn put_parameter(
    text: &mut String,
    pid: u16,
    known: &Facts<'_>,
) -> Result<(), AllocError> {
    put_parameter_by(text, pid, own_name(pid, known))
}

/// The name that the fixture is known to give a parameter.
pub(crate) fn own_name<'a>(pid: u16, known: &Facts<'a>) -> Option<&'a [u8]> {
    match known.parameter(pid) {
        Some(def) => Some(def.name),
        None => None,
    }
}

/// A parameter that the fixture gives this name, if it gives one.
#[tactic(auto, unfolding(crate::specs::HeaderWords::parameter_words))]
pub(crate) fn put_parameter_by(
    text: &mut String,
    pid: u16,
    own: Option<&[u8]>,
) -> Result<(), AllocError>
    ensures { OnOk result (string_bytes text.new ≡ string_bytes text.old ++ parameter_words pid (option_map (λ name. name.now) own.entry)) }
{
    if let Some(name) = parameter(pid) {
        text.push_str(name)?;
        return put_behind(text, &pid.to_be_bytes());
    }
    match own {
        Some(name) => {
            put_quoted(text, name)?;
            put_behind(text, &pid.to_be_bytes())
        }
        None => {
            text.push_str("parameter ")?;
            put_hex(text, &pid.to_be_bytes())
        }
    }
}

/// What data say of a parameter that isn't in the table, for a line of its own before the data themselves: the fields of one of the
/// standards, the value of one that the fixture is known to add, or the description of one. There is nothing if that isn't known; and that
/// they haven't the length of the parameter, if that is so.
pub(crate) fn put_own_words(
    text: &mut String,
    code: u8,
    pid: u16,
    data: &[u8],
    known: &Facts<'_>,
) -> Result<(), AllocError> {
    let mut words = String::new(*text.allocator());
    put_own(&mut words, "value ", code, pid, data, known)?;
    if !words.is_empty() {
        return text.push_str(words.as_str());
    }
    match unfit(code, pid, data) {
        Some(record) => put_other_length(text, pid, record, data),
        None => Ok(()),
    }
}

/// The fields of a parameter of the standards, if the data have another length.
fn unfit(code: u8, pid: u16, data: &[u8]) -> Option<Record> {
    let record = fields_of(Class::of(code)?, pid)?;
    if record.fits(data) {
        None
    } else {
        Some(record)
    }
}

/// The same in one line, with these words before a value.
pub(crate) fn put_own(
    text: &mut String,
    noun: &str,
    code: u8,
    pid: u16,
    data: &[u8],
    known: &Facts<'_>,
) -> Result<(), AllocError> {
    match (Class::of(code), data) {
        (Some(Class::Get), [a, b]) if pid == PARAMETER_DESCRIPTION => {
            put_parameter(text, u16::from_be_bytes([*a, *b]), known)
        }
        (Some(Class::GetResponse), _) if pid == PARAMETER_DESCRIPTION => {
            put_description(text, data)
        }
        (Some(Class::GetResponse), _) if pid == PRODUCT_DETAIL_ID_LIST => {
            put_details(text, data)
        }
        (Some(Class::GetResponse), _) if pid == PROXIED_DEVICES => put_uids(text, data),
        (Some(class), _) => match fields_of(class, pid) {
            Some(record) => put_if_fits(text, record, data, known),
            None => put_known(text, noun, class, pid, data, known),
        },
        _ => Ok(()),
    }
}

/// These fields, if the data have as many slots.
fn put_if_fits(
    text: &mut String,
    record: Record,
    data: &[u8],
    known: &Facts<'_>,
) -> Result<(), AllocError> {
    if record.fits(data) {
        put_record(text, "", record, data, known)
    } else {
        Ok(())
    }
}

/// The details of a product, if there are two slots for each.
fn put_details(text: &mut String, data: &[u8]) -> Result<(), AllocError> {
    if data.len() % 2 == 1 {
        return Ok(());
    }
    for (place, detail) in data.chunks(2).enumerate() {
        if place > 0 {
            text.push_str(", ")?;
        }
        put_coded(text, PRODUCT_DETAILS, detail)?;
    }
    Ok(())
}

/// The UIDs of proxied devices, if there are six slots for each (section 10.3.1).
fn put_uids(text: &mut String, data: &[u8]) -> Result<(), AllocError> {
    if data.len() % 6 != 0 {
        return Ok(());
    }
    if data.is_empty() {
        return text.push_str("no proxied devices");
    }
    text.push_str("proxied devices")?;
    for slots in data.chunks(6) {
        if slots.len() == 6 {
            let uid = uid_at(slots, 0);
            write!(text, " {uid}")?;
        }
    }
    Ok(())
}

/// What the data say of a parameter that isn't in the table, if that is known.
fn put_known(
    text: &mut String,
    noun: &str,
    class: Class,
    pid: u16,
    data: &[u8],
    known: &Facts<'_>,
) -> Result<(), AllocError> {
    match (class, data) {
        (Class::Get, [number]) => match added(pid, known) {
            Some(def) if tells_names(def.shape) => write!(text, "number {number}"),
            _ => Ok(()),
        },
        (Class::GetResponse | Class::Set, _) => match added(pid, known) {
            Some(def) => put_value_of(text, noun, &def, data, known),
            None => Ok(()),
        },
        _ => Ok(()),
    }
}

/// A parameter that the fixture is known to add, or one of E1.37-1 whose data are the same for each fixture.
fn added<'a>(pid: u16, known: &Facts<'a>) -> Option<Added<'a>> {
    if let Some(def) = known.parameter(pid) {
        return Some(def);
    }
    Some(Added {
        pid,
        name: &[],
        shape: common_shape(pid)?,
        fields: &[],
        prefix: 0,
        unit: 0,
    })
}

/// Whether a parameter tells what things are called.
fn tells_names(shape: Shape) -> bool {
    matches!(shape, Shape::Names | Shape::Rates)
}

/// The value that data say, if it is a number, several of them or a text; a thing that is chosen, or what one is called.
fn put_value_of(
    text: &mut String,
    noun: &str,
    def: &Added<'_>,
    data: &[u8],
    known: &Facts<'_>,
) -> Result<(), AllocError> {
    match (def.shape, data) {
        (Shape::Choice, [number]) => {
            write!(text, "{noun}{number}")?;
            put_chosen(text, known.choice(def.pid, *number))
        }
        (Shape::Choice, [number, most]) => {
            write!(text, "{noun}{number} of {most}")?;
            put_chosen(text, known.choice(def.pid, *number))
        }
        (Shape::Names, [number, name @ ..]) => {
            write!(text, "number {number}: ")?;
            put_quoted(text, name)
        }
        (Shape::Rates, [number, a, b, c, d, name @ ..]) => {
            let hertz = u32::from_be_bytes([*a, *b, *c, *d]);
            write!(text, "number {number}: ")?;
            put_quoted(text, name)?;
            write!(text, ", {hertz} Hz")
        }
        (Shape::Slots(slots), _) if data.len() == usize::from(slots) => {
            put_numbers(text, noun, def.fields, data)
        }
        _ => put_single(text, noun, def, data),
    }
}

/// What is chosen is called.
fn put_chosen(text: &mut String, name: Option<&[u8]>) -> Result<(), AllocError> {
    let Some(name) = name else {
        return Ok(());
    };
    text.push_str(", ")?;
    put_quoted(text, name)
}

/// The numbers that slots say, one after another, if that is known.
fn put_numbers(
    text: &mut String,
    noun: &str,
    fields: &[Field],
    data: &[u8],
) -> Result<(), AllocError> {
    if fields.is_empty() {
        return Ok(());
    }
    text.push_str(noun)?;
    let mut first = 0usize;
    for field in fields {
        if first > 0 {
            text.push_str(", ")?;
        }
        let end = first.saturating_add(field.width.slots());
        let number = number_in_slots(data.get(first..end).unwrap_or(&[]));
        write!(text, "{number}")?;
        first = end;
    }
    Ok(())
}

/// One value, if it is a number or a text.
fn put_single(
    text: &mut String,
    noun: &str,
    def: &Added<'_>,
    data: &[u8],
) -> Result<(), AllocError> {
    let Some(value) = read_shape(def.shape, data) else {
        return Ok(());
    };
    match number_in(def.shape, &value) {
        Some(number) => {
            write!(text, "{noun}{number}")?;
            put_unit(text, "", def.prefix, def.unit)
        }
        None => match def.shape {
            Shape::Text => {
                text.push_str(noun)?;
                put_quoted(text, data)
            }
            _ => Ok(()),
        },
    }
}

/// The fields of a description, if all of them are there.
fn put_description(text: &mut String, data: &[u8]) -> Result<(), AllocError> {
    let [a, b, slots, kind, class, _, unit, prefix, numbers @ ..] = data else {
        return Ok(());
    };
    if numbers.len() < 12 {
        return Ok(());
    }
    let low = number_of(*kind, &numbers[..4]);
    let high = number_of(*kind, &numbers[4..8]);
    let default = number_of(*kind, &numbers[8..12]);
    let pid = u16::from_be_bytes([*a, *b]);
    write!(text, "parameter {pid:04X}: ")?;
    put_quoted(text, &numbers[12..])?;
    text.push_str(", ")?;
    put_coded(text, DATA_TYPES, &[*kind])?;
    match slots {
        1 => text.push_str(" of 1 slot, ")?,
        _ => write!(text, " of {slots} slots, ")?,
    }
    put_coded(text, COMMAND_CLASSES, &[*class])?;
    if let (Some(low), Some(high)) = (low, high) {
        write!(text, ", {low} to {high}")?;
        put_unit(text, "", *prefix, *unit)?;
    }
    match default {
        Some(number) => write!(text, ", default {number}"),
        None => Ok(()),
    }
}

/// The number that four slots say of data of this type, if its data are a number.
fn number_of(kind: u8, slots: &[u8]) -> Option<i64> {
    let [a, b, c, d] = slots else {
        return None;
    };
    let number = u32::from_be_bytes([*a, *b, *c, *d]);
    match kind {
        0x03 | 0x05 | 0x07 => Some(i64::from(number)),
        0x04 => Some(i64::from(d.cast_signed())),
        0x06 => Some(i64::from(u16::from_be_bytes([*c, *d]).cast_signed())),
        0x08 => Some(i64::from(number.cast_signed())),
        _ => None,
    }
}
