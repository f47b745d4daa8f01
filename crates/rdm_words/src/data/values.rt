//! The words of parameter data that are one value.

ghost use Rattle.std.specs.Prelude.{◌≡◌, ◌≢◌, [], ◌∷◌, ◌++◌, OnOk, Some, codes, decimal, if◌then◌else◌, option_map, string_bytes};
ghost use Rattle.rdm_frame.specs.Digits.{digits};
ghost use Rattle.rdm_words.specs.DataFacts.{languages};
ghost use Rattle.rdm_words.specs.FieldFacts.{as_data, as_text, as_uid, number_in, slots_at};
ghost use Rattle.rdm_words.specs.HeaderWords.{named_words, words_or};
ghost use Rattle.rdm_words.specs.LaidOut.{AreSaid, SaysField, counted_facts, data_words, ends_apart, field_facts, fields_facts, fields_of, laid_facts, layout_facts, meaning_facts, noun_words, one_of, slots_facts};
ghost use Rattle.rdm_words.specs.Naming.{AddsNames, PutsFacts};
ghost use Rattle.rdm_standard_names.specs.Tables.{name_of};

use crate::data::form::{Field, Form, Layout, Meaning, Record, Value};
use crate::data::known::Facts;
use crate::data::lists::{first_entry, put_entries};
use crate::data::meanings::{put_control, put_listed, put_meaning, put_place_in, put_slot_use};
use crate::data::sensors::{put_measured, put_range_in, put_signed, put_unit_code};
use crate::data::statuses::{put_failure_in, put_status_id};
use crate::tables::statuses::status_type;
use crate::text::{put_hex, put_quoted};
use rdm_frame::uid_at;
use rdm_standard_names::Table;
use std::alloc::AllocError;
use std::fmt::Write;

/// The words of data of this layout, in one line but for the entries of a list, or the data themselves if they haven't its length.
#[tactic(auto, using(crate::proofs::LaidOut::data_put))]
pub(crate) fn put_value(
    text: &mut String,
    layout: Layout,
    data: &[u8],
    known: &Facts<'_>,
) -> Result<(), AllocError>
    ensures { OnOk result (PutsFacts (layout_facts (Some layout) data.now) (string_bytes text.old) (string_bytes text.new)) }
{
    let Layout(noun, form) = layout;
    match form {
        Form::Nothing | Form::Shown => put_data(text, data),
        Form::Code(table) => put_code(text, noun, table, data),
        Form::StatusType => put_status_type(text, noun, data),
        Form::Fields(laid) | Form::InShort(laid, _) => put_record(text, noun, laid, data, known),
        Form::OneOf(laid, first, second) => {
            put_record(text, noun, fitting(laid, first, second, data), data, known)
        }
        Form::Languages => put_languages(text, noun, data),
        Form::List(list) => put_entries(text, list, data, known),
    }
}

/// One slot that is a number of a table.
#[tactic(auto, using(crate::proofs::LaidOut::data_put, crate::proofs::LaidOut::code_put))]
fn put_code(text: &mut String, noun: &str, table: Table, data: &[u8]) -> Result<(), AllocError>
    ensures { OnOk result (PutsFacts (as_data data.now) (string_bytes text.old) (string_bytes text.new)) }
{
    if data.len() != 1 {
        return put_data(text, data);
    }
    put_noun(text, noun)?;
    put_coded(text, table, data)
}

/// One slot that is a status type (table A-4).
#[tactic(auto, using(crate::proofs::LaidOut::data_put, crate::proofs::LaidOut::code_put))]
fn put_status_type(text: &mut String, noun: &str, data: &[u8]) -> Result<(), AllocError>
    ensures { OnOk result (PutsFacts (as_data data.now) (string_bytes text.old) (string_bytes text.new)) }
{
    if data.len() != 1 {
        return put_data(text, data);
    }
    put_noun(text, noun)?;
    put_named(text, status_type(data[0]), data)
}

/// The first of the others that has as many slots as the data, or else the record itself.
fn fitting(laid: Record, first: Record, second: Record, data: &[u8]) -> Record
    ensures { laid_facts result data.now ≡ one_of laid first second data.now }
{
    if first.fits(data) {
        return first;
    }
    if second.fits(data) {
        return second;
    }
    laid
}

/// Data that have no words, in hexadecimal digits.
pub(crate) fn put_data(text: &mut String, slots: &[u8]) -> Result<(), AllocError>
    ensures some { slots.now ≢ [] → OnOk result (string_bytes text.new ≡ string_bytes text.old ++ (codes "data " ++ digits slots.now)) }
    ensures all { OnOk result (string_bytes text.new ≡ string_bytes text.old ++ data_words slots.now) }
{
    if slots.is_empty() {
        return text.push_str("no data");
    }
    text.push_str("data ")?;
    put_hex(text, slots)
}

/// What the value is, if that is said, and a space.
fn put_noun(text: &mut String, noun: &str) -> Result<(), AllocError>
    ensures { OnOk result (string_bytes text.new ≡ string_bytes text.old ++ noun_words noun.now) }
{
    if noun.is_empty() {
        return Ok(());
    }
    write!(text, "{noun} ")
}

/// Fields, or the data themselves if there aren't as many slots.
#[tactic(auto, using(crate::proofs::LaidOut::data_put))]
pub(crate) fn put_record(
    text: &mut String,
    noun: &str,
    laid: Record,
    data: &[u8],
    known: &Facts<'_>,
) -> Result<(), AllocError>
    ensures { OnOk result (PutsFacts (laid_facts laid data.now) (string_bytes text.old) (string_bytes text.new)) }
{
    if !laid.fits(data) {
        return put_data(text, data);
    }
    put_fitting(text, noun, laid, data, known)
}

/// The same of data that have its slots.
fn put_fitting(
    text: &mut String,
    noun: &str,
    laid: Record,
    data: &[u8],
    known: &Facts<'_>,
) -> Result<(), AllocError>
    ensures { OnOk result (PutsFacts (fields_facts (fields_of laid) data.now) (string_bytes text.old) (string_bytes text.new)) }
{
    put_noun(text, noun)?;
    put_fields(text, laid.fields(), data, known)
}

/// These fields, one after the other.
fn put_fields(
    text: &mut String,
    fields: &[Field],
    data: &[u8],
    known: &Facts<'_>,
) -> Result<(), AllocError>
    ensures { OnOk result (AreSaid data.now fields.now (string_bytes text.old) (string_bytes text.new)) }
{
    for field in fields {
        put_field(text, field, data, known)?;
    }
    Ok(())
}

/// A field, behind the words that stand before it.
fn put_field(
    text: &mut String,
    field: &Field,
    data: &[u8],
    known: &Facts<'_>,
) -> Result<(), AllocError>
    ensures { OnOk result (SaysField field.now.0.now (field_facts data.now field.now) (string_bytes text.old) (string_bytes text.new)) }
{
    let Field(words, first, count, value) = *field;
    text.push_str(words)?;
    let slots = slots_at(data, usize::from(first), usize::from(count));
    put_slots(text, value, slots, known)
}

/// So many slots from the first one on, or as many of them as there are.
pub(crate) fn slots_at(data: &[u8], first: usize, count: usize) -> &[u8]
    ensures { result.now ≡ slots_at first count data.now }
{
    let Some((_, rest)) = data.split_at_checked(first) else {
        return &[];
    };
    match rest.split_at_checked(count) {
        Some((slots, _)) => slots,
        None => rest,
    }
}

/// Slots that are such a value.
fn put_slots(
    text: &mut String,
    value: Value,
    slots: &[u8],
    known: &Facts<'_>,
) -> Result<(), AllocError>
    ensures { OnOk result (PutsFacts (slots_facts value slots.now) (string_bytes text.old) (string_bytes text.new)) }
{
    match value {
        Value::Number => put_number(text, "", slots),
        Value::Digits => put_hex(text, slots),
        Value::Text => put_quoted(text, slots),
        Value::Code(table) => put_coded(text, table, slots),
        Value::Counted(before, table) => put_counted(text, before, table, slots),
        Value::Other(meaning) => put_special(text, meaning, slots, known),
    }
}

/// A number that counts, behind these words; but those of this table have names.
#[tactic(auto, using(crate::proofs::LaidOut::coded_put_if, crate::proofs::LaidOut::number_put))]
fn put_counted(
    text: &mut String,
    before: &str,
    table: Table,
    slots: &[u8],
) -> Result<(), AllocError>
    ensures { OnOk result (PutsFacts (if ends_apart before.now then counted_facts table slots.now else []) (string_bytes text.old) (string_bytes text.new)) }
{
    if table.has(number_of(slots)) {
        return put_coded(text, table, slots);
    }
    put_number(text, before, slots)
}

/// A number that counts, behind these words.
fn put_number(text: &mut String, before: &str, slots: &[u8]) -> Result<(), AllocError>
    ensures { OnOk result (string_bytes text.new ≡ string_bytes text.old ++ (before.now ++ decimal (number_in slots.now))) }
{
    let number = number_of(slots);
    write!(text, "{before}{number}")
}

/// What only some parameters have.
fn put_special(
    text: &mut String,
    meaning: Meaning,
    slots: &[u8],
    known: &Facts<'_>,
) -> Result<(), AllocError>
    ensures { OnOk result (PutsFacts (meaning_facts meaning slots.now) (string_bytes text.old) (string_bytes text.new)) }
{
    match meaning {
        Meaning::Signed => put_signed(text, slots),
        Meaning::Measured => put_measured(text, slots, known),
        Meaning::Uid => put_uid(text, slots),
        Meaning::Parameter => put_listed(text, slots, known),
        Meaning::Place => put_place_in(text, slots),
        Meaning::Failure => put_failure_in(text, slots, known),
        Meaning::SlotUse => put_slot_use(text, slots),
        Meaning::StatusId => put_status_id(text, slots, known),
        Meaning::Range => put_range_in(text, slots),
        Meaning::Unit => put_unit_code(text, slots),
        Meaning::Control => put_control(text, slots),
        _ => put_apart(text, meaning, slots, known),
    }
}

/// The rest of that, put together before it is put there.
fn put_apart(
    text: &mut String,
    meaning: Meaning,
    slots: &[u8],
    known: &Facts<'_>,
) -> Result<(), AllocError>
    ensures { OnOk result (PutsFacts [] (string_bytes text.old) (string_bytes text.new)) }
{
    let mut words = String::new(*text.allocator());
    put_meaning(&mut words, meaning, slots, known)?;
    text.push_str(words.as_str())
}

/// Six slots that are a UID.
#[tactic(auto, using(crate::proofs::LaidOut::other_uid, crate::proofs::LaidOut::uid_put))]
fn put_uid(text: &mut String, slots: &[u8]) -> Result<(), AllocError>
    ensures { OnOk result (PutsFacts (as_uid slots.now) (string_bytes text.old) (string_bytes text.new)) }
{
    if slots.len() != 6 {
        return put_data(text, slots);
    }
    let uid = uid_at(slots, 0);
    write!(text, "{uid}")
}

/// The number that slots are, of which there are one, two or four.
pub(crate) fn number_of(slots: &[u8]) -> u32
    ensures { result ≡ number_in slots.now }
{
    match slots.len() {
        1 => u32::from(slots[0]),
        2 => u32::from(u16::from_be_bytes([slots[0], slots[1]])),
        4 => u32::from_be_bytes([slots[0], slots[1], slots[2], slots[3]]),
        _ => 0,
    }
}

/// A number of a table: its name and, in hexadecimal digits, the number, or the number alone if the table has no name.
pub(crate) fn put_coded(text: &mut String, table: Table, slots: &[u8]) -> Result<(), AllocError>
    ensures { OnOk result (string_bytes text.new ≡ string_bytes text.old ++ named_words (name_of table (number_in slots.now)) (digits slots.now)) }
{
    put_named(text, table.name(number_of(slots)), slots)
}

/// A name and its number in hexadecimal digits, or the number alone if there is no name.
pub(crate) fn put_named(
    text: &mut String,
    name: Option<&'static str>,
    slots: &[u8],
) -> Result<(), AllocError>
    ensures { OnOk result (string_bytes text.new ≡ string_bytes text.old ++ named_words (option_map (λ name. name.now) name.entry) (digits slots.now)) }
{
    match name {
        Some(name) => {
            text.push_str(name)?;
            put_behind(text, slots)
        }
        None => put_hex(text, slots),
    }
}

/// A name, or what has none and its number in hexadecimal digits.
pub(crate) fn put_or(
    text: &mut String,
    noun: &str,
    name: Option<&'static str>,
    slots: &[u8],
) -> Result<(), AllocError>
    ensures { OnOk result (string_bytes text.new ≡ string_bytes text.old ++ words_or noun.now (option_map (λ name. name.now) name.entry) (digits slots.now)) }
{
    match name {
        Some(name) => text.push_str(name),
        None => {
            text.push_str(noun)?;
            put_hex(text, slots)
        }
    }
}

/// The digits of a number behind its name.
pub(crate) fn put_behind(text: &mut String, slots: &[u8]) -> Result<(), AllocError>
    ensures { OnOk result (string_bytes text.new ≡ string_bytes text.old ++ (codes " (" ++ (digits slots.now ++ codes ")"))) }
{
    text.push_str(" (")?;
    put_hex(text, slots)?;
    text.push_str(")")
}

/// Languages, behind what they are.
fn put_languages(text: &mut String, noun: &str, data: &[u8]) -> Result<(), AllocError>
    ensures { OnOk result (PutsFacts (languages data.now) (string_bytes text.old) (string_bytes text.new)) }
{
    if data.is_empty() {
        return write!(text, "no {noun}");
    }
    put_noun(text, noun)?;
    let (language, rest) = first_entry(data, 2);
    put_quoted(text, language)?;
    put_more_languages(text, rest)
}

/// The other languages, a space before each.
fn put_more_languages(text: &mut String, data: &[u8]) -> Result<(), AllocError>
    ensures { OnOk result (AddsNames (languages data.now) (string_bytes text.old) (string_bytes text.new)) }
{
    let mut rest = data;
    while !rest.is_empty() {
        let (language, more) = first_entry(rest, 2);
        put_next_language(text, language)?;
        rest = more;
    }
    Ok(())
}

/// A space and a language.
fn put_next_language(text: &mut String, language: &[u8]) -> Result<(), AllocError>
    ensures { OnOk result (AddsNames (as_text language.now) (string_bytes text.old) (string_bytes text.new)) }
{
    text.push_str(" ")?;
    put_quoted(text, language)
}
