//! How a difference is said.

ghost use Rattle.std.specs.Prelude.{◌≡◌, ◌++◌, OnOk};
ghost use Rattle.rdm_compare.specs.Lines.{change_words, changed_words, difference_line, both_words, difference_words, hours_more, hours_word, model_word, more_hours, name_of, name_words, number_word, part_word, quoted, told_word};

use crate::words::{put_id, put_number};
use crate::{Difference, Field, Told};
use rdm_frame::{Text, Uid};
use rdm_survey::put_shown;
use std::alloc::AllocError;

/// Puts a line that says a difference at the end of a text: `7FF0:00000001 is gone`, `7FF0:00000002 is new: "LED PAR"`,
/// `7FF0:00000001 sub-device 2 address: 3 then, 7 now` or `7FF0:00000001 has run 20 hours more`.
pub fn put_difference(text: &mut Vec<u8>, difference: &Difference) -> Result<(), AllocError>
    ensures { OnOk result (text.new.items ≡ text.old.items ++ difference_line difference.now) }
{
    put_words(text, difference)?;
    text.extend_from_slice(b"\n")
}

/// The line without its end.
fn put_words(text: &mut Vec<u8>, difference: &Difference) -> Result<(), AllocError>
    ensures { OnOk result (text.new.items ≡ text.old.items ++ difference_words difference.now) }
{
    match difference {
        Difference::Gone { uid, sub } => {
            put_part(text, *uid, *sub)?;
            text.extend_from_slice(b" is gone")
        }
        Difference::New { uid, sub, model } => {
            put_part(text, *uid, *sub)?;
            text.extend_from_slice(b" is new")?;
            put_model(text, model)
        }
        Difference::Changed {
            uid,
            sub,
            field,
            then,
            now,
        } => {
            put_part(text, *uid, *sub)?;
            put_changed(text, *field, then, now)
        }
    }
}

/// The UID of a fixture, and behind it the number of the sub-device if it's one.
#[tactic(auto, unfolding(crate::specs::Lines::part_word))]
fn put_part(text: &mut Vec<u8>, uid: Uid, sub: u16) -> Result<(), AllocError>
    ensures { OnOk result (text.new.items ≡ text.old.items ++ part_word uid sub) }
{
    text.extend_from_slice(&uid.text())?;
    if sub == 0 {
        return Ok(());
    }
    text.extend_from_slice(b" sub-device ")?;
    put_number(text, u32::from(sub))
}

/// What a new fixture is, if it tells.
#[tactic(auto, unfolding(crate::specs::Lines::model_word))]
fn put_model(text: &mut Vec<u8>, model: &Option<Text>) -> Result<(), AllocError>
    ensures { OnOk result (text.new.items ≡ text.old.items ++ model_word model.now) }
{
    match model {
        Some(model) => {
            text.extend_from_slice(b": ")?;
            put_quoted(text, model.as_slice())
        }
        None => Ok(()),
    }
}

/// What was told then and what is told now, or by how many the hours are more.
#[tactic(auto, unfolding(crate::specs::Lines::changed_words))]
fn put_changed(text: &mut Vec<u8>, field: Field, then: &Told, now: &Told) -> Result<(), AllocError>
    ensures { OnOk result (text.new.items ≡ text.old.items ++ changed_words field then.now now.now) }
{
    match hours_more(field, then, now) {
        Some(hours) => put_more_hours(text, hours),
        None => put_change(text, field, then, now),
    }
}

/// By how many hours are more, if they are.
fn hours_more(field: Field, then: &Told, now: &Told) -> Option<u32>
    ensures { result ≡ hours_more field then.now now.now }
{
    let (Field::Hours, Told::Number(then), Told::Number(now)) = (field, then, now) else {
        return None;
    };
    if *then < *now {
        Some(*now - *then)
    } else {
        None
    }
}

/// How many hours a fixture has run more.
fn put_more_hours(text: &mut Vec<u8>, hours: u32) -> Result<(), AllocError>
    ensures { OnOk result (text.new.items ≡ text.old.items ++ more_hours hours) }
{
    text.extend_from_slice(b" has run ")?;
    put_number(text, hours)?;
    text.extend_from_slice(hours_word(hours).as_bytes())
}

fn hours_word(hours: u32) -> &'static str
    ensures { result.now ≡ hours_word hours }
{
    if hours == 1 {
        " hour more"
    } else {
        " hours more"
    }
}

/// What was told in a field then, and what is told now.
fn put_change(text: &mut Vec<u8>, field: Field, then: &Told, now: &Told) -> Result<(), AllocError>
    ensures { OnOk result (text.new.items ≡ text.old.items ++ change_words field then.now now.now) }
{
    put_name(text, field)?;
    put_both(text, field, then, now)
}

/// What a field is called, with a colon behind it.
fn put_name(text: &mut Vec<u8>, field: Field) -> Result<(), AllocError>
    ensures { OnOk result (text.new.items ≡ text.old.items ++ name_words field) }
{
    text.extend_from_slice(b" ")?;
    text.extend_from_slice(name_of(field).as_bytes())?;
    text.extend_from_slice(b": ")
}

/// What was told then, and what is told now.
fn put_both(text: &mut Vec<u8>, field: Field, then: &Told, now: &Told) -> Result<(), AllocError>
    ensures { OnOk result (text.new.items ≡ text.old.items ++ both_words field then.now now.now) }
{
    put_told(text, field, then)?;
    text.extend_from_slice(b" then, ")?;
    put_told(text, field, now)?;
    text.extend_from_slice(b" now")
}

/// What was told in a field.
fn put_told(text: &mut Vec<u8>, field: Field, told: &Told) -> Result<(), AllocError>
    ensures { OnOk result (text.new.items ≡ text.old.items ++ told_word field told.now) }
{
    match told {
        Told::Text(words) => put_quoted(text, words.as_slice()),
        Told::Number(number) => put_number_of(text, field, *number),
    }
}

/// A text in quotes.
fn put_quoted(text: &mut Vec<u8>, words: &[u8]) -> Result<(), AllocError>
    ensures { OnOk result (text.new.items ≡ text.old.items ++ quoted words.now) }
{
    text.extend_from_slice(b"\"")?;
    put_shown(text, words)?;
    text.extend_from_slice(b"\"")
}

/// A number: an ID in hexadecimal digits, another in decimal ones.
#[tactic(auto, unfolding(rdm_survey::specs::Members::id_word, rdm_survey::specs::Members::long_id_word))]
pub(crate) fn put_number_of(text: &mut Vec<u8>, field: Field, number: u32) -> Result<(), AllocError>
    ensures { OnOk result (text.new.items ≡ text.old.items ++ number_word field number) }
{
    match field {
        // A model ID has two slots.
        Field::ModelId => {
            let [_, _, high, low] = number.to_be_bytes();
            put_id(text, &[high, low])
        }
        Field::SoftwareId => put_id(text, &number.to_be_bytes()),
        _ => put_number(text, number),
    }
}

/// What a field is called.
fn name_of(field: Field) -> &'static str
    ensures { result.now ≡ name_of field }
{
    match field {
        Field::Manufacturer => "manufacturer",
        Field::Model => "model",
        Field::ModelId => "model ID",
        Field::Label => "label",
        Field::Software => "software",
        Field::SoftwareId => "software ID",
        Field::Personality => "personality",
        Field::PersonalityName => "personality name",
        Field::Personalities => "personalities",
        Field::Address => "address",
        Field::Footprint => "footprint",
        Field::Hours => "hours",
    }
}
