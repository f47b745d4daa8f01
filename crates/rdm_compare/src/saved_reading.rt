//! Reading what was kept of a survey.

ghost use Rattle.std.specs.Prelude.{◌≡◌, ◌≢◌, codes, Ok, Err, IfOk, IfErr, OnOk};
ghost use Rattle.std.specs.Str.{IsUtf8};
ghost use Rattle.json.specs.Find.{get};
ghost use Rattle.json.specs.Value.{items_view, value_view};
ghost use Rattle.rdm_compare.specs.declared.read_error.ReadError.TheVariants.{NotJson, OutOfMemory};
ghost use Rattle.rdm_compare.specs.Reading.{are_once, has_format, list_in, saved_in, survey_in};

use crate::difference::fixture_of;
use crate::fixture_reading::fixture_by;
use crate::word_reading::json_word;
use crate::{Kept, ReadError};
use json::{Error, Scratch, Value};
use std::alloc::Global;

/// Reads what `put_saved` wrote: the fixtures, in the order of the text. Members that it doesn't know are passed over.
///
/// # Errors
///
/// - `NotJson`: the text isn't JSON, or isn't UTF-8.
/// - `OtherFormat`: the document isn't an object in which `format` is 1.
/// - `NoFixtures`: it has no array `fixtures`.
/// - `NoUid`, `WrongValue`, `WrongSubDevices`: so has the first fixture with which something is wrong.
/// - `Twice`: a UID stands there twice.
/// - `OutOfMemory`: there is no memory for it.
pub fn read_saved(alloc: Global, text: &[u8]) -> Result<Vec<Kept>, ReadError>
    ensures ok { IfOk result (λ list. saved_in text.now ≡ Ok list.items) }
    ensures utf8 { OnOk result (IsUtf8 text.now) }
    ensures refused { IfErr result (λ e. e ≢ OutOfMemory → IsUtf8 text.now → saved_in text.now ≡ Err e) }
{
    let mut scratch = Scratch::new(alloc);
    match Value::from_slice(alloc, text, &mut scratch) {
        Ok(value) => survey_in(alloc, &value),
        Err(Error::OutOfMemory) => Err(ReadError::OutOfMemory),
        Err(_) => Err(ReadError::NotJson),
    }
}

/// The survey of a document.
#[tactic(auto, unfolding(crate::specs::Reading::survey_in))]
fn survey_in(alloc: Global, value: &Value<'_>) -> Result<Vec<Kept>, ReadError>
    ensures ok { IfOk result (λ list. survey_in (value_view value.now) ≡ Ok list.items) }
    ensures refused { IfErr result (λ e. e ≢ OutOfMemory → survey_in (value_view value.now) ≡ Err e) }
{
    if !has_format(value) {
        return Err(ReadError::OtherFormat);
    }
    let Some(Value::Array(items)) = value.get("fixtures") else {
        return Err(ReadError::NoFixtures);
    };
    let list = list_in(alloc, items.as_slice())?;
    are_once(list.as_slice())?;
    Ok(list)
}

/// Whether the format is the one that is known.
#[tactic(auto, unfolding(crate::specs::Reading::has_format))]
fn has_format(value: &Value<'_>) -> bool
    ensures { result ≡ has_format (value_view value.now) }
{
    match value.get("format") {
        Some(format) => json_word(format) == Some(1),
        None => false,
    }
}

/// The fixtures, one behind the other.
fn list_in(alloc: Global, items: &[Value<'_>]) -> Result<Vec<Kept>, ReadError>
    ensures ok { IfOk result (λ list. list_in 1 (items_view items.now) ≡ Ok list.items) }
    ensures refused { IfErr result (λ e. e ≢ OutOfMemory → list_in 1 (items_view items.now) ≡ Err e) }
{
    let mut list = Vec::new(alloc);
    let mut rest = items;
    while let [item, more @ ..] = rest {
        let kept = fixture_by(alloc, list.len() + 1, item)?;
        list.push(kept)?;
        rest = more;
    }
    Ok(list)
}

/// Refuses a UID that stands twice.
fn are_once(list: &[Kept]) -> Result<(), ReadError>
    ensures { result ≡ are_once list.now }
{
    let mut rest = list;
    while let [first, more @ ..] = rest {
        if fixture_of(first.uid, more).is_some() {
            return Err(ReadError::Twice(first.uid));
        }
        rest = more;
    }
    Ok(())
}
