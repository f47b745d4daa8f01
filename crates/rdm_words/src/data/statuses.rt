//! The words of status messages (E1.20 section 10.3 and table B-2).

ghost use Rattle.std.specs.Prelude.{[], ◌∷◌, OnOk, string_bytes};
ghost use Rattle.std.specs.Fmt.{signed_decimal};
ghost use Rattle.std.specs.Int.{w16, cast_signed, to_be_bytes};
ghost use Rattle.rdm_frame.specs.Digits.{digits};
ghost use Rattle.rdm_words.specs.FieldFacts.{as_digits, as_failure, failure_facts};
ghost use Rattle.rdm_words.specs.Naming.{AddsNames, PutsFacts};

use crate::data::known::Facts;
use crate::data::sensors::put_signed_word;
use crate::data::values::{put_behind, put_coded, put_data, put_named};
use crate::tables::statuses::{STATUS_IDS, status_type};
use crate::text::{put_foreign, put_hex, put_word};
use rdm_standard_names::slots::SLOT_LABELS;
use std::alloc::AllocError;
use std::fmt::Write;

/// Slots that are a status ID, and what it means, if that is known.
#[tactic(auto, using(crate::proofs::Reports::digits_put))]
pub(crate) fn put_status_id(
    text: &mut String,
    slots: &[u8],
    known: &Facts<'_>,
) -> Result<(), AllocError>
    ensures { OnOk result (PutsFacts (as_digits slots.now) (string_bytes text.old) (string_bytes text.new)) }
{
    put_hex(text, slots)?;
    put_status_text(text, slots, known)
}

/// What the slots of a status ID mean, if that is known.
#[tactic(auto, using(crate::proofs::Naming::adds_nothing, crate::proofs::Reports::meaning_put))]
fn put_status_text(text: &mut String, slots: &[u8], known: &Facts<'_>) -> Result<(), AllocError>
    ensures { OnOk result (AddsNames [] (string_bytes text.old) (string_bytes text.new)) }
{
    let Some(words) = text_of(slots, known) else {
        return Ok(());
    };
    text.push_str(", ")?;
    put_foreign(text, words)
}

/// The text of two slots that are a status ID.
fn text_of<'a>(slots: &[u8], known: &Facts<'a>) -> Option<&'a [u8]> {
    match slots {
        [a, b] => template(u16::from_be_bytes([*a, *b]), known),
        _ => None,
    }
}

/// What a status message tells, but for its sub-device.
#[derive(Clone, Copy)]
pub(crate) struct Status {
    pub(crate) severity: u8,
    pub(crate) id: u16,
    pub(crate) first: u16,
    pub(crate) second: u16,
}

/// The words of a status message: how bad it is, and what it is.
pub(crate) fn put_failure(
    text: &mut String,
    status: &Status,
    known: &Facts<'_>,
) -> Result<(), AllocError>
    ensures { OnOk result (PutsFacts (failure_facts status.now.severity status.now.id status.now.first status.now.second)
        (string_bytes text.old) (string_bytes text.new)) }
{
    put_named(text, status_type(status.severity), &[status.severity])?;
    text.push_str(", ")?;
    put_meaning(text, status, known)?;
    put_values(text, status.first, status.second)
}

/// The same of seven slots: the status type, the status ID, and two values.
#[tactic(auto, using(crate::proofs::Reports::other_failure, crate::proofs::Reports::failure_in_put))]
pub(crate) fn put_failure_in(
    text: &mut String,
    slots: &[u8],
    known: &Facts<'_>,
) -> Result<(), AllocError>
    ensures { OnOk result (PutsFacts (as_failure slots.now) (string_bytes text.old) (string_bytes text.new)) }
{
    if slots.len() != 7 {
        return put_data(text, slots);
    }
    let status = Status {
        severity: slots[0],
        id: u16::from_be_bytes([slots[1], slots[2]]),
        first: u16::from_be_bytes([slots[3], slots[4]]),
        second: u16::from_be_bytes([slots[5], slots[6]]),
    };
    put_failure(text, &status, known)
}

/// The two values of a status message. Its text may name them, too.
fn put_values(text: &mut String, first: u16, second: u16) -> Result<(), AllocError>
    ensures { OnOk result (AddsNames (signed_decimal (cast_signed w16 first) ∷ signed_decimal (cast_signed w16 second) ∷ [])
        (string_bytes text.old) (string_bytes text.new)) }
{
    text.push_str(", values ")?;
    put_signed_word(text, first)?;
    text.push_str(" and ")?;
    put_signed_word(text, second)
}

/// The words of a status message without how bad it is: what it is, with the values that its text names.
pub(crate) fn put_meaning(
    text: &mut String,
    status: &Status,
    known: &Facts<'_>,
) -> Result<(), AllocError>
    ensures { OnOk result (PutsFacts (digits (to_be_bytes w16 status.now.id) ∷ []) (string_bytes text.old) (string_bytes text.new)) }
{
    match template(status.id, known) {
        Some(words) => put_described(text, words, status),
        None => {
            text.push_str("status ID ")?;
            put_word(text, status.id)
        }
    }
}

/// The text with the values in it, and the status ID.
fn put_described(text: &mut String, words: &[u8], status: &Status) -> Result<(), AllocError>
    ensures { OnOk result (PutsFacts (digits (to_be_bytes w16 status.now.id) ∷ []) (string_bytes text.old) (string_bytes text.new)) }
{
    let mut filled = String::new(*text.allocator());
    put_filled(&mut filled, words, status)?;
    text.push_str(filled.as_str())?;
    put_behind(text, &status.id.to_be_bytes())
}

/// The text of a status ID: that of the standard, or of the fixture if it is known.
fn template<'a>(id: u16, known: &Facts<'a>) -> Option<&'a [u8]> {
    match STATUS_IDS.name(u32::from(id)) {
        Some(words) => Some(words.as_bytes()),
        None => known.status_text(id),
    }
}

/// The text with the values in it: the first one in place of the first sign, the second one of each further sign.
fn put_filled(text: &mut String, words: &[u8], status: &Status) -> Result<(), AllocError> {
    let mut rest = words;
    let mut value = status.first;
    while let [byte, more @ ..] = rest {
        rest = match (*byte, more) {
            (b'%', [sign, after @ ..]) if matches!(*sign, b'd' | b'x' | b'L') => {
                put_filling(text, *sign, value)?;
                value = status.second;
                after
            }
            _ => {
                put_foreign(text, &[*byte])?;
                more
            }
        };
    }
    Ok(())
}

/// A value, as a number or as the name of a slot.
fn put_filling(text: &mut String, sign: u8, value: u16) -> Result<(), AllocError> {
    let number = value.cast_signed();
    match sign {
        b'd' => write!(text, "{number}"),
        b'x' => write!(text, "{value:04X}"),
        _ => put_coded(text, SLOT_LABELS, &value.to_be_bytes()),
    }
}
