//! What a status message says.

ghost use Rattle.std.specs.Prelude.{◌≡◌, ◌≤◌, ◌++◌, IsTrue, OnOk, length};
ghost use Rattle.std.specs.Option.{option_map};
ghost use Rattle.rdm_health.specs.StatusTable.{begins_with_sign, filled, filling, is_sign, label_words, lamp_words, message_words, name_or, plain_words, severity_words, signed_word, sub_words, waiting_words, word_digits};

use crate::StatusEntry;
use crate::names::{lamp_state, slot_label, status_text};
use itoa::Buffer;
use rdm_frame::digits::put_digits;
use rdm_frame::{Severity, Text};
use rdm_survey::put_shown;
use std::alloc::AllocError;

/// What an entry says: the text of the standard or of the fixture with its values, or its numbers.
pub(crate) fn put_message(
    text: &mut Vec<u8>,
    description: &Option<Text>,
    entry: &StatusEntry,
) -> Result<(), AllocError>
    ensures { OnOk result (text.new.items ≡ text.old.items ++ message_words description.now entry.now) }
{
    match (status_text(entry.id), description) {
        (Some(words), _) => put_filled(text, words.as_bytes(), entry.first, entry.second),
        (None, Some(words)) => put_filled(text, words.as_slice(), entry.first, entry.second),
        (None, None) => put_plain(text, entry),
    }
}

/// An entry by its numbers.
fn put_plain(text: &mut Vec<u8>, entry: &StatusEntry) -> Result<(), AllocError>
    ensures { OnOk result (text.new.items ≡ text.old.items ++ plain_words entry.now) }
{
    text.extend_from_slice(b"status ")?;
    put_word(text, entry.id)?;
    text.extend_from_slice(b", values ")?;
    put_signed_word(text, entry.first)?;
    text.extend_from_slice(b" and ")?;
    put_signed_word(text, entry.second)
}

/// The four digits of a number.
#[tactic(auto, unfolding(crate::specs::StatusTable::word_digits))]
fn put_word(text: &mut Vec<u8>, word: u16) -> Result<(), AllocError>
    ensures { OnOk result (text.new.items ≡ text.old.items ++ word_digits word) }
{
    put_digits(text, &word.to_be_bytes())
}

/// The number with a sign that 16 bits are.
#[tactic(auto, unfolding(crate::specs::StatusTable::signed_word))]
fn put_signed_word(text: &mut Vec<u8>, word: u16) -> Result<(), AllocError>
    ensures { OnOk result (text.new.items ≡ text.old.items ++ signed_word word) }
{
    text.extend_from_slice(Buffer::new().format(word.cast_signed()).as_bytes())
}

/// A text with the first value in place of the first sign, and the second in place of each further one.
#[tactic(auto, using(crate::proofs::Filling::at_sign, crate::proofs::Filling::apart))]
fn put_filled(text: &mut Vec<u8>, words: &[u8], first: u16, second: u16) -> Result<(), AllocError>
    ensures { OnOk result (text.new.items ≡ text.old.items ++ filled words.now first second) }
{
    let mut rest = words;
    let mut value = first;
    while !rest.is_empty() {
        if begins_with_sign(rest) {
            put_filling(text, rest[1], value)?;
            value = second;
            rest = &rest[2..];
        } else {
            put_shown(text, &rest[..1])?;
            rest = &rest[1..];
        }
    }
    Ok(())
}

/// Whether a text begins with a percent sign in whose place a value stands.
fn begins_with_sign(text: &[u8]) -> bool
    ensures value { result ≡ begins_with_sign text.now }
    ensures long { IsTrue result → 2 ≤ length text.now }
{
    match text {
        [byte, sign, ..] => *byte == b'%' && is_sign(*sign),
        _ => false,
    }
}

/// Whether a value stands in place of this behind a percent sign.
fn is_sign(byte: u8) -> bool
    ensures { result ≡ is_sign byte }
{
    byte == b'd' || byte == b'x' || byte == b'L'
}

/// A value: a number with a sign, its digits, or what a slot controls.
fn put_filling(text: &mut Vec<u8>, sign: u8, value: u16) -> Result<(), AllocError>
    ensures { OnOk result (text.new.items ≡ text.old.items ++ filling sign value) }
{
    match sign {
        b'd' => put_signed_word(text, value),
        b'x' => put_word(text, value),
        _ => put_label(text, value),
    }
}

/// What a slot controls, or its number.
fn put_label(text: &mut Vec<u8>, value: u16) -> Result<(), AllocError>
    ensures { OnOk result (text.new.items ≡ text.old.items ++ label_words value) }
{
    put_name_or(text, b"slot ", slot_label(value), &value.to_be_bytes())
}

/// A name, or the digits of what has none, behind these words.
fn put_name_or(
    text: &mut Vec<u8>,
    noun: &[u8],
    name: Option<&'static str>,
    slots: &[u8],
) -> Result<(), AllocError>
    ensures { OnOk result (text.new.items ≡ text.old.items ++ name_or noun.now (option_map (λ name. name.now) name.entry) slots.now) }
{
    match name {
        Some(name) => text.extend_from_slice(name.as_bytes()),
        None => {
            text.extend_from_slice(noun)?;
            put_digits(text, slots)
        }
    }
}

/// How bad it is.
pub(crate) fn put_severity(text: &mut Vec<u8>, status_type: u8) -> Result<(), AllocError>
    ensures { OnOk result (text.new.items ≡ text.old.items ++ severity_words status_type) }
{
    match Severity::of(status_type) {
        Some(severity) => text.extend_from_slice(severity.name().as_bytes()),
        None => put_name_or(text, b"type ", None, &[status_type]),
    }
}

/// `root`, or the number of a sub-device.
pub(crate) fn put_sub(text: &mut Vec<u8>, sub: u16) -> Result<(), AllocError>
    ensures { OnOk result (text.new.items ≡ text.old.items ++ sub_words sub) }
{
    if sub == 0 {
        return text.extend_from_slice(b"root");
    }
    text.extend_from_slice(Buffer::new().format(sub).as_bytes())
}

/// How many messages wait.
pub(crate) fn put_waiting(text: &mut Vec<u8>, count: u8) -> Result<(), AllocError>
    ensures { OnOk result (text.new.items ≡ text.old.items ++ waiting_words count) }
{
    match count {
        1 => text.extend_from_slice(b"1 message waits"),
        255 => text.extend_from_slice(b"255 messages or more wait"),
        _ => {
            text.extend_from_slice(Buffer::new().format(count).as_bytes())?;
            text.extend_from_slice(b" messages wait")
        }
    }
}

/// The state of a lamp.
pub(crate) fn put_lamp(text: &mut Vec<u8>, state: u8) -> Result<(), AllocError>
    ensures { OnOk result (text.new.items ≡ text.old.items ++ lamp_words state) }
{
    text.extend_from_slice(b"lamp ")?;
    put_name_or(text, b"state ", lamp_state(state), &[state])
}
