//! What is read back of the words of a document.

ghost use Rattle.std.specs.Prelude.{◌≡◌, ◌≤◌, ◌∷◌, ◌^◌, IfOk, length};
ghost use Rattle.std.specs.Int.{w16, w32};
ghost use Rattle.json.specs.Value.{value_view};
ghost use Rattle.rdm_survey.specs.Shown.{code_of, unshown};
ghost use Rattle.rdm_compare.specs.Texts.{id_in, json_id, json_number, json_text, text_in, whole_number};

use json::Value;
use rdm_frame::Text;
use rdm_frame::digits::{bytes_in, long_in, word_in};
use rdm_survey::put_shown;
use std::alloc::{AllocError, Global};

/// The text that a string is written of, or `None` if it's none.
pub(crate) fn json_text(alloc: Global, value: &Value<'_>) -> Result<Option<Text>, AllocError>
    ensures { IfOk result (λ text. text ≡ json_text (value_view value.now)) }
{
    match value.as_str() {
        Some(word) => text_in(alloc, word.as_bytes()),
        None => Ok(None),
    }
}

/// The text that a word is written of.
#[tactic(auto, unfolding(crate::specs::Texts::text_in))]
fn text_in(alloc: Global, word: &[u8]) -> Result<Option<Text>, AllocError>
    ensures { IfOk result (λ text. text ≡ text_in word.now) }
{
    let text = unshown(alloc, word)?;
    let mut again = Vec::new(alloc);
    put_shown(&mut again, text.as_slice())?;
    if again.as_slice() == word {
        Ok(Text::from_slice(text.as_slice()))
    } else {
        Ok(None)
    }
}

/// What a word is written of, if it is written of anything.
fn unshown(alloc: Global, word: &[u8]) -> Result<Vec<u8>, AllocError>
    ensures { IfOk result (λ text. text.items ≡ unshown word.now) }
{
    let mut text = Vec::new(alloc);
    let mut rest = word;
    while let [first, more @ ..] = rest {
        let (byte, behind) = unshown_byte(*first, more);
        text.push(byte)?;
        rest = behind;
    }
    Ok(text)
}

/// The first byte of what a word is written of, and what stands behind it.
#[tactic(auto, using(crate::proofs::ReadBack::as_it_is))]
fn unshown_byte(first: u8, more: &[u8]) -> (u8, &[u8])
    ensures byte { unshown (first ∷ more.now) ≡ result.0 ∷ unshown result.1.now }
    ensures shorter { length result.1.now ≤ length more.now }
{
    if first != b'\\' {
        return (first, more);
    }
    match more {
        [b'x', high, low, behind @ ..] => (code_of(*high, *low), behind),
        [other, behind @ ..] => (*other, behind),
        [] => (first, more),
    }
}

/// The byte that two digits spell, or 0 if they are no digits.
#[tactic(auto, unfolding(rdm_frame::specs::DigitReading::byte_in))]
fn code_of(high: u8, low: u8) -> u8
    ensures { result ≡ code_of high low }
{
    match bytes_in(&[high, low]) {
        Some(bytes) => match bytes.as_slice() {
            [byte, ..] => *byte,
            [] => 0,
        },
        None => 0,
    }
}

/// The ID of two slots that a string is written of.
#[tactic(auto, unfolding(crate::specs::Texts::id_in))]
pub(crate) fn json_id(value: &Value<'_>) -> Option<u16>
    ensures { result ≡ json_id w16 (value_view value.now) }
{
    let word = value.as_str()?.as_bytes();
    if word.len() < 2 || &word[..2] != b"0x".as_slice() {
        return None;
    }
    word_in(&word[2..])
}

/// The ID of four slots that a string is written of.
#[tactic(auto, unfolding(crate::specs::Texts::id_in))]
pub(crate) fn json_long_id(value: &Value<'_>) -> Option<u32>
    ensures { result ≡ json_id w32 (value_view value.now) }
{
    let word = value.as_str()?.as_bytes();
    if word.len() < 2 || &word[..2] != b"0x".as_slice() {
        return None;
    }
    long_in(&word[2..])
}

/// The number that a value is, if it has no point and no exponent.
fn whole_number(value: &Value<'_>) -> Option<u64>
    ensures { result ≡ whole_number (value_view value.now) }
{
    value.as_u64()
}

/// The number of one slot that a value is.
pub(crate) fn json_byte(value: &Value<'_>) -> Option<u8>
    ensures { result ≡ json_number 256 (value_view value.now) }
{
    u8::try_from(whole_number(value)?).ok()
}

/// The number of two slots that a value is.
pub(crate) fn json_word(value: &Value<'_>) -> Option<u16>
    ensures { result ≡ json_number 65536 (value_view value.now) }
{
    u16::try_from(whole_number(value)?).ok()
}

/// The number of four slots that a value is.
pub(crate) fn json_long(value: &Value<'_>) -> Option<u32>
    ensures { result ≡ json_number (2 ^ 32) (value_view value.now) }
{
    u32::try_from(whole_number(value)?).ok()
}
