//! From data to the words by which a SET sets them.

ghost use Rattle.std.specs.Prelude.{◌≡◌, ◌∷◌, ◌++◌, [], IfOk, OnOk, decimal, drop, map, take};
ghost use Rattle.std.specs.Fmt.{signed_decimal};
ghost use Rattle.std.specs.Option.{option_map};
ghost use Rattle.rdm_frame.specs.Digits.{digits};
ghost use Rattle.rdm_words.specs.FieldFacts.{number_in};
ghost use Rattle.rdm_entry.specs.Plain.{signed_in, text_word, word_of, words_of, says};
ghost use Rattle.rdm_entry.specs.Slots.{most_of};
ghost use Rattle.rdm_entry.specs.Words.{said};

use crate::Field;
use crate::word::{is_quoted, said};
use itoa::Buffer;
use rdm_frame::digits::put_digits;
use std::alloc::{AllocError, Global};

/// The words by which a SET of these fields would set parameter data, one for each field, or `None` if no words do: `data_in` reads the
/// data back from them. A number is in decimal digits, whether it has a name or not, and a text as it is.
#[tactic(auto, using(crate::proofs::WordsBack::next))]
pub fn words_of(
    alloc: Global,
    fields: &[Field],
    body: &[u8],
) -> Result<Option<Vec<Vec<u8>>>, AllocError>
    ensures { IfOk result (λ words. option_map (λ list. map (λ word. word.items) list.items) words ≡ words_of fields.now body.now) }
{
    let mut words = Vec::new(alloc);
    let (mut rest, mut left) = (fields, body);
    while let Some((field, more)) = rest.split_first() {
        let (own, others) = parted(*field, left);
        if !put_word(alloc, *field, own, &mut words)? {
            return Ok(None);
        }
        rest = more;
        left = others;
    }
    if left.is_empty() {
        Ok(Some(words))
    } else {
        Ok(None)
    }
}

/// Puts the word for the slots of a field at the end of a list, and says whether it says them.
fn put_word(
    alloc: Global,
    field: Field,
    slots: &[u8],
    words: &mut Vec<Vec<u8>>,
) -> Result<bool, AllocError>
    ensures said { IfOk result (λ is-said. is-said ≡ says (said field (word_of field slots.now)) slots.now) }
    ensures words { OnOk result (map (λ word. word.items) words.new.items ≡ map (λ word. word.items) words.old.items ++ (word_of field slots.now ∷ [])) }
{
    let word = word_of(alloc, field, slots)?;
    let is_said = says(field, word.as_slice(), slots);
    words.push(word)?;
    Ok(is_said)
}

/// As many slots as a field may have, and those behind them.
fn parted(field: Field, slots: &[u8]) -> (&[u8], &[u8])
    ensures own { result.0.now ≡ take (most_of field) slots.now }
    ensures others { result.1.now ≡ drop (most_of field) slots.now }
{
    let most = most_of(field);
    if slots.len() <= most {
        (slots, &[])
    } else {
        slots.split_at(most)
    }
}

/// How many slots a field has at most.
fn most_of(field: Field) -> usize
    ensures { result ≡ most_of field }
{
    match field {
        Field::Number(width) | Field::Named(width, _) | Field::Signed(width) => width.slots(),
        Field::Identifier | Field::Pin | Field::Language => 2,
        Field::Text(most) => usize::from(most),
    }
}

/// Whether a word says exactly these slots.
fn says(field: Field, word: &[u8], slots: &[u8]) -> bool
    ensures { result ≡ says (said field word.now) slots.now }
{
    match said(field, word) {
        Ok(load) => load.as_slice() == slots,
        Err(_) => false,
    }
}

/// The word for the slots of a field.
#[tactic(auto, unfolding(crate::specs::Plain::word_of))]
fn word_of(alloc: Global, field: Field, slots: &[u8]) -> Result<Vec<u8>, AllocError>
    ensures { IfOk result (λ word. word.items ≡ word_of field slots.now) }
{
    match field {
        Field::Number(_) | Field::Named(..) | Field::Pin => decimal_of(alloc, number_in(slots)),
        Field::Signed(_) => signed_of(alloc, signed_in(slots)),
        Field::Identifier => digits_of(alloc, slots),
        Field::Text(_) => text_of(alloc, slots),
        Field::Language => Vec::from_slice(alloc, slots),
    }
}

/// A number in decimal digits.
fn decimal_of(alloc: Global, number: u32) -> Result<Vec<u8>, AllocError>
    ensures { IfOk result (λ word. word.items ≡ decimal number) }
{
    Vec::from_slice(alloc, Buffer::new().format(number).as_bytes())
}

/// A number in decimal digits, with its sign.
fn signed_of(alloc: Global, number: i32) -> Result<Vec<u8>, AllocError>
    ensures { IfOk result (λ word. word.items ≡ signed_decimal number) }
{
    Vec::from_slice(alloc, Buffer::new().format(number).as_bytes())
}

/// Bytes in hexadecimal digits.
fn digits_of(alloc: Global, bytes: &[u8]) -> Result<Vec<u8>, AllocError>
    ensures { IfOk result (λ word. word.items ≡ digits bytes.now) }
{
    let mut word = Vec::new(alloc);
    put_digits(&mut word, bytes)?;
    Ok(word)
}

/// A text as it is, with quotes around one that has some at both ends.
fn text_of(alloc: Global, text: &[u8]) -> Result<Vec<u8>, AllocError>
    ensures { IfOk result (λ word. word.items ≡ text_word text.now) }
{
    let mut word = Vec::new(alloc);
    if is_quoted(text) {
        word.push(b'"')?;
        word.extend_from_slice(text)?;
        word.push(b'"')?;
    } else {
        word.extend_from_slice(text)?;
    }
    Ok(word)
}

/// The number that one, two or four slots are.
fn number_in(slots: &[u8]) -> u32
    ensures { result ≡ number_in slots.now }
{
    match slots {
        [byte] => u32::from(*byte),
        [high, low] => u32::from(u16::from_be_bytes([*high, *low])),
        [first, second, third, fourth] => { u32::from_be_bytes([*first, *second, *third, *fourth]) }
        _ => 0,
    }
}

/// The number in two's complement that one, two or four slots are.
fn signed_in(slots: &[u8]) -> i32
    ensures { result ≡ signed_in slots.now }
{
    match slots {
        [byte] => i32::from(byte.cast_signed()),
        [high, low] => i32::from(u16::from_be_bytes([*high, *low]).cast_signed()),
        [first, second, third, fourth] => {
            u32::from_be_bytes([*first, *second, *third, *fourth]).cast_signed()
        }
        _ => 0,
    }
}
