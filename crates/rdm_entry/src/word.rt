//! What a word says for a field.

ghost use Rattle.std.specs.Prelude.{◌≡◌};
ghost use Rattle.std.specs.Char.{is_ascii_alphabetic};
ghost use Rattle.std.specs.List.{list_all};
ghost use Rattle.rdm_frame.specs.Digits.{within};
ghost use Rattle.rdm_entry.specs.Words.{ranged, sound, is_called, number_named, decimal_said, ranged_or, number_said, identifier_said, pin_said, is_quoted, text_in, text_said, language_said, said};

use crate::Field;
use crate::error::Wrong;
use crate::numeral::{has_mark, is_unclear, numeral_in};
use crate::signed::signed_said;
use rdm_device::Width;
use rdm_frame::Load;
use rdm_frame::digits::word_in;
use rdm_standard_names::Table;

/// The slots that a word says for a field, or why it says none.
#[tactic(auto, unfolding(crate::specs::Words::said))]
pub(crate) fn said(field: Field, word: &[u8]) -> Result<Load, Wrong>
    ensures { result ≡ said field word.now }
{
    match field {
        Field::Number(width) => number_said(width, None, word),
        Field::Named(width, names) => number_said(width, number_named(names, word), word),
        Field::Signed(width) => signed_said(width, word),
        Field::Identifier => identifier_said(word),
        Field::Pin => pin_said(word),
        Field::Text(most) => text_said(most, text_in(word)),
        Field::Language => language_said(word),
    }
}

/// A number: decimal digits, hexadecimal ones behind `0x`, or the number of which the word is the name, if it is one.
fn number_said(width: Width, named: Option<u64>, word: &[u8]) -> Result<Load, Wrong>
    ensures { result ≡ number_said width named word.now }
{
    match numeral_in(10, word) {
        Some(number) if is_unclear(number, word) => Err(Wrong::Unclear),
        Some(number) => ranged(width, number),
        None if has_mark(word) => ranged_or(width, numeral_in(16, &word[2..])),
        None => ranged_or(width, named),
    }
}

/// The slots of a number, if there is one.
pub(crate) fn ranged_or(width: Width, number: Option<u64>) -> Result<Load, Wrong>
    ensures { result ≡ ranged_or width number }
{
    match number {
        Some(number) => ranged(width, number),
        None => Err(Wrong::Number),
    }
}

/// The slots of a number, if they can say it.
#[tactic(auto, unfolding(crate::specs::Words::ranged))]
pub(crate) fn ranged(width: Width, number: u64) -> Result<Load, Wrong>
    ensures { result ≡ ranged width number }
{
    match width {
        Width::One => match u8::try_from(number) {
            Ok(byte) => Ok(Load::of(&[byte])),
            Err(_) => Err(Wrong::Range),
        },
        Width::Two => match u16::try_from(number) {
            Ok(word) => Ok(Load::of(&word.to_be_bytes())),
            Err(_) => Err(Wrong::Range),
        },
        Width::Four => match u32::try_from(number) {
            Ok(long) => Ok(Load::of(&long.to_be_bytes())),
            Err(_) => Err(Wrong::Range),
        },
    }
}

/// The first number of a table that has this name.
#[tactic(auto, unfolding(crate::specs::Words::number_named))]
fn number_named(names: Table, word: &[u8]) -> Option<u64>
    ensures { result ≡ number_named names word.now }
{
    let row = names
        .0
        .iter()
        .find(|row| is_called(row.1.as_bytes(), word))?;
    Some(u64::from(row.0))
}

/// Whether a word is this name, in upper or lower case, with blanks, hyphens or underlines between its parts.
fn is_called(name: &[u8], word: &[u8]) -> bool
    ensures { result ≡ is_called name.now word.now }
{
    let (mut rest, mut left) = (name, word);
    while let [a, more @ ..] = rest {
        let [b, others @ ..] = left else {
            return false;
        };
        if sound(*a) != sound(*b) {
            return false;
        }
        rest = more;
        left = others;
    }
    left.is_empty()
}

/// A letter in lower case, and a blank for what stands in place of one.
fn sound(byte: u8) -> u8
    ensures { result ≡ sound byte }
{
    match byte {
        b'_' | b'-' => b' ',
        _ => byte.to_ascii_lowercase(),
    }
}

/// Four hexadecimal digits, with `0x` in front or without.
fn identifier_said(word: &[u8]) -> Result<Load, Wrong>
    ensures { result ≡ identifier_said word.now }
{
    let digits = if has_mark(word) { &word[2..] } else { word };
    match word_in(digits) {
        Some(number) => Ok(Load::of(&number.to_be_bytes())),
        None => Err(Wrong::Identifier),
    }
}

/// One to four decimal digits.
fn pin_said(word: &[u8]) -> Result<Load, Wrong>
    ensures { result ≡ pin_said word.now }
{
    if word.len() > 4 {
        return Err(Wrong::Pin);
    }
    match numeral_in(10, word) {
        Some(number) => ranged(Width::Two, number),
        None => Err(Wrong::Pin),
    }
}

/// Whether double quotes stand at both ends of a word.
pub(crate) fn is_quoted(word: &[u8]) -> bool
    ensures { result ≡ is_quoted word.now }
{
    word.len() >= 2 && word[0] == b'"' && word[word.len() - 1] == b'"'
}

/// The text of a word: what stands in double quotes, or all of it.
fn text_in(word: &[u8]) -> &[u8]
    ensures { result.now ≡ text_in word.now }
{
    if is_quoted(word) {
        &word[1..word.len() - 1]
    } else {
        word
    }
}

/// Printable ASCII characters, and no more than may be.
fn text_said(most: u8, text: &[u8]) -> Result<Load, Wrong>
    ensures { result ≡ text_said most text.now }
{
    if !are_printable(text) {
        return Err(Wrong::Unprintable);
    }
    if text.len() > usize::from(most) {
        return Err(Wrong::Long);
    }
    Ok(Load::of(text))
}

/// Two letters.
fn language_said(word: &[u8]) -> Result<Load, Wrong>
    ensures { result ≡ language_said word.now }
{
    if word.len() == 2 && are_letters(word) {
        Ok(Load::of(word))
    } else {
        Err(Wrong::Language)
    }
}

/// Whether every character is a printable one of ASCII.
fn are_printable(text: &[u8]) -> bool
    ensures { result ≡ list_all (λ b. within 0x20 b 0x7E) text.now }
{
    text.iter().all(|b| (0x20..=0x7E).contains(b))
}

/// Whether every character is a letter of ASCII.
fn are_letters(word: &[u8]) -> bool
    ensures { result ≡ list_all (λ b. is_ascii_alphabetic b) word.now }
{
    word.iter().all(|b| b.is_ascii_alphabetic())
}
