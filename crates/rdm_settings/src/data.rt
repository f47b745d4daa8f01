//! The data of a command, out of words.

ghost use Rattle.std.specs.Prelude.{◌≡◌, map};
ghost use Rattle.std.specs.Option.{option_map};
ghost use Rattle.rdm_settings.specs.Data.{data_of, digits_in, digits_of};

use rdm_entry::{EntryError, Field, data_in};
use rdm_frame::Load;
use rdm_frame::digits::bytes_in;
use rdm_frame::standard::MOST_DATA;

/// How many digits a word has at most: two for each byte that a frame can carry.
const MOST_DIGITS: usize = 2 * MOST_DATA;

/// Why words aren't data.
#[derive(Clone, Copy, Debug, PartialEq, Eq)]
pub enum Unsaid {
    /// A word says nothing for its field.
    Field(EntryError),
    /// The word with this index isn't hexadecimal digits, two for each byte, or it is one too many.
    Digits(usize),
    /// The digits are more than the 231 bytes that a frame can carry (E1.20 section 6.2.10).
    TooLong,
    /// A word isn't text in UTF-8.
    NoText,
}

/// The data that words say: for these fields one word each, or, where nobody knows the fields, in hexadecimal digits.
#[tactic(auto, unfolding(crate::specs::Data::data_of))]
pub fn data_of(fields: Option<&[Field]>, words: &[&str]) -> Result<Load, Unsaid>
    ensures { result ≡ data_of (option_map (λ list. list.now) fields.entry) (map (λ word. word.now) words.now) }
{
    match fields {
        Some(fields) => match data_in(fields, words) {
            Ok(load) => Ok(load),
            Err(error) => Err(Unsaid::Field(error)),
        },
        None => digits_of(words),
    }
}

/// The data that a word says in hexadecimal digits, two for each byte, or none without a word.
pub fn digits_of(words: &[&str]) -> Result<Load, Unsaid>
    ensures { result ≡ digits_of (map (λ word. word.now) words.now) }
{
    match words {
        [] => Ok(Load::new()),
        [word] => digits_in(word.as_bytes()),
        [_, _, ..] => Err(Unsaid::Digits(1)),
    }
}

/// The bytes that a word of hexadecimal digits says.
fn digits_in(word: &[u8]) -> Result<Load, Unsaid>
    ensures { result ≡ digits_in word.now }
{
    if word.len() > MOST_DIGITS {
        return Err(Unsaid::TooLong);
    }
    match bytes_in(word) {
        Some(load) => Ok(load),
        None => Err(Unsaid::Digits(0)),
    }
}
