//! The data that a cell says.

ghost use Rattle.std.specs.Prelude.{◌≡◌, ◌<◌, ◌++◌, ◌∷◌, [], IfOk, IfSome, OnOk, filter, length, map, position};
ghost use Rattle.std.specs.Option.{option_map};
ghost use Rattle.std.specs.List.{list_all};
ghost use Rattle.rdm_frame.specs.Digits.{within};
ghost use Rattle.rdm_settings.specs.declared.data.Unsaid.TheVariants as unsaid;
ghost use Rattle.rdm_settings.specs.Cells.{cell_data, is_blank, is_hyphen, is_marked, is_word, lone_text, most_of, split_words, text_data, text_of, texts_in, utf8_in, word_data, words_of};

use crate::data::{Unsaid, data_of};
use rdm_entry::{EntryError, Field, Wrong};
use rdm_frame::Load;
use std::alloc::{AllocError, Global};
use std::str;

/// The data that a cell says for a parameter with these fields, if they are known.
#[tactic(auto, unfolding(crate::specs::Cells::cell_data))]
pub(crate) fn cell_data(
    alloc: Global,
    fields: Option<&[Field]>,
    cell: &[u8],
) -> Result<Result<Load, Unsaid>, AllocError>
    ensures { IfOk result (λ told. told ≡ cell_data (option_map (λ list. list.now) fields.entry) cell.now) }
{
    match lone_text(fields) {
        Some(most) => Ok(text_data(most, cell)),
        None => word_data(alloc, fields, cell),
    }
}

/// How many characters the text has that is the only field.
fn lone_text(fields: Option<&[Field]>) -> Option<u8>
    ensures { result ≡ lone_text (option_map (λ list. list.now) fields.entry) }
{
    match fields? {
        [field] => most_of(*field),
        _ => None,
    }
}

/// How many characters a field has, if it is a text.
fn most_of(field: Field) -> Option<u8>
    ensures { result ≡ most_of field }
{
    match field {
        Field::Text(most) => Some(most),
        _ => None,
    }
}

/// A cell that is a text whole.
#[tactic(auto, unfolding(crate::specs::Cells::text_data))]
fn text_data(most: u8, cell: &[u8]) -> Result<Load, Unsaid>
    ensures { result ≡ text_data most cell.now }
{
    let text = text_of(cell);
    if !are_printable(text) {
        return Err(wrong_text(Wrong::Unprintable));
    }
    if text.len() > usize::from(most) {
        return Err(wrong_text(Wrong::Long));
    }
    Ok(Load::of(text))
}

fn wrong_text(wrong: Wrong) -> Unsaid
    ensures { result ≡ unsaid.Field (record { index = 0; wrong = wrong }) }
{
    Unsaid::Field(EntryError { index: 0, wrong })
}

/// Whether every character is a printable one of ASCII.
fn are_printable(text: &[u8]) -> bool
    ensures { result ≡ list_all (λ b. within 0x20 b 0x7E) text.now }
{
    text.iter().all(|b| (0x20..=0x7E).contains(b))
}

/// The text that a cell says: none if it is a hyphen, and else the cell without the apostrophe that `line list` put before what a
/// spreadsheet could take for a formula.
fn text_of(cell: &[u8]) -> &[u8]
    ensures { result.now ≡ text_of cell.now }
{
    match cell {
        [b'-'] => &[],
        [b'\'', rest @ ..] if is_marked(rest) => rest,
        _ => cell,
    }
}

/// Whether a spreadsheet could take a text for a formula, or it begins with an apostrophe.
fn is_marked(text: &[u8]) -> bool
    ensures { result ≡ is_marked text.now }
{
    match text {
        [first, ..] => {
            *first == b'=' || *first == b'+' || *first == b'-' || *first == b'@' || *first == b'\''
        }
        [] => false,
    }
}

/// A cell whose words are the data.
#[tactic(auto, unfolding(crate::specs::Cells::word_data))]
fn word_data(
    alloc: Global,
    fields: Option<&[Field]>,
    cell: &[u8],
) -> Result<Result<Load, Unsaid>, AllocError>
    ensures { IfOk result (λ told. told ≡ word_data (option_map (λ list. list.now) fields.entry) cell.now) }
{
    let words = words_of(alloc, cell)?;
    match texts_in(alloc, words.as_slice())? {
        Some(texts) => Ok(data_of(fields, texts.as_slice())),
        None => Ok(Err(Unsaid::NoText)),
    }
}

/// The words as text, if all of them are text.
fn texts_in<'a>(alloc: Global, words: &[&'a [u8]]) -> Result<Option<Vec<&'a str>>, AllocError>
    ensures { IfOk result (λ texts. option_map (λ list. map (λ text. text.now) list.items) texts
        ≡ texts_in (map (λ word. word.now) words.now)) }
{
    let mut texts = Vec::new(alloc);
    let mut rest = words;
    while let [word, more @ ..] = rest {
        let Some(text) = utf8_in(word) else {
            return Ok(None);
        };
        texts.push(text)?;
        rest = more;
    }
    Ok(Some(texts))
}

/// The text that bytes are in UTF-8, if they are one.
pub(crate) fn utf8_in(bytes: &[u8]) -> Option<&str>
    ensures { option_map (λ text. text.now) result ≡ utf8_in bytes.now }
{
    match str::from_utf8(bytes) {
        Ok(text) => Some(text),
        Err(_) => None,
    }
}

/// The words of a cell, with blanks between them; none if it is a hyphen.
pub(crate) fn words_of<'a>(alloc: Global, cell: &'a [u8]) -> Result<Vec<&'a [u8]>, AllocError>
    ensures { IfOk result (λ words. map (λ word. word.now) words.items ≡ words_of cell.now) }
{
    let mut words = Vec::new(alloc);
    if !is_hyphen(cell) {
        put_words(&mut words, cell)?;
    }
    Ok(words)
}

/// Whether a cell says that there are no data.
fn is_hyphen(cell: &[u8]) -> bool
    ensures { result ≡ is_hyphen cell.now }
{
    match cell {
        [b'-'] => true,
        _ => false,
    }
}

/// Puts the words of a cell at the end of a list.
fn put_words<'a>(words: &mut Vec<&'a [u8]>, cell: &'a [u8]) -> Result<(), AllocError>
    ensures { OnOk result (map (λ word. word.now) words.new.items ≡ map (λ word. word.now) words.old.items ++ split_words cell.now) }
{
    let mut rest = cell;
    while let Some(end) = blank_in(rest) {
        put_word(words, &rest[..end])?;
        rest = &rest[end + 1..];
    }
    put_word(words, rest)?;
    Ok(())
}

/// Puts what stands between two blanks, if it is a word.
fn put_word<'a>(words: &mut Vec<&'a [u8]>, piece: &'a [u8]) -> Result<(), AllocError>
    ensures { OnOk result (map (λ word. word.now) words.new.items
        ≡ map (λ word. word.now) words.old.items ++ filter is_word (piece.now ∷ [])) }
{
    if piece.is_empty() {
        return Ok(());
    }
    words.push(piece)?;
    Ok(())
}

/// Where the first blank of a cell is.
fn blank_in(cell: &[u8]) -> Option<usize>
    ensures end { result ≡ position is_blank cell.now }
    ensures within { IfSome result (λ end. end < length cell.now) }
{
    cell.iter().position(|b| *b == b' ' || *b == b'\t')
}
