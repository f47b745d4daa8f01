//! The words of a line.

ghost use Rattle.std.specs.Prelude.{◌≡◌, ◌≤◌, ◌++◌, ℕ, List, map, flat_map, IfOk, OnOk};
ghost use Rattle.std.specs.List.{slice_split};
ghost use Rattle.rdm_expect.specs.Lines.{capitals, is_blank, kept_word, words_of, begins, sent_by};

use rdm_streams::without_return;
use std::alloc::{AllocError, Global};

/// A line in upper case, without the CR at its end.
pub(crate) fn capitals(alloc: Global, line: &[u8]) -> Result<Vec<u8>, AllocError>
    ensures { IfOk result (λ text. text.items ≡ capitals line.now) }
{
    without_return(line).to_ascii_uppercase(alloc)
}

/// The words of a line that is in upper case.
pub(crate) fn words_in(alloc: Global, text: &[u8]) -> Result<Vec<&[u8]>, AllocError>
    ensures { (line : List ℕ) → text.now ≡ capitals line → IfOk result (λ words. map (λ word. word.now) words.items ≡ words_of line) }
{
    let pieces = between_blanks(alloc, text)?;
    let mut words = Vec::new(alloc);
    put_words(&mut words, &pieces)?;
    Ok(words)
}

/// What stands before, between and behind the spaces and tabs of a text.
fn between_blanks(alloc: Global, text: &[u8]) -> Result<Vec<&[u8]>, AllocError>
    ensures { IfOk result (λ pieces. map (λ piece. piece.now) pieces.items ≡ slice_split is_blank text.now) }
{
    text.split(|byte| *byte == b' ' || *byte == b'\t')
        .collect(alloc)
}

/// Puts those of these pieces that have a byte at the end of a list.
fn put_words<'t>(words: &mut Vec<&'t [u8]>, pieces: &[&'t [u8]]) -> Result<(), AllocError>
    ensures { OnOk result (words.new.items ≡ words.old.items ++ flat_map kept_word pieces.now) }
{
    for piece in pieces {
        put_word(words, piece)?;
    }
    Ok(())
}

/// Puts a piece at the end of a list, if it has a byte.
#[tactic(auto, unfolding(crate::specs::Lines::kept_word))]
fn put_word<'t>(words: &mut Vec<&'t [u8]>, piece: &'t [u8]) -> Result<(), AllocError>
    ensures { OnOk result (words.new.items ≡ words.old.items ++ kept_word piece.entry) }
{
    if !piece.is_empty() {
        words.push(piece)?;
    }
    Ok(())
}

/// Whether the first of these words is this name.
pub(crate) fn begins(words: &[&[u8]], name: &[u8]) -> bool
    ensures { result ≡ begins (map (λ word. word.now) words.now) name.now }
{
    match words {
        [word, ..] => *word == name,
        [] => name.is_empty(),
    }
}

/// How many requests a line of a script with these words sends: the steps of `find` are those of a search of a line that has one fixture
/// alone.
#[tactic(auto, unfolding(crate::specs::Lines::sent_by))]
pub(crate) fn sent_by(words: &[&[u8]]) -> usize
    ensures count { result ≡ sent_by (map (λ word. word.now) words.now) }
    ensures within { result ≤ 4 }
{
    if begins(words, b"GET")
        || begins(words, b"SET")
        || begins(words, b"DISC")
        || begins(words, b"COLLECT")
    {
        1
    } else if begins(words, b"FIND") {
        4
    } else {
        0
    }
}
