//! What a person is told of a faulty line of a script.

ghost use Rattle.std.specs.Prelude.{◌≡◌, ◌≤◌, ◌||◌, length, not, MatchOption};
ghost use Rattle.rdm_script.specs.declared.grammar.line.Line.TheVariants.{Faulty};
ghost use Rattle.rdm_script.specs.Grammar.{is_skipped, line_at, lines_of, said_by, words_of, IsFirstFaulty};
ghost use Rattle.rdm_script.specs.WrongWords.{BeginsAt, IsRefused, IsRefusedAt};

use super::line::is_skipped;
use super::words::{piece_end, words_of};
use super::wrong::wrong_word;
use crate::dialect::{Dialect, Spelling};
use crate::refusal::Refusal;
use rdm_streams::{line_end, without_return};

/// What is told of a faulty line of a script, counted from 1: its first word that isn't what it has to be. `parse_as` says
/// which line is the first faulty one.
pub fn refusal_at(dialect: &Dialect<'_>, text: &[u8], number: usize) -> Refusal
    ensures line { result.line ≡ number }
    // The first faulty line is refused at the first word with which no line of a script can go on.
    ensures told { IsFirstFaulty (said_by dialect.now (lines_of text.now)) number →
        IsRefused dialect.now text.now number result.column result.word.items }
{
    let mut rest = text;
    let mut left = number;
    let mut begun = false;
    while let Some(end) = line_end(rest) {
        let line = without_return(&rest[..end]);
        if left <= 1 {
            return refusal_of(dialect, line, number, begun);
        }
        begun = begun_by(dialect.spelling, line, begun);
        rest = &rest[end + 1..];
        left -= 1;
    }
    refusal_of(dialect, rest, number, begun)
}

/// What is told of this faulty line.
fn refusal_of(dialect: &Dialect<'_>, line: &[u8], number: usize, begun: bool) -> Refusal
    ensures line { result.line ≡ number }
    ensures told { line_at dialect.now begun (words_of dialect.now.spelling line.now) ≡ Faulty →
        IsRefusedAt dialect.now begun line.now result.column result.word.items }
{
    let words = words_of(dialect.spelling, line);
    let wrong = wrong_word(dialect, words.as_slice(), begun);
    match word_at(dialect.spelling, line, wrong.index) {
        Some((at, word)) => Refusal::at(number, at, word, wrong.wanted),
        None => Refusal::at(number, line.len(), &[], wrong.wanted),
    }
}

/// Whether a line or one before it says anything.
fn begun_by(spelling: Spelling, line: &[u8], begun: bool) -> bool
    ensures { result ≡ (begun || not (is_skipped (words_of spelling line.now))) }
{
    begun || !is_skipped(words_of(spelling, line).as_slice())
}

/// The word of a line at an index, and at which byte of the line it begins.
fn word_at(spelling: Spelling, line: &[u8], index: usize) -> Option<(usize, &[u8])>
    ensures { MatchOption result (length (words_of spelling line.now) ≤ index)
        (λ found. BeginsAt spelling line.now index found.0 found.1.now × (found.0 ≤ length line.now)) }
{
    let mut rest = line;
    let mut left = index;
    while let Some(end) = piece_end(spelling, rest) {
        if end > 0 {
            if left == 0 {
                return Some((line.len().saturating_sub(rest.len()), &rest[..end]));
            }
            left -= 1;
        }
        rest = &rest[end + 1..];
    }
    if rest.is_empty() || left > 0 {
        return None;
    }
    Some((line.len().saturating_sub(rest.len()), rest))
}
