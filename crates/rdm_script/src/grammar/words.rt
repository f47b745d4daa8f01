//! The words of a line.

ghost use Rattle.std.specs.Prelude.{◌≡◌, ◌≤◌, ◌<◌, ℕ, List, [], ◌∷◌, ◌++◌, length, map, filter, take, position, IfSome};
ghost use Rattle.rdm_script.specs.Grammar.{is_blank, is_quote, is_word, quoted_front, piece_end, words_of};

use crate::dialect::Spelling;
use arrayvec::ArrayVec;

/// How many words of a line are kept: one more than any line of a script has, so that a word too many is seen.
const MOST_WORDS: usize = 9;

/// The words of a line, or the first nine of them.
pub(crate) fn words_of(spelling: Spelling, line: &[u8]) -> ArrayVec<&[u8], MOST_WORDS>
    ensures { map (λ word. word.now) result.items ≡ take 9 (words_of spelling line.now) }
{
    let mut words = ArrayVec::new();
    let mut rest = line;
    while let Some(end) = piece_end(spelling, rest) {
        keep_word(&mut words, &rest[..end]);
        rest = &rest[end + 1..];
    }
    keep_word(&mut words, rest);
    words
}

/// Keeps a piece of a line if it is a word, as long as there is room.
fn keep_word<'a>(words: &mut ArrayVec<&'a [u8], MOST_WORDS>, piece: &'a [u8])
    requires { length words.old.items ≤ 9 }
    ensures kept { (rest : List (List ℕ)) →
        take 9 (map (λ word. word.now) words.new.items ++ rest) ≡
        take 9 (map (λ word. word.now) words.old.items ++ (filter is_word (piece.now ∷ []) ++ rest)) }
    ensures within { length words.new.items ≤ 9 }
{
    if piece.is_empty() {
        return;
    }
    if words.is_full() {
        return;
    }
    words.push(piece);
}

/// Where the first piece of a line ends, if a blank ends it. In a friendly script none does so in double quotes.
#[tactic(auto, unfolding(crate::specs::Grammar::piece_end))]
pub(crate) fn piece_end(spelling: Spelling, line: &[u8]) -> Option<usize>
    ensures end { result ≡ piece_end spelling line.now }
    ensures within { IfSome result (λ end. end < length line.now) }
{
    match spelling {
        Spelling::Strict => blank_in(line),
        Spelling::Friendly => {
            let front = quoted_front(line);
            match blank_in(&line[front..]) {
                Some(end) => Some(front + end),
                None => None,
            }
        }
    }
}

/// Where the first blank of a line is.
fn blank_in(line: &[u8]) -> Option<usize>
    ensures end { result ≡ position is_blank line.now }
    ensures within { IfSome result (λ end. end < length line.now) }
{
    line.iter().position(|b| *b == b' ' || *b == b'\t')
}

/// How many bytes at the front of a line are in double quotes, these included: all, if the second quote is missing.
#[tactic(auto, unfolding(crate::specs::Grammar::quoted_front))]
fn quoted_front(line: &[u8]) -> usize
    ensures front { result ≡ quoted_front line.now }
    ensures within { result ≤ length line.now }
{
    if line.first() != Some(&b'"') {
        return 0;
    }
    match quote_in(&line[1..]) {
        Some(end) => end + 2,
        None => line.len(),
    }
}

/// Where the first double quote of a line is.
fn quote_in(line: &[u8]) -> Option<usize>
    ensures end { result ≡ position is_quote line.now }
    ensures within { IfSome result (λ end. end < length line.now) }
{
    line.iter().position(|b| *b == b'"')
}
