//! The first word of a faulty line that isn't what it has to be. What each word has to be, the readers of the words say.

ghost use Rattle.std.specs.Prelude.{◌≡◌, ◌≢◌, ◌<◌, ◌≤◌, ◌⊎◌, ◌||◌, Bool, drop, length, map, codes, None, IfSome, MatchOption};
ghost use Rattle.std.specs.Str.{bytes_eq};
ghost use Rattle.rdm_script.specs.Dialects.{Dialect as TheDialect};
ghost use Rattle.rdm_script.specs.declared.grammar.line.Line.TheVariants.{Faulty};
ghost use Rattle.rdm_script.specs.Grammar.{word, action_in, line_at};
ghost use Rattle.rdm_script.specs.WrongWords.{AreFault, AreLine, IsFirstWrong};

use super::command::{action_in, are_shown, destination_in, load_in, pid_in, sub_in};
use super::decimals;
use super::fault::{lost_in, raise_in};
use super::line::want_in;
use super::search::is_find_name;
use crate::dialect::{Dialect, Spelling};
use crate::refusal::Wanted;

/// How many digits the data of a command have at most.
const MOST_DIGITS: usize = 510;

/// A word of a line that isn't what it has to be: which one, from 0, and what was wanted. It may be the one that is missing
/// behind the last.
#[derive(Clone, Copy, Debug)]
pub(crate) struct WrongWord {
    pub(crate) index: usize,
    pub(crate) wanted: Wanted,
}

/// The first wrong word of a faulty line. `begun` tells whether a line before it has said something.
pub(crate) fn wrong_word(dialect: &Dialect<'_>, words: &[&[u8]], begun: bool) -> WrongWord
    ensures index { line_at dialect.now begun (map (λ word. word.now) words.now) ≡ Faulty →
        IsFirstWrong (AreLine dialect.now begun) (map (λ word. word.now) words.now) result.index }
    ensures within { result.index < 9 }
{
    match wrong_in_line(dialect, words, begun) {
        Some(word) => word,
        None => wrong(0, Wanted::Step),
    }
}

/// The first wrong word of a line, if there is one. A comment isn't seen here: it is taken for a step.
fn wrong_in_line(dialect: &Dialect<'_>, words: &[&[u8]], begun: bool) -> Option<WrongWord>
    ensures told { line_at dialect.now begun (map (λ word. word.now) words.now) ≡ Faulty →
        MatchOption result (AreLine dialect.now begun (map (λ word. word.now) words.now))
        (λ w. IsFirstWrong (AreLine dialect.now begun) (map (λ word. word.now) words.now) w.index) }
    ensures within { IfSome result (λ w. w.index < 9) }
{
    let name = text_at(words, 0);
    if name == b"setup".as_slice() {
        return wrong_in_setup(words, begun);
    }
    if action_in(name).is_some() {
        return wrong_in_command(dialect, words);
    }
    if name == b"collect".as_slice() {
        return wrong_in_poll(words);
    }
    if name == b"draw".as_slice() {
        return end_at(words, 1);
    }
    if is_find_name(dialect.spelling, name) {
        return end_at(words, 1);
    }
    if name == b"settle".as_slice() || name == b"panel".as_slice() {
        return wrong_in_count(words);
    }
    Some(wrong(0, Wanted::Step))
}

/// The first wrong word of a setup, which has three words more and stands before all other steps.
fn wrong_in_setup(words: &[&[u8]], begun: bool) -> Option<WrongWord>
    requires { word (map (λ word. word.now) words.now) 0 ≡ codes "setup" }
    ensures told { (d : TheDialect) →
        MatchOption result (AreLine d begun (map (λ word. word.now) words.now))
        (λ w. IsFirstWrong (AreLine d begun) (map (λ word. word.now) words.now) w.index) }
    ensures within { IfSome result (λ w. w.index < 9) }
{
    if begun {
        return Some(wrong(0, Wanted::SetupFirst));
    }
    if decimals::word_in(text_at(words, 1)).is_none() {
        return Some(wrong(1, Wanted::SubDevices));
    }
    if decimals::word_in(text_at(words, 2)).is_none() {
        return Some(wrong(2, Wanted::Room));
    }
    if want_in(text_at(words, 3)).is_none() {
        return Some(wrong(3, Wanted::Messages));
    }
    end_at(words, 4)
}

/// The first wrong word of a poll, which says no more than what goes wrong.
fn wrong_in_poll(words: &[&[u8]]) -> Option<WrongWord>
    requires { word (map (λ word. word.now) words.now) 0 ≡ codes "collect" }
    ensures told { (d : TheDialect) (begun : Bool) →
        MatchOption result (AreLine d begun (map (λ word. word.now) words.now))
        (λ w. IsFirstWrong (AreLine d begun) (map (λ word. word.now) words.now) w.index) }
    ensures within { IfSome result (λ w. w.index < 9) }
{
    match wrong_in_fault(words_from(words, 1)) {
        Some(word) => Some(wrong(word.index + 1, word.wanted)),
        None => None,
    }
}

/// The first wrong word of a step that has a count, and no word more.
fn wrong_in_count(words: &[&[u8]]) -> Option<WrongWord>
    requires { (word (map (λ word. word.now) words.now) 0 ≡ codes "settle") ⊎
        (word (map (λ word. word.now) words.now) 0 ≡ codes "panel") }
    ensures told { (d : TheDialect) (begun : Bool) →
        MatchOption result (AreLine d begun (map (λ word. word.now) words.now))
        (λ w. IsFirstWrong (AreLine d begun) (map (λ word. word.now) words.now) w.index) }
    ensures within { IfSome result (λ w. w.index < 9) }
{
    if decimals::long_in(text_at(words, 1)).is_none() {
        return Some(wrong(1, Wanted::Empties));
    }
    end_at(words, 2)
}

/// The first wrong word of a command, which has four words more and what goes wrong.
fn wrong_in_command(dialect: &Dialect<'_>, words: &[&[u8]]) -> Option<WrongWord>
    requires { action_in (word (map (λ word. word.now) words.now) 0) ≢ None }
    ensures told { (begun : Bool) →
        MatchOption result (AreLine dialect.now begun (map (λ word. word.now) words.now))
        (λ w. IsFirstWrong (AreLine dialect.now begun) (map (λ word. word.now) words.now) w.index) }
    ensures within { IfSome result (λ w. w.index < 9) }
{
    let spelling = dialect.spelling;
    if destination_in(dialect.device, text_at(words, 1)).is_none() {
        return Some(wrong(1, Wanted::Destination));
    }
    if sub_in(spelling, text_at(words, 2)).is_none() {
        return Some(wrong(2, Wanted::SubDevice));
    }
    let parameter = text_at(words, 3);
    if pid_in(spelling, dialect.own, parameter).is_none() {
        return Some(wrong(3, parameter_wanted(dialect, parameter)));
    }
    if words.len() <= 4 {
        return Some(wrong(4, Wanted::Load));
    }
    let load = text_at(words, 4);
    if load_in(spelling, load).is_none() {
        return Some(wrong(4, load_wanted(load)));
    }
    match wrong_in_fault(words_from(words, 5)) {
        Some(word) => Some(wrong(word.index + 5, word.wanted)),
        None => None,
    }
}

/// What is wanted if this word isn't a parameter.
fn parameter_wanted(dialect: &Dialect<'_>, word: &[u8]) -> Wanted {
    match (dialect.spelling, word) {
        (Spelling::Strict, _) => Wanted::Parameter,
        (Spelling::Friendly, [b'"', .., b'"']) if dialect.own.is_empty() =>
            Wanted::StandardParameter,
        (Spelling::Friendly, [b'"', .., b'"']) => Wanted::AnyParameter,
        (Spelling::Friendly, [b'"', ..]) => Wanted::QuoteEnd,
        (Spelling::Friendly, _) if dialect.own.is_empty() => Wanted::Parameter,
        (Spelling::Friendly, _) => Wanted::AnyParameter,
    }
}

/// What is wanted if this word isn't the data of a command.
fn load_wanted(word: &[u8]) -> Wanted {
    match word {
        [b'"', text @ .., b'"'] if are_shown(text) => Wanted::ShorterLoad,
        [b'"', _, .., b'"'] => Wanted::Printable,
        [b'"', ..] => Wanted::QuoteEnd,
        _ if word.len() > MOST_DIGITS => Wanted::ShorterLoad,
        _ => Wanted::Load,
    }
}

/// The first wrong word of what goes wrong with a transaction: nothing does if there are no words.
fn wrong_in_fault(words: &[&[u8]]) -> Option<WrongWord>
    ensures told { MatchOption result (AreFault (map (λ word. word.now) words.now))
        (λ w. IsFirstWrong AreFault (map (λ word. word.now) words.now) w.index) }
    ensures within { IfSome result (λ w. w.index ≤ 3) }
{
    if words.is_empty() {
        return None;
    }
    let name = text_at(words, 0);
    if lost_in(name).is_some() {
        return end_at(words, 1);
    }
    if !is_altered(name) {
        return Some(wrong(0, Wanted::Fault));
    }
    if decimals::byte_in(text_at(words, 1)).is_none() {
        return Some(wrong(1, Wanted::Slot));
    }
    if raise_in(text_at(words, 2)).is_none() {
        return Some(wrong(2, Wanted::Raise));
    }
    end_at(words, 3)
}

/// Whether a word names one of the two frames of a transaction, of which a slot is raised.
fn is_altered(name: &[u8]) -> bool
    ensures { result ≡ (bytes_eq name.now (codes "bad-request") || bytes_eq name.now (codes "bad-reply")) }
{
    name == b"bad-request".as_slice() || name == b"bad-reply".as_slice()
}

/// The line has to end before this index.
fn end_at(words: &[&[u8]], index: usize) -> Option<WrongWord>
    ensures { MatchOption result (length words.now ≤ index) (λ w. (w.index ≡ index) × (index < length words.now)) }
{
    if words.len() <= index {
        None
    } else {
        Some(wrong(index, Wanted::End))
    }
}

/// The word at an index, or nothing if the line ends before it.
fn text_at<'a>(words: &[&'a [u8]], index: usize) -> &'a [u8]
    ensures { result.now ≡ word (map (λ word. word.now) words.now) index }
{
    match words.get(index) {
        Some(word) => word,
        None => &[],
    }
}

/// The words from an index on, or none if the line ends before it.
#[tactic(auto, using(crate::proofs::Tests::words_behind, crate::proofs::Tests::words_past))]
fn words_from<'a, 'b>(words: &'a [&'b [u8]], index: usize) -> &'a [&'b [u8]]
    ensures { map (λ word. word.now) result.now ≡ drop index (map (λ word. word.now) words.now) }
{
    if index <= words.len() {
        &words[index..]
    } else {
        &[]
    }
}

/// A word that isn't what it has to be.
fn wrong(index: usize, wanted: Wanted) -> WrongWord
    ensures { result.index ≡ index }
{
    WrongWord { index, wanted }
}
