//! What an expectation wants.

ghost use Rattle.std.specs.Prelude.{◌≡◌, ◌≤◌, map, IfSome, Ok, Err};
ghost use Rattle.std.specs.Option.{option_map_or};
ghost use Rattle.rdm_trace.specs.Numbers.{unsigned_in, number_up_to};
ghost use Rattle.rdm_expect.specs.Wishes.{alone, said_alone, nack_in, data_in, count_in, parameter_in, between, length_of, length_in, unit_in, time_of, time_in, part_named, wish_named, wish_in};

use crate::reasons::reason_in;
use rdm_frame::Load;
use rdm_frame::digits::{bytes_in, word_in};
use rdm_table::pid_named;
use std::str;

/// What an expectation wants of the request before it.
#[derive(Drop)]
pub enum Wish {
    /// A reply of the response type ACK (E1.20 table A-2).
    Ack,
    /// A reply of the response type ACK_TIMER.
    AckTimer,
    /// A reply of the response type ACK_OVERFLOW.
    AckOverflow,
    /// A NACK, for the reason with this code (table A-17), or for any.
    Nack(Option<u16>),
    /// A reply with these data.
    Data(Load),
    /// A reply with so many bytes of data.
    Length {
        /// So many at least.
        least: u8,
        /// So many at most.
        most: u8,
    },
    /// A reply with this message count (section 6.2.8).
    MessageCount(u8),
    /// A reply with this parameter, which a message of the queue reports (section 10.3.1).
    Parameter(u16),
    /// The answer of the device to DISC_UNIQUE_BRANCH (section 7.5).
    Found,
    /// No reply is heard.
    Nothing,
    /// A reply.
    Reply,
    /// A reply within this many milliseconds.
    Within(u64),
}

/// What is wrong with an expectation.
#[derive(Clone, Copy, Debug)]
pub enum Flaw {
    /// No request comes before it.
    NoRequest,
    /// It doesn't say what is expected.
    Word,
    /// The word behind `NACK` isn't a reason.
    Reason,
    /// The word behind `DATA` isn't data.
    Data,
    /// Behind `LENGTH` there is neither a number nor two of them with `to` between.
    Length,
    /// The word behind `MESSAGE_COUNT` isn't one.
    Count,
    /// The word behind `PARAMETER` isn't one.
    Parameter,
    /// Behind `within` there is no time.
    Time,
    /// It has a word too many.
    End,
}

impl Flaw {
    /// What is told of it: what is wrong, and what was expected.
    pub fn words(self) -> &'static str {
        match self {
            Flaw::NoRequest =>
                "nothing was sent before this: expected a get, set, disc, collect or find before it",
            Flaw::Word =>
                "this isn't a valid expectation: expected ACK, ACK_TIMER, ACK_OVERFLOW, NACK, DATA, LENGTH, MESSAGE_COUNT, PARAMETER, found, nothing, reply or within",
            Flaw::Reason =>
                "this isn't a valid reason: expected a name in E1.20 such as DATA_OUT_OF_RANGE, or 4 hexadecimal digits",
            Flaw::Data =>
                "this isn't valid data: expected -, or two hexadecimal digits for each of at most 231 bytes",
            Flaw::Length =>
                "this isn't a valid length: expected a number of at most 231 such as 19, or two such as 0 to 32",
            Flaw::Count =>
                "this isn't a valid message count: expected a whole number of at most 255",
            Flaw::Parameter =>
                "this isn't a valid parameter: expected a name in a standard such as LAMP_STATE, or 4 hexadecimal digits",
            Flaw::Time =>
                "this isn't a valid time: expected a whole number and s or ms, such as 500 ms",
            Flaw::End => "this has a word too many: expected the end of the line",
        }
    }
}

/// What the words behind `expect` want.
pub(crate) fn wish_in(words: &[&[u8]]) -> Result<Wish, Flaw>
    ensures { result ≡ wish_in (map (λ word. word.now) words.now) }
{
    match words {
        [name, more @ ..] => wish_named(name, more),
        [] => Err(Flaw::Word),
    }
}

/// What words want, of which the first is this name.
#[tactic(auto, unfolding(crate::specs::Wishes::wish_named))]
fn wish_named(name: &[u8], more: &[&[u8]]) -> Result<Wish, Flaw>
    ensures { result ≡ wish_named name.now (map (λ word. word.now) more.now) }
{
    if name == b"ACK".as_slice() {
        alone(Wish::Ack, more)
    } else if name == b"ACK_TIMER".as_slice() {
        alone(Wish::AckTimer, more)
    } else if name == b"ACK_OVERFLOW".as_slice() {
        alone(Wish::AckOverflow, more)
    } else if name == b"NOTHING".as_slice() {
        alone(Wish::Nothing, more)
    } else if name == b"REPLY".as_slice() {
        alone(Wish::Reply, more)
    } else if name == b"FOUND".as_slice() {
        alone(Wish::Found, more)
    } else if name == b"NACK".as_slice() {
        nack_in(more)
    } else {
        part_named(name, more)
    }
}

/// What words want of what a reply has, where the first is this name.
#[tactic(auto, unfolding(crate::specs::Wishes::part_named))]
fn part_named(name: &[u8], more: &[&[u8]]) -> Result<Wish, Flaw>
    ensures { result ≡ part_named name.now (map (λ word. word.now) more.now) }
{
    if name == b"DATA".as_slice() {
        data_alone(more)
    } else if name == b"LENGTH".as_slice() {
        length_in(more)
    } else if name == b"MESSAGE_COUNT".as_slice() {
        count_alone(more)
    } else if name == b"PARAMETER".as_slice() {
        parameter_alone(more)
    } else if name == b"WITHIN".as_slice() {
        time_in(more)
    } else {
        Err(Flaw::Word)
    }
}

/// This, if no word is left.
fn alone(wish: Wish, more: &[&[u8]]) -> Result<Wish, Flaw>
    ensures { result ≡ alone wish (map (λ word. word.now) more.now) }
{
    if more.is_empty() {
        Ok(wish)
    } else {
        Err(Flaw::End)
    }
}

/// A NACK, for any reason or for one.
fn nack_in(words: &[&[u8]]) -> Result<Wish, Flaw>
    ensures { result ≡ nack_in (map (λ word. word.now) words.now) }
{
    match words {
        [] => Ok(Wish::Nack(None)),
        [word] => match reason_in(word) {
            Some(code) => Ok(Wish::Nack(Some(code))),
            None => Err(Flaw::Reason),
        },
        _ => Err(Flaw::End),
    }
}

/// The data that the only word says.
fn data_alone(words: &[&[u8]]) -> Result<Wish, Flaw>
    ensures { result ≡ said_alone data_in Flaw.Data (map (λ word. word.now) words.now) }
{
    match words {
        [] => Err(Flaw::Data),
        [word] => match data_in(word) {
            Some(wish) => Ok(wish),
            None => Err(Flaw::Data),
        },
        _ => Err(Flaw::End),
    }
}

/// A hyphen for no data, or the digits of at most 231 bytes.
#[tactic(auto, unfolding(crate::specs::Wishes::data_in))]
fn data_in(word: &[u8]) -> Option<Wish>
    ensures { result ≡ data_in word.now }
{
    if word == b"-".as_slice() {
        Some(Wish::Data(Load::new()))
    } else if word.len() <= 462 {
        Some(Wish::Data(bytes_in(word)?))
    } else {
        None
    }
}

/// The message count that the only word says.
fn count_alone(words: &[&[u8]]) -> Result<Wish, Flaw>
    ensures { result ≡ said_alone count_in Flaw.Count (map (λ word. word.now) words.now) }
{
    match words {
        [] => Err(Flaw::Count),
        [word] => match slot_in(word) {
            Some(count) => Ok(Wish::MessageCount(count)),
            None => Err(Flaw::Count),
        },
        _ => Err(Flaw::End),
    }
}

/// The parameter that the only word says.
fn parameter_alone(words: &[&[u8]]) -> Result<Wish, Flaw>
    ensures { result ≡ said_alone parameter_in Flaw.Parameter (map (λ word. word.now) words.now) }
{
    match words {
        [] => Err(Flaw::Parameter),
        [word] => match parameter_in(word) {
            Some(wish) => Ok(wish),
            None => Err(Flaw::Parameter),
        },
        _ => Err(Flaw::End),
    }
}

/// A parameter: the name that a standard gives it, or the four digits of its PID.
#[tactic(auto, unfolding(crate::specs::Wishes::parameter_in))]
fn parameter_in(word: &[u8]) -> Option<Wish>
    ensures { result ≡ parameter_in word.now }
{
    match pid_named(word) {
        Some(pid) => Some(Wish::Parameter(pid)),
        None => Some(Wish::Parameter(word_in(word)?)),
    }
}

/// A length: a number, or two with `to` between them.
fn length_in(words: &[&[u8]]) -> Result<Wish, Flaw>
    ensures { result ≡ length_in (map (λ word. word.now) words.now) }
{
    match words {
        [number] => length_between(number, number),
        [least, to, most] => {
            if *to == b"TO".as_slice() {
                length_between(least, most)
            } else {
                Err(Flaw::Length)
            }
        }
        [] | [_, _] => Err(Flaw::Length),
        _ => Err(Flaw::End),
    }
}

/// A length between these numbers.
fn length_between(least: &[u8], most: &[u8]) -> Result<Wish, Flaw>
    ensures { result ≡ option_map_or (λ wish. Ok wish) (length_of least.now most.now) (Err Flaw.Length) }
{
    match length_of(least, most) {
        Some(wish) => Ok(wish),
        None => Err(Flaw::Length),
    }
}

/// The length between these numbers, if they are some that data can have.
#[tactic(auto, unfolding(crate::specs::Wishes::length_of))]
fn length_of(least: &[u8], most: &[u8]) -> Option<Wish>
    ensures { result ≡ length_of least.now most.now }
{
    between(length_said(least)?, length_said(most)?)
}

/// At least so many bytes, and at most so many, if that can be.
fn between(least: u8, most: u8) -> Option<Wish>
    ensures { result ≡ between least most }
{
    if least <= most {
        Some(Wish::Length { least, most })
    } else {
        None
    }
}

/// The number of bytes that a word writes, if data can have as many.
#[tactic(auto, unfolding(rdm_trace::specs::Numbers::number_up_to))]
fn length_said(word: &[u8]) -> Option<u8>
    ensures { result ≡ number_up_to 231 word.now }
{
    let number = unsigned_in(word)?;
    if number <= 231 {
        u8::try_from(number).ok()
    } else {
        None
    }
}

/// A time: a number and its unit.
fn time_in(words: &[&[u8]]) -> Result<Wish, Flaw>
    ensures { result ≡ time_in (map (λ word. word.now) words.now) }
{
    match words {
        [] | [_] => Err(Flaw::Time),
        [number, unit] => match time_of(number, unit) {
            Some(wish) => Ok(wish),
            None => Err(Flaw::Time),
        },
        _ => Err(Flaw::End),
    }
}

/// The time that a number and a unit say.
#[tactic(auto, unfolding(crate::specs::Wishes::time_of))]
fn time_of(number: &[u8], unit: &[u8]) -> Option<Wish>
    ensures { result ≡ time_of number.now unit.now }
{
    let number = u64::from(number_in(number)?);
    let each = unit_in(unit)?;
    Some(Wish::Within(number * each))
}

/// How many milliseconds a unit has.
fn unit_in(word: &[u8]) -> Option<u64>
    ensures value { result ≡ unit_in word.now }
    ensures within { IfSome result (λ each. each ≤ 1000) }
{
    if word == b"S".as_slice() {
        Some(1000)
    } else if word == b"MS".as_slice() {
        Some(1)
    } else {
        None
    }
}

/// The number that a word writes, if it is at most 4,294,967,295.
#[tactic(auto, unfolding(rdm_trace::specs::Numbers::number_up_to))]
fn number_in(word: &[u8]) -> Option<u32>
    ensures { result ≡ number_up_to 4294967295 word.now }
{
    u32::try_from(unsigned_in(word)?).ok()
}

/// The number that a word writes, if it fits a slot.
#[tactic(auto, unfolding(rdm_trace::specs::Numbers::number_up_to))]
fn slot_in(word: &[u8]) -> Option<u8>
    ensures { result ≡ number_up_to 255 word.now }
{
    u8::try_from(unsigned_in(word)?).ok()
}

/// The number that a word writes, behind a plus or none.
fn unsigned_in(word: &[u8]) -> Option<u64>
    ensures { result ≡ unsigned_in word.now }
{
    match str::from_utf8(word) {
        Ok(text) => text.parse().ok(),
        Err(_) => None,
    }
}
