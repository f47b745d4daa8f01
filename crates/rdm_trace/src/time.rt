//! When something happened.

ghost use Rattle.std.specs.Prelude.{◌≡◌, ◌<◌, ◌++◌, ◌==◌, length, position, IfSome, OnOk};
ghost use Rattle.rdm_trace.specs.LineText.{three_figures, seconds_words};
ghost use Rattle.rdm_trace.specs.Reading.{before_point, behind_point, figure_in, thousandths_in, seconds_in, time_in};

use crate::put::put_number;
use crate::words::first_word;
use crate::{Line, numbers};
use std::alloc::AllocError;

/// How many milliseconds a second has.
const SECOND: u64 = 1000;

/// A time: seconds, and their sign.
#[tactic(auto, unfolding(crate::specs::Reading::time_in))]
pub(crate) fn time_in(words: &[u8]) -> Option<Line>
    ensures { result ≡ time_in words.now }
{
    let (number, unit) = first_word(words);
    if unit == b"s".as_slice() {
        Some(Line::Time {
            millis: seconds_in(number)?,
        })
    } else {
        None
    }
}

/// Seconds with three digits behind the point, as milliseconds.
#[tactic(auto, unfolding(crate::specs::Reading::seconds_in))]
fn seconds_in(number: &[u8]) -> Option<u64>
    ensures { result ≡ seconds_in number.now }
{
    let (seconds, thousandths) = at_point(number);
    let seconds = u64::from(numbers::long_in(seconds)?);
    let thousandths = u64::from(thousandths_in(thousandths)?);
    Some(seconds * SECOND + thousandths)
}

/// What stands before the point of a number, and what behind it.
#[tactic(auto, unfolding(crate::specs::Reading::before_point, crate::specs::Reading::behind_point))]
fn at_point(number: &[u8]) -> (&[u8], &[u8])
    ensures before { result.0.now ≡ before_point number.now }
    ensures behind { result.1.now ≡ behind_point number.now }
{
    match point_of(number) {
        Some(point) => (&number[..point], &number[point + 1..]),
        None => (number, &[]),
    }
}

/// Where the first point of a number is.
fn point_of(number: &[u8]) -> Option<usize>
    ensures at { result ≡ position (λ b. b == 46) number.now }
    ensures within { IfSome result (λ point. point < length number.now) }
{
    number.iter().position(|b| *b == b'.')
}

/// The number that three decimal digits write.
#[tactic(auto, unfolding(crate::specs::Reading::thousandths_in))]
fn thousandths_in(digits: &[u8]) -> Option<u16>
    ensures { result ≡ thousandths_in digits.now }
{
    if digits.len() != 3 {
        return None;
    }
    let hundreds = figure_in(digits[0])?;
    let tens = figure_in(digits[1])?;
    let ones = figure_in(digits[2])?;
    Some(hundreds * 100 + tens * 10 + ones)
}

/// The number that a decimal digit stands for.
fn figure_in(digit: u8) -> Option<u16>
    ensures number { result ≡ figure_in digit }
    ensures within { IfSome result (λ figure. figure < 10) }
{
    if b'0' <= digit && digit <= b'9' {
        Some(u16::from(digit - b'0'))
    } else {
        None
    }
}

/// Puts milliseconds at the end of a text, as seconds with three digits behind the point.
pub(crate) fn put_seconds(text: &mut Vec<u8>, millis: u64) -> Result<(), AllocError>
    ensures { OnOk result (text.new.items ≡ text.old.items ++ seconds_words millis) }
{
    put_number(text, millis / SECOND)?;
    text.extend_from_slice(b".")?;
    text.extend_from_slice(&three_figures(millis % SECOND))
}

/// Three decimal digits of a number below 1,000.
fn three_figures(number: u64) -> [u8; 3]
    requires below { number < 1000 }
    ensures { result ≡ three_figures number }
{
    [
        b'0' + (number / 100) as u8,
        b'0' + (number / 10 % 10) as u8,
        b'0' + (number % 10) as u8,
    ]
}
