//! Numbers and bytes in hexadecimal digits.

ghost use Rattle.std.specs.Prelude.{◌≡◌, ◌++◌, ◌≤◌, ◌<◌, length, IfSome, OnOk};
ghost use Rattle.std.specs.Int.{w16, w32};
ghost use Rattle.rdm_frame.specs.DigitReading.{digit_value, byte_in, bytes_in, number_in};
ghost use Rattle.rdm_frame.specs.Digits.{digit, digits};

use crate::Load;
use std::alloc::AllocError;

/// The digit of a number below 16, in upper case.
pub fn digit(number: u8) -> u8
    requires { number < 16 }
    ensures { result ≡ digit number }
{
    if number < 10 {
        b'0' + number
    } else {
        b'A' - 10 + number
    }
}

/// Puts the digits of bytes at the end of a text: two for each, in upper case.
pub fn put_digits(text: &mut Vec<u8>, bytes: &[u8]) -> Result<(), AllocError>
    ensures { OnOk result (text.new.items ≡ text.old.items ++ digits bytes.now) }
{
    for byte in bytes {
        text.extend_from_slice(&[digit(byte / 16), digit(byte % 16)])?;
    }
    Ok(())
}

/// The bytes that a word spells, two digits each. The word has at most the digits of 255 bytes.
pub fn bytes_in(word: &[u8]) -> Option<Load>
    requires { length word.now ≤ 510 }
    ensures { result ≡ bytes_in word.now }
{
    let mut bytes = Load::new();
    let mut rest = word;
    while let [high, low, more @ ..] = rest {
        bytes.append(&[byte_in(*high, *low)?]);
        rest = more;
    }
    if rest.is_empty() { Some(bytes) } else { None }
}

/// The number that a word spells in four digits.
#[tactic(auto, unfolding(crate::specs::DigitReading::number_in))]
pub fn word_in(word: &[u8]) -> Option<u16>
    ensures { result ≡ number_in w16 word.now }
{
    if word.len() != 4 {
        return None;
    }
    match bytes_in(word)?.as_slice() {
        [high, low] => Some(u16::from_be_bytes([*high, *low])),
        _ => None,
    }
}

/// The number that a word spells in eight digits.
#[tactic(auto, unfolding(crate::specs::DigitReading::number_in))]
pub fn long_in(word: &[u8]) -> Option<u32>
    ensures { result ≡ number_in w32 word.now }
{
    if word.len() != 8 {
        return None;
    }
    match bytes_in(word)?.as_slice() {
        [a, b, c, d] => Some(u32::from_be_bytes([*a, *b, *c, *d])),
        _ => None,
    }
}

/// The byte that two digits spell.
#[tactic(auto, unfolding(crate::specs::DigitReading::byte_in))]
fn byte_in(high: u8, low: u8) -> Option<u8>
    ensures { result ≡ byte_in high low }
{
    Some(16 * digit_value(high)? + digit_value(low)?)
}

/// The value of a digit, upper or lower case.
fn digit_value(digit: u8) -> Option<u8>
    ensures value { result ≡ digit_value digit }
    ensures small { IfSome result (λ value. value < 16) }
{
    match digit {
        b'0'..=b'9' => Some(digit - b'0'),
        b'A'..=b'F' => Some(digit - b'A' + 10),
        b'a'..=b'f' => Some(digit - b'a' + 10),
        _ => None,
    }
}
