//! Numbers in decimal and in hexadecimal digits.

ghost use Rattle.std.specs.Prelude.{◌≡◌, ◌≤◌};
ghost use Rattle.rdm_entry.specs.Numerals.{numeral_in, is_unclear, has_mark};

use std::str;

/// How many digits a number has at most, zeros in front included.
const MOST_DIGITS: usize = 10;

/// The number that a word of digits writes.
#[tactic(auto, unfolding(crate::specs::Numerals::numeral_in))]
pub(crate) fn numeral_in(radix: u32, word: &[u8]) -> Option<u64>
    requires least { 10 ≤ radix }
    requires most { radix ≤ 16 }
    ensures { result ≡ numeral_in radix word.now }
{
    if word.is_empty() || word.len() > MOST_DIGITS {
        return None;
    }
    // A number has no sign, but `from_str_radix` takes a plus.
    if word[0] == b'+' {
        return None;
    }
    match str::from_utf8(word) {
        Ok(text) => u64::from_str_radix(text, radix).ok(),
        Err(_) => None,
    }
}

/// Whether a zero in front of decimal digits leaves open what they are: as hexadecimal digits they are another number.
pub(crate) fn is_unclear(decimal: u64, word: &[u8]) -> bool
    ensures { result ≡ is_unclear decimal word.now }
{
    !word.is_empty()
        && word[0] == b'0'
        && !numeral_in(16, word).is_some_and(|hexadecimal| hexadecimal == decimal)
}

/// Whether hexadecimal digits are to follow: `0x`.
pub(crate) fn has_mark(word: &[u8]) -> bool
    ensures { result ≡ has_mark word.now }
{
    word.len() > 2 && word[0] == b'0' && (word[1] == b'x' || word[1] == b'X')
}
