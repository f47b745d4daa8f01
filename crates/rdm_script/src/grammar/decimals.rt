//! Decimal numbers, of one to ten digits.

ghost use Rattle.std.specs.Prelude.{◌≡◌};
ghost use Rattle.rdm_script.specs.Decimals.{decimal_in, number_up_to};

use rdm_frame::standard::MOST_SUB_DEVICES;
use std::str;

/// How many digits a number may have, zeros in front included.
const MOST_DIGITS: usize = 10;

/// The number that a word writes, if it is at most 255.
#[tactic(auto, unfolding(crate::specs::Decimals::number_up_to))]
pub(crate) fn byte_in(word: &[u8]) -> Option<u8>
    ensures { result ≡ number_up_to 255 word.now }
{
    u8::try_from(decimal_in(word)?).ok()
}

/// The number that a word writes, if it is at most 512.
#[tactic(auto, unfolding(crate::specs::Decimals::number_up_to))]
pub(crate) fn sub_in(word: &[u8]) -> Option<u16>
    ensures { result ≡ number_up_to 512 word.now }
{
    let number = decimal_in(word)?;
    if number <= u64::from(MOST_SUB_DEVICES) {
        u16::try_from(number).ok()
    } else {
        None
    }
}

/// The number that a word writes, if it is at most 65,535.
#[tactic(auto, unfolding(crate::specs::Decimals::number_up_to))]
pub(crate) fn word_in(word: &[u8]) -> Option<u16>
    ensures { result ≡ number_up_to 65535 word.now }
{
    u16::try_from(decimal_in(word)?).ok()
}

/// The number that a word writes, if it is at most 4,294,967,295.
#[tactic(auto, unfolding(crate::specs::Decimals::number_up_to))]
pub(crate) fn long_in(word: &[u8]) -> Option<u32>
    ensures { result ≡ number_up_to 4294967295 word.now }
{
    u32::try_from(decimal_in(word)?).ok()
}

/// The number that a word writes.
fn decimal_in(word: &[u8]) -> Option<u64>
    ensures { result ≡ decimal_in word.now }
{
    if word.is_empty() || word.len() > MOST_DIGITS {
        return None;
    }
    // A number has no sign, but `parse` takes a plus.
    if word[0] == b'+' {
        return None;
    }
    match str::from_utf8(word) {
        Ok(text) => text.parse().ok(),
        Err(_) => None,
    }
}
