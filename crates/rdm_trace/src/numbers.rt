//! Decimal numbers.

ghost use Rattle.std.specs.Prelude.{◌≡◌};
ghost use Rattle.rdm_trace.specs.Numbers.{unsigned_in, number_up_to, signed_in};

use std::str;

/// The number that a word writes, if it is at most 255.
#[tactic(auto, unfolding(crate::specs::Numbers::number_up_to))]
pub(crate) fn byte_in(word: &[u8]) -> Option<u8>
    ensures { result ≡ number_up_to 255 word.now }
{
    u8::try_from(unsigned_in(word)?).ok()
}

/// The number that a word writes, if it is at most 65,535.
#[tactic(auto, unfolding(crate::specs::Numbers::number_up_to))]
pub(crate) fn word_in(word: &[u8]) -> Option<u16>
    ensures { result ≡ number_up_to 65535 word.now }
{
    u16::try_from(unsigned_in(word)?).ok()
}

/// The number that a word writes, if it is at most 4,294,967,295.
#[tactic(auto, unfolding(crate::specs::Numbers::number_up_to))]
pub(crate) fn long_in(word: &[u8]) -> Option<u32>
    ensures { result ≡ number_up_to 4294967295 word.now }
{
    u32::try_from(unsigned_in(word)?).ok()
}

/// The number that a word writes, behind a plus or none.
fn unsigned_in(word: &[u8]) -> Option<u64>
    ensures { result ≡ unsigned_in word.now }
{
    match str::from_utf8(word) {
        Ok(text) => text.parse().ok(),
        Err(_) => None,
    }
}

/// The number that a word writes, behind a sign or none.
pub(crate) fn signed_in(word: &[u8]) -> Option<i16>
    ensures { result ≡ signed_in word.now }
{
    match str::from_utf8(word) {
        Ok(text) => text.parse().ok(),
        Err(_) => None,
    }
}
