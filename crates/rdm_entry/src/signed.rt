//! Numbers with a sign, in two's complement.

ghost use Rattle.std.specs.Prelude.{◌≡◌, ◌≤◌, ◌^◌};
ghost use Rattle.rdm_profile.specs.Fields.{reach_of};
ghost use Rattle.rdm_entry.specs.Words.{negative, positive, signed_said};

use crate::error::Wrong;
use crate::numeral::{has_mark, is_unclear, numeral_in};
use crate::word::{ranged, ranged_or};
use rdm_device::Width;
use rdm_frame::Load;

/// A number with a sign: decimal digits, with a minus in front or without, or hexadecimal ones behind `0x`, which are its slots.
pub(crate) fn signed_said(width: Width, word: &[u8]) -> Result<Load, Wrong>
    ensures { result ≡ signed_said width word.now }
{
    if !word.is_empty() && word[0] == b'-' {
        return match numeral_in(10, &word[1..]) {
            Some(number) => negative(width, number),
            None => Err(Wrong::Number),
        };
    }
    match numeral_in(10, word) {
        Some(number) => positive(width, number, word),
        None if has_mark(word) => ranged_or(width, numeral_in(16, &word[2..])),
        None => Err(Wrong::Number),
    }
}

/// A number below 0.
fn negative(width: Width, number: u64) -> Result<Load, Wrong>
    ensures { result ≡ negative width number }
{
    let reach = reach_of(width);
    if number > reach / 2 {
        return Err(Wrong::Range);
    }
    ranged(width, (reach - number) % reach)
}

/// A number from 0 on, of which one bit is the sign.
fn positive(width: Width, number: u64, word: &[u8]) -> Result<Load, Wrong>
    ensures { result ≡ positive width word.now number }
{
    if is_unclear(number, word) {
        return Err(Wrong::Unclear);
    }
    if number >= reach_of(width) / 2 {
        return Err(Wrong::Range);
    }
    ranged(width, number)
}

/// How many numbers the slots can say.
fn reach_of(width: Width) -> u64
    ensures { result ≡ reach_of width }
{
    match width {
        Width::One => 0x100,
        Width::Two => 0x1_0000,
        Width::Four => 0x1_0000_0000,
    }
}
