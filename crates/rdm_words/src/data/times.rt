//! The words of times, dates and PINs.

ghost use Rattle.std.specs.Prelude.{◌≡◌, ◌++◌, OnOk, string_bytes};
ghost use Rattle.rdm_words.specs.HeaderFacts.{tenths_text};

use crate::data::form::Meaning;
use crate::data::values::put_data;
use std::alloc::AllocError;
use std::fmt::Write;

/// The time that is none, of one without end (E1.37-1).
const ENDLESS: u16 = 0xFFFF;

/// The words of slots with one of these meanings, or the slots themselves if there aren't as many as it has.
pub(crate) fn put_time_or_pin(
    text: &mut String,
    meaning: Meaning,
    slots: &[u8],
) -> Result<(), AllocError> {
    match (meaning, slots) {
        (Meaning::Tenths, [a, b]) => put_tenths(text, u16::from_be_bytes([*a, *b])),
        (Meaning::Endless, [a, b]) => match u16::from_be_bytes([*a, *b]) {
            ENDLESS => text.push_str("without end"),
            tenths => put_tenths(text, tenths),
        },
        (Meaning::Times, [a, b, c, d]) => {
            put_tenths(text, u16::from_be_bytes([*a, *b]))?;
            text.push_str(" to ")?;
            put_tenths(text, u16::from_be_bytes([*c, *d]))
        }
        (Meaning::Pin, [a, b]) => put_pin(text, u16::from_be_bytes([*a, *b])),
        (Meaning::Clock, [a, b, month, day, hour, minute, second]) => {
            let year = u16::from_be_bytes([*a, *b]);
            write!(text, "{year}")?;
            for (before, number) in [
                ("-", *month),
                ("-", *day),
                (" ", *hour),
                (":", *minute),
                (":", *second),
            ] {
                text.push_str(before)?;
                put_two(text, number)?;
            }
            Ok(())
        }
        _ => put_data(text, slots),
    }
}

/// So many tenths of a second.
pub(crate) fn put_tenths(text: &mut String, tenths: u16) -> Result<(), AllocError>
    ensures { OnOk result (string_bytes text.new ≡ string_bytes text.old ++ tenths_text tenths) }
{
    let (seconds, rest) = (tenths / 10, tenths % 10);
    write!(text, "{seconds}.{rest} s")
}

/// A number with two digits at least.
fn put_two(text: &mut String, number: u8) -> Result<(), AllocError> {
    if number < 10 {
        text.push('0')?;
    }
    write!(text, "{number}")
}

/// A number with four digits at least.
fn put_pin(text: &mut String, pin: u16) -> Result<(), AllocError> {
    for least in [1000, 100, 10] {
        if pin < least {
            text.push('0')?;
        }
    }
    write!(text, "{pin}")
}
