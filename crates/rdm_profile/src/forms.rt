//! The forms that the data of a command can have.

ghost use Rattle.std.specs.Prelude.{◌≡◌};
ghost use Rattle.rdm_profile.specs.Forms.{nothing, byte, word, long, preset, label, sized, value_of};

use crate::{Argument, ValueRef};
use rdm_frame::standard::MOST_TEXT;

/// No data.
#[inline]
pub fn nothing(data: &[u8]) -> Option<Argument<'_>>
    ensures { result ≡ value_of nothing data.now }
{
    match data {
        [] => Some(Argument {
            value: ValueRef::Nothing,
        }),
        _ => None,
    }
}

/// An 8-bit number.
#[inline]
pub fn byte(data: &[u8]) -> Option<Argument<'_>>
    ensures { result ≡ value_of byte data.now }
{
    match data {
        [number] => Some(Argument {
            value: ValueRef::Byte(*number),
        }),
        _ => None,
    }
}

/// A 16-bit number.
#[inline]
pub fn word(data: &[u8]) -> Option<Argument<'_>>
    ensures { result ≡ value_of word data.now }
{
    match data {
        [high, low] => Some(Argument {
            value: ValueRef::Word(u16::from_be_bytes([*high, *low])),
        }),
        _ => None,
    }
}

/// A 32-bit number.
#[inline]
pub fn long(data: &[u8]) -> Option<Argument<'_>>
    ensures { result ≡ value_of long data.now }
{
    match data {
        [a, b, c, d] => Some(Argument {
            value: ValueRef::Long(u32::from_be_bytes([*a, *b, *c, *d])),
        }),
        _ => None,
    }
}

/// A preset and its level.
#[inline]
pub fn preset(data: &[u8]) -> Option<Argument<'_>>
    ensures { result ≡ value_of preset data.now }
{
    match data {
        [high, low, level] => Some(Argument {
            value: ValueRef::Preset(u16::from_be_bytes([*high, *low]), *level),
        }),
        _ => None,
    }
}

/// A text of at most 32 bytes.
#[inline]
pub fn label(data: &[u8]) -> Option<Argument<'_>>
    ensures { result ≡ value_of label data.now }
{
    if data.len() > MOST_TEXT {
        return None;
    }
    Some(Argument {
        value: ValueRef::Label(data),
    })
}

/// So many slots, of at most 32.
pub fn sized(size: u8, data: &[u8]) -> Option<Argument<'_>>
    ensures { result ≡ value_of (sized size) data.now }
{
    if data.len() != size as usize || data.len() > MOST_TEXT {
        return None;
    }
    Some(Argument {
        value: ValueRef::Label(data),
    })
}
