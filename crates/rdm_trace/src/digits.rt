//! Bytes in hexadecimal digits.

ghost use Rattle.std.specs.Prelude.{◌≡◌};
ghost use Rattle.rdm_trace.specs.Reading.{wire_in, code_in, body_in};

use rdm_frame::digits::bytes_in;
use rdm_frame::standard::{MOST_DATA, MOST_SLOTS};
use rdm_frame::{Body, Wire};

/// The bytes of a frame, two digits each of either case, with spaces or tabs between the bytes or without.
#[tactic(auto, unfolding(crate::specs::Reading::wire_in, crate::specs::Reading::code_in))]
pub fn wire_in(text: &[u8]) -> Option<Wire>
    ensures { result ≡ wire_in text.now }
{
    let mut bytes = Wire::new();
    let mut rest = text;
    while let [first, more @ ..] = rest {
        if *first == b' ' || *first == b'\t' {
            rest = more;
            continue;
        }
        let [high, low, after @ ..] = rest else {
            return None;
        };
        if bytes.as_slice().len() == MOST_SLOTS {
            return None;
        }
        bytes.append(&[code_in(&[*high, *low])?]);
        rest = after;
    }
    if bytes.as_slice().is_empty() {
        return None;
    }
    Some(bytes)
}

/// The byte that two digits spell.
#[tactic(auto, unfolding(crate::specs::Reading::code_in))]
pub(crate) fn code_in(digits: &[u8]) -> Option<u8>
    ensures { result ≡ code_in digits.now }
{
    if digits.len() != 2 {
        return None;
    }
    match bytes_in(digits)?.as_slice() {
        [byte] => Some(*byte),
        _ => None,
    }
}

/// The parameter data that a word spells: a hyphen if there are none.
#[tactic(auto, unfolding(crate::specs::Reading::body_in))]
pub(crate) fn body_in(word: &[u8]) -> Option<Body>
    ensures { result ≡ body_in word.now }
{
    if word == b"-".as_slice() {
        return Some(Body::new());
    }
    if word.len() > 2 * MOST_DATA {
        return None;
    }
    let bytes = bytes_in(word)?;
    Body::from_slice(bytes.as_slice())
}
