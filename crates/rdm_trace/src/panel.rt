//! What a line says of a change at the device's own menu.

ghost use Rattle.std.specs.Prelude.{◌≡◌};
ghost use Rattle.rdm_trace.specs.Reading.{panel_in, refused_in, change_in, label_in};

use crate::digits::body_in;
use crate::words::first_word;
use crate::{Line, numbers};
use rdm_params::{Change, Plate};

/// A change, and whether it is rejected.
#[tactic(auto, unfolding(crate::specs::Reading::panel_in))]
pub(crate) fn panel_in(words: &[u8]) -> Option<Line>
    ensures { result ≡ panel_in words.now }
{
    let (name, rest) = first_word(words);
    let (value, rest) = first_word(rest);
    let refused = refused_in(rest)?;
    Some(Line::Panel {
        change: change_in(name, value)?,
        refused,
    })
}

/// Whether a change is rejected.
fn refused_in(words: &[u8]) -> Option<bool>
    ensures { result ≡ refused_in words.now }
{
    if words.is_empty() {
        Some(false)
    } else if words == b"refused".as_slice() {
        Some(true)
    } else {
        None
    }
}

/// A change: what is changed, and to which value.
#[tactic(auto, unfolding(crate::specs::Reading::change_in))]
fn change_in(name: &[u8], value: &[u8]) -> Option<Change>
    ensures { result ≡ change_in name.now value.now }
{
    if name == b"start".as_slice() {
        Some(Change::Start(numbers::word_in(value)?))
    } else if name == b"personality".as_slice() {
        Some(Change::Personality(numbers::byte_in(value)?))
    } else if name == b"label".as_slice() {
        label_in(value)
    } else {
        None
    }
}

/// A label: at most 32 bytes.
#[tactic(auto, unfolding(crate::specs::Reading::label_in))]
fn label_in(value: &[u8]) -> Option<Change>
    ensures { result ≡ label_in value.now }
{
    let text = body_in(value)?;
    Some(Change::Label(Plate::new(text.as_slice())?))
}
