//! What a fixture's text becomes in a file.

ghost use Rattle.std.specs.Prelude.{◌≡◌, ◌<◌, ◌≤◌, IfSome, drop, length, map, position, take};
ghost use Rattle.std.specs.List.{list_all};
ghost use Rattle.rdm_describe.specs.Texts as spec;

use rdm_frame::Text;
use rdm_frame::standard::MOST_TEXT;

/// Whether a character can stand in a file.
fn is_printable(character: u8) -> bool
    ensures { result ≡ spec.is_printable character }
{
    0x20 <= character && character <= 0x7E
}

/// What a character is in a file.
pub(crate) fn printed(character: u8) -> u8
    ensures { result ≡ spec.printed character }
{
    if is_printable(character) {
        character
    } else {
        b'?'
    }
}

/// The characters of a text that a device may have padded with NULs.
fn characters_of(slots: &[u8]) -> &[u8]
    ensures { result.now ≡ spec.characters_of slots.now }
{
    match nul_in(slots) {
        Some(end) => &slots[..end],
        None => slots,
    }
}

/// Where the first NUL of a text is.
fn nul_in(slots: &[u8]) -> Option<usize>
    ensures end { result ≡ position spec.is_nul slots.now }
    ensures within { IfSome result (λ end. end < length slots.now) }
{
    slots.iter().position(|slot| *slot == 0)
}

/// The first 32 slots.
pub(crate) fn first_slots(slots: &[u8]) -> &[u8]
    ensures value { result.now ≡ take 32 slots.now }
    ensures few { length result.now ≤ 32 }
{
    if slots.len() <= MOST_TEXT {
        slots
    } else {
        &slots[..MOST_TEXT]
    }
}

/// The first 32 characters of a text, as they can stand in a file.
pub(crate) fn text_of(slots: &[u8]) -> Text
    ensures { result ≡ spec.text_of slots.now }
{
    all_printed(first_slots(characters_of(slots)))
}

/// These characters, as they can stand in a file.
fn all_printed(characters: &[u8]) -> Text
    requires { length characters.now ≤ 32 }
    ensures { result ≡ map spec.printed characters.now }
{
    let mut text = Text::new();
    for character in characters {
        text.append(&[printed(*character)]);
    }
    text
}

/// Whether all of a text can stand in a file.
fn are_printable(characters: &[u8]) -> bool
    ensures { result ≡ list_all spec.is_printable characters.now }
{
    characters.iter().all(|character| is_printable(*character))
}

/// Whether these are others in the file.
fn are_others(characters: &[u8]) -> bool
    ensures { result ≡ spec.are_others characters.now }
{
    characters.len() > MOST_TEXT || !are_printable(characters)
}

/// Whether NULs alone stand there.
fn are_nuls(slots: &[u8]) -> bool
    ensures { result ≡ list_all spec.is_nul slots.now }
{
    slots.iter().all(|slot| *slot == 0)
}

/// Whether the text in the file is another than what the fixture told, which may end with NULs.
pub(crate) fn is_altered(slots: &[u8]) -> bool
    ensures { result ≡ spec.is_altered slots.now }
{
    let characters = characters_of(slots);
    are_others(characters) || !are_nuls(behind(slots, characters.len()))
}

/// What is behind so many slots.
#[tactic(auto, using(crate::proofs::Lists::rest_of, crate::proofs::Lists::none_behind))]
pub(crate) fn behind(slots: &[u8], count: usize) -> &[u8]
    ensures { result.now ≡ drop count slots.now }
{
    if slots.len() <= count {
        return &[];
    }
    &slots[count..]
}
