//! Words of a document.

ghost use Rattle.std.specs.Prelude.{◌≡◌, ◌∷◌, ◌++◌, decimal, map, OnOk};
ghost use Rattle.std.specs.List.{flat_map};
ghost use Rattle.rdm_frame.specs.Digits.{digits};
ghost use Rattle.rdm_survey.specs.Csv.{joined, plain};
ghost use Rattle.rdm_survey.specs.Members.{partner_word, told};
ghost use Rattle.rdm_survey.specs.Shown.{shown, shown_byte};

use crate::member::Cell;
use crate::partner::{Partner, put_partner, put_uid};
use itoa::Buffer;
use rdm_frame::digits::put_digits;
use std::alloc::AllocError;

/// What stands under a key, in one word.
#[tactic(auto, unfolding(crate::specs::Members::id_word, crate::specs::Members::long_id_word))]
pub(crate) fn put_cell(text: &mut Vec<u8>, cell: Cell<'_>) -> Result<(), AllocError>
    ensures { OnOk result (text.new.items ≡ text.old.items ++ plain (told cell.entry)) }
{
    match cell {
        Cell::Nothing => Ok(()),
        Cell::Number(number) => put_number(text, number),
        Cell::Id(id) => put_id(text, &id.to_be_bytes()),
        Cell::LongId(id) => put_id(text, &id.to_be_bytes()),
        Cell::Name(uid) => put_uid(text, uid),
        Cell::Text(words) => put_shown(text, words),
        Cell::Others(others) => put_others(text, others),
    }
}

/// A number in decimal digits.
pub(crate) fn put_number(text: &mut Vec<u8>, number: u32) -> Result<(), AllocError>
    ensures { OnOk result (text.new.items ≡ text.old.items ++ decimal number) }
{
    text.extend_from_slice(Buffer::new().format(number).as_bytes())
}

/// `0x` and the digits of the bytes of an ID.
fn put_id(text: &mut Vec<u8>, bytes: &[u8]) -> Result<(), AllocError>
    ensures { OnOk result (text.new.items ≡ text.old.items ++ (0x30 ∷ 0x78 ∷ digits bytes.now)) }
{
    text.extend_from_slice(b"0x")?;
    put_digits(text, bytes)
}

/// Puts a text of a fixture at the end of a text: printable ASCII as it is, but for a backslash, which stands twice, and another byte as
/// `\x` and its digits.
pub fn put_shown(text: &mut Vec<u8>, words: &[u8]) -> Result<(), AllocError>
    ensures { OnOk result (text.new.items ≡ text.old.items ++ shown words.now) }
{
    for byte in words {
        put_shown_byte(text, *byte)?;
    }
    Ok(())
}

#[tactic(auto, unfolding(crate::specs::Shown::shown_byte))]
fn put_shown_byte(text: &mut Vec<u8>, byte: u8) -> Result<(), AllocError>
    ensures { OnOk result (text.new.items ≡ text.old.items ++ shown_byte byte) }
{
    if byte == b'\\' {
        text.extend_from_slice(b"\\\\")
    } else if 0x20 <= byte && byte <= 0x7E {
        text.extend_from_slice(&[byte])
    } else {
        text.extend_from_slice(b"\\x")?;
        put_digits(text, &[byte])
    }
}

/// What a fixture clashes with, with `; ` between.
fn put_others(text: &mut Vec<u8>, others: &[Partner]) -> Result<(), AllocError>
    ensures { OnOk result (text.new.items ≡ text.old.items ++ joined (map partner_word others.now)) }
{
    let [first, more @ ..] = others else {
        return Ok(());
    };
    put_partner(text, *first)?;
    put_more_others(text, more)
}

/// Those behind the first.
fn put_more_others(text: &mut Vec<u8>, others: &[Partner]) -> Result<(), AllocError>
    ensures { OnOk result (text.new.items ≡ text.old.items ++ flat_map (λ v. 0x3B ∷ 0x20 ∷ v) (map partner_word others.now)) }
{
    for other in others {
        text.extend_from_slice(b"; ")?;
        put_partner(text, *other)?;
    }
    Ok(())
}
