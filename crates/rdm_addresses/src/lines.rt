//! A proposal as a table.

ghost use Rattle.std.specs.Prelude.{◌≡◌, ◌++◌, decimal, replicate, OnOk};
ghost use Rattle.rdm_addresses.specs.Lines.{assignment_line, heading_line, padded, slots_words, sub_words};
ghost use Rattle.rdm_survey.specs.Members.{uid_word};

use crate::Assignment;
use itoa::Buffer;
use rdm_frame::Uid;
use std::alloc::{AllocError, Global};

/// Puts the heading of the table at the end of a text: a line with the names of the columns.
#[tactic(auto, unfolding(crate::specs::Lines::heading_line))]
pub fn put_heading(text: &mut Vec<u8>) -> Result<(), AllocError>
    ensures { OnOk result (text.new.items ≡ text.old.items ++ heading_line) }
{
    text.extend_from_slice(b"UID           Sub   Slots   Was\n")
}

/// Puts an assignment at the end of a text, as a line whose columns stand under those of the heading: the UID, `root` or the number of the
/// sub-device, the slots that it is to take, as `5-9`, and those that it takes.
pub fn put_assignment(
    alloc: Global,
    assignment: &Assignment,
    text: &mut Vec<u8>,
) -> Result<(), AllocError>
    ensures { OnOk result (text.new.items ≡ text.old.items ++ assignment_line assignment.now) }
{
    let Assignment {
        uid,
        sub,
        was,
        address,
        footprint,
    } = *assignment;
    put_uid(text, uid)?;
    put_sub(text, sub)?;
    let mut slots = Vec::new(alloc);
    put_slots(&mut slots, address, footprint)?;
    put_padded(text, 7, slots.as_slice())?;
    put_slots(text, was, footprint)?;
    text.extend_from_slice(b"\n")
}

/// The UID in its column.
#[tactic(auto, unfolding(rdm_survey::specs::Members::uid_word))]
fn put_uid(text: &mut Vec<u8>, uid: Uid) -> Result<(), AllocError>
    ensures { OnOk result (text.new.items ≡ text.old.items ++ padded 13 (uid_word uid)) }
{
    put_padded(text, 13, &uid.text())
}

/// `root` or the number of a sub-device, in its column.
fn put_sub(text: &mut Vec<u8>, sub: u16) -> Result<(), AllocError>
    ensures { OnOk result (text.new.items ≡ text.old.items ++ padded 5 (sub_words sub)) }
{
    if sub == 0 {
        return put_padded(text, 5, b"root");
    }
    put_padded(text, 5, Buffer::new().format(sub).as_bytes())
}

/// The slots from a start address on, as `5-9`, or `5` if there is one.
fn put_slots(text: &mut Vec<u8>, first: u16, footprint: u16) -> Result<(), AllocError>
    ensures { OnOk result (text.new.items ≡ text.old.items ++ slots_words first footprint) }
{
    let first = u32::from(first);
    put_number(text, first)?;
    if footprint > 1 {
        text.extend_from_slice(b"-")?;
        put_number(text, first + u32::from(footprint) - 1)?;
    }
    Ok(())
}

/// A number in decimal digits.
fn put_number(text: &mut Vec<u8>, number: u32) -> Result<(), AllocError>
    ensures { OnOk result (text.new.items ≡ text.old.items ++ decimal number) }
{
    text.extend_from_slice(Buffer::new().format(number).as_bytes())
}

/// Words in at least so many characters, and a space.
fn put_padded(text: &mut Vec<u8>, width: usize, words: &[u8]) -> Result<(), AllocError>
    ensures { OnOk result (text.new.items ≡ text.old.items ++ padded width words.now) }
{
    text.extend_from_slice(words)?;
    put_spaces(text, width.saturating_sub(words.len()))?;
    text.extend_from_slice(b" ")
}

/// So many spaces.
fn put_spaces(text: &mut Vec<u8>, count: usize) -> Result<(), AllocError>
    ensures { OnOk result (text.new.items ≡ text.old.items ++ replicate count 0x20) }
{
    for i in 0..count {
        text.extend_from_slice(b" ")?;
    }
    Ok(())
}
