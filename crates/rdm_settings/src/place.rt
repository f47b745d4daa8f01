//! The device that a line is for.

ghost use Rattle.std.specs.Prelude.{◌≡◌, map};
ghost use Rattle.std.specs.Option.{option_map};
ghost use Rattle.rdm_settings.specs.Places.{number_in, number_of, place_in, sub_said, uid_said, under};

use crate::cell::utf8_in;
use crate::column::{Column, Role, is_for};
use crate::complaint::Trouble;
use rdm_device::Width;
use rdm_entry::{Field, data_in};
use rdm_frame::Uid;
use rdm_frame::standard::MOST_SUB_DEVICES;

/// The device that a line is for, if its cells say one.
#[tactic(auto, unfolding(crate::specs::Places::place_in))]
pub(crate) fn place_in(columns: &[Column], cells: &[&[u8]]) -> Option<(Uid, u16)>
    ensures { result ≡ place_in columns.now (map (λ cell. cell.now) cells.now) }
{
    let uid = match uid_said(under(Role::Uid, columns, cells)?) {
        Ok(uid) => uid,
        Err(_) => return None,
    };
    match sub_said(under(Role::Sub, columns, cells).unwrap_or(&[])) {
        Ok(sub) => Some((uid, sub)),
        Err(_) => None,
    }
}

/// The cell of the first column that has what a role says.
fn under<'a>(role: Role, columns: &[Column], cells: &[&'a [u8]]) -> Option<&'a [u8]>
    ensures { option_map (λ cell. cell.now) result ≡ under role columns.now (map (λ cell. cell.now) cells.now) }
{
    let (mut rest, mut left) = (columns, cells);
    while let [column, more @ ..] = rest {
        let [cell, others @ ..] = left else {
            return None;
        };
        if is_for(role, column) {
            return Some(cell);
        }
        rest = more;
        left = others;
    }
    None
}

/// The one device whose UID a cell is.
pub(crate) fn uid_said(cell: &[u8]) -> Result<Uid, Trouble>
    ensures { result ≡ uid_said cell.now }
{
    match Uid::from_text(cell) {
        None => Err(Trouble::NoUid),
        Some(uid) if uid.is_broadcast() => Err(Trouble::Several),
        Some(uid) => Ok(uid),
    }
}

/// The sub-device that a cell says: the root, if it is empty.
#[tactic(auto, unfolding(crate::specs::Places::sub_said))]
pub(crate) fn sub_said(cell: &[u8]) -> Result<u16, Trouble>
    ensures { result ≡ sub_said cell.now }
{
    if cell.is_empty() || cell.eq_ignore_ascii_case(b"root") {
        return Ok(0);
    }
    match number_in(cell) {
        Some(sub) if sub <= MOST_SUB_DEVICES => Ok(sub),
        _ => Err(Trouble::NoSub),
    }
}

/// The number that a cell says, as the data of a command say one.
#[tactic(auto, unfolding(crate::specs::Places::number_in))]
fn number_in(cell: &[u8]) -> Option<u16>
    ensures { result ≡ number_in cell.now }
{
    match data_in(&[Field::Number(Width::Two)], &[utf8_in(cell)?]) {
        Ok(load) => number_of(load.as_slice()),
        Err(_) => None,
    }
}

/// The number that two slots say.
fn number_of(slots: &[u8]) -> Option<u16>
    ensures { result ≡ number_of slots.now }
{
    match slots {
        [high, low] => Some(u16::from_be_bytes([*high, *low])),
        _ => None,
    }
}
