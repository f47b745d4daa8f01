//! The status of fixtures as a table on a terminal.

ghost use Rattle.std.specs.Prelude.{◌≡◌, ◌++◌, OnOk};
ghost use Rattle.std.specs.List.{flat_map};
ghost use Rattle.rdm_health.specs.StatusTable.{is_lamp_well, lamp_line, line, status_heading, status_line, waiting_line};

use crate::StatusEntry;
use crate::status_words::{put_lamp, put_message, put_severity, put_sub, put_waiting};
use rdm_frame::{Text, Uid};
use rdm_survey::{put_padded, put_place};
use std::alloc::{AllocError, Global};

/// What is known of one status message of a fixture.
#[derive(Debug, Drop, PartialEq, Eq)]
pub struct StatusRow {
    /// The fixture.
    pub uid: Uid,
    /// What it said.
    pub entry: StatusEntry,
    /// What its status ID means, if the fixture told that: STATUS_ID_DESCRIPTION (E1.20 section 10.3.3).
    pub description: Option<Text>,
}

/// Puts the heading of the table of status messages at the end of a text.
pub fn put_status_heading(text: &mut Vec<u8>) -> Result<(), AllocError>
    ensures { OnOk result (text.new.items ≡ text.old.items ++ status_heading) }
{
    text.extend_from_slice(b"UID           Sub  Severity         Message\n")
}

/// Puts a status message at the end of a text: a line, whose columns stand under those of the heading. The message is the text of its
/// status ID with the two values, by the standard or by the fixture, or the numbers.
pub fn put_status_row(alloc: Global, row: &StatusRow, text: &mut Vec<u8>) -> Result<(), AllocError>
    ensures { OnOk result (text.new.items ≡ text.old.items ++ status_line row.now) }
{
    let mut sub = Vec::new(alloc);
    put_sub(&mut sub, row.entry.sub)?;
    let mut severity = Vec::new(alloc);
    put_severity(&mut severity, row.entry.status_type)?;
    let mut message = Vec::new(alloc);
    put_message(&mut message, &row.description, &row.entry)?;
    put_line(
        alloc,
        text,
        row.uid,
        sub.as_slice(),
        severity.as_slice(),
        message.as_slice(),
    )
}

/// Puts each of these at the end of a text, in order.
pub fn put_status_rows(
    alloc: Global,
    rows: &[StatusRow],
    text: &mut Vec<u8>,
) -> Result<(), AllocError>
    ensures { OnOk result (text.new.items ≡ text.old.items ++ flat_map status_line rows.now) }
{
    for row in rows {
        put_status_row(alloc, row, text)?;
    }
    Ok(())
}

/// Puts a line at the end of a text that says how many messages wait in a fixture, by the message count of its replies (E1.20 section
/// 6.2.8), or nothing for 0.
pub fn put_waiting_row(
    alloc: Global,
    uid: Uid,
    count: u8,
    text: &mut Vec<u8>,
) -> Result<(), AllocError>
    ensures { OnOk result (text.new.items ≡ text.old.items ++ waiting_line uid count) }
{
    if count == 0 {
        return Ok(());
    }
    let mut message = Vec::new(alloc);
    put_waiting(&mut message, count)?;
    put_line(alloc, text, uid, b"-", b"-", message.as_slice())
}

/// Puts a line at the end of a text that says what is wrong with a lamp, by its LAMP_STATE (E1.20 section 10.8.4), or nothing if it is
/// well.
pub fn put_lamp_row(
    alloc: Global,
    uid: Uid,
    sub: u16,
    state: u8,
    text: &mut Vec<u8>,
) -> Result<(), AllocError>
    ensures { OnOk result (text.new.items ≡ text.old.items ++ lamp_line uid sub state) }
{
    if is_lamp_well(state) {
        return Ok(());
    }
    let mut device = Vec::new(alloc);
    put_sub(&mut device, sub)?;
    let mut message = Vec::new(alloc);
    put_lamp(&mut message, state)?;
    put_line(
        alloc,
        text,
        uid,
        device.as_slice(),
        b"-",
        message.as_slice(),
    )
}

/// Whether a lamp in this state is well: off, on, striking or on standby (E1.20 table A-8). It isn't if it isn't present, is faulty, or is
/// in a state that the standard doesn't know.
pub fn is_lamp_well(state: u8) -> bool
    ensures { result ≡ is_lamp_well state }
{
    state <= 3
}

/// A line of the table.
fn put_line(
    alloc: Global,
    text: &mut Vec<u8>,
    uid: Uid,
    sub: &[u8],
    severity: &[u8],
    message: &[u8],
) -> Result<(), AllocError>
    ensures { OnOk result (text.new.items ≡ text.old.items ++ line uid sub.now severity.now message.now) }
{
    let mut name = Vec::new(alloc);
    put_place(&mut name, uid, 0)?;
    put_padded(text, 13, name.as_slice())?;
    put_padded(text, 4, sub)?;
    put_padded(text, 16, severity)?;
    text.extend_from_slice(message)?;
    text.extend_from_slice(b"\n")
}
