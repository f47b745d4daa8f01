//! What is wrong with a file.

ghost use Rattle.std.specs.Prelude.{◌≡◌, ◌≤◌, length, take};
ghost use Rattle.rdm_settings.specs.Twice.{of_line};

use crate::data::Unsaid;
use rdm_frame::{Load, Uid};
use std::error::Error;

/// How many bytes of a word a complaint keeps.
const MOST_BYTES: usize = 255;

/// What is wrong with a file. Its text says it with the line, the name of the column and what stands in the cell:
/// `line 3, dmx_start_address: "513x" isn't valid data: expected 0 to 65535`.
#[derive(Debug, Drop, PartialEq, Eq)]
pub struct Complaint {
    /// The line of the file, from 1.
    pub line: usize,
    /// The name of the column, or its first 255 bytes; nothing if all of the line is meant.
    pub column: Load,
    /// What stands in the cell, or its first 255 bytes; nothing if no cell is meant.
    pub cell: Load,
    /// What is wrong there.
    pub trouble: Trouble,
}

impl Complaint {
    /// The same complaint again.
    pub fn copy(&self) -> Complaint
        ensures { result ≡ self.now }
    {
        Complaint {
            line: self.line,
            column: self.column.copy(),
            cell: self.cell.copy(),
            trouble: self.trouble,
        }
    }
}

impl Error for Complaint {}

/// What is wrong with a column, a line or a cell.
#[derive(Clone, Copy, Debug, PartialEq, Eq)]
pub enum Trouble {
    /// No column is named `uid`.
    NoUidColumn,
    /// A column before means the same.
    ColumnTwice,
    /// The column is no parameter.
    NoParameter,
    /// A parameter that the standards don't let anyone SET, as far as it is known here.
    NotSettable(u16),
    /// The line has an open quote, or a carriage return before its end: a cell can't have more than one line.
    Torn,
    /// The line has so many cells, and the first line another number: these two.
    Cells(usize, usize),
    /// The cell isn't a UID.
    NoUid,
    /// The UID means several devices (E1.20 section 6.2.4).
    Several,
    /// The cell isn't a sub-device: `root`, or 0 to 512 (section 9).
    NoSub,
    /// The cell isn't data of this parameter.
    NoData(u16, Unsaid),
    /// The same parameter of the same device is set in this line before, or in the same line in a cell before.
    SetTwice {
        /// The device.
        uid: Uid,
        /// Its sub-device, or 0 for the root.
        sub: u16,
        /// The parameter ID.
        pid: u16,
        /// The line that sets it before.
        before: usize,
    },
}

/// As much of a word as a complaint keeps.
pub(crate) fn kept(word: &[u8]) -> Load
    ensures { result ≡ take 255 word.now }
{
    Load::of(front(word))
}

/// The first 255 bytes of a word, or all of it.
fn front(word: &[u8]) -> &[u8]
    ensures front { result.now ≡ take 255 word.now }
    ensures within { length result.now ≤ 255 }
{
    if word.len() > MOST_BYTES {
        &word[..MOST_BYTES]
    } else {
        word
    }
}

/// What is wrong with a whole line.
pub(crate) fn of_line(line: usize, trouble: Trouble) -> Complaint
    ensures { result ≡ of_line line trouble }
{
    Complaint {
        line,
        column: Load::new(),
        cell: Load::new(),
        trouble,
    }
}
