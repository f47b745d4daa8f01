//! What is wrong with a file, in words.

use crate::complaint::{Complaint, Trouble};
use crate::data::Unsaid;
use rdm_entry::{EntryError, Field, Wrong, fields_of, nearest_parameter};
use rdm_frame::{Load, Uid};
use rdm_params::{Verb, parameter_name};
use std::{fmt, str};

impl fmt::Display for Complaint {
    fn fmt<W: fmt::Write>(&self, f: &mut fmt::Formatter<W>) -> fmt::Result {
        let line = self.line;
        write!(f, "line {line}")?;
        if !self.column.as_slice().is_empty() {
            f.write_str(", ")?;
            write_shown(f, self.column.as_slice())?;
        }
        f.write_str(": ")?;
        match self.trouble {
            Trouble::NoUidColumn | Trouble::ColumnTwice | Trouble::NoParameter => {
                write_column(f, self)
            }
            Trouble::NotSettable(pid) => {
                write_parameter(f, pid)?;
                f.write_str(" can't be set")
            }
            Trouble::Torn | Trouble::Cells(_, _) => write_line(f, self.trouble),
            Trouble::NoUid | Trouble::Several | Trouble::NoSub => write_place(f, self),
            Trouble::NoData(pid, unsaid) => write_no_data(f, self, pid, unsaid),
            Trouble::SetTwice {
                uid,
                sub,
                pid,
                before,
            } => write_twice(f, uid, sub, pid, before),
        }
    }
}

/// Writes what is wrong with a column.
fn write_column<W: fmt::Write>(f: &mut fmt::Formatter<W>, complaint: &Complaint) -> fmt::Result {
    match complaint.trouble {
        Trouble::NoUidColumn => f.write_str("there is no column uid"),
        Trouble::ColumnTwice => f.write_str("an earlier column has the same meaning"),
        _ => {
            f.write_str("this isn't a parameter")?;
            match nearest(&complaint.column) {
                Some(name) => write!(f, ": is it {name}?"),
                None => f.write_str(
                    ": expected uid, sub, 4 hexadecimal digits, or a name in E1.20 such as DMX_START_ADDRESS",
                ),
            }
        }
    }
}

/// The only parameter whose name has this word in it.
fn nearest(word: &Load) -> Option<&'static str> {
    match str::from_utf8(word.as_slice()) {
        Ok(word) => nearest_parameter(word),
        Err(_) => None,
    }
}

/// Writes what is wrong with a line.
fn write_line<W: fmt::Write>(f: &mut fmt::Formatter<W>, trouble: Trouble) -> fmt::Result {
    match trouble {
        Trouble::Cells(1, wanted) => {
            write!(f, "this line has 1 cell, but the first line has {wanted}")
        }
        Trouble::Cells(found, wanted) => {
            write!(
                f,
                "this line has {found} cells, but the first line has {wanted}"
            )
        }
        _ => f.write_str("this line has an unclosed quote, or ends with a carriage return only"),
    }
}

/// Writes what is wrong with a cell of the fixtures or of their sub-devices.
fn write_place<W: fmt::Write>(f: &mut fmt::Formatter<W>, complaint: &Complaint) -> fmt::Result {
    write_cell(f, complaint)?;
    f.write_str(match complaint.trouble {
        Trouble::NoUid => " isn't a UID: expected 4 hexadecimal digits, a colon and 8 more",
        Trouble::Several => " isn't a single device",
        _ => " isn't a sub-device: expected root, or 0 to 512",
    })
}

/// Writes why a cell isn't data of a parameter.
fn write_no_data<W: fmt::Write>(
    f: &mut fmt::Formatter<W>,
    complaint: &Complaint,
    pid: u16,
    unsaid: Unsaid,
) -> fmt::Result {
    if let Unsaid::Field(error) = unsaid {
        return write_wrong(f, complaint, pid, error);
    }
    write_cell(f, complaint)?;
    f.write_str(match unsaid {
        Unsaid::TooLong => " is too long: a frame can't carry more than 231 bytes of data",
        Unsaid::NoText => " isn't text in UTF-8",
        _ =>
            " isn't valid data: expected two hexadecimal digits for each byte, since nobody describes this parameter here",
    })
}

/// Writes which word of a cell is wrong, and what is wanted.
fn write_wrong<W: fmt::Write>(
    f: &mut fmt::Formatter<W>,
    complaint: &Complaint,
    pid: u16,
    error: EntryError,
) -> fmt::Result {
    let word = if error.wrong == Wrong::Unprintable || error.wrong == Wrong::Long {
        complaint.cell.as_slice()
    } else {
        word_at(complaint.cell.as_slice(), error.index)
    };
    let told = rdm_entry::Complaint {
        word: str::from_utf8(word).unwrap_or(""),
        field: field_at(pid, error.index),
        wrong: error.wrong,
    };
    write!(f, "{told}")
}

/// The word of a cell with this index, or nothing if there is none.
fn word_at(cell: &[u8], index: usize) -> &[u8] {
    cell.split(|b| *b == b' ' || *b == b'\t')
        .filter(|word| !word.is_empty())
        .nth(index)
        .unwrap_or(&[])
}

/// The field with this index of the data of a SET.
fn field_at(pid: u16, index: usize) -> Option<Field> {
    fields_of(pid, Verb::Set)?.get(index).copied()
}

/// Writes which setting stands twice.
fn write_twice<W: fmt::Write>(
    f: &mut fmt::Formatter<W>,
    uid: Uid,
    sub: u16,
    pid: u16,
    before: usize,
) -> fmt::Result {
    write_parameter(f, pid)?;
    write!(f, " of {uid}")?;
    if sub != 0 {
        write!(f, "/{sub}")?;
    }
    write!(f, " is already set in line {before}")
}

/// Writes a parameter by its name, or by its PID.
fn write_parameter<W: fmt::Write>(f: &mut fmt::Formatter<W>, pid: u16) -> fmt::Result {
    match parameter_name(pid) {
        Some(name) => f.write_str(name),
        None => write!(f, "{pid:04X}"),
    }
}

/// Writes what stands in a cell.
fn write_cell<W: fmt::Write>(f: &mut fmt::Formatter<W>, complaint: &Complaint) -> fmt::Result {
    f.write_str("\"")?;
    write_shown(f, complaint.cell.as_slice())?;
    f.write_str("\"")
}

/// Writes bytes: each as it is if it is printable ASCII, else by its number.
fn write_shown<W: fmt::Write>(f: &mut fmt::Formatter<W>, bytes: &[u8]) -> fmt::Result {
    for byte in bytes {
        if (0x20..0x7F).contains(byte) {
            f.write_char(char::from(*byte))?;
        } else {
            write!(f, "\\x{byte:02X}")?;
        }
    }
    Ok(())
}
