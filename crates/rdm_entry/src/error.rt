//! Why words aren't the data of a command.

use crate::Field;
use rdm_device::Width;
use rdm_standard_names::Table;
use std::fmt;

/// What is wrong with a word.
#[derive(Clone, Copy, Debug, PartialEq, Eq)]
pub enum Wrong {
    /// It is missing.
    Missing,
    /// It is one too many.
    Surplus,
    /// It isn't a number, or a name of one.
    Number,
    /// It is one number in decimal digits, and another one in hexadecimal digits.
    Unclear,
    /// It is a number that the field can't say.
    Range,
    /// It isn't four hexadecimal digits.
    Identifier,
    /// It isn't a PIN.
    Pin,
    /// It isn't two letters.
    Language,
    /// It has a character that isn't printable ASCII.
    Unprintable,
    /// It has too many characters.
    Long,
    /// A frame has no room for its slots.
    NoRoom,
}

/// The first word that is wrong.
#[derive(Clone, Copy, Debug, PartialEq, Eq)]
pub struct EntryError {
    /// Its index, from 0.
    pub index: usize,
    /// What is wrong with it.
    pub wrong: Wrong,
}

/// A word that is wrong, as people are told of it. Its text is `"WORD" isn't valid ..: expected ..`.
#[derive(Clone, Copy)]
pub struct Complaint<'a> {
    /// The word, or nothing if it is missing.
    pub word: &'a str,
    /// The field that it is for, if there is one.
    pub field: Option<Field>,
    /// What is wrong with it.
    pub wrong: Wrong,
}

impl<'a> Complaint<'a> {
    /// What is told of this error, by the fields and the words in which it was found.
    pub fn of(error: EntryError, fields: &[Field], words: &[&'a str]) -> Complaint<'a> {
        Complaint {
            word: words.get(error.index).copied().unwrap_or(""),
            field: fields.get(error.index).copied(),
            wrong: error.wrong,
        }
    }
}

impl fmt::Display for Complaint<'_> {
    fn fmt<W: fmt::Write>(&self, f: &mut fmt::Formatter<W>) -> fmt::Result {
        if self.wrong == Wrong::Missing {
            f.write_str("a word is missing: expected ")?;
            return write_wanted(f, self.field);
        }
        f.write_str("\"")?;
        for byte in self.word.as_bytes() {
            write_shown(f, *byte)?;
        }
        f.write_str("\" ")?;
        match self.wrong {
            Wrong::Surplus => f.write_str("is one word too many"),
            Wrong::Unclear => write_readings(f, self.word),
            Wrong::NoRoom => f.write_str(
                "is too long: a frame can't carry more than 231 bytes of data",
            ),
            Wrong::Range => {
                f.write_str("is out of range: expected ")?;
                write_wanted(f, self.field)
            }
            _ => {
                f.write_str("isn't valid data: expected ")?;
                write_wanted(f, self.field)
            }
        }
    }
}

/// Writes a byte of a word: as it is if it is printable ASCII, else by its number.
fn write_shown<W: fmt::Write>(f: &mut fmt::Formatter<W>, byte: u8) -> fmt::Result {
    if (0x20..0x7F).contains(&byte) {
        f.write_char(char::from(byte))
    } else {
        write!(f, "\\x{byte:02X}")
    }
}

/// Writes both readings of a number with a zero in front.
fn write_readings<W: fmt::Write>(f: &mut fmt::Formatter<W>, word: &str) -> fmt::Result {
    let decimal = word.trim_start_matches('0');
    write!(f, "could be two numbers: is it {decimal} or 0x{word}?")
}

/// Writes what is wanted for a field.
fn write_wanted<W: fmt::Write>(f: &mut fmt::Formatter<W>, field: Option<Field>) -> fmt::Result {
    match field {
        Some(Field::Number(width)) => write_range(f, width, Table(&[])),
        Some(Field::Named(width, names)) => write_range(f, width, names),
        Some(Field::Signed(width)) => f.write_str(match width {
            Width::One => "-128 to 127",
            Width::Two => "-32768 to 32767",
            Width::Four => "-2147483648 to 2147483647",
        }),
        Some(Field::Identifier) => f.write_str("4 hexadecimal digits"),
        Some(Field::Pin) => f.write_str("a PIN from 0000 to 9999"),
        Some(Field::Text(most)) => write!(f, "at most {most} printable ASCII characters"),
        Some(Field::Language) => f.write_str("the two letters of a language, such as en"),
        None => f.write_str("no more words"),
    }
}

/// Writes which numbers a field can say, and the names of some.
fn write_range<W: fmt::Write>(
    f: &mut fmt::Formatter<W>,
    width: Width,
    names: Table,
) -> fmt::Result {
    f.write_str(match width {
        Width::One => "0 to 255",
        Width::Two => "0 to 65535",
        Width::Four => "0 to 4294967295",
    })?;
    for (place, row) in names.0.iter().enumerate() {
        let between = if place + 1 == names.0.len() {
            " or "
        } else {
            ", "
        };
        write!(f, "{between}{}", row.1)?;
    }
    Ok(())
}
