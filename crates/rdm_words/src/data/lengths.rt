//! How many slots data have.

use crate::data::form::{Form, Record};
use crate::data::lists::slots_of;
use std::alloc::AllocError;
use std::fmt::Write;

/// How many slots the data of a parameter have.
#[derive(Clone, Copy)]
enum Slots {
    /// Exactly this many.
    Exactly(usize),
    /// So many or more.
    AtLeast(usize),
    /// A multiple of this number.
    Each(usize),
    /// It isn't known.
    Unknown,
}

/// Says that data of a parameter haven't its length, if that is so.
pub(crate) fn put_wrong_length(
    text: &mut String,
    pid: u16,
    form: Form,
    data: &[u8],
) -> Result<(), AllocError> {
    if fits(form, data) {
        return Ok(());
    }
    put_counts(text, pid, slots_in(form), data.len())
}

/// Says how many slots data of a parameter have that aren't those of a record, and how many that has.
pub(crate) fn put_other_length(
    text: &mut String,
    pid: u16,
    record: Record,
    data: &[u8],
) -> Result<(), AllocError> {
    put_counts(text, pid, slots_of_record(record), data.len())
}

/// How many slots data that are laid out so have.
fn slots_in(form: Form) -> Slots {
    match form {
        Form::Nothing => Slots::Exactly(0),
        Form::Shown => Slots::Unknown,
        Form::Code(_) | Form::StatusType => Slots::Exactly(1),
        Form::Fields(record) | Form::InShort(record, _) | Form::OneOf(record, _, _) =>
            slots_of_record(record),
        Form::Languages => Slots::Each(2),
        Form::List(list) => Slots::Each(slots_of(list)),
    }
}

/// How many slots a record has.
fn slots_of_record(record: Record) -> Slots {
    match record {
        Record::Exactly(slots, _) => Slots::Exactly(slots),
        Record::AtLeast(slots, _) => Slots::AtLeast(slots),
    }
}

/// Whether data have the length of what they are laid out as.
fn fits(form: Form, data: &[u8]) -> bool {
    if let Form::OneOf(_, first, second) = form {
        if first.fits(data) || second.fits(data) {
            return true;
        }
    }
    let count = data.len();
    match slots_in(form) {
        Slots::Exactly(slots) => count == slots,
        Slots::AtLeast(slots) => slots <= count,
        Slots::Each(slots) => slots == 0 || count % slots == 0,
        Slots::Unknown => true,
    }
}

/// How many slots data have, and how many those of the parameter have.
fn put_counts(text: &mut String, pid: u16, slots: Slots, count: usize) -> Result<(), AllocError> {
    match count {
        0 => text.push_str("no data slots")?,
        1 => text.push_str("1 data slot")?,
        _ => write!(text, "{count} data slots")?,
    }
    write!(text, " where {pid:04X} has ")?;
    match slots {
        Slots::Exactly(0) | Slots::Unknown => text.push_str("none"),
        Slots::Exactly(slots) => write!(text, "{slots}"),
        Slots::AtLeast(slots) => write!(text, "{slots} or more"),
        Slots::Each(slots) => write!(text, "a multiple of {slots}"),
    }
}
