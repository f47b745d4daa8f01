//! The words of parameter data that are a list.

ghost use Rattle.std.specs.Prelude.{◌≡◌, ◌<◌, ℕ, List as ListOf, [], OnOk, drop, take, string_bytes};
ghost use Rattle.rdm_words.specs.LaidOut.{entry_facts, entry_slots, laid_facts, list_facts};
ghost use Rattle.rdm_words.specs.Naming.{AddsNames, PutsFacts};

use crate::data::form::{List, Record};
use crate::data::known::Facts;
use crate::data::records::{SLOT_DEFAULT, SLOT_INFO, STATUS, SUPPORTED};
use crate::data::values::put_record;
use std::alloc::AllocError;
use std::fmt::Write;

/// The entries of a list, each on a line of its own. Of one that is cut off, the data are shown.
pub(crate) fn put_entries(
    text: &mut String,
    list: List,
    data: &[u8],
    known: &Facts<'_>,
) -> Result<(), AllocError>
    ensures { OnOk result (PutsFacts (list_facts list data.now) (string_bytes text.old) (string_bytes text.new)) }
{
    if data.is_empty() {
        return put_no_entries(text, list, data);
    }
    let (entry, rest) = first_entry(data, slots_of(list));
    put_record(text, "", record_of(list), entry, known)?;
    put_more_entries(text, list, rest, known)
}

/// That a list has no entries.
fn put_no_entries(text: &mut String, list: List, data: &[u8]) -> Result<(), AllocError>
    ensures { OnOk result (PutsFacts [] (string_bytes text.old) (string_bytes text.new)) }
{
    let mut words = String::new(*text.allocator());
    put_count_of(&mut words, list, data)?;
    text.push_str(words.as_str())
}

/// The first entry of so many slots, and what follows it.
pub(crate) fn first_entry(data: &[u8], slots: usize) -> (&[u8], &[u8])
    ensures entry { result.0.now ≡ take slots data.now }
    ensures rest { result.1.now ≡ drop slots data.now }
{
    match data.split_at_checked(slots) {
        Some(parts) => parts,
        None => (data, &[]),
    }
}

/// The other entries, each on a line of its own.
fn put_more_entries(
    text: &mut String,
    list: List,
    data: &[u8],
    known: &Facts<'_>,
) -> Result<(), AllocError>
    ensures { OnOk result (AddsNames (list_facts list data.now) (string_bytes text.old) (string_bytes text.new)) }
{
    let mut rest = data;
    while !rest.is_empty() {
        let (entry, more) = first_entry(rest, slots_of(list));
        put_next_entry(text, list, entry, known)?;
        rest = more;
    }
    Ok(())
}

/// An entry on a line of its own.
fn put_next_entry(
    text: &mut String,
    list: List,
    entry: &[u8],
    known: &Facts<'_>,
) -> Result<(), AllocError>
    ensures { OnOk result (AddsNames (entry_facts list entry.now) (string_bytes text.old) (string_bytes text.new)) }
{
    text.push_str("\n  ")?;
    put_record(text, "", record_of(list), entry, known)
}

/// How many entries a list has.
pub(crate) fn put_count_of(text: &mut String, list: List, data: &[u8]) -> Result<(), AllocError> {
    let count = data.len() / slots_of(list);
    let (one, many) = names_of(list);
    match count {
        0 => write!(text, "no {many}"),
        1 => write!(text, "1 {one}"),
        _ => write!(text, "{count} {many}"),
    }
}

/// How many slots an entry has.
pub(crate) fn slots_of(list: List) -> usize
    ensures slots { result ≡ entry_slots list }
    ensures some { 0 < result }
{
    match list {
        List::Parameters => 2,
        List::Statuses => 9,
        List::Slots => 5,
        List::SlotDefaults => 3,
    }
}

/// What one entry is called, and what several are.
fn names_of(list: List) -> (&'static str, &'static str) {
    match list {
        List::Parameters => ("parameter", "parameters"),
        List::Statuses => ("status message", "status messages"),
        List::Slots => ("slot", "slots"),
        List::SlotDefaults => ("default value", "default values"),
    }
}

/// What an entry has for fields.
fn record_of(list: List) -> Record
    ensures { (d : ListOf ℕ) → laid_facts result d ≡ entry_facts list d }
{
    match list {
        List::Parameters => SUPPORTED,
        List::Statuses => STATUS,
        List::Slots => SLOT_INFO,
        List::SlotDefaults => SLOT_DEFAULT,
    }
}
