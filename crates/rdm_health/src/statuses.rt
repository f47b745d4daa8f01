//! What STATUS_MESSAGES tells (E1.20 section 10.3.2).

ghost use Rattle.std.specs.Prelude.{◌≡◌, ◌≤◌, IfOk, length};
ghost use Rattle.std.specs.Option.{option_map};
ghost use Rattle.rdm_health.specs.Statuses.{first_entry, status_entries_in};

use std::alloc::{AllocError, Global};

/// How many slots an entry has.
const ENTRY_SLOTS: usize = 9;

/// An entry of a status message (E1.20 section 10.3.2).
#[derive(Clone, Copy, Debug, PartialEq, Eq)]
pub struct StatusEntry {
    /// The sub-device, or 0 for the root.
    pub sub: u16,
    /// How bad it is (table A-4).
    pub status_type: u8,
    /// What it is: the status ID (section 10.3.3 and table B-2).
    pub id: u16,
    /// The first value that the text names. As a number it has a sign.
    pub first: u16,
    /// The second value that the text names.
    pub second: u16,
}

/// The entries of the parameter data of a reply to STATUS_MESSAGES, in order, or `None` if the data aren't nine slots for each. Data in
/// parts are to be joined first (section 6.3.2). Fails only if memory is refused.
#[tactic(auto, using(crate::proofs::Entries::few_left))]
pub fn status_entries_in(
    alloc: Global,
    slots: &[u8],
) -> Result<Option<Vec<StatusEntry>>, AllocError>
    ensures { IfOk result (λ entries. option_map (λ list. list.items) entries ≡ status_entries_in slots.now) }
{
    let mut list = Vec::new(alloc);
    let mut rest = slots;
    while rest.len() >= ENTRY_SLOTS {
        list.push(first_entry(rest))?;
        rest = &rest[ENTRY_SLOTS..];
    }
    Ok(if rest.is_empty() { Some(list) } else { None })
}

/// The entry of the first nine slots.
fn first_entry(slots: &[u8]) -> StatusEntry
    requires { 9 ≤ length slots.now }
    ensures { result ≡ first_entry slots.now }
{
    StatusEntry {
        sub: u16::from_be_bytes([slots[0], slots[1]]),
        status_type: slots[2],
        id: u16::from_be_bytes([slots[3], slots[4]]),
        first: u16::from_be_bytes([slots[5], slots[6]]),
        second: u16::from_be_bytes([slots[7], slots[8]]),
    }
}
