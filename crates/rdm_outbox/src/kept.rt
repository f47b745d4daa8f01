//! Status entries as they are kept.

ghost use Rattle.std.specs.Prelude.{◌≡◌, ◌<◌, [], ◌∷◌, ◌++◌, length};
ghost use Rattle.std.specs.Vec.{vec_capacity};

use rdm_params::{Entry, Severity};
use std::marker::Model;

/// A status entry as it is kept. A contract sees the entry.
// In nine bytes: with numbers of two bytes there would be a gap after the severity.
#[derive(Debug, Drop)]
pub(crate) struct KeptEntry {
    sub: [u8; 2],
    severity: Severity,
    id: [u8; 2],
    v1: [u8; 2],
    v2: [u8; 2],
}

impl Model for KeptEntry {
    ghost use Rattle.std.specs.Int.{w16, from_be_bytes};
    ghost use Rattle.rdm_frame.specs.declared.status.Entry.{Entry as TheEntry};

    ghost Value = { TheEntry };

    ghost view = { λ k. record { sub = from_be_bytes w16 k.sub; severity = k.severity; id = from_be_bytes w16 k.id; v1 = from_be_bytes w16 k.v1; v2 = from_be_bytes w16 k.v2 } };
}

impl KeptEntry {
    /// The entry, to be kept.
    #[inline(always)]
    #[tactic(auto, using(crate::proofs::KeptNumbers::number_again))]
    pub(crate) fn of(entry: Entry) -> KeptEntry
        ensures { result ≡ entry }
    {
        KeptEntry {
            sub: entry.sub.to_be_bytes(),
            severity: entry.severity,
            id: entry.id.to_be_bytes(),
            v1: entry.v1.to_be_bytes(),
            v2: entry.v2.to_be_bytes(),
        }
    }

    /// The entry that is kept.
    #[inline(always)]
    pub(crate) fn entry(&self) -> Entry
        ensures { result ≡ self.now }
    {
        Entry {
            sub: u16::from_be_bytes(self.sub),
            severity: self.severity,
            id: u16::from_be_bytes(self.id),
            v1: u16::from_be_bytes(self.v1),
            v2: u16::from_be_bytes(self.v2),
        }
    }
}

/// Keeps one more entry, after those that there are. There must be room.
#[inline(always)]
pub(crate) fn keep(entries: &mut Vec<KeptEntry>, entry: Entry)
    requires { length entries.old.items < vec_capacity entries.old }
    ensures items { entries.new.items ≡ entries.old.items ++ entry ∷ [] }
    ensures capacity { vec_capacity entries.new ≡ vec_capacity entries.old }
{
    entries.push_reserved(KeptEntry::of(entry));
}
