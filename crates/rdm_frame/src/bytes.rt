//! Lists of bytes of a bounded length, which lie in the value itself.

ghost use Rattle.std.specs.Prelude.{◌≡◌, ◌+◌, ◌≤◌, ◌↔◌, ℕ, List, [], ◌++◌, length, IsSome, IfSome};

use crate::standard::{MOST_DATA, MOST_SLOTS, MOST_TEXT};
use arrayvec::ArrayVec;
use std::marker::Model;

/// At most `N` bytes. A contract sees the list of them.
#[derive(Debug, Drop, PartialEq, Eq)]
pub struct Bytes<const N: usize> {
    items: ArrayVec<u8, N>,
}

impl<const N: usize> Model for Bytes<N> {
    ghost Value = { List ℕ };

    ghost view = { λ b. b.items.items };

    ghost inverse = { λ xs. record { items = record { items = xs } } };
}

/// The parameter data of a frame: at most 231 slots (E1.20 section 6.2.10).
pub type Body = Bytes<MOST_DATA>;

/// The bytes of a frame on the bus: at most 24 slots of header, 231 of parameter data and 2 of checksum.
pub type Wire = Bytes<MOST_SLOTS>;

/// Parameter data that a command asks to send. It may be longer than a frame can carry: then the sender
/// rejects it.
pub type Load = Bytes<255>;

/// A text of the device, such as its label: at most 32 bytes, of any value.
pub type Text = Bytes<MOST_TEXT>;

impl<const N: usize> Bytes<N> {
    /// No bytes.
    pub fn new() -> Self
        ensures { result ≡ [] }
    {
        Bytes {
            items: ArrayVec::new(),
        }
    }

    /// These bytes, of which there are at most `N`: for the texts of a profile, which are known beforehand.
    pub fn of(bytes: &[u8]) -> Self
        requires { length bytes.now ≤ N }
        ensures { result ≡ bytes.now }
    {
        let mut list = Bytes::new();
        list.append(bytes);
        list
    }

    /// These bytes, or `None` if there are more than `N`.
    pub fn from_slice(bytes: &[u8]) -> Option<Self>
        ensures fits { IsSome result ↔ (length bytes.now ≤ N) }
        ensures value { IfSome result (λ b. b ≡ bytes.now) }
    {
        let mut items = ArrayVec::new();
        items.try_extend_from_slice(bytes).ok()?;
        Some(Bytes { items })
    }

    /// The bytes.
    pub fn as_slice(&self) -> &[u8]
        ensures value { result.now ≡ self.now }
        ensures fits { length result.now ≤ N }
    {
        self.items.as_slice()
    }

    /// The same bytes again.
    pub fn copy(&self) -> Self
        ensures { result ≡ self.now }
    {
        let mut twin = Bytes::new();
        twin.append(self.as_slice());
        twin
    }

    /// Takes all bytes away.
    // One byte or two, as most replies have, go without a call, and more by a new list: that blanks them all at once.
    pub fn clear(&mut self)
        ensures { self.new ≡ [] }
    {
        match self.items.len() {
            0 => {}
            1 => {
                let _ = self.items.pop();
            }
            2 => {
                let _ = self.items.pop();
                let _ = self.items.pop();
            }
            _ => self.items = ArrayVec::new(),
        }
    }

    /// Puts these bytes at the end. There must be room.
    pub fn append(&mut self, bytes: &[u8])
        requires { length self.old + length bytes.now ≤ N }
        ensures { self.new ≡ self.old ++ bytes.now }
    {
        let _ = self.items.try_extend_from_slice(bytes);
    }
}
