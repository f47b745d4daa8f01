//! A message as far as it came.

ghost use Rattle.std.specs.Prelude.{◌≡◌, ◌≤◌, ◌+◌, ◌++◌, [], ◌∷◌, length, vec_len, vec_capacity, OnOk};
ghost use Rattle.rdm_console.specs.Mailboxes.{draft_of, end_in, post_in};
ghost use Rattle.rdm_console.specs.Sorting.{draft_in, draft_with, end_before};

use crate::sameness::{is_part, is_repeat};
use crate::{Letter, MessageView};
use rdm_collector::{Collected, MOST_DATA, Response};
use std::alloc::{AllocError, Global};

/// The end of a message: what it says but for its data.
#[derive(Clone, Copy, Debug)]
pub(crate) struct End {
    pub(crate) response: Response,
    pub(crate) class: u8,
    pub(crate) sub: u16,
    pub(crate) pid: u16,
    /// Whether it was asked for again.
    pub(crate) again: bool,
}

/// A message as far as it came.
#[derive(Debug, Drop)]
pub(crate) struct Parcel {
    /// Its end, if that came.
    pub(crate) end: Option<End>,
    /// The data of its parts, one behind the other.
    pub(crate) body: Vec<u8>,
    /// Whether each poll for its parts was answered.
    pub(crate) is_sure: bool,
    /// Whether it comes in parts.
    pub(crate) in_parts: bool,
}

impl Parcel {
    /// One of which nothing came.
    pub(crate) fn new(alloc: Global) -> Parcel
        ensures { draft_in result ≡ draft_of [] }
    {
        Parcel {
            end: None,
            body: Vec::new(alloc),
            is_sure: true,
            in_parts: false,
        }
    }

    /// Takes room for one more part.
    pub(crate) fn reserve(&mut self) -> Result<(), AllocError>
        ensures same { draft_in self.new ≡ draft_in self.old }
        ensures room { OnOk result (vec_len self.new.body + 231 ≤ vec_capacity self.new.body) }
    {
        self.body.reserve(MOST_DATA)
    }

    /// The message that this begins.
    pub(crate) fn begin(&mut self, item: &Collected)
        requires { 231 ≤ vec_capacity self.old.body }
        ensures { draft_in self.new ≡ draft_of (item.now ∷ []) }
    {
        self.end = end_at(item);
        self.body.clear();
        append(&mut self.body, item.message.body.as_slice());
        self.is_sure = true;
        self.in_parts = is_part(item.response);
    }

    /// Adds what goes on with it, behind what came last of it. A repeat has no data of its own.
    pub(crate) fn add(&mut self, last: &Collected, item: &Collected)
        requires { vec_len self.old.body + 231 ≤ vec_capacity self.old.body }
        ensures { draft_in self.new ≡ draft_with (draft_in self.old) last.now item.now }
    {
        if self.end.is_none() {
            self.end = end_at(item);
        }
        if !is_repeat(last, item) {
            append(&mut self.body, item.message.body.as_slice());
        }
        self.is_sure = self.is_sure && !(is_part(last.response) && item.after_loss);
    }

    /// The message, if it is whole.
    pub(crate) fn letter(&self) -> Option<Letter<'_>>
        ensures { result ≡ post_in (draft_in self.now) }
    {
        let end = self.end?;
        Some(Letter {
            message: MessageView {
                response: end.response,
                class: end.class,
                sub: end.sub,
                pid: end.pid,
                body: self.body.as_slice(),
            },
            again: end.again,
            is_whole: self.is_sure,
            in_parts: self.in_parts,
        })
    }
}

/// Puts bytes at the end, for which there is room.
fn append(list: &mut Vec<u8>, bytes: &[u8])
    requires { vec_len list.old + length bytes.now ≤ vec_capacity list.old }
    ensures { list.new.items ≡ list.old.items ++ bytes.now }
{
    if list.extend_from_slice(bytes).is_err() {
        unreachable!();
    }
}

/// The end of a message, if this is it.
fn end_at(item: &Collected) -> Option<End>
    ensures { result ≡ end_before item.now }
{
    if is_part(item.response) {
        return None;
    }
    Some(End {
        response: item.response,
        class: item.message.class,
        sub: item.message.sub,
        pid: item.message.pid,
        again: item.again,
    })
}
