//! The way from the top of a document to what a refusal is about.

use arrayvec::ArrayVec;
use rdm_fixture_keys::{Refusal, Section, Wanted, name_of};

/// A step of the way.
#[derive(Clone, Copy)]
pub(super) enum Step<'a> {
    /// To what a key of a table holds, by the name that is shown of it.
    Key(&'a str),
    /// To an entry of a list, from 1.
    Entry(usize),
}

impl Default for Step<'_> {
    fn default() -> Self {
        Step::Entry(0)
    }
}

impl Step<'_> {
    /// Whether it is to what this key holds.
    pub(super) fn is_key(&self, key: &str) -> bool {
        match self {
            Step::Key(name) => name_of(key).as_str() == *name,
            Step::Entry(_) => false,
        }
    }
}

/// The steps of a way: at most the table of a section, a list, its entry, a key, and an entry of what that holds.
pub(super) type Way<'a> = ArrayVec<Step<'a>, 5>;

/// The way to what is wrong: if a list is too long, to the first entry that is too many.
pub(super) fn way_to(refusal: &Refusal) -> Way<'_> {
    let mut way = Way::new();
    match refusal.section {
        Section::Top => {}
        Section::SubDevices => {
            let _ = way.try_push(Step::Key("sub_devices"));
        }
        Section::Estimates => {
            let _ = way.try_push(Step::Key("estimates"));
        }
        Section::Workers => {
            let _ = way.try_push(Step::Key("workers"));
        }
    }
    if let Some(entry) = &refusal.entry {
        let _ = way.try_push(Step::Key(entry.list.as_str()));
        let _ = way.try_push(Step::Entry(entry.number));
    }
    match refusal.wanted {
        // The entry itself isn't one.
        Wanted::Table if refusal.entry.is_some() => {}
        Wanted::List { most, .. } => {
            let _ = way.try_push(Step::Key(refusal.key.as_str()));
            let _ = way.try_push(Step::Entry(most.saturating_add(1)));
        }
        _ => {
            let _ = way.try_push(Step::Key(refusal.key.as_str()));
        }
    }
    way
}
