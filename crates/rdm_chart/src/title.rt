//! What stands above a chart: the fixture, its UID, and how many transactions there are.

use rdm_frame::{Uid, decode_view};
use rdm_trace::Line;
use std::alloc::{AllocError, Global};

/// What a fixture is called, as its file says.
#[derive(Clone, Copy)]
pub struct Named<'a> {
    /// Whose name it is.
    pub uid: Uid,
    /// The name, as ASCII or UTF-8. Other bytes are drawn as U+FFFD.
    pub name: &'a [u8],
}

/// Whom the requests of a trace are for, apart from broadcasts.
#[derive(Clone, Copy, PartialEq, Eq)]
pub(crate) enum Addressed {
    Nobody,
    One(Uid),
    Several,
}

impl Addressed {
    /// Those whom the requests among the lines are for.
    pub(crate) fn by(lines: &[Line]) -> Addressed {
        let mut addressed = Addressed::Nobody;
        for line in lines {
            if let Some(uid) = destination(line) {
                addressed = addressed.and(uid);
            }
        }
        addressed
    }

    /// These and this one.
    fn and(self, uid: Uid) -> Addressed {
        match self {
            Addressed::Nobody => Addressed::One(uid),
            Addressed::One(other) if other == uid => self,
            Addressed::One(_) | Addressed::Several => Addressed::Several,
        }
    }
}

/// The one whom a request is for, if it is for one.
fn destination(line: &Line) -> Option<Uid> {
    let Line::Send { bytes, .. } = line else {
        return None;
    };
    match decode_view(bytes.as_slice()) {
        Ok(frame) if !frame.dst.is_broadcast() => Some(frame.dst),
        _ => None,
    }
}

/// The title of a chart, in two lines.
#[derive(Drop)]
pub(crate) struct Title {
    /// Which fixture it is of.
    pub(crate) heading: String,
    /// What else is said of it.
    pub(crate) detail: String,
}

impl Title {
    /// The title of a chart of so many transactions. A name stands only above a chart of its own fixture.
    pub(crate) fn of(
        alloc: Global,
        addressed: Addressed,
        named: Option<Named<'_>>,
        transactions: u64,
    ) -> Result<Title, AllocError> {
        let ending = if transactions == 1 { "" } else { "s" };
        let count = format!(in alloc; "{transactions} transaction{ending}")?;
        let heading = match (addressed, named) {
            (Addressed::One(uid), Some(named)) if named.uid == uid && !named.name.is_empty() => {
                return Ok(Title {
                    heading: String::from_utf8_lossy(alloc, named.name)?,
                    detail: format!(in alloc; "{uid}, {}", count.as_str())?,
                });
            }
            (Addressed::One(uid), _) => format!(in alloc; "Responder {uid}")?,
            (Addressed::Several, _) => String::from_str(alloc, "Several responders")?,
            (Addressed::Nobody, _) => String::from_str(alloc, "No responder addressed")?,
        };
        Ok(Title {
            heading,
            detail: count,
        })
    }
}
