//! Status messages that come at their times.

ghost use Rattle.std.specs.Prelude.{◌≡◌};
ghost use Rattle.rdm_courses.specs.Notices as says;

use crate::course::comes;
use rdm_frame::{Entry, Severity};

/// A status message that comes at its time (E1.20 section 10.3.2).
#[derive(Clone, Copy, Debug, PartialEq, Eq)]
pub struct Notice {
    /// When it comes first, in seconds since power-on.
    pub at: u32,
    /// After how many seconds it comes again, and again, or `None`.
    pub every: Option<u32>,
    /// The sub-device, or 0 for the root.
    pub sub: u16,
    /// How bad it is.
    pub severity: Severity,
    /// The status ID (section 10.3.3).
    pub id: u16,
    /// The first value that the status text names.
    pub v1: u16,
    /// The second value that the status text names.
    pub v2: u16,
}

impl Default for Notice {
    /// Room that no message fills yet.
    fn default() -> Notice {
        Notice {
            at: 0,
            every: None,
            sub: 0,
            severity: Severity::Advisory,
            id: 0,
            v1: 0,
            v2: 0,
        }
    }
}

impl Notice {
    /// Whether it has come by now, and since a look, or since power-on if there was none. Times are in milliseconds since power-on.
    pub fn has_come(&self, looked: Option<u64>, now: u64) -> bool
        ensures { result ≡ says.notice_comes self.now looked now }
    {
        comes(self.round(), looked, now, 1000 * u64::from(self.at))
    }

    /// How long it takes until it comes again, in milliseconds: 0 if it doesn't.
    fn round(&self) -> u64
        ensures { result ≡ says.round_of_notice self.now }
    {
        match self.every {
            Some(every) => 1000 * u64::from(every),
            None => 0,
        }
    }

    /// What it says.
    pub fn entry(&self) -> Entry
        ensures { result ≡ says.entry_of self.now }
    {
        Entry {
            sub: self.sub,
            severity: self.severity,
            id: self.id,
            v1: self.v1,
            v2: self.v2,
        }
    }
}
