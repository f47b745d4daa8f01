//! What a file sets.

ghost use Rattle.std.specs.Prelude.{◌≡◌};

use crate::Complaint;
use rdm_frame::{Load, Uid};

/// A parameter that is to be SET.
#[derive(Debug, Drop, PartialEq, Eq)]
pub struct Setting {
    /// The line of the file that says it, from 1.
    pub line: usize,
    /// The fixture, which is one device.
    pub uid: Uid,
    /// The sub-device, from 1 to 512, or 0 for the root (E1.20 section 9).
    pub sub: u16,
    /// The parameter ID (section 6.2.10).
    pub pid: u16,
    /// The parameter data.
    pub load: Load,
}

impl Setting {
    /// The same setting again.
    pub fn copy(&self) -> Setting
        ensures { result ≡ self.now }
    {
        Setting {
            line: self.line,
            uid: self.uid,
            sub: self.sub,
            pid: self.pid,
            load: self.load.copy(),
        }
    }
}

/// What a file says. If there is a complaint, nothing of it should be sent.
#[derive(Debug, Drop, PartialEq, Eq)]
pub struct Sheet {
    /// What it sets: line by line, in a line from left to right.
    pub settings: Vec<Setting>,
    /// What is wrong with it: with its columns, then with its lines and their cells, then what it sets twice.
    pub complaints: Vec<Complaint>,
}
