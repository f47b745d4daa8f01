//! Why the program couldn't do its work.

use crate::line_fault::LineFault;
use crate::source::OUTPUT;
use rdm_crew::RunError;
use rdm_fixture::{FixtureError, Refusal};
use rdm_frame::Uid;
use rdm_responder::NewError;
use rdm_script::{Dialect, ScriptError, refusal_at};
use std::alloc::{AllocError, AllocFailed};
use std::{fmt, io};

/// The exit status of a usage error.
pub const BAD_USAGE: u8 = 64;

/// What is printed on standard error, with the name of the file that it is about.
#[derive(Drop)]
pub enum Fault<'a> {
    /// An argument isn't valid UTF-8.
    Words,
    /// Standard input is named twice.
    ReadTwice,
    /// Standard output is to take both of these.
    WrittenTwice(&'a str, &'a str),
    /// A file is read and written.
    Overwritten(&'a str),
    /// A file is to take two outputs.
    SameOutput(&'a str),
    /// More sub-devices are asked for than this file says.
    TooManySubs(&'a str, u16),
    /// There are to be fixtures of so many kinds on the line, and so many of each.
    TooManyFixtures(usize, u16),
    /// This word has a number of fixtures behind its file that there can't be on a line.
    BadCount(&'a str),
    /// From the UID of this file on there aren't so many device IDs.
    TooFewDeviceIds(&'a str, Uid, u16),
    /// Two fixtures on the line would have this UID, one of them of this file, or of the demonstration.
    TwoOfOneUid(&'a str, Uid),
    /// A file is to keep the values of so many fixtures.
    SavedOfMany(usize),
    /// The fixture has no such parameter.
    NoParameter(&'a str),
    /// Out of memory or threads.
    Memory,
    /// The system's clock can't be read.
    Clock(io::Error),
    /// A file or a standard stream wasn't read or written.
    Io(&'a str, io::Error),
    /// A file, or standard input, has more bytes than this.
    TooLong(&'a str, u64),
    /// A fixture's file has more keys than this.
    TooManyKeys(&'a str, u32),
    /// A file isn't a valid script.
    Script(&'a str, rdm_script::Refusal),
    /// A file isn't a valid script: it names a parameter of the maker's own, and no file of a fixture gives those names.
    NoOwnNames(&'a str, rdm_script::Refusal),
    /// A file isn't a valid script, and no more is known.
    NoScript(&'a str, ScriptError),
    /// This line of a script, counted from 1, isn't a valid expectation, for this reason.
    Expectation(&'a str, usize, &'a str),
    /// So many expectations of a script failed, each of which was told.
    Unmet(usize),
    /// So many replies in a trace break a reply rule, each of which was told.
    Wrong(usize),
    /// A file isn't a valid trace, by this line, counted from 1.
    NoTrace(&'a str, usize),
    /// A file isn't a valid capture, from this byte on, counted from 0.
    NoCapture(&'a str, usize),
    /// A trace has more transactions than this, which is as many as a chart can have.
    TooManyTransactions(&'a str, usize),
    /// The run of a script stops, at this line if it is known.
    Stopped(&'a str, Option<usize>, RunError),
    /// The setup of a script, at this line if it is known, isn't possible for a fixture with N sub-devices.
    BadSetup(&'a str, Option<usize>, u16),
    /// The fixture of a script, which this file describes, has the UID of the controller.
    ControllersUid(&'a str, Uid),
    /// A file isn't valid UTF-8, from this place on.
    NoText(&'a str, Place),
    /// A file isn't valid TOML, at this place.
    Syntax(&'a str, Place, toml::de::Error),
    /// A file isn't a valid fixture, by this line of it if it is known.
    Fixture(&'a str, Option<usize>, Refusal),
    /// No device can be made of the fixture.
    NoDevice,
    /// A file has no saved values.
    NotSaved(&'a str),
    /// A file has the saved values of a fixture of another manufacturer or model.
    OtherProfile(&'a str),
    /// A console couldn't do its work on a line.
    Line(LineFault<'a>),
}

impl<'a> Fault<'a> {
    /// A file isn't read as a script for a fixture.
    pub fn script(
        name: &'a str,
        dialect: &Dialect<'_>,
        text: &[u8],
        error: ScriptError,
    ) -> Fault<'a> {
        match error {
            ScriptError::OutOfMemory => Fault::Memory,
            ScriptError::TooLong => Fault::NoScript(name, error),
            ScriptError::Line(number) => { Fault::Script(name, refusal_at(dialect, text, number)) }
        }
    }

    /// The run of a script stops, at this line if it is known. The fixture that it is played on has N sub-devices.
    pub fn stopped(name: &'a str, line: Option<usize>, subs: u16, error: RunError) -> Fault<'a> {
        match error {
            RunError::OutOfMemory => Fault::Memory,
            RunError::BadSetup => Fault::BadSetup(name, line, subs),
            _ => Fault::Stopped(name, line, error),
        }
    }

    /// A file isn't valid UTF-8 after its first N bytes.
    pub fn no_text(name: &'a str, bytes: &[u8], before: usize) -> Fault<'a> {
        Fault::NoText(name, Place::behind(bytes, before))
    }

    /// A file isn't read as a fixture.
    pub fn fixture(name: &'a str, bytes: &[u8], error: FixtureError) -> Fault<'a> {
        match error {
            FixtureError::OutOfMemory => Fault::Memory,
            FixtureError::Syntax(error) => {
                let before = match error.span() {
                    Some(span) => span.start,
                    None => 0,
                };
                Fault::Syntax(name, Place::behind(bytes, before), error)
            }
            FixtureError::Refused(refusal) => {
                let line = refusal.line;
                let refusal = Refusal {
                    line: None,
                    ..refusal
                };
                Fault::Fixture(name, line, refusal)
            }
        }
    }

    /// The exit status, by the table of docs/FELOSUMAY.md.
    pub fn status(&self) -> u8 {
        match self {
            Fault::TooLong(_, _)
            | Fault::TooManyKeys(_, _)
            | Fault::Script(_, _)
            | Fault::NoOwnNames(_, _)
            | Fault::NoScript(_, _)
            | Fault::Expectation(_, _, _)
            | Fault::Unmet(_)
            | Fault::Wrong(_)
            | Fault::NoText(_, _)
            | Fault::NoTrace(_, _)
            | Fault::NoCapture(_, _)
            | Fault::TooManyTransactions(_, _)
            | Fault::Syntax(_, _, _)
            | Fault::Fixture(_, _, _)
            | Fault::ControllersUid(_, _)
            | Fault::NoDevice
            | Fault::NotSaved(_)
            | Fault::OtherProfile(_) => 1,
            Fault::Memory => 2,
            Fault::Stopped(_, _, _) | Fault::BadSetup(_, _, _) => 3,
            Fault::Clock(_) | Fault::Io(_, _) => 4,
            Fault::Words
            | Fault::ReadTwice
            | Fault::WrittenTwice(_, _)
            | Fault::Overwritten(_)
            | Fault::SameOutput(_)
            | Fault::TooManySubs(_, _)
            | Fault::TooManyFixtures(_, _)
            | Fault::BadCount(_)
            | Fault::TooFewDeviceIds(_, _, _)
            | Fault::TwoOfOneUid(_, _)
            | Fault::SavedOfMany(_)
            | Fault::NoParameter(_) => BAD_USAGE,
            Fault::Line(fault) => fault.status(),
        }
    }

    /// Whether nobody wants to be told: the reader of standard output has gone, as `head` does.
    pub fn is_closed_pipe(&self) -> bool {
        match self {
            Fault::Io(name, error) => {
                *name == OUTPUT && error.kind() == io::ErrorKind::BrokenPipe
            }
            _ => false,
        }
    }
}

/// A place in a file: its line and its column, in bytes, both from 1.
#[derive(Clone, Copy)]
pub struct Place {
    line: usize,
    column: usize,
}

impl Place {
    /// The place after the first N bytes.
    fn behind(bytes: &[u8], count: usize) -> Place {
        let mut place = Place { line: 1, column: 1 };
        for byte in bytes.iter().take(count) {
            if *byte == b'\n' {
                place.line = place.line.saturating_add(1);
                place.column = 1;
            } else {
                place.column = place.column.saturating_add(1);
            }
        }
        place
    }
}

impl fmt::Display for Place {
    fn fmt<W: fmt::Write>(&self, f: &mut fmt::Formatter<W>) -> fmt::Result {
        let Place { line, column } = *self;
        write!(f, "{line}:{column}")
    }
}

impl<T: Drop> From<AllocFailed<T>> for Fault<'_> {
    fn from(_error: AllocFailed<T>) -> Self {
        Fault::Memory
    }
}

impl From<AllocError> for Fault<'_> {
    fn from(_error: AllocError) -> Self {
        Fault::Memory
    }
}

impl From<NewError> for Fault<'_> {
    fn from(error: NewError) -> Self {
        match error {
            NewError::OutOfMemory => Fault::Memory,
            NewError::BadUid | NewError::BadSize | NewError::BadProfile => Fault::NoDevice,
        }
    }
}
