//! What a console tells, and where.

use rdm_frame::digits::put_digits;
use rdm_frame::{Uid, Wire};
use rdm_host::fault::Fault;
use rdm_host::host::{Host, Speaker};
use rdm_host::source::print;
use rdm_trace::Line;
use rdm_words::{Before, Known, put_line_words};
use std::alloc::AllocError;
use std::time::Duration;
use std::{str, thread};

/// The UID of the console. Its device ID is in letters FELO, so that it isn't one of a rig's.
pub const CONSOLE: Uid = Uid {
    maker: 0x7FF0,
    device: 0x4645_4C4F,
};

/// By what name messages tell of standard error.
const ERRORS: &str = "<stderr>";

/// Which of the program's streams are terminals.
#[derive(Clone, Copy)]
pub struct Terminals {
    /// Standard input is one.
    pub input: bool,
    /// Standard error is one.
    pub errors: bool,
}

/// Where it is told what is heard.
#[derive(Clone, Copy)]
pub enum Place {
    /// On standard output.
    Output,
    /// On standard error, since standard output is the line.
    Errors,
}

/// Tells what is heard, and how long something takes.
#[derive(Clone, Copy)]
pub struct Teller<H> {
    /// The machine.
    rt: H,
    /// Where it is told.
    place: Place,
    /// Whether somebody sees standard error as it is written.
    is_seen: bool,
}

impl<H: Speaker> Teller<H> {
    /// One that tells there. Somebody sees standard error if it is a terminal.
    pub fn new(rt: H, place: Place, is_seen: bool) -> Teller<H> {
        Teller { rt, place, is_seen }
    }

    /// The machine.
    pub fn rt(&self) -> H {
        self.rt
    }

    /// Whether somebody sees standard error as it is written.
    pub fn is_seen(&self) -> bool {
        self.is_seen
    }

    /// The same, that tells on standard error.
    pub fn on_errors(self) -> Teller<H> {
        Teller {
            place: Place::Errors,
            ..self
        }
    }

    /// Tells this.
    pub fn tell<'a>(&self, text: &[u8]) -> Result<(), Fault<'a>> {
        match self.place {
            Place::Output => print(self.rt, text),
            Place::Errors => tell_error(self.rt, text),
        }
    }

    /// Tells the words of a reply, as `felosumay words` has them, by what is known of the device.
    pub fn tell_reply<'a>(&self, reply: &Wire, known: &Known<'_>) -> Result<(), Fault<'a>> {
        let mut words = Vec::new(self.rt.alloc());
        let line = Line::Reply(Some(reply.copy()));
        put_line_words(&mut words, &Before::nothing(), &line, known)?;
        self.tell(words.as_slice())
    }

    /// Tells the data of what came in parts (E1.20 section 6.3.2).
    pub fn tell_joined<'a>(&self, joined: &[u8]) -> Result<(), Fault<'a>> {
        let alloc = self.rt.alloc();
        let length = joined.len();
        let text = format!(in alloc; "  the data of all parts, {length} slots: ")?;
        let mut line = Vec::new(alloc);
        put_joined(&mut line, text.as_bytes(), joined)?;
        self.tell(line.as_slice())
    }
}

impl<H: Host> Teller<H> {
    /// Shows this in place of what was shown before, where somebody sees it.
    pub fn show(&self, words: &str) {
        if self.is_seen {
            // Nothing is lost if it can't be shown.
            let rt = self.rt;
            let _ = eprint!(rt; "\r{words}\u{1b}[K");
        }
    }

    /// Waits so many tenths of a second for a device. Where somebody sees it, the time that is left is told meanwhile.
    pub fn wait(&self, uid: Uid, tenths: u16) {
        let rt = self.rt;
        if !self.is_seen {
            thread::sleep(&rt, Duration::from_millis(u64::from(tenths) * 100));
            return;
        }
        for passed in 0..tenths {
            let left = tenths.saturating_sub(passed);
            let (seconds, rest) = (left / 10, left % 10);
            // Nothing is lost if it can't be told.
            let _ = eprint!(rt; "\r{uid} needs {seconds}.{rest} s more\u{1b}[K");
            thread::sleep(&rt, Duration::from_millis(100));
        }
        let _ = eprint!(rt; "\r\u{1b}[K");
    }
}

/// Puts a text and data in hexadecimal digits at the end of a list, as one line.
fn put_joined(line: &mut Vec<u8>, text: &[u8], joined: &[u8]) -> Result<(), AllocError> {
    line.extend_from_slice(text)?;
    put_digits(line, joined)?;
    line.extend_from_slice(b"\n")
}

/// Writes a text to standard error.
fn tell_error<'a, H: Speaker>(rt: H, text: &[u8]) -> Result<(), Fault<'a>> {
    let Ok(text) = str::from_utf8(text) else {
        return Ok(());
    };
    match eprint!(rt; "{text}") {
        Ok(()) => Ok(()),
        Err(error) => Err(Fault::Io(ERRORS, error)),
    }
}
