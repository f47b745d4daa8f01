//! The trace of what a console sends and hears.

use crate::knowledge::Knowledge;
use crate::telling::Teller;
use crate::trace_file::TraceFile;
use rdm_frame::Uid;
use rdm_host::fault::Fault;
use rdm_host::host::Speaker;
use rdm_trace::{Line, put_line};
use rdm_words::{Before, put_line_words};
use std::alloc::{AllocError, Global};
use std::io::Write;
use std::time::Instant;

/// As what a trace is printed.
#[derive(Clone, Copy, PartialEq, Eq)]
pub enum Printed {
    /// It isn't.
    Nothing,
    /// As a trace.
    Trace,
    /// In words, by what is known of the fixture with this UID.
    Words(Uid),
}

/// The trace of what is sent and heard, with the time of each request: in a file, if one is asked for, and printed, if a script is
/// played. It is written as it comes, so that nothing of it is lost when the program is ended.
#[derive(Drop)]
pub struct Log<'a, H, F> {
    /// What is known of the fixtures that are heard.
    pub knowledge: Knowledge,
    teller: Teller<H>,
    kept_in: Option<TraceFile<'a, F>>,
    printed: Printed,
    /// When the first request was sent.
    start: Option<Instant>,
    /// What the lines that were printed told, for the words of the next.
    before: Before,
    /// The lines, if somebody judges them.
    judged: Option<Vec<Line>>,
    /// Why it isn't kept any more.
    fault: Option<Fault<'a>>,
}

/// A trace isn't kept. The log has its fault.
#[derive(Drop)]
pub struct NotKept;

impl<'a, H: Speaker, F: Write> Log<'a, H, F> {
    /// One in this file, if there is one.
    pub fn new(
        teller: Teller<H>,
        kept_in: Option<TraceFile<'a, F>>,
        knowledge: Knowledge,
    ) -> Log<'a, H, F> {
        Log {
            knowledge,
            teller,
            kept_in,
            printed: Printed::Nothing,
            start: None,
            before: Before::nothing(),
            judged: None,
            fault: None,
        }
    }

    /// Prints it so from now on.
    pub fn print_as(&mut self, printed: Printed) {
        self.printed = printed;
    }

    /// The lines are judged from now on, and the times of replies with them.
    pub fn judge(&mut self) {
        self.judged = Some(Vec::new(self.teller.rt().alloc()));
    }

    /// The lines that are judged: none, unless that was asked for.
    pub fn judged(&self) -> &[Line] {
        match &self.judged {
            Some(lines) => lines.as_slice(),
            None => &[],
        }
    }

    /// Keeps a line.
    pub fn keep(&mut self, line: Line) -> Result<(), NotKept> {
        match self.write(&line) {
            Ok(()) => self.remember(line),
            Err(fault) => self.fail(fault),
        }
    }

    /// Keeps a remark in the file, if there is one, as a line that readers of a trace pass over. It is neither printed nor judged. A control
    /// character in it is kept as `?`, so that it is one line.
    pub fn keep_remark(&mut self, words: &str) -> Result<(), NotKept> {
        let alloc = self.teller.rt().alloc();
        let Some(kept_in) = &mut self.kept_in else {
            return Ok(());
        };
        let kept = match remark_of(alloc, words) {
            Ok(line) => kept_in.keep_remark(line.as_slice()),
            Err(error) => Err(Fault::from(error)),
        };
        match kept {
            Ok(()) => Ok(()),
            Err(fault) => self.fail(fault),
        }
    }

    /// Keeps the time since the first request, if a trace is kept, printed or judged: it is that of what comes next.
    pub fn keep_time(&mut self) -> Result<(), NotKept> {
        if self.kept_in.is_none() && self.printed == Printed::Nothing && self.judged.is_none() {
            return Ok(());
        }
        match self.millis() {
            Ok(millis) => self.keep(Line::Time { millis }),
            Err(fault) => self.fail(fault),
        }
    }

    /// Keeps the time of a reply for those who judge it. It is printed nowhere.
    pub fn note_time(&mut self) -> Result<(), NotKept> {
        if self.judged.is_none() {
            return Ok(());
        }
        match self.millis() {
            Ok(millis) => self.remember(Line::Time { millis }),
            Err(fault) => self.fail(fault),
        }
    }

    /// Keeps a line for those who judge it, if somebody does.
    fn remember(&mut self, line: Line) -> Result<(), NotKept> {
        let Some(lines) = &mut self.judged else {
            return Ok(());
        };
        match lines.push(line) {
            Ok(()) => Ok(()),
            Err(_) => self.fail(Fault::Memory),
        }
    }

    /// Why it isn't kept, if it isn't.
    pub fn into_fault(self) -> Option<Fault<'a>>
    where
        F: Drop,
    {
        self.fault
    }

    /// Writes a line to where the trace is kept, and prints it.
    fn write(&mut self, line: &Line) -> Result<(), Fault<'a>> {
        let mut text = Vec::new(self.teller.rt().alloc());
        put_line(&mut text, line)?;
        if let Some(kept_in) = &mut self.kept_in {
            kept_in.keep(line, text.as_slice())?;
        }
        match self.printed {
            Printed::Nothing => Ok(()),
            Printed::Trace => self.teller.tell(text.as_slice()),
            Printed::Words(uid) => self.print_words(line, uid),
        }
    }

    /// Prints the words of a line, by what is known of the fixture with this UID.
    fn print_words(&mut self, line: &Line, uid: Uid) -> Result<(), Fault<'a>> {
        let mut words = Vec::new(self.teller.rt().alloc());
        put_line_words(&mut words, &self.before, line, &self.knowledge.of(uid))?;
        self.before.then(line);
        self.teller.tell(words.as_slice())
    }

    /// How many milliseconds have passed since the first request, which is this one if there was none.
    fn millis(&mut self) -> Result<u64, Fault<'a>> {
        let rt = self.teller.rt();
        let passed = match self.start {
            Some(start) => start.elapsed(&rt),
            None => return self.begin(),
        };
        match passed {
            Ok(passed) => Ok(u64::try_from(passed.as_millis()).unwrap_or(u64::MAX)),
            Err(error) => Err(Fault::Clock(error)),
        }
    }

    /// The times begin now.
    fn begin(&mut self) -> Result<u64, Fault<'a>> {
        match Instant::now(&self.teller.rt()) {
            Ok(now) => {
                self.start = Some(now);
                Ok(0)
            }
            Err(error) => Err(Fault::Clock(error)),
        }
    }

    /// It isn't kept, for this reason.
    fn fail(&mut self, fault: Fault<'a>) -> Result<(), NotKept> {
        self.fault = Some(fault);
        Err(NotKept)
    }
}

/// The line of a remark: a number sign, a space and these words.
fn remark_of(alloc: Global, words: &str) -> Result<Vec<u8>, AllocError> {
    let mut line = Vec::new(alloc);
    line.extend_from_slice(b"# ")?;
    for byte in words.as_bytes() {
        let is_control = *byte < b' ' || *byte == 0x7F;
        line.extend_from_slice(&[if is_control { b'?' } else { *byte }])?;
    }
    line.extend_from_slice(b"\n")?;
    Ok(line)
}
