//! The file in which a trace is kept.

use rdm_capture::{Moment, put_header};
use rdm_host::fault::Fault;
use rdm_trace::Line;
use std::alloc::Global;
use std::io::Write;

/// As what a trace is kept.
#[derive(Clone, Copy)]
enum Kept {
    /// As its lines.
    Lines,
    /// As a capture, whose next packet is at this moment.
    Capture(Moment),
}

/// A file for a trace, and its name.
#[derive(Drop)]
pub struct TraceFile<'a, F> {
    /// By what name messages tell of it.
    path: &'a str,
    file: F,
    kept: Kept,
    alloc: Global,
}

impl<'a, F: Write> TraceFile<'a, F> {
    /// A file of lines, which has none yet.
    pub fn lines(alloc: Global, path: &'a str, file: F) -> TraceFile<'a, F> {
        TraceFile {
            path,
            file,
            kept: Kept::Lines,
            alloc,
        }
    }

    /// A capture, which has no packet yet.
    pub fn capture(alloc: Global, path: &'a str, file: F) -> Result<TraceFile<'a, F>, Fault<'a>>
    where
        F: Drop,
    {
        let mut header = Vec::new(alloc);
        put_header(&mut header)?;
        let mut kept_in = TraceFile {
            path,
            file,
            kept: Kept::Capture(Moment::first()),
            alloc,
        };
        kept_in.write(header.as_slice())?;
        Ok(kept_in)
    }

    /// Keeps a line, which has this text.
    pub(crate) fn keep(&mut self, line: &Line, text: &[u8]) -> Result<(), Fault<'a>> {
        let mut packet = Vec::new(self.alloc);
        match &mut self.kept {
            Kept::Lines => return self.write(text),
            Kept::Capture(moment) => {
                moment.put_line(&mut packet, line)?;
                moment.then(line);
            }
        }
        self.write(packet.as_slice())
    }

    /// Keeps a remark, which is this line. A capture has none.
    pub(crate) fn keep_remark(&mut self, line: &[u8]) -> Result<(), Fault<'a>> {
        match self.kept {
            Kept::Lines => self.write(line),
            Kept::Capture(_) => Ok(()),
        }
    }

    /// Writes these bytes.
    fn write(&mut self, bytes: &[u8]) -> Result<(), Fault<'a>> {
        match self.file.write_all(bytes) {
            Ok(()) => Ok(()),
            Err(error) => Err(Fault::Io(self.path, error)),
        }
    }
}
