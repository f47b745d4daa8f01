//! As what a text is printed.

use rdm_capture::{Moment, Packet, capture_of_packets, put_header, trace_of};
use rdm_trace::{is_remark, read, wire_in};
use rdm_words::{Before, Known, put_text_line, words};
use std::alloc::{AllocError, Global};

/// As what the lines of a text, or the packets of a capture, are printed.
#[derive(Drop)]
pub(crate) enum Printed<'k> {
    /// In words, by what is known and what went before.
    Words(&'k Known<'k>, Before),
    /// As packets of a capture.
    Capture(Moment),
}

impl<'k> Printed<'k> {
    /// In words, by what is known.
    pub(crate) fn words(known: &'k Known<'k>) -> Printed<'k> {
        Printed::Words(known, Before::nothing())
    }

    /// As a capture.
    pub(crate) fn capture() -> Printed<'k> {
        Printed::Capture(Moment::first())
    }

    /// Puts what stands in front of the first line at the end of a list.
    pub(crate) fn put_start(&self, out: &mut Vec<u8>) -> Result<(), AllocError> {
        match self {
            Printed::Words(_, _) => Ok(()),
            Printed::Capture(_) => put_header(out),
        }
    }

    /// Puts what is printed of the next line at the end of a list. Whether it can be printed.
    pub(crate) fn put_line(&mut self, out: &mut Vec<u8>, line: &[u8]) -> Result<bool, AllocError> {
        match self {
            Printed::Words(known, before) => {
                put_text_line(out, before, line, known)?;
                Ok(true)
            }
            Printed::Capture(moment) => put_packet(out, moment, line),
        }
    }

    /// What is printed of the packets of a capture.
    pub(crate) fn packets(
        &self,
        alloc: Global,
        packets: &[Packet<'_>],
    ) -> Result<Vec<u8>, AllocError> {
        match self {
            Printed::Words(known, _) => {
                let trace = trace_of(alloc, packets)?;
                words(alloc, trace.as_slice(), known)
            }
            Printed::Capture(_) => capture_of_packets(alloc, packets),
        }
    }
}

/// Puts the packet of a line at the end of a capture, if it has one. Whether it is a line of a trace, a frame in digits, a remark or empty.
fn put_packet(out: &mut Vec<u8>, moment: &mut Moment, line: &[u8]) -> Result<bool, AllocError> {
    if let Some(said) = read(line) {
        moment.put_line(out, &said)?;
        moment.then(&said);
        return Ok(true);
    }
    if let Some(bytes) = wire_in(line) {
        moment.put_bytes(out, &bytes)?;
        return Ok(true);
    }
    Ok(line.is_empty() || is_remark(line))
}
