//! Whole texts: a trace that is cut anywhere, and bytes that are no text.

use super::{bytes_of, ends_with, says};
use rdm_frame::decode;
use rdm_trace::read;
use rdm_words::{Known, words};
use std::alloc::{AllocError, Global};
use std::process::Abort;

/// A trace with each kind of line.
const TRACE: &str = "panel start 101
# 12.345 s
send CC01197FF0000000017FF000000002000100000030040301010401
reply CC011A7FF0000000027FF00000000100010000003104030200320435
job 0 0
heard reply
arrive 0 0 failed 04 8001 0002 0000
send CC01197FF0000000017FF00000000201010000002000200102040C lost-request
reply none
heard nothing
message 21 0030 0000 -
end
";

/// However many bytes of the trace are there, each line that has begun has its words, and no line is lost.
#[test]
fn trace_cut_anywhere(rt: HostRuntime) {
    let trace = TRACE.as_bytes();
    for cut in 0..trace.len() {
        assert!(rt; is_said(&rt, rt.alloc(), &trace[..cut]), "cut at {cut}");
    }
}

/// Whether each line of a text has its words.
fn is_said(rt: &impl Abort, alloc: Global, text: &[u8]) -> bool {
    let said = words(alloc, text, &Known::nothing()).expect(rt, "memory");
    line_count(said.as_slice()) >= line_count(text)
        && said.as_slice().ends_with(b"\n") != text.is_empty()
}

/// How many lines a text has, the last one without LF too.
fn line_count(text: &[u8]) -> usize {
    let mut count = 0usize;
    let mut begun = false;
    for byte in text {
        begun = *byte != b'\n';
        if !begun {
            count = count.saturating_add(1);
        }
    }
    count.saturating_add(usize::from(begun))
}

#[test]
fn every_line_of_the_trace_is_read(rt: HostRuntime) {
    for line in TRACE.lines() {
        assert!(rt; read(line.as_bytes()).is_some(), "{line}");
    }
}

#[test]
fn bytes_that_are_no_text(rt: HostRuntime) {
    let said = words(rt.alloc(), b"\xFF\x00\x1B[2J\r\n\r\n\r", &Known::nothing());
    let said = said.expect(&rt, "memory");
    let expected = "not read: \\xFF\\x00\\x1B[2J\n\nnot read: \\x0D\n";
    says(&rt, said.as_slice(), expected);
}

/// Bytes that fail each of the six tests of a frame, in their order.
const STRAYS: &[&str] = &[
    "CC01187FF0",
    "0001187FF0000000017FF000000009000100000020006000044E",
    "CC02187FF0000000017FF000000009000100000020006000044E",
    "CC01197FF0000000017FF000000009000100000020006000044E",
    "CC01187FF0000000017FF000000009000100000020006001044E",
    "CC01187FF0000000017FF000000009000100000020006000044F",
];

/// Why bytes are no frame is said in the words of rdm_frame's error.
#[test]
fn causes_are_those_of_the_error(rt: HostRuntime) {
    for digits in STRAYS {
        let expected = stray_words(rt.alloc(), digits).expect(&rt, "memory");
        ends_with(&rt, rt.alloc(), &Known::nothing(), digits, &expected);
    }
}

/// What is said of bytes that are no frame.
fn stray_words(alloc: Global, digits: &str) -> Result<String, AllocError> {
    match decode(bytes_of(digits).as_slice()) {
        Ok(_) => String::from_str(alloc, "they are a frame"),
        Err(error) => format!(in alloc; "no frame ({error}): {digits}\n"),
    }
}
