//! What no clause says: the words themselves, held against the fields of the standard.

mod belonging;
mod captures;
mod causes;
mod choices;
mod lines;
mod modes;
mod muting;
mod own;
mod requests;
mod responses;
mod short;
mod slow;
mod standards;
mod texts;

use rdm_device::Profile;
use rdm_frame::digits::bytes_in;
use rdm_frame::{Load, Uid};
use rdm_words::{Known, put_fixture, words};
use std::alloc::Global;
use std::process::Abort;
use std::str;

/// The fixture whose frames these are.
const FIXTURE: Uid = Uid {
    maker: 0x7FF0,
    device: 1,
};

/// What is known of it: it is the demo fixture.
fn demo(profile: &Profile) -> Known<'_> {
    Known::of(FIXTURE, profile)
}

/// Reads the rows: a line, and below it its words behind those that are the same in each row. An empty line ends a row.
fn try_rows(rt: &impl Abort, alloc: Global, known: &Known<'_>, front: &str, rows: &str) {
    for row in rows.split("\n\n") {
        let (line, expected) = row.split_once('\n').unwrap_or((row, ""));
        let expected = format!(in alloc; "{front}{expected}\n").expect(rt, "memory");
        says_of(rt, alloc, known, line, &expected);
    }
}

/// A line, or a trace, has these words.
fn says_of(rt: &impl Abort, alloc: Global, known: &Known<'_>, text: &str, expected: &str) {
    let said = words(alloc, text.as_bytes(), known).expect(rt, "memory");
    says(rt, said.as_slice(), expected);
}

/// The words of a line end with these.
fn ends_with(rt: &impl Abort, alloc: Global, known: &Known<'_>, line: &str, expected: &str) {
    let said = words(alloc, line.as_bytes(), known).expect(rt, "memory");
    assert!(rt;
        said.as_slice().ends_with(expected.as_bytes()),
        "not: {expected}"
    );
}

/// What is said of a fixture, behind its boot software.
fn is_described(rt: &impl Abort, alloc: Global, profile: &Profile, expected: &str) {
    let mut said = Vec::new(alloc);
    put_fixture(&mut said, FIXTURE, profile, &[]).expect(rt, "memory");
    let text = str::from_utf8(said.as_slice()).unwrap_or("");
    assert!(rt; text.ends_with(expected), "{text}");
}

#[test]
fn lines_have_their_words(rt: HostRuntime) {
    let profile = Profile::demo(4);
    let known = demo(&profile);
    let asks = "7FF0:00000002 asks 7FF0:00000001: ";
    let answers = "7FF0:00000001 answers 7FF0:00000002: ";
    try_rows(&rt, rt.alloc(), &known, "", lines::LINES);
    try_rows(&rt, rt.alloc(), &known, asks, requests::REQUESTS);
    try_rows(&rt, rt.alloc(), &known, answers, responses::RESPONSES);
    try_rows(&rt, rt.alloc(), &Known::nothing(), "", captures::FRAMES);
    short::try_requests(&rt, rt.alloc(), &known, short::REQUESTS);
    short::try_replies(&rt, rt.alloc(), &known, short::REPLIES);
    says_of(&rt, rt.alloc(), &known, belonging::TRACE, belonging::WORDS);
}

/// Aborts where the bytes aren't this text.
fn says(rt: &impl Abort, said: &[u8], expected: &str) {
    let text = str::from_utf8(said).unwrap_or("bytes that are no text");
    assert!(rt; text == expected, "{text}, not {expected}");
}

/// The bytes that digits spell, at most 255.
fn bytes_of(digits: &str) -> Load {
    let digits = digits.as_bytes();
    if digits.len() > 510 {
        return Load::new();
    }
    bytes_in(digits).unwrap_or(Load::new())
}
