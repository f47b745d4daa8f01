//! The words that errors print.

use super::words_for;
use rdm_collector::{AskError, PollError};
use std::alloc::Global;
use std::fmt::Display;
use std::process::Abort;

/// Why a command isn't sent, and the words for it.
const ASK_ERRORS: [(AskError, &str); 3] = [
    (AskError::Reserved, "reserved"),
    (AskError::Busy, "busy"),
    (AskError::TooLong, "too long"),
];

/// Why no poll is sent, and the words for it.
const POLL_ERRORS: [(PollError, &str); 2] = [
    (PollError::OutOfMemory, "out of memory"),
    (PollError::Busy, "busy"),
];

/// An error prints these words.
fn prints(rt: &impl Abort, alloc: Global, error: &impl Display, words: &str) {
    assert!(rt; words_for(rt, alloc, error).as_str() == words);
}

#[test]
fn errors_say_what_is_wrong(rt: HostRuntime) {
    for (error, words) in ASK_ERRORS {
        prints(&rt, rt.alloc(), &error, words);
    }
    for (error, words) in POLL_ERRORS {
        prints(&rt, rt.alloc(), &error, words);
    }
}
