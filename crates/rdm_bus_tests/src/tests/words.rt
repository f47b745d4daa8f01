//! The words that errors print.

use super::words_for;
use rdm_bus::PlayError;
use std::alloc::Global;
use std::fmt::Display;
use std::process::Abort;

/// Why a step isn't played, and the words for it.
const PLAY_ERRORS: &[(PlayError, &str)] = &[
    (PlayError::OutOfMemory, "out of memory"),
    (PlayError::Reserved, "reserved"),
    (PlayError::TooLong, "too long"),
    (PlayError::Astray, "astray"),
    (PlayError::NoRoom, "no room"),
];

/// An error prints these words.
fn prints(rt: &impl Abort, alloc: Global, error: &impl Display, words: &str) {
    assert!(rt; words_for(rt, alloc, error).as_str() == words);
}

#[test]
fn errors_say_what_is_wrong(rt: HostRuntime) {
    for (error, words) in PLAY_ERRORS {
        prints(&rt, rt.alloc(), error, words);
    }
}
