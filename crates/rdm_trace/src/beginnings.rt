//! Lines that were cut off.

use crate::words::first_word;

/// The words with which the lines of a trace begin.
const BEGINNINGS: [&[u8]; 9] = [
    b"send", b"reply", b"job", b"heard", b"found", b"arrive", b"panel", b"message", b"end",
];

/// Whether the text may be the front of a line of a trace that was cut off, by its first word.
pub(crate) fn may_begin_line(text: &[u8]) -> bool {
    let (word, _) = first_word(text);
    let is_whole = word.len() < text.len();
    BEGINNINGS.iter().any(|beginning| beginning.starts_with(word)
        && (!is_whole || *beginning == word))
}
