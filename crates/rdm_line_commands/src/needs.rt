//! What a script needs of the device that it tests.

use rdm_entry::parameter_named;
use rdm_frame::digits::word_in;
use rdm_host::fault::Fault;
use std::alloc::Global;
use std::str;

/// The word with which a comment says a need.
const NEEDS: &str = "needs";

/// The word in front of a parameter that has to take a value.
const SET: &str = "set";

/// Why a comment isn't one.
const FLAW: &str =
    "this isn't a valid need: expected a parameter, SET and a parameter, sub-devices or no sub-devices";

/// Why one has no effect where it stands.
const LATE: &str = "this need comes too late: expected it before the first step";

/// Something that a script needs.
#[derive(Clone, Copy, PartialEq, Eq)]
pub(crate) enum Need {
    /// The parameter with this PID.
    Parameter(u16),
    /// The parameter with this PID, whose value can be set.
    Settable(u16),
    /// At least one sub-device.
    SubDevices,
    /// No sub-devices.
    NoSubDevices,
}

impl Need {
    /// The need that these words say.
    fn of(words: &str) -> Option<Need> {
        match words {
            "sub-devices" => Some(Need::SubDevices),
            "no sub-devices" => Some(Need::NoSubDevices),
            _ => match words.split_once(' ') {
                Some((first, word)) if first.eq_ignore_ascii_case(SET) => {
                    Some(Need::Settable(pid_said(word.trim())?))
                }
                _ => Some(Need::Parameter(pid_said(words)?)),
            },
        }
    }
}

/// The PID that a word says: 4 digits, or the name of the parameter.
fn pid_said(word: &str) -> Option<u16> {
    match word_in(word.as_bytes()) {
        Some(pid) => Some(pid),
        None => parameter_named(word),
    }
}

/// The needs of the script of this name: those that its comments say before its first step. One that comes later is rejected.
pub(crate) fn needs_in<'a>(
    alloc: Global,
    name: &'a str,
    script: &[u8],
) -> Result<Vec<Need>, Fault<'a>> {
    let mut needs = Vec::new(alloc);
    let mut has_begun = false;
    for (index, line) in script.split(|byte| *byte == b'\n').enumerate() {
        let number = index.saturating_add(1);
        match said_in(line) {
            Said::Nothing => {}
            Said::Step => has_begun = true,
            Said::Need(_) if has_begun => return Err(Fault::Expectation(name, number, LATE)),
            Said::Need(words) => match Need::of(words) {
                Some(need) => needs.push(need)?,
                None => return Err(Fault::Expectation(name, number, FLAW)),
            },
        }
    }
    Ok(needs)
}

/// What a line of a script says of its needs.
#[derive(Clone, Copy)]
enum Said<'a> {
    /// A need, in these words.
    Need(&'a str),
    /// None: it is a step, or what is expected of one.
    Step,
    /// None: it is empty or another comment.
    Nothing,
}

/// What this line says of needs.
fn said_in(line: &[u8]) -> Said<'_> {
    let Ok(text) = str::from_utf8(line) else {
        return Said::Step;
    };
    let text = text.trim();
    match text.strip_prefix('#') {
        Some(comment) => match words_in(comment.trim()) {
            Some(words) => Said::Need(words),
            None => Said::Nothing,
        },
        None if text.is_empty() => Said::Nothing,
        None => Said::Step,
    }
}

/// The words of a need, if a comment says one, with a colon or without.
fn words_in(comment: &str) -> Option<&str> {
    let behind = comment.strip_prefix(NEEDS)?;
    let words = behind.strip_prefix(':').unwrap_or(behind);
    if words.is_empty() || words.starts_with(' ') || words.starts_with('\t') {
        Some(words.trim())
    } else {
        None
    }
}
