//! What is told of a fault, in words.

use crate::fault::Fault;
use crate::name::Name;
use rdm_crew::RunError;
use rdm_frame::standard::MOST_DATA;
use rdm_usage::MOST_FIXTURES;
use std::fmt;

impl fmt::Display for Fault<'_> {
    fn fmt<W: fmt::Write>(&self, f: &mut fmt::Formatter<W>) -> fmt::Result {
        match self {
            Fault::Memory => f.write_str("error: out of memory"),
            Fault::Line(fault) => write!(f, "{fault}"),
            Fault::Clock(error) => write!(f, "error: clock: {error}"),
            Fault::Io(name, error) => write!(f, "error: {}: {error}", Name(name)),
            Fault::TooLong(_, _)
            | Fault::TooManyKeys(_, _)
            | Fault::NoTrace(_, _)
            | Fault::NoCapture(_, _)
            | Fault::NoText(_, _)
            | Fault::Syntax(_, _, _)
            | Fault::TooManyTransactions(_, _) => write_unread(f, self),
            Fault::Script(_, _)
            | Fault::NoOwnNames(_, _)
            | Fault::NoScript(_, _)
            | Fault::Expectation(_, _, _)
            | Fault::Unmet(_)
            | Fault::Wrong(_)
            | Fault::Stopped(_, _, _)
            | Fault::BadSetup(_, _, _) => write_unplayed(f, self),
            Fault::Fixture(_, _, _)
            | Fault::NoDevice
            | Fault::NotSaved(_)
            | Fault::OtherProfile(_) => write_no_fixture(f, self),
            _ => write_refused(f, self),
        }
    }
}

/// Writes why a file isn't read.
fn write_unread<W: fmt::Write>(f: &mut fmt::Formatter<W>, fault: &Fault<'_>) -> fmt::Result {
    match fault {
        Fault::TooLong(name, most) => write!(f, "{}: more than {most} bytes", Name(name)),
        Fault::TooManyKeys(name, most) => write!(f, "{}: more than {most} keys", Name(name)),
        Fault::NoTrace(name, line) => write!(
            f,
            "{}:{line}: this isn't a valid line of a trace",
            Name(name)
        ),
        Fault::NoCapture(name, byte) => write!(
            f,
            "{}: this isn't a valid capture from byte {byte} on",
            Name(name)
        ),
        Fault::NoText(name, place) => write!(f, "{}:{place}: this isn't valid UTF-8", Name(name)),
        Fault::Syntax(name, place, error) => write!(
            f,
            "{}:{place}: {}",
            Name(name),
            Name(error.message())
        ),
        Fault::TooManyTransactions(name, most) => write!(
            f,
            "{}: a chart can't have more than {most} transactions",
            Name(name)
        ),
        _ => Ok(()),
    }
}

/// Writes why a script isn't played, or not to its end.
fn write_unplayed<W: fmt::Write>(f: &mut fmt::Formatter<W>, fault: &Fault<'_>) -> fmt::Result {
    match fault {
        Fault::Script(name, refusal) => write!(f, "{}:{refusal}", Name(name)),
        Fault::NoOwnNames(name, refusal) => write!(
            f,
            "{}:{refusal}: --fixture FILE gives them",
            Name(name)
        ),
        Fault::NoScript(name, error) => write!(f, "{}: {error}", Name(name)),
        Fault::Expectation(name, line, reason) => write!(f, "{}:{line}: {reason}", Name(name)),
        Fault::Unmet(1) => f.write_str("error: one expectation failed"),
        Fault::Unmet(count) => write!(f, "error: {count} expectations failed"),
        Fault::Wrong(1) => f.write_str("error: one reply breaks the reply rules"),
        Fault::Wrong(count) => write!(f, "error: {count} replies break the reply rules"),
        Fault::Stopped(name, line, error) => {
            write_place(f, name, *line)?;
            write_stop(f, *error)
        }
        Fault::BadSetup(name, line, most) => {
            write_place(f, name, *line)?;
            write!(
                f,
                "this isn't a valid setup: expected at most {most} sub-devices, "
            )?;
            f.write_str("and room for 1 to 1024 results")
        }
        _ => Ok(()),
    }
}

/// Writes why there is no fixture.
fn write_no_fixture<W: fmt::Write>(f: &mut fmt::Formatter<W>, fault: &Fault<'_>) -> fmt::Result {
    match fault {
        Fault::Fixture(name, line, refusal) => {
            write_place(f, name, *line)?;
            write!(f, "{refusal}")
        }
        Fault::NoDevice => f.write_str("error: this isn't a valid fixture"),
        Fault::NotSaved(name) => write!(f, "{}: this isn't a file of saved values", Name(name)),
        Fault::OtherProfile(name) => write!(
            f,
            "{}: these are the saved values of another fixture",
            Name(name)
        ),
        _ => Ok(()),
    }
}

/// Writes what the command line asks for and can't be done.
fn write_refused<W: fmt::Write>(f: &mut fmt::Formatter<W>, fault: &Fault<'_>) -> fmt::Result {
    match fault {
        Fault::ReadTwice => f.write_str("error: standard input can only be read once"),
        Fault::WrittenTwice(first, second) => write!(
            f,
            "error: standard output can't take both {first} and {second}"
        ),
        Fault::Overwritten(path) => {
            write!(
                f,
                "error: {}: input and output are the same file",
                Name(path)
            )
        }
        Fault::SameOutput(path) => {
            write!(f, "error: {}: two outputs are the same file", Name(path))
        }
        Fault::TooManySubs(name, 0) => write!(
            f,
            "error: --subs: {}: the fixture has no sub-devices",
            Name(name)
        ),
        Fault::TooManySubs(name, most) => write!(
            f,
            "error: --subs: {}: the fixture has only {most} sub-devices",
            Name(name)
        ),
        Fault::TooManyFixtures(_, _)
        | Fault::BadCount(_)
        | Fault::TooFewDeviceIds(_, _, _)
        | Fault::TwoOfOneUid(_, _)
        | Fault::SavedOfMany(_) => write_no_rig(f, fault),
        Fault::NoParameter(name) => write!(
            f,
            "error: {}: the fixture has no such parameter; felosumay parameters lists them",
            Name(name)
        ),
        Fault::ControllersUid(name, uid) => write!(
            f,
            "error: {}: {uid} is the controller's UID, so no script can be played on this fixture",
            Name(name)
        ),
        _ => f.write_str("error: an argument isn't valid UTF-8"),
    }
}

/// Writes why the fixtures that the command line asks for can't be on one line.
fn write_no_rig<W: fmt::Write>(f: &mut fmt::Formatter<W>, fault: &Fault<'_>) -> fmt::Result {
    match fault {
        Fault::TooManyFixtures(kinds, 1) => write!(
            f,
            "error: --fixture: {kinds} fixtures exceed the limit of {MOST_FIXTURES}"
        ),
        Fault::TooManyFixtures(kinds, each) => {
            let count = kinds.saturating_mul(usize::from(*each));
            write!(
                f,
                "error: --count: {each} of each of {kinds} files are {count} fixtures, more than {MOST_FIXTURES}"
            )
        }
        Fault::BadCount(word) => write!(
            f,
            "error: --fixture: {}: there can be 1 to {MOST_FIXTURES} of a fixture",
            Name(word)
        ),
        Fault::TooFewDeviceIds(name, uid, count) => write!(
            f,
            "error: {}: there are fewer than {count} device IDs from {uid} on",
            Name(name)
        ),
        Fault::TwoOfOneUid(name, uid) => write!(
            f,
            "error: {}: two fixtures would have the UID {uid}",
            Name(name)
        ),
        Fault::SavedOfMany(count) => write!(
            f,
            "error: --saved: a file keeps the values of one fixture, not of {count}"
        ),
        _ => Ok(()),
    }
}

/// Writes the name of a file, and a line of it if it is known.
fn write_place<W: fmt::Write>(
    f: &mut fmt::Formatter<W>,
    name: &str,
    line: Option<usize>,
) -> fmt::Result {
    let name = Name(name);
    match line {
        Some(line) => write!(f, "{name}:{line}: "),
        None => write!(f, "{name}: "),
    }
}

/// Writes why the run of a script stops.
fn write_stop<W: fmt::Write>(f: &mut fmt::Formatter<W>, error: RunError) -> fmt::Result {
    match error {
        RunError::Reserved => f.write_str(
            "QUEUED_MESSAGE and STATUS_MESSAGES are reserved for the controller's polls: use collect",
        ),
        RunError::TooLong => {
            write!(f, "a frame can't carry more than {MOST_DATA} bytes of data")
        }
        RunError::Unsettled => { f.write_str("settle timed out: too many looks without a report") }
        RunError::BadSetup | RunError::OutOfMemory | RunError::Astray | RunError::Missing => {
            write!(f, "run {error}")
        }
    }
}
