//! What is told of expectations, in words.

use crate::judging::{Answer, Came, Verdict};
use crate::reasons::REASONS;
use crate::sheet::Expectation;
use crate::tally::{Tally, tally_of};
use crate::wish::Wish;
use rdm_collector::Response;
use rdm_table::parameter_name;
use std::alloc::AllocError;
use std::fmt;
use std::fmt::Write;

impl fmt::Display for Wish {
    fn fmt<W: fmt::Write>(&self, f: &mut fmt::Formatter<W>) -> fmt::Result {
        match self {
            Wish::Ack => f.write_str("ACK"),
            Wish::AckTimer => f.write_str("ACK_TIMER"),
            Wish::AckOverflow => f.write_str("ACK_OVERFLOW"),
            Wish::Nack(None) => f.write_str("NACK"),
            Wish::Nack(Some(code)) => write_nack(f, *code),
            Wish::Data(data) => write_data(f, data.as_slice()),
            Wish::Length { least, most } if least == most => write!(f, "LENGTH {least}"),
            Wish::Length { least, most } => write!(f, "LENGTH {least} to {most}"),
            Wish::MessageCount(count) => write!(f, "MESSAGE_COUNT {count}"),
            Wish::Parameter(pid) => write_parameter(f, *pid),
            Wish::Found => f.write_str("found"),
            Wish::Nothing => f.write_str("nothing"),
            Wish::Reply => f.write_str("reply"),
            Wish::Within(millis) => write!(f, "within {millis} ms"),
        }
    }
}

/// An expectation that fails: what it wants, and what came.
#[derive(Clone, Copy)]
pub struct Failure<'a> {
    /// What it wants.
    pub wish: &'a Wish,
    /// What came.
    pub came: &'a Came,
}

impl fmt::Display for Failure<'_> {
    fn fmt<W: fmt::Write>(&self, f: &mut fmt::Formatter<W>) -> fmt::Result {
        let wish = self.wish;
        write!(f, "expected {wish}, got ")?;
        match self.came {
            Came::NoRequest => f.write_str("no request, since the run ended before it"),
            Came::Nothing => f.write_str("nothing"),
            Came::Other => f.write_str("something that isn't a reply to it"),
            Came::Reply(answer) => write_answer(f, wish, answer),
            Came::After(millis) => write!(f, "a reply after {millis} ms"),
        }
    }
}

/// Writes what a reply has in place of what is wanted.
fn write_answer<W: fmt::Write>(
    f: &mut fmt::Formatter<W>,
    wish: &Wish,
    answer: &Answer,
) -> fmt::Result {
    let data = answer.body.as_slice();
    let length = data.len();
    let waiting = answer.waiting;
    match wish {
        Wish::Length { .. } => write!(f, "LENGTH {length}"),
        Wish::MessageCount(_) => write!(f, "MESSAGE_COUNT {waiting}"),
        Wish::Parameter(_) => write_parameter(f, answer.pid),
        _ => write_response(f, answer.response, data),
    }
}

/// Writes a parameter by its name or by its PID.
fn write_parameter<W: fmt::Write>(f: &mut fmt::Formatter<W>, pid: u16) -> fmt::Result {
    match parameter_name(pid) {
        Some(name) => write!(f, "PARAMETER {name}"),
        None => write!(f, "PARAMETER {pid:04X}"),
    }
}

/// Writes a response. The data of ACK_TIMER and NACK_REASON are their estimate and their reason (E1.20 sections 6.3.3 and 6.3.4).
fn write_response<W: fmt::Write>(
    f: &mut fmt::Formatter<W>,
    response: Response,
    data: &[u8],
) -> fmt::Result {
    match response {
        Response::Ack => f.write_str("ACK, ")?,
        Response::AckOverflow => f.write_str("ACK_OVERFLOW, ")?,
        Response::AckTimer { tenths } => {
            return write!(f, "ACK_TIMER {}.{} s", tenths / 10, tenths % 10);
        }
        Response::Nack { reason } => return write_nack(f, reason),
    }
    write_data(f, data)
}

/// Writes a NACK, and its reason by the name or by the code.
fn write_nack<W: fmt::Write>(f: &mut fmt::Formatter<W>, code: u16) -> fmt::Result {
    for row in REASONS {
        if row.0 == code {
            return write!(f, "NACK {}", row.1);
        }
    }
    write!(f, "NACK {code:04X}")
}

/// Writes data, in hexadecimal digits, or a hyphen if there are none.
fn write_data<W: fmt::Write>(f: &mut fmt::Formatter<W>, data: &[u8]) -> fmt::Result {
    if data.is_empty() {
        return f.write_str("DATA -");
    }
    f.write_str("DATA ")?;
    for byte in data {
        write!(f, "{byte:02X}")?;
    }
    Ok(())
}

impl fmt::Display for Tally {
    fn fmt<W: fmt::Write>(&self, f: &mut fmt::Formatter<W>) -> fmt::Result {
        let Tally {
            passed,
            failed,
            skipped,
        } = *self;
        write!(f, "{passed} passed, {failed} failed")?;
        if skipped > 0 {
            write!(f, ", {skipped} skipped")?;
        }
        Ok(())
    }
}

/// Puts a line for each expectation that doesn't hold or can't be judged at the end of a text, and one with how many there are of each.
/// Where a name is given, as one of several scripts, each line begins with it. Only tests show what the lines say.
pub fn put_report(
    text: &mut String,
    name: Option<&str>,
    expectations: &[Expectation],
    verdicts: &[Verdict],
) -> Result<(), AllocError> {
    for (expectation, verdict) in expectations.iter().zip(verdicts) {
        put_verdict(text, name, expectation, verdict)?;
    }
    let tally = tally_of(verdicts);
    match name {
        Some(name) => write!(text, "{name}: {tally}\n"),
        None => write!(text, "{tally}\n"),
    }
}

/// Puts a line for an expectation, unless it holds.
fn put_verdict(
    text: &mut String,
    name: Option<&str>,
    expectation: &Expectation,
    verdict: &Verdict,
) -> Result<(), AllocError> {
    let Expectation { line, wish, .. } = expectation;
    match verdict {
        Verdict::Passed => Ok(()),
        Verdict::Failed(came) => {
            put_line_number(text, name, *line)?;
            let failure = Failure { wish, came };
            write!(text, "{failure}\n")
        }
        Verdict::Skipped => {
            put_line_number(text, name, *line)?;
            write!(text, "skipped {wish}: the trace has no times\n")
        }
    }
}

/// Puts the number of a line, and the name of its script, if that is given.
fn put_line_number(text: &mut String, name: Option<&str>, line: usize) -> Result<(), AllocError> {
    match name {
        Some(name) => write!(text, "{name}:{line}: "),
        None => write!(text, "line {line}: "),
    }
}
