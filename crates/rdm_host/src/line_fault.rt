//! Why a console couldn't do its work on a line.

use crate::fault::{BAD_USAGE, Fault};
use crate::name::Name;
use rdm_collector::{AskError, PollError, PortError};
use rdm_console::{AskFault, PollFault};
use rdm_entry::Complaint;
use rdm_frame::Uid;
use rdm_frame::standard::MOST_DATA;
use rdm_interface::SearchFault;
use rdm_params::reason_name;
use rdm_script::Refusal;
use rdm_search::SearchError;
use rdm_surveyor::SurveyFault;
use std::fmt;

/// What is printed on standard error of a line.
#[derive(Drop)]
pub enum LineFault<'a> {
    /// A word isn't a UID.
    NoUid(&'a str),
    /// A word of a command isn't what it has to be.
    Word(Refusal),
    /// A word isn't a parameter, but perhaps it means this one.
    NoParameter(&'a str, Option<&'static str>),
    /// A word says nothing for a field of the data of a command.
    NoData(Complaint<'a>),
    /// A word isn't data in hexadecimal digits.
    NoDigits(&'a str),
    /// The words aren't one command.
    NoCommand,
    /// The console can't have this UID: it is that of several devices, or of the one that it talks to.
    ConsolesUid(Uid),
    /// Only a SET can be sent to the devices of this UID, which are several.
    Several(Uid),
    /// The command asks for what only `collect` fetches.
    Reserved,
    /// The command has more data than a frame can carry.
    TooLong,
    /// Another request waits for its answer.
    Busy,
    /// This isn't a port, so nothing was written to it.
    NoPort(&'a str),
    /// Another program has locked this port.
    Taken(&'a str),
    /// No interface answers on this port.
    NoInterface(&'a str),
    /// The port is closed at its other end.
    Closed(&'a str),
    /// The port failed.
    Port(PortError),
    /// No device answers.
    NoDevice,
    /// The search took more transactions than a line of 512 devices needs.
    Unsearched,
    /// The device doesn't answer.
    Silent(Uid),
    /// The device rejects the command.
    Rejected(Uid),
    /// A command that took time failed, for this reason.
    Failed(String),
    /// The device answers by a response type that E1.20 doesn't have.
    Unknown(Uid),
    /// The device doesn't have QUEUED_MESSAGE.
    NoQueue(Uid),
    /// The device rejects QUEUED_MESSAGE, for the reason with this code.
    Refused(Uid, u16),
    /// The result of a slow command doesn't come.
    NoResult(Uid),
    /// The device gives more parts or messages than there can be.
    Endless(Uid),
    /// A file isn't what the command reads, for this reason.
    File(&'a str, String),
    /// A file has so many settings that can't be right, each of which was told.
    Unsettled(&'a str, usize),
    /// The devices need slots up to this one.
    NoRoom(u32),
    /// So many of so many settings weren't made, each of which was told.
    Undone(usize, usize),
    /// So many things differ from a survey, each of which was told.
    Differs(usize),
    /// The device has another value than the one that was set.
    OtherValue(Uid),
    /// Of a command and a file of settings, neither is given, or both.
    OneOfBoth,
    /// No file can describe the device.
    Indescribable(Uid),
}

impl LineFault<'_> {
    /// The exit status, by the table of docs/FELOSUMAY.md.
    pub fn status(&self) -> u8 {
        match self {
            LineFault::NoUid(_)
            | LineFault::Word(_)
            | LineFault::NoParameter(_, _)
            | LineFault::NoData(_)
            | LineFault::NoDigits(_)
            | LineFault::NoCommand
            | LineFault::ConsolesUid(_)
            | LineFault::Several(_)
            | LineFault::Reserved
            | LineFault::TooLong
            | LineFault::OneOfBoth => BAD_USAGE,
            LineFault::File(_, _) | LineFault::Unsettled(_, _) | LineFault::Differs(_) => 1,
            LineFault::NoPort(_)
            | LineFault::Taken(_)
            | LineFault::NoInterface(_)
            | LineFault::Closed(_)
            | LineFault::Port(_)
            | LineFault::Busy => 4,
            LineFault::NoDevice
            | LineFault::Unsearched
            | LineFault::Silent(_)
            | LineFault::Rejected(_)
            | LineFault::Failed(_)
            | LineFault::Unknown(_)
            | LineFault::NoQueue(_)
            | LineFault::Refused(_, _)
            | LineFault::NoResult(_)
            | LineFault::Endless(_)
            | LineFault::OtherValue(_)
            | LineFault::NoRoom(_)
            | LineFault::Undone(_, _)
            | LineFault::Indescribable(_) => 3,
        }
    }

    /// Whether it is one device that is at fault, so that others may be asked.
    pub fn is_of_device(&self) -> bool {
        matches!(
            self,
            LineFault::Silent(_)
                | LineFault::Rejected(_)
                | LineFault::Failed(_)
                | LineFault::Unknown(_)
                | LineFault::NoQueue(_)
                | LineFault::Refused(_, _)
                | LineFault::NoResult(_)
                | LineFault::Endless(_)
                | LineFault::OtherValue(_)
        )
    }
}

impl From<PortError> for Fault<'_> {
    fn from(error: PortError) -> Self {
        Fault::Line(LineFault::Port(error))
    }
}

impl From<AskError> for Fault<'_> {
    fn from(error: AskError) -> Self {
        match error {
            AskError::Reserved => Fault::Line(LineFault::Reserved),
            AskError::TooLong => Fault::Line(LineFault::TooLong),
            AskError::Busy => Fault::Line(LineFault::Busy),
        }
    }
}

impl From<PollError> for Fault<'_> {
    fn from(error: PollError) -> Self {
        match error {
            PollError::OutOfMemory => Fault::Memory,
            PollError::Busy => Fault::Line(LineFault::Busy),
        }
    }
}

impl From<AskFault> for Fault<'_> {
    fn from(fault: AskFault) -> Self {
        match fault {
            AskFault::Ask(error) => Fault::from(error),
            AskFault::Port(error) => Fault::from(error),
        }
    }
}

impl From<PollFault> for Fault<'_> {
    fn from(fault: PollFault) -> Self {
        match fault {
            PollFault::Poll(error) => Fault::from(error),
            PollFault::Port(error) => Fault::from(error),
        }
    }
}

impl From<SearchFault> for Fault<'_> {
    fn from(fault: SearchFault) -> Self {
        match fault {
            SearchFault::Port(error) => Fault::Line(LineFault::Port(error)),
            SearchFault::Search(SearchError::OutOfMemory) => Fault::Memory,
            SearchFault::Search(SearchError::Limit) => Fault::Line(LineFault::Unsearched),
        }
    }
}

impl From<SurveyFault> for Fault<'_> {
    fn from(fault: SurveyFault) -> Self {
        match fault {
            SurveyFault::OutOfMemory => Fault::Memory,
            SurveyFault::Ask(error) => Fault::from(error),
            SurveyFault::Port(error) => Fault::from(error),
        }
    }
}

impl fmt::Display for LineFault<'_> {
    fn fmt<W: fmt::Write>(&self, f: &mut fmt::Formatter<W>) -> fmt::Result {
        f.write_str("error: ")?;
        match self {
            LineFault::NoUid(word) => write!(
                f,
                "\"{}\" isn't a valid UID: expected 4 and 8 hexadecimal digits, such as 7FF0:00000001",
                Name(word)
            ),
            LineFault::Word(refusal) => {
                let reason = refusal.reason();
                write!(f, "{reason}")
            }
            LineFault::NoParameter(_, _) | LineFault::NoData(_) | LineFault::NoDigits(_) => {
                write_no_word(f, self)
            }
            LineFault::NoCommand => f.write_str("expected exactly one command"),
            LineFault::ConsolesUid(uid) => write!(
                f,
                "--from: {uid} can't send: expected the UID of a single device, and not that of --uid"
            ),
            LineFault::Several(uid) => {
                write!(
                    f,
                    "{uid} isn't a single device: only set can address several"
                )
            }
            LineFault::Reserved => f.write_str(
                "use collect to fetch QUEUED_MESSAGE and STATUS_MESSAGES",
            ),
            LineFault::TooLong => write!(
                f,
                "a frame can't carry more than {MOST_DATA} bytes of data"
            ),
            LineFault::NoPort(_)
            | LineFault::Taken(_)
            | LineFault::NoInterface(_)
            | LineFault::Closed(_)
            | LineFault::Port(_)
            | LineFault::Busy => { write_no_port(f, self) }
            LineFault::File(_, _)
            | LineFault::Unsettled(_, _)
            | LineFault::NoRoom(_)
            | LineFault::Undone(_, _)
            | LineFault::Differs(_)
            | LineFault::OneOfBoth => write_of_several(f, self),
            _ => write_unanswered(f, self),
        }
    }
}

/// Writes what is wrong with what is asked of several devices.
fn write_of_several<W: fmt::Write>(
    f: &mut fmt::Formatter<W>,
    fault: &LineFault<'_>,
) -> fmt::Result {
    match fault {
        LineFault::File(path, reason) => write!(f, "{}: {reason}", Name(path)),
        LineFault::Unsettled(path, 1) => write!(
            f,
            "{}: nothing was set: one setting is invalid",
            Name(path)
        ),
        LineFault::Unsettled(path, count) => write!(
            f,
            "{}: nothing was set: {count} settings are invalid",
            Name(path)
        ),
        LineFault::NoRoom(last) => write!(f, "the devices need {last} slots, but DMX512 has 512"),
        LineFault::Undone(undone, count) => write!(f, "{undone} of {count} failed"),
        LineFault::Differs(1) => f.write_str("one difference"),
        LineFault::Differs(count) => write!(f, "{count} differences"),
        LineFault::OneOfBoth => f.write_str(
            "expected either a UID and a parameter, or --from FILE.csv",
        ),
        _ => Ok(()),
    }
}

/// Writes which word of a command isn't what it has to be.
fn write_no_word<W: fmt::Write>(f: &mut fmt::Formatter<W>, fault: &LineFault<'_>) -> fmt::Result {
    match fault {
        LineFault::NoParameter(word, Some(name)) => write!(
            f,
            "\"{word}\" isn't a valid parameter: is it {name}?"
        ),
        LineFault::NoParameter(word, None) => write!(
            f,
            "\"{word}\" isn't a valid parameter: expected 4 hexadecimal digits, or a name in E1.20 such as DEVICE_INFO; manufacturer parameters only have a PID"
        ),
        LineFault::NoData(complaint) => write!(f, "{complaint}"),
        LineFault::NoDigits(word) => write!(
            f,
            "\"{word}\" isn't valid data: expected -, or two hexadecimal digits for each byte, since this parameter has no description"
        ),
        _ => Ok(()),
    }
}

/// Writes why nothing can be sent on a port.
fn write_no_port<W: fmt::Write>(f: &mut fmt::Formatter<W>, fault: &LineFault<'_>) -> fmt::Result {
    match fault {
        LineFault::NoPort(path) => write!(
            f,
            "{}: this isn't a serial port: expected a terminal device, such as /dev/ttyUSB0",
            Name(path)
        ),
        LineFault::Taken(path) => write!(f, "{}: another program uses this port", Name(path)),
        LineFault::NoInterface(path) => write!(
            f,
            "{}: no interface answers: is this an ENTTEC DMX USB Pro or compatible, and is the port in raw mode?",
            Name(path)
        ),
        LineFault::Closed(path) => write!(
            f,
            "{}: the line is closed, or the port isn't set to min 0 time 1",
            Name(path)
        ),
        LineFault::Port(error) => write!(f, "{error}"),
        LineFault::Busy => f.write_str("another request is still waiting for its answer"),
        _ => Ok(()),
    }
}

/// Writes what was sent in vain.
fn write_unanswered<W: fmt::Write>(
    f: &mut fmt::Formatter<W>,
    fault: &LineFault<'_>,
) -> fmt::Result {
    match fault {
        LineFault::NoDevice => f.write_str(
            "no device answers: check the cable, the terminator, and that the devices are powered and have RDM enabled",
        ),
        LineFault::Silent(uid) => write!(
            f,
            "{uid}: no answer; does find list it, and is it powered?"
        ),
        LineFault::Rejected(uid) => write!(f, "{uid} rejects the command"),
        LineFault::Failed(reason) => write!(f, "the command failed: {reason}"),
        LineFault::Unknown(uid) => {
            write!(
                f,
                "{uid} answers with a response type that E1.20 doesn't define"
            )
        }
        LineFault::NoQueue(uid) => write!(f, "{uid} has no QUEUED_MESSAGE"),
        LineFault::Refused(uid, code) => {
            let reason = Reason(*code);
            write!(f, "{uid} rejects QUEUED_MESSAGE: {reason}")
        }
        LineFault::NoResult(uid) => write!(f, "{uid} sent no result in time"),
        LineFault::Endless(uid) => write!(f, "{uid} keeps sending messages"),
        LineFault::OtherValue(uid) => write!(f, "{uid} accepted the value but reports another one"),
        LineFault::Indescribable(uid) => write!(f, "no file can describe {uid}"),
        _ => f.write_str("the search doesn't end"),
    }
}

/// The reason of a NACK with this code, in words (E1.20 table A-17).
#[derive(Clone, Copy)]
pub struct Reason(pub u16);

impl fmt::Display for Reason {
    fn fmt<W: fmt::Write>(&self, f: &mut fmt::Formatter<W>) -> fmt::Result {
        let code = self.0;
        match reason_name(code) {
            Some(reason) => f.write_str(reason),
            None => write!(f, "reason {code:04X}"),
        }
    }
}
