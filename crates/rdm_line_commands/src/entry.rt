//! The data of a command, as people write them.

use rdm_collector::{Action, Command, Load, Port, Response, Want, read_reply};
use rdm_console::Mailbox;
use rdm_entry::{
    Complaint, Field, fields_described, fields_of, nearest_parameter, parameter_named,
};
use rdm_frame::Uid;
use rdm_frame::digits::word_in;
use rdm_frame::standard::{MOST_DATA, PARAMETER_DESCRIPTION};
use rdm_host::fault::Fault;
use rdm_host::host::Host;
use rdm_host::line_fault::LineFault;
use rdm_line_talk::{CONSOLE, Console};
use rdm_params::Verb;
use rdm_settings::{Unsaid, data_of};
use std::alloc::Global;
use std::io::Write;

/// The word for no data.
const NO_DATA: &str = "-";

/// How many characters a word has at most: two digits for each byte that a frame can carry.
const MOST_DIGITS: usize = 2 * MOST_DATA;

/// The first PID of those that the standard leaves to makers (E1.20 table A-3).
pub(crate) const FIRST_OF_MAKERS: u16 = 0x8000;

/// The data that words say, as far as it is known.
#[derive(Drop)]
pub enum Entry {
    /// These.
    Data(Load),
    /// It isn't known here which fields the parameter has, but the device may describe it.
    Unknown,
}

/// A command whose data are to be read as the device describes its parameter.
#[derive(Drop)]
pub struct Described<'a> {
    command: Command,
    words: Vec<&'a str>,
}

impl<'a> Described<'a> {
    /// A command without its data, and the words of these.
    pub(crate) fn new(
        alloc: Global,
        command: Command,
        words: &[&'a str],
    ) -> Result<Described<'a>, Fault<'a>> {
        Ok(Described {
            command,
            words: Vec::from_slice(alloc, words)?,
        })
    }
}

/// The PID of the parameter that is named: by its name in the standard, in upper or lower case, or by four hexadecimal digits.
pub(crate) fn parameter_in<'a>(word: &'a str) -> Result<u16, Fault<'a>> {
    if let Some(pid) = word_in(word.as_bytes()) {
        return Ok(pid);
    }
    match parameter_named(word) {
        Some(pid) => Ok(pid),
        None => Err(Fault::Line(LineFault::NoParameter(word, nearest_parameter(word)))),
    }
}

/// The data that words say for a command. A single hyphen says that there are none. If each device it is for is a single one, they may
/// describe the parameter.
pub(crate) fn load_in<'a>(
    command: &Command,
    words: &[&'a str],
    may_describe: bool,
) -> Result<Entry, Fault<'a>> {
    if words == [NO_DATA].as_slice() {
        return Ok(Entry::Data(Load::new()));
    }
    if words.iter().any(|word| word.len() > MOST_DIGITS) {
        return Err(Fault::Line(LineFault::TooLong));
    }
    let verb = match command.action {
        Action::Set => Verb::Set,
        Action::Get | Action::Disc => Verb::Get,
    };
    match fields_of(command.pid, verb) {
        None if may_describe && is_describable(command) => Ok(Entry::Unknown),
        fields => Ok(Entry::Data(load_of(fields, words)?)),
    }
}

/// Whether a device may describe the data of a command (section 10.4.2): those of a SET of its maker's own parameters.
fn is_describable(command: &Command) -> bool {
    command.action == Action::Set && command.pid >= FIRST_OF_MAKERS
}

/// The data that words say for these fields, or in hexadecimal digits where nobody knows them.
fn load_of<'a>(fields: Option<&[Field]>, words: &[&'a str]) -> Result<Load, Fault<'a>> {
    match data_of(fields, words) {
        Ok(load) => Ok(load),
        Err(unsaid) => Err(Fault::Line(fault_of(unsaid, fields.unwrap_or(&[]), words))),
    }
}

/// The fault of words that aren't data.
fn fault_of<'a>(unsaid: Unsaid, fields: &[Field], words: &[&'a str]) -> LineFault<'a> {
    match unsaid {
        Unsaid::Field(error) => LineFault::NoData(Complaint::of(error, fields, words)),
        Unsaid::Digits(index) => LineFault::NoDigits(words.get(index).copied().unwrap_or("")),
        Unsaid::TooLong => LineFault::TooLong,
        // Words of the command line are text.
        Unsaid::NoText => LineFault::NoCommand,
    }
}

/// Sends a command to this device, with the data that its words say by the description of the parameter. If the device gives none that
/// says which fields it has, the data are hexadecimal digits.
pub(crate) fn ask_described<'a, H: Host, P: Port, F: Write>(
    console: &mut Console<'a, H, P, F>,
    uid: Uid,
    described: &Described<'a>,
) -> Result<(), Fault<'a>> {
    let words = described.words.as_slice();
    let pid = described.command.pid;
    let fields = description_of(console, uid, pid)?;
    let load = load_of(fields.as_deref(), words)?;
    console.ask(&Command {
        dst: uid,
        load,
        ..described.command.copy()
    })
}

/// The fields of a parameter, as this device describes them.
pub(crate) fn description_of<'a, H: Host, P: Port, F: Write>(
    console: &mut Console<'a, H, P, F>,
    uid: Uid,
    pid: u16,
) -> Result<Option<Vec<Field>>, Fault<'a>> {
    let alloc = console.teller.rt().alloc();
    let mut mailbox = Mailbox::new(alloc, CONSOLE, uid, Want::Advisory);
    let Some(reply) = console.answer(&mut mailbox, &question(uid, pid))? else {
        return Err(Fault::Line(LineFault::Silent(uid)));
    };
    match read_reply(reply.as_slice()) {
        Some(said) if said.response == Response::Ack => { Ok(fields_described(alloc, said.body)?) }
        _ => Ok(None),
    }
}

/// Asks a device for the description of a parameter.
fn question(uid: Uid, pid: u16) -> Command {
    Command {
        dst: uid,
        action: Action::Get,
        sub: 0,
        pid: PARAMETER_DESCRIPTION,
        load: Load::of(&pid.to_be_bytes()),
    }
}
