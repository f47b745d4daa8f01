//! A value is read, and printed alone.

use crate::entry::{FIRST_OF_MAKERS, description_of};
use rdm_collector::{Command, Port, Want};
use rdm_console::Mailbox;
use rdm_entry::{Field, fields_replied, words_of};
use rdm_frame::Uid;
use rdm_frame::digits::put_digits;
use rdm_host::fault::Fault;
use rdm_host::host::Host;
use rdm_line_talk::{CONSOLE, Console, Outcome, Tally, Targets, Teller, fault_of};
use rdm_params::reason_name;
use std::alloc::{AllocError, Global};
use std::io::Write;

/// Of which devices a value is read, and the GET of it.
#[derive(Drop)]
pub struct Reading {
    targets: Targets,
    command: Command,
}

impl Reading {
    /// The value that this GET reads of these devices.
    pub(crate) fn new(targets: Targets, command: Command) -> Reading {
        Reading { targets, command }
    }
}

/// Reads the value of each device and prints it, a line each: by the words with which a SET sets it, or in hexadecimal digits if there are
/// none. If several devices are asked, its UID stands in front. All else that is heard is told on standard error.
pub(crate) fn read_each<'a, H: Host, P: Port, F: Write>(
    console: &mut Console<'a, H, P, F>,
    reading: &Reading,
) -> Result<(), Fault<'a>> {
    let output = console.teller;
    console.teller = output.on_errors();
    let uids = console.uids_of(&reading.targets)?;
    let mut tally = Tally::new(uids.len());
    for uid in &uids {
        let command = Command {
            dst: *uid,
            ..reading.command.copy()
        };
        let done = read(console, &output, &command, uids.len() > 1);
        tally.take(&console.teller, done)?;
    }
    tally.end()
}

/// Reads the value of a device and prints it, behind its UID if it is named.
fn read<'a, H: Host, P: Port, F: Write>(
    console: &mut Console<'a, H, P, F>,
    output: &Teller<H>,
    command: &Command,
    is_named: bool,
) -> Result<(), Fault<'a>> {
    let alloc = output.rt().alloc();
    let data = data_of(console, command)?;
    let fields = fields_in(console, command, data.len())?;
    let mut line = Vec::new(alloc);
    if is_named {
        put_uid(&mut line, command.dst)?;
    }
    put_value(alloc, &mut line, fields.as_deref(), data.as_slice())?;
    output.tell(line.as_slice())
}

/// The data that a device replies to a GET. If it rejects it, the reason is told.
fn data_of<'a, H: Host, P: Port, F: Write>(
    console: &mut Console<'a, H, P, F>,
    command: &Command,
) -> Result<Vec<u8>, Fault<'a>> {
    let uid = command.dst;
    let alloc = console.teller.rt().alloc();
    let mut mailbox = Mailbox::new(alloc, CONSOLE, uid, Want::Advisory);
    let outcome = console.outcome(&mut mailbox, command)?;
    if let Outcome::Rejected(reason) = outcome {
        let name = reason_name(reason).unwrap_or("an unknown reason");
        let line = format!(in alloc; "{uid}: {name}\n")?;
        console.teller.tell(line.as_bytes())?;
    }
    match outcome {
        Outcome::Done(data) => Ok(data),
        outcome => Err(Fault::Line(fault_of(uid, outcome))),
    }
}

/// The fields of what a device replies in so many slots: as the standards say, or as it describes a parameter of its maker's own.
fn fields_in<'a, H: Host, P: Port, F: Write>(
    console: &mut Console<'a, H, P, F>,
    command: &Command,
    slots: usize,
) -> Result<Option<Vec<Field>>, Fault<'a>> {
    if command.pid >= FIRST_OF_MAKERS {
        return description_of(console, command.dst, command.pid);
    }
    let alloc = console.teller.rt().alloc();
    Ok(fields_replied(alloc, command.pid, slots)?)
}

/// Puts a UID and a blank at the end of a line.
fn put_uid<'a>(line: &mut Vec<u8>, uid: Uid) -> Result<(), Fault<'a>> {
    let text = format!(in *line.allocator(); "{uid} ")?;
    line.extend_from_slice(text.as_bytes())?;
    Ok(())
}

/// Puts a value at the end of a line, and ends it.
fn put_value(
    alloc: Global,
    line: &mut Vec<u8>,
    fields: Option<&[Field]>,
    data: &[u8],
) -> Result<(), AllocError> {
    match fields {
        Some(fields) => match words_of(alloc, fields, data)? {
            Some(words) => put_words(line, words.as_slice())?,
            None => put_digits(line, data)?,
        },
        None => put_digits(line, data)?,
    }
    line.push(b'\n')?;
    Ok(())
}

/// Puts words at the end of a line, with blanks between.
fn put_words(line: &mut Vec<u8>, words: &[Vec<u8>]) -> Result<(), AllocError> {
    for (index, word) in words.iter().enumerate() {
        if index > 0 {
            line.push(b' ')?;
        }
        line.extend_from_slice(word.as_slice())?;
    }
    Ok(())
}
