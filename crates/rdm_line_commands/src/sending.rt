//! A command is sent to devices, or a value is read of them.

use crate::entry::{Described, Entry, ask_described, load_in, parameter_in};
use crate::plain::{Reading, read_each};
use clap::ArgMatches;
use rdm_bus::Fault as BusFault;
use rdm_collector::{Action, Command, Port, is_reserved};
use rdm_crew::CrewStep;
use rdm_frame::Uid;
use rdm_host::fault::Fault;
use rdm_host::host::Host;
use rdm_host::line_fault::LineFault;
use rdm_line_talk::{CONSOLE, Console, Tally, Targets};
use rdm_script::{Dialect, ScriptError, Spelling, parse_as, refusal_at};
use std::io::Write;

/// What is sent, and to which devices.
#[derive(Drop)]
pub enum Sending<'a> {
    /// A command.
    Ask(Targets, Command),
    /// The GET of a value, which is printed alone.
    Read(Reading),
    /// A command whose data the devices describe first.
    Describe(Targets, Described<'a>),
}

impl<'a> Sending<'a> {
    /// The command that is asked for: a parameter by its name, and its data as people write them. A GET to several devices by one UID is
    /// refused, since nobody answers it.
    pub fn asked_for<H: Host>(
        rt: H,
        action: Action,
        asked: &ArgMatches<'a>,
    ) -> Result<Sending<'a>, Fault<'a>> {
        let targets = match action {
            Action::Set => Targets::asked_for(rt.alloc(), asked)?,
            Action::Get | Action::Disc => Targets::single(rt.alloc(), asked)?,
        };
        let mut command = place_in(rt, CONSOLE, asked.get_str(rdm_usage::SUB).unwrap_or("root"))?;
        command.action = action;
        command.pid = parameter_in(asked.get_str(rdm_usage::PARAMETER).unwrap_or(""))?;
        if is_reserved(command.pid) {
            return Err(Fault::Line(LineFault::Reserved));
        }
        let words = asked.get_strs(rdm_usage::DATA).unwrap_or(&[]);
        let may_describe = targets.several().is_none();
        match load_in(&command, words, may_describe)? {
            Entry::Data(load) => {
                command.load = load;
                if action == Action::Get
                    && asked.get_str(rdm_usage::FORMAT) == Some(rdm_usage::PLAIN)
                {
                    return Ok(Sending::Read(Reading::new(targets, command)));
                }
                Ok(Sending::Ask(targets, command))
            }
            Entry::Unknown => {
                let described = Described::new(rt.alloc(), command, words)?;
                Ok(Sending::Describe(targets, described))
            }
        }
    }
}

/// Sends a command to each of its devices, or reads a value of each.
pub fn send_each<'a, H: Host, P: Port, F: Write>(
    console: &mut Console<'a, H, P, F>,
    sending: &Sending<'a>,
) -> Result<(), Fault<'a>> {
    match sending {
        Sending::Ask(targets, command) => ask_each(console, targets, command),
        Sending::Read(reading) => read_each(console, reading),
        Sending::Describe(targets, described) => describe_each(console, targets, described),
    }
}

/// Sends a command to each of these devices.
fn ask_each<'a, H: Host, P: Port, F: Write>(
    console: &mut Console<'a, H, P, F>,
    targets: &Targets,
    command: &Command,
) -> Result<(), Fault<'a>> {
    let uids = console.uids_of(targets)?;
    let mut tally = Tally::new(uids.len());
    for uid in &uids {
        let done = console.ask(&Command {
            dst: *uid,
            ..command.copy()
        });
        tally.take(&console.teller, done)?;
    }
    tally.end()
}

/// Sends a command to each of these devices, which describes its data first.
fn describe_each<'a, H: Host, P: Port, F: Write>(
    console: &mut Console<'a, H, P, F>,
    targets: &Targets,
    described: &Described<'a>,
) -> Result<(), Fault<'a>> {
    let uids = console.uids_of(targets)?;
    let mut tally = Tally::new(uids.len());
    for uid in &uids {
        let done = ask_described(console, *uid, described);
        tally.take(&console.teller, done)?;
    }
    tally.end()
}

/// A command without data to this device, and to the sub-device that is named as in a script.
fn place_in<'a, H: Host>(rt: H, uid: Uid, sub: &str) -> Result<Command, Fault<'a>> {
    let text = format!(in rt.alloc(); "get {uid} {sub} DEVICE_INFO -")?;
    command_in(rt, uid, text.as_bytes())
}

/// The one command that a line of a script says.
fn command_in<'a, H: Host>(rt: H, uid: Uid, text: &[u8]) -> Result<Command, Fault<'a>> {
    let dialect = Dialect::of(uid, Spelling::Friendly);
    let mut script = match parse_as(rt.alloc(), &dialect, text) {
        Ok(script) => script,
        Err(ScriptError::OutOfMemory) => return Err(Fault::Memory),
        Err(ScriptError::TooLong) => return Err(Fault::Line(LineFault::TooLong)),
        Err(ScriptError::Line(number)) => {
            let refusal = refusal_at(&dialect, text, number);
            return Err(Fault::Line(LineFault::Word(refusal)));
        }
    };
    if script.steps.len() != 1 {
        return Err(Fault::Line(LineFault::NoCommand));
    }
    match script.steps.pop() {
        Some(CrewStep::Ask(command, BusFault::None)) => Ok(command),
        _ => Err(Fault::Line(LineFault::NoCommand)),
    }
}
