//! The settings of a file are made.

use rdm_collector::{Command, Port, Uid, Want};
use rdm_console::Mailbox;
use rdm_host::fault::Fault;
use rdm_host::host::Host;
use rdm_host::line_fault::{LineFault, Reason};
use rdm_host::source::Source;
use rdm_line_talk::{CONSOLE, Console, Outcome, make_all, reading_back, setting};
use rdm_settings::{Setting, Sheet, settings_in};
use rdm_words::tables::parameters::parameter;
use std::io::Write;

/// How many bytes a file of settings has at most.
const MOST_BYTES: u64 = 1 << 20;

/// The reason of a NACK for a parameter that the device doesn't have (E1.20 table A-17).
const UNKNOWN_PID: u16 = 0x0000;

/// The reason for a sub-device that it doesn't have.
const SUB_DEVICE_OUT_OF_RANGE: u16 = 0x0009;

/// The settings of a file.
#[derive(Drop)]
pub struct Settings<'a> {
    /// By what name messages tell of the file.
    name: &'a str,
    sheet: Sheet,
}

impl<'a> Settings<'a> {
    /// Those of the file of this path, or of standard input. If something of it can't be right, all of that is told, and it is a fault.
    pub fn read<H: Host>(rt: H, path: &'a str) -> Result<Settings<'a>, Fault<'a>> {
        let source = Source::named(Some(path));
        let bytes = source.read(rt, MOST_BYTES)?;
        let sheet = settings_in(rt.alloc(), bytes.as_slice())?;
        for complaint in &sheet.complaints {
            // Nobody is left to be told if this can't be written.
            let _ = eprintln!(rt; "{complaint}");
        }
        let name = source.name();
        match sheet.complaints.len() {
            0 => Ok(Settings { name, sheet }),
            count => Err(Fault::Line(LineFault::Unsettled(name, count))),
        }
    }
}

/// What a device says before something is set.
#[derive(Drop)]
enum Before {
    /// It has the value already.
    Same,
    /// It can be set.
    Other,
    /// It can't: the device isn't there, doesn't answer, or rejects that parameter for the reason with this code.
    Missing(Option<u16>),
}

/// Asks all devices whether they have what is to be set. If one hasn't, all of that is told, and nothing is set. Otherwise each setting is
/// made that isn't so already, and read back.
pub fn set_all<'a, H: Host, P: Port, F: Write>(
    console: &mut Console<'a, H, P, F>,
    settings: &Settings<'a>,
) -> Result<(), Fault<'a>> {
    let found = console.found()?;
    let mut commands = Vec::new(console.teller.rt().alloc());
    let mut missing = 0usize;
    for one in &settings.sheet.settings {
        let command = setting(one.uid, one.sub, one.pid, one.load.copy());
        match asked_before(console, found.as_slice(), &command)? {
            Before::Same => {}
            Before::Other => commands.push(command)?,
            Before::Missing(reason) => {
                missing = missing.saturating_add(1);
                tell_missing(console, one, reason)?;
            }
        }
    }
    match (missing, commands.is_empty()) {
        (0, true) => console.teller.tell(b"everything is set already\n"),
        (0, false) => make_all(console, commands.as_slice()),
        (missing, _) => Err(Fault::Line(LineFault::Unsettled(settings.name, missing))),
    }
}

/// What a device says before this is set.
fn asked_before<'a, H: Host, P: Port, F: Write>(
    console: &mut Console<'a, H, P, F>,
    found: &[Uid],
    command: &Command,
) -> Result<Before, Fault<'a>> {
    if !found.iter().any(|uid| *uid == command.dst) {
        return Ok(Before::Missing(None));
    }
    let alloc = console.teller.rt().alloc();
    let mut mailbox = Mailbox::new(alloc, CONSOLE, command.dst, Want::Advisory);
    match console.outcome(&mut mailbox, &reading_back(command))? {
        Outcome::Done(data) => Ok(compared(command, data.as_slice())),
        Outcome::Rejected(reason @ (UNKNOWN_PID | SUB_DEVICE_OUT_OF_RANGE)) => {
            Ok(Before::Missing(Some(reason)))
        }
        Outcome::Lacks(_) => Ok(Before::Missing(None)),
        // What can't be read may be set all the same.
        Outcome::Rejected(_) | Outcome::Failed(_) => Ok(Before::Other),
    }
}

/// Whether a device has the value already.
fn compared(command: &Command, told: &[u8]) -> Before {
    if told == command.load.as_slice() {
        Before::Same
    } else {
        Before::Other
    }
}

/// Tells which setting can't be made, and why.
fn tell_missing<'a, H: Host, P: Port, F: Write>(
    console: &mut Console<'a, H, P, F>,
    setting: &Setting,
    reason: Option<u16>,
) -> Result<(), Fault<'a>> {
    let alloc = console.teller.rt().alloc();
    let Setting { line, uid, .. } = setting;
    let name = parameter(setting.pid).unwrap_or("this parameter");
    let text = match reason {
        None => format!(in alloc; "line {line}: {uid} doesn't answer\n")?,
        Some(code) => {
            let reason = Reason(code);
            format!(in alloc; "line {line}: {uid} rejects {name}: {reason}\n")?
        }
    };
    console.teller.on_errors().tell(text.as_bytes())
}
