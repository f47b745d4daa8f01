//! Settings are made, and read back.

use crate::asking::{Outcome, fault_of};
use crate::console::Console;
use crate::targets::Tally;
use crate::telling::{CONSOLE, Teller};
use rdm_collector::{Action, Command, Load, Port, Want};
use rdm_console::Mailbox;
use rdm_frame::Uid;
use rdm_host::fault::Fault;
use rdm_host::host::Host;
use rdm_host::line_fault::LineFault;
use std::io::Write;

/// A SET of a parameter of the root or of a sub-device.
pub fn setting(uid: Uid, sub: u16, pid: u16, load: Load) -> Command {
    Command {
        dst: uid,
        action: Action::Set,
        sub,
        pid,
        load,
    }
}

/// How it is known that a setting was made.
#[derive(Clone, Copy)]
enum Made {
    /// The device was read, and has the value.
    ReadBack,
    /// The device acknowledged it, and can't be asked for the value.
    Acknowledged,
}

/// Makes each of these settings, and tells what was made and what wasn't, and how many couldn't be read back. A device that is at fault
/// doesn't stop the others.
pub fn make_all<'a, H: Host, P: Port, F: Write>(
    console: &mut Console<'a, H, P, F>,
    settings: &[Command],
) -> Result<(), Fault<'a>> {
    let mut tally = Tally::new(settings.len());
    let mut unread: usize = 0;
    for setting in settings {
        match make(console, setting) {
            Ok(Made::ReadBack) => {}
            Ok(Made::Acknowledged) => unread = unread.saturating_add(1),
            Err(fault) => tally.take(&console.teller, Err(fault))?,
        }
    }
    tally.end()?;
    tell_made(&console.teller, settings.len(), unread)
}

/// Tells how many settings were made, and how many of these couldn't be read back.
fn tell_made<'a, H: Host>(
    teller: &Teller<H>,
    count: usize,
    unread: usize,
) -> Result<(), Fault<'a>> {
    let alloc = teller.rt().alloc();
    let line = match unread {
        0 => format!(in alloc; "settings made: {count}\n")?,
        _ => format!(in alloc; "settings made: {count}, of which {unread} can't be read back\n")?,
    };
    teller.tell(line.as_bytes())
}

/// Makes a setting, and reads it back if it can be read: that it was acknowledged isn't enough.
fn make<'a, H: Host, P: Port, F: Write>(
    console: &mut Console<'a, H, P, F>,
    setting: &Command,
) -> Result<Made, Fault<'a>> {
    let uid = setting.dst;
    let alloc = console.teller.rt().alloc();
    let mut mailbox = Mailbox::new(alloc, CONSOLE, uid, Want::Advisory);
    done_by(uid, console.outcome(&mut mailbox, setting)?)?;
    match console.outcome(&mut mailbox, &reading_back(setting))? {
        Outcome::Done(told) => kept(setting, told.as_slice()),
        // What is SET alone has no GET.
        Outcome::Rejected(_) => Ok(Made::Acknowledged),
        outcome => Err(Fault::Line(fault_of(uid, outcome))),
    }
}

/// How it is known that a setting was made, or the fault if the device tells another value.
fn kept<'a>(setting: &Command, told: &[u8]) -> Result<Made, Fault<'a>> {
    if told == setting.load.as_slice() {
        Ok(Made::ReadBack)
    } else {
        Err(Fault::Line(LineFault::OtherValue(setting.dst)))
    }
}

/// The GET of what a SET sets.
pub fn reading_back(setting: &Command) -> Command {
    Command {
        dst: setting.dst,
        action: Action::Get,
        sub: setting.sub,
        pid: setting.pid,
        load: Load::new(),
    }
}

/// The data that a device replied, or the fault of a command that it didn't do.
pub fn done_by<'a>(uid: Uid, outcome: Outcome) -> Result<Vec<u8>, Fault<'a>> {
    match outcome {
        Outcome::Done(data) => Ok(data),
        outcome => Err(Fault::Line(fault_of(uid, outcome))),
    }
}
