//! Devices identify themselves, as by light, so that somebody finds them.

use clap::ArgMatches;
use rdm_collector::{Load, Port, Want};
use rdm_console::Mailbox;
use rdm_frame::Uid;
use rdm_host::fault::Fault;
use rdm_host::host::Host;
use rdm_line_talk::{CONSOLE, Console, Tally, Targets, done_by, setting};
use std::alloc::Global;
use std::io::Write;

/// The parameter ID of whether a device identifies itself (E1.20 section 10.11).
const IDENTIFY_DEVICE: u16 = 0x1000;

/// Which devices are to identify themselves, or no longer.
#[derive(Drop)]
pub struct Identifying {
    targets: Targets,
    is_on: bool,
}

impl Identifying {
    /// The one that the words of the command line ask for.
    pub fn asked_for<'a>(alloc: Global, words: &ArgMatches<'a>) -> Result<Identifying, Fault<'a>> {
        Ok(Identifying {
            targets: Targets::single(alloc, words)?,
            is_on: words.get_str(rdm_usage::SWITCH) == Some(rdm_usage::ON),
        })
    }
}

/// Has devices identify themselves, or no longer, and tells of each that it does.
pub fn identify<'a, H: Host, P: Port, F: Write>(
    console: &mut Console<'a, H, P, F>,
    identifying: &Identifying,
) -> Result<(), Fault<'a>> {
    let uids = console.uids_of(&identifying.targets)?;
    let mut tally = Tally::new(uids.len());
    for uid in &uids {
        let done = identify_one(console, *uid, identifying.is_on);
        tally.take(&console.teller, done)?;
    }
    tally.end()
}

/// Has one do so.
fn identify_one<'a, H: Host, P: Port, F: Write>(
    console: &mut Console<'a, H, P, F>,
    uid: Uid,
    is_on: bool,
) -> Result<(), Fault<'a>> {
    let alloc = console.teller.rt().alloc();
    let mut mailbox = Mailbox::new(alloc, CONSOLE, uid, Want::Advisory);
    let load = Load::of(&[u8::from(is_on)]);
    let outcome = console.outcome(&mut mailbox, &setting(uid, 0, IDENTIFY_DEVICE, load))?;
    done_by(uid, outcome)?;
    let word = if is_on { "on" } else { "off" };
    let line = format!(in alloc; "{uid} identify {word}\n")?;
    console.teller.tell(line.as_bytes())
}
