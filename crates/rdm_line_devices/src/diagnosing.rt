//! What is wrong with devices, and what waits in them.

use crate::getting::{DEVICE_INFO, data_of, get};
use rdm_collector::{Load, Port, Uid, Want, read_reply};
use rdm_console::{Mailbox, Response};
use rdm_frame::standard::STATUS_MESSAGES;
use rdm_frame::{Text, decode_view};
use rdm_health::{
    StatusEntry, StatusRow, put_lamp_row, put_status_heading, put_status_row, put_waiting_row,
    status_entries_in,
};
use rdm_host::fault::Fault;
use rdm_host::host::Host;
use rdm_host::line_fault::LineFault;
use rdm_line_talk::{CONSOLE, Console, Tally, Targets};
use rdm_surveyor::{Report, fetch_last_status, fetch_statuses};
use std::io::Write;

/// The parameter ID of what a status ID means (E1.20 section 10.3.3).
const STATUS_ID_DESCRIPTION: u16 = 0x0031;

/// The parameter ID of the state of a lamp (section 10.8.4).
const LAMP_STATE: u16 = 0x0403;

/// Lists as a table what is wrong with these devices: their status messages, of which the last one may have been shown before, how many
/// messages wait, and lamps that aren't well.
pub fn status<'a, H: Host, P: Port, F: Write>(
    console: &mut Console<'a, H, P, F>,
    targets: &Targets,
) -> Result<(), Fault<'a>> {
    let uids = console.uids_of(targets)?;
    let mut heading = Vec::new(console.teller.rt().alloc());
    put_status_heading(&mut heading)?;
    console.teller.tell(heading.as_slice())?;
    let mut tally = Tally::new(uids.len());
    for uid in &uids {
        let done = diagnose(console, *uid);
        tally.take(&console.teller, done)?;
    }
    tally.end()
}

/// Lists what is wrong with a device.
fn diagnose<'a, H: Host, P: Port, F: Write>(
    console: &mut Console<'a, H, P, F>,
    uid: Uid,
) -> Result<(), Fault<'a>> {
    let alloc = console.teller.rt().alloc();
    let mut mailbox = Mailbox::new(alloc, CONSOLE, uid, Want::Warning);
    let command = get(uid, 0, DEVICE_INFO, Load::new());
    let Some(reply) = console.answer(&mut mailbox, &command)? else {
        return Err(Fault::Line(LineFault::Silent(uid)));
    };
    let mut line = Vec::new(alloc);
    if let Ok(frame) = decode_view(reply.as_slice()) {
        put_waiting_row(alloc, uid, frame.count, &mut line)?;
    }
    let lamp = console.outcome(&mut mailbox, &get(uid, 0, LAMP_STATE, Load::new()))?;
    if let Some(&[state]) = data_of(lamp).as_deref() {
        put_lamp_row(alloc, uid, 0, state, &mut line)?;
    }
    console.teller.tell(line.as_slice())?;
    tell_statuses(console, &mut mailbox)
}

/// Fetches the status messages of the device of a mailbox, and tells them, also if the line fails: the device doesn't give them again.
fn tell_statuses<'a, H: Host, P: Port, F: Write>(
    console: &mut Console<'a, H, P, F>,
    mailbox: &mut Mailbox,
) -> Result<(), Fault<'a>> {
    let uid = mailbox.uid();
    let mut reports = Vec::new(console.teller.rt().alloc());
    let fetched = fetch(console, uid, &mut reports);
    tell_reports(console, mailbox, reports.as_slice())?;
    if fetched? {
        let line = format!(in console.teller.rt().alloc();
            "{uid} may have more status messages\n"
        )?;
        console.teller.tell(line.as_bytes())?;
    }
    Ok(())
}

/// Fetches the status messages of a device: the last one again, which was shown before, and those that are new. Says whether there may be
/// more.
fn fetch<'a, H: Host, P: Port, F: Write>(
    console: &mut Console<'a, H, P, F>,
    uid: Uid,
    reports: &mut Vec<Report>,
) -> Result<bool, Fault<'a>> {
    let alloc = console.teller.rt().alloc();
    fetch_last_status(alloc, CONSOLE, uid, &mut console.port, reports)?;
    let statuses = fetch_statuses(alloc, CONSOLE, uid, &mut console.port, reports)?;
    Ok(statuses.has_more)
}

/// Tells the entries of these reports. A status message may come in parts (section 6.3.2).
fn tell_reports<'a, H: Host, P: Port, F: Write>(
    console: &mut Console<'a, H, P, F>,
    mailbox: &mut Mailbox,
    reports: &[Report],
) -> Result<(), Fault<'a>> {
    let mut joined = Vec::new(console.teller.rt().alloc());
    for report in reports {
        match read_reply(report.reply.as_slice()) {
            Some(said) if said.pid == STATUS_MESSAGES => {
                joined.extend_from_slice(said.body)?;
                if said.response != Response::AckOverflow {
                    tell_entries(console, mailbox, joined.as_slice(), report.again)?;
                    joined.clear();
                }
            }
            // The last message may be another one (section 10.3.1), which was fetched and told before.
            _ if report.again => {}
            // A fixture may answer by another message than the one that it was asked for.
            _ => console.tell_reply(mailbox, &report.reply)?,
        }
    }
    Ok(())
}

/// Tells the entries of a status message, which the device may have given before.
fn tell_entries<'a, H: Host, P: Port, F: Write>(
    console: &mut Console<'a, H, P, F>,
    mailbox: &mut Mailbox,
    data: &[u8],
    again: bool,
) -> Result<(), Fault<'a>> {
    let alloc = console.teller.rt().alloc();
    let Some(entries) = status_entries_in(alloc, data)? else {
        return Ok(());
    };
    for entry in &entries {
        let row = StatusRow {
            uid: mailbox.uid(),
            entry: *entry,
            description: description_of(console, mailbox, entry)?,
        };
        let mut line = Vec::new(alloc);
        put_status_row(alloc, &row, &mut line)?;
        if again {
            line.extend_from_slice(b"  it may have been shown before\n")?;
        }
        console.teller.tell(line.as_slice())?;
    }
    Ok(())
}

/// What the status ID of an entry means, if the device tells that.
fn description_of<'a, H: Host, P: Port, F: Write>(
    console: &mut Console<'a, H, P, F>,
    mailbox: &mut Mailbox,
    entry: &StatusEntry,
) -> Result<Option<Text>, Fault<'a>> {
    let load = Load::of(&entry.id.to_be_bytes());
    let command = get(mailbox.uid(), 0, STATUS_ID_DESCRIPTION, load);
    match data_of(console.outcome(mailbox, &command)?) {
        Some(data) => Ok(Text::from_slice(data.as_slice())),
        None => Ok(None),
    }
}
