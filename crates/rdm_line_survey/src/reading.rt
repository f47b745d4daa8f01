//! All devices of a line are surveyed.

use clap::ArgMatches;
use rdm_collector::{Port, Uid, Want};
use rdm_console::Mailbox;
use rdm_host::fault::Fault;
use rdm_host::host::Host;
use rdm_line_talk::{CONSOLE, Console, Teller};
use rdm_survey::{Order, Row};
use rdm_surveyor::{Report, Surveyed, survey};
use std::alloc::Global;
use std::io::Write;

/// What was read of a line.
#[derive(Drop)]
pub(crate) struct Survey {
    /// What each device told.
    pub(crate) rows: Vec<Row>,
    /// The status messages that were fetched, which the devices don't give again.
    reports: Vec<Report>,
    /// The devices that may have more of them.
    unfinished: Vec<Uid>,
}

impl Survey {
    /// Nothing was read yet.
    pub(crate) fn new(alloc: Global) -> Survey {
        Survey {
            rows: Vec::new(alloc),
            reports: Vec::new(alloc),
            unfinished: Vec::new(alloc),
        }
    }
}

/// The order that the words of the command line ask for.
pub(crate) fn order_in(words: &ArgMatches<'_>) -> Order {
    match words.get_str(rdm_usage::BY) {
        Some(rdm_usage::BY_ADDRESS) => Order::Address,
        Some(rdm_usage::BY_MODEL) => Order::Model,
        Some(rdm_usage::BY_LABEL) => Order::Label,
        _ => Order::Uid,
    }
}

/// Finds all devices, and reads what a survey tells of each, in the order of their UIDs. The status messages that are fetched are told at
/// the end, also if something fails, since no device gives them again.
pub(crate) fn survey_all<'a, H: Host, P: Port, F: Write>(
    console: &mut Console<'a, H, P, F>,
) -> Result<Vec<Row>, Fault<'a>> {
    let mut read = Survey::new(console.teller.rt().alloc());
    let ended = read_line(console, &mut read);
    console.teller.show("");
    let beside = console.teller.on_errors();
    let told = tell_reports(console, beside, &read);
    ended?;
    told?;
    Ok(read.rows)
}

/// Finds all devices, and reads each.
fn read_line<'a, H: Host, P: Port, F: Write>(
    console: &mut Console<'a, H, P, F>,
    read: &mut Survey,
) -> Result<(), Fault<'a>> {
    let uids = found(console)?;
    for (index, uid) in uids.iter().enumerate() {
        show_reading(&console.teller, index.saturating_add(1), uids.len(), *uid)?;
        read_one(console, *uid, read)?;
    }
    Ok(())
}

/// The UIDs of all devices, in order.
pub(crate) fn found<'a, H: Host, P: Port, F: Write>(
    console: &mut Console<'a, H, P, F>,
) -> Result<Vec<Uid>, Fault<'a>> {
    let mut uids = console.found()?;
    uids.as_mut_slice().sort_unstable();
    Ok(uids)
}

/// Reads what a survey tells of a device, and what it takes to say its status messages in words.
pub(crate) fn read_one<'a, H: Host, P: Port, F: Write>(
    console: &mut Console<'a, H, P, F>,
    uid: Uid,
    read: &mut Survey,
) -> Result<(), Fault<'a>> {
    let alloc = console.teller.rt().alloc();
    let known = read.reports.len();
    let Surveyed { row, has_more } = survey(
        alloc,
        CONSOLE,
        uid,
        &mut console.port,
        &mut read.reports,
    )?;
    if has_more {
        read.unfinished.push(uid)?;
    }
    let mut mailbox = Mailbox::new(alloc, CONSOLE, uid, Want::Warning);
    for report in read.reports.iter().skip(known) {
        console.learn(&mut mailbox, &report.reply)?;
    }
    Ok(read.rows.push(row)?)
}

/// Shows which device is being read, where somebody sees it.
pub(crate) fn show_reading<'a, H: Host>(
    teller: &Teller<H>,
    number: usize,
    count: usize,
    uid: Uid,
) -> Result<(), Fault<'a>> {
    if teller.is_seen() {
        let words = format!(in teller.rt().alloc(); "reading {uid}, {number} of {count}")?;
        teller.show(words.as_str());
    }
    Ok(())
}

/// Tells the status messages that were fetched, in words.
pub(crate) fn tell_reports<'a, H: Host, P: Port, F: Write>(
    console: &mut Console<'a, H, P, F>,
    teller: Teller<H>,
    read: &Survey,
) -> Result<(), Fault<'a>> {
    for report in &read.reports {
        let known = console.port.log().knowledge.of(report.uid);
        teller.tell_reply(&report.reply, &known)?;
        if report.again {
            teller.tell(b"  repeated poll: this message may have been fetched before\n")?;
        }
    }
    for uid in &read.unfinished {
        let line = format!(in teller.rt().alloc(); "{uid} may have more status messages\n")?;
        teller.tell(line.as_bytes())?;
    }
    Ok(())
}
