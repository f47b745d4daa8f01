//! A line is surveyed: all its devices are listed, with what they tell of themselves.

use crate::clashing::tell_clashes;
use crate::reading::{Survey, found, order_in, read_one, show_reading, tell_reports};
use clap::ArgMatches;
use rdm_collector::{Port, Uid};
use rdm_host::fault::Fault;
use rdm_host::host::Host;
use rdm_line_talk::{Console, Teller};
use rdm_survey::{Order, Row, put_csv, put_heading, put_json, put_row, sort};
use rdm_survey_page::put_page;
use std::alloc::Global;
use std::io::Write;

/// What a page is called.
const TITLE: &str = "RDM line";

/// As what a list is told.
#[derive(Clone, Copy, PartialEq, Eq)]
enum Format {
    /// A table.
    Table,
    /// CSV.
    Csv,
    /// JSON.
    Json,
    /// A page for a browser.
    Html,
}

/// How a line is listed.
#[derive(Clone, Copy)]
pub struct Listing {
    order: Order,
    format: Format,
}

impl Listing {
    /// The one that the words of the command line ask for.
    pub fn asked_for(words: &ArgMatches<'_>) -> Listing {
        Listing {
            order: order_in(words),
            format: format_named(words.get_str(rdm_usage::FORMAT)),
        }
    }

    /// Whether each row can be told as soon as it is read.
    fn is_told_at_once(self) -> bool {
        self.format == Format::Table && self.order == Order::Uid
    }
}

/// The format of this name.
fn format_named(word: Option<&str>) -> Format {
    match word {
        Some(rdm_usage::CSV) => Format::Csv,
        Some(rdm_usage::JSON) => Format::Json,
        Some(rdm_usage::HTML) => Format::Html,
        _ => Format::Table,
    }
}

/// Finds all devices, reads what a survey tells of each, and tells it: the rows, the status messages that were fetched, and which slots
/// clash.
pub fn list<'a, H: Host, P: Port, F: Write>(
    console: &mut Console<'a, H, P, F>,
    listing: Listing,
) -> Result<(), Fault<'a>> {
    let mut uids = found(console)?;
    let mut read = Survey::new(console.teller.rt().alloc());
    let ended = read_all(console, listing, uids.as_slice(), &mut read);
    console.teller.show("");
    let listed = match ended {
        Ok(()) => tell_rows(&console.teller, listing, read.rows.as_mut_slice()),
        Err(fault) => Err(fault),
    };
    // They are told also if something fails, since no device gives them again.
    let beside = beside(&console.teller, listing);
    let told = tell_reports(console, beside, &read);
    listed?;
    told?;
    if listing.format == Format::Table {
        tell_clashes(&console.teller, read.rows.as_mut_slice())?;
    }
    Ok(())
}

/// Reads what a survey tells of each of these. The rows of a table by UID are told as they are read.
fn read_all<'a, H: Host, P: Port, F: Write>(
    console: &mut Console<'a, H, P, F>,
    listing: Listing,
    uids: &[Uid],
    read: &mut Survey,
) -> Result<(), Fault<'a>> {
    if listing.is_told_at_once() {
        tell_heading(&console.teller)?;
    }
    for (index, uid) in uids.iter().enumerate() {
        show_reading(&console.teller, index.saturating_add(1), uids.len(), *uid)?;
        read_one(console, *uid, read)?;
        if listing.is_told_at_once() {
            console.teller.show("");
            tell_last(&console.teller, read.rows.as_slice())?;
        }
    }
    Ok(())
}

/// Tells the heading of the table.
fn tell_heading<'a, H: Host>(teller: &Teller<H>) -> Result<(), Fault<'a>> {
    let mut text = Vec::new(teller.rt().alloc());
    put_heading(&mut text)?;
    teller.tell(text.as_slice())
}

/// Tells the last of these rows, as a row of the table.
fn tell_last<'a, H: Host>(teller: &Teller<H>, rows: &[Row]) -> Result<(), Fault<'a>> {
    let [.., row] = rows else {
        return Ok(());
    };
    let alloc = teller.rt().alloc();
    let mut text = Vec::new(alloc);
    put_row(alloc, row, &mut text)?;
    teller.tell(text.as_slice())
}

/// Tells all rows in order, unless each was told as it was read.
fn tell_rows<'a, H: Host>(
    teller: &Teller<H>,
    listing: Listing,
    rows: &mut [Row],
) -> Result<(), Fault<'a>> {
    if listing.is_told_at_once() {
        return Ok(());
    }
    let alloc = teller.rt().alloc();
    sort(rows, listing.order);
    let mut text = Vec::new(alloc);
    match listing.format {
        Format::Table => put_table(alloc, rows, &mut text)?,
        Format::Csv => put_csv(alloc, rows, &mut text)?,
        Format::Html => put_page(alloc, TITLE, rows, &mut text)?,
        Format::Json => {
            put_json(alloc, rows, &mut text)?;
            text.extend_from_slice(b"\n")?;
        }
    }
    teller.tell(text.as_slice())
}

/// What tells that which isn't in the list: a document stands alone.
fn beside<H: Host>(teller: &Teller<H>, listing: Listing) -> Teller<H> {
    match listing.format {
        Format::Table => *teller,
        Format::Csv | Format::Json | Format::Html => teller.on_errors(),
    }
}

/// Puts a table of these rows at the end of a text.
fn put_table<'a>(alloc: Global, rows: &[Row], text: &mut Vec<u8>) -> Result<(), Fault<'a>> {
    put_heading(text)?;
    for row in rows {
        put_row(alloc, row, text)?;
    }
    Ok(())
}
