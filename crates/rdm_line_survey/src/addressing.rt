//! Start addresses without overlaps are proposed, and set.

use crate::reading::{order_in, survey_all};
use clap::ArgMatches;
use rdm_addresses::{Assignment, ProposalError, propose, put_assignment, put_heading};
use rdm_collector::{Command, Load, Port};
use rdm_host::fault::Fault;
use rdm_host::host::Host;
use rdm_host::line_fault::LineFault;
use rdm_line_talk::{Console, Teller, make_all, setting};
use rdm_survey::{Order, sort};
use std::alloc::Global;
use std::io::Write;

/// The parameter ID of the start address of a device (E1.20 section 10.6.3).
pub(crate) const DMX_START_ADDRESS: u16 = 0x00F0;

/// Which start addresses are proposed.
#[derive(Clone, Copy)]
pub struct Addressing {
    from: u16,
    gap: u16,
    order: Order,
    /// Whether they are set, too.
    is_set: bool,
}

impl Addressing {
    /// The one that the words of the command line ask for.
    pub fn asked_for(words: &ArgMatches<'_>) -> Addressing {
        Addressing {
            from: words.get_one::<u16>(rdm_usage::FROM).unwrap_or(1),
            gap: words.get_one::<u16>(rdm_usage::GAP).unwrap_or(0),
            order: order_in(words),
            is_set: words.get_flag(rdm_usage::YES),
        }
    }
}

/// Surveys all devices, and proposes a start address for each that takes slots, so that no two share one. If it is asked for, they are set,
/// and read back.
pub fn address<'a, H: Host, P: Port, F: Write>(
    console: &mut Console<'a, H, P, F>,
    addressing: Addressing,
) -> Result<(), Fault<'a>> {
    let alloc = console.teller.rt().alloc();
    let mut rows = survey_all(console)?;
    sort(rows.as_mut_slice(), addressing.order);
    let proposal = match propose(alloc, rows.as_slice(), addressing.from, addressing.gap) {
        Ok(proposal) => proposal,
        Err(ProposalError::OutOfMemory) => return Err(Fault::Memory),
        Err(ProposalError::NoRoom { last }) => {
            return Err(Fault::Line(LineFault::NoRoom(last)));
        }
        // The command line has no such slot.
        Err(error @ ProposalError::SlotZero) => {
            let reason = format!(in alloc; "{error}")?;
            return Err(Fault::Line(LineFault::File("--from", reason)));
        }
    };
    tell_proposal(&console.teller, proposal.as_slice())?;
    let settings = settings_of(alloc, proposal.as_slice())?;
    settle(console, settings.as_slice(), addressing.is_set)
}

/// Makes these settings if they are to be made; otherwise it tells how they are.
pub(crate) fn settle<'a, H: Host, P: Port, F: Write>(
    console: &mut Console<'a, H, P, F>,
    settings: &[Command],
    is_set: bool,
) -> Result<(), Fault<'a>> {
    if settings.is_empty() {
        return console.teller.tell(b"nothing to set\n");
    }
    if is_set {
        return make_all(console, settings);
    }
    let alloc = console.teller.rt().alloc();
    let line = match settings.len() {
        1 => String::from_str(alloc, "nothing was set: --yes makes 1 setting\n")?,
        count => format!(in alloc; "nothing was set: --yes makes {count} settings\n")?,
    };
    console.teller.tell(line.as_bytes())
}

/// Tells a proposal, as a table.
fn tell_proposal<'a, H: Host>(
    teller: &Teller<H>,
    proposal: &[Assignment],
) -> Result<(), Fault<'a>> {
    let alloc = teller.rt().alloc();
    let mut text = Vec::new(alloc);
    put_heading(&mut text)?;
    for assignment in proposal {
        put_assignment(alloc, assignment, &mut text)?;
    }
    teller.tell(text.as_slice())
}

/// What has to be set of a proposal: the addresses that are other ones.
fn settings_of<'a>(alloc: Global, proposal: &[Assignment]) -> Result<Vec<Command>, Fault<'a>> {
    let mut settings = Vec::new(alloc);
    for assignment in proposal {
        let Assignment {
            uid,
            sub,
            was,
            address,
            footprint: _,
        } = *assignment;
        if was != address {
            let load = Load::of(&address.to_be_bytes());
            settings.push(setting(uid, sub, DMX_START_ADDRESS, load))?;
        }
    }
    Ok(settings)
}
