//! The devices that a command is for.

use crate::console::Console;
use crate::telling::Teller;
use clap::ArgMatches;
use rdm_collector::Port;
use rdm_frame::Uid;
use rdm_host::fault::Fault;
use rdm_host::host::{Host, Speaker};
use rdm_host::line_fault::LineFault;
use std::alloc::Global;
use std::io::Write;

/// The devices that a command is for.
#[derive(Drop)]
pub enum Targets {
    /// All of the line, which are looked for.
    All,
    /// These.
    These(Vec<Uid>),
}

impl Targets {
    /// Those that the words of the command line name: UIDs with commas between, or all of the line, also if none is named.
    pub fn asked_for<'a>(alloc: Global, asked: &ArgMatches<'a>) -> Result<Targets, Fault<'a>> {
        match asked.get_str(rdm_usage::UID) {
            None | Some(rdm_usage::ALL) => Ok(Targets::All),
            Some(words) => Ok(Targets::These(uids_in(alloc, words)?)),
        }
    }

    /// The same, each of which is one device.
    pub fn single<'a>(alloc: Global, asked: &ArgMatches<'a>) -> Result<Targets, Fault<'a>> {
        let targets = Targets::asked_for(alloc, asked)?;
        match targets.several() {
            Some(uid) => Err(Fault::Line(LineFault::Several(uid))),
            None => Ok(targets),
        }
    }

    /// The first of these UIDs that is for several devices (E1.20 section 6.2.4).
    pub fn several(&self) -> Option<Uid> {
        match self {
            Targets::All => None,
            Targets::These(uids) => uids.iter().copied().find(|uid| uid.is_broadcast()),
        }
    }
}

/// The UIDs that stand in a word, with commas between.
fn uids_in<'a>(alloc: Global, words: &'a str) -> Result<Vec<Uid>, Fault<'a>> {
    let mut uids = Vec::new(alloc);
    for word in words.split(',') {
        uids.push(uid_in(word)?)?;
    }
    Ok(uids)
}

/// The UID that a word is.
pub fn uid_in<'a>(word: &'a str) -> Result<Uid, Fault<'a>> {
    match Uid::from_text(word.as_bytes()) {
        Some(uid) => Ok(uid),
        None => Err(Fault::Line(LineFault::NoUid(word))),
    }
}

impl<'a, H: Host, P: Port, F: Write> Console<'a, H, P, F> {
    /// The UIDs of these devices. All of a line are in order.
    pub fn uids_of(&mut self, targets: &Targets) -> Result<Vec<Uid>, Fault<'a>> {
        match targets {
            Targets::All => {
                let mut uids = self.found()?;
                uids.as_mut_slice().sort_unstable();
                Ok(uids)
            }
            Targets::These(uids) => Ok(Vec::from_slice(self.teller.rt().alloc(), uids.as_slice())?),
        }
    }
}

/// How many of several things were done.
#[derive(Clone, Copy)]
pub struct Tally {
    count: usize,
    undone: usize,
}

impl Tally {
    /// None of so many was done yet.
    pub fn new(count: usize) -> Tally {
        Tally { count, undone: 0 }
    }

    /// Takes what came of one. If one device is at fault, and there are others, that is told, and they have their turn; every other fault
    /// ends all.
    pub fn take<'a, H: Speaker>(
        &mut self,
        teller: &Teller<H>,
        done: Result<(), Fault<'a>>,
    ) -> Result<(), Fault<'a>> {
        match done {
            Err(Fault::Line(fault)) if self.count > 1 && fault.is_of_device() => {
                self.undone = self.undone.saturating_add(1);
                let line = format!(in teller.rt().alloc(); "{fault}\n")?;
                teller.on_errors().tell(line.as_bytes())
            }
            done => done,
        }
    }

    /// What came of all.
    pub fn end<'a>(self) -> Result<(), Fault<'a>> {
        match self.undone {
            0 => Ok(()),
            undone => Err(Fault::Line(LineFault::Undone(undone, self.count))),
        }
    }
}
