//! A device is tested with scripts.

use crate::equipment::Equipment;
use crate::needs::{Need, needs_in};
use crate::playing::{Play, console_in, device_in, play_script};
use crate::refusing::refuse_results;
use clap::ArgMatches;
use rdm_collector::{Port, Want};
use rdm_console::Mailbox;
use rdm_frame::Uid;
use rdm_host::fault::Fault;
use rdm_host::host::Host;
use rdm_host::source::{Source, without_mark};
use rdm_line_talk::{Console, Teller};
use rdm_results::SuiteResults;
use rdm_script::MOST_BYTES;
use std::io::Write;

/// Scripts that test a device.
#[derive(Drop)]
pub struct Suite<'a> {
    uid: Uid,
    /// Who sends.
    console: Uid,
    trials: Vec<Trial<'a>>,
    /// The file for what came of them, if one is asked for.
    results: Option<&'a str>,
}

/// A script of a suite.
#[derive(Drop)]
struct Trial<'a> {
    play: Play<'a>,
    /// What it needs of the device.
    needs: Vec<Need>,
}

impl<'a> Suite<'a> {
    /// The one that the words of the command line ask for. No script of it is played if one isn't valid, or says what can't be sent.
    pub fn asked_for<H: Host>(rt: H, asked: &ArgMatches<'a>) -> Result<Suite<'a>, Fault<'a>> {
        let uid = device_in(asked)?;
        let console = console_in(asked, uid)?;
        let names = asked.get_strs(rdm_usage::INPUT).unwrap_or(&[]);
        refuse_clashes(asked, names)?;
        let mut trials = Vec::new(rt.alloc());
        for name in names {
            trials.push(trial_in(rt, uid, console, Source::named(Some(*name)))?)?;
        }
        Ok(Suite {
            uid,
            console,
            trials,
            results: asked.get_str(rdm_usage::JUNIT),
        })
    }
}

/// The script for this device that stands there, and what it needs.
fn trial_in<'a, H: Host>(
    rt: H,
    uid: Uid,
    console: Uid,
    source: Source<'a>,
) -> Result<Trial<'a>, Fault<'a>> {
    let bytes = source.read(rt, MOST_BYTES as u64)?;
    let text = without_mark(bytes.as_slice());
    Ok(Trial {
        needs: needs_in(rt.alloc(), source.name(), text)?,
        play: Play::of(rt, uid, console, source.name(), text)?,
    })
}

/// Refuses standard input that is read twice, and a script that is written over.
fn refuse_clashes<'a>(asked: &ArgMatches<'a>, names: &[&'a str]) -> Result<(), Fault<'a>> {
    let mut readers = usize::from(asked.get_str(rdm_usage::PORT) == Some("-"));
    for name in names {
        readers = readers.saturating_add(usize::from(*name == "-"));
        let is_written = asked.get_str(rdm_usage::TRACE) == Some(*name)
            || asked.get_str(rdm_usage::JUNIT) == Some(*name);
        if is_written && *name != "-" {
            return Err(Fault::Overwritten(*name));
        }
    }
    if readers > 1 {
        return Err(Fault::ReadTwice);
    }
    refuse_results(asked, asked)
}

/// Plays the scripts for which the device has what they need, and tells what came of what each expects.
pub fn test_through<'a, H: Host, P: Port, F: Write>(
    console: &mut Console<'a, H, P, F>,
    suite: &Suite<'a>,
) -> Result<(), Fault<'a>> {
    let rt = console.teller.rt();
    let teller = if suite.results == Some("-") {
        console.teller.on_errors()
    } else {
        console.teller
    };
    console.port.log().judge();
    let mut mailbox = Mailbox::new(rt.alloc(), suite.console, suite.uid, Want::Advisory);
    let equipment = Equipment::asked(console, &mut mailbox)?;
    let mut results = SuiteResults::new(rt.alloc());
    let mut ended = Ok(());
    for trial in &suite.trials {
        ended = try_one(
            console,
            &mut mailbox,
            &equipment,
            &mut results,
            trial,
            &teller,
        );
        if ended.is_err() {
            break;
        }
    }
    // What was played before the line failed is reported, too.
    teller.tell(results.sum(rt.alloc())?.as_bytes())?;
    if let Some(path) = suite.results {
        results.save(rt, path)?;
    }
    ended?;
    results.end()
}

/// Plays a script, if the device has what it needs, and tells what came of it. A remark in the trace names the script, and says it if it is
/// left out.
fn try_one<'a, H: Host, P: Port, F: Write>(
    console: &mut Console<'a, H, P, F>,
    mailbox: &mut Mailbox,
    equipment: &Equipment,
    results: &mut SuiteResults,
    trial: &Trial<'a>,
    teller: &Teller<H>,
) -> Result<(), Fault<'a>> {
    let alloc = console.teller.rt().alloc();
    let Play {
        uid,
        name,
        expectations,
        ..
    } = &trial.play;
    let needs = trial.needs.as_slice();
    console.port.keep_remark(name)?;
    if let Some(need) = equipment.unmet(console, mailbox, needs)? {
        let lack = equipment.lack(alloc, need)?;
        let report = results.leave_out(alloc, name, lack.as_str())?;
        console.port.keep_remark(report.as_str().trim_end())?;
        return teller.tell(report.as_bytes());
    }
    console.port.log().judge();
    play_script(console, &trial.play)?;
    let lines = console.port.log().judged();
    let report = results.take(alloc, *uid, name, expectations.as_slice(), lines)?;
    teller.tell(report.as_bytes())
}
