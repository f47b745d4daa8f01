//! What is asked for on a line.

use clap::ArgMatches;
use rdm_collector::{Action, Port};
use rdm_frame::Uid;
use rdm_host::fault::Fault;
use rdm_host::host::Host;
use rdm_host::line_fault::LineFault;
use rdm_line_commands::{
    Play, Sending, Suite, collect_each, device_in, play_through, send_each, test_through, watch,
};
use rdm_line_devices::{Identifying, Settings, identify, portray, sensors, set_all, status};
use rdm_line_survey::{
    Addressing, Listing, Restoring, Then, address, compare, list, restore, save,
};
use rdm_line_talk::{Console, Targets};
use std::io::Write;

/// What is done on a line.
#[derive(Drop)]
pub enum Errand<'a> {
    /// All devices are looked for.
    Find,
    /// All devices are listed.
    List(Listing),
    /// Start addresses are proposed, or set.
    Address(Addressing),
    /// A command is sent.
    Send(Sending<'a>),
    /// The settings of a file are made.
    Set(Settings<'a>),
    /// Devices identify themselves, or no longer.
    Identify(Identifying),
    /// The sensors of devices are listed.
    Sensors(Targets),
    /// A device is described in a fixture's file.
    Portray(Uid),
    /// What is wrong with devices is listed.
    Status(Targets),
    /// The messages of devices are fetched.
    Collect(Targets),
    /// All devices are polled in turn.
    Watch,
    /// A survey is kept in the file of this name.
    Save(&'a str),
    /// All devices are compared with a survey.
    Compare(Then),
    /// Devices are set back to a survey.
    Restore(Restoring),
    /// A script is played.
    Play(Play<'a>),
    /// A device is tested with scripts.
    Test(Suite<'a>),
}

impl<'a> Errand<'a> {
    /// What the words of the command line ask for. What they can't ask for is refused.
    pub(crate) fn asked_for<H: Host>(
        rt: H,
        asked: &ArgMatches<'a>,
    ) -> Result<Errand<'a>, Fault<'a>> {
        match asked.subcommand() {
            Some(("list", words)) => Ok(Errand::List(Listing::asked_for(words))),
            Some(("address", words)) => Ok(Errand::Address(Addressing::asked_for(words))),
            Some(("get", words)) => Ok(Errand::Send(Sending::asked_for(rt, Action::Get, words)?)),
            Some(("set", words)) => set(rt, words),
            Some(("watch", _words)) => Ok(Errand::Watch),
            Some(("play", words)) => Ok(Errand::Play(Play::asked_for(rt, asked, words)?)),
            Some((name, words)) => Errand::of_survey(rt, name, words),
            None => Ok(Errand::Find),
        }
    }

    /// What of a survey the words behind this name ask for.
    fn of_survey<H: Host>(
        rt: H,
        name: &str,
        words: &ArgMatches<'a>,
    ) -> Result<Errand<'a>, Fault<'a>> {
        let alloc = rt.alloc();
        match name {
            "identify" => Ok(Errand::Identify(Identifying::asked_for(alloc, words)?)),
            "sensors" => Ok(Errand::Sensors(Targets::single(alloc, words)?)),
            "describe" => Ok(Errand::Portray(device_in(words)?)),
            "status" => Ok(Errand::Status(Targets::single(alloc, words)?)),
            "collect" => Ok(Errand::Collect(Targets::single(alloc, words)?)),
            "save" => Ok(Errand::Save(written_in(words)?)),
            "compare" => Ok(Errand::Compare(then_in(rt, words)?)),
            "restore" => {
                let then = then_in(rt, words)?;
                Ok(Errand::Restore(Restoring::asked_for(words, then)))
            }
            _ => Ok(Errand::Find),
        }
    }

    /// Does it.
    pub(crate) fn run<H: Host, P: Port, F: Write>(
        &self,
        console: &mut Console<'a, H, P, F>,
    ) -> Result<(), Fault<'a>> {
        match self {
            Errand::Find => console.find(),
            Errand::List(listing) => list(console, *listing),
            Errand::Address(addressing) => address(console, *addressing),
            Errand::Send(sending) => send_each(console, sending),
            Errand::Set(settings) => set_all(console, settings),
            Errand::Identify(identifying) => identify(console, identifying),
            Errand::Sensors(targets) => sensors(console, targets),
            Errand::Portray(uid) => portray(console, *uid),
            Errand::Status(targets) => status(console, targets),
            Errand::Collect(targets) => collect_each(console, targets),
            Errand::Watch => watch(console),
            Errand::Save(path) => save(console, *path),
            Errand::Compare(then) => compare(console, then),
            Errand::Restore(restoring) => restore(console, restoring),
            Errand::Play(script) => play_through(console, script),
            Errand::Test(suite) => test_through(console, suite),
        }
    }
}

/// The name of the file to which a survey is written. One that is read, or that the trace is written to, is refused.
fn written_in<'a>(asked: &ArgMatches<'a>) -> Result<&'a str, Fault<'a>> {
    let path = asked.get_str(rdm_usage::FILE).unwrap_or("");
    let fixtures = asked.get_strs(rdm_usage::FIXTURE).unwrap_or(&[]);
    let is_used = fixtures.iter().any(|name| *name == path)
        || asked.get_str(rdm_usage::PORT) == Some(path)
        || asked.get_str(rdm_usage::TRACE) == Some(path);
    if is_used && path != "-" {
        return Err(Fault::Overwritten(path));
    }
    Ok(path)
}

/// The name of a file that is read. Standard input is refused, if that is the line, and a file that the trace would be written over.
fn read_in<'a>(asked: &ArgMatches<'a>, path: &'a str) -> Result<&'a str, Fault<'a>> {
    if path == "-" && asked.get_str(rdm_usage::PORT) == Some("-") {
        return Err(Fault::ReadTwice);
    }
    if asked.get_str(rdm_usage::TRACE) == Some(path) {
        return Err(Fault::Overwritten(path));
    }
    Ok(path)
}

/// What a file kept of a survey.
fn then_in<'a, H: Host>(rt: H, asked: &ArgMatches<'a>) -> Result<Then, Fault<'a>> {
    let path = asked.get_str(rdm_usage::FILE).unwrap_or("");
    Then::read(rt, read_in(asked, path)?)
}

/// The command or the file of settings that is asked for.
fn set<'a, H: Host>(rt: H, asked: &ArgMatches<'a>) -> Result<Errand<'a>, Fault<'a>> {
    let names_parameter = asked.get_str(rdm_usage::PARAMETER).is_some();
    match asked.get_str(rdm_usage::FROM) {
        Some(path) if asked.get_str(rdm_usage::UID).is_none() => {
            Ok(Errand::Set(Settings::read(rt, read_in(asked, path)?)?))
        }
        None if names_parameter => Ok(Errand::Send(Sending::asked_for(rt, Action::Set, asked)?)),
        _ => Err(Fault::Line(LineFault::OneOfBoth)),
    }
}
