//! A survey is kept in a file, and devices are compared with it.

use crate::addressing::settle;
use crate::reading::survey_all;
use clap::ArgMatches;
use rdm_collector::{Command, Port};
use rdm_compare::{
    Difference, Kept, ReadError, Remedy, differences, keep, put_difference, put_saved, read_saved,
    remedies,
};
use rdm_host::fault::Fault;
use rdm_host::host::Host;
use rdm_host::line_fault::LineFault;
use rdm_host::source;
use rdm_host::source::Source;
use rdm_line_talk::{Console, Teller, setting};
use rdm_words::tables::parameters::parameter;
use std::alloc::Global;
use std::io::Write;

/// How many bytes the file of a survey has at most.
const MOST_BYTES: u64 = 16 << 20;

/// Surveys all devices, and keeps that in the file of this path, or prints it if the path is `-`. The file is written when all is read, so
/// that a survey that fails changes nothing.
pub fn save<'a, H: Host, P: Port, F: Write>(
    console: &mut Console<'a, H, P, F>,
    path: &'a str,
) -> Result<(), Fault<'a>> {
    let rt = console.teller.rt();
    let rows = survey_all(console)?;
    let mut text = Vec::new(rt.alloc());
    put_saved(rt.alloc(), rows.as_slice(), &mut text)?;
    if path == "-" {
        return console.teller.tell(text.as_slice());
    }
    source::save(rt, path, text.as_slice())?;
    let line = match rows.len() {
        1 => format!(in rt.alloc(); "saved 1 device to {path}\n")?,
        count => format!(in rt.alloc(); "saved {count} devices to {path}\n")?,
    };
    console.teller.on_errors().tell(line.as_bytes())
}

/// What a survey kept.
#[derive(Drop)]
pub struct Then(Vec<Kept>);

impl Then {
    /// That of the file of this path, or of standard input.
    pub fn read<'a, H: Host>(rt: H, path: &'a str) -> Result<Then, Fault<'a>> {
        let source = Source::named(Some(path));
        let bytes = source.read(rt, MOST_BYTES)?;
        match read_saved(rt.alloc(), bytes.as_slice()) {
            Ok(kept) => Ok(Then(kept)),
            Err(ReadError::OutOfMemory) => Err(Fault::Memory),
            Err(error) => {
                let reason = format!(in rt.alloc(); "{error}")?;
                Err(Fault::Line(LineFault::File(source.name(), reason)))
            }
        }
    }
}

/// Surveys all devices, and tells what has changed since. That something has is a fault.
pub fn compare<'a, H: Host, P: Port, F: Write>(
    console: &mut Console<'a, H, P, F>,
    then: &Then,
) -> Result<(), Fault<'a>> {
    let alloc = console.teller.rt().alloc();
    let rows = survey_all(console)?;
    let now = keep(alloc, rows.as_slice())?;
    let changes = differences(alloc, then.0.as_slice(), now.as_slice())?;
    tell_differences(&console.teller, changes.as_slice())?;
    match changes.len() {
        0 => console.teller.tell(b"nothing has changed\n"),
        count => Err(Fault::Line(LineFault::Differs(count))),
    }
}

/// Tells what has changed, a line each.
fn tell_differences<'a, H: Host>(
    teller: &Teller<H>,
    changes: &[Difference],
) -> Result<(), Fault<'a>> {
    let mut text = Vec::new(teller.rt().alloc());
    for change in changes {
        put_difference(&mut text, change)?;
    }
    teller.tell(text.as_slice())
}

/// To what devices are set back.
#[derive(Drop)]
pub struct Restoring {
    then: Then,
    /// Whether they are, or it is only told.
    is_set: bool,
}

impl Restoring {
    /// To this survey, if the words of the command line ask for it.
    pub fn asked_for(words: &ArgMatches<'_>, then: Then) -> Restoring {
        Restoring {
            then,
            is_set: words.get_flag(rdm_usage::YES),
        }
    }
}

/// Surveys all devices, and tells what has changed since, and what sets them back. If it is asked for, that is set, and read back.
pub fn restore<'a, H: Host, P: Port, F: Write>(
    console: &mut Console<'a, H, P, F>,
    restoring: &Restoring,
) -> Result<(), Fault<'a>> {
    let alloc = console.teller.rt().alloc();
    let rows = survey_all(console)?;
    let now = keep(alloc, rows.as_slice())?;
    let then = restoring.then.0.as_slice();
    tell_differences(
        &console.teller,
        differences(alloc, then, now.as_slice())?.as_slice(),
    )?;
    let settings = settings_of(alloc, remedies(alloc, then, now.as_slice())?.as_slice())?;
    for setting in &settings {
        tell_setting(&console.teller, setting)?;
    }
    settle(console, settings.as_slice(), restoring.is_set)
}

/// What has to be set for these remedies.
fn settings_of<'a>(alloc: Global, remedies: &[Remedy]) -> Result<Vec<Command>, Fault<'a>> {
    let mut settings = Vec::with_capacity(alloc, remedies.len())?;
    for remedy in remedies {
        let Remedy { uid, sub, pid, .. } = *remedy;
        settings.push(setting(uid, sub, pid, remedy.data.copy()))?;
    }
    Ok(settings)
}

/// Tells what sets a device back.
fn tell_setting<'a, H: Host>(teller: &Teller<H>, setting: &Command) -> Result<(), Fault<'a>> {
    let (uid, sub) = (setting.dst, setting.sub);
    let name = parameter(setting.pid).unwrap_or("");
    let line = match sub {
        0 => format!(in teller.rt().alloc(); "{uid}: restore {name}\n")?,
        _ => format!(in teller.rt().alloc(); "{uid} sub-device {sub}: {name} is to be set back\n")?,
    };
    teller.tell(line.as_bytes())
}
