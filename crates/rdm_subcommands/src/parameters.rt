//! `felosumay parameters`: which parameters a fixture has, and which data their commands take, as the library that answers
//! them tells.

mod data;
mod own;

use clap::ArgMatches;
use data::{Command, Data, data_of, numbers_tried, put_data};
use own::put_own;
use rdm_frame::digits::word_in;
use rdm_frame::standard::ROOT_DEVICE;
use rdm_host::fault::Fault;
use rdm_host::fixture;
use rdm_host::host::Host;
use rdm_host::source::print;
use rdm_params::{
    Devices, Kind, Nack, NewError, Outcome, Profile, Severity, Verb, Verdict, Work, fits, pid_named,
};
use std::alloc::{AllocError, Global};
use std::fmt::Write;

/// A sub-device, which has what each of them has.
const SUB_DEVICE: u16 = 1;

/// Prints the parameter that is named, or all of them.
pub fn run<'a, H: Host>(rt: H, asked: &ArgMatches<'a>) -> Result<(), Fault<'a>> {
    let mut profile = fixture::asked_for(rt, asked)?.profile;
    // Where there are none, this shows what one would have.
    profile.subs = profile.subs.max(SUB_DEVICE);
    let chosen = Chosen::of(rt.alloc(), &profile, asked.get_str(rdm_usage::PARAMETER))?;
    let tried = numbers_tried(rt.alloc(), &profile)?;
    let devices = devices_of(rt.alloc(), profile)?;
    let text = chosen.text(rt.alloc(), &devices, tried.as_slice())?;
    print(rt, text.as_bytes())
}

/// The devices of a profile.
fn devices_of<'a>(alloc: Global, profile: Profile) -> Result<Devices, Fault<'a>> {
    match Devices::new(alloc, profile) {
        Ok(devices) => Ok(devices),
        Err(NewError::OutOfMemory) => Err(Fault::Memory),
        Err(NewError::TooManySubs | NewError::BadProfile) => Err(Fault::NoDevice),
    }
}

/// The parameters that are named, or all.
#[derive(Drop)]
struct Chosen {
    /// Those of the table.
    kinds: Vec<Kind>,
    /// Those that the maker adds, in words.
    own: String,
}

impl Chosen {
    /// Those of a fixture. If one is named, it has to be among them.
    fn of<'a>(
        alloc: Global,
        profile: &Profile,
        name: Option<&'a str>,
    ) -> Result<Chosen, Fault<'a>> {
        let pid = match name {
            Some(name) => pid_asked(alloc, name)?,
            None => None,
        };
        let kinds = kinds_of(alloc, profile, name.is_none(), pid)?;
        let own = own_of(alloc, profile, name, pid)?;
        match name {
            Some(name) if kinds.is_empty() && own.is_empty() => Err(Fault::NoParameter(name)),
            _ => Ok(Chosen { kinds, own }),
        }
    }

    /// What is printed of them.
    fn text(&self, alloc: Global, devices: &Devices, tried: &[u16]) -> Result<String, AllocError> {
        let mut text = String::new(alloc);
        for kind in &self.kinds {
            put_parameter(&mut text, alloc, devices, tried, *kind)?;
        }
        text.push_str(self.own.as_str())?;
        Ok(text)
    }
}

/// The parameters of the table that a fixture has: the one of this PID, or all.
fn kinds_of(
    alloc: Global,
    profile: &Profile,
    all: bool,
    pid: Option<u16>,
) -> Result<Vec<Kind>, AllocError> {
    let mut kinds = Vec::new(alloc);
    for kind in Kind::all() {
        if (all || pid == Some(kind.pid())) && !profile.lacks(kind.pid()) {
            kinds.push(kind)?;
        }
    }
    Ok(kinds)
}

/// The same of the parameters that the maker adds, in words: those of this PID or of this description, or all.
fn own_of(
    alloc: Global,
    profile: &Profile,
    name: Option<&str>,
    pid: Option<u16>,
) -> Result<String, AllocError> {
    let mut text = String::new(alloc);
    for def in profile.particulars.own() {
        let is_asked = match name {
            Some(name) => pid == Some(def.pid) || def.name.as_slice() == name.as_bytes(),
            None => true,
        };
        if is_asked {
            put_own(&mut text, def)?;
        }
    }
    Ok(text)
}

/// The PID that is asked for, if it is in four hexadecimal digits, or by a name of the standards in capitals or small letters.
fn pid_asked(alloc: Global, asked: &str) -> Result<Option<u16>, AllocError> {
    if let Some(pid) = word_in(asked.as_bytes()) {
        return Ok(Some(pid));
    }
    let capitals: String = asked
        .chars()
        .map(|c| c.to_ascii_uppercase())
        .collect(alloc)?;
    Ok(pid_named(capitals.as_bytes()))
}

/// A parameter, where it is, and its commands, each on a line.
fn put_parameter(
    text: &mut String,
    alloc: Global,
    devices: &Devices,
    tried: &[u16],
    kind: Kind,
) -> Result<(), AllocError> {
    let pid = kind.pid();
    let name = kind.name();
    let is_at_each = !matches!(
        devices.get(SUB_DEVICE, pid, &[]),
        Verdict::Refuse(Nack::UnknownPid)
    );
    let place = if is_at_each {
        "root and sub-devices"
    } else {
        "root"
    };
    writeln!(text, "{pid:04X} {name}, {place}")?;
    for verb in [Verb::Get, Verb::Set] {
        let asked = Asked {
            devices,
            tried,
            kind,
            verb,
        };
        put_command(text, alloc, asked, is_at_each)?;
    }
    Ok(())
}

/// A command on a line, if the parameter has it.
fn put_command(
    text: &mut String,
    alloc: Global,
    asked: Asked<'_>,
    is_at_each: bool,
) -> Result<(), AllocError> {
    let Some(data) = data_of(asked.kind, asked.verb) else {
        return Ok(());
    };
    text.push_str(match asked.verb {
        Verb::Get => "  GET: ",
        Verb::Set => "  SET: ",
    })?;
    put_places(text, alloc, asked, &data, is_at_each)?;
    put_job(text, asked.devices, asked.kind.pid(), asked.verb)?;
    text.push_str("\n")
}

/// A command of devices.
#[derive(Clone, Copy)]
struct Asked<'a> {
    devices: &'a Devices,
    /// The numbers that are tried in its data.
    tried: &'a [u16],
    kind: Kind,
    verb: Verb,
}

impl Asked<'_> {
    /// The data of the command to one of them, in words.
    fn data(&self, alloc: Global, sub: u16, data: &Data) -> Result<String, AllocError> {
        let mut text = String::new(alloc);
        let command = Command {
            devices: self.devices,
            tried: self.tried,
            sub,
            kind: self.kind,
            verb: self.verb,
        };
        put_data(&mut text, command, data)?;
        Ok(text)
    }
}

/// The data of a command to the root, and those to a sub-device, if they are others.
fn put_places(
    text: &mut String,
    alloc: Global,
    asked: Asked<'_>,
    data: &Data,
    is_at_each: bool,
) -> Result<(), AllocError> {
    let at_root = asked.data(alloc, ROOT_DEVICE, data)?;
    text.push_str(at_root.as_str())?;
    if !is_at_each {
        return Ok(());
    }
    let at_each = asked.data(alloc, SUB_DEVICE, data)?;
    if at_each.as_str() != at_root.as_str() {
        write!(text, "; at a sub-device {at_each}")?;
    }
    Ok(())
}

/// Which worker has the job of a command that is slow, and how long that takes.
fn put_job(text: &mut String, devices: &Devices, pid: u16, verb: Verb) -> Result<(), AllocError> {
    let work = Work {
        sub: 0,
        pid,
        verb,
        arg: 0,
    };
    // The job of any slow command may fail.
    let failed = Outcome::Failed {
        severity: Severity::Error,
        id: 0,
        v1: 0,
        v2: 0,
    };
    if !fits(&work, &failed) {
        return Ok(());
    }
    let estimate = devices.estimate_of(&work);
    let worker = devices.worker_of(&work);
    let seconds = estimate / 10;
    let tenths = estimate % 10;
    write!(text, "; slow: worker {worker}, about {seconds}.{tenths} s")?;
    match verb {
        Verb::Get => put_quick(text, devices, pid),
        Verb::Set => Ok(()),
    }
}

/// The data with which a GET that is slow otherwise is answered at once, if there are such: the numbers of sensors that say so.
fn put_quick(text: &mut String, devices: &Devices, pid: u16) -> Result<(), AllocError> {
    let mut before = "; at once: ";
    for number in 0..u8::MAX {
        if let Verdict::Reply(_) = devices.get(ROOT_DEVICE, pid, &[number]) {
            write!(text, "{before}{number:02X}")?;
            before = ", ";
        }
    }
    Ok(())
}
