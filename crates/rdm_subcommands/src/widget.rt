//! `felosumay widget`: virtual fixtures on standard input and output.

use crate::saved::Saved;
use crate::{rig, saved};
use clap::ArgMatches;
use rdm_host::fault::Fault;
use rdm_host::host::Host;
use rdm_host::source::{INPUT, OUTPUT, refuse_clashes};
use rdm_host::watched::Watched;
use rdm_widget::{Clock, LiveFixture, OnLine, Packet, RealClock, ServeError, serve, serve_some};
use std::fs::OpenFile;
use std::io;
use std::io::{Read, Seek, Write};

/// Serves until standard input ends.
pub fn run<'a, H: Host>(rt: H, asked: &ArgMatches<'a>) -> Result<(), Fault<'a>> {
    refuse_clashes(asked)?;
    let count = rig::fixture_count(asked)?;
    if count == 1 {
        return serve_one(rt, asked);
    }
    if asked.contains_id(rdm_usage::SAVED) {
        return Err(Fault::SavedOfMany(count));
    }
    let mut line = rig::asked_for(rt, asked)?;
    serve_line(rt, asked, &mut line)
}

/// Serves with the one fixture that is asked for, and keeps its values in a file if that is asked for.
fn serve_one<'a, H: Host>(rt: H, asked: &ArgMatches<'a>) -> Result<(), Fault<'a>> {
    let (name, fixture) = rig::only_one(rt, asked)?;
    let mut live = rig::live(rt, asked, name, fixture)?;
    match asked.get_str(rdm_usage::SAVED) {
        Some(name) => serve_kept(rt, asked, name, &mut live),
        None => serve_line(rt, asked, &mut live),
    }
}

/// Serves with a fixture whose values are kept in the file of this name.
fn serve_kept<'a, H: Host>(
    rt: H,
    asked: &ArgMatches<'a>,
    name: &'a str,
    live: &mut LiveFixture,
) -> Result<(), Fault<'a>> {
    let mut saved = saved::open(rt, name, live)?;
    let mut clock = clock(&rt, asked)?;
    let mut reader = Watched::new(rt.reader());
    let mut writer = Watched::new(io::writer(&rt));
    let served = serve_saving(&mut reader, &mut writer, &mut clock, live, &mut saved)?;
    ended(served, &reader, &writer)
}

/// Serves with what is on the line.
fn serve_line<'a, H: Host, L: OnLine>(
    rt: H,
    asked: &ArgMatches<'a>,
    line: &mut L,
) -> Result<(), Fault<'a>> {
    let mut clock = clock(&rt, asked)?;
    let mut reader = Watched::new(rt.reader());
    let mut writer = Watched::new(io::writer(&rt));
    let served = serve(&mut reader, &mut writer, &mut clock, line);
    ended(served, &reader, &writer)
}

/// How serving ended, with what the reader or the writer that failed tells of it.
fn ended<'a, R, W>(
    served: Result<(), ServeError>,
    reader: &Watched<R>,
    writer: &Watched<W>,
) -> Result<(), Fault<'a>> {
    match served {
        Ok(()) => Ok(()),
        Err(ServeError::Read) => Err(Fault::Io(INPUT, reader.error())),
        Err(ServeError::Write) => Err(Fault::Io(OUTPUT, writer.error())),
    }
}

/// The system's clock, as fast as it is asked for.
fn clock<'a, 'b, H: Host>(
    rt: &'b H,
    asked: &ArgMatches<'a>,
) -> Result<RealClock<'b, H>, Fault<'a>> {
    let speed = asked.get_one::<u32>(rdm_usage::SPEED).unwrap_or(1);
    match RealClock::start(rt, speed) {
        Ok(clock) => Ok(clock),
        Err(error) => Err(Fault::Clock(error)),
    }
}

/// Serves as `serve`, and saves the values of the fixture whenever what was read has changed them.
fn serve_saving<'a, R: Read, W: Write, C: Clock, F: Read + Write + Seek + OpenFile + Drop>(
    reader: &mut R,
    writer: &mut W,
    clock: &mut C,
    live: &mut LiveFixture,
    saved: &mut Saved<'a, F>,
) -> Result<Result<(), ServeError>, Fault<'a>> {
    let mut held = Packet::new();
    for _turn in 0..u64::MAX {
        let served = serve_some(reader, writer, clock, live, &mut held);
        saved.save(live.responder())?;
        match served {
            Ok(0) => return Ok(Ok(())),
            Ok(_) => {}
            Err(error) => return Ok(Err(error)),
        }
    }
    Ok(Err(ServeError::Read))
}
