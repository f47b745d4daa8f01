//! What is asked for is done on the line of a port.

use super::errand::Errand;
use super::hint::Hint;
use clap::ArgMatches;
use rdm_collector::PortError;
use rdm_host::fault::Fault;
use rdm_host::host::Host;
use rdm_host::line_fault::LineFault;
use rdm_host::source::Source;
use rdm_host::watched::Watched;
use rdm_interface::{Clock, Interface, RealClock};
use rdm_line_commands::Suite;
use rdm_line_talk::{Console, Knowledge, Log, Place, Recorder, Teller, Terminals, TraceFile};
use std::fs::{File, OpenOptions, TryLockError};
use std::io;
use std::io::{IsTerminal, Read, Write};

/// How many milliseconds the interface is waited for, unless something else is asked for.
const LIMIT: u16 = 1000;

/// The two ends of a port.
#[derive(Drop)]
struct Ends<'a, R, W> {
    /// By what name messages tell of it.
    name: &'a str,
    reader: R,
    writer: W,
    /// Whether a read returns if no byte comes, so that what others left can be passed over.
    gives_up: bool,
}

/// Does what is asked for on the line of a port, or of standard input and output. What can't be asked is refused before anything
/// is sent.
pub fn run<'a, H: Host>(
    rt: H,
    terminals: Terminals,
    asked: &ArgMatches<'a>,
) -> Result<(), Fault<'a>> {
    refuse_clashes(asked)?;
    let errand = Errand::asked_for(rt, asked)?;
    run_errand(rt, terminals, asked, &errand)
}

/// Tests a device on the line of a port, or of standard input and output, with the scripts that are named. What can't be played is refused
/// before anything is sent.
pub fn test<'a, H: Host>(
    rt: H,
    terminals: Terminals,
    asked: &ArgMatches<'a>,
) -> Result<(), Fault<'a>> {
    refuse_clashes(asked)?;
    let errand = Errand::Test(Suite::asked_for(rt, asked)?);
    run_errand(rt, terminals, asked, &errand)
}

/// Does what is asked for on the line of a port, or of standard input and output.
fn run_errand<'a, H: Host>(
    rt: H,
    terminals: Terminals,
    asked: &ArgMatches<'a>,
    errand: &Errand<'a>,
) -> Result<(), Fault<'a>> {
    match Source::named(asked.get_str(rdm_usage::PORT)) {
        Source::File(name) => {
            let teller = Teller::new(rt, Place::Output, terminals.errors);
            let ends = ends_of(rt, name)?;
            run_on(teller, asked, errand, ends)
        }
        Source::Input => {
            let teller = Teller::new(rt, Place::Errors, terminals.errors);
            let ends = Ends {
                name: "<stdin>",
                reader: rt.reader(),
                writer: io::writer(&rt),
                gives_up: terminals.input,
            };
            run_on(teller, asked, errand, ends)
        }
    }
}

/// Refuses standard input that is read twice, and a trace that would be written over what is read.
fn refuse_clashes<'a>(asked: &ArgMatches<'a>) -> Result<(), Fault<'a>> {
    let port = asked.get_str(rdm_usage::PORT).unwrap_or("-");
    let fixtures = asked.get_strs(rdm_usage::FIXTURE).unwrap_or(&[]);
    let mut readers = usize::from(port == "-");
    for name in fixtures {
        readers = readers.saturating_add(usize::from(*name == "-"));
    }
    if readers > 1 {
        return Err(Fault::ReadTwice);
    }
    match asked.get_str(rdm_usage::TRACE) {
        Some(path) if path == port || fixtures.iter().any(|name| *name == path) => {
            Err(Fault::Overwritten(path))
        }
        _ => Ok(()),
    }
}

/// Both ends of the port of this name, which no other program has as long as this one keeps them. What isn't a port is refused before
/// anything is written to it.
fn ends_of<'a, H: Host>(rt: H, name: &'a str) -> Result<Ends<'a, File, File>, Fault<'a>> {
    let reader = open(rt, name)?;
    if !reader.is_terminal() {
        return Err(Fault::Line(LineFault::NoPort(name)));
    }
    lock(name, &reader)?;
    match reader.try_clone() {
        Ok(writer) => Ok(Ends {
            name,
            reader,
            writer,
            gives_up: true,
        }),
        Err(error) => Err(Fault::Io(name, error)),
    }
}

/// Locks a port, so that another program that locks its port is refused there. The lock goes when the port is closed, also at a kill.
fn lock<'a>(name: &'a str, port: &File) -> Result<(), Fault<'a>> {
    match port.try_lock() {
        Ok(()) => Ok(()),
        Err(TryLockError::WouldBlock) => Err(Fault::Line(LineFault::Taken(name))),
        Err(TryLockError::Error(error)) => Err(Fault::Io(name, error)),
    }
}

/// Does it through this port. What is left of those who used the port before is passed over first, if a read returns without a byte.
fn run_on<'a, H: Host, R: Read + Drop, W: Write + Drop>(
    teller: Teller<H>,
    asked: &ArgMatches<'a>,
    errand: &Errand<'a>,
    ends: Ends<'a, R, W>,
) -> Result<(), Fault<'a>> {
    let rt = teller.rt();
    let knowledge = Knowledge::asked_for(rt, asked)?;
    let log = Log::new(teller, trace_file(rt, asked)?, knowledge);
    let clock = match RealClock::start(&rt, 1) {
        Ok(clock) => clock,
        Err(error) => return Err(Fault::Clock(error)),
    };
    let limit = asked.get_one::<u16>(rdm_usage::LIMIT).unwrap_or(LIMIT);
    let Ends {
        name,
        reader,
        writer,
        gives_up,
    } = ends;
    let mut port = Interface::new(Watched::new(reader), Watched::new(writer), clock, limit);
    if gives_up {
        let hint = Hint::after(rt, name, limit)?;
        let cleared = port.clear();
        hint.is_over();
        if let Err(error) = cleared {
            return Err(told(name, Fault::from(error), port));
        }
    }
    talk(teller, errand, name, port, log)
}

/// Does it through this interface, of a port of that name.
fn talk<'a, H: Host, R: Read + Drop, W: Write + Drop, C: Clock + Drop>(
    teller: Teller<H>,
    errand: &Errand<'a>,
    name: &'a str,
    mut port: Interface<Watched<R>, Watched<W>, C>,
    log: Log<'a, H, H::File>,
) -> Result<(), Fault<'a>> {
    if let Err(fault) = greet(name, &mut port) {
        return Err(told(name, fault, port));
    }
    let mut console = Console {
        port: Recorder::new(port, log),
        teller,
    };
    let done = errand.run(&mut console);
    let (port, log) = console.port.into_parts();
    match (done, log.into_fault()) {
        (Ok(()), _) => Ok(()),
        (Err(_), Some(fault)) => Err(fault),
        (Err(fault), None) => Err(told(name, fault, port)),
    }
}

/// The file for the trace, if one is asked for.
fn trace_file<'a, H: Host>(
    rt: H,
    asked: &ArgMatches<'a>,
) -> Result<Option<TraceFile<'a, H::File>>, Fault<'a>> {
    let Some(path) = asked.get_str(rdm_usage::TRACE) else {
        return Ok(None);
    };
    let made = OpenOptions::new()
        .write(true)
        .create(true)
        .truncate(true)
        .open(&rt, path);
    let file = match made {
        Ok(file) => file,
        Err(error) => return Err(Fault::Io(path, error)),
    };
    if asked.get_str(rdm_usage::TRACE_AS) == Some(rdm_usage::PCAPNG) {
        return Ok(Some(TraceFile::capture(rt.alloc(), path, file)?));
    }
    Ok(Some(TraceFile::lines(rt.alloc(), path, file)))
}

/// Opens what may be a port, for reading and writing, and changes nothing in it.
fn open<'a, H: Host>(rt: H, path: &'a str) -> Result<File, Fault<'a>> {
    match OpenOptions::new().read(true).write(true).open(&rt, path) {
        Ok(file) => Ok(file),
        Err(error) => Err(Fault::Io(path, error)),
    }
}

/// Asks the interface for its serial number, or else for its parameters: so it is known that there is one.
fn greet<'a, R: Read, W: Write, C: Clock>(
    name: &'a str,
    port: &mut Interface<R, W, C>,
) -> Result<(), Fault<'a>> {
    if port.serial_number()?.is_some() || port.parameters()?.is_some() {
        return Ok(());
    }
    Err(Fault::Line(LineFault::NoInterface(name)))
}

/// A fault, with what the system tells of it if it is one of the port.
fn told<'a, R: Read + Drop, W: Write + Drop, C: Clock + Drop>(
    name: &'a str,
    fault: Fault<'a>,
    port: Interface<Watched<R>, Watched<W>, C>,
) -> Fault<'a> {
    let (reader, writer, _clock) = port.into_parts();
    match fault {
        Fault::Line(LineFault::Port(PortError::Closed)) => Fault::Line(LineFault::Closed(name)),
        Fault::Line(LineFault::Port(PortError::Read)) => Fault::Io(name, reader.error()),
        Fault::Line(LineFault::Port(PortError::Write)) => Fault::Io(name, writer.error()),
        fault => fault,
    }
}
