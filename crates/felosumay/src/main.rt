//! The program for people: it plays a script, says what frames say, draws them, checks a fixture file, is a virtual fixture on
//! a line, or a rig of them, and a console on a real line.
//!
//! What it prints, unless something else is asked for, is exactly what rdm_play prints.
#![tactic(auto)]

mod streams;

use clap::ArgMatches;
use clap::error::ErrorKind;
use rdm_host::fault;
use rdm_host::fault::Fault;
use rdm_host::host::Host;
use rdm_host::name::Lines;
use rdm_host::source::OUTPUT;
use rdm_line_console::Terminals;
use rdm_subcommands::{chart, check, fixture, parameters, play, widget, words};
use std::env;
use std::io::IsTerminal;
use std::process::ExitCode;
use streams::Streams;

fn main(rt: HostRuntime) -> ExitCode {
    // They are held until all is done.
    let _streams = match Streams::hold(&rt) {
        Ok(streams) => streams,
        Err(fault) => return end(rt, &fault),
    };
    let words = match command_line(rt) {
        Ok(words) => words,
        Err(fault) => return end(rt, &fault),
    };
    let matches = match rdm_usage::matches(rt.alloc(), words.as_slice()) {
        Ok(matches) => matches,
        Err(error) => return end_of_usage(rt, &error),
    };
    let terminals = Terminals {
        input: rt.stdin().is_terminal(),
        errors: rt.stderr().is_terminal(),
    };
    match run(rt, terminals, &matches) {
        Ok(()) => ExitCode::SUCCESS,
        Err(fault) => end(rt, &fault),
    }
}

/// The arguments of the command line.
fn command_line<'a>(rt: HostRuntime) -> Result<Vec<String>, Fault<'a>> {
    let args = match env::args(&rt) {
        Ok(args) => args,
        Err(_) => return Err(Fault::Words),
    };
    Ok(args.collect(rt.alloc())?)
}

/// Does what the command line asks for.
fn run<'a, H: Host>(
    rt: H,
    terminals: Terminals,
    matches: &ArgMatches<'a>,
) -> Result<(), Fault<'a>> {
    match matches.subcommand() {
        Some(("play", asked)) => play::run(rt, asked),
        Some(("words", asked)) => words::run(rt, asked),
        Some(("chart", asked)) => chart::run(rt, asked),
        Some(("check", asked)) => check::run(rt, asked),
        Some(("fixture", asked)) => fixture::run(rt, asked),
        Some(("parameters", asked)) => parameters::run(rt, asked),
        Some(("widget", asked)) => widget::run(rt, asked),
        Some(("line", asked)) => rdm_line_console::run(rt, terminals, asked),
        Some(("test", asked)) => rdm_line_console::test(rt, terminals, asked),
        _ => Ok(()),
    }
}

/// Tells on standard error why the program couldn't do its work.
fn end(rt: HostRuntime, fault: &Fault<'_>) -> ExitCode {
    let status = ExitCode::from(fault.status());
    if fault.is_closed_pipe() {
        return status;
    }
    // Nobody is left to be told if this can't be written.
    let _ = if is_coloured(rt) {
        eprintln!(rt; "\u{1b}[31m{fault}\u{1b}[0m")
    } else {
        eprintln!(rt; "{fault}")
    };
    status
}

/// Whether messages are coloured: on a terminal that has colours, unless `NO_COLOR` asks for none.
fn is_coloured(rt: HostRuntime) -> bool {
    let is_plain = match env::var(&rt, "TERM") {
        Ok(terminal) => terminal.as_str() == "dumb",
        Err(_) => false,
    };
    let is_declined = match env::var(&rt, "NO_COLOR") {
        Ok(word) => !word.is_empty(),
        Err(_) => false,
    };
    rt.stderr().is_terminal() && !is_plain && !is_declined
}

/// Prints a help page or the version that was asked for, or tells what is wrong with the command line.
fn end_of_usage(rt: HostRuntime, error: &clap::Error) -> ExitCode {
    match error.kind() {
        ErrorKind::DisplayHelp | ErrorKind::DisplayVersion => match error.print(&rt) {
            Ok(()) => ExitCode::SUCCESS,
            Err(error) => end(rt, &Fault::Io(OUTPUT, error)),
        },
        ErrorKind::OutOfMemory => end(rt, &Fault::Memory),
        _ => match error.to_string(rt.alloc()) {
            Ok(text) => {
                let lines = Lines(text.as_str());
                // Nobody is left to be told if this can't be written.
                let _ = eprint!(rt; "{lines}");
                ExitCode::from(fault::BAD_USAGE)
            }
            Err(_) => end(rt, &Fault::Memory),
        },
    }
}
