//! How a program ends: its exit status, and the whole of its line.

use rdm_crew::RunError;
use rdm_script::{ProgramError, ScriptError, report, run_program};
use std::alloc::Global;
use std::io;
use std::io::Read;
use std::process::{Abort, ExitCode};
use std::sync::Wait;
use std::thread::Threads;

/// Each error, the status of a program that ends so, and its line.
const ENDINGS: &[(ProgramError, u8, &str)] = &[
    (
        ProgramError::Script(ScriptError::Line(12)),
        1,
        "error: line 12\n",
    ),
    (
        ProgramError::Script(ScriptError::TooLong),
        1,
        "error: script too long\n",
    ),
    (ProgramError::Memory, 2, "error: out of memory\n"),
    (
        ProgramError::Run(RunError::Reserved),
        3,
        "error: run reserved\n",
    ),
    (
        ProgramError::Run(RunError::TooLong),
        3,
        "error: run too long\n",
    ),
    (
        ProgramError::Run(RunError::Unsettled),
        3,
        "error: run unsettled\n",
    ),
    (
        ProgramError::Run(RunError::Astray),
        3,
        "error: run astray\n",
    ),
    (
        ProgramError::Run(RunError::Missing),
        3,
        "error: run missing\n",
    ),
    (
        ProgramError::Run(RunError::BadSetup),
        3,
        "error: run bad setup\n",
    ),
    (ProgramError::Read, 4, "error: read\n"),
    (ProgramError::Write, 4, "error: write\n"),
];

#[test]
fn tells_each_error(rt: HostRuntime) {
    for (error, status, line) in ENDINGS {
        let (code, errors) = reported(rt.alloc(), *error);
        let told = (code, errors.as_slice());
        assert!(rt; told == (ExitCode::from(*status), line.as_bytes()));
    }
}

/// The exit status of an error, and what is written for it.
fn reported(alloc: Global, error: ProgramError) -> (ExitCode, Vec<u8>) {
    let mut errors = Vec::new(alloc);
    let code = report(&mut errors, Err(error));
    (code, errors)
}

#[test]
fn tells_want_of_memory(rt: HostRuntime) {
    let mut errors = Vec::new(rt.alloc());
    let code = report(&mut errors, take_too_much(rt.alloc()));
    let told = (code, errors.as_slice());
    assert!(rt; told == (ExitCode::from(2), b"error: out of memory\n".as_slice()));
}

/// Asks for more memory than there is.
fn take_too_much(alloc: Global) -> Result<(), ProgramError> {
    let _room: Vec<u8> = Vec::with_capacity(alloc, usize::MAX)?;
    Ok(())
}

/// A script that isn't played, the status of a program that reads it, and its line.
const STOPPED: &[(&str, u8, &str)] = &[
    ("get dev 0000 1000 -\nfoo\n", 1, "error: line 2\n"),
    ("get dev 0000 0020 02\n", 3, "error: run reserved\n"),
];

#[test]
fn tells_why_a_script_isnt_played(rt: HostRuntime) {
    for (script, status, line) in STOPPED {
        ends_so(rt, rt.alloc(), &mut script.as_bytes(), *status, line);
    }
}

/// A reader that fails.
#[derive(Drop)]
struct Broken;

impl Read for Broken {
    fn read(&mut self, _buf: &mut [u8]) -> io::Result<usize> {
        Err(io::Error::from(io::ErrorKind::BrokenPipe))
    }
}

#[test]
fn tells_that_nothing_can_be_read(rt: HostRuntime) {
    ends_so(rt, rt.alloc(), &mut Broken, 4, "error: read\n");
}

/// A program that plays what a reader gives has this exit status, writes nothing, and this line of its error.
fn ends_so<T, R: Read>(rt: T, alloc: Global, reader: &mut R, status: u8, line: &str)
where
    T: Threads + Wait + Abort + Copy + Send + 'static,
{
    let mut written = Vec::new(alloc);
    let mut errors = Vec::new(alloc);
    let code = run_program(rt, alloc, reader, &mut written, &mut errors);
    let told = (code, written.len(), errors.as_slice());
    assert!(rt; told == (ExitCode::from(status), 0, line.as_bytes()));
}
