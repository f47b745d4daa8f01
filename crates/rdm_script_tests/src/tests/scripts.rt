//! Scripts, and how they end.

use super::{Ends, FIRST_TRACE, collecting, odd, plain, played, repeated, working};
use rdm_crew::RunError;
use rdm_script::{ProgramError, ScriptError};
use std::alloc::{AllocError, Global};
use std::process::Abort;
use std::sync::Wait;
use std::test::Fail;
use std::thread::Threads;

/// A script is played, and ends so. Where it stops, nothing is written.
fn ends_so<T>(rt: T, alloc: Global, script: &[u8], ends: Ends)
where
    T: Threads + Wait + Abort + Copy + Send + 'static,
{
    let (outcome, written) = played(rt, alloc, script);
    assert!(rt; outcome == outcome_of(ends), "{script:?}");
    assert!(rt; is_written(&written, ends), "{script:?} {written:?}");
}

/// The outcome of a script that ends so.
pub(super) fn outcome_of(ends: Ends) -> Result<(), ProgramError> {
    match ends {
        Ends::Prints(_) | Ends::Plays => Ok(()),
        Ends::Stops(error) => Err(error),
    }
}

/// Whether this is what a script writes that ends so.
pub(super) fn is_written(written: &[u8], ends: Ends) -> bool {
    match ends {
        Ends::Prints(trace) => written == trace.as_bytes(),
        Ends::Plays => !written.is_empty(),
        Ends::Stops(_) => written.is_empty(),
    }
}

/// Each script prints the trace beside it.
fn all_print<T>(rt: T, alloc: Global, rows: &[(&str, &'static str)])
where
    T: Threads + Wait + Abort + Copy + Send + 'static,
{
    for (script, trace) in rows {
        ends_so(rt, alloc, script.as_bytes(), Ends::Prints(trace));
    }
}

/// Each script stops for the reason beside it.
fn all_stop<T>(rt: T, alloc: Global, rows: &[(&str, ProgramError)])
where
    T: Threads + Wait + Abort + Copy + Send + 'static,
{
    for (script, error) in rows {
        ends_so(rt, alloc, script.as_bytes(), Ends::Stops(*error));
    }
}

/// No line of a text is a line of a script.
fn all_are_faulty<T>(rt: T, alloc: Global, lines: &str)
where
    T: Threads + Wait + Abort + Copy + Send + 'static,
{
    for line in lines.lines() {
        let fault = ProgramError::Script(ScriptError::Line(1));
        ends_so(rt, alloc, line.as_bytes(), Ends::Stops(fault));
    }
}

#[test]
fn scripts_end_as_they_should(rt: HostRuntime) {
    all_print(rt, rt.alloc(), plain::PLAYED);
    all_print(rt, rt.alloc(), collecting::PLAYED);
    all_print(rt, rt.alloc(), working::PLAYED);
    all_print(rt, rt.alloc(), plain::SPELLINGS);
    all_are_faulty(rt, rt.alloc(), plain::FAULTY);
    all_stop(rt, rt.alloc(), plain::COUNTED);
    all_stop(rt, rt.alloc(), collecting::STOPPED);
}

#[test]
fn odd_scripts_end_as_they_should(rt: HostRuntime) {
    for (script, trace) in odd::ODD {
        ends_so(rt, rt.alloc(), script, Ends::Prints(trace));
    }
    for (front, text, count, end, ends) in odd::LONG {
        let script = long(rt.alloc(), front, text, *count, end).expect(&rt, "memory");
        ends_so(rt, rt.alloc(), script.as_bytes(), *ends);
    }
}

/// A text so many times over, between two others.
pub(super) fn long(
    alloc: Global,
    front: &str,
    text: &str,
    count: usize,
    end: &str,
) -> Result<String, AllocError> {
    let mut script = repeated(alloc, front, text, count)?;
    script.push_str(end)?;
    Ok(script)
}

#[test]
fn settles_in_vain(rt: HostRuntime) -> Result<(), Fail> {
    // The report may be there at once, so it is tried again and again.
    for _ in 0..1_000 {
        let (outcome, written) = played(rt, rt.alloc(), b"set dev 0000 0403 01\nsettle 0\n");
        if outcome.is_err() {
            assert!(rt; outcome == Err(ProgramError::Run(RunError::Unsettled)));
            assert!(rt; written.is_empty());
            return Ok(());
        }
    }
    Err(Fail::from("it never gave up"))
}
