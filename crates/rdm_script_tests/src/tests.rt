//! What no contract says: that scripts print what they should, and that the words of each fault are right.

mod chosen;
mod collecting;
mod endings;
mod finds;
mod friendly;
mod lines;
mod odd;
mod own_names;
mod panel;
mod parsing;
mod plain;
mod readme;
mod scripts;
mod staged;
mod stops;
mod streams;
mod traces;
mod working;

use rdm_script::{ProgramError, run_script};
use std::alloc::{AllocError, Global};
use std::sync::Wait;
use std::thread::Threads;

/// The shortest script.
const FIRST_SCRIPT: &str = "get dev 0000 1000 -\n";

/// What it prints.
const FIRST_TRACE: &str = "send CC01187FF0000000017FF00000000200010000002010000003F7
reply CC01197FF0000000027FF0000000010000000000211000010003F9
heard reply
end
";

/// What a script ends with, and what it writes.
fn played<T>(rt: T, alloc: Global, script: &[u8]) -> (Result<(), ProgramError>, Vec<u8>)
where
    T: Threads + Wait + Copy + Send + 'static,
{
    let mut reader = script;
    let mut written = Vec::new(alloc);
    let outcome = run_script(rt, alloc, &mut reader, &mut written);
    (outcome, written)
}

/// How a script ends.
#[derive(Clone, Copy)]
enum Ends {
    /// It prints this trace.
    Prints(&'static str),
    /// It prints a trace.
    Plays,
    /// It stops for this, and prints nothing.
    Stops(ProgramError),
}

/// A text so many times over, after another.
fn repeated(alloc: Global, front: &str, text: &str, count: usize) -> Result<String, AllocError> {
    let mut all = String::from_str(alloc, front)?;
    for _ in 0..count {
        all.push_str(text)?;
    }
    Ok(all)
}
