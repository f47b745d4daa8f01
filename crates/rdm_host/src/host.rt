//! What the program needs of the machine that it runs on.

ghost use Rattle.std.specs.Prelude.{ℕ, List, Option, IfOk};
ghost use Rattle.rdm_host.specs.Sources.{path_of};

use crate::source::Source;
use std::fs::File;
use std::io::Read;
use std::rt::Files;
use std::sync::Wait;
use std::thread::Threads;
use std::time::Clock;
use std::{fs, io};

/// Files of the system, which can be locked, the standard streams, memory, and threads to wait for.
pub trait Host: Files<File = File>
    + Input
    + Print
    + Eprint
    + AllocGlobal
    + Clock
    + Threads
    + Wait
    + Copy
    + Send
    + 'static {
    // What the machine says of the bytes that it reads from the file of a path, or without one from standard input.
    ghost reads: { Self → Option (List ℕ) → List ℕ → Type 0 };

    /// The first bytes of a file or of standard input, at most so many: all of them, if there are no more.
    fn read_front(self, source: Source<'_>, most: u64) -> io::Result<Vec<u8>>
        ensures read { IfOk result (λ bytes. reads self (path_of source.entry) bytes.items) };
}

impl<T> Host for T
where
    T: Files<File = File>
        + Input
        + Print
        + Eprint
        + AllocGlobal
        + Clock
        + Threads
        + Wait
        + Copy
        + Send
        + 'static,
{
    // A system says nothing of what its files hold.
    ghost reads = { λ host path bytes. Unit {0} };

    fn read_front(self, source: Source<'_>, most: u64) -> io::Result<Vec<u8>> {
        let mut bytes = Vec::new(self.alloc());
        match source {
            Source::Input => self.reader().take(most).read_to_end(&mut bytes)?,
            Source::File(path) => fs::open(&self, path)?.take(most).read_to_end(&mut bytes)?,
        };
        Ok(bytes)
    }
}

/// What is needed to tell something: no threads, so that a port may tell what goes through it.
pub trait Speaker: Print + Eprint + AllocGlobal + Clock + Copy {}

impl<T> Speaker for T
where
    T: Print + Eprint + AllocGlobal + Clock + Copy,
{}
