//! From a reader to a writer: the script that is read is played, and its trace is written.

ghost use Rattle.std.specs.Prelude.{◌≡◌, ◌≢◌, ℕ, List, take, OnOk, IfErr, IfSome};
ghost use Rattle.std.specs.Io.KnownBytes.{Keeps, Appends, IsAtEnd};
ghost use Rattle.rdm_script.specs.DemoParts.{demo_scene};
ghost use Rattle.rdm_script.specs.Playing.{fault_of_play};
ghost use Rattle.rdm_script.specs.Program.{IsTraceOf, IsFailure, status_of, fault_of_script, fault_of_run};
ghost use Rattle.rdm_script.specs.declared.program.ProgramError.TheVariants.{Memory, Read as ReadFault, Write as WriteFault};

use crate::dialect::Spelling;
use crate::grammar::ScriptError;
use crate::playing::{Unplayed, play_demonstration};
use crate::streams::read_input;
use rdm_crew::RunError;
use rdm_trace::text_of;
use std::alloc::{AllocError, Global};
use std::error::Error;
use std::fmt;
use std::io::{Read, Write};
use std::sync::Wait;
use std::thread::Threads;

/// Why the program couldn't do its work.
#[derive(Clone, Copy, Debug, PartialEq, Eq)]
pub enum ProgramError {
    /// The reader failed.
    Read,
    /// What was read is no script. It is never want of memory.
    Script(ScriptError),
    /// Memory was wanted and refused.
    Memory,
    /// The script isn't played to its end. It is never want of memory.
    Run(RunError),
    /// The writer failed, or took no byte.
    Write,
}

impl fmt::Display for ProgramError {
    ghost use Rattle.std.specs.Prelude.{Some};
    ghost use Rattle.rdm_script.specs.ErrorLine.{error_words};

    ghost output = { λ e. Some (error_words e) };

    fn fmt<W: fmt::Write>(&self, f: &mut fmt::Formatter<W>) -> fmt::Result {
        match self {
            ProgramError::Read => f.write_str("read"),
            ProgramError::Script(fault) => write!(f, "{fault}"),
            ProgramError::Memory => f.write_str("out of memory"),
            ProgramError::Run(fault) => write!(f, "run {fault}"),
            ProgramError::Write => f.write_str("write"),
        }
    }
}

impl Error for ProgramError {}

impl ProgramError {
    /// The exit status of a program that ends so.
    pub fn status(self) -> u8
        ensures { result ≡ status_of self }
    {
        match self {
            ProgramError::Script(_) => 1,
            ProgramError::Memory => 2,
            ProgramError::Run(_) => 3,
            ProgramError::Read | ProgramError::Write => 4,
        }
    }
}

impl From<AllocError> for ProgramError {
    ghost from_gives = { λ _ e. e ≡ Memory };

    fn from(_e: AllocError) -> ProgramError {
        ProgramError::Memory
    }
}

impl From<ScriptError> for ProgramError {
    ghost from_gives = { λ fault e. e ≡ fault_of_script fault };

    fn from(fault: ScriptError) -> ProgramError {
        match fault {
            ScriptError::OutOfMemory => ProgramError::Memory,
            ScriptError::TooLong | ScriptError::Line(_) => ProgramError::Script(fault),
        }
    }
}

impl From<RunError> for ProgramError {
    ghost from_gives = { λ fault e. e ≡ fault_of_run fault };

    fn from(fault: RunError) -> ProgramError {
        match fault {
            RunError::OutOfMemory => ProgramError::Memory,
            RunError::Reserved
            | RunError::TooLong
            | RunError::Unsettled
            | RunError::Astray
            | RunError::Missing
            | RunError::BadSetup => ProgramError::Run(fault),
        }
    }
}

impl From<Unplayed> for ProgramError {
    ghost from_gives = { λ why e. e ≡ fault_of_play why };

    fn from(why: Unplayed) -> ProgramError {
        match why {
            Unplayed::OutOfMemory => ProgramError::Memory,
            Unplayed::Faulty(fault) => ProgramError::from(fault),
            Unplayed::Stopped(fault, _) => ProgramError::from(fault),
        }
    }
}

impl From<rdm_streams::WriteFault> for ProgramError {
    ghost from_gives = { λ _ e. e ≡ WriteFault };

    fn from(_fault: rdm_streams::WriteFault) -> ProgramError {
        ProgramError::Write
    }
}

/// Reads a script to its end, plays it on the fixture of the demonstration, and then writes the text of its trace. The
/// device's jobs are done by two workers, each on a thread of its own.
///
/// A read that gives no byte is the end of the input, and at most 65,537 bytes are read. A write that takes no byte
/// is a fault of the writer.
pub fn run_script<T, R: Read, W: Write>(
    rt: T,
    alloc: Global,
    reader: &mut R,
    writer: &mut W,
) -> Result<(), ProgramError>
where
    T: Threads + Wait + Copy + Send + 'static,
    // What is written is the text of the trace of what is read, and nothing else.
    ensures ok { OnOk result (IfSome (R.remaining reader.old) (λ input. (text : List ℕ) ×
        IsTraceOf demo_scene input text × Appends (W.contents writer.old) (W.contents writer.new) text)) }
    // The whole input is read.
    ensures whole { OnOk result (IsAtEnd (R.remaining reader.new)) }
    // Unless the writer failed, nothing is written.
    ensures silent { IfErr result (λ e. e ≢ WriteFault → Keeps (W.contents writer.old) (W.contents writer.new)) }
    // Where it failed, a front of the text is written.
    ensures front { result ≡ Err WriteFault → IfSome (R.remaining reader.old) (λ input. (text : List ℕ) × (count : ℕ) ×
        IsTraceOf demo_scene input text × Appends (W.contents writer.old) (W.contents writer.new) (take count text)) }
    // Each failure has its cause in the input.
    ensures err { IfErr result (λ e. IfSome (R.remaining reader.old) (IsFailure demo_scene e)) }
{
    let input = read_input(alloc, reader)?;
    let lines = play_demonstration(rt, alloc, Spelling::Strict, &input)?;
    let text = text_of(alloc, &lines)?;
    rdm_streams::write_all(writer, &text)?;
    Ok(())
}
