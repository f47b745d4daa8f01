//! How a program over `run_script` ends: its exit status, and its line on standard error.

ghost use Rattle.std.specs.Prelude.{◌≡◌, ◌≢◌, ℕ, List, OnOk, IfSome, IfErr};
ghost use Rattle.std.specs.Io.KnownBytes.{Keeps, Appends, IsAtEnd};
ghost use Rattle.std.specs.Process.{exit_status};
ghost use Rattle.rdm_script.specs.DemoParts.{demo_scene};
ghost use Rattle.rdm_script.specs.ErrorLine.{Tells};
ghost use Rattle.rdm_script.specs.Program.{IsTraceOf, IsFailure, Leaves, status_of, outcome_status};
ghost use Rattle.rdm_script.specs.declared.program.ProgramError.{ProgramError as TheError};

use crate::error_line::write_error_line;
use crate::program::{ProgramError, run_script};
use std::alloc::Global;
use std::io::{Read, Write};
use std::process::ExitCode;
use std::sync::Wait;
use std::thread::Threads;

/// Plays the script that is read and writes its trace, as `run_script` does. If that fails, the line of the error
/// is written to `errors`. The exit status is 0, or that of the error.
pub fn run_program<T, R: Read, W: Write, E: Write>(
    rt: T,
    alloc: Global,
    reader: &mut R,
    writer: &mut W,
    errors: &mut E,
) -> ExitCode
where
    T: Threads + Wait + Copy + Send + 'static,
    // Status 0: the whole input was read, its trace was written, and no error line.
    ensures done { exit_status result ≡ 0 → IfSome (R.remaining reader.old) (λ input. (text : List ℕ) ×
        IsTraceOf demo_scene input text × Appends (W.contents writer.old) (W.contents writer.new) text) }
    ensures whole { exit_status result ≡ 0 → IsAtEnd (R.remaining reader.new) }
    ensures silent { exit_status result ≡ 0 → Keeps (E.contents errors.old) (E.contents errors.new) }
    // Every other status is that of an error which has its cause in the input; what is written of its line is a front of it, and
    // no byte of it goes to the output.
    ensures failed { exit_status result ≢ 0 → (e : TheError) × (exit_status result ≡ status_of e) ×
        IfSome (R.remaining reader.old) (IsFailure demo_scene e) ×
        Tells e (E.contents errors.old) (E.contents errors.new) ×
        Leaves demo_scene e (R.remaining reader.old) (W.contents writer.old) (W.contents writer.new) }
{
    report(errors, run_script(rt, alloc, reader, writer))
}

/// Tells how a program ended: if it failed, the line of the error is written to `errors`, or, if that can't be written,
/// a front of it. Gives the exit status.
pub fn report<W: Write>(errors: &mut W, outcome: Result<(), ProgramError>) -> ExitCode
    ensures status { exit_status result ≡ outcome_status outcome }
    ensures silent { OnOk outcome (Keeps (W.contents errors.old) (W.contents errors.new)) }
    ensures told { IfErr outcome (λ e. Tells e (W.contents errors.old) (W.contents errors.new)) }
{
    match outcome {
        Ok(()) => ExitCode::SUCCESS,
        Err(error) => {
            // Nobody is left to be told if the line can't be written.
            let _ = write_error_line(errors, error);
            ExitCode::from(error.status())
        }
    }
}
