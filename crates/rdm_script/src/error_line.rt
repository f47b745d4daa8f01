//! The line by which a program tells its error.

ghost use Rattle.std.specs.Prelude.{◌≡◌, ◌<◌, ℕ, length, take, OnOk, OnErr};
ghost use Rattle.std.specs.Io.KnownBytes.{Appends};
ghost use Rattle.rdm_script.specs.ErrorLine.{error_line};

use crate::program::ProgramError;
use arrayvec::ArrayString;
use rdm_streams::{WriteFault, write_all};
use std::fmt::Write as _;
use std::io;

/// How many bytes the line has at most: that of a line whose number has twenty digits.
const LONGEST_LINE: usize = 40;

/// Writes the line that tells an error: `error: `, its words, and LF.
pub(crate) fn write_error_line<W: io::Write>(
    writer: &mut W,
    error: ProgramError,
) -> Result<(), WriteFault>
    ensures ok { OnOk result (Appends (W.contents writer.old) (W.contents writer.new) (error_line error)) }
    // Where it failed, a front of the line is written that isn't all of it.
    ensures front { OnErr result ((count : ℕ) × (count < length (error_line error))
        × Appends (W.contents writer.old) (W.contents writer.new) (take count (error_line error))) }
{
    let mut line = ArrayString::<LONGEST_LINE>::new();
    match writeln!(line, "error: {error}") {
        Ok(()) => write_all(writer, line.as_bytes()),
        Err(_) => Err(WriteFault),
    }
}
