//! Whole traces, as text.

ghost use Rattle.std.specs.Prelude.{◌≡◌, ℕ, ◌+◌, ◌^◌, ◌<◌, ◌++◌, true, false, None, IfOk, OnOk};
ghost use Rattle.std.specs.Option.{option_to_list};
ghost use Rattle.std.specs.List.{flat_map};
ghost use Rattle.rdm_trace.specs.LineText.{whole_line, lines_text};
ghost use Rattle.rdm_trace.specs.Traces.{line_of, is_line, is_remark, pieces_of, lines_said, AreWhole, IsFirstUnread};
ghost use Rattle.rdm_trace.specs.declared.text.TraceError.TheVariants.{OutOfMemory};

use crate::beginnings::may_begin_line;
use crate::{Line, put_line, read};
use rdm_streams::{line_end, without_return};
use std::alloc::{AllocError, AllocFailed, Global};
use thiserror::Error;

/// Why a text isn't read as a trace.
#[derive(Clone, Copy, Debug, PartialEq, Eq, Error)]
pub enum TraceError {
    /// Out of memory.
    #[error("out of memory")]
    OutOfMemory,
    /// This line, counted from 1, isn't a valid line of a trace.
    #[error("line {0}: this isn't a valid line of a trace")]
    Line(usize),
}

/// The text of these lines, in order. Fails only if memory is refused.
pub fn text_of(alloc: Global, lines: &[Line]) -> Result<Vec<u8>, AllocError>
    ensures { IfOk result (λ text. text.items ≡ lines_text lines.now) }
{
    let mut text = Vec::new(alloc);
    for line in lines {
        put_line(&mut text, line)?;
    }
    Ok(text)
}

/// The lines of a trace. A line ends with LF, before which a CR is dropped.
///
/// A remark is left out, and any other line that isn't part of a trace is rejected, but for what comes after the last end of a line: if that isn't a line, but
/// may begin one, it was cut off, and is left out.
pub fn lines_of(alloc: Global, trace: &[u8]) -> Result<Vec<Line>, TraceError>
    ensures said { IfOk result (λ lines. lines.items ≡ lines_said (pieces_of trace.now)) }
    ensures whole { IfOk result (λ _. AreWhole (pieces_of trace.now)) }
    ensures line { (number : ℕ) → result ≡ Err (TraceError.Line number) → IsFirstUnread (pieces_of trace.now) number }
{
    let mut lines = Vec::new(alloc);
    let mut rest = trace;
    let mut index = 0;
    while let Some(end) = line_end(rest) {
        put_whole(&mut lines, &rest[..end], index)?;
        rest = &rest[end + 1..];
        index += 1;
    }
    put_last(&mut lines, rest, index)?;
    Ok(lines)
}

/// What a line says, with the CR at its end or without.
fn read_piece(piece: &[u8]) -> Option<Line>
    ensures { result ≡ line_of piece.now }
{
    read(without_return(piece))
}

/// Puts what the line at this index says, which is whole.
fn put_whole(lines: &mut Vec<Line>, piece: &[u8], index: usize) -> Result<(), TraceError>
    requires within { index < 2 ^ 63 }
    ensures said { OnOk result (lines.new.items ≡ lines.old.items ++ option_to_list (line_of piece.now)) }
    ensures line { OnOk result (is_line piece.now ≡ true) }
    ensures unread { (number : ℕ) → result ≡ Err (TraceError.Line number) → (number ≡ index + 1) × (line_of piece.now ≡ None) × (is_remark piece.now ≡ false) }
{
    match read_piece(piece) {
        Some(line) => Ok(lines.push(line)?),
        None if is_remark(piece) => Ok(()),
        None => Err(TraceError::Line(index + 1)),
    }
}

/// Whether a line is a remark, if it isn't a time.
pub fn is_remark(line: &[u8]) -> bool
    ensures { result ≡ is_remark line.now }
{
    !line.is_empty() && line[0] == b'#'
}

/// Puts what the last line says, which is at this index, unless it was cut off.
fn put_last(lines: &mut Vec<Line>, piece: &[u8], index: usize) -> Result<(), TraceError>
    requires within { index < 2 ^ 63 }
    ensures said { OnOk result (lines.new.items ≡ lines.old.items ++ option_to_list (line_of piece.now)) }
    ensures unread { (number : ℕ) → result ≡ Err (TraceError.Line number) → (number ≡ index + 1) × (line_of piece.now ≡ None) × (is_remark piece.now ≡ false) }
{
    match read_piece(piece) {
        Some(line) => Ok(lines.push(line)?),
        None if is_remark(piece) => Ok(()),
        None if may_begin_line(without_return(piece)) => Ok(()),
        None => Err(TraceError::Line(index + 1)),
    }
}

impl From<AllocError> for TraceError {
    ghost from_gives = { λ _ e. e ≡ OutOfMemory };

    fn from(_error: AllocError) -> TraceError {
        TraceError::OutOfMemory
    }
}

impl<T: Drop> From<AllocFailed<T>> for TraceError {
    ghost from_gives = { λ _ e. e ≡ OutOfMemory };

    fn from(_error: AllocFailed<T>) -> TraceError {
        TraceError::OutOfMemory
    }
}
