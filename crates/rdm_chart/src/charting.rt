//! A trace as a picture.

ghost use Rattle.std.specs.Prelude.{◌≡◌, ◌<◌, ◌≤◌, ℕ, IfOk};
ghost use Rattle.rdm_trace.specs.Traces.{pieces_of, lines_said, AreWhole, IsFirstUnread};
ghost use Rattle.rdm_chart.specs.Requests.{request_count};
ghost use Rattle.rdm_chart.specs.Pictures.{IsDocument};
ghost use Rattle.rdm_chart.specs.Reading.{arrows_in};
ghost use Rattle.rdm_chart.specs.Arrows.{kinds_said};
ghost use Rattle.rdm_chart.specs.Drawings.{kinds_drawn};
ghost use Rattle.rdm_chart.specs.Errors.{chart_error};
ghost use Rattle.rdm_chart.specs.declared.charting.ChartError.TheVariants.{OutOfMemory, TooMany};

use crate::cast::Cast;
use crate::drawing::Drawing;
use crate::page::Picture;
use crate::requests::request_count;
use crate::title::{Addressed, Named};
use rdm_trace::{Line, TraceError, lines_of};
use rdm_words::{Before, Known};
use std::alloc::{AllocError, Global};
use thiserror::Error;

/// Why no chart was drawn.
#[derive(Clone, Copy, Debug, PartialEq, Eq, Error)]
pub enum ChartError {
    /// Out of memory.
    #[error("out of memory")]
    OutOfMemory,
    /// This line, counted from 1, isn't a valid line of a trace.
    #[error("line {0}: this isn't a valid line of a trace")]
    Line(usize),
    /// The trace has more transactions than can be drawn well.
    #[error("a chart can't have more than {MOST_TRANSACTIONS} transactions")]
    TooMany,
}

/// How many transactions a chart of a text can have.
pub const MOST_TRANSACTIONS: usize = 2000;

/// A trace as a sequence chart: a document of SVG 1.1, in UTF-8. Its title has the fixture's name if the requests are for the one that is
/// named, and for no other.
///
/// One of more than [`MOST_TRANSACTIONS`] is rejected before its lines are kept. A trace that stops before its `end` is drawn as far as it
/// goes. Remarks are left out, and a line that isn't part of a trace is rejected, but for what
/// comes after the last end of a line: if that isn't a line, but may begin one, it was cut off, and is left out.
pub fn chart(
    alloc: Global,
    trace: &[u8],
    known: &Known<'_>,
    named: Option<Named<'_>>,
) -> Result<Vec<u8>, ChartError>
    ensures document { IfOk result (λ svg. IsDocument svg.items) }
    ensures arrows { IfOk result (λ svg. arrows_in svg.items ≡ kinds_said (lines_said (pieces_of trace.now))) }
    ensures whole { IfOk result (λ _. AreWhole (pieces_of trace.now)) }
    ensures line { (number : ℕ) → result ≡ Err (ChartError.Line number) → IsFirstUnread (pieces_of trace.now) number }
    ensures few { IfOk result (λ _. request_count (pieces_of trace.now) ≤ 2000) }
    ensures many { result ≡ Err TooMany → 2000 < request_count (pieces_of trace.now) }
{
    if request_count(trace) > MOST_TRANSACTIONS {
        return Err(ChartError::TooMany);
    }
    let lines = lines_of(alloc, trace)?;
    let drawing = drawn(alloc, lines.as_slice(), known)?;
    // they take more memory than what is drawn of them
    drop(lines);
    Ok(page_of(alloc, drawing, named)?)
}

/// The lines of a trace as a sequence chart, as [`chart`] draws it. Fails only if memory is refused.
pub fn chart_of(
    alloc: Global,
    lines: &[Line],
    known: &Known<'_>,
    named: Option<Named<'_>>,
) -> Result<Vec<u8>, AllocError>
    ensures document { IfOk result (λ svg. IsDocument svg.items) }
    ensures arrows { IfOk result (λ svg. arrows_in svg.items ≡ kinds_said lines.now) }
{
    let drawing = drawn(alloc, lines, known)?;
    page_of(alloc, drawing, named)
}

/// The document of what is drawn.
fn page_of(alloc: Global, drawing: Drawing, named: Option<Named<'_>>) -> Result<Vec<u8>, AllocError>
    ensures document { IfOk result (λ svg. IsDocument svg.items) }
    ensures arrows { IfOk result (λ svg. arrows_in svg.items ≡ kinds_drawn drawing) }
{
    let picture = Picture::of(alloc, drawing, named)?;
    Ok(picture.text(alloc)?.into_bytes())
}

/// What is drawn of lines.
fn drawn(alloc: Global, lines: &[Line], known: &Known<'_>) -> Result<Drawing, AllocError>
    ensures { IfOk result (λ drawing. kinds_drawn drawing ≡ kinds_said lines.now) }
{
    let cast = Cast::of(alloc, lines)?;
    let mut drawing = Drawing::new(alloc, cast, Addressed::by(lines))?;
    let mut before = Before::nothing();
    for line in lines {
        drawing.draw(alloc, &before, line, known)?;
        before.then(line);
    }
    Ok(drawing)
}

impl From<TraceError> for ChartError {
    ghost from_gives = { λ error e. e ≡ chart_error error };

    fn from(error: TraceError) -> ChartError {
        match error {
            TraceError::OutOfMemory => ChartError::OutOfMemory,
            TraceError::Line(number) => ChartError::Line(number),
        }
    }
}

impl From<AllocError> for ChartError {
    ghost from_gives = { λ _ e. e ≡ OutOfMemory };

    fn from(_error: AllocError) -> ChartError {
        ChartError::OutOfMemory
    }
}
