//! Laws of the lines of a trace. Each is the contract of a call that does nothing.

ghost use Rattle.std.specs.Prelude.{◌≡◌, ◌↔◌, Some, IsTrue};
ghost use Rattle.rdm_trace.specs.declared.line.Line.{Line as TheLine};
ghost use Rattle.rdm_trace.specs.LineText.{line_text, IsLine};
ghost use Rattle.rdm_trace.specs.Reading.{line_in};

use crate::TraceError;

/// What is written of a line is read back: the same line, and so no text is that of two lines.
#[tactic(auto, using(crate::proofs::ReadBack::line_back))]
pub fn written_line_is_read_back()
    ensures { (line : TheLine) → IsLine line → line_in (line_text line) ≡ Some line }
{}

/// Two reasons why a text isn't read as a trace are equal by `==` exactly when they are the same, the line included.
pub fn trace_errors_are_equal_by_value()
    ensures { (a b : TraceError) → IsTrue (⟦<TraceError as PartialEq>⟧.eq a b) ↔ (a ≡ b) }
{}
