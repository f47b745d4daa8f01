//! The words of lines, one by one and of a whole text.

ghost use Rattle.std.specs.Prelude.{◌≡◌, ◌≢◌, ℕ, List, [], ◌∷◌, ◌++◌, None, IfOk, OnOk, codes};
ghost use Rattle.std.specs.Str.Lines.{lines};
ghost use Rattle.rdm_words.specs.Plain.{IsFixed, escaped, shown};
ghost use Rattle.rdm_words.specs.Naming.{NamesInLine};
ghost use Rattle.rdm_words.specs.Said.{Says, SayInTurn, Tells, TellsLine, TellsBytes, AreToldInTurn, behind, other_words};
ghost use Rattle.rdm_words.specs.declared.before.Before.{Before as TheBefore};
ghost use Rattle.rdm_words.specs.Before.{before_all};
ghost use Rattle.rdm_trace.specs.Reading.{line_in};
ghost use Rattle.rdm_trace.specs.Traces.{is_remark};

use crate::frame::frame_words::put_bytes_words;
use crate::text::{put_escaped, put_shown};
use crate::trace_words::put_trace_line;
use crate::{Before, Known};
use rdm_frame::Wire;
use rdm_streams::{line_end, without_return};
use rdm_trace::{Line, is_remark, read, wire_in};
use std::alloc::{AllocError, Global};

/// The words of each line of a text, in order. A line ends with LF, before which a CR is dropped; the last LF may be
/// missing. Fails only if memory is refused.
pub fn words(alloc: Global, text: &[u8], known: &Known<'_>) -> Result<Vec<u8>, AllocError>
    ensures said { IfOk result (λ out. SayInTurn before_all (lines text.now) out.items) }
{
    let mut out = Vec::new(alloc);
    let mut before = Before::nothing();
    let mut rest = text;
    while let Some(end) = line_end(rest) {
        put_text_line(&mut out, &mut before, without_return(&rest[..end]), known)?;
        rest = &rest[end + 1..];
    }
    if rest.is_empty() {
        return Ok(out);
    }
    put_text_line(&mut out, &mut before, rest, known)?;
    Ok(out)
}

/// The words of each of these lines of a trace, in order. Fails only if memory is refused.
pub fn words_of_lines(
    alloc: Global,
    lines: &[Line],
    known: &Known<'_>,
) -> Result<Vec<u8>, AllocError>
    ensures told { IfOk result (λ out. AreToldInTurn before_all lines.now out.items) }
{
    let mut out = Vec::new(alloc);
    let mut before = Before::nothing();
    for line in lines {
        put_line_words(&mut out, &before, line, known)?;
        before.then(line);
    }
    Ok(out)
}

/// Puts the words of a line of a trace at the end, by what went before it: one or more lines of text, each of which ends with LF. Fails only
/// if memory is refused.
pub fn put_line_words(
    out: &mut Vec<u8>,
    before: &Before,
    line: &Line,
    known: &Known<'_>,
) -> Result<(), AllocError>
    ensures told { OnOk result ((own : List ℕ) × TellsLine before.now line.now own × (out.new.items ≡ out.old.items ++ own)) }
{
    let mut text = String::new(*out.allocator());
    put_trace_line(&mut text, before, line, known)?;
    put_told(out, text.as_bytes())
}

/// Puts the words of one line of a text at the end, without its line end, as `words` has them, and goes on to the line behind it. Fails
/// only if memory is refused.
#[tactic(auto, using(crate::proofs::Says::trace))]
pub fn put_text_line(
    out: &mut Vec<u8>,
    before: &mut Before,
    line: &[u8],
    known: &Known<'_>,
) -> Result<(), AllocError>
    ensures said { OnOk result ((own : List ℕ) × Says before.old line.now own × (out.new.items ≡ out.old.items ++ own)) }
    ensures behind { OnOk result (before.new ≡ behind (line_in line.now) before.old) }
{
    if let Some(said) = read(line) {
        put_line_words(out, before, &said, known)?;
        before.then(&said);
        return Ok(());
    }
    put_other_line(out, line, known)?;
    Ok(())
}

/// The words of a line that isn't one of a trace.
#[tactic(auto, using(crate::proofs::Says::empty, crate::proofs::Says::wire, crate::proofs::Says::unread))]
fn put_other_line(out: &mut Vec<u8>, line: &[u8], known: &Known<'_>) -> Result<(), AllocError>
    requires other { line_in line.now ≡ None }
    ensures said { OnOk result ((own : List ℕ) × ((before : TheBefore) → Says before line.now own) × (out.new.items ≡ out.old.items ++ own)) }
{
    if line.is_empty() {
        out.extend_from_slice(b"\n")?;
        return Ok(());
    }
    if let Some(bytes) = wire_in(line) {
        put_wire_words(out, &bytes, known)?;
        return Ok(());
    }
    put_unread(out, line)?;
    Ok(())
}

/// The words of bytes from the bus.
fn put_wire_words(out: &mut Vec<u8>, bytes: &Wire, known: &Known<'_>) -> Result<(), AllocError>
    ensures told { OnOk result ((own : List ℕ) × TellsBytes bytes.now own × (out.new.items ≡ out.old.items ++ own)) }
{
    let mut text = String::new(*out.allocator());
    put_bytes_words(&mut text, bytes, known)?;
    put_told(out, text.as_bytes())
}

/// A line that says nothing of a bus, as it stands.
fn put_unread(out: &mut Vec<u8>, line: &[u8]) -> Result<(), AllocError>
    ensures { OnOk result (out.new.items ≡ out.old.items ++ other_words (is_remark line.now) line.now) }
{
    if !is_remark(line) {
        out.extend_from_slice(b"not read: ")?;
    }
    put_escaped(out, line)?;
    out.extend_from_slice(b"\n")
}

/// A line of its own, with these words, or with a remark that there are none.
fn put_told(out: &mut Vec<u8>, words: &[u8]) -> Result<(), AllocError>
    ensures told { OnOk result ((own : List ℕ)
        × Tells (λ said. IsFixed said × (said ≡ words.now)) (λ said. IsFixed said × (front : List ℕ) × (words.now ≡ front ++ said))
        (λ facts. (words.now ≢ []) × NamesInLine facts words.now) own
        × (out.new.items ≡ out.old.items ++ own)) }
{
    put_whole(out, some_words(words))?;
    Ok(())
}

/// A line of its own, with these words.
fn put_whole(out: &mut Vec<u8>, words: &[u8]) -> Result<(), AllocError>
    ensures { OnOk result (out.new.items ≡ out.old.items ++ (shown words.now ++ 10 ∷ [])) }
{
    put_shown(out, words)?;
    out.extend_from_slice(b"\n")
}

/// The words, if there are any.
fn some_words(words: &[u8]) -> &[u8]
    ensures some { result.now ≢ [] }
    ensures same { words.now ≢ [] → result.now ≡ words.now }
{
    if words.is_empty() { b"no words" } else { words }
}
