//! From the bytes of a script to its setup and its steps.

ghost use Rattle.std.specs.Prelude.{◌≡◌, ◌≢◌, ℕ, ◌+◌, ◌*◌, ◌^◌, ◌<◌, ◌≤◌, ◌==◌, List, [], ◌∷◌, ◌++◌, length, count_by, position, vec_len, vec_capacity, None, IfSome, OnOk, IfOk, IfErr, MatchResult};
ghost use Rattle.std.specs.Option.{option_or};
ghost use Rattle.rdm_crew.specs.declared.step.CrewStep.{CrewStep as TheStep};
ghost use Rattle.rdm_crew.specs.RunTrace.{HaveFaults};
ghost use Rattle.rdm_script.specs.declared.script.ScriptSetup.{ScriptSetup as TheSetup};
ghost use Rattle.rdm_script.specs.Dialects.{strict};
ghost use Rattle.rdm_script.specs.Parties.{demo_device, plain_setup};
ghost use Rattle.rdm_script.specs.Grammar.{words_of, line_at, begun_after, said_by, lines_of, setup_after, steps_of_line, AreSaid, IsFirstFaulty, Refuses};
ghost use Rattle.rdm_script.specs.Search.{most_steps, search_of};
ghost use Rattle.rdm_script.specs.Spelling.{IsScript};
ghost use Rattle.rdm_script.specs.StepLines.{step_line, set_line, step_lines, setup_line};
ghost use Rattle.rdm_script.specs.Told.{finds_of, finds_after};
ghost use Rattle.rdm_script.specs.declared.grammar.parsing.ScriptError.TheVariants.{OutOfMemory, Line as LineError};
ghost use Rattle.rdm_script.specs.declared.grammar.line.Line.TheVariants.{Faulty};
ghost use Rattle.rdm_script.specs.declared.found.Finds.TheVariants.{Untold};

use super::line::{Line, first_line_in, line_in};
use super::search::search_of;
use super::words::words_of;
use crate::dialect::{Dialect, Spelling};
use crate::found::Finds;
use crate::parties::DEMO_DEVICE;
use crate::script::{Script, ScriptSetup};
use rdm_crew::CrewStep;
use rdm_frame::Uid;
use rdm_streams::{line_end, without_return};
use std::alloc::{AllocError, Global};
use std::error::Error;
use std::fmt;

/// How many bytes a script may have.
pub const MOST_BYTES: usize = 65_536;

/// Why bytes are no script.
#[derive(Clone, Copy, Debug, PartialEq, Eq)]
pub enum ScriptError {
    /// Memory was wanted and refused.
    OutOfMemory,
    /// There are more than 65,536 bytes.
    TooLong,
    /// This line, counted from 1, is the first that is faulty.
    Line(usize),
}

impl fmt::Display for ScriptError {
    ghost use Rattle.std.specs.Prelude.{Some};
    ghost use Rattle.rdm_script.specs.ErrorLine.{script_words};

    ghost output = { λ e. Some (script_words e) };

    fn fmt<W: fmt::Write>(&self, f: &mut fmt::Formatter<W>) -> fmt::Result {
        match self {
            ScriptError::OutOfMemory => f.write_str("out of memory"),
            ScriptError::TooLong => f.write_str("script too long"),
            ScriptError::Line(number) => write!(f, "line {number}"),
        }
    }
}

impl Error for ScriptError {}

impl From<AllocError> for ScriptError {
    ghost from_gives = { λ _ e. e ≡ OutOfMemory };

    fn from(_e: AllocError) -> ScriptError {
        ScriptError::OutOfMemory
    }
}

/// The number of a faulty line, counted from 1.
#[derive(Clone, Copy)]
struct FaultyLine(usize);

impl From<FaultyLine> for ScriptError {
    ghost from_gives = { λ fault e. e ≡ LineError fault.0 };

    fn from(fault: FaultyLine) -> ScriptError {
        ScriptError::Line(fault.0)
    }
}

/// The script that the bytes are, played on the device of the demonstration: `dev` is 7FF0:00000001.
///
/// Memory for the steps is taken first, so that afterwards the bytes alone decide whether they are a script.
pub fn parse(alloc: Global, text: &[u8]) -> Result<Script, ScriptError>
    // What is read is a script of this setup and these steps.
    ensures ok { IfOk result (λ script. IsScript (strict demo_device) text.now script.setup script.steps.items) }
    // A script is read, unless memory is refused.
    ensures only { (setup : TheSetup) (steps : List TheStep) → IsScript (strict demo_device) text.now setup steps →
        MatchResult result (λ script. (script.setup ≡ setup) × (script.steps.items ≡ steps)) (λ e. e ≡ OutOfMemory) }
    // Each refusal comes for its cause: a line is named only where it is the first faulty one.
    ensures err { IfErr result (λ e. Refuses (strict demo_device) e text.now) }
    ensures too_long { 65536 < length text.now → result ≡ Err ScriptError.TooLong }
    // What goes wrong at a step alters something.
    ensures faults { IfOk result (λ script. HaveFaults script.steps.items) }
    // The script knows the line of each step, and that of its setup.
    ensures lines { IfOk result (λ script. script.lines.items ≡ step_lines (strict demo_device) text.now) }
    ensures setup_line { IfOk result (λ script. script.setup_line ≡ setup_line (strict demo_device) text.now) }
    // It knows whether a line says a search.
    ensures finds { IfOk result (λ script. script.finds ≡ finds_of (strict demo_device) text.now) }
{
    parse_as(alloc, &Dialect::of(DEMO_DEVICE, Spelling::Strict), text)
}

/// The script that the bytes are in a dialect.
///
/// Memory for the steps is taken first, so that afterwards the bytes alone decide whether they are a script.
pub fn parse_as(alloc: Global, dialect: &Dialect<'_>, text: &[u8]) -> Result<Script, ScriptError>
    // What is read is a script of this setup and these steps.
    ensures ok { IfOk result (λ script. IsScript dialect.now text.now script.setup script.steps.items) }
    // A script is read, unless memory is refused.
    ensures only { (setup : TheSetup) (steps : List TheStep) → IsScript dialect.now text.now setup steps →
        MatchResult result (λ script. (script.setup ≡ setup) × (script.steps.items ≡ steps)) (λ e. e ≡ OutOfMemory) }
    // Each refusal comes for its cause: a line is named only where it is the first faulty one.
    ensures err { IfErr result (λ e. Refuses dialect.now e text.now) }
    ensures too_long { 65536 < length text.now → result ≡ Err ScriptError.TooLong }
    // What goes wrong at a step alters something.
    ensures faults { IfOk result (λ script. HaveFaults script.steps.items) }
    // The script knows the line of each step, and that of its setup.
    ensures lines { IfOk result (λ script. script.lines.items ≡ step_lines dialect.now text.now) }
    ensures setup_line { IfOk result (λ script. script.setup_line ≡ setup_line dialect.now text.now) }
    // It knows whether a line says a search.
    ensures finds { IfOk result (λ script. script.finds ≡ finds_of dialect.now text.now) }
{
    if text.len() > MOST_BYTES {
        return Err(ScriptError::TooLong);
    }
    let room = room_of(dialect.spelling, text);
    let mut script = Script {
        setup: ScriptSetup::PLAIN,
        steps: Vec::with_capacity(alloc, room)?,
        lines: Vec::with_capacity(alloc, room)?,
        setup_line: None,
        finds: Finds::Untold,
    };
    read_lines(dialect, text, &mut script)?;
    Ok(script)
}

/// For how many steps of a text there has to be room.
fn room_of(spelling: Spelling, text: &[u8]) -> usize
    requires { length text.now ≤ 65536 }
    ensures { result ≡ length (lines_of text.now) * most_steps spelling }
{
    let count = line_count(text);
    match spelling {
        Spelling::Strict => count,
        Spelling::Friendly => count * 4,
    }
}

/// How many lines a text has.
#[tactic(auto, using(crate::proofs::Lines::line_count_is))]
fn line_count(text: &[u8]) -> usize
    ensures count { result ≡ length (lines_of text.now) }
    ensures within { result ≤ length text.now + 1 }
{
    line_end_count(text) + 1
}

/// How many LFs a text has.
fn line_end_count(text: &[u8]) -> usize
    ensures count { result ≡ count_by (λ b. b == 10) text.now }
    ensures within { result ≤ length text.now }
{
    text.iter().filter(|b| **b == b'\n').count()
}

/// Puts what the lines of a text say into a script that has room for their steps.
fn read_lines(dialect: &Dialect<'_>, text: &[u8], script: &mut Script) -> Result<(), FaultyLine>
    requires plain { script.old.setup ≡ plain_setup }
    requires none { script.old.steps.items ≡ [] }
    requires no_lines { script.old.lines.items ≡ [] }
    requires no_setup { script.old.setup_line ≡ None }
    requires no_finds { script.old.finds ≡ Untold }
    requires room { length (lines_of text.now) * most_steps dialect.now.spelling ≤ vec_capacity script.old.steps }
    requires lines_room { length (lines_of text.now) * most_steps dialect.now.spelling ≤ vec_capacity script.old.lines }
    ensures ok { OnOk result (AreSaid (said_by dialect.now (lines_of text.now)) script.new.setup script.new.steps.items) }
    ensures lines { OnOk result (script.new.lines.items ≡ step_lines dialect.now text.now) }
    ensures setup_line { OnOk result (script.new.setup_line ≡ setup_line dialect.now text.now) }
    ensures finds { OnOk result (script.new.finds ≡ finds_of dialect.now text.now) }
    ensures err { IfErr result (λ fault. IsFirstFaulty (said_by dialect.now (lines_of text.now)) fault.0) }
{
    let mut rest = text;
    let mut index = 0;
    let mut begun = false;
    while let Some(end) = line_end(rest) {
        begun = read_line(dialect, without_return(&rest[..end]), index, begun, script)?;
        rest = &rest[end + 1..];
        index += 1;
    }
    read_line(dialect, rest, index, begun, script)?;
    Ok(())
}

/// Puts what the line at an index says into a script, and tells whether a line has now said anything.
#[tactic(auto, using(crate::proofs::Rooms::one_fits))]
fn read_line(
    dialect: &Dialect<'_>,
    line: &[u8],
    index: usize,
    begun: bool,
    script: &mut Script,
) -> Result<bool, FaultyLine>
    requires within { index < 2 ^ 63 }
    requires room { vec_len script.old.steps + most_steps dialect.now.spelling ≤ vec_capacity script.old.steps }
    requires lines_room { vec_len script.old.lines + most_steps dialect.now.spelling ≤ vec_capacity script.old.lines }
    ensures sound { OnOk result (line_at dialect.now begun (words_of dialect.now.spelling line.now) ≢ Faulty) }
    ensures begun { IfOk result (λ now. now ≡ begun_after begun (line_at dialect.now begun (words_of dialect.now.spelling line.now))) }
    ensures setup { OnOk result (script.new.setup ≡ setup_after script.old.setup
        (line_at dialect.now begun (words_of dialect.now.spelling line.now))) }
    ensures steps { OnOk result (script.new.steps.items ≡ script.old.steps.items ++ steps_of_line
        (line_at dialect.now begun (words_of dialect.now.spelling line.now))) }
    ensures len { vec_len script.new.steps ≤ vec_len script.old.steps + most_steps dialect.now.spelling }
    ensures capacity { vec_capacity script.new.steps ≡ vec_capacity script.old.steps }
    ensures lines { OnOk result (script.new.lines.items ≡ script.old.lines.items ++ step_line (index + 1)
        (line_at dialect.now begun (words_of dialect.now.spelling line.now))) }
    ensures lines_len { vec_len script.new.lines ≤ vec_len script.old.lines + most_steps dialect.now.spelling }
    ensures lines_capacity { vec_capacity script.new.lines ≡ vec_capacity script.old.lines }
    ensures setup_line { OnOk result (script.new.setup_line ≡ option_or script.old.setup_line (set_line (index + 1)
        (line_at dialect.now begun (words_of dialect.now.spelling line.now)))) }
    ensures finds { OnOk result (script.new.finds ≡ finds_after script.old.finds
        (line_at dialect.now begun (words_of dialect.now.spelling line.now))) }
    ensures err { IfErr result (λ fault. (fault.0 ≡ index + 1)
        × (line_at dialect.now begun (words_of dialect.now.spelling line.now) ≡ Faulty)) }
{
    match line_of(dialect, line, begun) {
        Line::Skipped => Ok(begun),
        Line::Sets(setup) => {
            script.setup = setup;
            script.setup_line = script.setup_line.or(Some(index + 1));
            Ok(true)
        }
        Line::Says(step) => {
            put_step(script, step, index + 1);
            Ok(true)
        }
        Line::Finds(device) => {
            put_search(script, device, index + 1);
            script.finds = Finds::Told;
            Ok(true)
        }
        Line::Faulty => Err(FaultyLine(index + 1)),
    }
}

/// Puts the steps of a search, which the line with this number says.
fn put_search(script: &mut Script, device: Uid, number: usize)
    requires room { vec_len script.old.steps + 4 ≤ vec_capacity script.old.steps }
    requires lines_room { vec_len script.old.lines + 4 ≤ vec_capacity script.old.lines }
    ensures setup { script.new.setup ≡ script.old.setup }
    ensures steps { script.new.steps.items ≡ script.old.steps.items ++ search_of device }
    ensures len { vec_len script.new.steps ≡ vec_len script.old.steps + 4 }
    ensures capacity { vec_capacity script.new.steps ≡ vec_capacity script.old.steps }
    ensures lines { script.new.lines.items ≡ script.old.lines.items ++ number ∷ number ∷ number ∷ number ∷ [] }
    ensures lines_len { vec_len script.new.lines ≡ vec_len script.old.lines + 4 }
    ensures lines_capacity { vec_capacity script.new.lines ≡ vec_capacity script.old.lines }
    ensures setup_line { script.new.setup_line ≡ script.old.setup_line }
    ensures finds { script.new.finds ≡ script.old.finds }
{
    let [un_mute, branch, mute, again] = search_of(device);
    put_step(script, un_mute, number);
    put_step(script, branch, number);
    put_step(script, mute, number);
    put_step(script, again, number);
}

/// Puts a step, which the line with this number says.
fn put_step(script: &mut Script, step: CrewStep, number: usize)
    requires room { vec_len script.old.steps < vec_capacity script.old.steps }
    requires lines_room { vec_len script.old.lines < vec_capacity script.old.lines }
    ensures setup { script.new.setup ≡ script.old.setup }
    ensures steps { script.new.steps.items ≡ script.old.steps.items ++ step ∷ [] }
    ensures len { vec_len script.new.steps ≡ vec_len script.old.steps + 1 }
    ensures capacity { vec_capacity script.new.steps ≡ vec_capacity script.old.steps }
    ensures lines { script.new.lines.items ≡ script.old.lines.items ++ number ∷ [] }
    ensures lines_len { vec_len script.new.lines ≡ vec_len script.old.lines + 1 }
    ensures lines_capacity { vec_capacity script.new.lines ≡ vec_capacity script.old.lines }
    ensures setup_line { script.new.setup_line ≡ script.old.setup_line }
    ensures finds { script.new.finds ≡ script.old.finds }
{
    script.steps.push_reserved(step);
    script.lines.push_reserved(number);
}

/// What a line says, behind lines that say something or nothing.
fn line_of(dialect: &Dialect<'_>, line: &[u8], begun: bool) -> Line
    ensures { result ≡ line_at dialect.now begun (words_of dialect.now.spelling line.now) }
{
    let words = words_of(dialect.spelling, line);
    if begun {
        line_in(dialect, words.as_slice())
    } else {
        first_line_in(dialect, words.as_slice())
    }
}
