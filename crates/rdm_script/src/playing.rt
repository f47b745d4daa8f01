//! A script is played: its text becomes the lines of its trace, or the reason why it isn't played to its end.

ghost use Rattle.std.specs.Prelude.{◌≡◌, IfOk, IfErr, slice_get};
ghost use Rattle.rdm_crew.specs.RunTrace.{FitsFor};
ghost use Rattle.rdm_trace.specs.LineText.{lines_text};
ghost use Rattle.rdm_script.specs.DemoParts.{demo_scene_in};
ghost use Rattle.rdm_script.specs.Playing.{IsPlayOf, IsUnplayed, NamesStopLine, unplayed_script, unplayed_run};
ghost use Rattle.rdm_script.specs.Program.{IsTraceOf};
ghost use Rattle.rdm_crew.specs.Workers.{in_turn};
ghost use Rattle.rdm_script.specs.Scene.{scene_of};
ghost use Rattle.rdm_script.specs.declared.playing.Unplayed.TheVariants.{OutOfMemory};

use crate::demo::demo_stage;
use crate::dialect::{Dialect, Spelling};
use crate::grammar::{ScriptError, parse_as};
use crate::rules::ruled_parts_fit;
use crate::run_lines::trace_lines;
use crate::running::play_steps;
use crate::script::Script;
use crate::stage::Stage;
use rdm_crew::{Panel, Part, RunError, Stopped};
use rdm_outcomes::demo_rules_end_jobs;
use rdm_trace::Line;
use std::alloc::{AllocError, Global};
use std::error::Error;
use std::fmt;
use std::sync::Wait;
use std::thread::Threads;

/// Why a script isn't played to its end.
#[derive(Clone, Copy, Debug, PartialEq, Eq)]
pub enum Unplayed {
    /// Memory was wanted and refused, or a thread couldn't be started.
    OutOfMemory,
    /// The text is no script. It is never want of memory.
    Faulty(ScriptError),
    /// The run stops for this reason, which is never want of memory, at this line, counted from 1. It is the line of the step, or
    /// that of a bad setup, if the script says one.
    Stopped(RunError, Option<usize>),
}

impl fmt::Display for Unplayed {
    ghost use Rattle.std.specs.Prelude.{Some};
    ghost use Rattle.rdm_script.specs.ErrorLine.{unplayed_words};

    ghost output = { λ e. Some (unplayed_words e) };

    fn fmt<W: fmt::Write>(&self, f: &mut fmt::Formatter<W>) -> fmt::Result {
        match self {
            Unplayed::OutOfMemory => f.write_str("out of memory"),
            Unplayed::Faulty(fault) => write!(f, "{fault}"),
            Unplayed::Stopped(error, Some(line)) => write!(f, "line {line}: run {error}"),
            Unplayed::Stopped(error, None) => write!(f, "run {error}"),
        }
    }
}

impl Error for Unplayed {}

impl From<AllocError> for Unplayed {
    ghost from_gives = { λ _ e. e ≡ OutOfMemory };

    fn from(_e: AllocError) -> Unplayed {
        Unplayed::OutOfMemory
    }
}

impl From<ScriptError> for Unplayed {
    ghost from_gives = { λ fault e. e ≡ unplayed_script fault };

    fn from(fault: ScriptError) -> Unplayed {
        match fault {
            ScriptError::OutOfMemory => Unplayed::OutOfMemory,
            ScriptError::TooLong | ScriptError::Line(_) => Unplayed::Faulty(fault),
        }
    }
}

/// Plays the script that a text is on any fixture, and gives the lines of its trace.
///
/// If it stops, it says at which line: that of the step at which `rdm_crew::run_steps` stops.
pub fn play_script<T, P, Q, N>(
    rt: T,
    alloc: Global,
    text: &[u8],
    stage: Stage<P, Q, N>,
) -> Result<Vec<Line>, Unplayed>
where
    T: Threads + Wait + Copy + Send + 'static,
    P: Part + Send + 'static,
    Q: Part + Send + 'static,
    N: Panel + Send + 'static,
    requires fits { FitsFor stage.profile.workers 0 (P.gives stage.first) × FitsFor stage.profile.workers 1 (Q.gives stage.second) }
    // The lines are those of a run of this script, and of what was recorded then.
    ensures ok { IfOk result (λ lines. IsPlayOf
        (scene_of (in_turn P.gives P.gives_after) (in_turn Q.gives Q.gives_after) N.offers stage) text.now lines.items) }
    // So their text is its trace.
    ensures trace { IfOk result (λ lines. IsTraceOf
        (scene_of (in_turn P.gives P.gives_after) (in_turn Q.gives Q.gives_after) N.offers stage) text.now (lines_text lines.items)) }
    // Each failure has its cause in the text.
    ensures err { IfErr result (IsUnplayed
        (scene_of (in_turn P.gives P.gives_after) (in_turn Q.gives Q.gives_after) N.offers stage) text.now) }
    // The line of a stop is that of the step at which the run stops, or of the setup.
    ensures line { IfErr result (NamesStopLine
        (scene_of (in_turn P.gives P.gives_after) (in_turn Q.gives Q.gives_after) N.offers stage) text.now) }
{
    let dialect = Dialect {
        device: stage.device,
        spelling: stage.spelling,
        own: stage.profile.particulars.own(),
    };
    let script = parse_as(alloc, &dialect, text)?;
    let finds = script.finds;
    let workers = stage.profile.workers;
    match play_steps(rt, alloc, script.setup, &script.steps, stage) {
        Ok(trace) => Ok(trace_lines(alloc, &workers, finds, trace.events(), trace.recorded())?),
        Err(stopped) => Err(stop_in(&script, stopped)),
    }
}

/// Plays the script that a text is on the fixture of the demonstration, as `play_script` does. Its words are spelled so.
pub fn play_demonstration<T>(
    rt: T,
    alloc: Global,
    spelling: Spelling,
    text: &[u8],
) -> Result<Vec<Line>, Unplayed>
where
    T: Threads + Wait + Copy + Send + 'static,
    ensures ok { IfOk result (λ lines. IsPlayOf (demo_scene_in spelling) text.now lines.items) }
    ensures trace { IfOk result (λ lines. IsTraceOf (demo_scene_in spelling) text.now (lines_text lines.items)) }
    ensures err { IfErr result (IsUnplayed (demo_scene_in spelling) text.now) }
    ensures line { IfErr result (NamesStopLine (demo_scene_in spelling) text.now) }
{
    // What the parts give fits their jobs, and is what the jobs of the demonstration come to.
    ruled_parts_fit();
    demo_rules_end_jobs();
    play_script(rt, alloc, text, demo_stage(spelling))
}

/// Why the run of a script stops, and at which of its lines.
fn stop_in(script: &Script, stopped: Stopped) -> Unplayed
    ensures { result ≡ unplayed_run script.now.lines.items script.now.setup_line stopped }
{
    let line = match stopped {
        Stopped::OutOfMemory => return Unplayed::OutOfMemory,
        Stopped::BadSetup => script.setup_line,
        Stopped::Reserved(step) | Stopped::TooLong(step) | Stopped::Unsettled(step) => {
            line_of(&script.lines, step)
        }
    };
    Unplayed::Stopped(stopped.error(), line)
}

/// The line of a step.
fn line_of(lines: &[usize], step: usize) -> Option<usize>
    ensures { result ≡ slice_get lines.now step }
{
    match lines.get(step) {
        Some(line) => Some(*line),
        None => None,
    }
}
