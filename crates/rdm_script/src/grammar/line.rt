//! What a line says, word by word.

ghost use Rattle.std.specs.Prelude.{◌≡◌, map};
ghost use Rattle.rdm_script.specs.Grammar.{is_skipped, want_in, setup_in, command_step_in, step_in, line_in, first_line_in};

use super::command::command_in;
use super::decimals;
use super::fault::fault_in;
use super::search::is_find;
use crate::dialect::Dialect;
use crate::script::ScriptSetup;
use rdm_bus::Want;
use rdm_crew::CrewStep;
use rdm_frame::Uid;

/// What one line of a script says.
#[derive(Debug, Drop)]
pub enum Line {
    /// Nothing: it is empty or a comment.
    Skipped,
    /// How the device and the controller are set up.
    Sets(ScriptSetup),
    /// One step.
    Says(CrewStep),
    /// A search that finds this device.
    Finds(Uid),
    /// It is no line of a script.
    Faulty,
}

/// What the words of a line say, where no line before it says anything: a setup may stand there.
#[tactic(auto, unfolding(crate::specs::Grammar::first_line_in))]
pub(crate) fn first_line_in(dialect: &Dialect<'_>, words: &[&[u8]]) -> Line
    ensures { result ≡ first_line_in dialect.now (map (λ word. word.now) words.now) }
{
    match setup_in(words) {
        Some(setup) => Line::Sets(setup),
        None => line_in(dialect, words),
    }
}

/// What the words of any other line say.
#[tactic(auto, unfolding(crate::specs::Grammar::line_in))]
pub(crate) fn line_in(dialect: &Dialect<'_>, words: &[&[u8]]) -> Line
    ensures { result ≡ line_in dialect.now (map (λ word. word.now) words.now) }
{
    if is_skipped(words) {
        return Line::Skipped;
    }
    if is_find(dialect.spelling, words) {
        return Line::Finds(dialect.device);
    }
    match step_in(dialect, words) {
        Some(step) => Line::Says(step),
        None => Line::Faulty,
    }
}

/// Whether a line says nothing: it is empty, or a comment.
pub(crate) fn is_skipped(words: &[&[u8]]) -> bool
    ensures { result ≡ is_skipped (map (λ word. word.now) words.now) }
{
    words.is_empty() || words[0].first() == Some(&b'#')
}

/// The setup that words say.
#[tactic(auto, unfolding(crate::specs::Grammar::setup_in, crate::specs::Grammar::setup_of))]
fn setup_in(words: &[&[u8]]) -> Option<ScriptSetup>
    ensures { result ≡ setup_in (map (λ word. word.now) words.now) }
{
    let [name, subs, queue_size, want] = words else {
        return None;
    };
    if *name != b"setup".as_slice() {
        return None;
    }
    Some(ScriptSetup {
        subs: decimals::word_in(subs)?,
        queue_size: decimals::word_in(queue_size)?,
        want: want_in(want)?,
    })
}

/// Which messages the controller wants.
pub(crate) fn want_in(word: &[u8]) -> Option<Want>
    ensures { result ≡ want_in word.now }
{
    if word == b"advisory".as_slice() {
        Some(Want::Advisory)
    } else if word == b"warning".as_slice() {
        Some(Want::Warning)
    } else if word == b"error".as_slice() {
        Some(Want::Error)
    } else {
        None
    }
}

/// The step that words say.
#[tactic(auto, unfolding(crate::specs::Grammar::step_in))]
fn step_in(dialect: &Dialect<'_>, words: &[&[u8]]) -> Option<CrewStep>
    ensures { result ≡ step_in dialect.now (map (λ word. word.now) words.now) }
{
    match words {
        [name, fault @ ..] if *name == b"collect".as_slice() => {
            Some(CrewStep::Collect(fault_in(fault)?))
        }
        [name] if *name == b"draw".as_slice() => Some(CrewStep::Draw),
        [name, empties] if *name == b"settle".as_slice() => {
            Some(CrewStep::Settle(decimals::long_in(empties)?))
        }
        [name, empties] if *name == b"panel".as_slice() => {
            Some(CrewStep::Panel(decimals::long_in(empties)?))
        }
        _ => command_step_in(dialect, words),
    }
}

/// The command that words say, and what goes wrong when it is sent.
#[tactic(auto, unfolding(crate::specs::Grammar::command_step_in, crate::specs::Grammar::asked))]
fn command_step_in(dialect: &Dialect<'_>, words: &[&[u8]]) -> Option<CrewStep>
    ensures { result ≡ command_step_in dialect.now (map (λ word. word.now) words.now) }
{
    let [action, dst, sub, pid, load, fault @ ..] = words else {
        return None;
    };
    let command = command_in(dialect, action, dst, sub, pid, load)?;
    Some(CrewStep::Ask(command, fault_in(fault)?))
}
