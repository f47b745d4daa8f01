//! `felosumay play`: a script is played, and its trace printed, or its words, and drawn.

ghost use Rattle.std.specs.Prelude.{◌≡◌, ℕ, List, [], None, Some, IfOk, IfErr, OnOk};
ghost use Rattle.std.specs.Io.KnownBytes.{Appends};
ghost use Rattle.rdm_script.specs.Playing.{IsPlayOf, NamesStopLine};
ghost use Rattle.rdm_script.specs.Rules.{HasDone};
ghost use Rattle.rdm_script.specs.declared.dialect.Spelling.TheVariants.{Friendly};
ghost use Rattle.rdm_subcommands.specs.Scenes.{scene_on, ArePlayed, AreTextPlayed, IsTextPlayed};
ghost use Rattle.rdm_trace.specs.Traces.{pieces_of};
ghost use Rattle.rdm_expect.specs.Sheets.{expectations_of};
ghost use Rattle.rdm_host.specs.Sources.{IsAskedFor};

use crate::told::Told;
use clap::ArgMatches;
use rdm_chart::chart_of;
use rdm_expect::Expectation;
use rdm_fixture::Fixture;
use rdm_host::fault::Fault;
use rdm_host::fixture::FixtureFile;
use rdm_host::host::Host;
use rdm_host::source::{OUTPUT, Source, print, refuse_clashes, save, without_mark};
use rdm_results::{Results, sheet_in};
use rdm_script::{
    CONTROLLER, DemoPanel, MOST_BYTES, Refusal, RuledPart, Spelling, Stage, Unplayed, Wanted,
    play_demonstration, play_script, ruled_parts_fit,
};
use rdm_trace::{Line, text_of};
use rdm_words::words_of_lines;
use std::io;
use std::io::Write;

/// Plays the script that is named, and prints what is asked for.
pub fn run<'a, H: Host>(rt: H, asked: &ArgMatches<'a>) -> Result<(), Fault<'a>> {
    refuse_clashes(asked)?;
    let source = Source::named(asked.get_str(rdm_usage::INPUT));
    let bytes = source.read(rt, MOST_BYTES as u64)?;
    let setting = Setting::asked_for(rt, asked)?;
    let script = Script {
        name: source.name(),
        text: without_mark(bytes.as_slice()),
    };
    setting.play(rt, asked, script)
}

/// Tells what came of what is expected of a script, and writes it to the file that is asked for. The report is printed behind the trace, or
/// on standard error where something else is printed in its place.
fn judge_played<'a, H: Host>(
    rt: H,
    asked: &ArgMatches<'a>,
    name: &str,
    played: &Played,
) -> Result<(), Fault<'a>> {
    let path = asked.get_str(rdm_usage::JUNIT);
    let uid = played.told.uid();
    let results = Results::of(rt, path, uid, name, &played.expectations, &played.lines)?;
    let report = results.report.as_str();
    if path == Some("-") || asked.get_str(rdm_usage::CHART) == Some("-") {
        // Nobody is left to be told if this can't be written.
        let _ = eprint!(rt; "{report}");
    } else {
        print(rt, report.as_bytes())?;
    }
    results.end()
}

/// Draws a trace, and prints it or its words. A chart on standard output stands in the place of the trace, and so do the results.
fn show<'a, H: Host>(rt: H, asked: &ArgMatches<'a>, played: &Played) -> Result<(), Fault<'a>> {
    let lines = played.lines.as_slice();
    let known = played.told.known();
    if let Some(path) = asked.get_str(rdm_usage::CHART) {
        let picture = chart_of(rt.alloc(), lines, &known, Some(played.told.named()))?;
        save(rt, path, picture.as_slice())?;
        if path == "-" {
            return Ok(());
        }
    }
    if asked.get_str(rdm_usage::JUNIT) == Some("-") {
        return Ok(());
    }
    let text = if asked.get_flag(rdm_usage::WORDS) {
        words_of_lines(rt.alloc(), lines, &known)?
    } else {
        text_of(rt.alloc(), lines)?
    };
    print(rt, text.as_slice())
}

/// A script in words as people spell them.
#[derive(Clone, Copy)]
struct Script<'s, 'a> {
    /// By what name messages tell of it.
    name: &'a str,
    text: &'s [u8],
}

/// The run of a script.
#[derive(Drop)]
struct Traced {
    /// The lines of its trace.
    lines: Vec<Line>,
    /// The fixture on which it was played.
    told: Told,
}

/// A text whose script was played.
#[derive(Drop)]
struct Played {
    /// The lines of its trace.
    lines: Vec<Line>,
    /// The fixture on which it was played.
    told: Told,
    /// What is expected of it.
    expectations: Vec<Expectation>,
}

/// What a script is played on.
#[derive(Drop)]
struct Setting<'a> {
    /// The file of the fixture, if one is asked for. Otherwise it is the fixture of the demonstration.
    file: Option<FixtureFile<'a>>,
}

impl<'a> Setting<'a> {
    /// What the words of the command line ask for.
    fn asked_for<H: Host>(rt: H, asked: &ArgMatches<'a>) -> Result<Setting<'a>, Fault<'a>>
        ensures file { IfOk result (λ setting. IsAskedFor (H.reads rt) asked.now setting.file) }
    {
        let file = FixtureFile::asked_for(rt, asked)?;
        Ok(Setting { file })
    }

    /// Plays the script of a text, prints what is asked for, and tells what came of what is expected.
    fn play<H: Host>(
        &self,
        rt: H,
        asked: &ArgMatches<'a>,
        script: Script<'_, 'a>,
    ) -> Result<(), Fault<'a>> {
        if asked.contains_id(rdm_usage::CHART)
            || asked.get_flag(rdm_usage::WORDS)
            || asked.get_str(rdm_usage::JUNIT) == Some("-")
        {
            let played = self.lines(rt, script)?;
            show(rt, asked, &played)?;
            return judge_played(rt, asked, script.name, &played);
        }
        let mut writer = io::writer(&rt);
        let played = self.write_trace(rt, script, &mut writer)?;
        judge_played(rt, asked, script.name, &played)
    }

    /// Plays the script of a text, and writes its trace.
    fn write_trace<H: Host, W: Write>(
        &self,
        rt: H,
        script: Script<'_, 'a>,
        writer: &mut W,
    ) -> Result<Played, Fault<'a>>
        ensures ok { OnOk result ((text : List ℕ) × IsTextPlayed self.now.file script.entry.text.now text ×
            Appends (W.contents writer.old) (W.contents writer.new) text) }
    {
        let played = self.lines(rt, script)?;
        let text = text_of(rt.alloc(), played.lines.as_slice())?;
        match writer.write_all(text.as_slice()) {
            Ok(()) => Ok(played),
            Err(error) => Err(Fault::Io(OUTPUT, error)),
        }
    }

    /// Plays the script of a text, and gives the lines of its trace. An expectation that isn't valid is refused before that.
    fn lines<H: Host>(&self, rt: H, script: Script<'_, 'a>) -> Result<Played, Fault<'a>>
        ensures ok { IfOk result (λ played. AreTextPlayed self.now.file script.entry.text.now played.lines.items) }
        ensures expected { IfOk result (λ played. played.expectations.items ≡ expectations_of (pieces_of script.entry.text.now)) }
    {
        let sheet = sheet_in(rt.alloc(), script.name, script.text)?;
        let plain = Script {
            name: script.name,
            text: sheet.script.as_slice(),
        };
        let run = self.run(rt, plain)?;
        Ok(Played {
            lines: run.lines,
            told: run.told,
            expectations: sheet.expectations,
        })
    }

    /// Plays a script.
    fn run<H: Host>(&self, rt: H, script: Script<'_, 'a>) -> Result<Traced, Fault<'a>>
        ensures ok { IfOk result (λ run. ArePlayed self.now.file script.entry.text.now run.lines.items) }
    {
        match &self.file {
            Some(file) => lines_on(rt, file, script),
            None => demonstrated(rt, script),
        }
    }
}

/// Plays a script on the fixture that a file describes, which is parsed once, for the run and for what is told of it.
fn lines_on<'a, H: Host>(
    rt: H,
    file: &FixtureFile<'a>,
    script: Script<'_, 'a>,
) -> Result<Traced, Fault<'a>>
    ensures ok { IfOk result (λ run. ArePlayed (Some file.now) script.entry.text.now run.lines.items) }
{
    let fixture = file.fixture(rt)?;
    if fixture.uid == CONTROLLER {
        return Err(Fault::ControllersUid(file.name(), CONTROLLER));
    }
    let told = Told::of(rt.alloc(), &fixture)?;
    match play_on(rt, fixture, script.text) {
        Ok(lines) => Ok(Traced { lines, told }),
        Err(why) => Err(told.fault(script.name, script.text, why)),
    }
}

/// Plays a script on the fixture of the demonstration.
fn demonstrated<'a, H: Host>(rt: H, script: Script<'_, 'a>) -> Result<Traced, Fault<'a>>
    ensures ok { IfOk result (λ run. ArePlayed None script.entry.text.now run.lines.items) }
{
    let told = Told::demonstration();
    match play_demonstration(rt, rt.alloc(), Spelling::Friendly, script.text) {
        Ok(lines) => Ok(Traced { lines, told }),
        Err(why) => Err(without_file(told.fault(script.name, script.text, why))),
    }
}

/// What is told of a text that is no script, where no file of a fixture is asked for.
fn without_file(fault: Fault<'_>) -> Fault<'_> {
    match fault {
        Fault::Script(name, refusal) => refused_word(name, refusal),
        _ => fault,
    }
}

/// What is told of a word of such a text. A file would give the names of a maker's own parameters.
fn refused_word(name: &str, refusal: Refusal) -> Fault<'_> {
    if refusal.wanted == Wanted::StandardParameter {
        Fault::NoOwnNames(name, refusal)
    } else {
        Fault::Script(name, refusal)
    }
}

/// Plays a script on a fixture from a file, and gives the lines of its trace, or the line at which it stops.
fn play_on<H: Host>(rt: H, fixture: Fixture, script: &[u8]) -> Result<Vec<Line>, Unplayed>
    ensures ok { IfOk result (λ lines. IsPlayOf (scene_on fixture) script.now lines.items) }
    ensures line { IfErr result (NamesStopLine (scene_on fixture) script.now) }
{
    ruled_parts_fit();
    play_script(rt, rt.alloc(), script, stage_of(fixture))
}

/// What a script is played on: the fixture, with its jobs as its file says, and the changes at the menu of the demonstration.
fn stage_of(fixture: Fixture) -> Stage<RuledPart, RuledPart, DemoPanel>
    ensures device { result.device ≡ fixture.uid }
    ensures profile { result.profile ≡ fixture.profile }
    ensures spelling { result.spelling ≡ Friendly }
    ensures first { HasDone result.first fixture.outcomes.items [] }
    ensures second { HasDone result.second fixture.outcomes.items [] }
{
    let first = RuledPart::new(&fixture.outcomes);
    let second = RuledPart::new(&fixture.outcomes);
    Stage {
        device: fixture.uid,
        profile: fixture.profile,
        spelling: Spelling::Friendly,
        first,
        second,
        panel: DemoPanel,
    }
}
