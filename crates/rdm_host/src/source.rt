//! Where text comes from, and where it goes.

ghost use Rattle.std.specs.Prelude.{◌≡◌, IfOk};
ghost use Rattle.std.specs.Option.{option_map};
ghost use Rattle.rdm_host.specs.Sources.{path_of, path_named};

use crate::fault::Fault;
use crate::host::{Host, Speaker};
use clap::ArgMatches;
use std::io::Write;
use std::{fs, io};

/// By what name messages tell of standard input.
pub const INPUT: &str = "<stdin>";
/// By what name messages tell of standard output.
pub const OUTPUT: &str = "<stdout>";

/// A file, or standard input.
#[derive(Clone, Copy, PartialEq, Eq)]
pub enum Source<'a> {
    /// Standard input.
    Input,
    /// The file of this path.
    File(&'a str),
}

impl<'a> Source<'a> {
    /// What a word of the command line names: `-` and no word at all name standard input.
    pub fn named(word: Option<&'a str>) -> Source<'a>
        ensures path { path_of result ≡ path_named (option_map (λ word. word.now) word.entry) }
    {
        match word {
            None | Some("-") => Source::Input,
            Some(path) => Source::File(path),
        }
    }

    /// By what name messages tell of it.
    pub fn name(self) -> &'a str {
        match self {
            Source::Input => INPUT,
            Source::File(path) => path,
        }
    }

    /// All of its bytes. More of them than `most` are rejected.
    pub fn read<H: Host>(self, rt: H, most: u64) -> Result<Vec<u8>, Fault<'a>>
        ensures read { IfOk result (λ bytes. H.reads rt (path_of self.entry) bytes.items) }
    {
        // One byte more is read, which shows that there are too many.
        let bytes = match rt.read_front(self, most.saturating_add(1)) {
            Ok(bytes) => bytes,
            Err(error) => return Err(Fault::Io(self.name(), error)),
        };
        if bytes.len() as u64 > most {
            return Err(Fault::TooLong(self.name(), most));
        }
        Ok(bytes)
    }
}

/// A text without the mark of UTF-8 that some editors put before it.
pub fn without_mark(text: &[u8]) -> &[u8] {
    match text {
        [0xEF, 0xBB, 0xBF, rest @ ..] => rest,
        _ => text,
    }
}

/// Refuses a command line that has a stream read or written twice, or a file written that is read or written already.
pub fn refuse_clashes<'a>(asked: &ArgMatches<'a>) -> Result<(), Fault<'a>> {
    let input = Source::named(asked.get_str(rdm_usage::INPUT));
    let fixture = asked.get_str(rdm_usage::FIXTURE);
    let fixtures = asked.get_strs(rdm_usage::FIXTURE).unwrap_or(&[]);
    if input == Source::Input && fixtures.iter().any(|name| *name == "-") {
        return Err(Fault::ReadTwice);
    }
    let written = match asked.get_str(rdm_usage::CHART) {
        Some(path) => path,
        None => asked.get_str(rdm_usage::OUTPUT).unwrap_or("-"),
    };
    refuse_overwriting(input, fixture, written)?;
    refuse_overwriting(
        input,
        fixture,
        asked.get_str(rdm_usage::JUNIT).unwrap_or("-"),
    )?;
    refuse_two_outputs(asked)
}

/// Refuses to write a file that is read.
fn refuse_overwriting<'a>(
    input: Source<'a>,
    fixture: Option<&'a str>,
    written: &'a str,
) -> Result<(), Fault<'a>> {
    if written != "-" && (input == Source::File(written) || fixture == Some(written)) {
        return Err(Fault::Overwritten(written));
    }
    Ok(())
}

/// Refuses a file or standard output that is to take two outputs. What an option prints on standard output stands there in the place of
/// the trace.
fn refuse_two_outputs<'a>(asked: &ArgMatches<'a>) -> Result<(), Fault<'a>> {
    let prints_words = asked.get_flag(rdm_usage::WORDS);
    match (
        asked.get_str(rdm_usage::CHART),
        asked.get_str(rdm_usage::JUNIT),
    ) {
        (Some("-"), _) if prints_words => Err(Fault::WrittenTwice("the words", "the chart")),
        (_, Some("-")) if prints_words => Err(Fault::WrittenTwice("the words", "the results")),
        (Some("-"), Some("-")) => Err(Fault::WrittenTwice("the chart", "the results")),
        (Some(chart), Some(results)) if chart == results => Err(Fault::SameOutput(results)),
        _ => Ok(()),
    }
}

/// Writes a text to a file, or to standard output if the path is `-`.
pub fn save<'a, H: Host>(rt: H, path: &'a str, text: &[u8]) -> Result<(), Fault<'a>> {
    if path == "-" {
        return print(rt, text);
    }
    match fs::write(&rt, path, text) {
        Ok(()) => Ok(()),
        Err(error) => Err(Fault::Io(path, error)),
    }
}

/// Writes a text to standard output.
pub fn print<'a, H: Speaker>(rt: H, text: &[u8]) -> Result<(), Fault<'a>> {
    match io::writer(&rt).write_all(text) {
        Ok(()) => Ok(()),
        Err(error) => Err(Fault::Io(OUTPUT, error)),
    }
}
