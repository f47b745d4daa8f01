//! A file that is read and written at once, or twice, is refused.

use clap::ArgMatches;
use rdm_host::fault::Fault;
use rdm_host::source::Source;

/// Refuses a script on standard input, if that is the line, and one that the trace would be written over.
pub(crate) fn refuse_clashes<'a>(
    asked: &ArgMatches<'a>,
    words: &ArgMatches<'a>,
) -> Result<(), Fault<'a>> {
    let script = Source::named(words.get_str(rdm_usage::INPUT));
    if script == Source::Input && asked.get_str(rdm_usage::PORT) == Some("-") {
        return Err(Fault::ReadTwice);
    }
    match asked.get_str(rdm_usage::TRACE) {
        Some(path) if script == Source::File(path) => Err(Fault::Overwritten(path)),
        _ => refuse_results(asked, words),
    }
}

/// Refuses a file for what came of expectations that is read or written already, and standard output, if that is the line or takes the words
/// of the trace.
pub(crate) fn refuse_results<'a>(
    asked: &ArgMatches<'a>,
    words: &ArgMatches<'a>,
) -> Result<(), Fault<'a>> {
    let Some(path) = words.get_str(rdm_usage::JUNIT) else {
        return Ok(());
    };
    if path == "-" && asked.get_str(rdm_usage::PORT) == Some("-") {
        return Err(Fault::WrittenTwice("the line", "the results"));
    }
    if path == "-" && words.get_flag(rdm_usage::WORDS) {
        return Err(Fault::WrittenTwice("the words", "the results"));
    }
    if asked.get_str(rdm_usage::TRACE) == Some(path) {
        return Err(Fault::SameOutput(path));
    }
    let fixtures = asked.get_strs(rdm_usage::FIXTURE).unwrap_or(&[]);
    let is_read = Source::named(words.get_str(rdm_usage::INPUT)) == Source::File(path)
        || asked.get_str(rdm_usage::PORT) == Some(path)
        || fixtures.iter().any(|name| *name == path);
    if is_read && path != "-" {
        return Err(Fault::Overwritten(path));
    }
    Ok(())
}
