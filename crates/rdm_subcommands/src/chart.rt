//! `felosumay chart`: a trace, or a capture, as a picture.

use crate::capture::sound_to_its_end;
use crate::words::MOST_BYTES;
use clap::ArgMatches;
use rdm_capture::{is_capture, read_capture, trace_of};
use rdm_chart::{ChartError, MOST_TRANSACTIONS, Named, chart};
use rdm_host::fault::Fault;
use rdm_host::fixture::FixtureFile;
use rdm_host::host::Host;
use rdm_host::source::{Source, refuse_clashes, save, without_mark};
use rdm_words::Known;

/// Reads the trace or the capture that is named, and writes its chart. Without a fixture's file, nothing is known of any fixture.
pub fn run<'a, H: Host>(rt: H, asked: &ArgMatches<'a>) -> Result<(), Fault<'a>> {
    refuse_clashes(asked)?;
    let source = Source::named(asked.get_str(rdm_usage::INPUT));
    let path = asked.get_str(rdm_usage::OUTPUT).unwrap_or("-");
    match FixtureFile::asked_for(rt, asked)? {
        Some(file) => {
            let fixture = file.fixture(rt)?;
            let named = Named {
                uid: fixture.uid,
                name: fixture.profile.root.model_text.as_slice(),
            };
            let known = Known::of(fixture.uid, &fixture.profile);
            draw(rt, source, path, &known, Some(named))
        }
        None => draw(rt, source, path, &Known::nothing(), None),
    }
}

/// Writes the chart of a trace or a capture that is read to the file of this path. Where a capture makes no sense any more, what is before
/// that is drawn.
fn draw<'a, H: Host>(
    rt: H,
    source: Source<'a>,
    path: &'a str,
    known: &Known<'_>,
    named: Option<Named<'_>>,
) -> Result<(), Fault<'a>> {
    let read = source.read(rt, MOST_BYTES)?;
    if !is_capture(read.as_slice()) {
        let picture = picture(rt, source, read.as_slice(), known, named)?;
        return save(rt, path, picture.as_slice());
    }
    let reading = read_capture(rt.alloc(), read.as_slice())?;
    let trace = trace_of(rt.alloc(), reading.packets.as_slice())?;
    let picture = picture(rt, source, trace.as_slice(), known, named)?;
    save(rt, path, picture.as_slice())?;
    sound_to_its_end(source.name(), reading.fault)
}

/// The chart of a trace.
fn picture<'a, H: Host>(
    rt: H,
    source: Source<'a>,
    trace: &[u8],
    known: &Known<'_>,
    named: Option<Named<'_>>,
) -> Result<Vec<u8>, Fault<'a>> {
    match chart(rt.alloc(), without_mark(trace), known, named) {
        Ok(picture) => Ok(picture),
        Err(ChartError::OutOfMemory) => Err(Fault::Memory),
        Err(ChartError::Line(line)) => Err(Fault::NoTrace(source.name(), line)),
        Err(ChartError::TooMany) => Err(Fault::TooManyTransactions(
            source.name(),
            MOST_TRANSACTIONS,
        )),
    }
}
