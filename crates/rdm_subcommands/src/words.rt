//! `felosumay words`: what a trace, a capture or frames say, in words; or their frames as a capture.

use crate::capture::sound_to_its_end;
use crate::printed::Printed;
use clap::ArgMatches;
use rdm_capture::{is_capture, read_capture};
use rdm_host::fault::Fault;
use rdm_host::fixture::FixtureFile;
use rdm_host::host::Host;
use rdm_host::source::{Source, print, refuse_clashes, without_mark};
use rdm_words::Known;
use std::fs;
use std::io::{BufRead, BufReader, Read};

/// How many bytes a trace may have that is read whole, and a line of one that isn't: 64 MiB.
pub const MOST_BYTES: u64 = 67108864;

/// How many bytes tell a capture from a text.
const FRONT_BYTES: u64 = 24;

/// Reads the trace that is named, and prints its words, or its frames as a capture. Without a fixture's file, nothing is known of any
/// fixture.
pub fn run<'a, H: Host>(rt: H, asked: &ArgMatches<'a>) -> Result<(), Fault<'a>> {
    refuse_clashes(asked)?;
    let source = Source::named(asked.get_str(rdm_usage::INPUT));
    if asked.get_str(rdm_usage::FORMAT) == Some(rdm_usage::PCAPNG) {
        return print_as(rt, source, &mut Printed::capture());
    }
    match FixtureFile::asked_for(rt, asked)? {
        Some(file) => {
            let fixture = file.fixture(rt)?;
            let known = Known::of(fixture.uid, &fixture.profile);
            print_as(rt, source, &mut Printed::words(&known))
        }
        None => print_as(rt, source, &mut Printed::words(&Known::nothing())),
    }
}

/// Prints a trace as it is read.
fn print_as<'a, H: Host>(
    rt: H,
    source: Source<'a>,
    printed: &mut Printed<'_>,
) -> Result<(), Fault<'a>> {
    let name = source.name();
    let path = match source {
        Source::Input => return print_all(rt, name, &mut rt.reader(), printed),
        Source::File(path) => path,
    };
    let file = match fs::open(&rt, path) {
        Ok(file) => file,
        Err(error) => return Err(Fault::Io(name, error)),
    };
    match BufReader::new(rt.alloc(), file) {
        Ok(mut reader) => print_all(rt, name, &mut reader, printed),
        Err(error) => Err(Fault::Io(name, error)),
    }
}

/// Prints a trace line by line, or a capture, which is read whole.
fn print_all<'a, H: Host, R: BufRead>(
    rt: H,
    name: &'a str,
    reader: &mut R,
    printed: &mut Printed<'_>,
) -> Result<(), Fault<'a>> {
    let mut front = Vec::new(rt.alloc());
    if may_be_capture(name, reader)? {
        read_more(name, reader, FRONT_BYTES, &mut front)?;
    }
    if !is_capture(front.as_slice()) {
        return print_lines(rt, name, front.as_slice(), reader, printed);
    }
    // One byte more is read, which shows that there are too many.
    read_more(name, reader, MOST_BYTES + 1, &mut front)?;
    if front.len() as u64 > MOST_BYTES {
        return Err(Fault::TooLong(name, MOST_BYTES));
    }
    print_capture(rt, name, front.as_slice(), printed)
}

/// Prints the packets of a capture. Where it makes no sense any more, they are printed first.
fn print_capture<'a, H: Host>(
    rt: H,
    name: &'a str,
    capture: &[u8],
    printed: &Printed<'_>,
) -> Result<(), Fault<'a>> {
    let reading = read_capture(rt.alloc(), capture)?;
    let text = printed.packets(rt.alloc(), reading.packets.as_slice())?;
    print(rt, text.as_slice())?;
    sound_to_its_end(name, reading.fault)
}

/// Whether the next byte is one with which a capture can begin. No trace has a line that begins with one, but an empty line does. Nothing
/// is taken.
fn may_be_capture<'a, R: BufRead>(name: &'a str, reader: &mut R) -> Result<bool, Fault<'a>> {
    match reader.fill_buf() {
        Ok([0x0A | 0x4D | 0xA1 | 0xD4, ..]) => Ok(true),
        Ok(_) => Ok(false),
        Err(error) => Err(Fault::Io(name, error)),
    }
}

/// Reads at most so many bytes, and puts them at the end of a list.
fn read_more<'a, R: BufRead>(
    name: &'a str,
    reader: &mut R,
    most: u64,
    bytes: &mut Vec<u8>,
) -> Result<(), Fault<'a>> {
    match reader.by_ref().take(most).read_to_end(bytes) {
        Ok(_) => Ok(()),
        Err(error) => Err(Fault::Io(name, error)),
    }
}

/// Prints each line as it comes, so that no more than one is held. The text begins with these bytes, which were read before.
fn print_lines<'a, H: Host, R: BufRead>(
    rt: H,
    name: &'a str,
    front: &[u8],
    reader: &mut R,
    printed: &mut Printed<'_>,
) -> Result<(), Fault<'a>> {
    let mut line = Vec::new(rt.alloc());
    let mut text = Vec::new(rt.alloc());
    let mut done: usize = 0;
    printed.put_start(&mut text)?;
    for number in 0..usize::MAX {
        print(rt, text.as_slice())?;
        line.clear();
        text.clear();
        let rest = front.get(done..).unwrap_or(&[]);
        let count = read_line(name, rest, reader, &mut line)?;
        if count == 0 {
            return Ok(());
        }
        done = done.saturating_add(count);
        let said = match number {
            0 => without_mark(line.as_slice()),
            _ => line.as_slice(),
        };
        if !printed.put_line(&mut text, without_end(said))? {
            return Err(Fault::NoTrace(name, number + 1));
        }
    }
    Ok(())
}

/// Reads the next line, with its end, into a list that is empty, and gives how many bytes it has: none behind the last. The text goes on
/// with these bytes, which were read before.
fn read_line<'a, R: BufRead>(
    name: &'a str,
    front: &[u8],
    reader: &mut R,
    line: &mut Vec<u8>,
) -> Result<usize, Fault<'a>> {
    let taken = first_line(front);
    line.extend_from_slice(taken)?;
    if let [.., b'\n'] = taken {
        return Ok(taken.len());
    }
    // One byte more is read, which shows that there are too many.
    let mut limited = reader.by_ref().take(MOST_BYTES + 1);
    match limited.read_until(b'\n', line) {
        Ok(_) if line.len() as u64 > MOST_BYTES => Err(Fault::TooLong(name, MOST_BYTES)),
        Ok(_) => Ok(line.len()),
        Err(error) => Err(Fault::Io(name, error)),
    }
}

/// The bytes up to the first LF, with it; all of them without one.
fn first_line(bytes: &[u8]) -> &[u8] {
    match bytes.iter().position(|byte| *byte == b'\n') {
        Some(end) => &bytes[..end + 1],
        None => bytes,
    }
}

/// A line without its LF, and the CR before that.
fn without_end(line: &[u8]) -> &[u8] {
    match line {
        [front @ .., b'\r', b'\n'] => front,
        [front @ .., b'\n'] => front,
        _ => line,
    }
}
