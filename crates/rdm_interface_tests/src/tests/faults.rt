//! Lines that say nothing, too much or no more, and lines that fail.

use super::{GET_LABEL, LABEL, Pieces, hears, interface, stream, ticks, wire};
use rdm_collector::PortError;
use rdm_frame::Wire;
use rdm_interface::Interface;
use rdm_messages::packet_of;
use std::io;
use std::io::{ErrorKind, Read, Write};
use std::process::Abort;

/// DISC_UNIQUE_BRANCH over all UIDs.
const BRANCH: &str = "CC0124FFFFFFFFFFFF7FF00000000207010000001000010C000000000000FFFFFFFFFFFF0E7B";

/// A line on which the same bytes come for ever.
#[derive(Drop)]
struct Flood<'a> {
    bytes: &'a [u8],
    reads: u32,
}

impl Read for Flood<'_> {
    fn read(&mut self, buf: &mut [u8]) -> io::Result<usize> {
        self.reads = self.reads.saturating_add(1);
        let count = self.bytes.len().min(buf.len());
        buf[..count].copy_from_slice(&self.bytes[..count]);
        Ok(count)
    }
}

/// A reader that is interrupted, and then fails.
#[derive(Drop)]
struct Failing {
    turn: u8,
}

impl Read for Failing {
    fn read(&mut self, _buf: &mut [u8]) -> io::Result<usize> {
        self.turn = self.turn.saturating_add(1);
        if self.turn == 1 {
            Err(io::Error::from(ErrorKind::Interrupted))
        } else {
            Err(io::Error::from(ErrorKind::Other))
        }
    }
}

/// A writer that takes so many bytes, and then none.
#[derive(Drop)]
struct Full {
    room: usize,
}

impl Write for Full {
    fn write(&mut self, buf: &[u8]) -> io::Result<usize> {
        let count = buf.len().min(self.room);
        self.room -= count;
        Ok(count)
    }

    fn flush(&mut self) -> io::Result<()> {
        Ok(())
    }
}

/// The clock tells 0 first, then 100 before the first read, and 1,000 where there would be the tenth.
#[test]
fn silence_ends_with_the_limit(rt: HostRuntime) {
    let mut line = interface(&rt, &[]);
    hears(&rt, &mut line, GET_LABEL, None);
    let (reader, _writer, clock) = line.into_parts();
    assert!(rt; (reader.reads, clock.now) == (9, 1100));
}

/// On a clock that stands still.
#[test]
fn a_line_that_gives_nothing_at_once_is_closed(rt: HostRuntime) {
    let bytes = stream(&rt, &[(3, "0402090128")]);
    let pieces: [&[u8]; 2] = [&[], bytes.as_slice()];
    let mut line = Interface::new(Pieces::new(&pieces), Vec::new(rt.alloc()), ticks(0), 1000);
    let fault = line.send(&wire(&rt, GET_LABEL)).err();
    let (reader, _writer, _clock) = line.into_parts();
    assert!(rt; (fault, reader.reads) == (Some(PortError::Closed), 1002));
}

/// The answer in transaction 4, again and again.
#[test]
fn a_flood_of_late_answers_ends_with_the_limit(rt: HostRuntime) {
    let bytes = stream(&rt, &[(5, LATE)]);
    let flood = Flood {
        bytes: bytes.as_slice(),
        reads: 0,
    };
    let mut line = Interface::new(flood, Vec::new(rt.alloc()), ticks(1), 1000);
    let told = line.send(&wire(&rt, GET_LABEL));
    let is_silent = told.expect(&rt, "nothing fails").is_none();
    let is_quiet = line.clear().expect(&rt, "nothing fails");
    let (reader, _writer, _clock) = line.into_parts();
    assert!(rt; (is_silent, is_quiet, reader.reads) == (true, false, 999 + 1000));
}

const LATE: &str = "00CC011A7FF0000000027FF000000001040000000021008202434404F8";

const CAME: &str = "00CC011A7FF0000000027FF000000001050000000021008202414204F5";

/// The rest of the message comes after the next request.
#[test]
fn a_message_that_is_cut_by_the_limit_is_passed_over_later(rt: HostRuntime) {
    let bytes = stream(&rt, &[(5, LATE), (5, CAME)]);
    let (front, rest) = bytes.as_slice().split_at(bytes.len().min(20));
    let none: &[u8] = &[];
    let mut pieces = [none; 12];
    pieces[0] = front;
    pieces[11] = rest;
    let mut line = interface(&rt, &pieces);
    hears(&rt, &mut line, GET_LABEL, None);
    hears(&rt, &mut line, GET_LABEL, Some(LABEL));
}

#[test]
fn what_waits_is_cleared(rt: HostRuntime) {
    let bytes = stream(&rt, &[(5, "00FEAA"), (12, "")]);
    let pieces: [&[u8]; 3] = [bytes.as_slice(), &[0x7E, 5], &[]];
    let mut line = interface(&rt, &pieces);
    let quiet = line.clear().expect(&rt, "nothing fails");
    assert!(rt; quiet);
    hears(&rt, &mut line, BRANCH, None);
}

/// A collision of 300 bytes, of which the first 257 are heard, and whose end never comes.
#[test]
fn a_collision_without_an_end_is_heard(rt: HostRuntime) {
    let packet = packet_of(5, &[0x55; 301]);
    let pieces: [&[u8]; 1] = [packet.as_slice()];
    let mut line = interface(&rt, &pieces);
    let told = line.send(&wire(&rt, BRANCH)).expect(&rt, "nothing fails");
    assert!(rt; told == Some(Wire::of(&[0x55; 257])));
}

/// A reader that is interrupted and then fails, when a request is sent and when what waits is cleared.
#[test]
fn failures_are_told(rt: HostRuntime) {
    let mut line = Interface::new(Failing { turn: 0 }, Vec::new(rt.alloc()), ticks(1), 1000);
    let faults = (line.send(&wire(&rt, GET_LABEL)).err(), line.clear().err());
    assert!(rt; faults == (Some(PortError::Read), Some(PortError::Read)));
}

/// What comes of a request on a silent line whose writer takes so many bytes.
fn fault_of(rt: &(impl AllocGlobal + Abort), room: usize) -> Option<PortError> {
    let mut line = Interface::new(Pieces::new(&[]), Full { room }, ticks(100), 1000);
    line.send(&wire(rt, GET_LABEL)).err()
}

/// The message of the request has 31 bytes.
#[test]
fn a_writer_that_is_full_is_told(rt: HostRuntime) {
    for room in 0..31 {
        assert!(rt; fault_of(&rt, room) == Some(PortError::Write), "{room}");
    }
    let mut line = Interface::new(Pieces::new(&[]), Full { room: 31 }, ticks(100), 1000);
    let told = line.send(&wire(&rt, GET_LABEL));
    assert!(rt; told.expect(&rt, "nothing fails").is_none());
}

/// The words of the errors.
const WORDS: &str = "the line is closed
read
write";

#[test]
fn an_error_says_what_failed(rt: HostRuntime) {
    let told = format!(in rt.alloc();
        "{}\n{}\n{}",
        PortError::Closed,
        PortError::Read,
        PortError::Write
    );
    assert!(rt; told.expect(&rt, "memory").as_str() == WORDS);
}
