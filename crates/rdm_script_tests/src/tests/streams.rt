//! Readers and writers that take their time, that fail, and that never end.

use super::odd::{COMMANDS, TRACE_BYTES};
use super::{FIRST_SCRIPT, repeated};
use rdm_script::{ProgramError, ScriptError, run_script};
use std::alloc::Global;
use std::io;
use std::io::{ErrorKind, Read, Write};
use std::sync::Wait;
use std::thread::Threads;

/// A script with a slow command.
const SCRIPT: &str = "setup 0 8 advisory
set dev 0000 0403 01
settle 100000000
collect
collect
";

/// What it prints.
const TRACE: &str = "send CC01197FF0000000017FF000000002000100000030040301010401
reply CC011A7FF0000000027FF00000000100010000003104030200320435
job 0 0
heard reply
arrive 0 0 done
send CC01197FF0000000017FF00000000201010000002000200102040C
reply CC01187FF0000000027FF00000000101000000003104030003FF
heard message
send CC01197FF0000000017FF00000000202010000002000200102040D
reply CC01187FF0000000027FF0000000010200000000210030000419
heard message
message 31 0403 0000 -
message 21 0030 0000 -
end
";

/// A call that fails once, after so many bytes.
#[derive(Clone, Copy)]
struct Fault {
    after: usize,
    kind: ErrorKind,
}

/// A reader that gives the script byte by byte, then nothing, and then starts over. It may fail once.
#[derive(Drop)]
struct Drip {
    calls: usize,
    given: usize,
    fault: Option<Fault>,
}

impl Read for Drip {
    fn read(&mut self, buf: &mut [u8]) -> io::Result<usize> {
        self.calls = self.calls.saturating_add(1);
        if let Some(Fault { after, kind }) = self.fault {
            if self.given == after {
                self.fault = None;
                return Err(io::Error::from(kind));
            }
        }
        match (SCRIPT.as_bytes().get(self.given), buf.first_mut()) {
            (Some(byte), Some(place)) => {
                *place = *byte;
                self.given = self.given.saturating_add(1);
                Ok(1)
            }
            _ => {
                self.given = 0;
                Ok(0)
            }
        }
    }
}

/// A reader that gives the same byte for ever.
#[derive(Drop)]
struct Endless {
    given: usize,
}

impl Read for Endless {
    fn read(&mut self, buf: &mut [u8]) -> io::Result<usize> {
        buf.fill(b'#');
        self.given = self.given.saturating_add(buf.len());
        Ok(buf.len())
    }
}

/// A writer that takes so many bytes a call. It may fail once: a write that is tried again then shows.
#[derive(Drop)]
struct Sink {
    calls: usize,
    taken: Vec<u8>,
    most: usize,
    fault: Option<Fault>,
}

impl Write for Sink {
    fn write(&mut self, buf: &[u8]) -> io::Result<usize> {
        self.calls = self.calls.saturating_add(1);
        let mut count = self.most.min(buf.len());
        if let Some(Fault { after, kind }) = self.fault {
            let room = after.saturating_sub(self.taken.len());
            if room == 0 {
                self.fault = None;
                return Err(io::Error::from(kind));
            }
            count = count.min(room);
        }
        self.taken.extend_from_slice(&buf[..count])?;
        Ok(count)
    }

    fn flush(&mut self) -> io::Result<()> {
        Ok(())
    }
}

fn failing(after: usize) -> Option<Fault> {
    Some(Fault {
        after,
        kind: ErrorKind::Other,
    })
}

fn interrupted(after: usize) -> Option<Fault> {
    Some(Fault {
        after,
        kind: ErrorKind::Interrupted,
    })
}

fn dripping(fault: Option<Fault>) -> Drip {
    Drip {
        calls: 0,
        given: 0,
        fault,
    }
}

fn taking(alloc: Global, most: usize, fault: Option<Fault>) -> Sink {
    Sink {
        calls: 0,
        taken: Vec::new(alloc),
        most,
        fault,
    }
}

/// A script is played, from this reader to this writer.
fn plays<T, R: Read>(
    rt: T,
    alloc: Global,
    reader: &mut R,
    writer: &mut Sink,
) -> Result<(), ProgramError>
where
    T: Threads + Wait + Copy + Send + 'static,
{
    run_script(rt, alloc, reader, writer)
}

#[test]
fn a_reader_that_fails_is_a_fault(rt: HostRuntime) {
    for count in 0..=SCRIPT.len() {
        let mut reader = dripping(failing(count));
        let mut writer = taking(rt.alloc(), 64, None);
        let outcome = plays(rt, rt.alloc(), &mut reader, &mut writer);
        // What failed isn't tried again.
        let told = (outcome, reader.calls, writer.calls);
        assert!(rt;
            told == (Err(ProgramError::Read), count + 1, 0),
            "after {count}"
        );
    }
}

#[test]
fn a_writer_that_fails_has_the_bytes_before(rt: HostRuntime) {
    for count in 0..TRACE.len() {
        let mut reader = dripping(None);
        let mut writer = taking(rt.alloc(), 7, failing(count));
        let outcome = plays(rt, rt.alloc(), &mut reader, &mut writer);
        // What failed isn't tried again.
        let told = (outcome, writer.taken.as_slice(), writer.calls);
        let front = &TRACE.as_bytes()[..count];
        let expected = (Err(ProgramError::Write), front, count.div_ceil(7) + 1);
        assert!(rt; told == expected, "after {count}");
    }
}

#[test]
fn an_interrupted_call_is_made_again(rt: HostRuntime) {
    for (read, written) in [
        (0, 0),
        (1, 1),
        (7, 7),
        (40, 200),
        (SCRIPT.len(), TRACE.len() - 1),
    ] {
        let mut reader = dripping(interrupted(read));
        let mut writer = taking(rt.alloc(), 7, interrupted(written));
        let outcome = plays(rt, rt.alloc(), &mut reader, &mut writer);
        // One call more than without the interruption: each byte of the script, and the end.
        let told = (outcome, writer.taken.as_slice(), reader.calls);
        let expected = (Ok(()), TRACE.as_bytes(), SCRIPT.len() + 2);
        assert!(rt; told == expected, "after {read}, {written}");
    }
}

#[test]
fn streams_take_their_time(rt: HostRuntime) {
    let mut reader = dripping(None);
    let mut writer = taking(rt.alloc(), 1, None);
    let outcome = plays(rt, rt.alloc(), &mut reader, &mut writer);
    let told = (outcome, writer.taken.as_slice());
    assert!(rt; told == (Ok(()), TRACE.as_bytes()));
    // A read that gives nothing is the end: there is none after it.
    let calls = (reader.calls, writer.calls);
    assert!(rt; calls == (SCRIPT.len() + 1, TRACE.len()));
}

#[test]
fn a_writer_that_takes_nothing_is_a_fault(rt: HostRuntime) {
    let mut reader = dripping(None);
    let mut writer = taking(rt.alloc(), 0, None);
    let outcome = plays(rt, rt.alloc(), &mut reader, &mut writer);
    assert!(rt; (outcome, writer.calls) == (Err(ProgramError::Write), 1));
}

#[test]
fn stops_reading_without_end(rt: HostRuntime) {
    let mut reader = Endless { given: 0 };
    let mut writer = taking(rt.alloc(), 64, None);
    let outcome = plays(rt, rt.alloc(), &mut reader, &mut writer);
    let told = (outcome, reader.given, writer.taken.len());
    let too_long = Err(ProgramError::Script(ScriptError::TooLong));
    assert!(rt; told == (too_long, 65_537, 0));
}

#[test]
fn plays_thousands_of_commands(rt: HostRuntime) {
    let script = repeated(rt.alloc(), "", FIRST_SCRIPT, COMMANDS).expect(&rt, "memory");
    let mut reader = script.as_bytes();
    let mut writer = taking(rt.alloc(), 1_000, None);
    let outcome = plays(rt, rt.alloc(), &mut reader, &mut writer);
    assert!(rt; (outcome, writer.taken.len()) == (Ok(()), TRACE_BYTES));
    assert!(rt;
        writer
            .taken
            .as_slice()
            .ends_with(b"\nheard reply\nend\n".as_slice())
    );
}
