//! Lines that fail.

use super::{Told, fixture, serve_at};
use rdm_streams::{ReadFault, WriteFault};
use rdm_widget::{Packet, ServeError, serve_some};
use std::io;
use std::io::{ErrorKind, Read, Write};

/// A line that is interrupted, gives a message that asks for the serial number, and then fails.
#[derive(Drop)]
struct Line {
    turn: u8,
    last: ErrorKind,
}

impl Read for Line {
    fn read(&mut self, buf: &mut [u8]) -> io::Result<usize> {
        self.turn = self.turn.saturating_add(1);
        match self.turn {
            1 | 3 => Err(io::Error::from(ErrorKind::Interrupted)),
            2 if buf.len() >= 5 => {
                buf[..5].copy_from_slice(&[0x7E, 10, 0, 0, 0xE7]);
                Ok(5)
            }
            _ => Err(io::Error::from(self.last)),
        }
    }
}

/// A writer that takes so many bytes, and then none.
#[derive(Drop)]
struct Full {
    room: usize,
    taken: usize,
}

impl Write for Full {
    fn write(&mut self, buf: &[u8]) -> io::Result<usize> {
        let count = buf.len().min(self.room);
        self.room -= count;
        self.taken = self.taken.saturating_add(count);
        Ok(count)
    }

    fn flush(&mut self) -> io::Result<()> {
        Ok(())
    }
}

/// How many bytes the writer takes, why serving ends, and how many bytes are written.
const FAULTS: &[(usize, ServeError, usize)] = &[
    (100, ServeError::Read, 9),
    (9, ServeError::Read, 9),
    (4, ServeError::Write, 4),
];

/// A line that ends with a failure.
fn failing() -> Line {
    Line {
        turn: 0,
        last: ErrorKind::Other,
    }
}

#[test]
fn an_interrupted_read_is_tried_again(rt: HostRuntime) {
    for (room, fault, taken) in FAULTS {
        let mut writer = Full {
            room: *room,
            taken: 0,
        };
        let served = serve_at(&rt, &mut failing(), &mut writer, &[]);
        assert!(rt; (served, writer.taken) == (Err(*fault), *taken), "{room}");
    }
}

#[test]
fn what_is_read_is_answered_before_more_is_read(rt: HostRuntime) {
    let mut line = failing();
    let mut writer = Full {
        room: 100,
        taken: 0,
    };
    let mut held = Packet::new();
    let read = serve_some(
        &mut line,
        &mut writer,
        &mut Told { times: &[] },
        &mut fixture(&rt),
        &mut held,
    );
    let told = (read, line.turn, writer.taken, held.as_slice().len());
    assert!(rt; told == (Ok(5), 2, 9, 0));
}

/// The words of the faults.
const WORDS: &str = "read
write
read
write";

#[test]
fn a_fault_says_what_failed(rt: HostRuntime) {
    let told = format!(in rt.alloc();
        "{}\n{}\n{}\n{}",
        ServeError::Read,
        ServeError::Write,
        ReadFault,
        WriteFault
    );
    assert!(rt; told.expect(&rt, "memory").as_str() == WORDS);
}
