//! The host's side of the interface, on lines that are lists of bytes, by a clock that ticks.
//!
//! The controller is 7FF0:00000002, and the device that it asks is 7FF0:00000001.

mod answers;
mod faults;
mod itself;
mod searches;
mod sessions;

use rdm_frame::Wire;
use rdm_interface::{Clock, Interface};
use rdm_messages::packet_of;
use std::io;
use std::io::Read;
use std::process::Abort;

/// GET DEVICE_LABEL in transaction 5.
const GET_LABEL: &str = "CC01187FF0000000017FF000000002050100000020008200046E";

/// What answers it: the label is AB.
const LABEL: &str = "CC011A7FF0000000027FF000000001050000000021008202414204F5";

/// A message: its label, and its body in hexadecimal digits.
type Line = (u8, &'static str);

/// A line that gives these pieces, each in a read of its own, and then no byte any more.
#[derive(Drop)]
struct Pieces<'a> {
    pieces: &'a [&'a [u8]],
    /// How many reads there were, which is the place of the next piece.
    reads: usize,
}

impl<'a> Pieces<'a> {
    fn new(pieces: &'a [&'a [u8]]) -> Pieces<'a> {
        Pieces { pieces, reads: 0 }
    }
}

impl Read for Pieces<'_> {
    fn read(&mut self, buf: &mut [u8]) -> io::Result<usize> {
        let next = self.pieces.get(self.reads);
        self.reads = self.reads.saturating_add(1);
        let Some(piece) = next else {
            return Ok(0);
        };
        let count = piece.len().min(buf.len());
        buf[..count].copy_from_slice(&piece[..count]);
        Ok(count)
    }
}

/// A clock on which so many milliseconds pass whenever it is asked.
#[derive(Drop)]
struct Ticking {
    now: u64,
    step: u64,
}

impl Clock for Ticking {
    ghost tells = { λ _ _ _. Unit {0} };

    fn now(&mut self) -> u64 {
        let now = self.now;
        self.now = now.saturating_add(self.step);
        now
    }
}

/// A clock that starts at 0.
fn ticks(step: u64) -> Ticking {
    Ticking { now: 0, step }
}

/// The bytes of messages.
fn stream(rt: &(impl AllocGlobal + Abort), lines: &[Line]) -> Vec<u8> {
    let mut bytes = Vec::new(rt.alloc());
    for (label, digits) in lines {
        let body = hex::decode(rt.alloc(), digits).expect(rt, "two digits a byte");
        put(rt, &mut bytes, *label, body.as_slice());
    }
    bytes
}

/// Puts the bytes of a message behind others.
fn put(rt: &impl Abort, bytes: &mut Vec<u8>, label: u8, body: &[u8]) {
    assert!(rt; body.len() <= 600);
    let packet = packet_of(label, body);
    bytes
        .extend_from_slice(packet.as_slice())
        .expect(rt, "memory");
}

/// The bytes that hexadecimal digits print.
fn wire(rt: &(impl AllocGlobal + Abort), digits: &str) -> Wire {
    let bytes = hex::decode(rt.alloc(), digits).expect(rt, "two digits a byte");
    Wire::from_slice(bytes.as_slice()).expect(rt, "at most 257 bytes")
}

/// Sends a request, of which this is heard, both in hexadecimal digits.
fn hears<'a>(
    rt: &(impl AllocGlobal + Abort),
    line: &mut Interface<Pieces<'a>, Vec<u8>, Ticking>,
    asked: &str,
    expected: Option<&str>,
) {
    let heard = line.send(&wire(rt, asked)).expect(rt, "nothing fails");
    let is_expected = match (&heard, expected) {
        (Some(bytes), Some(digits)) => *bytes == wire(rt, digits),
        (None, None) => true,
        _ => false,
    };
    assert!(rt; is_expected, "{asked}");
}

/// An interface on a line that gives these pieces, with a limit of a second on a clock that ticks a tenth of one.
fn interface<'a>(
    rt: &impl AllocGlobal,
    pieces: &'a [&'a [u8]],
) -> Interface<Pieces<'a>, Vec<u8>, Ticking> {
    Interface::new(Pieces::new(pieces), Vec::new(rt.alloc()), ticks(100), 1000)
}
