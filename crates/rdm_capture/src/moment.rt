//! A trace becomes a capture.

ghost use Rattle.std.specs.Prelude.{◌≡◌, ◌++◌, ◌<◌, ◌^◌, IfOk, IfSome, OnOk, length, map};
ghost use Rattle.std.specs.List.{flat_map};
ghost use Rattle.std.specs.Option.{option_map};
ghost use Rattle.rdm_capture.specs.Packets.{seen};
ghost use Rattle.rdm_capture.specs.Written.{file, header, packet};
ghost use Rattle.rdm_capture.specs.Traces.{message_of, nanoseconds_of, first_moment, after, sent_at, bare_at, packets_at, packets_of, sent_again};

use crate::packet::{Direction, Packet};
use crate::trace::is_response;
use crate::writing::{put_header, put_packet};
use rdm_frame::{Fault, Wire};
use rdm_trace::Line;
use std::alloc::{AllocError, Global};

/// How many nanoseconds a millisecond has.
const MILLISECOND: u64 = 1_000_000;

/// How many slots a packet has at most.
const MOST_SLOTS: usize = 65535;

const START_CODE: u8 = 0xCC;

/// With this a frame begins whose START code is left out.
const SUB_START_CODE: u8 = 1;

/// What the lines of a trace say of the packets behind them: when they are, and what goes wrong with a reply.
#[derive(Clone, Copy, Debug)]
pub struct Moment {
    millis: u64,
    fault: Fault,
}

impl Moment {
    /// In front of the first line.
    pub fn first() -> Moment
        ensures { result ≡ first_moment }
    {
        Moment {
            millis: 0,
            fault: Fault::None,
        }
    }

    /// The next line is behind this one.
    #[tactic(auto, unfolding(crate::specs::Traces::after))]
    pub fn then(&mut self, line: &Line)
        ensures { self.new ≡ after line.now self.old }
    {
        match line {
            Line::Send { fault, .. } => self.fault = *fault,
            Line::Time { millis } => self.millis = *millis,
            Line::Reply(_)
            | Line::Job(_)
            | Line::Heard(_)
            | Line::Found(_)
            | Line::Arrive { .. }
            | Line::Panel { .. }
            | Line::Message(_)
            | Line::End => {}
        }
    }

    /// Puts the packet of a line at the end of a file, if it has one: a request as the controller sent it, or a reply as it heard it.
    #[tactic(auto, unfolding(crate::specs::Traces::packets_at))]
    pub fn put_line(&self, out: &mut Vec<u8>, line: &Line) -> Result<(), AllocError>
        ensures { OnOk result (out.new.items ≡ out.old.items ++ flat_map packet (packets_at self.now line.now)) }
    {
        match line {
            Line::Send { bytes, .. } => self.put_frame(out, Direction::Outbound, bytes),
            Line::Reply(Some(bytes)) => match self.fault.reply_heard(bytes) {
                Some(heard) => self.put_frame(out, Direction::Inbound, &heard),
                None => Ok(()),
            },
            Line::Reply(None)
            | Line::Time { .. }
            | Line::Job(_)
            | Line::Heard(_)
            | Line::Found(_)
            | Line::Arrive { .. }
            | Line::Panel { .. }
            | Line::Message(_)
            | Line::End => Ok(()),
        }
    }

    /// Puts the packet of bytes of which no line says who sent them at the end of a file, if they are one: a response is a reply.
    pub fn put_bytes(&self, out: &mut Vec<u8>, bytes: &Wire) -> Result<(), AllocError>
        ensures { OnOk result (out.new.items ≡ out.old.items ++ flat_map packet (bare_at self.now bytes.now)) }
    {
        let direction = match message_of(bytes.as_slice()) {
            Some(message) if is_response(message) => Direction::Inbound,
            _ => Direction::Outbound,
        };
        self.put_frame(out, direction, bytes)
    }

    /// Puts a packet with these bytes at the end of a file, if they are one.
    fn put_frame(
        &self,
        out: &mut Vec<u8>,
        direction: Direction,
        bytes: &Wire,
    ) -> Result<(), AllocError>
        ensures { OnOk result (out.new.items ≡ out.old.items ++ flat_map packet (sent_at self.now direction (message_of bytes.now))) }
    {
        match message_of(bytes.as_slice()) {
            Some(message) => put_packet(out, nanoseconds_of(self.millis), direction, message),
            None => Ok(()),
        }
    }
}

/// The capture of a trace: a pcapng file with a packet for each request and each reply that the controller hears.
pub fn capture_of(alloc: Global, lines: &[Line]) -> Result<Vec<u8>, AllocError>
    ensures { IfOk result (λ capture. capture.items ≡ file (packets_of lines.now)) }
{
    let mut capture = Vec::new(alloc);
    put_header(&mut capture)?;
    let mut moment = Moment::first();
    for line in lines {
        moment.put_line(&mut capture, line)?;
        moment.then(line);
    }
    Ok(capture)
}

/// The capture of packets: a pcapng file, with 0 for a time that a packet lacks, and without those of more than 65,535 slots.
pub fn capture_of_packets(alloc: Global, packets: &[Packet<'_>]) -> Result<Vec<u8>, AllocError>
    ensures { IfOk result (λ capture. capture.items ≡ file (flat_map sent_again (map seen packets.now))) }
{
    let mut capture = Vec::new(alloc);
    put_header(&mut capture)?;
    for packet in packets {
        put_again(&mut capture, packet)?;
    }
    Ok(capture)
}

/// Puts a packet at the end of a file, unless it has too many slots.
fn put_again(out: &mut Vec<u8>, once: &Packet<'_>) -> Result<(), AllocError>
    ensures { OnOk result (out.new.items ≡ out.old.items ++ flat_map packet (sent_again (seen once.now))) }
{
    if once.message.len() > MOST_SLOTS {
        return Ok(());
    }
    put_packet(out, once.time.unwrap_or(0), once.direction, once.message)
}

/// The slots behind the START code, if the bytes of a frame are a packet.
fn message_of(bytes: &[u8]) -> Option<&[u8]>
    requires { length bytes.now < 2 ^ 16 }
    ensures value { option_map (λ m. m.now) result ≡ message_of bytes.now }
    ensures fits { IfSome result (λ m. length m.now < 2 ^ 16) }
{
    match bytes {
        [START_CODE, message @ ..] => Some(message),
        [SUB_START_CODE, ..] => Some(bytes),
        _ => None,
    }
}

/// So many milliseconds, in nanoseconds.
fn nanoseconds_of(millis: u64) -> u64
    ensures { result ≡ nanoseconds_of millis }
{
    millis.saturating_mul(MILLISECOND)
}
