//! A capture becomes a trace.

ghost use Rattle.std.specs.Prelude.{◌≡◌, ◌++◌, IfOk, OnOk, map, codes, if◌then◌else◌};
ghost use Rattle.rdm_capture.specs.Packets.{seen};
ghost use Rattle.rdm_capture.specs.Traces.{is_response, start_of_times, time_text, frame_text, packet_text, trace_text};

use crate::packet::Packet;
use rdm_frame::digits::put_digits;
use rdm_trace::{Line, put_line};
use std::alloc::{AllocError, Global};

/// How many nanoseconds a millisecond has.
const MILLISECOND: u64 = 1_000_000;

/// Where the command class stands behind the START code.
const CLASS: usize = 19;

/// The trace of packets: for each its time, counted from the first packet that has one, and its frame as a request or a reply.
pub fn trace_of(alloc: Global, packets: &[Packet<'_>]) -> Result<Vec<u8>, AllocError>
    ensures { IfOk result (λ trace. trace.items ≡ trace_text (map seen packets.now)) }
{
    let start = start_of_times(packets);
    let mut trace = Vec::new(alloc);
    for packet in packets {
        put_packet_text(&mut trace, start, packet)?;
    }
    Ok(trace)
}

/// The time of the first packet that has one.
fn start_of_times(packets: &[Packet<'_>]) -> u64
    ensures { result ≡ start_of_times (map seen packets.now) }
{
    for packet in packets {
        if let Some(time) = packet.time {
            return time;
        }
    }
    0
}

/// Puts a packet at the end of a trace: its time since the start, and its frame.
fn put_packet_text(trace: &mut Vec<u8>, start: u64, packet: &Packet<'_>) -> Result<(), AllocError>
    ensures { OnOk result (trace.new.items ≡ trace.old.items ++ packet_text start (seen packet.now)) }
{
    put_time(trace, start, packet.time)?;
    put_frame(trace, packet.message)
}

/// Puts a time since the start at the end of a trace, if there is one.
fn put_time(trace: &mut Vec<u8>, start: u64, time: Option<u64>) -> Result<(), AllocError>
    ensures { OnOk result (trace.new.items ≡ trace.old.items ++ time_text start time) }
{
    match time {
        Some(time) => {
            let millis = time.saturating_sub(start) / MILLISECOND;
            put_line(trace, &Line::Time { millis })
        }
        None => Ok(()),
    }
}

/// Puts a frame at the end of a trace.
fn put_frame(trace: &mut Vec<u8>, message: &[u8]) -> Result<(), AllocError>
    ensures { OnOk result (trace.new.items ≡ trace.old.items ++ frame_text message.now) }
{
    trace.extend_from_slice(words_of(message))?;
    put_digits(trace, message)?;
    trace.extend_from_slice(b"\n")
}

/// How the line of a frame begins.
fn words_of(message: &[u8]) -> &'static [u8]
    ensures { result.now ≡ (if is_response message.now then codes "reply CC" else codes "send CC") }
{
    if is_response(message) {
        b"reply CC"
    } else {
        b"send CC"
    }
}

/// Whether a message is a response: then its command class is odd.
pub(crate) fn is_response(message: &[u8]) -> bool
    ensures { result ≡ is_response message.now }
{
    match message.get(CLASS) {
        Some(class) => *class % 2 == 1,
        None => false,
    }
}
