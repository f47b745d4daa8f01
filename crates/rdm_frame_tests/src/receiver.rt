//! What comes of signals that were worked out by hand.
//!
//! Rows are text, one a line: signals, and behind ` = ` what comes of them. A signal is `/` for a break, `!` for an error, or a byte in
//! hexadecimal digits, with `*` and a number if it comes several times. Of a packet stand the number of its bytes and the last of them,
//! and of a level its slot and its value.

use rdm_receiver::{Received, Receiver, Signal};
use std::alloc::{AllocError, Global};
use std::process::Abort;

const ROWS: &[&str] = &[
    // A request, and the same behind bytes that count for nothing.
    "/ CC 01 18 7F F0 00*3 01 7F F0 00*3 02 00 01 00*3 20 10 00*2 03 F7 = packet 26 F7",
    "CC 01 18 AA*23 / CC 01 18 AA*23 = packet 26 AA",
    // Its end is its end, and a break in it is the end of what came before.
    "/ CC 01 18 AA*23 BB*40 = packet 26 AA",
    "/ CC 01 18 AA*22 / BB = nothing",
    "/ CC 01 18 AA*22 / CC 01 19 BB*24 = packet 27 BB",
    "/ CC 01 18 AA*23 / CC 01 18 BB*23 = packet 26 AA, packet 26 BB",
    // The greatest message length, and those that no packet has.
    "/ CC 01 FF AA*254 = packet 257 AA",
    "/ CC 01 17 AA*300 / CC 01 00 AA*300 = nothing",
    // After an error nothing counts up to the next break.
    "/ CC 01 18 AA*5 ! AA*18 CC 01 18 AA*23 = nothing",
    "/ ! CC 01 18 AA*23 / CC 01 18 BB*23 = packet 26 BB",
    // Other START codes and sub-START codes, and the answer to discovery, which has no break.
    "/ 17 01 18 AA*23 / CC 02 18 AA*23 = nothing",
    "/ FE*7 AA AF 55*15 / 55 = nothing",
    // Levels.
    "/ 00 FF 80 00 / 00 01 = 1 FF, 2 80, 3 00, 1 01",
    "/ 00 01 ! 02 / 00 03 / CC 01 18 AA*23 = 1 01, 1 03, packet 26 AA",
    "/ 00 / 00 = nothing",
];

#[test]
fn rows_are_told_as_printed(rt: HostRuntime) {
    for row in ROWS {
        let (signals, expected) = row.split_once(" = ").unwrap_or((row, ""));
        let told = told(rt.alloc(), signals).expect(&rt, "memory");
        assert!(&rt; told.as_str() == expected, "{row}, not {told}");
    }
}

#[test]
fn a_packet_of_dmx_has_512_levels(rt: HostRuntime) {
    let mut receiver = Receiver::new();
    let _ = receiver.receive(Signal::Break);
    let _ = receiver.receive(Signal::Byte(0));
    for slot in 1..=512 {
        let received = receiver.receive(Signal::Byte(7));
        assert!(&rt;
            matches!(received, Received::Level(told, 7) if told == slot),
            "slot {slot}"
        );
    }
    for _ in 0..600 {
        let received = receiver.receive(Signal::Byte(7));
        assert!(&rt;
            matches!(received, Received::Nothing),
            "behind the last slot"
        );
    }
}

/// What comes of these signals to a new receiver.
fn told(alloc: Global, signals: &str) -> Result<String, AllocError> {
    let mut receiver = Receiver::new();
    let mut told = String::new(alloc);
    for word in signals.split(' ') {
        let (signal, times) = signals_in(word);
        for _ in 0..times {
            let received = receiver.receive(signal);
            tell(alloc, &mut told, &receiver, received)?;
        }
    }
    if told.is_empty() {
        return String::from_str(alloc, "nothing");
    }
    Ok(told)
}

/// A signal, and how many times it comes.
fn signals_in(word: &str) -> (Signal, u16) {
    match word {
        "/" => (Signal::Break, 1),
        "!" => (Signal::Error, 1),
        _ => {
            let (byte, times) = word.split_once('*').unwrap_or((word, "1"));
            let byte = u8::from_str_radix(byte, 16).unwrap_or(0);
            (Signal::Byte(byte), times.parse().unwrap_or(0))
        }
    }
}

/// Writes down what came.
fn tell(
    alloc: Global,
    told: &mut String,
    receiver: &Receiver,
    received: Received,
) -> Result<(), AllocError> {
    let text = match received {
        Received::Nothing => return Ok(()),
        Received::Packet(count) => {
            let last = receiver.packet(count).last().copied().unwrap_or(0);
            format!(in alloc; "packet {count} {last:02X}")?
        }
        Received::Level(slot, value) => format!(in alloc; "{slot} {value:02X}")?,
    };
    if !told.is_empty() {
        told.push_str(", ")?;
    }
    told.push_str(text.as_str())
}
