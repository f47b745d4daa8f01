//! A collector that polls.

use crate::bus::command;
use crate::fault::{ALWAYS, Fault, OTHER, check};
use crate::making::{CONTROLLER, DEVICE};
use crate::tally::{TRIES, Tally};
use rdm_collector::{Action, AskError, Collector, Command, Heard, PollError, Want};
use rdm_frame::{Body, Frame, Load, Wire, decode, encode};
use std::alloc::Global;

/// How many polls are answered: more than a list has room for at first.
const POLLS: u8 = 9;

/// The status type that asks for the last message again, and the one that the user wants.
const LAST: u8 = 1;

const ADVISORY: u8 = 2;

/// Three collectors poll. Where a poll is refused the next one is what it would have been: it has the same transaction number
/// and asks for the same.
pub(crate) fn poll(alloc: Global) -> Result<Tally, Fault> {
    let mut tally = Tally::NONE;
    is_answered(&mut new_collector(alloc), &mut tally)?;
    gives_up(&mut new_collector(alloc), &mut tally)?;
    asks_first(&mut new_collector(alloc), &mut tally)?;
    Ok(tally)
}

/// A collector polls, hears the empty status message, and polls again.
fn is_answered(collector: &mut Collector, tally: &mut Tally) -> Result<(), Fault> {
    for tn in 0..POLLS {
        polls(collector, tn, ADVISORY, tally)?;
        let heard = collector.hear(from_device(tn, 0x21, 0x0030, Body::new()).as_slice());
        check(heard == Heard::Message, "a message that isn't heard")?;
    }
    check(collector.recorded().len() == 9, "other messages")
}

/// A collector hears bytes with no transaction open, polls, asks in vain while the poll is open, gives it up, and polls again.
fn gives_up(collector: &mut Collector, tally: &mut Tally) -> Result<(), Fault> {
    hears_nothing(collector, 0)?;
    polls(collector, 0, ADVISORY, tally)?;
    let refusal = refusal(collector, &command(0x0030, ADVISORY));
    check(
        refusal == Some(AskError::Reserved),
        "a command for STATUS_MESSAGES",
    )?;
    asks_in_vain(collector)?;
    hears_nothing(collector, 0)?;
    polls(collector, 1, LAST, tally)
}

/// While a poll is open there is no command, and then none that is too long.
fn asks_in_vain(collector: &mut Collector) -> Result<(), Fault> {
    let long = Command {
        dst: DEVICE,
        action: Action::Get,
        sub: 0,
        pid: 0x1000,
        load: Load::of(&[0; 232]),
    };
    let while_open = refusal(collector, &long);
    collector.over();
    let after = refusal(collector, &long);
    check(
        while_open == Some(AskError::Busy),
        "a command while a poll is open",
    )?;
    check(after == Some(AskError::TooLong), "a command with 232 bytes")
}

/// Why a command can't be sent.
fn refusal(collector: &mut Collector, command: &Command) -> Option<AskError> {
    collector.ask(command).err()
}

/// A collector asks for IDENTIFY_DEVICE, hears that it is off, and then polls.
fn asks_first(collector: &mut Collector, tally: &mut Tally) -> Result<(), Fault> {
    let identify = Command {
        dst: DEVICE,
        action: Action::Get,
        sub: 0,
        pid: 0x1000,
        load: Load::new(),
    };
    check(sends(collector, &identify, &IDENTIFY), "another request")?;
    let heard = collector.hear(from_device(0, 0x21, 0x1000, Body::of(&[0])).as_slice());
    check(heard == Heard::Reply, "a reply that isn't heard")?;
    polls(collector, 1, ADVISORY, tally)
}

/// The request for IDENTIFY_DEVICE, from the transaction number on.
const IDENTIFY: [u8; 11] = [0, 1, 0, 0, 0, 0x20, 0x10, 0, 0, 0x03, 0xF7];

/// Whether the request of a command has these bytes.
fn sends(collector: &mut Collector, command: &Command, bytes: &[u8]) -> bool {
    match collector.ask(command) {
        Ok(sent) => sent.as_slice().get(15..) == Some(bytes),
        Err(_) => false,
    }
}

/// A collector that has just been made.
fn new_collector(alloc: Global) -> Collector {
    Collector::new(alloc, CONTROLLER, DEVICE, Want::Advisory)
}

/// Nothing is heard in the device's empty status message: no transaction is open.
fn hears_nothing(collector: &mut Collector, tn: u8) -> Result<(), Fault> {
    let heard = collector.hear(from_device(tn, 0x21, 0x0030, Body::new()).as_slice());
    check(heard == Heard::Ignored, "something heard")
}

/// An answer of the device.
fn from_device(tn: u8, class: u8, pid: u16, body: Body) -> Wire {
    encode(&Frame {
        dst: CONTROLLER,
        src: DEVICE,
        tn,
        port: 0,
        count: 0,
        sub: 0,
        class,
        pid,
        body,
    })
}

/// The poll with this transaction number, for this status type, and no second one while it is open. Where it is refused nothing
/// is open, nothing is recorded, and it is made again.
fn polls(collector: &mut Collector, tn: u8, kind: u8, tally: &mut Tally) -> Result<(), Fault> {
    let recorded = collector.recorded().len();
    for _ in 0..TRIES {
        let answer = collector.poll();
        check(
            collector.recorded().len() == recorded,
            "what is recorded changed",
        )?;
        match answer {
            Ok(sent) => {
                check(is_poll(&sent, tn, kind), "another poll")?;
                let second = collector.poll().err();
                return check(second == Some(PollError::Busy), "a second poll");
            }
            Err(PollError::OutOfMemory) => {
                tally.refused();
                hears_nothing(collector, tn)?;
            }
            Err(PollError::Busy) => return Err(OTHER),
        }
    }
    Err(ALWAYS)
}

/// Whether bytes ask for what waits, with this transaction number and status type.
fn is_poll(sent: &Wire, tn: u8, kind: u8) -> bool {
    match decode(sent.as_slice()) {
        Ok(frame) => {
            frame.pid == 0x0020 && frame.body.as_slice() == [kind].as_slice() && frame.tn == tn
        }
        Err(_) => false,
    }
}
