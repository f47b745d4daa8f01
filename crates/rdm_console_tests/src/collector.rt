//! What a collector sends and records, worked out by hand, byte for byte. Rows are text.
//!
//! The device is 7FF0:00000001, the controller 7FF0:00000002, and what it wants is advisory.

mod any_device;
mod readme;
mod replies;
mod words;

use rdm_collector::{Action, Collector, Command, Load, Message, Uid, Want, Wire};
use std::alloc::Global;
use std::fmt::{Debug, Display};
use std::process::Abort;

const DEVICE: Uid = Uid {
    maker: 0x7FF0,
    device: 1,
};

const CONTROLLER: Uid = Uid {
    maker: 0x7FF0,
    device: 2,
};

/// A command to the root of the device.
fn command(rt: &impl Abort, action: Action, pid: u16, bytes: &[u8]) -> Command {
    Command {
        dst: DEVICE,
        action,
        sub: 0,
        pid,
        load: Load::from_slice(bytes).expect(rt, "at most 255 bytes"),
    }
}

/// Bytes in hexadecimal digits.
fn printed(rt: &impl Abort, alloc: Global, bytes: &[u8]) -> String {
    hex::encode_upper(alloc, bytes).expect(rt, "memory")
}

/// The bytes that hexadecimal digits print.
fn bytes_of(rt: &impl Abort, alloc: Global, text: &str) -> Vec<u8> {
    hex::decode(alloc, text).expect(rt, "two digits a byte")
}

/// The words for something, such as a refusal.
fn words_for(rt: &impl Abort, alloc: Global, it: &impl Display) -> String {
    format!(in alloc; "{it}").expect(rt, "memory")
}

/// The bytes that are sent, or why none are.
fn sent_or_why(rt: &impl Abort, alloc: Global, sent: Result<Wire, impl Display + Drop>) -> String {
    match sent {
        Ok(wire) => printed(rt, alloc, wire.as_slice()),
        Err(refusal) => words_for(rt, alloc, &refusal),
    }
}

/// The name of what bytes are taken for.
fn name_of(rt: &impl Abort, alloc: Global, heard: &impl Debug) -> String {
    format!(in alloc; "{heard:?}").expect(rt, "memory")
}

/// More bytes than a frame can carry.
const TOO_MANY: [u8; 232] = [0; 232];

/// The command to the root of the device that words say: its action, the parameter ID and the data, or `too many` for more than a frame
/// can carry.
fn command_in(rt: &impl Abort, alloc: Global, words: &str) -> Command {
    let (action, words) = cut(words);
    let (pid, data) = cut(words);
    let action = if action == "get" {
        Action::Get
    } else {
        Action::Set
    };
    let pid = u16::from_str_radix(pid, 16).ok().expect(rt, words);
    if data == "too many" {
        command(rt, action, pid, &TOO_MANY)
    } else {
        command(rt, action, pid, &bytes_of(rt, alloc, data))
    }
}

/// The first word of a text, and what follows it.
fn cut(text: &str) -> (&str, &str) {
    text.split_once(' ').unwrap_or((text, ""))
}

/// A row: what is done with a collector, and what comes of it. Empty rows and those that begin with `//` are none.
fn row_in<'a>(rt: &impl Abort, line: &'a str) -> Option<(&'a str, &'a str)> {
    if line.is_empty() || line.starts_with("//") {
        return None;
    }
    let (turn, expected) = line.split_once(" =").expect(rt, line);
    Some((turn, expected.trim_start()))
}

/// Plays rows on a new collector. `ask COMMAND` and `poll` send these bytes, or why none; `hear BYTES` takes them for this; `over` ends a
/// transaction; `recorded` has these messages, and `forget` drops the first of them.
fn plays(rt: &impl Abort, alloc: Global, rows: &str) {
    let mut collector = Collector::new(alloc, CONTROLLER, DEVICE, Want::Advisory);
    for line in rows.lines() {
        if let Some((turn, expected)) = row_in(rt, line) {
            let told = outcome(rt, alloc, &mut collector, turn);
            assert!(rt; told.as_str() == expected, "{turn}");
        }
    }
}

/// What comes of a turn.
fn outcome(rt: &impl Abort, alloc: Global, collector: &mut Collector, turn: &str) -> String {
    let (verb, words) = cut(turn);
    match verb {
        "ask" => sent_or_why(rt, alloc, collector.ask(&command_in(rt, alloc, words))),
        "poll" => sent_or_why(rt, alloc, collector.poll()),
        "hear" => name_of(rt, alloc, &collector.hear(&bytes_of(rt, alloc, words))),
        "recorded" => all_told(rt, alloc, collector.recorded()),
        "forget" => {
            collector.forget(words.parse::<usize>().ok().expect(rt, turn));
            String::new(alloc)
        }
        _ => {
            assert!(rt; verb == "over");
            collector.over();
            String::new(alloc)
        }
    }
}

/// What messages say, one behind the other.
fn all_told(rt: &impl Abort, alloc: Global, messages: &[Message]) -> String {
    let mut told = String::new(alloc);
    for message in messages {
        told.push_str(&message_told(rt, alloc, message))
            .expect(rt, "memory");
    }
    told
}

/// What a message says: its class, the parameter ID, the sub-device and the data.
fn message_told(rt: &impl Abort, alloc: Global, message: &Message) -> String {
    let data = printed(rt, alloc, message.body.as_slice());
    let (class, pid, sub) = (message.class, message.pid, message.sub);
    format!(in alloc; "({class:02X} {pid:04X} {sub:04X} {data})").expect(rt, "memory")
}

/// A transaction is open until it is over.
const OPEN: &str = "
poll = CC01197FF0000000017FF00000000200010000002000200102040B
poll = busy
ask get 0030 = reserved
ask set 1000 too many = busy
over =
ask set 1000 too many = too long
hear CC01187FF0000000027FF0000000010000000000210030000417 = Ignored
poll = CC01197FF0000000017FF00000000201010000002000200101040B
recorded =
";

#[test]
fn a_transaction_is_open_until_it_is_over(rt: HostRuntime) {
    plays(&rt, rt.alloc(), OPEN);
}

/// Messages are recorded, and other frames are not.
const HEARD: &str = "
// SET LAMP_STATE takes time.
ask set 0403 01 = CC01197FF0000000017FF000000002000100000030040301010401
hear CC011A7FF0000000027FF00000000100010000003104030200320435 = Reply
// It is done.
poll = CC01197FF0000000017FF00000000201010000002000200102040C
hear CC01187FF0000000027FF00000000101000000003104030003FF = Message
// No other message waits. A frame in another transaction, from or to another device, or that refuses, is no answer.
poll = CC01197FF0000000017FF00000000202010000002000200102040D
hear CC01187FF0000000027FF0000000010100000000210030000418 = Ignored
hear CC01187FF0000000027FF000000003020000000021003000041B = Ignored
hear CC01187FF0000000037FF000000001020000000021003000041A = Ignored
hear CC011A7FF0000000027FF00000000102020000002100200200060415 = Ignored
hear CC01187FF0000000027FF0000000010200000000210030000419 = Message
// The value of sensor 0 waits, and its first answer is lost.
poll = CC01197FF0000000017FF00000000203010000002000200102040E
over =
poll = CC01197FF0000000017FF00000000204010000002000200101040E
hear CC01217FF0000000027FF0000000010400000000210201090000190000001900000432 = Message
// The class, the parameter ID, the sub-device and the data of what is recorded.
recorded = (31 0403 0000 )(21 0030 0000 )(21 0201 0000 000019000000190000)
forget 2 =
recorded = (21 0201 0000 000019000000190000)
";

#[test]
fn messages_are_recorded_as_they_are_heard(rt: HostRuntime) {
    plays(&rt, rt.alloc(), HEARD);
}
