//! What a collector for any device sends, hears and records, worked out by hand, byte for byte.

use super::{
    CONTROLLER, DEVICE, bytes_of, command_in, cut, name_of, printed, row_in, sent_or_why, words_for,
};
use rdm_collector::{Collected, DeviceCollector, Want, first_message, is_sure, join_data};
use std::alloc::Global;
use std::process::Abort;

/// A new collector.
fn new(alloc: Global) -> DeviceCollector {
    DeviceCollector::new(alloc, CONTROLLER, DEVICE, Want::Advisory)
}

/// Plays rows, as for a `Collector`; of the first message that is whole they also ask for the records (`first`), how many there are
/// (`count`), the data of all of them (`joined`) and whether none can be missing (`sure`).
fn plays(rt: &impl Abort, alloc: Global, collector: &mut DeviceCollector, rows: &str) {
    for line in rows.lines() {
        if let Some((turn, expected)) = row_in(rt, line) {
            let told = outcome(rt, alloc, collector, turn);
            assert!(rt; told.as_str() == expected, "{turn}");
        }
    }
}

/// What comes of a turn.
fn outcome(rt: &impl Abort, alloc: Global, collector: &mut DeviceCollector, turn: &str) -> String {
    let (verb, words) = cut(turn);
    match verb {
        "ask" => sent_or_why(rt, alloc, collector.ask(&command_in(rt, alloc, words))),
        "poll" => sent_or_why(rt, alloc, collector.poll()),
        "hear" => name_of(rt, alloc, &collector.hear(&bytes_of(rt, alloc, words))),
        "over" => {
            collector.over();
            String::new(alloc)
        }
        "forget" => {
            collector.forget(words.parse::<usize>().ok().expect(rt, turn));
            String::new(alloc)
        }
        "recorded" => all_told(rt, alloc, collector.recorded()),
        _ => match first_message(collector.recorded()) {
            Some(items) => first_told(rt, alloc, items, verb),
            None => words_for(rt, alloc, &"none"),
        },
    }
}

/// What is asked for of the records of a message.
fn first_told(rt: &impl Abort, alloc: Global, items: &[Collected], verb: &str) -> String {
    match verb {
        "first" => all_told(rt, alloc, items),
        "count" => words_for(rt, alloc, &items.len()),
        "joined" => joined(rt, alloc, items),
        _ => {
            assert!(rt; verb == "sure");
            words_for(rt, alloc, &is_sure(items))
        }
    }
}

/// The data of all records of a message.
fn joined(rt: &impl Abort, alloc: Global, items: &[Collected]) -> String {
    let mut data = Vec::new(alloc);
    join_data(items, &mut data).expect(rt, "memory");
    printed(rt, alloc, &data)
}

/// What records say, one behind the other.
fn all_told(rt: &impl Abort, alloc: Global, items: &[Collected]) -> String {
    let mut told = String::new(alloc);
    for item in items {
        told.push_str(&item_told(rt, alloc, item))
            .expect(rt, "memory");
    }
    told
}

/// What a record says: the response type, the command class, the parameter ID and the data; whether it was asked for again, and whether a
/// poll before it has no answer.
fn item_told(rt: &impl Abort, alloc: Global, item: &Collected) -> String {
    let response = name_of(rt, alloc, &item.response);
    let said = item_said(rt, alloc, item);
    let again = again_told(item);
    format!(in alloc; "({response} {said}{again})").expect(rt, "memory")
}

/// The command class, the parameter ID and the data of a record.
fn item_said(rt: &impl Abort, alloc: Global, item: &Collected) -> String {
    let data = printed(rt, alloc, item.message.body.as_slice());
    let (class, pid) = (item.message.class, item.message.pid);
    format!(in alloc; "{class:02X} {pid:04X} {data}").expect(rt, "memory")
}

/// Whether a record was asked for again, and whether a poll before it has no answer.
fn again_told(item: &Collected) -> &'static str {
    match (item.again, item.after_loss) {
        (false, false) => "",
        (true, false) => " again",
        (false, true) => " after loss",
        (true, true) => " again after loss",
    }
}

/// A deferred NACK is a message, and the next poll goes on (E1.20 section 6.3.4).
const DEFERRED: &str = "
// SET LAMP_STATE takes time.
ask set 0403 01 = CC01197FF0000000017FF000000002000100000030040301010401
hear CC011A7FF0000000027FF00000000100010000003104030200320435 = Reply
// It fails: a hardware fault. The NACK has waited in the queue as any message.
poll = CC01197FF0000000017FF00000000201010000002000200102040C
hear CC011A7FF0000000027FF00000000101020000003104030200020407 = Message
// The next poll goes on. The answer to the one before comes once more, too late, and a frame of another device.
poll = CC01197FF0000000017FF00000000202010000002000200102040D
hear CC011A7FF0000000027FF00000000101020000003104030200020407 = Ignored
hear CC01187FF0000000027FF000000003020000000021003000041B = Ignored
hear CC01187FF0000000027FF0000000010200000000210030000419 = Message
recorded = (Nack { reason: 2 } 31 0403 0002)(Ack 21 0030 )
";

#[test]
fn a_deferred_nack_is_a_message(rt: HostRuntime) {
    plays(&rt, rt.alloc(), &mut new(rt.alloc()), DEFERRED);
}

/// ACK_TIMER answers a poll, and the next one asks for the same (section 6.3.3).
const TIMED: &str = "
// The device needs half a second for a poll, and has given nothing yet.
poll = CC01197FF0000000017FF00000000200010000002000200102040B
hear CC011A7FF0000000027FF00000000100010000002100200200050411 = NotYet { tenths: 5 }
// The next poll is lost. It is asked for again, twice, since the device needs time once more.
poll = CC01197FF0000000017FF00000000201010000002000200102040C
over =
poll = CC01197FF0000000017FF00000000202010000002000200101040C
hear CC011A7FF0000000027FF000000001020100000021002002000A0418 = NotYet { tenths: 10 }
poll = CC01197FF0000000017FF00000000203010000002000200101040D
hear CC01217FF0000000027FF0000000010300000000210201090000190000001900000431 = Message
// An ACK_TIMER of another parameter is a message of the queue: the self-test takes ten seconds more.
poll = CC01197FF0000000017FF00000000204010000002000200102040F
hear CC011A7FF0000000027FF00000000104010000003110200200640494 = Message
recorded = (Ack 21 0201 000019000000190000 again after loss)(AckTimer { tenths: 100 } 31 1020 0064)
";

#[test]
fn a_poll_may_take_time(rt: HostRuntime) {
    plays(&rt, rt.alloc(), &mut new(rt.alloc()), TIMED);
}

/// A device that rejects polls (section 6.3.4, table A-17).
const REJECTED: &str = "
// The device has no QUEUED_MESSAGE.
poll = CC01197FF0000000017FF00000000200010000002000200102040B
hear CC011A7FF0000000027FF0000000010002000000210020020000040D = Unsupported
// It rejects a poll for another reason.
poll = CC01197FF0000000017FF00000000201010000002000200102040C
hear CC011A7FF0000000027FF00000000101020000002100200200060414 = Refused { reason: 6 }
// The answer to a poll is lost, and the device has no last message. A NACK without its reason is no answer.
poll = CC01197FF0000000017FF00000000202010000002000200102040D
over =
poll = CC01197FF0000000017FF00000000203010000002000200101040D
hear CC01187FF0000000027FF000000001030200000021002000040C = Ignored
hear CC011A7FF0000000027FF00000000103020000002100200200060416 = Refused { reason: 6 }
// The next poll goes on.
poll = CC01197FF0000000017FF00000000204010000002000200102040F
over =
recorded =
";

#[test]
fn a_rejected_poll_is_answered(rt: HostRuntime) {
    plays(&rt, rt.alloc(), &mut new(rt.alloc()), REJECTED);
}

/// A message in three parts (section 6.3.2).
const PARTS: &str = "
// The supported parameters, in three parts.
poll = CC01197FF0000000017FF00000000200010000002000200102040B
hear CC011C7FF0000000027FF000000001000300000021005004006000800522 = Part
// The second is lost, and asked for again.
poll = CC01197FF0000000017FF00000000201010000002000200102040C
count = none
over =
poll = CC01197FF0000000017FF00000000202010000002000200101040C
hear CC011C7FF0000000027FF000000001020300000021005004008100820547 = Part
// The request for the third is lost: the second comes again.
poll = CC01197FF0000000017FF00000000203010000002000200102040E
over =
poll = CC01197FF0000000017FF00000000204010000002000200101040E
hear CC011C7FF0000000027FF000000001040300000021005004008100820549 = Part
poll = CC01197FF0000000017FF000000002050100000020002001020410
hear CC011A7FF0000000027FF00000000105000000002100500200F00530 = Message
joined = 006000800081008200F0
count = 4
forget 4 =
count = none
";

#[test]
fn parts_are_joined(rt: HostRuntime) {
    plays(&rt, rt.alloc(), &mut new(rt.alloc()), PARTS);
}

/// A message that breaks off.
const BROKEN_OFF: &str = "
// A part, and then a message of another parameter: the rest of the first won't come.
poll = CC01197FF0000000017FF00000000200010000002000200102040B
hear CC011C7FF0000000027FF000000001000300000021005004006000800522 = Part
poll = CC01197FF0000000017FF00000000201010000002000200102040C
hear CC01187FF0000000027FF00000000101000000003104030003FF = Message
first = (AckOverflow 21 0050 00600080)
";

#[test]
fn a_message_that_breaks_off_is_told(rt: HostRuntime) {
    plays(&rt, rt.alloc(), &mut new(rt.alloc()), BROKEN_OFF);
}

/// The first part of a message.
const PART: &str = "
poll = CC01197FF0000000017FF00000000200010000002000200102040B
hear CC011C7FF0000000027FF000000001000300000021005004006000800522 = Part
";

/// A poll after the last part is lost: the last part comes again.
const LOST_BEHIND: &str = "
poll = CC01197FF0000000017FF00000000201010000002000200102040C
hear CC011A7FF0000000027FF00000000101000000002100500200F0052C = Message
poll = CC01197FF0000000017FF00000000202010000002000200102040D
over =
poll = CC01197FF0000000017FF00000000203010000002000200101040D
hear CC011A7FF0000000027FF00000000103000000002100500200F0052E = Message
sure = true
";

/// A poll between two parts is lost, and asking for the last message again is rejected: what was lost won't come.
const LOST_AND_REJECTED: &str = "
poll = CC01197FF0000000017FF00000000201010000002000200102040C
over =
poll = CC01197FF0000000017FF00000000202010000002000200101040C
hear CC011A7FF0000000027FF00000000102020000002100200200060415 = Refused { reason: 6 }
poll = CC01197FF0000000017FF00000000203010000002000200102040E
hear CC011A7FF0000000027FF00000000103000000002100500200F0052E = Message
sure = false
";

/// The same, and what was lost comes again: it may be the part before it once more, or the one behind that.
const LOST_BETWEEN: &str = "
poll = CC01197FF0000000017FF00000000201010000002000200102040C
over =
poll = CC01197FF0000000017FF00000000202010000002000200101040C
hear CC011A7FF0000000027FF00000000102000000002100500200F0052D = Message
sure = false
";

#[test]
fn a_message_is_sure_unless_a_poll_between_its_parts_is_lost(rt: HostRuntime) {
    for rows in &[LOST_BEHIND, LOST_AND_REJECTED, LOST_BETWEEN] {
        plays_on(&rt, rt.alloc(), &mut new(rt.alloc()), rows);
    }
}

/// Plays rows behind the first part of a message.
fn plays_on(rt: &impl Abort, alloc: Global, collector: &mut DeviceCollector, rows: &str) {
    plays(rt, alloc, collector, PART);
    plays(rt, alloc, collector, rows);
}
