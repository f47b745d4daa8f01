//! What responses say.

use super::{bytes_of, name_of, printed, row_in, words_for};
use rdm_collector::{Reply, read_reply};
use std::alloc::Global;
use std::process::Abort;

/// Bytes, and what they say if they are a response of the device: how the request is answered, the device, the command class, the parameter
/// ID, the sub-device, how many messages wait, and the data.
const REPLIES: &str = "
CC01187FF0000000027FF00000000101000000003104030003FF = Ack 7FF0:00000001 31 0403 0000 0 ()
CC011A7FF0000000027FF00000000100010000003104030200320435 = AckTimer { tenths: 50 } 7FF0:00000001 31 0403 0000 0 (0032)
CC011A7FF0000000027FF00000000102020000002100200200060415 = Nack { reason: 6 } 7FF0:00000001 21 0020 0000 0 (0006)
CC01187FF0000000027FF0000000010103000000310403000402 = AckOverflow 7FF0:00000001 31 0403 0000 0 ()
// No response: no bytes, a request, a response type that isn't defined, an ACK_TIMER without its time, and a wrong checksum.
 = none
CC01197FF0000000017FF000000002000100000030040301010401 = none
CC01187FF0000000027FF0000000010104000000310403000403 = none
CC01187FF0000000027FF0000000010101000000310403000400 = none
CC01187FF0000000027FF0000000010100000000310403000400 = none
";

/// What bytes say.
fn told(rt: &impl Abort, alloc: Global, bytes: &[u8]) -> String {
    match read_reply(bytes) {
        Some(reply) => reply_told(rt, alloc, &reply),
        None => words_for(rt, alloc, &"none"),
    }
}

fn reply_told(rt: &impl Abort, alloc: Global, reply: &Reply<'_>) -> String {
    let response = name_of(rt, alloc, &reply.response);
    let from = words_for(rt, alloc, &reply.src);
    let said = reply_said(rt, alloc, reply);
    format!(in alloc; "{response} {from} {said}").expect(rt, "memory")
}

/// The command class, the parameter ID, the sub-device, how many messages wait, and the data.
fn reply_said(rt: &impl Abort, alloc: Global, reply: &Reply<'_>) -> String {
    let (class, pid) = (reply.class, reply.pid);
    let command = format!(in alloc; "{class:02X} {pid:04X}").expect(rt, "memory");
    let (sub, waiting) = (reply.sub, reply.waiting);
    let device = format!(in alloc; "{sub:04X} {waiting}").expect(rt, "memory");
    let data = printed(rt, alloc, reply.body);
    format!(in alloc; "{command} {device} ({data})").expect(rt, "memory")
}

/// Bytes say this.
fn reads(rt: &impl Abort, alloc: Global, digits: &str, expected: &str) {
    let told = told(rt, alloc, &bytes_of(rt, alloc, digits));
    assert!(rt; told.as_str() == expected, "{digits}");
}

#[test]
fn responses_are_read(rt: HostRuntime) {
    for line in REPLIES.lines() {
        if let Some((digits, expected)) = row_in(&rt, line) {
            reads(&rt, rt.alloc(), digits, expected);
        }
    }
}
