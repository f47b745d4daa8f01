//! Requests that lost their end on the way.

use super::play::plays;
use std::alloc::Global;
use std::process::Abort;

/// The digits of requests and of their replies, without blanks: a GET of IDENTIFY_DEVICE, and a SET of the label to 32 letters.
const REQUESTS: &[(&str, &str)] = &[
    (
        "CC01187FF0000000017FF00000000200010000002010000003F7",
        "CC01197FF0000000027FF0000000010000000000211000010003F9",
    ),
    (
        "CC01387FF0000000017FF00000000200010000003000822041414141414141414141414141414141414141414141414141414141414141410CD9",
        "CC01187FF0000000027FF0000000010000000000310082000479",
    ),
];

/// What is asked then, and what a device that heard nothing before answers: IDENTIFY_DEVICE and the label.
const AFTERWARDS: &str = "send CC0118 7FF000000001 7FF000000002 00 01 00 0000 20 1000 00 03F7
reply CC0119 7FF000000002 7FF000000001 00 00 00 0000 21 1000 01 00 03F9
send CC0118 7FF000000001 7FF000000002 00 01 00 0000 20 0082 00 0469
reply CC011F 7FF000000002 7FF000000001 00 00 00 0000 21 0082 07 46697874757265 075E
";

/// A new responder hears bytes, gives this reply, and then plays the rest.
fn plays_on(rt: &impl Abort, alloc: Global, heard: &str, reply: &str, rest: &str) {
    let lines = format!(in alloc; "send {heard}\nreply {reply}\n{rest}").expect(rt, "memory");
    plays(rt, alloc, (0, 8, &lines));
}

#[test]
fn a_front_of_a_request_is_as_if_it_was_not_heard(rt: HostRuntime) {
    for (request, reply) in REQUESTS {
        for digits in (0..request.len()).step_by(2) {
            let front = request.get(..digits).expect(&rt, "a front");
            plays_on(&rt, rt.alloc(), front, "none", AFTERWARDS);
        }
        plays_on(&rt, rt.alloc(), request, reply, "");
    }
}
