//! What a request says that it changed.

use super::{cut, printed, responder_with, word};
use rdm_frame::Wire;
use rdm_responder::{Changed, Responder};
use std::process::Abort;

/// Requests, and what each says that it changed.
const TOLD: &str = "
// A GET.
CC0118 7FF000000001 7FF000000002 00 01 00 0000 20 1000 00 03F7 = nothing
// A SET to the value that was; to another; to that again.
CC0119 7FF000000001 7FF000000002 01 01 00 0000 30 1000 01 00 040A = nothing
CC0119 7FF000000001 7FF000000002 02 01 00 0000 30 1000 01 01 040C = value 0000 1000
CC0119 7FF000000001 7FF000000002 03 01 00 0000 30 1000 01 01 040D = nothing
// To all devices; to another device.
CC0119 FFFFFFFFFFFF 7FF000000002 04 01 00 0000 30 1000 01 00 0897 = value 0000 1000
CC0119 7FF000000003 7FF000000002 05 01 00 0000 30 1000 01 01 0411 = nothing
// To a sub-device; to all sub-devices, twice.
CC011A 7FF000000001 7FF000000002 06 01 00 0002 30 00F0 02 0009 04FC = value 0002 00F0
CC011A 7FF000000001 7FF000000002 07 01 00 FFFF 30 00F0 02 0009 06F9 = several
CC011A 7FF000000001 7FF000000002 08 01 00 FFFF 30 00F0 02 0009 06FA = nothing
// Of the label.
CC0119 7FF000000001 7FF000000002 09 01 00 0000 30 0082 01 41 04C5 = value 0000 0082
// FACTORY_DEFAULTS, twice.
CC0118 7FF000000001 7FF000000002 0A 01 00 0000 30 0090 00 0491 = several
CC0118 7FF000000001 7FF000000002 0B 01 00 0000 30 0090 00 0492 = nothing
// One that is refused; a slow one.
CC0119 7FF000000001 7FF000000002 0C 01 00 0000 30 1000 01 02 0417 = nothing
CC0119 7FF000000001 7FF000000002 0D 01 00 0000 30 0403 01 01 040E = nothing
// CLEAR_STATUS_ID; a discovery command.
CC0118 7FF000000001 7FF000000002 0E 01 00 0000 30 0032 00 0437 = nothing
CC0118 7FF000000001 7FF000000002 0F 01 00 0000 10 0002 00 03E8 = nothing
// Bytes with a wrong checksum.
CC0119 7FF000000001 7FF000000002 10 01 00 0000 30 1000 01 01 0000 = nothing
";

#[test]
fn a_request_tells_what_it_changed(rt: HostRuntime) {
    let mut responder = responder_with(&rt, rt.alloc(), 2, 8);
    for row in TOLD.lines() {
        if row.starts_with("CC") {
            tells(&rt, &mut responder, row);
        }
    }
}

/// A responder hears a request, and what it says that it changed is what stands behind it.
fn tells(rt: &impl Abort, responder: &mut Responder, row: &str) {
    let (request, expected) = row.split_once(" = ").expect(rt, row);
    let heard = printed(rt, request);
    let stepped = responder.step_into(heard.as_slice(), &mut Wire::new());
    let is_so = match stepped.changed {
        None => expected == "nothing",
        Some(Changed::Several) => expected == "several",
        Some(Changed::Value { sub, pid }) => is_value(rt, sub, pid, expected),
    };
    assert!(rt; is_so, "{row}");
}

/// Whether words say that the value of this parameter of this device changed.
fn is_value(rt: &impl Abort, sub: u16, pid: u16, words: &str) -> bool {
    let (kind, words) = cut(words);
    let (device, parameter) = cut(words);
    kind == "value" && (word(rt, device), word(rt, parameter)) == (sub, pid)
}
