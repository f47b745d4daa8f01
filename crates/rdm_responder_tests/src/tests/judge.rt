//! Replies that are judged beside a fixture with one sub-device: worked out by hand from the reply rules.

use super::{printed, responder_with};
use rdm_judge::{Seen, Verdict, judge};
use rdm_responder::Responder;
use std::alloc::Global;
use std::process::Abort;

/// A request, the reply that came, if one did, and what is said of it. The fixture has heard the requests before.
const ROWS: &str = "
// GET IDENTIFY_DEVICE: off, as it starts. On may be right, but isn't known; two slots of data can't be told from it.
send CC0118 7FF000000001 7FF000000002 00 01 00 0000 20 1000 00 03F7
reply CC0119 7FF000000002 7FF000000001 00 00 00 0000 21 1000 01 00 03F9
right
send CC0118 7FF000000001 7FF000000002 01 01 00 0000 20 1000 00 03F8
reply CC0119 7FF000000002 7FF000000001 01 00 00 0000 21 1000 01 01 03FB
open: it depends on what the device keeps
// The reply has another transaction number, another parameter, or goes to another controller.
send CC0118 7FF000000001 7FF000000002 02 01 00 0000 20 1000 00 03F9
reply CC0119 7FF000000002 7FF000000001 01 00 00 0000 21 1000 01 00 03FA
wrong: wrong transaction number
send CC0118 7FF000000001 7FF000000002 03 01 00 0000 20 1000 00 03FA
reply CC0119 7FF000000002 7FF000000001 03 00 00 0001 21 1000 01 00 03FD
wrong: wrong sub-device, command class or parameter
send CC0118 7FF000000001 7FF000000002 04 01 00 0000 20 1000 00 03FB
reply CC0119 7FF000000003 7FF000000001 04 00 00 0000 21 1000 01 00 03FE
wrong: wrong source or destination UID
// No reply, and one that isn't a frame: its checksum is wrong.
send CC0118 7FF000000001 7FF000000002 05 01 00 0000 20 1000 00 03FC
reply none
open: no reply was received
send CC0118 7FF000000001 7FF000000002 06 01 00 0000 20 1000 00 03FD
reply CC0119 7FF000000002 7FF000000001 06 00 00 0000 21 1000 01 00 03FE
open: not a valid frame
// A parameter that there isn't: 7777 is rejected as UNKNOWN_PID (0000), and neither as DATA_OUT_OF_RANGE (0006) nor acknowledged.
send CC0118 7FF000000001 7FF000000002 07 01 00 0000 20 7777 00 04DC
reply CC011A 7FF000000002 7FF000000001 07 02 00 0000 21 7777 02 0006 04E8
wrong: wrong NACK, or none where one is due
send CC0118 7FF000000001 7FF000000002 08 01 00 0000 20 7777 00 04DD
reply CC0118 7FF000000002 7FF000000001 08 00 00 0000 21 7777 00 04DD
wrong: wrong NACK, or none where one is due
// SET IDENTIFY_DEVICE 2 is out of range; a lock might keep it from being set; wrong lengths are told as FORMAT_ERROR (0001).
send CC0119 7FF000000001 7FF000000002 09 01 00 0000 30 1000 01 02 0414
reply CC011A 7FF000000002 7FF000000001 09 02 00 0000 31 1000 02 0006 041C
right
send CC0119 7FF000000001 7FF000000002 0A 01 00 0000 30 1000 01 02 0415
reply CC011A 7FF000000002 7FF000000001 0A 02 00 0000 31 1000 02 0004 041B
open: it depends on what the device keeps
send CC0118 7FF000000001 7FF000000002 0B 01 00 0000 30 1000 00 0412
reply CC011A 7FF000000002 7FF000000001 0B 02 00 0000 31 1000 02 0006 041E
wrong: wrong NACK, or none where one is due
// A slow command is answered with ACK_TIMER and its estimate of 50 tenths, or BUFFER_FULL (0007), and not acknowledged at once.
send CC0119 7FF000000001 7FF000000002 0C 01 00 0000 30 0403 01 01 040D
reply CC011A 7FF000000002 7FF000000001 0C 01 00 0000 31 0403 02 0033 0442
wrong: wrong estimate
send CC0119 7FF000000001 7FF000000002 0D 01 00 0000 30 0403 01 01 040E
reply CC011A 7FF000000002 7FF000000001 0D 02 00 0000 31 0403 02 0007 0418
open: it depends on what the device keeps
send CC0119 7FF000000001 7FF000000002 0E 01 00 0000 30 0403 01 01 040F
reply CC0118 7FF000000002 7FF000000001 0E 00 00 0000 31 0403 00 040C
wrong: wrong response type
// A broadcast gets no reply from any device.
send CC0119 FFFFFFFFFFFF 7FF000000002 0F 01 00 0000 30 1000 01 00 08A2
reply none
right
send CC0119 FFFFFFFFFFFF 7FF000000002 10 01 00 0000 30 1000 01 00 08A3
reply CC0118 7FF000000002 7FF000000001 10 00 00 0000 31 1000 00 0417
wrong: nothing is to be answered
// DISC_MUTE: the control field of a device with sub-devices is 0002.
send CC0118 7FF000000001 7FF000000002 11 01 00 0000 10 0002 00 03EA
reply CC011A 7FF000000002 7FF000000001 11 00 00 0000 11 0002 02 0000 03EE
wrong: wrong response to a mute
";

/// A capture, from its first request on: what a reply says holds for those after it.
const CAPTURE: &str = "
// DISC_MUTE is answered, so DISC_UNIQUE_BRANCH isn't to be. Another DISC_MUTE of which no reply came leaves the device muted.
send CC0118 7FF000000001 7FF000000002 00 01 00 0000 10 0002 00 03D9
reply CC011A 7FF000000002 7FF000000001 00 00 00 0000 11 0002 02 0002 03DF
right
send CC0124 FFFFFFFFFFFF 7FF000000002 01 01 00 0000 10 0001 0C 000000000000FFFFFFFFFFFF 0E75
reply FEFEFEFEFEFEFEAA FF7FFAF5AA55AA55AA55AB55 AF57EA7F
wrong: the device is muted
send CC0118 7FF000000001 7FF000000002 02 01 00 0000 10 0002 00 03DB
reply none
open: no reply was received
send CC0124 FFFFFFFFFFFF 7FF000000002 03 01 00 0000 10 0001 0C 000000000000FFFFFFFFFFFF 0E77
reply FEFEFEFEFEFEFEAA FF7FFAF5AA55AA55AA55AB55 AF57EA7F
wrong: the device is muted
// DISC_UN_MUTE goes to all devices. Whether this one received it isn't known, so it may answer, and it may be muted still.
send CC0118 FFFFFFFFFFFF 7FF000000002 04 01 00 0000 10 0003 00 0868
reply none
right
send CC0124 FFFFFFFFFFFF 7FF000000002 05 01 00 0000 10 0001 0C 000000000000FFFFFFFFFFFF 0E79
reply FEFEFEFEFEFEFEAA FF7FFAF5AA55AA55AA55AB55 AF57EA7F
right
// No reply to DISC_MUTE came: the twin is muted, but the device may have missed it.
send CC0118 7FF000000001 7FF000000002 06 01 00 0000 10 0002 00 03DF
reply none
open: no reply was received
send CC0124 FFFFFFFFFFFF 7FF000000002 07 01 00 0000 10 0001 0C 000000000000FFFFFFFFFFFF 0E7B
reply FEFEFEFEFEFEFEAA FF7FFAF5AA55AA55AA55AB55 AF57EA7F
open: the device may be muted or not
// A reply to DISC_MUTE with another transaction number doesn't show that this one was received.
send CC0118 7FF000000001 7FF000000002 08 01 00 0000 10 0002 00 03E1
reply CC011A 7FF000000002 7FF000000001 07 00 00 0000 11 0002 02 0002 03E6
wrong: wrong transaction number
send CC0124 FFFFFFFFFFFF 7FF000000002 09 01 00 0000 10 0001 0C 000000000000FFFFFFFFFFFF 0E7D
reply FEFEFEFEFEFEFEAA FF7FFAF5AA55AA55AA55AB55 AF57EA7F
open: the device may be muted or not
// The last message isn't known yet. QUEUED_MESSAGE gets the message of a changed label, which the twin doesn't have; then that is the
// last message, and neither the empty status message nor another label is, the twin's or not.
send CC0119 7FF000000001 7FF000000002 0A 01 00 0000 20 0020 01 01 0414
reply CC0118 7FF000000002 7FF000000001 0A 00 00 0000 21 0030 00 0421
right
send CC0119 7FF000000001 7FF000000002 0B 01 00 0000 20 0020 01 04 0418
reply CC0119 7FF000000002 7FF000000001 0B 00 00 0000 21 0082 01 41 04B7
open: it depends on what the device keeps
send CC0119 7FF000000001 7FF000000002 0C 01 00 0000 20 0020 01 01 0416
reply CC0119 7FF000000002 7FF000000001 0C 00 00 0000 21 0082 01 41 04B8
open: it depends on what the device keeps
send CC0119 7FF000000001 7FF000000002 0D 01 00 0000 20 0020 01 01 0417
reply CC0118 7FF000000002 7FF000000001 0D 00 00 0000 21 0030 00 0424
wrong: not the last message again
// A reply that is lost may be any message, so the one before it is the last message no more.
send CC0119 7FF000000001 7FF000000002 0E 01 00 0000 20 0020 01 04 041B
reply none
open: no reply was received
send CC0119 7FF000000001 7FF000000002 0F 01 00 0000 20 0020 01 01 0419
reply CC0119 7FF000000002 7FF000000001 0F 00 00 0000 21 0082 01 42 04BC
open: it depends on what the device keeps
send CC0119 7FF000000001 7FF000000002 10 01 00 0000 20 0020 01 01 041A
reply CC0119 7FF000000002 7FF000000001 10 00 00 0000 21 0082 01 41 04BC
wrong: not the last message again
// A GET of another parameter leaves the last message, and STATUS_MESSAGES tells it, too; then that
// comes again. A NACK carries no message.
send CC0119 7FF000000001 7FF000000002 11 01 00 0000 20 0020 01 04 041E
reply CC0119 7FF000000002 7FF000000001 11 00 00 0000 21 0082 01 43 04BF
open: it depends on what the device keeps
send CC0118 7FF000000001 7FF000000002 12 01 00 0000 20 1000 00 0409
reply CC0119 7FF000000002 7FF000000001 12 00 00 0000 21 1000 01 00 040B
right
send CC0119 7FF000000001 7FF000000002 13 01 00 0000 20 0020 01 01 041D
reply CC0118 7FF000000002 7FF000000001 13 00 00 0000 21 0030 00 042A
wrong: not the last message again
send CC0119 7FF000000001 7FF000000002 14 01 00 0000 20 0020 01 04 0421
reply CC0119 7FF000000002 7FF000000001 14 00 00 0000 21 0082 01 43 04C2
open: it depends on what the device keeps
send CC0119 7FF000000001 7FF000000002 15 01 00 0000 20 0030 01 01 042F
reply CC0119 7FF000000002 7FF000000001 15 00 00 0000 21 0082 01 43 04C3
open: it depends on what the device keeps
send CC0119 7FF000000001 7FF000000002 16 01 00 0000 20 0030 01 01 0430
reply CC0121 7FF000000002 7FF000000001 16 00 00 0000 21 0030 09 000200010000000000 0442
wrong: not the last message again
send CC0119 7FF000000001 7FF000000002 17 01 00 0000 20 0020 01 01 0421
reply CC011A 7FF000000002 7FF000000001 17 02 00 0000 21 0020 02 0006 042A
open: it depends on what the device keeps
send CC0119 7FF000000001 7FF000000002 18 01 00 0000 20 0030 01 04 0435
reply CC0118 7FF000000002 7FF000000001 18 00 00 0000 21 0030 00 042F
right
send CC0119 7FF000000001 7FF000000002 19 01 00 0000 20 0020 01 01 0423
reply CC0118 7FF000000002 7FF000000001 19 00 00 0000 21 0030 00 0430
right
send CC0119 7FF000000001 7FF000000002 1A 01 00 0000 20 0020 01 01 0424
reply CC0119 7FF000000002 7FF000000001 1A 00 00 0000 21 0082 01 43 04C8
wrong: not the last message again
// Three messages wait. One fewer may wait after each QUEUED_MESSAGE, lost or not, and none fewer after anything else.
send CC0118 7FF000000001 7FF000000002 1B 01 00 0000 20 1000 00 0412
reply CC0119 7FF000000002 7FF000000001 1B 00 03 0000 21 1000 01 00 0417
open: it depends on what the device keeps
send CC0119 7FF000000001 7FF000000002 1C 01 00 0000 20 0020 01 04 0429
reply none
open: no reply was received
send CC0118 7FF000000001 7FF000000002 1D 01 00 0000 20 1000 00 0414
reply CC0119 7FF000000002 7FF000000001 1D 00 02 0000 21 1000 01 00 0418
open: it depends on what the device keeps
send CC0118 7FF000000001 7FF000000002 1E 01 00 0000 20 1000 00 0415
reply CC0119 7FF000000002 7FF000000001 1E 00 01 0000 21 1000 01 00 0418
wrong: too few messages wait
send CC0118 7FF000000001 7FF000000002 1F 01 00 0000 20 1000 00 0416
reply CC0119 7FF000000002 7FF000000001 1F 00 00 0000 21 1000 01 00 0418
wrong: too few messages wait
send CC0118 7FF000000001 7FF000000002 20 01 00 0000 20 1000 00 0417
reply CC0119 7FF000000002 7FF000000001 20 00 FF 0000 21 1000 01 00 0518
open: it depends on what the device keeps
send CC0119 7FF000000001 7FF000000002 21 01 00 0000 20 0020 01 04 042E
reply CC0119 7FF000000002 7FF000000001 21 00 FE 0000 21 0082 01 44 05CE
open: it depends on what the device keeps
send CC0119 7FF000000001 7FF000000002 22 01 00 0000 20 0020 01 01 042C
reply CC0119 7FF000000002 7FF000000001 22 00 FD 0000 21 0082 01 44 05CE
wrong: too few messages wait
send CC0119 7FF000000001 7FF000000002 23 01 00 0000 20 0020 01 04 0430
reply CC0119 7FF000000002 7FF000000001 23 00 FC 0000 21 0082 01 45 05CF
open: it depends on what the device keeps
send CC0119 7FF000000001 7FF000000002 24 01 00 0000 30 1000 01 00 042D
reply CC0118 7FF000000002 7FF000000001 24 00 FB 0000 31 1000 00 0526
wrong: too few messages wait
";

#[test]
fn replies_are_judged(rt: HostRuntime) {
    let mut twin = responder_with(&rt, rt.alloc(), 1, 8);
    judges(&rt, rt.alloc(), &mut twin, &mut None, ROWS);
}

#[test]
fn captures_are_judged(rt: HostRuntime) {
    let mut twin = responder_with(&rt, rt.alloc(), 1, 8);
    judges(&rt, rt.alloc(), &mut twin, &mut Some(Seen::new()), CAPTURE);
}

/// Each row is judged as it says, after what was seen, if that counts.
fn judges(
    rt: &impl Abort,
    alloc: Global,
    twin: &mut Responder,
    seen: &mut Option<Seen>,
    rows: &str,
) {
    let (_, rows) = rows.split_once("\nsend ").expect(rt, "rows");
    for row in rows.split("\nsend ") {
        judges_row(rt, alloc, twin, seen, row);
    }
}

/// A row is judged as it says.
fn judges_row(
    rt: &impl Abort,
    alloc: Global,
    twin: &mut Responder,
    seen: &mut Option<Seen>,
    row: &str,
) {
    let (request, rest) = row.split_once("\nreply ").expect(rt, row);
    let (reply, rest) = rest.split_once('\n').expect(rt, row);
    let (expected, _) = rest.split_once('\n').unwrap_or((rest, ""));
    let told = judged(rt, twin, seen, request, reply);
    let words = words_of(rt, alloc, told);
    assert!(rt; words.as_str() == expected, "{row} is {words}");
}

/// What is said of a reply to a request.
fn judged(
    rt: &impl Abort,
    twin: &mut Responder,
    seen: &mut Option<Seen>,
    request: &str,
    reply: &str,
) -> Verdict {
    let request = printed(rt, request);
    let wire = printed(rt, if reply == "none" { "" } else { reply });
    let heard = if reply == "none" {
        None
    } else {
        Some(wire.as_slice())
    };
    match seen {
        Some(seen) => seen.judge(twin, request.as_slice(), heard).verdict,
        None => judge(twin, request.as_slice(), heard).verdict,
    }
}

/// The words for it.
fn words_of(rt: &impl Abort, alloc: Global, verdict: Verdict) -> String {
    let words = match verdict {
        Verdict::Right => format!(in alloc; "right"),
        Verdict::Wrong(rule) => format!(in alloc; "wrong: {rule}"),
        Verdict::Open(doubt) => format!(in alloc; "open: {doubt}"),
    };
    words.expect(rt, "memory")
}
