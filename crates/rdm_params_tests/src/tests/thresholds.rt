//! CLEAR_STATUS_ID, and which status entries are noted.

use super::devices::answers;
use super::*;

pub(super) const RUNS: &[Run] = &[(1, CLEARING)];

pub(super) fn entry(sub: u16, severity: Severity) -> Entry {
    let (id, v1, v2) = (0x8001, 0, 0);
    Entry {
        sub,
        severity,
        id,
        v1,
        v2,
    }
}

/// Clearing is a SET at the root.
const CLEARING: &str = "
set 0000 0032 = clears
get 0000 0032 = nack unsupported command class
set 0000 0032 00 = nack format error
set 0001 0032 = nack unknown PID
set FFFF 0032 = nack unknown PID
get 0001 0032 = nack unknown PID
";

#[test]
fn clearing_is_answered_without_data(rt: HostRuntime) {
    let clears = [(Set, 0x0032, [].as_slice(), Answer::Clears, [].as_slice())];
    answers(&rt, &mut demo(&rt, rt.alloc(), 1), &clears);
}

/// Thresholds, and whether an advisory, a warning and an error are noted, and that one is cleared.
const THRESHOLDS: &str = "<threshold> | <advisory> | <warning> | <error>
00 | no | no | no
02 | yes | yes | yes
03 | no | yes | yes
04 | no | no | yes";

const NOTES_FROM: &str = "
set 0000 0033 <threshold> = ack
notes 0000 advisory = <advisory>
notes 0000 advisory cleared = <advisory>
notes 0000 warning = <warning>
notes 0000 warning cleared = <warning>
notes 0000 error = <error>
notes 0000 error cleared = <error>
";

#[test]
fn an_entry_is_noted_from_the_threshold_on(rt: HostRuntime) {
    plays_each(
        &rt,
        rt.alloc(),
        &mut demo(&rt, rt.alloc(), 0),
        THRESHOLDS,
        NOTES_FROM,
    );
}

/// Whether a warning is noted of the root and of the sub-devices 1 to 3; it never is of devices that there aren't.
const EACH_ITS_OWN: &str = "
notes 0000 warning = yes
notes 0001 warning = yes
notes 0002 warning = yes
notes 0003 warning = yes
notes 0004 warning = no
notes FFFF warning = no
// The threshold of the sub-devices becomes 4.
set FFFF 0033 04 = ack
get 0000 0033 = ack 02
get 0001 0033 = ack 04
get 0002 0033 = ack 04
get 0003 0033 = ack 04
set FFFF 0033 01 = nack data out of range
notes 0000 warning = yes
notes 0001 warning = no
notes 0002 warning = no
notes 0003 warning = no
notes 0004 warning = no
notes FFFF warning = no
// That of the root becomes 0, and that of the second sub-device 3.
set 0000 0033 00 = ack
set 0002 0033 03 = ack
notes 0000 warning = no
notes 0001 warning = no
notes 0002 warning = yes
notes 0003 warning = no
notes 0004 warning = no
notes FFFF warning = no
";

#[test]
fn each_device_has_its_own_threshold(rt: HostRuntime) {
    plays(&rt, &mut demo(&rt, rt.alloc(), 3), EACH_ITS_OWN);
}
