//! The scalar rows of the table.

use super::fitting::plays_on;
use super::*;

pub(super) const RUNS: &[Run] = &[(0, UNKNOWN)];

/// Each row: what it shows at the start.
const SHOWN: &str = "
get 0000 0033 = ack 02
get 0000 00B0 = ack 'en'
get 0000 00C1 = ack 00 00 00 01
get 0000 00F0 = ack 00 01
get 0000 0400 = ack 00 00 00 00
get 0000 0401 = ack 00 00 00 00
get 0000 0402 = ack 00 00 00 00
get 0000 0403 = ack 00
get 0000 0404 = ack 00
get 0000 0405 = ack 00 00 00 00
get 0000 0500 = ack 00
get 0000 0501 = ack FF
get 0000 0600 = ack 00
get 0000 0601 = ack 00
get 0000 0602 = ack 00
get 0000 1000 = ack 00
get 0000 1010 = ack FF
get 0000 1020 = ack 00
get 0000 1031 = ack 00 00 00
";

/// The same rows, and why a SET of another length is refused.
const ROWS: &str = "<pid> | <reason>
0033 | format error
00B0 | format error
00C1 | unsupported command class
00F0 | format error
0400 | format error
0401 | format error
0402 | format error
0403 | format error
0404 | format error
0405 | format error
0500 | format error
0501 | format error
0600 | format error
0601 | format error
0602 | format error
1000 | format error
1010 | format error
1020 | format error
1031 | format error";

/// A GET of a row has no data, and there are no sub-devices.
const IS_SHOWN_WITHOUT_DATA: &str = "
get 0000 <pid> 00 = nack format error
get 0001 <pid> = nack sub-device out of range
get FFFF <pid> = nack sub-device out of range
";

#[test]
fn every_row_shows_its_first_value(rt: HostRuntime) {
    let mut devices = demo(&rt, rt.alloc(), 0);
    plays(&rt, &mut devices, SHOWN);
    plays_each(&rt, rt.alloc(), &mut devices, ROWS, IS_SHOWN_WITHOUT_DATA);
}

/// A row that takes a value: the least and the greatest.
const ENDS: &str = "<pid> | <least> | <greatest>
0033 | 00 | 04
00B0 | 'en' | 'de'
00F0 | 00 01 | 02 00
0400 | 00 00 00 00 | FF FF FF FF
0401 | 00 00 00 00 | FF FF FF FF
0402 | 00 00 00 00 | FF FF FF FF
0404 | 00 | 03
0405 | 00 00 00 00 | FF FF FF FF
0500 | 00 | 02
0501 | 00 | FF
0600 | 00 | 01
0601 | 00 | 01
0602 | 00 | 01
1000 | 00 | 01
1031 | 00 00 00 | 00 04 FF";

/// A row takes the ends of its range.
const TAKES_ENDS: &str = "
set 0000 <pid> <least> = ack
get 0000 <pid> = ack <least>
set 0000 <pid> <greatest> = ack
get 0000 <pid> = ack <greatest>
set 0001 <pid> <greatest> = nack sub-device out of range
set FFFF <pid> <greatest> = nack sub-device out of range
";

/// No SET changed what another row shows.
const SHOWS_GREATEST: &str = "get 0000 <pid> = ack <greatest>";

#[test]
fn every_row_takes_the_ends_of_its_range(rt: HostRuntime) {
    let mut devices = demo(&rt, rt.alloc(), 0);
    plays_each(&rt, rt.alloc(), &mut devices, ENDS, TAKES_ENDS);
    plays_each(&rt, rt.alloc(), &mut devices, ENDS, SHOWS_GREATEST);
}

/// SETs of values that are past the range of a row.
const PAST: &str = "
set 0000 0033 01 = nack data out of range
set 0000 0033 05 = nack data out of range
set 0000 00B0 'eo' = nack data out of range
set 0000 00B0 'em' = nack data out of range
set 0000 00F0 00 00 = nack data out of range
set 0000 00F0 02 01 = nack data out of range
set 0000 0403 04 = nack data out of range
set 0000 0403 FF = nack data out of range
set 0000 0404 04 = nack data out of range
set 0000 0500 03 = nack data out of range
set 0000 0600 02 = nack data out of range
set 0000 0601 02 = nack data out of range
set 0000 0602 02 = nack data out of range
set 0000 1000 02 = nack data out of range
set 0000 1010 03 = nack data out of range
set 0000 1010 FE = nack data out of range
set 0000 1020 03 = nack data out of range
set 0000 1020 FE = nack data out of range
set 0000 1031 00 05 80 = nack data out of range
set 0000 1031 FF FE 00 = nack data out of range
set 0000 1031 01 00 00 = nack data out of range
";

/// SETs of another length than the row's.
const ANOTHER_LENGTH: &str = "
set 0000 00B0 'e' = nack format error
set 0000 0400 00 00 00 = nack format error
set 0000 1031 00 05 = nack format error
";

/// A row takes neither no data nor five bytes.
const HAS_LENGTH: &str = "
set 0000 <pid> = nack <reason>
set 0000 <pid> EE EE EE EE EE = nack <reason>
";

#[test]
fn every_row_refuses_another_length(rt: HostRuntime) {
    let mut devices = demo(&rt, rt.alloc(), 0);
    plays_each(&rt, rt.alloc(), &mut devices, ROWS, HAS_LENGTH);
    plays(&rt, &mut devices, ANOTHER_LENGTH);
    plays(&rt, &mut devices, SHOWN);
}

/// Parameters that aren't in the table.
const UNKNOWN: &str = "
set 0000 0015 = nack unknown PID
get 0000 0015 = nack unknown PID
get 0001 0015 = nack sub-device out of range
";

/// Slow commands start jobs.
const STARTED: &str = "
set 0000 0403 00 = job 00
set 0000 0403 03 = job 03
set 0000 1010 00 = job 00
set 0000 1010 02 = job 02
set 0000 1010 FF = job FF
set 0000 1020 00 = job 00
set 0000 1020 02 = job 02
set 0000 1020 FF = job FF
";

#[test]
fn neither_refusals_nor_slow_commands_change_a_row(rt: HostRuntime) {
    changes_nothing(&rt, rt.alloc(), PAST);
    changes_nothing(&rt, rt.alloc(), STARTED);
}

/// After these rows each row shows its first value.
fn changes_nothing(rt: &impl Abort, alloc: Global, rows: &str) {
    let mut devices = demo(rt, alloc, 0);
    plays(rt, &mut devices, rows);
    plays(rt, &mut devices, SHOWN);
}

/// Without slots there is no start address.
const NO_SLOTS: &str = "
get 0000 00F0 = ack FF FF
set 0000 00F0 00 01 = nack data out of range
";

#[test]
fn without_slots_there_is_no_start_address(rt: HostRuntime) {
    let blank = &["root bare", "root personality 0"];
    plays_on(&rt, rt.alloc(), blank, NO_SLOTS);
}

/// Without presets there are off and all.
const NO_PRESETS: &str = "
set 0000 1031 00 00 07 = ack
set 0000 1031 FF FF 07 = ack
get 0000 1031 = ack FF FF 07
set 0000 1031 00 01 07 = nack data out of range
";

#[test]
fn without_presets_there_are_off_and_all(rt: HostRuntime) {
    plays_on(&rt, rt.alloc(), &["presets 0"], NO_PRESETS);
}
