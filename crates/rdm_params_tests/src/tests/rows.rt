//! The rows of texts, lists, personalities and sensors.

use super::fitting::plays_on;
use super::*;

pub(super) const RUNS: &[Run] = &[
    (2, AT_ROOT),
    (2, AT_SUB),
    (2, TEXTS),
    (1, LABELS),
    (0, PERSONALITIES),
    (0, SENSORS),
];

/// What the root lists as supported, and a sub-device.
pub(super) const AT_ROOT: &str = "
get 0000 0050 = ack 00 20 00 30 00 31 00 32 00 33 00 80 00 81 00 82 00 90 00 A0 00 B0 00 C1 00 C2 00 E0 00 E1 01 20 01 21 01 22 02 \
    00 02 01 02 02 04 00 04 01 04 02 04 03 04 04 04 05 05 00 05 01 06 00 06 01 06 02 10 10 10 20 10 21 10 31
";

const AT_SUB: &str = "
get 0001 0050 = ack 00 33 00 80 00 81 00 82 00 E0 00 E1 04 01 04 02 04 03 04 04 10 10
";

/// What the root of the demo fixture replies, with two sub-devices, and what a sub-device of it replies.
const TEXTS: &str = "
get 0000 0060 = ack 01 00 00 11 01 02 00 00 01 00 00 03 01 02 00 01 00 02 02
get 0000 0080 = ack 'Moving head'
get 0000 0081 = ack 'Prototype'
get 0000 0082 = ack 'Fixture'
get 0000 00A0 = ack 'ende'
get 0000 00C0 = ack '1.0'
get 0000 00C1 = ack 00 00 00 01
get 0000 00C2 = ack 'Boot 1.0'
get 0000 0031 80 01 = ack 'Lamp failed to strike'
get 0000 0031 80 02 = ack 'Self test failed'
get 0000 1021 02 = ack 02 'Motors'
get 0001 0060 = ack 01 00 00 12 01 02 00 00 01 00 00 01 01 01 00 01 00 02 00
get 0001 0080 = ack 'Cell module'
get 0001 0081 = ack 'Prototype'
get 0001 0082 = ack 'Cell'
get 0001 00C0 = ack '1.0'
get 0000 0031 80 03 = nack data out of range
get 0000 1021 00 = nack data out of range
get 0000 1021 03 = nack data out of range
get 0000 0031 80 = nack format error
get 0000 1021 = nack format error
";

/// Parameters of every device that are only read.
const READ: &str = "<pid>
0050
0060
0080
0081
00C0";

/// They have no SET, and their GET no data.
const IS_ONLY_READ: &str = "
set 0000 <pid> = nack unsupported command class
get 0000 <pid> 00 = nack format error
set FFFF <pid> = nack unsupported command class
";

/// Parameters of the root alone that are only read.
const READ_AT_ROOT: &str = "<pid>
0020
0030
0031
00A0
00C2
0120
0121
0122
0200
1021";

/// They have no SET, and their GET no three bytes of data.
const IS_ONLY_READ_AT_ROOT: &str = "
set 0000 <pid> = nack unsupported command class
get 0000 <pid> 00 00 00 = nack format error
get 0001 <pid> = nack unknown PID
set FFFF <pid> = nack unknown PID
";

/// A row without SET, and one without GET.
const ONE_CLASS: &str = "
set 0000 00E1 01 = nack unsupported command class
get 0000 0202 00 = nack unsupported command class
";

#[test]
fn rows_that_are_only_read(rt: HostRuntime) {
    let mut devices = demo(&rt, rt.alloc(), 1);
    plays_each(&rt, rt.alloc(), &mut devices, READ, IS_ONLY_READ);
    plays_each(
        &rt,
        rt.alloc(),
        &mut devices,
        READ_AT_ROOT,
        IS_ONLY_READ_AT_ROOT,
    );
    plays(&rt, &mut devices, ONE_CLASS);
}

/// Labels have up to 32 bytes.
const LABELS: &str = "
set 0000 0082 41 41 41 41 41 41 41 41 41 41 41 41 41 41 41 41 41 41 41 41 41 41 41 41 41 41 41 41 41 41 41 41 = ack
set 0000 0082 41 41 41 41 41 41 41 41 41 41 41 41 41 41 41 41 41 41 41 41 41 41 41 41 41 41 41 41 41 41 41 41 41 = nack format error
get 0000 0082 = ack 41 41 41 41 41 41 41 41 41 41 41 41 41 41 41 41 41 41 41 41 41 41 41 41 41 41 41 41 41 41 41 41
set 0001 0082 FF 00 = ack
get 0001 0082 = ack FF 00
set 0000 0082 = ack
get 0000 0082 = ack
";

/// What the root replies of its slots with its first personality, and with its second.
const PERSONALITIES: &str = "
get 0000 00E0 = ack 01 02
get 0000 0120 = ack 00 00 00 00 01 00 01 00 01 01 00 02 00 01 02
get 0000 0122 = ack 00 00 00 00 01 80 00 02 80
get 0000 0121 00 02 = ack 00 02 'Tilt'
get 0000 00E1 01 = ack 01 00 03 'Basic'
get 0000 00E1 02 = ack 02 00 05 'Fine'
get 0000 0121 00 03 = nack data out of range
get 0000 00E1 00 = nack data out of range
get 0000 00E1 03 = nack data out of range
get 0000 00E1 = nack format error
set 0000 00E0 00 = nack data out of range
set 0000 00E0 03 = nack data out of range
set 0000 00E0 = nack format error
set 0000 00E0 02 = ack
get 0000 00E0 = ack 02 02
get 0000 0121 00 04 = ack 00 04 'Tilt fine'
get 0000 0122 = ack 00 00 00 00 01 80 00 02 80 00 03 00 00 04 00
get 0000 0121 00 05 = nack data out of range
";

/// Sensors that there are, and that there aren't.
const SENSORS: &str = "
get 0000 0200 00 = ack 00 00 01 00 FF EC 00 'x' 00 00 00 'P' 03 'Lamp temperature'
get 0000 0200 02 = nack data out of range
get 0000 0200 FF = nack data out of range
get 0000 0201 02 = nack data out of range
get 0000 0201 FF = nack data out of range
get 0000 0201 = nack format error
get 0000 0201 01 = job 01
set 0000 0201 01 = ack 01 00 00 00 00 00 00 00 00
set 0000 0201 FF = ack FF 00 00 00 00 00 00 00 00
set 0000 0202 00 = ack
set 0000 0202 FF = ack
set 0000 0201 02 = nack data out of range
set 0000 0201 FE = nack data out of range
set 0000 0202 02 = nack data out of range
set 0000 0202 FE = nack data out of range
set 0000 0201 = nack format error
set 0000 0202 = nack format error
set 0001 0201 00 = nack sub-device out of range
set 0001 0202 00 = nack sub-device out of range
";

/// Without sensors there are not all.
const NO_SENSORS: &str = "
set 0000 0201 FF = nack data out of range
set 0000 0202 FF = nack data out of range
";

#[test]
fn without_sensors_there_are_not_all(rt: HostRuntime) {
    plays_on(&rt, rt.alloc(), &["no sensors"], NO_SENSORS);
}

/// What FACTORY_DEFAULTS sets back: each with another value, and with the first.
const SET_BACK: &str = "<pid> | <other> | <first>
0082 | 'x' | 'Fixture'
00B0 | 'de' | 'en'
00E0 | 02 | 01 02
00F0 | 00 02 | 00 01
0404 | 01 | 00
0500 | 01 | 00
0501 | 00 | FF
0600 | 01 | 00
0601 | 01 | 00
0602 | 01 | 00";

/// A parameter is set to another value, and set back to its first one.
const IS_SET_BACK: &str = "
get 0000 0090 = ack 01
set 0000 <pid> <other> = ack
get 0000 0090 = ack 00
set 0000 0090 = ack
get 0000 <pid> = ack <first>
";

/// What it keeps.
const KEPT: &str = "
set 0000 0033 04 = ack
set 0000 0400 00 00 00 07 = ack
set 0000 1000 01 = ack
get 0000 0090 = ack 01
set 0000 0090 = ack
get 0000 0033 = ack 04
get 0000 0400 = ack 00 00 00 07
get 0000 1000 = ack 01
set 0000 0090 00 = nack format error
";

#[test]
fn factory_defaults_are_ten_values(rt: HostRuntime) {
    let mut devices = demo(&rt, rt.alloc(), 0);
    plays_each(&rt, rt.alloc(), &mut devices, SET_BACK, IS_SET_BACK);
    plays(&rt, &mut devices, KEPT);
}
