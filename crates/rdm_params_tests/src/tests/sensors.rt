//! Sensors that don't support each value: they show 0 for it, and RECORD_SENSORS takes those that record.

use super::fitting::plays_on;
use super::*;

/// A demonstration device with five sensors, each with what it supports, which is answered at once.
const FIVE: &str = "
no sensors
sensor 0
sensor 1
sensor 2
sensor 3
sensor 252
";

/// Sensor 0 supports nothing more than the present value, 1 the recorded one, 2 the lowest and the highest, 3 all; the other bits of 4 say
/// nothing.
const STEPS: &str = "
// What the firmware places at each.
place 0000 0201 00 00 19 FF F6 01 2C FF FF = ok
place 0000 0201 01 00 19 FF F6 01 2C FF FF = ok
place 0000 0201 02 00 19 FF F6 01 2C FF FF = ok
place 0000 0201 03 00 19 FF F6 01 2C FF FF = ok
place 0000 0201 04 00 19 FF F6 01 2C FF FF = ok
// What each shows.
get 0000 0201 00 = ack 00 00 19 00 00 00 00 00 00
get 0000 0201 01 = ack 01 00 19 00 00 00 00 FF FF
get 0000 0201 02 = ack 02 00 19 FF F6 01 2C 00 00
get 0000 0201 03 = ack 03 00 19 FF F6 01 2C FF FF
get 0000 0201 04 = ack 04 00 19 00 00 00 00 00 00
set 0000 0202 00 = nack data out of range
set 0000 0202 02 = nack data out of range
set 0000 0202 04 = nack data out of range
set 0000 0202 05 = nack data out of range
set 0000 0202 01 = ack
get 0000 0201 01 = ack 01 00 19 00 00 00 00 00 19
set 0000 0202 FF = ack
get 0000 0201 03 = ack 03 00 19 FF F6 01 2C 00 19
get 0000 0201 00 = ack 00 00 19 00 00 00 00 00 00
// A reset is for every sensor.
set 0000 0201 00 = ack 00 00 19 00 00 00 00 00 00
set 0000 0201 02 = ack 02 00 19 00 19 00 19 00 00
set 0000 0201 03 = ack 03 00 19 00 19 00 19 00 19
";

#[test]
fn a_sensor_shows_0_for_what_it_does_not_support(rt: HostRuntime) {
    plays_on(&rt, rt.alloc(), &[FIVE], STEPS);
}

/// Where none records, all of them don't.
const NONE_RECORDS: &str = "
set 0000 0202 FF = nack data out of range
set 0000 0201 FF = ack FF 00 00 00 00 00 00 00 00
";

#[test]
fn no_sensor_records(rt: HostRuntime) {
    let two = "no sensors\nsensor 0\nsensor 2";
    plays_on(&rt, rt.alloc(), &[two], NONE_RECORDS);
}
