//! Values that the firmware of a fixture places.

use super::*;

/// Places each value, and then asks, step by step.
fn places(rt: &impl Abort, alloc: Global, subs: u16, placed: &str, shown: &str) {
    let mut devices = demo(rt, alloc, subs);
    plays(rt, &mut devices, placed);
    plays(rt, &mut devices, shown);
}

/// Values without a SET on the bus of a real fixture, a slow one, and those of a sub-device.
const TAKEN: &str = "
place 0000 0400 00 00 30 39 = ok
place 0000 0405 00 00 00 07 = ok
place 0001 0401 00 01 00 00 = ok
place 0000 0082 = ok
place 0001 0082 FF FF FF FF FF FF FF FF FF FF FF FF FF FF FF FF FF FF FF FF FF FF FF FF FF FF FF FF FF FF FF FF = ok
place 0000 0403 03 = ok
place 0000 1020 FF = ok
place 0002 00F0 02 00 = ok
// No lamp, a lamp that failed, and a state and a mode of the maker's: what no SET may ask for.
place 0001 0403 7F = ok
place 0002 0403 DF = ok
place 0000 0404 80 = ok
place 0002 0404 DF = ok
place 0002 0403 04 = ok
";

const SHOWN: &str = "
get 0000 0400 = ack 00 00 30 39
get 0000 0405 = ack 00 00 00 07
get 0000 0401 = ack 00 00 00 00
get 0001 0401 = ack 00 01 00 00
get 0002 0401 = ack 00 00 00 00
get 0000 0082 = ack
get 0001 0082 = ack FF FF FF FF FF FF FF FF FF FF FF FF FF FF FF FF FF FF FF FF FF FF FF FF FF FF FF FF FF FF FF FF
get 0000 0403 = ack 03
get 0000 1020 = ack 01
get 0002 00F0 = ack 02 00
get 0001 00F0 = ack 00 01
get 0001 0403 = ack 7F
get 0002 0403 = ack 04
get 0000 0404 = ack 80
get 0002 0404 = ack DF
set 0000 0403 04 = nack data out of range
set 0000 0403 80 = nack data out of range
set 0000 0404 80 = nack data out of range
get 0000 0404 = ack 80
";

#[test]
fn what_is_placed_is_shown(rt: HostRuntime) {
    places(&rt, rt.alloc(), 2, TAKEN, SHOWN);
}

/// Each is refused by the first reason that applies.
const REFUSED: &str = "
place 0003 0060 = no device
place FFFF 1000 01 = no device
place 0000 0060 = no value
place 0000 0090 = no value
place 0000 0032 = no value
place 0000 0202 00 = no value
place 0000 8000 00 = no value
place 0001 0400 00 00 00 01 = no value
place 0001 0201 00 00 00 00 00 00 00 00 00 = no value
place 0000 0082 41 41 41 41 41 41 41 41 41 41 41 41 41 41 41 41 41 41 41 41 41 41 41 41 41 41 41 41 41 41 41 41 41 = length
place 0000 0400 00 00 01 = length
place 0000 00F0 00 00 01 = length
place 0000 0403 = length
place 0000 0201 09 09 09 09 09 09 09 09 = length
place 0000 00F0 02 01 = out of range
place 0000 00F0 00 00 = out of range
place 0000 00E0 03 = out of range
place 0000 0403 05 = out of range
place 0000 0403 7E = out of range
place 0000 0403 E0 = out of range
place 0000 0404 04 = out of range
place 0000 0404 7F = out of range
place 0000 0404 E0 = out of range
place 0000 1010 03 = out of range
place 0000 0201 02 00 00 00 00 00 00 00 00 = out of range
place 0000 0201 FF 00 00 00 00 00 00 00 00 = out of range
";

const AS_AT_START: &str = "
get 0000 1000 = ack 00
get 0001 1000 = ack 00
get 0000 00F0 = ack 00 01
get 0000 0403 = ack 00
get 0000 0090 = ack 01
";

#[test]
fn what_does_not_fit_is_refused_by_name(rt: HostRuntime) {
    places(&rt, rt.alloc(), 2, REFUSED, AS_AT_START);
}

/// Present 25, lowest -10, highest 300, recorded -1, at the second sensor; a SET of it records the present value.
const MEASURED: &str = "
place 0000 0201 01 00 19 FF F6 01 2C FF FF = ok
";

/// A GET of each sensor that fails tells what it shows.
const FAILING: &str = "
end get 0000 0201 00 failed = 21 00 00 00 00 00 00 00 00 00
end get 0000 0201 01 failed = 21 01 00 19 FF F6 01 2C FF FF
";

const RESET: &str = "
set 0000 0202 01 = ack
set 0000 0201 01 = ack 01 00 19 00 19 00 19 00 19
";

#[test]
fn a_sensor_shows_what_is_placed(rt: HostRuntime) {
    let mut devices = demo(&rt, rt.alloc(), 0);
    plays(&rt, &mut devices, MEASURED);
    // The response to a GET reads what the sensors show.
    plays(&rt, &mut devices, FAILING);
    plays(&rt, &mut devices, RESET);
}

/// The display is dimmed, and FACTORY_DEFAULTS sets it back.
const DIMMED: &str = "
place 0000 0501 07 = ok
";

const SET_BACK: &str = "
get 0000 0090 = ack 00
set 0000 0090 = ack
get 0000 0501 = ack FF
get 0000 0090 = ack 01
";

/// Factory defaults stay those of the profile.
#[test]
fn a_placed_setting_is_no_factory_default(rt: HostRuntime) {
    places(&rt, rt.alloc(), 0, DIMMED, SET_BACK);
}
