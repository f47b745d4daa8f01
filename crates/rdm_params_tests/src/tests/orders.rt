//! Orders, which have no GET, and COMMS_STATUS, whose SET clears its counts.

use super::fitting::{fitted, is_each_made, plays_on};
use super::*;

/// A demonstration device that counts what it couldn't read, by COMMS_STATUS; is reset by RESET_DEVICE, warm, which is 01, or cold, which is
/// FF; and captures presets.
const RACK: &str = "
subs 1
keeps 0015 clear slots 0 0 00 00 00 00 00 00
resets 1001 set slots 0 0 01 + one 1 1 255
keeps 1030 set slots 0 0 00 01 00 00 00 00 00 00
";

const STEPS: &str = "
get 0000 0015 = ack 00 00 00 00 00 00
set 0000 0015 00 00 00 00 00 00 = nack format error
set 0000 0015 = ack
get 0000 0015 00 = nack format error
get 0000 1001 = nack unsupported command class
set 0000 1001 FF = ack
set 0000 1001 02 = nack data out of range
set 0000 1001 = nack format error
set 0001 1001 01 = nack unknown PID
set 0000 1030 00 02 00 0A 00 0A 00 00 = ack
set 0000 1030 00 02 00 0A 00 0A 00 = nack format error
get 0000 1030 = nack unsupported command class
";

#[test]
fn orders_have_no_get(rt: HostRuntime) {
    plays_on(&rt, rt.alloc(), &[RACK], STEPS);
}

/// RESET_DEVICE says each time that it was set.
const RESET: &str = "
tell 0000 1001 FF = value 0000 1001
own 1001 = FF
";

/// One that isn't in range changes nothing. FACTORY_DEFAULTS sets its data back, and counts none.
const SET_BACK: &str = "
own 1030 = 00 01 00 00 00 00 00 00
own 1000 = none
tell 0000 1001 02 = nothing
tell 0000 0090 = several
own 1001 = 01
get 0000 0090 = ack 01
tell 0000 1001 01 = value 0000 1001
";

#[test]
fn each_order_is_told(rt: HostRuntime) {
    let mut devices = made(&rt, rt.alloc(), fitted(&rt, rt.alloc(), &[RACK]));
    plays(&rt, &mut devices, "own 1001 = 01");
    for _ in 0..300 {
        plays(&rt, &mut devices, RESET);
    }
    plays(&rt, &mut devices, SET_BACK);
}

/// COMMS_STATUS: a SET clears the counts, and once they are zero, changes nothing.
const CLEARED: &str = "
place 0000 0015 00 03 00 01 00 02 = ok
get 0000 0015 = ack 00 03 00 01 00 02
tell 0000 0015 = value 0000 0015
get 0000 0015 = ack 00 00 00 00 00 00
tell 0000 0015 = nothing
";

#[test]
fn counts_are_placed_and_cleared(rt: HostRuntime) {
    plays_on(&rt, rt.alloc(), &[RACK], CLEARED);
}

/// A SET clears counts to zero also where they start with others.
const COUNTED: &str = "
subs 1
keeps 0015 clear slots 0 0 00 03 00 01 00 02
";

const CLEARED_TO_ZERO: &str = "
get 0000 0015 = ack 00 03 00 01 00 02
tell 0000 0015 = value 0000 0015
get 0000 0015 = ack 00 00 00 00 00 00
";

#[test]
fn counts_are_cleared_to_zero(rt: HostRuntime) {
    plays_on(&rt, rt.alloc(), &[COUNTED], CLEARED_TO_ZERO);
}

/// Neither a maker's parameter nor another one of the standards is cleared so, and COMMS_STATUS takes no data.
const OTHERS: &str = "<parameter> | <told>
8001 clear slots 0 0 00 00 00 00 00 00 | bad profile
0440 clear slots 0 0 00 | bad profile
0015 both slots 0 0 00 00 00 00 00 00 | bad profile
0015 clear slots 0 0 00 00 00 00 00 | bad profile
1001 both slots 0 0 00 | bad profile";

#[test]
fn only_the_standards_clear(rt: HostRuntime) {
    is_each_made(&rt, rt.alloc(), OTHERS, "keeps <parameter>");
}
