//! A fixture with parameters of E1.20 and of E1.37-1 that the table lacks, and fields in the slots of parameters.

use super::fitting::{is_each_made, is_made, plays_on};
use super::*;

/// A demonstration device with what a dimmer has of the standards.
///
/// The fields of DMX_FAIL_MODE are one of four scenes, delays of 1 to 25.5 seconds, hold times, both also without end, and a level; those of
/// MINIMUM_LEVEL are levels from 0 to 7FFF; and REAL_TIME_CLOCK begins in 2003. IDENTIFY_MODE is quiet, which is 00, or loud, which is FF.
const DIMMER: &str = "
subs 1
keeps 0070 get slots 0 0 04 03 04 00
resets 0141 both slots 0 0 00 00 00 0A 00 00 00 + two 0 4 0 + two 10 255 65535 + two 0 65280 65535 + one 0 255 0
keeps 0340 get slots 0 0 00 00 7F FF 7F FF FF FF 03 0E 01
keeps 0341 both slots 0 0 00 0A 00 14 01 + two 0 32767 0 + two 0 32767 0 + one 0 1 0
keeps 0603 both slots 0 0 07 EA 01 01 00 00 00 + two 2003 65535 2003 + one 1 12 1 + one 1 31 1 + one 0 23 0 + one 0 59 0 + one 0 60 0
keeps 1040 both slots 0 0 00 + one 0 0 255
";

const STEPS: &str = "
get 0000 0070 = ack 04 03 04 00
set 0000 0070 04 03 = nack unsupported command class
get 0000 0340 = ack 00 00 7F FF 7F FF FF FF 03 0E 01
// Scene, delay, hold time and level.
get 0000 0141 = ack 00 00 00 0A 00 00 00
set 0000 0141 00 04 00 FF FF 00 FF = ack
get 0000 0141 = ack 00 04 00 FF FF 00 FF
set 0000 0141 00 00 FF FF FF FF 00 = ack
set 0000 0141 00 05 00 0A 00 00 00 = nack data out of range
set 0000 0141 00 00 00 09 00 00 00 = nack data out of range
set 0000 0141 00 00 01 00 00 00 00 = nack data out of range
set 0000 0141 00 00 00 0A FF 01 00 = nack data out of range
set 0000 0141 00 00 00 0A 00 00 = nack format error
get 0000 0141 = ack 00 00 FF FF FF FF 00
// Increasing, decreasing, and whether the output is on below.
set 0000 0341 7F FF 00 00 00 = ack
set 0000 0341 80 00 00 00 00 = nack data out of range
set 0000 0341 00 00 80 00 00 = nack data out of range
set 0000 0341 00 00 00 00 02 = nack data out of range
get 0000 0341 = ack 7F FF 00 00 00
// 26 November 2026, 23:59:60.
set 0000 0603 07 EA 0B 1A 17 3B 3C = ack
get 0000 0603 = ack 07 EA 0B 1A 17 3B 3C
set 0000 0603 07 D2 0B 1A 00 00 00 = nack data out of range
set 0000 0603 07 EA 0D 1A 00 00 00 = nack data out of range
set 0000 0603 07 EA 00 1A 00 00 00 = nack data out of range
// Quiet or loud.
set 0000 1040 FF = ack
set 0000 1040 01 = nack data out of range
get 0000 1040 = ack FF
set 0000 1040 00 = ack
// The root alone has them, and they aren't described.
get 0001 0341 = nack unknown PID
get 0000 0051 03 41 = nack unknown PID
get 0000 0342 = nack unknown PID
";

#[test]
fn slots_say_numbers_in_their_ranges(rt: HostRuntime) {
    plays_on(&rt, rt.alloc(), &[DIMMER], STEPS);
}

/// Parameters, and whether a profile can have them.
const MADE: &str = "<parameter> | <told>
// One slot too few, and one too many.
8001 both slots 0 0 00 00 00 + two 0 1 0 | bad profile
8001 both slots 0 0 00 + two 0 1 0 | bad profile
// What one slot can't say, and limits that are upside down.
8001 both slots 0 0 00 + one 0 256 0 | bad profile
8001 both slots 0 0 00 + one 0 1 256 | bad profile
8001 both slots 0 0 02 + one 2 1 2 | bad profile
// It starts out of range.
8001 both slots 0 0 02 + one 0 1 0 | bad profile
// DIMMER_INFO has no SET, and 11 slots.
0340 both slots 0 0 00 00 7F FF 7F FF FF FF 03 0E 01 | bad profile
0340 get slots 0 0 00 00 00 00 00 00 00 00 00 00 00 00 | bad profile
// A list of one to six numbers of two slots.
0070 get slots 0 0 04 | bad profile
0070 get slots 0 0 00 00 00 00 00 00 00 00 00 00 00 00 00 00 | bad profile
// The first number of MINIMUM_LEVEL has two slots.
0341 both slots 0 0 00 00 00 00 00 + one 0 1 0 + two 0 1 0 + two 0 1 0 | bad profile
// Without fields its slots are whatever the maker tells.
0341 both slots 0 0 00 00 00 00 00 | made";

#[test]
fn parameters_of_the_standards_are_as_these_say(rt: HostRuntime) {
    is_each_made(&rt, rt.alloc(), MADE, "keeps <parameter>");
}

/// A number is no slots.
#[test]
fn a_number_has_no_fields(rt: HostRuntime) {
    let number = "keeps 8001 get byte 0 0 00 + one 0 1 0";
    is_made(&rt, rt.alloc(), number, "bad profile");
}
