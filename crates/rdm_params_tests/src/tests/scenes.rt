//! PRESET_STATUS: scenes that are programmed, cleared, or can only be read.

use super::fitting::{is_each_made, plays_on};
use super::*;

/// A demonstration device with four scenes, of which the first can only be read.
const RACK: &str = "
subs 1
keeps 1042 both scenes 1 4
";

const STEPS: &str = "
get 0000 1042 00 01 = ack 00 01 00 00 00 00 00 00 02
get 0000 1042 00 02 = ack 00 02 00 00 00 00 00 00 00
get 0000 1042 00 00 = nack data out of range
get 0000 1042 00 05 = nack data out of range
get 0000 1042 FF FF = nack data out of range
get 0000 1042 = nack format error
get 0000 1042 00 01 00 = nack format error
// Up, down and wait time of scene 2, which is then programmed.
set 0000 1042 00 02 00 0A 00 14 00 1E 00 = ack
get 0000 1042 00 02 = ack 00 02 00 0A 00 14 00 1E 01
get 0000 1042 00 03 = ack 00 03 00 00 00 00 00 00 00
// It is cleared, whatever its times.
set 0000 1042 00 02 00 0A 00 14 00 1E 01 = ack
get 0000 1042 00 02 = ack 00 02 00 00 00 00 00 00 00
set 0000 1042 00 02 00 0A 00 14 00 1E 02 = nack data out of range
set 0000 1042 00 01 00 0A 00 14 00 1E 00 = nack write protect
set 0000 1042 00 01 00 0A 00 14 00 1E 01 = nack write protect
set 0000 1042 00 00 00 0A 00 14 00 1E 00 = nack data out of range
set 0000 1042 00 05 00 0A 00 14 00 1E 00 = nack data out of range
set 0000 1042 00 01 00 0A 00 14 00 1E = nack format error
set 0001 1042 00 02 00 0A 00 14 00 1E 00 = nack unknown PID
";

#[test]
fn scenes_are_programmed_and_cleared(rt: HostRuntime) {
    plays_on(&rt, rt.alloc(), &[RACK], STEPS);
}

/// The four scenes, one of which is cleared again; and what has another length, names no scene, or says neither 00 nor 01.
const PLACED: &str = "
place 0000 1042 00 01 00 0A 00 14 00 1E 00 = ok
place 0000 1042 00 02 FF FF 00 05 00 00 00 = ok
place 0000 1042 00 03 00 01 00 02 00 03 00 = ok
place 0000 1042 00 04 00 07 00 08 00 09 00 = ok
place 0000 1042 00 03 00 01 00 02 00 03 01 = ok
place 0000 1042 = length
place 0000 1042 00 04 00 00 00 00 00 00 = length
place 0000 1042 00 04 00 00 00 00 00 00 00 00 = length
place 0000 1042 00 00 00 00 00 00 00 00 00 = out of range
place 0000 1042 00 05 00 00 00 00 00 00 00 = out of range
place 0000 1042 00 04 00 00 00 00 00 00 02 = out of range
// The scene that can only be read stays so, for a SET too.
get 0000 1042 00 01 = ack 00 01 00 0A 00 14 00 1E 02
get 0000 1042 00 02 = ack 00 02 FF FF 00 05 00 00 01
get 0000 1042 00 03 = ack 00 03 00 00 00 00 00 00 00
get 0000 1042 00 04 = ack 00 04 00 07 00 08 00 09 01
set 0000 1042 00 01 00 0A 00 14 00 1E 01 = nack write protect
get 0000 1042 00 01 = ack 00 01 00 0A 00 14 00 1E 02
";

#[test]
fn firmware_places_scenes(rt: HostRuntime) {
    plays_on(&rt, rt.alloc(), &[RACK], PLACED);
}

/// The scene that can only be read is cleared.
const CLEARED: &str = "
place 0000 1042 00 01 00 0A 00 14 00 1E 01 = ok
get 0000 1042 00 01 = ack 00 01 00 00 00 00 00 00 00
set 0000 1042 00 01 00 0A 00 14 00 1E 00 = nack write protect
";

/// Firmware that clears a scene which can only be read says that there is none, and no SET makes one.
#[test]
fn firmware_clears_a_scene_that_can_only_be_read(rt: HostRuntime) {
    plays_on(&rt, rt.alloc(), &[RACK], CLEARED);
}

const LIMITS: &str = "<low> | <high> | <told>
2 | 1 | bad profile
0 | 256 | bad profile
-1 | 1 | bad profile";

#[test]
fn limits_of_scenes_are_numbers_of_scenes(rt: HostRuntime) {
    let scenes = "keeps 1042 both scenes <low> <high>";
    is_each_made(&rt, rt.alloc(), LIMITS, scenes);
}
