//! DMX_BLOCK_ADDRESS: where the slots of all sub-devices lie.

use super::fitting::{is_each_made, plays_on};
use super::*;

/// A dimmer whose sub-devices have personalities that use one slot, two slots and none, and that tells where the slots of all of them lie.
const RACK: &str = "
keeps 0140 both block 0 0
cells bare
cells personality 1
cells personality 2
cells personality 0
";

/// What it also has where it starts in the only state of a lock.
const LOCK: &str = "
keeps 0640 both pin 0 9999 00 00
keeps 0641 both lock 0 1 01
keeps 0642 get names 0 0
name 0642 1 0 'Locked'
";

const STEPS: &str = "
// All start at 1, and so don't follow one another.
get 0000 0140 = ack 00 03 FF FF
set 0000 0140 00 0A = ack
get 0000 0140 = ack 00 03 00 0A
get 0000 00F0 = ack 00 01
get 0001 00F0 = ack 00 0A
get 0002 00F0 = ack 00 0B
get 0003 00F0 = ack 00 0C
// The last slot is 512 at most.
set 0000 0140 01 FE = ack
get 0003 00F0 = ack 02 00
get 0000 0140 = ack 00 03 01 FE
set 0000 0140 01 FF = nack data out of range
set 0000 0140 02 01 = nack data out of range
set 0000 0140 FF FF = nack data out of range
set 0000 0140 00 00 = nack data out of range
get 0000 0140 = ack 00 03 01 FE
// Other lengths.
set 0000 0140 = nack format error
set 0000 0140 01 = nack format error
set 0000 0140 00 01 00 = nack format error
get 0000 0140 00 = nack format error
// It is the root's.
get 0001 0140 = nack unknown PID
set 0001 0140 00 01 = nack unknown PID
get 0004 0140 = nack sub-device out of range
set 0004 0140 00 01 = nack sub-device out of range
get FFFF 0140 = nack sub-device out of range
set FFFF 0140 00 01 = nack unknown PID
// The second uses two slots: the third starts too early for it, and then behind it.
set 0000 0140 00 64 = ack
set 0002 00E0 02 = ack
get 0000 0140 = ack 00 04 FF FF
set 0003 00F0 00 67 = ack
get 0000 0140 = ack 00 04 00 64
set 0003 00F0 00 68 = ack
get 0000 0140 = ack 00 04 FF FF
// The first uses none, and keeps its start address.
set 0001 00E0 03 = ack
set 0000 0140 00 07 = ack
get 0000 0140 = ack 00 03 00 07
get 0002 00F0 = ack 00 07
get 0003 00F0 = ack 00 09
set 0001 00E0 01 = ack
get 0001 00F0 = ack 00 64
// None uses any.
set FFFF 00E0 03 = ack
get 0000 0140 = ack 00 00 FF FF
set 0000 0140 00 01 = nack data out of range
// What the factory set is set back at the root alone.
set 0000 0090 = ack
set 0002 00E0 01 = ack
get 0002 00F0 = ack 00 07
";

#[test]
fn a_block_is_told_and_moved(rt: HostRuntime) {
    plays_on(&rt, rt.alloc(), &["subs 3", RACK], STEPS);
}

const NO_BLOCK: &str = "
get 0000 0140 = ack 00 00 FF FF
set 0000 0140 00 01 = nack data out of range
";

#[test]
fn without_sub_devices_there_is_no_block(rt: HostRuntime) {
    plays_on(&rt, rt.alloc(), &["subs 0", RACK], NO_BLOCK);
}

/// A lock of the block, and one of the start address.
const LOCKED: &str = "
set 0000 0140 00 05 = nack write protect
get 0000 0140 = ack 00 02 FF FF
";

const STARTS_LOCKED: &str = "
set 0001 00F0 00 05 = nack write protect
set 0000 0140 00 05 = nack write protect
get 0000 0140 = ack 00 02 FF FF
// Before its data are looked at, and behind what the device lacks.
set 0000 0140 00 00 = nack write protect
set 0000 0140 05 = nack write protect
set 0001 0140 00 05 = nack unknown PID
set 0004 0140 00 05 = nack sub-device out of range
";

#[test]
fn a_block_is_locked_with_its_start_addresses(rt: HostRuntime) {
    let of_block = &["subs 2", RACK, LOCK, "lock 1 0140"];
    plays_on(&rt, rt.alloc(), of_block, LOCKED);
    let of_start = &["subs 2", RACK, LOCK, "lock 1 00F0"];
    plays_on(&rt, rt.alloc(), of_start, STARTS_LOCKED);
}

/// The sub-devices keep where it begins.
const PLACED: &str = "
place 0000 0140 = no value
place 0000 0140 00 01 = no value
place 0000 0140 00 0A = no value
";

#[test]
fn a_block_can_not_be_placed(rt: HostRuntime) {
    plays_on(&rt, rt.alloc(), &["subs 2", RACK], PLACED);
}

const CHANGED: &str = "
tell 0000 0140 00 01 = several
tell 0000 0140 00 01 = nothing
tell 0000 0140 00 02 = several
tell 0000 0140 00 00 = nothing
";

#[test]
fn a_block_tells_that_several_values_changed(rt: HostRuntime) {
    plays_on(&rt, rt.alloc(), &["subs 2", RACK], CHANGED);
}

/// A block can be read alone. It is no order, has this PID and no data, and is none of the maker's.
const HAD: &str = "<parameter> | <told>
0140 both block 0 0 | made
0140 get block 0 0 | made
0140 set block 0 0 | bad profile
0141 both block 0 0 | bad profile
0140 both word 0 0 00 00 | bad profile
8000 both block 0 0 | bad profile";

const TWO_SUB_DEVICES: &str = "
subs 2
keeps <parameter>
";

#[test]
fn a_block_is_no_order_and_has_no_data(rt: HostRuntime) {
    is_each_made(&rt, rt.alloc(), HAD, TWO_SUB_DEVICES);
}
