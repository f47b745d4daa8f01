//! LOCK_PIN and LOCK_STATE: which parameters a lock keeps from being set, and who may set it.

use super::fitting::{is_each_made, plays_on};
use super::play::filled;
use super::*;

/// A demonstration device with a PIN, in whose state 1 the start address is locked, and in state 2 also the burn in time and one more
/// parameter. It has no DISPLAY_LEVEL.
const RACK: &str = "
subs 1
keeps 0440 both byte 0 255 00
<pin>
keeps 0641 <state> lock 0 2 00
keeps 0642 get names 0 0
name 0642 1 0 'Address'
name 0642 2 0 'Address, hours'
lock 1 00F0
lock 2 00F0
lock 2 0440
lock 2 <locked>
lacks 0501
";

/// Plays rows on it, with the commands of LOCK_STATE, the parameter that is locked in state 2, and the PIN.
fn plays_rack(rt: &impl Abort, alloc: Global, cells: &str, rows: &str) {
    let names = "<state> | <locked> | <pin>";
    plays_on(rt, alloc, &[&filled(rt, alloc, RACK, names, cells)], rows);
}

/// The PIN and the state can be read and set, and LAMP_ON_MODE is locked.
const LAMP_LOCKED: &str = "both | 0404 | keeps 0640 both pin 0 9999 01 B7";

const STEPS: &str = "
get 0000 0640 = ack 01 B7
get 0000 0641 = ack 00 02
get 0000 0642 01 = ack 01 'Address'
get 0000 0642 00 = nack data out of range
get 0000 0642 03 = nack data out of range
// Unlocked.
set 0000 00F0 00 02 = ack
set 0000 0440 01 = ack
// Another PIN, a state that isn't there, and data of another length.
set 0000 0641 01 B8 01 = nack data out of range
set 0000 0641 01 B7 03 = nack data out of range
set 0000 0641 01 = nack format error
get 0000 0641 = ack 00 02
set 0000 0641 01 B7 01 = ack
get 0000 0641 = ack 01 02
set 0000 00F0 00 03 = nack write protect
get 0000 00F0 = ack 00 02
set 0001 00F0 00 03 = nack write protect
set FFFF 00F0 00 03 = nack write protect
set 0000 0440 02 = ack
set 0000 0641 01 B7 02 = ack
set 0000 0440 03 = nack write protect
get 0000 0440 = ack 02
set 0000 0404 01 = nack write protect
// What a job carries out is never locked.
set 0000 0403 01 = job 01
// A new PIN, with another one than that which is kept; one that is none; and the next one.
set 0000 0640 00 07 01 B8 = nack data out of range
set 0000 0640 27 11 01 B7 = nack format error
set 0000 0640 27 0F 01 B7 = ack
get 0000 0640 = ack 27 0F
set 0000 0641 01 B7 00 = nack data out of range
set 0000 0641 27 0F 00 = ack
set 0000 00F0 00 03 = ack
set 0000 0440 03 = ack
set 0000 0641 = nack format error
";

#[test]
fn a_lock_refuses_what_it_locks(rt: HostRuntime) {
    plays_rack(&rt, rt.alloc(), LAMP_LOCKED, STEPS);
}

/// The menu may set what is locked, and the firmware may place it.
const FREE: &str = "
place 0000 0641 02 = ok
set 0000 00F0 00 09 = nack write protect
turn start 9 = taken 00F0 00 09
place 0000 0440 09 = ok
get 0000 00F0 = ack 00 09
";

#[test]
fn the_menu_and_the_firmware_are_not_locked(rt: HostRuntime) {
    plays_rack(&rt, rt.alloc(), LAMP_LOCKED, FREE);
}

/// FACTORY_DEFAULTS passes over what is locked, at the root, and sets it back once it is unlocked. The burn in time isn't set back.
const DEFAULTS: &str = "
set 0000 00F0 00 09 = ack
set 0000 0404 02 = ack
set 0000 0600 01 = ack
set 0000 0641 01 B7 01 = ack
set 0000 0090 = ack
get 0000 00F0 = ack 00 09
get 0000 0404 = ack 00
get 0000 0600 = ack 00
get 0000 0090 = ack 00
set 0000 0404 02 = ack
set 0000 0641 01 B7 02 = ack
set 0000 0090 = ack
get 0000 00F0 = ack 00 09
get 0000 0404 = ack 02
set 0000 0641 01 B7 00 = ack
set 0000 0090 = ack
get 0000 00F0 = ack 00 01
get 0000 0404 = ack 00
get 0000 0090 = ack 01
";

#[test]
fn factory_defaults_leave_what_is_locked(rt: HostRuntime) {
    plays_rack(&rt, rt.alloc(), LAMP_LOCKED, DEFAULTS);
}

/// A colour temperature that FACTORY_DEFAULTS sets back, which starts with 2000, and that is locked in the state that the device starts with.
const WASH: &str = "
subs 1
keeps 0640 both pin 0 9999 00 00
keeps 0641 both lock 0 1 01
keeps 0642 get names 0 0
resets 8001 both word 2000 8000 07 D0
name 0642 1 0 'Locked'
lock 1 8001
";

const OWN_DEFAULTS: &str = "
set 0000 8001 0F A0 = nack write protect
set 0000 0641 00 00 00 = ack
set 0000 8001 0F A0 = ack
set 0000 0641 00 00 01 = ack
set 0000 0090 = ack
get 0000 8001 = ack 0F A0
set 0000 0641 00 00 00 = ack
set 0000 0090 = ack
get 0000 8001 = ack 07 D0
";

#[test]
fn factory_defaults_leave_an_own_parameter_that_is_locked(rt: HostRuntime) {
    plays_on(&rt, rt.alloc(), &[WASH], OWN_DEFAULTS);
}

/// RECORD_SENSORS would write the values of sensors.
const SENSORS: &str = "
set 0000 0202 FF = ack
set 0000 0641 01 B7 02 = ack
set 0000 0201 00 = nack write protect
set 0000 0202 00 = nack write protect
set 0000 0202 = nack write protect
get 0000 0202 = nack unsupported command class
set 0001 0202 00 = nack unknown PID
set 0000 0641 01 B7 00 = ack
set 0000 0202 FF = ack
";

#[test]
fn what_is_locked_is_not_recorded(rt: HostRuntime) {
    let cells = "both | 0201 | keeps 0640 both pin 0 9999 01 B7";
    plays_rack(&rt, rt.alloc(), cells, SENSORS);
}

/// The PIN has a SET alone: each PIN that is accepted opens, and none before it.
const UNREAD: &str = "
get 0000 0640 = nack unsupported command class
set 0000 0641 01 B7 01 = ack
set 0000 00F0 00 02 = nack write protect
set 0000 0640 04 D2 01 B7 = ack
set 0000 0641 01 B7 00 = nack data out of range
set 0000 0641 04 D2 00 = ack
set 0000 00F0 00 02 = ack
set 0000 0640 27 0F 04 D2 = ack
set 0000 0641 27 0F 02 = ack
own 0640 = 27 0F
";

#[test]
fn a_pin_that_cannot_be_read_opens(rt: HostRuntime) {
    let cells = "both | 0404 | keeps 0640 set pin 0 9999 01 B7";
    plays_rack(&rt, rt.alloc(), cells, UNREAD);
}

/// The commands of LOCK_STATE, a parameter that is locked, LOCK_PIN, and whether the profile is good.
const LOCKED: &str = "<state> | <locked> | <pin> | <told>
both | 00E0 | keeps 0640 both pin 0 9999 01 B7 | made
get | 00E0 | keeps 0640 get pin 0 9999 01 B7 | made
both | 00E0 | keeps 0640 set pin 0 9999 01 B7 | made
// Without a PIN, and with a state that can't be read.
both | 00E0 | // | bad profile
set | 00E0 | keeps 0640 both pin 0 9999 01 B7 | bad profile
// A PIN can be locked, since the state opens it, and an own parameter and one without data can.
both | 0640 | keeps 0640 both pin 0 9999 01 B7 | made
both | 0440 | keeps 0640 both pin 0 9999 01 B7 | made
both | 0032 | keeps 0640 both pin 0 9999 01 B7 | made
// The state itself; what a job carries out; what has no SET, of the table and of the maker's own; what isn't there, and what is left out.
both | 0641 | keeps 0640 both pin 0 9999 01 B7 | bad profile
both | 0403 | keeps 0640 both pin 0 9999 01 B7 | bad profile
both | 1010 | keeps 0640 both pin 0 9999 01 B7 | bad profile
both | 1020 | keeps 0640 both pin 0 9999 01 B7 | bad profile
both | 0060 | keeps 0640 both pin 0 9999 01 B7 | bad profile
both | 0642 | keeps 0640 both pin 0 9999 01 B7 | bad profile
both | 0640 | keeps 0640 get pin 0 9999 01 B7 | bad profile
both | 8001 | keeps 0640 both pin 0 9999 01 B7 | bad profile
both | 0501 | keeps 0640 both pin 0 9999 01 B7 | bad profile
both | 0500 | keeps 0640 both pin 0 9999 01 B7 | made";

#[test]
fn locks_that_cannot_be_opened_are_refused(rt: HostRuntime) {
    is_each_made(&rt, rt.alloc(), LOCKED, RACK);
}
