//! A fixture with choices of E1.37-1: curves, response times and frequencies, and what they are called.

use super::fitting::{is_each_made, is_made, plays_on};
use super::*;

/// A demonstration device with a choice of three curves and of two frequencies, of which the first is chosen.
const DIMMER: &str = "
subs 1
resets 0343 both choice 1 3 01
keeps 0344 get names 0 0
resets 0347 both choice 1 2 01
keeps 0348 get rates 0 0
name 0344 1 0 'Linear'
name 0344 2 0 'Square law'
name 0344 3 0 'S'
name 0348 1 120 '120 Hz'
name 0348 2 10000 '10 kHz'
";

const STEPS: &str = "
// Which one is chosen, of how many.
get 0000 0343 = ack 01 03
set 0000 0343 03 = ack
get 0000 0343 = ack 03 03
set 0000 0343 00 = nack data out of range
set 0000 0343 04 = nack data out of range
set 0000 0343 = nack format error
set 0000 0343 03 03 = nack format error
get 0000 0343 03 = nack format error
get 0000 0347 = ack 01 02
// What they are called.
get 0000 0344 01 = ack 01 'Linear'
get 0000 0344 02 = ack 02 'Square law'
get 0000 0344 03 = ack 03 'S'
get 0000 0344 00 = nack data out of range
get 0000 0344 04 = nack data out of range
get 0000 0344 = nack format error
get 0000 0344 00 01 = nack format error
set 0000 0344 01 = nack unsupported command class
get 0000 0348 01 = ack 01 00 00 00 'x120 Hz'
get 0000 0348 02 = ack 02 00 00 27 10 '10 kHz'
get 0000 0348 03 = nack data out of range
get 0001 0344 01 = nack unknown PID
// FACTORY_DEFAULTS sets the curve back.
get 0000 0090 = ack 00
set 0000 0090 = ack
get 0000 0343 = ack 01 03
";

#[test]
fn choices_are_named(rt: HostRuntime) {
    plays_on(&rt, rt.alloc(), &[DIMMER], STEPS);
}

const PLACED: &str = "
place 0000 0344 = no value
place 0000 0348 = no value
place 0000 0343 02 = ok
get 0000 0343 = ack 02 03
";

/// Names are the profile's, and what is chosen is placed as a value.
#[test]
fn names_of_choices_can_not_be_placed(rt: HostRuntime) {
    plays_on(&rt, rt.alloc(), &[DIMMER], PLACED);
}

/// A choice, what tells the names of its things, the PID of which they are, and whether the profile is good.
const UNNAMED: &str = "<choice> | <teller> | <pid> | <told>
// Nothing tells the names.
resets 0343 both choice 1 3 01 | // | 0344 | bad profile
// There is one too few.
resets 0343 both choice 1 4 01 | keeps 0344 get names 0 0 | 0344 | bad profile
// There is one too many.
resets 0343 both choice 1 2 01 | keeps 0344 get names 0 0 | 0344 | bad profile
// Curves have no frequencies.
resets 0343 both choice 1 3 01 | keeps 0344 get rates 0 0 | 0344 | bad profile
// A maker's own parameter is no choice.
resets 8001 both choice 1 3 01 | keeps 8002 get names 0 0 | 8002 | bad profile";

const THREE_NAMES: &str = "
<choice>
<teller>
name <pid> 1 0 'Linear'
name <pid> 2 0 'Square law'
name <pid> 3 0 'S'
";

/// What tells names, without a choice and without names.
const NO_CHOICE: &str = "keeps 0344 get names 0 0";

#[test]
fn a_choice_has_a_name_for_each(rt: HostRuntime) {
    is_each_made(&rt, rt.alloc(), UNNAMED, THREE_NAMES);
    is_made(&rt, rt.alloc(), NO_CHOICE, "bad profile");
}
