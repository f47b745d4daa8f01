//! A fixture with parameters of its maker's own, which lacks some of the table's.

use super::fitting::plays_on;
use super::*;

/// A demonstration device with five parameters of its own, one of which is in E1.37-1, and without four of the table's.
const WASH: &str = "
subs 1
keeps 1040 both byte 0 1 00
resets 8001 both word 2000 8000 15 E0 : 1C 11 'Colour temperature'
keeps 8002 get long 0 9 00 00 00 07
keeps 8010 both signed-byte -20 20 FF
keeps 8020 set text 0 0 'Show'
lacks 0402
lacks 0600
lacks 0601
lacks 0602
";

const STEPS: &str = "
get 0000 8001 = ack 15 E0
set 0000 8001 0F A0 = ack
get 0000 8001 = ack 0F A0
set 0000 8001 07 CF = nack data out of range
set 0000 8001 1F 41 = nack data out of range
set 0000 8001 1F = nack format error
get 0000 8001 00 = nack format error
get 0000 8001 = ack 0F A0
get 0000 8002 = ack 00 00 00 07
set 0000 8002 00 00 00 01 = nack unsupported command class
get 0000 8010 = ack FF
set 0000 8010 EC = ack
set 0000 8010 EB = nack data out of range
set 0000 8010 15 = nack data out of range
get 0000 8010 = ack EC
set 0000 8020 = ack
get 0000 8020 = nack unsupported command class
set 0000 8020 'TTTTTTTTTTTTTTTTTTTTTTTTTTTTTTTTT' = nack format error
set 0000 1040 01 = ack
get 0000 1040 = ack 01
// The root alone has them.
get 0001 8001 = nack unknown PID
set 0001 8001 0F A0 = nack unknown PID
set FFFF 8001 0F A0 = nack unknown PID
get 0002 8001 = nack sub-device out of range
get 0000 8003 = nack unknown PID
set 0000 8003 01 = nack unknown PID
// PARAMETER_DESCRIPTION.
get 0000 0051 80 01 = ack 80 01 02 05 03 00 1C 11 00 00 07 D0 00 00 1F 40 00 00 15 E0 'Colour temperature'
get 0000 0051 80 10 = ack 80 10 01 04 03 00 00 00 00 00 00 EC 00 00 00 14 00 00 00 FF
get 0000 0051 80 20 = ack 80 20 20 02 02 00 00 00 00 00 00 00 00 00 00 00 00 00 00 00
get 0000 0051 80 03 = nack data out of range
get 0000 0051 10 40 = nack data out of range
get 0000 0051 80 = nack format error
set 0000 0051 80 01 = nack unsupported command class
get 0001 0051 80 01 = nack unknown PID
// What the fixture lacks.
get 0000 0402 = nack unknown PID
set 0000 0600 01 = nack unknown PID
get 0001 0402 = nack unknown PID
set FFFF 0402 00 00 00 01 = nack unknown PID
get 0000 0401 = ack 00 00 00 00
get 0000 0050 = ack 00 20 00 30 00 31 00 32 00 33 00 80 00 81 00 82 00 90 00 A0 00 B0 00 C1 00 C2 00 E0 00 E1 01 20 01 21 01 22 02 \
    00 02 01 02 02 04 00 04 01 04 03 04 04 04 05 05 00 05 01 10 10 10 20 10 21 10 31 10 40 80 01 80 02 80 10 80 20
get 0001 0050 = ack 00 33 00 80 00 81 00 82 00 E0 00 E1 04 01 04 03 04 04 10 10
get 0000 0050 00 = nack format error
";

#[test]
fn a_fixture_has_the_parameters_that_it_has(rt: HostRuntime) {
    plays_on(&rt, rt.alloc(), &[WASH], STEPS);
}

/// The demonstration has no description.
pub(super) const RUNS: &[Run] = &[(0, NO_DESCRIPTION)];

const NO_DESCRIPTION: &str = "
get 0000 0051 80 01 = nack unknown PID
";

/// The trim isn't set back, and the colour temperature is.
const DEFAULTS: &str = "
get 0000 0090 = ack 01
set 0000 8010 03 = ack
get 0000 0090 = ack 01
set 0000 8001 0F A0 = ack
get 0000 0090 = ack 00
set 0000 0090 = ack
get 0000 8001 = ack 15 E0
get 0000 8010 = ack 03
get 0000 0090 = ack 01
";

#[test]
fn factory_defaults_set_back_what_says_so(rt: HostRuntime) {
    plays_on(&rt, rt.alloc(), &[WASH], DEFAULTS);
}

/// What firmware places at the fixture: the sub-device, the PID, the data, and why it is refused.
const PLACED: &str = "
// One without SET, and one without GET.
place 0000 8002 00 00 00 09 = ok
place 0000 8020 'Encore' = ok
place 0000 8001 1F 40 = ok
place 0000 8002 00 00 00 0A = out of range
place 0000 8001 1F = length
place 0001 8001 1F 40 = no value
place 0002 8001 1F 40 = no device
place 0000 0051 80 01 = no value
// What the fixture lacks.
place 0000 0402 00 00 00 01 = no value
get 0000 8002 = ack 00 00 00 09
get 0000 8001 = ack 1F 40
get 0000 0090 = ack 00
";

#[test]
fn what_is_placed_of_its_own_is_shown(rt: HostRuntime) {
    plays_on(&rt, rt.alloc(), &[WASH], PLACED);
}
