//! Personalities that have slots of their own, or those of another one.

use super::fitting::{is_each_made, plays_on};
use super::*;

/// Behind the two personalities of the demonstration device: one with two slots of its own, one with the slots of that one, and one with
/// the slots of the first.
const HEAD: &str = "
subs 1
mode 4 0 'Wide' + 00 0001 00 'Dimmer' + 00 0201 FF 'Red'
mode 1 3 'Narrow'
mode 4 1 'Plain'
";

const STEPS: &str = "
get 0000 00E0 = ack 01 05
get 0000 00E1 02 = ack 02 00 05 'Fine'
get 0000 00E1 03 = ack 03 00 04 'Wide'
get 0000 00E1 05 = ack 05 00 04 'Plain'
get 0000 00E1 06 = nack data out of range
get 0000 0120 = ack 00 00 00 00 01 00 01 00 01 01 00 02 00 01 02
// Two slots of its own are described, of the four that it uses.
set 0000 00E0 03 = ack
get 0000 00E0 = ack 03 05
get 0000 0060 = ack 01 00 00 11 01 02 00 00 01 00 00 04 03 05 00 01 00 01 02
get 0000 0120 = ack 00 00 00 00 01 00 01 00 02 01
get 0000 0121 00 00 = ack 00 00 'Dimmer'
get 0000 0121 00 01 = ack 00 01 'Red'
get 0000 0121 00 02 = nack data out of range
get 0000 0122 = ack 00 00 00 00 01 FF
// The first of the same slots.
set 0000 00E0 04 = ack
get 0000 0120 = ack 00 00 00 00 01
get 0000 0121 00 00 = ack 00 00 'Dimmer'
get 0000 0121 00 01 = nack data out of range
get 0000 0122 = ack 00 00 00
// The first four of the slots that the profile has for all.
set 0000 00E0 05 = ack
get 0000 0120 = ack 00 00 00 00 01 00 01 00 01 01 00 02 00 01 02 00 03 01 00 01
get 0000 0121 00 03 = ack 00 03 'Pan fine'
get 0000 0121 00 04 = nack data out of range
get 0000 0122 = ack 00 00 00 00 01 80 00 02 80 00 03 00
set 0000 00E0 06 = nack data out of range
set 0000 00E0 00 = nack data out of range
turn personality 3 = taken 00E0 03 05
turn personality 6 = refused 00E0 03 05
place 0000 00E0 04 = ok
place 0000 00E0 06 = out of range
get 0000 00E0 = ack 04 05
set 0000 0090 = ack
get 0000 00E0 = ack 01 05
// A sub-device has none of them.
get 0001 00E0 = ack 01 01
get 0001 00E1 02 = nack data out of range
set 0001 00E0 02 = nack data out of range
";

#[test]
fn each_personality_has_its_slots(rt: HostRuntime) {
    plays_on(&rt, rt.alloc(), &[HEAD], STEPS);
}

/// One mode or two, the personalities 3 and 4, and whether a device can be made with them.
const RULES: &str = "<one> | <other> | <told>
mode 512 0 | // | made
mode 513 0 | // | bad profile
mode 4 0 + 00 0001 00 'Dimmer' | // | made
mode 4 1 | // | made
mode 4 2 | // | made
mode 4 2 + 00 0001 00 'Dimmer' | // | bad profile
mode 4 3 | // | bad profile
mode 4 4 | // | bad profile
mode 4 4 | mode 4 0 | made
mode 4 0 | mode 4 3 | made
mode 4 1 | mode 4 3 | bad profile
mode 4 0 | mode 4 255 | bad profile";

#[test]
fn modes_that_break_a_rule_are_refused(rt: HostRuntime) {
    is_each_made(
        &rt,
        rt.alloc(),
        RULES,
        "
<one>
<other>
",
    );
}

#[test]
fn there_can_be_255_personalities(rt: HostRuntime) {
    let mut profile = Profile::demo(0);
    for _ in 0..6 {
        let pushed = profile.root.personalities.try_push(Personality::of(1, b""));
        assert!(&rt; pushed.is_ok());
    }
    let mut particular = Particular::usual();
    for number in 0..247 {
        assert!(&rt; particular.modes.as_slice().len() < 247);
        let mode = Mode {
            personality: Personality::of(number, b"Mode"),
            slots_of: 1,
            slots: SlotList::none(),
        };
        particular
            .modes
            .push(rt.alloc(), mode)
            .expect(&rt, "memory");
    }
    profile.particulars = Particulars::of(rt.alloc(), particular).expect(&rt, "memory");
    plays(
        &rt,
        &mut made(&rt, rt.alloc(), profile),
        "
get 0000 00E1 FF = ack FF 00 F6 'Mode'
set 0000 00E0 FF = ack
get 0000 00E0 = ack FF FF
",
    );
}
