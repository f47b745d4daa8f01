//! Sub-devices, all-call, and the greatest profile.

use super::fitting::fitted;
use super::*;

pub(super) const RUNS: &[Run] = &[(2, OWN_VALUES), (0, NO_SUB_DEVICE), (3, ALL_CALL)];

/// A command to the root, its answer, and the data that stand beside the answer in place of others.
type Answered = (Verb, u16, &'static [u8], Answer, &'static [u8]);

/// Asks the root, each time with other data in the place of a reply's.
pub(super) fn answers(rt: &impl Abort, devices: &mut Devices, rows: &[Answered]) {
    for (verb, pid, bytes, answer, beside) in rows {
        let mut body = Body::of(b"Fixture");
        let told = match verb {
            Get => devices.get_into(0, *pid, bytes, &mut body),
            Set => devices.set_into(0, *pid, bytes, &mut body).0,
        };
        let told = (told, body.as_slice());
        assert!(rt; told == (*answer, *beside), "{verb:?} {pid:04X} {bytes:?}");
    }
}

/// SET LAMP_STATE to on starts a job.
const LAMP_ON: Answer = Answer::Starts {
    work: Work {
        sub: 0,
        pid: 0x0403,
        verb: Set,
        arg: 1,
    },
    worker: 0,
    estimate: 50,
};

const ANSWERED: &[Answered] = &[
    (Set, 0x1000, &[1], Answer::Done, &[]),
    (Get, 0x1000, &[], Answer::Done, &[1]),
    (Get, 0x1000, &[1], Answer::Refused(Nack::FormatError), &[]),
    (Set, 0x0403, &[1], LAMP_ON, &[]),
];

#[test]
fn a_reply_takes_the_place_of_the_last(rt: HostRuntime) {
    answers(&rt, &mut demo(&rt, rt.alloc(), 0), ANSWERED);
    let label = Answer::Done.with(Body::of(b"Fixture"));
    assert!(rt; label == Verdict::Reply(Body::of(b"Fixture")));
    assert!(rt; Answer::Clears.with(Body::new()) == Verdict::Clear);
}

/// Each device has its own values.
const OWN_VALUES: &str = "
set 0002 1000 01 = ack
get 0000 1000 = ack 00
get 0001 1000 = ack 00
get 0002 1000 = ack 01
get 0003 1000 = nack sub-device out of range
get FFFF 1000 = nack sub-device out of range
set 0003 1000 01 = nack sub-device out of range
get 0001 0400 = nack unknown PID
set 0001 0090 = nack unknown PID
";

/// All-call is for every sub-device, and for none where there are none.
const NO_SUB_DEVICE: &str = "
set FFFF 1000 01 = nack sub-device out of range
";

const ALL_CALL: &str = "
set FFFF 1000 01 = ack
get 0000 1000 = ack 00
get 0001 1000 = ack 01
get 0002 1000 = ack 01
get 0003 1000 = ack 01
set FFFF 0403 01 = nack sub-device out of range
set FFFF 0403 09 = nack data out of range
set FFFF 1000 = nack format error
set FFFF 0400 = nack unknown PID
";

/// All-call changes all or none: the third cell has a personality without slots first, and then none has.
const NONE_CHANGES: &str = "
set 0003 00E0 02 = ack
set FFFF 00F0 00 09 = nack data out of range
get 0001 00F0 = ack 00 01
get 0002 00F0 = ack 00 01
get 0003 00F0 = ack FF FF
";

const ALL_CHANGE: &str = "
set FFFF 00E0 01 = ack
set FFFF 00F0 00 09 = ack
get 0003 00F0 = ack 00 09
get 0000 00F0 = ack 00 01
";

/// Three cells, each with a second personality that uses no slots.
const CELLS: &[&str] = &["subs 3", "cells personality 0"];

/// Whether start address 9 is in range for a SET there.
fn takes_9(devices: &Devices, sub: u16) -> bool {
    devices.in_range(sub, Kind::DmxStartAddress, Set, &Value::Word(9))
}

#[test]
fn all_call_changes_all_or_none(rt: HostRuntime) {
    let mut devices = made(&rt, rt.alloc(), fitted(&rt, rt.alloc(), CELLS));
    plays(&rt, &mut devices, NONE_CHANGES);
    assert!(rt; !takes_9(&devices, 0xFFFF) && takes_9(&devices, 1));
    plays(&rt, &mut devices, ALL_CHANGE);
}

/// The longest text.
const LONGEST: [u8; 32] = [b'T'; 32];

fn longest() -> Text {
    Text::of(&LONGEST)
}

/// A profile with as much of everything as there can be.
fn greatest(rt: &impl Abort) -> Profile {
    let mut profile = Profile::demo(512);
    for number in 3..9 {
        add_mode(rt, &mut profile, number);
        add_named(rt, &mut profile, number);
    }
    for _ in 5..46 {
        let mut slot = Slot::default();
        slot.name = longest();
        assert!(rt; profile.slots.try_push(slot).is_ok());
    }
    profile.root.model_text = longest();
    profile.boot_text = longest();
    profile
}

/// Adds a personality and a language.
fn add_mode(rt: &impl Abort, profile: &mut Profile, number: u8) {
    let (name, footprint) = (longest(), 46);
    let personality = Personality { footprint, name };
    let is_added = profile.root.personalities.try_push(personality).is_ok()
        && profile.languages.try_push(0x6161 + number as u16).is_ok();
    assert!(rt; is_added);
}

/// Adds a self test, a status text and a sensor.
fn add_named(rt: &impl Abort, profile: &mut Profile, number: u8) {
    let (id, name, text) = (0x9000 + number as u16, longest(), longest());
    let mut sensor = SensorDef::default();
    sensor.name = longest();
    let is_added = profile.tests.try_push(SelfTest { number, name }).is_ok()
        && profile
            .status_texts
            .try_push(StatusText { id, text })
            .is_ok()
        && profile.sensors.try_push(sensor).is_ok();
    assert!(rt; is_added);
}

/// What the devices of the greatest profile reply, with the last personality.
const GREATEST: &str = "
set 0000 00E0 08 = ack
get 0000 0031 90 08 = ack 'TTTTTTTTTTTTTTTTTTTTTTTTTTTTTTTT'
get 0000 0060 = ack 01 00 00 11 01 02 00 00 01 00 00 2E 08 08 00 01 02 00 08
get 0000 0080 = ack 'TTTTTTTTTTTTTTTTTTTTTTTTTTTTTTTT'
get 0000 00A0 = ack 'endeadaeafagahai'
get 0000 00C2 = ack 'TTTTTTTTTTTTTTTTTTTTTTTTTTTTTTTT'
get 0000 00E1 08 = ack 08 00 '.TTTTTTTTTTTTTTTTTTTTTTTTTTTTTTTT'
get 0000 0120 = ack 00 00 00 00 01 00 01 00 01 01 00 02 00 01 02 00 03 01 00 01 00 04 01 00 02 00 05 00 00 00 00 06 00 00 00 00 07 \
    00 00 00 00 08 00 00 00 00 09 00 00 00 00 0A 00 00 00 00 0B 00 00 00 00 0C 00 00 00 00 0D 00 00 00 00 0E 00 00 00 00 0F 00 00 00 \
    00 10 00 00 00 00 11 00 00 00 00 12 00 00 00 00 13 00 00 00 00 14 00 00 00 00 15 00 00 00 00 16 00 00 00 00 17 00 00 00 00 18 00 \
    00 00 00 19 00 00 00 00 1A 00 00 00 00 1B 00 00 00 00 1C 00 00 00 00 1D 00 00 00 00 1E 00 00 00 00 1F 00 00 00 00 20 00 00 00 00 \
    21 00 00 00 00 22 00 00 00 00 23 00 00 00 00 24 00 00 00 00 25 00 00 00 00 26 00 00 00 00 27 00 00 00 00 28 00 00 00 00 29 00 00 \
    00 00 2A 00 00 00 00 2B 00 00 00 00 2C 00 00 00 00 2D 00 00 00
get 0000 0121 00 2D = ack 00 '-TTTTTTTTTTTTTTTTTTTTTTTTTTTTTTTT'
get 0000 0122 = ack 00 00 00 00 01 80 00 02 80 00 03 00 00 04 00 00 05 00 00 06 00 00 07 00 00 08 00 00 09 00 00 0A 00 00 0B 00 00 \
    0C 00 00 0D 00 00 0E 00 00 0F 00 00 10 00 00 11 00 00 12 00 00 13 00 00 14 00 00 15 00 00 16 00 00 17 00 00 18 00 00 19 00 00 1A \
    00 00 1B 00 00 1C 00 00 1D 00 00 1E 00 00 1F 00 00 20 00 00 21 00 00 22 00 00 23 00 00 24 00 00 25 00 00 26 00 00 27 00 00 28 00 \
    00 29 00 00 2A 00 00 2B 00 00 2C 00 00 2D 00
get 0000 0200 07 = ack 07 00 00 00 00 00 00 00 00 00 00 00 00 'TTTTTTTTTTTTTTTTTTTTTTTTTTTTTTTT'
get 0000 1021 08 = ack 08 'TTTTTTTTTTTTTTTTTTTTTTTTTTTTTTTT'
get 0200 0060 = ack 01 00 00 12 01 02 00 00 01 00 00 01 01 01 00 01 02 00 00
get 0201 0060 = nack sub-device out of range
";

#[test]
fn the_greatest_profile_is_read_whole(rt: HostRuntime) {
    let mut devices = made(&rt, rt.alloc(), greatest(&rt));
    plays(&rt, &mut devices, GREATEST);
    plays(&rt, &mut devices, rows::AT_ROOT);
}
