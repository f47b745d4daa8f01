//! Images of another version of the same model.

use super::{
    CHANGED, Fixture, MAKER, OWN_AT_START, changed, has_image, own_parameter, put_front, with_own,
};
use rdm_device::{CommonValues, ParameterDef, Profile, RootValues, Shape};
use rdm_frame::Text;
use rdm_saved::restore;
use rdm_updates::{LeftValue, left, saved_count, saved_value};
use std::alloc::Global;
use std::process::Abort;

/// The next version of the demonstration fixture.
fn next_version(rt: &impl Abort, alloc: Global) -> Fixture {
    let mut profile = Profile::demo(1);
    profile.root.software = 0x0000_0101;
    Fixture::at_start(rt, alloc, profile)
}

/// The image of the values of `changed` in the next version: the software version is one more, and so is the sum.
fn next_changed() -> [u8; 138] {
    let mut image = [0; 138];
    put_front(&mut image, CHANGED);
    image[7] = 0x01;
    image[137] = 0xC6;
    image
}

/// A device, a PID and an index.
type Key = (u16, u16, u16);

/// The key of a value that was left.
fn key_of(left: &LeftValue<'_>) -> Key {
    (left.value.device, left.value.pid, left.value.index)
}

/// How many values of an image another one doesn't have, and the key of the first.
fn lefts(old: &[u8], new: &[u8]) -> (usize, Option<Key>) {
    let first = left(old, new, 0).map(|left| key_of(&left));
    let mut count: usize = 0;
    let mut from = 0;
    for _ in 0..saved_count(old) {
        let Some(left) = left(old, new, from) else {
            return (count, first);
        };
        count = count.saturating_add(1);
        from = left.number.saturating_add(1);
    }
    (count, first)
}

/// What of an image the fixture hasn't taken over.
fn lefts_of(rt: &impl Abort, fixture: &Fixture, old: &[u8]) -> (usize, Option<Key>) {
    let mut image = [0; 256];
    let len = fixture.save_into(&mut image).expect(rt, "room");
    lefts(old, image.get(..len).unwrap_or(&[]))
}

/// The image is restored, and so many values aren't taken over, of which this is the first.
fn takes_but(rt: &impl Abort, fixture: &mut Fixture, old: &[u8], wanted: (usize, Option<Key>)) {
    assert!(rt; fixture.restore(old) == Ok(()));
    assert!(rt; lefts_of(rt, fixture, old) == wanted);
}

#[test]
fn a_new_version_takes_all(rt: HostRuntime) {
    let mut fixture = next_version(&rt, rt.alloc());
    takes_but(&rt, &mut fixture, CHANGED, (0, None));
    has_image(&rt, &fixture, &next_changed());
}

#[test]
fn a_personality_that_is_gone_stays_as_it_is(rt: HostRuntime) {
    let mut profile = Profile::demo(1);
    assert!(rt; profile.root.personalities.pop().is_some());
    let mut fixture = Fixture::at_start(&rt, rt.alloc(), profile);
    takes_but(&rt, &mut fixture, CHANGED, (1, Some((0, 0x00E0, 0))));
    assert!(rt; (fixture.root.personality, fixture.root.start) == (1, 0x0123));
}

#[test]
fn a_language_that_is_gone_stays_as_it_is(rt: HostRuntime) {
    let mut profile = Profile::demo(1);
    profile.root.software = 0x0000_0101;
    assert!(rt; profile.languages.pop().is_some());
    let mut fixture = Fixture::at_start(&rt, rt.alloc(), profile);
    takes_but(&rt, &mut fixture, CHANGED, (1, Some((0, 0x00B0, 0))));
    assert!(rt; (fixture.own.language, fixture.own.power_cycles) == (0x656E, 0x2122_2324));
}

/// The next version of the fixture with this parameter.
fn next_with(rt: &impl Abort, alloc: Global, def: ParameterDef) -> Fixture {
    let mut fixture = with_own(rt, alloc, def);
    fixture.profile.root.software = 0x0000_0101;
    fixture
}

/// The image of the parameter 8001 is restored, and the value of the fixture is then this one.
fn keeps(rt: &impl Abort, fixture: &mut Fixture, value: &[u8]) {
    let told = fixture.restore(OWN_AT_START);
    let kept = fixture.own.added.first();
    let kept = kept.map(|kept| kept.bytes.as_slice());
    assert!(rt; (told, kept) == (Ok(()), Some(value)));
}

/// A parameter of two bytes that starts with 1, and goes up to this number.
fn up_to(high: i64) -> ParameterDef {
    let mut def = own_parameter(0x8001);
    def.start = Text::of(&[0x00, 0x01]);
    def.high = high;
    def
}

#[test]
fn a_value_in_range_is_taken(rt: HostRuntime) {
    keeps(
        &rt,
        &mut next_with(&rt, rt.alloc(), up_to(6000)),
        &[0x15, 0xE0],
    );
    keeps(
        &rt,
        &mut next_with(&rt, rt.alloc(), up_to(5600)),
        &[0x15, 0xE0],
    );
    keeps(
        &rt,
        &mut next_with(&rt, rt.alloc(), up_to(5599)),
        &[0x00, 0x01],
    );
}

#[test]
fn a_value_of_another_type_stays(rt: HostRuntime) {
    let mut def = up_to(8000);
    def.shape = Shape::SignedWord;
    keeps(&rt, &mut next_with(&rt, rt.alloc(), def), &[0x00, 0x01]);
    let mut def = up_to(8000);
    def.pid = 0x8002;
    keeps(&rt, &mut next_with(&rt, rt.alloc(), def), &[0x00, 0x01]);
}

#[test]
fn a_parameter_that_is_gone_is_left(rt: HostRuntime) {
    let mut fixture = next_version(&rt, rt.alloc());
    takes_but(&rt, &mut fixture, OWN_AT_START, (1, Some((0, 0x8001, 0))));
}

#[test]
fn a_new_parameter_starts(rt: HostRuntime) {
    let mut fixture = with_own(&rt, rt.alloc(), own_parameter(0x8001));
    takes_but(&rt, &mut fixture, CHANGED, (0, None));
    let kept = fixture.own.added.first();
    assert!(rt; kept.map(|kept| kept.bytes.as_slice()) == Some([0x15, 0xE0].as_slice()));
}

/// The image's profile left LAMP_STRIKES out.
#[test]
fn a_parameter_that_was_left_out_stays(rt: HostRuntime) {
    let mut fixture = next_with(&rt, rt.alloc(), own_parameter(0x8001));
    fixture.root.lamp_strikes = 7;
    takes_but(&rt, &mut fixture, OWN_AT_START, (1, Some((0, 0x0402, 0))));
    assert!(rt; fixture.root.lamp_strikes == 7);
}

/// The demonstration with one sensor.
fn one_sensor(rt: &impl Abort, alloc: Global) -> Fixture {
    let mut profile = Profile::demo(1);
    assert!(rt; profile.sensors.pop().is_some());
    Fixture::at_start(rt, alloc, profile)
}

/// What the sensor with this number has recorded.
fn recorded(fixture: &Fixture, number: usize) -> Option<i16> {
    let sensor = fixture.own.sensors.get(number);
    sensor.map(|sensor| sensor.recorded)
}

#[test]
fn a_sensor_that_is_gone_is_left(rt: HostRuntime) {
    let mut fixture = one_sensor(&rt, rt.alloc());
    takes_but(&rt, &mut fixture, CHANGED, (1, Some((0, 0x0201, 1))));
    assert!(rt; recorded(&fixture, 0) == Some(-2));
}

#[test]
fn a_new_sensor_stays(rt: HostRuntime) {
    let mut old = one_sensor(&rt, rt.alloc());
    assert!(rt; old.restore(CHANGED) == Ok(()));
    let mut image = [0; 136];
    assert!(rt; old.save_into(&mut image) == Ok(136));
    let mut fixture = changed(&rt, rt.alloc());
    takes_but(&rt, &mut fixture, &image, (0, None));
    assert!(rt; (recorded(&fixture, 0), recorded(&fixture, 1)) == (Some(-2), Some(300)));
}

#[test]
fn sub_devices_of_another_model_stay(rt: HostRuntime) {
    let mut profile = Profile::demo(1);
    profile.sub.model = 0x0013;
    let mut fixture = Fixture::at_start(&rt, rt.alloc(), profile);
    takes_but(&rt, &mut fixture, CHANGED, (5, Some((1, 0x0033, 0))));
    assert!(rt; (fixture.root.start, fixture.subs[0].start) == (0x0123, 1));
}

/// The image is restored in the demonstration with these sub-devices, whose start addresses are then told.
fn restored_to(rt: &impl Abort, alloc: Global, subs: &mut [CommonValues]) {
    let profile = Profile::demo(u16::try_from(subs.len()).unwrap_or(0));
    let mut root = CommonValues::at_start(&profile.root);
    let mut own = RootValues::at_start(alloc, &profile).expect(rt, "memory");
    let told = restore(MAKER, &profile, &mut root, &mut own, subs, CHANGED);
    assert!(rt; (told, root.start) == (Ok(()), 0x0123));
}

#[test]
fn sub_devices_come_and_go(rt: HostRuntime) {
    restored_to(&rt, rt.alloc(), &mut []);
    let cell = Profile::demo(1).sub;
    let mut cells = [CommonValues::at_start(&cell), CommonValues::at_start(&cell)];
    restored_to(&rt, rt.alloc(), &mut cells);
    assert!(rt; (cells[0].start, cells[1].start) == (512, 1));
}

/// The value with this number of an image.
fn has_value(rt: &impl Abort, image: &[u8], number: usize, key: Key, bytes: &[u8]) {
    let value = saved_value(image, number);
    let told = value.map(|value| (value.device, value.pid, value.index, value.bytes));
    let (device, pid, index) = key;
    assert!(rt; told == Some((device, pid, index, bytes)));
}

#[test]
fn values_are_read_one_by_one(rt: HostRuntime) {
    has_value(&rt, CHANGED, 1, (0, 0x0082, 0), b"Left");
    has_value(&rt, CHANGED, 3, (0, 0x00F0, 0), &[0x01, 0x23]);
    has_value(&rt, CHANGED, 8, (0, 0x0400, 0), &[0x11, 0x12, 0x13, 0x14]);
    has_value(&rt, CHANGED, 16, (0, 0x0201, 1), &[0x01, 0x2C]);
    has_value(&rt, CHANGED, 18, (1, 0x0082, 0), b"");
    has_value(&rt, OWN_AT_START, 17, (0, 0x8001, 0), &[0x15, 0xE0]);
    let counts = (saved_count(CHANGED), saved_count(OWN_AT_START));
    assert!(rt; counts == (24, 25));
    assert!(rt; saved_value(CHANGED, 24).is_none());
}

#[test]
fn bytes_that_are_no_image_have_no_values(rt: HostRuntime) {
    let cut = CHANGED.get(..137).unwrap_or(&[]);
    assert!(rt; (saved_count(cut), saved_value(cut, 0).is_none()) == (0, true));
    assert!(rt; (saved_count(&[]), saved_value(&[], 0).is_none()) == (0, true));
}
