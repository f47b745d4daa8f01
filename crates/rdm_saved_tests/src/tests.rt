//! What no clause says: that the definitions say what is meant. The images are worked out by hand.

mod updates;

use rdm_device::{
    CommonValues, OwnParameters, ParameterDef, Particular, Particulars, Profile, RootValues, Shape,
};
use rdm_frame::Text;
use rdm_saved::{RestoreError, SaveError, restore, save_into};
use std::alloc::Global;
use std::process::Abort;

/// The image of a demonstration fixture of manufacturer 7FF0 with one sub-device as it starts: the manufacturer, what it is of, the root,
/// the values of the root alone, two sensors, the sub-device, and 2022, the sum of all of them.
const AT_START: &[u8] = &[
    0x7F, 0xF0, 0x00, 0x11, 0x00, 0x00, 0x01, 0x00, 0x02, 0x00, 0x12, 0x00, 0x00, 0x01, 0x00, 0x01,
    0x00, 0x01, 0x02, 0x00, 0x00, 0x00, 0x00, 0x02, 0x07, 0x46, 0x69, 0x78, 0x74, 0x75, 0x72, 0x65,
    0x00, 0x00, 0x00, 0x00, 0x00, 0x00, 0x00, 0x00, 0x00, 0x00, 0x00, 0x00, 0x00, 0x00, 0x00, 0x00,
    0x00, 0x00, 0x00, 0x00, 0x00, 0x00, 0x00, 0x00, 0x00, 0x01, 0x00, 0x01, 0x00, 0x00, 0x00, 0x00,
    0x00, 0x00, 0x00, 0x00, 0x00, 0x65, 0x6E, 0x00, 0x00, 0x00, 0x00, 0x00, 0x00, 0x00, 0x00, 0x00,
    0xFF, 0x00, 0x00, 0x00, 0x00, 0x00, 0x00, 0x00, 0x02, 0x04, 0x43, 0x65, 0x6C, 0x6C, 0x00, 0x00,
    0x00, 0x00, 0x00, 0x00, 0x00, 0x00, 0x00, 0x00, 0x00, 0x00, 0x00, 0x00, 0x00, 0x00, 0x00, 0x00,
    0x00, 0x00, 0x00, 0x00, 0x00, 0x00, 0x00, 0x00, 0x00, 0x00, 0x01, 0x00, 0x01, 0x00, 0x00, 0x00,
    0x00, 0x00, 0x00, 0x00, 0x00, 0x00, 0x00, 0x00, 0x07, 0xE6,
];

/// The image of the values of `changed`. Its sum is 3013.
const CHANGED: &[u8] = &[
    0x7F, 0xF0, 0x00, 0x11, 0x00, 0x00, 0x01, 0x00, 0x02, 0x00, 0x12, 0x00, 0x00, 0x01, 0x00, 0x01,
    0x00, 0x01, 0x02, 0x00, 0x00, 0x00, 0x00, 0x04, 0x04, 0x4C, 0x65, 0x66, 0x74, 0x00, 0x00, 0x00,
    0x00, 0x00, 0x00, 0x00, 0x00, 0x00, 0x00, 0x00, 0x00, 0x00, 0x00, 0x00, 0x00, 0x00, 0x00, 0x00,
    0x00, 0x00, 0x00, 0x00, 0x00, 0x00, 0x00, 0x00, 0x00, 0x02, 0x01, 0x23, 0x01, 0x02, 0x03, 0x04,
    0x05, 0x06, 0x07, 0x08, 0x03, 0x64, 0x65, 0x11, 0x12, 0x13, 0x14, 0x21, 0x22, 0x23, 0x24, 0x02,
    0x7F, 0x01, 0x01, 0x01, 0xFF, 0xFE, 0x01, 0x2C, 0x00, 0x00, 0x00, 0x00, 0x00, 0x00, 0x00, 0x00,
    0x00, 0x00, 0x00, 0x00, 0x00, 0x00, 0x00, 0x00, 0x00, 0x00, 0x00, 0x00, 0x00, 0x00, 0x00, 0x00,
    0x00, 0x00, 0x00, 0x00, 0x00, 0x00, 0x00, 0x00, 0x00, 0x00, 0x01, 0x02, 0x00, 0xFF, 0xFF, 0xFF,
    0xFF, 0x00, 0x00, 0x00, 0x00, 0x01, 0x00, 0x00, 0x0B, 0xC5,
];

/// The manufacturer ID of all fixtures here: that of prototypes.
const MAKER: u16 = 0x7FF0;

/// A root device and its sub-device.
#[derive(Drop)]
struct Fixture {
    profile: Profile,
    root: CommonValues,
    own: RootValues,
    subs: [CommonValues; 1],
}

impl Fixture {
    fn at_start(rt: &impl Abort, alloc: Global, profile: Profile) -> Fixture {
        Fixture {
            root: CommonValues::at_start(&profile.root),
            own: RootValues::at_start(alloc, &profile).expect(rt, "memory"),
            subs: [CommonValues::at_start(&profile.sub)],
            profile,
        }
    }

    fn save_into(&self, image: &mut [u8]) -> Result<usize, SaveError> {
        save_into(
            MAKER,
            &self.profile,
            &self.root,
            &self.own,
            self.subs.as_slice(),
            image,
        )
    }

    fn restore(&mut self, image: &[u8]) -> Result<(), RestoreError> {
        restore(
            MAKER,
            &self.profile,
            &mut self.root,
            &mut self.own,
            self.subs.as_mut_slice(),
            image,
        )
    }

    /// The image of the values, in a buffer of its length.
    fn image(&self) -> [u8; 138] {
        let mut image = [0xEE; 138];
        let _ = self.save_into(&mut image);
        image
    }
}

/// A fixture in which every value is another than at the start.
fn changed(rt: &impl Abort, alloc: Global) -> Fixture {
    let mut fixture = Fixture::at_start(rt, alloc, Profile::demo(1));
    let root = &mut fixture.root;
    root.report_threshold = 4;
    root.label = Text::of(b"Left");
    root.personality = 2;
    root.start = 0x0123;
    root.lamp_hours = 0x0102_0304;
    root.lamp_strikes = 0x0506_0708;
    root.lamp_state = 3;
    root.lamp_on_mode = 3;
    root.identify = 1;
    root.power_state = 0;
    let own = &mut fixture.own;
    own.language = 0x6465;
    own.device_hours = 0x1112_1314;
    own.power_cycles = 0x2122_2324;
    own.display_invert = 2;
    own.display_level = 0x7F;
    own.pan_invert = 1;
    own.tilt_invert = 1;
    own.pan_tilt_swap = 1;
    own.self_test = 1;
    own.preset = (2, 3);
    if let Some(sensor) = own.sensors.as_mut_slice().get_mut(0) {
        sensor.present = 5;
        sensor.lowest = -7;
        sensor.highest = 9;
        sensor.recorded = -2;
    }
    if let Some(sensor) = own.sensors.as_mut_slice().get_mut(1) {
        sensor.recorded = 300;
    }
    let sub = &mut fixture.subs[0];
    sub.report_threshold = 0;
    sub.label = Text::of(b"");
    sub.start = 512;
    sub.lamp_hours = 0xFFFF_FFFF;
    sub.lamp_on_mode = 1;
    sub.identify = 1;
    fixture
}

/// The image of a fixture is this one.
fn has_image(rt: &impl Abort, fixture: &Fixture, image: &[u8]) {
    assert!(rt; fixture.image().as_slice() == image);
}

#[test]
fn images_are_those_worked_out(rt: HostRuntime) {
    let at_start = Fixture::at_start(&rt, rt.alloc(), Profile::demo(1));
    has_image(&rt, &at_start, AT_START);
    has_image(&rt, &changed(&rt, rt.alloc()), CHANGED);
}

/// What a buffer holds that held EE before.
fn is_in_front(buffer: &[u8], image: &[u8]) -> bool {
    let rest = buffer.strip_prefix(image);
    rest.is_some_and(|rest| rest.iter().all(|byte| *byte == 0xEE))
}

#[test]
fn an_image_stands_in_front(rt: HostRuntime) {
    let fixture = changed(&rt, rt.alloc());
    let mut longer = [0xEE; 146];
    let saved = fixture.save_into(&mut longer);
    assert!(rt; (saved, is_in_front(&longer, CHANGED)) == (Ok(138), true));
    let mut shorter = [0xEE; 137];
    let saved = fixture.save_into(&mut shorter);
    assert!(rt; (saved, is_in_front(&shorter, &[])) == (Err(SaveError::Short), true));
}

/// An image is restored, and the fixture then has it.
fn restores(rt: &impl Abort, fixture: &mut Fixture, image: &[u8]) {
    assert!(rt; fixture.restore(image) == Ok(()));
    has_image(rt, fixture, image);
}

/// A device has this label and this start address.
fn is_labelled(rt: &impl Abort, device: &CommonValues, label: &[u8], start: u16) {
    assert!(rt; (device.label.as_slice(), device.start) == (label, start));
}

#[test]
fn saved_values_are_restored(rt: HostRuntime) {
    let mut fixture = Fixture::at_start(&rt, rt.alloc(), Profile::demo(1));
    restores(&rt, &mut fixture, CHANGED);
    is_labelled(&rt, &fixture.root, b"Left", 0x0123);
    is_labelled(&rt, &fixture.subs[0], b"", 512);
    are_restored(&rt, &fixture.own);
}

/// The count of power cycles, and what the first sensor recorded, are those that were saved.
fn are_restored(rt: &impl Abort, own: &RootValues) {
    let recorded = own.sensors.first().map(|sensor| sensor.recorded);
    assert!(rt; (own.power_cycles, recorded) == (0x2122_2324, Some(-2)));
}

#[test]
fn values_of_the_moment_stay(rt: HostRuntime) {
    let mut fixture = changed(&rt, rt.alloc());
    restores(&rt, &mut fixture, AT_START);
    root_values_stay(&rt, &fixture.root);
    own_values_stay(&rt, &fixture.own);
    assert!(rt; fixture.subs[0].identify == 1);
}

/// The root identifies itself, and its lamp and power are as they were.
fn root_values_stay(rt: &impl Abort, root: &CommonValues) {
    let shown = (root.lamp_state, root.identify, root.power_state);
    assert!(rt; shown == (3, 1, 0));
}

/// A self test and a preset go on, and the first sensor has measured what it has.
fn own_values_stay(rt: &impl Abort, own: &RootValues) {
    let sensor = own.sensors.first();
    let measured = sensor.map(|sensor| (sensor.present, sensor.lowest, sensor.highest));
    assert!(rt; (own.self_test, own.preset, measured) == (1, (2, 3), Some((5, -7, 9))));
}

#[test]
fn each_cut_and_each_altered_byte_is_refused(rt: HostRuntime) {
    let mut fixture = Fixture::at_start(&rt, rt.alloc(), Profile::demo(1));
    for i in 0..CHANGED.len() {
        let told = (restored_of(&mut fixture, i), restored_with(&mut fixture, i));
        assert!(rt;
            told == (Err(RestoreError::Length), Err(altered_at(i))),
            "{i}"
        );
    }
    has_image(&rt, &fixture, AT_START);
}

/// Why an image is refused in which this byte is another: bytes 16 to 22 say how long it is.
fn altered_at(place: usize) -> RestoreError {
    match place {
        16..=22 => RestoreError::Length,
        _ => RestoreError::Altered,
    }
}

/// What comes of so many bytes of an image.
fn restored_of(fixture: &mut Fixture, count: usize) -> Result<(), RestoreError> {
    fixture.restore(CHANGED.get(..count).unwrap_or(CHANGED))
}

/// What comes of the image with a byte that is altered.
fn restored_with(fixture: &mut Fixture, place: usize) -> Result<(), RestoreError> {
    let mut altered = [0; 138];
    put_front(&mut altered, CHANGED);
    if let Some(byte) = altered.get_mut(place) {
        *byte ^= 0x80;
    }
    fixture.restore(&altered)
}

/// Puts bytes at the front of others, if there is room for them.
fn put_front(out: &mut [u8], bytes: &[u8]) {
    if bytes.len() <= out.len() {
        out[..bytes.len()].copy_from_slice(bytes);
    }
}

#[test]
fn images_of_other_models_are_refused(rt: HostRuntime) {
    let mut profile = Profile::demo(1);
    profile.root.model = 0x0013;
    refuses(&rt, &mut Fixture::at_start(&rt, rt.alloc(), profile));
}

#[test]
fn images_of_other_makers_are_refused(rt: HostRuntime) {
    let mut fixture = Fixture::at_start(&rt, rt.alloc(), Profile::demo(1));
    let told = restore(
        0x7FF1,
        &fixture.profile,
        &mut fixture.root,
        &mut fixture.own,
        fixture.subs.as_mut_slice(),
        CHANGED,
    );
    assert!(rt; told == Err(RestoreError::OfAnother));
    has_image(&rt, &fixture, AT_START);
}

/// The image is of another fixture, and changes nothing.
fn refuses(rt: &impl Abort, fixture: &mut Fixture) {
    let before = fixture.image();
    let told = fixture.restore(CHANGED);
    assert!(rt; told == Err(RestoreError::OfAnother));
    has_image(rt, fixture, &before);
}

/// A parameter of two bytes, up to 8000.
fn own_parameter(pid: u16) -> ParameterDef {
    let mut def = ParameterDef::default();
    def.pid = pid;
    def.shape = Shape::Word;
    def.high = 8000;
    def.start = Text::of(&[0x15, 0xE0]);
    def
}

/// The demonstration's profile with a parameter of its own, and without LAMP_STRIKES.
fn profile_with(rt: &impl Abort, alloc: Global, def: ParameterDef) -> Profile {
    let mut profile = Profile::demo(1);
    let mut own = OwnParameters::none();
    own.push(alloc, def).expect(rt, "memory");
    let mut particular = Particular::usual();
    particular.own = own;
    assert!(rt; particular.without.try_push(0x0402).is_ok());
    profile.particulars = Particulars::of(alloc, particular).expect(rt, "memory");
    profile
}

/// A demonstration fixture with that profile.
fn with_own(rt: &impl Abort, alloc: Global, def: ParameterDef) -> Fixture {
    Fixture::at_start(rt, alloc, profile_with(rt, alloc, def))
}

/// The image of that fixture as it starts is that of the demonstration, with the parameter and what is left out behind the profile, and the
/// value behind the sensors, with its key before it. Its sum is 2543.
const OWN_AT_START: &[u8] = &[
    0x7F, 0xF0, 0x00, 0x11, 0x00, 0x00, 0x01, 0x00, 0x02, 0x00, 0x12, 0x00, 0x00, 0x01, 0x00, 0x01,
    0x00, 0x01, 0x02, 0x01, 0x01, 0x00, 0x01, 0x80, 0x01, 0x05, 0x02, 0x04, 0x02, 0x02, 0x07, 0x46,
    0x69, 0x78, 0x74, 0x75, 0x72, 0x65, 0x00, 0x00, 0x00, 0x00, 0x00, 0x00, 0x00, 0x00, 0x00, 0x00,
    0x00, 0x00, 0x00, 0x00, 0x00, 0x00, 0x00, 0x00, 0x00, 0x00, 0x00, 0x00, 0x00, 0x00, 0x00, 0x01,
    0x00, 0x01, 0x00, 0x00, 0x00, 0x00, 0x00, 0x00, 0x00, 0x00, 0x00, 0x65, 0x6E, 0x00, 0x00, 0x00,
    0x00, 0x00, 0x00, 0x00, 0x00, 0x00, 0xFF, 0x00, 0x00, 0x00, 0x00, 0x00, 0x00, 0x00, 0x80, 0x01,
    0x00, 0x00, 0x02, 0x15, 0xE0, 0x00, 0x00, 0x00, 0x00, 0x00, 0x00, 0x00, 0x00, 0x00, 0x00, 0x00,
    0x00, 0x00, 0x00, 0x00, 0x00, 0x00, 0x00, 0x00, 0x00, 0x00, 0x00, 0x00, 0x00, 0x00, 0x00, 0x00,
    0x00, 0x00, 0x00, 0x02, 0x04, 0x43, 0x65, 0x6C, 0x6C, 0x00, 0x00, 0x00, 0x00, 0x00, 0x00, 0x00,
    0x00, 0x00, 0x00, 0x00, 0x00, 0x00, 0x00, 0x00, 0x00, 0x00, 0x00, 0x00, 0x00, 0x00, 0x00, 0x00,
    0x00, 0x00, 0x00, 0x00, 0x00, 0x01, 0x00, 0x01, 0x00, 0x00, 0x00, 0x00, 0x00, 0x00, 0x00, 0x00,
    0x00, 0x00, 0x00, 0x09, 0xEF,
];

#[test]
fn own_values_are_saved_and_restored(rt: HostRuntime) {
    let mut fixture = with_own(&rt, rt.alloc(), own_parameter(0x8001));
    saves_own(&rt, &fixture);
    if let Some(kept) = fixture.own.added.first_mut() {
        kept.bytes = Text::of(b"123");
    }
    restores_own(&rt, &mut fixture);
}

/// Its image is the one that was worked out.
fn saves_own(rt: &impl Abort, fixture: &Fixture) {
    let mut image = [0xEE; 181];
    let saved = fixture.save_into(&mut image);
    assert!(rt; (saved, image.as_slice()) == (Ok(181), OWN_AT_START));
}

/// The value is then the one that was saved.
fn restores_own(rt: &impl Abort, fixture: &mut Fixture) {
    let told = fixture.restore(OWN_AT_START);
    let kept = fixture.own.added.first();
    let kept = kept.map(|kept| (kept.pid, kept.bytes.as_slice()));
    assert!(rt; (told, kept) == (Ok(()), Some((0x8001, [0x15, 0xE0].as_slice()))));
}
