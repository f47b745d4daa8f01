//! The profile of a demonstration device.

ghost use Rattle.std.specs.Prelude.{◌≡◌, ◌≤◌, length};
ghost use Rattle.rdm_profile.specs.Profiles.{CanBeMade};
ghost use Rattle.rdm_profile.specs.Demo.{demo, demo_root, demo_sub, demo_sensor, demo_slots, demo_sensors, demo_tests, demo_statuses};

use crate::{
    Particulars, Personality, Profile, SelfTest, SensorDef, Slot, StatusText, Unit, Workers,
};
use arrayvec::ArrayVec;
use rdm_frame::Text;

impl Profile {
    /// A moving head with two personalities and two sensors, and cells as its sub-devices.
    pub fn demo(subs: u16) -> Profile
        ensures profile { result ≡ demo subs }
        ensures made { subs ≤ 512 → CanBeMade result }
    {
        moving_head(subs)
    }
}

#[tactic(auto, unfolding(crate::specs::Demo::demo))]
fn moving_head(subs: u16) -> Profile
    ensures { result ≡ demo subs }
{
    let mut languages = ArrayVec::new();
    languages.push(u16::from_be_bytes(*b"en"));
    languages.push(u16::from_be_bytes(*b"de"));
    Profile {
        root: root(),
        sub: sub(),
        subs,
        presets: 4,
        workers: Workers::usual(),
        boot: 1,
        boot_text: Text::of(b"Boot 1.0"),
        languages,
        slots: slots(),
        sensors: sensors(),
        tests: tests(),
        status_texts: status_texts(),
        particulars: Particulars::usual(),
    }
}

#[tactic(auto, unfolding(crate::specs::Demo::demo_root))]
fn root() -> Unit
    ensures { result ≡ demo_root }
{
    let mut personalities = ArrayVec::new();
    personalities.push(Personality::of(3, b"Basic"));
    personalities.push(Personality::of(5, b"Fine"));
    Unit {
        model: 0x0011,
        category: 0x0102,
        software: 0x0000_0100,
        model_text: Text::of(b"Moving head"),
        maker_text: Text::of(b"Prototype"),
        label: Text::of(b"Fixture"),
        software_text: Text::of(b"1.0"),
        personalities,
        start: 1,
    }
}

#[tactic(auto, unfolding(crate::specs::Demo::demo_sub))]
fn sub() -> Unit
    ensures { result ≡ demo_sub }
{
    let mut personalities = ArrayVec::new();
    personalities.push(Personality::of(1, b"Cell"));
    Unit {
        model: 0x0012,
        category: 0x0102,
        software: 0x0000_0100,
        model_text: Text::of(b"Cell module"),
        maker_text: Text::of(b"Prototype"),
        label: Text::of(b"Cell"),
        software_text: Text::of(b"1.0"),
        personalities,
        start: 1,
    }
}

#[tactic(auto, unfolding(crate::specs::Demo::demo_slots))]
fn slots() -> ArrayVec<Slot, 46>
    ensures { result.items ≡ demo_slots }
{
    let mut slots = ArrayVec::new();
    slots.push(Slot::of(0x00, 0x0001, 0x00, b"Intensity"));
    slots.push(Slot::of(0x00, 0x0101, 0x80, b"Pan"));
    slots.push(Slot::of(0x00, 0x0102, 0x80, b"Tilt"));
    slots.push(Slot::of(0x01, 0x0001, 0x00, b"Pan fine"));
    slots.push(Slot::of(0x01, 0x0002, 0x00, b"Tilt fine"));
    slots
}

#[tactic(auto, unfolding(crate::specs::Demo::demo_sensors))]
fn sensors() -> ArrayVec<SensorDef, 8>
    ensures { result.items ≡ demo_sensors }
{
    let mut sensors = ArrayVec::new();
    sensors.push(thermometer(b"Lamp temperature"));
    sensors.push(thermometer(b"Head temperature"));
    sensors
}

fn thermometer(name: &[u8]) -> SensorDef
    requires { length name.now ≤ 32 }
    ensures { result ≡ demo_sensor name.now }
{
    SensorDef {
        kind: 0x00,
        unit: 0x01,
        prefix: 0x00,
        low: -20,
        high: 120,
        normal_low: 0,
        normal_high: 80,
        support: 0x03,
        at_once: false,
        name: Text::of(name),
    }
}

#[tactic(auto, unfolding(crate::specs::Demo::demo_tests))]
fn tests() -> ArrayVec<SelfTest, 8>
    ensures { result.items ≡ demo_tests }
{
    let mut tests = ArrayVec::new();
    tests.push(SelfTest {
        number: 1,
        name: Text::of(b"Lamp"),
    });
    tests.push(SelfTest {
        number: 2,
        name: Text::of(b"Motors"),
    });
    tests
}

#[tactic(auto, unfolding(crate::specs::Demo::demo_statuses))]
fn status_texts() -> ArrayVec<StatusText, 8>
    ensures { result.items ≡ demo_statuses }
{
    let mut texts = ArrayVec::new();
    texts.push(StatusText {
        id: 0x8001,
        text: Text::of(b"Lamp failed to strike"),
    });
    texts.push(StatusText {
        id: 0x8002,
        text: Text::of(b"Self test failed"),
    });
    texts
}
