//! What the dimmer pack is: four dimmers with one thermometer, each dimmer a sub-device too.

ghost use Rattle.std.specs.Prelude.{◌≡◌, ◌≤◌, length};

use rdm_responder::{Personality, Profile, SelfTest, SensorDef, Slot, StatusText, Text, Unit};

/// The profile of the pack. `Responder::new` rejects one that breaks a rule of docs/PARAMETERS.md.
pub(crate) fn dimmer_pack() -> Profile {
    let mut profile = Profile::of(pack(), dimmer(), 4);
    profile.boot = 1;
    profile.boot_text = Text::of(b"Boot 1.0");
    profile.languages.push(u16::from_be_bytes(*b"en"));
    // Each slot dims, and is dark when nothing is received.
    profile.slots.push(Slot::of(0x00, 0x0001, 0, b"Dimmer 1"));
    profile.slots.push(Slot::of(0x00, 0x0001, 0, b"Dimmer 2"));
    profile.slots.push(Slot::of(0x00, 0x0001, 0, b"Dimmer 3"));
    profile.slots.push(Slot::of(0x00, 0x0001, 0, b"Dimmer 4"));
    // A thermometer in degrees Celsius.
    profile.sensors.push(SensorDef {
        kind: 0x00,
        unit: 0x01,
        prefix: 0x00,
        low: -20,
        high: 120,
        normal_low: 0,
        normal_high: 75,
        support: 0x03,
        name: Text::of(b"Heat sink"),
        at_once: false,
    });
    profile.tests.push(SelfTest {
        number: 1,
        name: Text::of(b"Loads"),
    });
    profile.status_texts.push(StatusText {
        id: 0x8001,
        text: Text::of(b"A dimmer has no load"),
    });
    profile
}

/// The root device: it uses four slots, or one for all dimmers together.
fn pack() -> Unit {
    let mut pack = unit(0x0021, b"Dimmer pack");
    pack.label = Text::of(b"Pack");
    pack.personalities.push(Personality::of(4, b"Four dimmers"));
    pack.personalities.push(Personality::of(1, b"All together"));
    pack
}

/// Each sub-device: one dimmer.
fn dimmer() -> Unit {
    let mut dimmer = unit(0x0022, b"Dimmer");
    dimmer.personalities.push(Personality::of(1, b"One dimmer"));
    dimmer
}

/// What the pack and its dimmers have alike.
fn unit(model: u16, model_text: &[u8]) -> Unit
    requires { length model_text.now ≤ 32 }
    ensures { length result.personalities.items ≡ 0 }
{
    let mut unit = Unit::of(model, 0x0501, model_text, b"Example maker");
    unit.software = 0x0001_0002;
    unit.software_text = Text::of(b"1.2");
    unit
}
