//! Parameters of E1.37-1, by what is known of the fixture: numbers in slots, choices, and what is chosen.

use super::{FIXTURE, is_described, try_rows};
use rdm_device::{
    ChoiceName, ChoiceNames, Field, OwnParameters, ParameterDef, Particular, Particulars, Profile,
    Rights, Shape, Width,
};
use rdm_frame::Text;
use rdm_words::Known;
use std::alloc::Global;
use std::process::Abort;

/// A number of so many slots, up to this one, or another one.
fn number(width: Width, high: u32, also: u32) -> Field {
    Field {
        width,
        low: 0,
        high,
        also,
    }
}

/// A parameter with these commands.
fn parameter(pid: u16, rights: Rights, shape: Shape) -> ParameterDef {
    let mut def = ParameterDef::default();
    def.pid = pid;
    def.rights = rights;
    def.shape = shape;
    def
}

/// The name of a thing.
fn named(pid: u16, number: u8, hertz: u32, name: Text) -> ChoiceName {
    ChoiceName {
        pid,
        number,
        hertz,
        name,
    }
}

/// The demonstration fixture with a few of the parameters.
fn rack(rt: &impl Abort, alloc: Global) -> Profile {
    let mut own = OwnParameters::none();
    let mut fail_mode = parameter(0x0141, Rights::Both, Shape::Slots(7));
    let _ = fail_mode.fields.try_push(number(Width::Two, 6, 0));
    let _ = fail_mode.fields.try_push(number(Width::Two, 600, 0xFFFF));
    let _ = fail_mode.fields.try_push(number(Width::Two, 600, 0xFFFF));
    let _ = fail_mode.fields.try_push(number(Width::One, 255, 0));
    fail_mode.start = Text::of(&[0, 0, 0, 0, 0xFF, 0xFF, 0xFF]);
    own.push(alloc, fail_mode).expect(rt, "memory");
    let mut info = parameter(0x0340, Rights::Get, Shape::Slots(11));
    info.start = Text::of(&[0, 1, 0x7F, 0xFF, 0x80, 0, 0xFF, 0xFE, 3, 12, 1]);
    own.push(alloc, info).expect(rt, "memory");
    let mut curve = parameter(0x0343, Rights::Both, Shape::Choice);
    curve.low = 1;
    curve.high = 2;
    curve.start = Text::of(&[1]);
    own.push(alloc, curve).expect(rt, "memory");
    own.push(alloc, parameter(0x0344, Rights::Get, Shape::Names))
        .expect(rt, "memory");
    own.push(alloc, parameter(0x0348, Rights::Get, Shape::Rates))
        .expect(rt, "memory");
    let mut choices = ChoiceNames::none();
    choices
        .push(alloc, named(0x0344, 1, 0, Text::of(b"Linear")))
        .expect(rt, "memory");
    choices
        .push(alloc, named(0x0344, 2, 0, Text::of(b"S curve")))
        .expect(rt, "memory");
    choices
        .push(alloc, named(0x0348, 1, 1000, Text::of(b"1 kHz")))
        .expect(rt, "memory");
    let mut particular = Particular::usual();
    particular.own = own;
    particular.choices = choices;
    let mut profile = Profile::demo(0);
    profile.particulars = Particulars::of(alloc, particular).expect(rt, "memory");
    profile
}

/// A frame, and its words.
const FRAMES: &str = r#"CC011A7FF0000000027FF00000000100000000002103430202030436
7FF0:00000001 answers 7FF0:00000002: ACK, GET response CURVE (0343), root, transaction 0
  value 2 of 3, "S curve"
  data 0203

CC01197FF0000000017FF000000002000100000030034301010440
7FF0:00000002 asks 7FF0:00000001: SET CURVE (0343), root, transaction 0
  value 1, "Linear"
  data 01

CC01197FF0000000017FF000000002000100000030034301030442
7FF0:00000002 asks 7FF0:00000001: SET CURVE (0343), root, transaction 0
  value 3
  data 03

CC011B7FF0000000017FF0000000020001000000300343030102030449
7FF0:00000002 asks 7FF0:00000001: SET CURVE (0343), root, transaction 0
  data 010203

CC01197FF0000000017FF000000002000100000020034401020432
7FF0:00000002 asks 7FF0:00000001: GET CURVE_DESCRIPTION (0344), root, transaction 0
  number 2
  data 02

CC01207FF0000000027FF000000001000000000021034408025320637572766506D8
7FF0:00000001 answers 7FF0:00000002: ACK, GET response CURVE_DESCRIPTION (0344), root, transaction 0
  number 2: "S curve"
  data 0253206375727665

CC01197FF0000000027FF000000001000000000021034401020432
7FF0:00000001 answers 7FF0:00000002: ACK, GET response CURVE_DESCRIPTION (0344), root, transaction 0
  number 2: ""
  data 02

CC01227FF0000000027FF00000000100000000002103480A01000003E831206B487A06B0
7FF0:00000001 answers 7FF0:00000002: ACK, GET response MODULATION_FREQUENCY_DESCRIPTION (0348), root, transaction 0
  number 1: "1 kHz", 1000 Hz
  data 01000003E831206B487A

CC011A7FF0000000027FF00000000100000000002103480201000437
7FF0:00000001 answers 7FF0:00000002: ACK, GET response MODULATION_FREQUENCY_DESCRIPTION (0348), root, transaction 0
  data 0100

CC011F7FF0000000017FF0000000020001000000300141070001012CFFFF8006F3
7FF0:00000002 asks 7FF0:00000001: SET DMX_FAIL_MODE (0141), root, transaction 0
  scene 1, delay 30.0 s, hold time without end, level 128
  data 0001012CFFFF80

CC011E7FF0000000017FF0000000020001000000300141060001012CFFFF0671
7FF0:00000002 asks 7FF0:00000001: SET DMX_FAIL_MODE (0141), root, transaction 0
  6 data slots where 0141 has 7
  data 0001012CFFFF

CC01237FF0000000027FF00000000100000000002103400B00017FFF8000FFFE030C01084C
7FF0:00000001 answers 7FF0:00000002: ACK, GET response DIMMER_INFO (0340), root, transaction 0
  minimum level 1 to 32767, maximum level 32768 to 65534, curves 3, bits 12, split levels yes (01)
  data 00017FFF8000FFFE030C01"#;

/// What is said of the fixture itself, behind its boot software.
const ADDED: &str = r#"
  parameter 0141: "", 7 slots (0 to 6; 0 to 600 or 65535; 0 to 600 or 65535; 0 to 255), GET and SET, default 00000000FFFFFF
  parameter 0340: "", 11 slots, GET, default 00017FFF8000FFFE030C01
  parameter 0343: "", number of a choice, GET and SET, 1 to 2, default 1
  parameter 0344: "", names of a choice, GET
  parameter 0348: "", names and frequencies of a choice, GET
  number 1 in 0344: "Linear"
  number 2 in 0344: "S curve"
  number 1 in 0348: "1 kHz", 1000 Hz
no sub-devices
"#;

#[test]
fn numbers_and_choices_have_their_words(rt: HostRuntime) {
    let profile = rack(&rt, rt.alloc());
    let known = Known::of(FIXTURE, &profile);
    try_rows(&rt, rt.alloc(), &known, "", FRAMES);
    is_described(&rt, rt.alloc(), &profile, ADDED);
}
