//! The standards' parameters that a fixture adds: their data by their fields, and what is said of the fixture.

use super::{FIXTURE, is_described, try_rows};
use rdm_device::{
    ChoiceName, ChoiceNames, Lock, Locks, OwnParameters, ParameterDef, Particular, Particulars,
    Profile, Rights, Shape,
};
use rdm_frame::Text;
use rdm_words::Known;
use std::alloc::Global;
use std::process::Abort;

/// A parameter with these commands, with numbers between these.
fn parameter(pid: u16, rights: Rights, shape: Shape, low: i64, high: i64) -> ParameterDef {
    let mut def = ParameterDef::default();
    def.pid = pid;
    def.rights = rights;
    def.shape = shape;
    def.low = low;
    def.high = high;
    def
}

/// The demonstration fixture with orders, counts, scenes and locks.
fn rack(rt: &impl Abort, alloc: Global) -> Profile {
    let mut own = OwnParameters::none();
    let mut counts = parameter(0x0015, Rights::Clear, Shape::Slots(6), 0, 0);
    counts.start = Text::of(&[0; 6]);
    own.push(alloc, counts).expect(rt, "memory");
    own.push(alloc, parameter(0x0140, Rights::Both, Shape::Block, 0, 0))
        .expect(rt, "memory");
    let mut pin = parameter(0x0640, Rights::Both, Shape::Pin, 0, 9999);
    pin.start = Text::of(&[0x01, 0xB7]);
    own.push(alloc, pin).expect(rt, "memory");
    let mut state = parameter(0x0641, Rights::Both, Shape::Lock, 0, 2);
    state.start = Text::of(&[0]);
    own.push(alloc, state).expect(rt, "memory");
    own.push(alloc, parameter(0x0642, Rights::Get, Shape::Names, 0, 0))
        .expect(rt, "memory");
    let mut reset = parameter(0x1001, Rights::Set, Shape::Slots(1), 0, 0);
    reset.start = Text::of(&[1]);
    own.push(alloc, reset).expect(rt, "memory");
    own.push(alloc, parameter(0x1042, Rights::Both, Shape::Scenes, 2, 6))
        .expect(rt, "memory");
    let mut calibrate = parameter(0x8001, Rights::Set, Shape::Byte, 1, 5);
    calibrate.name = Text::of(b"Calibrate");
    calibrate.start = Text::of(&[1]);
    own.push(alloc, calibrate).expect(rt, "memory");
    let mut choices = ChoiceNames::none();
    choices
        .push(alloc, named(1, Text::of(b"Levels")))
        .expect(rt, "memory");
    choices
        .push(alloc, named(2, Text::of(b"Everything")))
        .expect(rt, "memory");
    let mut locks = Locks::none();
    locks.push(alloc, locked(1, 0x00F0)).expect(rt, "memory");
    locks.push(alloc, locked(2, 0x8001)).expect(rt, "memory");
    let mut profile = Profile::demo(0);
    let mut particular = Particular::usual();
    particular.own = own;
    particular.choices = choices;
    particular.locks = locks;
    profile.particulars = Particulars::of(alloc, particular).expect(rt, "memory");
    profile
}

/// What a lock state is called.
fn named(number: u8, name: Text) -> ChoiceName {
    ChoiceName {
        pid: 0x0642,
        number,
        hertz: 0,
        name,
    }
}

/// That a parameter can't be set in a lock state.
fn locked(state: u8, pid: u16) -> Lock {
    Lock { state, pid }
}

/// A frame, and its words.
const FRAMES: &str = r#"CC011E7FF0000000027FF00000000100000000002100150600030000FFFF0609
7FF0:00000001 answers 7FF0:00000002: ACK, GET response COMMS_STATUS (0015), root, transaction 0
  short messages 3, wrong lengths 0, wrong checksums 65535
  data 00030000FFFF

CC01187FF0000000017FF000000002000100000030001500040C
7FF0:00000002 asks 7FF0:00000001: SET COMMS_STATUS (0015), root, transaction 0

CC01197FF0000000017FF00000000200010000003000150100040E
7FF0:00000002 asks 7FF0:00000001: SET COMMS_STATUS (0015), root, transaction 0
  data 00

CC011C7FF0000000027FF000000001000000000021007004040300030469
7FF0:00000001 answers 7FF0:00000002: ACK, GET response PRODUCT_DETAIL_ID_LIST (0070), root, transaction 0
  PWM (0403), incandescent (0003)
  data 04030003

CC011B7FF0000000027FF0000000010000000000210070030403FE0562
7FF0:00000001 answers 7FF0:00000002: ACK, GET response PRODUCT_DETAIL_ID_LIST (0070), root, transaction 0
  data 0403FE

CC011A7FF0000000027FF000000001000000000021007002FE01055A
7FF0:00000001 answers 7FF0:00000002: ACK, GET response PRODUCT_DETAIL_ID_LIST (0070), root, transaction 0
  FE01
  data FE01

CC011C7FF0000000027FF0000000010000000000210140040030FFFF065E
7FF0:00000001 answers 7FF0:00000002: ACK, GET response DMX_BLOCK_ADDRESS (0140), root, transaction 0
  footprint 48, base address none (FFFF)
  data 0030FFFF

CC011C7FF0000000027FF0000000010000000000210140040030006504C5
7FF0:00000001 answers 7FF0:00000002: ACK, GET response DMX_BLOCK_ADDRESS (0140), root, transaction 0
  footprint 48, base address 101
  data 00300065

CC011A7FF0000000017FF000000002000100000030014002006504A1
7FF0:00000002 asks 7FF0:00000001: SET DMX_BLOCK_ADDRESS (0140), root, transaction 0
  base address 101
  data 0065

CC011F7FF0000000017FF00000000200010000003001410700030014FFFF8006DC
7FF0:00000002 asks 7FF0:00000001: SET DMX_FAIL_MODE (0141), root, transaction 0
  scene 3, delay 2.0 s, hold time without end, level 128
  data 00030014FFFF80

CC011E7FF0000000017FF000000002000100000030014106000000000005044A
7FF0:00000002 asks 7FF0:00000001: SET DMX_FAIL_MODE (0141), root, transaction 0
  6 data slots where 0141 has 7
  data 000000000005

CC011D7FF0000000027FF000000001000000000021034105006400320104CC
7FF0:00000001 answers 7FF0:00000002: ACK, GET response MINIMUM_LEVEL (0341), root, transaction 0
  increasing 100, decreasing 50, on below it yes (01)
  data 0064003201

CC011A7FF0000000017FF000000002000100000030034202800004C0
7FF0:00000002 asks 7FF0:00000001: SET MAXIMUM_LEVEL (0342), root, transaction 0
  level 32768
  data 8000

CC01197FF0000000027FF0000000010000000000210440010A0437
7FF0:00000001 answers 7FF0:00000002: ACK, GET response BURN_IN (0440), root, transaction 0
  hours 10
  data 0A

CC011F7FF0000000027FF00000000100000000002106030707EA0B1B09050C052F
7FF0:00000001 answers 7FF0:00000002: ACK, GET response REAL_TIME_CLOCK (0603), root, transaction 0
  2026-11-27 09:05:12
  data 07EA0B1B09050C

CC011A7FF0000000027FF00000000100000000002106400201B704E9
7FF0:00000001 answers 7FF0:00000002: ACK, GET response LOCK_PIN (0640), root, transaction 0
  PIN 0439
  data 01B7

CC011C7FF0000000017FF00000000200010000003006400404D200070522
7FF0:00000002 asks 7FF0:00000001: SET LOCK_PIN (0640), root, transaction 0
  new PIN 1234, PIN 0007
  data 04D20007

CC011A7FF0000000027FF00000000100000000002106410200020434
7FF0:00000001 answers 7FF0:00000002: ACK, GET response LOCK_STATE (0641), root, transaction 0
  lock state 0 of 2, unlocked
  data 0002

CC011A7FF0000000027FF00000000100000000002106410202020436
7FF0:00000001 answers 7FF0:00000002: ACK, GET response LOCK_STATE (0641), root, transaction 0
  lock state 2 of 2, "Everything"
  data 0202

CC011B7FF0000000017FF00000000200010000003006410301B70104FD
7FF0:00000002 asks 7FF0:00000001: SET LOCK_STATE (0641), root, transaction 0
  PIN 0439, lock state 1, "Levels"
  data 01B701

CC011B7FF0000000017FF00000000200010000003006410301B70304FF
7FF0:00000002 asks 7FF0:00000001: SET LOCK_STATE (0641), root, transaction 0
  PIN 0439, lock state 3
  data 01B703

CC01197FF0000000017FF000000002000100000020064201010432
7FF0:00000002 asks 7FF0:00000001: GET LOCK_STATE_DESCRIPTION (0642), root, transaction 0
  number 1
  data 01

CC011F7FF0000000027FF000000001000000000021064207014C6576656C7306A9
7FF0:00000001 answers 7FF0:00000002: ACK, GET response LOCK_STATE_DESCRIPTION (0642), root, transaction 0
  number 1: "Levels"
  data 014C6576656C73

CC01197FF0000000017FF00000000200010000003010010101040B
7FF0:00000002 asks 7FF0:00000001: SET RESET_DEVICE (1001), root, transaction 0
  reset warm (01)
  data 01

CC01197FF0000000017FF000000002000100000030100101FF0509
7FF0:00000002 asks 7FF0:00000001: SET RESET_DEVICE (1001), root, transaction 0
  reset cold (FF)
  data FF

CC01197FF0000000017FF00000000200010000003010010102040C
7FF0:00000002 asks 7FF0:00000001: SET RESET_DEVICE (1001), root, transaction 0
  reset 02
  data 02

CC01207FF0000000017FF0000000020001000000301030080003000A001400000468
7FF0:00000002 asks 7FF0:00000001: SET CAPTURE_PRESET (1030), root, transaction 0
  scene 3, up 1.0 s, down 2.0 s, wait 0.0 s
  data 0003000A00140000

CC01197FF0000000017FF000000002000100000030104001FF0548
7FF0:00000002 asks 7FF0:00000001: SET IDENTIFY_MODE (1040), root, transaction 0
  loud (FF)
  data FF

CC011A7FF0000000017FF00000000200010000002010420200030440
7FF0:00000002 asks 7FF0:00000001: GET PRESET_STATUS (1042), root, transaction 0
  scene 3
  data 0003

CC01217FF0000000027FF0000000010000000000211042090003000A0014FFFF02066C
7FF0:00000001 answers 7FF0:00000002: ACK, GET response PRESET_STATUS (1042), root, transaction 0
  scene 3, up 1.0 s, down 2.0 s, wait 6553.5 s, programmed, read only (02)
  data 0003000A0014FFFF02

CC01217FF0000000017FF0000000020001000000301042090003000A0014000001047D
7FF0:00000002 asks 7FF0:00000001: SET PRESET_STATUS (1042), root, transaction 0
  scene 3, up 1.0 s, down 2.0 s, wait 0.0 s, clear yes (01)
  data 0003000A0014000001

CC01207FF0000000017FF0000000020001000000301042080003000A00140000047A
7FF0:00000002 asks 7FF0:00000001: SET PRESET_STATUS (1042), root, transaction 0
  8 data slots where 1042 has 9
  data 0003000A00140000

CC01197FF0000000017FF00000000200010000003010430103044F
7FF0:00000002 asks 7FF0:00000001: SET PRESET_MERGEMODE (1043), root, transaction 0
  DMX only (03)
  data 03

CC01197FF0000000027FF00000000100000000002110440101043E
7FF0:00000001 answers 7FF0:00000002: ACK, GET response POWER_ON_SELF_TEST (1044), root, transaction 0
  on (01)
  data 01

CC01387FF0000000027FF00000000100000000002110412001000100000000060000000A00000014000000640000006400000064000000C80692
7FF0:00000001 answers 7FF0:00000002: ACK, GET response PRESET_INFO (1041), root, transaction 0
  level field yes (01), sequence no (00), split times yes (01), endless fail delay no (00), endless fail hold no (00), endless startup hold no (00), scenes 6, fade 0.0 s to 1.0 s, wait 0.0 s to 2.0 s, fail delay 0.0 s to 10.0 s, fail hold 0.0 s to 10.0 s, startup delay 0.0 s to 10.0 s, startup hold 0.0 s to 20.0 s
  data 01000100000000060000000A00000014000000640000006400000064000000C8"#;

/// The fields are the standard's, whichever fixture it is; but what lock states are called isn't known.
const UNKNOWN: &str = "CC011A7FF0000000027FF00000000100000000002106410202020436
7FF0:00000001 answers 7FF0:00000002: ACK, GET response LOCK_STATE (0641), root, transaction 0
  lock state 2 of 2
  data 0202";

/// What is said of the fixture itself, behind its boot software.
const ADDED: &str = r#"
  parameter 0015: "", 6 slots, GET, and SET without data, default 000000000000
  parameter 0140: "", base address of all sub-devices, GET and SET
  parameter 0640: "", PIN, GET and SET, 0 to 9999, default 439
  parameter 0641: "", number of a lock state, GET and SET, 0 to 2, default 0
  parameter 0642: "", names of a choice, GET
  parameter 1001: "", 1 slot, SET
  parameter 1042: "", 6 scenes, up to scene 2 read only, GET and SET
  parameter 8001: "Calibrate", unsigned byte, SET, 1 to 5
  number 1 in 0642: "Levels"
  number 2 in 0642: "Everything"
  lock state 1: no SET of DMX_START_ADDRESS (00F0)
  lock state 2: no SET of "Calibrate" (8001)
no sub-devices
"#;

#[test]
fn added_parameters_have_their_fields(rt: HostRuntime) {
    let profile = rack(&rt, rt.alloc());
    let known = Known::of(FIXTURE, &profile);
    try_rows(&rt, rt.alloc(), &known, "", FRAMES);
    try_rows(&rt, rt.alloc(), &Known::nothing(), "", UNKNOWN);
    is_described(&rt, rt.alloc(), &profile, ADDED);
}
