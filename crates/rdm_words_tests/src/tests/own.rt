//! Parameters that the maker of a fixture adds, by what is known of the fixture.

ghost use Rattle.std.specs.Prelude.{◌≤◌, length};

use super::short::{try_replies, try_requests};
use super::{FIXTURE, is_described, try_rows};
use rdm_device::{OwnParameters, ParameterDef, Particular, Particulars, Profile, Rights, Shape};
use rdm_frame::{Text, Uid};
use rdm_words::Known;
use std::alloc::Global;
use std::process::Abort;

/// A parameter with GET and SET, of this name.
fn parameter(pid: u16, shape: Shape, name: &[u8]) -> ParameterDef
    requires { length name.now ≤ 32 }
{
    let mut def = ParameterDef::default();
    def.pid = pid;
    def.rights = Rights::Both;
    def.shape = shape;
    def.name = Text::of(name);
    def
}

/// The demonstration fixture with four parameters of its own.
fn wash(rt: &impl Abort, alloc: Global) -> Profile {
    let mut own = OwnParameters::none();
    let mut colour = parameter(0x8001, Shape::Word, b"Colour temperature");
    colour.low = 2000;
    colour.high = 8000;
    colour.start = Text::of(&[0x15, 0xE0]);
    colour.resets = true;
    own.push(alloc, colour).expect(rt, "memory");
    let mut trim = parameter(0x8010, Shape::SignedByte, b"Trim");
    trim.low = -20;
    trim.high = 20;
    trim.start = Text::of(&[0xFF]);
    trim.unit = 0x16;
    trim.prefix = 0x03;
    own.push(alloc, trim).expect(rt, "memory");
    let mut show = parameter(0x8020, Shape::Text, b"Show");
    show.rights = Rights::Set;
    show.start = Text::of(b"Tour");
    own.push(alloc, show).expect(rt, "memory");
    let mut flags = parameter(0x8030, Shape::Bits(2), b"Flags");
    flags.rights = Rights::Get;
    flags.start = Text::of(&[0x01, 0x80]);
    own.push(alloc, flags).expect(rt, "memory");
    let mut particular = Particular::usual();
    particular.own = own;
    let _ = particular.without.try_push(0x0403);
    particular.more_slots = 7;
    let mut profile = Profile::demo(0);
    profile.particulars = Particulars::of(alloc, particular).expect(rt, "memory");
    profile
}

/// A frame, and its words: the value of a parameter stands above the data, if it is a number or a text.
const FRAMES: &str = r#"CC01187FF0000000017FF0000000020001000000208001000468
7FF0:00000002 asks 7FF0:00000001: GET "Colour temperature" (8001), root, transaction 0

CC011A7FF0000000027FF00000000100000000002180010215E00561
7FF0:00000001 answers 7FF0:00000002: ACK, GET response "Colour temperature" (8001), root, transaction 0
  value 5600
  data 15E0

CC011A7FF0000000017FF0000000020001000000308001020FA0052B
7FF0:00000002 asks 7FF0:00000001: SET "Colour temperature" (8001), root, transaction 0
  value 4000
  data 0FA0

CC01187FF0000000027FF0000000010000000000318001000478
7FF0:00000001 answers 7FF0:00000002: ACK, SET response "Colour temperature" (8001), root, transaction 0

CC011A7FF0000000027FF00000000100020000003180010200060484
7FF0:00000001 answers 7FF0:00000002: NACK_REASON data out of range (0006), SET response "Colour temperature" (8001), root, transaction 0

CC01197FF0000000017FF0000000020001000000308001010F0489
7FF0:00000002 asks 7FF0:00000001: SET "Colour temperature" (8001), root, transaction 0
  data 0F

CC01197FF0000000017FF000000002000100000030801001EC0575
7FF0:00000002 asks 7FF0:00000001: SET "Trim" (8010), root, transaction 0
  value -20 m°
  data EC

CC011B7FF0000000017FF0000000020001000000308020034122620562
7FF0:00000002 asks 7FF0:00000001: SET "Show" (8020), root, transaction 0
  value "A\"b"
  data 412262

CC011A7FF0000000027FF0000000010000000000218030020180051C
7FF0:00000001 answers 7FF0:00000002: ACK, GET response "Flags" (8030), root, transaction 0
  data 0180

CC01197FF0000000017FF0000000020001000000308040010104BA
7FF0:00000002 asks 7FF0:00000001: SET parameter 8040, root, transaction 0
  data 01

CC011A7FF0000000017FF000000002000100000020005102800104BD
7FF0:00000002 asks 7FF0:00000001: GET PARAMETER_DESCRIPTION (0051), root, transaction 0
  "Colour temperature" (8001)
  data 8001

CC013E7FF0000000027FF0000000010000000000210051268001020503000000000007D000001F40000015E0436F6C6F75722074656D70657261747572650E7C
7FF0:00000001 answers 7FF0:00000002: ACK, GET response PARAMETER_DESCRIPTION (0051), root, transaction 0
  parameter 8001: "Colour temperature", unsigned word (05) of 2 slots, GET and SET (03), 2000 to 8000, default 5600
  data 8001020503000000000007D000001F40000015E0436F6C6F75722074656D7065726174757265

CC012C7FF0000000027FF0000000010000000000210051148010010403001603000000EC00000014000000FF0710
7FF0:00000001 answers 7FF0:00000002: ACK, GET response PARAMETER_DESCRIPTION (0051), root, transaction 0
  parameter 8010: "", signed byte (04) of 1 slot, GET and SET (03), -20 to 20 m°, default -1
  data 8010010403001603000000EC00000014000000FF

CC012C7FF0000000027FF00000000100000000002100511480202002020000000000000000000000000000000524
7FF0:00000001 answers 7FF0:00000002: ACK, GET response PARAMETER_DESCRIPTION (0051), root, transaction 0
  parameter 8020: "", ASCII (02) of 32 slots, SET (02)
  data 8020200202000000000000000000000000000000

CC011B7FF0000000027FF00000000100000000002100510380202004FE
7FF0:00000001 answers 7FF0:00000002: ACK, GET response PARAMETER_DESCRIPTION (0051), root, transaction 0
  data 802020

CC011E7FF0000000027FF00000000100000000002100500600518001804005D5
7FF0:00000001 answers 7FF0:00000002: ACK, GET response SUPPORTED_PARAMETERS (0050), root, transaction 0
  supports PARAMETER_DESCRIPTION (0051)
  supports "Colour temperature" (8001)
  supports 8040"#;

/// What is said of the fixture itself, behind its boot software.
const ADDED: &str = r#"  7 slots more than those above
  parameter 8001: "Colour temperature", unsigned word, GET and SET, 2000 to 8000, default 5600, set back by FACTORY_DEFAULTS
  parameter 8010: "Trim", signed byte, GET and SET, -20 to 20 m°, default -1
  parameter 8020: "Show", ASCII, SET
  parameter 8030: "Flags", bit field of 2 slots, GET, default 0180
  no LAMP_STATE (0403)
no sub-devices
"#;

/// Nothing is known of another device, nor of one that is known by nothing.
const UNKNOWN: &str = "CC011A7FF0000000017FF0000000020001000000308001020FA0052B
7FF0:00000002 asks 7FF0:00000001: SET parameter 8001, root, transaction 0
  data 0FA0";

/// Requests in short.
const REQUESTS: &str = r#"CC011A7FF0000000017FF0000000020001000000308001020FA0052B
SET "Colour temperature": 4000

CC01197FF0000000017FF0000000020001000000308040010104BA
SET 8040: data 01

CC011A7FF0000000017FF000000002000100000020005102800104BD
GET PARAMETER_DESCRIPTION: "Colour temperature" (8001)"#;

/// Replies in short.
const REPLIES: &str = r#"CC011A7FF0000000027FF00000000100000000002180010215E00561
ACK "Colour temperature": 5600

CC01187FF0000000027FF0000000010000000000318001000478
ACK "Colour temperature""#;

/// Another device.
const OTHER: Uid = Uid {
    maker: 0x7FF0,
    device: 3,
};

#[test]
fn own_parameters_have_their_words(rt: HostRuntime) {
    let profile = wash(&rt, rt.alloc());
    let known = Known::of(FIXTURE, &profile);
    try_rows(&rt, rt.alloc(), &known, "", FRAMES);
    try_requests(&rt, rt.alloc(), &known, REQUESTS);
    try_replies(&rt, rt.alloc(), &known, REPLIES);
    try_rows(&rt, rt.alloc(), &Known::nothing(), "", UNKNOWN);
    try_rows(&rt, rt.alloc(), &Known::of(OTHER, &profile), "", UNKNOWN);
    is_described(&rt, rt.alloc(), &profile, ADDED);
}
