//! Values, kinds and codes.

use super::*;
use Nack::{DataOutOfRange, FormatError, SubDeviceOutOfRange, UnknownPid, UnsupportedCommandClass};

const CODES: &[(Nack, u16)] = &[
    (UnknownPid, 0),
    (FormatError, 1),
    (UnsupportedCommandClass, 5),
    (DataOutOfRange, 6),
    (Nack::BufferFull, 7),
    (SubDeviceOutOfRange, 9),
];

const KINDS: &[(u16, Option<Kind>)] = &[
    (0x1000, Some(Kind::IdentifyDevice)),
    (0x1001, None),
    (0x0032, Some(Kind::ClearStatusId)),
];

const NAMES: &[(Kind, &str)] = &[
    (
        Kind::SubDeviceStatusReportThreshold,
        "SUB_DEVICE_STATUS_REPORT_THRESHOLD",
    ),
    (Kind::DmxStartAddress, "DMX_START_ADDRESS"),
    (Kind::PerformSelfTest, "PERFORM_SELFTEST"),
];

#[test]
fn reasons_have_codes(rt: HostRuntime) {
    for (nack, code) in CODES {
        assert!(rt; nack.code() == *code);
    }
}

#[test]
fn pids_have_kinds(rt: HostRuntime) {
    for (pid, kind) in KINDS {
        assert!(rt; kind_of(*pid) == *kind);
    }
    assert!(rt; Kind::DmxStartAddress.pid() == 0x00F0);
}

#[test]
fn kinds_have_names(rt: HostRuntime) {
    for (kind, name) in NAMES {
        assert!(rt; kind.name() == *name);
    }
}

#[test]
fn values_are_read_and_written(rt: HostRuntime) {
    let value = read_value(Kind::DmxStartAddress, Verb::Set, &[2, 1]);
    assert!(rt; matches!(&value, Ok(Value::Word(513))), "{value:?}");
    let written = write_value(&Value::Word(513));
    assert!(rt; written.as_slice() == [2, 1].as_slice());
    let none = read_value(Kind::BootSoftwareVersionId, Verb::Set, &[]);
    assert!(rt; none.err() == Some(Nack::FormatError));
}

#[test]
fn a_range_is_asked_for_without_a_command(rt: HostRuntime) {
    let devices = demo(&rt, rt.alloc(), 0);
    let start = Kind::DmxStartAddress;
    let boot = Kind::BootSoftwareVersionId;
    is_in_range(&rt, &devices, (0, start, Set), Value::Word(512), true);
    is_in_range(&rt, &devices, (0, start, Set), Value::Word(513), false);
    is_in_range(&rt, &devices, (0, start, Set), Value::Byte(1), false);
    is_in_range(&rt, &devices, (0, start, Set), Value::Pair(1, 2), false);
    is_in_range(&rt, &devices, (0, start, Get), Value::Nothing, true);
    is_in_range(&rt, &devices, (1, start, Get), Value::Nothing, false);
    is_in_range(&rt, &devices, (0, boot, Set), Value::Nothing, false);
}

/// At the root or a sub-device, whether a value is in range for a GET or SET.
fn is_in_range(
    rt: &impl Abort,
    devices: &Devices,
    (sub, kind, verb): (u16, Kind, Verb),
    value: Value,
    expected: bool,
) {
    let told = devices.in_range(sub, kind, verb, &value);
    assert!(rt; told == expected, "{value:?}");
}

/// What sensor 7 shows.
fn reading() -> Value {
    Value::Reading {
        number: 7,
        present: -2,
        lowest: -3,
        highest: 4,
        recorded: 5,
    }
}

/// DEVICE_INFO.
fn info() -> Value {
    Value::Info {
        protocol: 0x0100,
        model: 2,
        category: 3,
        software: 4,
        footprint: 0x0506,
        personality: 6,
        personalities: 7,
        start: 8,
        subs: 9,
        sensors: 10,
    }
}

/// Personality 7.
fn mode_7() -> Value {
    Value::Mode {
        number: 7,
        footprint: 0x0506,
        name: Text::of(b"M"),
    }
}

/// Sensor 8.
fn sensor() -> Value {
    Value::Sensor {
        number: 8,
        def: SensorDef {
            kind: 1,
            unit: 2,
            prefix: 3,
            low: -1,
            high: 2,
            normal_low: -32768,
            normal_high: 32767,
            support: 4,
            name: Text::of(b"S"),
            at_once: false,
        },
    }
}

/// A value is written so.
fn writes(rt: &impl Abort, value: Value, bytes: &[u8]) {
    assert!(rt; write_value(&value).as_slice() == bytes, "{value:?}");
}

#[test]
fn each_form_is_written_field_by_field(rt: HostRuntime) {
    writes(&rt, Value::Nothing, &[]);
    writes(&rt, Value::Byte(7), &[7]);
    writes(&rt, Value::Word(0x0102), &[1, 2]);
    writes(&rt, Value::Long(0x0102_0304), &[1, 2, 3, 4]);
    writes(&rt, Value::Pair(1, 2), &[1, 2]);
    let (mode, level) = (0x0102, 3);
    writes(&rt, Value::Preset { mode, level }, &[1, 2, 3]);
    writes(&rt, reading(), &[7, 0xFF, 0xFE, 0xFF, 0xFD, 0, 4, 0, 5]);
    let slots = [1, 0, 0, 2, 0, 3, 0, 0, 0, 4, 5, 6, 6, 7, 0, 8, 0, 9, 10];
    writes(&rt, info(), &slots);
    writes(&rt, Value::Label(Text::of(b"hi")), b"hi");
    writes(&rt, Value::Block(Body::of(&[9, 8])), &[9, 8]);
    let (number, name) = (7, Text::of(b"N"));
    writes(&rt, Value::Named { number, name }, b"\x07N");
    let (offset, name) = (0x0304, Text::of(b"O"));
    writes(&rt, Value::SlotName { offset, name }, b"\x03\x04O");
    writes(&rt, mode_7(), b"\x07\x05\x06M");
    let slots = [8, 1, 2, 3, 0xFF, 0xFF, 0, 2, 0x80, 0, 0x7F, 0xFF, 4, 83];
    writes(&rt, sensor(), &slots);
}
