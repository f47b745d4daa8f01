//! What no clause says: sensors and status messages whose slots and lines were worked out by hand (E1.20 sections 10.3.2, 10.7 and 10.8.4).

use rdm_frame::{Text, Uid};
use rdm_health::{
    SensorDefinition, SensorRow, SensorValue, StatusEntry, StatusRow, Verdict, is_lamp_well,
    put_lamp_row, put_sensor_heading, put_sensor_row, put_status_heading, put_status_rows,
    put_waiting_row, status_entries_in,
};
use std::alloc::{AllocError, Global};
use std::process::Abort;

/// A moving head.
const HEAD: Uid = Uid {
    maker: 0x7FF0,
    device: 1,
};

/// Its lamp: from -20 to 120 °C, of which 0 to 80 are normal. It keeps all values.
const LAMP: &[u8] = b"\x00\x00\x01\x00\xFF\xEC\x00\x78\x00\x00\x00\x50\x03Lamp";

/// 85 °C, the lowest 20, the highest 97, and 60 was recorded.
const LAMP_VALUE: &[u8] = &[0, 0, 85, 0, 20, 0, 97, 0, 60];

/// Its supply: from 0 to 30000 mV DC, of which 22800 to 25200 are normal. It keeps no values.
const SUPPLY: &[u8] = b"\x01\x01\x02\x03\x00\x00\x75\x30\x59\x10\x62\x70\x00Supply";

/// 22799 mV.
const SUPPLY_VALUE: &[u8] = &[1, 0x59, 0x0F, 0, 0, 0, 0, 0, 0];

/// What no table knows, from -5 on. It keeps the recorded value.
const STRANGE: &[u8] =
    b"\x02\x80\x80\x20\x80\x00\x7F\xFF\xFF\xFB\x7F\xFF\x01Eighteen letters, and more";

/// -5, without the lowest and the highest value, and 7 was recorded.
const STRANGE_VALUE: &[u8] = &[2, 0xFF, 0xFB, 0, 7];

#[test]
fn definitions_are_read(rt: HostRuntime) {
    let lamp = SensorDefinition {
        number: 0,
        kind: 0,
        unit: 1,
        prefix: 0,
        lowest: -20,
        highest: 120,
        normal_lowest: 0,
        normal_highest: 80,
        keeps_extremes: true,
        keeps_recorded: true,
        description: Text::of(b"Lamp"),
    };
    assert!(rt; SensorDefinition::of(LAMP) == Some(lamp));
}

#[test]
fn definitions_have_their_bounds(rt: HostRuntime) {
    // The second has a text of 33 letters.
    let told = (
        SensorDefinition::of(&LAMP[..12]).is_some(),
        SensorDefinition::of(&[0x20; 46]).is_some(),
        SensorDefinition::of(&[0x20; 45]).is_some(),
    );
    assert!(rt; told == (false, false, true));
}

#[test]
fn values_are_read(rt: HostRuntime) {
    let lamp = SensorValue {
        number: 0,
        present: 85,
        lowest: Some(20),
        highest: Some(97),
        recorded: Some(60),
    };
    let unrecorded = SensorValue {
        recorded: None,
        ..lamp
    };
    let strange = SensorValue {
        number: 2,
        present: -5,
        lowest: None,
        highest: None,
        recorded: Some(7),
    };
    let told = (
        SensorValue::of(LAMP_VALUE),
        SensorValue::of(&LAMP_VALUE[..7]),
        SensorValue::of(STRANGE_VALUE),
        SensorValue::of(&LAMP_VALUE[..8]),
    );
    assert!(rt; told == (Some(lamp), Some(unrecorded), Some(strange), None));
}

/// What a sensor measures now.
fn measured(present: i16) -> Option<SensorValue> {
    Some(SensorValue {
        number: 0,
        present,
        lowest: None,
        highest: None,
        recorded: None,
    })
}

/// What the lamp measures, and the verdict on it.
const JUDGED: &[(i16, Verdict)] = &[
    (-21, Verdict::OutOfRange),
    (-20, Verdict::BelowNormal),
    (-1, Verdict::BelowNormal),
    (0, Verdict::Fine),
    (80, Verdict::Fine),
    (81, Verdict::AboveNormal),
    (120, Verdict::AboveNormal),
    (121, Verdict::OutOfRange),
];

#[test]
fn values_are_judged(rt: HostRuntime) {
    let lamp = SensorDefinition::of(LAMP);
    for (value, verdict) in JUDGED {
        assert!(rt;
            Verdict::on(&lamp, &measured(*value)) == *verdict,
            "{value}"
        );
    }
    let told = (Verdict::on(&None, &measured(0)), Verdict::on(&lamp, &None));
    assert!(rt; told == (Verdict::NotTold, Verdict::NotTold));
}

/// A row of the moving head.
fn row(sub: u16, number: u8, definition: &[u8], value: &[u8]) -> SensorRow {
    SensorRow {
        uid: HEAD,
        sub,
        number,
        definition: SensorDefinition::of(definition),
        value: SensorValue::of(value),
    }
}

/// The table of its sensors.
const SENSORS: &str =
    "UID               No. Sensor               Type             Value        Lowest Highest Recorded Normal       Verdict
7FF0:00000001     0   Lamp                 temperature      85 °C        20     97      60       0 to 80      above normal
7FF0:00000001/2   1   Supply               voltage          22799 mV DC  -      -       -        22800 to 25200 below normal
7FF0:00000001     2   Eighteen letters, a~ type 80          -5 (prefix 20, unit 80) -      -       7        from -5      ok
7FF0:00000001     3   -                    -                -7           -      -       -        -            not reported
7FF0:00000001     255 -                    -                -            -      -       -        -            not reported
";

/// The sub-device, the number, the definition and the value of each.
const SENSOR_ROWS: &[(u16, u8, &[u8], &[u8])] = &[
    (0, 0, LAMP, LAMP_VALUE),
    (2, 1, SUPPLY, SUPPLY_VALUE),
    (0, 2, STRANGE, STRANGE_VALUE),
    (0, 3, b"", &[3, 0xFF, 0xF9, 0, 0, 0, 0, 0, 0]),
    (0, 255, b"", b""),
];

#[test]
fn sensors_are_a_table(rt: HostRuntime) {
    let mut text = Vec::new(rt.alloc());
    put_sensors(rt.alloc(), &mut text).expect(&rt, "memory");
    assert!(rt; text.as_slice() == SENSORS.as_bytes());
}

/// Puts the table of these sensors at the end of a text.
fn put_sensors(alloc: Global, text: &mut Vec<u8>) -> Result<(), AllocError> {
    put_sensor_heading(text)?;
    for (sub, number, definition, value) in SENSOR_ROWS {
        put_sensor_row(alloc, &row(*sub, *number, definition, value), text)?;
    }
    Ok(())
}

/// A warning that sensor 0 is over temperature at 85 degrees, and an error of the maker's own of sub-device 2 with the values 2 and -1.
const STATUS: &[u8] = &[
    0x00, 0x00, 0x03, 0x00, 0x21, 0x00, 0x00, 0x00, 0x55, //
    0x00, 0x02, 0x04, 0x80, 0x01, 0x00, 0x02, 0xFF, 0xFF,
];

/// The same.
const ENTRIES: &[StatusEntry] = &[
    StatusEntry {
        sub: 0,
        status_type: 3,
        id: 0x21,
        first: 0,
        second: 85,
    },
    StatusEntry {
        sub: 2,
        status_type: 4,
        id: 0x8001,
        first: 2,
        second: 0xFFFF,
    },
];

/// Whether bytes hold these entries, or none can be read of them.
fn hold(rt: &impl Abort, alloc: Global, bytes: &[u8], wanted: Option<&[StatusEntry]>) {
    let entries = status_entries_in(alloc, bytes).expect(rt, "memory");
    let told = entries.as_ref().map(|list| list.as_slice());
    assert!(rt; told == wanted, "{bytes:?}");
}

#[test]
fn status_messages_are_read(rt: HostRuntime) {
    hold(&rt, rt.alloc(), STATUS, Some(ENTRIES));
    hold(&rt, rt.alloc(), b"", Some(&[]));
    hold(&rt, rt.alloc(), &STATUS[..17], None);
}

/// A row of the moving head.
fn status(entry: StatusEntry, description: Option<Text>) -> StatusRow {
    StatusRow {
        uid: HEAD,
        entry,
        description,
    }
}

/// An entry of the root.
fn of_root(status_type: u8, id: u16, first: u16) -> StatusEntry {
    StatusEntry {
        sub: 0,
        status_type,
        id,
        first,
        second: 0,
    }
}

/// The table of its status messages.
const MESSAGES: &str = "UID           Sub  Severity         Message
7FF0:00000001 root warning          sensor 0 over temp at 85 degrees C
7FF0:00000001 2    error            status 8001, values 2 and -1
7FF0:00000001 512  error cleared    Fan 2 of tilt: 0102\\\\ 5%
7FF0:00000001 root advisory         pan ready
7FF0:00000001 root type 05          slot 0150 not ready
";

const FAN: StatusEntry = StatusEntry {
    sub: 512,
    status_type: 0x14,
    id: 0x8002,
    first: 2,
    second: 0x0102,
};

#[test]
fn status_messages_are_a_table(rt: HostRuntime) {
    let rows = [
        status(ENTRIES[0], None),
        status(ENTRIES[1], None),
        status(FAN, Some(Text::of(b"Fan %d of %L: %x\\ 5%"))),
        status(of_root(2, 0x0050, 0x0101), None),
        status(of_root(5, 0x0051, 0x0150), None),
    ];
    let mut text = Vec::new(rt.alloc());
    put_statuses(rt.alloc(), &rows, &mut text).expect(&rt, "memory");
    assert!(rt; text.as_slice() == MESSAGES.as_bytes());
}

/// Puts the table of these rows at the end of a text.
fn put_statuses(alloc: Global, rows: &[StatusRow], text: &mut Vec<u8>) -> Result<(), AllocError> {
    put_status_heading(text)?;
    put_status_rows(alloc, rows, text)
}

/// What is told of 0, 1, 3 and 255 messages that wait.
const WAITING: &str = "7FF0:00000001 -    -                1 message waits
7FF0:00000001 -    -                3 messages wait
7FF0:00000001 -    -                255 messages or more wait
";

#[test]
fn messages_wait(rt: HostRuntime) {
    let mut text = Vec::new(rt.alloc());
    for count in [0, 1, 3, 255] {
        put_waiting_row(rt.alloc(), HEAD, count, &mut text).expect(&rt, "memory");
    }
    assert!(rt; text.as_slice() == WAITING.as_bytes());
}

/// What is told of the lamps below.
const LAMPS: &str = "7FF0:00000001 root -                lamp not present
7FF0:00000001 root -                lamp error
7FF0:00000001 3    -                lamp state 80
";

/// The sub-device and the state of each lamp.
const STATES: &[(u16, u8)] = &[(0, 0), (0, 1), (0, 2), (0, 3), (0, 4), (0, 0x7F), (3, 0x80)];

#[test]
fn lamps_are_told_unless_they_are_well(rt: HostRuntime) {
    let mut text = Vec::new(rt.alloc());
    for (sub, state) in STATES {
        put_lamp_row(rt.alloc(), HEAD, *sub, *state, &mut text).expect(&rt, "memory");
    }
    let told = (text.as_slice(), is_lamp_well(3), is_lamp_well(4));
    assert!(rt; told == (LAMPS.as_bytes(), true, false));
}
