//! What no clause says: rows, documents and tables that were worked out by hand (E1.20 sections 9, 10.5.1 and 10.6; RFC 4180; RFC 8259).

use csv::{ByteRecord, ReaderBuilder};
use json::{Scratch, Value};
use rdm_frame::{Text, Uid};
use rdm_survey::{
    Clash, DeviceInfo, KEYS, Order, Row, StatusCounts, SubDevice, clashes, put_csv, put_heading,
    put_json, put_row, sort,
};
use std::alloc::{AllocError, Global};
use std::process::Abort;
use std::test::Fail;

/// A fixture of manufacturer 7FF0, its model and label, its start address and its footprint.
type Fixture = (u32, &'static str, &'static str, Option<u16>, u16);

/// Two that meet in slot 108, one beside them, and one that goes past the end.
const FIXTURES: &[Fixture] = &[
    (1, "Spot", "=SUM(A1)", Some(101), 8),
    (2, "Wash, \"big\"", "Left\\\n", Some(108), 2),
    (3, "Spot", "Right", Some(110), 1),
    (4, "Haze", "", Some(512), 2),
];

/// The row of a fixture, of which nothing else is known.
fn row_of(alloc: Global, fixture: &Fixture) -> Row {
    let (device, model, label, address, footprint) = *fixture;
    Row {
        uid: Uid {
            maker: 0x7FF0,
            device,
        },
        manufacturer: None,
        model: Text::from_slice(model.as_bytes()),
        label: Text::from_slice(label.as_bytes()),
        device: Some(DeviceInfo {
            model_id: 0x0102,
            category: 0x0101,
            software_id: 0x0A0B_0C0D,
            footprint,
            personality: 2,
            personalities: 3,
            address,
            sub_devices: 0,
            sensors: 4,
        }),
        personality: Text::from_slice(b"Fine"),
        software: Text::from_slice(b"1.2.3"),
        hours: Some(77),
        status: Some(StatusCounts {
            errors: 2,
            warnings: 1,
        }),
        sub_devices: Vec::new(alloc),
    }
}

/// A fixture that told nothing.
pub(crate) fn silent(alloc: Global) -> Row {
    Row {
        uid: Uid {
            maker: 0x7FF0,
            device: 5,
        },
        manufacturer: None,
        model: None,
        label: None,
        device: None,
        personality: None,
        software: None,
        hours: None,
        status: None,
        sub_devices: Vec::new(alloc),
    }
}

/// The rows of these fixtures, and of one that told nothing.
fn rows(rt: &impl Abort, alloc: Global) -> Vec<Row> {
    let mut rows = Vec::new(alloc);
    for fixture in FIXTURES {
        rows.push(row_of(alloc, fixture)).expect(rt, "memory");
    }
    rows.push(silent(alloc)).expect(rt, "memory");
    rows
}

/// The CSV of these rows.
const CSV: &str =
    "uid,manufacturer,model,model_id,category,label,address,last_address,footprint,personality,personalities,personality_name,software,software_id,sub_devices,sensors,hours,errors,warnings,clashes
7FF0:00000001,,Spot,0x0102,0x0101,'=SUM(A1),101,108,8,2,3,Fine,1.2.3,0x0A0B0C0D,0,4,77,2,1,7FF0:00000002
7FF0:00000002,,\"Wash, \"\"big\"\"\",0x0102,0x0101,Left\\\\\\x0A,108,109,2,2,3,Fine,1.2.3,0x0A0B0C0D,0,4,77,2,1,7FF0:00000001
7FF0:00000003,,Spot,0x0102,0x0101,Right,110,110,1,2,3,Fine,1.2.3,0x0A0B0C0D,0,4,77,2,1,
7FF0:00000004,,Haze,0x0102,0x0101,,512,513,2,2,3,Fine,1.2.3,0x0A0B0C0D,0,4,77,2,1,past 512
7FF0:00000005,,,,,,,,,,,,,,,,,,,
";

#[test]
fn rows_are_csv(rt: HostRuntime) {
    let rows = rows(&rt, rt.alloc());
    let mut text = Vec::new(rt.alloc());
    put_csv(rt.alloc(), rows.as_slice(), &mut text).expect(&rt, "memory");
    assert!(rt; text.as_slice() == CSV.as_bytes());
}

/// The JSON of the first and of the last.
const FIRST: &str =
    "{\"uid\":\"7FF0:00000002\",\"manufacturer\":null,\"model\":\"Wash, \\\"big\\\"\",\"model_id\":\"0x0102\",\"category\":\"0x0101\",\"label\":\"Left\\\\\\\\\\\\x0A\",\"address\":108,\"last_address\":109,\"footprint\":2,\"personality\":2,\"personalities\":3,\"personality_name\":\"Fine\",\"software\":\"1.2.3\",\"software_id\":\"0x0A0B0C0D\",\"sub_devices\":0,\"sensors\":4,\"hours\":77,\"errors\":2,\"warnings\":1,\"clashes\":[]}";

const LAST: &str =
    "{\"uid\":\"7FF0:00000005\",\"manufacturer\":null,\"model\":null,\"model_id\":null,\"category\":null,\"label\":null,\"address\":null,\"last_address\":null,\"footprint\":null,\"personality\":null,\"personalities\":null,\"personality_name\":null,\"software\":null,\"software_id\":null,\"sub_devices\":null,\"sensors\":null,\"hours\":null,\"errors\":null,\"warnings\":null,\"clashes\":[]}";

/// The JSON of both.
fn both(rt: &impl Abort, alloc: Global) -> String {
    format!(in alloc; "[{FIRST},{LAST}]").expect(rt, "memory")
}

#[test]
fn rows_are_json(rt: HostRuntime) {
    let two = [row_of(rt.alloc(), &FIXTURES[1]), silent(rt.alloc())];
    let mut text = Vec::new(rt.alloc());
    put_json(rt.alloc(), &two, &mut text).expect(&rt, "memory");
    assert!(rt; text.as_slice() == both(&rt, rt.alloc()).as_bytes());
}

/// How many clashes a list has that go past the end, and how many overlaps.
fn counts(list: &[Clash]) -> (usize, usize) {
    let past = list
        .iter()
        .filter(|clash| match **clash {
            Clash::PastEnd(_) => true,
            Clash::Overlap(_, _) => false,
        })
        .count();
    (past, list.len() - past)
}

/// The sub-devices of the first: one in slot 101 meets its own root; one that touches meets nothing, nor does one with no address or no
/// slots.
const SUBS: &[(u16, Option<u16>, u16)] = &[
    (1, Some(101), 1),
    (2, Some(100), 1),
    (3, None, 4),
    (4, Some(101), 0),
];

/// Adds these sub-devices to a row.
fn add_subs(rt: &impl Abort, row: &mut Row) {
    for (number, address, footprint) in SUBS {
        let sub_device = SubDevice {
            number: *number,
            address: *address,
            footprint: *footprint,
        };
        row.sub_devices.push(sub_device).expect(rt, "memory");
    }
}

/// So many clashes of rows go past the end, and so many are overlaps.
fn clash(rt: &impl Abort, alloc: Global, rows: &[Row], wanted: (usize, usize)) {
    let list = clashes(alloc, rows).expect(rt, "memory");
    assert!(rt; counts(list.as_slice()) == wanted);
}

#[test]
fn slots_that_meet_clash(rt: HostRuntime) {
    let mut rows = rows(&rt, rt.alloc());
    clash(&rt, rt.alloc(), rows.as_slice(), (1, 1));
    if let [first, ..] = rows.as_mut_slice() {
        add_subs(&rt, first);
    }
    clash(&rt, rt.alloc(), rows.as_slice(), (1, 2));
}

/// Whether these are the device IDs of rows, in order.
fn are_devices(rows: &[Row], wanted: &[u32]) -> bool {
    rows.len() == wanted.len()
        && rows
            .iter()
            .zip(wanted)
            .all(|(row, device)| row.uid.device == *device)
}

const ORDERS: &[(Order, &[u32])] = &[
    (Order::Model, &[4, 1, 3, 2, 5]),
    (Order::Label, &[4, 1, 2, 3, 5]),
    (Order::Address, &[1, 2, 3, 4, 5]),
    (Order::Uid, &[1, 2, 3, 4, 5]),
];

#[test]
fn rows_are_put_in_order(rt: HostRuntime) {
    let mut rows = rows(&rt, rt.alloc());
    for (order, wanted) in ORDERS {
        sort(rows.as_mut_slice(), *order);
        assert!(rt; are_devices(rows.as_slice(), wanted), "{wanted:?}");
    }
}

/// The table of the first and of the last.
const TABLE: &str =
    "UID           Manufacturer   Model              Label            Address Slots Personality        Software   Subs Sensors Hours  Status
7FF0:00000001 -              Spot               =SUM(A1)         101-108 8     2 of 3: Fine       1.2.3      0    4       77     2 errors, 1 warning
7FF0:00000005 -              -                  -                -       -     -                  -          -    -       -      -
";

#[test]
fn rows_are_a_table(rt: HostRuntime) {
    let two = [row_of(rt.alloc(), &FIXTURES[0]), silent(rt.alloc())];
    let mut text = Vec::new(rt.alloc());
    put_table(rt.alloc(), &two, &mut text).expect(&rt, "memory");
    assert!(rt; text.as_slice() == TABLE.as_bytes());
}

/// Puts a table of rows at the end of a text.
fn put_table(alloc: Global, rows: &[Row], text: &mut Vec<u8>) -> Result<(), AllocError> {
    put_heading(text)?;
    for row in rows {
        put_row(alloc, row, text)?;
    }
    Ok(())
}

#[test]
fn device_info_is_read(rt: HostRuntime) {
    let slots = [
        0x01, 0x00, 0x01, 0x02, 0x01, 0x01, 0x0A, 0x0B, 0x0C, 0x0D, 0x00, 0x08, 2, 3, 0xFF, 0xFF,
        0x02, 0x00, 4,
    ];
    let info = DeviceInfo {
        model_id: 0x0102,
        category: 0x0101,
        software_id: 0x0A0B_0C0D,
        footprint: 8,
        personality: 2,
        personalities: 3,
        address: None,
        sub_devices: 512,
        sensors: 4,
    };
    let told = (DeviceInfo::of(&slots), DeviceInfo::of(&slots[..18]));
    assert!(rt; told == (Some(info), None));
}

/// The label of the second row, as its documents write it.
const LABEL: &str = "Left\\\\\\x0A";

/// The first rows of that, cell by cell, as far as they are looked at: the row, the cell and its text.
const CELLS: &[(usize, usize, &[u8])] = &[
    (1, 5, b"'=SUM(A1)"),
    (2, 2, b"Wash, \"big\""),
    (2, 5, b"Left\\\\\\x0A"),
];

#[test]
fn csv_is_read_back(rt: HostRuntime) -> Result<(), Fail> {
    let mut reader = ReaderBuilder::new()
        .has_headers(false)
        .from_reader(rt.alloc(), CSV.as_bytes());
    let mut record = ByteRecord::new(rt.alloc());
    for row in 0..3 {
        let is_there = reader.read_byte_record(&mut record)?;
        assert!(rt;
            (is_there, is_row(&record, row)) == (true, true),
            "row {row}"
        );
    }
    Ok(())
}

/// Whether a record is the row with this number: the first has the keys.
fn is_row(record: &ByteRecord, row: usize) -> bool {
    record.len() == 20
        && match row {
            0 => (0..20).all(|i| record.get(i) == KEYS.get(i).map(|key| key.as_bytes())),
            _ => CELLS.iter().all(|(at, i, text)| *at != row || record.get(*i) == Some(*text)),
        }
}

#[test]
fn json_is_read_back(rt: HostRuntime) -> Result<(), Fail> {
    let text = both(&rt, rt.alloc());
    let mut scratch = Scratch::new(rt.alloc());
    let survey = Value::parse(rt.alloc(), text.as_str(), &mut scratch)?;
    let first = survey.at(0);
    let label = first
        .and_then(|row| row.get("label"))
        .and_then(Value::as_str);
    let address = first
        .and_then(|row| row.get("address"))
        .and_then(Value::as_u64);
    assert!(rt; (label, address) == (Some(LABEL), Some(108)));
    Ok(())
}
