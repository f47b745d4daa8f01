//! What no clause says: surveys, lines and documents that were worked out by hand (E1.20 sections 9, 10.5 and 10.6; RFC 8259).

use rdm_compare::{
    Kept, ReadError, Remedy, differences, keep, put_difference, put_saved, read_saved, remedies,
};
use rdm_frame::{Text, Uid};
use rdm_survey::{DeviceInfo, Row, SubDevice};
use std::alloc::{AllocError, Global};
use std::process::Abort;

/// A fixture of manufacturer 7FF0: its number, model and label, model ID, personality, start address and hours.
type Fixture = (u32, &'static str, &'static str, u16, u8, u16, u32);

/// A sub-device: its number, start address and footprint.
type Sub = (u16, Option<u16>, u16);

/// Yesterday's fixtures. Each has yesterday's sub-devices.
const THEN: &[Fixture] = &[
    (1, "Spot", "Left", 0x0102, 2, 1, 10),
    (3, "Haze", "", 0x0200, 1, 40, 7),
];

const SUBS_THEN: &[Sub] = &[(2, Some(3), 4), (3, Some(7), 4)];

/// Today's: the first has changed, the other is gone, and there is a new one.
const NOW: &[Fixture] = &[
    (2, "LED PAR", "", 0x0300, 1, 50, 1),
    (1, "Spot", "Right\\", 0x0103, 2, 5, 30),
];

const SUBS_NOW: &[Sub] = &[(2, Some(7), 4), (4, None, 1)];

/// The first one of yesterday in another personality, which has moved its address.
const MOVED: &[Fixture] = &[(1, "Spot", "Left", 0x0102, 1, 1, 10)];

fn subs_of(alloc: Global, subs: &[Sub]) -> Result<Vec<SubDevice>, AllocError> {
    let mut sub_devices = Vec::new(alloc);
    for (number, address, footprint) in subs {
        sub_devices.push(SubDevice {
            number: *number,
            address: *address,
            footprint: *footprint,
        })?;
    }
    Ok(sub_devices)
}

/// The row of a fixture, of which nothing else is known.
fn row_of(fixture: &Fixture, sub_devices: Vec<SubDevice>) -> Row {
    let (device, model, label, model_id, personality, address, hours) = *fixture;
    Row {
        uid: Uid {
            maker: 0x7FF0,
            device,
        },
        manufacturer: None,
        model: Text::from_slice(model.as_bytes()),
        label: Text::from_slice(label.as_bytes()),
        device: Some(DeviceInfo {
            model_id,
            category: 0x0101,
            software_id: 0x0A0B_0C0D,
            footprint: 8,
            personality,
            personalities: 3,
            address: Some(address),
            sub_devices: 2,
            sensors: 4,
        }),
        personality: Text::from_slice(b"Fine"),
        software: None,
        hours: Some(hours),
        status: None,
        sub_devices,
    }
}

fn rows_of(rt: &impl Abort, alloc: Global, fixtures: &[Fixture], subs: &[Sub]) -> Vec<Row> {
    let mut rows = Vec::new(alloc);
    for fixture in fixtures {
        let sub_devices = subs_of(alloc, subs).expect(rt, "memory");
        rows.push(row_of(fixture, sub_devices)).expect(rt, "memory");
    }
    rows
}

fn kept_of(rt: &impl Abort, alloc: Global, fixtures: &[Fixture], subs: &[Sub]) -> Vec<Kept> {
    let rows = rows_of(rt, alloc, fixtures, subs);
    keep(alloc, rows.as_slice()).expect(rt, "memory")
}

/// The lines of what has changed.
fn lines(rt: &impl Abort, alloc: Global, then: &[Kept], now: &[Kept]) -> Vec<u8> {
    let mut text = Vec::new(alloc);
    let found = differences(alloc, then, now).expect(rt, "memory");
    for difference in found.as_slice() {
        put_difference(&mut text, difference).expect(rt, "memory");
    }
    text
}

/// These lines tell what has changed.
fn tells(rt: &impl Abort, alloc: Global, then: &[Kept], now: &[Kept], wanted: &str) {
    let text = lines(rt, alloc, then, now);
    assert!(rt; text.as_slice() == wanted.as_bytes());
}

const LINES: &str = "7FF0:00000001 model ID: 0x0102 then, 0x0103 now
7FF0:00000001 label: \"Left\" then, \"Right\\\\\" now
7FF0:00000001 address: 1 then, 5 now
7FF0:00000001 has run 20 hours more
7FF0:00000001 sub-device 2 address: 3 then, 7 now
7FF0:00000001 sub-device 3 is gone
7FF0:00000001 sub-device 4 is new
7FF0:00000003 is gone
7FF0:00000002 is new: \"LED PAR\"
";

#[test]
fn changes_are_told(rt: HostRuntime) {
    let then = kept_of(&rt, rt.alloc(), THEN, SUBS_THEN);
    let now = kept_of(&rt, rt.alloc(), NOW, SUBS_NOW);
    tells(&rt, rt.alloc(), then.as_slice(), now.as_slice(), LINES);
    tells(&rt, rt.alloc(), then.as_slice(), then.as_slice(), "");
}

/// Yesterday's document.
const SAVED: &str =
    "{\"format\":1,\"fixtures\":[{\"uid\":\"7FF0:00000001\",\"model\":\"Spot\",\"model_id\":\"0x0102\",\"label\":\"Left\",\"software_id\":\"0x0A0B0C0D\",\"personality\":2,\"personality_name\":\"Fine\",\"personalities\":3,\"address\":1,\"footprint\":8,\"hours\":10,\"sub_devices\":[{\"number\":2,\"address\":3,\"footprint\":4},{\"number\":3,\"address\":7,\"footprint\":4}]},{\"uid\":\"7FF0:00000003\",\"model\":\"Haze\",\"model_id\":\"0x0200\",\"label\":\"\",\"software_id\":\"0x0A0B0C0D\",\"personality\":1,\"personality_name\":\"Fine\",\"personalities\":3,\"address\":40,\"footprint\":8,\"hours\":7,\"sub_devices\":[{\"number\":2,\"address\":3,\"footprint\":4},{\"number\":3,\"address\":7,\"footprint\":4}]}]}";

#[test]
fn surveys_are_saved(rt: HostRuntime) {
    let rows = rows_of(&rt, rt.alloc(), THEN, SUBS_THEN);
    let mut text = Vec::new(rt.alloc());
    put_saved(rt.alloc(), rows.as_slice(), &mut text).expect(&rt, "memory");
    assert!(rt; text.as_slice() == SAVED.as_bytes());
}

#[test]
fn saved_surveys_are_read(rt: HostRuntime) {
    let then = read_saved(rt.alloc(), SAVED.as_bytes()).expect(&rt, "a survey");
    let kept = kept_of(&rt, rt.alloc(), THEN, SUBS_THEN);
    let now = kept_of(&rt, rt.alloc(), NOW, SUBS_NOW);
    assert!(rt; then.len() == 2);
    tells(&rt, rt.alloc(), then.as_slice(), kept.as_slice(), "");
    tells(&rt, rt.alloc(), then.as_slice(), now.as_slice(), LINES);
}

/// Texts of which each shows one byte or none, in a label.
const LABELS: &[(&str, Option<&str>)] = &[
    ("\"\"", Some("")),
    ("\"Left\"", Some("Left")),
    ("\"\\\\\\\\\"", Some("\\")),
    ("\"\\\\x0A\"", Some("\n")),
    // One backslash, another letter behind it, digits that are none, and a byte that isn't ASCII.
    ("\"\\\\\"", None),
    ("\"\\\\n\"", None),
    ("\"\\\\x0G\"", None),
    ("7", None),
];

#[test]
fn labels_are_read(rt: HostRuntime) {
    for (shown, label) in LABELS {
        is_label(&rt, rt.alloc(), shown, *label);
    }
}

/// A text shows this label, or none.
fn is_label(rt: &impl Abort, alloc: Global, shown: &str, label: Option<&str>) {
    let text = format!(in alloc;
        "{{\"format\":1,\"fixtures\":[{{\"uid\":\"7FF0:00000001\",\"label\":{shown}}}]}}"
    );
    let text = text.expect(rt, "memory");
    let is_so = match (read_saved(alloc, text.as_bytes()), label) {
        (Ok(list), Some(label)) => has_label(list.as_slice(), label),
        (Err(ReadError::WrongValue(1, _)), None) => true,
        _ => false,
    };
    assert!(rt; is_so, "{shown}");
}

/// Whether the last fixture has this label.
fn has_label(list: &[Kept], label: &str) -> bool {
    let read = list.last().and_then(|kept| kept.label.as_ref());
    read.is_some_and(|read| read.as_slice() == label.as_bytes())
}

/// Texts that are no survey, and what is wrong with them.
const WRONG: &[(&str, &str)] = &[
    ("", "this isn't JSON"),
    ("{\"format\":1", "this isn't JSON"),
    ("[]", "this isn't a survey in format 1"),
    ("{\"fixtures\":[]}", "this isn't a survey in format 1"),
    (
        "{\"format\":2,\"fixtures\":[]}",
        "this isn't a survey in format 1",
    ),
    ("{\"format\":1}", "there is no list of fixtures"),
    (
        "{\"format\":1,\"fixtures\":{}}",
        "there is no list of fixtures",
    ),
    (
        "{\"format\":1,\"fixtures\":[{\"uid\":\"7FF0:00000001\"},{}]}",
        "fixture 2 has no UID",
    ),
    (
        "{\"format\":1,\"fixtures\":[{\"uid\":\"7FF0\"}]}",
        "fixture 1 has no UID",
    ),
    (
        "{\"format\":1,\"fixtures\":[{\"uid\":\"7FF0:00000001\",\"address\":65536}]}",
        "fixture 1 has a wrong value for address",
    ),
    (
        "{\"format\":1,\"fixtures\":[{\"uid\":\"7FF0:00000001\",\"model_id\":258}]}",
        "fixture 1 has a wrong value for model_id",
    ),
    (
        "{\"format\":1,\"fixtures\":[{\"uid\":\"7FF0:00000001\",\"sub_devices\":[{\"number\":1}]}]}",
        "fixture 1 has a wrong value for sub_devices",
    ),
    (
        "{\"format\":1,\"fixtures\":[{\"uid\":\"7FF0:00000001\"},{\"uid\":\"7ff0:00000001\"}]}",
        "7FF0:00000001 appears twice",
    ),
];

#[test]
fn wrong_texts_are_refused(rt: HostRuntime) {
    for (text, wanted) in WRONG {
        let said = said_of(rt.alloc(), text).expect(&rt, "memory");
        assert!(rt; said.as_str() == *wanted, "{said}, not {wanted}");
    }
}

/// What is wrong with a text.
fn said_of(alloc: Global, text: &str) -> Result<String, AllocError> {
    match read_saved(alloc, text.as_bytes()) {
        Ok(_) => String::from_str(alloc, "read"),
        Err(error) => format!(in alloc; "{error}"),
    }
}

const WITH_OTHERS: &str =
    "{\"by\":\"me\",\"format\":1,\"fixtures\":[{\"uid\":\"7FF0:00000001\",\"dmx\":[1]}]}";

#[test]
fn unknown_members_are_passed_over(rt: HostRuntime) {
    let list = read_saved(rt.alloc(), WITH_OTHERS.as_bytes()).expect(&rt, "a survey");
    assert!(rt; list.len() == 1);
}

/// A remedy: of a sub-device, a parameter and its data.
type Wanted = (u16, u16, &'static [u8]);

const BACK: &[Wanted] = &[
    (0, 0x00F0, &[0, 1]),
    (2, 0x00F0, &[0, 3]),
    (0, 0x0082, b"Left"),
];

/// A new personality may move the addresses.
const MOVED_BACK: &[Wanted] = &[
    (0, 0x00E0, &[2]),
    (0, 0x00F0, &[0, 1]),
    (2, 0x00F0, &[0, 3]),
    (3, 0x00F0, &[0, 7]),
];

/// Whether the remedies are these.
fn are(found: &[Remedy], wanted: &[Wanted]) -> bool {
    found.len() == wanted.len()
        && found
            .iter()
            .zip(wanted)
            .all(|(remedy, row)| is_remedy(remedy, row))
}

fn is_remedy(remedy: &Remedy, row: &Wanted) -> bool {
    (remedy.sub, remedy.pid, remedy.data.as_slice()) == *row
}

#[test]
fn changes_are_set_back(rt: HostRuntime) {
    let then = kept_of(&rt, rt.alloc(), THEN, SUBS_THEN);
    let now = kept_of(&rt, rt.alloc(), NOW, SUBS_NOW);
    let moved = kept_of(&rt, rt.alloc(), MOVED, &[]);
    is_set_back(&rt, rt.alloc(), then.as_slice(), now.as_slice(), BACK);
    is_set_back(
        &rt,
        rt.alloc(),
        then.as_slice(),
        moved.as_slice(),
        MOVED_BACK,
    );
}

/// These remedies set back what has changed.
fn is_set_back(rt: &impl Abort, alloc: Global, then: &[Kept], now: &[Kept], wanted: &[Wanted]) {
    let found = remedies(alloc, then, now).expect(rt, "memory");
    assert!(rt; are(found.as_slice(), wanted));
}
