//! Fixtures that answer by a list, and the files that describe them.

mod contradictions;
mod dimmers;

use rdm_describe::{Answer, Question, Round, describe, put_description, questions};
use rdm_fixture::Fixture;
use rdm_frame::Uid;
use rdm_frame::digits::bytes_in;
use rdm_frame::standard::MOST_DATA;
use std::alloc::{AllocError, Global};
use std::str;
use std::test::Fail;

const UID: Uid = Uid {
    maker: 0x7FF0,
    device: 0x40,
};

/// An answer: the sub-device, the parameter, what it is asked about, the data in hexadecimal digits, and the time that ACK_TIMER gave.
type Row = (u16, u16, u16, &'static str, Option<u16>);

/// An LED PAR can of three channels, with one self test, one status ID and one sensor that needs time.
const PAR: [Row; 17] = [
    (
        0,
        0x0050,
        0,
        "0020003000310080008200E000E101200121012202000201102010218001",
        None,
    ),
    (0, 0x0060, 0, "01000040010100000000000301010001000001", None),
    (0, 0x00C0, 0, "312E30", None),
    (0, 0x0080, 0, "4C4544205041522033", None),
    (0, 0x0082, 0, "504152", None),
    (0, 0x00E1, 1, "010003524742", None),
    (0, 0x0120, 0, "000000020500010002060002000207", None),
    (0, 0x0121, 0, "0000526564", None),
    (0, 0x0121, 1, "0001477265656E", None),
    (0, 0x0121, 2, "0002426C7565", None),
    (0, 0x8001, 0, "32", None),
    (0, 0x0122, 0, "000000000180000200", None),
    (0, 0x0200, 0, "00000100FFEC00780000005503", None),
    (0, 0x0201, 0, "000019000000190000", Some(7)),
    (0, 0x1021, 1, "0146616E", None),
    (0, 0x0031, 0x8001, "46616E20626C6F636B6564", None),
    (
        0,
        0x0051,
        0x8001,
        "80010103030000000000001400000064000000324661",
        None,
    ),
];

/// The bytes that digits spell, or none if they spell none.
fn bytes_of(alloc: Global, digits: &[u8]) -> Result<Vec<u8>, AllocError> {
    if digits.len() > 2 * MOST_DATA {
        return Ok(Vec::new(alloc));
    }
    match bytes_in(digits) {
        Some(load) => Vec::from_slice(alloc, load.as_slice()),
        None => Ok(Vec::new(alloc)),
    }
}

fn answers(alloc: Global, rows: &[Row]) -> Result<Vec<Answer>, AllocError> {
    let mut list = Vec::new(alloc);
    for (sub, pid, about, digits, estimate) in rows {
        let data = bytes_of(alloc, digits.as_bytes())?;
        let question = Question {
            sub: *sub,
            pid: *pid,
            about: *about,
        };
        list.push(Answer {
            question,
            data,
            estimate: *estimate,
        })?;
    }
    Ok(list)
}

/// The file of a fixture.
fn file(alloc: Global, rows: &[Row]) -> Result<String, Fail> {
    let answers = answers(alloc, rows)?;
    let description = describe(alloc, UID, answers.as_slice())?;
    let text = put_description(alloc, answers.as_slice(), &description)?;
    let text = str::from_utf8(text.as_slice())?;
    let fixture = Fixture::from_toml(alloc, text)?;
    if fixture != description.fixture {
        return Err(Fail::from("another fixture is read back"));
    }
    Ok(String::from_str(alloc, text)?)
}

/// The comments before each file.
const HEADING: &str = "\
# What 7FF0:00000040 answered on a line. No answer tells these, which can be written here by hand:
# how jobs end (outcome), who has them (workers), how long SETs take (estimates), what lock states lock (lock), what
# FACTORY_DEFAULTS resets, how many presets there are without PRESET_INFO, self tests above 32, status IDs above 0x801F,
# what DISC_MUTE tells (binding_uid, boot_loader, proxied_device), whether newer messages replace older ones (newest_only).
";

/// Whether a text has these words.
fn has(text: &str, words: &str) -> bool {
    text.find(words).is_some()
}

/// A fixture that answers all is described with no note, and each value stands under its key.
#[test]
fn par_can_is_described(rt: HostRuntime) -> Result<(), Fail> {
    let text = file(rt.alloc(), &PAR)?;
    assert!(rt; text.as_str().starts_with(HEADING));
    for words in [
        "uid = \"7FF0:00000040\"",
        "device_model_id = 64",
        "product_category = \"fixture, fixed\"",
        "device_label = \"PAR\"",
        "software_version_label = \"1.0\"",
        "dmx_footprint = 3",
        "range_minimum_value = -20",
        "range_maximum_value = 120",
        "normal_maximum_value = 85",
        "present = 25",
        "sensor_value = 7",
        "answered_at_once = false",
        "label_id = \"color add red\"",
        "default_value = 128",
        "description = \"Fan\"",
        "description = \"Fan blocked\"",
        "maximum_valid_value = 100",
        "pid = 32769",
    ] {
        assert!(rt; has(text.as_str(), words), "{words}");
    }
    Ok(())
}

/// What a file can't say of a fixture has a note: what it didn't answer, a text that would end its comment, a parameter that no file has,
/// and a sub-device of another kind.
const ODD: [Row; 6] = [
    (0, 0x0050, 0, "00310080008107000090", None),
    (0, 0x0060, 0, "010000400101000000000003020100C8000200", None),
    (0, 0x0080, 0, "4C45440A706172", None),
    (1, 0x0060, 0, "01000041010100000000000101010001000000", None),
    (2, 0x0060, 0, "01000042010100000000000101010001000000", None),
    (1, 0x00C0, 0, "31", None),
];

#[test]
fn odd_fixture_has_notes(rt: HostRuntime) -> Result<(), Fail> {
    let text = file(rt.alloc(), &ODD)?;
    for words in [
        "# SOFTWARE_VERSION_LABEL wasn't answered\n",
        "# MANUFACTURER_LABEL wasn't answered\n",
        "# DEVICE_MODEL_DESCRIPTION isn't a text of at most 32 printable characters, and is another one here; it told 4C45440A706172\n",
        "device_model_description = \"LED?par\"",
        "# 0x0700 is a parameter of the fixture that isn't here. It told nothing, and PARAMETER_DESCRIPTION nothing\n",
        "# STATUS_MESSAGES isn't a parameter of the fixture, but is one here\n",
        "# QUEUED_MESSAGE isn't a parameter of the fixture, but is one here\n",
        "# sub-device 2: it is another device than sub-device 1, as which it is here, and told 01000042010100000000000101010001000000\n",
        "# the fixture has personality 2 now, and starts with 1 here\n",
        "dmx_start_address = 200",
        "count = 2",
    ] {
        assert!(rt; has(text.as_str(), words), "{words}");
    }
    Ok(())
}

/// The first round asks for what each fixture has, the second for what it lists.
#[test]
fn asks_for_what_is_listed(rt: HostRuntime) -> Result<(), Fail> {
    let alloc = rt.alloc();
    let first = questions(alloc, Round::First, &[])?;
    assert_eq!(rt; first.len(), 3);
    let answers = answers(alloc, &PAR)?;
    let second = questions(alloc, Round::Second, answers.as_slice())?;
    let asks = |sub: u16, pid: u16, about: u16| Question { sub, pid, about };
    assert!(rt; second.contains(&asks(0, 0x0082, 0)));
    assert!(rt; second.contains(&asks(0, 0x0201, 0)));
    assert!(rt; second.contains(&asks(0, 0x0051, 0x8001)));
    assert!(rt; !second.contains(&asks(0, 0x0400, 0)));
    assert!(rt; !second.contains(&asks(0, 0x0200, 1)));
    let third = questions(alloc, Round::Third, answers.as_slice())?;
    assert!(rt; third.contains(&asks(0, 0x0121, 2)));
    assert!(rt; third.contains(&asks(0, 0x8001, 0)));
    assert_eq!(rt; third.len(), 4);
    assert_eq!(rt; asks(0, 0x0121, 2).load().as_slice(), [0, 2].as_slice());
    assert_eq!(rt; asks(0, 0x0200, 1).load().as_slice(), [1].as_slice());
    Ok(())
}
