//! What no clause says: which fields a parameter has, and what their numbers are called (E1.20 section 10, tables A-3 to A-11 and A-15;
//! E1.37-1). The data were worked out by hand.

use Verb::{Get, Set};
use rdm_entry::{
    Complaint, Field, data_in, fields_described, fields_of, nearest_parameter, parameter_named,
};
use rdm_params::Verb;
use std::alloc::{AllocError, Global};
use std::process::Abort;

/// A command of a parameter, the words of its data with a bar between them, and the data or what is told.
type Row = (Verb, u16, &'static str, Result<&'static [u8], &'static str>);

/// Commands of E1.20.
const ROWS: &[Row] = &[
    (Set, 0x00F0, "101", Ok(&[0x00, 0x65])),
    (Set, 0x00F0, "512", Ok(&[0x02, 0x00])),
    (Set, 0x00F0, "0x65", Ok(&[0x00, 0x65])),
    (Set, 0x00F0, "0001", Ok(&[0x00, 0x01])),
    (
        Set,
        0x00F0,
        "0101",
        Err("\"0101\" could be two numbers: is it 101 or 0x0101?"),
    ),
    (
        Set,
        0x00F0,
        "65536",
        Err("\"65536\" is out of range: expected 0 to 65535"),
    ),
    (
        Set,
        0x00F0,
        "1F",
        Err("\"1F\" isn't valid data: expected 0 to 65535"),
    ),
    (
        Set,
        0x00F0,
        "-1",
        Err("\"-1\" isn't valid data: expected 0 to 65535"),
    ),
    (
        Set,
        0x00F0,
        "+1",
        Err("\"+1\" isn't valid data: expected 0 to 65535"),
    ),
    (
        Set,
        0x00F0,
        "",
        Err("\"\" isn't valid data: expected 0 to 65535"),
    ),
    (Set, 0x00E0, "3", Ok(&[3])),
    (Set, 0x00E0, "10", Ok(&[10])),
    (
        Set,
        0x00E0,
        "010",
        Err("\"010\" could be two numbers: is it 10 or 0x010?"),
    ),
    (
        Set,
        0x00E0,
        "256",
        Err("\"256\" is out of range: expected 0 to 255"),
    ),
    (Set, 0x1000, "on", Ok(&[1])),
    (Set, 0x1000, "OFF", Ok(&[0])),
    (
        Set,
        0x1000,
        "true",
        Err("\"true\" isn't valid data: expected 0 to 255, off or on"),
    ),
    (Set, 0x0403, "strike", Ok(&[2])),
    (Set, 0x0403, "02", Ok(&[2])),
    (Set, 0x0404, "after_cal", Ok(&[3])),
    (Set, 0x1010, "full off", Ok(&[0])),
    (Set, 0x1010, "Full-Off", Ok(&[0])),
    (Set, 0x1010, "normal", Ok(&[0xFF])),
    (Set, 0x1031, "3|255", Ok(&[0x00, 0x03, 0xFF])),
    (Set, 0x1031, "all|0", Ok(&[0xFF, 0xFF, 0x00])),
    (
        Set,
        0x1031,
        "3",
        Err("a word is missing: expected 0 to 255"),
    ),
    (Set, 0x1031, "3|255|1", Err("\"1\" is one word too many")),
    (Set, 0x0082, "Front truss 1", Ok(b"Front truss 1")),
    (Set, 0x0082, "\"Front truss 1\"", Ok(b"Front truss 1")),
    (
        Set,
        0x0082,
        "Spot \u{E9}",
        Err("\"Spot \\xC3\\xA9\" isn't valid data: expected at most 32 printable ASCII characters"),
    ),
    (Set, 0x00B0, "en", Ok(b"en")),
    (Get, 0x0201, "0", Ok(&[0])),
    (Set, 0x0202, "all", Ok(&[0xFF])),
    (Get, 0x0031, "8001", Ok(&[0x80, 0x01])),
];

/// More of them, and some of E1.37-1.
const MORE: &[Row] = &[
    (Get, 0x0051, "0x8001", Ok(&[0x80, 0x01])),
    (
        Get,
        0x0051,
        "801",
        Err("\"801\" isn't valid data: expected 4 hexadecimal digits"),
    ),
    (Set, 0x0400, "4000000", Ok(&[0x00, 0x3D, 0x09, 0x00])),
    (Set, 0x0033, "warning", Ok(&[3])),
    (
        Set,
        0x00B0,
        "eng",
        Err("\"eng\" isn't valid data: expected the two letters of a language, such as en"),
    ),
    (
        Set,
        0x0603,
        "2026|11|27|9|05|0",
        Ok(&[0x07, 0xEA, 11, 27, 9, 5, 0]),
    ),
    (Set, 0x1001, "cold", Ok(&[0xFF])),
    (Set, 0x0640, "0042|9999", Ok(&[0x00, 0x2A, 0x27, 0x0F])),
    (
        Set,
        0x0640,
        "00042|9999",
        Err("\"00042\" isn't valid data: expected a PIN from 0000 to 9999"),
    ),
    (
        Set,
        0x0141,
        "1|0|without end|255",
        Ok(&[0, 1, 0, 0, 0xFF, 0xFF, 0xFF]),
    ),
    (Get, 0x0060, "", Err("\"\" is one word too many")),
    (Set, 0x1044, "on", Ok(&[1])),
    (Set, 0x1020, "all", Ok(&[0xFF])),
];

/// The words between bars.
fn words_in(alloc: Global, words: &'static str) -> Result<Vec<&'static str>, AllocError> {
    let mut list = Vec::new(alloc);
    for word in words.split('|') {
        list.push(word)?;
    }
    Ok(list)
}

/// What words say for fields, or is told of them.
type Said = Result<&'static [u8], &'static str>;

/// Words with bars between them say these data for fields, or it is told what is wrong.
fn says(rt: &impl Abort, alloc: Global, fields: &[Field], words: &'static str, expected: Said) {
    let list = words_in(alloc, words).expect(rt, "memory");
    let is_so = match (data_in(fields, list.as_slice()), expected) {
        (Ok(slots), Ok(wanted)) => slots.as_slice() == wanted,
        (Err(error), Err(wanted)) => {
            let told = format!(in alloc; "{}", Complaint::of(error, fields, list.as_slice()));
            told.expect(rt, "memory").as_str() == wanted
        }
        _ => false,
    };
    assert!(rt; is_so, "{words}");
}

/// Rows are as they say.
fn hold(rt: &impl Abort, alloc: Global, rows: &[Row]) {
    for (verb, pid, words, expected) in rows {
        let fields = fields_of(*pid, *verb).expect(rt, words);
        says(rt, alloc, fields, words, *expected);
    }
}

#[test]
fn words_say_data(rt: HostRuntime) {
    hold(&rt, rt.alloc(), ROWS);
}

#[test]
fn more_words_say_data(rt: HostRuntime) {
    hold(&rt, rt.alloc(), MORE);
}

/// A data type and a size of PARAMETER_DESCRIPTION, words, and the data or what is told.
const DESCRIBED: &[(u8, u8, &str, Said)] = &[
    (0x03, 1, "200", Ok(&[200])),
    (0x03, 3, "1|2|0x03", Ok(&[1, 2, 3])),
    (0x04, 1, "-128", Ok(&[0x80])),
    (
        0x04,
        1,
        "128",
        Err("\"128\" is out of range: expected -128 to 127"),
    ),
    (0x06, 2, "-5", Ok(&[0xFF, 0xFB])),
    (0x08, 4, "-2147483648", Ok(&[0x80, 0, 0, 0])),
    (0x02, 4, "Haze", Ok(b"Haze")),
];

#[test]
fn words_say_data_by_a_description(rt: HostRuntime) {
    for (kind, size, words, expected) in DESCRIBED {
        let fields = described(&rt, rt.alloc(), *kind, *size);
        says(&rt, rt.alloc(), fields.as_slice(), words, *expected);
    }
}

/// The fields that a description says.
fn described(rt: &impl Abort, alloc: Global, kind: u8, size: u8) -> Vec<Field> {
    let fields = fields_described(alloc, &[0x80, 0x00, size, kind, 0x03]);
    fields.expect(rt, "memory").expect(rt, "fields")
}

/// Neither bit fields nor words that don't fill the data have fields.
#[test]
fn other_descriptions_have_no_fields(rt: HostRuntime) {
    for (kind, size) in [(0x01, 1), (0x05, 3)] {
        let fields = fields_described(rt.alloc(), &[0x80, 0x00, size, kind, 0x03]);
        assert!(rt; fields.expect(&rt, "memory").is_none());
    }
}

/// Words, and the PIDs that they name.
const NAMED: &[(&str, Option<u16>)] = &[
    ("lamp_state", Some(0x0403)),
    ("Dmx-Start-Address", Some(0x00F0)),
    ("LOCK_PIN", Some(0x0640)),
    ("START_ADDRESS", None),
];

/// Words, and the names that are nearest to them.
const NEAREST: &[(&str, Option<&str>)] = &[
    ("START_ADDRESS", Some("DMX_START_ADDRESS")),
    ("identify_device", Some("IDENTIFY_DEVICE")),
    ("LAMP", None),
    ("foo", None),
    ("", None),
];

#[test]
fn parameters_have_names(rt: HostRuntime) {
    for (word, pid) in NAMED {
        assert!(rt; parameter_named(word) == *pid, "{word}");
    }
    for (word, name) in NEAREST {
        assert!(rt; nearest_parameter(word) == *name, "{word}");
    }
}
