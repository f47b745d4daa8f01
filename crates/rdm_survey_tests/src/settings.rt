//! What no clause says: files that were worked out by hand, and the words of complaints (E1.20 sections 6.2.4, 9, 10.5.5 and 10.6.3).

use rdm_entry::{EntryError, Wrong};
use rdm_frame::{Load, Uid};
use rdm_settings::{Setting, Sheet, Unsaid, data_of, digits_of, settings_in};
use std::alloc::{AllocError, Global};
use std::process::Abort;

/// The PID of DEVICE_LABEL, and that of DMX_START_ADDRESS (table A-3).
const LABEL: u16 = 0x0082;

const ADDRESS: u16 = 0x00F0;

/// A setting as a row: line, device ID, sub-device, PID and data.
type Row = (usize, u32, u16, u16, &'static [u8]);

/// Whether these are the settings of a sheet, all of manufacturer 7FF0.
fn are_settings(sheet: &Sheet, rows: &[Row]) -> bool {
    sheet.settings.len() == rows.len()
        && sheet
            .settings
            .iter()
            .zip(rows.iter())
            .all(|(setting, row)| is_setting(setting, row))
}

fn is_setting(setting: &Setting, row: &Row) -> bool {
    let (line, device, sub, pid, bytes) = *row;
    let uid = Uid {
        maker: 0x7FF0,
        device,
    };
    (setting.line, setting.uid, setting.sub, setting.pid) == (line, uid, sub, pid)
        && setting.load.as_slice() == bytes
}

/// A byte order mark, CR and LF, a quoted cell, an empty line, one of empty cells, and no LF at the end.
const FILE: &str =
    "\u{FEFF}UID,sub,dmx_start_address,Device-Label,8001\r\n7FF0:00000001,,1,Front truss 1,\r\n\r\n7FF0:00000001,2,0x10,,0aFF\r\n,,,,\r\n7ff0:00000040,root,20,\"PAR, left\",-";

const ROWS: &[Row] = &[
    (2, 1, 0, ADDRESS, &[0x00, 0x01]),
    (2, 1, 0, LABEL, b"Front truss 1"),
    (4, 1, 2, ADDRESS, &[0x00, 0x10]),
    (4, 1, 2, 0x8001, &[0x0A, 0xFF]),
    (6, 0x40, 0, ADDRESS, &[0x00, 0x14]),
    (6, 0x40, 0, LABEL, b"PAR, left"),
    (6, 0x40, 0, 0x8001, &[]),
];

/// The sheet of a file.
fn sheet_of(rt: &impl Abort, alloc: Global, text: &[u8]) -> Sheet {
    settings_in(alloc, text).expect(rt, "memory")
}

#[test]
fn a_file_is_read(rt: HostRuntime) {
    let sheet = sheet_of(&rt, rt.alloc(), FILE.as_bytes());
    assert!(rt; (sheet.complaints.len(), are_settings(&sheet, ROWS)) == (0, true));
}

/// Labels as cells and as data: a hyphen is none, and an apostrophe is taken off before what a spreadsheet takes for a formula.
const LABELS: &[(&str, &str)] = &[
    ("a  b ", "a  b "),
    ("-", ""),
    ("'-", "-"),
    ("'=SUM(A1)", "=SUM(A1)"),
    ("''tis", "'tis"),
    ("'tis", "'tis"),
    ("\"\"\"x\"\"\"", "\"x\""),
];

#[test]
fn labels_are_whole(rt: HostRuntime) {
    for (cell, label) in LABELS {
        is_label(&rt, rt.alloc(), cell, label);
    }
}

/// A cell is a label.
fn is_label(rt: &impl Abort, alloc: Global, cell: &str, label: &str) {
    let text = format!(in alloc; "uid,device_label\n7FF0:00000001,{cell}\n").expect(rt, "memory");
    let sheet = sheet_of(rt, alloc, text.as_bytes());
    assert!(rt; told(&sheet) == Some(label.as_bytes()), "{cell}");
}

/// The data of the only setting of a sheet without complaints.
fn told(sheet: &Sheet) -> Option<&[u8]> {
    if !sheet.complaints.is_empty() || sheet.settings.len() != 1 {
        return None;
    }
    Some(sheet.settings.get(0)?.load.as_slice())
}

/// Files, each with the only complaint of it in words.
const FAULTS: &[(&str, &str)] = &[
    ("sub\n", "line 1: there is no column uid"),
    ("", "line 1: there is no column uid"),
    (
        "uid,00F0,dmx_start_address",
        "line 1, dmx_start_address: an earlier column has the same meaning",
    ),
    (
        "uid,start_address",
        "line 1, start_address: this isn't a parameter: is it DMX_START_ADDRESS?",
    ),
    (
        "uid,device_info",
        "line 1, device_info: DEVICE_INFO can't be set",
    ),
    (
        "uid,\"x",
        "line 1: this line has an unclosed quote, or ends with a carriage return only",
    ),
    (
        "uid,1000\n7FF0:1,1",
        "line 2, uid: \"7FF0:1\" isn't a UID: expected 4 hexadecimal digits, a colon and 8 more",
    ),
    (
        "uid,1000\nFFFF:FFFFFFFF,1",
        "line 2, uid: \"FFFF:FFFFFFFF\" isn't a single device",
    ),
    (
        "uid,sub\n7FF0:00000001,513",
        "line 2, sub: \"513\" isn't a sub-device: expected root, or 0 to 512",
    ),
    (
        "uid,dmx_start_address\n7FF0:00000001,513x",
        "line 2, dmx_start_address: \"513x\" isn't valid data: expected 0 to 65535",
    ),
    (
        "uid,dmx_start_address\n7FF0:00000001,1 2",
        "line 2, dmx_start_address: \"2\" is one word too many",
    ),
    (
        "uid,dmx_start_address\n7FF0:00000001,-",
        "line 2, dmx_start_address: a word is missing: expected 0 to 65535",
    ),
    (
        "uid,8001\n7FF0:00000001,012",
        "line 2, 8001: \"012\" isn't valid data: expected two hexadecimal digits for each byte, since nobody describes this parameter here",
    ),
    (
        "uid,device_label\n7FF0:00000001,012345678901234567890123456789012",
        "line 2, device_label: \"012345678901234567890123456789012\" isn't valid data: expected at most 32 printable ASCII characters",
    ),
    (
        "uid,1000\n7FF0:00000001,1,",
        "line 2: this line has 3 cells, but the first line has 2",
    ),
    (
        "uid,1000\n7FF0:00000001,1\n7FF0:00000001,0",
        "line 3: IDENTIFY_DEVICE of 7FF0:00000001 is already set in line 2",
    ),
];

#[test]
fn faults_are_told(rt: HostRuntime) {
    for (text, words) in FAULTS {
        is_fault(&rt, rt.alloc(), text, words);
    }
}

/// A file has one complaint, in these words.
fn is_fault(rt: &impl Abort, alloc: Global, text: &str, words: &str) {
    let sheet = sheet_of(rt, alloc, text.as_bytes());
    let found = first_words(alloc, &sheet).expect(rt, "memory");
    assert!(rt;
        (sheet.complaints.len(), found.as_str()) == (1, words),
        "{words}, not {found}"
    );
}

/// The words of the first complaint.
fn first_words(alloc: Global, sheet: &Sheet) -> Result<String, AllocError> {
    match sheet.complaints.as_slice() {
        [first, ..] => format!(in alloc; "{first}"),
        [] => Ok(String::new(alloc)),
    }
}

const FAULTY: &[u8] =
    b"uid,sub,x,dmx_start_address\n7FF0:00000001,600,1,1\n\xFF,1,1,\xFF\n7FF0:00000002,,,2\n";

#[test]
fn all_faults_are_found(rt: HostRuntime) {
    let sheet = sheet_of(&rt, rt.alloc(), FAULTY);
    let are_set = are_settings(&sheet, &[(4, 2, 0, ADDRESS, &[0, 2])]);
    assert!(rt; (sheet.complaints.len(), are_set) == (4, true));
}

#[test]
fn words_are_data(rt: HostRuntime) {
    let told = (
        digits_of(&[]),
        digits_of(&["0A1b"]),
        digits_of(&["0A", "1b"]),
    );
    let wanted = (
        Ok(Load::new()),
        Ok(Load::of(&[0x0A, 0x1B])),
        Err(Unsaid::Digits(1)),
    );
    assert!(rt; told == wanted);
}

#[test]
fn fields_are_data(rt: HostRuntime) {
    let missing = EntryError {
        index: 0,
        wrong: Wrong::Missing,
    };
    let told = (
        data_of(Some(&[rdm_entry::Field::Identifier]), &[]),
        data_of(None, &["x"]),
    );
    assert!(rt; told == (Err(Unsaid::Field(missing)), Err(Unsaid::Digits(0))));
}
