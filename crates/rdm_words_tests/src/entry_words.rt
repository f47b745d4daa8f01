//! Which words print what a GET is replied (E1.20 section 10, E1.37-1). The data and the words were worked out by hand.

use rdm_entry::{Field, data_in, fields_of, fields_replied, words_of};
use rdm_params::Verb;
use std::alloc::{AllocError, Global};
use std::str;
use std::test::Fail;

/// A parameter, the data of a reply, and their words with a bar between them, or nothing if no words say them.
type Row = (u16, &'static [u8], Option<&'static str>);

const ROWS: &[Row] = &[
    (0x00F0, &[0x00, 0x65], Some("101")),
    (0x00F0, &[0x65], None),
    (0x00F0, &[0x00, 0x65, 0x00], None),
    (0x0082, b"Front truss 1", Some("Front truss 1")),
    (0x0082, b"", Some("")),
    (0x0082, b"\"Bar\"", Some("\"\"Bar\"\"")),
    (0x0082, b"Bar\n", None),
    (0x00C0, b"1.0.2", Some("1.0.2")),
    (0x00C1, &[0x00, 0x01, 0x00, 0x02], Some("65538")),
    (0x00A0, b"ende", Some("en|de")),
    (0x00B0, b"en", Some("en")),
    (0x0050, &[0x80, 0x01, 0x00, 0xF0], Some("8001|00F0")),
    (0x00E0, &[2, 3], Some("2|3")),
    (
        0x00E1,
        &[2, 0x00, 0x0C, b'F', b'i', b'n', b'e'],
        Some("2|12|Fine"),
    ),
    (
        0x0201,
        &[1, 0xFF, 0xFE, 0x80, 0x00, 0x7F, 0xFF, 0, 0],
        Some("1|-2|-32768|32767|0"),
    ),
    (0x0400, &[0x00, 0x3D, 0x09, 0x00], Some("4000000")),
    (0x0403, &[2], Some("2")),
    (
        0x0603,
        &[0x07, 0xEA, 11, 27, 9, 5, 0],
        Some("2026|11|27|9|5|0"),
    ),
    (0x0640, &[0x00, 0x2A], Some("42")),
    (0x0641, &[0, 2], Some("0|2")),
    (0x1000, &[1], Some("1")),
    (0x1031, &[0xFF, 0xFF, 0x00], Some("65535|0")),
];

/// Words with bars between them.
fn joined(alloc: Global, words: &[Vec<u8>]) -> Result<Vec<u8>, AllocError> {
    let mut line = Vec::new(alloc);
    for (index, word) in words.iter().enumerate() {
        if index > 0 {
            line.push(b'|')?;
        }
        line.extend_from_slice(word.as_slice())?;
    }
    Ok(line)
}

/// Whether fields have these words, or none.
fn is_printed(alloc: Global, fields: &[Field], row: &Row) -> Result<bool, Fail> {
    match (words_of(alloc, fields, row.1)?, row.2) {
        (Some(words), Some(wanted)) => {
            let line = joined(alloc, words.as_slice())?;
            Ok(line.as_slice() == wanted.as_bytes())
        }
        (None, None) => Ok(true),
        _ => Ok(false),
    }
}

/// Whether a row is as it says.
fn holds(alloc: Global, row: &Row) -> Result<bool, Fail> {
    match fields_replied(alloc, row.0, row.1.len())? {
        Some(fields) => is_printed(alloc, fields.as_slice(), row),
        None => Ok(false),
    }
}

#[test]
fn replies_have_words(rt: HostRuntime) -> Result<(), Fail> {
    for row in ROWS {
        let is_so = holds(rt.alloc(), row)?;
        let (pid, wanted) = (row.0, row.2.unwrap_or("nothing"));
        assert!(rt; is_so, "{pid}: {wanted}");
    }
    Ok(())
}

#[test]
fn printed_words_are_read_back(rt: HostRuntime) -> Result<(), Fail> {
    let alloc = rt.alloc();
    let data = [0x00, 0x03, 0xFF];
    let fields = fields_of(0x1031, Verb::Set).unwrap_or(&[]);
    let words = words_of(alloc, fields, &data)?.unwrap_or(Vec::new(alloc));
    let mut texts = Vec::new(alloc);
    for word in &words {
        texts.push(str::from_utf8(word.as_slice()).unwrap_or(""))?;
    }
    let read = data_in(fields, texts.as_slice());
    assert!(rt; read.is_ok_and(|load| load.as_slice() == data.as_slice()));
    Ok(())
}
