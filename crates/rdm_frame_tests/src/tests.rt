//! Frames and UIDs that were worked out by hand.
//!
//! Rows are text, one a line: what is asked, and behind ` = ` what is told. A line that begins with `#` is a comment.

mod hostile;
mod rows;

use rdm_frame::{
    Body, Frame, Load, Text, Uid, Wire, branch_uid, decode, decode_view, disc_reply, encode,
    encode_into, sum_of, uid_at,
};
use std::alloc::{AllocError, Global};
use std::process::Abort;

const DEVICE: Uid = Uid {
    maker: 0x7FF0,
    device: 1,
};

/// The controller asks the device whether it identifies itself.
const REQUEST: [u8; 26] = [
    0xCC, 0x01, 0x18, 0x7F, 0xF0, 0x00, 0x00, 0x00, 0x01, 0x7F, 0xF0, 0x00, 0x00, 0x00, 0x02, 0x00,
    0x01, 0x00, 0x00, 0x00, 0x20, 0x10, 0x00, 0x00, 0x03, 0xF7,
];

#[test]
fn rows_are_told_as_printed(rt: HostRuntime) {
    for rows in rows::ALL {
        try_rows(&rt, rt.alloc(), rows);
    }
}

fn try_rows(rt: &impl Abort, alloc: Global, rows: &str) {
    for row in rows.lines() {
        if !row.starts_with('#') {
            try_row(rt, alloc, row);
        }
    }
}

fn try_row(rt: &impl Abort, alloc: Global, row: &str) {
    let told = told_with(alloc, row).expect(rt, "memory");
    assert!(rt; told.as_str() == row, "{row}, not {told}");
}

/// What a row asks, and behind it what is told.
fn told_with(alloc: Global, row: &str) -> Result<String, AllocError> {
    let (asked, _) = row.split_once(" = ").unwrap_or((row, ""));
    let (word, text) = asked.split_once(' ').unwrap_or((asked, ""));
    let told = told(alloc, word, text)?;
    format!(in alloc; "{asked} = {told}")
}

fn told(alloc: Global, word: &str, text: &str) -> Result<String, AllocError> {
    if word == "uid" {
        return uid_text(alloc, text);
    }
    if word == "reply" {
        return reply_text(alloc, text);
    }
    let bytes = bytes_in(alloc, text)?;
    told_of_bytes(alloc, word, bytes.as_slice())
}

fn told_of_bytes(alloc: Global, word: &str, bytes: &[u8]) -> Result<String, AllocError> {
    match word {
        "frame" => frame_text(alloc, bytes),
        "sum" => sum_text(alloc, bytes),
        "branch" => branch_text(alloc, bytes),
        "alike" => String::from_str(alloc, alike(bytes)),
        _ => String::from_str(alloc, bound_text(word, bytes)),
    }
}

/// The sum of at most 257 slots.
fn sum_text(alloc: Global, bytes: &[u8]) -> Result<String, AllocError> {
    match Wire::from_slice(bytes) {
        Some(slots) => format!(in alloc; "{:04X}", sum_of(slots.as_slice())),
        None => String::from_str(alloc, "too many slots"),
    }
}

/// The bytes that hexadecimal digits print. `41*231` is 231 times the byte 41.
fn bytes_in(alloc: Global, text: &str) -> Result<Vec<u8>, AllocError> {
    let mut bytes = Vec::new(alloc);
    for word in text.split_whitespace() {
        let (digits, count) = word.split_once('*').unwrap_or((word, "1"));
        let byte = u8::from_str_radix(digits, 16).unwrap_or(0);
        put_times(&mut bytes, byte, count.parse::<u32>().unwrap_or(0))?;
    }
    Ok(bytes)
}

fn put_times(bytes: &mut Vec<u8>, byte: u8, count: u32) -> Result<(), AllocError> {
    for _ in 0..count {
        bytes.push(byte)?;
    }
    Ok(())
}

/// What a frame says, or why bytes are none.
fn frame_text(alloc: Global, bytes: &[u8]) -> Result<String, AllocError> {
    match decode(bytes) {
        Ok(frame) if is_text_of(bytes, &frame) => parts_text(alloc, &frame),
        Ok(_) => String::from_str(alloc, "the frame has another text"),
        Err(error) => format!(in alloc; "{error:?}: {error}"),
    }
}

fn parts_text(alloc: Global, frame: &Frame) -> Result<String, AllocError> {
    let front = format!(in alloc;
        "to {} from {}, transaction {}, port {}",
        frame.dst, frame.src, frame.tn, frame.port
    )?;
    with_command(alloc, &front, frame)
}

/// What stands behind the port.
fn with_command(alloc: Global, front: &str, frame: &Frame) -> Result<String, AllocError> {
    let data = frame.body.as_slice();
    format!(in alloc;
        "{front}, count {}, sub {}, class {:02X}, pid {:04X}, data {data:?}",
        frame.count, frame.sub, frame.class, frame.pid
    )
}

/// Whether these bytes are written of a frame, also over others, and it is read with borrowed data too.
fn is_text_of(bytes: &[u8], frame: &Frame) -> bool {
    let mut wire = Wire::of(&[0xFF; 257]);
    encode_into(&frame.view(), &mut wire);
    wire.as_slice() == bytes && encode(frame).as_slice() == bytes && view_is(bytes, frame)
}

/// Whether bytes that are read with borrowed data are this frame.
fn view_is(bytes: &[u8], frame: &Frame) -> bool {
    match decode_view(bytes) {
        Ok(view) => view.to_frame() == *frame,
        Err(_) => false,
    }
}

/// Whether so many bytes are taken.
fn bound_text(kind: &str, bytes: &[u8]) -> &'static str {
    let is_taken = match kind {
        "Body" => Body::from_slice(bytes).is_some(),
        "Wire" => Wire::from_slice(bytes).is_some(),
        "Load" => Load::from_slice(bytes).is_some(),
        "Text" => Text::from_slice(bytes).is_some(),
        _ => return "unknown",
    };
    if is_taken { "taken" } else { "too long" }
}

/// Whether a text is the label of seven letters.
fn alike(bytes: &[u8]) -> &'static str {
    let label = Text::of(b"Fixture");
    match Text::from_slice(bytes) {
        Some(other) if label == other => "the same",
        Some(_) => "different",
        None => "too long",
    }
}

/// What a UID is, or that a text is none.
fn uid_text(alloc: Global, text: &str) -> Result<String, AllocError> {
    match text.parse::<Uid>() {
        Ok(uid) if is_uid_of(text, uid) => told_of_uid(alloc, uid),
        Ok(_) => String::from_str(alloc, "another UID"),
        Err(error) => format!(in alloc; "{error:?}: {error}"),
    }
}

/// Whether a text is that of a UID, and its own text in digits of upper case.
fn is_uid_of(text: &str, uid: Uid) -> bool {
    Uid::from_text(text.as_bytes()) == Some(uid)
        && Uid::from_text(uid.text().as_slice()) == Some(uid)
}

fn told_of_uid(alloc: Global, uid: Uid) -> Result<String, AllocError> {
    let number = format!(in alloc; "{uid}, number {:012X}", uid.number())?;
    with_kind(alloc, &number, uid)
}

/// Which devices a UID addresses.
fn with_kind(alloc: Global, number: &str, uid: Uid) -> Result<String, AllocError> {
    let is_broadcast = uid.is_broadcast();
    let is_all_of = uid == Uid::all_of(uid.maker);
    let is_all = uid == Uid::ALL;
    let is_ours = uid.addresses(DEVICE);
    format!(in alloc;
        "{number}, broadcast: {is_broadcast}, all of its maker: {is_all_of}, all: {is_all}, addresses 7FF0:00000001: {is_ours}"
    )
}

/// The answer of a UID to DISC_UNIQUE_BRANCH.
fn reply_text(alloc: Global, text: &str) -> Result<String, AllocError> {
    match text.parse::<Uid>() {
        Ok(uid) => digits_of(alloc, disc_reply(uid).as_slice()),
        Err(error) => format!(in alloc; "{error}"),
    }
}

/// Two hexadecimal digits for each byte.
fn digits_of(alloc: Global, bytes: &[u8]) -> Result<String, AllocError> {
    let mut text = String::new(alloc);
    for byte in bytes {
        let digits = format!(in alloc; "{byte:02X}")?;
        text.push_str(&digits)?;
    }
    Ok(text)
}

/// The UID that such an answer tells.
fn branch_text(alloc: Global, bytes: &[u8]) -> Result<String, AllocError> {
    match branch_uid(bytes) {
        Some(uid) => format!(in alloc; "{uid}"),
        None => String::from_str(alloc, "none"),
    }
}

#[test]
fn bytes_are_copied_and_cleared(rt: HostRuntime) {
    let mut text = Text::new();
    text.append(b"Fix");
    text.append(b"ture");
    let twin = text.copy();
    text.clear();
    let told = (twin.as_slice(), text.as_slice());
    assert!(rt; told == (b"Fixture".as_slice(), b"".as_slice()));
}

/// Whether the order of the UIDs of two rows is that of their numbers.
fn is_ordered(row: &str, other: &str) -> bool {
    let (uid, other) = (uid_of(row), uid_of(other));
    uid.cmp(&other) == uid.number().cmp(&other.number())
}

/// The UID of a row.
fn uid_of(row: &str) -> Uid {
    let (asked, _) = row.split_once(" = ").unwrap_or((row, ""));
    asked
        .trim_start_matches("uid ")
        .parse::<Uid>()
        .unwrap_or(Uid::ALL)
}

#[test]
fn uids_stand_in_the_order_of_their_numbers(rt: HostRuntime) {
    for row in rows::UIDS.lines() {
        for other in rows::UIDS.lines() {
            assert!(rt; is_ordered(row, other), "{row} and {other}");
        }
    }
}

#[test]
fn uids_are_read_from_slots(rt: HostRuntime) {
    let told = (uid_at(&REQUEST, 3).number(), uid_at(&REQUEST, 9).number());
    assert!(rt; told == (0x7FF0_0000_0001, 0x7FF0_0000_0002));
}
