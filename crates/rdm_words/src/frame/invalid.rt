//! Bytes that aren't a valid frame, but are read as one.

ghost use Rattle.std.specs.Prelude.{◌≡◌, ◌≤◌, IfSome, length};
ghost use Rattle.rdm_words.specs.Fixed.{is_readable};

use rdm_frame::standard::{MOST_DATA, START_CODE, SUB_START_CODE};
use rdm_frame::{FrameView, sum_of, uid_at};
use std::alloc::AllocError;
use std::fmt::Write;

/// How many slots a frame has before its parameter data (E1.20 section 6.2).
const HEADER: usize = 24;

/// How many slots a checksum has.
const CHECKSUM: usize = 2;

/// Whether a frame's header can be read, be the frame valid or not.
pub(crate) fn is_readable(bytes: &[u8]) -> bool
    ensures { result ≡ is_readable bytes.now }
{
    HEADER <= bytes.len() && bytes[0] == START_CODE && bytes[1] == SUB_START_CODE
}

/// What bytes say whose header can be read. The parameter data are as many slots as the header says, or what is there of them.
pub(crate) fn header_of(bytes: &[u8]) -> Option<FrameView<'_>>
    ensures whole { IfSome result (λ _. 24 ≤ length bytes.now) }
{
    let (header, rest) = bytes.split_first_chunk::<24>()?;
    let count = usize::from(header[23]).min(rest.len()).min(MOST_DATA);
    Some(FrameView {
        dst: uid_at(header, 3),
        src: uid_at(header, 9),
        tn: header[15],
        port: header[16],
        count: header[17],
        sub: u16::from_be_bytes([header[18], header[19]]),
        class: header[20],
        pid: u16::from_be_bytes([header[21], header[22]]),
        body: &rest[..count],
    })
}

/// What is wrong with bytes whose header can be read: each length that doesn't fit, and the checksum if it is there.
pub(crate) fn put_wrongs(text: &mut String, bytes: &[u8]) -> Result<(), AllocError>
    requires header { 24 ≤ length bytes.now }
{
    let (length, data) = (usize::from(bytes[2]), usize::from(bytes[23]));
    let whole = length + CHECKSUM;
    text.push_str("wrong: ")?;
    if length != HEADER + data {
        let right = HEADER + data;
        write!(
            text,
            "message length {length}, should be {right} with {data} data slots; "
        )?;
    }
    if bytes.len() < whole {
        let missing = whole - bytes.len();
        put_bytes_of(text, missing)?;
        return text.push_str(" missing");
    }
    if bytes.len() > whole {
        put_bytes_of(text, bytes.len() - whole)?;
        text.push_str(" left over; ")?;
    }
    put_checksum(text, &bytes[..length], &bytes[length..])
}

/// So many bytes are.
fn put_bytes_of(text: &mut String, count: usize) -> Result<(), AllocError> {
    match count {
        1 => text.push_str("1 byte is"),
        _ => write!(text, "{count} bytes are"),
    }
}

/// The checksum, and what it should be if it is wrong (section 6.2.11).
fn put_checksum(text: &mut String, slots: &[u8], rest: &[u8]) -> Result<(), AllocError>
    requires { length slots.now ≤ 255 }
{
    let [high, low, ..] = rest else {
        return Ok(());
    };
    let sum = sum_of(slots) % 65536;
    let found = u32::from(u16::from_be_bytes([*high, *low]));
    write!(text, "checksum {found:04X}")?;
    if found == sum {
        return text.push_str(" is right");
    }
    write!(text, ", should be {sum:04X}")
}
