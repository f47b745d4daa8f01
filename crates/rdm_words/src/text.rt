//! Bytes as text.

ghost use Rattle.std.specs.Prelude.{◌≡◌, ◌++◌, OnOk, string_bytes};
ghost use Rattle.std.specs.Int.{w16, to_be_bytes};
ghost use Rattle.std.specs.Str.{IsAscii};
ghost use Rattle.rdm_frame.specs.Digits.{digits};
ghost use Rattle.rdm_words.specs.HeaderWords.{line_below, quoted};
ghost use Rattle.rdm_words.specs.Plain.{is_printable, is_of_tables, is_plain, by_digits, shown_byte, shown, escaped_byte, escaped};

use rdm_frame::digits::put_digits;
use std::alloc::AllocError;
use std::str;

/// The bytes in hexadecimal digits.
pub(crate) fn put_hex(text: &mut String, bytes: &[u8]) -> Result<(), AllocError>
    ensures { OnOk result (string_bytes text.new ≡ string_bytes text.old ++ digits bytes.now) }
{
    let mut shown = Vec::new(*text.allocator());
    put_digits(&mut shown, bytes)?;
    put_ascii(text, shown.as_slice())
}

/// The words on a line of their own below, if there are any.
pub(crate) fn put_below(text: &mut String, words: &str) -> Result<(), AllocError>
    ensures { OnOk result (string_bytes text.new ≡ string_bytes text.old ++ line_below words.now) }
{
    if words.is_empty() {
        return Ok(());
    }
    text.push_str("\n  ")?;
    text.push_str(words)
}

/// The two bytes of a number in hexadecimal digits.
pub(crate) fn put_word(text: &mut String, word: u16) -> Result<(), AllocError>
    ensures { OnOk result (string_bytes text.new ≡ string_bytes text.old ++ digits (to_be_bytes w16 word)) }
{
    put_hex(text, &word.to_be_bytes())
}

/// Characters of ASCII. Nothing else is handed in.
#[tactic(auto, using(crate::proofs::Plainness::ascii_is_text))]
fn put_ascii(text: &mut String, characters: &[u8]) -> Result<(), AllocError>
    ensures { IsAscii characters.now → OnOk result (string_bytes text.new ≡ string_bytes text.old ++ characters.now) }
{
    match str::from_utf8(characters) {
        Ok(characters) => text.push_str(characters),
        Err(_) => Ok(()),
    }
}

/// The bytes as a text of the fixture, in quotes.
pub(crate) fn put_quoted(text: &mut String, bytes: &[u8]) -> Result<(), AllocError>
    ensures { OnOk result (string_bytes text.new ≡ string_bytes text.old ++ quoted bytes.now) }
{
    text.push_str("\"")?;
    put_foreign(text, bytes)?;
    text.push_str("\"")
}

/// A text of the fixture, escaped.
pub(crate) fn put_foreign(text: &mut String, bytes: &[u8]) -> Result<(), AllocError>
    ensures { OnOk result (string_bytes text.new ≡ string_bytes text.old ++ escaped bytes.now) }
{
    let mut shown = Vec::new(*text.allocator());
    put_escaped(&mut shown, bytes)?;
    put_ascii(text, shown.as_slice())
}

/// The bytes as text: a byte that isn't a printable ASCII character stands as `\x` and its digits, and a quote or a backslash
/// has a backslash before it. So no byte is lost, and none reaches a terminal as a command.
pub(crate) fn put_escaped(out: &mut Vec<u8>, bytes: &[u8]) -> Result<(), AllocError>
    ensures { OnOk result (out.new.items ≡ out.old.items ++ escaped bytes.now) }
{
    for byte in bytes {
        put_escaped_byte(out, *byte)?;
    }
    Ok(())
}

#[tactic(auto, unfolding(crate::specs::Plain::escaped_byte))]
fn put_escaped_byte(out: &mut Vec<u8>, byte: u8) -> Result<(), AllocError>
    ensures { OnOk result (out.new.items ≡ out.old.items ++ escaped_byte byte) }
{
    if byte == b'"' || byte == b'\\' {
        out.extend_from_slice(&[b'\\', byte])
    } else if is_printable(byte) {
        out.extend_from_slice(&[byte])
    } else {
        put_by_digits(out, byte)
    }
}

/// Words as they are written: a byte that isn't plain stands as `\x` and its digits.
pub(crate) fn put_shown(out: &mut Vec<u8>, words: &[u8]) -> Result<(), AllocError>
    ensures { OnOk result (out.new.items ≡ out.old.items ++ shown words.now) }
{
    for byte in words {
        put_shown_byte(out, *byte)?;
    }
    Ok(())
}

#[tactic(auto, unfolding(crate::specs::Plain::shown_byte))]
fn put_shown_byte(out: &mut Vec<u8>, byte: u8) -> Result<(), AllocError>
    ensures { OnOk result (out.new.items ≡ out.old.items ++ shown_byte byte) }
{
    if is_plain(byte) {
        out.extend_from_slice(&[byte])
    } else {
        put_by_digits(out, byte)
    }
}

/// `\x` and the digits of a byte.
fn put_by_digits(out: &mut Vec<u8>, byte: u8) -> Result<(), AllocError>
    ensures { OnOk result (out.new.items ≡ out.old.items ++ by_digits byte) }
{
    out.extend_from_slice(b"\\x")?;
    put_digits(out, &[byte])
}

/// Whether a byte may be written as it is: printable ASCII, LF, or a byte of the characters of the tables.
fn is_plain(byte: u8) -> bool
    ensures { result ≡ is_plain byte }
{
    is_printable(byte) || byte == b'\n' || is_of_tables(byte)
}

fn is_printable(byte: u8) -> bool
    ensures { result ≡ is_printable byte }
{
    0x20 <= byte && byte <= 0x7E
}

fn is_of_tables(byte: u8) -> bool
    ensures { result ≡ is_of_tables byte }
{
    byte == 0xC2
        || byte == 0xB0
        || byte == 0xB2
        || byte == 0xB3
        || byte == 0xB5
        || byte == 0xCE
        || byte == 0xA9
}
