//! A parameter that the maker of a fixture adds.

use rdm_device::columns::added::{has_get, has_set, size_of};
use rdm_device::{ParameterDef, Rights, Shape};
use std::alloc::AllocError;
use std::fmt::Write;
use std::str;

/// Its PID and its name, and its commands, each on a line, as those of the table.
pub(crate) fn put_own(text: &mut String, def: &ParameterDef) -> Result<(), AllocError> {
    let pid = def.pid;
    let name = str::from_utf8(def.name.as_slice()).unwrap_or("");
    writeln!(text, "{pid:04X} \"{name}\", root")?;
    if has_get(def.rights) {
        text.push_str("  GET: ")?;
        put_asked(text, def)?;
        text.push_str("\n")?;
    }
    if has_set(def.rights) {
        text.push_str("  SET: ")?;
        put_set(text, def)?;
        text.push_str("\n")?;
    }
    Ok(())
}

/// The data of a GET.
fn put_asked(text: &mut String, def: &ParameterDef) -> Result<(), AllocError> {
    let high = def.high.cast_unsigned();
    match def.shape {
        Shape::Names | Shape::Rates => text.push_str("1 byte, the number of a choice"),
        Shape::Scenes => write!(text, "2 bytes, 0001 to {high:04X}"),
        _ => text.push_str("no data"),
    }
}

/// The data of a SET. Those that set back have none.
fn put_set(text: &mut String, def: &ParameterDef) -> Result<(), AllocError> {
    match def.rights {
        Rights::Clear => text.push_str("no data"),
        _ => put_data(text, def),
    }
}

/// The length and the range of the data that it takes, in hexadecimal digits.
fn put_data(text: &mut String, def: &ParameterDef) -> Result<(), AllocError> {
    let size = size_of(def.shape);
    let (low, high) = (def.low.cast_unsigned(), def.high.cast_unsigned());
    match def.shape {
        Shape::Byte | Shape::SignedByte | Shape::Choice => {
            let (low, high) = (low % 0x100, high % 0x100);
            write!(text, "1 byte, {low:02X} to {high:02X}")
        }
        Shape::Word | Shape::SignedWord => {
            let (low, high) = (low % 0x1_0000, high % 0x1_0000);
            write!(text, "2 bytes, {low:04X} to {high:04X}")
        }
        Shape::Long | Shape::SignedLong => {
            let (low, high) = (low % 0x1_0000_0000, high % 0x1_0000_0000);
            write!(text, "4 bytes, {low:08X} to {high:08X}")
        }
        Shape::Text => write!(text, "0 to {size} bytes, any"),
        Shape::Bits(1) | Shape::Slots(1) => text.push_str("1 byte, any"),
        Shape::Bits(_) | Shape::Slots(_) => write!(text, "{size} bytes, any"),
        Shape::Names | Shape::Rates => text.push_str("no data"),
        Shape::Block => text.push_str("2 bytes, 0001 to 0200"),
        Shape::Scenes => put_scenes(text, low, high),
        Shape::Lock => write!(text, "3 bytes, the PIN and 00 to {high:02X}"),
        Shape::Pin => write!(
            text,
            "4 bytes, the new PIN, 0000 to {high:04X}, and the PIN"
        ),
    }
}

/// A scene that can be written, its three times, and whether it is cleared.
fn put_scenes(text: &mut String, low: u64, high: u64) -> Result<(), AllocError> {
    let first = low % 0x100 + 1;
    write!(
        text,
        "9 bytes, {first:04X} to {high:04X}, any times, and 00 or 01"
    )
}
