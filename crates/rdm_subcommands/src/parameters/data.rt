//! The data of a command: their length and their range, found by handing in data of each length and each value.

use rdm_frame::standard::MOST_DATA;
use rdm_params::{Devices, Kind, Profile, Value, Verb, read_value};
use std::alloc::{AllocError, Global};
use std::fmt::Write;

/// The data of a command: how many bytes at least and at most, and what the fewest of them say.
#[derive(Drop)]
pub struct Data {
    least: usize,
    most: usize,
    value: Value,
}

/// A number in the data of a command.
#[derive(Clone, Copy)]
enum Number {
    /// The whole data, of one byte.
    Byte,
    /// The whole data, of two bytes.
    Word,
    /// The preset, of a preset with its level.
    Mode,
    /// The level, of a preset with its level.
    Level,
}

impl Number {
    /// The greatest that its bytes can say.
    fn greatest(self) -> u16 {
        match self {
            Number::Byte | Number::Level => 0xFF,
            Number::Word | Number::Mode => 0xFFFF,
        }
    }

    /// The data that have this number, and else 0.
    fn value(self, number: u16) -> Value {
        let [_, low] = number.to_be_bytes();
        match self {
            Number::Byte => Value::Byte(low),
            Number::Word => Value::Word(number),
            Number::Mode => Value::Preset {
                mode: number,
                level: 0,
            },
            Number::Level => Value::Preset {
                mode: 0,
                level: low,
            },
        }
    }
}

/// How many of the least and of the greatest numbers are tried: among them are all that the standards name.
const AT_ENDS: u16 = 0x400;

/// The numbers of 16 bits at which a range can begin or end, in their order: the least and the greatest, and beside each that the profile
/// names the one before and the one behind it. Trying all of them would take a second and more.
pub(crate) fn numbers_tried(alloc: Global, profile: &Profile) -> Result<Vec<u16>, AllocError> {
    let mut tried = Vec::new(alloc);
    for number in 0..AT_ENDS {
        tried.push(number)?;
        tried.push(u16::MAX - number)?;
    }
    push_around(&mut tried, profile.presets)?;
    for status in profile.status_texts.as_slice() {
        push_around(&mut tried, status.id)?;
    }
    for def in profile.particulars.own() {
        push_around(&mut tried, def.pid)?;
    }
    tried.sort_unstable();
    tried.dedup();
    Ok(tried)
}

/// A number, and the one before and the one behind it.
fn push_around(tried: &mut Vec<u16>, number: u16) -> Result<(), AllocError> {
    tried.push(number.saturating_sub(1))?;
    tried.push(number)?;
    tried.push(number.saturating_add(1))?;
    Ok(())
}

/// The data of a command, or nothing if the parameter has no such command.
pub(crate) fn data_of(kind: Kind, verb: Verb) -> Option<Data> {
    let zeros = [0; MOST_DATA];
    let mut found = None;
    for length in 0..=MOST_DATA {
        let data = zeros.get(..length).unwrap_or(&[]);
        if let Ok(value) = read_value(kind, verb, data) {
            found = match found {
                None => Some(Data {
                    least: length,
                    most: length,
                    value,
                }),
                Some(data) => Some(Data {
                    most: length,
                    ..data
                }),
            };
        }
    }
    found
}

/// The length and the range of the data of a command to a device, in hexadecimal digits.
pub(crate) fn put_data(
    text: &mut String,
    command: Command<'_>,
    data: &Data,
) -> Result<(), AllocError> {
    match (data.least, data.most) {
        (0, 0) => text.push_str("no data")?,
        (1, 1) => text.push_str("1 byte, ")?,
        (least, most) if least == most => write!(text, "{most} bytes, ")?,
        (least, most) => write!(text, "{least} to {most} bytes, ")?,
    }
    match &data.value {
        Value::Byte(_) => command.put_range(text, Number::Byte),
        Value::Word(_) => command.put_range(text, Number::Word),
        Value::Preset { .. } => {
            command.put_range(text, Number::Mode)?;
            text.push_str(", then a level ")?;
            command.put_range(text, Number::Level)
        }
        Value::Nothing => Ok(()),
        // Nothing else than any data is a range of the table for these forms, which have too many to be tried.
        _ => text.push_str("any"),
    }
}

/// A command to a device.
#[derive(Clone, Copy)]
pub struct Command<'a> {
    pub devices: &'a Devices,
    /// The numbers that are tried in its data, as `numbers_tried` gives them.
    pub tried: &'a [u16],
    pub sub: u16,
    pub kind: Kind,
    pub verb: Verb,
}

impl Command<'_> {
    /// The numbers that are in range.
    fn put_range(&self, text: &mut String, number: Number) -> Result<(), AllocError> {
        let mut first = None;
        let mut has_run = false;
        for value in self.tried.iter().copied() {
            if value > number.greatest() {
                break;
            }
            let is_in_range = self
                .devices
                .in_range(self.sub, self.kind, self.verb, &number.value(value));
            match first {
                None if is_in_range => first = Some(value),
                Some(from) if !is_in_range => {
                    put_comma(text, has_run)?;
                    put_run(text, number, from, value.saturating_sub(1))?;
                    has_run = true;
                    first = None;
                }
                _ => {}
            }
        }
        match first {
            Some(from) => {
                put_comma(text, has_run)?;
                put_run(text, number, from, number.greatest())
            }
            None if has_run => Ok(()),
            None => text.push_str("no value"),
        }
    }
}

/// A comma between this run and one before it.
fn put_comma(text: &mut String, has_run: bool) -> Result<(), AllocError> {
    if has_run { text.push_str(", ") } else { Ok(()) }
}

/// Numbers that follow one another.
fn put_run(text: &mut String, number: Number, from: u16, to: u16) -> Result<(), AllocError> {
    put_number(text, number, from)?;
    if to == from {
        return Ok(());
    }
    text.push_str(" to ")?;
    put_number(text, number, to)
}

/// A number, in as many digits as its bytes have.
fn put_number(text: &mut String, number: Number, value: u16) -> Result<(), AllocError> {
    match number {
        Number::Byte | Number::Level => write!(text, "{value:02X}"),
        Number::Word | Number::Mode => write!(text, "{value:04X}"),
    }
}
