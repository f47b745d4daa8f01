//! What stands in a column of the table.

ghost use Rattle.std.specs.Prelude.{◌≡◌, ◌++◌, OnOk};
ghost use Rattle.rdm_survey.specs.Table.{count_words, counted, name_words, number_words, personality_words, range_words, status_words, text_words, told_in, words_in};

use crate::columns::Column;
use crate::partner::put_uid;
use crate::shown::{put_number, put_shown};
use crate::{DeviceInfo, Row, StatusCounts};
use rdm_frame::Text;
use std::alloc::AllocError;

/// Puts what stands in a column at the end of a text, of any width. What the fixture didn't tell is a hyphen.
pub fn put_words(text: &mut Vec<u8>, column: Column, row: &Row) -> Result<(), AllocError>
    ensures { OnOk result (text.new.items ≡ text.old.items ++ words_in column row.now) }
{
    match column {
        Column::Uid => put_uid(text, row.uid),
        Column::Manufacturer => put_text(text, &row.manufacturer),
        Column::Model => put_text(text, &row.model),
        Column::Label => put_text(text, &row.label),
        Column::Software => put_text(text, &row.software),
        Column::Hours => put_told(text, row.hours),
        Column::Status => put_status(text, &row.status),
        Column::Address
        | Column::Footprint
        | Column::Personality
        | Column::SubDevices
        | Column::Sensors => match &row.device {
            Some(device) => put_device(text, column, device, &row.personality),
            None => text.extend_from_slice(b"-"),
        },
    }
}

/// What DEVICE_INFO tells for a column.
fn put_device(
    text: &mut Vec<u8>,
    column: Column,
    device: &DeviceInfo,
    personality: &Option<Text>,
) -> Result<(), AllocError>
    ensures { OnOk result (text.new.items ≡ text.old.items ++ told_in column device.now personality.now) }
{
    match column {
        Column::Address => put_range(text, device.address, device.footprint),
        Column::Footprint => put_number(text, u32::from(device.footprint)),
        Column::Personality => put_personality(text, device, personality),
        Column::SubDevices => put_number(text, u32::from(device.sub_devices)),
        Column::Sensors => put_number(text, u32::from(device.sensors)),
        _ => Ok(()),
    }
}

/// A text, or a hyphen.
fn put_text(text: &mut Vec<u8>, words: &Option<Text>) -> Result<(), AllocError>
    ensures { OnOk result (text.new.items ≡ text.old.items ++ text_words words.now) }
{
    match words {
        Some(words) => put_shown(text, words.as_slice()),
        None => text.extend_from_slice(b"-"),
    }
}

/// A number, or a hyphen.
fn put_told(text: &mut Vec<u8>, number: Option<u32>) -> Result<(), AllocError>
    ensures { OnOk result (text.new.items ≡ text.old.items ++ number_words number) }
{
    match number {
        Some(number) => put_number(text, number),
        None => text.extend_from_slice(b"-"),
    }
}

/// The slots, as `101-108`.
fn put_range(text: &mut Vec<u8>, address: Option<u16>, footprint: u16) -> Result<(), AllocError>
    ensures { OnOk result (text.new.items ≡ text.old.items ++ range_words address footprint) }
{
    let Some(first) = address else {
        return text.extend_from_slice(b"-");
    };
    let first = u32::from(first);
    put_number(text, first)?;
    if footprint > 1 {
        text.extend_from_slice(b"-")?;
        put_number(text, first + u32::from(footprint) - 1)?;
    }
    Ok(())
}

/// The personality, as `2 of 3: Fine`.
fn put_personality(
    text: &mut Vec<u8>,
    device: &DeviceInfo,
    name: &Option<Text>,
) -> Result<(), AllocError>
    ensures { OnOk result (text.new.items ≡ text.old.items ++ personality_words name.now device.now) }
{
    put_number(text, u32::from(device.personality))?;
    text.extend_from_slice(b" of ")?;
    put_number(text, u32::from(device.personalities))?;
    put_name(text, name)
}

/// What a personality is called, behind a colon.
fn put_name(text: &mut Vec<u8>, name: &Option<Text>) -> Result<(), AllocError>
    ensures { OnOk result (text.new.items ≡ text.old.items ++ name_words name.now) }
{
    match name {
        Some(name) => {
            text.extend_from_slice(b": ")?;
            put_shown(text, name.as_slice())
        }
        None => Ok(()),
    }
}

/// The status, as `2 errors, 1 warning`, or `ok`.
fn put_status(text: &mut Vec<u8>, status: &Option<StatusCounts>) -> Result<(), AllocError>
    ensures { OnOk result (text.new.items ≡ text.old.items ++ status_words status.now) }
{
    match status {
        Some(status) => put_counts(text, status.errors, status.warnings),
        None => text.extend_from_slice(b"-"),
    }
}

fn put_counts(text: &mut Vec<u8>, errors: u32, warnings: u32) -> Result<(), AllocError>
    ensures { OnOk result (text.new.items ≡ text.old.items ++ count_words errors warnings) }
{
    match (errors, warnings) {
        (0, 0) => text.extend_from_slice(b"ok"),
        (0, _) => put_counted(text, warnings, " warning"),
        (_, 0) => put_counted(text, errors, " error"),
        _ => {
            put_counted(text, errors, " error")?;
            text.extend_from_slice(b", ")?;
            put_counted(text, warnings, " warning")
        }
    }
}

/// How many of what, with an `s` behind it unless it is one.
fn put_counted(text: &mut Vec<u8>, number: u32, what: &str) -> Result<(), AllocError>
    ensures { OnOk result (text.new.items ≡ text.old.items ++ counted number what.now) }
{
    put_number(text, number)?;
    text.extend_from_slice(what.as_bytes())?;
    if number != 1 {
        text.extend_from_slice(b"s")?;
    }
    Ok(())
}
