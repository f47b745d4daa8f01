//! What a document says of a fixture, key by key.

ghost use Rattle.std.specs.Prelude.{◌≡◌, map};
ghost use Rattle.rdm_survey.specs.Members.{id_word, last_slot, long_id_word, members, number, of_device, of_status, said, told, told_number, told_text, word};

use crate::partner::Partner;
use crate::{DeviceInfo, Row, StatusCounts};
use rdm_frame::{Text, Uid};

/// What stands under a key.
#[derive(Clone, Copy)]
pub(crate) enum Cell<'a> {
    /// The fixture didn't tell.
    Nothing,
    /// A number.
    Number(u32),
    /// An ID of two slots, in hexadecimal digits behind `0x`.
    Id(u16),
    /// An ID of four slots.
    LongId(u32),
    /// A UID.
    Name(Uid),
    /// A text of the fixture.
    Text(&'a [u8]),
    /// What its slots clash with.
    Others(&'a [Partner]),
}

/// A key and what stands under it.
#[derive(Clone, Copy)]
pub(crate) struct Member<'a> {
    pub(crate) key: &'static str,
    pub(crate) cell: Cell<'a>,
}

/// The keys and what stands under them, in order.
pub(crate) fn members<'a>(row: &'a Row, others: &'a [Partner]) -> [Member<'a>; 20]
    ensures { map said result ≡ members row.now others.now }
{
    let (model_id, category, software_id) = ids(&row.device);
    let (address, last_address, footprint) = slots(&row.device);
    let (personality, personalities, sub_devices, sensors) = counts(&row.device);
    let (errors, warnings) = status(&row.status);
    [
        under("uid", Cell::Name(row.uid)),
        under("manufacturer", text(&row.manufacturer)),
        under("model", text(&row.model)),
        under("model_id", model_id),
        under("category", category),
        under("label", text(&row.label)),
        under("address", address),
        under("last_address", last_address),
        under("footprint", footprint),
        under("personality", personality),
        under("personalities", personalities),
        under("personality_name", text(&row.personality)),
        under("software", text(&row.software)),
        under("software_id", software_id),
        under("sub_devices", sub_devices),
        under("sensors", sensors),
        under("hours", number(row.hours)),
        under("errors", errors),
        under("warnings", warnings),
        under("clashes", Cell::Others(others)),
    ]
}

fn under<'a>(key: &'static str, cell: Cell<'a>) -> Member<'a>
    ensures { said result ≡ (key.now, told cell.entry) }
{
    Member { key, cell }
}

/// A text, if the fixture told it.
fn text(text: &Option<Text>) -> Cell<'_>
    ensures { told result ≡ told_text text.now }
{
    match text {
        Some(text) => Cell::Text(text.as_slice()),
        None => Cell::Nothing,
    }
}

/// A number, if the fixture told it.
fn number(number: Option<u32>) -> Cell<'static>
    ensures { told result ≡ told_number number }
{
    match number {
        Some(number) => Cell::Number(number),
        None => Cell::Nothing,
    }
}

/// The model ID, the product category and the software version ID.
fn ids(device: &Option<DeviceInfo>) -> (Cell<'static>, Cell<'static>, Cell<'static>)
    ensures model { told result.0 ≡ of_device device.now (λ d. word (id_word d.model_id)) }
    ensures category { told result.1 ≡ of_device device.now (λ d. word (id_word d.category)) }
    ensures software { told result.2 ≡ of_device device.now (λ d. word (long_id_word d.software_id)) }
{
    match device {
        Some(device) => (
            Cell::Id(device.model_id),
            Cell::Id(device.category),
            Cell::LongId(device.software_id),
        ),
        None => (Cell::Nothing, Cell::Nothing, Cell::Nothing),
    }
}

/// The start address, the last slot and the number of slots.
fn slots(device: &Option<DeviceInfo>) -> (Cell<'static>, Cell<'static>, Cell<'static>)
    ensures address { told result.0 ≡ of_device device.now (λ d. told_number d.address) }
    ensures last { told result.1 ≡ of_device device.now (λ d. last_slot d.address d.footprint) }
    ensures footprint { told result.2 ≡ of_device device.now (λ d. number d.footprint) }
{
    match device {
        Some(device) => (
            address(device.address),
            last_slot(device.address, device.footprint),
            Cell::Number(u32::from(device.footprint)),
        ),
        None => (Cell::Nothing, Cell::Nothing, Cell::Nothing),
    }
}

/// A start address, if there is one.
fn address(address: Option<u16>) -> Cell<'static>
    ensures { told result ≡ told_number address }
{
    match address {
        Some(address) => Cell::Number(u32::from(address)),
        None => Cell::Nothing,
    }
}

/// The last of so many slots from a start address on.
fn last_slot(address: Option<u16>, footprint: u16) -> Cell<'static>
    ensures { told result ≡ last_slot address footprint }
{
    match address {
        Some(first) if footprint > 0 => {
            Cell::Number(u32::from(first) + u32::from(footprint) - 1)
        }
        _ => Cell::Nothing,
    }
}

/// The number of the personality, and how many personalities, sub-devices and sensors there are.
fn counts(
    device: &Option<DeviceInfo>,
) -> (Cell<'static>, Cell<'static>, Cell<'static>, Cell<'static>)
    ensures personality { told result.0 ≡ of_device device.now (λ d. number d.personality) }
    ensures personalities { told result.1 ≡ of_device device.now (λ d. number d.personalities) }
    ensures sub_devices { told result.2 ≡ of_device device.now (λ d. number d.sub_devices) }
    ensures sensors { told result.3 ≡ of_device device.now (λ d. number d.sensors) }
{
    match device {
        Some(device) => (
            Cell::Number(u32::from(device.personality)),
            Cell::Number(u32::from(device.personalities)),
            Cell::Number(u32::from(device.sub_devices)),
            Cell::Number(u32::from(device.sensors)),
        ),
        None => (Cell::Nothing, Cell::Nothing, Cell::Nothing, Cell::Nothing),
    }
}

/// How many errors and warnings the status has.
fn status(status: &Option<StatusCounts>) -> (Cell<'static>, Cell<'static>)
    ensures errors { told result.0 ≡ of_status status.now (λ s. number s.errors) }
    ensures warnings { told result.1 ≡ of_status status.now (λ s. number s.warnings) }
{
    match status {
        Some(status) => (Cell::Number(status.errors), Cell::Number(status.warnings)),
        None => (Cell::Nothing, Cell::Nothing),
    }
}
