//! What a document tells of a fixture.

ghost use Rattle.std.specs.Prelude.{◌≡◌, ◌≢◌, ◌^◌, codes, Ok, Err, IfOk, IfErr, Option, List, option_map, true};
ghost use Rattle.std.specs.Int.{w16, w32};
ghost use Rattle.json.specs.Find.{get};
ghost use Rattle.json.specs.Value.{items_view, value_view};
ghost use Rattle.rdm_compare.specs.declared.read_error.ReadError.TheVariants.{OutOfMemory};
ghost use Rattle.rdm_compare.specs.Reading.{fixture_by, makes_by, names_by, needed, number_by, number_if_told, personality_by, right, slots_by, sub_in, subs_are_once, subs_by, subs_if_told, subs_in, text_by, told_by, uid_by};
ghost use Rattle.rdm_compare.specs.Texts.{json_id};

use crate::difference::sub_of;
use crate::saved_text::key_of;
use crate::word_reading::{json_byte, json_id, json_long, json_long_id, json_text, json_word};
use crate::{Field, Kept, ReadError, SubDevices};
use json::Value;
use rdm_frame::{Text, Uid};
use rdm_survey::SubDevice;
use std::alloc::{AllocError, Global};

/// What its texts tell.
#[derive(Drop)]
pub(crate) struct Names {
    manufacturer: Option<Text>,
    model: Option<Text>,
    label: Option<Text>,
}

/// Of what make it is.
#[derive(Drop)]
pub(crate) struct Make {
    software: Option<Text>,
    software_id: Option<u32>,
    model_id: Option<u16>,
}

/// Its personality.
#[derive(Drop)]
pub(crate) struct Personality {
    number: Option<u8>,
    name: Option<Text>,
    count: Option<u8>,
}

/// Its slots, and how long it has run.
#[derive(Clone, Copy)]
pub(crate) struct Slots {
    address: Option<u16>,
    footprint: Option<u16>,
    hours: Option<u32>,
}

/// The fixture with this number.
#[tactic(auto, unfolding(crate::specs::Reading::fixture_by))]
pub(crate) fn fixture_by(alloc: Global, number: usize, value: &Value<'_>) -> Result<Kept, ReadError>
    ensures ok { IfOk result (λ kept. fixture_by number (value_view value.now) ≡ Ok kept) }
    ensures refused { IfErr result (λ e. e ≢ OutOfMemory → fixture_by number (value_view value.now) ≡ Err e) }
{
    let uid = uid_by(number, value)?;
    let names = names_by(alloc, number, value)?;
    let make = makes_by(alloc, number, value)?;
    let personality = personality_by(alloc, number, value)?;
    let slots = slots_by(number, value)?;
    let subs = subs_by(alloc, number, value)?;
    Ok(Kept {
        uid,
        manufacturer: names.manufacturer,
        model: names.model,
        model_id: make.model_id,
        label: names.label,
        software: make.software,
        software_id: make.software_id,
        personality: personality.number,
        personality_name: personality.name,
        personalities: personality.count,
        address: slots.address,
        footprint: slots.footprint,
        hours: slots.hours,
        sub_devices: SubDevices::from_vec(subs),
    })
}

/// Its UID.
#[tactic(auto, unfolding(crate::specs::Reading::uid_by))]
fn uid_by(number: usize, value: &Value<'_>) -> Result<Uid, ReadError>
    ensures { result ≡ uid_by number (value_view value.now) }
{
    let Some(word) = value.get("uid").and_then(Value::as_str) else {
        return Err(ReadError::NoUid(number));
    };
    match Uid::from_text(word.as_bytes()) {
        Some(uid) => Ok(uid),
        None => Err(ReadError::NoUid(number)),
    }
}

/// Who made it, what it is and what it's called.
#[tactic(auto, unfolding(crate::specs::Reading::names_by))]
fn names_by(alloc: Global, number: usize, value: &Value<'_>) -> Result<Names, ReadError>
    ensures ok { IfOk result (λ names. names_by number (value_view value.now) ≡ Ok names) }
    ensures refused { IfErr result (λ e. e ≢ OutOfMemory → names_by number (value_view value.now) ≡ Err e) }
{
    let manufacturer = text_by(alloc, number, Field::Manufacturer, value)?;
    let model = text_by(alloc, number, Field::Model, value)?;
    let label = text_by(alloc, number, Field::Label, value)?;
    Ok(Names {
        manufacturer,
        model,
        label,
    })
}

/// Its software and its model.
#[tactic(auto, unfolding(crate::specs::Reading::makes_by))]
fn makes_by(alloc: Global, number: usize, value: &Value<'_>) -> Result<Make, ReadError>
    ensures ok { IfOk result (λ make. makes_by number (value_view value.now) ≡ Ok make) }
    ensures refused { IfErr result (λ e. e ≢ OutOfMemory → makes_by number (value_view value.now) ≡ Err e) }
{
    let software = text_by(alloc, number, Field::Software, value)?;
    let software_id = long_id_by(number, Field::SoftwareId, value)?;
    let model_id = id_by(number, Field::ModelId, value)?;
    Ok(Make {
        software,
        software_id,
        model_id,
    })
}

/// Its personality.
#[tactic(auto, unfolding(crate::specs::Reading::personality_by))]
fn personality_by(alloc: Global, number: usize, value: &Value<'_>) -> Result<Personality, ReadError>
    ensures ok { IfOk result (λ personality. personality_by number (value_view value.now) ≡ Ok personality) }
    ensures refused { IfErr result (λ e. e ≢ OutOfMemory → personality_by number (value_view value.now) ≡ Err e) }
{
    let which = byte_by(number, Field::Personality, value)?;
    let name = text_by(alloc, number, Field::PersonalityName, value)?;
    let count = byte_by(number, Field::Personalities, value)?;
    Ok(Personality {
        number: which,
        name,
        count,
    })
}

/// Its slots, and its hours.
#[tactic(auto, unfolding(crate::specs::Reading::slots_by))]
fn slots_by(number: usize, value: &Value<'_>) -> Result<Slots, ReadError>
    ensures { result ≡ slots_by number (value_view value.now) }
{
    let address = word_by(number, Field::Address, value)?;
    let footprint = word_by(number, Field::Footprint, value)?;
    let hours = long_by(number, Field::Hours, value)?;
    Ok(Slots {
        address,
        footprint,
        hours,
    })
}

/// What it tells in a field that is a text.
#[tactic(auto, unfolding(crate::specs::Reading::told_by))]
fn text_by(
    alloc: Global,
    number: usize,
    field: Field,
    value: &Value<'_>,
) -> Result<Option<Text>, ReadError>
    ensures ok { IfOk result (λ text. text_by number field (value_view value.now) ≡ Ok text) }
    ensures refused { IfErr result (λ e. e ≢ OutOfMemory → text_by number field (value_view value.now) ≡ Err e) }
{
    let Some(member) = value.get(key_of(field)) else {
        return Ok(None);
    };
    match json_text(alloc, member)? {
        Some(text) => Ok(Some(text)),
        None => Err(ReadError::WrongValue(number, field)),
    }
}

/// What it tells in a field that is an ID of two slots.
#[tactic(auto, unfolding(crate::specs::Reading::told_by))]
fn id_by(number: usize, field: Field, value: &Value<'_>) -> Result<Option<u16>, ReadError>
    ensures { result ≡ told_by (json_id w16) number field (value_view value.now) }
{
    match value.get(key_of(field)) {
        Some(member) => right(number, field, json_id(member)),
        None => Ok(None),
    }
}

/// What it tells in a field that is an ID of four slots.
#[tactic(auto, unfolding(crate::specs::Reading::told_by))]
fn long_id_by(number: usize, field: Field, value: &Value<'_>) -> Result<Option<u32>, ReadError>
    ensures { result ≡ told_by (json_id w32) number field (value_view value.now) }
{
    match value.get(key_of(field)) {
        Some(member) => right(number, field, json_long_id(member)),
        None => Ok(None),
    }
}

/// What it tells in a field that is a number of one slot.
#[tactic(auto, unfolding(crate::specs::Reading::told_by))]
fn byte_by(number: usize, field: Field, value: &Value<'_>) -> Result<Option<u8>, ReadError>
    ensures { result ≡ number_by 256 number field (value_view value.now) }
{
    match value.get(key_of(field)) {
        Some(member) => right(number, field, json_byte(member)),
        None => Ok(None),
    }
}

/// What it tells in a field that is a number of two slots.
#[tactic(auto, unfolding(crate::specs::Reading::told_by))]
fn word_by(number: usize, field: Field, value: &Value<'_>) -> Result<Option<u16>, ReadError>
    ensures { result ≡ number_by 65536 number field (value_view value.now) }
{
    match value.get(key_of(field)) {
        Some(member) => right(number, field, json_word(member)),
        None => Ok(None),
    }
}

/// What it tells in a field that is a number of four slots.
#[tactic(auto, unfolding(crate::specs::Reading::told_by))]
fn long_by(number: usize, field: Field, value: &Value<'_>) -> Result<Option<u32>, ReadError>
    ensures { result ≡ number_by (2 ^ 32) number field (value_view value.now) }
{
    match value.get(key_of(field)) {
        Some(member) => right(number, field, json_long(member)),
        None => Ok(None),
    }
}

/// What was read in a field, or that the value is wrong.
fn right<T: Drop>(number: usize, field: Field, read: Option<T>) -> Result<Option<T>, ReadError>
    ensures { result ≡ right number field read }
{
    match read {
        Some(read) => Ok(Some(read)),
        None => Err(ReadError::WrongValue(number, field)),
    }
}

/// Its sub-devices.
#[tactic(auto, unfolding(crate::specs::Reading::subs_by))]
fn subs_by(alloc: Global, number: usize, value: &Value<'_>) -> Result<Vec<SubDevice>, ReadError>
    ensures ok { IfOk result (λ subs. subs_by number (value_view value.now) ≡ Ok subs.items) }
    ensures refused { IfErr result (λ e. e ≢ OutOfMemory → subs_by number (value_view value.now) ≡ Err e) }
{
    match value.get("sub_devices") {
        Some(member) => subs_of(alloc, number, member),
        None => Ok(Vec::new(alloc)),
    }
}

/// The sub-devices of an array, each of which stands there once.
fn subs_of(alloc: Global, number: usize, member: &Value<'_>) -> Result<Vec<SubDevice>, ReadError>
    ensures ok { IfOk result (λ subs. subs_if_told number (Some (value_view member.now)) ≡ Ok subs.items) }
    ensures refused { IfErr result (λ e. e ≢ OutOfMemory → subs_if_told number (Some (value_view member.now)) ≡ Err e) }
{
    let Value::Array(items) = member else {
        return Err(ReadError::WrongSubDevices(number));
    };
    match subs_in(alloc, items.as_slice())? {
        Some(subs) if subs_are_once(subs.as_slice()) => Ok(subs),
        _ => Err(ReadError::WrongSubDevices(number)),
    }
}

/// Sub-devices one behind the other.
fn subs_in(alloc: Global, items: &[Value<'_>]) -> Result<Option<Vec<SubDevice>>, AllocError>
    ensures { IfOk result (λ subs. option_map (λ list. list.items) subs ≡ subs_in (items_view items.now)) }
{
    let mut list = Vec::new(alloc);
    let mut rest = items;
    while let [item, more @ ..] = rest {
        let Some(sub) = sub_in(item) else {
            return Ok(None);
        };
        list.push(sub)?;
        rest = more;
    }
    Ok(Some(list))
}

/// A sub-device.
#[tactic(auto, unfolding(crate::specs::Reading::sub_in))]
fn sub_in(value: &Value<'_>) -> Option<SubDevice>
    ensures { result ≡ sub_in (value_view value.now) }
{
    let number = needed("number", value)?;
    let address = address_in(value)?;
    let footprint = needed("footprint", value)?;
    Some(SubDevice {
        number,
        address,
        footprint,
    })
}

/// A number that has to be there.
fn needed(name: &str, value: &Value<'_>) -> Option<u16>
    ensures { result ≡ needed name.now (value_view value.now) }
{
    json_word(value.get(name)?)
}

/// The address of a sub-device, if it has one.
fn address_in(value: &Value<'_>) -> Option<Option<u16>>
    ensures { result ≡ number_if_told (get (codes "address") (value_view value.now)) }
{
    match value.get("address") {
        Some(member) => Some(Some(json_word(member)?)),
        None => Some(None),
    }
}

/// Whether no number stands twice.
fn subs_are_once(subs: &[SubDevice]) -> bool
    ensures { result ≡ subs_are_once subs.now }
{
    let mut rest = subs;
    while let [first, more @ ..] = rest {
        if sub_of(first.number, more).is_some() {
            return false;
        }
        rest = more;
    }
    true
}
