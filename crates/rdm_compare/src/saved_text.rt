//! What is kept of a survey, as JSON.

ghost use Rattle.std.specs.Prelude.{◌≡◌, ◌++◌, Some, IfOk, OnOk};
ghost use Rattle.std.specs.Str.{IsAscii};
ghost use Rattle.std.specs.List.{flat_map};
ghost use Rattle.json.specs.Json.{document, string};
ghost use Rattle.json.specs.Tree.{json_tokens};
ghost use Rattle.rdm_frame.specs.UidText.{uid_text};
ghost use Rattle.rdm_survey.specs.Shown.{shown};
ghost use Rattle.rdm_compare.specs.Fields.{told_in};
ghost use Rattle.rdm_compare.specs.Keeping.{kept_rows};
ghost use Rattle.rdm_compare.specs.Lines.{number_word};
ghost use Rattle.rdm_compare.specs.Saving.{field_list, fixtures_json, fixtures_member, format_member, key_of, kept_json, kept_members, member_tokens, members_tokens, number_json, number_member, saved_json, saved_text, sub_json, sub_members, subs_json, subs_member, told_json, told_members, uid_member, value_tokens};

use crate::difference_words::put_number_of;
use crate::field::FIELDS;
use crate::kept::keep;
use crate::{Field, Kept, Told};
use json::Writer;
use rdm_frame::Uid;
use rdm_survey::{Row, SubDevice, put_shown};
use std::alloc::{AllocError, Global};
use std::str;

/// Puts what is kept of the rows of a survey at the end of a text, as JSON (RFC 8259) with no spaces in it: an object with `format`, which
/// is 1, and `fixtures`, an array with an object for each row, in order.
///
/// The object of a fixture has these keys; what the fixture didn't tell isn't there.
///
/// - `uid`: the UID, as `7FF0:00000001`.
/// - `manufacturer`, `model`, `label`, `software`, `personality_name`: texts, with printable ASCII as it is, but for a backslash, which
///   stands twice, and another byte as `\x` and its two hexadecimal digits.
/// - `model_id`, `software_id`: IDs in hexadecimal digits, as `0x0102`.
/// - `personality`, `personalities`, `address`, `footprint`, `hours`: numbers.
/// - `sub_devices`: an array with an object for each sub-device, which has `number`, `footprint` and, if it has one, `address`.
pub fn put_saved(alloc: Global, rows: &[Row], text: &mut Vec<u8>) -> Result<(), AllocError>
    ensures text { OnOk result (text.new.items ≡ text.old.items ++ saved_text (kept_rows rows.now)) }
    ensures read_back { OnOk result (document (saved_text (kept_rows rows.now)) ≡ Some (saved_json (kept_rows rows.now))) }
{
    let kept = keep(alloc, rows)?;
    let document = document_of(alloc, kept.as_slice())?;
    text.extend_from_slice(document.as_slice())
}

/// The document of these fixtures.
#[tactic(auto, using(crate::proofs::SavedTokens::saved_tokens, crate::proofs::SavedTokens::document_of))]
fn document_of(alloc: Global, list: &[Kept]) -> Result<Vec<u8>, AllocError>
    ensures text { IfOk result (λ text. text.items ≡ saved_text list.now) }
    ensures read_back { IfOk result (λ text. document (saved_text list.now) ≡ Some (saved_json list.now)) }
{
    let mut writer = Writer::new(Vec::new(alloc));
    writer.begin_object()?;
    put_format(&mut writer)?;
    put_fixtures(alloc, list, &mut writer)?;
    writer.end_object()?;
    Ok(writer.into_inner())
}

/// The version of the format.
#[tactic(auto, unfolding(crate::specs::Saving::member_tokens))]
fn put_format(writer: &mut Writer) -> Result<(), AllocError>
    ensures tokens { OnOk result (writer.new.tokens ≡ writer.old.tokens ++ member_tokens format_member) }
    ensures before { writer.new.before ≡ writer.old.before }
{
    writer.key("format")?;
    writer.u64(1)
}

/// The fixtures under their key.
#[tactic(auto, using(crate::proofs::SavedTokens::member_joined))]
fn put_fixtures(alloc: Global, list: &[Kept], writer: &mut Writer) -> Result<(), AllocError>
    ensures tokens { OnOk result (writer.new.tokens ≡ writer.old.tokens ++ member_tokens (fixtures_member list.now)) }
    ensures before { writer.new.before ≡ writer.old.before }
{
    writer.key("fixtures")?;
    put_array(alloc, list, writer)
}

/// An array of fixtures.
#[tactic(auto, using(crate::proofs::SavedTokens::fixtures_tokens))]
fn put_array(alloc: Global, list: &[Kept], writer: &mut Writer) -> Result<(), AllocError>
    ensures tokens { OnOk result (writer.new.tokens ≡ writer.old.tokens ++ value_tokens (fixtures_json list.now)) }
    ensures before { writer.new.before ≡ writer.old.before }
{
    writer.begin_array()?;
    put_list(alloc, list, writer)?;
    writer.end_array()
}

/// An object for each fixture.
fn put_list(alloc: Global, list: &[Kept], writer: &mut Writer) -> Result<(), AllocError>
    ensures tokens { OnOk result (writer.new.tokens ≡ writer.old.tokens ++ flat_map (λ k. value_tokens (kept_json k)) list.now) }
    ensures before { writer.new.before ≡ writer.old.before }
{
    for kept in list {
        put_kept(alloc, kept, writer)?;
    }
    Ok(())
}

/// The object of a fixture.
#[tactic(auto, using(crate::proofs::SavedTokens::kept_tokens))]
fn put_kept(alloc: Global, kept: &Kept, writer: &mut Writer) -> Result<(), AllocError>
    ensures tokens { OnOk result (writer.new.tokens ≡ writer.old.tokens ++ value_tokens (kept_json kept.now)) }
    ensures before { writer.new.before ≡ writer.old.before }
{
    writer.begin_object()?;
    put_members(alloc, kept, writer)?;
    writer.end_object()
}

/// The members of a fixture.
#[tactic(auto, using(crate::proofs::SavedTokens::kept_joined))]
fn put_members(alloc: Global, kept: &Kept, writer: &mut Writer) -> Result<(), AllocError>
    ensures tokens { OnOk result (writer.new.tokens ≡ writer.old.tokens ++ members_tokens (kept_members kept.now)) }
    ensures before { writer.new.before ≡ writer.old.before }
{
    put_uid(kept.uid, writer)?;
    put_field_list(alloc, kept, writer)?;
    put_subs(kept.sub_devices.as_slice(), writer)
}

/// The UID of a fixture.
#[tactic(auto, using(crate::proofs::SavedTokens::member_joined))]
fn put_uid(uid: Uid, writer: &mut Writer) -> Result<(), AllocError>
    ensures tokens { OnOk result (writer.new.tokens ≡ writer.old.tokens ++ member_tokens (uid_member uid)) }
    ensures before { writer.new.before ≡ writer.old.before }
{
    writer.key("uid")?;
    put_uid_word(uid, writer)
}

#[tactic(auto, using(crate::proofs::SavedTokens::uid_ascii))]
fn put_uid_word(uid: Uid, writer: &mut Writer) -> Result<(), AllocError>
    ensures tokens { OnOk result (writer.new.tokens ≡ writer.old.tokens ++ value_tokens (string (uid_text uid))) }
    ensures before { writer.new.before ≡ writer.old.before }
{
    let word = uid.text();
    put_string(&word, writer)
}

/// What a fixture told.
fn put_field_list(alloc: Global, kept: &Kept, writer: &mut Writer) -> Result<(), AllocError>
    ensures tokens { OnOk result (writer.new.tokens ≡ writer.old.tokens ++ members_tokens (field_list kept.now)) }
    ensures before { writer.new.before ≡ writer.old.before }
{
    put_fields(alloc, &FIELDS, kept, writer)
}

/// What it told in these fields.
fn put_fields(
    alloc: Global,
    fields: &[Field],
    kept: &Kept,
    writer: &mut Writer,
) -> Result<(), AllocError>
    ensures tokens { OnOk result (writer.new.tokens ≡ writer.old.tokens ++ flat_map (λ f. members_tokens (told_members f (told_in f kept.now))) fields.now) }
    ensures before { writer.new.before ≡ writer.old.before }
{
    for field in fields {
        put_field(alloc, *field, kept.told_in(*field), writer)?;
    }
    Ok(())
}

/// What was told in a field, if it was.
#[tactic(auto, using(crate::proofs::SavedTokens::told_joined), unfolding(crate::specs::Saving::members_tokens))]
fn put_field(
    alloc: Global,
    field: Field,
    told: Option<Told>,
    writer: &mut Writer,
) -> Result<(), AllocError>
    ensures tokens { OnOk result (writer.new.tokens ≡ writer.old.tokens ++ members_tokens (told_members field told)) }
    ensures before { writer.new.before ≡ writer.old.before }
{
    let Some(told) = told else {
        return Ok(());
    };
    writer.key(key_of(field))?;
    put_told(alloc, field, &told, writer)
}

/// What was told in a field.
#[tactic(auto, unfolding(crate::specs::Saving::value_tokens))]
fn put_told(alloc: Global, field: Field, told: &Told, writer: &mut Writer) -> Result<(), AllocError>
    ensures tokens { OnOk result (writer.new.tokens ≡ writer.old.tokens ++ value_tokens (told_json field told.now)) }
    ensures before { writer.new.before ≡ writer.old.before }
{
    match told {
        Told::Text(text) => put_text(alloc, text.as_slice(), writer),
        Told::Number(number) => put_number(alloc, field, *number, writer),
    }
}

/// A number, or the string of an ID.
#[tactic(auto, unfolding(crate::specs::Saving::value_tokens))]
fn put_number(
    alloc: Global,
    field: Field,
    number: u32,
    writer: &mut Writer,
) -> Result<(), AllocError>
    ensures tokens { OnOk result (writer.new.tokens ≡ writer.old.tokens ++ value_tokens (number_json field number)) }
    ensures before { writer.new.before ≡ writer.old.before }
{
    match field {
        Field::ModelId | Field::SoftwareId => put_id(alloc, field, number, writer),
        _ => writer.u64(u64::from(number)),
    }
}

/// A text of a fixture as a string.
fn put_text(alloc: Global, text: &[u8], writer: &mut Writer) -> Result<(), AllocError>
    ensures tokens { OnOk result (writer.new.tokens ≡ writer.old.tokens ++ json_tokens (string (shown text.now))) }
    ensures before { writer.new.before ≡ writer.old.before }
{
    let mut word = Vec::new(alloc);
    put_shown(&mut word, text)?;
    put_string(word.as_slice(), writer)
}

/// An ID as a string.
fn put_id(alloc: Global, field: Field, number: u32, writer: &mut Writer) -> Result<(), AllocError>
    ensures tokens { OnOk result (writer.new.tokens ≡ writer.old.tokens ++ json_tokens (string (number_word field number))) }
    ensures before { writer.new.before ≡ writer.old.before }
{
    let mut word = Vec::new(alloc);
    put_number_of(&mut word, field, number)?;
    put_string(word.as_slice(), writer)
}

/// Characters of ASCII as a string. Nothing else is handed in.
#[tactic(auto, using(rdm_survey::proofs::Ascii::ascii_is_text))]
fn put_string(word: &[u8], writer: &mut Writer) -> Result<(), AllocError>
    ensures tokens { IsAscii word.now → OnOk result (writer.new.tokens ≡ writer.old.tokens ++ json_tokens (string word.now)) }
    ensures before { writer.new.before ≡ writer.old.before }
{
    match str::from_utf8(word) {
        Ok(word) => writer.string(word),
        Err(_) => Ok(()),
    }
}

/// The sub-devices under their key.
#[tactic(auto, using(crate::proofs::SavedTokens::member_joined))]
fn put_subs(subs: &[SubDevice], writer: &mut Writer) -> Result<(), AllocError>
    ensures tokens { OnOk result (writer.new.tokens ≡ writer.old.tokens ++ member_tokens (subs_member subs.now)) }
    ensures before { writer.new.before ≡ writer.old.before }
{
    writer.key("sub_devices")?;
    put_sub_array(subs, writer)
}

/// An array of sub-devices.
#[tactic(auto, using(crate::proofs::SavedTokens::subs_tokens))]
fn put_sub_array(subs: &[SubDevice], writer: &mut Writer) -> Result<(), AllocError>
    ensures tokens { OnOk result (writer.new.tokens ≡ writer.old.tokens ++ value_tokens (subs_json subs.now)) }
    ensures before { writer.new.before ≡ writer.old.before }
{
    writer.begin_array()?;
    put_sub_list(subs, writer)?;
    writer.end_array()
}

/// An object for each sub-device.
fn put_sub_list(subs: &[SubDevice], writer: &mut Writer) -> Result<(), AllocError>
    ensures tokens { OnOk result (writer.new.tokens ≡ writer.old.tokens ++ flat_map (λ s. value_tokens (sub_json s)) subs.now) }
    ensures before { writer.new.before ≡ writer.old.before }
{
    for sub in subs {
        put_sub(sub, writer)?;
    }
    Ok(())
}

/// The object of a sub-device.
#[tactic(auto, using(crate::proofs::SavedTokens::sub_tokens))]
fn put_sub(sub: &SubDevice, writer: &mut Writer) -> Result<(), AllocError>
    ensures tokens { OnOk result (writer.new.tokens ≡ writer.old.tokens ++ value_tokens (sub_json sub.now)) }
    ensures before { writer.new.before ≡ writer.old.before }
{
    writer.begin_object()?;
    put_sub_members(sub, writer)?;
    writer.end_object()
}

/// The members of a sub-device.
#[tactic(auto, unfolding(crate::specs::Saving::members_tokens))]
fn put_sub_members(sub: &SubDevice, writer: &mut Writer) -> Result<(), AllocError>
    ensures tokens { OnOk result (writer.new.tokens ≡ writer.old.tokens ++ members_tokens (sub_members sub.now)) }
    ensures before { writer.new.before ≡ writer.old.before }
{
    put_member("number", sub.number, writer)?;
    match sub.address {
        Some(address) => {
            put_member("address", address, writer)?;
            put_member("footprint", sub.footprint, writer)
        }
        None => put_member("footprint", sub.footprint, writer),
    }
}

/// A number under a key.
#[tactic(auto, unfolding(crate::specs::Saving::member_tokens))]
fn put_member(key: &str, number: u16, writer: &mut Writer) -> Result<(), AllocError>
    ensures tokens { OnOk result (writer.new.tokens ≡ writer.old.tokens ++ member_tokens (number_member key.now number)) }
    ensures before { writer.new.before ≡ writer.old.before }
{
    writer.key(key)?;
    writer.u64(u64::from(number))
}

/// The key of a field.
pub(crate) fn key_of(field: Field) -> &'static str
    ensures { result.now ≡ key_of field }
{
    match field {
        Field::Manufacturer => "manufacturer",
        Field::Model => "model",
        Field::ModelId => "model_id",
        Field::Label => "label",
        Field::Software => "software",
        Field::SoftwareId => "software_id",
        Field::Personality => "personality",
        Field::PersonalityName => "personality_name",
        Field::Personalities => "personalities",
        Field::Address => "address",
        Field::Footprint => "footprint",
        Field::Hours => "hours",
    }
}
