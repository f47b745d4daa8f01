//! A survey as JSON.

ghost use Rattle.std.specs.Prelude.{◌≡◌, [], ◌∷◌, ◌++◌, map, Some, IfOk, OnOk};
ghost use Rattle.std.specs.Str.{IsAscii};
ghost use Rattle.std.specs.List.{flat_map};
ghost use Rattle.json.specs.Json.{document};
ghost use Rattle.json.specs.Token.{string};
ghost use Rattle.json.specs.Tree.{json_tokens};
ghost use Rattle.rdm_survey.specs.Json.{cell_tokens, json_of, json_text, other_token, row_tokens, survey_json};
ghost use Rattle.rdm_survey.specs.Csv.{plain};
ghost use Rattle.rdm_survey.specs.Members.{partner_word, place_word, told, words};

use crate::clashing::clashes;
use crate::member::{Cell, Member, members};
use crate::partner::{Partner, partners, put_place};
use crate::shown::put_cell;
use crate::{Clash, Row};
use json::Writer;
use rdm_frame::Uid;
use std::alloc::{AllocError, Global};
use std::str;

/// Puts the rows at the end of a text as JSON (RFC 8259): an array with an object for each row, with no spaces. What a fixture didn't tell
/// is null, and `clashes` is an array.
///
/// A reader of JSON finds in it exactly the survey: that is the clause `read_back`.
pub fn put_json(alloc: Global, rows: &[Row], text: &mut Vec<u8>) -> Result<(), AllocError>
    ensures text { OnOk result (text.new.items ≡ text.old.items ++ json_text rows.now) }
    ensures read_back { OnOk result (document (json_text rows.now) ≡ Some (survey_json rows.now)) }
{
    let document = document_of(alloc, rows)?;
    text.extend_from_slice(document.as_slice())
}

/// The text of the rows.
#[tactic(auto, using(crate::proofs::Tokens::survey_tokens, crate::proofs::Tokens::document_of))]
fn document_of(alloc: Global, rows: &[Row]) -> Result<Vec<u8>, AllocError>
    ensures text { IfOk result (λ list. list.items ≡ json_text rows.now) }
    ensures read_back { IfOk result (λ list. document (json_text rows.now) ≡ Some (survey_json rows.now)) }
{
    let clashes = clashes(alloc, rows)?;
    let mut writer = Writer::new(Vec::new(alloc));
    writer.begin_array()?;
    put_rows(alloc, rows, clashes.as_slice(), &mut writer)?;
    writer.end_array()?;
    Ok(writer.into_inner())
}

/// An object for each row.
fn put_rows(
    alloc: Global,
    rows: &[Row],
    clashes: &[Clash],
    writer: &mut Writer,
) -> Result<(), AllocError>
    ensures tokens { OnOk result (writer.new.tokens ≡ writer.old.tokens ++ flat_map (row_tokens clashes.now) rows.now) }
    ensures before { writer.new.before ≡ writer.old.before }
{
    for row in rows {
        put_row(alloc, row, clashes, writer)?;
    }
    Ok(())
}

/// The object of a row.
#[tactic(auto, using(crate::proofs::Tokens::object_tokens), unfolding(crate::specs::Json::row_tokens))]
fn put_row(
    alloc: Global,
    row: &Row,
    clashes: &[Clash],
    writer: &mut Writer,
) -> Result<(), AllocError>
    ensures tokens { OnOk result (writer.new.tokens ≡ writer.old.tokens ++ row_tokens clashes.now row.now) }
    ensures before { writer.new.before ≡ writer.old.before }
{
    let others = partners(alloc, row.uid, clashes)?;
    writer.begin_object()?;
    put_members(alloc, &members(row, others.as_slice()), writer)?;
    writer.end_object()
}

/// Members of an object.
fn put_members(alloc: Global, members: &[Member<'_>], writer: &mut Writer) -> Result<(), AllocError>
    ensures tokens { OnOk result (writer.new.tokens ≡ writer.old.tokens ++ flat_map cell_tokens members.now) }
    ensures before { writer.new.before ≡ writer.old.before }
{
    for member in members {
        put_member(alloc, member, writer)?;
    }
    Ok(())
}

/// A key and what stands under it.
#[tactic(auto, using(crate::proofs::Tokens::member_joined))]
fn put_member(alloc: Global, member: &Member<'_>, writer: &mut Writer) -> Result<(), AllocError>
    ensures tokens { OnOk result (writer.new.tokens ≡ writer.old.tokens ++ cell_tokens member.now) }
    ensures before { writer.new.before ≡ writer.old.before }
{
    writer.key(member.key)?;
    put_value(alloc, member.cell, writer)
}

/// What stands under a key.
#[tactic(auto, using(crate::proofs::Ascii::id_ascii, crate::proofs::Ascii::long_id_ascii, crate::proofs::Ascii::uid_ascii, crate::proofs::Ascii::shown_ascii))]
fn put_value(alloc: Global, cell: Cell<'_>, writer: &mut Writer) -> Result<(), AllocError>
    ensures tokens { OnOk result (writer.new.tokens ≡ writer.old.tokens ++ json_tokens (json_of (told cell.entry))) }
    ensures before { writer.new.before ≡ writer.old.before }
{
    match cell {
        Cell::Nothing => writer.null(),
        Cell::Number(number) => writer.u64(u64::from(number)),
        Cell::Id(id) => put_word(alloc, Cell::Id(id), writer),
        Cell::LongId(id) => put_word(alloc, Cell::LongId(id), writer),
        Cell::Name(uid) => put_word(alloc, Cell::Name(uid), writer),
        Cell::Text(text) => put_word(alloc, Cell::Text(text), writer),
        Cell::Others(others) => put_array(alloc, others, writer),
    }
}

/// What a fixture clashes with, as an array.
#[tactic(auto, using(crate::proofs::Tokens::array_tokens))]
fn put_array(alloc: Global, others: &[Partner], writer: &mut Writer) -> Result<(), AllocError>
    ensures tokens { OnOk result (writer.new.tokens ≡ writer.old.tokens ++ json_tokens (json_of (words (map partner_word others.now)))) }
    ensures before { writer.new.before ≡ writer.old.before }
{
    writer.begin_array()?;
    put_others(alloc, others, writer)?;
    writer.end_array()
}

/// What a fixture clashes with, a string for each.
fn put_others(alloc: Global, others: &[Partner], writer: &mut Writer) -> Result<(), AllocError>
    ensures tokens { OnOk result (writer.new.tokens ≡ writer.old.tokens ++ map other_token others.now) }
    ensures before { writer.new.before ≡ writer.old.before }
{
    for other in others {
        put_other(alloc, *other, writer)?;
    }
    Ok(())
}

/// What a fixture clashes with, as a string.
#[tactic(auto, unfolding(crate::specs::Json::other_token))]
fn put_other(alloc: Global, other: Partner, writer: &mut Writer) -> Result<(), AllocError>
    ensures tokens { OnOk result (writer.new.tokens ≡ writer.old.tokens ++ other_token other ∷ []) }
    ensures before { writer.new.before ≡ writer.old.before }
{
    match other {
        Partner::PastEnd => writer.string("past 512"),
        Partner::Place(uid, sub) => put_place_word(alloc, uid, sub, writer),
    }
}

fn put_place_word(alloc: Global, uid: Uid, sub: u16, writer: &mut Writer) -> Result<(), AllocError>
    ensures tokens { OnOk result (writer.new.tokens ≡ writer.old.tokens ++ string (place_word uid sub) ∷ []) }
    ensures before { writer.new.before ≡ writer.old.before }
{
    let mut word = Vec::new(alloc);
    put_place(&mut word, uid, sub)?;
    put_string(word.as_slice(), writer)
}

/// A word of ASCII as a string.
fn put_word(alloc: Global, cell: Cell<'_>, writer: &mut Writer) -> Result<(), AllocError>
    ensures tokens { IsAscii (plain (told cell.entry)) → OnOk result (writer.new.tokens ≡ writer.old.tokens ++ string (plain (told cell.entry)) ∷ []) }
    ensures before { writer.new.before ≡ writer.old.before }
{
    let mut word = Vec::new(alloc);
    put_cell(&mut word, cell)?;
    put_string(word.as_slice(), writer)
}

/// Characters of ASCII as a string. Nothing else is handed in.
#[tactic(auto, using(crate::proofs::Ascii::ascii_is_text))]
fn put_string(word: &[u8], writer: &mut Writer) -> Result<(), AllocError>
    ensures tokens { IsAscii word.now → OnOk result (writer.new.tokens ≡ writer.old.tokens ++ string word.now ∷ []) }
    ensures before { writer.new.before ≡ writer.old.before }
{
    match str::from_utf8(word) {
        Ok(word) => writer.string(word),
        Err(_) => Ok(()),
    }
}
