//! A survey as CSV.

ghost use Rattle.std.specs.Prelude.{◌≡◌, ◌≤◌, ◌∷◌, ◌++◌, length, map, OnOk};
ghost use Rattle.std.specs.List.{flat_map, list_any};
ghost use Rattle.csv.specs.Writing.{default_writer, field_text, needs_byte, quoted, row_text};
ghost use Rattle.rdm_survey.specs.Csv.{cell_field, comma_field, csv_text, doubled, guarded, is_marked, keys_text, record_text};

use crate::clashing::clashes;
use crate::member::{Member, members};
use crate::partner::partners;
use crate::shown::put_cell;
use crate::{Clash, Row};
use std::alloc::{AllocError, Global};

/// The keys of a document, in order.
///
/// - `uid`: the UID, as `7FF0:00000001`.
/// - `manufacturer`, `model`, `label`: what the fixture says of itself.
/// - `model_id`, `category`, `software_id`: IDs in hexadecimal digits, as `0x0102`; those of categories are in table A-5 of E1.20.
/// - `address`, `last_address`, `footprint`: the first slot, the last and how many.
/// - `personality`, `personalities`, `personality_name`: which of how many, and what it is called.
/// - `software`: what its software is called.
/// - `sub_devices`, `sensors`: how many it has.
/// - `hours`: how many hours it has run.
/// - `errors`, `warnings`: how many messages of its status are that.
/// - `clashes`: those whose slots its slots meet, each by its UID, a sub-device with its number behind a slash; and `past 512`.
pub const KEYS: [&str; 20] = [
    "uid",
    "manufacturer",
    "model",
    "model_id",
    "category",
    "label",
    "address",
    "last_address",
    "footprint",
    "personality",
    "personalities",
    "personality_name",
    "software",
    "software_id",
    "sub_devices",
    "sensors",
    "hours",
    "errors",
    "warnings",
    "clashes",
];

/// Puts the rows at the end of a text as CSV (RFC 4180): a line of the keys, and a line for each row. What a fixture didn't tell is an
/// empty field. A field that a spreadsheet could take for a formula has an apostrophe before it.
pub fn put_csv(alloc: Global, rows: &[Row], text: &mut Vec<u8>) -> Result<(), AllocError>
    ensures { OnOk result (text.new.items ≡ text.old.items ++ csv_text rows.now) }
{
    let clashes = clashes(alloc, rows)?;
    put_keys(text)?;
    put_records(alloc, rows, clashes.as_slice(), text)
}

/// A line for each row.
fn put_records(
    alloc: Global,
    rows: &[Row],
    clashes: &[Clash],
    text: &mut Vec<u8>,
) -> Result<(), AllocError>
    ensures { OnOk result (text.new.items ≡ text.old.items ++ flat_map (record_text clashes.now) rows.now) }
{
    for row in rows {
        put_record(alloc, row, clashes, text)?;
    }
    Ok(())
}

/// The line of a row.
#[tactic(auto, unfolding(crate::specs::Csv::record_text), using(crate::proofs::Texts::cell_fields))]
fn put_record(
    alloc: Global,
    row: &Row,
    clashes: &[Clash],
    text: &mut Vec<u8>,
) -> Result<(), AllocError>
    ensures { OnOk result (text.new.items ≡ text.old.items ++ record_text clashes.now row.now) }
{
    let others = partners(alloc, row.uid, clashes)?;
    put_members(alloc, &members(row, others.as_slice()), text)
}

/// The line of the keys.
fn put_keys(text: &mut Vec<u8>) -> Result<(), AllocError>
    ensures { OnOk result (text.new.items ≡ text.old.items ++ keys_text) }
{
    text.extend_from_slice(
        b"uid,manufacturer,model,model_id,category,label,address,last_address,footprint,personality,personalities,",
    )?;
    text.extend_from_slice(
        b"personality_name,software,software_id,sub_devices,sensors,hours,errors,warnings,clashes\n",
    )
}

/// Members, of which there are two or more, as a line.
fn put_members(alloc: Global, members: &[Member<'_>], text: &mut Vec<u8>) -> Result<(), AllocError>
    requires { 2 ≤ length members.now }
    ensures { OnOk result (text.new.items ≡ text.old.items ++ row_text default_writer (map cell_field members.now)) }
{
    let [first, more @ ..] = members else {
        return Ok(());
    };
    put_line(alloc, first, more, text)
}

/// A member and those behind it, as a line.
fn put_line(
    alloc: Global,
    first: &Member<'_>,
    more: &[Member<'_>],
    text: &mut Vec<u8>,
) -> Result<(), AllocError>
    requires { 1 ≤ length more.now }
    ensures { OnOk result (text.new.items ≡ text.old.items ++ row_text default_writer (map cell_field (first.now ∷ more.now))) }
{
    put_field(alloc, first, text)?;
    put_more_fields(alloc, more, text)?;
    text.extend_from_slice(b"\n")
}

/// The fields behind the first, each with a comma before it.
fn put_more_fields(
    alloc: Global,
    members: &[Member<'_>],
    text: &mut Vec<u8>,
) -> Result<(), AllocError>
    ensures { OnOk result (text.new.items ≡ text.old.items ++ flat_map comma_field members.now) }
{
    for member in members {
        put_comma_field(alloc, member, text)?;
    }
    Ok(())
}

/// A field with a comma before it.
#[tactic(auto, using(crate::proofs::Texts::comma_joined))]
fn put_comma_field(alloc: Global, member: &Member<'_>, text: &mut Vec<u8>) -> Result<(), AllocError>
    ensures { OnOk result (text.new.items ≡ text.old.items ++ comma_field member.now) }
{
    text.extend_from_slice(b",")?;
    put_field(alloc, member, text)
}

/// A field: what stands under a key, with an apostrophe before what a spreadsheet could take for a formula.
#[tactic(auto, unfolding(crate::specs::Csv::cell_field))]
fn put_field(alloc: Global, member: &Member<'_>, text: &mut Vec<u8>) -> Result<(), AllocError>
    ensures { OnOk result (text.new.items ≡ text.old.items ++ field_text default_writer (cell_field member.now)) }
{
    let mut word = Vec::new(alloc);
    put_cell(&mut word, member.cell)?;
    put_guarded(alloc, word.as_slice(), text)
}

/// A word as a field.
fn put_guarded(alloc: Global, word: &[u8], text: &mut Vec<u8>) -> Result<(), AllocError>
    ensures { OnOk result (text.new.items ≡ text.old.items ++ field_text default_writer (guarded word.now)) }
{
    if !is_marked(word) {
        return put_quoted(text, word);
    }
    let mut guarded = Vec::new(alloc);
    guarded.extend_from_slice(b"'")?;
    guarded.extend_from_slice(word)?;
    put_quoted(text, guarded.as_slice())
}

/// Whether a spreadsheet could take a field for a formula, or it begins with an apostrophe.
fn is_marked(word: &[u8]) -> bool
    ensures { result ≡ is_marked word.now }
{
    match word {
        [first, ..] => {
            *first == b'=' || *first == b'+' || *first == b'-' || *first == b'@' || *first == b'\''
        }
        [] => false,
    }
}

/// A field, with quotes around it if it needs some.
fn put_quoted(text: &mut Vec<u8>, field: &[u8]) -> Result<(), AllocError>
    ensures { OnOk result (text.new.items ≡ text.old.items ++ field_text default_writer field.now) }
{
    if needs_quotes(field) {
        put_in_quotes(text, field)
    } else {
        text.extend_from_slice(field)
    }
}

/// A field in quotes.
#[tactic(auto, using(crate::proofs::Texts::quotes_joined))]
fn put_in_quotes(text: &mut Vec<u8>, field: &[u8]) -> Result<(), AllocError>
    ensures { OnOk result (text.new.items ≡ text.old.items ++ quoted default_writer field.now) }
{
    text.extend_from_slice(b"\"")?;
    put_escaped(text, field)?;
    text.extend_from_slice(b"\"")
}

/// Whether a field needs quotes: there is a comma, a quote or the end of a line in it.
fn needs_quotes(field: &[u8]) -> bool
    ensures { result ≡ list_any (needs_byte default_writer) field.now }
{
    field.iter().any(|byte| needs_byte(*byte))
}

fn needs_byte(byte: u8) -> bool
    ensures { result ≡ needs_byte default_writer byte }
{
    byte == b',' || byte == b'"' || byte == b'\r' || byte == b'\n'
}

/// The bytes of a field, each quote twice.
fn put_escaped(text: &mut Vec<u8>, field: &[u8]) -> Result<(), AllocError>
    ensures { OnOk result (text.new.items ≡ text.old.items ++ flat_map doubled field.now) }
{
    for byte in field {
        put_doubled(text, *byte)?;
    }
    Ok(())
}

/// A byte, twice if it is a quote.
fn put_doubled(text: &mut Vec<u8>, byte: u8) -> Result<(), AllocError>
    ensures { OnOk result (text.new.items ≡ text.old.items ++ doubled byte) }
{
    if byte == b'"' {
        text.extend_from_slice(b"\"\"")
    } else {
        text.extend_from_slice(&[byte])
    }
}
