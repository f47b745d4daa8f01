//! The rows of the table.

ghost use Rattle.std.specs.Prelude.{◌≡◌, ◌++◌, OnOk};
ghost use Rattle.std.specs.List.{flat_map};
ghost use Rattle.rdm_survey_page.specs.Pages.{cell, row_tag, row_text};

use crate::clash_list::is_in_clash;
use crate::escaping::put_escaped;
use rdm_survey::{Clash, Column, Row, all_columns, put_words};
use std::alloc::{AllocError, Global};

/// A row for each fixture.
pub(crate) fn put_rows(
    alloc: Global,
    rows: &[Row],
    clashes: &[Clash],
    text: &mut Vec<u8>,
) -> Result<(), AllocError>
    ensures { OnOk result (text.new.items ≡ text.old.items ++ flat_map (row_text clashes.now) rows.now) }
{
    for row in rows {
        put_row(alloc, row, clashes, text)?;
    }
    Ok(())
}

/// The row of a fixture, which is marked if its slots clash. Behind its columns is one for notes.
#[tactic(auto, unfolding(crate::specs::Pages::row_text))]
fn put_row(
    alloc: Global,
    row: &Row,
    clashes: &[Clash],
    text: &mut Vec<u8>,
) -> Result<(), AllocError>
    ensures { OnOk result (text.new.items ≡ text.old.items ++ row_text clashes.now row.now) }
{
    text.extend_from_slice(row_tag(is_in_clash(clashes, row.uid)).as_bytes())?;
    put_cells(alloc, all_columns(), row, text)?;
    text.extend_from_slice(b"<td></td></tr>\n")
}

/// The tag that begins a row, marked or not.
#[tactic(auto, unfolding(crate::specs::Pages::row_tag))]
fn row_tag(is_marked: bool) -> &'static str
    ensures { result.now ≡ row_tag is_marked }
{
    if is_marked {
        "<tr class=\"clash\">"
    } else {
        "<tr>"
    }
}

/// The cells of these columns.
fn put_cells(
    alloc: Global,
    columns: &[Column],
    row: &Row,
    text: &mut Vec<u8>,
) -> Result<(), AllocError>
    ensures { OnOk result (text.new.items ≡ text.old.items ++ flat_map (cell row.now) columns.now) }
{
    for column in columns {
        put_cell(alloc, *column, row, text)?;
    }
    Ok(())
}

/// The cell of a column.
#[tactic(auto, unfolding(crate::specs::Pages::cell))]
fn put_cell(alloc: Global, column: Column, row: &Row, text: &mut Vec<u8>) -> Result<(), AllocError>
    ensures { OnOk result (text.new.items ≡ text.old.items ++ cell row.now column) }
{
    let mut words = Vec::new(alloc);
    put_words(&mut words, column, row)?;
    text.extend_from_slice(b"<td>")?;
    put_escaped(text, words.as_slice())?;
    text.extend_from_slice(b"</td>")
}
