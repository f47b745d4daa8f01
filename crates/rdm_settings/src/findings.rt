//! What the cells of a line say.

ghost use Rattle.std.specs.Prelude.{◌≡◌, ◌==◌, ◌++◌, ◌∷◌, [], Err, OnOk, length, map};
ghost use Rattle.std.specs.List.{flat_map, list_all};
ghost use Rattle.rdm_settings.specs.Twice.{of_line};
ghost use Rattle.rdm_settings.specs.Sheets.{about, cell_says, cells_say, column_says, data_says, full_row_says, heading_says, row_says, setting_says};

use crate::cell::cell_data;
use crate::column::{Column, Meaning, Role, has_column};
use crate::complaint::{Complaint, Trouble, kept, of_line};
use crate::place::{place_in, sub_said, uid_said};
use crate::setting::Setting;
use rdm_entry::Field;
use rdm_frame::{Load, Uid};
use std::alloc::{AllocError, Global};

/// What a cell says: a setting, or what is wrong with it.
pub(crate) type Finding = Result<Setting, Complaint>;

/// What is wrong with the columns.
#[tactic(auto, unfolding(crate::specs::Sheets::heading_says))]
pub(crate) fn put_heading(columns: &[Column], list: &mut Vec<Finding>) -> Result<(), AllocError>
    ensures { OnOk result (list.new.items ≡ list.old.items ++ heading_says columns.now) }
{
    if !has_column(columns, Role::Uid) {
        put_trouble(1, Trouble::NoUidColumn, list)?;
    }
    put_columns(columns, list)
}

/// What is wrong with each column.
fn put_columns(columns: &[Column], list: &mut Vec<Finding>) -> Result<(), AllocError>
    ensures { OnOk result (list.new.items ≡ list.old.items ++ flat_map column_says columns.now) }
{
    for column in columns {
        put_column(column, list)?;
    }
    Ok(())
}

/// What is wrong with a column.
#[tactic(auto, unfolding(crate::specs::Sheets::column_says))]
fn put_column(column: &Column, list: &mut Vec<Finding>) -> Result<(), AllocError>
    ensures { OnOk result (list.new.items ≡ list.old.items ++ column_says column.now) }
{
    match column.meaning {
        Meaning::Nothing(trouble) => put_about(1, column, &[], trouble, list),
        _ => Ok(()),
    }
}

/// What the cells of a line say.
#[tactic(auto, unfolding(crate::specs::Sheets::row_says))]
pub(crate) fn put_row(
    alloc: Global,
    line: usize,
    columns: &[Column],
    cells: &[&[u8]],
    list: &mut Vec<Finding>,
) -> Result<(), AllocError>
    ensures { OnOk result (list.new.items ≡ list.old.items ++ row_says line columns.now (map (λ cell. cell.now) cells.now)) }
{
    if are_empty(cells) {
        return Ok(());
    }
    put_full_row(alloc, line, columns, cells, list)
}

/// Whether all cells are empty.
fn are_empty(cells: &[&[u8]]) -> bool
    ensures { result ≡ list_all (λ cell. length cell == 0) (map (λ cell. cell.now) cells.now) }
{
    let mut rest = cells;
    while let [cell, more @ ..] = rest {
        if !cell.is_empty() {
            return false;
        }
        rest = more;
    }
    true
}

/// What the cells of a line say that aren't all empty.
fn put_full_row(
    alloc: Global,
    line: usize,
    columns: &[Column],
    cells: &[&[u8]],
    list: &mut Vec<Finding>,
) -> Result<(), AllocError>
    ensures { OnOk result (list.new.items ≡ list.old.items ++ full_row_says line columns.now (map (λ cell. cell.now) cells.now)) }
{
    if cells.len() != columns.len() {
        return put_trouble(line, Trouble::Cells(cells.len(), columns.len()), list);
    }
    put_cells(alloc, line, place_in(columns, cells), columns, cells, list)
}

/// What the cells of a line say, one behind the other.
fn put_cells(
    alloc: Global,
    line: usize,
    place: Option<(Uid, u16)>,
    columns: &[Column],
    cells: &[&[u8]],
    list: &mut Vec<Finding>,
) -> Result<(), AllocError>
    ensures { OnOk result (list.new.items ≡ list.old.items ++ cells_say line place columns.now (map (λ cell. cell.now) cells.now)) }
{
    let (mut rest, mut left) = (columns, cells);
    while let [column, more @ ..] = rest {
        let [cell, others @ ..] = left else {
            return Ok(());
        };
        put_cell(alloc, line, place, column, cell, list)?;
        rest = more;
        left = others;
    }
    Ok(())
}

/// What a cell says.
#[tactic(auto, unfolding(crate::specs::Sheets::cell_says))]
fn put_cell(
    alloc: Global,
    line: usize,
    place: Option<(Uid, u16)>,
    column: &Column,
    cell: &[u8],
    list: &mut Vec<Finding>,
) -> Result<(), AllocError>
    ensures { OnOk result (list.new.items ≡ list.old.items ++ cell_says line place column.now cell.now) }
{
    match column.meaning {
        Meaning::Uid => match uid_said(cell) {
            Ok(_) => Ok(()),
            Err(trouble) => put_about(line, column, cell, trouble, list),
        },
        Meaning::Sub => match sub_said(cell) {
            Ok(_) => Ok(()),
            Err(trouble) => put_about(line, column, cell, trouble, list),
        },
        Meaning::Parameter(pid, fields) if !cell.is_empty() => {
            put_data(alloc, line, place, column, pid, fields, cell, list)
        }
        _ => Ok(()),
    }
}

/// What the cell of a parameter says, if it isn't empty.
#[tactic(auto, unfolding(crate::specs::Sheets::data_says))]
fn put_data(
    alloc: Global,
    line: usize,
    place: Option<(Uid, u16)>,
    column: &Column,
    pid: u16,
    fields: Option<&[Field]>,
    cell: &[u8],
    list: &mut Vec<Finding>,
) -> Result<(), AllocError>
    ensures { OnOk result (list.new.items ≡ list.old.items ++ data_says line place column.now pid fields.entry cell.now) }
{
    match cell_data(alloc, fields, cell)? {
        Err(unsaid) => {
            let trouble = Trouble::NoData(pid, unsaid);
            put_about(line, column, cell, trouble, list)
        }
        Ok(load) => put_setting(line, place, pid, load, list),
    }
}

/// The setting of a device that is known.
fn put_setting(
    line: usize,
    place: Option<(Uid, u16)>,
    pid: u16,
    load: Load,
    list: &mut Vec<Finding>,
) -> Result<(), AllocError>
    ensures { OnOk result (list.new.items ≡ list.old.items ++ setting_says line place pid load) }
{
    if let Some((uid, sub)) = place {
        list.push(Ok(Setting {
            line,
            uid,
            sub,
            pid,
            load,
        }))?;
    }
    Ok(())
}

/// What is wrong with a whole line.
pub(crate) fn put_trouble(
    line: usize,
    trouble: Trouble,
    list: &mut Vec<Finding>,
) -> Result<(), AllocError>
    ensures { OnOk result (list.new.items ≡ list.old.items ++ Err (of_line line trouble) ∷ []) }
{
    list.push(Err(of_line(line, trouble)))?;
    Ok(())
}

/// What is wrong with a cell of a column.
fn put_about(
    line: usize,
    column: &Column,
    cell: &[u8],
    trouble: Trouble,
    list: &mut Vec<Finding>,
) -> Result<(), AllocError>
    ensures { OnOk result (list.new.items ≡ list.old.items ++ Err (about line column.now cell.now trouble) ∷ []) }
{
    list.push(Err(about(line, column, cell, trouble)))?;
    Ok(())
}

/// The same as one value.
fn about(line: usize, column: &Column, cell: &[u8], trouble: Trouble) -> Complaint
    ensures { result ≡ about line column.now cell.now trouble }
{
    Complaint {
        line,
        column: column.name.copy(),
        cell: kept(cell),
        trouble,
    }
}
