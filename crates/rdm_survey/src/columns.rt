//! A survey as a table on a terminal.

ghost use Rattle.std.specs.Prelude.{◌≡◌, ◌++◌, OnOk};
ghost use Rattle.rdm_survey.specs.Table.{columns, heading, heading_line, row_line, width, words_in};

use crate::Row;
use crate::column_words::put_words;
use crate::table::{TableColumn, Width, put_heading_line, put_row_line};
use std::alloc::{AllocError, Global};

/// A column of the table.
#[derive(Clone, Copy)]
pub enum Column {
    /// The UID, as `7FF0:00000001`.
    Uid,
    /// Who made the fixture.
    Manufacturer,
    /// What it is.
    Model,
    /// What its owner calls it.
    Label,
    /// The slots of its root, as `101-108`.
    Address,
    /// How many slots its root takes.
    Footprint,
    /// Its personality, as `2 of 3: Fine`.
    Personality,
    /// What its software is called.
    Software,
    /// How many sub-devices it has.
    SubDevices,
    /// How many sensors it has.
    Sensors,
    /// How many hours it has run.
    Hours,
    /// Its status, as `2 errors, 1 warning`, or `ok`.
    Status,
}

/// All of them, in order.
const COLUMNS: &[Column] = &[
    Column::Uid,
    Column::Manufacturer,
    Column::Model,
    Column::Label,
    Column::Address,
    Column::Footprint,
    Column::Personality,
    Column::Software,
    Column::SubDevices,
    Column::Sensors,
    Column::Hours,
    Column::Status,
];

/// The columns, in order.
pub fn all_columns() -> &'static [Column]
    ensures { result.now ≡ columns }
{
    COLUMNS
}

/// Puts the heading of the table at the end of a text: a line with the names of the columns.
pub fn put_heading(text: &mut Vec<u8>) -> Result<(), AllocError>
    ensures { OnOk result (text.new.items ≡ text.old.items ++ heading_line) }
{
    put_heading_line::<Row, Column>(COLUMNS, text)
}

/// Puts a row at the end of a text: a line, whose columns stand under those of the heading. What the fixture didn't tell is a hyphen, and
/// what is too long for its column ends with `~`.
pub fn put_row(alloc: Global, row: &Row, text: &mut Vec<u8>) -> Result<(), AllocError>
    ensures { OnOk result (text.new.items ≡ text.old.items ++ row_line row.now) }
{
    put_row_line(alloc, COLUMNS, row, text)
}

impl TableColumn<Row> for Column {
    ghost width_of = { width };

    ghost heading_of = { heading };

    ghost words_of = { λ row column. words_in column row };

    /// The last column is as wide as what stands in it.
    fn width(self) -> Width {
        match self {
            Column::Uid => Width::Cut(13),
            Column::Manufacturer => Width::Cut(14),
            Column::Model | Column::Personality => Width::Cut(18),
            Column::Label => Width::Cut(16),
            Column::Address | Column::Sensors => Width::Cut(7),
            Column::Footprint => Width::Cut(5),
            Column::Software => Width::Cut(10),
            Column::SubDevices => Width::Cut(4),
            Column::Hours => Width::Cut(6),
            Column::Status => Width::Rest,
        }
    }

    fn heading(self) -> &'static str {
        match self {
            Column::Uid => "UID",
            Column::Manufacturer => "Manufacturer",
            Column::Model => "Model",
            Column::Label => "Label",
            Column::Address => "Address",
            Column::Footprint => "Slots",
            Column::Personality => "Personality",
            Column::Software => "Software",
            Column::SubDevices => "Subs",
            Column::Sensors => "Sensors",
            Column::Hours => "Hours",
            Column::Status => "Status",
        }
    }

    fn put_words(self, row: &Row, text: &mut Vec<u8>) -> Result<(), AllocError> {
        put_words(text, self, row)
    }
}
