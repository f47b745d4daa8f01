//! Sensors as a table on a terminal.

ghost use Rattle.std.specs.Prelude.{◌≡◌, ◌++◌, OnOk};
ghost use Rattle.rdm_health.specs.SensorTable.{heading, sensor_heading, sensor_line, width, words_in};

use crate::SensorRow;
use crate::sensor_words::put_words;
use rdm_survey::{TableColumn, Width, put_heading_line, put_row_line};
use std::alloc::{AllocError, Global};

/// A column of the table.
#[derive(Clone, Copy)]
pub(crate) enum Column {
    Place,
    Number,
    Name,
    Kind,
    Value,
    Lowest,
    Highest,
    Recorded,
    Normal,
    Verdict,
}

/// The columns, in order.
const COLUMNS: &[Column] = &[
    Column::Place,
    Column::Number,
    Column::Name,
    Column::Kind,
    Column::Value,
    Column::Lowest,
    Column::Highest,
    Column::Recorded,
    Column::Normal,
    Column::Verdict,
];

/// Puts the heading of the table of sensors at the end of a text: a line with the names of the columns.
pub fn put_sensor_heading(text: &mut Vec<u8>) -> Result<(), AllocError>
    ensures { OnOk result (text.new.items ≡ text.old.items ++ sensor_heading) }
{
    put_heading_line::<SensorRow, Column>(COLUMNS, text)
}

/// Puts a sensor at the end of a text: a line, whose columns stand under those of the heading. What the fixture didn't tell or the sensor
/// doesn't keep is a hyphen, and a name that is too long for its column ends with `~`.
pub fn put_sensor_row(alloc: Global, row: &SensorRow, text: &mut Vec<u8>) -> Result<(), AllocError>
    ensures { OnOk result (text.new.items ≡ text.old.items ++ sensor_line row.now) }
{
    put_row_line(alloc, COLUMNS, row, text)
}

impl TableColumn<SensorRow> for Column {
    ghost width_of = { width };

    ghost heading_of = { heading };

    ghost words_of = { λ row column. words_in column row };

    fn width(self) -> Width {
        match self {
            Column::Place => Width::AtLeast(17),
            Column::Number => Width::AtLeast(3),
            Column::Name => Width::Cut(20),
            Column::Kind => Width::AtLeast(16),
            Column::Value | Column::Normal => Width::AtLeast(12),
            Column::Lowest => Width::AtLeast(6),
            Column::Highest => Width::AtLeast(7),
            Column::Recorded => Width::AtLeast(8),
            Column::Verdict => Width::Rest,
        }
    }

    fn heading(self) -> &'static str {
        match self {
            Column::Place => "UID",
            Column::Number => "No.",
            Column::Name => "Sensor",
            Column::Kind => "Type",
            Column::Value => "Value",
            Column::Lowest => "Lowest",
            Column::Highest => "Highest",
            Column::Recorded => "Recorded",
            Column::Normal => "Normal",
            Column::Verdict => "Verdict",
        }
    }

    fn put_words(self, row: &SensorRow, text: &mut Vec<u8>) -> Result<(), AllocError> {
        put_words(text, self, row)
    }
}
