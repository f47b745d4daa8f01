//! A table on a terminal: a line with the names of its columns, and a line for each row.

ghost use Rattle.std.specs.Prelude.{◌≡◌, ◌++◌, List, ℕ, OnOk, replicate};
ghost use Rattle.std.specs.List.{flat_map};
ghost use Rattle.rdm_survey.specs.Columns.{characters, fitted, goes_on, line_of, padded, placed};

use std::alloc::{AllocError, Global};

/// How wide a column is.
#[derive(Clone, Copy)]
pub enum Width {
    /// So many characters: what is longer is cut.
    Cut(usize),
    /// So many characters, or more if its words are longer.
    AtLeast(usize),
    /// As wide as its words. It is the last.
    Rest,
}

/// A column of a table whose rows are of type `R`. Each implementation says what stands there by its ghosts.
pub trait TableColumn<R>: Copy {
    ghost use Rattle.rdm_survey.specs.declared.table.Width.{Width};

    // How wide it is.
    ghost width_of: { Self → Width };

    // What it is called.
    ghost heading_of: { Self → List ℕ };

    // What stands in it for a row.
    ghost words_of: { R → Self → List ℕ };

    /// How wide it is.
    fn width(self) -> Width
        ensures { result ≡ width_of self };

    /// What it is called.
    fn heading(self) -> &'static str
        ensures { result.now ≡ heading_of self };

    /// Puts what stands in it for a row at the end of a text, of any width.
    fn put_words(self, row: &R, text: &mut Vec<u8>) -> Result<(), AllocError>
        ensures { OnOk result (text.new.items ≡ text.old.items ++ words_of row.now self) };
}

/// Puts a line with the names of these columns at the end of a text.
pub fn put_heading_line<R, C: TableColumn<R>>(
    columns: &[C],
    text: &mut Vec<u8>,
) -> Result<(), AllocError>
    ensures { OnOk result (text.new.items ≡ text.old.items ++ line_of (λ c. placed (C.width_of c) (C.heading_of c)) columns.now) }
{
    put_headings(columns, text)?;
    text.extend_from_slice(b"\n")
}

/// What these columns are called.
fn put_headings<R, C: TableColumn<R>>(columns: &[C], text: &mut Vec<u8>) -> Result<(), AllocError>
    ensures { OnOk result (text.new.items ≡ text.old.items ++ flat_map (λ c. placed (C.width_of c) (C.heading_of c)) columns.now) }
{
    for column in columns {
        put_placed(text, column.width(), column.heading().as_bytes())?;
    }
    Ok(())
}

/// Puts a line with what stands in these columns for a row at the end of a text.
pub fn put_row_line<R, C: TableColumn<R>>(
    alloc: Global,
    columns: &[C],
    row: &R,
    text: &mut Vec<u8>,
) -> Result<(), AllocError>
    ensures { OnOk result (text.new.items ≡ text.old.items ++ line_of (λ c. placed (C.width_of c) (C.words_of row.now c)) columns.now) }
{
    put_cells(alloc, columns, row, text)?;
    text.extend_from_slice(b"\n")
}

/// What stands in these columns.
fn put_cells<R, C: TableColumn<R>>(
    alloc: Global,
    columns: &[C],
    row: &R,
    text: &mut Vec<u8>,
) -> Result<(), AllocError>
    ensures { OnOk result (text.new.items ≡ text.old.items ++ flat_map (λ c. placed (C.width_of c) (C.words_of row.now c)) columns.now) }
{
    for column in columns {
        put_cell(alloc, *column, row, text)?;
    }
    Ok(())
}

/// What stands in a column.
fn put_cell<R, C: TableColumn<R>>(
    alloc: Global,
    column: C,
    row: &R,
    text: &mut Vec<u8>,
) -> Result<(), AllocError>
    ensures { OnOk result (text.new.items ≡ text.old.items ++ placed (C.width_of column) (C.words_of row.now column)) }
{
    let mut words = Vec::new(alloc);
    column.put_words(row, &mut words)?;
    put_placed(text, column.width(), words.as_slice())
}

/// Words in a column of this width, and a space unless it is the last.
fn put_placed(text: &mut Vec<u8>, width: Width, words: &[u8]) -> Result<(), AllocError>
    ensures { OnOk result (text.new.items ≡ text.old.items ++ placed width words.now) }
{
    match width {
        Width::Cut(width) => put_fitted(text, width, words),
        Width::AtLeast(width) => put_padded(text, width, words),
        Width::Rest => text.extend_from_slice(words),
    }
}

/// Words in so many bytes and a space: cut, with a `~` at the end, if they are longer.
fn put_fitted(text: &mut Vec<u8>, width: usize, words: &[u8]) -> Result<(), AllocError>
    ensures { OnOk result (text.new.items ≡ text.old.items ++ fitted width words.now) }
{
    if words.len() > width {
        text.extend_from_slice(&words[..width.saturating_sub(1)])?;
        return text.extend_from_slice(b"~ ");
    }
    text.extend_from_slice(words)?;
    put_spaces(text, width - words.len())?;
    text.extend_from_slice(b" ")
}

/// Puts words at the end of a text, spaces behind them up to so many characters, and one more.
pub fn put_padded(text: &mut Vec<u8>, width: usize, words: &[u8]) -> Result<(), AllocError>
    ensures { OnOk result (text.new.items ≡ text.old.items ++ padded width words.now) }
{
    text.extend_from_slice(words)?;
    put_spaces(text, width.saturating_sub(characters(words)))?;
    text.extend_from_slice(b" ")
}

/// So many spaces.
fn put_spaces(text: &mut Vec<u8>, count: usize) -> Result<(), AllocError>
    ensures { OnOk result (text.new.items ≡ text.old.items ++ replicate count 0x20) }
{
    for i in 0..count {
        text.extend_from_slice(b" ")?;
    }
    Ok(())
}

/// How many characters a text in UTF-8 has.
fn characters(text: &[u8]) -> usize
    ensures { result ≡ characters text.now }
{
    text.iter().filter(|byte| !goes_on(**byte)).count()
}

/// Whether a byte of UTF-8 goes on with a character.
fn goes_on(byte: u8) -> bool
    ensures { result ≡ goes_on byte }
{
    0x80 <= byte && byte <= 0xBF
}
