//! The lines of a file, and their cells.

ghost use Rattle.std.specs.Prelude.{◌≡◌, ◌==◌, ◌++◌, ◌∷◌, [], IfOk, OnOk, count_by, map, option_map};
ghost use Rattle.std.specs.List.{list_any};
ghost use Rattle.std.specs.Str.Lines.{strip_carriage_return};
ghost use Rattle.csv.specs.Records.{fields_of};
ghost use Rattle.rdm_settings.specs.Lines.{cells_in, is_torn, lines_of};

use csv::{ByteRecord, ReaderBuilder};
use rdm_streams::{line_end, without_return};
use std::alloc::{AllocError, Global};

/// The lines of a text, without what ends them.
pub(crate) fn lines_of<'a>(alloc: Global, text: &'a [u8]) -> Result<Vec<&'a [u8]>, AllocError>
    ensures { IfOk result (λ lines. map (λ line. line.now) lines.items ≡ lines_of text.now) }
{
    let mut lines = Vec::new(alloc);
    let mut rest = text;
    while let Some(end) = line_end(rest) {
        put_line(&mut lines, &rest[..end])?;
        rest = &rest[end + 1..];
    }
    put_line(&mut lines, rest)?;
    Ok(lines)
}

/// Puts a line without the carriage return that ends it.
fn put_line<'a>(lines: &mut Vec<&'a [u8]>, piece: &'a [u8]) -> Result<(), AllocError>
    ensures { OnOk result (map (λ line. line.now) lines.new.items
        ≡ map (λ line. line.now) lines.old.items ++ strip_carriage_return piece.now ∷ []) }
{
    lines.push(without_return(piece))?;
    Ok(())
}

/// Whether a quote is open at the end of a line, or a carriage return stands in it.
pub(crate) fn is_torn(line: &[u8]) -> bool
    ensures { result ≡ is_torn line.now }
{
    let open = quotes(line) % 2 == 1;
    open || has_return(line)
}

/// Whether a line has a carriage return.
fn has_return(line: &[u8]) -> bool
    ensures { result ≡ list_any (λ b. b == 13) line.now }
{
    line.iter().any(|b| *b == b'\r')
}

/// How many quotes a line has.
fn quotes(line: &[u8]) -> usize
    ensures { result ≡ count_by (λ b. b == 34) line.now }
{
    line.iter().filter(|b| **b == b'"').count()
}

/// A line as the csv crate reads it, if it isn't blank.
#[tactic(auto, unfolding(crate::specs::Lines::cells_in))]
pub(crate) fn record_in(alloc: Global, line: &[u8]) -> Result<Option<ByteRecord>, AllocError>
    ensures { IfOk result (λ row. option_map fields_of row ≡ cells_in line.now) }
{
    let mut reader = ReaderBuilder::new()
        .has_headers(false)
        .from_reader(alloc, line);
    let mut row = ByteRecord::new(alloc);
    // A slice can be read, so that memory alone is refused.
    match reader.read_byte_record(&mut row) {
        Ok(true) => Ok(Some(row)),
        Ok(false) => Ok(None),
        Err(_) => Err(AllocError),
    }
}

/// The cells of a line that was read.
pub(crate) fn cells_of<'a>(alloc: Global, row: &'a ByteRecord) -> Result<Vec<&'a [u8]>, AllocError>
    ensures { IfOk result (λ cells. map (λ cell. cell.now) cells.items ≡ fields_of row.now) }
{
    let mut cells = Vec::new(alloc);
    let mut index = 0;
    while let Some(cell) = row.get(index) {
        put_cell(&mut cells, cell)?;
        index += 1;
    }
    Ok(cells)
}

fn put_cell<'a>(cells: &mut Vec<&'a [u8]>, cell: &'a [u8]) -> Result<(), AllocError>
    ensures { OnOk result (map (λ cell. cell.now) cells.new.items ≡ map (λ cell. cell.now) cells.old.items ++ cell.now ∷ []) }
{
    cells.push(cell)?;
    Ok(())
}
