//! A survey as a page of HTML.

ghost use Rattle.std.specs.Prelude.{◌≡◌, ◌++◌, codes, OnOk};
ghost use Rattle.rdm_survey.specs.Table.{counted};
ghost use Rattle.rdm_survey_page.specs.Escaping.{escaped};
ghost use Rattle.rdm_survey_page.specs.Pages.{front, heading, page_text, style};

use crate::clash_list::put_clash_list;
use crate::escaping::put_escaped;
use crate::fixed::{put_end, put_front, put_style, put_table_end, put_table_front};
use crate::table::put_rows;
use itoa::Buffer;
use rdm_survey::{Row, clashes};
use std::alloc::{AllocError, Global};

/// Puts the rows at the end of a text as a page of HTML: a heading with the title and how many fixtures there are, a table with a row for
/// each fixture, and below it what is wrong with their slots. A row of a fixture whose slots clash is marked. What a fixture didn't tell is
/// a hyphen.
///
/// The page is a whole document, in UTF-8. It follows the dark or light scheme of the screen, and prints on A4 landscape.
pub fn put_page(
    alloc: Global,
    title: &str,
    rows: &[Row],
    text: &mut Vec<u8>,
) -> Result<(), AllocError>
    ensures { OnOk result (text.new.items ≡ text.old.items ++ page_text title.now rows.now) }
{
    let clashes = clashes(alloc, rows)?;
    let mut heading = Vec::new(alloc);
    put_heading(&mut heading, title, rows.len())?;
    put_head(text, heading.as_slice())?;
    put_table_front(text)?;
    put_rows(alloc, rows, clashes.as_slice(), text)?;
    put_table_end(text)?;
    put_clash_list(alloc, clashes.as_slice(), text)?;
    put_end(text)
}

/// What stands before the table.
fn put_head(text: &mut Vec<u8>, heading: &[u8]) -> Result<(), AllocError>
    ensures { OnOk result (text.new.items ≡ text.old.items ++ front ++ escaped heading.now ++ style ++ escaped heading.now) }
{
    put_front(text)?;
    put_escaped(text, heading)?;
    put_style(text)?;
    put_escaped(text, heading)
}

/// The title, and how many fixtures there are.
fn put_heading(text: &mut Vec<u8>, title: &str, count: usize) -> Result<(), AllocError>
    ensures { OnOk result (text.new.items ≡ text.old.items ++ heading title.now count) }
{
    text.extend_from_slice(title.as_bytes())?;
    text.extend_from_slice(b": ")?;
    put_count(text, count)
}

/// How many fixtures there are.
fn put_count(text: &mut Vec<u8>, count: usize) -> Result<(), AllocError>
    ensures { OnOk result (text.new.items ≡ text.old.items ++ counted count (codes " fixture")) }
{
    text.extend_from_slice(Buffer::new().format(count).as_bytes())?;
    text.extend_from_slice(b" fixture")?;
    if count != 1 {
        text.extend_from_slice(b"s")?;
    }
    Ok(())
}
