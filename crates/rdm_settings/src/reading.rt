//! From a file to what it sets.

ghost use Rattle.std.specs.Prelude.{◌≡◌, ◌++◌, [], IfOk, OnOk, map};
ghost use Rattle.std.specs.List.{flat_map};
ghost use Rattle.rdm_settings.specs.Columns.{AreColumns};
ghost use Rattle.rdm_settings.specs.Sheets.{complaint_in, file_says, line_says, lines_say, names_of, setting_in, IsRead};
ghost use Rattle.rdm_settings.specs.Twice.{twice};

use crate::column::{Column, columns_of};
use crate::complaint::{Complaint, Trouble};
use crate::findings::{Finding, put_heading, put_row, put_trouble};
use crate::line::{cells_of, is_torn, lines_of, record_in};
use crate::setting::{Setting, Sheet};
use crate::twice::put_twice;
use std::alloc::{AllocError, Global};

/// What a file sets, and what is wrong with it: all of it, and not the first fault alone.
///
/// The file is CSV (RFC 4180), with commas between cells and LF or CR and LF behind each line; a byte order mark may stand before it. Its
/// first line names the columns, in upper or lower case: `uid`, which must be there, `sub`, and parameters by their names in the standard
/// or by four hexadecimal digits. Each further line is a fixture or a sub-device of one, unless all its cells are empty. Its `uid` is the
/// UID of one device, its `sub` `root`, 0 to 512 or empty, which means the root. Each other cell that isn't empty is the data to SET there:
/// a text whole, and else a word for each field with blanks between, or hexadecimal digits for a maker's own parameter. A hyphen says
/// that there are no data. A text without the apostrophe is set before which a list of fixtures has one.
pub fn settings_in(alloc: Global, text: &[u8]) -> Result<Sheet, AllocError>
    ensures { IfOk result (λ sheet. IsRead text.now sheet.settings.items sheet.complaints.items) }
{
    let lines = lines_of(alloc, text)?;
    let columns = columns_in(alloc, lines.as_slice())?;
    let mut list = Vec::new(alloc);
    put_file(alloc, columns.as_slice(), lines.as_slice(), &mut list)?;
    sheet_of(alloc, list.as_slice())
}

/// The columns that the first line names.
fn columns_in(alloc: Global, lines: &[&[u8]]) -> Result<Vec<Column>, AllocError>
    ensures { IfOk result (λ columns. AreColumns [] (names_of (map (λ line. line.now) lines.now)) columns.items) }
{
    match lines {
        [first, ..] if !is_torn(first) => match record_in(alloc, first)? {
            Some(names) => columns_of(alloc, cells_of(alloc, &names)?.as_slice()),
            None => Ok(Vec::new(alloc)),
        },
        _ => Ok(Vec::new(alloc)),
    }
}

/// What the lines say, of which the first names these columns.
fn put_file(
    alloc: Global,
    columns: &[Column],
    lines: &[&[u8]],
    list: &mut Vec<Finding>,
) -> Result<(), AllocError>
    ensures { OnOk result (list.new.items ≡ list.old.items ++ file_says columns.now (map (λ line. line.now) lines.now)) }
{
    let [first, others @ ..] = lines else {
        return Ok(());
    };
    if is_torn(first) {
        return put_trouble(1, Trouble::Torn, list);
    }
    put_heading(columns, list)?;
    if columns.is_empty() {
        return Ok(());
    }
    put_lines(alloc, columns, others, list)
}

/// What the lines behind the first say.
fn put_lines(
    alloc: Global,
    columns: &[Column],
    lines: &[&[u8]],
    list: &mut Vec<Finding>,
) -> Result<(), AllocError>
    ensures { OnOk result (list.new.items ≡ list.old.items ++ lines_say columns.now 2 (map (λ line. line.now) lines.now)) }
{
    let mut number = 2;
    let mut rest = lines;
    while let [line, more @ ..] = rest {
        put_line(alloc, columns, number, line, list)?;
        number += 1;
        rest = more;
    }
    Ok(())
}

/// What a line with this number says.
#[tactic(auto, unfolding(crate::specs::Sheets::line_says))]
fn put_line(
    alloc: Global,
    columns: &[Column],
    number: usize,
    line: &[u8],
    list: &mut Vec<Finding>,
) -> Result<(), AllocError>
    ensures { OnOk result (list.new.items ≡ list.old.items ++ line_says columns.now number line.now) }
{
    if is_torn(line) {
        return put_trouble(number, Trouble::Torn, list);
    }
    match record_in(alloc, line)? {
        Some(cells) => put_row(
            alloc,
            number,
            columns,
            cells_of(alloc, &cells)?.as_slice(),
            list,
        ),
        None => Ok(()),
    }
}

/// The settings and the complaints among findings, and complaints of what is set twice.
fn sheet_of(alloc: Global, list: &[Finding]) -> Result<Sheet, AllocError>
    ensures settings { IfOk result (λ sheet. sheet.settings.items ≡ flat_map setting_in list.now) }
    ensures complaints { IfOk result (λ sheet. sheet.complaints.items
        ≡ flat_map complaint_in list.now ++ twice (flat_map setting_in list.now)) }
{
    let mut settings = Vec::new(alloc);
    let mut complaints = Vec::new(alloc);
    for finding in list {
        put_finding(finding, &mut settings, &mut complaints)?;
    }
    put_twice(settings.as_slice(), &mut complaints)?;
    Ok(Sheet {
        settings,
        complaints,
    })
}

/// Puts a finding where it belongs.
fn put_finding(
    finding: &Finding,
    settings: &mut Vec<Setting>,
    complaints: &mut Vec<Complaint>,
) -> Result<(), AllocError>
    ensures settings { OnOk result (settings.new.items ≡ settings.old.items ++ setting_in finding.now) }
    ensures complaints { OnOk result (complaints.new.items ≡ complaints.old.items ++ complaint_in finding.now) }
{
    match finding {
        Ok(setting) => settings.push(setting.copy())?,
        Err(complaint) => complaints.push(complaint.copy())?,
    }
    Ok(())
}
