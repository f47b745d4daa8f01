//! What stands on every page.

ghost use Rattle.std.specs.Prelude.{◌≡◌, ◌++◌, OnOk};
ghost use Rattle.rdm_survey_page.specs.Pages.{end, front, style, table_end, table_front};

use std::alloc::AllocError;

/// What stands before the title.
const FRONT: &[u8] = b"<!DOCTYPE html>
<html lang=\"en\">
<head>
<meta charset=\"utf-8\">
<meta name=\"viewport\" content=\"width=device-width\">
<title>";

/// What stands between the title and the heading: how the page looks, on a screen, dark or light, and on paper.
const STYLE: &[u8] = b"</title>
<style>
:root { color-scheme: light dark; }
body { margin: 1.5em; font: 14px/1.4 system-ui, sans-serif; color: #111; background: #fff; }
h1 { margin: 0 0 .6em; font-size: 1.5em; }
h2 { margin: 1.2em 0 .4em; font-size: 1.15em; }
table { width: 100%; border-collapse: collapse; }
th, td { padding: .3em .5em; border: 1px solid #999; text-align: left; vertical-align: top; white-space: nowrap; }
th { background: #ddd; }
td:nth-child(2), td:nth-child(3), td:nth-child(4), td:nth-child(7), td:nth-child(8), td:nth-child(12) {
white-space: normal; overflow-wrap: anywhere; }
td:nth-child(1), td:nth-child(5) { font-family: monospace; }
td:nth-child(5) { font-weight: bold; }
td:nth-child(6), td:nth-child(9), td:nth-child(10), td:nth-child(11) { text-align: right; }
td:nth-child(13) { min-width: 8em; }
tr.clash td { background: #fdd; }
tr.clash td:nth-child(5)::after { content: \" !\"; color: #c00; }
.by { margin-top: 2em; }
.by span { display: inline-block; width: 14em; margin-right: 2em; border-bottom: 1px solid; }
@media screen and (prefers-color-scheme: dark) {
body { color: #eee; background: #161616; }
th, td { border-color: #555; }
th { background: #333; }
tr.clash td { background: #522; }
tr.clash td:nth-child(5)::after { color: #f88; }
}
@page { size: A4 landscape; margin: 10mm; }
@media print {
:root { color-scheme: light; }
body { margin: 0; font-size: 8.5pt; }
thead { display: table-header-group; }
tr, li, .by { break-inside: avoid; }
h2 { break-after: avoid; }
th, tr.clash td { print-color-adjust: exact; }
}
</style>
</head>
<body>
<h1>";

/// What stands between the heading and the rows: the names of the columns.
const TABLE_FRONT: &[u8] = b"</h1>
<table>
<thead>
<tr>
<th scope=\"col\">UID</th>
<th scope=\"col\">Manufacturer</th>
<th scope=\"col\">Model</th>
<th scope=\"col\">Label</th>
<th scope=\"col\">Address</th>
<th scope=\"col\">Slots</th>
<th scope=\"col\">Personality</th>
<th scope=\"col\">Software</th>
<th scope=\"col\">Subs</th>
<th scope=\"col\">Sensors</th>
<th scope=\"col\">Hours</th>
<th scope=\"col\">Status</th>
<th scope=\"col\">Notes</th>
</tr>
</thead>
<tbody>
";

/// What stands between the rows and the clashes.
const TABLE_END: &[u8] = b"</tbody>
</table>
<h2>Clashes</h2>
";

/// What stands behind the clashes.
const END: &[u8] = b"<p class=\"by\">Checked by <span></span> Date <span></span></p>
</body>
</html>
";

/// What stands before the title.
pub(crate) fn put_front(text: &mut Vec<u8>) -> Result<(), AllocError>
    ensures { OnOk result (text.new.items ≡ text.old.items ++ front) }
{
    text.extend_from_slice(FRONT)
}

/// What stands between the title and the heading: how the page looks, on a screen, dark or light, and on paper.
pub(crate) fn put_style(text: &mut Vec<u8>) -> Result<(), AllocError>
    ensures { OnOk result (text.new.items ≡ text.old.items ++ style) }
{
    text.extend_from_slice(STYLE)
}

/// What stands between the heading and the rows: the names of the columns.
pub(crate) fn put_table_front(text: &mut Vec<u8>) -> Result<(), AllocError>
    ensures { OnOk result (text.new.items ≡ text.old.items ++ table_front) }
{
    text.extend_from_slice(TABLE_FRONT)
}

/// What stands between the rows and the clashes.
pub(crate) fn put_table_end(text: &mut Vec<u8>) -> Result<(), AllocError>
    ensures { OnOk result (text.new.items ≡ text.old.items ++ table_end) }
{
    text.extend_from_slice(TABLE_END)
}

/// What stands behind the clashes.
pub(crate) fn put_end(text: &mut Vec<u8>) -> Result<(), AllocError>
    ensures { OnOk result (text.new.items ≡ text.old.items ++ end) }
{
    text.extend_from_slice(END)
}
