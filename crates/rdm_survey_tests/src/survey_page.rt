//! What no clause says: pages that were worked out by hand (HTML Living Standard, sections 13.1 and 4.9).

use crate::survey::silent;
use rdm_frame::{Text, Uid};
use rdm_survey::{DeviceInfo, Row, StatusCounts, SubDevice};
use rdm_survey_page::put_page;
use std::alloc::Global;
use std::process::Abort;

/// A fixture of manufacturer 7FF0, its model and label, its start address and its footprint.
type Fixture = (u32, &'static [u8], &'static [u8], u16, u16);

/// Two that meet in slot 108, one beside them, and one that goes past the end.
const FIXTURES: &[Fixture] = &[
    (1, b"Spot", b"=SUM(A1)", 101, 8),
    (2, b"<b>Wash</b>", b"Left\\\n\"", 108, 2),
    (3, b"&lt;", b"\xE4", 110, 1),
    (4, b"Haze", b"", 512, 2),
];

/// The row of a fixture.
fn row_of(alloc: Global, fixture: &Fixture) -> Row {
    let (device, model, label, address, footprint) = *fixture;
    Row {
        uid: Uid {
            maker: 0x7FF0,
            device,
        },
        manufacturer: Text::from_slice(b"A&B"),
        model: Text::from_slice(model),
        label: Text::from_slice(label),
        device: Some(DeviceInfo {
            model_id: 0x0102,
            category: 0x0101,
            software_id: 0x0A0B_0C0D,
            footprint,
            personality: 2,
            personalities: 3,
            address: Some(address),
            sub_devices: 0,
            sensors: 4,
        }),
        personality: Text::from_slice(b"Fine"),
        software: Text::from_slice(b"1.2.3"),
        hours: Some(77),
        status: Some(StatusCounts {
            errors: 2,
            warnings: 1,
        }),
        sub_devices: Vec::new(alloc),
    }
}

/// The rows of these fixtures, of which the last has a sub-device in slots 101 and 102, and of one that told nothing.
fn rows(rt: &impl Abort, alloc: Global) -> Vec<Row> {
    let mut rows = Vec::new(alloc);
    for fixture in FIXTURES {
        rows.push(row_of(alloc, fixture)).expect(rt, "memory");
    }
    if let [.., last] = rows.as_mut_slice() {
        add_sub_device(rt, last);
    }
    rows.push(silent(alloc)).expect(rt, "memory");
    rows
}

fn add_sub_device(rt: &impl Abort, row: &mut Row) {
    let sub_device = SubDevice {
        number: 7,
        address: Some(101),
        footprint: 2,
    };
    row.sub_devices.push(sub_device).expect(rt, "memory");
}

/// The page of rows.
fn page_of(rt: &impl Abort, alloc: Global, title: &str, rows: &[Row]) -> Vec<u8> {
    let mut text = Vec::new(alloc);
    put_page(alloc, title, rows, &mut text).expect(rt, "memory");
    text
}

/// The page of these rows.
const PAGE: &str = "<!DOCTYPE html>
<html lang=\"en\">
<head>
<meta charset=\"utf-8\">
<meta name=\"viewport\" content=\"width=device-width\">
<title>&lt;Hall&gt; &quot;A&quot; &amp; B: 5 fixtures</title>
<style>
:root { color-scheme: light dark; }
body { margin: 1.5em; font: 14px/1.4 system-ui, sans-serif; color: #111; background: #fff; }
h1 { margin: 0 0 .6em; font-size: 1.5em; }
h2 { margin: 1.2em 0 .4em; font-size: 1.15em; }
table { width: 100%; border-collapse: collapse; }
th, td { padding: .3em .5em; border: 1px solid #999; text-align: left; vertical-align: top; white-space: nowrap; }
th { background: #ddd; }
td:nth-child(2), td:nth-child(3), td:nth-child(4), td:nth-child(7), td:nth-child(8), td:nth-child(12) {
white-space: normal; overflow-wrap: anywhere; }
td:nth-child(1), td:nth-child(5) { font-family: monospace; }
td:nth-child(5) { font-weight: bold; }
td:nth-child(6), td:nth-child(9), td:nth-child(10), td:nth-child(11) { text-align: right; }
td:nth-child(13) { min-width: 8em; }
tr.clash td { background: #fdd; }
tr.clash td:nth-child(5)::after { content: \" !\"; color: #c00; }
.by { margin-top: 2em; }
.by span { display: inline-block; width: 14em; margin-right: 2em; border-bottom: 1px solid; }
@media screen and (prefers-color-scheme: dark) {
body { color: #eee; background: #161616; }
th, td { border-color: #555; }
th { background: #333; }
tr.clash td { background: #522; }
tr.clash td:nth-child(5)::after { color: #f88; }
}
@page { size: A4 landscape; margin: 10mm; }
@media print {
:root { color-scheme: light; }
body { margin: 0; font-size: 8.5pt; }
thead { display: table-header-group; }
tr, li, .by { break-inside: avoid; }
h2 { break-after: avoid; }
th, tr.clash td { print-color-adjust: exact; }
}
</style>
</head>
<body>
<h1>&lt;Hall&gt; &quot;A&quot; &amp; B: 5 fixtures</h1>
<table>
<thead>
<tr>
<th scope=\"col\">UID</th>
<th scope=\"col\">Manufacturer</th>
<th scope=\"col\">Model</th>
<th scope=\"col\">Label</th>
<th scope=\"col\">Address</th>
<th scope=\"col\">Slots</th>
<th scope=\"col\">Personality</th>
<th scope=\"col\">Software</th>
<th scope=\"col\">Subs</th>
<th scope=\"col\">Sensors</th>
<th scope=\"col\">Hours</th>
<th scope=\"col\">Status</th>
<th scope=\"col\">Notes</th>
</tr>
</thead>
<tbody>
<tr class=\"clash\"><td>7FF0:00000001</td><td>A&amp;B</td><td>Spot</td><td>=SUM(A1)</td><td>101-108</td><td>8</td><td>2 of 3: Fine</td><td>1.2.3</td><td>0</td><td>4</td><td>77</td><td>2 errors, 1 warning</td><td></td></tr>
<tr class=\"clash\"><td>7FF0:00000002</td><td>A&amp;B</td><td>&lt;b&gt;Wash&lt;/b&gt;</td><td>Left\\\\\\x0A&quot;</td><td>108-109</td><td>2</td><td>2 of 3: Fine</td><td>1.2.3</td><td>0</td><td>4</td><td>77</td><td>2 errors, 1 warning</td><td></td></tr>
<tr><td>7FF0:00000003</td><td>A&amp;B</td><td>&amp;lt;</td><td>\\xE4</td><td>110</td><td>1</td><td>2 of 3: Fine</td><td>1.2.3</td><td>0</td><td>4</td><td>77</td><td>2 errors, 1 warning</td><td></td></tr>
<tr class=\"clash\"><td>7FF0:00000004</td><td>A&amp;B</td><td>Haze</td><td></td><td>512-513</td><td>2</td><td>2 of 3: Fine</td><td>1.2.3</td><td>0</td><td>4</td><td>77</td><td>2 errors, 1 warning</td><td></td></tr>
<tr><td>7FF0:00000005</td><td>-</td><td>-</td><td>-</td><td>-</td><td>-</td><td>-</td><td>-</td><td>-</td><td>-</td><td>-</td><td>-</td><td></td></tr>
</tbody>
</table>
<h2>Clashes</h2>
<ul>
<li>7FF0:00000001 and 7FF0:00000002 share slot 108</li>
<li>7FF0:00000001 and 7FF0:00000004 sub-device 7 share slots 101 to 102</li>
<li>7FF0:00000004 goes past slot 512</li>
</ul>
<p class=\"by\">Checked by <span></span> Date <span></span></p>
</body>
</html>
";

#[test]
fn rows_are_a_page(rt: HostRuntime) {
    let rows = rows(&rt, rt.alloc());
    let text = page_of(&rt, rt.alloc(), "<Hall> \"A\" & B", rows.as_slice());
    assert!(rt; text.as_slice() == PAGE.as_bytes());
}

/// From the heading on, the page of no rows.
const EMPTY: &str = "<h1>Hall: 0 fixtures</h1>
<table>
<thead>
<tr>
<th scope=\"col\">UID</th>
<th scope=\"col\">Manufacturer</th>
<th scope=\"col\">Model</th>
<th scope=\"col\">Label</th>
<th scope=\"col\">Address</th>
<th scope=\"col\">Slots</th>
<th scope=\"col\">Personality</th>
<th scope=\"col\">Software</th>
<th scope=\"col\">Subs</th>
<th scope=\"col\">Sensors</th>
<th scope=\"col\">Hours</th>
<th scope=\"col\">Status</th>
<th scope=\"col\">Notes</th>
</tr>
</thead>
<tbody>
</tbody>
</table>
<h2>Clashes</h2>
<p>No clashes.</p>
<p class=\"by\">Checked by <span></span> Date <span></span></p>
</body>
</html>
";

#[test]
fn no_rows_are_a_page(rt: HostRuntime) {
    let text = page_of(&rt, rt.alloc(), "Hall", &[]);
    assert!(rt; text.as_slice().ends_with(EMPTY.as_bytes()));
}

/// From the heading on, the page of a row that tells nothing.
const ONE: &str = "<h1>Hall: 1 fixture</h1>
<table>
<thead>
<tr>
<th scope=\"col\">UID</th>
<th scope=\"col\">Manufacturer</th>
<th scope=\"col\">Model</th>
<th scope=\"col\">Label</th>
<th scope=\"col\">Address</th>
<th scope=\"col\">Slots</th>
<th scope=\"col\">Personality</th>
<th scope=\"col\">Software</th>
<th scope=\"col\">Subs</th>
<th scope=\"col\">Sensors</th>
<th scope=\"col\">Hours</th>
<th scope=\"col\">Status</th>
<th scope=\"col\">Notes</th>
</tr>
</thead>
<tbody>
<tr><td>7FF0:00000005</td><td>-</td><td>-</td><td>-</td><td>-</td><td>-</td><td>-</td><td>-</td><td>-</td><td>-</td><td>-</td><td>-</td><td></td></tr>
</tbody>
</table>
<h2>Clashes</h2>
<p>No clashes.</p>
<p class=\"by\">Checked by <span></span> Date <span></span></p>
</body>
</html>
";

#[test]
fn one_row_is_a_page(rt: HostRuntime) {
    let text = page_of(&rt, rt.alloc(), "Hall", &[silent(rt.alloc())]);
    assert!(rt; text.as_slice().ends_with(ONE.as_bytes()));
}
