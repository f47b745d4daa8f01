//! Each key that holds one value: what may stand there, and what is told of anything else.

use super::{LEAST, Part, told, with_ends};
use std::alloc::{AllocError, Global};
use std::process::Abort;

/// A key that holds an integer, an integer that is too small, its least, its greatest, and one that is too great; and what stands
/// before it in its table, nothing for the table at the top.
const NUMBERS: &str = r#"product_category -1 0 65535 65536
software_version_id -1 0 4294967295 4294967296
boot_software_version_id -1 0 4294967295 4294967296
dmx_start_address 0 1 512 513
presets -1 0 65534 65535
device_hours -1 0 4294967295 4294967296
lamp_hours -1 0 4294967295 4294967296
lamp_strikes -1 0 4294967295 4294967296
device_power_cycles -1 0 4294967295 4294967296
dmx_footprint -1 0 1 2: [[slot]]¶label_id = 1¶[[personality]]
label_id -1 0 65535 65536: [[slot]]
type -1 0 255 256: [[slot]]¶label_id = 1
default_value -1 0 255 256: [[slot]]¶label_id = 1
type -1 0 255 256: [[sensor]]
unit -1 0 255 256: [[sensor]]¶type = 1
prefix -1 0 255 256: [[sensor]]¶type = 1
range_minimum_value -32769 -32768 32767 32768: [[sensor]]¶type = 1
range_maximum_value -32769 -32768 32767 32768: [[sensor]]¶type = 1
normal_minimum_value -32769 -32768 32767 32768: [[sensor]]¶type = 1
normal_maximum_value -32769 -32768 32767 32768: [[sensor]]¶type = 1
recorded_value_support -1 0 255 256: [[sensor]]¶type = 1
present -32769 -32768 32767 32768: [[sensor]]¶type = 1
lamp_state -1 0 65535 65536: [estimates]
power_state -1 0 65535 65536: [estimates]
perform_selftest -1 0 65535 65536: [estimates]
sensor_value -1 0 65535 65536: [estimates]
lamp_state -1 0 1 2: [workers]
power_state -1 0 1 2: [workers]
perform_selftest -1 0 1 2: [workers]
sensor_value -1 0 1 2: [workers]
number 0 1 254 255: [[self_test]]
id -1 0 65535 65536: [[status]]
value -1 0 255 256: [[outcome]]¶parameter = "POWER_STATE"¶done = true
job 0 1 65535 65536: [[outcome]]¶parameter = "POWER_STATE"¶done = true
reading -32769 -32768 32767 32768: [[sensor]]¶type = 1¶[[outcome]]¶parameter = "SENSOR_VALUE"
status_id -1 0 65535 65536: [[sensor]]¶type = 1¶[[status]]¶id = 0xFFFF¶[[outcome]]¶parameter = "SENSOR_VALUE"¶severity = "error"
data_value_1 -1 0 65535 65536: [[outcome]]¶parameter = "LAMP_STATE"¶severity = "error"¶status_id = 1
data_value_2 -1 0 65535 65536: [[outcome]]¶parameter = "LAMP_STATE"¶severity = "error"¶status_id = 1
count -1 0 512 513: [sub_devices]¶device_model_id = 1¶personality = [{ dmx_footprint = 512 }]
device_model_id -1 0 65535 65536: [sub_devices]¶count = 1¶personality = [{ dmx_footprint = 512 }]"#;

/// A key that holds a text, and what stands before it in its table.
const TEXTS: &str = r#"device_model_description
manufacturer_label
device_label
software_version_label
boot_software_version_label
description: [[personality]]¶dmx_footprint = 0
description: [[slot]]¶label_id = 1
description: [[sensor]]¶type = 1
description: [[self_test]]¶number = 1
description: [[status]]¶id = 1"#;

/// What a text may be.
const GOOD_TEXT: &str = r#""an ASCII text of just 32 letters""#;

/// What no key of a number holds, behind integers out of its range.
const NO_NUMBERS: &str = r#""1"|1.0|true|[1]|{}"#;

/// What no key of a text holds.
const NO_TEXTS: &str = r#""an ASCII text of only 33 letters."|"\u007F"|1|["a"]"#;

/// A key, and what stands before it in its table.
#[derive(Clone, Copy)]
struct Place<'a> {
    key: &'a str,
    table: &'a str,
}

/// What is told of a value at a key.
fn told_of(alloc: Global, place: Place<'_>, value: &str) -> Result<String, AllocError> {
    let Place { key, table } = place;
    let text = if table.is_empty() {
        format!(in alloc; "{key} = {value}\n{LEAST}")?
    } else {
        format!(in alloc; "{LEAST}{table}\n{key} = {value}\n")?
    };
    let file = with_ends(alloc, &text)?;
    told(alloc, Part::Fault, &file)
}

/// The end of what is told of each of these values at a key.
fn try_values(rt: &impl Abort, alloc: Global, place: Place<'_>, values: &str, expected: &str) {
    for value in values.split('|') {
        let told = told_of(alloc, place, value).expect(rt, "memory");
        let ends = told.as_str().ends_with(expected);
        assert!(rt; ends, "{} = {value}: {told}", place.key);
    }
}

/// A key with a slip of the pen.
fn try_slip(rt: &impl Abort, alloc: Global, place: Place<'_>) -> Result<(), AllocError> {
    let key = format!(in alloc; "{}s", place.key)?;
    let expected = format!(in alloc; "unknown key `{key}`")?;
    let slip = Place {
        key: &key,
        table: place.table,
    };
    try_values(rt, alloc, slip, "1", &expected);
    Ok(())
}

/// What is told behind the range of a number: on what it depends, or by which names it can be said.
fn behind_range(place: Place<'_>) -> &'static str {
    match place.key {
        "dmx_footprint" => ", the number of [[slot]] tables plus `more_slots`",
        "product_category" => {
            ", or a name such as \"fixture, moving yoke\" (felosumay fixture --names categories lists them)"
        }
        "label_id" => ", or a name such as \"pan\" (felosumay fixture --names labels lists them)",
        "unit" => ", or a name such as \"V DC\" (felosumay fixture --names units lists them)",
        "prefix" => ", or a name such as \"k\" (felosumay fixture --names prefixes lists them)",
        "type" => behind_type(place.table),
        _ => "",
    }
}

/// The same of the type of a sensor, or of a slot.
fn behind_type(table: &str) -> &'static str {
    if table == "[[sensor]]" {
        ", or a name such as \"temperature\" (felosumay fixture --names sensors lists them)"
    } else {
        ", or a name such as \"fine\" (felosumay fixture --names slots lists them)"
    }
}

fn try_number(rt: &impl Abort, alloc: Global, row: &str) -> Result<(), AllocError> {
    let (numbers, table) = row.split_once(": ").unwrap_or((row, ""));
    let mut words = numbers.split(' ');
    let place = Place {
        key: words.next().unwrap_or(""),
        table,
    };
    let below = words.next().unwrap_or("");
    let least = words.next().unwrap_or("");
    let most = words.next().unwrap_or("");
    let above = words.next().unwrap_or("");
    try_values(rt, alloc, place, least, "a fixture");
    try_values(rt, alloc, place, most, "a fixture");
    let behind = behind_range(place);
    let expected = format!(in alloc;
        "`{}` must be an integer from {least} to {most}{behind}",
        place.key
    )?;
    try_values(rt, alloc, place, below, &expected);
    try_values(rt, alloc, place, above, &expected);
    try_values(rt, alloc, place, NO_NUMBERS, &expected);
    try_slip(rt, alloc, place)
}

fn try_text(rt: &impl Abort, alloc: Global, row: &str) -> Result<(), AllocError> {
    let (key, table) = row.split_once(": ").unwrap_or((row, ""));
    let place = Place { key, table };
    try_values(rt, alloc, place, GOOD_TEXT, "a fixture");
    let expected = format!(in alloc;
        "`{key}` must be a string of at most 32 printable ASCII characters"
    )?;
    try_values(rt, alloc, place, NO_TEXTS, &expected);
    try_slip(rt, alloc, place)
}

#[test]
fn numbers(rt: HostRuntime) {
    for row in NUMBERS.lines() {
        try_number(&rt, rt.alloc(), row).expect(&rt, "memory");
    }
}

#[test]
fn texts(rt: HostRuntime) {
    for row in TEXTS.lines() {
        try_text(&rt, rt.alloc(), row).expect(&rt, "memory");
    }
}
