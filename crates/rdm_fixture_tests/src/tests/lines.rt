//! Whole texts, and the line that a refusal tells.

use super::{LEAST, Part, Table, told, told_is, try_tables};
use std::alloc::{AllocError, Global};

const TABLES: &[Table] = &[
    Table {
        part: Part::Fault,
        tables: "",
        rows: TEXTS,
    },
    Table {
        part: Part::Fault,
        tables: "",
        rows: NEAREST,
    },
];

#[test]
fn rows(rt: HostRuntime) {
    try_tables(&rt, rt.alloc(), TABLES);
}

/// Whole texts, of which none is a fixture, and what is told of each. The first is empty.
const TEXTS: &str = r#"
line 1: missing key `uid`

uid = "7FF0:FFFFFFFF"
line 1: `uid` must be the UID of one device, such as "7FF0:00000001"

uid = "7FF000000001"
line 1: `uid` must be the UID of one device, such as "7FF0:00000001"

uid = 1
line 1: `uid` must be the UID of one device, such as "7FF0:00000001"

uid = "7ff0:0000000a"
line 1: missing key `device_model_id`

uid = "7FF0:00000001"¶device_model_id = 65536
line 2: `device_model_id` must be an integer from 0 to 65535

uid = "7FF0:00000001"¶device_model_id = 0
line 2: missing key `personality`

uid = "7FF0:00000001"¶device_model_id = 0¶personality = []
line 3: `personality` must be a list of 1 to 8 entries

device_model_id = 1¶[[personality]]¶dmx_footprint = 0¶[sub_devices]¶count = 0¶¶
line 6: missing key `uid`"#;

/// A refusal has the line of what is wrong, or of the nearest thing around it, however the text is written.
const NEAREST: &str = r#"¶.. [sub_devices]¶uid = "7FF0:00000002"
line 7: in [sub_devices], unknown key `uid`

¶.. [sub_devices]¶# uid¶count = 1¶device_model_id = 2¶[[sub_devices.personalty]]
line 10: in [sub_devices], unknown key `personalty`

¶.. [[personalty]]¶[sub_devices]¶count = 0
line 6: unknown key `personalty`

¶.. [[ "slot" ]]¶label_id = 1¶[[slot]]¶type = 256¶label_id = 2
line 9: in slot 2, `type` must be an integer from 0 to 255, or a name such as "fine" (felosumay fixture --names slots lists them)

slot = [{ label_id = 1 },¶  { label_id = 2,¶  type = 3 }, # [[slot]]¶ 4]¶..
line 4: in slot 3, `slot` must be a table

sensor = [{ type = 1 },¶ { unit = 1 }]¶..
line 2: in sensor 2, missing key `type`

sub_devices.device_model_id = 1¶sub_devices."count" = 1000¶..
line 2: in [sub_devices], `count` must be an integer from 0 to 512

sub_devices = { count = 1, device_model_id = 1, personality = [¶{ dmx_footprint = 1 }, {¶ description = "" } ] }¶..
line 2: in [sub_devices], in personality 2, missing key `dmx_footprint`

presets = 1 # """¶device_label = """¶[[slot]]¶presets = -1"""¶..
line 2: `device_label` must be a string of at most 32 printable ASCII characters

device_label = """¶[[slot]]¶presets = -1"""¶presets = -1¶..
line 4: `presets` must be an integer from 0 to 65534

manufacturer_label = '''presets = 1'''␍¶presets = -1 # presets␍¶..
line 2: `presets` must be an integer from 0 to 65534

languages = ["aa", "bb", "cc", "dd", "ee", "ff", "gg", "hh",¶ "ii"]¶..
line 2: `languages` must be a list of 1 to 8 entries

"two\nlines" = 1¶..
line 1: unknown key `two?lines`"#;

#[test]
fn a_key_that_is_there_twice(rt: HostRuntime) {
    let twice = told(rt.alloc(), Part::Fault, "uid = 1\nuid = 2").expect(&rt, "memory");
    assert!(rt;
        twice.as_str().starts_with("TOML parse error at line 2"),
        "{twice}"
    );
}

/// The least, and so many lines behind it.
pub(super) fn followed(alloc: Global, line: &str, count: usize) -> Result<String, AllocError> {
    let mut text = String::from_str(alloc, LEAST)?;
    for _ in 0..count {
        text.push_str(line)?;
    }
    Ok(text)
}

#[test]
fn a_megabyte_of_comments(rt: HostRuntime) {
    let text = followed(rt.alloc(), "# thirty-two characters a line,\n", 32768);
    let text = text.expect(&rt, "memory");
    told_is(&rt, rt.alloc(), Part::Fault, &text, "a fixture");
}
