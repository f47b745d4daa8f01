//! Texts, and what is told of each.

use super::{Part, Table, try_tables};

const TABLES: &[Table] = &[
    Table {
        part: Part::Fault,
        tables: "",
        rows: TEXTS_AND_KEYS,
    },
    Table {
        part: Part::Fault,
        tables: "",
        rows: LISTS,
    },
];

#[test]
fn rows(rt: HostRuntime) {
    try_tables(&rt, rt.alloc(), TABLES);
}

/// Texts, languages, and keys that are unknown or missing.
const TEXTS_AND_KEYS: &str = r#"device_label = ""¶..
a fixture

device_label = "an ASCII text of just 32 letters"¶..
a fixture

device_label = "an ASCII text of only 33 letters."¶..
line 1: `device_label` must be a string of at most 32 printable ASCII characters

manufacturer_label = "two\nlines"¶..
line 1: `manufacturer_label` must be a string of at most 32 printable ASCII characters

software_version_label = " ~"¶..
a fixture

software_version_label = "\u007F"¶..
line 1: `software_version_label` must be a string of at most 32 printable ASCII characters

boot_software_version_label = "Zürich"¶..
line 1: `boot_software_version_label` must be a string of at most 32 printable ASCII characters

device_model_description = 1¶..
line 1: `device_model_description` must be a string of at most 32 printable ASCII characters

¶.. description = 1
line 6: in personality 1, `description` must be a string of at most 32 printable ASCII characters

languages = ["en", "de"]¶..
a fixture

languages = []¶..
line 1: `languages` must be a list of 1 to 8 entries

languages = "en"¶..
line 1: `languages` must be a list of 1 to 8 entries

languages = ["aa", "bb", "cc", "dd", "ee", "ff", "gg", "hh"]¶..
a fixture

languages = ["aa", "bb", "cc", "dd", "ee", "ff", "gg", "hh", "ii"]¶..
line 1: `languages` must be a list of 1 to 8 entries

languages = ["EN"]¶..
line 1: `languages` must list codes of two lowercase letters, such as "en"

languages = ["eng"]¶..
line 1: `languages` must list codes of two lowercase letters, such as "en"

languages = [1]¶..
line 1: `languages` must list codes of two lowercase letters, such as "en"

binding_uid = "7FF0-00000001"¶..
line 1: `binding_uid` must be the UID of one device, such as "7FF0:00000001"

binding_uid = "7FF0:FFFFFFFF"¶..
line 1: `binding_uid` must be the UID of one device, such as "7FF0:00000001"

boot_loader = 1¶..
line 1: `boot_loader` must be true or false

preset = 1¶..
line 1: unknown key `preset`

"a key whose name is longer than forty letters" = 1¶..
line 1: unknown key `a key whose name is longer than forty ..`

"\u0080\u0080\u0080\u0080\u0080\u0080\u0080\u0080\u0080\u0080\u0080\u0080\u0080\u0080\u0080\u0080\u0080\u0080\u0080\u0080\u0080" = 1¶..
line 1: unknown key `?????????????????????..`

¶.. footprint = 1
line 6: in personality 1, unknown key `footprint`

¶.. [[slot]]¶label = 1
line 7: in slot 1, unknown key `label`

¶.. [[sensor]]¶type = 0¶label = 1
line 8: in sensor 1, unknown key `label`

¶.. [[self_test]]¶number = 1¶id = 1
line 8: in self_test 1, unknown key `id`

¶.. [[status]]¶id = 1¶number = 1
line 8: in status 1, unknown key `number`

¶.. [[slot]]¶type = 1
line 6: in slot 1, missing key `label_id`

¶.. [[sensor]]¶unit = 1
line 6: in sensor 1, missing key `type`

¶.. [[self_test]]
line 6: in self_test 1, missing key `number`

¶.. [[status]]
line 6: in status 1, missing key `id`"#;

/// Lists and sub-devices. The last two have as many personalities as there can be, and one more.
const LISTS: &str = r#"¶.. [[personality]]¶[[slot]]¶label_id = 1
line 6: in personality 2, missing key `dmx_footprint`

¶.. [[personality]]¶dmx_footprint = 1¶[[slot]]¶label_id = 1
a fixture

¶.. [[personality]]¶dmx_footprint = 2¶[[slot]]¶label_id = 1
line 7: in personality 2, `dmx_footprint` must be an integer from 0 to 1, the number of [[slot]] tables plus `more_slots`

slot = 1¶..
line 1: `slot` must be a list of 0 to 46 entries

slot = [1]¶..
line 1: in slot 1, `slot` must be a table

¶.. [[self_test]]¶number = 7¶[[self_test]]¶number = 8¶[[self_test]]¶number = 7
line 11: in self_test 3, `number` repeats that of an earlier entry

¶.. [[self_test]]¶number = 1¶[[self_test]]¶number = 2¶[[self_test]]¶number = 2¶[[self_test]]¶number = 1
line 11: in self_test 3, `number` repeats that of an earlier entry

presets = -1¶languages = 1¶..
line 2: `languages` must be a list of 1 to 8 entries

product_category = -1¶device_label = 1¶..
line 2: `device_label` must be a string of at most 32 printable ASCII characters

¶.. [[status]]¶id = 7¶[[status]]¶id = 7
line 9: in status 2, `id` repeats that of an earlier entry

sub_devices = 1¶..
line 1: `sub_devices` must be a table

¶.. [sub_devices]¶device_model_id = 1
line 6: in [sub_devices], missing key `count`

¶.. [sub_devices]¶count = 513
line 7: in [sub_devices], `count` must be an integer from 0 to 512

¶.. [sub_devices]¶count = 1
line 6: in [sub_devices], missing key `device_model_id`

¶.. [sub_devices]¶count = 1¶presets = 1
line 8: in [sub_devices], unknown key `presets`

¶.. [sub_devices]¶count = 1¶device_model_id = 1
line 6: in [sub_devices], missing key `personality`

¶.. [sub_devices]¶count = 512¶device_model_id = 1¶[[sub_devices.personality]]¶dmx_footprint = 512
a fixture

¶.. [sub_devices]¶count = 0¶device_model_id = 1¶[[sub_devices.personality]]¶dmx_footprint = 513
line 10: in [sub_devices], in personality 1, `dmx_footprint` must be an integer from 0 to 512

¶.. [[personality]]¶dmx_footprint = 0¶ [[personality]]¶dmx_footprint = 0¶ [[personality]]¶dmx_footprint = 0¶ [[personality]]¶dmx_footprint = 0¶ [[personality]]¶dmx_footprint = 0¶ [[personality]]¶dmx_footprint = 0¶ [[personality]]¶dmx_footprint = 0¶
a fixture

¶.. [[personality]]¶dmx_footprint = 0¶ [[personality]]¶dmx_footprint = 0¶ [[personality]]¶dmx_footprint = 0¶ [[personality]]¶dmx_footprint = 0¶ [[personality]]¶dmx_footprint = 0¶ [[personality]]¶dmx_footprint = 0¶ [[personality]]¶dmx_footprint = 0¶ [[personality]]¶dmx_footprint = 0¶
line 20: `personality` must be a list of 1 to 8 entries"#;
