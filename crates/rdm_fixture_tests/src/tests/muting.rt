//! What a fixture tells when it is muted, and which of its messages wait.

use super::{Part, Table, try_tables};

const TABLES: &[Table] = &[
    Table {
        part: Part::Fault,
        tables: "",
        rows: ROWS,
    },
    Table {
        part: Part::Muting,
        tables: "",
        rows: SAID,
    },
];

#[test]
fn rows(rt: HostRuntime) {
    try_tables(&rt, rt.alloc(), TABLES);
}

/// What is told of the keys. Of several that are wrong the first is the binding UID, and the last which messages wait.
const ROWS: &str = r#"binding_uid = "7FF0:0000000"¶..
line 1: `binding_uid` must be the UID of one device, such as "7FF0:00000001"

binding_uid = "FFFF:FFFFFFFF"¶..
line 1: `binding_uid` must be the UID of one device, such as "7FF0:00000001"

binding_uid = "7FF0:FFFFFFFF"¶..
line 1: `binding_uid` must be the UID of one device, such as "7FF0:00000001"

binding_uid = 1¶..
line 1: `binding_uid` must be the UID of one device, such as "7FF0:00000001"

boot_loader = 1¶..
line 1: `boot_loader` must be true or false

proxied_device = "true"¶..
line 1: `proxied_device` must be true or false

newest_only = []¶..
line 1: `newest_only` must be true or false

newest_only = 0¶proxied_device = 0¶boot_loader = 0¶binding_uid = 0¶..
line 4: `binding_uid` must be the UID of one device, such as "7FF0:00000001"

newest_only = 0¶proxied_device = 0¶boot_loader = 0¶..
line 3: `boot_loader` must be true or false

newest_only = 0¶proxied_device = 0¶..
line 2: `proxied_device` must be true or false

newest_only = 0¶.. [workers]¶lamp_state = 2
line 7: in [workers], `lamp_state` must be an integer from 0 to 1

newest_only = 0¶.. [[outcome]]
line 1: `newest_only` must be true or false

binding = "7FF0:00000001"¶..
line 1: unknown key `binding`

¶.. [sub_devices]¶count = 1¶boot_loader = true
line 8: in [sub_devices], unknown key `boot_loader`"#;

/// Whether a proxy answers for it, whether it needs firmware, its binding UID, and whether only the newest message of a change waits.
const SAID: &str = r#"..
false false none, false

binding_uid = "7FF0:00000001"¶boot_loader = true¶proxied_device = true¶newest_only = true¶..
true true 7FF0:00000001, true

binding_uid = "7ff0:fffffffe"¶..
false false 7FF0:FFFFFFFE, false

boot_loader = true¶proxied_device = false¶..
false true none, false

proxied_device = true¶newest_only = false¶..
true false none, false

newest_only = true¶..
false false none, true"#;
