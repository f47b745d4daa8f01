//! Orders, counts that a SET clears, scenes, lock states and PINs, and which parameters a lock state keeps from being set.

use super::{LEAST, Part, Table, told_is, try_tables, with_ends};
use std::alloc::{AllocError, Global};

const TABLES: &[Table] = &[
    Table {
        part: Part::Parameters,
        tables: "",
        rows: ORDERS,
    },
    Table {
        part: Part::Parameters,
        tables: LOCKABLE,
        rows: LOCKABLE_DATA,
    },
    Table {
        part: Part::Locks,
        tables: LOCKABLE,
        rows: LOCKED,
    },
    Table {
        part: Part::Fault,
        tables: "",
        rows: REFUSED_LOCKS,
    },
    Table {
        part: Part::Fault,
        tables: "",
        rows: NO_LOCKS,
    },
    Table {
        part: Part::Fault,
        tables: LOCKABLE,
        rows: HELD,
    },
    Table {
        part: Part::Fault,
        tables: "",
        rows: REFUSED,
    },
];

#[test]
fn rows(rt: HostRuntime) {
    try_tables(&rt, rt.alloc(), TABLES);
}

/// An order is SET alone, and COMMS_STATUS has a SET that clears its counts. DMX_BLOCK_ADDRESS has no data of its own.
const ORDERS: &str =
    r#".. [[parameter]]¶pid = 0x0015¶command_class = "get_clear"¶data_type = "not_defined"¶fields = [{ slots = 2 }, { slots = 2 }, { slots = 2 }]¶default_value = "000000000000"¶[[parameter]]¶pid = 0x1001¶command_class = "set"¶data_type = "unsigned_byte"¶default_value = 1¶[[parameter]]¶pid = 0x1030¶command_class = "set"¶data_type = "not_defined"¶default_value = "0001000000000000"¶
Clear Slots(6) [0, 0, 0, 0, 0, 0], 0 to 0, set back: false
Set Byte [1], 0 to 255, set back: false
Set Slots(8) [0, 1, 0, 0, 0, 0, 0, 0], 0 to 0, set back: false

.. [[parameter]]¶pid = 0x0140¶command_class = "get_set"¶data_type = "block"¶default_value = ""¶
Both Block [], 0 to 0, set back: false"#;

/// PRESET_STATUS of six scenes, of which one can only be read; LOCK_PIN, and LOCK_STATE with two states beside 0 and their names.
const LOCKABLE: &str =
    "[[parameter]]¶pid = 0x0640¶command_class = \"get_set\"¶data_type = \"pin\"¶default_value = 1234¶[[parameter]]¶pid = 0x0641¶command_class = \"get_set\"¶data_type = \"lock\"¶maximum_valid_value = 2¶default_value = 0¶[[parameter]]¶pid = 0x0642¶command_class = \"get\"¶data_type = \"names\"¶default_value = \"\"¶[[parameter]]¶pid = 0x1042¶command_class = \"get_set\"¶data_type = \"scenes\"¶minimum_valid_value = 1¶maximum_valid_value = 6¶default_value = \"\"¶[[choice]]¶pid = 0x0642¶number = 1¶[[choice]]¶pid = 0x0642¶number = 2¶";

/// What FACTORY_DEFAULTS sets back where the file doesn't say it: no counts and orders, no scenes, and neither lock state nor PIN.
const LOCKABLE_DATA: &str = r#"..
Both Pin [4, 210], 0 to 9999, set back: false
Both Lock [0], 0 to 2, set back: false
Get Names [], 0 to 0, set back: false
Both Scenes [], 1 to 6, set back: false"#;

/// What each state locks, in the order of the file: by name, in the table and beside it, or by PID.
const LOCKED: &str = r#"..

.. [[lock]]¶state = 2¶parameters = ["DMX_START_ADDRESS", 0x0500, "PRESET_STATUS"]¶[[lock]]¶state = 1¶parameters = [0x00F0]¶[[lock]]¶state = 2¶parameters = [130, 1600]¶
2 00F0
2 0500
2 1042
1 00F0
2 0082
2 0640"#;

/// Locks that no file has.
const REFUSED_LOCKS: &str = r#"¶.. [[lock]]¶
line 6: in lock 1, missing key `state`

¶.. [[lock]]¶state = 0¶
line 7: in lock 1, `state` must be an integer from 1 to 255

¶.. [[lock]]¶state = 256¶
line 7: in lock 1, `state` must be an integer from 1 to 255

¶.. [[lock]]¶state = 1¶
line 6: in lock 1, missing key `parameters`

¶.. [[lock]]¶state = 1¶parameters = []¶
line 8: in lock 1, `parameters` must be a list of 1 to 64 entries

¶.. [[lock]]¶state = 1¶parameters = "CURVE"¶
line 8: in lock 1, `parameters` must be a list of 1 to 64 entries

¶.. [[lock]]¶state = 1¶parameters = ["CURVE", "curve"]¶
line 8: in lock 1, `parameters` must be a list of parameter names and PIDs, such as ["DMX_START_ADDRESS", 0x8001]

¶.. [[lock]]¶state = 1¶parameters = [65536]¶
line 8: in lock 1, `parameters` must be a list of parameter names and PIDs, such as ["DMX_START_ADDRESS", 0x8001]

¶.. [[lock]]¶state = 1¶parameters = [-1]¶
line 8: in lock 1, `parameters` must be a list of parameter names and PIDs, such as ["DMX_START_ADDRESS", 0x8001]

¶.. [[lock]]¶state = 1¶parameters = [true]¶
line 8: in lock 1, `parameters` must be a list of parameter names and PIDs, such as ["DMX_START_ADDRESS", 0x8001]

¶.. [[lock]]¶state = 1¶parameters = [1]¶pid = 1¶
line 9: in lock 1, unknown key `pid`

¶.. [[lock]]¶state = 1¶parameters = [1]¶[[lock]]¶states = 1¶
line 10: in lock 2, unknown key `states`"#;

/// Locks that can't work, whatever holds them. The first is LOCK_STATE of one state, with no LOCK_PIN beside it.
const NO_LOCKS: &str =
    r#"¶.. [[parameter]]¶pid = 0x0641¶command_class = "get_set"¶data_type = "lock"¶maximum_valid_value = 1¶default_value = 0¶[[parameter]]¶pid = 0x0642¶command_class = "get"¶data_type = "names"¶default_value = ""¶[[choice]]¶pid = 0x0642¶number = 1¶
line 6: `parameter` has LOCK_STATE, which needs a GET and LOCK_PIN beside it

lock = 1¶..
line 1: `lock` must be a list of 0 to 64 entries

¶.. [[lock]]¶state = 1¶parameters = [1]¶
line 6: `lock` names a state that LOCK_STATE doesn't have"#;

/// What state 1 locks, and whether it can: what the root can be set at once, and not LOCK_STATE. At the end, states that LOCK_STATE hasn't.
const HELD: &str = r#"¶.. [[lock]]¶state = 1¶parameters = ["DMX_START_ADDRESS"]¶
a fixture

¶.. [[lock]]¶state = 1¶parameters = ["LOCK_PIN"]¶
a fixture

¶.. [[lock]]¶state = 1¶parameters = ["LOCK_STATE"]¶
line 35: `lock` can't lock LOCK_STATE, a parameter with a slow SET, or one that the root lacks or can't set

¶.. [[lock]]¶state = 1¶parameters = ["LAMP_STATE"]¶
line 35: `lock` can't lock LOCK_STATE, a parameter with a slow SET, or one that the root lacks or can't set

¶.. [[lock]]¶state = 1¶parameters = ["POWER_STATE"]¶
line 35: `lock` can't lock LOCK_STATE, a parameter with a slow SET, or one that the root lacks or can't set

¶.. [[lock]]¶state = 1¶parameters = ["PERFORM_SELFTEST"]¶
line 35: `lock` can't lock LOCK_STATE, a parameter with a slow SET, or one that the root lacks or can't set

¶.. [[lock]]¶state = 1¶parameters = ["DEVICE_INFO"]¶
line 35: `lock` can't lock LOCK_STATE, a parameter with a slow SET, or one that the root lacks or can't set

¶.. [[lock]]¶state = 1¶parameters = [0x8001]¶
line 35: `lock` can't lock LOCK_STATE, a parameter with a slow SET, or one that the root lacks or can't set

without = ["DEVICE_LABEL"]¶.. [[lock]]¶state = 1¶parameters = ["DEVICE_LABEL"]¶
line 35: `lock` can't lock LOCK_STATE, a parameter with a slow SET, or one that the root lacks or can't set

¶.. [[lock]]¶state = 2¶parameters = [1]¶[[lock]]¶state = 3¶parameters = [1]¶
line 35: `lock` names a state that LOCK_STATE doesn't have"#;

/// PINs, lock states and commands that a standard hasn't.
const REFUSED: &str =
    r#"¶.. [[parameter]]¶pid = 0x0640¶command_class = "get_set"¶data_type = "pin"¶default_value = 10000
line 10: in parameter 1, `default_value` must be an integer from 0 to 9999

¶.. [[parameter]]¶pid = 0x0640¶command_class = "get_set"¶data_type = "pin"¶maximum_valid_value = 99¶default_value = 0
line 7: in parameter 1, `pid` doesn't allow these commands or data (see docs/PARAMETERS.md for E1.20 and E1.37-1; only COMMS_STATUS has get_clear)

¶.. [[parameter]]¶pid = 0x0641¶command_class = "get_set"¶data_type = "lock"¶maximum_valid_value = 1¶default_value = 2
line 11: in parameter 1, `default_value` must be an integer from 0 to 1

¶.. [[parameter]]¶pid = 0x1042¶command_class = "get_set"¶data_type = "scenes"¶maximum_valid_value = 256¶default_value = ""
line 10: in parameter 1, `maximum_valid_value` must be an integer from 0 to 255

¶.. [[parameter]]¶pid = 0x1042¶command_class = "get_set"¶data_type = "scenes"¶default_value = "00"
line 10: in parameter 1, `default_value` must match `data_type`, its limits and `fields`

¶.. [[parameter]]¶pid = 0x1001¶command_class = "get_set"¶data_type = "unsigned_byte"¶default_value = 1
line 7: in parameter 1, `pid` doesn't allow these commands or data (see docs/PARAMETERS.md for E1.20 and E1.37-1; only COMMS_STATUS has get_clear)

¶.. [[parameter]]¶pid = 0x8001¶command_class = "get_clear"¶data_type = "unsigned_byte"¶default_value = 1
line 7: in parameter 1, `pid` doesn't allow these commands or data (see docs/PARAMETERS.md for E1.20 and E1.37-1; only COMMS_STATUS has get_clear)

¶.. [[parameter]]¶pid = 0x8001¶command_class = "get_set"¶data_type = "pin"¶default_value = 1
line 7: in parameter 1, `pid` doesn't allow these commands or data (see docs/PARAMETERS.md for E1.20 and E1.37-1; only COMMS_STATUS has get_clear)"#;

/// So many parameters in each of so many tables of state 1, behind an empty line, the least and these tables.
fn locking(alloc: Global, tables: &str, counts: &[usize]) -> Result<String, AllocError> {
    let mut text = format!(in alloc; "\n{LEAST}{tables}")?;
    for count in counts {
        lock(&mut text, *count)?;
    }
    with_ends(alloc, &text)
}

/// A table of state 1 with so many parameters.
fn lock(text: &mut String, count: usize) -> Result<(), AllocError> {
    text.push_str("[[lock]]\nstate = 1\nparameters = [130")?;
    for _ in 1..count {
        text.push_str(", 130")?;
    }
    text.push_str("]\n")
}

/// How many parameters each table of state 1 locks, and what is told of them: at most 64 are locked in all, whichever the states.
const COUNTS: &[(&[usize], &str)] = &[
    (&[64], "64 locked"),
    (&[32, 32], "64 locked"),
    (
        &[32, 32, 1],
        "line 35: `lock` must have at most 64 entries of `parameters`, all tables together",
    ),
];

#[test]
fn how_many_are_locked(rt: HostRuntime) {
    for (counts, expected) in COUNTS {
        let text = locking(rt.alloc(), LOCKABLE, counts).expect(&rt, "memory");
        told_is(&rt, rt.alloc(), Part::LockCount, &text, expected);
    }
}

/// Nor does one state lock more than 64.
#[test]
fn how_many_are_too_many(rt: HostRuntime) {
    let text = locking(rt.alloc(), "", &[65]).expect(&rt, "memory");
    let expected = "line 8: in lock 1, `parameters` must be a list of 1 to 64 entries";
    told_is(&rt, rt.alloc(), Part::Fault, &text, expected);
}
