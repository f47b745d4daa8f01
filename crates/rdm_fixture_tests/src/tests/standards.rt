//! The parameters of E1.20 and of E1.37-1 that a fixture has beside those of the table: numbers in slots, choices, and the names of what
//! is chosen.

use super::{Part, Table, try_tables};

const TABLES: &[Table] = &[
    Table {
        part: Part::Fields,
        tables: "",
        rows: FIELDS,
    },
    Table {
        part: Part::Parameters,
        tables: CURVES,
        rows: CURVE_DATA,
    },
    Table {
        part: Part::Choices,
        tables: CURVES,
        rows: CHOICES,
    },
    Table {
        part: Part::Fault,
        tables: "",
        rows: REFUSED_NUMBERS,
    },
    Table {
        part: Part::Fault,
        tables: CURVES,
        rows: REFUSED_NAMES,
    },
];

#[test]
fn rows(rt: HostRuntime) {
    try_tables(&rt, rt.alloc(), TABLES);
}

/// CURVE of two curves, and CURVE_DESCRIPTION.
const CURVES: &str =
    "[[parameter]]¶pid = 0x0343¶command_class = \"get_set\"¶data_type = \"choice\"¶minimum_valid_value = 1¶maximum_valid_value = 2¶default_value = 1¶[[parameter]]¶pid = 0x0344¶command_class = \"get\"¶data_type = \"names\"¶default_value = \"\"¶";

/// Three numbers in the slots of a parameter: what isn't said of one is the range of its slots, and the least again.
const FIELDS: &str =
    r#".. [[parameter]]¶pid = 0x8001¶command_class = "get_set"¶data_type = "not_defined"¶fields = [{ slots = 2, minimum_valid_value = 5, maximum_valid_value = 300, also_valid_value = 0xFFFF }, { slots = 4, minimum_valid_value = 7 }, { slots = 1 }]¶default_value = "012C0000000700"¶
data Slots(7)
number Two, 5 to 300, or 65535
number Four, 7 to 4294967295, or 7
number One, 0 to 255, or 0"#;

/// What is known of both parameters.
const CURVE_DATA: &str =
    r#".. [[choice]]¶pid = 0x0344¶number = 1¶description = "Linear"¶[[choice]]¶pid = 0x0344¶number = 2¶hertz = 7¶
Both Choice [1], 1 to 2, set back: true
Get Names [], 0 to 0, set back: false"#;

/// Two curves with their names, and a frequency that isn't told.
const CHOICES: &str =
    r#".. [[choice]]¶pid = 0x0344¶number = 1¶description = "Linear"¶[[choice]]¶pid = 0x0344¶number = 2¶hertz = 7¶
0344 1, 0 Hz, "Linear"
0344 2, 7 Hz, """#;

/// Numbers in slots that can't be, and parameters that aren't as their standard says.
const REFUSED_NUMBERS: &str =
    r#"¶.. [[parameter]]¶pid = 0x8001¶command_class = "get_set"¶data_type = "not_defined"¶fields = 3¶default_value = "00"
line 10: in parameter 1, `fields` must be a list of at most 8 numbers, each a table such as { slots = 2, maximum_valid_value = 100 }

¶.. [[parameter]]¶pid = 0x8001¶command_class = "get_set"¶data_type = "not_defined"¶fields = [{ slots = 3 }]¶default_value = "000000"
line 10: in parameter 1, `fields` must be a list of at most 8 numbers, each a table such as { slots = 2, maximum_valid_value = 100 }

¶.. [[parameter]]¶pid = 0x8001¶command_class = "get_set"¶data_type = "not_defined"¶fields = [{ slots = 1, least = 3 }]¶default_value = "00"
line 10: in parameter 1, `fields` must be a list of at most 8 numbers, each a table such as { slots = 2, maximum_valid_value = 100 }

¶.. [[parameter]]¶pid = 0x8001¶command_class = "get_set"¶data_type = "not_defined"¶fields = [{ minimum_valid_value = 1 }]¶default_value = "00"
line 10: in parameter 1, `fields` must be a list of at most 8 numbers, each a table such as { slots = 2, maximum_valid_value = 100 }

¶.. [[parameter]]¶pid = 0x8001¶command_class = "get_set"¶data_type = "not_defined"¶fields = [{ slots = 1 }]¶default_value = "0000"
line 10: in parameter 1, `fields` must cover exactly the slots of `default_value`, with limits that fit their slots and no minimum above its maximum

¶.. [[parameter]]¶pid = 0x8001¶command_class = "get_set"¶data_type = "not_defined"¶fields = [{ slots = 1, maximum_valid_value = 256 }]¶default_value = "00"
line 10: in parameter 1, `fields` must cover exactly the slots of `default_value`, with limits that fit their slots and no minimum above its maximum

¶.. [[parameter]]¶pid = 0x8001¶command_class = "get_set"¶data_type = "not_defined"¶fields = [{ slots = 1, minimum_valid_value = 3, maximum_valid_value = 2 }]¶default_value = "03"
line 10: in parameter 1, `fields` must cover exactly the slots of `default_value`, with limits that fit their slots and no minimum above its maximum

¶.. [[parameter]]¶pid = 0x8001¶command_class = "get_set"¶data_type = "not_defined"¶fields = [{ slots = 1, maximum_valid_value = 2 }]¶default_value = "03"
line 11: in parameter 1, `default_value` must match `data_type`, its limits and `fields`

¶.. [[parameter]]¶pid = 0x0341¶command_class = "get_set"¶data_type = "not_defined"¶fields = [{ slots = 1 }, { slots = 2 }, { slots = 2 }]¶default_value = "0000000000"
line 7: in parameter 1, `pid` doesn't allow these commands or data (see docs/PARAMETERS.md for E1.20 and E1.37-1; only COMMS_STATUS has get_clear)

¶.. [[parameter]]¶pid = 0x0340¶command_class = "get_set"¶data_type = "not_defined"¶default_value = "0000000000000000000000"
line 7: in parameter 1, `pid` doesn't allow these commands or data (see docs/PARAMETERS.md for E1.20 and E1.37-1; only COMMS_STATUS has get_clear)

¶.. [[parameter]]¶pid = 0x0343¶command_class = "get_set"¶data_type = "not_defined"¶default_value = "00"
line 7: in parameter 1, `pid` doesn't allow these commands or data (see docs/PARAMETERS.md for E1.20 and E1.37-1; only COMMS_STATUS has get_clear)

¶.. [[parameter]]¶pid = 0x8001¶command_class = "get"¶data_type = "names"¶default_value = ""
line 7: in parameter 1, `pid` doesn't allow these commands or data (see docs/PARAMETERS.md for E1.20 and E1.37-1; only COMMS_STATUS has get_clear)"#;

/// Names of choices that don't fit both curves.
const REFUSED_NAMES: &str = r#"¶..
line 17: `choice` must name each option, and each lock state from 1 on, exactly once, in ascending order of `pid` and `number`

¶.. [[choice]]¶pid = 0x0344¶number = 1
line 18: `choice` must name each option, and each lock state from 1 on, exactly once, in ascending order of `pid` and `number`

¶.. [[choice]]¶pid = 0x0344¶number = 2¶[[choice]]¶pid = 0x0344¶number = 1
line 18: `choice` must name each option, and each lock state from 1 on, exactly once, in ascending order of `pid` and `number`

¶.. [[choice]]¶pid = 0x0344¶number = 1¶[[choice]]¶pid = 0x0344¶number = 1
line 18: `choice` must name each option, and each lock state from 1 on, exactly once, in ascending order of `pid` and `number`

¶.. [[choice]]¶pid = 0x0344¶number = 1¶[[choice]]¶pid = 0x0344¶number = 2¶[[choice]]¶pid = 0x0344¶number = 3
line 18: `choice` must name each option, and each lock state from 1 on, exactly once, in ascending order of `pid` and `number`

¶.. [[choice]]¶pid = 0x0346¶number = 1
line 18: `choice` must name each option, and each lock state from 1 on, exactly once, in ascending order of `pid` and `number`

¶.. [[choice]]¶pid = 0x0344¶number = 0
line 20: in choice 1, `number` must be an integer from 1 to 255"#;
