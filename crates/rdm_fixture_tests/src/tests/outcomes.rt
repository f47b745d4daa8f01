//! How jobs end: what may stand in a rule, and what is told of anything else.

use super::lines::followed;
use super::{Part, Table, told_is, try_tables};

const TABLES: &[Table] = &[
    Table {
        part: Part::Fault,
        tables: "",
        rows: KEYS,
    },
    Table {
        part: Part::Fault,
        tables: "",
        rows: ENDS,
    },
    Table {
        part: Part::Fault,
        tables: "",
        rows: IN_VAIN,
    },
    Table {
        part: Part::Fault,
        tables: "",
        rows: EXPLAINED,
    },
];

#[test]
fn rows(rt: HostRuntime) {
    try_tables(&rt, rt.alloc(), TABLES);
}

/// The parameters and the keys of a rule.
const KEYS: &str = r#"¶.. [[outcome]]¶parameter = "LAMP_STATE"¶done = true
a fixture

¶.. [[outcome]]¶parameter = "PERFORM_SELFTEST"¶severity = "advisory"¶status_id = 1
a fixture

¶.. [[outcome]]¶done = true
line 6: in outcome 1, missing key `parameter`

¶.. [[outcome]]¶parameter = "LAMP"¶done = true
line 7: in outcome 1, `parameter` must be LAMP_STATE, POWER_STATE, PERFORM_SELFTEST or SENSOR_VALUE

¶.. [[outcome]]¶parameter = 0x0403¶done = true
line 7: in outcome 1, `parameter` must be LAMP_STATE, POWER_STATE, PERFORM_SELFTEST or SENSOR_VALUE

¶.. [[outcome]]¶parameter = "LAMP_STATE"¶turn = 1¶done = true
line 8: in outcome 1, unknown key `turn`

¶.. [[outcomes]]
line 6: unknown key `outcomes`

outcome = true¶..
line 1: `outcome` must be a list of 0 to 32 entries"#;

/// What a rule says of the end of a job.
const ENDS: &str = r#"¶.. [[outcome]]¶parameter = "LAMP_STATE"
line 6: in outcome 1, expected one of `done`, `reading` or `severity`

¶.. [[outcome]]¶parameter = "LAMP_STATE"¶done = false
line 8: in outcome 1, `done` must be true

¶.. [[outcome]]¶parameter = "LAMP_STATE"¶done = 1
line 8: in outcome 1, `done` must be true

¶.. [[outcome]]¶parameter = "LAMP_STATE"¶done = true¶reading = 1
line 9: in outcome 1, `reading` can't be combined with another outcome

¶.. [[outcome]]¶parameter = "SENSOR_VALUE"¶reading = 1¶severity = "error"
line 9: in outcome 1, `severity` can't be combined with another outcome

¶.. [[outcome]]¶parameter = "LAMP_STATE"¶reading = 1
line 8: in outcome 1, `reading` isn't a valid outcome for this parameter

¶.. [[outcome]]¶parameter = "SENSOR_VALUE"¶done = true
line 8: in outcome 1, `done` isn't a valid outcome for this parameter

¶.. [[outcome]]¶parameter = "LAMP_STATE"¶severity = "fatal"¶status_id = 1
line 8: in outcome 1, `severity` must be advisory, warning or error

¶.. [[outcome]]¶parameter = "LAMP_STATE"¶severity = 4¶status_id = 1
line 8: in outcome 1, `severity` must be advisory, warning or error

¶.. [[outcome]]¶parameter = "LAMP_STATE"¶severity = "warning"
line 6: in outcome 1, missing key `status_id`"#;

/// Rules, some of which can never be used. Of two sensors, one is asked slowly, and one is answered at once.
const IN_VAIN: &str = r#"¶.. [[outcome]]¶parameter = "LAMP_STATE"¶done = true¶
a fixture

without = ["LAMP_STATE"]¶.. [[outcome]]¶parameter = "LAMP_STATE"¶done = true¶
line 7: in outcome 1, `parameter` starts no job: the fixture lacks this parameter

¶.. [[outcome]]¶parameter = "SENSOR_VALUE"¶reading = 1¶
line 7: in outcome 1, `parameter` starts no job: there is no such state, self test or sensor, or the sensor is answered at once

¶.. [[sensor]]¶type = 0¶answered_at_once = true¶[[outcome]]¶parameter = "SENSOR_VALUE"¶reading = 1¶
line 10: in outcome 1, `parameter` starts no job: there is no such state, self test or sensor, or the sensor is answered at once

¶.. [[sensor]]¶type = 0¶[[sensor]]¶type = 0¶answered_at_once = true¶[[outcome]]¶parameter = "SENSOR_VALUE"¶reading = 1¶
a fixture

¶.. [[sensor]]¶type = 0¶[[sensor]]¶type = 0¶answered_at_once = true¶[[outcome]]¶parameter = "SENSOR_VALUE"¶value = 0¶reading = 1¶
a fixture

¶.. [[sensor]]¶type = 0¶[[sensor]]¶type = 0¶answered_at_once = true¶[[outcome]]¶parameter = "SENSOR_VALUE"¶value = 1¶reading = 1¶
line 13: in outcome 1, `value` starts no job: there is no such state, self test or sensor, or the sensor is answered at once

¶.. [[sensor]]¶type = 0¶[[sensor]]¶type = 0¶answered_at_once = true¶[[outcome]]¶parameter = "SENSOR_VALUE"¶value = 2¶reading = 1¶
line 13: in outcome 1, `value` starts no job: there is no such state, self test or sensor, or the sensor is answered at once

¶.. [[outcome]]¶parameter = "LAMP_STATE"¶value = 3¶done = true¶
a fixture

¶.. [[outcome]]¶parameter = "LAMP_STATE"¶value = 4¶done = true¶
line 8: in outcome 1, `value` starts no job: there is no such state, self test or sensor, or the sensor is answered at once

¶.. [[outcome]]¶parameter = "POWER_STATE"¶value = 3¶done = true¶
line 8: in outcome 1, `value` starts no job: there is no such state, self test or sensor, or the sensor is answered at once

¶.. [[outcome]]¶parameter = "PERFORM_SELFTEST"¶value = 255¶done = true¶
a fixture

¶.. [[outcome]]¶parameter = "PERFORM_SELFTEST"¶value = 1¶done = true¶
line 8: in outcome 1, `value` starts no job: there is no such state, self test or sensor, or the sensor is answered at once

¶.. [[self_test]]¶number = 1¶[[outcome]]¶parameter = "PERFORM_SELFTEST"¶value = 1¶done = true¶
a fixture"#;

/// A status of the standard, of the maker's own, and one of these that is described.
const EXPLAINED: &str =
    r#"¶.. [[outcome]]¶parameter = "LAMP_STATE"¶severity = "error"¶status_id = 0x7FFF¶
a fixture

¶.. [[outcome]]¶parameter = "LAMP_STATE"¶severity = "error"¶status_id = 0x8000¶
line 9: in outcome 1, `status_id` is manufacturer-specific (0x8000 or greater), so a [[status]] must describe it

¶.. [[status]]¶id = 0x8000¶[[outcome]]¶parameter = "LAMP_STATE"¶severity = "error"¶status_id = 0x8000¶
a fixture

¶.. [[status]]¶id = 0x8000¶[[outcome]]¶parameter = "LAMP_STATE"¶severity = "error"¶status_id = 0xFFDF¶
line 11: in outcome 1, `status_id` is manufacturer-specific (0x8000 or greater), so a [[status]] must describe it"#;

/// As many rules as there can be, and one more.
const COUNTS: &[(usize, &str)] = &[
    (32, "a fixture"),
    (33, "line 101: `outcome` must be a list of 0 to 32 entries"),
];

#[test]
fn how_many(rt: HostRuntime) {
    for (count, expected) in COUNTS {
        let rule = "[[outcome]]\nparameter = \"LAMP_STATE\"\ndone = true\n";
        let text = followed(rt.alloc(), rule, *count).expect(&rt, "memory");
        told_is(&rt, rt.alloc(), Part::Fault, &text, expected);
    }
}
