//! The times of slow commands, and sensors that are answered at once.

use super::{Part, Table, try_tables};

const TABLES: &[Table] = &[
    Table {
        part: Part::Fault,
        tables: "",
        rows: ROWS,
    },
    Table {
        part: Part::Times,
        tables: "",
        rows: TIMES,
    },
];

#[test]
fn rows(rt: HostRuntime) {
    try_tables(&rt, rt.alloc(), TABLES);
}

/// What is told of a table of times, and of a sensor.
const ROWS: &str = r#"¶.. [estimates]
a fixture

estimates = {}¶..
a fixture

estimates = 5¶..
line 1: `estimates` must be a table

estimates.lamp_state = 65535¶..
a fixture

estimates = { lamp_state = 65536 }¶..
line 1: in [estimates], `lamp_state` must be an integer from 0 to 65535

¶.. [estimates]¶power_state = 1¶lamp = 1
line 8: in [estimates], unknown key `lamp`

¶.. [[sensor]]¶type = 1¶answered_at_once = true
a fixture

¶.. [[sensor]]¶type = 1¶answered_at_once = 1
line 8: in sensor 1, `answered_at_once` must be true or false"#;

/// Tables of times, and the times of the lamp, the power state, self tests and sensors. Those that are not said are usual.
const TIMES: &str = r#"..
50 20 100 5

.. [estimates]¶
50 20 100 5

.. [estimates]¶lamp_state = 0¶perform_selftest = 600¶
0 20 600 5

.. [estimates]¶power_state = 1¶sensor_value = 65535¶
50 1 100 65535"#;
