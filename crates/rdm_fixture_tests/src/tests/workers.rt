//! The workers of slow commands.

use super::{Part, Table, try_tables};

const TABLES: &[Table] = &[
    Table {
        part: Part::Fault,
        tables: "",
        rows: ROWS,
    },
    Table {
        part: Part::Workers,
        tables: "",
        rows: CHOSEN,
    },
];

#[test]
fn rows(rt: HostRuntime) {
    try_tables(&rt, rt.alloc(), TABLES);
}

/// What is told of a table of workers.
const ROWS: &str = r#"¶.. [workers]
a fixture

workers = {}¶..
a fixture

workers = 1¶..
line 1: `workers` must be a table

workers.sensor_value = 0¶..
a fixture

workers = { lamp_state = 2 }¶..
line 1: in [workers], `lamp_state` must be an integer from 0 to 1

¶.. [workers]¶power_state = 1¶perform_selftest = "0"
line 8: in [workers], `perform_selftest` must be an integer from 0 to 1

¶.. [estimates]¶lamp_state = 1¶[workers]¶lamp = 1
line 9: in [workers], unknown key `lamp`"#;

/// Tables of workers, and the numbers of those of the lamp, the power state, self tests and sensors. Those that are not said are usual.
const CHOSEN: &str = r#"..
0 0 1 1

.. [workers]¶
0 0 1 1

.. [workers]¶lamp_state = 1¶perform_selftest = 0¶
1 0 0 1

.. [workers]¶power_state = 1¶sensor_value = 0¶
0 1 1 0"#;
