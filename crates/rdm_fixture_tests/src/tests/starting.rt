//! What a fixture starts with.

use super::{Part, Table, try_tables};

const TABLES: &[Table] = &[
    Table {
        part: Part::Start,
        tables: "",
        rows: STARTS,
    },
    Table {
        part: Part::Sensors,
        tables: "",
        rows: SHOWN,
    },
    Table {
        part: Part::Fault,
        tables: "",
        rows: LACKED,
    },
    Table {
        part: Part::Fault,
        tables: "",
        rows: COURSES,
    },
    Table {
        part: Part::Courses,
        tables: "",
        rows: FOLLOWED,
    },
    Table {
        part: Part::Fault,
        tables: "",
        rows: MESSAGES,
    },
    Table {
        part: Part::Notices,
        tables: "",
        rows: TOLD,
    },
];

#[test]
fn rows(rt: HostRuntime) {
    try_tables(&rt, rt.alloc(), TABLES);
}

/// DEVICE_HOURS, LAMP_HOURS, LAMP_STRIKES, DEVICE_POWER_CYCLES, and what each sensor has measured: one -2, the other nothing. A file that says
/// nothing of it starts with nothing.
const STARTS: &str =
    r#"device_hours = 1¶lamp_hours = 2¶lamp_strikes = 3¶device_power_cycles = 4¶.. [[sensor]]¶type = 0¶recorded_value_support = 2¶present = -2¶[[sensor]]¶type = 0¶
1 2 3 4 [Some(-2), None], nothing: false

.. [[sensor]]¶type = 0¶
0 0 0 0 [None], nothing: true"#;

/// What is placed where sensor 7 has measured -2: the number, what is present, the lowest and the highest if they are kept, and nothing recorded.
const SHOWN: &str =
    r#".. [[sensor]]¶type = 0¶recorded_value_support = 2¶present = -2¶[[sensor]]¶type = 0¶
at once: false, [7, 255, 254, 255, 254, 255, 254, 0, 0]
at once: false, [7, 255, 254, 0, 0, 0, 0, 0, 0]"#;

/// What is told of a fixture that lacks a parameter, and is to start with something of it.
const LACKED: &str = r#"without = ["LAMP_HOURS"]¶device_hours = 1¶..
a fixture

without = ["LAMP_HOURS"]¶lamp_hours = 0¶..
a fixture

without = ["LAMP_HOURS"]¶lamp_hours = 1¶..
line 1: `without` omits a parameter for which the file has a starting value

without = ["DEVICE_HOURS"]¶device_hours = 1¶..
line 1: `without` omits a parameter for which the file has a starting value

without = ["LAMP_STRIKES"]¶lamp_strikes = 1¶..
line 1: `without` omits a parameter for which the file has a starting value

without = ["DEVICE_POWER_CYCLES"]¶device_power_cycles = 1¶..
line 1: `without` omits a parameter for which the file has a starting value

without = ["SENSOR_VALUE"]¶.. [[sensor]]¶type = 0
a fixture

without = ["SENSOR_VALUE"]¶.. [[sensor]]¶type = 0¶present = 0
line 1: `without` omits a parameter for which the file has a starting value

without = ["SENSOR_VALUE"]¶.. [[sensor]]¶type = 0¶answered_at_once = true¶over_time = [{ at = 0, value = 0 }]
line 1: `without` omits a parameter for which the file has a starting value

without = ["SENSOR_DEFINITION", "SENSOR_VALUE", "RECORD_SENSORS"]¶..
a fixture

without = ["SENSOR_DEFINITION", "SENSOR_VALUE", "RECORD_SENSORS"]¶.. [[sensor]]¶type = 0
line 1: `without` omits SENSOR_DEFINITION, but the file has a [[sensor]]

..
a fixture"#;

/// What is told of a sensor's course.
const COURSES: &str =
    r#"¶.. [[sensor]]¶type = 0¶answered_at_once = true¶over_time = []¶course = "steps"¶repeats = false
a fixture

¶.. [[sensor]]¶type = 0¶answered_at_once = true¶over_time = [{ at = 0, value = 0 }, { at = 1, value = 0 }, { at = 2, value = 0 }, { at = 3, value = 0 }, { at = 4, value = 0 }, { at = 5, value = 0 }, { at = 6, value = 0 }, { at = 7, value = 0 }, { at = 8, value = 0 }, { at = 9, value = 0 }, { at = 10, value = 0 }, { at = 11, value = 0 }, { at = 12, value = 0 }, { at = 13, value = 0 }, { at = 14, value = 0 }, { at = 15, value = 0 }]
a fixture

¶.. [[sensor]]¶type = 0¶answered_at_once = true¶over_time = [{ at = 0, value = 0 }, { at = 1, value = 0 }, { at = 2, value = 0 }, { at = 3, value = 0 }, { at = 4, value = 0 }, { at = 5, value = 0 }, { at = 6, value = 0 }, { at = 7, value = 0 }, { at = 8, value = 0 }, { at = 9, value = 0 }, { at = 10, value = 0 }, { at = 11, value = 0 }, { at = 12, value = 0 }, { at = 13, value = 0 }, { at = 14, value = 0 }, { at = 15, value = 0 }, { at = 16, value = 0 }]
line 9: in sensor 1, `over_time` must be a list of at most 16 points, each a table such as { at = 60, value = 25 }

¶.. [[sensor]]¶type = 0¶answered_at_once = true¶over_time = 5
line 9: in sensor 1, `over_time` must be a list of at most 16 points, each a table such as { at = 60, value = 25 }

¶.. [[sensor]]¶type = 0¶answered_at_once = true¶over_time = [5]
line 9: in sensor 1, `over_time` must be a list of at most 16 points, each a table such as { at = 60, value = 25 }

¶.. [[sensor]]¶type = 0¶answered_at_once = true¶over_time = [{ at = 0 }]
line 9: in sensor 1, `over_time` must be a list of at most 16 points, each a table such as { at = 60, value = 25 }

¶.. [[sensor]]¶type = 0¶answered_at_once = true¶over_time = [{ at = -1, value = 0 }]
line 9: in sensor 1, `over_time` must be a list of at most 16 points, each a table such as { at = 60, value = 25 }

¶.. [[sensor]]¶type = 0¶answered_at_once = true¶over_time = [{ at = 0, value = 32768 }]
line 9: in sensor 1, `over_time` must be a list of at most 16 points, each a table such as { at = 60, value = 25 }

¶.. [[sensor]]¶type = 0¶answered_at_once = true¶over_time = [{ at = 0, value = 0, until = 1 }]
line 9: in sensor 1, `over_time` must be a list of at most 16 points, each a table such as { at = 60, value = 25 }

¶.. [[sensor]]¶type = 0¶[[sensor]]¶type = 0¶answered_at_once = true¶over_time = [{ at = 7, value = 0 }, { at = 7, value = 1 }]
line 11: in sensor 2, `over_time` must have its points in ascending order of `at`, no two at one time

¶.. [[sensor]]¶type = 0¶over_time = [{ at = 0, value = 0 }]
line 8: in sensor 1, `over_time` needs `answered_at_once = true`: jobs measure any other sensor ([[outcome]] has their readings)

¶.. [[sensor]]¶type = 0¶course = "line"
line 8: in sensor 1, `course` must be steps or ramp

¶.. [[sensor]]¶type = 0¶course = 1
line 8: in sensor 1, `course` must be steps or ramp

¶.. [[sensor]]¶type = 0¶repeats = 1
line 8: in sensor 1, `repeats` must be true or false

¶.. [[sensor]]¶type = 0¶repeats = true
line 8: in sensor 1, `repeats` needs at least two points in `over_time`, the first with `at = 0`

¶.. [[sensor]]¶type = 0¶answered_at_once = true¶over_time = [{ at = 0, value = 0 }]¶repeats = true
line 10: in sensor 1, `repeats` needs at least two points in `over_time`, the first with `at = 0`

¶.. [[sensor]]¶type = 0¶answered_at_once = true¶over_time = [{ at = 1, value = 0 }, { at = 2, value = 0 }]¶repeats = true
line 10: in sensor 1, `repeats` needs at least two points in `over_time`, the first with `at = 0`

..
a fixture"#;

/// The points, the way and whether it repeats, of each sensor.
const FOLLOWED: &str =
    r#".. [[sensor]]¶type = 0¶[[sensor]]¶type = 0¶answered_at_once = true¶over_time = [{ at = 0, value = -5 }, { at = 4294967295, value = 32767 }]¶course = "ramp"¶repeats = true
[] Steps false
[0: -5, 4294967295: 32767] Ramp true

.. [[sensor]]¶type = 0¶answered_at_once = true¶over_time = [{ at = 3, value = -32768 }]
[3: -32768] Steps false"#;

/// What is told of a status message.
const MESSAGES: &str =
    r#"¶.. [[status_message]]¶at = 4294967295¶every = 4294967295¶severity = "warning"¶status_id = 0x7FFF¶data_value_1 = 65535¶data_value_2 = 65535
a fixture

¶.. [[status_message]]¶severity = "warning"¶status_id = 1
line 6: in status_message 1, missing key `at`

¶.. [[status_message]]¶at = 4294967296¶severity = "warning"¶status_id = 1
line 7: in status_message 1, `at` must be an integer from 0 to 4294967295

¶.. [[status_message]]¶at = 0¶status_id = 1
line 6: in status_message 1, missing key `severity`

¶.. [[status_message]]¶at = 0¶severity = "warning cleared"¶status_id = 1
line 8: in status_message 1, `severity` must be advisory, warning or error

¶.. [[status_message]]¶at = 0¶severity = "warning"
line 6: in status_message 1, missing key `status_id`

¶.. [[status_message]]¶at = 0¶every = 0¶severity = "warning"¶status_id = 1
line 8: in status_message 1, `every` must be an integer from 1 to 4294967295

¶.. [[status_message]]¶at = 0¶severity = "warning"¶status_id = 1¶data_value_1 = 65536
line 10: in status_message 1, `data_value_1` must be an integer from 0 to 65535

¶.. [[status_message]]¶at = 0¶severity = "warning"¶status_id = 1¶data_value_2 = -1
line 10: in status_message 1, `data_value_2` must be an integer from 0 to 65535

¶.. [[status_message]]¶at = 0¶severity = "warning"¶status_id = 1¶reading = 1
line 10: in status_message 1, unknown key `reading`

¶.. [[status_message]]¶at = 0¶severity = "warning"¶status_id = 0x8000
line 9: in status_message 1, `status_id` is manufacturer-specific (0x8000 or greater), so a [[status]] must describe it

¶.. [[status]]¶id = 0x8000¶[[status_message]]¶at = 0¶severity = "warning"¶status_id = 0x8000
a fixture

¶.. [[status_message]]¶at = 0¶severity = "warning"¶status_id = 1¶[[status_message]]¶at = 0¶sub_device = 1¶severity = "warning"¶status_id = 1
line 12: in status_message 2, `sub_device` must be an integer from 0 to 0

¶.. [sub_devices]¶count = 2¶device_model_id = 1¶[[sub_devices.personality]]¶dmx_footprint = 0¶[[status_message]]¶at = 0¶sub_device = 2¶severity = "warning"¶status_id = 1
a fixture

¶.. [sub_devices]¶count = 2¶device_model_id = 1¶[[sub_devices.personality]]¶dmx_footprint = 0¶[[status_message]]¶at = 0¶sub_device = 3¶severity = "warning"¶status_id = 1
line 13: in status_message 1, `sub_device` must be an integer from 0 to 2

status_message = 1¶..
line 1: `status_message` must be a list of 0 to 16 entries

..
a fixture"#;

/// Of each status message: when it comes, the sub-device, and what it says.
const TOLD: &str =
    r#".. [sub_devices]¶count = 2¶device_model_id = 1¶[[sub_devices.personality]]¶dmx_footprint = 0¶[[status_message]]¶at = 5¶every = 60¶sub_device = 2¶severity = "error"¶status_id = 7¶data_value_1 = 1¶data_value_2 = 2¶[[status_message]]¶at = 0¶severity = "advisory"¶status_id = 8
5 Some(60) 2 Error 7 1 2
0 None 0 Advisory 8 0 0"#;
