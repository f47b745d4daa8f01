//! The LED spot of the examples, whose file says what slow commands are like.

use super::{Part, told_is};

/// examples/led_spot.toml.
const SPOT: &str =
    r#"# An LED spot whose one board carries out all that takes time, one job after the other. Its LEDs are on after half a second, and it
# measures their temperature all the time, so that this is answered at once.

uid = "7FF0:00000060"
manufacturer_label = "Prototype"
device_model_id = 0x0060
device_model_description = "LED spot"
product_category = 0x0101
device_label = "Spot"
software_version_id = 0x00010200
software_version_label = "1.2"
without = ["LAMP_STRIKES", "PAN_INVERT", "TILT_INVERT", "PAN_TILT_SWAP"]

[[personality]]
dmx_footprint = 3
description = "Standard"

[[slot]]
label_id = 0x0001
description = "Dimmer"

[[slot]]
label_id = 0x0405
description = "Zoom"

[[slot]]
label_id = 0x0404
description = "Strobe"

[[sensor]]
type = 0x00
unit = 0x01
range_minimum_value = -20
range_maximum_value = 120
normal_minimum_value = 0
normal_maximum_value = 85
recorded_value_support = 0x03
description = "LED temperature"
answered_at_once = true

[[sensor]]
type = 0x01
unit = 0x02
range_minimum_value = 0
range_maximum_value = 60
normal_minimum_value = 46
normal_maximum_value = 50
recorded_value_support = 0x03
description = "Supply voltage"

[[self_test]]
number = 1
description = "Zoom"

# In tenths of a second.
[estimates]
lamp_state = 5
perform_selftest = 20
sensor_value = 2

# Worker 0 has every job.
[workers]
perform_selftest = 0
sensor_value = 0

[[outcome]]
parameter = "SENSOR_VALUE"
value = 1
reading = 48
"#;

/// The first sensor is answered at once; and what is placed where sensor 7 has measured -2.
const AT_ONCE: &str = "at once: true, [7, 255, 254, 255, 254, 255, 254, 0, 0]
at once: false, [7, 255, 254, 255, 254, 255, 254, 0, 0]";

/// All jobs are one worker's, and the time of the power state is the usual one.
#[test]
fn a_spot_has_one_worker_and_a_sensor_that_is_answered_at_once(rt: HostRuntime) {
    told_is(&rt, rt.alloc(), Part::Workers, SPOT, "0 0 0 0");
    told_is(&rt, rt.alloc(), Part::Times, SPOT, "5 20 20 2");
    told_is(&rt, rt.alloc(), Part::Sensors, SPOT, AT_ONCE);
}
