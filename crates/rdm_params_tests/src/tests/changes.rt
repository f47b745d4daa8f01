//! What a SET says that it changed.

use super::*;
/// A value of each form, set to what it is, to another, and to that again.
const FORMS: &str = "
tell 0000 1000 00 = nothing
tell 0000 1000 01 = value 0000 1000
tell 0000 1000 01 = nothing
tell 0000 00F0 00 01 = nothing
tell 0000 00F0 01 01 = value 0000 00F0
tell 0000 00F0 01 01 = nothing
tell 0000 0400 00 00 00 00 = nothing
tell 0000 0400 01 00 00 00 = value 0000 0400
tell 0000 0400 01 00 00 00 = nothing
tell 0000 1031 00 01 07 = value 0000 1031
tell 0000 1031 00 01 08 = value 0000 1031
tell 0000 1031 00 01 08 = nothing
tell 0000 0082 'Fixture' = nothing
tell 0000 0082 'Fixturf' = value 0000 0082
tell 0000 0082 'Fixtur' = value 0000 0082
tell 0000 0082 'Fixtur' = nothing
";

/// One sub-device, and all of them, of which the second has the value already.
const DEVICES: &str = "
tell 0002 1000 01 = value 0002 1000
tell 0002 1000 01 = nothing
tell FFFF 1000 01 = several
tell FFFF 1000 01 = nothing
tell FFFF 1000 00 = several
tell 0000 1000 01 = nothing
";

/// FACTORY_DEFAULTS sets several values back, and no second time.
const DEFAULTS: &str = "
tell 0000 0090 = several
tell 0000 0090 = nothing
tell 0000 0602 01 = value 0000 0602
tell 0000 0090 = several
";

/// What is refused, starts a job or clears status entries changes no value.
const NOTHING: &str = "
tell 0000 1000 02 = nothing
tell 0004 1000 01 = nothing
tell 0000 9999 01 = nothing
tell 0000 00F0 01 = nothing
tell 0000 0403 01 = nothing
tell 0000 0032 = nothing
";

#[test]
fn a_set_tells_what_it_changed(rt: HostRuntime) {
    let mut devices = demo(&rt, rt.alloc(), 3);
    plays(&rt, &mut devices, FORMS);
    plays(&rt, &mut devices, DEVICES);
    plays(&rt, &mut devices, DEFAULTS);
    plays(&rt, &mut devices, NOTHING);
}

/// What the two sensors show.
const FIRST: &str = "
place 0000 0201 00 00 19 00 19 00 19 00 00 = ok
";

const SECOND: &str = "
place 0000 0201 01 00 1E 00 14 00 28 00 1E = ok
";

/// RECORD_SENSORS and a SET of SENSOR_VALUE write what SENSOR_VALUE shows.
const RECORDED: &str = "
tell 0000 0202 01 = nothing
tell 0000 0202 00 = value 0000 0201
tell 0000 0202 FF = nothing
";

const RESET: &str = "
tell 0000 0201 00 = nothing
tell 0000 0201 FF = value 0000 0201
tell 0000 0201 01 = nothing
";

#[test]
fn recorded_sensors_are_told_as_sensor_values(rt: HostRuntime) {
    let mut devices = demo(&rt, rt.alloc(), 0);
    plays(&rt, &mut devices, FIRST);
    plays(&rt, &mut devices, RECORDED);
    plays(&rt, &mut devices, SECOND);
    plays(&rt, &mut devices, RESET);
}
