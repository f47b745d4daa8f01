//! A script on a fixture whose profile has times and workers of its own, and a sensor that is answered at once.

use super::Ends;
use super::staged::{DEVICE, ends_so, stage};
use rdm_params::{Estimates, Particular, Particulars, Worker, Workers};

/// The lamp takes no time, and a self test 0.9 seconds.
const TIMES: Estimates = Estimates {
    lamp: 0,
    power: 20,
    self_test: 9,
    sensor: 5,
};

/// The second worker switches the lamp, and the first one tests.
const SHUFFLED: Workers = Workers {
    lamp: Worker::Second,
    power: Worker::Second,
    self_test: Worker::First,
    sensor: Worker::First,
};

/// Sensor 1 is asked for, the lamp is switched, and a self test is done.
const SCRIPT: &str = "get dev 0000 0201 01
set dev 0000 0403 01
settle 100000000
set dev 0000 1020 01
settle 100000000
";

/// The frames were worked out by hand from the packet format.
const TRACE: &str = "send CC0119123456789ABC7FF0000000020001000000200201010104E7
reply CC01217FF000000002123456789ABC00000000002102010901000000000000000004F7
heard reply
send CC0119123456789ABC7FF0000000020101000000300403010104FC
reply CC011A7FF000000002123456789ABC010100000031040302000004FE
job 1 0
heard reply
arrive 1 0 done
send CC0119123456789ABC7FF000000002020100000030102001010526
reply CC011A7FF000000002123456789ABC02010100003110200200090532
job 0 0
heard reply
arrive 0 0 done
end
";

#[test]
fn jobs_are_named_by_the_workers_of_the_profile(rt: HostRuntime) {
    let mut stage = stage(DEVICE);
    let mut particular = Particular::usual();
    particular.estimates = TIMES;
    stage.profile.particulars = Particulars::of(rt.alloc(), particular).expect(&rt, "memory");
    stage.profile.workers = SHUFFLED;
    if let Some(sensor) = stage.profile.sensors.as_mut_slice().get_mut(1) {
        sensor.at_once = true;
    }
    ends_so(rt, rt.alloc(), stage, SCRIPT, Ends::Prints(TRACE));
}
