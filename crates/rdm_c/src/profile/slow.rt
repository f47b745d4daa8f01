//! What a profile says of slow commands. In both structs 0 stands for what is usual.

ghost use Rattle.std.specs.Prelude.{◌≡◌};
ghost use Rattle.rdm_c.specs.Profiles.{or_usual, estimates_in, worker_or, workers_in};

use rdm_params::{Estimates, Worker, Workers};

/// How long slow commands take, in tenths of a second, and 0 for the usual time (section 6.3.3). The header calls it
/// `felosumay_estimates`.
#[repr(C)]
#[derive(Clone, Copy)]
pub struct EstimatesNumbers {
    /// A SET of LAMP_STATE (section 10.8.4).
    pub lamp: u16,
    /// A SET of POWER_STATE (section 10.11).
    pub power: u16,
    /// A SET of PERFORM_SELFTEST (section 10.11).
    pub self_test: u16,
    /// A GET of SENSOR_VALUE, of a sensor that isn't answered at once (section 10.7.2).
    pub sensor: u16,
}

/// Who carries out slow commands: 1 for worker 0, 2 or more for worker 1, and 0 for the usual one (section 6.3.3). The header calls
/// it `felosumay_workers`.
#[repr(C)]
#[derive(Clone, Copy)]
pub struct WorkersNumbers {
    /// A SET of LAMP_STATE (section 10.8.4).
    pub lamp: u8,
    /// A SET of POWER_STATE (section 10.11).
    pub power: u8,
    /// A SET of PERFORM_SELFTEST (section 10.11).
    pub self_test: u8,
    /// A GET of SENSOR_VALUE, of a sensor that isn't answered at once (section 10.7.2).
    pub sensor: u8,
}

impl EstimatesNumbers {
    /// The estimates.
    pub(crate) fn estimates(&self) -> Estimates
        ensures { result ≡ estimates_in self.now }
    {
        let usual = Estimates::usual();
        Estimates {
            lamp: or_usual(self.lamp, usual.lamp),
            power: or_usual(self.power, usual.power),
            self_test: or_usual(self.self_test, usual.self_test),
            sensor: or_usual(self.sensor, usual.sensor),
        }
    }
}

/// A time, or for 0 the usual one.
fn or_usual(time: u16, usual: u16) -> u16
    ensures { result ≡ or_usual time usual }
{
    if time == 0 { usual } else { time }
}

impl WorkersNumbers {
    /// The workers.
    pub(super) fn workers(&self) -> Workers
        ensures { result ≡ workers_in self.now }
    {
        let usual = Workers::usual();
        Workers {
            lamp: worker_or(self.lamp, usual.lamp),
            power: worker_or(self.power, usual.power),
            self_test: worker_or(self.self_test, usual.self_test),
            sensor: worker_or(self.sensor, usual.sensor),
        }
    }
}

/// A worker, or for 0 the usual one.
fn worker_or(number: u8, usual: Worker) -> Worker
    ensures { result ≡ worker_or number usual }
{
    match number {
        0 => usual,
        1 => Worker::First,
        _ => Worker::Second,
    }
}
