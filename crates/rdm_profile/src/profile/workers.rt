//! Which of the two workers carries out which slow commands.

ghost use Rattle.std.specs.Prelude.{◌≡◌, ◌<◌};
ghost use Rattle.rdm_profile.specs.Workers.{worker_number, usual_workers};

/// One of the two workers of a device. It carries out its jobs one after the other.
#[derive(Clone, Copy, Debug, PartialEq, Eq)]
pub enum Worker {
    /// Worker 0.
    First,
    /// Worker 1.
    Second,
}

impl Worker {
    /// Its number: 0 or 1.
    pub fn number(self) -> u8
        ensures number { result ≡ worker_number self }
        ensures two { result < 2 }
    {
        match self {
            Worker::First => 0,
            Worker::Second => 1,
        }
    }
}

/// Who carries out the slow commands of each kind (E1.20 section 6.3.3).
#[derive(Clone, Copy, Debug, PartialEq, Eq)]
pub struct Workers {
    /// A SET of LAMP_STATE (section 10.8.4).
    pub lamp: Worker,
    /// A SET of POWER_STATE (section 10.11).
    pub power: Worker,
    /// A SET of PERFORM_SELFTEST (section 10.11).
    pub self_test: Worker,
    /// A GET of SENSOR_VALUE (section 10.7.2).
    pub sensor: Worker,
}

impl Workers {
    /// Those of a profile that says nothing else: worker 0 switches the lamp and the power, worker 1 tests and measures.
    pub fn usual() -> Workers
        ensures { result ≡ usual_workers }
    {
        Workers {
            lamp: Worker::First,
            power: Worker::First,
            self_test: Worker::Second,
            sensor: Worker::Second,
        }
    }
}
