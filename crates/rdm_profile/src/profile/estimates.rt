//! How long slow commands take.

ghost use Rattle.std.specs.Prelude.{◌≡◌};
ghost use Rattle.rdm_profile.specs.Estimates.{usual};

/// How long slow commands of each kind take, in tenths of a second: a controller is told so by ACK_TIMER, and asks for the
/// result when that time is over (E1.20 section 6.3.3). After 0 it may ask at once.
#[derive(Clone, Copy, Debug, PartialEq, Eq)]
pub struct Estimates {
    /// A SET of LAMP_STATE (section 10.8.4).
    pub lamp: u16,
    /// A SET of POWER_STATE (section 10.11).
    pub power: u16,
    /// A SET of PERFORM_SELFTEST (section 10.11).
    pub self_test: u16,
    /// A GET of SENSOR_VALUE, of a sensor that isn't answered at once (section 10.7.2).
    pub sensor: u16,
}

impl Estimates {
    /// Those of a profile that says nothing else: 5 seconds for the lamp, 2 for the power state, 10 for a self test, and half a
    /// second for a sensor.
    pub fn usual() -> Estimates
        ensures { result ≡ usual }
    {
        Estimates {
            lamp: 50,
            power: 20,
            self_test: 100,
            sensor: 5,
        }
    }
}
