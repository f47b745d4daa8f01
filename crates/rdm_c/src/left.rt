//! A saved value that an update didn't take over, as numbers.

ghost use Rattle.std.specs.Prelude.{◌≡◌};
ghost use Rattle.rdm_updates.specs.Left.{told_left};
ghost use Rattle.rdm_c.specs.Left.{numbers_of};

use rdm_updates::LeftValue;

/// Which value of an older image wasn't taken over. The header calls it `felosumay_left`.
#[repr(C)]
#[derive(Clone, Copy)]
pub struct LeftNumbers {
    /// Its number in the older image, from 0.
    pub number: usize,
    /// The number of the sub-device, or 0: the root.
    pub sub: u16,
    /// The PID of its parameter. Of a sensor it is SENSOR_VALUE.
    pub pid: u16,
    /// The number of the sensor or of the scene, else 0.
    pub index: u16,
}

impl LeftNumbers {
    /// The numbers of a value.
    pub(crate) fn of(left: &LeftValue<'_>) -> LeftNumbers
        ensures { result ≡ numbers_of (told_left left.now) }
    {
        LeftNumbers {
            number: left.number,
            sub: left.value.device,
            pid: left.value.pid,
            index: left.value.index,
        }
    }
}
