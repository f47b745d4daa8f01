//! How a command is answered.

ghost use Rattle.std.specs.Prelude.{◌≡◌};
ghost use Rattle.rdm_table.specs.Table.Uses.{is_by_job, is_at_once, way_here};

use crate::{Slow, Verb};
use rdm_device::Profile;

/// The way in which a command is answered.
#[derive(Clone, Copy)]
pub enum Way {
    /// At once, with the data of the reply (E1.20 section 6.3.1).
    AtOnce,
    /// With a timer: a job of this kind carries it out (section 6.3.3).
    ByJob(Slow),
    /// With the next message that waits (section 10.3.1).
    FromQueue,
    /// With status entries (section 10.3.2).
    FromStatus,
    /// At once, and the list of status entries is cleared (section 10.3.4).
    Clears,
}

impl Way {
    /// Whether the command starts a job.
    pub fn is_by_job(self) -> bool
        ensures { result ≡ is_by_job self }
    {
        match self {
            Way::ByJob(_) => true,
            Way::AtOnce | Way::FromQueue | Way::FromStatus | Way::Clears => false,
        }
    }

    /// The way at the devices of a profile, where the table has this one: a GET with this byte, of a sensor that is answered at
    /// once, starts no job.
    #[inline(always)]
    pub fn at(self, profile: &Profile, verb: Verb, arg: u8) -> Way
        ensures { result ≡ way_here profile.now self verb arg }
    {
        match (self, verb) {
            (Way::ByJob(Slow::Sensor), Verb::Get) if is_at_once(profile, arg) => Way::AtOnce,
            _ => self,
        }
    }
}

/// Whether there is a sensor of this number, and it is answered at once.
fn is_at_once(profile: &Profile, number: u8) -> bool
    ensures { result ≡ is_at_once profile.now number }
{
    match profile.sensors.as_slice().get(usize::from(number)) {
        Some(sensor) => sensor.at_once,
        None => false,
    }
}
