//! What the profile says of the jobs of slow commands.

ghost use Rattle.std.specs.Prelude.{◌≡◌, ◌<◌};
ghost use Rattle.rdm_commands.specs.Jobs.Work.{estimate_of, worker_at};

use super::Devices;
use crate::Work;
use crate::jobs::{estimate_by, worker_at};
use rdm_device::Workers;

impl Devices {
    /// How long the job of a slow command takes, in tenths of a second, for ACK_TIMER (E1.20 section 6.3.3): what the profile
    /// estimates. It is 0 if the work isn't a slow command.
    pub fn estimate_of(&self, work: &Work) -> u16
        ensures { result ≡ estimate_of self.now.profile work.now }
    {
        estimate_by(&self.profile.particulars.estimates(), work)
    }

    /// The worker that has the job of this work: 0 or 1, as the profile says. It is 1 too if the work isn't a slow command.
    pub fn worker_of(&self, work: &Work) -> u8
        ensures worker { result ≡ worker_at self.now.profile.workers work.now }
        ensures two { result < 2 }
    {
        worker_at(&self.profile.workers, work)
    }

    /// Which worker carries out which slow commands.
    pub fn workers(&self) -> Workers
        ensures { result ≡ self.now.profile.workers }
    {
        self.profile.workers
    }
}
