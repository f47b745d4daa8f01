//! What a job is to do.

ghost use Rattle.std.specs.Prelude.{◌≡◌, ◌<◌};
ghost use Rattle.rdm_table.specs.Table.Rows.{command_of};
ghost use Rattle.rdm_commands.specs.Jobs.Usual.{worker_of, usual_estimate_of};
ghost use Rattle.rdm_commands.specs.Jobs.Work.{worker_at, estimate_in};
ghost use Rattle.rdm_table.specs.Table.Uses.{way_of, is_slow};

use rdm_device::{Estimates, Workers};
use rdm_table::{Verb, Way, find};

/// A slow command that was accepted.
#[derive(Clone, Copy, Debug, PartialEq, Eq)]
pub struct Work {
    /// The sub-device, or 0 for the root.
    pub sub: u16,
    /// The PID.
    pub pid: u16,
    /// The command.
    pub verb: Verb,
    /// The byte of data that came with the command.
    pub arg: u8,
}

/// The worker that has the job of this work by the usual choice: 0 or 1. `Devices::worker_of` tells it of devices whose profile
/// may choose otherwise. It is 1 too if the work isn't a slow command.
pub fn worker_of(work: &Work) -> u8
    ensures worker { result ≡ worker_of work.now }
    ensures two { result < 2 }
{
    worker_at(&Workers::usual(), work)
}

/// The same by this choice.
pub fn worker_at(workers: &Workers, work: &Work) -> u8
    ensures worker { result ≡ worker_at workers.now work.now }
    ensures two { result < 2 }
{
    match way(work) {
        Way::ByJob(slow) => slow.worker(workers),
        Way::AtOnce | Way::FromQueue | Way::FromStatus | Way::Clears => 1,
    }
}

/// How long the job of this work takes by the usual estimates, in tenths of a second: `Devices::estimate_of` tells it of
/// devices whose profile may have others. It is 0 if the work isn't a slow command.
pub fn estimate_of(work: &Work) -> u16
    ensures { result ≡ usual_estimate_of work.now }
{
    estimate_by(&Estimates::usual(), work)
}

/// The same by these estimates.
pub(crate) fn estimate_by(estimates: &Estimates, work: &Work) -> u16
    ensures { result ≡ estimate_in estimates.now (way_of (command_of work.now.pid work.now.verb)) }
{
    match way(work) {
        Way::ByJob(slow) => slow.estimate(estimates),
        Way::AtOnce | Way::FromQueue | Way::FromStatus | Way::Clears => 0,
    }
}

/// The way in which the command of a work is answered.
pub(super) fn way(work: &Work) -> Way
    ensures { result ≡ way_of (command_of work.now.pid work.now.verb) }
{
    // The root has every parameter of the table.
    match find(work.pid, true, work.verb) {
        Ok(found) => found.way,
        Err(_) => Way::AtOnce,
    }
}

/// Whether the work is a slow command.
pub(crate) fn is_slow(work: &Work) -> bool
    ensures { result ≡ is_slow (command_of work.now.pid work.now.verb) }
{
    way(work).is_by_job()
}
