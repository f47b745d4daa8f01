//! When jobs end.

ghost use Rattle.std.specs.Prelude.{◌≡◌};
ghost use Rattle.rdm_widget.specs.LiveFixtures as says;

use rdm_outbox::Job;
use rdm_params::Devices;

/// A job that has ended.
#[derive(Clone, Copy, Debug)]
pub(crate) struct Ended {
    /// The job.
    pub(crate) job: Job,
    /// The worker that had it: 0 or 1.
    pub(crate) worker: u8,
    /// When it ended, in milliseconds.
    pub(crate) at: u64,
}

/// The job at which this worker of these devices is since then, if it has ended by now.
pub(crate) fn ended_by(
    devices: &Devices,
    now: u64,
    worker: u8,
    since: u64,
    job: Option<Job>,
) -> Option<Ended>
    ensures { result ≡ says.ended_by devices.now now worker since job }
{
    match job {
        Some(job) => end_by(devices, now, worker, since, job),
        None => None,
    }
}

/// This job, if it has ended by now.
fn end_by(devices: &Devices, now: u64, worker: u8, since: u64, job: Job) -> Option<Ended>
    ensures { result ≡ says.ended_by devices.now now worker since (Some job) }
{
    // It may have started long before it began, behind others of its worker, and no list of what `Started` told is kept here.
    let span = 100 * u64::from(devices.estimate_of(&job.work));
    if since > now || now - since < span {
        return None;
    }
    Some(Ended {
        job,
        worker,
        at: since + span,
    })
}

/// The one that ended first, and that of the first worker if both ended at once.
pub(crate) fn earlier(first: Option<Ended>, second: Option<Ended>) -> Option<Ended>
    ensures { result ≡ says.earlier first second }
{
    match (first, second) {
        (Some(first), Some(second)) => Some(if second.at < first.at { second } else { first }),
        (Some(first), None) => Some(first),
        (None, second) => second,
    }
}

/// Since when a worker is at its oldest job, once this job has ended.
pub(crate) fn since_after(worker: u8, ended: &Ended, since: u64) -> u64
    ensures { result ≡ says.since_after worker ended.now since }
{
    if ended.worker == worker {
        ended.at
    } else {
        since
    }
}

/// Since when a worker is at its oldest job: without one, since now.
pub(crate) fn since_when(now: u64, since: u64, job: Option<Job>) -> u64
    ensures { result ≡ says.since_when now since job }
{
    match job {
        Some(_) => since,
        None => now,
    }
}
