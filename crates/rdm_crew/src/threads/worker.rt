//! A worker: it takes jobs, has its part do them, and reports on each.

ghost use Rattle.std.specs.Prelude.{◌≡◌, IfOk};
ghost use Rattle.rdm_crew.specs.Workers.{in_turn, IsIdle, IsWorked};

use crate::Part;
use crate::threads::equipment::WorkerKit;
use crate::threads::joining::Started;
use crate::threads::putting::{close, put};
use crate::threads::waiting::{Bell, Signals};
use rdm_lane::{ClosedPost, Post, Take, Taken};
use rdm_outbox::Job;
use rdm_responder::Report;
use std::alloc::AllocError;
use std::snapshot::Snapshot;
use std::sync::Wait;
use std::thread;
use std::thread::{Promise, Threads};

/// What a worker leaves when it has ended.
#[derive(Drop)]
pub(crate) struct Worked {
    /// The end of its job lane.
    pub jobs: Take<Job>,
    /// Its post of the report lane.
    pub reports: ClosedPost<Report>,
    /// Whether it ended because memory was refused.
    pub refused: bool,
}

/// What a worker promises of that, by the ends and the part that it was given.
#[derive(Drop)]
pub(crate) struct Works<P> {
    pub jobs: Snapshot<Take<Job>>,
    pub reports: Snapshot<Post<Report>>,
    pub part: Snapshot<P>,
}

impl<P: Part> Promise<Worked> for Works<P> {
    ghost kept_by = { λ works worked.
        IsWorked (in_turn P.gives P.gives_after works.part.value) works.jobs.value works.reports.value worked };
}

/// Starts a worker on a thread of its own.
pub(crate) fn start<P, R>(
    rt: R,
    kit: WorkerKit,
    part: P,
) -> Result<Started<Worked, Works<P>>, AllocError>
where
    P: Part + Send + 'static,
    R: Threads + Wait + Copy + Send + 'static,
    requires { IsIdle kit.jobs kit.reports }
    ensures { IfOk result (λ worker.
        (worker.jobs.value ≡ kit.jobs) × (worker.reports.value ≡ kit.reports) × (worker.part.value ≡ part)) }
{
    let WorkerKit {
        jobs,
        reports,
        signals,
    } = kit;
    let works = Works {
        jobs: Snapshot::of(&jobs),
        reports: Snapshot::of(&reports),
        part: Snapshot::of(&part),
    };
    let worker = thread::spawn_with(&rt, works, move || {
        work_all(&rt, jobs, reports, part, &signals)
    })?;
    Ok(Started::of(worker))
}

/// Does the jobs of a lane until it is closed, or until memory is refused.
fn work_all<P: Part, R: Wait>(
    rt: &R,
    jobs: Take<Job>,
    reports: Post<Report>,
    part: P,
    signals: &Signals,
) -> Worked
    requires { IsIdle jobs reports }
    ensures { IsWorked (in_turn P.gives P.gives_after part) jobs reports result }
{
    let (mut jobs, mut reports, mut part) = (jobs, reports, part);
    let bell = &signals.reports;
    let mut looks = 0;
    for _ in rt.forever() {
        match jobs.take(rt) {
            Ok(Taken::Item { item: job, .. }) => {
                let outcome = part.work(&job);
                match put(rt, &mut reports, Report { job, outcome }, bell) {
                    Ok(()) => looks = 0,
                    Err(_) => return ended(rt, jobs, reports, true, bell),
                }
            }
            // No job follows the mark: the next answer is `Closed`.
            Ok(Taken::Mark { .. }) => {}
            Ok(Taken::Empty) => looks = signals.jobs.wait(rt, looks),
            Ok(Taken::Closed) => return ended(rt, jobs, reports, false, bell),
            Err(_) => return ended(rt, jobs, reports, true, bell),
        }
    }
    unreachable!()
}

/// What a worker leaves that ends now. It closes its post.
fn ended<R: Wait>(
    rt: &R,
    jobs: Take<Job>,
    reports: Post<Report>,
    refused: bool,
    bell: &Bell,
) -> Worked
    ensures { (result.jobs ≡ jobs) × (result.reports ≡ reports) × (result.refused ≡ refused) }
{
    let reports = close(rt, reports, bell);
    Worked {
        jobs,
        reports,
        refused,
    }
}
