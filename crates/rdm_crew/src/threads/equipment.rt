//! What the threads of a run share, all of it made before any of them is started.

ghost use Rattle.std.specs.Prelude.{◌≡◌, ◌≤◌, IfOk};
ghost use Rattle.rdm_outbox.specs.Settings.{IsQueueSize};
ghost use Rattle.rdm_crew.specs.Settling.{IsNewLaneOfOne, IsReportLane};
ghost use Rattle.rdm_crew.specs.Watchers.{most_changes};
ghost use Rattle.rdm_crew.specs.Workers.{most};

use crate::end::settling::Rooms;
use crate::threads::waiting::{Bell, Signals, Waiter, Wired};
use crate::threads::watcher::MOST_CHANGES;
use rdm_lane::{Ends, LaneError, Post, Take, lane};
use rdm_outbox::Job;
use rdm_params::Change;
use rdm_responder::Report;
use std::alloc::{AllocError, Global};

/// How many items each post of a lane may put.
const MOST_ITEMS: u32 = u32::MAX;

/// How many changes wait at most: as many as a panel may offer, and the mark.
const PANEL_CAPACITY: usize = 1025;

/// All that the threads of a run share, by who has it.
#[derive(Drop)]
pub(crate) struct Equipment {
    pub(crate) bus: BusKit,
    pub(crate) first: WorkerKit,
    pub(crate) second: WorkerKit,
    pub(crate) watcher: WatcherKit,
    /// Room for the settling of the lanes.
    pub(crate) rooms: Rooms,
}

/// What the bus thread has of it.
#[derive(Drop)]
pub(crate) struct BusKit {
    /// The end of the report lane that it takes from.
    pub(crate) reports: Take<Report>,
    /// What it waits with.
    pub(crate) waiter: Waiter,
    /// The post of the first worker's job lane.
    pub(crate) first: Post<Job>,
    /// What wakes the first worker.
    pub(crate) first_bell: Bell,
    /// The post of the second worker's job lane.
    pub(crate) second: Post<Job>,
    /// What wakes the second worker.
    pub(crate) second_bell: Bell,
    /// The end of the panel's lane that it takes from.
    pub(crate) changes: Take<Change>,
}

/// What a worker has of it.
#[derive(Drop)]
pub(crate) struct WorkerKit {
    /// The end of its job lane.
    pub(crate) jobs: Take<Job>,
    /// Its post of the report lane.
    pub(crate) reports: Post<Report>,
    pub(crate) signals: Signals,
}

/// What the watcher of the panel has of it.
#[derive(Drop)]
pub(crate) struct WatcherKit {
    /// The post of the panel's lane.
    pub(crate) changes: Post<Change>,
    /// What wakes the bus thread when the panel offers a change.
    pub(crate) bell: Bell,
}

/// The equipment of a run with a queue of this size. All of it is made before any is shared out: from then on no memory can be refused.
pub(crate) fn equip(alloc: Global, queue_size: u16) -> Result<Equipment, AllocError>
    requires { IsQueueSize queue_size }
    ensures first { IfOk result (λ kit. IsNewLaneOfOne most kit.first.jobs kit.bus.first) }
    ensures second { IfOk result (λ kit. IsNewLaneOfOne most kit.second.jobs kit.bus.second) }
    ensures reports { IfOk result (λ kit. IsReportLane kit.bus.reports kit.first.reports kit.second.reports) }
    ensures changes { IfOk result (λ kit. IsNewLaneOfOne most_changes kit.bus.changes kit.watcher.changes) }
{
    let lanes = Lanes::new(alloc, queue_size)?;
    match Fittings::new(alloc) {
        Ok(fittings) => Ok(share_out(lanes, fittings)),
        Err(_) => {
            drop(lanes);
            Err(AllocError)
        }
    }
}

/// The same lanes and fittings, shared out to those who have them.
fn share_out(lanes: Lanes, fittings: Fittings) -> Equipment
    ensures first { (result.first.jobs ≡ lanes.first.take) × (result.bus.first ≡ lanes.first.post) }
    ensures second { (result.second.jobs ≡ lanes.second.take) × (result.bus.second ≡ lanes.second.post) }
    ensures reports { (result.bus.reports ≡ lanes.reports.take)
        × (result.first.reports ≡ lanes.reports.first) × (result.second.reports ≡ lanes.reports.second) }
    ensures changes { (result.bus.changes ≡ lanes.changes.take) × (result.watcher.changes ≡ lanes.changes.post) }
{
    let Lanes {
        first,
        second,
        reports,
        changes,
    } = lanes;
    let Fittings { wiring, rooms } = fittings;
    let Wiring {
        waiter,
        first: first_wired,
        second: second_wired,
        panel_bell,
    } = wiring;
    Equipment {
        bus: BusKit {
            reports: reports.take,
            waiter,
            first: first.post,
            first_bell: first_wired.bell,
            second: second.post,
            second_bell: second_wired.bell,
            changes: changes.take,
        },
        first: WorkerKit {
            jobs: first.take,
            reports: reports.first,
            signals: first_wired.signals,
        },
        second: WorkerKit {
            jobs: second.take,
            reports: reports.second,
            signals: second_wired.signals,
        },
        watcher: WatcherKit {
            changes: changes.post,
            bell: panel_bell,
        },
        rooms,
    }
}

/// What a run needs beside its lanes.
#[derive(Drop)]
struct Fittings {
    wiring: Wiring,
    rooms: Rooms,
}

impl Fittings {
    fn new(alloc: Global) -> Result<Fittings, AllocError> {
        let wiring = Wiring::new(alloc)?;
        let rooms = Rooms::new(alloc)?;
        Ok(Fittings { wiring, rooms })
    }
}

/// What the threads of a run wake each other with.
#[derive(Drop)]
struct Wiring {
    waiter: Waiter,
    first: Wired,
    second: Wired,
    panel_bell: Bell,
}

impl Wiring {
    fn new(alloc: Global) -> Result<Wiring, AllocError> {
        let waiter = Waiter::new(alloc)?;
        let first = Wired::new(alloc, &waiter)?;
        let second = Wired::new(alloc, &waiter)?;
        let panel_bell = waiter.bell()?;
        Ok(Wiring {
            waiter,
            first,
            second,
            panel_bell,
        })
    }
}

/// All lanes of a run.
#[derive(Drop)]
struct Lanes {
    first: LaneOfOne<Job>,
    second: LaneOfOne<Job>,
    reports: ReportLane,
    changes: LaneOfOne<Change>,
}

impl Lanes {
    fn new(alloc: Global, queue_size: u16) -> Result<Lanes, AllocError>
        requires { IsQueueSize queue_size }
        ensures first { IfOk result (λ lanes. IsNewLaneOfOne most lanes.first.take lanes.first.post) }
        ensures second { IfOk result (λ lanes. IsNewLaneOfOne most lanes.second.take lanes.second.post) }
        ensures reports { IfOk result (λ lanes. IsReportLane lanes.reports.take lanes.reports.first lanes.reports.second) }
        ensures changes { IfOk result (λ lanes. IsNewLaneOfOne most_changes lanes.changes.take lanes.changes.post) }
    {
        let first = job_lane(alloc, queue_size)?;
        let second = job_lane(alloc, queue_size)?;
        let reports = report_lane(alloc, queue_size)?;
        let changes = lane_of_one(alloc, PANEL_CAPACITY, MOST_CHANGES)?;
        Ok(Lanes {
            first,
            second,
            reports,
            changes,
        })
    }
}

/// Both ends of a lane with one post.
#[derive(Drop)]
struct LaneOfOne<T: Copy + Send> {
    take: Take<T>,
    post: Post<T>,
}

/// The ends of the report lane.
#[derive(Drop)]
struct ReportLane {
    take: Take<Report>,
    first: Post<Report>,
    second: Post<Report>,
}

/// A job lane: it holds the jobs that a queue of this size has room for, and the mark.
fn job_lane(alloc: Global, queue_size: u16) -> Result<LaneOfOne<Job>, AllocError>
    requires { IsQueueSize queue_size }
    ensures { IfOk result (λ lane. IsNewLaneOfOne most lane.take lane.post) }
{
    lane_of_one(alloc, usize::from(queue_size) + 1, MOST_ITEMS)
}

/// A lane with one post, which may put as many items.
fn lane_of_one<T: Copy + Send + Drop>(
    alloc: Global,
    capacity: usize,
    limit: u32,
) -> Result<LaneOfOne<T>, AllocError>
    requires capacity { (1 ≤ capacity) × (capacity ≤ 2048) }
    requires limit { 1 ≤ limit }
    ensures { IfOk result (λ lane. IsNewLaneOfOne limit lane.take lane.post) }
{
    let Ends { take, mut posts } = match lane(alloc, capacity, 1, limit) {
        Ok(ends) => ends,
        Err(LaneError::OutOfMemory) => return Err(AllocError),
        Err(LaneError::BadSize) => unreachable!(),
    };
    let Some(post) = posts.pop() else {
        unreachable!();
    };
    Ok(LaneOfOne { take, post })
}

/// The report lane: it holds the reports that a queue of this size has room for, and both marks.
fn report_lane(alloc: Global, queue_size: u16) -> Result<ReportLane, AllocError>
    requires { IsQueueSize queue_size }
    ensures { IfOk result (λ lane. IsReportLane lane.take lane.first lane.second) }
{
    let capacity = usize::from(queue_size) + 2;
    let Ends { take, mut posts } = match lane(alloc, capacity, 2, MOST_ITEMS) {
        Ok(ends) => ends,
        Err(LaneError::OutOfMemory) => return Err(AllocError),
        // A size of the queue is at most 1,024, and a lane has up to 2,048 places.
        Err(LaneError::BadSize) => unreachable!(),
    };
    let Some(second) = posts.pop() else {
        unreachable!();
    };
    let Some(first) = posts.pop() else {
        unreachable!();
    };
    Ok(ReportLane {
        take,
        first,
        second,
    })
}
