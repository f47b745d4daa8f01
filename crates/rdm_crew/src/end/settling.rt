//! The settling of all lanes, when the workers and the watcher of the panel have ended. It takes no memory.

ghost use Rattle.std.specs.Prelude.{◌≡◌, ◌≤◌, [], vec_len, vec_capacity};
ghost use Rattle.rdm_lane.specs.Lane.{LaneLaw};
ghost use Rattle.rdm_crew.specs.Settling.{IsTakenOf, IsSettled, IsLaneOfOne, IsLaneOfReports, AreLanes};

use crate::threads::worker::Worked;
use rdm_lane::{ClosedPost, Settled, Take, settle_up};
use rdm_outbox::Job;
use rdm_params::Change;
use rdm_responder::Report;
use std::alloc::{AllocError, Global};
use std::sync::Wait;

/// The most posts of a lane.
const MOST_POSTS: usize = 2;

/// Room for the posts of a lane, which is made before any of them is used: a run that has ended isn't lost for want of it.
#[derive(Drop)]
pub(crate) struct Room<T: Copy + Send> {
    posts: Vec<ClosedPost<T>>,
    ghost empty: { vec_len posts ≡ 0 },
    ghost places: { 2 ≤ vec_capacity posts },
}

impl<T: Copy + Send> Room<T> {
    pub(crate) fn new(alloc: Global) -> Result<Room<T>, AllocError> {
        let posts = Vec::with_capacity(alloc, MOST_POSTS)?;
        Ok(Room { posts })
    }

    /// A list with room for two posts.
    fn into_posts(self) -> Vec<ClosedPost<T>>
        ensures items { result.items ≡ [] }
        ensures len { vec_len result ≡ 0 }
        ensures places { 2 ≤ vec_capacity result }
    {
        self.posts
    }
}

/// Room for the settling of all lanes.
#[derive(Drop)]
pub(crate) struct Rooms {
    pub(crate) workers: WorkerRooms,
    /// For the lane of the panel.
    pub(crate) changes: Room<Change>,
}

impl Rooms {
    pub(crate) fn new(alloc: Global) -> Result<Rooms, AllocError> {
        Ok(Rooms {
            workers: WorkerRooms::new(alloc)?,
            changes: Room::new(alloc)?,
        })
    }
}

/// Room for the settling of the lanes between the bus thread and the workers.
#[derive(Drop)]
pub(crate) struct WorkerRooms {
    first: Room<Job>,
    second: Room<Job>,
    reports: Room<Report>,
}

impl WorkerRooms {
    fn new(alloc: Global) -> Result<WorkerRooms, AllocError> {
        Ok(WorkerRooms {
            first: Room::new(alloc)?,
            second: Room::new(alloc)?,
            reports: Room::new(alloc)?,
        })
    }
}

/// Settles a lane with one post.
pub(crate) fn settle_one<T: Copy + Send + Drop, R: Wait>(
    rt: &R,
    room: Room<T>,
    take: Take<T>,
    post: ClosedPost<T>,
)
    requires { IsLaneOfOne take post }
    ensures { IsTakenOf 0 take.taken post.items }
{
    let mut posts = room.into_posts();
    posts.push_reserved(post);
    let Ok(_) = settle_up(rt, take, posts) else {
        unreachable!();
    };
}

/// Settles the report lane, and gives its lists.
fn settle_reports<R: Wait>(
    rt: &R,
    room: Room<Report>,
    reports: Take<Report>,
    first: ClosedPost<Report>,
    second: ClosedPost<Report>,
) -> Settled<Report>
    requires { IsLaneOfReports reports first second }
    ensures sent { IsTakenOf 0 reports.taken first.items × IsTakenOf 1 reports.taken second.items }
    ensures taken { result.taken ≡ reports.taken }
    ensures law { LaneLaw 2 result.taken result.posted }
{
    let mut posts = room.into_posts();
    posts.push_reserved(first);
    posts.push_reserved(second);
    let Ok(settled) = settle_up(rt, reports, posts) else {
        unreachable!();
    };
    settled
}

/// Settles the three lanes of workers that have ended, and gives the lists of the report lane.
pub(crate) fn settle<R: Wait>(
    rt: &R,
    rooms: WorkerRooms,
    first: ClosedPost<Job>,
    second: ClosedPost<Job>,
    reports: Take<Report>,
    a: Worked,
    b: Worked,
) -> Settled<Report>
    requires { AreLanes reports first second a.jobs a.reports b.jobs b.reports }
    ensures first { IsSettled 0 first reports a }
    ensures second { IsSettled 1 second reports b }
    ensures taken { result.taken ≡ reports.taken }
    ensures law { LaneLaw 2 result.taken result.posted }
{
    let Worked {
        jobs: first_jobs,
        reports: first_reports,
        refused: _first_refused,
    } = a;
    let Worked {
        jobs: second_jobs,
        reports: second_reports,
        refused: _second_refused,
    } = b;
    settle_one(rt, rooms.first, first_jobs, first);
    settle_one(rt, rooms.second, second_jobs, second);
    settle_reports(rt, rooms.reports, reports, first_reports, second_reports)
}
