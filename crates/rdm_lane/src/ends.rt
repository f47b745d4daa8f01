//! The making of a lane.

ghost use Rattle.std.specs.Prelude.{[], ◌≡◌, ◌↔◌, ◌<◌, ◌≤◌, IfOk, IsTrue};
ghost use Rattle.std.specs.Arc.{arc_value};
ghost use Rattle.crossbeam_queue.specs.Passes.{view, IsPassOf};
ghost use Rattle.rdm_lane.specs.Ends.{new_posts, IsNewLane, IsBadSize};
ghost use Rattle.rdm_lane.specs.Rule.{taker};

use crate::rule::{Deals, Line, View};
use crate::{Post, Take, Taken};
use crossbeam_queue::Pass;
use std::alloc::{AllocError, Global};
use std::sync::Arc;
use thiserror::Error;

/// Why a lane can't be made, or why nothing is taken from it.
#[derive(Clone, Copy, Debug, PartialEq, Eq, Error)]
pub enum LaneError {
    /// Out of memory.
    #[error("out of memory")]
    OutOfMemory,
    /// The capacity isn't 1 to 2,048, the number of posts isn't 1 to 3, or the limit is 0.
    #[error("bad size")]
    BadSize,
}

/// The ends of a lane. Each may be moved to a thread of its own.
#[derive(Drop)]
pub struct Ends<T> {
    /// The end that takes.
    pub take: Take<T>,
    /// The ends that put: post p is producer p.
    pub posts: Vec<Post<T>>,
}

/// How many items and marks may wait in any lane.
const MOST_WAITING: usize = 2_048;

/// How many posts a lane may have.
pub(crate) const MOST_POSTS: usize = 3;

/// A lane with room for `capacity` items and marks, and with N `posts`, each of which may put `limit` items. All its ends
/// have one lane, and post p is producer p.
///
/// It is `BadSize` if the capacity isn't 1 to 2,048, the number of posts isn't 1 to 3, or the limit is 0, else
/// `OutOfMemory` if memory is refused.
pub fn lane<T: Copy + Send>(
    alloc: Global,
    capacity: usize,
    posts: u32,
    limit: u32,
) -> Result<Ends<T>, LaneError>
    ensures ends { IfOk result (λ ends. IsNewLane posts limit ends.take ends.posts.items) }
    ensures bad { (result ≡ Err LaneError.BadSize) ↔ IsBadSize capacity posts limit }
{
    if is_bad_size(capacity, posts, limit) {
        return Err(LaneError::BadSize);
    }
    let Ok(ends) = ends_of(alloc, capacity, posts, limit) else {
        return Err(LaneError::OutOfMemory);
    };
    Ok(ends)
}

/// Whether no lane has such a size.
fn is_bad_size(capacity: usize, posts: u32, limit: u32) -> bool
    ensures { IsTrue result ↔ IsBadSize capacity posts limit }
{
    !(1..=MOST_WAITING).contains(&capacity)
        || !(1..=MOST_POSTS).contains(&(posts as usize))
        || limit == 0
}

/// The ends of a new lane.
fn ends_of<T: Copy + Send>(
    alloc: Global,
    capacity: usize,
    posts: u32,
    limit: u32,
) -> Result<Ends<T>, AllocError>
    requires capacity { 0 < capacity }
    requires three { posts ≤ 3 }
    ensures { IfOk result (λ ends. IsNewLane posts limit ends.take ends.posts.items) }
{
    let (line, mut pass) = Line::ruled(alloc, capacity)?;
    let line = Arc::new(alloc, line)?;
    let made = posts_of(alloc, &line, &mut pass, posts, limit)?;
    let take = Take::new(alloc, line, pass, posts);
    Ok(Ends { take, posts: made })
}

/// The posts of a new lane, each made of the taker's pass.
fn posts_of<T: Copy + Send>(
    alloc: Global,
    line: &Arc<Line<T>>,
    pass: &mut Pass<Taken<T>, View<T>>,
    posts: u32,
    limit: u32,
) -> Result<Vec<Post<T>>, AllocError>
    requires three { posts ≤ 3 }
    requires new { IsPassOf (arc_value line.now) pass.old × (view pass.old ≡ taker 0 [] []) }
    ensures queue { IfOk result (λ made. IsPassOf (arc_value line.now) pass.new × (view pass.new ≡ taker posts [] [])) }
    ensures made { IfOk result (λ made. made.items ≡ new_posts pass.new.table_id limit posts) }
{
    let mut made = Vec::with_capacity(alloc, posts as usize)?;
    for producer in 0..posts {
        let shared = Arc::try_clone(line)?;
        let theirs = line.another::<Deals>(pass);
        made.push(Post::new(alloc, shared, theirs, producer, limit))?;
    }
    Ok(made)
}
