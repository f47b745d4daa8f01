//! The making of a lane.

use crate::fault::{ALWAYS, Fault, OTHER, check};
use crate::tally::{TRIES, Tally};
use rdm_lane::{LaneError, lane};
use std::alloc::Global;

/// Sizes that no lane can have are told as such, whatever memory there is. Then a lane has as many posts as it should.
pub(crate) fn lane_of_one(alloc: Global) -> Result<Tally, Fault> {
    let mut tally = Tally::NONE;
    for _ in 0..TRIES {
        check(no_lanes(alloc), "a lane of a bad size")?;
        match posts_of_lane(alloc) {
            Ok(posts) => return check(posts == 2, "two posts").map(|()| tally),
            Err(LaneError::OutOfMemory) => tally.refused(),
            Err(LaneError::BadSize) => return Err(OTHER),
        }
    }
    Err(ALWAYS)
}

/// There is no lane of no place or of 2,049, of 4 posts for 2 places, or of no item for a post.
fn no_lanes(alloc: Global) -> bool {
    is_bad_size(alloc, 0, 2, 2)
        && is_bad_size(alloc, 2_049, 2, 2)
        && is_bad_size(alloc, 2, 4, 2)
        && is_bad_size(alloc, 2, 2, 0)
}

fn is_bad_size(alloc: Global, capacity: usize, posts: u32, limit: u32) -> bool {
    let ends = lane::<u32>(alloc, capacity, posts, limit);
    matches!(&ends, Err(LaneError::BadSize))
}

/// How many posts a lane of two has.
fn posts_of_lane(alloc: Global) -> Result<usize, LaneError> {
    Ok(lane::<u32>(alloc, 2, 2, 2)?.posts.len())
}
