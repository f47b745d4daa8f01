//! Sizes that no lane has.

use super::*;

/// How many items a lane holds, how many posts it has, how many items each may put, and whether there is no such lane.
const SIZES: &[(usize, u32, u32, bool)] = &[
    (0, 1, 1, true),
    (1, 1, 1, false),
    (2_048, 3, u32::MAX, false),
    (2_049, 1, 1, true),
    (1, 0, 1, true),
    (1, 4, 1, true),
    (1, 1, 0, true),
];

/// Why there is no lane of this size.
fn refusal(alloc: Global, capacity: usize, posts: u32, limit: u32) -> Option<LaneError> {
    lane::<u32>(alloc, capacity, posts, limit).err()
}

#[test]
fn sizes_are_bounded(rt: HostRuntime) {
    for (capacity, posts, limit, is_bad) in SIZES {
        let wanted = if *is_bad {
            Some(LaneError::BadSize)
        } else {
            None
        };
        let is_told = refusal(rt.alloc(), *capacity, *posts, *limit) == wanted;
        assert!(rt; is_told, "{capacity} {posts} {limit}");
    }
}
