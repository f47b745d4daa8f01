//! What no clause says: when a lane is full or empty, what `put` and `close` put, and that memory suffices. The answers
//! are worked out by hand.

ghost use Rattle.std.specs.Prelude.{◌≡◌};
ghost use Rattle.rdm_lane.specs.Ends.{IsSameTake, IsSamePost};

use rdm_lane::*;
use std::alloc::Global;
use std::process::Abort;
use std::sync::Wait;
use std::test::Fail;

mod sizes;
mod threads;
mod turns;
mod words;

/// The ends of a lane of two posts, post 0 first.
fn lane_of_two(
    rt: &impl Abort,
    alloc: Global,
    capacity: usize,
    limit: u32,
) -> (Take<u32>, Post<u32>, Post<u32>)
    ensures lanes { (result.1.lane ≡ result.0.lane) × (result.2.lane ≡ result.0.lane) }
    ensures posts { (result.0.posts ≡ 2) × (result.1.producer ≡ 0) × (result.2.producer ≡ 1) }
{
    let made = lane::<u32>(alloc, capacity, 2, limit);
    let Ends { take, mut posts } = made.expect(rt, "a lane");
    let one = posts.pop().expect(rt, "post 1");
    let zero = posts.pop().expect(rt, "post 0");
    (take, zero, one)
}

/// The post, closed, where the lane has room for its mark.
fn closed<R: Wait + Abort>(rt: &R, post: Post<u32>) -> ClosedPost<u32>
    ensures { IsSamePost post result }
{
    post.close(rt).ok().expect(rt, "room for the mark")
}

/// Asserts that these are the next answers.
fn gives<R: Wait + Abort>(rt: &R, take: &mut Take<u32>, answers: &[Taken<u32>])
    ensures { IsSameTake take.old take.new }
{
    for answer in answers {
        let is_next = take.take(rt) == Ok(*answer);
        assert!(rt; is_next, "not {answer:?}");
    }
}

/// The lists of a lane of two posts. The posts are handed in in the other order.
fn settled_of_two<R: Wait>(
    rt: &R,
    alloc: Global,
    take: Take<u32>,
    zero: ClosedPost<u32>,
    one: ClosedPost<u32>,
) -> Result<Settled<u32>, Fail>
    requires lanes { (zero.lane ≡ take.lane) × (one.lane ≡ take.lane) }
    requires posts { (take.posts ≡ 2) × (zero.producer ≡ 0) × (one.producer ≡ 1) }
{
    let posts = Vec::from_array(alloc, [one, zero])?;
    Ok(settle_up(rt, take, posts)?)
}
