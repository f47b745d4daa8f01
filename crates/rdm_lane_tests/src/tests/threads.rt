//! A lane between three threads.

ghost use Rattle.std.specs.Prelude.{◌≡◌, IfSome};
ghost use Rattle.rdm_lane.specs.Ends.{IsSamePost, IsSameTake};

use super::*;
use std::alloc::AllocError;
use std::snapshot::Snapshot;
use std::thread;
use std::thread::Promise;

/// How many items each post puts.
const ITEMS: u32 = 1_000;

/// What a thread gives back is the post that it was given, closed.
#[derive(Drop)]
struct SamePost(Snapshot<Post<u32>>);

impl Promise<Option<ClosedPost<u32>>> for SamePost {
    ghost use Rattle.std.specs.Prelude.{IfSome};
    ghost use Rattle.rdm_lane.specs.Ends.{IsSamePost};

    ghost kept_by = { λ promise back. IfSome back (λ closed. IsSamePost promise.0.value closed) };
}

#[test]
fn each_list_arrives_whole(rt: HostRuntime) -> Result<(), Fail> {
    let (mut take, zero, one) = lane_of_two(&rt, rt.alloc(), 2_048, ITEMS);
    let same = SamePost(Snapshot::of(&zero));
    let low = thread::spawn_with(&rt, same, move || puts_from(&rt, zero, 0));
    let same = SamePost(Snapshot::of(&one));
    let high = thread::spawn_with(&rt, same, move || puts_from(&rt, one, ITEMS));
    let zero = low.ok().expect(&rt, "a thread").join(&rt);
    let zero = zero.expect(&rt, "post 0 wasn't refused");
    let one = high.ok().expect(&rt, "a thread").join(&rt);
    let one = one.expect(&rt, "post 1 wasn't refused");
    takes_all(&rt, &mut take);
    let settled = settled_of_two(&rt, rt.alloc(), take, zero, one)?;
    arrives_whole(&rt, rt.alloc(), &settled, 0, 0);
    arrives_whole(&rt, rt.alloc(), &settled, 1, ITEMS);
    Ok(())
}

/// The 1,000 numbers of a producer, from the first one on, are what it put.
fn arrives_whole(rt: &impl Abort, alloc: Global, settled: &Settled<u32>, of: u32, first: u32) {
    let list = items_from(alloc, settled, of).expect(rt, "memory");
    let ends = (list.len(), list.first().copied(), list.last().copied());
    let last = first.saturating_add(ITEMS - 1);
    assert!(rt; ends == (ITEMS as usize, Some(first), Some(last)));
    assert!(rt; list.as_slice() == settled.posted(of));
}

/// Puts 1,000 numbers, and closes the post. None where the lane refuses one of them.
fn puts_from(rt: &impl Wait, mut post: Post<u32>, first: u32) -> Option<ClosedPost<u32>>
    ensures { IfSome result (λ closed. IsSamePost post closed) }
{
    for number in 0..ITEMS {
        post.put(rt, first.checked_add(number)?).ok()?;
    }
    post.close(rt).ok()
}

/// Takes until the lane is closed, which it is after 2,000 items and two marks.
fn takes_all<R: Wait + Abort>(rt: &R, take: &mut Take<u32>)
    ensures { IsSameTake take.old take.new }
{
    for _ in 0..2 * ITEMS + 2 {
        let is_more = takes_one(rt, take);
        assert!(rt; is_more);
    }
    gives(rt, take, &[Taken::Closed]);
}

/// Whether an item or a mark is taken.
fn takes_one<R: Wait>(rt: &R, take: &mut Take<u32>) -> bool
    ensures { IsSameTake take.old take.new }
{
    matches!(take.take(rt), Ok(Taken::Item { .. } | Taken::Mark { .. }))
}

/// The items of a producer among those that were taken.
fn items_from(alloc: Global, settled: &Settled<u32>, of: u32) -> Result<Vec<u32>, AllocError> {
    let mut items = Vec::new(alloc);
    for entry in settled.taken() {
        if let Taken::Item { producer, item, .. } = entry {
            if *producer == of {
                items.push(*item)?;
            }
        }
    }
    Ok(items)
}
