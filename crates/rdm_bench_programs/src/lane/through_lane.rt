//! Items that go through a lane.

use super::CAPACITY;
use rdm_lane::{Ends, Post, PutError, Take, Taken, lane};
use std::alloc::Global;
use std::sync::Wait;
use std::thread;
use std::thread::Threads;

/// How many items came through a lane, into which each of two threads put so many and then closed it. None where memory or
/// a thread is refused.
pub(crate) fn through_a_lane<R>(rt: R, alloc: Global, items: u32) -> Option<u64>
where
    R: Threads + Wait + Copy + Send + 'static,
{
    let Ends {
        mut take,
        mut posts,
    } = lane::<u32>(alloc, CAPACITY, 2, items).ok()?;
    let one = posts.pop()?;
    let zero = posts.pop()?;
    let low = thread::spawn(&rt, move || put_all(&rt, zero, items)).ok()?;
    let high = thread::spawn(&rt, move || put_all(&rt, one, items)).ok()?;
    let came = take_all(&rt, &mut take);
    low.join(&rt);
    high.join(&rt);
    Some(came)
}

/// Puts so many items, and closes the post.
fn put_all(rt: &impl Wait, mut post: Post<u32>, items: u32) {
    for item in 0..items {
        put(rt, &mut post, item);
    }
    close(rt, post);
}

fn put(rt: &impl Wait, post: &mut Post<u32>, item: u32) {
    for _ in rt.forever() {
        match post.put(rt, item) {
            Err(PutError::Full(_)) => thread::yield_now(),
            _ => return,
        }
    }
}

fn close(rt: &impl Wait, post: Post<u32>) {
    let mut open = post;
    for _ in rt.forever() {
        match open.close(rt) {
            Ok(_) => return,
            Err(back) => open = back,
        }
        thread::yield_now();
    }
}

/// How many items came before the lane was closed.
fn take_all(rt: &impl Wait, take: &mut Take<u32>) -> u64 {
    let mut came = 0;
    for _ in rt.forever() {
        match take.take(rt) {
            Ok(Taken::Empty) => thread::yield_now(),
            Ok(Taken::Closed) | Err(_) => return came,
            Ok(Taken::Item { .. }) => came = u64::wrapping_add(came, 1),
            Ok(Taken::Mark { .. }) => {}
        }
    }
    came
}
