//! Items that go through a plain queue.

use super::CAPACITY;
use crossbeam_queue::ArrayQueue;
use std::alloc::{AllocError, Global};
use std::sync::{Arc, Wait};
use std::thread;
use std::thread::Threads;

/// How many items came through a plain queue, into which each of two threads pushed so many. None where memory or a thread
/// is refused.
pub(crate) fn through_a_queue<R>(rt: R, alloc: Global, items: u32) -> Option<u64>
where
    R: Threads + Wait + Copy + Send + 'static,
{
    let queue = queue_in(alloc).ok()?;
    let first = Arc::try_clone(&queue).ok()?;
    let second = Arc::try_clone(&queue).ok()?;
    let low = thread::spawn(&rt, move || push_all(&rt, &first, items)).ok()?;
    let high = thread::spawn(&rt, move || push_all(&rt, &second, items)).ok()?;
    let came = pop_all(&rt, &queue, 2 * u64::from(items));
    low.join(&rt);
    high.join(&rt);
    Some(came)
}

/// A queue that threads share.
fn queue_in(alloc: Global) -> Result<Arc<ArrayQueue<u32>>, AllocError> {
    Ok(Arc::new(alloc, ArrayQueue::new(alloc, CAPACITY)?)?)
}

/// Pushes so many items.
fn push_all(rt: &impl Wait, queue: &ArrayQueue<u32>, items: u32) {
    for item in 0..items {
        for _ in rt.forever() {
            if queue.push(rt, item).is_ok() {
                break;
            }
            thread::yield_now();
        }
    }
}

/// Pops until so many have come, and gives how many that were.
fn pop_all(rt: &impl Wait, queue: &ArrayQueue<u32>, sent: u64) -> u64 {
    let mut came = 0;
    for _ in rt.forever() {
        if came == sent {
            break;
        }
        match queue.pop(rt) {
            Some(_) => came = u64::wrapping_add(came, 1),
            None => thread::yield_now(),
        }
    }
    came
}
