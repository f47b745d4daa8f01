//! Calls of a post that are tried again until the lane has room, and then wake the thread that takes.

ghost use Rattle.std.specs.Prelude.{◌≡◌, ◌<◌, length, MatchResult};
ghost use Rattle.rdm_lane.specs.Ends.{with_item};

use crate::threads::waiting::Bell;
use rdm_lane::{ClosedPost, Post, PutError};
use std::alloc::AllocError;
use std::sync::Wait;
use std::thread;

/// Puts an item, and tries again while the lane is full; then rings. It is refused only if memory is.
pub(crate) fn put<T: Copy + Send + Drop, R: Wait>(
    rt: &R,
    post: &mut Post<T>,
    item: T,
    bell: &Bell,
) -> Result<(), AllocError>
    requires { length post.old.items < post.old.limit }
    ensures { MatchResult result (λ _. post.new ≡ with_item post.old item) (λ _. post.new ≡ post.old) }
{
    for _ in rt.forever() {
        match post.put(rt, item) {
            Ok(_) => {
                bell.ring();
                return Ok(());
            }
            Err(PutError::Full(_)) => thread::yield_now(),
            Err(PutError::OutOfMemory(_)) => return Err(AllocError),
            // The post has put fewer items than it may.
            Err(PutError::Spent(_)) => unreachable!(),
        }
    }
    unreachable!()
}

/// Closes a post, and tries again while the lane is full; then rings.
pub(crate) fn close<T: Copy + Send, R: Wait>(rt: &R, post: Post<T>, bell: &Bell) -> ClosedPost<T>
    ensures { result ≡ post }
{
    let mut open = post;
    for _ in rt.forever() {
        match open.close(rt) {
            Ok(closed) => {
                bell.ring();
                return closed;
            }
            Err(full) => open = full,
        }
        thread::yield_now();
    }
    unreachable!()
}
