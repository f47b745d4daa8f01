//! Threads that have to be joined.

ghost use Rattle.std.specs.Prelude.{◌≡◌};

use std::alloc::AllocError;
use std::marker::Model;
use std::thread::{Promise, PromisedHandle, Threads};

/// A thread that was started. It can't be dropped, only joined: so no run leaves a thread behind, whatever it answers.
pub(crate) struct Started<T: Drop, P: Promise<T>> {
    handle: PromisedHandle<T, P>,
}

impl<T: Drop, P: Promise<T>> Model for Started<T, P> {
    ghost Value = { P };

    ghost view = { λ started. started.handle.promise };
}

impl<T: Drop, P: Promise<T>> Started<T, P> {
    pub(crate) fn of(handle: PromisedHandle<T, P>) -> Started<T, P>
        ensures { result ≡ handle.promise }
    {
        Started { handle }
    }

    /// What the thread leaves when it has ended.
    pub(crate) fn join<R: Threads>(self, rt: &R) -> T
        ensures { P.kept_by self result }
    {
        let Started { handle } = self;
        handle.join(rt)
    }

    /// Waits until the thread has ended, and lets go what it leaves.
    pub(crate) fn wait_out<R: Threads>(self, rt: &R) {
        drop(self.join(rt));
    }
}

/// Waits until a thread has ended, if it was started.
pub(crate) fn wait_out_if_started<T: Drop, P: Promise<T>, R: Threads>(
    rt: &R,
    thread: Result<Started<T, P>, AllocError>,
) {
    match thread {
        Ok(started) => started.wait_out(rt),
        Err(_) => {}
    }
}
