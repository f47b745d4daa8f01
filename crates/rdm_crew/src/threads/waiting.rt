//! How the threads of a run wait for each other: they look some times, and then sleep until the other rings.
//!
//! No wake-up is lost, which isn't proved but argued: whoever puts an item or closes a post rings afterwards, a ring is kept
//! until it is heard, and whoever wakes up looks again.

use std::alloc::{AllocError, Global};
use std::sync::{Arc, Wait};
use std::thread;
use std::thread::Parker;
use std::time::Duration;

/// How often a thread looks in vain before it sleeps.
const LOOKS: u32 = 100;

/// How long a sleep lasts that is counted, in milliseconds.
const NAP: u64 = 10;

/// What one thread sleeps with.
#[derive(Drop)]
pub(crate) struct Waiter {
    parker: Arc<Parker, Global>,
}

/// What wakes the thread that has the waiter.
#[derive(Drop)]
pub(crate) struct Bell {
    parker: Arc<Parker, Global>,
}

/// What a worker waits with, and what it wakes the bus thread with.
#[derive(Drop)]
pub(crate) struct Signals {
    pub(crate) jobs: Waiter,
    pub(crate) reports: Bell,
}

/// The signals of a worker, and the bell that wakes it.
#[derive(Drop)]
pub(crate) struct Wired {
    pub(crate) signals: Signals,
    pub(crate) bell: Bell,
}

impl Wired {
    /// Those of a new worker, whose reports go to the thread of `bus`.
    pub(crate) fn new(alloc: Global, bus: &Waiter) -> Result<Wired, AllocError> {
        let jobs = Waiter::new(alloc)?;
        let bell = jobs.bell()?;
        let reports = bus.bell()?;
        Ok(Wired {
            signals: Signals { jobs, reports },
            bell,
        })
    }
}

impl Waiter {
    pub(crate) fn new(alloc: Global) -> Result<Waiter, AllocError> {
        Ok(Waiter {
            parker: Arc::new(alloc, Parker::new())?,
        })
    }

    /// A bell that wakes this waiter.
    pub(crate) fn bell(&self) -> Result<Bell, AllocError> {
        Ok(Bell {
            parker: Arc::try_clone(&self.parker)?,
        })
    }

    /// Waits after this many looks in vain, and says how many there are now. After the first it sleeps until a bell rings.
    pub(crate) fn wait<R: Wait>(&self, rt: &R, looks: u32) -> u32 {
        if looks < LOOKS {
            thread::yield_now();
            return looks + 1;
        }
        self.parker.park(rt);
        looks
    }

    /// Waits as `wait` does, and sleeps for 10 ms at most.
    pub(crate) fn wait_a_while<R: Wait>(&self, rt: &R, looks: u32) -> u32 {
        if looks < LOOKS {
            thread::yield_now();
            return looks + 1;
        }
        self.parker.park_timeout(rt, Duration::from_millis(NAP));
        looks
    }
}

impl Bell {
    /// Wakes the thread that waits, or keeps it from its next sleep.
    pub(crate) fn ring(&self) {
        self.parker.unpark();
    }
}
