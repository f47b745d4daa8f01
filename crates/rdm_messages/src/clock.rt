//! Clocks, in milliseconds.

ghost use Rattle.std.specs.Prelude.{◌≡◌, ◌≤◌, ℕ, List, length, IfOk};

use std::io;
use std::time::Instant;

/// Tells the time, in milliseconds from some start.
pub trait Clock {
    // From this state of the clock it may tell this time, and is in that state afterwards.
    ghost tells: { Self → ℕ → Self → Type 0 };

    /// The time now, in milliseconds.
    fn now(&mut self) -> u64
        ensures { tells self.old result self.new };
}

/// The system's clock since it was started, on which time passes N times as fast. It never goes back.
#[derive(Drop)]
pub struct RealClock<'a, T> {
    system: &'a T,
    start: Instant,
    speed: u32,
    last: u64,
}

impl<'a, T: std::time::Clock> RealClock<'a, T> {
    /// Starts at 0, and passes `speed` times as fast as the system's clock. Fails if that can't be read.
    pub fn start(system: &'a T, speed: u32) -> io::Result<RealClock<'a, T>> {
        Ok(RealClock {
            system,
            start: Instant::now(system)?,
            speed,
            last: 0,
        })
    }
}

impl<T: std::time::Clock> Clock for RealClock<'_, T> {
    ghost use Rattle.std.specs.Prelude.{◌≡◌, ◌≤◌};

    // It never goes back.
    ghost tells = { λ before time after. (before.last ≤ time) × (after.last ≡ time) };

    fn now(&mut self) -> u64 {
        let passed = match self.start.elapsed(self.system) {
            Ok(passed) => u64::try_from(passed.as_millis()).unwrap_or(u64::MAX),
            Err(_) => 0,
        };
        self.last = self.last.max(passed.saturating_mul(u64::from(self.speed)));
        self.last
    }
}
