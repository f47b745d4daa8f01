//! Two threads hand items to a third, through a lane and through a plain `ArrayQueue` beside it.
//!
//! Each of the two hands on 1,000 items to show how many come, and 500,000 in a round that is timed. `bench/lane` also takes this module
//! alone, and puts it on the lane of another commit.

mod fault;
mod queue;
mod through_lane;

pub(crate) use fault::LaneFault;
use queue::through_a_queue;
use std::alloc::Global;
use std::io::Print;
use std::sync::Wait;
use std::thread::Threads;
use std::time::{Clock, Duration, Instant};
use through_lane::through_a_lane;

/// How many items each thread hands on where nothing is timed.
const FEW: u32 = 1_000;

/// How many items each thread hands on in a round that is timed.
const MANY: u32 = 500_000;

/// How many items may wait.
const CAPACITY: usize = 256;

/// Prints how many items come through each way.
pub(crate) fn show<R>(rt: R, alloc: Global) -> Result<(), LaneFault>
where
    R: Print + Threads + Wait + Copy + Send + 'static,
{
    let came = through_a_lane(rt, alloc, FEW).ok_or(LaneFault::Refused)?;
    tell(rt, "lane", came)?;
    let came = through_a_queue(rt, alloc, FEW).ok_or(LaneFault::Refused)?;
    tell(rt, "queue", came)
}

/// Prints how many items came, and through what.
fn tell<R: Print + Copy>(rt: R, through: &str, came: u64) -> Result<(), LaneFault> {
    println!(rt; "{through}: {came} items came")?;
    Ok(())
}

/// Prints how many nanoseconds an item takes through each way, and how many go through in a second.
pub(crate) fn time<R>(rt: R, alloc: Global, rounds: u32) -> Result<(), LaneFault>
where
    R: Print + Clock + Threads + Wait + Copy + Send + 'static,
{
    for _ in 0..rounds {
        time_round(rt, alloc)?;
    }
    Ok(())
}

/// The same for one round.
fn time_round<R>(rt: R, alloc: Global) -> Result<(), LaneFault>
where
    R: Print + Clock + Threads + Wait + Copy + Send + 'static,
{
    let start = Instant::now(&rt)?;
    let came = through_a_lane(rt, alloc, MANY).ok_or(LaneFault::Refused)?;
    tell_speed(rt, "lane", came, start.elapsed(&rt)?)?;
    let start = Instant::now(&rt)?;
    let came = through_a_queue(rt, alloc, MANY).ok_or(LaneFault::Refused)?;
    tell_speed(rt, "queue", came, start.elapsed(&rt)?)
}

/// Prints how fast items came, and through what.
fn tell_speed<R: Print + Copy>(
    rt: R,
    through: &str,
    came: u64,
    time: Duration,
) -> Result<(), LaneFault> {
    let (each, a_second) = speed(came, time)?;
    println!(rt; "{through} {each} {a_second}")?;
    Ok(())
}

/// The nanoseconds of an item, and the items of a second, where all came.
fn speed(came: u64, time: Duration) -> Result<(u64, u64), LaneFault> {
    const SENT: u64 = 2 * MANY as u64;
    if came != SENT {
        return Err(LaneFault::Lost);
    }
    let nanos = u64::try_from(time.as_nanos()).unwrap_or(u64::MAX).max(1);
    Ok((nanos / SENT, SENT * 1_000_000_000 / nanos))
}
