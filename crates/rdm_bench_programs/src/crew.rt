//! Slow commands whose jobs two workers do, each on a thread of its own, and the same commands where one thread does
//! everything.
//!
//! 16 commands are played in each of three ways to show how many events there were and how many messages were collected, and 10,000 in
//! a round that is timed.

mod fault;
mod one_thread;
mod part;
mod plan;
mod played;
mod setup;

pub(crate) use fault::CrewFault;
use plan::{BY_ONE, Plan, WAYS, Way};
use played::{Played, by_one_thread, by_slow_workers, by_workers};
use std::alloc::Global;
use std::io::Print;
use std::sync::Wait;
use std::thread::Threads;
use std::time::{Clock, Duration, Instant};

/// How many slow commands are played where nothing is timed.
const FEW: u32 = 16;

/// How many slow commands are played in a round that is timed.
const MANY: u32 = 10_000;

/// Prints what there is after a few commands, played each way.
pub(crate) fn show<R>(rt: R, alloc: Global) -> Result<(), CrewFault>
where
    R: Print + Threads + Wait + Copy + Send + 'static,
{
    for way in WAYS {
        let plan = Plan::of(alloc, FEW, way)?;
        show_way(rt, alloc, way, &plan)?;
    }
    Ok(())
}

/// Prints what there is after a plan was played.
fn show_way<R>(rt: R, alloc: Global, way: &Way, plan: &Plan) -> Result<(), CrewFault>
where
    R: Print + Threads + Wait + Copy + Send + 'static,
{
    tell(rt, way, "workers", by_workers(rt, alloc, plan)?)?;
    tell(rt, way, "one thread", by_one_thread(alloc, plan)?)
}

/// Prints what there is, and who played it.
fn tell<R: Print + Copy>(rt: R, way: &Way, who: &str, played: Played) -> Result<(), CrewFault> {
    println!(rt; "{}, {who}: {played}", way.name)?;
    Ok(())
}

/// Prints how many nanoseconds a job takes, from its command to the poll that collects its message, and how many are done
/// in a second, in so many rounds of each way.
pub(crate) fn time<R>(rt: R, alloc: Global, rounds: u32) -> Result<(), CrewFault>
where
    R: Print + Clock + Threads + Wait + Copy + Send + 'static,
{
    for way in WAYS {
        let plan = Plan::of(alloc, MANY, way)?;
        time_way(rt, alloc, rounds, way, &plan)?;
    }
    Ok(())
}

/// The same for one way.
fn time_way<R>(rt: R, alloc: Global, rounds: u32, way: &Way, plan: &Plan) -> Result<(), CrewFault>
where
    R: Print + Clock + Threads + Wait + Copy + Send + 'static,
{
    for _ in 0..rounds {
        time_round(rt, alloc, way, plan)?;
    }
    Ok(())
}

/// The same for one round.
fn time_round<R>(rt: R, alloc: Global, way: &Way, plan: &Plan) -> Result<(), CrewFault>
where
    R: Print + Clock + Threads + Wait + Copy + Send + 'static,
{
    let start = Instant::now(&rt)?;
    let played = by_workers(rt, alloc, plan)?;
    tell_speed(rt, way, "workers", start.elapsed(&rt)?, played)?;
    let start = Instant::now(&rt)?;
    let played = by_one_thread(alloc, plan)?;
    tell_speed(rt, way, "one thread", start.elapsed(&rt)?, played)
}

/// Prints how fast a plan was played, and who did so.
fn tell_speed<R: Print + Copy>(
    rt: R,
    way: &Way,
    who: &str,
    time: Duration,
    played: Played,
) -> Result<(), CrewFault> {
    let (each, a_second) = speed(time, played)?;
    println!(rt; "{}, {who}: {each} {a_second}", way.name)?;
    Ok(())
}

/// Prints how many milliseconds a run takes whose jobs take one each, one after another.
pub(crate) fn time_slow<R>(rt: R, alloc: Global, jobs: u32) -> Result<(), CrewFault>
where
    R: Print + Clock + Threads + Wait + Copy + Send + 'static,
{
    let plan = Plan::of(alloc, jobs, &BY_ONE)?;
    let start = Instant::now(&rt)?;
    let played = by_slow_workers(rt, alloc, &plan)?;
    tell_slow(rt, jobs, start.elapsed(&rt)?, played)
}

/// Prints how long slow jobs took.
fn tell_slow<R: Print + Copy>(
    rt: R,
    jobs: u32,
    time: Duration,
    played: Played,
) -> Result<(), CrewFault> {
    if !played.is_whole(jobs) {
        return Err(CrewFault::Lost);
    }
    println!(rt; "{jobs} jobs of 1 ms: {} ms", time.as_millis())?;
    Ok(())
}

/// The nanoseconds of a job, and the jobs of a second, where nothing is missing.
fn speed(time: Duration, played: Played) -> Result<(u64, u64), CrewFault> {
    if !played.is_whole(MANY) {
        return Err(CrewFault::Lost);
    }
    let nanos = u64::try_from(time.as_nanos()).unwrap_or(u64::MAX);
    let each = (nanos / u64::from(MANY)).max(1);
    Ok((each, 1_000_000_000 / each))
}
