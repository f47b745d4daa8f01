//! Each accepted job is done once, and a run that was refused has ended its threads: no contract sees a thread.

use super::hand::Hands;
use super::rows::{LAMP_ON, PLAIN, QUEUED_MESSAGE};
use super::{Act, Row, play, setup_of, steps_of};
use rdm_bus::Action;
use rdm_crew::RunError;
use std::alloc::Global;
use std::sync::atomic::{AtomicU32, Ordering};
use std::sync::{Arc, Wait};
use std::test::Fail;
use std::thread::Threads;

const SELFTEST: Act = Act::Ask(Action::Set, 0x1020, &[1]);

/// A command that is refused.
const RESERVED: Act = Act::Ask(Action::Get, QUEUED_MESSAGE, &[]);

/// Runs, how each is refused, and how many jobs were accepted before.
const REFUSED: &[(Row, Option<RunError>, u32)] = &[
    // Every job is done once, also where it failed.
    (
        Row {
            acts: &[LAMP_ON, SELFTEST, LAMP_ON, Act::Settle(u32::MAX)],
            ..PLAIN
        },
        None,
        3,
    ),
    // Jobs are outstanding in both lanes when a step is refused.
    (
        Row {
            acts: &[LAMP_ON, SELFTEST, RESERVED],
            ..PLAIN
        },
        Some(RunError::Reserved),
        2,
    ),
    // .. and when a settle gives up.
    (
        Row {
            acts: &[LAMP_ON, SELFTEST, Act::Settle(0)],
            ..PLAIN
        },
        Some(RunError::Unsettled),
        2,
    ),
    // As many reports as there is room for, which nobody draws.
    (
        Row {
            queue_size: 1,
            acts: &[LAMP_ON, LAMP_ON, RESERVED],
            ..PLAIN
        },
        Some(RunError::Reserved),
        1,
    ),
    (
        Row {
            queue_size: 3,
            acts: &[LAMP_ON, SELFTEST, LAMP_ON, SELFTEST, RESERVED],
            ..PLAIN
        },
        Some(RunError::Reserved),
        3,
    ),
    (
        Row {
            queue_size: 8,
            acts: &[
                LAMP_ON, LAMP_ON, LAMP_ON, LAMP_ON, LAMP_ON, LAMP_ON, LAMP_ON, LAMP_ON, LAMP_ON,
                RESERVED,
            ],
            ..PLAIN
        },
        Some(RunError::Reserved),
        8,
    ),
];

#[test]
fn jobs_are_done_once_and_threads_are_joined(rt: HostRuntime) -> Result<(), Fail> {
    for (row, refusal, jobs) in REFUSED {
        let (ended, count, owners) = end_of(rt, rt.alloc(), row)?;
        // Both parts are gone: the test alone has the count.
        assert!(rt; (ended, count, owners) == (*refusal, *jobs, 1), "{jobs}");
    }
    Ok(())
}

/// How a run is refused, if it is, how many jobs its parts have done, and how many have the count of them.
fn end_of<R>(rt: R, alloc: Global, row: &Row) -> Result<(Option<RunError>, u32, usize), Fail>
where
    R: Threads + Wait + Copy + Send + 'static,
{
    let count: Arc<AtomicU32, Global> = Arc::new(alloc, AtomicU32::new(0))?;
    let ended = refusal_of(rt, alloc, row, &count)?;
    Ok((
        ended,
        count.load(Ordering::SeqCst),
        Arc::strong_count(&count),
    ))
}

/// How a run is refused, if it is. Both parts count their jobs.
fn refusal_of<R>(
    rt: R,
    alloc: Global,
    row: &Row,
    count: &Arc<AtomicU32, Global>,
) -> Result<Option<RunError>, Fail>
where
    R: Threads + Wait + Copy + Send + 'static,
{
    let steps = steps_of(alloc, row.acts)?;
    let hands = Hands::counting(count)?;
    Ok(play(rt, alloc, setup_of(row), &steps, hands, 1).err())
}
