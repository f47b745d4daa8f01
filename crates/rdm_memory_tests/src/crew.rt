//! Runs with two workers and a panel.

ghost use Rattle.std.specs.Prelude.{◌≡◌, true};
ghost use Rattle.rdm_params.specs.Jobs.Outcome.{ends};
ghost use Rattle.rdm_crew.specs.RunTrace.{HaveFaults};

use crate::bus::command;
use crate::fault::{ALWAYS, Fault, OTHER, check};
use crate::gate::Gate;
use crate::making::{CONTROLLER, DEVICE};
use crate::tally::{TRIES, Tally};
use rdm_bus::{Event, Fault as Goes, Want};
use rdm_crew::{CrewStep, Panel, Part, RunError, Setup, Trace, run};
use rdm_outbox::Job;
use rdm_params::{Change, Outcome, Profile, Verb, worker_of};
use std::alloc::{AllocError, Global};
use std::sync::atomic::{AtomicBool, Ordering};
use std::sync::{Arc, Wait};
use std::thread::Threads;

/// So many empty turns are enough for every report.
const PATIENCE: u32 = 100_000_000;

/// When the hands of a run do their jobs.
#[derive(Clone, Copy)]
enum Pace {
    /// Each at once.
    AtOnce,
    /// Where the other hand has come too.
    Together,
}

/// Does each job at once, or waits for the other hand at a gate, and says when it is gone: the thread that has it is then done
/// with it.
struct Hand {
    gate: Option<Gate>,
    gone: Arc<AtomicBool, Global>,
}

impl Drop for Hand {
    fn drop(self) {
        let Hand { gate, gone } = self;
        drop(gate);
        gone.store(true, Ordering::SeqCst);
    }
}

impl Part for Hand {
    ghost gives = { λ part job outcome. ends job.work.verb outcome ≡ true };

    ghost gives_after = { λ part before job outcome. ends job.work.verb outcome ≡ true };

    fn work(&mut self, job: &Job) -> Outcome {
        match (job.work.verb, &self.gate) {
            (Verb::Set, Some(gate)) => gate.waits(),
            (Verb::Set, None) => Outcome::Done,
            (Verb::Get, _) => Outcome::Reading(25),
        }
    }
}

/// Offers no change, and says when it is gone.
struct Nobody {
    gone: Arc<AtomicBool, Global>,
}

impl Drop for Nobody {
    fn drop(self) {
        let Nobody { gone } = self;
        gone.store(true, Ordering::SeqCst);
    }
}

impl Panel for Nobody {
    ghost offers = { λ panel number change. ⊥ };

    fn next(&mut self, _number: u32) -> Option<Change> {
        None
    }
}

/// Who takes part in a run, and by what each says that it is gone.
#[derive(Drop)]
struct Parties {
    first: Hand,
    second: Hand,
    panel: Nobody,
    gone: [Arc<AtomicBool, Global>; 3],
}

impl Parties {
    fn new(alloc: Global, pace: Pace) -> Result<Parties, AllocError> {
        let first = Flag::new(alloc)?;
        let second = Flag::new(alloc)?;
        let panel = Flag::new(alloc)?;
        let (front, back) = gates(alloc, pace)?;
        Ok(Parties {
            first: Hand {
                gate: front,
                gone: first.told,
            },
            second: Hand {
                gate: back,
                gone: second.told,
            },
            panel: Nobody { gone: panel.told },
            gone: [first.read, second.read, panel.read],
        })
    }
}

/// By what somebody says that it is gone, and by what that is read.
#[derive(Drop)]
struct Flag {
    told: Arc<AtomicBool, Global>,
    read: Arc<AtomicBool, Global>,
}

impl Flag {
    /// Of somebody who isn't gone.
    fn new(alloc: Global) -> Result<Flag, AllocError> {
        let told = Arc::new(alloc, AtomicBool::new(false))?;
        let read = Arc::try_clone(&told)?;
        Ok(Flag { told, read })
    }
}

/// The gates of both hands, where they wait for each other.
fn gates(alloc: Global, pace: Pace) -> Result<(Option<Gate>, Option<Gate>), AllocError> {
    match pace {
        Pace::AtOnce => Ok((None, None)),
        Pace::Together => {
            let (front, back) = Gate::pair(alloc)?;
            Ok((Some(front), Some(back)))
        }
    }
}

/// Those of a run, where memory was refused to them made again.
fn new_parties(alloc: Global, pace: Pace, tally: &mut Tally) -> Result<Parties, Fault> {
    for _ in 0..TRIES {
        match Parties::new(alloc, pace) {
            Ok(parties) => return Ok(parties),
            Err(_) => tally.refused_ready(),
        }
    }
    Err(ALWAYS)
}

/// Plays steps on a device that has just been switched on, again where memory is refused. Whatever a run answers, its threads
/// are then gone.
fn ended<T>(
    rt: T,
    alloc: Global,
    steps: &[CrewStep],
    pace: Pace,
    tally: &mut Tally,
) -> Result<Result<Trace, RunError>, Fault>
where
    T: Threads + Wait + Copy + Send + 'static,
    requires { HaveFaults steps.now }
{
    for _ in 0..TRIES {
        let Parties {
            first,
            second,
            panel,
            gone,
        } = new_parties(alloc, pace, tally)?;
        let answer = run(rt, alloc, setup(), steps, first, second, panel);
        check(are_gone(&gone), "a thread isn't joined")?;
        match answer {
            Err(RunError::OutOfMemory) => tally.refused(),
            other => return Ok(other),
        }
    }
    Err(ALWAYS)
}

/// Whether all say that they are gone.
fn are_gone(gone: &[Arc<AtomicBool, Global>]) -> bool {
    gone.iter().all(|flag| flag.load(Ordering::SeqCst))
}

/// A device with room for eight results.
fn setup() -> Setup {
    Setup {
        device: DEVICE,
        controller: CONTROLLER,
        want: Want::Advisory,
        profile: Profile::demo(0),
        queue_size: 8,
    }
}

/// A lamp is switched on, and its message and then a status are collected.
pub(crate) fn collects<T>(rt: T, alloc: Global) -> Result<Tally, Fault>
where
    T: Threads + Wait + Copy + Send + 'static,
{
    let mut tally = Tally::NONE;
    let trace = lamp_and_status(rt, alloc, &mut tally)?;
    has_collected(&trace).map(|()| tally)
}

/// The trace of a run that collects both.
fn lamp_and_status<T>(rt: T, alloc: Global, tally: &mut Tally) -> Result<Trace, Fault>
where
    T: Threads + Wait + Copy + Send + 'static,
{
    let steps = [
        CrewStep::Ask(command(0x0403, 1), Goes::None),
        CrewStep::Settle(PATIENCE),
        CrewStep::Collect(Goes::None),
        CrewStep::Collect(Goes::None),
    ];
    ended(rt, alloc, &steps, Pace::AtOnce, tally)?
        .ok()
        .ok_or(OTHER)
}

/// Both were collected, the message of the lamp first.
fn has_collected(trace: &Trace) -> Result<(), Fault> {
    check(trace.events().len() == 4, "other events")?;
    let [lamp, status] = trace.recorded() else {
        return Err(Fault::Wrong("other messages"));
    };
    check(
        (lamp.class, lamp.pid) == (0x31, 0x0403),
        "the lamp's message",
    )?;
    check((status.class, status.pid) == (0x21, 0x0030), "the status")
}

/// Each worker reports on each of its jobs, in order.
pub(crate) fn reports<T>(rt: T, alloc: Global) -> Result<Tally, Fault>
where
    T: Threads + Wait + Copy + Send + 'static,
{
    let mut tally = Tally::NONE;
    let trace = three_jobs(rt, alloc, &mut tally)?;
    has_arrived(&trace, 6, (2, Outcome::Done), (1, Outcome::Reading(25))).map(|()| tally)
}

/// The trace of a run with two jobs of worker 0 and one of worker 1.
fn three_jobs<T>(rt: T, alloc: Global, tally: &mut Tally) -> Result<Trace, Fault>
where
    T: Threads + Wait + Copy + Send + 'static,
{
    let steps = [
        CrewStep::Ask(command(0x0403, 1), Goes::None),
        CrewStep::Ask(command(0x0403, 0), Goes::None),
        CrewStep::Ask(command(0x0201, 0), Goes::None),
        CrewStep::Settle(PATIENCE),
    ];
    ended(rt, alloc, &steps, Pace::AtOnce, tally)?
        .ok()
        .ok_or(OTHER)
}

/// A trace has so many events, among them these reports of worker 0 and of worker 1.
fn has_arrived(
    trace: &Trace,
    events: usize,
    zero: (u32, Outcome),
    one: (u32, Outcome),
) -> Result<(), Fault> {
    check(trace.events().len() == events, "other events")?;
    check(arrived(trace, 0, zero.1) == Some(zero.0), "worker 0")?;
    check(arrived(trace, 1, one.1) == Some(one.0), "worker 1")
}

/// Both workers are at work at once: each waits for the other.
pub(crate) fn meets<T>(rt: T, alloc: Global) -> Result<Tally, Fault>
where
    T: Threads + Wait + Copy + Send + 'static,
{
    let mut tally = Tally::NONE;
    let trace = two_at_once(rt, alloc, &mut tally)?;
    has_arrived(&trace, 4, (1, Outcome::Done), (1, Outcome::Done)).map(|()| tally)
}

/// The trace of a run in which both workers meet.
fn two_at_once<T>(rt: T, alloc: Global, tally: &mut Tally) -> Result<Trace, Fault>
where
    T: Threads + Wait + Copy + Send + 'static,
{
    let steps = [
        CrewStep::Ask(command(0x0403, 1), Goes::None),
        CrewStep::Draw,
        CrewStep::Ask(command(0x1020, 1), Goes::None),
        CrewStep::Settle(u32::MAX),
    ];
    ended(rt, alloc, &steps, Pace::Together, tally)?
        .ok()
        .ok_or(OTHER)
}

/// How many reports of a worker arrived, where they are in order and each has this outcome.
fn arrived(trace: &Trace, worker: u8, outcome: Outcome) -> Option<u32> {
    let mut next = 0_u32;
    for event in trace.events() {
        if let Event::Arrived { report, .. } = event
            && worker_of(&report.job.work) == worker
        {
            if report.job.number != next || report.outcome != outcome {
                return None;
            }
            next = next.saturating_add(1);
        }
    }
    Some(next)
}

/// A run stops at a command for QUEUED_MESSAGE, with as many jobs outstanding as there is room for. Another may give up with a
/// job outstanding, or settle.
pub(crate) fn stops<T>(rt: T, alloc: Global) -> Result<Tally, Fault>
where
    T: Threads + Wait + Copy + Send + 'static,
{
    let mut tally = Tally::NONE;
    stops_at_poll(rt, alloc, &mut tally)?;
    settles_or_not(rt, alloc, &mut tally)?;
    Ok(tally)
}

fn stops_at_poll<T>(rt: T, alloc: Global, tally: &mut Tally) -> Result<(), Fault>
where
    T: Threads + Wait + Copy + Send + 'static,
{
    let steps = [
        CrewStep::Ask(command(0x0403, 1), Goes::None),
        CrewStep::Ask(command(0x0403, 0), Goes::None),
        CrewStep::Ask(command(0x0403, 1), Goes::None),
        CrewStep::Ask(command(0x0403, 0), Goes::None),
        CrewStep::Ask(command(0x0201, 0), Goes::None),
        CrewStep::Ask(command(0x0201, 0), Goes::None),
        CrewStep::Ask(command(0x0201, 0), Goes::None),
        CrewStep::Ask(command(0x0201, 0), Goes::None),
        CrewStep::Ask(command(0x0020, 2), Goes::None),
    ];
    let refusal = ended(rt, alloc, &steps, Pace::AtOnce, tally)?.err();
    check(
        refusal == Some(RunError::Reserved),
        "a command for QUEUED_MESSAGE",
    )
}

fn settles_or_not<T>(rt: T, alloc: Global, tally: &mut Tally) -> Result<(), Fault>
where
    T: Threads + Wait + Copy + Send + 'static,
{
    let steps = [
        CrewStep::Ask(command(0x0403, 1), Goes::None),
        CrewStep::Settle(0),
    ];
    let answer = ended(rt, alloc, &steps, Pace::AtOnce, tally)?;
    check(
        matches!(&answer, Ok(_) | Err(RunError::Unsettled)),
        "a settle",
    )
}
