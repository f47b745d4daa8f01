//! What no clause says: that runs come to an end, that both workers are at work at once, and that memory suffices.

ghost use Rattle.std.specs.Prelude.{IfOk, OnOk};
ghost use Rattle.rdm_crew.specs.RunTrace.{HaveFaults};

mod hand;
mod joining;
mod menu;
mod queues;
mod rows;

use hand::Hands;
use menu::Menu;
use rdm_bus::{Action, Command, Event, Fault, Want};
use rdm_crew::{CrewStep, RunError, Setup, Trace, run};
use rdm_frame::{Load, Uid};
use rdm_params::{Outcome, Profile, Workers, worker_at};
use rows::{DRAWN_AND_POLLED, REFUSALS, THREE_COMMANDS, THREE_REPORTS, TRACES};
use std::alloc::{AllocError, Global};
use std::process::Abort;
use std::sync::Wait;
use std::test::Fail;
use std::thread::Threads;

const DEVICE: Uid = Uid {
    maker: 0x7FF0,
    device: 1,
};

const CONTROLLER: Uid = Uid {
    maker: 0x7FF0,
    device: 2,
};

/// At which place of a frame its command class stands (E1.20 section 6.2).
const CLASS: usize = 20;

/// Steps of a run. Nothing goes wrong on the bus.
#[derive(Clone, Copy)]
enum Act {
    /// A command to the root of the device, with a PID and data.
    Ask(Action, u16, &'static [u8]),
    Collect,
    /// So many draws.
    Draw(u32),
    Settle(u32),
}

/// What a trace tells.
#[derive(Clone, Copy)]
struct Told {
    /// How many events there are.
    events: usize,
    /// What the first worker has reported, in order: the number of each job, and how it ended.
    first: &'static [(u32, Outcome)],
    /// What the second worker has reported.
    second: &'static [(u32, Outcome)],
    /// Of which class and PID the messages are that were collected, all of the root and without data.
    collected: &'static [(u8, u16)],
}

/// A run of a device of the demo fixture with so many sub-devices, and of a controller that wants advisories.
#[derive(Clone, Copy)]
struct Row {
    /// What it shows.
    name: &'static str,
    device: Uid,
    controller: Uid,
    subs: u16,
    /// Which worker carries out which slow command.
    workers: Workers,
    queue_size: u16,
    acts: &'static [Act],
    /// How often each part looks whether the other comes, where they wait for each other.
    gate: Option<u32>,
}

#[test]
fn runs_end_with_these_traces(rt: HostRuntime) -> Result<(), Fail> {
    for (row, told) in TRACES {
        ends_with(rt, rt.alloc(), row, *told)?;
    }
    Ok(())
}

/// A run ends with a trace that tells this.
fn ends_with<R>(rt: R, alloc: Global, row: &Row, told: Told) -> Result<(), Fail>
where
    R: Threads + Wait + Abort + Copy + Send + 'static,
{
    let trace = run_of(rt, alloc, row)??;
    tells(&rt, alloc, row, &trace, told)
}

#[test]
fn runs_end_with_these_refusals(rt: HostRuntime) -> Result<(), Fail> {
    for (row, refusal) in REFUSALS {
        let ended = run_of(rt, rt.alloc(), row)?;
        assert!(rt; ended.err() == Some(*refusal), "{}", row.name);
    }
    Ok(())
}

#[test]
fn a_thousand_runs_come_to_an_end(rt: HostRuntime) -> Result<(), Fail> {
    let row = THREE_COMMANDS;
    for _ in 0..1_000 {
        ends_with(rt, rt.alloc(), &row, THREE_REPORTS)?;
    }
    Ok(())
}

/// A draw takes a report that is there: in one of a thousand runs at least it is drawn before the poll, which fetches it.
#[test]
fn a_report_is_drawn_before_the_poll(rt: HostRuntime) -> Result<(), Fail> {
    for _ in 0..1_000 {
        if is_drawn_first(rt, rt.alloc())? {
            return Ok(());
        }
    }
    Err(Fail::new("each poll came before its report"))
}

/// Whether the report is there in one run.
fn is_drawn_first<R>(rt: R, alloc: Global) -> Result<bool, Fail>
where
    R: Threads + Wait + Copy + Send + 'static,
{
    let trace = run_of(rt, alloc, &DRAWN_AND_POLLED)??;
    Ok(was_fetched(&trace))
}

/// The run of a row. Nobody is at the fixture's menu.
fn run_of<R>(rt: R, alloc: Global, row: &Row) -> Result<Result<Trace, RunError>, Fail>
where
    R: Threads + Wait + Copy + Send + 'static,
{
    let steps = steps_of(alloc, row.acts)?;
    let hands = Hands::new(alloc, row.gate)?;
    Ok(play(rt, alloc, setup_of(row), &steps, hands, 0))
}

/// Plays steps with these parts, while so many changes are made at the fixture's menu.
fn play<R>(
    rt: R,
    alloc: Global,
    setup: Setup,
    steps: &[CrewStep],
    hands: Hands,
    changes: u32,
) -> Result<Trace, RunError>
where
    R: Threads + Wait + Copy + Send + 'static,
    requires { HaveFaults steps.now }
{
    let Hands { first, second } = hands;
    run(rt, alloc, setup, steps, first, second, Menu { changes })
}

/// The setup of a row.
fn setup_of(row: &Row) -> Setup {
    let mut profile = Profile::demo(row.subs);
    profile.workers = row.workers;
    Setup {
        device: row.device,
        controller: row.controller,
        want: Want::Advisory,
        profile,
        queue_size: row.queue_size,
    }
}

/// The steps of a run.
fn steps_of(alloc: Global, acts: &[Act]) -> Result<Vec<CrewStep>, Fail>
    ensures { IfOk result (λ steps. HaveFaults steps.items) }
{
    let mut steps = Vec::new(alloc);
    for act in acts {
        match *act {
            Act::Ask(action, pid, data) => {
                steps.push(CrewStep::Ask(command(action, pid, data)?, Fault::None))?;
            }
            Act::Collect => steps.push(CrewStep::Collect(Fault::None))?,
            Act::Draw(times) => draws(&mut steps, times)?,
            Act::Settle(empties) => steps.push(CrewStep::Settle(empties))?,
        }
    }
    Ok(steps)
}

/// Puts so many draws at the end.
fn draws(steps: &mut Vec<CrewStep>, times: u32) -> Result<(), AllocError>
    requires { HaveFaults steps.old.items }
    ensures { OnOk result (HaveFaults steps.new.items) }
{
    for _ in 0..times {
        steps.push(CrewStep::Draw)?;
    }
    Ok(())
}

/// A command to the root of the device, with these data.
fn command(action: Action, pid: u16, data: &[u8]) -> Result<Command, Fail> {
    Ok(Command {
        dst: DEVICE,
        action,
        sub: 0,
        pid,
        load: Load::from_slice(data).ok_or("at most 255 bytes")?,
    })
}

/// The trace of a row tells this.
fn tells(rt: &impl Abort, alloc: Global, row: &Row, trace: &Trace, told: Told) -> Result<(), Fail> {
    are_reported(rt, alloc, row, trace, 0, told.first)?;
    are_reported(rt, alloc, row, trace, 1, told.second)?;
    were_handed_over(rt, row, trace, told);
    are_collected(rt, trace, told.collected);
    Ok(())
}

/// A worker has reported this.
fn are_reported(
    rt: &impl Abort,
    alloc: Global,
    row: &Row,
    trace: &Trace,
    worker: u8,
    told: &[(u32, Outcome)],
) -> Result<(), AllocError> {
    let reports = arrived(alloc, trace, &row.workers, worker)?;
    assert!(rt; reports.as_slice() == told, "{}", row.name);
    Ok(())
}

/// The reports on a worker's jobs, in the order in which they arrived: the number of each job, and how it ended.
fn arrived(
    alloc: Global,
    trace: &Trace,
    workers: &Workers,
    worker: u8,
) -> Result<Vec<(u32, Outcome)>, AllocError> {
    let mut reports = Vec::new(alloc);
    for event in trace.events() {
        if let Event::Arrived { report, .. } = event {
            if worker_at(workers, &report.job.work) == worker {
                reports.push((report.job.number, report.outcome))?;
            }
        }
    }
    Ok(reports)
}

/// So many events there are, and over the report lane came these reports of each worker, and the mark with which it closed.
fn were_handed_over(rt: &impl Abort, row: &Row, trace: &Trace, told: Told) {
    let reports = trace.reports();
    let (first, second) = (reports.posted(0).len(), reports.posted(1).len());
    let counts = (trace.events().len(), first, second, reports.taken().len());
    let (first, second) = (told.first.len(), told.second.len());
    let expected = (told.events, first, second, first + second + 2);
    assert!(rt; counts == expected, "{}", row.name);
}

/// The messages of these classes and PIDs were collected, of the root and without data.
fn are_collected(rt: &impl Abort, trace: &Trace, collected: &[(u8, u16)]) {
    assert!(rt; trace.recorded().len() == collected.len());
    for (message, (class, pid)) in trace.recorded().iter().zip(collected) {
        let told = (
            message.class,
            message.pid,
            message.sub,
            message.body.as_slice().len(),
        );
        assert!(rt; told == (*class, *pid, 0, 0));
    }
}

/// Whether a poll fetched the response of a SET.
fn was_fetched(trace: &Trace) -> bool {
    for event in trace.events() {
        if let Event::Bus {
            poll: true,
            reply: Some(reply),
            ..
        } = event
        {
            return reply.as_slice().get(CLASS) == Some(&0x31);
        }
    }
    false
}
