//! What a person changes at the fixture's own menu while a run goes on.

ghost use Rattle.std.specs.Prelude.{◌≡◌, ◌+◌, ◌%◌, IfOk};
ghost use Rattle.rdm_commands.specs.declared.panel.Change.TheVariants.{Start};
ghost use Rattle.rdm_crew.specs.RunTrace.{HaveFaults};

use super::hand::Hands;
use super::{CONTROLLER, DEVICE, play};
use rdm_bus::{Event, Fault, Want};
use rdm_crew::{CrewStep, Panel, RunError, Setup, Trace};
use rdm_params::{Change, Profile};
use std::alloc::{AllocError, Global};
use std::process::Abort;
use std::sync::Wait;
use std::test::Fail;
use std::thread::Threads;

/// So many empty turns are enough for every change.
const PATIENCE: u32 = 100_000_000;

/// So many changes of the start address, one after another.
#[derive(Drop)]
pub(super) struct Menu {
    pub(super) changes: u32,
}

impl Panel for Menu {
    ghost offers = { λ menu number change. change ≡ Start (1 + number % 512) };

    fn next(&mut self, number: u32) -> Option<Change> {
        if number < self.changes {
            Some(change_of(number))
        } else {
            None
        }
    }
}

/// The change of this number.
fn change_of(number: u32) -> Change
    ensures { result ≡ Start (1 + number % 512) }
{
    Change::Start(1 + (number % 512) as u16)
}

/// A run in which so many changes are offered: the room in the queue, how often one is played and then polled for, how often one
/// is played alone, and how many happen.
type Row = (u32, u16, u32, u32, u32);

const ROWS: &[Row] = &[
    // Nobody changes anything.
    (0, 8, 0, 2, 0),
    // As many changes as may be offered, and one more, at which the panel's lane is closed.
    (1_024, 8, 1_024, 0, 1_024),
    (1_025, 8, 1_025, 0, 1_024),
    // With no room a change waits.
    (3, 1, 0, 3, 1),
    (3, 2, 1, 3, 3),
    // No step plays a change: all are given up.
    (1_024, 8, 0, 0, 0),
];

#[test]
fn changes_happen_in_order(rt: HostRuntime) -> Result<(), Fail> {
    for row in ROWS {
        let (changes, _, polled, _, happen) = *row;
        let told = counts_of(rt, rt.alloc(), *row)?;
        let events = happen.saturating_add(polled) as usize;
        assert!(rt; told == (happen, events), "{changes}");
    }
    Ok(())
}

/// How many changes happen in the run of a row, and how many events there are.
fn counts_of<R>(rt: R, alloc: Global, row: Row) -> Result<(u32, usize), Fail>
where
    R: Threads + Wait + Abort + Copy + Send + 'static,
{
    let trace = run_of(rt, alloc, row)??;
    Ok((happened(&rt, &trace), trace.events().len()))
}

/// The run of a row.
fn run_of<R>(rt: R, alloc: Global, row: Row) -> Result<Result<Trace, RunError>, Fail>
where
    R: Threads + Wait + Copy + Send + 'static,
{
    let (changes, queue_size, polled, alone, _) = row;
    let steps = steps_of(alloc, polled, alone)?;
    let hands = Hands::new(alloc, None)?;
    Ok(play(rt, alloc, setup_with(queue_size), &steps, hands, changes))
}

/// A device of the demo fixture with so much room.
pub(super) fn setup_with(queue_size: u16) -> Setup {
    Setup {
        device: DEVICE,
        controller: CONTROLLER,
        want: Want::Advisory,
        profile: Profile::demo(0),
        queue_size,
    }
}

/// So many changes that are polled for, and so many alone.
fn steps_of(alloc: Global, polled: u32, alone: u32) -> Result<Vec<CrewStep>, AllocError>
    ensures { IfOk result (λ steps. HaveFaults steps.items) }
{
    let mut steps = Vec::new(alloc);
    for _ in 0..polled {
        steps.push(CrewStep::Panel(PATIENCE))?;
        steps.push(CrewStep::Collect(Fault::None))?;
    }
    for _ in 0..alone {
        steps.push(CrewStep::Panel(PATIENCE))?;
    }
    Ok(steps)
}

/// How many changes have happened: those of the numbers 0, 1, 2 and so on, each with its message.
fn happened(rt: &impl Abort, trace: &Trace) -> u32 {
    let mut number = 0_u32;
    for event in trace.events() {
        if let Event::Changed { change, message } = event {
            assert!(rt; (*change, message.is_some()) == (change_of(number), true));
            number = number.saturating_add(1);
        }
    }
    number
}
