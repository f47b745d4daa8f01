//! The longest queue.

ghost use Rattle.std.specs.Prelude.{IfOk};
ghost use Rattle.rdm_crew.specs.RunTrace.{HaveFaults};

use super::hand::Hands;
use super::menu::setup_with;
use super::{arrived, command, play};
use rdm_bus::{Action, Fault};
use rdm_crew::{CrewStep, RunError, Trace};
use rdm_params::{Outcome, Workers};
use std::alloc::Global;
use std::sync::Wait;
use std::test::Fail;
use std::thread::Threads;

const LAMP_STATE: u16 = 0x0403;

/// The most results of slow commands for which a device has room.
const LONGEST: u16 = 1_024;

/// So many empty turns are enough for every report.
const PATIENCE: u32 = 100_000_000;

/// As many slow commands as there is room for, none of which has ended for the device before the last, and then all reports.
fn steps_of(alloc: Global) -> Result<Vec<CrewStep>, Fail>
    ensures { IfOk result (λ steps. HaveFaults steps.items) }
{
    let mut steps = Vec::new(alloc);
    for _ in 0..LONGEST {
        steps.push(CrewStep::Ask(command(Action::Set, LAMP_STATE, &[1])?, Fault::None))?;
    }
    steps.push(CrewStep::Settle(PATIENCE))?;
    Ok(steps)
}

#[test]
fn a_thousand_jobs_are_outstanding(rt: HostRuntime) -> Result<(), Fail> {
    let trace = longest_run(rt, rt.alloc())??;
    let reports = arrived(rt.alloc(), &trace, &Workers::usual(), 0)?;
    let told = (trace.events().len(), reports.len(), reports.last());
    let last = Some(&(1_023, Outcome::Done));
    assert!(rt; told == (2_048, 1_024, last));
    Ok(())
}

/// The run of those steps. Nobody is at the fixture's menu.
fn longest_run<R>(rt: R, alloc: Global) -> Result<Result<Trace, RunError>, Fail>
where
    R: Threads + Wait + Copy + Send + 'static,
{
    let steps = steps_of(alloc)?;
    let hands = Hands::new(alloc, None)?;
    Ok(play(rt, alloc, setup_with(LONGEST), &steps, hands, 0))
}
