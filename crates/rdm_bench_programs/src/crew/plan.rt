//! The steps of a run.

ghost use Rattle.std.specs.Prelude.{◌≢◌, Some};
ghost use Rattle.rdm_frame.specs.Faults.{raise_of};
ghost use Rattle.rdm_crew.specs.RunTrace.{HaveFaults, fault_at};

use super::setup::DEVICE;
use rdm_bus::{Action, Command, Fault};
use rdm_crew::CrewStep;
use rdm_frame::Load;
use rdm_frame::standard::ROOT_DEVICE;
use rdm_params::Kind;
use std::alloc::{AllocError, Global};
use std::marker::Model;

/// A way to play slow commands.
#[derive(Clone, Copy)]
pub(crate) struct Way {
    /// What it is called.
    pub(crate) name: &'static str,
    /// How many commands are sent before their reports are waited for.
    batch: u32,
    /// The parameter of every other command, and that of those between.
    kinds: [Kind; 2],
}

/// Each command is waited for.
pub(crate) const BY_ONE: Way = Way {
    name: "by one, first worker",
    batch: 1,
    kinds: [Kind::LampState; 2],
};

/// Three ways.
pub(crate) const WAYS: &[Way] = &[
    BY_ONE,
    Way {
        name: "by eight, first worker",
        batch: 8,
        kinds: [Kind::LampState; 2],
    },
    Way {
        name: "by eight, both workers",
        batch: 8,
        // The first worker has the jobs of the one, and the second those of the other.
        kinds: [Kind::LampState, Kind::PerformSelfTest],
    },
];

/// The steps of a run.
#[derive(Drop)]
pub(crate) struct Plan {
    steps: Vec<CrewStep>,
}

impl Model for Plan {
    ghost use Rattle.std.specs.Prelude.{List};
    ghost use Rattle.rdm_crew.specs.RunTrace.{HaveFaults};
    ghost use Rattle.rdm_crew.specs.declared.step.CrewStep.{CrewStep as TheStep};

    ghost Value = { List TheStep };

    ghost view = { λ plan. plan.steps.items };

    // No step raises a slot by 0.
    ghost invariant = { λ plan. HaveFaults plan.steps.items };
}

impl Plan {
    /// So many slow commands. After each batch its reports are waited for, and its messages collected.
    pub(crate) fn of(alloc: Global, jobs: u32, way: &Way) -> Result<Plan, AllocError> {
        let mut plan = Plan {
            steps: Vec::new(alloc),
        };
        for _ in 0..jobs.checked_div(way.batch).unwrap_or(0) {
            plan.add_batch(way.batch, way.kinds)?;
        }
        Ok(plan)
    }

    /// Adds the steps of one batch.
    fn add_batch(&mut self, batch: u32, kinds: [Kind; 2]) -> Result<(), AllocError> {
        for place in 0..batch {
            let kind = if place % 2 == 0 { kinds[0] } else { kinds[1] };
            self.add(CrewStep::Ask(set_of(kind), Fault::None))?;
        }
        self.add(CrewStep::Settle(u32::MAX))?;
        for _ in 0..batch {
            self.add(CrewStep::Collect(Fault::None))?;
        }
        Ok(())
    }

    /// Adds a step.
    fn add(&mut self, step: CrewStep) -> Result<(), AllocError>
        requires { raise_of (fault_at step) ≢ Some 0 }
    {
        self.steps.push(step)?;
        Ok(())
    }

    /// All steps, in order.
    pub(crate) fn steps(&self) -> &[CrewStep]
        ensures { HaveFaults result.now }
    {
        self.steps.as_slice()
    }
}

/// SET of a parameter to 1, at the root of the device.
fn set_of(kind: Kind) -> Command {
    let mut load = Load::new();
    load.append(&[1]);
    Command {
        dst: DEVICE,
        action: Action::Set,
        sub: ROOT_DEVICE,
        pid: kind.pid(),
        load,
    }
}
