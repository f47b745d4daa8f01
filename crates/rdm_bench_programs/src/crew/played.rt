//! What there is after a plan was played.

use super::fault::CrewFault;
use super::one_thread::play;
use super::part::{Nobody, Quick, Slow};
use super::plan::Plan;
use super::setup::setup;
use rdm_crew::{Trace, run};
use std::alloc::Global;
use std::fmt;
use std::fmt::{Display, Formatter, Write};
use std::sync::Wait;
use std::thread::Threads;
use std::time::Clock;

/// How many events there were, and how many messages were collected.
#[derive(Clone, Copy)]
pub(crate) struct Played {
    events: usize,
    messages: usize,
}

impl Played {
    /// What a trace shows.
    fn of(trace: &Trace) -> Played {
        Played {
            events: trace.events().len(),
            messages: trace.recorded().len(),
        }
    }

    /// Whether, after so many commands, each command, each report and each poll is an event, and each message was
    /// collected.
    pub(crate) fn is_whole(self, jobs: u32) -> bool {
        let jobs = jobs as usize;
        self.events == 3 * jobs && self.messages == jobs
    }
}

impl Display for Played {
    fn fmt<W: Write>(&self, f: &mut Formatter<W>) -> fmt::Result {
        write!(f, "{} events, {} messages", self.events, self.messages)
    }
}

/// Plays a plan with two workers.
pub(crate) fn by_workers<R>(rt: R, alloc: Global, plan: &Plan) -> Result<Played, CrewFault>
where
    R: Threads + Wait + Copy + Send + 'static,
{
    let trace = run(rt, alloc, setup(), plan.steps(), Quick, Quick, Nobody)?;
    Ok(Played::of(&trace))
}

/// Plays a plan with two workers that take a millisecond for each job.
pub(crate) fn by_slow_workers<R>(rt: R, alloc: Global, plan: &Plan) -> Result<Played, CrewFault>
where
    R: Clock + Threads + Wait + Copy + Send + 'static,
{
    let (first, second) = (Slow { rt }, Slow { rt });
    let trace = run(rt, alloc, setup(), plan.steps(), first, second, Nobody)?;
    Ok(Played::of(&trace))
}

/// Plays a plan on this thread alone.
pub(crate) fn by_one_thread(alloc: Global, plan: &Plan) -> Result<Played, CrewFault> {
    let system = play(alloc, plan.steps()).ok_or(CrewFault::Refused)?;
    Ok(Played {
        events: system.trace().len(),
        messages: system.recorded().len(),
    })
}
