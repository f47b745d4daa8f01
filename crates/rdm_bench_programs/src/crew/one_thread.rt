//! The same steps, where the thread that plays them does the jobs too.

use super::part::outcome_of;
use super::setup::{CONTROLLER, DEVICE, QUEUE_SIZE};
use rdm_bus::{Collector, Command, Event, Fault, Step, System, Want};
use rdm_crew::CrewStep;
use rdm_outbox::Job;
use rdm_params::Profile;
use rdm_responder::{Report, Responder};
use std::alloc::Global;

/// What is there after the steps: each `Settle` reports on the jobs that started since the one before it. None where memory
/// is refused.
pub(crate) fn play(alloc: Global, steps: &[CrewStep]) -> Option<System> {
    let responder = Responder::new(alloc, DEVICE, Profile::demo(0), QUEUE_SIZE).ok()?;
    let collector = Collector::new(alloc, CONTROLLER, DEVICE, Want::Advisory);
    let mut system = System::new(alloc, responder, collector);
    let mut jobs = Vec::new(alloc);
    for step in steps {
        play_step(&mut system, &mut jobs, step)?;
    }
    Some(system)
}

/// Plays one step, where these jobs have started since the last `Settle`.
fn play_step(system: &mut System, jobs: &mut Vec<Job>, step: &CrewStep) -> Option<()> {
    match step {
        CrewStep::Ask(command, _) => {
            let job = ask(system, command)?;
            jobs.push(job).ok()
        }
        CrewStep::Collect(_) => system.play(&Step::Collect(Fault::None)).ok(),
        // Nobody draws or stands at the panel.
        CrewStep::Draw | CrewStep::Panel(_) => Some(()),
        CrewStep::Settle(_) => {
            report(system, jobs.as_slice())?;
            jobs.clear();
            Some(())
        }
    }
}

/// Sends a slow command. Gives the job that it starts.
fn ask(system: &mut System, command: &Command) -> Option<Job> {
    let again = Command {
        dst: command.dst,
        action: command.action,
        sub: command.sub,
        pid: command.pid,
        load: command.load.copy(),
    };
    system.play(&Step::Ask(again, Fault::None)).ok()?;
    match system.trace().last() {
        Some(Event::Bus { job, .. }) => *job,
        _ => None,
    }
}

/// Does jobs, and reports on each.
fn report(system: &mut System, jobs: &[Job]) -> Option<()> {
    for job in jobs {
        let outcome = outcome_of(job);
        system
            .play(&Step::Arrive(Report { job: *job, outcome }))
            .ok()?;
    }
    Some(())
}
