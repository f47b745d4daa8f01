//! What the bus thread plays steps with: the bus, and its ends of all lanes.

ghost use Rattle.std.specs.Prelude.{◌≡◌, ◌≢◌, ◌<◌, ◌++◌, ◌∷◌, [], List, Some, true, OnOk, IfOk, MatchResult, length};
ghost use Rattle.std.specs.Option.{option_to_list};
ghost use Rattle.rdm_frame.specs.Faults.{raise_of};
ghost use Rattle.rdm_outbox.specs.Jobs.{jobs_of, has_place};
ghost use Rattle.rdm_responder.specs.Runs.{outbox_of};
ghost use Rattle.rdm_lane.specs.Ends.{with_item, IsSameTake};
ghost use Rattle.rdm_lane.specs.Lane.{items_from};
ghost use Rattle.rdm_params.specs.Jobs.Work.{worker_at};
ghost use Rattle.rdm_bus.specs.BusRun.{fault_of};
ghost use Rattle.rdm_bus.specs.Steps.{step_of};
ghost use Rattle.rdm_bus.specs.Systems.{refusal_in};
ghost use Rattle.rdm_crew.specs.Crews.{IsTied, HasChanges, HasChanged, IsSameCrew, IsSent, HasSent, HasPlayed, HavePlayed, IsStopped, AreStopped, IsRefused};
ghost use Rattle.rdm_crew.specs.Desks.{chosen, IsDrawn, IsSameDesk, stands_at};
ghost use Rattle.rdm_crew.specs.RunTrace.{HaveFaults, fault_at, refusal_at};

use crate::Setup;
use crate::bus::desk::{Desk, Drawn};
use crate::bus::stop::{Stop, StopAt};
use crate::step::CrewStep;
use crate::threads::equipment::BusKit;
use crate::threads::putting::{close, put};
use crate::threads::waiting::{Bell, Waiter};
use rdm_bus::{PlayError, Step, StepRef, System};
use rdm_lane::{Post, Take, Taken};
use rdm_outbox::Job;
use rdm_params::{Change, started_work_is_its_command};
use rdm_responder::Started;
use std::alloc::AllocError;
use std::snapshot::Snapshot;
use std::sync::Wait;

/// The bus with its end of the report lane, the posts of both job lanes, and the end of the panel's lane.
#[derive(Drop)]
pub(crate) struct Crew {
    pub(crate) desk: Desk,
    /// The post of the first worker's job lane.
    pub(crate) first: Post<Job>,
    /// What wakes the first worker.
    pub(crate) first_bell: Bell,
    /// The post of the second worker's job lane.
    pub(crate) second: Post<Job>,
    /// What wakes the second worker.
    pub(crate) second_bell: Bell,
    /// The end that takes what the panel offers.
    pub(crate) changes: Take<Change>,
}

impl Crew {
    /// The bus thread's side of a run that has begun so, with what it has of the equipment.
    pub(crate) fn new(began: Snapshot<Setup>, system: System, kit: BusKit) -> Self
        ensures desk { (result.desk.setup ≡ began) × (result.desk.system ≡ system) × (result.desk.reports ≡ kit.reports) }
        ensures posts { (result.first ≡ kit.first) × (result.second ≡ kit.second) }
        ensures changes { result.changes ≡ kit.changes }
    {
        let BusKit {
            reports,
            waiter,
            first,
            first_bell,
            second,
            second_bell,
            changes,
        } = kit;
        let desk = Desk {
            setup: began,
            system,
            reports,
            waiter,
        };
        Crew {
            desk,
            first,
            first_bell,
            second,
            second_bell,
            changes,
        }
    }

    /// Closes the lanes of jobs, so that the workers end, and lets go the bus and all ends.
    pub(crate) fn call_off<R: Wait>(self, rt: &R) {
        let Crew {
            desk,
            first,
            first_bell,
            second,
            second_bell,
            changes,
        } = self;
        let _ = close(rt, first, &first_bell);
        let _ = close(rt, second, &second_bell);
        drop(desk);
        drop(changes);
    }

    /// Plays steps, one after another.
    pub(crate) fn play_all<R: Wait>(&mut self, rt: &R, steps: &[CrewStep]) -> Result<(), StopAt>
        requires tied { IsTied self.old }
        requires changes { HasChanges self.old.desk self.old.changes }
        requires faults { HaveFaults steps.now }
        ensures played { MatchResult result
            (λ _. IsTied self.new × HavePlayed steps.now self.old.desk self.new.desk)
            (λ at. AreStopped steps.now self.new at) }
        ensures changes { OnOk result (HasChanges self.new.desk self.new.changes) }
        ensures same { IsSameCrew self.old self.new }
    {
        for (index, step) in steps.iter().enumerate() {
            match self.play(rt, step) {
                Ok(()) => {}
                Err(why) => return Err(StopAt { why, step: index }),
            }
        }
        Ok(())
    }

    /// Plays a step.
    fn play<R: Wait>(&mut self, rt: &R, step: &CrewStep) -> Result<(), Stop>
        requires tied { IsTied self.old }
        requires changes { HasChanges self.old.desk self.old.changes }
        requires fault { raise_of (fault_at step.now) ≢ Some 0 }
        ensures played { MatchResult result
            (λ _. IsTied self.new × HasPlayed step.now self.old.desk self.new.desk)
            (λ stop. IsStopped step.now self.new stop) }
        ensures changes { OnOk result (HasChanges self.new.desk self.new.changes) }
        ensures never_refused { OnOk result (refusal_at step.now ≡ None) }
        ensures same { IsSameCrew self.old self.new }
    {
        match step {
            CrewStep::Ask(command, fault) => self.send(rt, &StepRef::Ask(command, *fault)),
            CrewStep::Collect(fault) => self.send(rt, &StepRef::Collect(*fault)),
            CrewStep::Draw => self.draw_one(rt),
            CrewStep::Settle(empties) => self.desk.settle(rt, *empties),
            CrewStep::Panel(empties) => self.draw_change(rt, *empties),
        }
    }

    /// Draws a report, if one is there.
    fn draw_one<R: Wait>(&mut self, rt: &R) -> Result<(), Stop>
        requires tied { IsTied self.old }
        ensures played { MatchResult result
            (λ _. IsTied self.new × HasPlayed CrewStep.Draw self.old.desk self.new.desk)
            (λ stop. IsStopped CrewStep.Draw self.new stop) }
        ensures changes { self.new.changes ≡ self.old.changes }
        ensures same { IsSameCrew self.old self.new }
    {
        match self.desk.draw(rt) {
            Ok(Drawn::Arrived) => Ok(()),
            Ok(Drawn::Empty) => Ok(()),
            // A worker closes its post before the steps end only if its memory was refused.
            Ok(Drawn::Mark) => Err(Stop::OutOfMemory),
            Ok(Drawn::Closed) => Err(Stop::OutOfMemory),
            Err(stop) => Err(stop),
        }
    }

    /// Plays the next change of the panel, if there is room for its message and a change is there.
    fn draw_change<R: Wait>(&mut self, rt: &R, empties: u32) -> Result<(), Stop>
        requires tied { IsTied self.old }
        requires changes { HasChanges self.old.desk self.old.changes }
        ensures played { MatchResult result
            (λ _. IsTied self.new × HasPlayed (CrewStep.Panel empties) self.old.desk self.new.desk)
            (λ stop. stop ≡ Stop.OutOfMemory) }
        ensures changes { OnOk result (HasChanges self.new.desk self.new.changes) }
        ensures same { IsSameCrew self.old self.new }
    {
        if !self.desk.system.responder().room() {
            return Ok(());
        }
        match next_change(rt, &mut self.changes, &self.desk.waiter, empties)? {
            Some(change) => self.change(change),
            None => Ok(()),
        }
    }

    /// Plays a change, for whose message there must be room.
    fn change(&mut self, change: Change) -> Result<(), Stop>
        requires tied { IsTied self.old }
        requires room { has_place (outbox_of (stands_at self.old.desk).history) ≡ true }
        ensures played { MatchResult result
            (λ _. IsTied self.new × HasChanged change self.old.desk self.new.desk)
            (λ stop. stop ≡ Stop.OutOfMemory) }
        ensures changes { self.new.changes ≡ self.old.changes }
        ensures same { IsSameCrew self.old self.new }
    {
        match self.desk.system.play(&Step::Change(change)) {
            Ok(()) => Ok(()),
            Err(PlayError::OutOfMemory) => Err(Stop::OutOfMemory),
            // There is room.
            Err(PlayError::NoRoom) => unreachable!(),
            // Commands and reports alone are refused so.
            Err(PlayError::Reserved) => unreachable!(),
            Err(PlayError::TooLong) => unreachable!(),
            Err(PlayError::Astray) => unreachable!(),
        }
    }

    /// Sends a command or a poll, and puts the job that starts into its worker's lane.
    fn send<R: Wait>(&mut self, rt: &R, step: &StepRef<'_>) -> Result<(), Stop>
        requires tied { IsTied self.old }
        requires sent { IsSent (step_of step.now) }
        requires fault { raise_of (fault_of (step_of step.now)) ≢ Some 0 }
        ensures played { MatchResult result
            (λ _. IsTied self.new × HasSent (step_of step.now) self.old.desk self.new.desk)
            (λ stop. IsRefused (step_of step.now) stop) }
        ensures never_refused { OnOk result (refusal_in (step_of step.now) ≡ None) }
        ensures changes { self.new.changes ≡ self.old.changes }
        ensures same { IsSameCrew self.old self.new }
    {
        // Its number is below the limit of the posts.
        started_work_is_its_command();
        match self.desk.system.play_started(step)? {
            Some(started) => self.hand_out(rt, started),
            None => Ok(()),
        }
    }

    /// Puts a job into its worker's lane.
    fn hand_out<R: Wait>(&mut self, rt: &R, started: Started) -> Result<(), Stop>
        requires choice { started.worker ≡ worker_at (chosen self.old.desk) started.job.work }
        requires two { started.worker < 2 }
        requires first { worker_at (chosen self.old.desk) started.job.work ≡ 0 → length self.old.first.items < self.old.first.limit }
        requires second { worker_at (chosen self.old.desk) started.job.work ≡ 1 → length self.old.second.items < self.old.second.limit }
        ensures put { MatchResult result
            (λ _. (self.new.first.items ≡ self.old.first.items ++ jobs_of (chosen self.old.desk) 0 (started.job ∷ []))
            × (self.new.second.items ≡ self.old.second.items ++ jobs_of (chosen self.old.desk) 1 (started.job ∷ [])))
            (λ stop. stop ≡ Stop.OutOfMemory) }
        ensures desk { self.new.desk ≡ self.old.desk }
        ensures changes { self.new.changes ≡ self.old.changes }
        ensures same { IsSameCrew self.old self.new }
    {
        if started.worker == 0 {
            put(rt, &mut self.first, started.job, &self.first_bell)?;
            return Ok(());
        }
        put(rt, &mut self.second, started.job, &self.second_bell)?;
        Ok(())
    }
}

/// Takes the next change of the panel, if one comes. It may find none `empties` times; the next time there is none. It waits as
/// a settle does.
fn next_change<R: Wait>(
    rt: &R,
    changes: &mut Take<Change>,
    waiter: &Waiter,
    empties: u32,
) -> Result<Option<Change>, AllocError>
    requires { changes.old.posts ≡ 1 }
    ensures taken { IfOk result (λ next. items_from 0 changes.new.taken ≡ items_from 0 changes.old.taken ++ option_to_list next) }
    ensures same { IsSameTake changes.old changes.new }
{
    let mut left = empties;
    let mut looks = 0;
    for _ in rt.forever() {
        match changes.take(rt) {
            Ok(Taken::Item { item: change, .. }) => return Ok(Some(change)),
            // No change follows the mark: the next answer is `Closed`.
            Ok(Taken::Mark { .. }) => {}
            Ok(Taken::Empty) => {
                if left == 0 {
                    return Ok(None);
                }
                left -= 1;
                looks = waiter.wait_a_while(rt, looks);
            }
            Ok(Taken::Closed) => return Ok(None),
            Err(_) => return Err(AllocError),
        }
    }
    unreachable!()
}
