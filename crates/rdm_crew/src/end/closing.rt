//! The end of a run: the workers and the watcher of the panel are joined, and their lanes settled.

ghost use Rattle.std.specs.Prelude.{◌≡◌, IfOk};
ghost use Rattle.rdm_bus.specs.BusLaws.{recorded};
ghost use Rattle.rdm_lane.specs.Ends.{IsOver};
ghost use Rattle.rdm_lane.specs.Lane.{LaneLaw};
ghost use Rattle.rdm_responder.specs.Runs.{outbox_of};
ghost use Rattle.rdm_outbox.specs.Jobs.{outstanding_count};
ghost use Rattle.rdm_crew.specs.Closes.{handed_by, IsHandedOver};
ghost use Rattle.rdm_crew.specs.Crews.{HasJobs, HasChanges};
ghost use Rattle.rdm_crew.specs.Desks.{chosen, IsDrawn, IsSuspect, stands_at};
ghost use Rattle.rdm_bus.specs.Happened.{changes_in};
ghost use Rattle.rdm_crew.specs.RunTrace.{IsAnswered, FitsFor};
ghost use Rattle.rdm_crew.specs.Settling.{AreLanes, IsLaneOfOne};
ghost use Rattle.rdm_crew.specs.Watchers.{AreOffered};
ghost use Rattle.rdm_crew.specs.Workers.{in_turn};

use crate::bus::desk::Desk;
use crate::bus::stop::Stop;
use crate::end::settling::{Rooms, settle, settle_one};
use crate::threads::joining::Started;
use crate::threads::watcher::{Watched, Watches};
use crate::threads::worker::{Worked, Works};
use crate::trace::Ended;
use crate::{Panel, Part};
use rdm_lane::{ClosedPost, Take};
use rdm_outbox::Job;
use rdm_params::{Change, started_work_is_its_command};
use std::alloc::AllocError;
use std::sync::Wait;
use std::thread::Threads;

/// What is left of a run when its job lanes are closed: the bus, and workers and a watcher that end. It can't be dropped, since
/// these must be joined.
pub(crate) struct Closing<P: Part, Q: Part, N: Panel> {
    pub(crate) desk: Desk,
    pub(crate) first: ClosedPost<Job>,
    pub(crate) second: ClosedPost<Job>,
    pub(crate) changes: Take<Change>,
    pub(crate) first_worker: Started<Worked, Works<P>>,
    pub(crate) second_worker: Started<Worked, Works<Q>>,
    pub(crate) watcher: Started<Watched, Watches<N>>,
    pub(crate) rooms: Rooms,
}

impl<P: Part, Q: Part, N: Panel> Closing<P, Q, N> {
    /// Ends a run whose reports were all drawn.
    pub(crate) fn finish<R: Threads + Wait>(self, rt: &R) -> Result<Ended, AllocError>
        requires drawn { IsDrawn self.desk × IsOver self.desk.reports }
        requires jobs { HasJobs self.desk self.first self.second }
        requires changes { HasChanges self.desk self.changes × IsLaneOfOne self.changes self.watcher.changes.value }
        requires lanes { AreLanes self.desk.reports self.first self.second
            self.first_worker.jobs.value self.first_worker.reports.value
            self.second_worker.jobs.value self.second_worker.reports.value }
        ensures events { IfOk result (λ ended. ended.system.trace ≡ self.desk.system.trace) }
        ensures recorded { IfOk result (λ ended. ended.system.collector.recorded ≡ recorded self.desk.system.trace) }
        ensures last { IfOk result (λ ended. outstanding_count (outbox_of (stands_at self.desk).history) ≡ 0) }
        ensures first { IfOk result (λ ended.
            IsAnswered (chosen self.desk) 0 (in_turn P.gives P.gives_after self.first_worker.part.value) self.desk.system.trace) }
        ensures second { IfOk result (λ ended.
            IsAnswered (chosen self.desk) 1 (in_turn Q.gives Q.gives_after self.second_worker.part.value) self.desk.system.trace) }
        ensures handed { IfOk result (λ ended. IsHandedOver (chosen self.desk) self.desk.system.trace (handed_by self.desk.reports.taken)) }
        ensures taken { IfOk result (λ ended. ended.reports.taken ≡ self.desk.reports.taken) }
        ensures lane { IfOk result (λ ended. LaneLaw 2 ended.reports.taken ended.reports.posted) }
        ensures changes { IfOk result (λ ended. AreOffered (N.offers self.watcher.panel.value) 0 (changes_in self.desk.system.trace)) }
    {
        let Closing {
            desk,
            first,
            second,
            changes,
            first_worker,
            second_worker,
            watcher,
            rooms,
        } = self;
        let Desk {
            setup: _setup,
            system,
            reports,
            waiter: _waiter,
        } = desk;
        let a = first_worker.join(rt);
        let b = second_worker.join(rt);
        let watched = watcher.join(rt);
        let first_refused = a.refused;
        let second_refused = b.refused;
        let watcher_refused = watched.refused;
        let reports = settle(rt, rooms.workers, first, second, reports, a, b);
        settle_one(rt, rooms.changes, changes, watched.changes);
        if first_refused || second_refused || watcher_refused {
            return Err(AllocError);
        }
        if system.responder().outstanding() > 0 {
            // Each worker has reported on all its jobs, and every report has arrived.
            unreachable!();
        }
        Ok(Ended { system, reports })
    }

    /// Ends a run whose steps, or whose drawing of reports, ended early.
    pub(crate) fn give_up<R: Threads + Wait>(self, rt: &R, stop: Stop)
        requires fits { FitsFor (chosen self.desk) 0 (P.gives self.first_worker.part.value)
            × FitsFor (chosen self.desk) 1 (Q.gives self.second_worker.part.value) }
        requires lanes { AreLanes self.desk.reports self.first self.second
            self.first_worker.jobs.value self.first_worker.reports.value
            self.second_worker.jobs.value self.second_worker.reports.value }
        requires suspect { stop ≡ Stop.Astray → IsSuspect self.desk × HasJobs self.desk self.first self.second }
    {
        if stop == Stop::Astray {
            self.look_into(rt);
        } else {
            self.leave(rt);
        }
    }

    /// Lets go the bus and all ends, and waits until all threads have ended.
    fn leave<R: Threads>(self, rt: &R) {
        let Closing {
            desk,
            first,
            second,
            changes,
            first_worker,
            second_worker,
            watcher,
            rooms,
        } = self;
        drop(desk);
        drop(first);
        drop(second);
        drop(changes);
        drop(rooms);
        first_worker.wait_out(rt);
        second_worker.wait_out(rt);
        watcher.wait_out(rt);
    }

    /// Ends a run in which a report seemed astray. The lists of all lanes tell that it wasn't, unless memory is refused before
    /// they are complete.
    fn look_into<R: Threads + Wait>(self, rt: &R)
        requires fits { FitsFor (chosen self.desk) 0 (P.gives self.first_worker.part.value)
            × FitsFor (chosen self.desk) 1 (Q.gives self.second_worker.part.value) }
        requires lanes { AreLanes self.desk.reports self.first self.second
            self.first_worker.jobs.value self.first_worker.reports.value
            self.second_worker.jobs.value self.second_worker.reports.value }
        requires suspect { IsSuspect self.desk × HasJobs self.desk self.first self.second }
    {
        let Closing {
            mut desk,
            first,
            second,
            changes,
            first_worker,
            second_worker,
            watcher,
            rooms,
        } = self;
        drop(changes);
        // A job that starts is a slow command.
        started_work_is_its_command();
        let drained = desk.drain(rt);
        let a = first_worker.join(rt);
        let b = second_worker.join(rt);
        watcher.wait_out(rt);
        let _ = settle(rt, rooms.workers, first, second, desk.reports, a, b);
        match drained {
            // The report is of the oldest outstanding job of its worker, so that it may arrive.
            Ok(()) => unreachable!(),
            Err(_) => {}
        }
    }
}
