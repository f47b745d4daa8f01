//! The run.

ghost use Rattle.std.specs.Prelude.{◌≡◌, ◌≢◌, ◌↔◌, ◌<◌, [], Some, List, length, IfOk, IfErr, IfSome, IsErrOf};
ghost use Rattle.rdm_bus.specs.BusLaws.{BusLaws, recorded};
ghost use Rattle.rdm_bus.specs.BusRun.{IsBusRun};
ghost use Rattle.rdm_lane.specs.Lane.{LaneLaw};
ghost use Rattle.rdm_crew.specs.Closes.{HeadlineOfRun};
ghost use Rattle.rdm_crew.specs.Crews.{IsTied, HasChanges};
ghost use Rattle.rdm_crew.specs.Desks.{chosen};
ghost use Rattle.rdm_crew.specs.Stages.{IsReady, IsEnded};
ghost use Rattle.rdm_crew.specs.RunTrace.{IsRunTrace, HaveFaults, HasSettle, FitsFor, first_refusal};
ghost use Rattle.rdm_crew.specs.Settling.{IsLaneOfOne, AreLanes};
ghost use Rattle.rdm_crew.specs.Setups.{switched_on, IsBadSetup};
ghost use Rattle.rdm_crew.specs.Stops.{IsStopAt, error_of, step_of};
ghost use Rattle.rdm_crew.specs.Workers.{in_turn};

use crate::bus::crew::Crew;
use crate::end::closing::Closing;
use crate::end::settling::Rooms;
use crate::ready::{Ready, make_ready};
use crate::threads::joining::{Started, wait_out_if_started};
use crate::threads::putting::close;
use crate::threads::watcher::{Watched, Watches, watch};
use crate::threads::worker::{Worked, Works, start};
use crate::trace::Ended;
use crate::{CrewStep, Panel, Part, RunError, Setup, Stopped, Trace};
use rdm_bus::{PlayError, Step, bus_recording_laws_hold, messages_are_kept};
use std::alloc::Global;
use std::sync::Wait;
use std::thread::Threads;

/// Plays the steps on a device that was just switched on, and on its controller, and gives what has happened. The jobs of
/// the first worker are done by `part0` and those of the second by `part1`, each on a thread of its own. On a third thread
/// `panel` offers what a person changes at the fixture's own menu: at most 1,024 changes, of which each `Panel` step plays
/// one. Those that no step has played when the run ends are given up.
///
/// A setup that no responder can have, or in which the controller's UID is a broadcast or the device's, is `BadSetup`; it is
/// tested first. `Reserved` and `TooLong` come at the first command that has the cause, `Unsettled` at a `Settle`, and
/// `OutOfMemory` if memory or a thread is refused. `Astray` and `Missing` never come. All threads have ended when it
/// returns, whatever it answers.
pub fn run<P, Q, N, R>(
    rt: R,
    alloc: Global,
    setup: Setup,
    steps: &[CrewStep],
    part0: P,
    part1: Q,
    panel: N,
) -> Result<Trace, RunError>
where
    P: Part + Send + 'static,
    Q: Part + Send + 'static,
    N: Panel + Send + 'static,
    R: Threads + Wait + Copy + Send + 'static,
    requires fits { FitsFor setup.profile.workers 0 (P.gives part0) × FitsFor setup.profile.workers 1 (Q.gives part1) }
    requires faults { HaveFaults steps.now }
    ensures trace { IfOk result (λ trace. IsRunTrace setup
        (in_turn P.gives P.gives_after part0) (in_turn Q.gives Q.gives_after part1) (N.offers panel) steps.now trace.events) }
    ensures recorded { IfOk result (λ trace. trace.recorded ≡ recorded trace.events) }
    ensures bus { IfOk result (λ trace. (bus : List Step) × IsBusRun (switched_on setup) bus trace.events) }
    ensures laws { IfOk result (λ trace. BusLaws (switched_on setup) trace.events) }
    ensures headline { IfOk result (λ trace. HeadlineOfRun setup steps.now trace.reports.taken trace.events trace.recorded) }
    ensures lane { IfOk result (λ trace. LaneLaw 2 trace.reports.taken trace.reports.posted) }
    ensures bad_setup { IsErrOf result RunError.BadSetup ↔ IsBadSetup setup }
    ensures reserved { IsErrOf result RunError.Reserved → first_refusal steps.now ≡ Some PlayError.Reserved }
    ensures too_long { IsErrOf result RunError.TooLong → first_refusal steps.now ≡ Some PlayError.TooLong }
    ensures unsettled { IsErrOf result RunError.Unsettled → HasSettle steps.now }
    ensures never { IfErr result (λ e. (e ≢ RunError.Astray) × (e ≢ RunError.Missing)) }
{
    match run_steps(rt, alloc, setup, steps, part0, part1, panel) {
        Ok(trace) => Ok(trace),
        Err(stopped) => Err(stopped.error()),
    }
}

/// Plays the steps as `run` does, and if they end early, says at which of them. The step of a `Reserved` or `TooLong` is the
/// first whose command can't be sent, for this cause; that of an `Unsettled` is a `Settle`, and each command before it can be
/// sent. Out of memory and a bad setup have no step.
pub fn run_steps<P, Q, N, R>(
    rt: R,
    alloc: Global,
    setup: Setup,
    steps: &[CrewStep],
    part0: P,
    part1: Q,
    panel: N,
) -> Result<Trace, Stopped>
where
    P: Part + Send + 'static,
    Q: Part + Send + 'static,
    N: Panel + Send + 'static,
    R: Threads + Wait + Copy + Send + 'static,
    requires fits { FitsFor setup.profile.workers 0 (P.gives part0) × FitsFor setup.profile.workers 1 (Q.gives part1) }
    requires faults { HaveFaults steps.now }
    ensures trace { IfOk result (λ trace. IsRunTrace setup
        (in_turn P.gives P.gives_after part0) (in_turn Q.gives Q.gives_after part1) (N.offers panel) steps.now trace.events) }
    ensures recorded { IfOk result (λ trace. trace.recorded ≡ recorded trace.events) }
    ensures bus { IfOk result (λ trace. (bus : List Step) × IsBusRun (switched_on setup) bus trace.events) }
    ensures laws { IfOk result (λ trace. BusLaws (switched_on setup) trace.events) }
    ensures headline { IfOk result (λ trace. HeadlineOfRun setup steps.now trace.reports.taken trace.events trace.recorded) }
    ensures lane { IfOk result (λ trace. LaneLaw 2 trace.reports.taken trace.reports.posted) }
    ensures bad_setup { IsErrOf result Stopped.BadSetup ↔ IsBadSetup setup }
    ensures stop { IfErr result (λ stopped. IsStopAt steps.now stopped) }
    ensures within { IfErr result (λ stopped. IfSome (step_of stopped) (λ step. step < length steps.now)) }
    ensures reserved { IfErr result (λ stopped. error_of stopped ≡ RunError.Reserved → first_refusal steps.now ≡ Some PlayError.Reserved) }
    ensures too_long { IfErr result (λ stopped. error_of stopped ≡ RunError.TooLong → first_refusal steps.now ≡ Some PlayError.TooLong) }
    ensures unsettled { IfErr result (λ stopped. error_of stopped ≡ RunError.Unsettled → HasSettle steps.now) }
{
    // The trace is a run of the bus, and the laws, from which the headline follows, hold of every run.
    bus_recording_laws_hold();
    messages_are_kept();
    match play_new(rt, alloc, setup, steps, part0, part1, panel) {
        Ok(ended) => Ok(Trace::of(ended)),
        Err(stopped) => Err(stopped),
    }
}

/// Plays the steps as `run_steps` does, and gives what the run leaves.
fn play_new<P, Q, N, R>(
    rt: R,
    alloc: Global,
    setup: Setup,
    steps: &[CrewStep],
    part0: P,
    part1: Q,
    panel: N,
) -> Result<Ended, Stopped>
where
    P: Part + Send + 'static,
    Q: Part + Send + 'static,
    N: Panel + Send + 'static,
    R: Threads + Wait + Copy + Send + 'static,
    requires fits { FitsFor setup.profile.workers 0 (P.gives part0) × FitsFor setup.profile.workers 1 (Q.gives part1) }
    requires faults { HaveFaults steps.now }
    ensures ended { IfOk result (λ ended. IsEnded setup
        (in_turn P.gives P.gives_after part0) (in_turn Q.gives Q.gives_after part1) (N.offers panel) steps.now ended) }
    ensures bad_setup { IsErrOf result Stopped.BadSetup ↔ IsBadSetup setup }
    ensures stop { IfErr result (λ stopped. IsStopAt steps.now stopped) }
{
    match make_ready(alloc, setup) {
        Ok(ready) => play_ready(rt, ready, steps, part0, part1, panel),
        Err(refusal) => Err(refusal),
    }
}

/// Starts the threads of a run, each whether or not another was refused, and plays the steps if all are there.
fn play_ready<P, Q, N, R>(
    rt: R,
    ready: Ready,
    steps: &[CrewStep],
    part0: P,
    part1: Q,
    panel: N,
) -> Result<Ended, Stopped>
where
    P: Part + Send + 'static,
    Q: Part + Send + 'static,
    N: Panel + Send + 'static,
    R: Threads + Wait + Copy + Send + 'static,
    requires fits { FitsFor (chosen ready.crew.desk) 0 (P.gives part0) × FitsFor (chosen ready.crew.desk) 1 (Q.gives part1) }
    requires faults { HaveFaults steps.now }
    requires ready { IsReady ready }
    ensures ended { IfOk result (λ ended. IsEnded ready.crew.desk.setup.value
        (in_turn P.gives P.gives_after part0) (in_turn Q.gives Q.gives_after part1) (N.offers panel) steps.now ended) }
    ensures stop { IfErr result (λ stopped. IsStopAt steps.now stopped) }
    ensures set_up { IfErr result (λ stopped. stopped ≢ Stopped.BadSetup) }
{
    let Ready {
        crew,
        first,
        second,
        watcher,
        rooms,
    } = ready;
    let first_worker = start(rt, first, part0);
    let second_worker = start(rt, second, part1);
    let watcher = watch(rt, watcher, panel);
    match (first_worker, second_worker, watcher) {
        (Ok(first_worker), Ok(second_worker), Ok(watcher)) => play(
            &rt,
            crew,
            steps,
            first_worker,
            second_worker,
            watcher,
            rooms,
        ),
        (first_worker, second_worker, watcher) => {
            // A thread was refused. The watcher ends by itself: its lane has room for all changes and the mark.
            crew.call_off(&rt);
            wait_out_if_started(&rt, first_worker);
            wait_out_if_started(&rt, second_worker);
            wait_out_if_started(&rt, watcher);
            Err(Stopped::OutOfMemory)
        }
    }
}

/// Plays the steps with workers and a watcher that were just started, until these have ended.
fn play<P: Part, Q: Part, N: Panel, R: Threads + Wait>(
    rt: &R,
    crew: Crew,
    steps: &[CrewStep],
    first_worker: Started<Worked, Works<P>>,
    second_worker: Started<Worked, Works<Q>>,
    watcher: Started<Watched, Watches<N>>,
    rooms: Rooms,
) -> Result<Ended, Stopped>
    requires fits { FitsFor (chosen crew.desk) 0 (P.gives first_worker.part.value)
        × FitsFor (chosen crew.desk) 1 (Q.gives second_worker.part.value) }
    requires faults { HaveFaults steps.now }
    requires new { IsTied crew × (crew.desk.system.trace ≡ []) }
    requires changes { HasChanges crew.desk crew.changes × IsLaneOfOne crew.changes watcher.changes.value }
    requires lanes { AreLanes crew.desk.reports crew.first crew.second
        first_worker.jobs.value first_worker.reports.value
        second_worker.jobs.value second_worker.reports.value }
    ensures ended { IfOk result (λ ended. IsEnded crew.desk.setup.value
        (in_turn P.gives P.gives_after first_worker.part.value) (in_turn Q.gives Q.gives_after second_worker.part.value)
        (N.offers watcher.panel.value) steps.now ended) }
    ensures stop { IfErr result (λ stopped. IsStopAt steps.now stopped) }
    ensures set_up { IfErr result (λ stopped. stopped ≢ Stopped.BadSetup) }
{
    let mut crew = crew;
    let played = crew.play_all(rt, steps);
    let Crew {
        desk,
        first,
        first_bell,
        second,
        second_bell,
        changes,
    } = crew;
    let first = close(rt, first, &first_bell);
    let second = close(rt, second, &second_bell);
    let mut closing = Closing {
        desk,
        first,
        second,
        changes,
        first_worker,
        second_worker,
        watcher,
        rooms,
    };
    match played {
        Ok(()) => {}
        Err(at) => {
            closing.give_up(rt, at.why);
            return Err(at.told());
        }
    }
    match closing.desk.draw_all(rt) {
        Ok(()) => Ok(closing.finish(rt)?),
        Err(why) => {
            // Memory was refused, even if a report seemed astray. No step is the cause.
            closing.give_up(rt, why);
            Err(Stopped::OutOfMemory)
        }
    }
}
