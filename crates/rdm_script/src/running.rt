//! A run: the steps of a script are played on a device that has just been switched on.

ghost use Rattle.std.specs.Prelude.{◌≡◌, ◌↔◌, IfOk, IfErr, OnOk, IsErrOf};
ghost use Rattle.rdm_bus.specs.BusLaws.{BusLaws, recorded};
ghost use Rattle.rdm_crew.specs.RunTrace.{HaveFaults, FitsFor};
ghost use Rattle.rdm_crew.specs.Setups.{switched_on};
ghost use Rattle.rdm_crew.specs.Stops.{IsStopAt, error_of};
ghost use Rattle.rdm_script.specs.Running.{crew_setup, IsBad, IsGood, IsScriptRun, Stops};
ghost use Rattle.rdm_crew.specs.Workers.{in_turn};
ghost use Rattle.rdm_script.specs.Scene.{scene_of};

use crate::parties::CONTROLLER;
use crate::script::ScriptSetup;
use crate::stage::Stage;
use rdm_crew::{CrewStep, Panel, Part, Stopped, Trace};
use rdm_frame::Uid;
use rdm_params::Profile;
use std::alloc::Global;
use std::sync::Wait;
use std::thread::Threads;

/// Plays the steps on a device that has just been switched on, and gives what has happened, or at which step they stop.
///
/// A setup of which there can be no device is refused first.
pub(crate) fn play_steps<T, P, Q, N>(
    rt: T,
    alloc: Global,
    setup: ScriptSetup,
    steps: &[CrewStep],
    stage: Stage<P, Q, N>,
) -> Result<Trace, Stopped>
where
    T: Threads + Wait + Copy + Send + 'static,
    P: Part + Send + 'static,
    Q: Part + Send + 'static,
    N: Panel + Send + 'static,
    requires fits { FitsFor stage.profile.workers 0 (P.gives stage.first) × FitsFor stage.profile.workers 1 (Q.gives stage.second) }
    requires faults { HaveFaults steps.now }
    // What happened is a run of these steps, and both laws of a collector hold of it.
    ensures trace { IfOk result (λ trace. IsScriptRun
        (scene_of (in_turn P.gives P.gives_after) (in_turn Q.gives Q.gives_after) N.offers stage) setup steps.now trace.events) }
    ensures recorded { IfOk result (λ trace. trace.recorded ≡ recorded trace.events) }
    ensures laws { IfOk result (λ trace. BusLaws (switched_on (crew_setup stage.device stage.profile setup)) trace.events) }
    ensures good { OnOk result (IsGood (scene_of (in_turn P.gives P.gives_after) (in_turn Q.gives Q.gives_after) N.offers stage) setup) }
    ensures bad_setup { IsErrOf result Stopped.BadSetup ↔ IsBad
        (scene_of (in_turn P.gives P.gives_after) (in_turn Q.gives Q.gives_after) N.offers stage) setup }
    ensures err { IfErr result (λ stopped. Stops
        (scene_of (in_turn P.gives P.gives_after) (in_turn Q.gives Q.gives_after) N.offers stage) (error_of stopped) setup steps.now) }
    ensures stop { IfErr result (λ stopped. IsStopAt steps.now stopped) }
{
    if stage.profile.subs < setup.subs {
        return Err(Stopped::BadSetup);
    }
    let crew_setup = crew_setup(stage.device, stage.profile, setup);
    rdm_crew::run_steps(
        rt,
        alloc,
        crew_setup,
        steps,
        stage.first,
        stage.second,
        stage.panel,
    )
}

/// The device and the controller of a script.
fn crew_setup(device: Uid, profile: Profile, setup: ScriptSetup) -> rdm_crew::Setup
    ensures { result ≡ crew_setup device profile setup }
{
    rdm_crew::Setup {
        device,
        controller: CONTROLLER,
        want: setup.want,
        profile: Profile {
            subs: setup.subs,
            ..profile
        },
        queue_size: setup.queue_size,
    }
}
