//! What a run has before any of its threads is started.

ghost use Rattle.std.specs.Prelude.{◌≡◌, ◌↔◌, ◌⊎◌, [], true, IfOk, IfErr, OnOk, IsErrOf};
ghost use Rattle.rdm_bus.specs.Systems.{IsTrace};
ghost use Rattle.rdm_outbox.specs.Settings.{IsQueueSize};
ghost use Rattle.rdm_crew.specs.Stages.{IsReady};
ghost use Rattle.rdm_crew.specs.Setups.{switched_on, IsBadSetup};

use crate::bus::crew::Crew;
use crate::end::settling::Rooms;
use crate::threads::equipment::{WatcherKit, WorkerKit, equip};
use crate::{Setup, Stopped};
use rdm_bus::System;
use rdm_collector::Collector;
use rdm_frame::Uid;
use rdm_responder::{NewError, Responder};
use std::alloc::Global;
use std::snapshot::Snapshot;

/// All that a run is made of, while none of its threads is started.
#[derive(Drop)]
pub(crate) struct Ready {
    pub(crate) crew: Crew,
    pub(crate) first: WorkerKit,
    pub(crate) second: WorkerKit,
    pub(crate) watcher: WatcherKit,
    /// Room for the settling of the lanes.
    pub(crate) rooms: Rooms,
}

/// Makes all that a run of this setup is made of. The setup is tested first.
pub(crate) fn make_ready(alloc: Global, setup: Setup) -> Result<Ready, Stopped>
    ensures ready { IfOk result (λ ready. IsReady ready) }
    ensures setup { IfOk result (λ ready. ready.crew.desk.setup.value ≡ setup) }
    ensures bad_setup { IsErrOf result Stopped.BadSetup ↔ IsBadSetup setup }
    ensures err { IfErr result (λ e. (e ≡ Stopped.BadSetup) ⊎ (e ≡ Stopped.OutOfMemory)) }
{
    let began = Snapshot::of(&setup);
    let queue_size = setup.queue_size;
    let system = match system_of(alloc, setup) {
        Ok(system) => system,
        Err(refusal) => return Err(refusal),
    };
    match equip(alloc, queue_size) {
        Ok(kit) => Ok(Ready {
            crew: Crew::new(began, system, kit.bus),
            first: kit.first,
            second: kit.second,
            watcher: kit.watcher,
            rooms: kit.rooms,
        }),
        Err(_) => {
            drop(system);
            Err(Stopped::OutOfMemory)
        }
    }
}

/// The device and the controller of a setup on one bus.
fn system_of(alloc: Global, setup: Setup) -> Result<System, Stopped>
    ensures new { IfOk result (λ system. IsTrace (switched_on setup) [] system) }
    ensures size { OnOk result (IsQueueSize setup.queue_size) }
    ensures bad { IsErrOf result Stopped.BadSetup ↔ IsBadSetup setup }
    ensures err { IfErr result (λ e. (e ≡ Stopped.BadSetup) ⊎ (e ≡ Stopped.OutOfMemory)) }
{
    if setup.controller.is_broadcast() || is_same(setup.controller, setup.device) {
        return Err(Stopped::BadSetup);
    }
    match Responder::new(alloc, setup.device, setup.profile, setup.queue_size) {
        Ok(responder) => {
            let collector = Collector::new(alloc, setup.controller, setup.device, setup.want);
            Ok(System::new(alloc, responder, collector))
        }
        Err(NewError::OutOfMemory) => Err(Stopped::OutOfMemory),
        Err(NewError::BadProfile) => Err(Stopped::BadSetup),
        Err(NewError::BadSize) => Err(Stopped::BadSetup),
        Err(NewError::BadUid) => Err(Stopped::BadSetup),
    }
}

/// Whether two UIDs are one.
fn is_same(uid: Uid, other: Uid) -> bool
    ensures { (result ≡ true) ↔ (uid ≡ other) }
{
    uid == other
}
