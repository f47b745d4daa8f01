//! The responder.

ghost use Rattle.std.specs.Prelude.{◌≡◌, ◌↔◌, ◌<◌, ◌≤◌, ◌≢◌, IsOk, IfOk, OnOk, OnErr, IfErr, IsErrOf, IfSome, IsSome, IsSomeAnd, Option, None, Some, true, slice_get, option_copied, length, nat_lt};
ghost use Rattle.std.specs.Bool.{OnFalse};
ghost use Rattle.rdm_outbox.specs.Account.{Account as OutboxAccount};
ghost use Rattle.rdm_outbox.specs.Jobs.{outstanding_count, outstanding_of, waiting_of};
ghost use Rattle.rdm_outbox.specs.Shows.{Shows as OutboxShows};
ghost use Rattle.rdm_outbox.specs.State.{jobs_at};
ghost use Rattle.rdm_outbox.specs.Statuses.{unshown};
ghost use Rattle.rdm_frame.specs.Reading.{frame_in};
ghost use Rattle.rdm_params.specs.Commands.Changed.{change_of};
ghost use Rattle.rdm_profile.specs.declared.profile.Profile.{Profile};
ghost use Rattle.rdm_added.specs.Parameters.{parameters_of};
ghost use Rattle.rdm_params.specs.Jobs.Outcome.{fits};
ghost use Rattle.rdm_params.specs.Jobs.Work.{worker_at};
ghost use Rattle.rdm_responder.specs.History.{History, Heard, Arrived, empty_history, then_event};
ghost use Rattle.rdm_responder.specs.Lawful.{IsLawful, MayArrive};
ghost use Rattle.rdm_responder.specs.Rules.{Account, account_of, after_outcome, answered, reply_of, job_of};
ghost use Rattle.rdm_responder.specs.Runs.{IsArrival, outbox_of};
ghost use Rattle.rdm_responder.specs.Settings.{HasBadProfile, HasBadSize, HasBadUid, setup_with, usual_settings};
ghost use Rattle.rdm_responder.specs.StandsFor.{Shows, StandsFor};
ghost use Rattle.rdm_responder.specs.Started.{job_in, working_at, IsAsInProfile, IsForItsWorker};

mod firmware;
mod hear;
mod panel;
mod saving;

use crate::report::{Arrival, Astray, Report};
use crate::responder::firmware::note_entry;
use crate::settings::{NewError, Settings};
use crate::stepped::{Started, Stepped};
use rdm_frame::{Body, Uid, Wire, decode_view};
use rdm_outbox::{Job, Outbox};
use rdm_params::{Devices, Entry, Message, Outcome, Profile, Work, fitting_worker};
use std::alloc::Global;
use std::marker::Model;

/// A responder: one device on the bus, from the moment that it is switched on.
#[derive(Debug, Drop)]
pub struct Responder {
    uid: Uid,
    devices: Devices,
    muted: bool,
    outbox: Outbox,
    // The data of the last reply. It has a place here so that none is made for each.
    body: Body,
}

impl Model for Responder {
    ghost use Rattle.std.specs.Prelude.{◌≡◌};
    ghost use Rattle.rdm_responder.specs.StandsFor.{State};

    ghost Value = { State };

    ghost view = { λ r. record { uid = r.uid; parameters = r.devices; muted = r.muted; outbox = r.outbox } };

    // The outbox has the profile's choice of workers.
    ghost invariant = { λ r. r.outbox.workers ≡ r.devices.profile.workers };
}

impl Responder {
    /// A responder with this UID, whose parameters have the initial values of the profile, with room for
    /// `queue_size` results of slow commands and for 1,024 status entries.
    ///
    /// A UID that addresses more than one device is rejected first, then a size that isn't 1 to 1,024, then a profile
    /// that breaks a rule or has too many sub-devices, and last comes out of memory.
    pub fn new(alloc: Global, uid: Uid, profile: Profile, queue_size: u16) -> Result<Self, NewError>
        ensures stands { IfOk result (λ r. StandsFor r (empty_history (setup_with (usual_settings uid queue_size) profile))) }
        ensures bad_uid { IsErrOf result NewError.BadUid ↔ HasBadUid (usual_settings uid queue_size) }
        ensures bad_size { IsErrOf result NewError.BadSize ↔ HasBadSize (usual_settings uid queue_size) }
        ensures bad_profile { IsErrOf result NewError.BadProfile ↔ HasBadProfile (usual_settings uid queue_size) profile }
    {
        let settings = Settings::usual(uid, queue_size);
        if let Some(refusal) = settings.refusal() {
            return Err(refusal);
        }
        // Here, since a call that turned the error into this one would hand on a copy of the devices.
        let devices = match Devices::new(alloc, profile) {
            Ok(devices) => devices,
            Err(rdm_params::NewError::OutOfMemory) => return Err(NewError::OutOfMemory),
            Err(rdm_params::NewError::TooManySubs | rdm_params::NewError::BadProfile) => {
                return Err(NewError::BadProfile);
            }
        };
        Responder::with_devices(alloc, &settings, devices)
    }

    /// A responder with these settings, whose parameters have the initial values of the profile. The profile has its place
    /// already, for a caller with little stack, since it has 4,688 bytes.
    ///
    /// The order of the refusals is that of `new`: a number of entries that isn't 1 to 1,024 is a bad size too, and no number of
    /// the first job is refused.
    pub fn with_settings(
        alloc: Global,
        settings: &Settings,
        profile: Box<Profile>,
    ) -> Result<Self, NewError>
        ensures stands { IfOk result (λ r. StandsFor r (empty_history (setup_with settings.now profile.value))) }
        ensures bad_uid { IsErrOf result NewError.BadUid ↔ HasBadUid settings.now }
        ensures bad_size { IsErrOf result NewError.BadSize ↔ HasBadSize settings.now }
        ensures bad_profile { IsErrOf result NewError.BadProfile ↔ HasBadProfile settings.now profile.value }
    {
        if let Some(refusal) = settings.refusal() {
            return Err(refusal);
        }
        let devices = match Devices::new_boxed(alloc, profile) {
            Ok(devices) => devices,
            Err(rdm_params::NewError::OutOfMemory) => return Err(NewError::OutOfMemory),
            Err(rdm_params::NewError::TooManySubs | rdm_params::NewError::BadProfile) => {
                return Err(NewError::BadProfile);
            }
        };
        Responder::with_devices(alloc, settings, devices)
    }

    /// A responder with these devices, to which nothing has happened, if there is memory for its lists.
    // Inlined, since a call would have a copy of the devices on the stack.
    #[inline(always)]
    fn with_devices(alloc: Global, settings: &Settings, devices: Devices) -> Result<Self, NewError>
        ensures stands { IfOk result (λ r. (profile : Profile) → devices ≡ parameters_of profile →
            StandsFor r (empty_history (setup_with settings.now profile))) }
        ensures err { IfErr result (λ e. e ≡ NewError.OutOfMemory) }
    {
        let workers = devices.workers();
        let kept = settings.outbox(workers);
        let Ok(outbox) = Outbox::with_settings(alloc, &kept) else {
            return Err(NewError::OutOfMemory);
        };
        Ok(Responder {
            uid: settings.uid,
            devices,
            muted: false,
            outbox,
            body: Body::new(),
        })
    }

    /// Its UID.
    pub fn uid(&self) -> Uid
        ensures { (h : History) → StandsFor self.now h → result ≡ h.setup.uid }
    {
        self.uid
    }

    /// Hears bytes, and gives the bytes of the reply, if there is one, and the job that they start, if they do.
    pub fn step(&mut self, bytes: &[u8]) -> (Option<Wire>, Option<Job>)
        ensures reply { (h : History) → StandsFor self.old h → result.0 ≡ reply_of h bytes.now }
        ensures job { (h : History) → StandsFor self.old h → result.1 ≡ job_of h bytes.now }
        ensures stands { (h : History) → StandsFor self.old h → StandsFor self.new (then_event h (Heard bytes.now)) }
    {
        let mut wire = Wire::new();
        let stepped = self.step_into(bytes, &mut wire);
        if stepped.replied {
            (Some(wire), stepped.job())
        } else {
            (None, stepped.job())
        }
    }

    /// Hears bytes as `step` does, and says whether there is a reply, which job started, with its worker and its estimate
    /// (E1.20 section 6.3.3), and what changed of the parameters: so firmware sees at once that the fixture is to identify
    /// itself (section 10.11), and a request that changes no value says nothing. The bytes of the reply stand in `wire`,
    /// which stays as it was if there is none. If one `wire` takes all replies, none is blanked or copied on its way.
    #[tactic(auto, using(crate::proofs::Sources::is_from))]
    pub fn step_into(&mut self, bytes: &[u8], wire: &mut Wire) -> Stepped
        ensures reply { (h : History) → StandsFor self.old h → answered result.replied wire.new ≡ reply_of h bytes.now }
        ensures silent { OnFalse result.replied (wire.new ≡ wire.old) }
        ensures job { (h : History) → StandsFor self.old h → job_in result.started ≡ job_of h bytes.now }
        ensures table { IfSome result.started (IsAsInProfile self.old.parameters.profile) }
        ensures worker { IfSome result.started (IsForItsWorker self.old.outbox.workers) }
        ensures stands { (h : History) → StandsFor self.old h → StandsFor self.new (then_event h (Heard bytes.now)) }
        ensures unchanged { (h : History) → StandsFor self.old h → ((result.changed ≡ None)
            ↔ ((account_of (then_event h (Heard bytes.now))).parameters ≡ (account_of h).parameters)) }
        ensures what { IfSome result.changed (λ c. IsSomeAnd (frame_in bytes.now) (λ f. c ≡ change_of f.sub f.pid)) }
    {
        match decode_view(bytes) {
            Ok(request) => self.answer(bytes, &request, wire),
            Err(_) => Stepped::silent(),
        }
    }

    /// Takes the report of a job: what it did is written into the parameters, and its message waits for the controller.
    ///
    /// It is `Astray`, and nothing changes, unless the report is of the oldest outstanding job of its worker, number and
    /// work alike, and its outcome fits that work.
    pub fn arrive(&mut self, report: Report) -> Result<Arrival, Astray>
        ensures lawful { (h : History) → IsLawful h → StandsFor self.old h →
            (IsOk result ↔ IsLawful (then_event h (Arrived report))) }
        ensures arrival { IfOk result (λ arrival. (h : History) → StandsFor self.old h → IsArrival h report arrival) }
        ensures stands { OnOk result ((h : History) → StandsFor self.old h → StandsFor self.new (then_event h (Arrived report))) }
        ensures astray { IfErr result (λ astray. (astray.report ≡ report)
            × ((h : History) → StandsFor self.old h → ¬ MayArrive (account_of h) report)) }
        ensures same { OnErr result (self.new ≡ self.old) }
    {
        let Some(worker) = self.awaits(&report) else {
            return Err(Astray { report });
        };
        let work = report.job.work;
        let message = self.devices.commit(&work, report.outcome);
        // The copy is the caller's: inlined into one that doesn't look at it, it isn't made.
        let twin = message.copy();
        self.outbox.arrive(worker, message);
        let kept = note_failure(&self.devices, &mut self.outbox, &work, report.outcome);
        Ok(Arrival {
            message: twin,
            kept,
        })
    }

    /// The devices, as the firmware of a fixture looks at them: the values of their parameters as they are now.
    pub fn devices(&self) -> &Devices
        ensures { (h : History) → StandsFor self.now h → result.now ≡ (account_of h).parameters }
    {
        &self.devices
    }

    /// How many messages wait for the controller.
    pub fn waiting(&self) -> usize
        ensures { (h : History) → StandsFor self.now h → result ≡ length (waiting_of (outbox_of h)) }
    {
        self.outbox.waiting()
    }

    /// A message that waits for the controller: the oldest has the index 0. It is `None` if no more wait.
    pub fn waiting_at(&self, index: usize) -> Option<&Message>
        ensures { (h : History) → StandsFor self.now h →
            option_copied result ≡ slice_get (waiting_of (outbox_of h)) index }
    {
        self.outbox.waiting_at(index)
    }

    /// How many status entries wait to be shown (E1.20 section 10.3.2).
    pub fn unshown(&self) -> usize
        ensures { (h : History) → StandsFor self.now h → result ≡ length (unshown (outbox_of h).noted) }
    {
        self.outbox.unshown()
    }

    /// The oldest outstanding job of a worker: the one on which its next report is to arrive. There are workers 0 and 1.
    pub fn oldest(&self, worker: u8) -> Option<Job>
        requires { worker < 2 }
        ensures { (h : History) → StandsFor self.now h → result ≡ slice_get (outstanding_of (outbox_of h) worker) 0 }
    {
        self.outbox.oldest(worker).copied()
    }

    /// The job that a worker is at, the oldest of its outstanding ones, as `step_into` told of it when it started. There are
    /// workers 0 and 1, and none is at a job if it has none.
    pub fn working(&self, worker: u8) -> Option<Started>
        ensures job { (h : History) → StandsFor self.now h → worker < 2 → result ≡ working_at h worker }
        ensures workers { 2 ≤ worker → result ≡ None }
    {
        let job = *self.outbox.oldest(worker)?;
        Some(Started {
            job,
            worker: self.devices.worker_of(&job.work),
            estimate: self.devices.estimate_of(&job.work),
        })
    }

    /// How many jobs are outstanding.
    pub fn outstanding(&self) -> usize
        ensures { (h : History) → StandsFor self.now h → result ≡ outstanding_count (outbox_of h) }
    {
        self.outbox.outstanding()
    }

    /// The worker whose report this is, if it may arrive now.
    fn awaits(&self, report: &Report) -> Option<u8>
        ensures worker { IfSome result (λ worker. worker ≡ worker_at self.now.outbox.workers report.now.job.work) }
        ensures oldest { IfSome result (λ worker. slice_get (jobs_at self.now.outbox worker) 0 ≡ Some report.now.job) }
        ensures fits { IsSome result → fits report.now.job.work report.now.outcome ≡ true }
        ensures account { (a : Account) → Shows self.now a → (IsSome result ↔ MayArrive a report.now) }
    {
        let workers = self.devices.workers();
        let worker = fitting_worker(&workers, &report.job.work, &report.outcome)?;
        let job = self.outbox.oldest(worker)?;
        if is_same(job, &report.job) {
            Some(worker)
        } else {
            None
        }
    }
}

/// Whether two jobs are one, number and work alike.
fn is_same(job: &Job, other: &Job) -> bool
    ensures { (result ≡ true) ↔ (job.now ≡ other.now) }
{
    *job == *other
}

/// Notes a status entry if a job of this work failed, unless the threshold of its device is above it, and says whether it
/// was kept.
fn note_failure(devices: &Devices, outbox: &mut Outbox, work: &Work, outcome: Outcome) -> bool
    ensures kept { (b : OutboxAccount) → OutboxShows outbox.old b →
        result ≡ nat_lt (length b.noted) (length (after_outcome devices.now b work.now outcome).noted) }
    ensures shows { (b : OutboxAccount) → OutboxShows outbox.old b →
        OutboxShows outbox.new (after_outcome devices.now b work.now outcome) }
    ensures workers { outbox.new.workers ≡ outbox.old.workers }
{
    match outcome {
        Outcome::Failed {
            severity,
            id,
            v1,
            v2,
        } => {
            let entry = Entry {
                sub: work.sub,
                severity,
                id,
                v1,
                v2,
            };
            note_entry(devices, outbox, entry)
        }
        Outcome::Done | Outcome::Reading(_) => false,
    }
}
