//! The responder, as C calls it: made, given up, and what happens to it.

ghost use Rattle.std.specs.Prelude.{◌≡◌, ◌≢◌, ◌↔◌, ◌⊎◌, None, Some, false, IfSome};
ghost use denote.RawPtr.{Testable};
ghost use types.Logic.{sem};
ghost use Rattle.rdm_profile.specs.Demo.{demo};
ghost use Rattle.rdm_outbox.specs.Settings.{most_entries};
ghost use Rattle.rdm_responder.specs.History.{History, Heard, Arrived, empty_history, then_event};
ghost use Rattle.rdm_responder.specs.Settings.{HasBadSize, HasBadUid, setup_with};
ghost use Rattle.rdm_c.specs.Places.{handle_at, nobody};
ghost use Rattle.rdm_c.specs.Statuses.{code_of};
ghost use Rattle.rdm_c.specs.Making.{MakingTold, settings_of};
ghost use Rattle.rdm_c.specs.Steps.{ChangeTold, NoChangeTold, ReplyTold, StartTold};
ghost use Rattle.rdm_c.specs.Outcomes.{report_in};
ghost use Rattle.rdm_c.specs.Profiles.{profile_in};
ghost use Rattle.rdm_c.specs.Endpoints.{HeldFor, MayReport, found, holds_responder};
ghost use Rattle.rdm_c.specs.Events.{AstrayUnless, DoneIf, GoesOn, NotingTold};

use crate::endpoint::responder::{arrive, step};
use crate::endpoint::{Endpoint, RunningResponder};
use crate::handle::Handle;
use crate::job::{JobNumbers, SteppedNumbers};
use crate::keeping::{free_at, put, replace, take};
use crate::outcome::{OutcomeNumbers, report_in};
use crate::profile::making::{boxed, boxed_demo, fault_of, fault_of_demo};
use crate::profile::modes::ModeNumbers;
use crate::profile::parameters::{ChoiceNumbers, ParameterNumbers};
use crate::profile::{ProfileNumbers, SlotNumbers};
use crate::status::Status;
use rdm_frame::standard::MOST_SLOTS;
use rdm_frame::{Uid, Wire};
use rdm_params::Profile;
use rdm_responder::{NewError, Responder, Settings};
use std::alloc::Global;

/// Makes a responder of this profile, in the place of what the handle held.
///
/// It has room for `queue_size` results of slow commands, and for `entries` status entries that weren't shown (E1.20 section
/// 10.3.2), at 9 bytes each: a controller with little memory has few. While that many wait, a further one is dropped. The first job
/// of each worker has the number `first_job`, and each later one the next; after 4,294,967,295 comes 0. So if it is greater than
/// the number of each job of the responder before, each report of such a job is astray.
///
/// A UID that addresses more than one device is rejected first, then a size or a number of entries that isn't 1 to 1,024, then a
/// profile that breaks a rule or has more than 512 sub-devices, and last comes out of memory. If it is rejected, the handle stays
/// as it was. No `first_job` is rejected.
#[unsafe(no_mangle)]
pub extern "C" fn felosumay_responder_new_with_nonnull(
    alloc: Global,
    responder: &mut Handle,
    maker: u16,
    device: u32,
    profile: &ProfileNumbers,
    parameters: &[ParameterNumbers],
    without: &[u16],
    choices: &[ChoiceNumbers],
    modes: &[ModeNumbers],
    mode_slots: &[SlotNumbers],
    queue_size: u16,
    entries: u16,
    first_job: u32,
) -> u8
    ensures made { result ≡ code_of Status.Done → HeldFor responder.new.held (empty_history (setup_with
        (settings_of maker device queue_size entries first_job)
        (profile_in profile.now parameters.now without.now choices.now modes.now mode_slots.now))) }
    ensures told { MakingTold result
        (settings_of maker device queue_size entries first_job)
        (profile_in profile.now parameters.now without.now choices.now modes.now mode_slots.now) }
    ensures refused { result ≢ code_of Status.Done → responder.new ≡ responder.old }
{
    let settings = Settings {
        uid: Uid { maker, device },
        queue_size,
        entries,
        first_job,
    };
    if let Some(refusal) = refusal(&settings) {
        return refusal.code();
    }
    if fault_of(profile, parameters, without, choices, modes, mode_slots).is_some() {
        return Status::BadProfile.code();
    }
    let Some(profile) = boxed(
        alloc, profile, parameters, without, choices, modes, mode_slots,
    ) else {
        return Status::OutOfMemory.code();
    };
    start(alloc, responder, &settings, profile).code()
}

/// Makes a responder that is the demonstration fixture with N sub-devices, with room for 1,024 status entries, whose jobs begin at
/// 0, and replaces what the handle held.
///
/// It is rejected as `felosumay_responder_new_with_nonnull` says, and a profile is bad only if there are more than 512 sub-devices.
#[unsafe(no_mangle)]
pub extern "C" fn felosumay_responder_demo(
    alloc: Global,
    responder: &mut Handle,
    maker: u16,
    device: u32,
    subs: u16,
    queue_size: u16,
) -> u8
    ensures made { result ≡ code_of Status.Done → HeldFor responder.new.held (empty_history (setup_with
        (settings_of maker device queue_size most_entries 0) (demo subs))) }
    ensures told { MakingTold result (settings_of maker device queue_size most_entries 0) (demo subs) }
    ensures refused { result ≢ code_of Status.Done → responder.new ≡ responder.old }
{
    let settings = Settings::usual(Uid { maker, device }, queue_size);
    if let Some(refusal) = refusal(&settings) {
        return refusal.code();
    }
    if fault_of_demo(subs).is_some() {
        return Status::BadProfile.code();
    }
    let Some(profile) = boxed_demo(alloc, subs) else {
        return Status::OutOfMemory.code();
    };
    start(alloc, responder, &settings, profile).code()
}

/// Hears bytes, and tells of the reply, whose bytes stand at the front of `reply` then, of the job that started, and of what
/// changed of the parameters. The answer to discovery is a reply as any other.
#[unsafe(no_mangle)]
pub extern "C" fn felosumay_responder_step_nonnull(
    alloc: Global,
    responder: &mut Handle,
    bytes: &[u8],
    reply: &mut [u8; MOST_SLOTS],
    stepped: &mut SteppedNumbers,
) -> u8
    ensures status { result ≡ code_of (found (holds_responder responder.old.held)) }
    ensures reply { (h : History) → HeldFor responder.old.held h → ReplyTold h bytes.now reply.new stepped.new }
    ensures job { (h : History) → HeldFor responder.old.held h → StartTold h bytes.now stepped.new }
    ensures stands { (h : History) → HeldFor responder.old.held h → HeldFor responder.new.held (then_event h (Heard bytes.now)) }
    ensures unchanged { (h : History) → HeldFor responder.old.held h → NoChangeTold h bytes.now stepped.new }
    ensures change { ChangeTold bytes.now stepped.new }
    ensures absent { holds_responder responder.old.held ≡ false → (responder.new.held ≡ responder.old.held)
        × (stepped.new.replied ≡ 0) × (stepped.new.started ≡ 0) × (stepped.new.changed ≡ 0) }
{
    let Some(mut endpoint) = take(alloc, responder) else {
        stepped.clear();
        return Status::Absent.code();
    };
    let status = step(&mut endpoint, bytes, reply, stepped);
    put(responder, endpoint);
    status.code()
}

/// Takes the report of a job, and says whether it noted a status entry: `kept` is 1 then, else 0.
///
/// The job is as `felosumay_responder_step_nonnull` told of it. The numbers are unknown if they stand for no report, whatever
/// the handle holds. It is astray if the report isn't of the oldest outstanding job of its worker, its estimate or its worker is
/// another than that of the job, or its outcome doesn't fit the job. Nothing changes then.
#[unsafe(no_mangle)]
pub extern "C" fn felosumay_responder_arrive(
    alloc: Global,
    responder: &mut Handle,
    job: &JobNumbers,
    outcome: &OutcomeNumbers,
    kept: &mut u8,
) -> u8
    ensures unknown { (result ≡ code_of Status.Unknown) ↔ (report_in job.now outcome.now ≡ None) }
    ensures absent { IfSome (report_in job.now outcome.now) (λ r.
        (result ≡ code_of Status.Absent) ↔ (holds_responder responder.old.held ≡ false)) }
    ensures lawful { IfSome (report_in job.now outcome.now) (λ r. DoneIf result responder.old.held (λ h. MayReport h job.now r)) }
    ensures astray { IfSome (report_in job.now outcome.now) (λ r. AstrayUnless result responder.old.held (λ h. MayReport h job.now r)) }
    ensures stands { IfSome (report_in job.now outcome.now) (λ r. GoesOn result responder.old.held (Arrived r) responder.new.held) }
    ensures kept { IfSome (report_in job.now outcome.now) (λ r. NotingTold result responder.old.held (Arrived r) kept.new) }
    ensures same { result ≢ code_of Status.Done → responder.new.held ≡ responder.old.held }
{
    let Some(report) = report_in(job, outcome) else {
        return Status::Unknown.code();
    };
    let Some(mut endpoint) = take(alloc, responder) else {
        return Status::Absent.code();
    };
    let status = arrive(&mut endpoint, job, report, kept);
    put(responder, endpoint);
    status.code()
}

/// Gives up the responder that the handle holds, if any, and its memory; the handle is {0} then. NULL is no handle, and nothing
/// happens then.
#[unsafe(no_mangle)]
pub unsafe extern "C" fn felosumay_responder_free(alloc: Global, responder: *mut Handle)
    ghost handle: { Handle }
    requires address { Testable responder }
    requires* lent { sem 𝓛 (handle_at responder handle) }
    ensures* empty { sem 𝓛 (handle_at responder nobody) }
{
    free_at(alloc, responder);
}

/// Makes a responder, in the place of what the handle held.
#[inline(never)]
fn start(
    alloc: Global,
    responder: &mut Handle,
    settings: &Settings,
    profile: Box<Profile>,
) -> Status
    ensures made { result ≡ Status.Done →
        HeldFor responder.new.held (empty_history (setup_with settings.now profile.value)) }
    ensures told { MakingTold (code_of result) settings.now profile.value }
    ensures refused { result ≢ Status.Done → responder.new ≡ responder.old }
{
    match Responder::with_settings(alloc, settings, profile) {
        Ok(made) => {
            let running = RunningResponder {
                responder: made,
                wire: Wire::new(),
            };
            replace(alloc, responder, Endpoint::Responder(running))
        }
        Err(NewError::OutOfMemory) => Status::OutOfMemory,
        Err(NewError::BadProfile) => Status::BadProfile,
        Err(NewError::BadSize) => Status::BadSize,
        Err(NewError::BadUid) => Status::BadUid,
    }
}

/// Why no responder has these settings, if so.
fn refusal(settings: &Settings) -> Option<Status>
    ensures bad_uid { (result ≡ Some Status.BadUid) ↔ HasBadUid settings.now }
    ensures bad_size { (result ≡ Some Status.BadSize) ↔ HasBadSize settings.now }
    ensures others { IfSome result (λ status. (status ≡ Status.BadUid) ⊎ (status ≡ Status.BadSize)) }
{
    match settings.refusal() {
        Some(NewError::BadUid) => Some(Status::BadUid),
        Some(NewError::BadSize) => Some(Status::BadSize),
        Some(NewError::BadProfile | NewError::OutOfMemory) | None => None,
    }
}
