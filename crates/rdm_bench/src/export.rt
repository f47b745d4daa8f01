//! What C calls.

ghost use Rattle.std.specs.Prelude.{◌≡◌, ◌≢◌, ◌↔◌, ◌<◌, ◌≤◌, ◌++◌, ℕ, List, IfOk};
ghost use Rattle.rdm_outbox.specs.Settings.{IsListSize, IsQueueSize};
ghost use Rattle.rdm_responder.specs.History.{History, empty_history};
ghost use Rattle.rdm_bench.specs.Packed.{packed, ArePackable};
ghost use Rattle.rdm_bench.specs.Replay.{repeated, bench_setup, IsReplay, AnswersReplay};

use crate::device::{DEVICE, responder_with};
use crate::packed::unpack;
use crate::replay::Replay;
use crate::{Fault, Reports, Tally};
use rdm_frame::standard::MOST_SUB_DEVICES;
use rdm_params::Profile;
use rdm_responder::{Responder, Settings};
use std::alloc::{AllocError, Global};

/// Makes a responder with that many sub-devices, and with two parameters of its maker's own if `own` says so, lets it hear the
/// frames of `preface` once and those of `bytes` `rounds` times over, and sets `tally` to what the bytes of all replies come to.
/// Each job that starts is reported, before the next frame is heard, as the code `reports` says: 0 not at all, 1 as done, 2 as
/// failed with an advisory, 3 as failed with an error. The contract says which frames are heard and which reports are handed
/// in, each in their order, and not how the two lie among one another.
///
/// Frames stand one after another, each behind its length in two bytes, the most significant first. The answer is 0
/// where they were heard. Else `tally` stays as it was: it is 2 where there are more than 512 sub-devices, 3 where no
/// reports have the code, and 1 where memory is refused.
#[unsafe(no_mangle)]
pub extern "C" fn rdm_bench_run(
    alloc: Global,
    own: bool,
    subs: u16,
    preface: &[u8],
    bytes: &[u8],
    rounds: u32,
    reports: u8,
    tally: &mut Tally,
) -> u8
    ensures ran { result ≡ 0 → (before frames : List (List ℕ)) → ArePackable before → ArePackable frames →
        preface.now ≡ packed before → bytes.now ≡ packed frames →
        AnswersReplay own subs reports (before ++ repeated rounds frames) tally.new }
    ensures refused { result ≢ 0 → tally.new ≡ tally.old }
    ensures codes { result ≤ 3 }
    ensures too_many { (result ≡ 2) ↔ (512 < subs) }
    ensures unknown { (result ≡ 3) ↔ ((subs ≤ 512) × (3 < reports)) }
{
    match run(alloc, own, subs, preface, bytes, rounds, reports) {
        Ok(outcome) => {
            *tally = outcome;
            0
        }
        Err(fault) => fault.code(),
    }
}

/// Makes a responder with no sub-devices and room for so many results of slow commands and status entries, and lets it go:
/// `bench/memory` counts what it takes. The answer is 0, or 2 where it can't have these sizes, or 1 where memory is refused.
#[unsafe(no_mangle)]
pub extern "C" fn rdm_bench_make(alloc: Global, queue_size: u16, entries: u16) -> u8
    ensures codes { result ≤ 2 }
    ensures bad_size { (result ≡ 2) ↔ (¬ (IsQueueSize queue_size × IsListSize entries)) }
{
    let settings = Settings {
        uid: DEVICE,
        queue_size,
        entries,
        first_job: 0,
    };
    // The UID addresses one device, so that it is a size that is refused.
    if settings.refusal().is_some() {
        return 2;
    }
    let Ok(profile) = Box::new(alloc, Profile::demo(0)) else {
        return 1;
    };
    // The profile is such as a responder takes.
    match Responder::with_settings(alloc, &settings, profile) {
        Ok(_) => 0,
        Err(_) => 1,
    }
}

/// What the bytes of the replies come to.
fn run(
    alloc: Global,
    own: bool,
    subs: u16,
    preface: &[u8],
    bytes: &[u8],
    rounds: u32,
    reports: u8,
) -> Result<Tally, Fault>
    ensures ok { IfOk result (λ tally. (before frames : List (List ℕ)) → ArePackable before → ArePackable frames →
        preface.now ≡ packed before → bytes.now ≡ packed frames →
        AnswersReplay own subs reports (before ++ repeated rounds frames) tally) }
    ensures too_many { (result ≡ Err Fault.TooManySubs) ↔ (512 < subs) }
    ensures unknown { (result ≡ Err Fault.UnknownReports) ↔ ((subs ≤ 512) × (3 < reports)) }
{
    if subs > MOST_SUB_DEVICES {
        return Err(Fault::TooManySubs);
    }
    let Some(reports) = Reports::with_code(reports) else {
        return Err(Fault::UnknownReports);
    };
    replayed(alloc, own, subs, preface, bytes, rounds, reports).map_err(|_| Fault::OutOfMemory)
}

/// What the bytes of the replies come to, unless memory is refused.
fn replayed(
    alloc: Global,
    own: bool,
    subs: u16,
    preface: &[u8],
    bytes: &[u8],
    rounds: u32,
    reports: Reports,
) -> Result<Tally, AllocError>
    requires { subs ≤ 512 }
    ensures { IfOk result (λ tally. (before frames : List (List ℕ)) → ArePackable before → ArePackable frames →
        preface.now ≡ packed before → bytes.now ≡ packed frames →
        (end : History) × IsReplay (empty_history (bench_setup own subs)) reports (before ++ repeated rounds frames) tally end) }
{
    let mut replay = Replay::new(responder_with(alloc, own, subs)?, reports);
    replay.hear_rounds(&unpack(alloc, preface)?, 1);
    replay.hear_rounds(&unpack(alloc, bytes)?, rounds);
    Ok(replay.tally())
}
