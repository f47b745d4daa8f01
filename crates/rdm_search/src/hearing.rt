//! What a search takes from what was heard.

ghost use Rattle.std.specs.Prelude.{◌≡◌, ◌+◌, ◌++◌, List, Some, is_some, true, false, IfSome, IfOk, OnOk, OnErr};
ghost use Rattle.std.specs.Option.{option_to_list};
ghost use Rattle.rdm_frame.specs.declared.uid.Uid.{Uid as TheUid};
ghost use Rattle.rdm_frame.specs.Discovery.{IsBranchReply};
ghost use Rattle.rdm_search.specs.declared.stage.Stage.TheVariants.{Asking, Muting};
ghost use Rattle.rdm_search.specs.declared.request.Request.TheVariants.{UniqueBranch};
ghost use Rattle.rdm_search.specs.Line.{Fixture, IsDevice, IsAltered, IsCalled, callers};
ghost use Rattle.rdm_search.specs.Answers.{found_uids, knows, newcomer};
ghost use Rattle.rdm_search.specs.Ranges.{place, low, high, IsRange};
ghost use Rattle.rdm_search.specs.Stages.{IsStage, IsCandidate, Reads, Stands, Leads, Strays, Hears, stage_of_mute};
ghost use Rattle.rdm_search.specs.Searches.{found_after, is_doubtful, is_in_doubt, is_repeated, named, unsure_after};
ghost use Rattle.std.specs.List.{list_any};
ghost use Rattle.rdm_frame.specs.Addressing.{same_uid};

use crate::found::Found;
use crate::range::{DEEPEST, Range};
use crate::stage::{Stage, halved, stage_after};
use rdm_frame::{Uid, branch_uid};
use std::alloc::AllocError;

/// How many times a mute is sent again after which bytes were heard that aren't a valid answer.
const MOST_AGAIN: u8 = 8;

/// Where a search goes on from a stage after these bytes were heard, and how many times the mute at hand was sent again then. What was
/// found is noted, and who sounded after each mute without a valid answer.
#[tactic(auto, using(crate::proofs::Hearings::doubt_found))]
pub(crate) fn heard(
    found: &mut Vec<Found>,
    unsure: &mut Vec<Uid>,
    stage: Stage,
    again: u8,
    bytes: &[u8],
) -> Result<(Stage, u8), AllocError>
    requires { IsStage stage }
    ensures valid { IfOk result (λ p. IsStage p.0) }
    ensures hears { IfOk result (λ p. Hears stage (found_uids found.old.items) bytes.now p.0 (found_uids found.new.items)) }
    ensures found { OnOk result (found.new.items ≡ found_after stage found.old.items bytes.now) }
    ensures repeats { IfOk result (λ p. is_repeated stage found.old.items again bytes.now ≡ true
        → (p.0 ≡ stage) × (p.1 ≡ again + 1) × (unsure.new.items ≡ unsure.old.items)) }
    ensures settles { IfOk result (λ p. is_repeated stage found.old.items again bytes.now ≡ false
        → (p.1 ≡ 0) × (unsure.new.items ≡ unsure_after stage found.old.items unsure.old.items bytes.now)) }
    ensures err { OnErr result ((found.new.items ≡ found.old.items) × (unsure.new.items ≡ unsure.old.items)) }
{
    match doubted(found.as_slice(), stage, bytes) {
        None => {
            let next = after(found, stage, bytes)?;
            Ok((next, 0))
        }
        Some((range, uid)) => {
            if again < MOST_AGAIN {
                return Ok((stage, again + 1));
            }
            name(unsure, uid)?;
            Ok((halved(range), 0))
        }
    }
}

/// The mute that is in doubt after these bytes were heard: they aren't the answer of a device that wasn't found before.
fn doubted(found: &[Found], stage: Stage, bytes: &[u8]) -> Option<(Range, Uid)>
    requires { IsStage stage }
    ensures doubt { is_some result ≡ is_in_doubt stage found.now bytes.now }
    ensures mute { IfSome result (λ p. (stage ≡ Muting p.0 p.1) × IsRange p.0) }
{
    match stage {
        Stage::Muting(range, uid) => {
            if is_doubtful(found, uid, bytes) {
                Some((range, uid))
            } else {
                None
            }
        }
        Stage::Start | Stage::Asking(_) | Stage::Ended => None,
    }
}

/// Whether bytes were heard that aren't the answer of a device that wasn't found before.
fn is_doubtful(found: &[Found], uid: Uid, bytes: &[u8]) -> bool
    ensures { result ≡ is_doubtful found.now uid bytes.now }
{
    !bytes.is_empty() && !knows(found, uid) && !Found::is_answer(uid, bytes)
}

/// Names a UID as unsure, once.
fn name(unsure: &mut Vec<Uid>, uid: Uid) -> Result<(), AllocError>
    ensures named { OnOk result (unsure.new.items ≡ named unsure.old.items uid) }
    ensures err { OnErr result (unsure.new.items ≡ unsure.old.items) }
{
    if is_named(unsure.as_slice(), uid) {
        return Ok(());
    }
    unsure.push(uid)?;
    Ok(())
}

fn is_named(unsure: &[Uid], uid: Uid) -> bool
    ensures { result ≡ list_any (λ u. same_uid u uid) unsure.now }
{
    unsure.iter().any(|one| *one == uid)
}

/// Where a search goes on from a stage after these bytes were heard. What was found is noted.
fn after(found: &mut Vec<Found>, stage: Stage, bytes: &[u8]) -> Result<Stage, AllocError>
    requires { IsStage stage }
    ensures valid { IfOk result IsStage }
    ensures hears { IfOk result (λ next. Hears stage (found_uids found.old.items) bytes.now next (found_uids found.new.items)) }
    ensures found { OnOk result (found.new.items ≡ found_after stage found.old.items bytes.now) }
    ensures err { OnErr result (found.new.items ≡ found.old.items) }
{
    match stage {
        Stage::Start => Ok(Stage::Asking(Range::WHOLE)),
        Stage::Asking(range) => Ok(after_branch(range, bytes)),
        Stage::Muting(range, uid) => {
            let next = after_mute(found, range, uid, bytes)?;
            Ok(next)
        }
        Stage::Ended => Ok(Stage::Ended),
    }
}

/// Where a search goes on from a branch after these bytes were heard.
fn after_branch(range: Range, bytes: &[u8]) -> Stage
    requires { IsRange range }
    ensures valid { IsStage result }
    ensures leads { (found : List TheUid) (line : List Fixture) → Stands (Asking range) found line
        → IsCalled (callers (low range) (high range) line) bytes.now → Leads (Asking range) line result found line }
    ensures strays { (found : List TheUid) (line : List Fixture) → Stands (Asking range) found line
        → IsAltered (UniqueBranch (low range) (high range)) line bytes.now → Strays (Asking range) line result found line }
{
    if bytes.is_empty() {
        return stage_after(range);
    }
    match candidate(range, bytes) {
        Some(uid) => Stage::Muting(range, uid),
        None => halved(range),
    }
}

/// The device that is muted after these bytes were heard. In a range of one UID it is that one, whatever was heard. A broadcast
/// is never muted, since all would be: bytes of more than one device may decode as one.
fn candidate(range: Range, bytes: &[u8]) -> Option<Uid>
    requires { IsRange range }
    ensures device { IfSome result (IsCandidate range) }
    ensures reads { Reads range bytes.now result }
{
    match heard_uid(range, bytes) {
        Some(uid) if !uid.is_broadcast() && range.holds(uid) => Some(uid),
        _ => None,
    }
}

/// The UID that was heard, of a device in the range or another.
fn heard_uid(range: Range, bytes: &[u8]) -> Option<Uid>
    requires { IsRange range }
    ensures reads { Reads range bytes.now result }
{
    if range.depth == DEEPEST {
        Some(range.low())
    } else {
        branch_uid(bytes)
    }
}

/// Where a search goes on from a mute after these bytes were heard: a device that is new is noted, and the same range asked
/// again.
fn after_mute(
    found: &mut Vec<Found>,
    range: Range,
    uid: Uid,
    bytes: &[u8],
) -> Result<Stage, AllocError>
    requires { IsRange range }
    ensures stage { IfOk result (λ stage. stage ≡ stage_of_mute range (newcomer found.old.items uid bytes.now)) }
    ensures valid { IfOk result IsStage }
    ensures found { OnOk result (found.new.items ≡ found.old.items ++ option_to_list (newcomer found.old.items uid bytes.now)) }
    ensures err { OnErr result (found.new.items ≡ found.old.items) }
{
    match newcomer(found.as_slice(), uid, bytes) {
        Some(one) => {
            found.push(one)?;
            Ok(Stage::Asking(range))
        }
        None => Ok(halved(range)),
    }
}

/// The answer of a device to its mute, if it wasn't found before.
fn newcomer(found: &[Found], uid: Uid, bytes: &[u8]) -> Option<Found>
    ensures { result ≡ newcomer found.now uid bytes.now }
{
    if knows(found, uid) {
        None
    } else {
        Found::in_answer(uid, bytes)
    }
}

fn knows(found: &[Found], uid: Uid) -> bool
    ensures { result ≡ knows found.now uid }
{
    found.iter().any(|one| one.uid == uid)
}
