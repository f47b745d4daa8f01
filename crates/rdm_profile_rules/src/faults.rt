//! Which rule a profile breaks.

ghost use Rattle.std.specs.Prelude.{◌≡◌, ◌↔◌, ℕ, List, None, IfSome, IsTrue, length};
ghost use Rattle.rdm_profile_rules.specs.Faults.{IsFirstBroken, IsStart, KeepsBinding, KeepsOthers, KeepsLeftOut, KeepsListed, KeepsNamed, KeepsOwn, KeepsParameters, with_parameters, with_slots};
ghost use Rattle.rdm_profile.specs.Modes.{mode_shapes};
ghost use Rattle.rdm_profile.specs.MuteReply.{can_bind};
ghost use Rattle.rdm_profile.specs.Profiles.{CanBeMade, MayBeLeftOut, AreGoodParameters, AreGoodLocks, AreGoodModes, HaveFields, FollowStandards};

use crate::checks::{are_numbered, can_bind, fit, slots_with, statuses_differ, tests_differ};
use crate::choice_checks::agree;
use crate::field_checks::have_fields;
use crate::locks::{can_hold, can_open, have_states};
use crate::modes::{MOST_MODES, have_slots, modes_fit, shapes_of};
use crate::own_checks::{are_ascending, are_few, have_free_pids, have_limits, have_starts};
use crate::standards::follow_standards;
use rdm_frame::standard::{MOST_DMX_SLOTS, MOST_SUB_DEVICES};
use rdm_profile::{
    ChoiceName, Lock, ModeShape, MuteReply, ParameterDef, Profile, Unit, are_optional,
    leave_no_need,
};

/// A rule of profiles that is broken, in the order in which they are tested.
#[derive(Clone, Copy, Debug, PartialEq, Eq)]
pub enum ProfileFault {
    /// There are more than 512 sub-devices (E1.20 section 9).
    SubDevices,
    /// There are 65,535 presets: that number stands for all of them (section 10.11).
    Presets,
    /// The root or the sub-devices have no personality (section 10.6.1).
    Personalities,
    /// The start address of the root or of the sub-devices isn't 1 to 512 (section 10.6.3).
    Start,
    /// A personality of the root uses more slots than the profile describes and says that there are beside them, or more than 512.
    RootFootprint,
    /// A personality of the sub-devices uses more than 512 slots.
    SubFootprint,
    /// There is no language (section 10.5.7).
    Languages,
    /// A self test has the number 0 or 255, which stand for none and for all (section 10.11).
    TestNumber,
    /// Two self tests have one number.
    TwinTests,
    /// Two status texts have one ID (section 10.3.3).
    TwinStatusTexts,
    /// A parameter is left out that each device must have, or that isn't one of the table (table A-3); or more than 36 are.
    LeftOut,
    /// A parameter is left out without one that needs it, such as DMX_PERSONALITY without DMX_PERSONALITY_DESCRIPTION.
    LeftOutNeeded,
    /// There are more than 32 parameters of the maker's own.
    ParameterCount,
    /// A parameter of the maker's own has a PID that isn't 0x8000 to 0xFFDF, nor one of the standards' that is lent to makers; or two have
    /// the same.
    ParameterPid,
    /// A parameter of the maker's own has a limit that its data can't say, or its greatest number is below its least; or its data
    /// have more than 32 slots.
    ParameterLimits,
    /// A parameter of the maker's own starts with data of another length, or out of its range.
    ParameterStart,
    /// The parameters of the maker's own aren't in the order of their PIDs.
    ParameterOrder,
    /// A parameter of the maker's own has fields that don't take all of its slots, or its data are no slots; or a field has a limit that it
    /// can't say, or its greatest number is below its least.
    ParameterFields,
    /// A parameter of the maker's own has a PID of one of the standards, and a command that it hasn't there, or other data.
    ParameterStandard,
    /// A choice has no parameter that tells what its things are called, or one of them has no name; there is such a parameter without a
    /// choice, or a name of nothing that can be chosen; two names are of one thing, or not in the order of their PIDs and numbers, or
    /// there are more than 64; or DIMMER_INFO has another number of curves than CURVE.
    ParameterNames,
    /// A lock is of state 0, which is unlocked, or of one above the greatest of LOCK_STATE; or there is no LOCK_STATE.
    ParameterLocks,
    /// LOCK_STATE can't be read; or there is no LOCK_PIN beside it, without which no SET of it succeeds (E1.37-1).
    ParameterLockState,
    /// A lock names LOCK_STATE, which nobody could open again; or a parameter that it can't hold: one that the root has no SET of, or one of
    /// the table that a job carries out, which is LAMP_STATE, POWER_STATE or PERFORM_SELFTEST.
    ParameterLocked,
    /// The binding UID addresses more than one device (section 7.6).
    BindingUid,
    /// There are more than 247 modes.
    ModeCount,
    /// A mode uses more than 512 slots (section 10.6.1).
    ModeFootprint,
    /// A mode has more than 46 slots of its own, or slots of its own although it names another personality; or it names one that isn't
    /// there, or that has no slots of its own itself (section 10.6.4).
    ModeSlots,
}

/// The first rule that the profile breaks, or `None` if it breaks none: a device can be made with it then.
pub fn profile_fault(profile: &Profile) -> Option<ProfileFault>
    ensures good { (result ≡ None) ↔ CanBeMade profile.now }
    ensures first { IfSome result (λ fault. IsFirstBroken fault profile.now) }
{
    profile_fault_with(
        profile,
        profile.particulars.more_slots(),
        profile.particulars.without(),
        profile.particulars.own(),
        profile.particulars.choices(),
    )
}

/// The first rule that the profile would break if it had so many slots beside those that it describes, left out the parameters with these
/// PIDs, and had these of the maker's own with these names of choices, and no others, or `None` if it would break none; what else sets it
/// apart is as it is. So they can be judged before there is memory for them.
#[tactic(auto, using(crate::proofs::FirstFaults::made, crate::proofs::FirstFaults::keeps_others, crate::proofs::FirstFaults::keeps_parameters, crate::proofs::FirstFaults::keeps_binding, crate::proofs::FirstFaults::keeps_modes, crate::proofs::FirstFaults::keeps_before))]
pub fn profile_fault_with(
    profile: &Profile,
    more_slots: u16,
    without: &[u16],
    own: &[ParameterDef],
    choices: &[ChoiceName],
) -> Option<ProfileFault>
    ensures good { (result ≡ None) ↔ CanBeMade (with_parameters profile.now more_slots without.now own.now choices.now) }
    ensures first { IfSome result (λ fault. IsFirstBroken fault (with_parameters profile.now more_slots without.now own.now choices.now)) }
{
    if let Some(fault) = other_fault(profile, more_slots) {
        return Some(fault);
    }
    if let Some(fault) = parameter_fault(without, own, choices, profile.particulars.locks()) {
        return Some(fault);
    }
    match mute_fault(&profile.particulars.mute_reply()) {
        Some(fault) => Some(fault),
        None => fault_of_modes(profile),
    }
}

/// The first rule of modes that the profile breaks.
pub(crate) fn fault_of_modes(profile: &Profile) -> Option<ProfileFault>
    ensures good { (result ≡ None) ↔ AreGoodModes (length profile.now.root.personalities.items) (mode_shapes profile.now) }
    ensures first { (without : List ℕ) (own : List ParameterDef) (choices : List ChoiceName) (more_slots : ℕ)
        → KeepsBinding (with_parameters profile.now more_slots without own choices)
        → IfSome result (λ fault. IsFirstBroken fault (with_parameters profile.now more_slots without own choices)) }
{
    let shapes = shapes_of(profile.particulars.modes());
    mode_fault(profile.root.personalities.len(), shapes.as_slice())
}

/// The first rule that is broken by modes of these shapes, behind so many personalities of the root's unit. So they can be judged before
/// there is memory for them.
pub fn mode_fault(units: usize, shapes: &[ModeShape]) -> Option<ProfileFault>
    ensures good { (result ≡ None) ↔ AreGoodModes units shapes.now }
    ensures first { (p : Profile) → length p.root.personalities.items ≡ units → mode_shapes p ≡ shapes.now → KeepsBinding p
        → IfSome result (λ fault. IsFirstBroken fault p) }
{
    if shapes.len() > MOST_MODES {
        return Some(ProfileFault::ModeCount);
    }
    if !modes_fit(shapes) {
        return Some(ProfileFault::ModeFootprint);
    }
    if !have_slots(units, shapes) {
        return Some(ProfileFault::ModeSlots);
    }
    None
}

/// The rule that is broken by what the answer to DISC_MUTE tells, if one is.
pub fn mute_fault(reply: &MuteReply) -> Option<ProfileFault>
    ensures good { (result ≡ None) ↔ IsTrue (can_bind reply.now.binding) }
    ensures first { (p : Profile) → p.particulars.mute_reply ≡ reply.now → KeepsParameters p → IfSome result (λ fault. IsFirstBroken fault p) }
{
    if can_bind(reply) {
        None
    } else {
        Some(ProfileFault::BindingUid)
    }
}

/// The first rule that is broken, of those that don't speak of parameters.
fn other_fault(profile: &Profile, more_slots: u16) -> Option<ProfileFault>
    ensures good { (result ≡ None) ↔ KeepsOthers (with_slots profile.now more_slots) }
    ensures first { (without : List ℕ) (own : List ParameterDef) (choices : List ChoiceName)
        → IfSome result (λ fault. IsFirstBroken fault (with_parameters profile.now more_slots without own choices)) }
{
    if profile.subs > MOST_SUB_DEVICES {
        return Some(ProfileFault::SubDevices);
    }
    if profile.presets == 65535 {
        return Some(ProfileFault::Presets);
    }
    if profile.root.personalities.is_empty() || profile.sub.personalities.is_empty() {
        return Some(ProfileFault::Personalities);
    }
    if !has_start(&profile.root) || !has_start(&profile.sub) {
        return Some(ProfileFault::Start);
    }
    if !fit(
        profile.root.personalities.as_slice(),
        slots_with(profile, more_slots),
    ) {
        return Some(ProfileFault::RootFootprint);
    }
    if !fit(
        profile.sub.personalities.as_slice(),
        MOST_DMX_SLOTS as usize,
    ) {
        return Some(ProfileFault::SubFootprint);
    }
    if profile.languages.is_empty() {
        return Some(ProfileFault::Languages);
    }
    if !are_numbered(profile.tests.as_slice()) {
        return Some(ProfileFault::TestNumber);
    }
    if !tests_differ(profile.tests.as_slice()) {
        return Some(ProfileFault::TwinTests);
    }
    if !statuses_differ(profile.status_texts.as_slice()) {
        return Some(ProfileFault::TwinStatusTexts);
    }
    None
}

/// The first rule of parameters that is broken by those with these PIDs, if they are left out, and by these of the maker's own.
pub(crate) fn parameter_fault(
    without: &[u16],
    own: &[ParameterDef],
    choices: &[ChoiceName],
    locks: &[Lock],
) -> Option<ProfileFault>
    ensures good { (result ≡ None) ↔ (MayBeLeftOut without.now × AreGoodParameters own.now choices.now × AreGoodLocks without.now own.now locks.now) }
    ensures first { (p : Profile) (more_slots : ℕ) → p.particulars.locks ≡ locks.now → KeepsOthers (with_slots p more_slots) →
        IfSome result (λ fault. IsFirstBroken fault (with_parameters p more_slots without.now own.now choices.now)) }
{
    if !are_optional(without) {
        return Some(ProfileFault::LeftOut);
    }
    if !leave_no_need(without) {
        return Some(ProfileFault::LeftOutNeeded);
    }
    if let Some(fault) = own_fault(own) {
        return Some(fault);
    }
    if !agree(own, choices) {
        return Some(ProfileFault::ParameterNames);
    }
    lock_fault(without, own, locks)
}

/// The first rule of locks that is broken, where these are left out and these are of the maker's own.
fn lock_fault(without: &[u16], own: &[ParameterDef], locks: &[Lock]) -> Option<ProfileFault>
    ensures good { (result ≡ None) ↔ AreGoodLocks without.now own.now locks.now }
    ensures first { (p : Profile) → p.particulars.without.items ≡ without.now → p.particulars.own ≡ own.now → p.particulars.locks ≡ locks.now
        → KeepsNamed p → IfSome result (λ fault. IsFirstBroken fault p) }
{
    if !have_states(own, locks) {
        return Some(ProfileFault::ParameterLocks);
    }
    if !can_open(own) {
        return Some(ProfileFault::ParameterLockState);
    }
    if !can_hold(without, own, locks) {
        return Some(ProfileFault::ParameterLocked);
    }
    None
}

/// The first rule that these parameters of the maker's own break, but for that of names, which `agree` tests. So they can be judged apart
/// from the rest of a profile.
pub fn own_fault(own: &[ParameterDef]) -> Option<ProfileFault>
    ensures good { (result ≡ None) ↔ KeepsOwn own.now }
    ensures first { (p : Profile) → p.particulars.own ≡ own.now → KeepsLeftOut p → IfSome result (λ fault. IsFirstBroken fault p) }
{
    if !are_few(own) {
        return Some(ProfileFault::ParameterCount);
    }
    if !have_free_pids(own) {
        return Some(ProfileFault::ParameterPid);
    }
    if !have_limits(own) {
        return Some(ProfileFault::ParameterLimits);
    }
    if !have_starts(own) {
        return Some(ProfileFault::ParameterStart);
    }
    if !are_ascending(own) {
        return Some(ProfileFault::ParameterOrder);
    }
    slots_fault(own)
}

/// The first rule that is broken by what the slots of these parameters of the maker's own say.
fn slots_fault(own: &[ParameterDef]) -> Option<ProfileFault>
    ensures good { (result ≡ None) ↔ (HaveFields own.now × FollowStandards own.now) }
    ensures first { (p : Profile) → p.particulars.own ≡ own.now → KeepsListed p → IfSome result (λ fault. IsFirstBroken fault p) }
{
    if !have_fields(own) {
        return Some(ProfileFault::ParameterFields);
    }
    if !follow_standards(own) {
        return Some(ProfileFault::ParameterStandard);
    }
    None
}

/// Whether the unit's start address is one of DMX512.
fn has_start(unit: &Unit) -> bool
    ensures { IsTrue result ↔ IsStart unit.now }
{
    1 <= unit.start && unit.start <= MOST_DMX_SLOTS
}
