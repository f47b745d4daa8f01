//! What is wrong with a profile, as C asks for it.

ghost use Rattle.std.specs.Prelude.{◌≡◌, ◌↔◌, ◌≤◌, [], IfSome, length};
ghost use Rattle.rdm_profile_rules.specs.Faults.{IsFirstBroken};
ghost use Rattle.rdm_profile.specs.Profiles.{CanBeMade};
ghost use Rattle.rdm_c.specs.Faults.{fault_in};
ghost use Rattle.rdm_c.specs.Profiles.{particular_in, profile_in};

use crate::profile::making::fault_of;
use crate::profile::modes::ModeNumbers;
use crate::profile::parameters::{ChoiceNumbers, ParameterNumbers};
use crate::profile::{ProfileNumbers, SlotNumbers};
use rdm_device::ProfileFault;

/// Tells which rule of profiles is broken, the first of them in the order of their numbers, or 0 if none is: a responder can be
/// made of the profile then. The header lists the rules.
#[unsafe(no_mangle)]
pub extern "C" fn felosumay_profile_fault_nonnull(
    profile: &ProfileNumbers,
    parameters: &[ParameterNumbers],
    without: &[u16],
    choices: &[ChoiceNumbers],
    modes: &[ModeNumbers],
    mode_slots: &[SlotNumbers],
) -> u8
    ensures good { (result ≡ 0) ↔ CanBeMade (profile_in profile.now parameters.now without.now choices.now modes.now mode_slots.now) }
    ensures broken { IfSome (fault_in result) (λ fault. IsFirstBroken fault
        (profile_in profile.now parameters.now without.now choices.now modes.now mode_slots.now)) }
    ensures numbers { result ≤ 27 }
    ensures no_parameters { length parameters.now ≡ 0 →
        (particular_in profile.now parameters.now without.now choices.now modes.now mode_slots.now).own ≡ [] }
    ensures none_left_out { length without.now ≡ 0 →
        (particular_in profile.now parameters.now without.now choices.now modes.now mode_slots.now).without.items ≡ [] }
    ensures no_names { length choices.now ≡ 0 →
        (particular_in profile.now parameters.now without.now choices.now modes.now mode_slots.now).choices ≡ [] }
    ensures no_modes { length modes.now ≡ 0 →
        (particular_in profile.now parameters.now without.now choices.now modes.now mode_slots.now).modes ≡ [] }
{
    match fault_of(profile, parameters, without, choices, modes, mode_slots) {
        None => 0,
        Some(ProfileFault::SubDevices) => 1,
        Some(ProfileFault::Presets) => 2,
        Some(ProfileFault::Personalities) => 3,
        Some(ProfileFault::Start) => 4,
        Some(ProfileFault::RootFootprint) => 5,
        Some(ProfileFault::SubFootprint) => 6,
        Some(ProfileFault::Languages) => 7,
        Some(ProfileFault::TestNumber) => 8,
        Some(ProfileFault::TwinTests) => 9,
        Some(ProfileFault::TwinStatusTexts) => 10,
        Some(ProfileFault::LeftOut) => 11,
        Some(ProfileFault::LeftOutNeeded) => 12,
        Some(ProfileFault::ParameterCount) => 13,
        Some(ProfileFault::ParameterPid) => 14,
        Some(ProfileFault::ParameterLimits) => 15,
        Some(ProfileFault::ParameterStart) => 16,
        Some(ProfileFault::ParameterOrder) => 17,
        Some(ProfileFault::ParameterFields) => 18,
        Some(ProfileFault::ParameterStandard) => 19,
        Some(ProfileFault::ParameterNames) => 20,
        Some(ProfileFault::ParameterLocks) => 21,
        Some(ProfileFault::ParameterLockState) => 22,
        Some(ProfileFault::ParameterLocked) => 23,
        Some(ProfileFault::BindingUid) => 24,
        Some(ProfileFault::ModeCount) => 25,
        Some(ProfileFault::ModeFootprint) => 26,
        Some(ProfileFault::ModeSlots) => 27,
    }
}
