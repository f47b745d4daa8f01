//! Devices made of a profile.

ghost use Rattle.std.specs.Prelude.{◌≡◌, ◌≢◌, ◌↔◌, ◌≤◌, ◌<◌, Err, IfErr, IfOk, Some, map, replicate};
ghost use Rattle.rdm_added.specs.Parameters.{parameters_of, common_at_start};
ghost use Rattle.rdm_profile.specs.Profiles.{IsGoodProfile};
ghost use Rattle.rdm_added.specs.Views.State.{common_entries};

use crate::commands::{Devices, NewError};
use rdm_device::{CommonValues, Profile, RootValues, Unit, is_good};
use rdm_frame::standard::MOST_SUB_DEVICES;
use std::alloc::{AllocError, Global};

impl Devices {
    /// The devices of a profile, with the values that they start with.
    ///
    /// It is `TooManySubs` over 512 sub-devices, else `BadProfile` if the profile breaks a rule.
    // Inlined, since a call would have a copy of the profile on the stack.
    #[inline(always)]
    pub fn new(alloc: Global, profile: Profile) -> Result<Devices, NewError>
        ensures ok { IfOk result (λ devices. devices ≡ parameters_of profile) }
        ensures too_many { (result ≡ Err NewError.TooManySubs) ↔ (512 < profile.subs) }
        ensures bad { (result ≡ Err NewError.BadProfile) ↔ ((profile.subs ≤ 512) × ¬ IsGoodProfile profile) }
    {
        if let Some(refusal) = refusal_of(&profile) {
            return Err(refusal);
        }
        let Ok(profile) = Box::new(alloc, profile) else {
            return Err(NewError::OutOfMemory);
        };
        Devices::at_start(alloc, profile)
    }

    /// The devices of a profile that has its place already, as `new`: for a caller with little stack, since a profile has 4,688
    /// bytes.
    pub fn new_boxed(alloc: Global, profile: Box<Profile>) -> Result<Devices, NewError>
        ensures ok { IfOk result (λ devices. devices ≡ parameters_of profile.value) }
        ensures too_many { (result ≡ Err NewError.TooManySubs) ↔ (512 < profile.value.subs) }
        ensures bad { (result ≡ Err NewError.BadProfile) ↔ ((profile.value.subs ≤ 512) × ¬ IsGoodProfile profile.value) }
    {
        if let Some(refusal) = refusal_of(&profile) {
            return Err(refusal);
        }
        Devices::at_start(alloc, profile)
    }

    /// The devices of a profile with the values that they start with, if there is memory for the sub-devices.
    // Inlined, since a call would hand on a copy of the devices.
    #[inline(always)]
    #[tactic(auto, unfolding(rdm_added::specs::Parameters::parameters_of))]
    fn at_start(alloc: Global, profile: Box<Profile>) -> Result<Devices, NewError>
        ensures ok { IfOk result (λ devices. devices ≡ parameters_of profile.value) }
        ensures err { IfErr result (λ e. e ≡ NewError.OutOfMemory) }
    {
        let root = CommonValues::at_start(&profile.root);
        let Ok(own) = RootValues::at_start(alloc, &profile) else {
            return Err(NewError::OutOfMemory);
        };
        let Ok(subs) = start_each(alloc, &profile.sub, profile.subs) else {
            return Err(NewError::OutOfMemory);
        };
        Ok(Devices {
            profile,
            root,
            own,
            subs,
        })
    }
}

/// Why no devices can be made of a profile, if so.
fn refusal_of(profile: &Profile) -> Option<NewError>
    ensures too_many { (result ≡ Some NewError.TooManySubs) ↔ (512 < profile.now.subs) }
    ensures bad { (result ≡ Some NewError.BadProfile) ↔ ((profile.now.subs ≤ 512) × ¬ IsGoodProfile profile.now) }
    ensures memory { result ≢ Some NewError.OutOfMemory }
{
    if profile.subs > MOST_SUB_DEVICES {
        return Some(NewError::TooManySubs);
    }
    if !is_good(profile) {
        return Some(NewError::BadProfile);
    }
    None
}

/// This many sub-devices, with the values that they start with. They take their memory at once, and no more than they need.
fn start_each(alloc: Global, unit: &Unit, count: u16) -> Result<Vec<CommonValues>, AllocError>
    ensures { IfOk result (λ subs. map common_entries subs.items ≡ replicate count (common_at_start unit.now)) }
{
    let mut subs = Vec::with_capacity(alloc, usize::from(count))?;
    for _ in 0..count {
        subs.push(CommonValues::at_start(unit))?;
    }
    Ok(subs)
}
