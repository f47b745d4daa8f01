//! Which profiles a device can be made with.

ghost use Rattle.std.specs.Prelude.{◌≡◌, ◌≢◌, ◌↔◌, ◌<◌, ◌≤◌, IsTrue, All, AllPairs, length};
ghost use Rattle.rdm_profile_rules.specs.Faults.{AreGood, with_slots};
ghost use Rattle.rdm_profile.specs.Modes.{mode_shapes};
ghost use Rattle.rdm_profile.specs.MuteReply.{can_bind};
ghost use Rattle.rdm_profile.specs.Profiles.{AreGoodModes, IsGoodUnit, IsGoodProfile, root_slots};

use crate::faults::{fault_of_modes, parameter_fault};
use rdm_frame::standard::MOST_DMX_SLOTS;
use rdm_profile::{MuteReply, Particulars, Personality, Profile, SelfTest, StatusText, Unit};

/// Whether a device can be made with the profile.
pub fn is_good(profile: &Profile) -> bool
    ensures { IsTrue result ↔ IsGoodProfile profile.now }
{
    is_good_unit(&profile.root, root_slots(profile))
        && is_good_unit(&profile.sub, MOST_DMX_SLOTS as usize)
        && !profile.languages.is_empty()
        && are_numbered(profile.tests.as_slice())
        && tests_differ(profile.tests.as_slice())
        && statuses_differ(profile.status_texts.as_slice())
        && profile.presets < 65535
        && can_differ(&profile.particulars)
        && are_good_modes(profile)
}

/// Whether the personalities that have slots of their own keep their rules.
fn are_good_modes(profile: &Profile) -> bool
    ensures { IsTrue result ↔ AreGoodModes (length profile.now.root.personalities.items) (mode_shapes profile.now) }
{
    match fault_of_modes(profile) {
        None => true,
        Some(_) => false,
    }
}

/// Whether what sets a device apart can: it can lack these parameters, and have those of the maker's own, with these locks; and its
/// binding UID is that of one port.
fn can_differ(particulars: &Particulars) -> bool
    ensures { IsTrue result ↔ (AreGood particulars.now × IsTrue (can_bind particulars.now.mute_reply.binding)) }
{
    are_good(particulars) && can_bind(&particulars.mute_reply())
}

/// Whether a device can lack these parameters, and have those of the maker's own, with these locks.
fn are_good(particulars: &Particulars) -> bool
    ensures { IsTrue result ↔ AreGood particulars.now }
{
    let fault = parameter_fault(
        particulars.without(),
        particulars.own(),
        particulars.choices(),
        particulars.locks(),
    );
    match fault {
        None => true,
        Some(_) => false,
    }
}

/// Whether a binding UID, if one is told, is that of one port.
pub(crate) fn can_bind(reply: &MuteReply) -> bool
    ensures { result ≡ can_bind reply.now.binding }
{
    match reply.binding {
        Some(uid) => !uid.is_broadcast(),
        None => true,
    }
}

/// How many DMX512 slots the root can use.
fn root_slots(profile: &Profile) -> usize
    ensures { result ≡ root_slots profile.now }
{
    slots_with(profile, profile.particulars.more_slots())
}

/// How many it could use with so many slots beside those that the profile describes.
pub(crate) fn slots_with(profile: &Profile, more_slots: u16) -> usize
    ensures { result ≡ root_slots (with_slots profile.now more_slots) }
{
    (profile.slots.len() + more_slots as usize).min(MOST_DMX_SLOTS as usize)
}

/// Whether the unit keeps its rules at a device with this many slots.
fn is_good_unit(unit: &Unit, slots: usize) -> bool
    ensures { IsTrue result ↔ IsGoodUnit unit.now slots }
{
    !unit.personalities.is_empty()
        && 1 <= unit.start
        && unit.start <= MOST_DMX_SLOTS
        && fit(unit.personalities.as_slice(), slots)
}

/// Whether no personality uses more slots than there are.
pub(crate) fn fit(personalities: &[Personality], slots: usize) -> bool
    ensures { IsTrue result ↔ All (λ m. m.footprint ≤ slots) personalities.now }
{
    personalities.iter().all(|m| m.footprint as usize <= slots)
}

/// Whether no test has a number that stands for none or for all.
pub(crate) fn are_numbered(tests: &[SelfTest]) -> bool
    ensures { IsTrue result ↔ All (λ t. (0 < t.number) × (t.number < 255)) tests.now }
{
    tests.iter().all(|t| 0 < t.number && t.number < 255)
}

/// Whether no two tests have one number.
pub(crate) fn tests_differ(tests: &[SelfTest]) -> bool
    ensures { IsTrue result ↔ AllPairs (λ s t. s.number ≢ t.number) tests.now }
{
    for i in 0..tests.len() {
        for j in i + 1..tests.len() {
            if tests[i].number == tests[j].number {
                return false;
            }
        }
    }
    true
}

/// Whether no two status texts have one ID.
pub(crate) fn statuses_differ(texts: &[StatusText]) -> bool
    ensures { IsTrue result ↔ AllPairs (λ s t. s.id ≢ t.id) texts.now }
{
    for i in 0..texts.len() {
        for j in i + 1..texts.len() {
            if texts[i].id == texts[j].id {
                return false;
            }
        }
    }
    true
}
