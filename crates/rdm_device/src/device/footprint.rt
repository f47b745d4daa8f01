//! The personalities of a device, and the slots that it uses.

ghost use Rattle.std.specs.Prelude.{◌≡◌, ◌-◌, ◌≤◌, [], length, slice_get, if◌then◌else◌};
ghost use Rattle.std.specs.Option.{option_copied};
ghost use Rattle.rdm_added.specs.Spot.{footprint, personalities, slots};

use rdm_added::Place;
use rdm_profile::{Mode, Personality, Slot};

/// How many slots the current personality uses.
#[tactic(auto, unfolding(rdm_added::specs::Views::State::common_entries))]
#[inline]
pub fn footprint(place: &Place<'_>) -> u16
    ensures { result ≡ footprint place.now }
{
    match personality_at(place, place.common.personality) {
        Some(personality) => personality.footprint,
        None => 0,
    }
}

/// The slots that are described of the current personality.
#[tactic(auto, unfolding(rdm_added::specs::Views::State::common_entries))]
pub(crate) fn slots<'a>(place: &Place<'a>) -> &'a [Slot]
    ensures value { result.now ≡ slots place.now }
    ensures few { length result.now ≤ 46 }
{
    place.profile.slots_at(place.common.personality)
}

/// How many personalities the device has.
pub(crate) fn personality_count(place: &Place<'_>) -> u8
    ensures { result ≡ length (personalities place.now) }
{
    (place.unit.personalities.len() + modes(place).len()) as u8
}

/// The personality of this number, from 1; the first one also for 0.
#[tactic(auto, using(crate::proofs::TwoLists::get_first, crate::proofs::TwoLists::get_second))]
#[inline]
pub(crate) fn personality_at<'a>(place: &Place<'a>, number: u8) -> Option<&'a Personality>
    ensures { option_copied result ≡ slice_get (personalities place.now) (number - 1) }
{
    let index = (number as usize).saturating_sub(1);
    let units = place.unit.personalities.as_slice();
    if index < units.len() {
        return units.get(index);
    }
    match modes(place).get(index - units.len()) {
        Some(mode) => Some(&mode.personality),
        None => None,
    }
}

/// The personalities behind those of the unit: only the root has any.
fn modes<'a>(place: &Place<'a>) -> &'a [Mode]
    ensures value { result.now ≡ if place.now.is_root then place.now.profile.particulars.modes else [] }
    ensures few { length result.now ≤ 247 }
{
    match place.own {
        Some(_) => place.profile.particulars.modes(),
        None => &[],
    }
}
