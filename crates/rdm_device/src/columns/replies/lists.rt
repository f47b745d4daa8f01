//! Replies that are lists.

ghost use Rattle.std.specs.Prelude.{◌≡◌, ◌≤◌, [], take, length, flat_map};
ghost use Rattle.rdm_device.specs.Columns.Replies.{languages, used_slots, slot_infos, slot_defaults};
ghost use Rattle.rdm_profile.specs.Values.{word_slots};

use crate::device::footprint::{footprint, slots};
use rdm_added::Place;
use rdm_frame::Body;
use rdm_profile::Slot;

/// The codes of the languages.
#[inline(never)]
pub fn languages(place: &Place<'_>, body: &mut Body)
    requires { body.old ≡ [] }
    ensures { body.new ≡ languages place.now }
{
    write_codes(place.profile.languages.as_slice(), body);
}

#[tactic(auto, using(crate::proofs::ListSteps::codes_step, std::proofs::lemmas::Grind::common_steps))]
fn write_codes(languages: &[u16], list: &mut Body)
    requires few { length languages.now ≤ 8 }
    requires empty { list.old ≡ [] }
    ensures { list.new ≡ flat_map word_slots languages.now }
{
    for i in 0..languages.len() {
        list.append(&languages[i].to_be_bytes());
    }
}

/// Of each slot that the current personality uses: the offset, the type and the label ID.
#[inline(never)]
pub fn slot_infos(place: &Place<'_>, body: &mut Body)
    requires { body.old ≡ [] }
    ensures { body.new ≡ slot_infos 0 (used_slots place.now) }
{
    write_infos(used(slots(place), footprint(place)), body);
}

#[tactic(auto, using(crate::proofs::ListSteps::infos_step, std::proofs::lemmas::Grind::common_steps))]
fn write_infos(slots: &[Slot], list: &mut Body)
    requires few { length slots.now ≤ 46 }
    requires empty { list.old ≡ [] }
    ensures { list.new ≡ slot_infos 0 slots.now }
{
    for i in 0..slots.len() {
        let slot = &slots[i];
        list.append(&(i as u16).to_be_bytes());
        list.append(&[slot.kind]);
        list.append(&slot.label.to_be_bytes());
    }
}

/// Of each slot that the current personality uses: the offset and the value when none is received.
#[inline(never)]
pub fn slot_defaults(place: &Place<'_>, body: &mut Body)
    requires { body.old ≡ [] }
    ensures { body.new ≡ slot_defaults 0 (used_slots place.now) }
{
    write_defaults(used(slots(place), footprint(place)), body);
}

#[tactic(auto, using(crate::proofs::ListSteps::defaults_step, std::proofs::lemmas::Grind::common_steps))]
fn write_defaults(slots: &[Slot], list: &mut Body)
    requires few { length slots.now ≤ 46 }
    requires empty { list.old ≡ [] }
    ensures { list.new ≡ slot_defaults 0 slots.now }
{
    for i in 0..slots.len() {
        list.append(&(i as u16).to_be_bytes());
        list.append(&[slots[i].value]);
    }
}

/// As many slots as there are, up to the count.
#[tactic(auto, using(std::proofs::lemmas::List::take_all, std::proofs::lemmas::Grind::common_steps))]
fn used(slots: &[Slot], count: u16) -> &[Slot]
    ensures value { result.now ≡ take count slots.now }
    ensures short { length result.now ≤ length slots.now }
{
    if (count as usize) < slots.len() {
        &slots[..count as usize]
    } else {
        slots
    }
}
