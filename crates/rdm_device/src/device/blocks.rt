//! The slots that all sub-devices use, as one block of addresses (E1.37-1, DMX_BLOCK_ADDRESS).
//!
//! Each public function goes through all sub-devices.

ghost use Rattle.std.specs.Prelude.{◌≡◌, ◌↔◌, ◌<◌, ◌+◌, ◌==◌, ◌&&◌, true, false, nat_le, min, map, length, find, slice_set, slice_index_or, []};
ghost use Rattle.std.specs.Option.{option_map};
ghost use Rattle.rdm_profile.specs.declared.value.Value.TheVariants.{Word};
ghost use Rattle.rdm_device.specs.Columns.Changes.{stored_at};
ghost use Rattle.rdm_profile.specs.Forms.{word};
ghost use Rattle.rdm_device.specs.Device.Blocks.{sub_devices, has_slots, total, start_in, follow, base_if, base_address, block_slots, BlockIsTold, fits, started, started_from};
ghost use Rattle.rdm_added.specs.Map.{update};
ghost use Rattle.rdm_added.specs.Spot.{Spot, sub_device, footprint};
ghost use Rattle.rdm_added.specs.Views.State.{common_entries};

use crate::device::footprint::footprint;
use rdm_added::{CommonValues, Place};
use rdm_frame::Body;
use rdm_frame::standard::MOST_DMX_SLOTS;
use rdm_profile::{Profile, writes};

/// The base address where there is no block.
const NO_BLOCK: u16 = 0xFFFF;

/// Where the block starts at an address at which it can, this is the address that is told, with as many slots as before.
pub fn moved_block_is_told()
    ensures { BlockIsTold }
{}

/// Writes how many slots all sub-devices use together, and the base address, into an empty list.
pub fn block_shown(profile: &Profile, subs: &[CommonValues], body: &mut Body)
    requires { body.old ≡ [] }
    ensures { body.new ≡ block_slots (sub_devices profile.now (map common_entries subs.now)) }
{
    body.append(&slots_used(profile, subs).to_be_bytes());
    body.append(&base_address(profile, subs).to_be_bytes());
}

/// How many slots all sub-devices use together, or 65535 if they are more.
fn slots_used(profile: &Profile, subs: &[CommonValues]) -> u16
    ensures { result ≡ min (total (sub_devices profile.now (map common_entries subs.now))) 0xFFFF }
{
    let mut total: u16 = 0;
    for common in subs {
        total = total.saturating_add(slots_of(profile, common));
    }
    total
}

/// The start address of the first sub-device that uses slots, if all that do follow one another without gaps from there on, else
/// 65535.
fn base_address(profile: &Profile, subs: &[CommonValues]) -> u16
    ensures { result ≡ base_address (sub_devices profile.now (map common_entries subs.now)) }
{
    match first_start(profile, subs) {
        Some(base) => base_if(profile, subs, base),
        None => NO_BLOCK,
    }
}

/// This address, if the sub-devices that use slots follow one another from there on, else 65535.
fn base_if(profile: &Profile, subs: &[CommonValues], base: u16) -> u16
    ensures { result ≡ base_if base (sub_devices profile.now (map common_entries subs.now)) }
{
    if follow(profile, subs, base) {
        base
    } else {
        NO_BLOCK
    }
}

/// The start address of the first sub-device that uses slots, if there is one.
fn first_start(profile: &Profile, subs: &[CommonValues]) -> Option<u16>
    ensures { result ≡ option_map (λ spot. start_in spot.entries) (find has_slots (sub_devices profile.now (map common_entries subs.now))) }
{
    for common in subs {
        if slots_of(profile, common) != 0 {
            return Some(start_kept(common));
        }
    }
    None
}

/// Whether the sub-devices that use slots follow one another without gaps from this address on.
fn follow(profile: &Profile, subs: &[CommonValues], base: u16) -> bool
    ensures { result ≡ follow base (sub_devices profile.now (map common_entries subs.now)) }
{
    let mut next = base as u32;
    for common in subs {
        let used = slots_of(profile, common);
        if used == 0 {
            continue;
        }
        let start = start_kept(common) as u32;
        if start != next {
            return false;
        }
        next = start + used as u32;
    }
    true
}

/// Whether the block of all slots that sub-devices use can start at an address: there is one, and its last slot is one of the 512.
pub fn block_fits(profile: &Profile, subs: &[CommonValues], base: u16) -> bool
    ensures { result ≡ fits base (sub_devices profile.now (map common_entries subs.now)) }
{
    has_room(base, slots_used(profile, subs))
}

/// Whether so many slots are some, and lie among the 512 from an address on.
fn has_room(base: u16, slots: u16) -> bool
    ensures { result ≡ (nat_le 1 base && nat_le 1 slots && nat_le (base + slots) 513) }
{
    1 <= base && 1 <= slots && base as u32 + slots as u32 <= MOST_DMX_SLOTS as u32 + 1
}

/// Lets the block of all slots that sub-devices use start at this address, and says whether a start address is another.
pub fn start_block(profile: &Profile, subs: &mut [CommonValues], base: u16) -> bool
    requires { fits base (sub_devices profile.now (map common_entries subs.old)) ≡ true }
    ensures after { map common_entries subs.new ≡ started_from base (sub_devices profile.now (map common_entries subs.old)) }
    ensures same { (result ≡ false) ↔ (map common_entries subs.new ≡ map common_entries subs.old) }
{
    let mut next = base;
    let mut changed = false;
    for i in 0..subs.len() {
        let used = slots_of(profile, &subs[i]);
        let here = start_at(profile, subs, i, next);
        changed = changed || here;
        next += used;
    }
    changed
}

/// Lets the sub-device at this place, from 0, start at this address, if it uses slots, and says whether that is another.
fn start_at(profile: &Profile, subs: &mut [CommonValues], index: usize, start: u16) -> bool
    requires { index < length subs.old }
    ensures after { map common_entries subs.new ≡ slice_set (map common_entries subs.old) index
        (started start (sub_device profile.now (slice_index_or (map common_entries subs.old) index []))) }
    ensures same { (result ≡ false) ↔ (map common_entries subs.new ≡ map common_entries subs.old) }
{
    start_one(profile, &mut subs[index], start)
}

/// Lets a sub-device start at this address, if it uses slots, and says whether that is another.
fn start_one(profile: &Profile, common: &mut CommonValues, start: u16) -> bool
    ensures after { common_entries common.new ≡ started start (sub_device profile.now (common_entries common.old)) }
    ensures same { (result ≡ false) ↔ (common_entries common.new ≡ common_entries common.old) }
{
    if slots_of(profile, common) == 0 {
        return false;
    }
    write_start(common, start)
}

/// Keeps a start address, and says whether it is another.
#[tactic(auto, unfolding(rdm_added::specs::Views::State::common_entries))]
fn write_start(common: &mut CommonValues, start: u16) -> bool
    ensures after { (spot : Spot) → common_entries common.new ≡ update (stored_at 0x00F0 word spot (Word start)) (common_entries common.old) }
    ensures same { (result ≡ false) ↔ (common_entries common.new ≡ common_entries common.old) }
{
    writes::word(&mut common.start, start)
}

/// How many slots a sub-device uses.
fn slots_of(profile: &Profile, common: &CommonValues) -> u16
    ensures { result ≡ footprint (sub_device profile.now (common_entries common.now)) }
{
    footprint(&Place::of_sub(profile, common))
}

/// The start address of a sub-device.
#[tactic(auto, unfolding(rdm_added::specs::Views::State::common_entries))]
fn start_kept(common: &CommonValues) -> u16
    ensures { result ≡ start_in (common_entries common.now) }
{
    common.start
}
