//! The list of supported parameters at a profile that adds some, or leaves some out.

ghost use Rattle.std.specs.Prelude.{◌≡◌, ◌+◌, ◌<◌, ◌≤◌, [], ◌∷◌, ◌++◌, true, false, not, filter, flat_map, length, map, take, drop};
ghost use Rattle.rdm_profile.specs.Values.{word_slots};
ghost use Rattle.rdm_table.specs.Table.Rows.{supported_pids, table_pids, added_pids, is_left_out, with_pid, with_pids};

use arrayvec::ArrayVec;
use rdm_device::{ParameterDef, Profile};
use rdm_frame::Body;

/// The PIDs that the devices support, in their order, beside those that every device does.
// A call, so that a profile with the table alone doesn't make room for it.
#[cold]
#[inline(never)]
pub(crate) fn put_chosen(profile: &Profile, is_root: bool, list: &mut Body)
    requires { list.old ≡ [] }
    ensures { list.new ≡ flat_map word_slots (supported_pids profile.now is_root) }
{
    if is_root {
        put_root(profile, list);
    } else {
        put_sub(profile, list);
    }
}

/// Those of the root.
#[tactic(auto, unfolding(crate::specs::Table::Rows::supported_pids, crate::specs::Table::Rows::table_pids))]
fn put_root(profile: &Profile, list: &mut Body)
    requires { list.old ≡ [] }
    ensures { list.new ≡ flat_map word_slots (supported_pids profile.now true) }
{
    let of_table: [u16; 36] = [
        0x0020, 0x0030, 0x0031, 0x0032, 0x0033, 0x0080, 0x0081, 0x0082, 0x0090, 0x00A0, 0x00B0,
        0x00C1, 0x00C2, 0x00E0, 0x00E1, 0x0120, 0x0121, 0x0122, 0x0200, 0x0201, 0x0202, 0x0400,
        0x0401, 0x0402, 0x0403, 0x0404, 0x0405, 0x0500, 0x0501, 0x0600, 0x0601, 0x0602, 0x1010,
        0x1020, 0x1021, 0x1031,
    ];
    let mut pids = staying(profile, &of_table);
    add_own(profile, &mut pids);
    put_all(pids.as_slice(), list);
}

/// Those of a sub-device.
#[tactic(auto, unfolding(crate::specs::Table::Rows::supported_pids, crate::specs::Table::Rows::table_pids))]
fn put_sub(profile: &Profile, list: &mut Body)
    requires { list.old ≡ [] }
    ensures { list.new ≡ flat_map word_slots (supported_pids profile.now false) }
{
    let of_table: [u16; 11] = [
        0x0033, 0x0080, 0x0081, 0x0082, 0x00E0, 0x00E1, 0x0401, 0x0402, 0x0403, 0x0404, 0x1010,
    ];
    let pids = staying(profile, &of_table);
    put_all(pids.as_slice(), list);
}

/// Those of these PIDs that the profile doesn't leave out.
#[tactic(auto, using(crate::proofs::Supported::stays, crate::proofs::Supported::goes, std::proofs::lemmas::Grind::common_steps))]
fn staying(profile: &Profile, pids: &[u16]) -> ArrayVec<u16, 72>
    requires { length pids.now ≤ 36 }
    ensures pids { result.items ≡ filter (λ pid. not (is_left_out profile.now pid)) pids.now }
    ensures few { length result.items ≤ 36 }
{
    let mut staying = ArrayVec::new();
    for i in 0..pids.len() {
        if !profile.lacks(pids[i]) {
            staying.push(pids[i]);
        }
    }
    staying
}

/// Puts the PIDs that the profile adds among these, each in its place.
fn add_own(profile: &Profile, pids: &mut ArrayVec<u16, 72>)
    requires { length pids.old.items ≤ 36 }
    ensures pids { pids.new.items ≡ with_pids (added_pids profile.now) pids.old.items }
    ensures few { length pids.new.items ≤ 68 }
{
    let own = profile.particulars.own();
    add_each(own, pids);
}

/// Puts the PIDs of these parameters among others, each in its place.
#[tactic(auto, using(crate::proofs::Supported::one_more, std::proofs::lemmas::Grind::common_steps))]
fn add_each(defs: &[ParameterDef], pids: &mut ArrayVec<u16, 72>)
    requires defs { length defs.now ≤ 32 }
    requires few { length pids.old.items ≤ 36 }
    ensures pids { pids.new.items ≡ with_pids (map (λ d. d.pid) defs.now) pids.old.items }
    ensures few { length pids.new.items ≤ 68 }
{
    for i in 0..defs.len() {
        add(pids, defs[i].pid);
    }
}

/// Puts a PID among others that are in their order, before the first that isn't below it.
#[tactic(auto, using(crate::proofs::Supported::inserted))]
fn add(pids: &mut ArrayVec<u16, 72>, pid: u16)
    requires { length pids.old.items < 72 }
    ensures pids { pids.new.items ≡ with_pid pid pids.old.items }
    ensures one { length pids.new.items ≡ length pids.old.items + 1 }
{
    let place = place_of(pids.as_slice(), pid);
    pids.insert(place, pid);
}

/// How many PIDs stand before the first that isn't below this one.
#[tactic(auto, using(crate::proofs::Supported::before, crate::proofs::Supported::behind, crate::proofs::Supported::past_all, std::proofs::lemmas::Grind::common_steps))]
fn place_of(pids: &[u16], pid: u16) -> usize
    ensures place { with_pid pid pids.now ≡ take result pids.now ++ pid ∷ drop result pids.now }
    ensures within { result ≤ length pids.now }
{
    for i in 0..pids.len() {
        if pid <= pids[i] {
            return i;
        }
    }
    pids.len()
}

/// Writes these PIDs, most significant byte first, into an empty list.
#[tactic(auto, using(rdm_device::proofs::ListSteps::codes_step, std::proofs::lemmas::Grind::common_steps))]
fn put_all(pids: &[u16], list: &mut Body)
    requires few { length pids.now ≤ 68 }
    requires empty { list.old ≡ [] }
    ensures { list.new ≡ flat_map word_slots pids.now }
{
    for i in 0..pids.len() {
        list.append(&pids[i].to_be_bytes());
    }
}
