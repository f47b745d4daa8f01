//! What FACTORY_DEFAULTS does with the parameters that a maker adds (E1.20 section 10.5.6).

ghost use Rattle.std.specs.Prelude.{◌≡◌, ◌↔◌, ◌<◌, ◌==◌, ◌&&◌, ◌||◌, not, bytes_eq, length, map, slice_set, slice_index_or, false, find};
ghost use Rattle.std.specs.List.{list_all};
ghost use Rattle.std.specs.Option.{option_copied};
ghost use Rattle.rdm_profile.specs.declared.value.Value.{Value};
ghost use Rattle.rdm_added.specs.Added.{set_back_in, added_set_back};
ghost use Rattle.rdm_added.specs.Locking.{locks_in};
ghost use Rattle.rdm_added.specs.Map.{lookup, update};
ghost use Rattle.rdm_added.specs.Spot.{Spot};
ghost use Rattle.rdm_added.specs.Views.State.{own_entries, added_entries, kept_entry, made_of, no_entry};

use crate::added::{does_one_lock, kept_of, lock_state};
use crate::state::{Kept, RootValues};
use rdm_profile::{Lock, ParameterDef, Profile, writes};

/// Makes each parameter that FACTORY_DEFAULTS sets back, and that isn't locked, what it starts with, and says whether that changed one.
#[inline(never)]
#[tactic(auto, unfolding(crate::specs::Views::State::own_entries))]
pub fn set_added_back(profile: &Profile, own: &mut RootValues) -> bool
    ensures own { own_entries own.new ≡ own_entries own.old }
    ensures after { (spot : Spot) → (v : Value) → spot.profile ≡ profile.now → spot.added ≡ added_entries own.old.added.items
        → added_entries own.new.added.items ≡ update (added_set_back spot v) (added_entries own.old.added.items) }
    ensures same { (result ≡ false) ↔ (added_entries own.new.added.items ≡ added_entries own.old.added.items) }
{
    let state = lock_state(own.added.as_slice());
    let locks = profile.particulars.locks();
    set_in_back(locks, state, profile.particulars.own(), &mut own.added)
}

fn set_in_back(locks: &[Lock], state: u8, defs: &[ParameterDef], values: &mut Vec<Kept>) -> bool
    ensures after { added_entries values.new.items ≡ map (made_of (set_back_in locks.now state defs.now)) (added_entries values.old.items) }
    ensures same { (result ≡ false) ↔ (added_entries values.new.items ≡ added_entries values.old.items) }
{
    set_each_back(locks, state, defs, values.as_mut_slice())
}

/// Sets back each of these values that is of a parameter that is set back and that none of these locks in this state, and says
/// whether that changed one.
fn set_each_back(locks: &[Lock], state: u8, defs: &[ParameterDef], values: &mut [Kept]) -> bool
    ensures after { added_entries values.new ≡ map (made_of (set_back_in locks.now state defs.now)) (added_entries values.old) }
    ensures same { (result ≡ false) ↔ (added_entries values.new ≡ added_entries values.old) }
{
    let mut changed = false;
    for i in 0..values.len() {
        let here = set_back_at(locks, state, defs, values, i);
        changed = changed || here;
    }
    changed
}

/// The same of the value at one place.
fn set_back_at(
    locks: &[Lock],
    state: u8,
    defs: &[ParameterDef],
    values: &mut [Kept],
    index: usize,
) -> bool
    requires { index < length values.old }
    ensures after { added_entries values.new ≡ slice_set (added_entries values.old) index
        (made_of (set_back_in locks.now state defs.now) (slice_index_or (added_entries values.old) index no_entry)) }
    ensures same { (result ≡ false) ↔ (added_entries values.new ≡ added_entries values.old) }
{
    set_one_back(locks, state, defs, &mut values[index])
}

fn set_one_back(locks: &[Lock], state: u8, defs: &[ParameterDef], kept: &mut Kept) -> bool
    ensures after { kept_entry kept.new ≡ made_of (set_back_in locks.now state defs.now) (kept_entry kept.old) }
    ensures same { (result ≡ false) ↔ (kept_entry kept.new ≡ kept_entry kept.old) }
{
    if kept.index != 0 || does_one_lock(locks, state, kept.pid) {
        return false;
    }
    match reset_of(defs, kept.pid) {
        Some(def) => writes::text(&mut kept.bytes, def.start.as_slice()),
        None => false,
    }
}

/// The parameter with this PID, if FACTORY_DEFAULTS sets it back.
fn reset_of(defs: &[ParameterDef], pid: u16) -> Option<&ParameterDef>
    ensures { option_copied result ≡ find (λ d. d.resets && (d.pid == pid)) defs.now }
{
    defs.iter().find(|def| def.resets && def.pid == pid)
}

/// Whether each parameter that FACTORY_DEFAULTS sets back has the value that it starts with.
pub fn are_at_start(defs: &[ParameterDef], values: &[Kept]) -> bool
    ensures { result ≡ list_all (λ d. not d.resets || bytes_eq (lookup (added_entries values.now) d.pid 0) d.start) defs.now }
{
    defs.iter().all(|def| is_at_start(def, values))
}

fn is_at_start(def: &ParameterDef, values: &[Kept]) -> bool
    ensures { result ≡ (not def.now.resets || bytes_eq (lookup (added_entries values.now) def.now.pid 0) def.now.start) }
{
    !def.resets || has_value(values, def.pid, def.start.as_slice())
}

/// Whether these bytes are kept of a parameter.
#[tactic(auto, using(crate::proofs::KeptValues::kept_is))]
fn has_value(values: &[Kept], pid: u16, bytes: &[u8]) -> bool
    ensures { result ≡ bytes_eq (lookup (added_entries values.now) pid 0) bytes.now }
{
    match kept_of(values, pid, 0) {
        Some(kept) => kept.bytes.as_slice() == bytes,
        None => bytes.is_empty(),
    }
}
