//! Which parameters the lock states of a profile can keep from being set (E1.37-1).

ghost use Rattle.std.specs.Prelude.{◌≡◌, ◌↔◌, ◌==◌, IsTrue};
ghost use Rattle.std.specs.List.{list_any};
ghost use Rattle.rdm_profile.specs.Locks.{is_state_of, has_state, has_pin, can_open, quick_pids, sets_of_table, sets_of_own, can_hold};
ghost use Rattle.rdm_profile.specs.Profiles.{HaveStates, CanOpen, CanHold};

use rdm_added::added::{greatest, has_get, has_set};
use rdm_profile::{Lock, ParameterDef, are_lacking};

/// LOCK_PIN.
const LOCK_PIN: u16 = 0x0640;

/// LOCK_STATE.
const LOCK_STATE: u16 = 0x0641;

/// Whether each lock is of a state that LOCK_STATE has beside 0, in which the device is unlocked.
pub fn have_states(defs: &[ParameterDef], locks: &[Lock]) -> bool
    ensures { IsTrue result ↔ HaveStates defs.now locks.now }
{
    locks.iter().all(|lock| has_state(defs, lock))
}

/// Whether a lock is of a state that one of the parameters has.
fn has_state(defs: &[ParameterDef], lock: &Lock) -> bool
    ensures { result ≡ has_state defs.now lock.now }
{
    defs.iter().any(|def| is_state_of(lock, def))
}

fn is_state_of(lock: &Lock, def: &ParameterDef) -> bool
    ensures { result ≡ is_state_of lock.now def.now }
{
    def.pid == LOCK_STATE && 1 <= lock.state && lock.state <= greatest(def)
}

/// Whether LOCK_STATE, if it is one of these parameters, can be read, and has LOCK_PIN beside it.
pub fn can_open(defs: &[ParameterDef]) -> bool
    ensures { IsTrue result ↔ CanOpen defs.now }
{
    defs.iter().all(|def| can_be_opened(defs, def))
}

/// Whether a parameter isn't LOCK_STATE, or can be read and has LOCK_PIN beside it.
fn can_be_opened(defs: &[ParameterDef], def: &ParameterDef) -> bool
    ensures { result ≡ can_open defs.now def.now }
{
    def.pid != LOCK_STATE || (has_get(def.rights) && has_pin(defs))
}

fn has_pin(defs: &[ParameterDef]) -> bool
    ensures { result ≡ has_pin defs.now }
{
    defs.iter().any(|def| def.pid == LOCK_PIN)
}

/// Whether each lock holds its parameter, where these are left out and these are of the maker's own, and can be opened again.
pub fn can_hold(without: &[u16], defs: &[ParameterDef], locks: &[Lock]) -> bool
    ensures { IsTrue result ↔ CanHold without.now defs.now locks.now }
{
    locks.iter().all(|lock| can_lock(without, defs, lock))
}

/// Whether a lock holds its parameter, and can be opened again.
fn can_lock(without: &[u16], defs: &[ParameterDef], lock: &Lock) -> bool
    ensures { result ≡ can_hold without.now defs.now lock.now }
{
    lock.pid != LOCK_STATE && (sets_of_table(without, lock.pid) || sets_of_own(defs, lock.pid))
}

/// Whether the root has a SET of this parameter of the table, and no job carries it out.
fn sets_of_table(without: &[u16], pid: u16) -> bool
    ensures { result ≡ sets_of_table without.now pid }
{
    is_quick(pid) && !are_lacking(without, pid)
}

/// Whether one of these parameters is it, and has a SET.
fn sets_of_own(defs: &[ParameterDef], pid: u16) -> bool
    ensures { result ≡ sets_of_own defs.now pid }
{
    defs.iter().any(|def| def.pid == pid && has_set(def.rights))
}

/// Whether the table has a SET of it which no job carries out.
fn is_quick(pid: u16) -> bool
    ensures { result ≡ list_any (λ quick. quick == pid) quick_pids }
{
    match pid {
        0x0032 | 0x0033 | 0x0082 | 0x0090 | 0x00B0 | 0x00E0 | 0x00F0 => true,
        0x0201 | 0x0202 => true,
        0x0400 | 0x0401 | 0x0402 | 0x0404 | 0x0405 => true,
        0x0500 | 0x0501 | 0x0600 | 0x0601 | 0x0602 => true,
        0x1000 | 0x1031 => true,
        _ => false,
    }
}
