//! What LOCK_STATE keeps from being set, and who may set it (E1.37-1).

ghost use Rattle.std.specs.Prelude.{◌≡◌, ◌≤◌, ◌==◌, ◌&&◌, ◌||◌, length, take, nat_lt};
ghost use Rattle.std.specs.Int.{w16, from_be_bytes};
ghost use Rattle.std.specs.List.{list_any};
ghost use Rattle.rdm_added.specs.Locking.{lock_state, pin_kept, is_lock_of, is_locked, is_no_pin, state_of, knows_pin, knows_old_pin, new_pin, locks_in, value_set, is_set_locked};
ghost use Rattle.rdm_added.specs.Views.State.{added_entries};

use crate::added::{bytes_at, first_of};
use crate::state::Kept;
use rdm_profile::{Lock, Profile};

/// DMX_START_ADDRESS.
const DMX_START_ADDRESS: u16 = 0x00F0;

/// DMX_BLOCK_ADDRESS.
const DMX_BLOCK_ADDRESS: u16 = 0x0140;

/// SENSOR_VALUE.
const SENSOR_VALUE: u16 = 0x0201;

/// RECORD_SENSORS.
const RECORD_SENSORS: u16 = 0x0202;

/// LOCK_PIN.
const LOCK_PIN: u16 = 0x0640;

/// LOCK_STATE.
const LOCK_STATE: u16 = 0x0641;

/// Whether the lock state locks a parameter.
// Most profiles have no locks.
#[inline(always)]
pub fn is_locked(profile: &Profile, values: &[Kept], pid: u16) -> bool
    ensures { result ≡ is_locked profile.now.particulars.locks (added_entries values.now) pid }
{
    let locks = profile.particulars.locks();
    !locks.is_empty() && does_one_lock(locks, lock_state(values), pid)
}

/// Whether the lock state keeps a parameter from being set: it locks that parameter, or the one whose values the SET writes.
#[inline(always)]
pub fn is_set_locked(profile: &Profile, values: &[Kept], pid: u16) -> bool
    ensures { result ≡ is_set_locked profile.now.particulars.locks (added_entries values.now) pid }
{
    let locks = profile.particulars.locks();
    !locks.is_empty() && does_one_keep(locks, lock_state(values), pid)
}

/// Whether one of these keeps a parameter from being set in this state.
#[cold]
#[inline(never)]
fn does_one_keep(locks: &[Lock], state: u8, pid: u16) -> bool
    ensures { result ≡ (locks_in locks.now state pid || locks_in locks.now state (value_set pid)) }
{
    does_one_lock(locks, state, pid) || does_one_lock(locks, state, value_set(pid))
}

/// The parameter whose values a SET writes.
fn value_set(pid: u16) -> u16
    ensures { result ≡ value_set pid }
{
    match pid {
        RECORD_SENSORS => SENSOR_VALUE,
        DMX_BLOCK_ADDRESS => DMX_START_ADDRESS,
        _ => pid,
    }
}

/// Whether one of these locks a parameter in this state.
#[cold]
#[inline(never)]
pub(crate) fn does_one_lock(locks: &[Lock], state: u8, pid: u16) -> bool
    ensures { result ≡ locks_in locks.now state pid }
{
    locks
        .iter()
        .any(|lock| lock.state == state && lock.pid == pid)
}

/// The lock state that is kept, and 0 where there is none.
pub(crate) fn lock_state(values: &[Kept]) -> u8
    ensures { result ≡ lock_state (added_entries values.now) }
{
    first_of(bytes_at(values, LOCK_STATE, 0))
}

/// Whether the data of a SET of LOCK_PIN say a new PIN that is none.
pub fn is_no_pin(pid: u16, data: &[u8]) -> bool
    ensures { result ≡ is_no_pin pid data.now }
{
    pid == LOCK_PIN && begin_above_pins(data)
}

/// Whether data of the length of two PINs begin with a number of more than four digits.
// A call: most parameters are no PIN.
#[cold]
#[inline(never)]
fn begin_above_pins(data: &[u8]) -> bool
    ensures { result ≡ (length data.now == 4 && nat_lt 9999 (from_be_bytes w16 (take 2 data.now))) }
{
    match data {
        [a, b, _, _] => 9999 < u16::from_be_bytes([*a, *b]),
        _ => false,
    }
}

/// The lock state that the slots of a SET name.
pub(crate) fn state_of(slots: &[u8]) -> u8
    ensures { result ≡ state_of slots.now }
{
    match slots {
        [_, _, state, ..] => *state,
        _ => 0,
    }
}

/// Whether the slots of a SET of the lock state begin with the PIN.
pub(crate) fn knows_pin(values: &[Kept], slots: &[u8]) -> bool
    ensures { result ≡ knows_pin (pin_kept (added_entries values.now)) slots.now }
{
    front_of(slots) == bytes_at(values, LOCK_PIN, 0)
}

/// Whether the slots of a SET of the PIN end with that which is kept.
pub(crate) fn knows_old_pin(values: &[Kept], slots: &[u8]) -> bool
    ensures { result ≡ knows_old_pin (pin_kept (added_entries values.now)) slots.now }
{
    &slots[slots.len().min(2)..] == bytes_at(values, LOCK_PIN, 0)
}

/// The new PIN that the slots of a SET begin with.
pub(crate) fn new_pin(slots: &[u8]) -> &[u8]
    ensures value { result.now ≡ new_pin slots.now }
    ensures few { length result.now ≤ 2 }
{
    front_of(slots)
}

fn front_of(slots: &[u8]) -> &[u8]
    ensures value { result.now ≡ take 2 slots.now }
    ensures few { length result.now ≤ 2 }
{
    &slots[..slots.len().min(2)]
}
