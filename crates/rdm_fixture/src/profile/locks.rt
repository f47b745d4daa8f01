//! Which parameters the lock states keep from being set.

ghost use Rattle.std.specs.Prelude.{◌≡◌, ◌≢◌, ◌+◌, ◌<◌, ◌≤◌, ◌++◌, Some, None, IfErr, IfSome, length, codes};
ghost use Rattle.rdm_fixture_keys.specs.Faults.{fault, told};
ghost use Rattle.rdm_fixture.specs.FirstWrong as parts;
ghost use Rattle.rdm_fixture.specs.Format as says;
ghost use Rattle.rdm_fixture.specs.Format.{IsLocking, AreLocks};
ghost use Rattle.rdm_fixture_keys.specs.Keys.{Reads};
ghost use Rattle.rdm_fixture.specs.Lists.{EachIs};
ghost use Rattle.rdm_fixture_keys.specs.Wrong.{FirstWrong};
ghost use Rattle.rdm_fixture_keys.specs.declared.refusal.Agreement.TheVariants as agreements;
ghost use Rattle.rdm_fixture_keys.specs.declared.refusal.Wanted.TheVariants as wanted;
ghost use Rattle.toml.specs.Data.{get_member};
ghost use Rattle.toml.specs.View.{view, array_view, table_view};

use crate::lists::{FromEntry, list};
use arrayvec::ArrayVec;
use rdm_device::Lock;
use rdm_fixture_keys::keys::{find, integer_in, number, only};
use rdm_fixture_keys::{Agreement, Refusal, Wanted};
use rdm_params::pid_named;
use toml::value::Array;
use toml::{Table, Value};

/// A lock state, and the PIDs of the parameters that can't be set in it.
#[derive(Drop)]
pub(crate) struct Locking {
    pub(crate) state: u8,
    pub(crate) pids: ArrayVec<u16, 64>,
}

impl Default for Locking {
    ghost use Rattle.std.specs.Prelude.{◌≡◌, []};

    ghost is_default = { λ blank. blank ≡ record { state = 0; pids = record { items = [] } } };

    fn default() -> Locking {
        Locking {
            state: 0,
            pids: ArrayVec::new(),
        }
    }
}

impl FromEntry for Locking {
    ghost says = { λ _. IsLocking };

    ghost wrong = { λ _. FirstWrong parts.locking_parts };

    fn from_entry(table: &Table, _slots: u16) -> Result<Locking, Refusal> {
        only(table, &["state", "parameters"])?;
        Ok(Locking {
            state: number(table, "state", 1, 0xFF)? as u8,
            pids: locked(table)?,
        })
    }
}

/// What is locked, in which state.
pub(super) fn locks(table: &Table) -> Result<ArrayVec<Lock, 64>, Refusal>
    ensures read { Reads (λ t xs. AreLocks t xs.items) (table_view table.now) result }
    ensures wrong { IfErr result (λ e. FirstWrong parts.lock_parts (table_view table.now) (told e)) }
{
    let states: ArrayVec<Locking, 64> = list(table, "lock", 0, 0)?;
    match all_locks(states.as_slice()) {
        Some(locks) => Ok(locks),
        None => Err(Refusal::at("lock", Wanted::Agreement(Agreement::Locks))),
    }
}

/// What all these states lock, one after the other, if it is at most 64.
fn all_locks(states: &[Locking]) -> Option<ArrayVec<Lock, 64>>
    ensures some { IfSome result (λ locks. locks.items ≡ says.all_locks states.now) }
    ensures few { IfSome result (λ locks. length locks.items ≤ 64) }
    ensures none { result ≡ None → 64 < length (says.all_locks states.now) }
{
    let mut locks = ArrayVec::new();
    for locking in states {
        if locks.len() + locking.pids.len() > 64 {
            return None;
        }
        lock_all(&mut locks, locking.state, locking.pids.as_slice());
    }
    Some(locks)
}

/// Adds what one state locks. There must be room.
fn lock_all(locks: &mut ArrayVec<Lock, 64>, state: u8, pids: &[u16])
    requires { length locks.old.items + length pids.now ≤ 64 }
    ensures { locks.new.items ≡ locks.old.items ++ says.locks_of state pids.now }
{
    for pid in pids {
        locks.push(Lock { state, pid: *pid });
    }
}

/// The PIDs of the parameters that are locked, of which there is one at least.
fn locked(table: &Table) -> Result<ArrayVec<u16, 64>, Refusal>
    ensures read { Reads (λ t xs. parts.AreLocked t xs.items) (table_view table.now) result }
    ensures wrong { IfErr result (λ e. parts.WrongLocked (get_member (codes "parameters") (table_view table.now)) (told e)) }
{
    let Some(value) = find(table, "parameters") else {
        return Err(Refusal::at("parameters", Wanted::Key));
    };
    let Value::Array(parameters) = value else {
        return Err(Refusal::at("parameters", FEW));
    };
    if parameters.is_empty() || parameters.len() > 64 {
        return Err(Refusal::at("parameters", FEW));
    }
    pids_of(parameters)
}

/// How many parameters can be named.
const FEW: Wanted = Wanted::List { least: 1, most: 64 };

fn pids_of(parameters: &Array) -> Result<ArrayVec<u16, 64>, Refusal>
    requires { length parameters.now.items ≤ 64 }
    ensures read { Reads (λ ds xs. EachIs (λ d pid. says.locked_pid d ≡ Some pid) ds xs.items) (array_view parameters.now) result }
    ensures wrong { IfErr result (λ e. told e ≡ fault (codes "parameters") (wanted.Agreement agreements.Pids)) }
{
    let mut pids = ArrayVec::new();
    for parameter in parameters {
        let Some(pid) = pid_of(parameter) else {
            return Err(Refusal::at("parameters", Wanted::Agreement(Agreement::Pids)));
        };
        pids.push(pid);
    }
    Ok(pids)
}

/// The PID that a number is, or that of the parameter that is named.
fn pid_of(parameter: &Value) -> Option<u16>
    ensures { result ≡ says.locked_pid (view parameter.now) }
{
    match parameter {
        Value::String(name) => pid_named(name.as_bytes()),
        _ => Some(integer_in(parameter, 0, 0xFFFF)? as u16),
    }
}
