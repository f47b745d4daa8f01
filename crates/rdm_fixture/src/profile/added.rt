//! Which parameters the profile adds, what the things are called of which one is chosen, what is locked, and which of the standard's the
//! fixture lacks.

ghost use Rattle.std.specs.Prelude.{◌≡◌, ◌<◌, ◌≤◌, ◌↔◌, Some, None, IfErr, IfSome, AllPairs, length, [], ◌∷◌, codes};
ghost use Rattle.rdm_profile.specs.Profiles.{MayBeLeftOut, Agree, HaveStates};
ghost use Rattle.rdm_fixture_keys.specs.Faults.{fault, told};
ghost use Rattle.rdm_fixture.specs.FirstWrong as parts;
ghost use Rattle.rdm_fixture.specs.Format as says;
ghost use Rattle.rdm_fixture.specs.Format.{AreLocks};
ghost use Rattle.rdm_fixture_keys.specs.Keys.{Reads};
ghost use Rattle.rdm_fixture.specs.Lists.{OfTable, EachIs, Lists, entries};
ghost use Rattle.rdm_fixture.specs.Parameters.{IsParameter};
ghost use Rattle.rdm_fixture_keys.specs.Wrong.{FirstWrong};
ghost use Rattle.rdm_fixture_keys.specs.declared.refusal.Wanted.TheVariants as wanted;
ghost use Rattle.toml.specs.Data.{get_member};
ghost use Rattle.toml.specs.View.{view, array_view, table_view};

use crate::lists::list;
use crate::profile::locks::locks;
use arrayvec::ArrayVec;
use rdm_device::{ChoiceName, Lock, ParameterDef, agree, are_optional, have_states, leave_no_need};
use rdm_fixture_keys::keys::find;
use rdm_fixture_keys::{Agreement, Refusal, Wanted};
use rdm_params::Kind;
use toml::value::Array;
use toml::{Table, Value};

/// What takes memory in a profile: the parameters that it adds, the names of the things of which one is chosen, and what is locked.
#[derive(Drop)]
pub(crate) struct Added {
    pub(crate) own: ArrayVec<ParameterDef, 32>,
    pub(crate) choices: ArrayVec<ChoiceName, 64>,
    pub(crate) locks: ArrayVec<Lock, 64>,
}

/// The parameters that a profile adds and the names of choices, which agree, and the locks, of states that LOCK_STATE has.
pub(super) fn additions(table: &Table) -> Result<Added, Refusal>
    ensures read { Reads (λ t a. parts.AreAdded t a.own.items a.choices.items × AllPairs (λ a b. a.pid < b.pid) a.own.items
        × Agree a.own.items a.choices.items × AreLocks t a.locks.items × HaveStates a.own.items a.locks.items) (table_view table.now) result }
    ensures wrong { IfErr result (λ e. FirstWrong parts.added_parts (table_view table.now) (told e)) }
{
    let own = own_parameters(table)?;
    let choices = list(table, "choice", 0, 0)?;
    if !agree(own.as_slice(), choices.as_slice()) {
        return Err(Refusal::at("choice", Wanted::Agreement(Agreement::Names)));
    }
    let locks = locks(table)?;
    if !have_states(own.as_slice(), locks.as_slice()) {
        return Err(Refusal::at("lock", Wanted::Agreement(Agreement::States)));
    }
    Ok(Added {
        own,
        choices,
        locks,
    })
}

/// The parameters that a profile adds, in the order of their PIDs.
fn own_parameters(table: &Table) -> Result<ArrayVec<ParameterDef, 32>, Refusal>
    ensures read { Reads (λ t xs. Lists t (codes "parameter") (OfTable IsParameter) 0 32 xs.items
        × AllPairs (λ a b. a.pid < b.pid) xs.items) (table_view table.now) result }
    ensures wrong { IfErr result (λ e. FirstWrong (entries (codes "parameter") IsParameter (FirstWrong parts.parameter_parts) 0 32
        ∷ parts.ascending ∷ []) (table_view table.now) (told e)) }
{
    let defs = list(table, "parameter", 0, 0)?;
    match first_below(defs.as_slice()) {
        None => Ok(defs),
        Some(below) => Err(Refusal::at("pid", Wanted::Ascending).in_entry("parameter", below + 1)),
    }
}

/// The first parameter whose PID isn't above that of each earlier one, if there is one.
fn first_below(defs: &[ParameterDef]) -> Option<usize>
    ensures none { (result ≡ None) ↔ AllPairs (λ a b. a.pid < b.pid) defs.now }
    ensures first { IfSome result (λ n. parts.IsFirstBelow defs.now n) }
{
    for n in 0..defs.len() {
        for i in 0..n {
            if defs[n].pid <= defs[i].pid {
                return Some(n);
            }
        }
    }
    None
}

/// The PIDs of the parameters that the fixture lacks, which are ones that it may lack.
pub(super) fn without(table: &Table) -> Result<ArrayVec<u16, 36>, Refusal>
    ensures read { Reads (λ t xs. parts.AreNamed t xs.items × MayBeLeftOut xs.items) (table_view table.now) result }
    ensures wrong { IfErr result (λ e. FirstWrong (parts.names ∷ parts.optional ∷ parts.unneeded ∷ []) (table_view table.now) (told e)) }
{
    let pids = names(table)?;
    if !are_optional(pids.as_slice()) {
        return Err(Refusal::at("without", Wanted::Optional));
    }
    if !leave_no_need(pids.as_slice()) {
        return Err(Refusal::at("without", Wanted::Unneeded));
    }
    Ok(pids)
}

/// The PIDs of the parameters that are named.
fn names(table: &Table) -> Result<ArrayVec<u16, 36>, Refusal>
    ensures read { Reads (λ t xs. parts.AreNamed t xs.items) (table_view table.now) result }
    ensures wrong { IfErr result (λ e. parts.WrongNames (get_member (codes "without") (table_view table.now)) (told e)) }
{
    let Some(value) = find(table, "without") else {
        return Ok(ArrayVec::new());
    };
    let Value::Array(names) = value else {
        return Err(Refusal::at("without", Wanted::List { least: 0, most: 36 }));
    };
    if names.len() > 36 {
        return Err(Refusal::at("without", Wanted::List { least: 0, most: 36 }));
    }
    pids_of(names)
}

fn pids_of(names: &Array) -> Result<ArrayVec<u16, 36>, Refusal>
    requires { length names.now.items ≤ 36 }
    ensures read { Reads (λ ds xs. EachIs (λ d pid. says.parameter_named d ≡ Some pid) ds xs.items) (array_view names.now) result }
    ensures wrong { IfErr result (λ e. told e ≡ fault (codes "without") wanted.Parameter) }
{
    let mut pids = ArrayVec::new();
    for name in names {
        let Some(pid) = pid_of(name) else {
            return Err(Refusal::at("without", Wanted::Parameter));
        };
        pids.push(pid);
    }
    Ok(pids)
}

/// The PID of the parameter of the standard that is named.
fn pid_of(name: &Value) -> Option<u16>
    ensures { result ≡ says.parameter_named (view name.now) }
{
    let Value::String(name) = name else {
        return None;
    };
    let kind = Kind::named(name.as_bytes())?;
    Some(kind.pid())
}
