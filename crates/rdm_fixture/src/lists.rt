//! Lists of a table.

ghost use Rattle.std.specs.Prelude.{◌≡◌, ◌≢◌, ◌≤◌, ◌↔◌, ℕ, List, IfOk, IfErr, IsTrue, AllPairs, length, codes};
ghost use Rattle.toml.specs.Data.{Members, get_member};
ghost use Rattle.toml.specs.View.{view, array_view, table_view};
ghost use Rattle.rdm_fixture_keys.specs.Faults.{Fault, told};
ghost use Rattle.rdm_fixture_keys.specs.Keys.{Reads};
ghost use Rattle.rdm_fixture.specs.Lists.{OfTable, EachIs, Lists, InEntry, FirstEntry, entries as list_part};

use arrayvec::ArrayVec;
use rdm_fixture_keys::keys::find;
use rdm_fixture_keys::{Refusal, Wanted};
use toml::value::Array;
use toml::{Table, Value};

/// What an entry of a list of tables is read as, for a device with N slots.
pub(crate) trait FromEntry: Default + Drop {
    ghost says: { ℕ → Members → Self → Type 0 };

    ghost wrong: { ℕ → Members → Fault → Type 0 };

    /// Reads the entry.
    fn from_entry(table: &Table, slots: u16) -> Result<Self, Refusal>
        ensures read { Reads (says slots) (table_view table.now) result }
        ensures wrong { IfErr result (λ e. wrong slots (table_view table.now) (told e)) };
}

/// The list at a key, of `least` entries or more.
pub(crate) fn list<E: FromEntry, const N: usize>(
    table: &Table,
    key: &str,
    least: usize,
    slots: u16,
) -> Result<ArrayVec<E, N>, Refusal>
    ensures read { Reads (λ t xs. Lists t key.now (OfTable (E.says slots)) least N xs.items) (table_view table.now) result }
    ensures wrong { IfErr result (λ e. (list_part key.now (E.says slots) (E.wrong slots) least N).Wrong (table_view table.now) (told e)) }
{
    let Some(value) = find(table, key) else {
        if least > 0 {
            return Err(Refusal::at(key, Wanted::Key));
        }
        return Ok(ArrayVec::new());
    };
    let Value::Array(entries) = value else {
        return Err(Refusal::at(key, Wanted::List { least, most: N }));
    };
    if entries.len() < least || entries.len() > N {
        return Err(Refusal::at(key, Wanted::List { least, most: N }));
    }
    entries_of(entries, key, slots)
}

/// The entries, one by one.
fn entries_of<E: FromEntry, const N: usize>(
    entries: &Array,
    key: &str,
    slots: u16,
) -> Result<ArrayVec<E, N>, Refusal>
    requires { length entries.now.items ≤ N }
    ensures read { Reads (λ ds xs. EachIs (OfTable (E.says slots)) ds xs.items) (array_view entries.now) result }
    ensures wrong { IfErr result (λ e. FirstEntry key.now (E.says slots) (E.wrong slots) 1 (array_view entries.now) (told e)) }
{
    let mut read = ArrayVec::new();
    for (i, entry) in entries.iter().enumerate() {
        match entry_of(entry, key, slots) {
            Ok(item) => read.push(item),
            Err(refusal) => return Err(refusal.in_entry(key, i + 1)),
        }
    }
    Ok(read)
}

/// The entry, which has to be a table.
fn entry_of<E: FromEntry>(entry: &Value, key: &str, slots: u16) -> Result<E, Refusal>
    ensures read { Reads (OfTable (E.says slots)) (view entry.now) result }
    ensures wrong { IfErr result (λ e. InEntry key.now (E.wrong slots) (view entry.now) (told e)) }
{
    match entry {
        Value::Table(table) => E::from_entry(table, slots),
        _ => Err(Refusal::at(key, Wanted::Table)),
    }
}
