//! The entries of the lists: personalities, slots, modes, self tests, status IDs, the names of choices, and the locks.

ghost use Rattle.std.specs.Prelude.{◌≡◌, ◌≤◌, ◌<◌, IsTrue, IfOk, Some, [], ◌∷◌};
ghost use Rattle.toml.specs.View.{view};
ghost use Rattle.rdm_fixture.specs.Describable.{are_printable, is_printable_mode};
ghost use Rattle.rdm_fixture_keys.specs.Entries.{IsPersonality, IsSlot, IsSelfTest, IsStatus, IsChoice};
ghost use Rattle.rdm_fixture.specs.Format.{IsLocking, locked_pid};
ghost use Rattle.rdm_fixture.specs.Lists.{ListAt};
ghost use Rattle.rdm_fixture.specs.OwnSlots.{IsMode};
ghost use Rattle.rdm_fixture.specs.Writing.{IsPlain, locking_of};

use super::fields::{
    ToEntry, list_of, put, put_byte, put_label, put_long, put_named_byte, put_text, put_word,
};
use rdm_device::{ChoiceName, Lock, Mode, Personality, SelfTest, Slot, StatusText};
use rdm_standard_names::NameKind;
use std::alloc::{AllocError, Global};
use toml::{Table, Value};

impl ToEntry for Personality {
    ghost says = { IsPersonality };

    ghost can = { λ slots m. (m.footprint ≤ slots) × IsTrue (are_printable m.name) };

    ghost deep = { 1 };

    fn to_entry(&self, alloc: Global) -> Result<Table, AllocError> {
        let mut table = Table::new(alloc);
        put_word(alloc, &mut table, "dmx_footprint", self.footprint)?;
        put_text(alloc, &mut table, "description", &self.name)?;
        Ok(table)
    }
}

impl ToEntry for Slot {
    ghost says = { λ _. IsSlot };

    ghost can = { λ _ s. IsTrue (are_printable s.name) };

    ghost deep = { 1 };

    fn to_entry(&self, alloc: Global) -> Result<Table, AllocError> {
        let mut table = Table::new(alloc);
        put_named_byte(alloc, &mut table, "type", NameKind::Slots, self.kind)?;
        put_label(alloc, &mut table, self.kind, self.label)?;
        put_byte(alloc, &mut table, "default_value", self.value)?;
        put_text(alloc, &mut table, "description", &self.name)?;
        Ok(table)
    }
}

impl ToEntry for Mode {
    ghost says = { λ _. IsMode };

    ghost can = { λ _ m. (m.personality.footprint ≤ 512) × IsTrue (is_printable_mode m) };

    ghost deep = { 3 };

    fn to_entry(&self, alloc: Global) -> Result<Table, AllocError> {
        let mut table = Table::new(alloc);
        put_word(
            alloc,
            &mut table,
            "dmx_footprint",
            self.personality.footprint,
        )?;
        put_text(alloc, &mut table, "description", &self.personality.name)?;
        put_byte(alloc, &mut table, "slots_of", self.slots_of)?;
        let slots = list_of(alloc, self.slots.as_slice())?;
        put(alloc, &mut table, "slot", slots)?;
        Ok(table)
    }
}

impl ToEntry for SelfTest {
    ghost says = { λ _. IsSelfTest };

    ghost can = { λ _ s. ((0 < s.number) × (s.number < 255)) × IsTrue (are_printable s.name) };

    ghost deep = { 1 };

    fn to_entry(&self, alloc: Global) -> Result<Table, AllocError> {
        let mut table = Table::new(alloc);
        put_byte(alloc, &mut table, "number", self.number)?;
        put_text(alloc, &mut table, "description", &self.name)?;
        Ok(table)
    }
}

impl ToEntry for StatusText {
    ghost says = { λ _. IsStatus };

    ghost can = { λ _ s. IsTrue (are_printable s.text) };

    ghost deep = { 1 };

    fn to_entry(&self, alloc: Global) -> Result<Table, AllocError> {
        let mut table = Table::new(alloc);
        put_word(alloc, &mut table, "id", self.id)?;
        put_text(alloc, &mut table, "description", &self.text)?;
        Ok(table)
    }
}

impl ToEntry for ChoiceName {
    ghost says = { λ _. IsChoice };

    ghost can = { λ _ c. (1 ≤ c.number) × IsTrue (are_printable c.name) };

    ghost deep = { 1 };

    fn to_entry(&self, alloc: Global) -> Result<Table, AllocError> {
        let mut table = Table::new(alloc);
        put_word(alloc, &mut table, "pid", self.pid)?;
        put_byte(alloc, &mut table, "number", self.number)?;
        put_long(alloc, &mut table, "hertz", self.hertz)?;
        put_text(alloc, &mut table, "description", &self.name)?;
        Ok(table)
    }
}

/// A table for each lock, though a table could have several of one state.
impl ToEntry for Lock {
    ghost says = { λ _ t l. IsLocking t (locking_of l) };

    ghost can = { λ _ l. 1 ≤ l.state };

    ghost deep = { 2 };

    fn to_entry(&self, alloc: Global) -> Result<Table, AllocError> {
        let mut table = Table::new(alloc);
        put_byte(alloc, &mut table, "state", self.state)?;
        let parameters = only_pid(alloc, self.pid)?;
        put(alloc, &mut table, "parameters", Some(parameters))?;
        Ok(table)
    }
}

/// A list of this PID alone.
fn only_pid(alloc: Global, pid: u16) -> Result<Value, AllocError>
    ensures says { IfOk result (λ v. ListAt (λ d p. locked_pid d ≡ Some p) (Some (view v)) (pid ∷ [])) }
    ensures plain { IfOk result (λ v. IsPlain 1 (view v)) }
{
    let mut pids = Vec::new(alloc);
    pids.push(Value::from(u32::from(pid)))?;
    Ok(Value::Array(pids))
}
