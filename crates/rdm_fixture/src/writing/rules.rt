//! What is written of the rules by which jobs end.

ghost use Rattle.std.specs.Prelude.{◌≡◌, None, Some, IfOk, IfSome, IsTrue, option_map};
ghost use Rattle.toml.specs.View.{view, table_view};
ghost use Rattle.rdm_fixture.specs.Describable.{is_counted, is_ruled};
ghost use Rattle.rdm_fixture_keys.specs.Keys.{may};
ghost use Rattle.rdm_fixture.specs.Outcomes.{IsOutcome, only_number};
ghost use Rattle.rdm_fixture.specs.Writing.{with_fields, outcome_fields, HasWords, IsPlain};

use super::fields::{ToEntry, put, put_name, put_signed, put_word};
use rdm_outcomes::Rule;
use rdm_params::Outcome;
use std::alloc::{AllocError, Global};
use toml::{Table, Value};

impl ToEntry for Rule {
    ghost says = { λ _. IsOutcome };

    ghost can = { λ _ r. IsTrue (is_ruled r) };

    ghost deep = { 1 };

    fn to_entry(&self, alloc: Global) -> Result<Table, AllocError> {
        let mut table = Table::new(alloc);
        put_name(alloc, &mut table, "parameter", self.task.kind().name())?;
        put(alloc, &mut table, "value", value_of(self.value))?;
        put(alloc, &mut table, "job", turn_of(self.turn))?;
        let table = with_outcome(alloc, table, self.outcome)?;
        Ok(table)
    }
}

/// The value of which a rule speaks, unless it speaks of each.
fn value_of(value: Option<u8>) -> Option<Value>
    ensures says { may None (only_number 0 0xFF) (option_map view result) ≡ Some value }
    ensures plain { IfSome result (λ v. IsPlain 0 (view v)) }
{
    match value {
        Some(value) => Some(Value::from(value)),
        None => None,
    }
}

/// The job of which a rule speaks, unless it speaks of each.
fn turn_of(turn: Option<u16>) -> Option<Value>
    ensures says { IsTrue (is_counted turn) → may None (only_number 1 0xFFFF) (option_map view result) ≡ Some turn }
    ensures plain { IfSome result (λ v. IsPlain 0 (view v)) }
{
    match turn {
        Some(turn) => Some(Value::from(u32::from(turn))),
        None => None,
    }
}

/// The table with what jobs come to.
fn with_outcome(alloc: Global, mut table: Table, outcome: Outcome) -> Result<Table, AllocError>
    ensures put { IfOk result (λ t. table_view t ≡ with_fields (outcome_fields outcome) (table_view table)) }
    ensures words { IfOk result (λ _. HasWords outcome) }
{
    match outcome {
        Outcome::Done => put(alloc, &mut table, "done", Some(Value::from(true)))?,
        Outcome::Reading(reading) => put_signed(alloc, &mut table, "reading", reading)?,
        Outcome::Failed {
            severity,
            id,
            v1,
            v2,
        } => {
            put_name(alloc, &mut table, "severity", severity.name())?;
            put_word(alloc, &mut table, "status_id", id)?;
            put_word(alloc, &mut table, "data_value_1", v1)?;
            put_word(alloc, &mut table, "data_value_2", v2)?;
        }
    }
    Ok(table)
}
