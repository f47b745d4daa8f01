//! How jobs end.

ghost use Rattle.std.specs.Prelude.{◌≡◌, ◌↔◌, IfErr, IsOk, IsTrue, Some, None, MatchOption, codes};
ghost use Rattle.toml.specs.Data.{get_member};
ghost use Rattle.toml.specs.View.{view, table_view};
ghost use Rattle.rdm_fixture_keys.specs.Faults.{told};
ghost use Rattle.rdm_fixture.specs.FirstWrong.{rule_parts};
ghost use Rattle.rdm_fixture_keys.specs.Keys.{must, may, has_only};
ghost use Rattle.rdm_fixture.specs.Outcomes as says;
ghost use Rattle.rdm_fixture.specs.Outcomes.{IsOutcome};
ghost use Rattle.rdm_fixture_keys.specs.Values.{number};
ghost use Rattle.rdm_fixture_keys.specs.Wrong.{FirstWrong, only as only_part};

mod wrong;

use crate::lists::FromEntry;
use rdm_fixture_keys::Refusal;
use rdm_fixture_keys::keys::{find, integer_in, integer16_in, only};
use rdm_outcomes::{Rule, Task};
use rdm_params::{Outcome, Severity};
use toml::{Table, Value};
pub(crate) use wrong::out_of_range;
use wrong::what_is_wrong;

/// The keys of each rule, and these.
macro_rules! and_job_keys {
    ($($own:literal),+) => {
        &["parameter", "value", "job", $($own),+]
    };
}

pub(crate) use and_job_keys;

impl FromEntry for Rule {
    ghost says = { λ _. IsOutcome };

    ghost wrong = { λ _. FirstWrong rule_parts };

    fn from_entry(table: &Table, _slots: u16) -> Result<Rule, Refusal> {
        match rule(table) {
            Some(rule) => Ok(rule),
            None => Err(what_is_wrong(table)),
        }
    }
}

/// The rule of a table.
fn rule(table: &Table) -> Option<Rule>
    ensures { MatchOption result ((r : Rule) → ¬ IsOutcome (table_view table.now) r) (IsOutcome (table_view table.now)) }
{
    let outcome = outcome(table)?;
    if only_its_keys(table, &outcome).is_err() {
        return None;
    }
    let rule = Rule {
        task: task(table)?,
        value: value(table)?,
        turn: turn(table)?,
        outcome,
    };
    if rule.suits() { Some(rule) } else { None }
}

/// Rejects the first key that a rule of this outcome doesn't have.
fn only_its_keys(table: &Table, outcome: &Outcome) -> Result<(), Refusal>
    ensures variant { IsOk result ↔ IsTrue (has_only (says.rule_keys outcome.now) (table_view table.now)) }
    ensures wrong { IfErr result (λ e. (only_part (says.rule_keys outcome.now)).Wrong (table_view table.now) (told e)) }
{
    match outcome {
        Outcome::Done => only(table, and_job_keys!("done")),
        Outcome::Reading(_) => only(table, and_job_keys!("reading")),
        Outcome::Failed { .. } => only(
            table,
            and_job_keys!("severity", "status_id", "data_value_1", "data_value_2"),
        ),
    }
}

// ---- the jobs

/// The parameter whose command is the job.
fn task(table: &Table) -> Option<Task>
    ensures { result ≡ must says.task (get_member (codes "parameter") (table_view table.now)) }
{
    task_in(find(table, "parameter")?)
}

fn task_in(value: &Value) -> Option<Task>
    ensures { result ≡ says.task (view value.now) }
{
    let Value::String(name) = value else {
        return None;
    };
    match name.as_str() {
        "LAMP_STATE" => Some(Task::LampState),
        "POWER_STATE" => Some(Task::PowerState),
        "PERFORM_SELFTEST" => Some(Task::PerformSelfTest),
        "SENSOR_VALUE" => Some(Task::SensorValue),
        _ => None,
    }
}

/// The byte of data that comes with the command, or each.
fn value(table: &Table) -> Option<Option<u8>>
    ensures { result ≡ may None (says.only_number 0 0xFF) (get_member (codes "value") (table_view table.now)) }
{
    match find(table, "value") {
        Some(value) => Some(Some(integer_in(value, 0, 0xFF)? as u8)),
        None => Some(None),
    }
}

/// Which of the jobs it is, or each.
fn turn(table: &Table) -> Option<Option<u16>>
    ensures { result ≡ may None (says.only_number 1 0xFFFF) (get_member (codes "job") (table_view table.now)) }
{
    match find(table, "job") {
        Some(value) => Some(Some(integer_in(value, 1, 0xFFFF)? as u16)),
        None => Some(None),
    }
}

// ---- what they come to

/// What the jobs come to, whichever other keys there are.
fn outcome(table: &Table) -> Option<Outcome>
    ensures { result ≡ says.outcome_in (table_view table.now) }
{
    if let Some(value) = find(table, "done") {
        return done_in(value);
    }
    if let Some(value) = find(table, "reading") {
        return Some(Outcome::Reading(integer16_in(value)?));
    }
    failed(table)
}

fn done_in(value: &Value) -> Option<Outcome>
    ensures { result ≡ says.done (view value.now) }
{
    match value {
        Value::Boolean(true) => Some(Outcome::Done),
        _ => None,
    }
}

fn failed(table: &Table) -> Option<Outcome>
    ensures { result ≡ says.failed_in (table_view table.now) }
{
    Some(Outcome::Failed {
        severity: severity(table)?,
        id: status_id(table)?,
        v1: data_value(table, "data_value_1")?,
        v2: data_value(table, "data_value_2")?,
    })
}

pub(crate) fn severity(table: &Table) -> Option<Severity>
    ensures { result ≡ must says.severity (get_member (codes "severity") (table_view table.now)) }
{
    severity_in(find(table, "severity")?)
}

fn severity_in(value: &Value) -> Option<Severity>
    ensures { result ≡ says.severity (view value.now) }
{
    let Value::String(name) = value else {
        return None;
    };
    match name.as_str() {
        "advisory" => Some(Severity::Advisory),
        "warning" => Some(Severity::Warning),
        "error" => Some(Severity::Error),
        _ => None,
    }
}

pub(crate) fn status_id(table: &Table) -> Option<u16>
    ensures { result ≡ must (number 0 0xFFFF) (get_member (codes "status_id") (table_view table.now)) }
{
    Some(integer_in(find(table, "status_id")?, 0, 0xFFFF)? as u16)
}

/// One of the two values that a status text names, which is 0 if it is left out.
pub(crate) fn data_value(table: &Table, key: &str) -> Option<u16>
    ensures { result ≡ may 0 (number 0 0xFFFF) (get_member key.now (table_view table.now)) }
{
    match find(table, key) {
        Some(value) => Some(integer_in(value, 0, 0xFFFF)? as u16),
        None => Some(0),
    }
}
