//! What is wrong with a table that isn't a valid rule, for the message.

ghost use Rattle.std.specs.Prelude.{◌≡◌, MatchOption, None};
ghost use Rattle.rdm_fixture_keys.specs.Faults.{fault, told};
ghost use Rattle.rdm_fixture.specs.FirstWrong as parts;
ghost use Rattle.rdm_fixture.specs.Outcomes as says;
ghost use Rattle.rdm_fixture.specs.Outcomes.{IsOutcome};
ghost use Rattle.rdm_fixture_keys.specs.Wrong.{FirstWrong, AllRight};
ghost use Rattle.rdm_fixture_keys.specs.declared.refusal.Wanted.TheVariants as wanted;
ghost use Rattle.rdm_outcomes.specs.declared.rule.Rule.{Rule};
ghost use Rattle.toml.specs.View.{table_view};

use super::{
    and_job_keys, data_value, only_its_keys, outcome, severity, status_id, task, turn, value,
};
use rdm_fixture_keys::keys::{find, only};
use rdm_fixture_keys::{Refusal, Wanted};
use rdm_params::Outcome;
use toml::Table;

/// The first thing that is wrong: a key that no rule has got, then the jobs, then what they come to.
pub(super) fn what_is_wrong(table: &Table) -> Refusal
    requires { (r : Rule) → ¬ IsOutcome (table_view table.now) r }
    ensures { FirstWrong parts.rule_parts (table_view table.now) (told result) }
{
    let keys = and_job_keys!(
        "done",
        "reading",
        "severity",
        "status_id",
        "data_value_1",
        "data_value_2"
    );
    if let Err(refusal) = only(table, keys) {
        return refusal;
    }
    if let Some(refusal) = wrong_jobs(table) {
        return refusal;
    }
    let Some(outcome) = outcome(table) else {
        return wrong_outcome(table);
    };
    match only_its_keys(table, &outcome) {
        Ok(()) => Refusal::at(key_of(&outcome), Wanted::Suiting),
        Err(refusal) => beside_an_outcome(refusal),
    }
}

/// What is wrong with the jobs that a rule is to speak of, if anything is.
fn wrong_jobs(table: &Table) -> Option<Refusal>
    ensures { MatchOption result (AllRight parts.job_parts (table_view table.now))
        (λ e. FirstWrong parts.job_parts (table_view table.now) (told e)) }
{
    if find(table, "parameter").is_none() {
        return Some(Refusal::at("parameter", Wanted::Key));
    }
    if task(table).is_none() {
        return Some(Refusal::at("parameter", Wanted::Task));
    }
    if value(table).is_none() {
        return Some(out_of_range("value", 0, 0xFF));
    }
    if turn(table).is_none() {
        return Some(out_of_range("job", 1, 0xFFFF));
    }
    None
}

/// What is wrong if a table tells no outcome.
fn wrong_outcome(table: &Table) -> Refusal
    requires { says.outcome_in (table_view table.now) ≡ None }
    ensures { parts.outcome.Wrong (table_view table.now) (told result) }
{
    if find(table, "done").is_some() {
        return Refusal::at("done", Wanted::True);
    }
    if find(table, "reading").is_some() {
        return out_of_range("reading", -32768, 32767);
    }
    wrong_failure(table)
}

/// The same if it would be a failure.
fn wrong_failure(table: &Table) -> Refusal
    requires { says.failed_in (table_view table.now) ≡ None }
    ensures { FirstWrong parts.failure_parts (table_view table.now) (told result) }
{
    if find(table, "severity").is_none() {
        return Refusal::at("severity", Wanted::Outcome);
    }
    if severity(table).is_none() {
        return Refusal::at("severity", Wanted::Severity);
    }
    if find(table, "status_id").is_none() {
        return Refusal::at("status_id", Wanted::Key);
    }
    if status_id(table).is_none() {
        return out_of_range("status_id", 0, 0xFFFF);
    }
    if data_value(table, "data_value_1").is_none() {
        return out_of_range("data_value_1", 0, 0xFFFF);
    }
    out_of_range("data_value_2", 0, 0xFFFF)
}

/// The same, of a key of another outcome.
fn beside_an_outcome(refusal: Refusal) -> Refusal
    ensures { told result ≡ record (told refusal) { wanted = wanted.OneOutcome } }
{
    Refusal {
        wanted: Wanted::OneOutcome,
        ..refusal
    }
}

pub(crate) fn out_of_range(key: &str, least: i64, most: i64) -> Refusal
    ensures { told result ≡ fault key.now (wanted.Number least most) }
{
    Refusal::at(key, Wanted::Number { least, most })
}

/// The key that tells which outcome it is.
fn key_of(outcome: &Outcome) -> &'static str
    ensures { result.now ≡ parts.key_of outcome.now }
{
    match outcome {
        Outcome::Done => "done",
        Outcome::Reading(_) => "reading",
        Outcome::Failed { .. } => "severity",
    }
}
