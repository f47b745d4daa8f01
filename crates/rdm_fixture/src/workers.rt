//! Who carries out the slow commands of a fixture.

ghost use Rattle.std.specs.Prelude.{◌≡◌, IfErr, codes};
ghost use Rattle.toml.specs.Data.{get_member};
ghost use Rattle.toml.specs.View.{view, table_view};
ghost use Rattle.rdm_fixture_keys.specs.Faults.{told};
ghost use Rattle.rdm_fixture.specs.FirstWrong.{workers_parts, WrongWorkers};
ghost use Rattle.rdm_fixture.specs.Format.{IsWorkers, WorkersAt};
ghost use Rattle.rdm_fixture_keys.specs.Keys.{may, Reads};
ghost use Rattle.rdm_fixture_keys.specs.Values as says;
ghost use Rattle.rdm_fixture_keys.specs.Wrong.{FirstWrong};

use rdm_device::{Worker, Workers};
use rdm_fixture_keys::keys::{find, integer_in, only};
use rdm_fixture_keys::{Refusal, Section, Wanted};
use toml::{Table, Value};

/// What is wanted of a worker.
const NUMBER: Wanted = Wanted::Number { least: 0, most: 1 };

/// The workers of slow commands. Without their table they are the usual ones, and so is each that the table doesn't say.
pub(crate) fn workers(table: &Table) -> Result<Workers, Refusal>
    ensures read { Reads (λ t ws. WorkersAt (get_member (codes "workers") t) ws) (table_view table.now) result }
    ensures wrong { IfErr result (λ e. WrongWorkers (get_member (codes "workers") (table_view table.now)) (told e)) }
{
    let Some(value) = find(table, "workers") else {
        return Ok(Workers::usual());
    };
    let Value::Table(chosen) = value else {
        return Err(Refusal::at("workers", Wanted::Table));
    };
    match choice_of(chosen) {
        Ok(read) => Ok(read),
        Err(refusal) => Err(refusal.in_section(Section::Workers)),
    }
}

fn choice_of(table: &Table) -> Result<Workers, Refusal>
    ensures read { Reads IsWorkers (table_view table.now) result }
    ensures wrong { IfErr result (λ e. FirstWrong workers_parts (table_view table.now) (told e)) }
{
    only(
        table,
        &[
            "lamp_state",
            "power_state",
            "perform_selftest",
            "sensor_value",
        ],
    )?;
    let Some(lamp) = worker(table, "lamp_state", Worker::First) else {
        return Err(Refusal::at("lamp_state", NUMBER));
    };
    let Some(power) = worker(table, "power_state", Worker::First) else {
        return Err(Refusal::at("power_state", NUMBER));
    };
    let Some(self_test) = worker(table, "perform_selftest", Worker::Second) else {
        return Err(Refusal::at("perform_selftest", NUMBER));
    };
    let Some(sensor) = worker(table, "sensor_value", Worker::Second) else {
        return Err(Refusal::at("sensor_value", NUMBER));
    };
    Ok(Workers {
        lamp,
        power,
        self_test,
        sensor,
    })
}

/// A worker, which is the usual one if it is left out.
fn worker(table: &Table, key: &str, usual: Worker) -> Option<Worker>
    ensures { result ≡ may usual says.worker (get_member key.now (table_view table.now)) }
{
    match find(table, key) {
        Some(value) => worker_of(value),
        None => Some(usual),
    }
}

/// The worker whose number a value is.
fn worker_of(value: &Value) -> Option<Worker>
    ensures { result ≡ says.worker (view value.now) }
{
    match integer_in(value, 0, 1)? {
        0 => Some(Worker::First),
        _ => Some(Worker::Second),
    }
}
