//! How long the slow commands of a fixture take.

ghost use Rattle.std.specs.Prelude.{◌≡◌, IfErr, codes};
ghost use Rattle.toml.specs.Data.{get_member};
ghost use Rattle.toml.specs.View.{table_view};
ghost use Rattle.rdm_fixture_keys.specs.Faults.{told};
ghost use Rattle.rdm_fixture.specs.FirstWrong.{estimates_parts, WrongEstimates};
ghost use Rattle.rdm_fixture.specs.Format.{IsEstimates, EstimatesAt};
ghost use Rattle.rdm_fixture_keys.specs.Keys.{may, Reads};
ghost use Rattle.rdm_fixture_keys.specs.Values.{number};
ghost use Rattle.rdm_fixture_keys.specs.Wrong.{FirstWrong};

use rdm_device::Estimates;
use rdm_fixture_keys::keys::{find, integer_in, only};
use rdm_fixture_keys::{Refusal, Section, Wanted};
use toml::{Table, Value};

/// What is wanted of a time.
const TIME: Wanted = Wanted::Number {
    least: 0,
    most: 0xFFFF,
};

/// The times of slow commands. Without their table they are the usual ones, and so is each that the table doesn't say.
pub(crate) fn estimates(table: &Table) -> Result<Estimates, Refusal>
    ensures read { Reads (λ t e. EstimatesAt (get_member (codes "estimates") t) e) (table_view table.now) result }
    ensures wrong { IfErr result (λ e. WrongEstimates (get_member (codes "estimates") (table_view table.now)) (told e)) }
{
    let Some(value) = find(table, "estimates") else {
        return Ok(Estimates::usual());
    };
    let Value::Table(times) = value else {
        return Err(Refusal::at("estimates", Wanted::Table));
    };
    match times_of(times) {
        Ok(read) => Ok(read),
        Err(refusal) => Err(refusal.in_section(Section::Estimates)),
    }
}

fn times_of(table: &Table) -> Result<Estimates, Refusal>
    ensures read { Reads IsEstimates (table_view table.now) result }
    ensures wrong { IfErr result (λ e. FirstWrong estimates_parts (table_view table.now) (told e)) }
{
    only(
        table,
        &[
            "lamp_state",
            "power_state",
            "perform_selftest",
            "sensor_value",
        ],
    )?;
    let Some(lamp) = time(table, "lamp_state", 50) else {
        return Err(Refusal::at("lamp_state", TIME));
    };
    let Some(power) = time(table, "power_state", 20) else {
        return Err(Refusal::at("power_state", TIME));
    };
    let Some(self_test) = time(table, "perform_selftest", 100) else {
        return Err(Refusal::at("perform_selftest", TIME));
    };
    let Some(sensor) = time(table, "sensor_value", 5) else {
        return Err(Refusal::at("sensor_value", TIME));
    };
    Ok(Estimates {
        lamp,
        power,
        self_test,
        sensor,
    })
}

/// A time, which is the usual one if it is left out.
fn time(table: &Table, key: &str, usual: u16) -> Option<u16>
    ensures { result ≡ may usual (number 0 0xFFFF) (get_member key.now (table_view table.now)) }
{
    match find(table, key) {
        Some(value) => Some(integer_in(value, 0, 0xFFFF)? as u16),
        None => Some(usual),
    }
}
