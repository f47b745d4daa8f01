//! Status messages that come at their times.

ghost use Rattle.std.specs.Prelude.{◌≡◌, None, IfErr, codes};
ghost use Rattle.toml.specs.Data.{get_member};
ghost use Rattle.toml.specs.View.{table_view};
ghost use Rattle.rdm_fixture_keys.specs.Faults.{fault, told};
ghost use Rattle.rdm_fixture_keys.specs.Keys.{must, may, Reads};
ghost use Rattle.rdm_fixture_keys.specs.Values as values;
ghost use Rattle.rdm_fixture_keys.specs.Wrong.{FirstWrong};
ghost use Rattle.rdm_fixture.specs.Notices as says;
ghost use Rattle.rdm_fixture.specs.Notices.{IsNotice, notice_parts};
ghost use Rattle.rdm_fixture.specs.Outcomes.{only_number};

use crate::lists::FromEntry;
use crate::outcomes::{data_value, out_of_range, severity, status_id};
use rdm_courses::Notice;
use rdm_fixture_keys::keys::{find, integer_in, only};
use rdm_fixture_keys::{Refusal, Wanted};
use toml::Table;

/// What is wanted of a time.
const TIME: Wanted = Wanted::Number {
    least: 0,
    most: 0xFFFF_FFFF,
};

/// What is wanted of a status ID.
const STATUS_ID: Wanted = Wanted::Number {
    least: 0,
    most: 0xFFFF,
};

impl FromEntry for Notice {
    ghost says = { λ _. IsNotice };

    ghost wrong = { λ _. FirstWrong notice_parts };

    fn from_entry(table: &Table, _slots: u16) -> Result<Notice, Refusal> {
        notice(table)
    }
}

/// The message of a table.
fn notice(table: &Table) -> Result<Notice, Refusal>
    ensures read { Reads IsNotice (table_view table.now) result }
    ensures wrong { IfErr result (λ e. FirstWrong notice_parts (table_view table.now) (told e)) }
{
    only(
        table,
        &[
            "at",
            "every",
            "sub_device",
            "severity",
            "status_id",
            "data_value_1",
            "data_value_2",
        ],
    )?;
    let Some(at) = time(table) else {
        return Err(lacking(table, "at", TIME));
    };
    let Some(every) = every(table) else {
        return Err(out_of_range("every", 1, 0xFFFF_FFFF));
    };
    let Some(sub) = sub_device(table) else {
        return Err(out_of_range("sub_device", 0, 512));
    };
    let Some(severity) = severity(table) else {
        return Err(lacking(table, "severity", Wanted::Severity));
    };
    let Some(id) = status_id(table) else {
        return Err(lacking(table, "status_id", STATUS_ID));
    };
    let Some(v1) = data_value(table, "data_value_1") else {
        return Err(out_of_range("data_value_1", 0, 0xFFFF));
    };
    let Some(v2) = data_value(table, "data_value_2") else {
        return Err(out_of_range("data_value_2", 0, 0xFFFF));
    };
    Ok(Notice {
        at,
        every,
        sub,
        severity,
        id,
        v1,
        v2,
    })
}

/// What is wrong with a key that has to be there, and says nothing.
fn lacking(table: &Table, key: &str, wanted: Wanted) -> Refusal
    ensures { told result ≡ fault key.now (says.lacking (get_member key.now (table_view table.now)) wanted) }
{
    match find(table, key) {
        Some(_) => Refusal::at(key, wanted),
        None => Refusal::at(key, Wanted::Key),
    }
}

/// When it comes first.
fn time(table: &Table) -> Option<u32>
    ensures { result ≡ must (values.number 0 0xFFFFFFFF) (get_member (codes "at") (table_view table.now)) }
{
    integer_in(find(table, "at")?, 0, 0xFFFF_FFFF)
}

/// After how many seconds it comes again, if it does.
fn every(table: &Table) -> Option<Option<u32>>
    ensures { result ≡ may None (only_number 1 0xFFFFFFFF) (get_member (codes "every") (table_view table.now)) }
{
    match find(table, "every") {
        Some(value) => Some(Some(integer_in(value, 1, 0xFFFF_FFFF)?)),
        None => Some(None),
    }
}

/// The sub-device, or the root.
fn sub_device(table: &Table) -> Option<u16>
    ensures { result ≡ may 0 (values.number 0 512) (get_member (codes "sub_device") (table_view table.now)) }
{
    match find(table, "sub_device") {
        Some(value) => Some(integer_in(value, 0, 512)? as u16),
        None => Some(0),
    }
}
