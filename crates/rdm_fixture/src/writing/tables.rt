//! The table of a fixture.

ghost use Rattle.std.specs.Prelude.{◌≡◌, ◌≤◌, ℕ, None, Some, IsOk, IfOk, OnOk, IfSome, IsTrue, All, false, length, option_map};
ghost use Rattle.toml.specs.Data.{Members, table as table_data, string, array};
ghost use Rattle.toml.specs.View.{view, items_view, table_view};
ghost use Rattle.rdm_frame.specs.Addressing.{is_broadcast};
ghost use Rattle.rdm_profile.specs.LeftOut.{is_optional};
ghost use Rattle.rdm_profile.specs.MuteReply.{can_bind};
ghost use Rattle.rdm_profile.specs.Profiles.{IsGoodUnit, CanBeMade};
ghost use Rattle.rdm_params.specs.Table.Kinds.{pid_of, kind_named};
ghost use Rattle.rdm_fixture.specs.Describable.{HasPrintableUnit, CanBeDescribed, is_coded};
ghost use Rattle.rdm_fixture.specs.Format.{IsFixture, IsUnit, SubDevices, EstimatesAt, WorkersAt, LanguagesAt, parameter_named};
ghost use Rattle.rdm_fixture.specs.Lists.{ListAt};
ghost use Rattle.rdm_fixture_keys.specs.Keys.{may};
ghost use Rattle.rdm_fixture_keys.specs.Values as says;
ghost use Rattle.rdm_fixture.specs.Writing.{with_field, with_mute_reply, uid_field, IsRoot, IsPlain};

use super::fields::{list_of, put, put_long, put_text, put_true, put_uid, put_word, put_worker};
use super::sensors::sensors_of;
use super::units::{root_table, unit_table};
use crate::fixture::Fixture;
use arrayvec::ArrayVec;
use rdm_device::{
    Estimates, MuteReply, Profile, Workers, choices_of_workers_are_equal_by_value,
    estimates_are_equal_by_value, units_are_equal_by_value,
};
use rdm_frame::Uid;
use rdm_params::kind_of;
use std::alloc::{AllocError, Global};
use toml::{Table, Value};

/// The table of the fixture, of which each sensor has something measured or nothing, and a course or none.
pub(super) fn table_of(alloc: Global, fixture: &Fixture) -> Result<Table, AllocError>
    requires presents { length fixture.now.start.presents.items ≡ length fixture.now.profile.sensors.items }
    requires courses { length fixture.now.start.courses.items ≡ length fixture.now.profile.sensors.items }
    ensures says { IfOk result (λ t. CanBeDescribed fixture.now → IsFixture (table_view t) fixture.now) }
    ensures plain { IfOk result (λ t. IsPlain 5 (table_data (table_view t))) }
{
    let mut table = root_table(alloc, &fixture.profile.root, &fixture.start)?;
    put_rest(alloc, &mut table, fixture)?;
    Ok(table)
}

/// What is put beside what the root says of itself. The table is lent, so that this has only values to drop where memory is missing.
fn put_rest(alloc: Global, table: &mut Table, fixture: &Fixture) -> Result<(), AllocError>
    requires presents { length fixture.now.start.presents.items ≡ length fixture.now.profile.sensors.items }
    requires courses { length fixture.now.start.courses.items ≡ length fixture.now.profile.sensors.items }
    ensures says { OnOk result (CanBeDescribed fixture.now → IsRoot (table_view table.old) fixture.now → IsFixture (table_view table.new) fixture.now) }
    ensures plain { OnOk result (IsPlain 3 (table_data (table_view table.old)) → IsPlain 5 (table_data (table_view table.new))) }
{
    let profile = &fixture.profile;
    put_mute_reply(alloc, table, profile.particulars.mute_reply())?;
    put_true(
        alloc,
        table,
        "newest_only",
        profile.particulars.newest_only(),
    )?;
    put(alloc, table, "uid", Some(uid_of(alloc, fixture.uid)?))?;
    put_long(alloc, table, "boot_software_version_id", profile.boot)?;
    put_text(
        alloc,
        table,
        "boot_software_version_label",
        &profile.boot_text,
    )?;
    put(
        alloc,
        table,
        "languages",
        Some(languages_of(alloc, &profile.languages)?),
    )?;
    put_word(alloc, table, "presets", profile.presets)?;
    put_word(alloc, table, "more_slots", profile.particulars.more_slots())?;
    put(
        alloc,
        table,
        "slot",
        list_of(alloc, profile.slots.as_slice())?,
    )?;
    put(
        alloc,
        table,
        "sensor",
        sensors_of(
            alloc,
            profile.sensors.as_slice(),
            fixture.start.presents.as_slice(),
            fixture.start.courses.as_slice(),
        )?,
    )?;
    put(
        alloc,
        table,
        "self_test",
        list_of(alloc, profile.tests.as_slice())?,
    )?;
    put(
        alloc,
        table,
        "status",
        list_of(alloc, profile.status_texts.as_slice())?,
    )?;
    put(
        alloc,
        table,
        "without",
        names_of(alloc, profile.particulars.without())?,
    )?;
    put(
        alloc,
        table,
        "parameter",
        list_of(alloc, profile.particulars.own())?,
    )?;
    put(
        alloc,
        table,
        "choice",
        list_of(alloc, profile.particulars.choices())?,
    )?;
    put(
        alloc,
        table,
        "lock",
        list_of(alloc, profile.particulars.locks())?,
    )?;
    put(
        alloc,
        table,
        "outcome",
        list_of(alloc, fixture.outcomes.as_slice())?,
    )?;
    put(alloc, table, "sub_devices", sub_devices_of(alloc, profile)?)?;
    put(
        alloc,
        table,
        "estimates",
        estimates_of(alloc, profile.particulars.estimates())?,
    )?;
    put(
        alloc,
        table,
        "workers",
        workers_of(alloc, &profile.workers)?,
    )?;
    put(
        alloc,
        table,
        "status_message",
        list_of(alloc, fixture.start.notices.as_slice())?,
    )?;
    put(
        alloc,
        table,
        "mode",
        list_of(alloc, profile.particulars.modes())?,
    )?;
    Ok(())
}

/// Puts what the answers to DISC_MUTE and DISC_UN_MUTE tell.
fn put_mute_reply(alloc: Global, table: &mut Table, reply: MuteReply) -> Result<(), AllocError>
    ensures put { IsOk result → table_view table.new ≡ with_mute_reply reply (table_view table.old) }
    ensures says { IsTrue (can_bind reply.binding) → may None says.only_uid (uid_field reply.binding) ≡ Some reply.binding }
{
    put_uid(alloc, table, "binding_uid", reply.binding)?;
    put_true(alloc, table, "boot_loader", reply.boot_loader)?;
    put_true(alloc, table, "proxied_device", reply.proxied_device)
}

/// The text of a UID.
fn uid_of(alloc: Global, uid: Uid) -> Result<Value, AllocError>
    ensures says { IfOk result (λ v. is_broadcast uid ≡ false → says.uid (view v) ≡ Some uid) }
    ensures plain { IfOk result (λ v. IsPlain 0 (view v)) }
{
    let text = format!(in alloc; "{uid}")?;
    Ok(Value::String(text))
}

/// The codes of the languages.
fn languages_of(alloc: Global, languages: &ArrayVec<u16, 8>) -> Result<Value, AllocError>
    ensures says { IfOk result (λ v. 1 ≤ length languages.now.items → All (λ l. IsTrue (is_coded l)) languages.now.items
        → LanguagesAt (Some (view v)) languages.now.items) }
    ensures plain { IfOk result (λ v. IsPlain 1 (view v)) }
{
    let mut codes = Vec::new(alloc);
    for language in languages.as_slice() {
        codes.push(code_of(alloc, *language)?)?;
    }
    Ok(Value::Array(codes))
}

/// The two letters of a language.
fn code_of(alloc: Global, language: u16) -> Result<Value, AllocError>
    ensures says { IfOk result (λ v. IsTrue (is_coded language) → says.language (view v) ≡ Some language) }
    ensures plain { IfOk result (λ v. IsPlain 0 (view v)) }
{
    let code = String::from_utf8_lossy(alloc, &language.to_be_bytes())?;
    Ok(Value::String(code))
}

/// The names of the parameters that the fixture lacks, if it lacks some.
fn names_of(alloc: Global, pids: &[u16]) -> Result<Option<Value>, AllocError>
    ensures says { IfOk result (λ v. All (λ pid. IsTrue (is_optional pid)) pids.now
        → ListAt (λ d pid. parameter_named d ≡ Some pid) (option_map view v) pids.now) }
    ensures plain { IfOk result (λ v. IfSome v (λ x. IsPlain 1 (view x))) }
{
    if pids.is_empty() {
        return Ok(None);
    }
    let mut names = Vec::new(alloc);
    for pid in pids {
        names.push(Value::string(alloc, name_of(*pid))?)?;
    }
    Ok(Some(Value::Array(names)))
}

/// The name of a parameter that a fixture may lack.
fn name_of(pid: u16) -> &'static str
    ensures { IsTrue (is_optional pid) → option_map pid_of (kind_named result.now) ≡ Some pid }
{
    match kind_of(pid) {
        Some(kind) => kind.name(),
        None => "",
    }
}

/// The table of the sub-devices. Without it there are none, and what they would start as is the root.
fn sub_devices_of(alloc: Global, profile: &Profile) -> Result<Option<Value>, AllocError>
    ensures says { IfOk result (λ v. CanBeMade profile.now → HasPrintableUnit profile.now.sub → (slots : ℕ) (t : Members)
        → IsUnit slots t profile.now.root → SubDevices slots t (option_map view v) profile.now.subs profile.now.sub) }
    ensures plain { IfOk result (λ v. IfSome v (λ x. IsPlain 3 (view x))) }
{
    units_are_equal_by_value();
    if profile.subs == 0 && profile.sub == profile.root {
        return Ok(None);
    }
    let mut table = unit_table(alloc, &profile.sub)?;
    put_word(alloc, &mut table, "count", profile.subs)?;
    Ok(Some(Value::Table(table)))
}

/// The table of the times of slow commands. Without it they are the usual ones.
fn estimates_of(alloc: Global, estimates: Estimates) -> Result<Option<Value>, AllocError>
    ensures says { IfOk result (λ v. EstimatesAt (option_map view v) estimates) }
    ensures plain { IfOk result (λ v. IfSome v (λ x. IsPlain 1 (view x))) }
{
    estimates_are_equal_by_value();
    if estimates == Estimates::usual() {
        return Ok(None);
    }
    let mut table = Table::new(alloc);
    put_word(alloc, &mut table, "lamp_state", estimates.lamp)?;
    put_word(alloc, &mut table, "power_state", estimates.power)?;
    put_word(alloc, &mut table, "perform_selftest", estimates.self_test)?;
    put_word(alloc, &mut table, "sensor_value", estimates.sensor)?;
    Ok(Some(Value::Table(table)))
}

/// The table of the workers of slow commands. Without it they are the usual ones.
fn workers_of(alloc: Global, workers: &Workers) -> Result<Option<Value>, AllocError>
    ensures says { IfOk result (λ v. WorkersAt (option_map view v) workers.now) }
    ensures plain { IfOk result (λ v. IfSome v (λ x. IsPlain 1 (view x))) }
{
    choices_of_workers_are_equal_by_value();
    if *workers == Workers::usual() {
        return Ok(None);
    }
    let mut table = Table::new(alloc);
    put_worker(alloc, &mut table, "lamp_state", workers.lamp)?;
    put_worker(alloc, &mut table, "power_state", workers.power)?;
    put_worker(alloc, &mut table, "perform_selftest", workers.self_test)?;
    put_worker(alloc, &mut table, "sensor_value", workers.sensor)?;
    Ok(Some(Value::Table(table)))
}
