//! What the root and each sub-device say of themselves.

ghost use Rattle.std.specs.Prelude.{◌≡◌, ℕ, IfErr, codes};
ghost use Rattle.toml.specs.Data.{get_member};
ghost use Rattle.toml.specs.View.{view, table_view};
ghost use Rattle.rdm_fixture_keys.specs.Faults.{told};
ghost use Rattle.rdm_fixture.specs.FirstWrong.{unit_parts, sub_parts, WrongSubs};
ghost use Rattle.rdm_fixture.specs.Format.{IsUnit, IsSub, SubDevices};
ghost use Rattle.rdm_fixture_keys.specs.Keys.{Reads};
ghost use Rattle.rdm_fixture_keys.specs.Wrong.{FirstWrong};

use crate::lists::list;
use rdm_device::Unit;
use rdm_fixture_keys::keys::{find, named_or, number, number_or, only, text_or_none};
use rdm_fixture_keys::{Refusal, Section, Wanted};
use rdm_frame::standard::{MOST_DMX_SLOTS, MOST_SUB_DEVICES};
use rdm_standard_names::NameKind;
use toml::{Table, Value};

/// How many slots DMX512 has.
const DMX_SLOTS: u32 = MOST_DMX_SLOTS as u32;

/// These keys, and those that the root and the sub-devices each have.
macro_rules! and_unit_keys {
    ($($own:literal),+) => {
        &[
            $($own,)+
            "device_model_id",
            "device_model_description",
            "manufacturer_label",
            "device_label",
            "product_category",
            "software_version_id",
            "software_version_label",
            "dmx_start_address",
            "personality",
        ]
    };
}

pub(crate) use and_unit_keys;

/// A device whose personalities have at most N slots.
pub(crate) fn unit(table: &Table, slots: u16) -> Result<Unit, Refusal>
    ensures read { Reads (IsUnit slots) (table_view table.now) result }
    ensures wrong { IfErr result (λ e. FirstWrong (unit_parts slots) (table_view table.now) (told e)) }
{
    Ok(Unit {
        model: number(table, "device_model_id", 0, 0xFFFF)? as u16,
        model_text: text_or_none(table, "device_model_description")?,
        maker_text: text_or_none(table, "manufacturer_label")?,
        label: text_or_none(table, "device_label")?,
        category: named_or(table, "product_category", NameKind::Categories, 0)? as u16,
        software: number_or(table, "software_version_id", 0, 0, 0xFFFF_FFFF)?,
        software_text: text_or_none(table, "software_version_label")?,
        start: number_or(table, "dmx_start_address", 1, 1, DMX_SLOTS)? as u16,
        personalities: list(table, "personality", 1, slots)?,
    })
}

/// How many sub-devices there are, and what each starts as. Without their table there are none, and what they would
/// start as is the root, which has been read.
pub(crate) fn sub_devices(table: &Table, slots: u16) -> Result<(u16, Unit), Refusal>
    requires { (u : Unit) × IsUnit slots (table_view table.now) u }
    ensures read { Reads (λ t s. SubDevices slots t (get_member (codes "sub_devices") t) s.0 s.1) (table_view table.now) result }
    ensures wrong { IfErr result (λ e. WrongSubs (get_member (codes "sub_devices") (table_view table.now)) (told e)) }
{
    let Some(value) = find(table, "sub_devices") else {
        return Ok((0, unit(table, slots)?));
    };
    let Value::Table(sub) = value else {
        return Err(Refusal::at("sub_devices", Wanted::Table));
    };
    match counted_unit(sub) {
        Ok(read) => Ok(read),
        Err(refusal) => Err(refusal.in_section(Section::SubDevices)),
    }
}

fn counted_unit(table: &Table) -> Result<(u16, Unit), Refusal>
    ensures read { Reads (λ t s. IsSub t s.0 s.1) (table_view table.now) result }
    ensures wrong { IfErr result (λ e. FirstWrong sub_parts (table_view table.now) (told e)) }
{
    only(table, and_unit_keys!("count"))?;
    let count = number(table, "count", 0, MOST_SUB_DEVICES as u32)? as u16;
    Ok((count, unit(table, DMX_SLOTS as u16)?))
}
