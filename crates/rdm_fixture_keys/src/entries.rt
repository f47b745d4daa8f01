//! The entries of the lists: personalities, slots, sensors, self tests, status IDs, and the names of choices. Each is a table.

ghost use Rattle.std.specs.Prelude.{◌≡◌, ◌≤◌, IfErr, IfOk, codes};
ghost use Rattle.std.specs.Result.{result_ok};
ghost use Rattle.toml.specs.Data.{get_member};
ghost use Rattle.toml.specs.View.{table_view};
ghost use Rattle.rdm_fixture_keys.specs.Entries.{IsPersonality, IsSlot, IsSensor, IsSelfTest, IsStatus, IsChoice, personality_parts, label_part, slot_parts, sensor_parts, self_test_parts, status_parts, choice_parts};
ghost use Rattle.rdm_fixture_keys.specs.Faults.{told};
ghost use Rattle.rdm_fixture_keys.specs.Keys.{Reads, must};
ghost use Rattle.rdm_fixture_keys.specs.Values.{label_id};
ghost use Rattle.rdm_fixture_keys.specs.Wrong.{FirstWrong};

use crate::Refusal;
use crate::keys::{flag_or, named, named_or, number, number_or, only, signed_or, text_or_none};
use rdm_device::{ChoiceName, Personality, SelfTest, SensorDef, Slot, StatusText};
use rdm_standard_names::NameKind;
use rdm_standard_names::slots::PRIMARY_SLOT;
use toml::Table;

/// A personality, which has at most this many slots.
pub fn personality(table: &Table, slots: u16) -> Result<Personality, Refusal>
    ensures read { Reads (IsPersonality slots) (table_view table.now) result }
    ensures wrong { IfErr result (λ e. FirstWrong (personality_parts slots) (table_view table.now) (told e)) }
{
    only(table, &["dmx_footprint", "description"])?;
    Ok(Personality {
        footprint: number(table, "dmx_footprint", 0, u32::from(slots))? as u16,
        name: text_or_none(table, "description")?,
    })
}

/// A slot.
pub fn slot(table: &Table) -> Result<Slot, Refusal>
    ensures read { Reads IsSlot (table_view table.now) result }
    ensures wrong { IfErr result (λ e. FirstWrong slot_parts (table_view table.now) (told e)) }
{
    only(table, &["type", "label_id", "default_value", "description"])?;
    let kind = named_or(table, "type", NameKind::Slots, 0)? as u8;
    Ok(Slot {
        kind,
        label: slot_label(table, kind)? as u16,
        value: number_or(table, "default_value", 0, 0, 0xFF)? as u8,
        name: text_or_none(table, "description")?,
    })
}

/// The label ID of a slot of this type.
fn slot_label(table: &Table, kind: u8) -> Result<u32, Refusal>
    ensures value { result_ok result ≡ must (label_id kind) (get_member (codes "label_id") (table_view table.now)) }
    ensures within { IfOk result (λ n. n ≤ 0xFFFF) }
    ensures wrong { IfErr result (λ e. (label_part kind).Wrong (table_view table.now) (told e)) }
{
    if kind == PRIMARY_SLOT {
        named(table, "label_id", NameKind::Labels)
    } else {
        number(table, "label_id", 0, 0xFFFF)
    }
}

/// A sensor. What it measures is no part of that.
pub fn sensor(table: &Table) -> Result<SensorDef, Refusal>
    ensures read { Reads IsSensor (table_view table.now) result }
    ensures wrong { IfErr result (λ e. FirstWrong sensor_parts (table_view table.now) (told e)) }
{
    only(
        table,
        &[
            "type",
            "unit",
            "prefix",
            "range_minimum_value",
            "range_maximum_value",
            "normal_minimum_value",
            "normal_maximum_value",
            "recorded_value_support",
            "description",
            "answered_at_once",
            "present",
            "over_time",
            "course",
            "repeats",
        ],
    )?;
    Ok(SensorDef {
        kind: named(table, "type", NameKind::Sensors)? as u8,
        unit: named_or(table, "unit", NameKind::Units, 0)? as u8,
        prefix: named_or(table, "prefix", NameKind::Prefixes, 0)? as u8,
        low: signed_or(table, "range_minimum_value", -32768)?,
        high: signed_or(table, "range_maximum_value", 32767)?,
        normal_low: signed_or(table, "normal_minimum_value", -32768)?,
        normal_high: signed_or(table, "normal_maximum_value", 32767)?,
        support: number_or(table, "recorded_value_support", 0, 0, 0xFF)? as u8,
        name: text_or_none(table, "description")?,
        at_once: flag_or(table, "answered_at_once", false)?,
    })
}

/// A self test.
pub fn self_test(table: &Table) -> Result<SelfTest, Refusal>
    ensures read { Reads IsSelfTest (table_view table.now) result }
    ensures wrong { IfErr result (λ e. FirstWrong self_test_parts (table_view table.now) (told e)) }
{
    only(table, &["number", "description"])?;
    Ok(SelfTest {
        number: number(table, "number", 1, 254)? as u8,
        name: text_or_none(table, "description")?,
    })
}

/// A status ID, and what it says.
pub fn status_text(table: &Table) -> Result<StatusText, Refusal>
    ensures read { Reads IsStatus (table_view table.now) result }
    ensures wrong { IfErr result (λ e. FirstWrong status_parts (table_view table.now) (told e)) }
{
    only(table, &["id", "description"])?;
    Ok(StatusText {
        id: number(table, "id", 0, 0xFFFF)? as u16,
        text: text_or_none(table, "description")?,
    })
}

/// The name of a thing of which one is chosen.
pub fn choice_name(table: &Table) -> Result<ChoiceName, Refusal>
    ensures read { Reads IsChoice (table_view table.now) result }
    ensures wrong { IfErr result (λ e. FirstWrong choice_parts (table_view table.now) (told e)) }
{
    only(table, &["pid", "number", "hertz", "description"])?;
    Ok(ChoiceName {
        pid: number(table, "pid", 0, 0xFFFF)? as u16,
        number: number(table, "number", 1, 0xFF)? as u8,
        hertz: number_or(table, "hertz", 0, 0, 0xFFFF_FFFF)?,
        name: text_or_none(table, "description")?,
    })
}
