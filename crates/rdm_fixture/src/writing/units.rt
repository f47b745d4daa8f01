//! What is written of the root and of the sub-devices.

ghost use Rattle.std.specs.Prelude.{ℕ, IfOk, IsTrue};
ghost use Rattle.toml.specs.Data.{table as table_data};
ghost use Rattle.toml.specs.View.{table_view};
ghost use Rattle.rdm_profile.specs.Profiles.{IsGoodUnit};
ghost use Rattle.rdm_fixture.specs.Describable.{HasPrintableUnit};
ghost use Rattle.rdm_fixture.specs.Format.{IsUnit, unit_keys, root_keys};
ghost use Rattle.rdm_fixture_keys.specs.Keys.{has_only};
ghost use Rattle.rdm_fixture.specs.Starting.{IsCounted};
ghost use Rattle.rdm_fixture.specs.Writing.{IsPlain};

use super::fields::{list_of, put, put_long, put_named_word, put_text, put_word};
use crate::starting::Starting;
use rdm_device::Unit;
use rdm_standard_names::NameKind;
use std::alloc::{AllocError, Global};
use toml::Table;

/// What the root says of itself, and what its counters show at the start.
pub(super) fn root_table(alloc: Global, root: &Unit, start: &Starting) -> Result<Table, AllocError>
    ensures says { IfOk result (λ t. (slots : ℕ) → IsGoodUnit root.now slots → HasPrintableUnit root.now → IsUnit slots (table_view t) root.now) }
    ensures counted { IfOk result (λ t. IsCounted (table_view t) start.now) }
    ensures keys { IfOk result (λ t. IsTrue (has_only root_keys (table_view t))) }
    ensures plain { IfOk result (λ t. IsPlain 3 (table_data (table_view t))) }
{
    let mut table = unit_table(alloc, root)?;
    put_long(alloc, &mut table, "device_hours", start.device_hours)?;
    put_long(alloc, &mut table, "lamp_hours", start.lamp_hours)?;
    put_long(alloc, &mut table, "lamp_strikes", start.lamp_strikes)?;
    put_long(
        alloc,
        &mut table,
        "device_power_cycles",
        start.device_power_cycles,
    )?;
    Ok(table)
}

/// What the root or a sub-device says of itself.
pub(super) fn unit_table(alloc: Global, unit: &Unit) -> Result<Table, AllocError>
    ensures says { IfOk result (λ t. (slots : ℕ) → IsGoodUnit unit.now slots → HasPrintableUnit unit.now → IsUnit slots (table_view t) unit.now) }
    ensures keys { IfOk result (λ t. IsTrue (has_only unit_keys (table_view t))) }
    ensures plain { IfOk result (λ t. IsPlain 3 (table_data (table_view t))) }
{
    let mut table = Table::new(alloc);
    put_word(alloc, &mut table, "device_model_id", unit.model)?;
    put_text(
        alloc,
        &mut table,
        "device_model_description",
        &unit.model_text,
    )?;
    put_text(alloc, &mut table, "manufacturer_label", &unit.maker_text)?;
    put_text(alloc, &mut table, "device_label", &unit.label)?;
    put_named_word(
        alloc,
        &mut table,
        "product_category",
        NameKind::Categories,
        unit.category,
    )?;
    put_long(alloc, &mut table, "software_version_id", unit.software)?;
    put_text(
        alloc,
        &mut table,
        "software_version_label",
        &unit.software_text,
    )?;
    put_word(alloc, &mut table, "dmx_start_address", unit.start)?;
    let personalities = list_of(alloc, unit.personalities.as_slice())?;
    put(alloc, &mut table, "personality", personalities)?;
    Ok(table)
}
