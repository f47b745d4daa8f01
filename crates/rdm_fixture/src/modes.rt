//! The personalities of the root that have slots of their own, or those of another one.

ghost use Rattle.std.specs.Prelude.{◌≡◌, ◌≤◌, ◌⊎◌, List, Ok, Err, IfOk, IfErr, length, map, codes};
ghost use Rattle.toml.specs.View.{view, array_view, table_view};
ghost use Rattle.rdm_profile.specs.declared.profile.modes.Mode.{Mode};
ghost use Rattle.rdm_profile.specs.Modes.{shape_of};
ghost use Rattle.rdm_profile.specs.Profiles.{AreGoodModes};
ghost use Rattle.rdm_fixture_keys.specs.declared.refusal.Agreement.TheVariants as agreements;
ghost use Rattle.rdm_fixture_keys.specs.declared.refusal.Wanted.TheVariants as wanted;
ghost use Rattle.rdm_fixture_keys.specs.Faults.{fault, told};
ghost use Rattle.rdm_fixture_keys.specs.Keys.{Reads};
ghost use Rattle.rdm_fixture_keys.specs.Wrong.{FirstWrong};
ghost use Rattle.rdm_fixture.specs.Lists.{OfTable, EachIs};
ghost use Rattle.rdm_fixture.specs.OwnSlots.{IsMode, AreModes, SaysShape, mode_parts, mode_said, modes_part};

use crate::lists::{FromEntry, list};
use arrayvec::ArrayVec;
use rdm_device::{Mode, ModeShape, Modes, Personality, Slot, SlotList, mode_fault};
use rdm_fixture_keys::keys::{find, number, number_or, only, text_or_none};
use rdm_fixture_keys::{Agreement, Refusal, Wanted};
use std::alloc::{AllocError, Global};
use toml::value::Array;
use toml::{Table, Value};

/// A mode, before there is memory for its slots.
#[derive(Drop)]
pub(crate) struct SaidMode {
    pub(crate) personality: Personality,
    pub(crate) slots_of: u8,
    pub(crate) slots: ArrayVec<Slot, 46>,
}

/// The mode of a table.
fn said_mode(table: &Table) -> Result<SaidMode, Refusal>
    ensures read { Reads (λ t s. IsMode t (mode_said s)) (table_view table.now) result }
    ensures wrong { IfErr result (λ e. FirstWrong mode_parts (table_view table.now) (told e)) }
{
    only(table, &["dmx_footprint", "description", "slots_of", "slot"])?;
    let footprint = number(table, "dmx_footprint", 0, 512)? as u16;
    let name = text_or_none(table, "description")?;
    let slots_of = number_or(table, "slots_of", 0, 0, 0xFF)? as u8;
    let slots = list(table, "slot", 0, 0)?;
    Ok(SaidMode {
        personality: Personality { footprint, name },
        slots_of,
        slots,
    })
}

/// What the rules ask of a mode, for which no memory is needed.
impl FromEntry for ModeShape {
    ghost says = { λ _. SaysShape };

    ghost wrong = { λ _. FirstWrong mode_parts };

    fn from_entry(table: &Table, _slots: u16) -> Result<ModeShape, Refusal> {
        let mode = said_mode(table)?;
        Ok(ModeShape {
            footprint: mode.personality.footprint,
            slots_of: mode.slots_of,
            slots: mode.slots.len() as u8,
        })
    }
}

/// The modes of a table, or why it says none. All tables are looked at before memory is taken for the first, so that a want of memory is
/// told only where they say modes.
pub(crate) fn modes(alloc: Global, table: &Table) -> Result<Result<Modes, Refusal>, AllocError>
    ensures read { IfOk result (λ r. Reads AreModes (table_view table.now) r) }
    ensures wrong { IfOk result (λ r. IfErr r (λ e. modes_part.Wrong (table_view table.now) (told e))) }
{
    match shapes(table) {
        Ok(_) => Ok(Ok(gathered(alloc, table)?)),
        Err(refusal) => Ok(Err(refusal)),
    }
}

/// The shapes of the modes, which tell that each table is one.
fn shapes(table: &Table) -> Result<ArrayVec<ModeShape, 247>, Refusal>
    ensures said { IfOk result (λ _. (ms : List Mode) × AreModes (table_view table.now) ms) }
    ensures none { IfErr result (λ _. (ms : List Mode) → ¬ AreModes (table_view table.now) ms) }
    ensures wrong { IfErr result (λ e. modes_part.Wrong (table_view table.now) (told e)) }
{
    list(table, "mode", 0, 0)
}

/// The modes of a table that says them.
fn gathered(alloc: Global, table: &Table) -> Result<Modes, AllocError>
    requires { (ms : List Mode) × AreModes (table_view table.now) ms }
    ensures { IfOk result (AreModes (table_view table.now)) }
{
    let Some(value) = find(table, "mode") else {
        return Ok(Modes::none());
    };
    let Value::Array(entries) = value else {
        unreachable!()
    };
    modes_of(alloc, entries)
}

/// The modes of entries that say them.
fn modes_of(alloc: Global, entries: &Array) -> Result<Modes, AllocError>
    requires said { (ms : List Mode) × EachIs (OfTable IsMode) (array_view entries.now) ms }
    requires few { length entries.now.items ≤ 247 }
    ensures { IfOk result (EachIs (OfTable IsMode) (array_view entries.now)) }
{
    let mut modes = Modes::with_room(alloc, entries.len())?;
    for entry in entries {
        modes.push(alloc, mode_of(alloc, entry)?)?;
    }
    Ok(modes)
}

/// The mode of an entry that says one.
fn mode_of(alloc: Global, entry: &Value) -> Result<Mode, AllocError>
    requires { (m : Mode) × OfTable IsMode (view entry.now) m }
    ensures { IfOk result (OfTable IsMode (view entry.now)) }
{
    let Value::Table(table) = entry else {
        unreachable!()
    };
    let Ok(mode) = said_mode(table) else {
        unreachable!()
    };
    Ok(Mode {
        personality: mode.personality,
        slots_of: mode.slots_of,
        slots: slot_list(alloc, mode.slots)?,
    })
}

/// These slots, in as much memory as they need.
fn slot_list(alloc: Global, slots: ArrayVec<Slot, 46>) -> Result<SlotList, AllocError>
    ensures { IfOk result (λ list. list ≡ slots.items) }
{
    if slots.is_empty() {
        return Ok(SlotList::none());
    }
    let mut list = Vec::with_capacity(alloc, slots.len())?;
    for slot in slots {
        list.push(slot)?;
    }
    Ok(SlotList::of(list))
}

/// The modes that were read, if each can stand behind so many personalities of the root.
pub(crate) fn behind(units: usize, modes: Result<Modes, Refusal>) -> Result<Modes, Refusal>
    ensures good { IfOk result (λ ms. (modes ≡ Ok ms) × AreGoodModes units (map shape_of ms)) }
    ensures refused { IfErr result (λ e. (modes ≡ Err e) ⊎ ((ms : List Mode) × (modes ≡ Ok ms) × (¬ AreGoodModes units (map shape_of ms))
        × (told e ≡ fault (codes "mode") (wanted.Agreement agreements.OwnSlots)))) }
{
    match modes {
        Ok(modes) => match mode_fault(units, shapes_of(modes.as_slice()).as_slice()) {
            None => Ok(modes),
            Some(_) => Err(Refusal::at("mode", Wanted::Agreement(Agreement::OwnSlots))),
        },
        Err(refusal) => Err(refusal),
    }
}

/// What the rules ask of these modes.
fn shapes_of(modes: &[Mode]) -> ArrayVec<ModeShape, 247>
    requires { length modes.now ≤ 247 }
    ensures { result.items ≡ map shape_of modes.now }
{
    let mut shapes = ArrayVec::new();
    for mode in modes {
        shapes.push(mode.shape());
    }
    shapes
}
