//! The words of fields that only some parameters have.

ghost use Rattle.std.specs.Prelude.{◌≡◌, [], ◌∷◌, ◌++◌, OnOk, option_map, string_bytes};
ghost use Rattle.rdm_frame.specs.Digits.{digits};
ghost use Rattle.rdm_words.specs.FieldFacts.{as_digits, as_parameter, as_place, as_slot_use, slot_use};
ghost use Rattle.rdm_words.specs.LaidOut.{listed_words};
ghost use Rattle.rdm_words.specs.Naming.{AddsNames, PutsFacts};

use crate::data::form::Meaning;
use crate::data::known::Facts;
use crate::data::own::own_name;
use crate::data::times::put_time_or_pin;
use crate::data::values::{number_of, put_behind, put_coded, put_data, put_named};
use crate::frame::header::word_in;
use crate::frame::place::put_place;
use crate::tables::parameters::parameter;
use crate::tables::settings::PRESETS;
use crate::text::{put_hex, put_quoted};
use rdm_standard_names::Table;
use rdm_standard_names::slots::{SLOT_LABELS, SLOT_TYPES};
use std::alloc::AllocError;
use std::fmt::Write;

/// The type of a slot that is controlled by itself, and not together with another one (table C-1).
const PRIMARY: u8 = 0x00;

/// Tells what lock states are called (E1.37-1).
const LOCK_STATE_DESCRIPTION: u16 = 0x0642;

/// What a device that is muted says of itself by a bit of its control field (section 7.6).
const FLAGS: &[(u32, &str)] = &[
    (0x01, "managed proxy"),
    (0x02, "sub-device"),
    (0x04, "boot loader"),
    (0x08, "proxied device"),
];

/// The words of slots with this meaning, or the slots themselves if there aren't as many as it has.
pub(crate) fn put_meaning(
    text: &mut String,
    meaning: Meaning,
    slots: &[u8],
    known: &Facts<'_>,
) -> Result<(), AllocError> {
    match (meaning, slots) {
        (Meaning::LockName, [state]) => put_lock_name(text, *state, known),
        (Meaning::ModeScene, [0, 0]) => text.push_str("fixed level"),
        (Meaning::ModeScene, [a, b]) => put_scene(text, u16::from_be_bytes([*a, *b])),
        _ => put_time_or_pin(text, meaning, slots),
    }
}

/// A parameter of a list by its name, if the standard or the fixture has one, and its two slots.
#[tactic(auto, using(crate::proofs::Reports::other_listed, crate::proofs::Reports::listed_put))]
pub(crate) fn put_listed(
    text: &mut String,
    slots: &[u8],
    known: &Facts<'_>,
) -> Result<(), AllocError>
    ensures { OnOk result (PutsFacts (as_parameter slots.now) (string_bytes text.old) (string_bytes text.new)) }
{
    if slots.len() != 2 {
        return put_data(text, slots);
    }
    let pid = word_in(slots);
    put_listed_by(text, parameter(pid), own_name(pid, known), slots)
}

/// The same by its names.
fn put_listed_by(
    text: &mut String,
    name: Option<&'static str>,
    own: Option<&[u8]>,
    slots: &[u8],
) -> Result<(), AllocError>
    ensures { OnOk result (string_bytes text.new
        ≡ string_bytes text.old ++ listed_words (option_map (λ name. name.now) name.entry) (option_map (λ name. name.now) own.entry) (digits slots.now)) }
{
    match (name, own) {
        (None, Some(own)) => {
            put_quoted(text, own)?;
            put_behind(text, slots)
        }
        (name, _) => put_named(text, name, slots),
    }
}

/// Two slots that are the root, a sub-device, or all of them.
#[tactic(auto, using(crate::proofs::Reports::other_place, crate::proofs::Reports::place_put))]
pub(crate) fn put_place_in(text: &mut String, slots: &[u8]) -> Result<(), AllocError>
    ensures { OnOk result (PutsFacts (as_place slots.now) (string_bytes text.old) (string_bytes text.new)) }
{
    if slots.len() != 2 {
        return put_data(text, slots);
    }
    put_place(text, word_in(slots))
}

/// What is played: a scene, none or all of them.
fn put_scene(text: &mut String, scene: u16) -> Result<(), AllocError> {
    match PRESETS.name(u32::from(scene)) {
        Some(name) => text.push_str(name),
        None => write!(text, "scene {scene}"),
    }
}

/// Three slots that say what a slot is for: its type and its label ID.
#[tactic(auto, using(crate::proofs::Reports::other_use, crate::proofs::Reports::use_in_put))]
pub(crate) fn put_slot_use(text: &mut String, slots: &[u8]) -> Result<(), AllocError>
    ensures { OnOk result (PutsFacts (as_slot_use slots.now) (string_bytes text.old) (string_bytes text.new)) }
{
    if slots.len() != 3 {
        return put_data(text, slots);
    }
    put_use(text, slots[0], &[slots[1], slots[2]])
}

/// What a slot is for: its label if it is a primary one, else the primary slot that it belongs to.
fn put_use(text: &mut String, kind: u8, label: &[u8]) -> Result<(), AllocError>
    ensures { OnOk result (PutsFacts (slot_use kind label.now) (string_bytes text.old) (string_bytes text.new)) }
{
    put_row(text, SLOT_TYPES, &[kind])?;
    if kind == PRIMARY {
        text.push_str(", ")?;
        return put_row(text, SLOT_LABELS, label);
    }
    let primary = number_of(label);
    write!(text, " of slot {primary}")
}

/// A number of a table, by its name and in hexadecimal digits.
#[tactic(auto, using(crate::proofs::LaidOut::coded_put))]
fn put_row(text: &mut String, table: Table, slots: &[u8]) -> Result<(), AllocError>
    ensures { OnOk result (PutsFacts (digits slots.now ∷ []) (string_bytes text.old) (string_bytes text.new)) }
{
    put_coded(text, table, slots)
}

/// Slots that are a control field, and what its flags are called.
#[tactic(auto, using(crate::proofs::Reports::digits_put))]
pub(crate) fn put_control(text: &mut String, slots: &[u8]) -> Result<(), AllocError>
    ensures { OnOk result (PutsFacts (as_digits slots.now) (string_bytes text.old) (string_bytes text.new)) }
{
    put_hex(text, slots)?;
    put_flags(text, number_of(slots))
}

/// What the flags of a control field are called, if any is set.
#[tactic(auto, using(crate::proofs::Naming::adds_nothing))]
fn put_flags(text: &mut String, flags: u32) -> Result<(), AllocError>
    ensures { OnOk result (AddsNames [] (string_bytes text.old) (string_bytes text.new)) }
{
    let mut names = String::new(*text.allocator());
    put_flag_names(&mut names, flags)?;
    if names.is_empty() {
        return Ok(());
    }
    text.push_str(", ")?;
    text.push_str(names.as_str())
}

/// The names of these flags, a comma between two.
fn put_flag_names(text: &mut String, flags: u32) -> Result<(), AllocError> {
    for flag in FLAGS {
        if flags & flag.0 != 0 {
            if !text.is_empty() {
                text.push_str(", ")?;
            }
            text.push_str(flag.1)?;
        }
    }
    Ok(())
}

/// What a lock state is called: 0 is unlocked, and the fixture may be known to name another one.
fn put_lock_name(text: &mut String, state: u8, known: &Facts<'_>) -> Result<(), AllocError> {
    if state == 0 {
        return text.push_str(", unlocked");
    }
    let Some(name) = known.name_told_by(LOCK_STATE_DESCRIPTION, state) else {
        return Ok(());
    };
    text.push_str(", ")?;
    put_quoted(text, name)
}
