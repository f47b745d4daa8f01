//! What is kept of scenes, and what PRESET_STATUS takes and replies (E1.37-1).

ghost use Rattle.std.specs.Prelude.{◌≡◌, ◌≤◌, ◌++◌, [], length, slice_index, take, drop, OnOk};
ghost use Rattle.rdm_profile.specs.Forms.{word};
ghost use Rattle.rdm_added.specs.Scenes.{is_scene, read_only, programmed_at_start, scene_at_start, scenes_to, scene_count, scenes_by, a_scene, scene_shown, scene_of, is_set_of, scene_as, scene_kept, programmed_when_placed, scene_placed, is_of_read_only, protects_by};
ghost use Rattle.rdm_added.specs.Spot.{Spot};
ghost use Rattle.rdm_added.specs.Views.State.{added_entries, kept_entry};

use crate::added::{bytes_at, greatest};
use crate::place::Place;
use crate::state::Kept;
use rdm_frame::{Body, Text};
use rdm_profile::{Argument, ParameterDef, Shape};
use std::alloc::AllocError;

/// How many slots say a scene in a SET.
const SCENE_SLOTS: usize = 9;

/// Whether it is the number of a scene.
fn is_scene(def: &ParameterDef, number: u16) -> bool
    ensures { result ≡ is_scene def.now number }
{
    1 <= number && number <= greatest(def) as u16
}

/// How many of the first can only be read.
fn read_only(def: &ParameterDef) -> u8
    ensures { result ≡ read_only def.now }
{
    (def.low.cast_unsigned() % 256) as u8
}

/// How many scenes a parameter has.
pub(crate) fn scene_count(def: &ParameterDef) -> u8
    ensures { result ≡ scene_count def.now.shape def.now }
{
    match def.shape {
        Shape::Scenes => greatest(def),
        _ => 0,
    }
}

/// Adds what the scenes of a parameter start with, if it has some.
pub(crate) fn start_scenes(def: &ParameterDef, added: &mut Vec<Kept>) -> Result<(), AllocError>
    ensures { OnOk result (added_entries added.new.items ≡ added_entries added.old.items ++ scenes_by def.now.shape def.now) }
{
    if let Shape::Scenes = def.shape {
        return start_each(def, greatest(def), added);
    }
    Ok(())
}

/// The same of the scenes from 1 to this one.
#[tactic(auto, using(crate::proofs::SceneSteps::one_more, std::proofs::lemmas::Grind::common_steps))]
fn start_each(def: &ParameterDef, last: u8, added: &mut Vec<Kept>) -> Result<(), AllocError>
    ensures { OnOk result (added_entries added.new.items ≡ added_entries added.old.items ++ scenes_to def.now last) }
{
    for before in 0..last {
        added.push(scene(def, before + 1))?;
    }
    Ok(())
}

/// What a scene starts with.
fn scene(def: &ParameterDef, number: u8) -> Kept
    ensures { kept_entry result ≡ scene_at_start def.now number }
{
    let programmed = programmed_at_start(def, number);
    Kept {
        pid: def.pid,
        index: number as u16,
        bytes: Text::of(&[0, 0, 0, 0, 0, 0, programmed]),
    }
}

/// Whether a scene is programmed when the device starts: 02 if it can only be read, else 00.
fn programmed_at_start(def: &ParameterDef, number: u8) -> u8
    ensures { result ≡ programmed_at_start def.now number }
{
    if number <= read_only(def) { 2 } else { 0 }
}

/// The number of a scene that there is.
pub fn a_scene(def: &ParameterDef, value: &Argument<'_>) -> bool
    ensures { (place : Spot) → result ≡ a_scene def.now word place value.now }
{
    match value.word() {
        Some(number) => is_scene(def, number),
        None => false,
    }
}

/// Writes the number of a scene and what is kept of it into an empty list.
pub fn scene_shown(place: &Place<'_>, def: &ParameterDef, value: &Argument<'_>, body: &mut Body)
    requires { body.old ≡ [] }
    ensures { body.new ≡ scene_shown def.now place.now value.now }
{
    let number = value.word().unwrap_or(0);
    body.append(&number.to_be_bytes());
    if let Some(own) = place.own {
        body.append(bytes_at(own.added.as_slice(), def.pid, number));
    }
}

/// The number of the scene that slots begin with.
pub(crate) fn scene_of(slots: &[u8]) -> u16
    ensures { result ≡ scene_of slots.now }
{
    256 * slot_at(slots, 0) as u16 + slot_at(slots, 1) as u16
}

/// A slot, or 0 if there are fewer.
fn slot_at(slots: &[u8], place: usize) -> u8
    ensures { result ≡ slice_index slots.now place }
{
    match slots.get(place) {
        Some(slot) => *slot,
        None => 0,
    }
}

/// Whether the slots of a SET name a scene that there is, and say that it is cleared or that it isn't.
pub(crate) fn is_set_of(def: &ParameterDef, slots: &[u8]) -> bool
    ensures { result ≡ is_set_of def.now slots.now }
{
    is_scene(def, scene_of(slots)) && clearing_of(slots) <= 1
}

/// Whether a scene is cleared: the last of the slots of a SET, or 0 if they are fewer.
fn clearing_of(slots: &[u8]) -> u8
    ensures { result ≡ slice_index slots.now 8 }
{
    slot_at(slots, 8)
}

/// What a SET keeps of a scene: its times, and that it is programmed; or nothing, if it is cleared.
pub(crate) fn scene_kept(slots: &[u8]) -> Text
    requires { length slots.now ≤ 32 }
    ensures { result ≡ scene_kept slots.now }
{
    scene_as(1, slots)
}

/// What is kept of a scene that the firmware places: as after a SET, but that one that can only be read stays so.
pub(crate) fn scene_placed(def: &ParameterDef, slots: &[u8]) -> Text
    requires { length slots.now ≤ 32 }
    ensures { result ≡ scene_placed def.now slots.now }
{
    scene_as(programmed_when_placed(def, scene_of(slots)), slots)
}

/// Whether a scene is programmed when the firmware has placed it: 02 if it can only be read, else 01.
fn programmed_when_placed(def: &ParameterDef, number: u16) -> u8
    ensures { result ≡ programmed_when_placed def.now number }
{
    if number <= read_only(def) as u16 {
        2
    } else {
        1
    }
}

/// The times of a scene, and this of whether it is programmed; or nothing, if it is cleared.
fn scene_as(programmed: u8, slots: &[u8]) -> Text
    requires { length slots.now ≤ 32 }
    ensures { result ≡ scene_as programmed slots.now }
{
    if clearing_of(slots) == 1 {
        return Text::of(&[0; 7]);
    }
    let mut kept = Text::of(times_of(slots));
    kept.append(&[programmed]);
    kept
}

/// The three times of a scene, in the slots behind its number.
fn times_of(slots: &[u8]) -> &[u8]
    ensures value { result.now ≡ take 6 (drop 2 slots.now) }
    ensures few { length result.now ≤ 6 }
{
    let start = slots.len().min(2);
    let end = slots.len().min(8);
    &slots[start..end]
}

/// Whether data are those of a SET of a scene that can only be read.
pub fn is_protected_scene(def: &ParameterDef, slots: &[u8]) -> bool
    ensures { result ≡ protects_by def.now.shape def.now slots.now }
{
    match def.shape {
        Shape::Scenes => is_of_read_only(def, slots),
        _ => false,
    }
}

fn is_of_read_only(def: &ParameterDef, slots: &[u8]) -> bool
    ensures { result ≡ is_of_read_only def.now slots.now }
{
    let number = scene_of(slots);
    slots.len() == SCENE_SLOTS && 1 <= number && number <= read_only(def) as u16
}
