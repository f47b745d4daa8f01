//! The parameters of E1.20 and E1.37-1 beside those of the table that a fixture has, as far as a file can say them.

ghost use Rattle.std.specs.Prelude.{◌≡◌, ◌≤◌, ◌<◌, ◌∷◌, ◌++◌, [], IfOk, OnOk};
ghost use Rattle.std.specs.List.{flat_map};
ghost use Rattle.rdm_describe.specs.Answers.{each};
ghost use Rattle.rdm_describe.specs.Choices.{name_of as one_name};
ghost use Rattle.rdm_describe.specs.Added as spec;

use crate::answers::{Answer, has, slot_at};
use crate::choices::{
    CURVE, LOCK_STATE, MODULATION_FREQUENCY, OUTPUT_RESPONSE_TIME, choice_count, name_of,
};
use crate::drafts::{DIMMER_INFO, draft_of, shown};
use crate::own::{is_sayable, put_makers};
use rdm_device::{ChoiceName, ParameterDef, follows, has_good_fields};
use std::alloc::{AllocError, Global};

/// Those that a file can have, in the order of their PIDs.
const ADDED: [u16; 26] = [
    0x0015, 0x0070, 0x0140, 0x0141, 0x0142, 0x0340, 0x0341, 0x0342, 0x0343, 0x0344, 0x0345, 0x0346,
    0x0347, 0x0348, 0x0440, 0x0603, 0x0640, 0x0641, 0x0642, 0x1001, 0x1030, 0x1040, 0x1041, 0x1042,
    0x1043, 0x1044,
];

/// Whether its limits and what it starts with are such as its standard and a file can have.
fn is_right(def: &ParameterDef) -> bool
    ensures { result ≡ spec.is_right def.now }
{
    is_sayable(def) && (has_good_fields(def) && follows(def))
}

/// Whether the fixture lists it, and told of it what a file needs.
#[tactic(auto, unfolding(crate::specs::Added::is_told))]
fn is_told(answers: &[Answer], pid: u16) -> bool
    ensures { result ≡ spec.is_told answers.now pid }
{
    has(answers, 0, pid) && is_right(&draft_of(answers, pid))
}

/// Whether those are told, too, that a file must have beside it.
fn has_partners(answers: &[Answer], pid: u16) -> bool
    ensures { result ≡ spec.has_partners answers.now pid }
{
    match pid {
        0x0343 => is_told(answers, 0x0344),
        0x0344 => is_told(answers, 0x0343),
        0x0345 => is_told(answers, 0x0346),
        0x0346 => is_told(answers, 0x0345),
        0x0347 => is_told(answers, 0x0348),
        0x0348 => is_told(answers, 0x0347),
        0x0641 => is_told(answers, 0x0640) && is_told(answers, 0x0642),
        0x0642 => is_told(answers, 0x0640) && is_told(answers, 0x0641),
        0x1042 => is_told(answers, 0x1041),
        _ => true,
    }
}

/// Whether DIMMER_INFO has as many curves as CURVE, if that is in the file.
fn has_curves(answers: &[Answer]) -> bool
    ensures { result ≡ spec.has_curves answers.now }
{
    !(is_told(answers, 0x0343) && is_told(answers, 0x0344))
        || u16::from(slot_at(shown(answers, DIMMER_INFO), 8)) == choice_count(answers, CURVE)
}

/// Whether it is in the file.
#[tactic(auto, unfolding(crate::specs::Added::stands))]
pub(crate) fn stands(answers: &[Answer], pid: u16) -> bool
    ensures { result ≡ spec.stands answers.now pid }
{
    is_told(answers, pid)
        && (has_partners(answers, pid) && (pid != DIMMER_INFO || has_curves(answers)))
}

/// All parameters that the file adds to the table: these, and those of the maker's own.
#[tactic(auto, unfolding(crate::specs::Added::parameters_of), using(std::proofs::Common::append_assoc))]
pub(crate) fn parameters_of(
    alloc: Global,
    answers: &[Answer],
) -> Result<Vec<ParameterDef>, AllocError>
    ensures { IfOk result (λ list. list.items ≡ spec.parameters_of answers.now) }
{
    let mut list = Vec::new(alloc);
    put_added(answers, &ADDED, &mut list)?;
    put_makers(answers, &mut list)?;
    Ok(list)
}

fn put_added(
    answers: &[Answer],
    pids: &[u16],
    list: &mut Vec<ParameterDef>,
) -> Result<(), AllocError>
    ensures { OnOk result (list.new.items ≡ list.old.items ++ flat_map (spec.added_at answers.now) pids.now) }
{
    for pid in pids {
        if stands(answers, *pid) {
            list.push(draft_of(answers, *pid))?;
        }
    }
    Ok(())
}

/// What the things are called of the choices that are in the file.
#[tactic(auto, unfolding(crate::specs::Added::choices_of), using(std::proofs::Common::append_assoc))]
pub(crate) fn choices_of(alloc: Global, answers: &[Answer]) -> Result<Vec<ChoiceName>, AllocError>
    ensures { IfOk result (λ list. list.items ≡ spec.choices_of answers.now) }
{
    let mut list = Vec::new(alloc);
    put_names(answers, CURVE, &mut list)?;
    put_names(answers, OUTPUT_RESPONSE_TIME, &mut list)?;
    put_names(answers, MODULATION_FREQUENCY, &mut list)?;
    put_names(answers, LOCK_STATE, &mut list)?;
    Ok(list)
}

/// What the things of a choice are called, if it is in the file.
fn put_names(answers: &[Answer], pid: u16, list: &mut Vec<ChoiceName>) -> Result<(), AllocError>
    requires { pid < 65535 }
    ensures { OnOk result (list.new.items ≡ list.old.items ++ spec.names_of answers.now pid) }
{
    if stands(answers, pid) {
        put_each_name(answers, pid + 1, choice_count(answers, pid) as u8, list)
    } else {
        put_each_name(answers, pid + 1, 0, list)
    }
}

/// What the first so many are called that this parameter describes.
#[tactic(auto, using(crate::proofs::Lists::started, crate::proofs::Lists::grown))]
fn put_each_name(
    answers: &[Answer],
    pid: u16,
    count: u8,
    list: &mut Vec<ChoiceName>,
) -> Result<(), AllocError>
    requires { count ≤ 64 }
    ensures { OnOk result (list.new.items ≡ list.old.items ++ each (λ number. one_name answers.now pid number ∷ []) 1 count) }
{
    for n in 0..count {
        list.push(name_of(answers, pid, 1 + n))?;
    }
    Ok(())
}
