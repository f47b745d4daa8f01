//! Which choices the parameters of a profile can have.

ghost use Rattle.std.specs.Prelude.{◌≡◌, ◌↔◌, ◌≤◌, ◌+◌, length, slice_index, IsTrue, All, AllPairs};
ghost use Rattle.std.specs.List.{list_all, list_any};
ghost use Rattle.rdm_profile.specs.Choices.{greatest, has_name, have_names, has_names_behind, tells_of, has_curves, is_paired, agrees, is_of_choice, is_needed, comes_before};
ghost use Rattle.rdm_profile.specs.Profiles.{Agree};

use rdm_added::added::{greatest, has_name};
use rdm_profile::{ChoiceName, ParameterDef, Shape};

/// CURVE (E1.37-1).
const CURVE: u16 = 0x0343;

/// DIMMER_INFO (E1.37-1).
const DIMMER_INFO: u16 = 0x0340;

/// How many names of choices a profile can have.
const MOST_NAMES: usize = 64;

/// In which slot of its data DIMMER_INFO has the number of curves.
const CURVES: usize = 8;

/// Whether each choice has a parameter that tells what its things are called, and a name for each; DIMMER_INFO has as many curves as
/// CURVE; and each name is that of a thing that can be chosen, in their order, and they are few.
pub fn agree(defs: &[ParameterDef], choices: &[ChoiceName]) -> bool
    ensures { IsTrue result ↔ Agree defs.now choices.now }
{
    choices.len() <= MOST_NAMES
        && do_each_agree(defs, choices)
        && is_each_needed(defs, choices)
        && are_ascending(choices)
}

/// Whether each parameter agrees with those beside it.
fn do_each_agree(defs: &[ParameterDef], choices: &[ChoiceName]) -> bool
    ensures { IsTrue result ↔ All (λ d. IsTrue (agrees defs.now choices.now d)) defs.now }
{
    defs.iter().all(|def| agrees(defs, choices, def))
}

/// Whether a parameter agrees with those beside it.
fn agrees(defs: &[ParameterDef], choices: &[ChoiceName], def: &ParameterDef) -> bool
    ensures { result ≡ agrees defs.now choices.now def.now }
{
    is_paired(def.shape, defs, choices, def)
        && (def.pid != DIMMER_INFO || have_its_curves(defs, def))
}

/// Whether there is a parameter that tells what the things of a choice are called, each of them; and a choice for one that tells so.
fn is_paired(
    shape: Shape,
    defs: &[ParameterDef],
    choices: &[ChoiceName],
    def: &ParameterDef,
) -> bool
    ensures { result ≡ is_paired shape defs.now choices.now def.now }
{
    match shape {
        Shape::Choice => is_told(defs, def) && have_all_names(choices, def),
        Shape::Lock => is_told(defs, def) && have_all_names(choices, def),
        Shape::Names => tells_of_one(defs, def),
        Shape::Rates => tells_of_one(defs, def),
        Shape::Byte
        | Shape::Word
        | Shape::Long
        | Shape::SignedByte
        | Shape::SignedWord
        | Shape::SignedLong
        | Shape::Text
        | Shape::Bits(_)
        | Shape::Slots(_)
        | Shape::Scenes
        | Shape::Pin
        | Shape::Block => true,
    }
}

/// Whether one of the parameters tells what the things of a choice are called.
fn is_told(defs: &[ParameterDef], choice: &ParameterDef) -> bool
    ensures { result ≡ list_any (tells_of choice.now) defs.now }
{
    defs.iter().any(|names| tells_of(choice, names))
}

/// Whether a parameter tells what the things of one of the choices are called.
fn tells_of_one(defs: &[ParameterDef], names: &ParameterDef) -> bool
    ensures { result ≡ list_any (λ choice. tells_of choice names.now) defs.now }
{
    defs.iter().any(|choice| tells_of(choice, names))
}

/// Whether another parameter tells what the things are called of which one is chosen.
fn has_names_behind(shape: Shape) -> bool
    ensures { result ≡ has_names_behind shape }
{
    matches!(shape, Shape::Choice | Shape::Lock)
}

/// Whether the second parameter tells what the things of the first are called.
fn tells_of(choice: &ParameterDef, names: &ParameterDef) -> bool
    ensures { result ≡ tells_of choice.now names.now }
{
    has_names_behind(choice.shape) && names.pid as u32 == choice.pid as u32 + 1
}

/// Whether each thing of a choice has a name.
fn have_all_names(choices: &[ChoiceName], choice: &ParameterDef) -> bool
    ensures { result ≡ have_names choices.now (choice.now.pid + 1) (greatest choice.now) }
{
    have_names(choices, choice.pid as u32 + 1, greatest(choice))
}

/// Whether each number from 1 on has a name, so many.
#[tactic(auto, using(crate::proofs::ChoiceSteps::one_named, crate::proofs::ChoiceSteps::one_missing, std::proofs::lemmas::Grind::common_steps))]
fn have_names(choices: &[ChoiceName], pid: u32, count: u8) -> bool
    ensures { result ≡ have_names choices.now pid count }
{
    for before in 0..count {
        if !has_name(choices, pid, before + 1) {
            return false;
        }
    }
    true
}

/// Whether DIMMER_INFO starts with as many curves as CURVE lets choose from, if there is CURVE.
fn have_its_curves(defs: &[ParameterDef], info: &ParameterDef) -> bool
    ensures { result ≡ list_all (has_curves info.now) defs.now }
{
    defs.iter().all(|def| has_curves(info, def))
}

fn has_curves(info: &ParameterDef, def: &ParameterDef) -> bool
    ensures { result ≡ has_curves info.now def.now }
{
    def.pid != CURVE || greatest(def) == curves_of(info)
}

/// How many curves DIMMER_INFO starts with.
fn curves_of(info: &ParameterDef) -> u8
    ensures { result ≡ slice_index info.now.start 8 }
{
    match info.start.as_slice().get(CURVES) {
        Some(curves) => *curves,
        None => 0,
    }
}

/// Whether each name is that of a thing that can be chosen.
fn is_each_needed(defs: &[ParameterDef], choices: &[ChoiceName]) -> bool
    ensures { IsTrue result ↔ All (λ c. IsTrue (is_needed defs.now c)) choices.now }
{
    choices.iter().all(|name| is_needed(defs, name))
}

fn is_needed(defs: &[ParameterDef], name: &ChoiceName) -> bool
    ensures { result ≡ is_needed defs.now name.now }
{
    defs.iter().any(|choice| is_of_choice(name, choice))
}

/// Whether a name is that of a thing that this parameter lets choose.
fn is_of_choice(name: &ChoiceName, choice: &ParameterDef) -> bool
    ensures { result ≡ is_of_choice name.now choice.now }
{
    has_names_behind(choice.shape)
        && name.pid as u32 == choice.pid as u32 + 1
        && 1 <= name.number
        && name.number <= greatest(choice)
}

/// Whether the names are in the order of their PIDs and numbers, and no two are of one thing.
fn are_ascending(choices: &[ChoiceName]) -> bool
    ensures { IsTrue result ↔ AllPairs (λ c e. IsTrue (comes_before c e)) choices.now }
{
    for i in 0..choices.len() {
        for j in i + 1..choices.len() {
            if !comes_before(&choices[i], &choices[j]) {
                return false;
            }
        }
    }
    true
}

/// Whether a name comes before another.
fn comes_before(first: &ChoiceName, second: &ChoiceName) -> bool
    ensures { result ≡ comes_before first.now second.now }
{
    first.pid < second.pid || (first.pid == second.pid && first.number < second.number)
}
