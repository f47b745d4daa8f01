//! What a file can't say of a fixture, or says otherwise.

ghost use Rattle.std.specs.Prelude.{◌≡◌, ◌≤◌, ◌<◌, ◌+◌, ◌-◌, ◌∷◌, ◌++◌, [], IfOk, OnOk, length};
ghost use Rattle.std.specs.List.{flat_map};
ghost use Rattle.rdm_profile.specs.LeftOut.{is_optional};
ghost use Rattle.rdm_describe.specs.Added.{parameters_of as all_parameters};
ghost use Rattle.rdm_describe.specs.Answers.{each, supported, word_count};
ghost use Rattle.rdm_describe.specs.Notes as spec;

use crate::added::{parameters_of, stands};
use crate::answers::{
    Answer, Question, SUPPORTED_PARAMETERS, data_of, has, is_answered, long_at, slot_at, word_at,
    word_count,
};
use crate::choices::{choice_count, things_told};
use crate::fixture_parts::{
    OPTIONAL, SLOT_INFO, coded_languages, is_needed, slot_count, statuses_of, tests_of,
};
use crate::plan::all_questions;
use crate::scenes::{PRESET_STATUS, fixed_count, is_blank, scene_count, scenes_told};
use crate::texts::{behind, is_altered};
use crate::units::{info, sub_count};
use rdm_device::ParameterDef;
use std::alloc::{AllocError, Global};

/// What a file can't say of a fixture, or says otherwise.
#[derive(Debug, Drop, PartialEq, Eq)]
pub enum Note {
    /// The fixture didn't answer this.
    Unread(Question),
    /// The text of the answer to this has characters that a file can't have, or more than 32.
    Altered(Question),
    /// There is more than a file can have.
    Cut {
        /// The parameter that tells it.
        pid: u16,
        /// How many the fixture told.
        told: usize,
        /// How many of them the file has.
        kept: usize,
    },
    /// The fixture has a parameter that no file can say.
    Unsayable(u16),
    /// A scene of the fixture isn't as each starts in a file: without times, and not programmed unless it can only be read.
    OtherScene(u16),
    /// The fixture lacks a parameter that the file has.
    Kept(u16),
    /// A sub-device is of another kind than the first one, as which the file has it.
    Differs(u16),
    /// The fixture has this personality now, and a fixture of a file starts with the first.
    InPersonality(u8),
}

/// All notes on a fixture that gave these answers.
#[tactic(auto, using(std::proofs::Common::append_assoc))]
pub(crate) fn notes_of(alloc: Global, answers: &[Answer]) -> Result<Vec<Note>, AllocError>
    ensures { IfOk result (λ list. list.items ≡ spec.notes_of answers.now) }
{
    let mut list = Vec::new(alloc);
    put_notes_on_answers(alloc, answers, &mut list)?;
    put_notes_on_file(answers, &mut list)?;
    Ok(list)
}

/// On what was told, and a file has otherwise or not at all.
#[tactic(auto, unfolding(crate::specs::Notes::notes_on_answers), using(std::proofs::Common::append_assoc))]
fn put_notes_on_answers(
    alloc: Global,
    answers: &[Answer],
    list: &mut Vec<Note>,
) -> Result<(), AllocError>
    ensures { OnOk result (list.new.items ≡ list.old.items ++ spec.notes_on_answers answers.now) }
{
    let questions = all_questions(alloc, answers)?;
    let parameters = parameters_of(alloc, answers)?;
    put_unread(answers, questions.as_slice(), list)?;
    put_altered(answers, list)?;
    put_cut_lists(alloc, answers, parameters.len(), list)?;
    put_unsayable(answers, parameters.as_slice(), list)?;
    put_other_scenes(answers, list)
}

/// On what a file has, and the fixture hasn't.
#[tactic(auto, unfolding(crate::specs::Notes::notes_on_file), using(std::proofs::Common::append_assoc))]
fn put_notes_on_file(answers: &[Answer], list: &mut Vec<Note>) -> Result<(), AllocError>
    ensures { OnOk result (list.new.items ≡ list.old.items ++ spec.notes_on_file answers.now) }
{
    put_kept(answers, &OPTIONAL, list)?;
    put_no_queue(answers, list)?;
    put_different(answers, sub_count(answers), list)?;
    put_personality(answers, list)
}

// ---- what the fixture didn't answer

fn is_unread(answers: &[Answer], question: Question) -> bool
    ensures { result ≡ spec.is_unread answers.now question }
{
    let Question { sub, pid, about } = question;
    let may_be_none = pid == 0x1021 || pid == 0x0031;
    !is_answered(answers, sub, pid, about) && !may_be_none
}

fn put_unread(
    answers: &[Answer],
    questions: &[Question],
    list: &mut Vec<Note>,
) -> Result<(), AllocError>
    ensures { OnOk result (list.new.items ≡ list.old.items ++ flat_map (spec.if_unread answers.now) questions.now) }
{
    for question in questions {
        if is_unread(answers, *question) {
            list.push(Note::Unread(*question))?;
        }
    }
    Ok(())
}

// ---- texts that are other ones in the file

/// The text of the data of an answer.
fn text_in(pid: u16, slots: &[u8]) -> &[u8]
    ensures { result.now ≡ spec.text_in pid slots.now }
{
    match pid {
        0x0080 | 0x0081 | 0x0082 | 0x00C0 | 0x00C2 | 0x0031 => slots,
        0x1021 | 0x0344 | 0x0346 | 0x0642 => behind(slots, 1),
        0x0121 => behind(slots, 2),
        0x00E1 => behind(slots, 3),
        0x0348 => behind(slots, 5),
        0x0200 => behind(slots, 13),
        0x0051 => behind(slots, 20),
        _ => &[],
    }
}

fn put_altered(answers: &[Answer], list: &mut Vec<Note>) -> Result<(), AllocError>
    ensures { OnOk result (list.new.items ≡ list.old.items ++ flat_map spec.if_altered answers.now) }
{
    for answer in answers {
        if is_altered(text_in(answer.question.pid, answer.data.as_slice())) {
            list.push(Note::Altered(answer.question))?;
        }
    }
    Ok(())
}

// ---- lists that are longer than a file's

fn put_cut(list: &mut Vec<Note>, pid: u16, told: usize, kept: usize) -> Result<(), AllocError>
    ensures { OnOk result (list.new.items ≡ list.old.items ++ spec.if_cut pid told kept) }
{
    if kept < told {
        list.push(Note::Cut { pid, told, kept })?;
    }
    Ok(())
}

#[tactic(auto, unfolding(crate::specs::Notes::cut_lists), using(std::proofs::Common::append_assoc))]
fn put_cut_lists(
    alloc: Global,
    answers: &[Answer],
    parameters: usize,
    list: &mut Vec<Note>,
) -> Result<(), AllocError>
    requires { parameters ≡ length (all_parameters answers.now) }
    ensures { OnOk result (list.new.items ≡ list.old.items ++ spec.cut_lists answers.now) }
{
    put_cut_parts(alloc, answers, list)?;
    put_cut_texts(alloc, answers, parameters, list)?;
    put_cut_things(answers, list)
}

/// Personalities, slots, sensors and self tests.
#[tactic(auto, unfolding(crate::specs::Notes::cut_parts), using(std::proofs::Common::append_assoc))]
fn put_cut_parts(alloc: Global, answers: &[Answer], list: &mut Vec<Note>) -> Result<(), AllocError>
    ensures { OnOk result (list.new.items ≡ list.old.items ++ spec.cut_parts answers.now) }
{
    let info = info(answers, 0);
    let slots = data_of(answers, 0, SLOT_INFO, 0).len() / 5;
    let tests = tests_of(alloc, answers)?;
    put_cut(list, 0x00E0, slot_at(info, 13) as usize, 8)?;
    put_cut(list, SLOT_INFO, slots, slot_count(answers) as usize)?;
    put_cut(list, 0x0200, slot_at(info, 18) as usize, 8)?;
    put_cut(list, 0x1020, tests.len(), 8)
}

/// Status texts, languages and parameters.
#[tactic(auto, unfolding(crate::specs::Notes::cut_texts), using(std::proofs::Common::append_assoc))]
fn put_cut_texts(
    alloc: Global,
    answers: &[Answer],
    parameters: usize,
    list: &mut Vec<Note>,
) -> Result<(), AllocError>
    requires { parameters ≡ length (all_parameters answers.now) }
    ensures { OnOk result (list.new.items ≡ list.old.items ++ spec.cut_texts answers.now) }
{
    let statuses = statuses_of(alloc, answers)?;
    let languages = coded_languages(alloc, data_of(answers, 0, 0x00A0, 0))?;
    put_cut(list, 0x0031, statuses.len(), 8)?;
    put_cut(list, 0x00A0, languages.len(), 8)?;
    put_cut(list, 0x0051, parameters, 32)
}

/// The things of choices, and scenes.
#[tactic(auto, unfolding(crate::specs::Notes::cut_things), using(std::proofs::Common::append_assoc))]
fn put_cut_things(answers: &[Answer], list: &mut Vec<Note>) -> Result<(), AllocError>
    ensures { OnOk result (list.new.items ≡ list.old.items ++ spec.cut_things answers.now) }
{
    put_choice_cut(answers, 0x0343, list)?;
    put_choice_cut(answers, 0x0345, list)?;
    put_choice_cut(answers, 0x0347, list)?;
    put_choice_cut(answers, 0x0641, list)?;
    let (told, kept) = (scenes_told(answers), scene_count(answers));
    put_cut(list, PRESET_STATUS, usize::from(told), usize::from(kept))
}

fn put_choice_cut(answers: &[Answer], pid: u16, list: &mut Vec<Note>) -> Result<(), AllocError>
    ensures { OnOk result (list.new.items ≡ list.old.items ++ spec.if_choice_cut answers.now pid) }
{
    let (told, kept) = (things_told(answers, pid), choice_count(answers, pid));
    put_cut(list, pid, usize::from(told), usize::from(kept))
}

// ---- parameters

/// Whether each file has a parameter, or can leave it out.
fn is_common(pid: u16) -> bool
    ensures { result ≡ spec.is_common pid }
{
    is_optional(pid)
        || matches!(
            pid,
            0x0020 | 0x0050 | 0x0051 | 0x0060 | 0x00C0 | 0x00F0 | 0x1000
        )
}

fn is_optional(pid: u16) -> bool
    ensures { result ≡ is_optional pid }
{
    OPTIONAL.iter().any(|optional| *optional == pid)
}

fn put_if_unsayable(
    parameters: &[ParameterDef],
    pid: u16,
    list: &mut Vec<Note>,
) -> Result<(), AllocError>
    ensures { OnOk result (list.new.items ≡ list.old.items ++ spec.if_unsayable parameters.now pid) }
{
    if !is_common(pid) && !is_one_of(parameters, pid) {
        list.push(Note::Unsayable(pid))?;
    }
    Ok(())
}

/// Whether one of these has this PID.
fn is_one_of(parameters: &[ParameterDef], pid: u16) -> bool
    ensures { result ≡ spec.is_one_of parameters.now pid }
{
    parameters.iter().any(|def| def.pid == pid)
}

/// The parameters that the fixture lists and that aren't among these of the file.
#[tactic(auto, using(crate::proofs::Lists::started, crate::proofs::Lists::grown))]
fn put_unsayable(
    answers: &[Answer],
    parameters: &[ParameterDef],
    list: &mut Vec<Note>,
) -> Result<(), AllocError>
    ensures { OnOk result (list.new.items ≡ list.old.items ++ each (spec.unsayable_at answers.now parameters.now) 0 (word_count (supported answers.now 0))) }
{
    let slots = data_of(answers, 0, SUPPORTED_PARAMETERS, 0);
    for place in 0..word_count(slots) {
        put_if_unsayable(parameters, word_at(slots, 2 * place), list)?;
    }
    Ok(())
}

/// The scenes that aren't as they are in the file.
fn put_other_scenes(answers: &[Answer], list: &mut Vec<Note>) -> Result<(), AllocError>
    ensures { OnOk result (list.new.items ≡ list.old.items ++ spec.other_scenes answers.now) }
{
    let fixed = fixed_count(answers);
    if stands(answers, PRESET_STATUS) {
        put_other_of(answers, fixed, scene_count(answers), list)
    } else {
        put_other_of(answers, fixed, 0, list)
    }
}

/// Those of the first so many, where so many can only be read.
#[tactic(auto, using(crate::proofs::Lists::started, crate::proofs::Lists::grown))]
fn put_other_of(
    answers: &[Answer],
    fixed: u16,
    count: u16,
    list: &mut Vec<Note>,
) -> Result<(), AllocError>
    requires { count ≤ 255 }
    ensures { OnOk result (list.new.items ≡ list.old.items ++ each (spec.if_other_scene answers.now fixed) 1 count) }
{
    for n in 0..count {
        put_if_other_scene(answers, fixed, 1 + n, list)?;
    }
    Ok(())
}

fn put_if_other_scene(
    answers: &[Answer],
    fixed: u16,
    number: u16,
    list: &mut Vec<Note>,
) -> Result<(), AllocError>
    ensures { OnOk result (list.new.items ≡ list.old.items ++ spec.if_other_scene answers.now fixed number) }
{
    if is_answered(answers, 0, PRESET_STATUS, number) && !is_blank(answers, fixed, number) {
        list.push(Note::OtherScene(number))?;
    }
    Ok(())
}

fn put_kept(answers: &[Answer], pids: &[u16], list: &mut Vec<Note>) -> Result<(), AllocError>
    ensures { OnOk result (list.new.items ≡ list.old.items ++ flat_map (spec.if_kept answers.now) pids.now) }
{
    for pid in pids {
        if !has(answers, 0, *pid) && is_needed(answers, *pid) {
            list.push(Note::Kept(*pid))?;
        }
    }
    Ok(())
}

fn put_no_queue(answers: &[Answer], list: &mut Vec<Note>) -> Result<(), AllocError>
    ensures { OnOk result (list.new.items ≡ list.old.items ++ spec.if_no_queue answers.now) }
{
    if !has(answers, 0, 0x0020) {
        list.push(Note::Kept(0x0020))?;
    }
    Ok(())
}

// ---- sub-devices, and the personality that the fixture has now

/// Whether two devices are of one model, category and software, and have as many personalities.
fn is_same_kind(a: &[u8], b: &[u8]) -> bool
    ensures { result ≡ spec.is_same_kind a.now b.now }
{
    word_at(a, 2) == word_at(b, 2)
        && word_at(a, 4) == word_at(b, 4)
        && long_at(a, 6) == long_at(b, 6)
        && slot_at(a, 13) == slot_at(b, 13)
}

/// The sub-devices of other kinds than the first.
#[tactic(auto, using(crate::proofs::Lists::started, crate::proofs::Lists::grown))]
fn put_different(answers: &[Answer], count: u16, list: &mut Vec<Note>) -> Result<(), AllocError>
    requires { count ≤ 512 }
    ensures { OnOk result (list.new.items ≡ list.old.items ++ each (spec.if_differs answers.now) 2 (count - 1)) }
{
    for n in 0..count.saturating_sub(1) {
        put_if_differs(answers, 2 + n, list)?;
    }
    Ok(())
}

fn put_if_differs(answers: &[Answer], sub: u16, list: &mut Vec<Note>) -> Result<(), AllocError>
    ensures { OnOk result (list.new.items ≡ list.old.items ++ spec.if_differs answers.now sub) }
{
    if !is_same_kind(info(answers, sub), info(answers, 1)) {
        list.push(Note::Differs(sub))?;
    }
    Ok(())
}

fn put_personality(answers: &[Answer], list: &mut Vec<Note>) -> Result<(), AllocError>
    ensures { OnOk result (list.new.items ≡ list.old.items ++ spec.if_other_personality answers.now) }
{
    let now = slot_at(info(answers, 0), 12);
    if 2 <= now {
        list.push(Note::InPersonality(now))?;
    }
    Ok(())
}
