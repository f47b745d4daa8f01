//! What a fixture is asked.

ghost use Rattle.std.specs.Prelude.{◌≡◌, ◌≤◌, ◌+◌, ◌<◌, ◌++◌, ◌∷◌, [], IfOk, OnOk};
ghost use Rattle.rdm_describe.specs.Answers as answered;
ghost use Rattle.rdm_describe.specs.Answers.{each};
ghost use Rattle.rdm_describe.specs.Plan as spec;

use crate::answers::{Answer, Question, data_of, has, slot_at};
use crate::choices::choice_count;
use crate::fixture_parts::{sensor_count, slot_count};
use crate::own::{FIRST_OWN, OWN_COUNT, PARAMETER_DESCRIPTION};
use crate::scenes::{PRESET_STATUS, scene_count};
use crate::units::{DEVICE_INFO, personality_count, sub_count};
use std::alloc::{AllocError, Global};

/// How many self tests are asked for.
pub(crate) const SELF_TESTS: u16 = 32;

/// The first status ID that is asked for, and how many are.
pub(crate) const FIRST_STATUS: u16 = 0x8000;

pub(crate) const STATUSES: u16 = 32;

/// What is read of the root without more.
const READABLE: [u16; 30] = [
    0x0080, 0x0081, 0x0082, 0x00A0, 0x00C1, 0x00C2, 0x0120, 0x0122, 0x0400, 0x0401, 0x0402, 0x0405,
    0x0015, 0x0070, 0x0141, 0x0142, 0x0340, 0x0341, 0x0342, 0x0343, 0x0345, 0x0347, 0x0440, 0x0603,
    0x0640, 0x0641, 0x1040, 0x1041, 0x1043, 0x1044,
];

/// What a sub-device calls itself.
const NAMES: [u16; 3] = [0x0080, 0x0081, 0x0082];

/// The rounds in which a fixture is asked.
#[derive(Clone, Copy, Debug, PartialEq, Eq)]
pub enum Round {
    /// What each fixture has to answer.
    First,
    /// What follows from the parameters that it lists, and from its DEVICE_INFO.
    Second,
    /// What follows from the answers of the second round.
    Third,
}

/// What a fixture is asked in a round, by what it answered in the rounds before.
pub fn questions(
    alloc: Global,
    round: Round,
    answers: &[Answer],
) -> Result<Vec<Question>, AllocError>
    ensures { IfOk result (λ list. list.items ≡ spec.questions_of answers.now round) }
{
    let mut list = Vec::new(alloc);
    match round {
        Round::First => put_first(&mut list)?,
        Round::Second => put_second(answers, &mut list)?,
        Round::Third => put_third(answers, &mut list)?,
    }
    Ok(list)
}

/// All that a fixture is asked.
pub(crate) fn all_questions(alloc: Global, answers: &[Answer]) -> Result<Vec<Question>, AllocError>
    ensures { IfOk result (λ list. list.items ≡ spec.all_questions answers.now) }
{
    let mut list = Vec::new(alloc);
    put_first(&mut list)?;
    put_second(answers, &mut list)?;
    put_third(answers, &mut list)?;
    Ok(list)
}

/// A question.
fn asked(sub: u16, pid: u16, about: u16) -> Question
    ensures { result ≡ answered.asked sub pid about }
{
    Question { sub, pid, about }
}

fn put_first(list: &mut Vec<Question>) -> Result<(), AllocError>
    ensures { OnOk result (list.new.items ≡ list.old.items ++ spec.first_questions) }
{
    list.push(asked(0, 0x0050, 0))?;
    list.push(asked(0, DEVICE_INFO, 0))?;
    list.push(asked(0, 0x00C0, 0))?;
    Ok(())
}

#[tactic(auto, using(std::proofs::Common::append_assoc))]
fn put_second(answers: &[Answer], list: &mut Vec<Question>) -> Result<(), AllocError>
    ensures { OnOk result (list.new.items ≡ list.old.items ++ spec.second_questions answers.now) }
{
    put_root(answers, list)?;
    put_more(answers, list)
}

/// What is told without more, personalities and sensors.
#[tactic(auto, using(std::proofs::Common::append_assoc))]
fn put_root(answers: &[Answer], list: &mut Vec<Question>) -> Result<(), AllocError>
    ensures { OnOk result (list.new.items ≡ list.old.items ++ spec.about_root answers.now) }
{
    put_listed(answers, 0, &READABLE, list)?;
    put_about_if(
        answers,
        asked(0, 0x00E1, 1),
        personality_count(answers, 0),
        list,
    )?;
    put_about_if(answers, asked(0, 0x0200, 0), sensor_count(answers), list)?;
    put_about_if(answers, asked(0, 0x0201, 0), sensor_count(answers), list)
}

/// Self tests, status IDs, parameters of the maker's own, and sub-devices.
#[tactic(auto, using(std::proofs::Common::append_assoc))]
fn put_more(answers: &[Answer], list: &mut Vec<Question>) -> Result<(), AllocError>
    ensures { OnOk result (list.new.items ≡ list.old.items ++ spec.about_more answers.now) }
{
    put_about_if(answers, asked(0, 0x1021, 1), SELF_TESTS, list)?;
    put_about_if(answers, asked(0, 0x0031, FIRST_STATUS), STATUSES, list)?;
    put_descriptions(answers, list)?;
    put_subs(answers, list)
}

#[tactic(auto, using(std::proofs::Common::append_assoc))]
fn put_third(answers: &[Answer], list: &mut Vec<Question>) -> Result<(), AllocError>
    ensures { OnOk result (list.new.items ≡ list.old.items ++ spec.third_questions answers.now) }
{
    put_about_if(answers, asked(0, 0x0121, 0), slot_count(answers), list)?;
    put_values(answers, list)?;
    put_first_sub(answers, list)?;
    put_things(answers, list)
}

/// What curves, response times, frequencies and lock states are called, and what each scene is.
#[tactic(auto, using(std::proofs::Common::append_assoc))]
fn put_things(answers: &[Answer], list: &mut Vec<Question>) -> Result<(), AllocError>
    ensures { OnOk result (list.new.items ≡ list.old.items ++ spec.about_things answers.now) }
{
    put_about_if(
        answers,
        asked(0, 0x0344, 1),
        choice_count(answers, 0x0343),
        list,
    )?;
    put_about_if(
        answers,
        asked(0, 0x0346, 1),
        choice_count(answers, 0x0345),
        list,
    )?;
    put_about_if(
        answers,
        asked(0, 0x0348, 1),
        choice_count(answers, 0x0347),
        list,
    )?;
    put_about_if(
        answers,
        asked(0, 0x0642, 1),
        choice_count(answers, 0x0641),
        list,
    )?;
    put_about_if(
        answers,
        asked(0, PRESET_STATUS, 1),
        scene_count(answers),
        list,
    )
}

/// What the sub-devices are.
#[tactic(auto, using(std::proofs::Common::append_assoc))]
fn put_subs(answers: &[Answer], list: &mut Vec<Question>) -> Result<(), AllocError>
    ensures { OnOk result (list.new.items ≡ list.old.items ++ spec.about_subs answers.now) }
{
    let count = sub_count(answers);
    put_infos(count, list)?;
    put_about(asked(1, 0x0050, 0), count.min(1), list)
}

/// What the first sub-device calls itself.
#[tactic(auto, using(std::proofs::Common::append_assoc))]
fn put_first_sub(answers: &[Answer], list: &mut Vec<Question>) -> Result<(), AllocError>
    ensures { OnOk result (list.new.items ≡ list.old.items ++ spec.about_first_sub answers.now) }
{
    put_listed(answers, 1, &NAMES, list)?;
    put_about(asked(1, 0x00C0, 0), sub_count(answers).min(1), list)?;
    put_about_if(
        answers,
        asked(1, 0x00E1, 1),
        personality_count(answers, 1),
        list,
    )
}

/// Those of these parameters that the root or a sub-device lists.
fn put_listed(
    answers: &[Answer],
    sub: u16,
    pids: &[u16],
    list: &mut Vec<Question>,
) -> Result<(), AllocError>
    ensures { OnOk result (list.new.items ≡ list.old.items ++ spec.all_listed answers.now sub pids.now) }
{
    for pid in pids {
        if has(answers, sub, *pid) {
            list.push(asked(sub, *pid, 0))?;
        }
    }
    Ok(())
}

/// A question about its number and the next ones, so many, if the root or the sub-device lists the parameter.
fn put_about_if(
    answers: &[Answer],
    first: Question,
    count: u16,
    list: &mut Vec<Question>,
) -> Result<(), AllocError>
    requires { first.about + count < 65536 }
    ensures { OnOk result (list.new.items ≡ list.old.items ++ spec.about_each_if answers.now first.sub first.pid first.about count) }
{
    if has(answers, first.sub, first.pid) {
        put_about(first, count, list)
    } else {
        put_about(first, 0, list)
    }
}

/// A question about its number and the next ones, so many.
#[tactic(auto, using(crate::proofs::Lists::started, crate::proofs::Lists::grown))]
fn put_about(first: Question, count: u16, list: &mut Vec<Question>) -> Result<(), AllocError>
    requires { first.about + count < 65536 }
    ensures { OnOk result (list.new.items ≡ list.old.items ++ spec.about_each first.sub first.pid first.about count) }
{
    for n in 0..count {
        list.push(asked(first.sub, first.pid, first.about + n))?;
    }
    Ok(())
}

/// What the parameters of the maker's own are.
#[tactic(auto, using(crate::proofs::Lists::started, crate::proofs::Lists::grown))]
fn put_descriptions(answers: &[Answer], list: &mut Vec<Question>) -> Result<(), AllocError>
    ensures { OnOk result (list.new.items ≡ list.old.items ++ each (spec.if_makers answers.now) 0x8000 0x7FE0) }
{
    for n in 0..OWN_COUNT {
        put_if_makers(answers, FIRST_OWN + n, list)?;
    }
    Ok(())
}

fn put_if_makers(answers: &[Answer], pid: u16, list: &mut Vec<Question>) -> Result<(), AllocError>
    ensures { OnOk result (list.new.items ≡ list.old.items ++ spec.if_makers answers.now pid) }
{
    if has(answers, 0, pid) {
        list.push(asked(0, PARAMETER_DESCRIPTION, pid))?;
    }
    Ok(())
}

/// What those of them have that can be read.
#[tactic(auto, using(crate::proofs::Lists::started, crate::proofs::Lists::grown))]
fn put_values(answers: &[Answer], list: &mut Vec<Question>) -> Result<(), AllocError>
    ensures { OnOk result (list.new.items ≡ list.old.items ++ each (spec.if_readable answers.now) 0x8000 0x7FE0) }
{
    for n in 0..OWN_COUNT {
        put_if_readable(answers, FIRST_OWN + n, list)?;
    }
    Ok(())
}

fn put_if_readable(answers: &[Answer], pid: u16, list: &mut Vec<Question>) -> Result<(), AllocError>
    ensures { OnOk result (list.new.items ≡ list.old.items ++ spec.if_readable answers.now pid) }
{
    if has(answers, 0, pid) && can_be_read(answers, pid) {
        list.push(asked(0, pid, 0))?;
    }
    Ok(())
}

/// Whether a parameter of the maker's own can be read.
fn can_be_read(answers: &[Answer], pid: u16) -> bool
    ensures { result ≡ spec.can_be_read answers.now pid }
{
    let class = slot_at(data_of(answers, 0, PARAMETER_DESCRIPTION, pid), 4);
    class == 1 || class == 3
}

/// What each sub-device is.
#[tactic(auto, using(crate::proofs::Lists::started, crate::proofs::Lists::grown))]
fn put_infos(count: u16, list: &mut Vec<Question>) -> Result<(), AllocError>
    requires { count ≤ 512 }
    ensures { OnOk result (list.new.items ≡ list.old.items ++ each (λ sub. answered.asked sub 0x0060 0 ∷ []) 1 count) }
{
    for n in 0..count {
        list.push(asked(1 + n, DEVICE_INFO, 0))?;
    }
    Ok(())
}
