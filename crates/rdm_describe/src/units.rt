//! What the root and the sub-devices tell of themselves.

ghost use Rattle.std.specs.Prelude.{◌≡◌, ◌≤◌, ◌<◌, ◌∷◌, [], IfOk};
ghost use Rattle.rdm_describe.specs.Answers.{each};
ghost use Rattle.rdm_describe.specs.Parts as spec;

use crate::answers::{Answer, data_of, is_answered, long_at, slot_at, word_at};
use crate::capped::first_of;
use crate::texts::{behind, text_of};
use rdm_device::{Personality, Unit};
use rdm_frame::standard::{MOST_DMX_SLOTS, MOST_SUB_DEVICES};
use std::alloc::{AllocError, Global};

/// The parameter ID of what a device is (E1.20 section 10.5.1).
pub(crate) const DEVICE_INFO: u16 = 0x0060;

/// The parameter ID of what a personality is (section 10.6.2).
const DMX_PERSONALITY_DESCRIPTION: u16 = 0x00E1;

/// What the root, or a sub-device, answered to DEVICE_INFO.
pub(crate) fn info(answers: &[Answer], sub: u16) -> &[u8]
    ensures { result.now ≡ spec.info answers.now sub }
{
    data_of(answers, sub, DEVICE_INFO, 0)
}

/// How many personalities it has in a file.
pub(crate) fn personality_count(answers: &[Answer], sub: u16) -> u16
    ensures value { result ≡ spec.personality_count answers.now sub }
    ensures few { result ≤ 8 }
{
    let told = slot_at(info(answers, sub), 13) as u16;
    told.max(1).min(8)
}

/// How many sub-devices there are.
pub(crate) fn sub_count(answers: &[Answer]) -> u16
    ensures value { result ≡ spec.sub_count answers.now }
    ensures few { result ≤ 512 }
{
    word_at(info(answers, 0), 16).min(MOST_SUB_DEVICES)
}

/// The one by which each sub-device is told.
pub(crate) fn sub_of(answers: &[Answer]) -> u16
    ensures { result ≡ spec.sub_of answers.now }
{
    if sub_count(answers) == 0 { 0 } else { 1 }
}

/// How many slots a personality uses that isn't described.
fn footprint_undescribed(info: &[u8], number: u16) -> u16
    ensures { result ≡ spec.footprint_undescribed info.now number }
{
    let is_present = slot_at(info, 13) <= 1 || slot_at(info, 12) as u16 == number;
    if is_present { word_at(info, 10) } else { 0 }
}

/// How many slots a personality uses.
fn footprint_of(answers: &[Answer], sub: u16, number: u16) -> u16
    ensures { result ≡ spec.footprint_of answers.now sub number }
{
    let footprint = if is_answered(answers, sub, DMX_PERSONALITY_DESCRIPTION, number) {
        word_at(
            data_of(answers, sub, DMX_PERSONALITY_DESCRIPTION, number),
            1,
        )
    } else {
        footprint_undescribed(info(answers, sub), number)
    };
    MOST_DMX_SLOTS.min(footprint)
}

fn personality_of(answers: &[Answer], sub: u16, number: u16) -> Personality
    ensures { result ≡ spec.personality_of answers.now sub number }
{
    let slots = data_of(answers, sub, DMX_PERSONALITY_DESCRIPTION, number);
    Personality {
        footprint: footprint_of(answers, sub, number),
        name: text_of(behind(slots, 3)),
    }
}

/// The personalities.
#[tactic(auto, using(crate::proofs::Lists::each_none, crate::proofs::Lists::each_more))]
pub(crate) fn personalities_of(
    alloc: Global,
    answers: &[Answer],
    sub: u16,
) -> Result<Vec<Personality>, AllocError>
    ensures { IfOk result (λ list. list.items ≡ spec.personalities_of answers.now sub) }
{
    let mut list = Vec::new(alloc);
    for n in 0..personality_count(answers, sub) {
        list.push(personality_of(answers, sub, 1 + n))?;
    }
    Ok(list)
}

/// A start address that can be in a file.
fn start_of(address: u16) -> u16
    ensures { result ≡ spec.start_of address }
{
    if 1 <= address && address <= MOST_DMX_SLOTS {
        address
    } else {
        1
    }
}

/// What the root or a sub-device tells of itself.
pub(crate) fn unit_of(alloc: Global, answers: &[Answer], sub: u16) -> Result<Unit, AllocError>
    ensures { IfOk result (λ unit. unit ≡ spec.unit_of answers.now sub) }
{
    let personalities = personalities_of(alloc, answers, sub)?;
    let info = info(answers, sub);
    Ok(Unit {
        model: word_at(info, 2),
        category: word_at(info, 4),
        software: long_at(info, 6),
        model_text: text_of(data_of(answers, sub, 0x0080, 0)),
        maker_text: text_of(data_of(answers, sub, 0x0081, 0)),
        label: text_of(data_of(answers, sub, 0x0082, 0)),
        software_text: text_of(data_of(answers, sub, 0x00C0, 0)),
        personalities: first_of(personalities),
        start: start_of(word_at(info, 14)),
    })
}
