//! The slots, sensors, self tests, status IDs and languages of a fixture, and what it lacks.

ghost use Rattle.std.specs.Prelude.{◌≡◌, ◌≤◌, ◌<◌, ◌+◌, ◌∷◌, ◌++◌, [], IfOk, OnOk, if◌then◌else◌};
ghost use Rattle.std.specs.List.{flat_map};
ghost use Rattle.rdm_profile.specs.LeftOut.{optional_pids};
ghost use Rattle.rdm_describe.specs.Answers.{each};
ghost use Rattle.rdm_describe.specs.Parts as spec;

use crate::answers::{
    Answer, data_of, estimate_of, has, is_answered, signed_word_at, slot_at, word_at, word_count,
};
use crate::plan::{FIRST_STATUS, SELF_TESTS, STATUSES};
use crate::texts::{behind, text_of};
use crate::units::info;
use rdm_device::{Personality, SelfTest, SensorDef, Slot, StatusText};
use std::alloc::{AllocError, Global};

/// The parameter IDs that are read here (E1.20 table A-3).
const STATUS_ID_DESCRIPTION: u16 = 0x0031;

const LANGUAGE_CAPABILITIES: u16 = 0x00A0;

pub(crate) const SLOT_INFO: u16 = 0x0120;

const SLOT_DESCRIPTION: u16 = 0x0121;

const DEFAULT_SLOT_VALUE: u16 = 0x0122;

const SENSOR_DEFINITION: u16 = 0x0200;

const SENSOR_VALUE: u16 = 0x0201;

const SELF_TEST_DESCRIPTION: u16 = 0x1021;

/// The parameters that a fixture may lack.
pub(crate) const OPTIONAL: [u16; 35] = [
    0x0030, 0x0031, 0x0032, 0x0033, 0x0080, 0x0081, 0x0082, 0x0090, 0x00A0, 0x00B0, 0x00C1, 0x00C2,
    0x00E0, 0x00E1, 0x0120, 0x0121, 0x0122, 0x0200, 0x0201, 0x0202, 0x0400, 0x0401, 0x0402, 0x0403,
    0x0404, 0x0405, 0x0500, 0x0501, 0x0600, 0x0601, 0x0602, 0x1010, 0x1020, 0x1021, 0x1031,
];

// ---- slots

/// How many slots are described: the first entries of SLOT_INFO, as long as they are of slots 0, 1, 2 and so on.
pub(crate) fn slot_count(answers: &[Answer]) -> u16
    ensures value { result ≡ spec.slot_count answers.now }
    ensures few { result ≤ 46 }
{
    let slots = data_of(answers, 0, SLOT_INFO, 0);
    in_order(slots, (slots.len() / 5).min(46) as u16)
}

/// How many of the first so many entries are in order.
#[tactic(auto, using(crate::proofs::Lists::none_in_order, crate::proofs::Lists::more_in_order))]
fn in_order(slots: &[u8], count: u16) -> u16
    requires { count ≤ 46 }
    ensures value { result ≡ spec.in_order slots.now count }
    ensures few { result ≤ count }
{
    let mut run = 0;
    for n in 0..count {
        if run == n && word_at(slots, 5 * n) == n {
            run = n + 1;
        }
    }
    run
}

/// The value of a slot in the first so many entries of DEFAULT_SLOT_VALUE.
#[tactic(auto, using(crate::proofs::Lists::no_default, crate::proofs::Lists::more_defaults))]
fn default_at(slots: &[u8], slot: u16, count: u16) -> u8
    requires { count ≤ 512 }
    ensures { result ≡ spec.default_at slots.now slot count }
{
    let mut value = 0;
    for n in 0..count {
        if word_at(slots, 3 * n) == slot {
            value = slot_at(slots, 3 * n + 2);
        }
    }
    value
}

fn default_of(slots: &[u8], slot: u16) -> u8
    ensures { result ≡ spec.default_of slots.now slot }
{
    default_at(slots, slot, (slots.len() / 3).min(512) as u16)
}

fn slot_of(answers: &[Answer], number: u16) -> Slot
    requires { number < 46 }
    ensures { result ≡ spec.slot_of answers.now number }
{
    let entries = data_of(answers, 0, SLOT_INFO, 0);
    Slot {
        kind: slot_at(entries, 5 * number + 2),
        label: word_at(entries, 5 * number + 3),
        value: default_of(data_of(answers, 0, DEFAULT_SLOT_VALUE, 0), number),
        name: text_of(behind(data_of(answers, 0, SLOT_DESCRIPTION, number), 2)),
    }
}

/// The slots that are described.
#[tactic(auto, using(crate::proofs::Lists::each_none, crate::proofs::Lists::each_more))]
pub(crate) fn slots_of(alloc: Global, answers: &[Answer]) -> Result<Vec<Slot>, AllocError>
    ensures { IfOk result (λ list. list.items ≡ spec.slots_of answers.now) }
{
    let mut list = Vec::new(alloc);
    for number in 0..slot_count(answers) {
        list.push(slot_of(answers, number))?;
    }
    Ok(list)
}

/// How many slots the personality with the most uses.
#[tactic(auto, using(crate::proofs::Lists::most_behind, crate::proofs::Lists::most_alone))]
fn most_slots(personalities: &[Personality]) -> u16
    ensures { result ≡ spec.most_slots personalities.now }
{
    let mut most = 0;
    let mut rest = personalities;
    while let Some((personality, more)) = rest.split_first() {
        most = most.max(personality.footprint);
        rest = more;
    }
    most
}

/// How many slots are used and not described.
pub(crate) fn more_slots_of(answers: &[Answer], personalities: &[Personality]) -> u16
    requires { personalities.now ≡ spec.personalities_of answers.now 0 }
    ensures { result ≡ spec.more_slots_of answers.now }
{
    most_slots(personalities).saturating_sub(slot_count(answers))
}

// ---- sensors

/// How many sensors are described.
pub(crate) fn sensor_count(answers: &[Answer]) -> u16
    ensures value { result ≡ spec.sensor_count answers.now }
    ensures few { result ≤ 8 }
{
    if has(answers, 0, SENSOR_DEFINITION) {
        let told = slot_at(info(answers, 0), 18) as u16;
        told.min(8)
    } else {
        0
    }
}

/// Whether a sensor answered at once.
fn is_at_once(answers: &[Answer], number: u16) -> bool
    ensures { result ≡ spec.is_at_once answers.now number }
{
    is_answered(answers, 0, SENSOR_VALUE, number)
        && estimate_of(answers, 0, SENSOR_VALUE, number).is_none()
}

fn sensor_of(answers: &[Answer], number: u16) -> SensorDef
    ensures { result ≡ spec.sensor_of answers.now number }
{
    let slots = data_of(answers, 0, SENSOR_DEFINITION, number);
    SensorDef {
        kind: slot_at(slots, 1),
        unit: slot_at(slots, 2),
        prefix: slot_at(slots, 3),
        low: signed_word_at(slots, 4),
        high: signed_word_at(slots, 6),
        normal_low: signed_word_at(slots, 8),
        normal_high: signed_word_at(slots, 10),
        support: slot_at(slots, 12),
        at_once: is_at_once(answers, number),
        name: text_of(behind(slots, 13)),
    }
}

/// The sensors.
#[tactic(auto, using(crate::proofs::Lists::each_none, crate::proofs::Lists::each_more))]
pub(crate) fn sensors_of(alloc: Global, answers: &[Answer]) -> Result<Vec<SensorDef>, AllocError>
    ensures { IfOk result (λ list. list.items ≡ spec.sensors_of answers.now) }
{
    let mut list = Vec::new(alloc);
    for number in 0..sensor_count(answers) {
        list.push(sensor_of(answers, number))?;
    }
    Ok(list)
}

/// What a sensor measures now.
fn present_of(answers: &[Answer], number: u16) -> Option<i16>
    ensures { result ≡ spec.present_of answers.now number }
{
    if is_answered(answers, 0, SENSOR_VALUE, number) {
        Some(signed_word_at(data_of(answers, 0, SENSOR_VALUE, number), 1))
    } else {
        None
    }
}

/// What each of them measures now.
#[tactic(auto, using(crate::proofs::Lists::each_none, crate::proofs::Lists::each_more))]
pub(crate) fn presents_of(alloc: Global, answers: &[Answer]) -> Result<Vec<Option<i16>>, AllocError>
    ensures { IfOk result (λ list. list.items ≡ spec.presents_of answers.now) }
{
    let mut list = Vec::new(alloc);
    for number in 0..sensor_count(answers) {
        list.push(present_of(answers, number))?;
    }
    Ok(list)
}

/// How long the sensors said that SENSOR_VALUE takes, in tenths of a second.
#[tactic(auto, using(crate::proofs::Lists::each_none, crate::proofs::Lists::each_more))]
fn estimates_told(alloc: Global, answers: &[Answer]) -> Result<Vec<u16>, AllocError>
    ensures { IfOk result (λ list. list.items ≡ spec.estimates_told answers.now) }
{
    let mut list = Vec::new(alloc);
    for number in 0..sensor_count(answers) {
        put_estimate(answers, number, &mut list)?;
    }
    Ok(list)
}

fn put_estimate(answers: &[Answer], number: u16, list: &mut Vec<u16>) -> Result<(), AllocError>
    ensures { OnOk result (list.new.items ≡ list.old.items ++ spec.estimate_at answers.now number) }
{
    if let Some(tenths) = estimate_of(answers, 0, SENSOR_VALUE, number) {
        list.push(tenths)?;
    }
    Ok(())
}

/// How long it takes, as the first of them says that needs time.
pub(crate) fn sensor_estimate(alloc: Global, answers: &[Answer]) -> Result<u16, AllocError>
    ensures { IfOk result (λ tenths. tenths ≡ spec.sensor_estimate answers.now) }
{
    let told = estimates_told(alloc, answers)?;
    Ok(first_or(5, told.as_slice()))
}

/// The first of these numbers, or this one.
fn first_or(otherwise: u16, numbers: &[u16]) -> u16
    ensures { result ≡ spec.first_or otherwise numbers.now }
{
    match numbers {
        [first, ..] => *first,
        [] => otherwise,
    }
}

// ---- self tests, status IDs and languages

/// The self tests that are described.
#[tactic(auto, using(crate::proofs::Lists::each_none, crate::proofs::Lists::each_more))]
pub(crate) fn tests_of(alloc: Global, answers: &[Answer]) -> Result<Vec<SelfTest>, AllocError>
    ensures { IfOk result (λ list. list.items ≡ spec.tests_of answers.now) }
{
    let mut list = Vec::new(alloc);
    for n in 0..SELF_TESTS {
        put_test(answers, 1 + n, &mut list)?;
    }
    Ok(list)
}

fn put_test(answers: &[Answer], number: u16, list: &mut Vec<SelfTest>) -> Result<(), AllocError>
    requires { number < 256 }
    ensures { OnOk result (list.new.items ≡ list.old.items ++ spec.test_at answers.now number) }
{
    if is_answered(answers, 0, SELF_TEST_DESCRIPTION, number) {
        let slots = data_of(answers, 0, SELF_TEST_DESCRIPTION, number);
        list.push(SelfTest {
            number: number as u8,
            name: text_of(behind(slots, 1)),
        })?;
    }
    Ok(())
}

/// The status IDs that are described.
#[tactic(auto, using(crate::proofs::Lists::each_none, crate::proofs::Lists::each_more))]
pub(crate) fn statuses_of(alloc: Global, answers: &[Answer]) -> Result<Vec<StatusText>, AllocError>
    ensures { IfOk result (λ list. list.items ≡ spec.statuses_of answers.now) }
{
    let mut list = Vec::new(alloc);
    for n in 0..STATUSES {
        put_status(answers, FIRST_STATUS + n, &mut list)?;
    }
    Ok(list)
}

fn put_status(answers: &[Answer], id: u16, list: &mut Vec<StatusText>) -> Result<(), AllocError>
    ensures { OnOk result (list.new.items ≡ list.old.items ++ spec.status_at answers.now id) }
{
    if is_answered(answers, 0, STATUS_ID_DESCRIPTION, id) {
        list.push(StatusText {
            id,
            text: text_of(data_of(answers, 0, STATUS_ID_DESCRIPTION, id)),
        })?;
    }
    Ok(())
}

fn is_letter(character: u8) -> bool
    ensures { result ≡ spec.is_letter character }
{
    0x61 <= character && character <= 0x7A
}

/// The languages: English, if there is none.
pub(crate) fn languages_of(alloc: Global, answers: &[Answer]) -> Result<Vec<u16>, AllocError>
    ensures { IfOk result (λ list. list.items ≡ spec.languages_of answers.now) }
{
    let mut list = coded_languages(alloc, data_of(answers, 0, LANGUAGE_CAPABILITIES, 0))?;
    if list.is_empty() {
        list.push(0x656E)?;
    }
    Ok(list)
}

/// The languages whose codes are two small letters.
#[tactic(auto, using(crate::proofs::Lists::each_none, crate::proofs::Lists::each_more))]
pub(crate) fn coded_languages(alloc: Global, slots: &[u8]) -> Result<Vec<u16>, AllocError>
    ensures { IfOk result (λ list. list.items ≡ spec.coded_languages slots.now) }
{
    let mut list = Vec::new(alloc);
    for place in 0..word_count(slots) {
        put_language(slots, place, &mut list)?;
    }
    Ok(list)
}

fn put_language(slots: &[u8], place: u16, list: &mut Vec<u16>) -> Result<(), AllocError>
    requires { place < 1000 }
    ensures { OnOk result (list.new.items ≡ list.old.items ++ spec.language_at slots.now place) }
{
    if is_letter(slot_at(slots, 2 * place)) && is_letter(slot_at(slots, 2 * place + 1)) {
        list.push(word_at(slots, 2 * place))?;
    }
    Ok(())
}

// ---- what it lacks

/// Whether the fixture has a parameter that needs this one.
pub(crate) fn is_needed(answers: &[Answer], pid: u16) -> bool
    ensures { result ≡ spec.is_needed answers.now pid }
{
    (pid == 0x0030 && has(answers, 0, 0x0031))
        || (pid == 0x0030 && has(answers, 0, 0x0032))
        || (pid == 0x0030 && has(answers, 0, 0x0033))
        || (pid == 0x00A0 && has(answers, 0, 0x00B0))
        || (pid == 0x00E0 && has(answers, 0, 0x00E1))
        || (pid == 0x0120 && has(answers, 0, 0x0121))
        || (pid == 0x0120 && has(answers, 0, 0x0122))
        || (pid == 0x0200 && has(answers, 0, 0x0201))
        || (pid == 0x0200 && has(answers, 0, 0x0202))
        || (pid == 0x1020 && has(answers, 0, 0x1021))
}

/// Whether a parameter is left out.
fn is_left_out(answers: &[Answer], pid: u16) -> bool
    ensures { result ≡ spec.is_left_out answers.now pid }
{
    !has(answers, 0, pid) && !is_needed(answers, pid)
}

/// The parameters that the fixture lacks.
pub(crate) fn without_of(alloc: Global, answers: &[Answer]) -> Result<Vec<u16>, AllocError>
    ensures { IfOk result (λ list. list.items ≡ spec.without_of answers.now) }
{
    let mut list = Vec::new(alloc);
    put_left_out(answers, &OPTIONAL, &mut list)?;
    Ok(list)
}

fn put_left_out(answers: &[Answer], pids: &[u16], list: &mut Vec<u16>) -> Result<(), AllocError>
    ensures { OnOk result (list.new.items ≡ list.old.items ++ flat_map (spec.if_left_out answers.now) pids.now) }
{
    for pid in pids {
        if is_left_out(answers, *pid) {
            list.push(*pid)?;
        }
    }
    Ok(())
}
