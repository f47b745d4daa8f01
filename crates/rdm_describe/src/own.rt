//! The parameters of its maker's own that a fixture describes.

ghost use Rattle.std.specs.Prelude.{◌≡◌, ◌≤◌, ◌<◌, ◌+◌, ◌++◌, OnOk, length, replicate};
ghost use Rattle.std.specs.Option.{option_to_list};
ghost use Rattle.rdm_describe.specs.Answers.{each};
ghost use Rattle.rdm_describe.specs.Own as spec;

use crate::answers::{
    Answer, data_of, has, is_answered, long_at, signed_byte_at, signed_long_at, signed_word_at,
    slot_at, word_at,
};
use crate::texts::{behind, first_slots, text_of};
use arrayvec::ArrayVec;
use rdm_device::{ParameterDef, Rights, Shape, can_start};
use rdm_frame::Text;
use rdm_frame::standard::MOST_TEXT;
use std::alloc::AllocError;

/// The parameter ID of what a parameter of the maker's own is (E1.20 section 10.4.2).
pub(crate) const PARAMETER_DESCRIPTION: u16 = 0x0051;

/// The first parameter ID that the standard leaves to makers, and how many there are (table A-3).
pub(crate) const FIRST_OWN: u16 = 0x8000;

pub(crate) const OWN_COUNT: u16 = 0x7FE0;

/// Which commands it has (table A-16).
fn rights_in(class: u8) -> Option<Rights>
    ensures { result ≡ spec.rights_in class }
{
    match class {
        1 => Some(Rights::Get),
        2 => Some(Rights::Set),
        3 => Some(Rights::Both),
        _ => None,
    }
}

/// Which data it has (table A-15).
fn shape_in(data_type: u8, size: u8) -> Option<Shape>
    ensures { result ≡ spec.shape_in data_type size }
{
    match data_type {
        0 => Some(Shape::Slots(size)),
        1 => Some(Shape::Bits(size)),
        2 => Some(Shape::Text),
        3 => Some(Shape::Byte),
        4 => Some(Shape::SignedByte),
        5 => Some(Shape::Word),
        6 => Some(Shape::SignedWord),
        7 => Some(Shape::Long),
        8 => Some(Shape::SignedLong),
        _ => None,
    }
}

/// The number in four slots, of which one of fewer takes the last.
fn limit_in(shape: Shape, slots: &[u8], place: u16) -> i64
    requires { place < 100 }
    ensures { result ≡ spec.limit_in shape slots.now place }
{
    match shape {
        Shape::Byte => i64::from(slot_at(slots, place + 3)),
        Shape::SignedByte => i64::from(signed_byte_at(slots, place + 3)),
        Shape::Word => i64::from(word_at(slots, place + 2)),
        Shape::SignedWord => i64::from(signed_word_at(slots, place + 2)),
        Shape::Long => i64::from(long_at(slots, place)),
        Shape::SignedLong => i64::from(signed_long_at(slots, place)),
        Shape::Text | Shape::Bits(_) | Shape::Slots(_) => 0,
        Shape::Choice | Shape::Names | Shape::Rates | Shape::Scenes => 0,
        Shape::Lock | Shape::Pin | Shape::Block => 0,
    }
}

/// The value of a parameter whose data are no number.
fn value_of(answers: &[Answer], pid: u16, size: u8) -> Text
    ensures value { result ≡ spec.value_of answers.now pid size }
    ensures few { length result ≤ 32 }
{
    if is_answered(answers, 0, pid, 0) {
        Text::of(first_slots(data_of(answers, 0, pid, 0)))
    } else {
        zeros((size as usize).min(MOST_TEXT))
    }
}

/// What it starts with.
fn start_in(shape: Shape, slots: &[u8], value: &Text) -> Text
    ensures { result ≡ spec.start_in shape slots.now value.now }
{
    match shape {
        Shape::Byte | Shape::SignedByte => Text::of(&[slot_at(slots, 19)]),
        Shape::Word | Shape::SignedWord => Text::of(&word_at(slots, 18).to_be_bytes()),
        Shape::Long | Shape::SignedLong => Text::of(&long_at(slots, 16).to_be_bytes()),
        Shape::Text => text_of(value.as_slice()),
        Shape::Bits(_) | Shape::Slots(_) => value.copy(),
        Shape::Choice | Shape::Names | Shape::Rates | Shape::Scenes => value.copy(),
        Shape::Lock | Shape::Pin | Shape::Block => value.copy(),
    }
}

/// The parameter that a description tells of, with this value now.
fn def_in(pid: u16, slots: &[u8], value: &Text) -> Option<ParameterDef>
    requires { length value.now ≤ 32 }
    ensures { result ≡ spec.def_in pid slots.now value.now }
{
    if slots.len() < 20 {
        return None;
    }
    let rights = rights_in(slot_at(slots, 4))?;
    let shape = shape_in(slot_at(slots, 3), value.as_slice().len() as u8)?;
    Some(ParameterDef {
        pid,
        rights,
        shape,
        low: limit_in(shape, slots, 8),
        high: limit_in(shape, slots, 12),
        fields: ArrayVec::new(),
        start: start_in(shape, slots, value),
        unit: slot_at(slots, 6),
        prefix: slot_at(slots, 7),
        name: text_of(behind(slots, 20)),
        resets: rights == Rights::Both,
    })
}

/// The parameter with this PID, as it is described.
fn def_of(answers: &[Answer], pid: u16) -> Option<ParameterDef>
    ensures { result ≡ spec.def_of answers.now pid }
{
    let slots = data_of(answers, 0, PARAMETER_DESCRIPTION, pid);
    let value = value_of(answers, pid, slot_at(slots, 2));
    def_in(pid, slots, &value)
}

/// Whether a file can say it.
pub(crate) fn is_sayable(def: &ParameterDef) -> bool
    ensures { result ≡ spec.is_sayable def.now }
{
    def.low <= def.high && can_start(def)
}

/// The parameter with this PID, if the fixture lists it and a file can say it.
fn own_at(answers: &[Answer], pid: u16) -> Option<ParameterDef>
    ensures { option_to_list result ≡ spec.own_at answers.now pid }
{
    if !has(answers, 0, pid) {
        return None;
    }
    let def = def_of(answers, pid)?;
    if is_sayable(&def) { Some(def) } else { None }
}

/// The parameters of the maker's own, in the order of their PIDs.
#[tactic(auto, using(crate::proofs::Lists::started, crate::proofs::Lists::grown))]
pub(crate) fn put_makers(answers: &[Answer], list: &mut Vec<ParameterDef>) -> Result<(), AllocError>
    ensures { OnOk result (list.new.items ≡ list.old.items ++ spec.own_of answers.now) }
{
    for n in 0..OWN_COUNT {
        put_own(own_at(answers, FIRST_OWN + n), list)?;
    }
    Ok(())
}

fn put_own(def: Option<ParameterDef>, list: &mut Vec<ParameterDef>) -> Result<(), AllocError>
    ensures { OnOk result (list.new.items ≡ list.old.items ++ option_to_list def) }
{
    if let Some(def) = def {
        list.push(def)?;
    }
    Ok(())
}

/// So many slots of 0.
fn zeros(count: usize) -> Text
    requires { count ≤ 32 }
    ensures value { result ≡ replicate count 0 }
    ensures few { length result ≤ 32 }
{
    let mut slots = Text::new();
    for i in 0..count {
        slots.append(&[0]);
    }
    slots
}
