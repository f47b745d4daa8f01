//! A parameter of E1.20 or E1.37-1 as a file has it.

ghost use Rattle.std.specs.Prelude.{◌≡◌, ◌≤◌, ◌<◌, length};
ghost use Rattle.rdm_describe.specs.Drafts as spec;

use crate::answers::{Answer, data_of, is_answered, slot_at, word_at};
use crate::choices::choice_count;
use crate::scenes::{
    fixed_count, from_to, preset_info, says_so, scene_count, scene_field, time_field,
};
use crate::texts::{first_slots, text_of};
use arrayvec::ArrayVec;
use rdm_device::{Field, ParameterDef, Rights, Shape, Width};
use rdm_frame::Text;
use rdm_table::parameter_name;

/// The parameter ID of the limits of levels (E1.37-1).
pub(crate) const DIMMER_INFO: u16 = 0x0340;

/// What the fixture answered to the GET of a parameter.
pub(crate) fn shown(answers: &[Answer], pid: u16) -> &[u8]
    ensures { result.now ≡ spec.shown answers.now pid }
{
    data_of(answers, 0, pid, 0)
}

// ---- its commands and its data

fn rights_of(pid: u16) -> Rights
    ensures { result ≡ spec.rights_of pid }
{
    match pid {
        0x0015 => Rights::Clear,
        0x1001 | 0x1030 => Rights::Set,
        0x0070 | 0x0340 | 0x0344 | 0x0346 | 0x0348 | 0x0642 | 0x1041 => Rights::Get,
        _ => Rights::Both,
    }
}

/// The shape of one number.
fn number_shape(pid: u16) -> Shape
    ensures { result ≡ spec.number_shape pid }
{
    match pid {
        0x0342 => Shape::Word,
        0x0343 | 0x0345 | 0x0347 => Shape::Choice,
        0x0640 => Shape::Pin,
        0x0641 => Shape::Lock,
        _ => Shape::Byte,
    }
}

/// The shape of a parameter without data of its own.
fn bare_shape(pid: u16) -> Shape
    ensures { result ≡ spec.bare_shape pid }
{
    match pid {
        0x0140 => Shape::Block,
        0x0348 => Shape::Rates,
        0x1042 => Shape::Scenes,
        _ => Shape::Names,
    }
}

/// How many slots the others have.
fn size_of(answers: &[Answer], pid: u16) -> u8
    ensures { result ≡ spec.size_of answers.now pid }
{
    match pid {
        0x0070 => shown(answers, 0x0070).len().min(255) as u8,
        0x0015 => 6,
        0x0141 | 0x0142 | 0x0603 => 7,
        0x0340 => 11,
        0x0341 => 5,
        0x1030 => 8,
        0x1041 => 32,
        _ => 1,
    }
}

fn is_number(pid: u16) -> bool
    ensures { result ≡ spec.is_number pid }
{
    matches!(
        pid,
        0x0342 | 0x0343 | 0x0345 | 0x0347 | 0x0440 | 0x0640 | 0x0641 | 0x1044
    )
}

fn is_bare(pid: u16) -> bool
    ensures { result ≡ spec.is_bare pid }
{
    matches!(pid, 0x0140 | 0x0344 | 0x0346 | 0x0348 | 0x0642 | 0x1042)
}

fn shape_of(answers: &[Answer], pid: u16) -> Shape
    ensures { result ≡ spec.shape_of answers.now pid }
{
    if is_number(pid) {
        number_shape(pid)
    } else if is_bare(pid) {
        bare_shape(pid)
    } else {
        Shape::Slots(size_of(answers, pid))
    }
}

// ---- its limits

/// The limit at a place of DIMMER_INFO, or this one, where it wasn't told.
fn level_at(answers: &[Answer], place: u16, otherwise: u16) -> u16
    requires { place < 100 }
    ensures { result ≡ spec.level_at answers.now place otherwise }
{
    let info = shown(answers, DIMMER_INFO);
    if info.len() == 11 {
        word_at(info, place)
    } else {
        otherwise
    }
}

/// A level of MINIMUM_LEVEL.
fn level_field(answers: &[Answer]) -> Field
    ensures { result ≡ spec.level_field answers.now }
{
    let least = level_at(answers, 0, 0);
    let greatest = level_at(answers, 2, 0xFFFF);
    from_to(Width::Two, u32::from(least), u32::from(greatest))
}

/// These fields.
fn listed(fields: &[Field]) -> ArrayVec<Field, 8>
    requires { length fields.now ≤ 8 }
    ensures { result.items ≡ fields.now }
{
    let mut list = ArrayVec::new();
    let _ = list.try_extend_from_slice(fields);
    list
}

/// One number of one slot, with a code beside its range.
fn code(low: u32, high: u32, also: u32) -> ArrayVec<Field, 8>
    ensures { result.items ≡ spec.code low high also }
{
    let width = Width::One;
    listed(&[Field {
        width,
        low,
        high,
        also,
    }])
}

/// The numbers in its slots, one after another.
fn fields_of(answers: &[Answer], pid: u16) -> ArrayVec<Field, 8>
    ensures { result.items ≡ spec.fields_of answers.now pid }
{
    match pid {
        0x0015 => listed(&[from_to(Width::Two, 0, 0xFFFF); 3]),
        0x0141 => fail_fields(answers),
        0x0142 => startup_fields(answers),
        0x0341 => listed(&[
            level_field(answers),
            level_field(answers),
            from_to(Width::One, 0, 1),
        ]),
        0x0603 => clock_fields(),
        0x1001 => code(1, 1, 0xFF),
        0x1030 => capture_fields(answers),
        0x1040 => code(0, 0, 0xFF),
        0x1043 => code(0, 3, 0xFF),
        _ => ArrayVec::new(),
    }
}

/// DMX_FAIL_MODE: a scene, a delay, a hold time and a level.
fn fail_fields(answers: &[Answer]) -> ArrayVec<Field, 8>
    ensures { result.items ≡ spec.fail_fields answers.now }
{
    listed(&[
        scene_field(answers, 0),
        time_field(answers, 16, says_so(answers, 3)),
        time_field(answers, 20, says_so(answers, 4)),
        from_to(Width::One, 0, 0xFF),
    ])
}

/// DMX_STARTUP_MODE: the same. No slot of PRESET_INFO keeps the delay from being without end.
fn startup_fields(answers: &[Answer]) -> ArrayVec<Field, 8>
    ensures { result.items ≡ spec.startup_fields answers.now }
{
    listed(&[
        scene_field(answers, 0),
        time_field(answers, 24, true),
        time_field(answers, 28, says_so(answers, 5)),
        from_to(Width::One, 0, 0xFF),
    ])
}

/// REAL_TIME_CLOCK: the year, month, day, hour, minute and second.
fn clock_fields() -> ArrayVec<Field, 8>
    ensures { result.items ≡ spec.clock_fields }
{
    listed(&[
        from_to(Width::Two, 2003, 0xFFFF),
        from_to(Width::One, 1, 12),
        from_to(Width::One, 1, 31),
        from_to(Width::One, 0, 23),
        from_to(Width::One, 0, 59),
        from_to(Width::One, 0, 60),
    ])
}

/// CAPTURE_PRESET: a scene, the times of its fades up and down, and a wait time.
fn capture_fields(answers: &[Answer]) -> ArrayVec<Field, 8>
    ensures { result.items ≡ spec.capture_fields answers.now }
{
    listed(&[
        scene_field(answers, 1),
        time_field(answers, 8, false),
        time_field(answers, 8, false),
        time_field(answers, 12, false),
    ])
}

/// The least value of one number; of PRESET_STATUS, how many scenes can only be read.
fn low_of(answers: &[Answer], pid: u16) -> u16
    ensures { result ≡ spec.low_of answers.now pid }
{
    match pid {
        0x0342 => level_at(answers, 4, 0),
        0x0343 | 0x0345 | 0x0347 => 1,
        0x1042 => fixed_count(answers),
        _ => 0,
    }
}

/// The greatest value of one number; of PRESET_STATUS, how many scenes there are.
fn high_of(answers: &[Answer], pid: u16) -> u16
    ensures { result ≡ spec.high_of answers.now pid }
{
    match pid {
        0x0342 => level_at(answers, 6, 0xFFFF),
        0x0343 | 0x0345 | 0x0347 | 0x0641 => choice_count(answers, pid),
        0x0440 => 255,
        0x0640 => 9999,
        0x1042 => scene_count(answers),
        0x1044 => 1,
        _ => 0,
    }
}

// ---- what it starts with

/// The first scene, and the least times.
fn first_capture(info: &[u8]) -> Text
    ensures { result ≡ spec.first_capture info.now }
{
    let (up, low) = (slot_at(info, 8), slot_at(info, 9));
    Text::of(&[0, 1, up, low, up, low, slot_at(info, 12), slot_at(info, 13)])
}

/// What the fixture told, as far as a text of a profile goes.
fn told_start(answers: &[Answer], pid: u16) -> Text
    ensures { result ≡ spec.told_start answers.now pid }
{
    Text::of(first_slots(shown(answers, pid)))
}

/// The first slot of what the fixture told.
fn chosen(answers: &[Answer], pid: u16) -> Text
    ensures { result ≡ spec.chosen answers.now pid }
{
    match shown(answers, pid) {
        [first, ..] => Text::of(&[*first]),
        [] => Text::new(),
    }
}

/// The PIN, or 0000 if it can't be read.
fn pin(answers: &[Answer]) -> Text
    ensures { result ≡ spec.pin answers.now }
{
    if is_answered(answers, 0, 0x0640, 0) {
        told_start(answers, 0x0640)
    } else {
        Text::of(&[0, 0])
    }
}

/// What it starts with.
fn start_of(answers: &[Answer], pid: u16) -> Text
    ensures { result ≡ spec.start_of answers.now pid }
{
    if is_bare(pid) {
        return Text::new();
    }
    match pid {
        0x1001 => Text::of(&[1]),
        0x1030 => first_capture(preset_info(answers)),
        0x0343 | 0x0345 | 0x0347 | 0x0641 => chosen(answers, pid),
        0x0640 => pin(answers),
        _ => told_start(answers, pid),
    }
}

// ---- all of it

/// Whether FACTORY_DEFAULTS sets it back.
fn resets_of(pid: u16) -> bool
    ensures { result ≡ spec.resets_of pid }
{
    rights_of(pid) == Rights::Both && !matches!(pid, 0x0140 | 0x0603 | 0x0640 | 0x0641 | 0x1042)
}

/// What the standard calls it.
fn called(pid: u16) -> Text
    ensures { result ≡ spec.called pid }
{
    match parameter_name(pid) {
        Some(name) => text_of(name.as_bytes()),
        None => Text::new(),
    }
}

/// The parameter, as the fixture told of it.
#[tactic(auto, unfolding(crate::specs::Drafts::draft_of))]
pub(crate) fn draft_of(answers: &[Answer], pid: u16) -> ParameterDef
    ensures { result ≡ spec.draft_of answers.now pid }
{
    ParameterDef {
        pid,
        rights: rights_of(pid),
        shape: shape_of(answers, pid),
        low: i64::from(low_of(answers, pid)),
        high: i64::from(high_of(answers, pid)),
        fields: fields_of(answers, pid),
        start: start_of(answers, pid),
        unit: 0,
        prefix: 0,
        name: called(pid),
        resets: resets_of(pid),
    }
}
