//! The things of which a fixture lets choose one, as a curve or a lock state.

ghost use Rattle.std.specs.Prelude.{◌≡◌, ◌≤◌, ◌+◌};
ghost use Rattle.rdm_describe.specs.Choices as spec;

use crate::answers::{Answer, data_of, long_at, slot_at};
use crate::texts::{behind, text_of};
use rdm_device::ChoiceName;

/// The parameters of which one is chosen (E1.37-1).
pub(crate) const CURVE: u16 = 0x0343;

pub(crate) const OUTPUT_RESPONSE_TIME: u16 = 0x0345;

pub(crate) const MODULATION_FREQUENCY: u16 = 0x0347;

pub(crate) const LOCK_STATE: u16 = 0x0641;

/// What the frequencies are called.
const MODULATION_FREQUENCY_DESCRIPTION: u16 = 0x0348;

/// How many names a file has.
const MOST_NAMES: u16 = 64;

/// How many things there are to choose from.
pub(crate) fn things_told(answers: &[Answer], pid: u16) -> u16
    ensures { result ≡ spec.things_told answers.now pid }
{
    u16::from(slot_at(data_of(answers, 0, pid, 0), 1))
}

fn curve_count(answers: &[Answer]) -> u16
    ensures value { result ≡ spec.curve_count answers.now }
    ensures few { result ≤ 64 }
{
    things_told(answers, CURVE).min(MOST_NAMES)
}

fn time_count(answers: &[Answer]) -> u16
    ensures value { result ≡ spec.time_count answers.now }
    ensures few { spec.curve_count answers.now + result ≤ 64 }
{
    let room = MOST_NAMES - curve_count(answers);
    things_told(answers, OUTPUT_RESPONSE_TIME).min(room)
}

fn frequency_count(answers: &[Answer]) -> u16
    ensures value { result ≡ spec.frequency_count answers.now }
    ensures few { spec.curve_count answers.now + (spec.time_count answers.now + result) ≤ 64 }
{
    let room = MOST_NAMES - (curve_count(answers) + time_count(answers));
    things_told(answers, MODULATION_FREQUENCY).min(room)
}

fn state_count(answers: &[Answer]) -> u16
    ensures value { result ≡ spec.state_count answers.now }
    ensures few { result ≤ 64 }
{
    let others = curve_count(answers) + (time_count(answers) + frequency_count(answers));
    things_told(answers, LOCK_STATE).min(MOST_NAMES - others)
}

/// How many of them a file has: 64 in all, those of the lower PIDs first.
pub(crate) fn choice_count(answers: &[Answer], pid: u16) -> u16
    ensures value { result ≡ spec.choice_count answers.now pid }
    ensures few { result ≤ 64 }
{
    match pid {
        0x0343 => curve_count(answers),
        0x0345 => time_count(answers),
        0x0347 => frequency_count(answers),
        0x0641 => state_count(answers),
        _ => 0,
    }
}

/// The thing with this number, as the description with this PID tells of it.
pub(crate) fn name_of(answers: &[Answer], pid: u16, number: u8) -> ChoiceName
    ensures { result ≡ spec.name_of answers.now pid number }
{
    let slots = data_of(answers, 0, pid, u16::from(number));
    let has_hertz = pid == MODULATION_FREQUENCY_DESCRIPTION;
    ChoiceName {
        pid,
        number,
        hertz: if has_hertz { long_at(slots, 1) } else { 0 },
        name: text_of(behind(slots, if has_hertz { 5 } else { 1 })),
    }
}
