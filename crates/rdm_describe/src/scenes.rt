//! The scenes of a fixture: how many there are, the limits of their times, and which can only be read.

ghost use Rattle.std.specs.Prelude.{◌≡◌, ◌≤◌, ◌<◌};
ghost use Rattle.rdm_describe.specs.Scenes as spec;

use crate::answers::{Answer, data_of, long_at, slot_at, word_at};
use rdm_device::{Field, Width};

/// The parameter ID of how many scenes there are (E1.37-1).
pub(crate) const PRESET_INFO: u16 = 0x1041;

/// The parameter ID of what each scene is (E1.37-1).
pub(crate) const PRESET_STATUS: u16 = 0x1042;

/// A number from the least to the greatest.
pub(crate) fn from_to(width: Width, low: u32, high: u32) -> Field
    ensures { result ≡ spec.from_to width low high }
{
    Field {
        width,
        low,
        high,
        also: low,
    }
}

/// What the fixture answered to PRESET_INFO.
pub(crate) fn preset_info(answers: &[Answer]) -> &[u8]
    ensures { result.now ≡ spec.preset_info answers.now }
{
    data_of(answers, 0, PRESET_INFO, 0)
}

/// Whether the fixture told how many scenes there are, and the limits of their times.
fn knows_scenes(answers: &[Answer]) -> bool
    ensures { result ≡ spec.knows_scenes answers.now }
{
    preset_info(answers).len() == 32
}

/// How many scenes there are.
pub(crate) fn scenes_told(answers: &[Answer]) -> u16
    ensures { result ≡ spec.scenes_told answers.now }
{
    if knows_scenes(answers) {
        word_at(preset_info(answers), 6)
    } else {
        0
    }
}

/// How many of them a file has.
pub(crate) fn scene_count(answers: &[Answer]) -> u16
    ensures value { result ≡ spec.scene_count answers.now }
    ensures few { result ≤ 255 }
{
    scenes_told(answers).min(255)
}

/// How many presets a file plays.
pub(crate) fn preset_count(answers: &[Answer]) -> u16
    ensures { result ≡ spec.preset_count answers.now }
{
    scenes_told(answers).min(65534)
}

/// A scene number from this one on.
pub(crate) fn scene_field(answers: &[Answer], least: u32) -> Field
    ensures { result ≡ spec.scene_field answers.now least }
{
    let greatest = if knows_scenes(answers) {
        scenes_told(answers)
    } else {
        0xFFFF
    };
    from_to(Width::Two, least, u32::from(greatest))
}

/// Whether PRESET_INFO says so at a place.
pub(crate) fn says_so(answers: &[Answer], place: u16) -> bool
    ensures { result ≡ spec.says_so answers.now place }
{
    slot_at(preset_info(answers), place) != 0
}

/// A time between the limits at a place of PRESET_INFO, in tenths of a second, or without end.
pub(crate) fn time_field(answers: &[Answer], place: u16, can_be_endless: bool) -> Field
    requires { place < 100 }
    ensures { result ≡ spec.time_field answers.now place can_be_endless }
{
    if !knows_scenes(answers) {
        return from_to(Width::Two, 0, 0xFFFF);
    }
    let info = preset_info(answers);
    let low = u32::from(word_at(info, place));
    Field {
        width: Width::Two,
        low,
        high: u32::from(word_at(info, place + 2)),
        also: if can_be_endless { 0xFFFF } else { low },
    }
}

/// What the fixture answered of a scene.
pub(crate) fn scene(answers: &[Answer], number: u16) -> &[u8]
    ensures { result.now ≡ spec.scene answers.now number }
{
    data_of(answers, 0, PRESET_STATUS, number)
}

/// How many scenes, from the first on, can only be read.
pub(crate) fn fixed_count(answers: &[Answer]) -> u16
    ensures value { result ≡ spec.fixed_count answers.now }
    ensures few { result ≤ 255 }
{
    fixed_of(answers, scene_count(answers))
}

/// How many of the first so many scenes, from the first on, can only be read.
#[tactic(auto, using(crate::proofs::Lists::none_fixed, crate::proofs::Lists::more_fixed))]
fn fixed_of(answers: &[Answer], count: u16) -> u16
    requires { count ≤ 255 }
    ensures value { result ≡ spec.fixed_of answers.now count }
    ensures few { result ≤ count }
{
    let mut run = 0;
    for n in 0..count {
        if run == n && slot_at(scene(answers, n + 1), 8) == 2 {
            run = n + 1;
        }
    }
    run
}

/// Whether a scene is as each starts in a file of which the first ones can only be read, so many.
pub(crate) fn is_blank(answers: &[Answer], fixed: u16, number: u16) -> bool
    ensures { result ≡ spec.is_blank answers.now fixed number }
{
    let scene = scene(answers, number);
    let status = if number <= fixed { 2 } else { 0 };
    long_at(scene, 2) == 0 && word_at(scene, 6) == 0 && slot_at(scene, 8) == status
}
