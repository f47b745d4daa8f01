//! The fixture that answers describe.

ghost use Rattle.std.specs.Prelude.{◌≡◌, IfOk};
ghost use Rattle.rdm_describe.specs.Fixtures as spec;
ghost use Rattle.rdm_describe.specs.Notes.{notes_of as all_notes};
ghost use Rattle.rdm_describe.specs.Parts as parts;

use crate::added::{choices_of, parameters_of};
use crate::answers::{Answer, data_of, long_at};
use crate::capped::first_of;
use crate::fixture_parts::{
    languages_of, more_slots_of, presents_of, sensor_estimate, sensors_of, slots_of, statuses_of,
    tests_of, without_of,
};
use crate::notes::{Note, notes_of};
use crate::scenes::preset_count;
use crate::texts::text_of;
use crate::units::{personalities_of, sub_count, sub_of, unit_of};
use arrayvec::ArrayVec;
use rdm_device::{
    ChoiceNames, Estimates, Locks, Modes, MuteReply, OwnParameters, Particular, Particulars,
    Profile, Workers,
};
use rdm_fixture::{Fixture, Starting, no_courses};
use rdm_frame::Uid;
use std::alloc::{AllocError, Global};

/// A fixture that answered.
#[derive(Debug, Drop)]
pub struct Description {
    /// As a file can say it.
    pub fixture: Fixture,
    /// What a file can't say of it, or says otherwise.
    pub notes: Vec<Note>,
}

/// The fixture with this UID, as its answers describe it. What they can't tell, as how its jobs end, is as in a file that says nothing.
pub fn describe(alloc: Global, uid: Uid, answers: &[Answer]) -> Result<Description, AllocError>
    // Each field of the fixture is what the answer to its GET tells.
    ensures fixture { IfOk result (λ d. d.fixture ≡ spec.fixture_of uid answers.now) }
    // What wasn't answered, what isn't as it was told, and what is left out has a note.
    ensures notes { IfOk result (λ d. d.notes.items ≡ all_notes answers.now) }
{
    let fixture = fixture_of(alloc, uid, answers)?;
    let notes = notes_of(alloc, answers)?;
    Ok(Description { fixture, notes })
}

fn fixture_of(alloc: Global, uid: Uid, answers: &[Answer]) -> Result<Fixture, AllocError>
    ensures { IfOk result (λ f. f ≡ spec.fixture_of uid answers.now) }
{
    Ok(Fixture {
        uid,
        profile: profile_of(alloc, answers)?,
        outcomes: ArrayVec::new(),
        start: start_of(alloc, answers)?,
    })
}

/// What its counters and its sensors show now. What sensors show over time, and which status messages come, no answer tells.
fn start_of(alloc: Global, answers: &[Answer]) -> Result<Starting, AllocError>
    ensures { IfOk result (λ s. s ≡ spec.start_of answers.now) }
{
    let presents = presents_of(alloc, answers)?;
    let sensors = first_of(sensors_of(alloc, answers)?);
    Ok(Starting {
        device_hours: long_at(data_of(answers, 0, 0x0400, 0), 0),
        lamp_hours: long_at(data_of(answers, 0, 0x0401, 0), 0),
        lamp_strikes: long_at(data_of(answers, 0, 0x0402, 0), 0),
        device_power_cycles: long_at(data_of(answers, 0, 0x0405, 0), 0),
        presents: first_of(presents),
        courses: no_courses(&sensors),
        notices: ArrayVec::new(),
    })
}

fn profile_of(alloc: Global, answers: &[Answer]) -> Result<Profile, AllocError>
    ensures { IfOk result (λ p. p ≡ spec.profile_of answers.now) }
{
    let root = unit_of(alloc, answers, 0)?;
    let sub = unit_of(alloc, answers, sub_of(answers))?;
    let languages = languages_of(alloc, answers)?;
    let slots = slots_of(alloc, answers)?;
    let sensors = sensors_of(alloc, answers)?;
    let tests = tests_of(alloc, answers)?;
    let statuses = statuses_of(alloc, answers)?;
    let particulars = particulars_of(alloc, answers)?;
    Ok(Profile {
        root,
        sub,
        subs: sub_count(answers),
        presets: preset_count(answers),
        workers: Workers::usual(),
        boot: long_at(data_of(answers, 0, 0x00C1, 0), 0),
        boot_text: text_of(data_of(answers, 0, 0x00C2, 0)),
        languages: first_of(languages),
        slots: first_of(slots),
        sensors: first_of(sensors),
        tests: first_of(tests),
        status_texts: first_of(statuses),
        particulars,
    })
}

/// What sets it apart from one that has the standard's parameters as the table has them.
fn particulars_of(alloc: Global, answers: &[Answer]) -> Result<Particulars, AllocError>
    ensures { IfOk result (λ p. p ≡ spec.particular_of answers.now) }
{
    let personalities = personalities_of(alloc, answers, 0)?;
    let own = parameters_of(alloc, answers)?;
    let choices = choices_of(alloc, answers)?;
    let without = without_of(alloc, answers)?;
    let sensor = sensor_estimate(alloc, answers)?;
    let particular = Particular {
        own: OwnParameters::of(alloc, first_of(own))?,
        choices: ChoiceNames::of(alloc, first_of(choices))?,
        locks: Locks::none(),
        without: first_of(without),
        more_slots: more_slots_of(answers, personalities.as_slice()),
        estimates: estimates_with(sensor),
        mute_reply: MuteReply::plain(),
        newest_only: false,
        modes: Modes::none(),
    };
    Particulars::of(alloc, particular)
}

/// How long slow commands take, of which only that of SENSOR_VALUE is told.
fn estimates_with(sensor: u16) -> Estimates
    ensures { result ≡ spec.estimates_with sensor }
{
    Estimates {
        sensor,
        ..Estimates::usual()
    }
}
