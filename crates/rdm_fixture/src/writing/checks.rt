//! Which fixtures a file can describe.

ghost use Rattle.std.specs.Prelude.{◌≡◌, ◌↔◌, ◌≤◌, IsTrue, All, length};
ghost use Rattle.std.specs.List.{list_all};
ghost use Rattle.rdm_fixture.specs.Describable as spec;
ghost use Rattle.rdm_fixture.specs.Notices.{comes_again as says_again};
ghost use Rattle.rdm_fixture.specs.OverTime.{AreCourses};
ghost use Rattle.rdm_fixture.specs.Working as spec_of_work;
ghost use Rattle.rdm_fixture_keys.specs.Values.{is_letter as is_small_letter};

use crate::courses::are_courses;
use crate::fixture::Fixture;
use crate::parameters::{can_reset, greatest_of, least_of};
use crate::working::can_work;
use rdm_courses::Notice;
use rdm_device::{
    ChoiceName, Mode, ParameterDef, Personality, Profile, SelfTest, SensorDef, Shape, Slot,
    StatusText, Unit, is_good,
};
use rdm_fixture_keys::keys::are_printable;
use rdm_frame::Text;
use rdm_frame::standard::{MOST_DMX_SLOTS, MOST_SUB_DEVICES};
use rdm_outcomes::Rule;
use rdm_params::{Outcome, Severity};

/// Whether a file can describe the fixture.
pub(super) fn can_be_described(fixture: &Fixture) -> bool
    ensures { IsTrue result ↔ spec.CanBeDescribed fixture.now }
{
    !fixture.uid.is_broadcast()
        && fixture.profile.subs <= MOST_SUB_DEVICES
        && is_good(&fixture.profile)
        && fixture.profile.particulars.more_slots() <= MOST_DMX_SLOTS
        && are_sayable(fixture.profile.particulars.own())
        && has_printable_texts(&fixture.profile)
        && are_coded(fixture.profile.languages.as_slice())
        && are_ruled(fixture.outcomes.as_slice())
        && starts_and_works(fixture)
}

/// Whether it says of each sensor, and of no other, what it has measured and what it shows over time, and nothing in vain.
fn starts_and_works(fixture: &Fixture) -> bool
    ensures { IsTrue result ↔ ((length fixture.now.start.presents.items ≡ length fixture.now.profile.sensors.items)
        × AreCourses fixture.now.start.courses.items fixture.now.profile.sensors.items
        × All (λ n. IsTrue (spec.is_noticed n)) fixture.now.start.notices.items × spec_of_work.CanWork fixture.now) }
{
    fixture.start.presents.len() == fixture.profile.sensors.len()
        && (are_courses(
            fixture.start.courses.as_slice(),
            fixture.profile.sensors.as_slice(),
        ) && (are_noticed(fixture.start.notices.as_slice()) && can_work(fixture)))
}

fn are_noticed(notices: &[Notice]) -> bool
    ensures { IsTrue result ↔ All (λ n. IsTrue (spec.is_noticed n)) notices.now }
{
    notices.iter().all(|n| is_noticed(n))
}

/// Whether a status message can stand in a file.
fn is_noticed(notice: &Notice) -> bool
    ensures { result ≡ spec.is_noticed notice.now }
{
    comes_again(notice.every) && (notice.sub <= 512 && is_base_form(notice.severity))
}

fn comes_again(every: Option<u32>) -> bool
    ensures { result ≡ says_again every }
{
    match every {
        Some(every) => 1 <= every,
        None => true,
    }
}

fn is_base_form(severity: Severity) -> bool
    ensures { result ≡ spec.is_base_form severity }
{
    matches!(
        severity,
        Severity::Advisory | Severity::Warning | Severity::Error
    )
}

// ---- the parameters that the profile adds

fn are_sayable(defs: &[ParameterDef]) -> bool
    ensures { IsTrue result ↔ All (λ d. IsTrue (spec.is_sayable d)) defs.now }
{
    defs.iter().all(|def| is_sayable(def))
}

/// Whether a parameter can stand in a file.
fn is_sayable(def: &ParameterDef) -> bool
    ensures { result ≡ spec.is_sayable def.now }
{
    limits_stand(def)
        && (can_stand(def.shape, def.start.as_slice())
            && (are_printable(def.name.as_slice()) && can_reset(def)))
}

/// Whether its limits can stand in a file: the least isn't above the greatest, and both are numbers of the data, or 0 where these are
/// none.
fn limits_stand(def: &ParameterDef) -> bool
    ensures { result ≡ spec.limits_stand def.now }
{
    least_of(def.shape) <= def.low && (def.low <= def.high && def.high <= greatest_of(def.shape))
}

/// Whether what data start with can stand in a file: a text only if it is printable.
fn can_stand(shape: Shape, start: &[u8]) -> bool
    ensures { result ≡ spec.can_stand shape start.now }
{
    match shape {
        Shape::Text => are_printable(start),
        Shape::Byte | Shape::SignedByte | Shape::Word | Shape::SignedWord => true,
        Shape::Long | Shape::SignedLong | Shape::Bits(_) | Shape::Slots(_) => true,
        Shape::Choice | Shape::Names | Shape::Rates => true,
        Shape::Scenes | Shape::Lock | Shape::Pin | Shape::Block => true,
    }
}

// ---- the texts

/// Whether every text can stand in a file.
fn has_printable_texts(profile: &Profile) -> bool
    ensures { IsTrue result ↔ spec.HasPrintableTexts profile.now }
{
    is_printable(&profile.boot_text)
        && has_printable_unit(&profile.root)
        && has_printable_unit(&profile.sub)
        && are_slots_printable(profile.slots.as_slice())
        && are_sensors_printable(profile.sensors.as_slice())
        && are_tests_printable(profile.tests.as_slice())
        && are_statuses_printable(profile.status_texts.as_slice())
        && are_choices_printable(profile.particulars.choices())
        && are_modes_printable(profile.particulars.modes())
}

/// The same of the root's or a sub-device's.
fn has_printable_unit(unit: &Unit) -> bool
    ensures { IsTrue result ↔ spec.HasPrintableUnit unit.now }
{
    is_printable(&unit.model_text)
        && is_printable(&unit.maker_text)
        && is_printable(&unit.label)
        && is_printable(&unit.software_text)
        && are_personalities_printable(unit.personalities.as_slice())
}

fn is_printable(text: &Text) -> bool
    ensures { result ≡ spec.are_printable text.now }
{
    are_printable(text.as_slice())
}

fn are_personalities_printable(personalities: &[Personality]) -> bool
    ensures { IsTrue result ↔ All (λ m. IsTrue (spec.are_printable m.name)) personalities.now }
{
    personalities.iter().all(|m| is_printable(&m.name))
}

fn are_slots_printable(slots: &[Slot]) -> bool
    ensures { IsTrue result ↔ All (λ s. IsTrue (spec.are_printable s.name)) slots.now }
{
    slots.iter().all(|s| is_printable(&s.name))
}

fn are_sensors_printable(sensors: &[SensorDef]) -> bool
    ensures { IsTrue result ↔ All (λ s. IsTrue (spec.are_printable s.name)) sensors.now }
{
    sensors.iter().all(|s| is_printable(&s.name))
}

fn are_tests_printable(tests: &[SelfTest]) -> bool
    ensures { IsTrue result ↔ All (λ t. IsTrue (spec.are_printable t.name)) tests.now }
{
    tests.iter().all(|t| is_printable(&t.name))
}

fn are_statuses_printable(statuses: &[StatusText]) -> bool
    ensures { IsTrue result ↔ All (λ s. IsTrue (spec.are_printable s.text)) statuses.now }
{
    statuses.iter().all(|s| is_printable(&s.text))
}

fn are_choices_printable(choices: &[ChoiceName]) -> bool
    ensures { IsTrue result ↔ All (λ c. IsTrue (spec.are_printable c.name)) choices.now }
{
    choices.iter().all(|c| is_printable(&c.name))
}

fn are_modes_printable(modes: &[Mode]) -> bool
    ensures { IsTrue result ↔ All (λ m. IsTrue (spec.is_printable_mode m)) modes.now }
{
    modes.iter().all(|m| is_printable_mode(m))
}

/// Whether what a mode is called, and what its slots are, can stand in a file.
fn is_printable_mode(mode: &Mode) -> bool
    ensures { result ≡ spec.is_printable_mode mode.now }
{
    is_printable(&mode.personality.name) && are_names_printable(mode.slots.as_slice())
}

fn are_names_printable(slots: &[Slot]) -> bool
    ensures { result ≡ list_all (λ s. spec.are_printable s.name) slots.now }
{
    slots.iter().all(|s| is_printable(&s.name))
}

// ---- the languages and the outcomes

fn are_coded(languages: &[u16]) -> bool
    ensures { IsTrue result ↔ All (λ l. IsTrue (spec.is_coded l)) languages.now }
{
    languages.iter().all(|l| is_coded(*l))
}

/// Whether the language has a code of two small letters.
fn is_coded(language: u16) -> bool
    ensures { result ≡ spec.is_coded language }
{
    is_letter(language / 256) && is_letter(language % 256)
}

fn is_letter(character: u16) -> bool
    ensures { result ≡ is_small_letter character }
{
    0x61 <= character && character <= 0x7A
}

fn are_ruled(rules: &[Rule]) -> bool
    ensures { IsTrue result ↔ All (λ r. IsTrue (spec.is_ruled r)) rules.now }
{
    rules.iter().all(|r| is_ruled(r))
}

/// Whether a file can say how the jobs end.
fn is_ruled(rule: &Rule) -> bool
    ensures { result ≡ spec.is_ruled rule.now }
{
    is_counted(rule.turn) && (rule.suits() && is_told(&rule.outcome))
}

/// Whether it is one of the jobs, counted from 1, or each.
fn is_counted(turn: Option<u16>) -> bool
    ensures { result ≡ spec.is_counted turn }
{
    match turn {
        Some(turn) => 1 <= turn,
        None => true,
    }
}

/// Whether a failure isn't told as over.
fn is_told(outcome: &Outcome) -> bool
    ensures { result ≡ spec.is_told outcome.now }
{
    match outcome {
        Outcome::Failed { severity, .. } => matches!(
            severity,
            Severity::Advisory | Severity::Warning | Severity::Error
        ),
        _ => true,
    }
}
