//! The words of a fixture: what a controller will find of it.

ghost use Rattle.std.specs.Prelude.{◌≡◌, ℕ, List, ◌++◌, OnOk, string_bytes};
ghost use Rattle.rdm_words.specs.FixtureWords.{SaysFixture, uid_line, model_words, subs_line};
ghost use Rattle.rdm_words.specs.Plain.{IsPlain};

mod added;
mod modes;
mod muting;
mod slow;

use crate::data::known::Facts;
use crate::data::sensors::put_range;
use crate::tables::parameters::parameter;
use crate::text::put_shown;
use added::{put_added, put_choice_name, put_lock};
use modes::put_modes;
use muting::put_muting;
use rdm_device::{Profile, SensorDef, Slot, Unit};
use rdm_frame::digits::put_digits;
use rdm_frame::{Text, Uid};
use rdm_outcomes::Rule;
use rdm_params::Outcome;
use rdm_standard_names::products::PRODUCT_CATEGORIES;
use rdm_standard_names::sensors::{SENSOR_TYPES, SENSOR_UNITS, UNIT_PREFIXES};
use rdm_standard_names::slots::{SLOT_LABELS, SLOT_TYPES};
use slow::{put_estimates, put_workers};
use std::alloc::AllocError;
use std::fmt::Write;
use std::str;

/// Puts what a fixture is at the end: its UID, its root device with slots, sensors and texts, how the jobs of its slow
/// commands end by these rules, and its sub-devices. Fails only if memory is refused.
pub fn put_fixture(
    out: &mut Vec<u8>,
    uid: Uid,
    profile: &Profile,
    rules: &[Rule],
) -> Result<(), AllocError>
    ensures said { OnOk result ((own : List ℕ) × SaysFixture uid profile.now own × (out.new.items ≡ out.old.items ++ own)) }
{
    put_uid_line(out, uid)?;
    put_model(out, profile.root.model)?;
    put_root(out, profile, rules)?;
    put_subs_line(out, profile.subs)?;
    put_sub(out, profile)
}

fn put_uid_line(out: &mut Vec<u8>, uid: Uid) -> Result<(), AllocError>
    ensures { OnOk result (out.new.items ≡ out.old.items ++ uid_line uid) }
{
    let mut line = String::new(*out.allocator());
    writeln!(line, "UID {uid}")?;
    out.extend_from_slice(line.as_bytes())
}

/// The model of the root device.
fn put_model(out: &mut Vec<u8>, model: u16) -> Result<(), AllocError>
    ensures { OnOk result (out.new.items ≡ out.old.items ++ model_words model) }
{
    out.extend_from_slice(b"root device: model ")?;
    put_digits(out, &model.to_be_bytes())
}

/// The root device: what else it is, its slots, its sensors, and how its jobs end.
#[tactic(auto, using(crate::proofs::Plainness::plain_shown))]
fn put_root(out: &mut Vec<u8>, profile: &Profile, rules: &[Rule]) -> Result<(), AllocError>
    ensures { OnOk result ((own : List ℕ) × IsPlain own × (out.new.items ≡ out.old.items ++ own)) }
{
    let mut text = String::new(*out.allocator());
    put_parts(&mut text, profile, rules)?;
    put_shown(out, text.as_bytes())
}

fn put_parts(text: &mut String, profile: &Profile, rules: &[Rule]) -> Result<(), AllocError> {
    put_unit(text, &profile.root)?;
    for (number, slot) in profile.slots.iter().enumerate() {
        put_slot(text, number, slot)?;
    }
    put_modes(text, profile)?;
    for (number, sensor) in profile.sensors.iter().enumerate() {
        put_sensor(text, number, sensor)?;
    }
    put_rest(text, profile)?;
    put_own_parts(text, profile)?;
    for rule in rules {
        put_rule(text, rule)?;
    }
    Ok(())
}

fn put_subs_line(out: &mut Vec<u8>, subs: u16) -> Result<(), AllocError>
    ensures line { OnOk result (out.new.items ≡ out.old.items ++ subs_line subs) }
    ensures plain { IsPlain (subs_line subs) }
{
    let mut line = String::new(*out.allocator());
    put_subs(&mut line, subs)?;
    out.extend_from_slice(line.as_bytes())
}

fn put_subs(text: &mut String, subs: u16) -> Result<(), AllocError>
    ensures line { OnOk result (string_bytes text.new ≡ string_bytes text.old ++ subs_line subs) }
    ensures plain { IsPlain (subs_line subs) }
{
    if subs == 0 {
        return writeln!(text, "no sub-devices");
    }
    writeln!(text, "{subs} sub-devices")
}

/// What each sub-device is, if there are any.
#[tactic(auto, using(crate::proofs::Plainness::plain_shown))]
fn put_sub(out: &mut Vec<u8>, profile: &Profile) -> Result<(), AllocError>
    ensures { OnOk result ((own : List ℕ) × IsPlain own × (out.new.items ≡ out.old.items ++ own)) }
{
    let mut text = String::new(*out.allocator());
    if profile.subs > 0 {
        let model = profile.sub.model;
        write!(text, "each sub-device: model {model:04X}")?;
        put_unit(&mut text, &profile.sub)?;
    }
    put_shown(out, text.as_bytes())
}

/// What one device is, behind its model.
fn put_unit(text: &mut String, unit: &Unit) -> Result<(), AllocError> {
    let Unit {
        category,
        software,
        start,
        ..
    } = unit;
    let name = words(&unit.model_text);
    let maker = words(&unit.maker_text);
    writeln!(text, ", \"{name}\" of \"{maker}\"")?;
    let known = PRODUCT_CATEGORIES
        .name(u32::from(*category))
        .unwrap_or("product category");
    writeln!(text, "  {known} ({category:04X})")?;
    let version = words(&unit.software_text);
    writeln!(text, "  software version {software:08X}, \"{version}\"")?;
    let label = words(&unit.label);
    writeln!(
        text,
        "  device label \"{label}\", DMX start address {start}"
    )?;
    for (index, personality) in unit.personalities.iter().enumerate() {
        let number = index + 1;
        let name = words(&personality.name);
        let footprint = personality.footprint;
        writeln!(
            text,
            "  personality {number}: \"{name}\", footprint {footprint}"
        )?;
    }
    Ok(())
}

/// What a DMX512 slot is for.
fn put_slot(text: &mut String, number: usize, slot: &Slot) -> Result<(), AllocError> {
    let Slot {
        kind,
        label,
        value,
        ..
    } = slot;
    let name = words(&slot.name);
    let known = SLOT_TYPES.name(u32::from(*kind)).unwrap_or("slot type");
    write!(text, "  slot {number}: \"{name}\", {known} ({kind:02X})")?;
    // The label of a secondary slot is the number of the slot that it belongs to.
    if *kind != 0 {
        return writeln!(text, " of slot {label}, default {value}");
    }
    let of = SLOT_LABELS
        .name(u32::from(*label))
        .unwrap_or("slot label ID");
    writeln!(text, ", {of} ({label:04X}), default {value}")
}

/// What a sensor measures.
fn put_sensor(text: &mut String, number: usize, sensor: &SensorDef) -> Result<(), AllocError> {
    let SensorDef {
        kind,
        unit,
        prefix,
        ..
    } = sensor;
    let name = words(&sensor.name);
    let known = SENSOR_TYPES.name(u32::from(*kind)).unwrap_or("sensor type");
    write!(text, "  sensor {number}: \"{name}\", {known} ({kind:02X})")?;
    let multiple = UNIT_PREFIXES.name(u32::from(*prefix));
    match (multiple, SENSOR_UNITS.name(u32::from(*unit))) {
        (Some(""), Some("")) => {}
        (Some(multiple), Some(symbol)) => write!(text, " in {multiple}{symbol}")?,
        _ => write!(text, " in unit {unit:02X} with prefix {prefix:02X}")?,
    }
    text.push_str(", range ")?;
    put_range(text, sensor.low, sensor.high)?;
    text.push_str(", normally ")?;
    put_range(text, sensor.normal_low, sensor.normal_high)?;
    if sensor.at_once {
        text.push_str(", answered at once")?;
    }
    text.push('\n')
}

/// The self tests, the status IDs, and what is counted.
fn put_rest(text: &mut String, profile: &Profile) -> Result<(), AllocError> {
    for test in profile.tests.iter() {
        let (number, name) = (test.number, words(&test.name));
        writeln!(text, "  self test {number}: \"{name}\"")?;
    }
    for status in profile.status_texts.iter() {
        let (id, words) = (status.id, words(&status.text));
        writeln!(text, "  status ID {id:04X}: \"{words}\"")?;
    }
    for language in profile.languages.iter() {
        let [first, second] = language.to_be_bytes();
        writeln!(
            text,
            "  language {}{}",
            char::from(first),
            char::from(second)
        )?;
    }
    let presets = profile.presets;
    writeln!(text, "  {presets} presets")?;
    let boot = profile.boot;
    let version = words(&profile.boot_text);
    writeln!(text, "  boot software version {boot:08X}, \"{version}\"")
}

/// The slots that aren't described, the parameters that the fixture adds with what the things are called of which one is chosen and what
/// locks keep from being set, unusual times and workers of slow commands, what it tells when it is muted, and the parameters of the standard
/// that it lacks.
fn put_own_parts(text: &mut String, profile: &Profile) -> Result<(), AllocError> {
    let more = profile.particulars.more_slots();
    if more > 0 {
        writeln!(text, "  {more} slots more than those above")?;
    }
    for def in profile.particulars.own() {
        put_added(text, def)?;
    }
    for name in profile.particulars.choices() {
        put_choice_name(text, name)?;
    }
    for lock in profile.particulars.locks() {
        put_lock(text, *lock, &Facts::whose(profile))?;
    }
    put_estimates(text, &profile.particulars.estimates())?;
    put_workers(text, &profile.workers)?;
    put_muting(text, &profile.particulars)?;
    for pid in profile.particulars.without() {
        let name = parameter(*pid).unwrap_or("parameter");
        writeln!(text, "  no {name} ({pid:04X})")?;
    }
    Ok(())
}

/// Of which jobs a rule speaks, and what they come to.
fn put_rule(text: &mut String, rule: &Rule) -> Result<(), AllocError> {
    let name = rule.task.kind().name();
    write!(text, "  outcome of {name}")?;
    if let Some(value) = rule.value {
        write!(text, " {value}")?;
    }
    if let Some(turn) = rule.turn {
        write!(text, ", job {turn}")?;
    }
    match rule.outcome {
        Outcome::Done => writeln!(text, ": done"),
        Outcome::Reading(reading) => writeln!(text, ": reads {reading}"),
        Outcome::Failed {
            severity,
            id,
            v1,
            v2,
        } => {
            let severity = severity.name();
            writeln!(
                text,
                ": fails with {severity}, status ID {id:04X}, values {v1} and {v2}"
            )
        }
    }
}

/// A text of the fixture, which has printable ASCII characters alone.
fn words(text: &Text) -> &str {
    str::from_utf8(text.as_slice()).unwrap_or("")
}
