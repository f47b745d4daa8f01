//! What no clause says: that the keys are those of docs/FIXTURE.md, and the words of the refusals.
//!
//! Rows are text. The first line of a row has a fixture's file: `¶` ends a line of it, `␍` is a carriage return, and `..` stands for
//! `LEAST` and the tables that a table of rows has for all. Below it stands what is told of it: why it is refused, or the part of the
//! fixture that the table is about. An empty line ends a row.

mod changed;
mod estimates;
mod lines;
mod locks;
mod modes;
mod muting;
mod outcomes;
mod parameters;
mod refusals;
mod spot;
mod standards;
mod starting;
mod values;
mod workers;

use rdm_courses::{Course, Notice, Point};
use rdm_device::{
    ChoiceName, Estimates, Field, Lock, Mode, ParameterDef, Particulars, SensorDef, Slot, Workers,
};
use rdm_fixture::{Fixture, Starting, shown_at_start};
use std::alloc::{AllocError, Global};
use std::process::Abort;
use std::str;

/// What a fixture has to say at least.
const LEAST: &str =
    "uid = \"7FF0:00000001\"\ndevice_model_id = 1\n[[personality]]\ndmx_footprint = 0\n";

/// Which part of a fixture is told.
#[derive(Clone, Copy)]
enum Part {
    /// That it is one.
    Fault,
    /// The times of the lamp, the power state, self tests and sensors.
    Times,
    /// The numbers of the workers of the lamp, the power state, self tests and sensors.
    Workers,
    /// What each state locks: its number, and a PID.
    Locks,
    /// How many parameters are locked.
    LockCount,
    /// Of each parameter that it adds: its commands, its data, what it starts with, the least and the greatest value, and whether
    /// FACTORY_DEFAULTS sets it back.
    Parameters,
    /// The data of each parameter that it adds, and the numbers in their slots.
    Fields,
    /// Of each choice: the PID, the number, the frequency and the name.
    Choices,
    /// The counters that it starts with, and what each sensor has measured.
    Start,
    /// The personalities that have slots of their own, and their slots.
    Modes,
    /// What is placed for each sensor.
    Sensors,
    /// What each sensor shows over time.
    Courses,
    /// The status messages that come by themselves.
    Notices,
    /// What it tells when it is muted: that a proxy answers for it, that it needs firmware, and its binding UID; and whether only the
    /// newest message of a change waits.
    Muting,
}

/// Rows of one kind.
struct Table {
    part: Part,
    /// What stands behind the least in each row.
    tables: &'static str,
    rows: &'static str,
}

/// Reads tables of rows.
fn try_tables(rt: &impl Abort, alloc: Global, tables: &[Table]) {
    for table in tables {
        try_rows(rt, alloc, table);
    }
}

fn try_rows(rt: &impl Abort, alloc: Global, table: &Table) {
    for row in table.rows.split("\n\n") {
        try_row(rt, alloc, table, row);
    }
}

fn try_row(rt: &impl Abort, alloc: Global, table: &Table, row: &str) {
    let (line, expected) = row.split_once('\n').unwrap_or((row, ""));
    let file = file_in(alloc, table.tables, line).expect(rt, "memory");
    told_is(rt, alloc, table.part, &file, expected);
}

/// This is told of a file.
fn told_is(rt: &impl Abort, alloc: Global, part: Part, file: &str, expected: &str) {
    let told = told(alloc, part, file).expect(rt, "memory");
    assert!(rt; told.as_str() == expected, "{file}: {told}");
}

/// The file that the first line of a row says.
fn file_in(alloc: Global, tables: &str, line: &str) -> Result<String, AllocError> {
    let Some((before, after)) = line.split_once("..") else {
        return with_ends(alloc, line);
    };
    let after = after.strip_prefix(' ').unwrap_or(after);
    let text = format!(in alloc; "{before}{LEAST}{tables}{after}")?;
    with_ends(alloc, &text)
}

/// The text with the ends of its lines.
fn with_ends(alloc: Global, text: &str) -> Result<String, AllocError> {
    let mut lines = String::new(alloc);
    for letter in text.chars() {
        lines.push(match letter {
            '¶' => '\n',
            '␍' => '\r',
            other => other,
        })?;
    }
    Ok(lines)
}

/// What is told of a file: why it is refused, or this part of its fixture.
fn told(alloc: Global, part: Part, file: &str) -> Result<String, AllocError> {
    match Fixture::from_toml(alloc, file) {
        Err(error) => format!(in alloc; "{error}"),
        Ok(fixture) if is_read_again(alloc, &fixture) => part_of(alloc, part, &fixture),
        Ok(_) => String::from_str(alloc, "written as another fixture"),
    }
}

/// Whether the text that a fixture is written as is read as the same fixture.
fn is_read_again(alloc: Global, fixture: &Fixture) -> bool {
    match fixture.to_toml(alloc) {
        Ok(text) => Fixture::from_toml(alloc, &text).is_ok_and(|again| again == *fixture),
        Err(_) => false,
    }
}

/// A part of a fixture.
fn part_of(alloc: Global, part: Part, fixture: &Fixture) -> Result<String, AllocError> {
    let profile = &fixture.profile;
    match part {
        Part::Fault => String::from_str(alloc, "a fixture"),
        Part::Times => times_text(alloc, profile.particulars.estimates()),
        Part::Workers => workers_text(alloc, profile.workers),
        Part::Locks => locks_text(alloc, profile.particulars.locks()),
        Part::LockCount => {
            let count = profile.particulars.locks().len();
            format!(in alloc; "{count} locked")
        }
        Part::Parameters => parameters_text(alloc, profile.particulars.own()),
        Part::Fields => data_text(alloc, profile.particulars.own()),
        Part::Choices => choices_text(alloc, profile.particulars.choices()),
        Part::Start => start_text(alloc, fixture),
        Part::Modes => modes_text(alloc, profile.particulars.modes()),
        Part::Sensors => sensors_text(alloc, profile.sensors.as_slice()),
        Part::Courses => courses_text(alloc, fixture.start.courses.as_slice()),
        Part::Notices => notices_text(alloc, fixture.start.notices.as_slice()),
        Part::Muting => muting_text(alloc, &profile.particulars),
    }
}

fn times_text(alloc: Global, times: Estimates) -> Result<String, AllocError> {
    let Estimates {
        lamp,
        power,
        self_test,
        sensor,
    } = times;
    format!(in alloc; "{lamp} {power} {self_test} {sensor}")
}

fn workers_text(alloc: Global, workers: Workers) -> Result<String, AllocError> {
    let lamp = workers.lamp.number();
    let power = workers.power.number();
    let self_test = workers.self_test.number();
    let sensor = workers.sensor.number();
    format!(in alloc; "{lamp} {power} {self_test} {sensor}")
}

fn muting_text(alloc: Global, particulars: &Particulars) -> Result<String, AllocError> {
    let reply = particulars.mute_reply();
    let (proxied, boot_loader) = (reply.proxied_device, reply.boot_loader);
    let newest = particulars.newest_only();
    match reply.binding {
        Some(uid) => format!(in alloc; "{proxied} {boot_loader} {uid}, {newest}"),
        None => format!(in alloc; "{proxied} {boot_loader} none, {newest}"),
    }
}

fn start_text(alloc: Global, fixture: &Fixture) -> Result<String, AllocError> {
    let start = &fixture.start;
    let presents = start.presents.as_slice();
    let is_nothing = *start == Starting::nothing(&fixture.profile.sensors);
    format!(in alloc;
        "{} {} {} {} {presents:?}, nothing: {is_nothing}",
        start.device_hours, start.lamp_hours, start.lamp_strikes, start.device_power_cycles
    )
}

fn courses_text(alloc: Global, courses: &[Course]) -> Result<String, AllocError> {
    let mut lines = String::new(alloc);
    for course in courses {
        let points = points_text(alloc, course.points.as_slice())?;
        let way = course.way;
        let repeats = course.repeats;
        let line = format!(in alloc; "[{points}] {way:?} {repeats}")?;
        put_line(&mut lines, &line)?;
    }
    Ok(lines)
}

fn notices_text(alloc: Global, notices: &[Notice]) -> Result<String, AllocError> {
    let mut lines = String::new(alloc);
    for notice in notices {
        let Notice {
            at,
            every,
            sub,
            severity,
            id,
            v1,
            v2,
        } = *notice;
        let line = format!(in alloc; "{at} {every:?} {sub} {severity:?} {id} {v1} {v2}")?;
        put_line(&mut lines, &line)?;
    }
    Ok(lines)
}

fn points_text(alloc: Global, points: &[Point]) -> Result<String, AllocError> {
    let mut text = String::new(alloc);
    for point in points {
        let Point { at, value } = point;
        let comma = if text.is_empty() { "" } else { ", " };
        let more = format!(in alloc; "{comma}{at}: {value}")?;
        text.push_str(&more)?;
    }
    Ok(text)
}

/// Puts a line at the end of others.
fn put_line(lines: &mut String, line: &str) -> Result<(), AllocError> {
    if !lines.is_empty() {
        lines.push_str("\n")?;
    }
    lines.push_str(line)
}

fn locks_text(alloc: Global, locks: &[Lock]) -> Result<String, AllocError> {
    let mut lines = String::new(alloc);
    for lock in locks {
        let line = format!(in alloc; "{} {:04X}", lock.state, lock.pid)?;
        put_line(&mut lines, &line)?;
    }
    Ok(lines)
}

fn parameters_text(alloc: Global, own: &[ParameterDef]) -> Result<String, AllocError> {
    let mut lines = String::new(alloc);
    for def in own {
        let start = def.start.as_slice();
        let line = format!(in alloc;
            "{:?} {:?} {start:?}, {} to {}, set back: {}",
            def.rights, def.shape, def.low, def.high, def.resets
        )?;
        put_line(&mut lines, &line)?;
    }
    Ok(lines)
}

fn data_text(alloc: Global, own: &[ParameterDef]) -> Result<String, AllocError> {
    let mut lines = String::new(alloc);
    for def in own {
        let line = format!(in alloc; "data {:?}", def.shape)?;
        put_line(&mut lines, &line)?;
        put_fields(alloc, &mut lines, def.fields.as_slice())?;
    }
    Ok(lines)
}

fn put_fields(alloc: Global, lines: &mut String, fields: &[Field]) -> Result<(), AllocError> {
    for field in fields {
        let line = format!(in alloc;
            "number {:?}, {} to {}, or {}",
            field.width, field.low, field.high, field.also
        )?;
        put_line(lines, &line)?;
    }
    Ok(())
}

fn choices_text(alloc: Global, choices: &[ChoiceName]) -> Result<String, AllocError> {
    let mut lines = String::new(alloc);
    for choice in choices {
        let name = str::from_utf8(choice.name.as_slice()).unwrap_or("no text");
        let line = format!(in alloc;
            "{:04X} {}, {} Hz, \"{name}\"",
            choice.pid, choice.number, choice.hertz
        )?;
        put_line(&mut lines, &line)?;
    }
    Ok(lines)
}

fn modes_text(alloc: Global, modes: &[Mode]) -> Result<String, AllocError> {
    let mut lines = String::new(alloc);
    for mode in modes {
        let name = str::from_utf8(mode.personality.name.as_slice()).unwrap_or("no text");
        let line = format!(in alloc;
            "{} slots, those of {}, \"{name}\"",
            mode.personality.footprint, mode.slots_of
        )?;
        put_line(&mut lines, &line)?;
        put_slots(alloc, &mut lines, mode.slots.as_slice())?;
    }
    Ok(lines)
}

fn put_slots(alloc: Global, lines: &mut String, slots: &[Slot]) -> Result<(), AllocError> {
    for slot in slots {
        let name = str::from_utf8(slot.name.as_slice()).unwrap_or("no text");
        let line = format!(in alloc;
            "slot {:02X} {:04X} {}, \"{name}\"",
            slot.kind, slot.label, slot.value
        )?;
        put_line(lines, &line)?;
    }
    Ok(())
}

/// What is placed where sensor 7 has measured -2.
fn sensors_text(alloc: Global, sensors: &[SensorDef]) -> Result<String, AllocError> {
    let mut lines = String::new(alloc);
    for sensor in sensors {
        let shown = shown_at_start(7, -2, sensor);
        let line = format!(in alloc; "at once: {}, {:?}", sensor.at_once, shown.as_slice())?;
        put_line(&mut lines, &line)?;
    }
    Ok(lines)
}
