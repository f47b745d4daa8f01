//! `felosumay fixture`: what a fixture's file describes, and the names that it can have.

use clap::ArgMatches;
use rdm_courses::{Course, Notice, Point, Way};
use rdm_fixture::Fixture;
use rdm_host::fault::Fault;
use rdm_host::fixture::FixtureFile;
use rdm_host::host::Host;
use rdm_host::source::{Source, print};
use rdm_standard_names::NameKind;
use rdm_words::put_fixture;
use std::alloc::AllocError;
use std::fmt::Write;

/// Reads the fixture file that is named, and prints what it describes; or lists the names of the kind that is named.
pub fn run<'a, H: Host>(rt: H, asked: &ArgMatches<'a>) -> Result<(), Fault<'a>> {
    if let Some(kind) = asked
        .get_str(rdm_usage::NAMES)
        .and_then(NameKind::with_word)
    {
        return print_names(rt, kind);
    }
    let source = Source::named(asked.get_str(rdm_usage::INPUT));
    let fixture = FixtureFile::read(rt, source)?.fixture(rt)?;
    print_fixture(rt, &fixture)
}

/// Prints the names of a kind, each behind its number, as both can stand in a fixture's file.
fn print_names<'a, H: Host>(rt: H, kind: NameKind) -> Result<(), Fault<'a>> {
    let mut text = String::new(rt.alloc());
    for (number, name) in kind.table().0 {
        put_name(&mut text, kind, *number, name)?;
    }
    print(rt, text.as_bytes())
}

/// A number of the width of its field, and its name in quotes.
fn put_name(text: &mut String, kind: NameKind, number: u32, name: &str) -> Result<(), AllocError> {
    if kind.greatest() > 0xFF {
        writeln!(text, "0x{number:04X}  \"{name}\"")
    } else {
        writeln!(text, "0x{number:02X}  \"{name}\"")
    }
}

/// Prints what a fixture is.
fn print_fixture<'a, H: Host>(rt: H, fixture: &Fixture) -> Result<(), Fault<'a>> {
    let mut words = Vec::new(rt.alloc());
    let rules = fixture.outcomes.as_slice();
    put_fixture(&mut words, fixture.uid, &fixture.profile, rules)?;
    print(rt, words.as_slice())?;
    let mut text = String::new(rt.alloc());
    for (number, course) in fixture.start.courses.iter().enumerate() {
        put_course(&mut text, number, course)?;
    }
    for notice in fixture.start.notices.iter() {
        put_notice(&mut text, notice)?;
    }
    print(rt, text.as_bytes())
}

/// What a sensor shows over time, if something is said of it.
fn put_course(text: &mut String, number: usize, course: &Course) -> Result<(), AllocError> {
    if course.points.is_empty() {
        return Ok(());
    }
    let way = match course.way {
        Way::Steps => "by steps",
        Way::Ramp => "by a ramp",
    };
    write!(text, "sensor {number} over time, {way}: ")?;
    for (index, point) in course.points.iter().enumerate() {
        let comma = if index == 0 { "" } else { ", " };
        let Point { at, value } = point;
        write!(text, "{comma}{value} at {at} s")?;
    }
    text.push_str(if course.repeats {
        ", and again from there\n"
    } else {
        "\n"
    })
}

/// A status message, and when it comes.
fn put_notice(text: &mut String, notice: &Notice) -> Result<(), AllocError> {
    let Notice {
        at,
        sub,
        id,
        v1,
        v2,
        ..
    } = notice;
    let severity = notice.severity.name();
    write!(text, "status message at {at} s")?;
    if let Some(every) = notice.every {
        write!(text, " and every {every} s")?;
    }
    writeln!(
        text,
        ": {severity}, sub-device {sub}, status ID {id:04X}, values {v1} and {v2}"
    )
}
