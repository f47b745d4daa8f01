//! Fits out devices as lines of text say.

use super::play::{byte, cut, data, filled, named, plays, says_something, word};
use super::*;

/// A demonstration device that each line alters, or adds something to. A line that begins with `//` is a comment.
///
/// - `keeps PID COMMANDS SHAPE LEAST GREATEST DATA` adds a parameter of the maker's own or of a standard, which starts with these data, and
///   which FACTORY_DEFAULTS leaves; `resets` adds one that FACTORY_DEFAULTS sets back. Behind it may stand ` + WIDTH LEAST GREATEST ALSO` for
///   each number that its slots say, and ` : DATA`: its unit, its prefix and what it is called.
/// - `name PID NUMBER HERTZ DATA` adds what one of several things is called: the PID is that of the parameter that tells it, and the frequency
///   is 0 where it has none.
/// - `lock STATE PID` locks a parameter in this state, and `lacks PID` leaves one of the table out.
/// - `mode FOOTPRINT SLOTS_OF DATA` adds a personality with a name, and behind it ` + KIND LABEL VALUE DATA` for each slot of its own.
/// - `root` or `cells` has behind it what is altered there: `bare`, which takes all personalities away, `personality FOOTPRINT`, which adds one
///   with so many slots, or `start ADDRESS`.
/// - `subs COUNT`, `presets COUNT`, `slots COUNT`, `no languages`, `no sensors`, `sensor SUPPORT`, which adds one that is answered at once,
///   `test NUMBER` and `status ID`, which add one, too.
pub(super) fn fitted(rt: &impl Abort, alloc: Global, texts: &[&str]) -> Profile {
    let mut profile = Profile::demo(0);
    let mut particular = Particular::usual();
    for lines in texts {
        fits_out(rt, alloc, &mut profile, &mut particular, lines);
    }
    profile.particulars = Particulars::of(alloc, particular).expect(rt, "memory");
    profile
}

/// Plays rows on devices that are fitted out as all these texts say.
pub(super) fn plays_on(rt: &impl Abort, alloc: Global, texts: &[&str], rows: &str) {
    plays(rt, &mut made(rt, alloc, fitted(rt, alloc, texts)), rows);
}

/// A device that is fitted out so can be made, or why not: `made`, or the words of the error.
pub(super) fn is_made(rt: &impl Abort, alloc: Global, lines: &str, expected: &str) {
    let told = match Devices::new(alloc, fitted(rt, alloc, &[lines])).err() {
        None => "made",
        Some(NewError::BadProfile) => "bad profile",
        Some(NewError::TooManySubs) => "too many sub-devices",
        Some(NewError::OutOfMemory) => "out of memory",
    };
    assert!(rt; told == expected, "{lines} is {told}");
}

/// The same for each row of a table, in which cells stand between bars: each for its name in the lines, which is in the table's first row,
/// and in the last column what comes of it. A line whose cell is `//` is left out.
pub(super) fn is_each_made(rt: &impl Abort, alloc: Global, table: &str, lines: &str) {
    let (names, rows) = table.split_once('\n').expect(rt, "a table");
    for row in rows.lines() {
        if says_something(row) {
            let (_, expected) = row.rsplit_once('|').expect(rt, row);
            is_made(
                rt,
                alloc,
                &filled(rt, alloc, lines, names, row),
                expected.trim(),
            );
        }
    }
}

/// Does what each line says.
fn fits_out(
    rt: &impl Abort,
    alloc: Global,
    profile: &mut Profile,
    particular: &mut Particular,
    lines: &str,
) {
    for line in lines.lines() {
        if says_something(line) {
            fits_line(rt, alloc, profile, particular, line);
        }
    }
}

/// Does what a line says.
fn fits_line(
    rt: &impl Abort,
    alloc: Global,
    profile: &mut Profile,
    particular: &mut Particular,
    line: &str,
) {
    let (verb, words) = cut(line);
    match verb {
        "keeps" => add(rt, alloc, &mut particular.own, parameter(rt, words, false)),
        "resets" => add(rt, alloc, &mut particular.own, parameter(rt, words, true)),
        "name" => add_name(rt, alloc, &mut particular.choices, words),
        "lock" => add_lock(rt, alloc, &mut particular.locks, words),
        "mode" => add_mode(rt, &mut particular.modes, alloc, words),
        "lacks" => {
            let pushed = particular.without.try_push(word(rt, words));
            assert!(rt; pushed.is_ok(), "{line}");
        }
        "root" => alters_unit(rt, &mut profile.root, words),
        "cells" => alters_unit(rt, &mut profile.sub, words),
        _ => alters(rt, profile, verb, words),
    }
}

/// Adds a parameter.
fn add(rt: &impl Abort, alloc: Global, own: &mut OwnParameters, def: ParameterDef) {
    assert!(rt; own.as_slice().len() < 32);
    own.push(alloc, def).expect(rt, "memory");
}

/// The parameter that words say.
fn parameter(rt: &impl Abort, words: &str, resets: bool) -> ParameterDef {
    let mut def = ParameterDef::default();
    def.resets = resets;
    let (words, told) = words.split_once(" : ").unwrap_or((words, ""));
    let mut parts = words.split(" + ");
    begins_as(rt, &mut def, parts.next().expect(rt, words));
    for field in parts {
        assert!(rt; def.fields.try_push(field_in(rt, field)).is_ok(), "{words}");
    }
    is_called(&mut def, data(rt, told).as_slice());
    def
}

/// The commands of a parameter.
const RIGHTS: &[(&str, Rights)] = &[
    ("get", Rights::Get),
    ("set", Rights::Set),
    ("both", Rights::Both),
    ("clear", Rights::Clear),
];

/// The data of a parameter that aren't slots.
const SHAPES: &[(&str, Shape)] = &[
    ("byte", Shape::Byte),
    ("word", Shape::Word),
    ("long", Shape::Long),
    ("signed-byte", Shape::SignedByte),
    ("text", Shape::Text),
    ("choice", Shape::Choice),
    ("names", Shape::Names),
    ("rates", Shape::Rates),
    ("scenes", Shape::Scenes),
    ("lock", Shape::Lock),
    ("pin", Shape::Pin),
    ("block", Shape::Block),
];

/// The widths of a number in slots.
const WIDTHS: &[(&str, Width)] = &[("one", Width::One), ("two", Width::Two)];

/// What a parameter is, as words say.
fn begins_as(rt: &impl Abort, def: &mut ParameterDef, words: &str) {
    let (pid, words) = cut(words);
    let (rights, words) = cut(words);
    let (shape, words) = cut(words);
    let (low, words) = cut(words);
    let (high, start) = cut(words);
    def.pid = word(rt, pid);
    def.rights = named(RIGHTS, rights).expect(rt, rights);
    def.low = low.parse::<i64>().ok().expect(rt, low);
    def.high = high.parse::<i64>().ok().expect(rt, high);
    def.start = Text::from_slice(data(rt, start).as_slice()).expect(rt, start);
    def.shape = match shape {
        "slots" => Shape::Slots(def.start.as_slice().len() as u8),
        _ => named(SHAPES, shape).expect(rt, shape),
    };
}

/// A number in slots, as words say.
fn field_in(rt: &impl Abort, words: &str) -> Field {
    let (width, words) = cut(words);
    let (low, words) = cut(words);
    let (high, also) = cut(words);
    Field {
        width: named(WIDTHS, width).expect(rt, width),
        low: number(rt, low),
        high: number(rt, high),
        also: number(rt, also),
    }
}

/// The unit, the prefix and the name of a parameter, if there are some.
fn is_called(def: &mut ParameterDef, told: &[u8]) {
    if let [unit, prefix, name @ ..] = told {
        def.unit = *unit;
        def.prefix = *prefix;
        def.name = Text::from_slice(name).unwrap_or(Text::new());
    }
}

/// Adds what one of several things is called.
fn add_name(rt: &impl Abort, alloc: Global, names: &mut ChoiceNames, words: &str) {
    let (pid, words) = cut(words);
    let (thing, words) = cut(words);
    let (hertz, text) = cut(words);
    let name = ChoiceName {
        pid: word(rt, pid),
        number: small(rt, thing),
        hertz: number(rt, hertz),
        name: Text::from_slice(data(rt, text).as_slice()).expect(rt, text),
    };
    assert!(rt; names.as_slice().len() < 64);
    names.push(alloc, name).expect(rt, "memory");
}

/// Adds a lock.
fn add_lock(rt: &impl Abort, alloc: Global, locks: &mut Locks, words: &str) {
    let (state, pid) = cut(words);
    let lock = Lock {
        state: small(rt, state),
        pid: word(rt, pid),
    };
    assert!(rt; locks.as_slice().len() < 64);
    locks.push(alloc, lock).expect(rt, "memory");
}

/// Adds a personality with slots of its own, or with those of another one.
fn add_mode(rt: &impl Abort, modes: &mut Modes, alloc: Global, words: &str) {
    let mut parts = words.split(" + ");
    let (footprint, told) = cut(parts.next().expect(rt, words));
    let (slots_of, name) = cut(told);
    let mut slots = Vec::new(alloc);
    for slot in parts {
        slots.push(slot_in(rt, slot)).expect(rt, "memory");
    }
    assert!(rt; slots.len() <= 46);
    let personality = Personality {
        footprint: count(rt, footprint),
        name: Text::from_slice(data(rt, name).as_slice()).expect(rt, name),
    };
    let mode = Mode {
        personality,
        slots_of: small(rt, slots_of),
        slots: SlotList::of(slots),
    };
    assert!(rt; modes.as_slice().len() < 247);
    modes.push(alloc, mode).expect(rt, "memory");
}

/// A slot, as words say.
fn slot_in(rt: &impl Abort, words: &str) -> Slot {
    let (kind, words) = cut(words);
    let (label, words) = cut(words);
    let (value, name) = cut(words);
    Slot {
        kind: byte(rt, kind),
        label: word(rt, label),
        value: byte(rt, value),
        name: Text::from_slice(data(rt, name).as_slice()).expect(rt, name),
    }
}

/// Alters the root, or what all cells are.
fn alters_unit(rt: &impl Abort, unit: &mut Unit, words: &str) {
    match cut(words) {
        ("start", address) => unit.start = count(rt, address),
        ("personality", footprint) => {
            let name = Text::new();
            let footprint = count(rt, footprint);
            let pushed = unit.personalities.try_push(Personality { footprint, name });
            assert!(rt; pushed.is_ok(), "{words}");
        }
        _ => {
            assert!(rt; words == "bare");
            unit.personalities.clear();
        }
    }
}

/// Alters what else a profile has.
fn alters(rt: &impl Abort, profile: &mut Profile, verb: &str, words: &str) {
    match verb {
        "subs" => profile.subs = count(rt, words),
        "presets" => profile.presets = count(rt, words),
        "slots" => profile.slots.truncate(usize::from(count(rt, words))),
        "no" => takes_away(rt, profile, words),
        "sensor" => add_sensor(rt, profile, small(rt, words)),
        "test" => add_test(rt, profile, small(rt, words)),
        _ => {
            assert!(rt; verb == "status");
            add_status(rt, profile, word(rt, words));
        }
    }
}

fn takes_away(rt: &impl Abort, profile: &mut Profile, words: &str) {
    if words == "languages" {
        profile.languages.clear();
    } else {
        assert!(rt; words == "sensors");
        profile.sensors.clear();
    }
}

/// Adds a sensor that is answered at once, and supports so much.
fn add_sensor(rt: &impl Abort, profile: &mut Profile, support: u8) {
    let mut sensor = SensorDef::default();
    sensor.at_once = true;
    sensor.support = support;
    assert!(rt; profile.sensors.try_push(sensor).is_ok());
}

/// Adds a self test without a name.
fn add_test(rt: &impl Abort, profile: &mut Profile, number: u8) {
    let name = Text::new();
    assert!(rt; profile.tests.try_push(SelfTest { number, name }).is_ok());
}

/// Adds a status ID without a text.
fn add_status(rt: &impl Abort, profile: &mut Profile, id: u16) {
    let text = Text::new();
    assert!(rt;
        profile
            .status_texts
            .try_push(StatusText { id, text })
            .is_ok()
    );
}

/// The numbers that decimal digits print.
fn number(rt: &impl Abort, digits: &str) -> u32 {
    digits.parse::<u32>().ok().expect(rt, digits)
}

fn count(rt: &impl Abort, digits: &str) -> u16 {
    digits.parse::<u16>().ok().expect(rt, digits)
}

fn small(rt: &impl Abort, digits: &str) -> u8 {
    digits.parse::<u8>().ok().expect(rt, digits)
}
