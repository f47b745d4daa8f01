//! Plays rows that are written as text.

use super::*;
use rdm_frame::digits::{bytes_in, word_in};

/// Plays rows on devices, one after another. A row says what is done, and behind ` = ` all that comes of it. Data are bytes of two
/// hexadecimal digits, or letters in single quotes. A line that begins with `//` is a comment.
///
/// - `get SUB PID DATA` and `set SUB PID DATA` are commands. The answer is `ack DATA`, `nack REASON`, `clears`, `queue ASK`, `status ASK`, or
///   `job BYTE`, where a job starts that is handed this byte.
/// - `tell SUB PID DATA` is a SET that says what it changed: `nothing`, `value SUB PID` or `several`.
/// - `place SUB PID DATA` is a value that the firmware places: `ok`, or why it is refused.
/// - `end VERB SUB PID BYTE OUTCOME` is the end of a job. Its message has `CLASS DATA`.
/// - `turn CHANGE` is a change at the fixture's own menu, `start NUMBER`, `personality NUMBER` or `label DATA`: `taken PID DATA` or `refused
///   PID DATA`, where a GET replies these data afterwards.
/// - `notes SUB SEVERITY` asks whether a status entry is noted: `yes` or `no`.
/// - `own PID` asks what is kept of a parameter that the profile adds: `DATA`, or `none`.
pub(super) fn plays(rt: &impl Abort, devices: &mut Devices, rows: &str) {
    for row in rows.lines() {
        if says_something(row) {
            plays_row(rt, devices, row);
        }
    }
}

/// Whether a line is neither empty nor a comment.
pub(super) fn says_something(line: &str) -> bool {
    !line.is_empty() && !line.starts_with("//")
}

/// Plays rows for each row of a table, in which cells stand between bars: each for its name, which is in the table's first row.
pub(super) fn plays_each(
    rt: &impl Abort,
    alloc: Global,
    devices: &mut Devices,
    table: &str,
    rows: &str,
) {
    let (names, lines) = table.split_once('\n').expect(rt, "a table");
    for cells in lines.lines() {
        plays(rt, devices, &filled(rt, alloc, rows, names, cells));
    }
}

/// The rows with the cells in the places of their names.
pub(super) fn filled(
    rt: &impl Abort,
    alloc: Global,
    rows: &str,
    names: &str,
    cells: &str,
) -> String {
    let mut text = String::new(alloc);
    text.push_str(rows).expect(rt, "memory");
    for (name, cell) in names.split('|').zip(cells.split('|')) {
        text = text
            .replace(alloc, name.trim(), cell.trim())
            .expect(rt, "memory");
    }
    text
}

/// Plays one row.
fn plays_row(rt: &impl Abort, devices: &mut Devices, row: &str) {
    let (said, expected) = row.split_once(" =").expect(rt, row);
    let (verb, words) = cut(said);
    let is_so = goes_so(rt, devices, verb, words, expected.trim_start());
    assert!(rt; is_so, "{row}");
}

/// Whether all that comes of a row is what is expected.
fn goes_so(
    rt: &impl Abort,
    devices: &mut Devices,
    verb: &str,
    words: &str,
    expected: &str,
) -> bool {
    match verb {
        "end" => ends(rt, devices, words, expected),
        "turn" => turns(rt, devices, words, expected),
        "notes" => notes(rt, devices, words, expected),
        "own" => keeps(rt, devices, words, expected),
        _ => obeys(rt, devices, verb, &said_in(rt, words), expected),
    }
}

/// What a command or a value says: of which device, of which PID, and with which data.
#[derive(Drop)]
struct Said<'a> {
    /// The words that say so.
    words: &'a str,
    sub: u16,
    pid: u16,
    body: Body,
}

fn said_in<'a>(rt: &impl Abort, words: &'a str) -> Said<'a> {
    let (sub, rest) = cut(words);
    let (pid, bytes) = cut(rest);
    Said {
        words,
        sub: word(rt, sub),
        pid: word(rt, pid),
        body: data(rt, bytes),
    }
}

/// A row of a command, or of a value that is placed.
fn obeys(
    rt: &impl Abort,
    devices: &mut Devices,
    verb: &str,
    said: &Said<'_>,
    expected: &str,
) -> bool {
    match verb {
        "get" => gets(rt, devices, said, expected),
        "set" => sets(rt, devices, said, expected),
        "tell" => is_changed(rt, devices, said, expected),
        _ => verb == "place" && places(devices, said, expected),
    }
}

fn gets(rt: &impl Abort, devices: &Devices, said: &Said<'_>, expected: &str) -> bool {
    let told = devices.get(said.sub, said.pid, said.body.as_slice());
    is_told(rt, Get, said, &told, expected)
}

fn sets(rt: &impl Abort, devices: &mut Devices, said: &Said<'_>, expected: &str) -> bool {
    let told = devices.set(said.sub, said.pid, said.body.as_slice());
    is_told(rt, Set, said, &told, expected)
}

fn places(devices: &mut Devices, said: &Said<'_>, expected: &str) -> bool {
    let placed = devices.place(said.sub, said.pid, said.body.as_slice());
    name_of(&placed) == expected
}

/// Whether a command is answered as words say.
fn is_told(rt: &impl Abort, verb: Verb, said: &Said<'_>, told: &Verdict, expected: &str) -> bool {
    let (kind, words) = cut(expected);
    let is_so = match told {
        Verdict::Reply(body) => kind == "ack" && body.as_slice() == data(rt, words).as_slice(),
        Verdict::Refuse(nack) => kind == "nack" && reason_name(nack.code()) == Some(words),
        Verdict::Queue(ask) => kind == "queue" && type_of(*ask) == words,
        Verdict::Status(ask) => kind == "status" && type_of(*ask) == words,
        Verdict::Start(work) => kind == "job" && starts(rt, verb, said, work, words),
        Verdict::Clear => expected == "clears",
    };
    assert!(rt; is_so, "{}: {told:?}, not {expected}", said.words);
    is_so
}

/// Whether a job is that of a command, and is handed this byte.
fn starts(rt: &impl Abort, verb: Verb, said: &Said<'_>, work: &Work, arg: &str) -> bool {
    *work == slow::work_of(verb, said.sub, said.pid, byte(rt, arg))
}

/// What is asked for, in the words of table A-4.
fn type_of(ask: Ask) -> &'static str {
    match ask {
        Ask::None => "none",
        Ask::Last => "last",
        Ask::Advisory => "advisory",
        Ask::Warning => "warning",
        Ask::Error => "error",
    }
}

/// Whether a SET changes what words say.
fn is_changed(rt: &impl Abort, devices: &mut Devices, said: &Said<'_>, expected: &str) -> bool {
    let mut body = Body::new();
    let (_, changed) = devices.set_into(said.sub, said.pid, said.body.as_slice(), &mut body);
    match changed {
        None => expected == "nothing",
        Some(Changed::Several) => expected == "several",
        Some(Changed::Value { sub, pid }) => is_value(rt, sub, pid, expected),
    }
}

/// Whether words say that the value of this parameter of this device changed.
fn is_value(rt: &impl Abort, sub: u16, pid: u16, words: &str) -> bool {
    let (kind, words) = cut(words);
    let (device, parameter) = cut(words);
    kind == "value" && (word(rt, device), word(rt, parameter)) == (sub, pid)
}

/// What comes of placing a value.
fn name_of(placed: &Result<(), PlaceError>) -> &'static str {
    match placed {
        Ok(()) => "ok",
        Err(PlaceError::NoDevice) => "no device",
        Err(PlaceError::NoValue) => "no value",
        Err(PlaceError::Length) => "length",
        Err(PlaceError::OutOfRange) => "out of range",
    }
}

/// Whether a job that ends as words say has the message that it is expected to.
fn ends(rt: &impl Abort, devices: &mut Devices, words: &str, expected: &str) -> bool {
    let (verb, rest) = cut(words);
    let (sub, rest) = cut(rest);
    let (pid, rest) = cut(rest);
    let (arg, outcome) = cut(rest);
    let verb = if verb == "set" { Set } else { Get };
    let work = slow::work_of(verb, word(rt, sub), word(rt, pid), byte(rt, arg));
    let outcome = outcome_in(outcome).expect(rt, words);
    fits(&work, &outcome) && tells(rt, &devices.commit(&work, outcome), &work, expected)
}

/// Whether a message is that of a work, and has the class and the data that words say.
fn tells(rt: &impl Abort, told: &Message, work: &Work, expected: &str) -> bool {
    let (class, words) = cut(expected);
    (told.class, told.pid, told.sub) == (byte(rt, class), work.pid, work.sub)
        && told.body.as_slice() == data(rt, words).as_slice()
}

/// The outcome that words say.
fn outcome_in(words: &str) -> Option<Outcome> {
    match cut(words) {
        ("done", _) => Some(Outcome::Done),
        ("failed", _) => Some(slow::FAILED),
        ("reading", number) => Some(Outcome::Reading(number.parse::<i16>().ok()?)),
        _ => None,
    }
}

/// Whether a change at the menu is told of exactly where it is taken, and a GET reads what its message says.
fn turns(rt: &impl Abort, devices: &mut Devices, words: &str, expected: &str) -> bool {
    let change = change_in(rt, words).expect(rt, words);
    let (taken, shown) = cut(expected);
    let (pid, bytes) = cut(shown);
    let (pid, body) = (word(rt, pid), data(rt, bytes));
    let is_so = match devices.change(&change) {
        Some(told) => taken == "taken" && told == message(0x21, pid, 0, body.copy()),
        None => taken == "refused",
    };
    is_so && devices.get(0, pid, &[]) == Verdict::Reply(body)
}

/// The change that words say.
fn change_in(rt: &impl Abort, words: &str) -> Option<Change> {
    match cut(words) {
        ("start", number) => Some(Change::Start(number.parse::<u16>().ok()?)),
        ("personality", number) => Some(Change::Personality(number.parse::<u8>().ok()?)),
        ("label", text) => Some(Change::Label(Plate::new(data(rt, text).as_slice())?)),
        _ => None,
    }
}

/// Whether an entry is noted exactly where words say so.
fn notes(rt: &impl Abort, devices: &Devices, words: &str, expected: &str) -> bool {
    let (sub, name) = cut(words);
    let severity = named(SEVERITIES, name).expect(rt, words);
    let noted = devices.notes(&thresholds::entry(word(rt, sub), severity));
    expected == if noted { "yes" } else { "no" }
}

/// The severities of table A-4.
const SEVERITIES: &[(&str, Severity)] = &[
    ("advisory", Severity::Advisory),
    ("advisory cleared", Severity::AdvisoryCleared),
    ("warning", Severity::Warning),
    ("warning cleared", Severity::WarningCleared),
    ("error", Severity::Error),
    ("error cleared", Severity::ErrorCleared),
];

/// Whether these data are kept of a parameter that the profile adds, if it has such data.
fn keeps(rt: &impl Abort, devices: &Devices, pid: &str, expected: &str) -> bool {
    match devices.own_value(word(rt, pid)) {
        Some(kept) => kept == data(rt, expected).as_slice(),
        None => expected == "none",
    }
}

/// What has this name.
pub(super) fn named<T: Copy>(rows: &[(&'static str, T)], name: &str) -> Option<T> {
    for (own, thing) in rows {
        if *own == name {
            return Some(*thing);
        }
    }
    None
}

/// The first word of a text, and what follows it.
pub(super) fn cut(text: &str) -> (&str, &str) {
    text.split_once(' ').unwrap_or((text, ""))
}

/// The number that four hexadecimal digits print.
pub(super) fn word(rt: &impl Abort, digits: &str) -> u16 {
    word_in(digits.as_bytes()).expect(rt, digits)
}

/// The byte that two hexadecimal digits print.
pub(super) fn byte(rt: &impl Abort, digits: &str) -> u8 {
    u8::from_str_radix(digits, 16).ok().expect(rt, digits)
}

/// The bytes that words say: two hexadecimal digits for each, or letters in single quotes.
pub(super) fn data(rt: &impl Abort, words: &str) -> Body {
    let mut body = Body::new();
    let mut is_quoted = false;
    for part in words.split('\'') {
        if is_quoted {
            append(rt, &mut body, part.as_bytes());
        } else {
            add_digits(rt, &mut body, part);
        }
        is_quoted = !is_quoted;
    }
    body
}

/// Puts the bytes that hexadecimal digits print at the end.
fn add_digits(rt: &impl Abort, body: &mut Body, words: &str) {
    for word in words.split_whitespace() {
        let digits = word.as_bytes();
        let is_short = digits.len() <= 510;
        assert!(rt; is_short, "{word}");
        if is_short {
            append(rt, body, bytes_in(digits).expect(rt, word).as_slice());
        }
    }
}

/// Puts bytes at the end.
fn append(rt: &impl Abort, body: &mut Body, bytes: &[u8]) {
    let fits = body.as_slice().len() + bytes.len() <= 231;
    assert!(rt; fits, "{bytes:?} are too many");
    if fits {
        body.append(bytes);
    }
}
