//! Names of parameters of the maker's own in friendly scripts.

use arrayvec::ArrayVec;
use rdm_crew::CrewStep;
use rdm_device::{ParameterDef, Rights, Shape};
use rdm_frame::{Text, Uid};
use rdm_script::{Dialect, ScriptError, Spelling, parse_as, refusal_at};
use std::alloc::Global;
use std::process::Abort;

/// The device of the scripts.
const DEVICE: Uid = Uid {
    maker: 0x7FF0,
    device: 0x0000_0001,
};

/// A parameter of this PID and name.
fn named(pid: u16, name: Text) -> ParameterDef {
    ParameterDef {
        pid,
        rights: Rights::Both,
        shape: Shape::Byte,
        low: 0,
        high: 2,
        fields: ArrayVec::new(),
        start: Text::of(&[0]),
        unit: 0,
        prefix: 0,
        name,
        resets: true,
    }
}

/// Four parameters, of which two have one name and one has a name of the standard.
fn parameters() -> [ParameterDef; 4] {
    [
        named(0x8001, Text::of(b"Fan mode")),
        named(0x8002, Text::of(b"F")),
        named(0x8003, Text::of(b"Fan mode")),
        named(0x8004, Text::of(b"LAMP_STATE")),
    ]
}

/// What scripts say on a fixture with these.
fn dialect(own: &[ParameterDef], spelling: Spelling) -> Dialect<'_> {
    Dialect {
        device: DEVICE,
        spelling,
        own,
    }
}

/// Words, and the PID that each says.
const NAMES: &[(&str, u16)] = &[
    ("\"Fan mode\"", 0x8001),
    ("\"F\"", 0x8002),
    ("8003", 0x8003),
    ("\"LAMP_STATE\"", 0x8004),
    ("LAMP_STATE", 0x0403),
];

#[test]
fn names_in_double_quotes(rt: HostRuntime) {
    let own = parameters();
    let dialect = dialect(own.as_slice(), Spelling::Friendly);
    for (word, pid) in NAMES {
        let text = format!(in rt.alloc(); "set dev root {word} 02").expect(&rt, "memory");
        says(&rt, rt.alloc(), &dialect, &text, *pid);
    }
}

/// The only step of a script is a command of this parameter.
fn says(rt: &impl Abort, alloc: Global, dialect: &Dialect<'_>, text: &str, pid: u16) {
    let script = parse_as(alloc, dialect, text.as_bytes()).expect(rt, "a script");
    match script.steps.as_slice() {
        [CrewStep::Ask(command, _)] => assert!(rt; command.pid == pid, "{text}"),
        _ => assert!(rt; false, "{text} is a command"),
    }
}

/// Words that are the name of no parameter.
const NO_NAMES: &[&str] = &[
    "\"fan mode\"",
    "\"Fan mode",
    "\"\"",
    "Fan",
    "\"DEVICE_INFO\"",
];

/// A name that no parameter has, or one in strict words, is refused at its column.
#[test]
fn names_of_no_parameter(rt: HostRuntime) {
    let own = parameters();
    let friendly = dialect(own.as_slice(), Spelling::Friendly);
    for word in NO_NAMES {
        let text = format!(in rt.alloc(); "draw\nset dev root {word} 02").expect(&rt, "memory");
        is_refused(&rt, rt.alloc(), &friendly, &text);
    }
    let strict = dialect(own.as_slice(), Spelling::Strict);
    assert!(rt; parse_as(rt.alloc(), &strict, b"set dev 0000 \"F\" 02").is_err());
}

/// The second line of a script is refused at its column 14.
fn is_refused(rt: &impl Abort, alloc: Global, dialect: &Dialect<'_>, text: &str) {
    match parse_as(alloc, dialect, text.as_bytes()) {
        Err(ScriptError::Line(line)) => {
            let refusal = refusal_at(dialect, text.as_bytes(), line);
            assert!(rt; (refusal.line, refusal.column) == (2, 14), "{text}");
        }
        _ => assert!(rt; false, "{text} has a faulty line"),
    }
}
