//! What scripts are read as: rows of the language, and texts that just miss it.

use rdm_bus::{Action, Command, Fault, Want};
use rdm_crew::CrewStep;
use rdm_frame::{Load, Uid};
use rdm_script::{Script, ScriptError, ScriptSetup, parse};
use std::alloc::Global;
use std::process::Abort;

/// The setup of a script.
fn setup_in(alloc: Global, script: &str) -> Result<ScriptSetup, ScriptError> {
    match parse(alloc, script.as_bytes()) {
        Ok(script) => Ok(script.setup),
        Err(error) => Err(error),
    }
}

/// The first faulty line of a script is this one.
fn is_faulty(rt: &impl Abort, alloc: Global, script: &str, line: usize) {
    let read = setup_in(alloc, script);
    assert!(rt; read == Err(ScriptError::Line(line)), "{script:?}");
}

/// The only step of a script that has the plain setup.
fn step_in(rt: &impl Abort, alloc: Global, line: &str) -> CrewStep {
    let Script {
        setup,
        mut steps,
        ..
    } = parse(alloc, line.as_bytes()).expect(rt, "a script");
    assert!(rt; (setup, steps.len()) == (ScriptSetup::PLAIN, 1), "{line:?}");
    steps.pop().expect(rt, "a step")
}

/// Scripts, and the setups that they say: sub-devices, room for results, and what is wanted.
const SETUPS: &[(&str, u16, u16, Want)] = &[
    ("", 0, 8, Want::Advisory),
    ("# setup 1 1 error\ncollect\n", 0, 8, Want::Advisory),
    ("setup 0 8 advisory\n", 0, 8, Want::Advisory),
    ("setup 3 7 warning", 3, 7, Want::Warning),
    ("setup 3 7 error\ncollect\n", 3, 7, Want::Error),
    // Lines that say nothing may stand before it.
    (
        "# a comment\n\n \t\r\n#\n\tsetup  2 \t1 error \r\ncollect",
        2,
        1,
        Want::Error,
    ),
    ("setup 65535 65535 advisory", 65_535, 65_535, Want::Advisory),
    // Ten digits, zeros in front.
    (
        "setup 0000000512 0000000008 advisory",
        512,
        8,
        Want::Advisory,
    ),
    (
        "setup 0000065535 0000000000 advisory",
        65_535,
        0,
        Want::Advisory,
    ),
    ("setup 00 08 advisory", 0, 8, Want::Advisory),
    // What no device can be set up with is read all the same.
    ("setup 0 0 advisory", 0, 0, Want::Advisory),
    ("setup 513 8 advisory", 513, 8, Want::Advisory),
];

#[test]
fn reads_setups(rt: HostRuntime) {
    for (script, subs, queue_size, want) in SETUPS {
        let setup = ScriptSetup {
            subs: *subs,
            queue_size: *queue_size,
            want: *want,
        };
        assert!(rt; setup_in(rt.alloc(), script) == Ok(setup), "{script:?}");
    }
}

/// Whether a step is a poll, and what goes wrong at it.
fn fault_at(step: &CrewStep) -> (bool, Fault) {
    match step {
        CrewStep::Ask(_, fault) => (false, *fault),
        CrewStep::Collect(fault) => (true, *fault),
        CrewStep::Draw => (false, Fault::None),
        CrewStep::Settle(_) | CrewStep::Panel(_) => (false, Fault::None),
    }
}

/// Lines, and what goes wrong at the steps that they say.
const FAULTS: &[(&str, Fault)] = &[
    ("collect", Fault::None),
    ("collect lost-request", Fault::LostRequest),
    ("collect lost-reply", Fault::LostReply),
    ("collect bad-request 0 1", Fault::BadRequest(0, 1)),
    ("collect bad-request 255 255", Fault::BadRequest(255, 255)),
    ("collect bad-reply 2 1", Fault::BadReply(2, 1)),
    (
        "collect bad-reply 0000000255 0000000255",
        Fault::BadReply(255, 255),
    ),
    ("\tcollect \t bad-reply\t007 010 ", Fault::BadReply(7, 10)),
    ("get dev 0000 1000 -", Fault::None),
    ("get dev 0000 1000 - lost-reply", Fault::LostReply),
    ("set dev 0000 1000 01 lost-request", Fault::LostRequest),
    ("get all FFFF 1000 - bad-reply 24 1", Fault::BadReply(24, 1)),
    (
        "disc all 0000 0001 7FF0000000017FF000000001 bad-request 3 7",
        Fault::BadRequest(3, 7),
    ),
];

#[test]
fn reads_what_goes_wrong(rt: HostRuntime) {
    for (line, fault) in FAULTS {
        let step = step_in(&rt, rt.alloc(), line);
        let expected = (line.contains("collect"), *fault);
        assert!(rt; fault_at(&step) == expected, "{line:?}");
    }
}

/// Lines at which reports arrive or a change happens, and how often a `settle` and a `panel` may find none.
const ARRIVALS: &[(&str, Option<u32>)] = &[
    ("draw", None),
    ("\tdraw \t", None),
    ("settle 0", Some(0)),
    ("settle 100000000", Some(100_000_000)),
    ("settle 4294967295", Some(4_294_967_295)),
    (" settle\t0000000007", Some(7)),
    ("panel 0", Some(0)),
    ("panel 4294967295", Some(4_294_967_295)),
    (" panel\t0000000007", Some(7)),
];

/// Whether a step is a `panel`, and how often it may find nothing. A `draw` says no number.
fn empties_at(step: &CrewStep) -> Option<(bool, Option<u32>)> {
    match step {
        CrewStep::Draw => Some((false, None)),
        CrewStep::Settle(most) => Some((false, Some(*most))),
        CrewStep::Panel(most) => Some((true, Some(*most))),
        CrewStep::Ask(_, _) | CrewStep::Collect(_) => None,
    }
}

#[test]
fn reads_when_reports_arrive(rt: HostRuntime) {
    for (line, empties) in ARRIVALS {
        let step = step_in(&rt, rt.alloc(), line);
        let expected = Some((line.contains("panel"), *empties));
        assert!(rt; empties_at(&step) == expected, "{line:?}");
    }
}

/// Lines that no script has.
const FAULTY: &str = "setup
setup 0 8
setup 0 8 advisory 0
setup 0 8 advisory lost-reply
setup 65536 8 advisory
setup 0 65536 advisory
setup 4294967296 8 advisory
setup 00000000000 8 advisory
setup 0 00000000008 advisory
setup 9999999999 8 advisory
setup -1 8 advisory
setup +1 8 advisory
setup 0 +8 advisory
setup 1F 8 advisory
setup 0x1 8 advisory
setup 1_0 8 advisory
setup 0 8 all
setup 0 8 Advisory
setup 0 8 2
setup advisory 0 8
SETUP 0 8 advisory
Collect
collect -
collect dev
collect lost
collect LOST-REPLY
collect lost-request lost-reply
collect lost-request 1
collect lost-reply 1 1
collect bad-request
collect bad-request 1
collect bad-request 1 1 1
collect bad-request 256 1
collect bad-request 65536 1
collect bad-request 0 0
collect bad-request 0 256
collect bad-request 0 0000000000
collect bad-request 00000000000 1
collect bad-request -1 1
collect bad-reply
collect bad-reply 256 1
collect bad-reply 1 0
collect bad-reply 1 256
collect bad-reply 1 00000000001
collect bad-reply 1 a
collect bad-reply 1 +1
collect bad-reply 1 1 lost-reply
collect bad 1 1
Draw
draw 1
draw lost-reply
settle
settle 4294967296
settle 9999999999
settle 00000000001
settle +1
settle 1F
settle 1 1
settle 1 lost-reply
panel
panel 4294967296
panel -1
panel 1 1
Panel 1
lost-reply
bad-reply 1 1
lost-request collect
lost-request get dev 0000 1000 -
get dev 0000 1000 lost-request
get dev 0000 1000 lost-request -
get dev 0000 1000 - lost
get dev 0000 1000 - bad-request 1
get dev 0000 1000 - bad-request 1 0
get dev 0000 1000 - bad-request 1 2 3
get dev 0000 1000 - lost-reply lost-reply
";

#[test]
fn refuses_what_just_misses(rt: HostRuntime) {
    for line in FAULTY.lines() {
        is_faulty(&rt, rt.alloc(), line, 1);
    }
}

/// Scripts beside their first faulty line. A setup is a line of a script only where no line before it says anything.
const COUNTED: &[(&str, usize)] = &[
    ("collect\nsetup 0 8 advisory\n", 2),
    ("setup 0 8 advisory\nsetup 0 8 advisory", 2),
    (
        "# a comment\n\nsetup 0 8 advisory\n\ncollect\nsetup 1 1 error\nfoo",
        6,
    ),
    ("# a comment\nget dev 0000 1000 -\nsetup 0 8 advisory", 3),
    ("setup 0 8 advisory\n\nfoo\n", 3),
    ("\n\nsetup 0 8\ncollect\nsetup 0 8 advisory", 3),
];

#[test]
fn names_the_first_faulty_line(rt: HostRuntime) {
    for (script, number) in COUNTED {
        is_faulty(&rt, rt.alloc(), script, *number);
    }
}

/// A script of one step, with letters of either case.
const MIXED: &[u8] = b"set aBcD:Ef012345 Fa01 bcDE aBcDEf01 bad-reply 9 9";

#[test]
fn reads_digits_in_either_case(rt: HostRuntime) {
    let expected = Command {
        dst: Uid {
            maker: 0xABCD,
            device: 0xEF01_2345,
        },
        action: Action::Set,
        sub: 0xFA01,
        pid: 0xBCDE,
        load: Load::of(&[0xAB, 0xCD, 0xEF, 0x01]),
    };
    let script = parse(rt.alloc(), MIXED).expect(&rt, "a script");
    assert!(rt;
        matches!(script.steps.as_slice(), [CrewStep::Ask(command, _)] if *command == expected)
    );
}
