//! What friendly lines say, and what is told of faulty ones.

use rdm_crew::CrewStep;
use rdm_frame::Uid;
use rdm_script::{Dialect, ScriptError, Spelling, parse, parse_as, refusal_at};
use std::alloc::Global;
use std::process::Abort;

/// The device of the scripts.
const DEVICE: Uid = Uid {
    maker: 0x7FF0,
    device: 0x0000_0001,
};

/// Whether two steps are the same.
fn is_same(step: &CrewStep, other: &CrewStep) -> bool {
    match (step, other) {
        (CrewStep::Ask(command, fault), CrewStep::Ask(same, as_bad)) => {
            command == same && fault == as_bad
        }
        (CrewStep::Draw, CrewStep::Draw) => true,
        _ => false,
    }
}

/// A friendly script says the same as a strict one.
fn says_the_same(rt: &impl Abort, alloc: Global, text: &str, strict: &str) {
    let dialect = Dialect::of(DEVICE, Spelling::Friendly);
    let friendly = parse_as(alloc, &dialect, text.as_bytes()).expect(rt, "a friendly script");
    let other = parse(alloc, strict.as_bytes()).expect(rt, "a strict script");
    assert!(rt;
        (friendly.setup, friendly.steps.len()) == (other.setup, other.steps.len()),
        "{text:?}"
    );
    let mut pairs = friendly.steps.iter().zip(other.steps.iter());
    assert!(rt;
        pairs.all(|(step, wanted)| is_same(step, wanted)),
        "{text:?}"
    );
}

/// What is told of a faulty text.
fn is_refused(rt: &impl Abort, alloc: Global, text: &str, wanted: &str) {
    let dialect = Dialect::of(DEVICE, Spelling::Friendly);
    match parse_as(alloc, &dialect, text.as_bytes()) {
        Err(ScriptError::Line(line)) => {
            let refusal = refusal_at(&dialect, text.as_bytes(), line);
            let told = format!(in alloc; "{refusal}").expect(rt, "memory");
            assert!(rt; told.as_str() == wanted, "{text:?}: {told}");
        }
        _ => assert!(rt; false, "{text:?} has a faulty line"),
    }
}

/// Friendly scripts, and strict ones that say the same: names, sub-devices and texts.
const PAIRS: &[(&str, &str)] = &[
    ("", ""),
    ("# \"\r\n\n  draw\n", "# \"\r\n\n  draw\n"),
    ("get dev 0000  1000 -", "get dev 0000  1000 -"),
    ("get dev 0000 IDENTIFY_DEVICE -", "get dev 0000 1000 -"),
    ("get dev root QUEUED_MESSAGE 01", "get dev 0000 0020 01"),
    (
        "\tget dev 0 PRESET_PLAYBACK  - lost-reply",
        "get dev 0000 1031 - lost-reply",
    ),
    (
        "disc dev root DISC_MUTE -\nget dev root REAL_TIME_CLOCK -",
        "disc dev 0000 0002 -\nget dev 0000 0603 -",
    ),
    (
        "disc all root DISC_UNIQUE_BRANCH 000000000000FFFFFFFFFFFF",
        "disc all 0000 0001 000000000000FFFFFFFFFFFF",
    ),
    ("get all 512 1000 -", "get all 0200 1000 -"),
    (
        "get all 0100 1000 -\nget dev 100 1000 -",
        "get all 0100 1000 -\nget dev 0064 1000 -",
    ),
    (
        "set dev 0000 0082 \"Front truss 1\"",
        "set dev 0000 0082 46726F6E742074727573732031",
    ),
    ("set dev 0000 0082 \"\"", "set dev 0000 0082 -"),
    (
        "set dev 0000 0082 \"# \" bad-reply 3 1\r\n",
        "set dev 0000 0082 2320 bad-reply 3 1\n",
    ),
    (
        "set 7ff0:00000001 root 0082 ab",
        "set 7ff0:00000001 0000 0082 AB",
    ),
    (
        " find\t",
        "disc all 0000 0003 -\ndisc all 0000 0001 000000000000FFFFFFFFFFFF\ndisc dev 0000 0002 -\ndisc all 0000 0001 000000000000FFFFFFFFFFFF",
    ),
];

#[test]
fn friendly_words(rt: HostRuntime) {
    for (text, strict) in PAIRS {
        says_the_same(&rt, rt.alloc(), text, strict);
    }
}

/// Faulty words, each with its line, its column and what was wanted there.
const REFUSALS: &[(&str, &str)] = &[
    (
        "draw\nget dev 000 1000 -",
        "2:9: \"000\" isn't a valid sub-device: expected 4 hexadecimal digits, root, or 0 to 512",
    ),
    (
        "get dev 513 1000 -",
        "1:9: \"513\" isn't a valid sub-device: expected 4 hexadecimal digits, root, or 0 to 512",
    ),
    (
        "get dev 01 1000 -",
        "1:9: \"01\" isn't a valid sub-device: expected 4 hexadecimal digits, root, or 0 to 512",
    ),
    (
        "\r\n  \nfoo\n",
        "3:1: \"foo\" isn't a valid step: expected setup, get, set, disc, find, collect, draw, settle, panel or expect",
    ),
    (
        "draw\nsetup 0 8 advisory",
        "2:1: \"setup\" comes too late: expected it before all other steps",
    ),
    (
        "setup 65536 8 advisory",
        "1:7: \"65536\" isn't a valid number of sub-devices: expected 0 to 65535",
    ),
    (
        "setup 1 8x advisory",
        "1:9: \"8x\" isn't a valid number of results: expected 0 to 65535",
    ),
    (
        "setup 1 8 all",
        "1:11: \"all\" isn't a valid status type: expected advisory, warning or error",
    ),
    (
        "get me 0000 1000 -",
        "1:5: \"me\" isn't a valid destination: expected dev, all, maker, or a UID such as 7FF0:00000001",
    ),
    (
        "get dev 0000 IDENTIFY -",
        "1:14: \"IDENTIFY\" isn't a valid parameter: expected 4 hexadecimal digits, or a name in E1.20 such as DEVICE_INFO",
    ),
    (
        "get dev 0000 1000",
        "1:18: a word is missing: expected -, two hexadecimal digits for each byte, or a text in double quotes",
    ),
    (
        "set dev 0000 1000 1",
        "1:19: \"1\" isn't valid data: expected -, two hexadecimal digits for each byte, or a text in double quotes",
    ),
    (
        "set dev 0000 0082 \"ab",
        "1:19: \"ab\" isn't closed: expected a double quote at the end of the text",
    ),
    (
        "set dev 0000 0082 \"a\tb\"",
        "1:19: \"a\\x09b\" isn't valid text: expected printable ASCII characters in double quotes",
    ),
    (
        "get dev 0000 1000 - lost",
        "1:21: \"lost\" isn't a valid fault: expected lost-request, lost-reply, bad-request or bad-reply",
    ),
    (
        "collect bad-reply 256 1",
        "1:19: \"256\" isn't a valid slot: expected 0 to 255",
    ),
    (
        "collect bad-reply 1 0",
        "1:21: \"0\" isn't a valid raise: expected 1 to 255",
    ),
    (
        "draw now",
        "1:6: \"now\" is one word too many: expected the end of the line",
    ),
    (
        "find\nfind now",
        "2:6: \"now\" is one word too many: expected the end of the line",
    ),
    (
        "draw\n  finds",
        "2:3: \"finds\" isn't a valid step: expected setup, get, set, disc, find, collect, draw, settle, panel or expect",
    ),
    (
        "get dev root 1000 - lost-reply 1",
        "1:32: \"1\" is one word too many: expected the end of the line",
    ),
    (
        "get dev root 1000 - bad-reply 3 4 5",
        "1:35: \"5\" is one word too many: expected the end of the line",
    ),
    (
        "get dev 0000 1000 - bad-reply 3 4 lost-reply",
        "1:35: \"lost-reply\" is one word too many: expected the end of the line",
    ),
    (
        "get dev 0000 1000 - bad-reply 3 4 5 6",
        "1:35: \"5\" is one word too many: expected the end of the line",
    ),
    (
        "collect bad-reply 3 4 5",
        "1:23: \"5\" is one word too many: expected the end of the line",
    ),
    (
        "setup 0 8 advisory 1",
        "1:20: \"1\" is one word too many: expected the end of the line",
    ),
    ("settle", "1:7: a word is missing: expected 0 to 4294967295"),
    (
        "panel -1",
        "1:7: \"-1\" isn't a valid count: expected 0 to 4294967295",
    ),
];

#[test]
fn refusals(rt: HostRuntime) {
    for (text, wanted) in REFUSALS {
        is_refused(&rt, rt.alloc(), text, wanted);
    }
}
