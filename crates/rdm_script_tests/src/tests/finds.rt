//! A search of the line, as a friendly script says it.

use super::played;
use rdm_frame::{Uid, encode};
use rdm_script::{
    Dialect, ProgramError, ScriptError, Spelling, parse, parse_as, play_demonstration,
};
use rdm_search::Search;
use rdm_trace::{Line, text_of};
use std::process::Abort;

const DEVICE: Uid = Uid {
    maker: 0x7FF0,
    device: 1,
};

const CONTROLLER: Uid = Uid {
    maker: 0x7FF0,
    device: 2,
};

/// Friendly scripts, and their traces. The frames were worked out from the packet format, by another program.
const TRACES: &[(&str, &str)] = &[
    (
        "find",
        "send CC0118FFFFFFFFFFFF7FF0000000020001000000100003000864
reply none
heard nothing
send CC0124FFFFFFFFFFFF7FF00000000201010000001000010C000000000000FFFFFFFFFFFF0E75
reply FEFEFEFEFEFEFEAAFF7FFAF5AA55AA55AA55AB55AF57EA7F
heard ignored
send CC01187FF0000000017FF00000000202010000001000020003DB
reply CC011A7FF0000000027FF000000001020000000011000202000003DF
heard reply
found 7FF0:00000001
send CC0124FFFFFFFFFFFF7FF00000000203010000001000010C000000000000FFFFFFFFFFFF0E77
reply none
heard nothing
end
",
    ),
    // Behind other steps, on a fixture that says it has sub-devices. A comment says no search.
    (
        "# find\nsetup 2 8 advisory\nget dev root IDENTIFY_DEVICE -\n\t find \r\nget dev root 1000 -\n",
        "send CC01187FF0000000017FF00000000200010000002010000003F7
reply CC01197FF0000000027FF0000000010000000000211000010003F9
heard reply
send CC0118FFFFFFFFFFFF7FF0000000020101000000100003000865
reply none
heard nothing
send CC0124FFFFFFFFFFFF7FF00000000202010000001000010C000000000000FFFFFFFFFFFF0E76
reply FEFEFEFEFEFEFEAAFF7FFAF5AA55AA55AA55AB55AF57EA7F
heard ignored
send CC01187FF0000000017FF00000000203010000001000020003DC
reply CC011A7FF0000000027FF000000001030000000011000202000203E2
heard reply
found 7FF0:00000001
send CC0124FFFFFFFFFFFF7FF00000000204010000001000010C000000000000FFFFFFFFFFFF0E78
reply none
heard nothing
send CC01187FF0000000017FF00000000205010000002010000003FC
reply CC01197FF0000000027FF0000000010500000000211000010003FE
heard reply
end
",
    ),
    // Where a search is said, each answer to a DISC_MUTE that is heard tells whom it is from.
    (
        "disc dev root DISC_MUTE -\nfind\ndisc dev root DISC_MUTE - lost-reply\ndisc dev root DISC_MUTE -",
        "send CC01187FF0000000017FF00000000200010000001000020003D9
reply CC011A7FF0000000027FF000000001000000000011000202000003DD
heard reply
found 7FF0:00000001
send CC0118FFFFFFFFFFFF7FF0000000020101000000100003000865
reply none
heard nothing
send CC0124FFFFFFFFFFFF7FF00000000202010000001000010C000000000000FFFFFFFFFFFF0E76
reply FEFEFEFEFEFEFEAAFF7FFAF5AA55AA55AA55AB55AF57EA7F
heard ignored
send CC01187FF0000000017FF00000000203010000001000020003DC
reply CC011A7FF0000000027FF000000001030000000011000202000003E0
heard reply
found 7FF0:00000001
send CC0124FFFFFFFFFFFF7FF00000000204010000001000010C000000000000FFFFFFFFFFFF0E78
reply none
heard nothing
send CC01187FF0000000017FF00000000205010000001000020003DE lost-reply
reply CC011A7FF0000000027FF000000001050000000011000202000003E2
heard nothing
send CC01187FF0000000017FF00000000206010000001000020003DF
reply CC011A7FF0000000027FF000000001060000000011000202000003E3
heard reply
found 7FF0:00000001
end
",
    ),
    // Where none is, none does.
    (
        "# find\ndisc dev root DISC_MUTE -\n",
        "send CC01187FF0000000017FF00000000200010000001000020003D9
reply CC011A7FF0000000027FF000000001000000000011000202000003DD
heard reply
end
",
    ),
];

#[test]
fn finds_are_told(rt: HostRuntime) {
    for (script, trace) in TRACES {
        let lines = play_demonstration(rt, rt.alloc(), Spelling::Friendly, script.as_bytes());
        let lines = lines.expect(&rt, "a run");
        let text = text_of(rt.alloc(), lines.as_slice()).expect(&rt, "memory");
        assert!(rt; text.as_slice() == trace.as_bytes(), "{script:?}");
    }
}

/// A strict script says no search.
#[test]
fn strict_scripts_find_nobody(rt: HostRuntime) {
    for (script, line) in [("find", 1), ("draw\n# find\nfind\n", 3)] {
        let (outcome, written) = played(rt, rt.alloc(), script.as_bytes());
        let faulty = ProgramError::Script(ScriptError::Line(line));
        assert!(rt; (outcome, written.len()) == (Err(faulty), 0), "{script:?}");
        assert!(rt; parse(rt.alloc(), script.as_bytes()).is_err(), "{script:?}");
    }
}

/// All four steps of a search are on its line.
#[test]
fn a_search_is_on_one_line(rt: HostRuntime) {
    let text = b"setup 0 8 error\n\nfind\ndraw\n#\nfind";
    let script = parse_as(rt.alloc(), &Dialect::of(DEVICE, Spelling::Friendly), text);
    let script = script.expect(&rt, "a script");
    assert!(rt; script.lines.as_slice() == [3, 3, 3, 3, 4, 6, 6, 6, 6].as_slice());
}

/// A console's search of a line that has this fixture alone asks what `find` asks, to the byte, and finds whom the trace tells.
#[test]
fn a_find_is_a_search(rt: HostRuntime) {
    let lines = play_demonstration(rt, rt.alloc(), Spelling::Friendly, b"find");
    let lines = lines.expect(&rt, "a run");
    let mut search = Search::new(rt.alloc(), CONTROLLER, 4);
    for line in lines.iter() {
        goes_on(&rt, &mut search, line);
    }
    asks(&rt, &mut search, None);
    assert!(rt; search.found().len() == 1);
    assert!(rt; search.found().iter().all(|found| found.uid == DEVICE));
}

/// A search asks what a line sends, and hears what it is answered.
fn goes_on(rt: &impl Abort, search: &mut Search, line: &Line) {
    match line {
        Line::Send { bytes, .. } => asks(rt, search, Some(bytes.as_slice())),
        Line::Reply(Some(reply)) => hears(rt, search, reply.as_slice()),
        Line::Reply(None) => hears(rt, search, &[]),
        Line::Found(uid) => assert!(rt; *uid == DEVICE),
        _ => {}
    }
}

/// A search asks this next, or nothing any more.
fn asks(rt: &impl Abort, search: &mut Search, bytes: Option<&[u8]>) {
    let next = search.next().expect(rt, "memory");
    let wire = next.map(|frame| encode(&frame));
    assert!(rt; wire.as_ref().map(|wire| wire.as_slice()) == bytes);
}

fn hears(rt: &impl Abort, search: &mut Search, bytes: &[u8]) {
    assert!(rt; search.hear(bytes).is_ok());
}
