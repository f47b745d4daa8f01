//! Why a script isn't played to its end, and at which line.

use super::scripts::long;
use super::staged::{OTHERS, stage};
use rdm_crew::RunError;
use rdm_frame::Uid;
use rdm_script::{
    ScriptError, Spelling, Unplayed, play_demonstration, play_script, ruled_parts_fit,
};
use std::alloc::{AllocError, Global};
use std::process::Abort;
use std::sync::Wait;
use std::thread::Threads;

/// Friendly scripts, and how each stops, if it does.
const ROWS: &[(&str, Option<Unplayed>)] = &[
    // The setup comes first, whatever stands behind it.
    (
        "# so\nsetup 600 8 error\nget dev root DEVICE_INFO -\nsettle 3\nget dev root 0030 00\nget dev 0000 0020 01",
        Some(Unplayed::Stopped(RunError::BadSetup, Some(2))),
    ),
    // Of two commands that can't be sent the first is named.
    (
        "# so\nsetup 2 8 error\nget dev root DEVICE_INFO -\nsettle 3\nget dev root 0030 00\nget dev 0000 0020 01",
        Some(Unplayed::Stopped(RunError::Reserved, Some(5))),
    ),
    (
        "\n# the first step is on the fourth line\n\t\nget dev root QUEUED_MESSAGE 01\r\n",
        Some(Unplayed::Stopped(RunError::Reserved, Some(4))),
    ),
    (
        "collect\n  \nsetup 0 8 error",
        Some(Unplayed::Faulty(ScriptError::Line(3))),
    ),
    // The four steps of a search are on one line.
    (
        "# so\nfind\n\nfind\nget dev root STATUS_MESSAGES 00\nfind",
        Some(Unplayed::Stopped(RunError::Reserved, Some(5))),
    ),
    (
        "find\n find 1\nget dev root STATUS_MESSAGES 00",
        Some(Unplayed::Faulty(ScriptError::Line(2))),
    ),
    // Setups of which there can be no device.
    (
        "\n\nsetup 0 0 error\n",
        Some(Unplayed::Stopped(RunError::BadSetup, Some(3))),
    ),
    (
        "setup 0 1025 error",
        Some(Unplayed::Stopped(RunError::BadSetup, Some(1))),
    ),
    // Where no job is outstanding, a settle doesn't give up.
    ("settle 1\nsettle 2\n", None),
    ("", None),
];

/// Why a friendly script isn't played to its end on the fixture of the demonstration.
fn stop_of<T>(rt: T, alloc: Global, script: &str) -> Option<Unplayed>
where
    T: Threads + Wait + Copy + Send + 'static,
{
    match play_demonstration(rt, alloc, Spelling::Friendly, script.as_bytes()) {
        Ok(_) => None,
        Err(why) => Some(why),
    }
}

#[test]
fn stops_are_told_with_their_lines(rt: HostRuntime) {
    for (script, why) in ROWS {
        assert!(rt; stop_of(rt, rt.alloc(), script) == *why, "{script:?}");
    }
}

/// The data of the first long command don't fit a frame; those of the second neither, and the last is reserved.
#[test]
fn long_data_are_told_with_their_line(rt: HostRuntime) {
    let front = "draw\n# 232 bytes\nset dev root 8123 ";
    let script = long(rt.alloc(), front, "AA", 232, "\nget dev root 0030 00\n");
    let why = Unplayed::Stopped(RunError::TooLong, Some(3));
    let script = script.expect(&rt, "memory");
    assert!(rt; stop_of(rt, rt.alloc(), script.as_str()) == Some(why));
}

/// A script with a settle that may give up, the line of it, and how the script stops if it doesn't.
const SETTLES: &[(&str, usize, Option<Unplayed>)] = &[
    (
        "# so\nsetup 2 8 error\nset dev root LAMP_STATE 03\nsettle 0\nget dev root 0030 00",
        4,
        Some(Unplayed::Stopped(RunError::Reserved, Some(5))),
    ),
    // Of two the second gives up: there is no job when the first looks.
    (
        "settle 0\n\nset dev root LAMP_STATE 03\nsettle 0\n",
        4,
        None,
    ),
    // Of two the first gives up.
    (
        "set dev root LAMP_STATE 03\nsettle 0\nsettle 100000000",
        2,
        None,
    ),
];

/// A settle gives up. The report may be there at once, so it is tried again and again.
fn gives_up<T>(rt: T, alloc: Global, script: &str, line: usize, otherwise: Option<Unplayed>) -> bool
where
    T: Threads + Wait + Abort + Copy + Send + 'static,
{
    for _ in 0..1_000 {
        let why = stop_of(rt, alloc, script);
        if why == Some(Unplayed::Stopped(RunError::Unsettled, Some(line))) {
            return true;
        }
        assert!(rt; why == otherwise, "{script:?}");
    }
    false
}

#[test]
fn settles_in_vain_are_told_with_their_lines(rt: HostRuntime) {
    for (script, line, otherwise) in SETTLES {
        assert!(rt;
            gives_up(rt, rt.alloc(), script, *line, *otherwise),
            "{script:?}"
        );
    }
}

/// Why a script isn't played to its end on the fixture with this UID.
fn stop_at<T>(rt: T, alloc: Global, device: Uid, script: &str) -> Option<Unplayed>
where
    T: Threads + Wait + Copy + Send + 'static,
{
    ruled_parts_fit();
    match play_script(rt, alloc, script.as_bytes(), stage(device)) {
        Ok(_) => None,
        Err(why) => Some(why),
    }
}

/// No script is played on a fixture that has the UID of the controller, or a broadcast. Without a setup no line is named.
#[test]
fn bad_setups_may_have_no_line(rt: HostRuntime) {
    for device in OTHERS {
        for (script, line) in [("draw\n", None), ("# so\nsetup 0 8 error\n", Some(2))] {
            let why = stop_at(rt, rt.alloc(), *device, script);
            assert!(rt; why == Some(Unplayed::Stopped(RunError::BadSetup, line)));
        }
    }
}

/// Want of memory is of no line.
#[test]
fn want_of_memory_has_no_line(rt: HostRuntime) {
    let told = (
        Unplayed::from(AllocError),
        Unplayed::from(ScriptError::OutOfMemory),
    );
    assert!(rt; told == (Unplayed::OutOfMemory, Unplayed::OutOfMemory));
}
