//! The words that errors print.

use super::*;
use rdm_outbox::Job;
use rdm_params::{Change, Outcome, Verb, Work};
use rdm_responder::{Astray, NewError, NoRoom, Report};

/// Why there is no responder, and the words for it.
const NEW_ERRORS: &[(NewError, &str)] = &[
    (NewError::OutOfMemory, "out of memory"),
    (NewError::BadProfile, "bad profile"),
    (NewError::BadSize, "bad queue size"),
    (NewError::BadUid, "bad UID"),
];

/// A report that comes back.
const ASTRAY: Astray = Astray {
    report: Report {
        job: Job {
            number: 0,
            work: Work {
                sub: 0,
                pid: 0x0403,
                verb: Verb::Set,
                arg: 1,
            },
        },
        outcome: Outcome::Done,
    },
};

/// A change that comes back.
const NO_ROOM: NoRoom = NoRoom {
    change: Change::Start(1),
};

#[test]
fn errors_say_what_is_wrong(rt: HostRuntime) {
    for (error, words) in NEW_ERRORS {
        let said = format!(in rt.alloc(); "{error}").expect(&rt, "memory");
        assert!(rt; said.as_str() == *words, "{said}, not {words}");
    }
    let said = format!(in rt.alloc(); "{ASTRAY}, {NO_ROOM}").expect(&rt, "memory");
    assert!(rt; said.as_str() == "astray, no room");
}
