//! What no clause says: that the clauses say what the standard and the profile mean. The expected bytes are worked out
//! by hand. Rows are text, which `plays` reads.

use play::plays;
use rdm_frame::Body;
use rdm_outbox::*;
use rdm_params::{Ask, Entry, Message, Severity, Verb, Work, Worker, Workers};
use std::alloc::Global;
use std::process::Abort;

mod newest;
mod play;
mod words;

/// SET LAMP_STATE, which is for worker 0.
const LAMP: Work = Work {
    sub: 0,
    pid: 0x0403,
    verb: Verb::Set,
    arg: 1,
};

/// SET PERFORM_SELFTEST, which is for worker 1.
const SELF_TEST: Work = Work {
    sub: 0,
    pid: 0x1020,
    verb: Verb::Set,
    arg: 1,
};

/// An outbox of these settings.
fn made(rt: &impl Abort, alloc: Global, settings: &Settings) -> Outbox {
    Outbox::with_settings(alloc, settings)
        .ok()
        .expect(rt, "a good size")
}

/// Plays rows on a new outbox with room for so many messages, and for so many jobs of a worker.
fn plays_new(rt: &impl Abort, alloc: Global, (q, jobs): (u16, u32), rows: &str) {
    let outbox = Outbox::new(alloc, q, jobs);
    plays(rt, alloc, &mut outbox.ok().expect(rt, "a good size"), rows);
}

/// The response to a SET of this parameter at the root.
fn set_response(pid: u16) -> Message {
    Message {
        class: 0x31,
        pid,
        sub: 0,
        body: Body::new(),
    }
}

/// A status entry of sub-device 1 with the values 2 and `v2`.
fn entry(severity: Severity, v2: u16) -> Entry {
    Entry {
        sub: 1,
        severity,
        id: 0x8001,
        v1: 2,
        v2,
    }
}

/// How many messages and jobs there is room for, and whether there is such an outbox.
const SIZES: &[(u16, u32, bool)] = &[(0, 1, false), (1025, 1, false), (1, 0, false), (1, 1, true)];

/// The same, with a number of status entries behind them.
const ENTRIES: &[(u16, u32, u16, bool)] = &[
    (1, 1, 0, false),
    (1, 1, 1025, false),
    (1, 1, 0xFFFF, false),
    (0, 1, 2, false),
    (1, 0, 2, false),
    (1, 1, 1, true),
    (1, 1, 2, true),
    (1, 1, 64, true),
    (1, 1, 1023, true),
    (1, 1, MOST_ENTRIES, true),
];

/// There is such an outbox, or its sizes are bad.
fn is_made(rt: &impl Abort, alloc: Global, (q, jobs): (u16, u32), good: bool) {
    let refusal = if good { None } else { Some(NewError::BadSize) };
    assert!(rt; Outbox::new(alloc, q, jobs).err() == refusal, "{q} {jobs}");
}

/// The same with a number of status entries.
fn is_made_with(rt: &impl Abort, alloc: Global, row: (u16, u32, u16, bool)) {
    let (q, jobs, entries, good) = row;
    let settings = Settings {
        entries,
        ..Settings::usual(q, jobs)
    };
    let refusal = if good { None } else { Some(NewError::BadSize) };
    let told = Outbox::with_settings(alloc, &settings).err();
    assert!(rt; told == refusal, "{q} {jobs} {entries}");
}

const NUMBERS: &str = "
reserve lamp = 0
finish 0 0403 =
dispense advisory = fresh 31 0403
reserve lamp = none
reserve self-test = 0
";

#[test]
fn sizes_and_numbers(rt: HostRuntime) {
    for (q, jobs, good) in SIZES {
        is_made(&rt, rt.alloc(), (*q, *jobs), *good);
    }
    for q in 1..=MOST_WAITING {
        is_made(&rt, rt.alloc(), (q, 1), true);
    }
    for row in ENTRIES {
        is_made_with(&rt, rt.alloc(), *row);
    }
    plays_new(&rt, rt.alloc(), (2, 1), NUMBERS);
}

/// The number of the first job, and what an outbox with room for three jobs of a worker does: after the greatest number comes 0. Each
/// worker is given as many as it may be, whatever their numbers.
const FIRST_JOBS: &[(u32, &str)] = &[
    (
        0,
        "reserve lamp = 0
reserve self-test = 0
reserve lamp = 1
reserve self-test = 1
reserve lamp = 2
reserve self-test = 2
reserve lamp = none
oldest 1 = 0 1020
finish 1 1020 =
oldest 1 = 1 1020
reserve self-test = none
",
    ),
    (
        1000,
        "reserve lamp = 1000
reserve self-test = 1000
reserve lamp = 1001
reserve self-test = 1001
reserve lamp = 1002
reserve self-test = 1002
reserve lamp = none
oldest 1 = 1000 1020
finish 1 1020 =
oldest 1 = 1001 1020
reserve self-test = none
",
    ),
    (
        0xFFFF_FFFE,
        "reserve lamp = 4294967294
reserve self-test = 4294967294
reserve lamp = 4294967295
reserve self-test = 4294967295
reserve lamp = 0
reserve self-test = 0
reserve lamp = none
oldest 1 = 4294967294 1020
finish 1 1020 =
oldest 1 = 4294967295 1020
reserve self-test = none
",
    ),
    (
        0xFFFF_FFFF,
        "reserve lamp = 4294967295
reserve self-test = 4294967295
reserve lamp = 0
reserve self-test = 0
reserve lamp = 1
reserve self-test = 1
reserve lamp = none
oldest 1 = 4294967295 1020
finish 1 1020 =
oldest 1 = 0 1020
reserve self-test = none
",
    ),
];

#[test]
fn numbers_begin_where_they_are_told_to(rt: HostRuntime) {
    for (first, rows) in FIRST_JOBS {
        let settings = Settings {
            entries: 1,
            first_job: *first,
            ..Settings::usual(8, 3)
        };
        plays(&rt, rt.alloc(), &mut made(&rt, rt.alloc(), &settings), rows);
    }
}

/// A choice by which the lamp is worker 1's, and the self tests are worker 0's: the other way round than usual.
const TURNED: Workers = Workers {
    lamp: Worker::Second,
    power: Worker::Second,
    self_test: Worker::First,
    sensor: Worker::First,
};

const TURNED_JOBS: &str = "
reserve lamp = 5
oldest 0 = none
oldest 1 = 5 0403
reserve self-test = 5
oldest 0 = 5 1020
finish 1 0403 =
oldest 1 = none
";

#[test]
fn jobs_have_the_workers_of_the_choice(rt: HostRuntime) {
    let settings = Settings {
        q: 8,
        entries: 1,
        jobs: 3,
        first_job: 5,
        workers: TURNED,
    };
    plays(
        &rt,
        rt.alloc(),
        &mut made(&rt, rt.alloc(), &settings),
        TURNED_JOBS,
    );
}

/// `counts` are the jobs that are outstanding, the messages that wait, and how many of them a frame says.
const SHARED: &str = "
reserve lamp = 0
reserve lamp = 1
reserve self-test = none
counts = 2 0 0
oldest 0 = 0 0403
oldest 1 = none
oldest 2 = none
finish 0 0403 =
oldest 0 = 1 0403
counts = 1 1 1
reserve self-test = none
answer error = fresh
last = 31 0403
reserve self-test = 0
";

#[test]
fn jobs_and_messages_share_the_room(rt: HostRuntime) {
    plays_new(&rt, rt.alloc(), (2, 9), SHARED);
}

/// Before there was a message, the last one is a status message without entries. Then two equal messages wait, and each is asked for again.
const REPEATED: &str = "
status last = again 21 0030
reserve lamp = 0
finish 0 0403 =
reserve lamp = 1
finish 0 0403 =
dispense advisory = fresh 31 0403
counts = 0 1 1
dispense last = again 31 0403
counts = 0 1 1
dispense advisory = fresh 31 0403
counts = 0 0 0
dispense last = again 31 0403
counts = 0 0 0
dispense advisory = fresh 21 0030
counts = 0 0 0
dispense last = again 21 0030
counts = 0 0 0
";

#[test]
fn a_repeat_between_two_equal_messages(rt: HostRuntime) {
    plays_new(&rt, rt.alloc(), (2, 2), REPEATED);
}

#[test]
fn a_ring_of_three_turns_ten_times(rt: HostRuntime) {
    let outbox = Outbox::new(rt.alloc(), 3, 60);
    let mut outbox = outbox.ok().expect(&rt, "a good size");
    plays(
        &rt,
        rt.alloc(),
        &mut outbox,
        "reserve lamp = 0\nreserve lamp = 1",
    );
    for turn in 0..30_u16 {
        turns(&rt, rt.alloc(), &mut outbox, turn);
    }
    assert!(rt; outbox.waiting_ring().is_empty() && outbox.job_ring(2).is_none());
}

/// A job is reserved, and the oldest one ends and its message is collected.
fn turns(rt: &impl Abort, alloc: Global, outbox: &mut Outbox, turn: u16) {
    let number = turn.saturating_add(2);
    let rows = format!(in alloc;
        "reserve lamp = {number}
reserve lamp = none
ring 0 = {turn}
finish 0 {turn:04X} =
front = {turn:04X}
dispense advisory = fresh 31 {turn:04X}"
    );
    plays(rt, alloc, outbox, &rows.expect(rt, "memory"));
}

/// An entry is of sub-device 1, has the ID 8001, and the values 2 and one that the row has.
const RANKS: &str = "
note error-cleared 3 = kept
note advisory 3 = kept
note warning 3 = kept
note error 3 = kept
note warning-cleared 3 = kept
note advisory-cleared 3 = kept
status none = fresh 21 0030
status error = fresh 21 0030 0001 14 8001 0002 0003 0001 04 8001 0002 0003
dispense warning = fresh 21 0030 0001 03 8001 0002 0003 0001 13 8001 0002 0003
answer-status last = again
last = 21 0030 0001 03 8001 0002 0003 0001 13 8001 0002 0003
status advisory = fresh 21 0030 0001 02 8001 0002 0003 0001 12 8001 0002 0003
status advisory = fresh 21 0030
";

#[test]
fn each_status_type_shows_its_ranks(rt: HostRuntime) {
    plays_new(&rt, rt.alloc(), (1, 1), RANKS);
}

const OF_25: &str = "
notes 25 error = kept
length error = 225
status error = fresh 21 0030
";

const OF_26: &str = "
notes 26 error = kept
length error = 225
status error = fresh 21 0030 0001 04 8001 0002 0019
";

#[test]
fn a_message_has_25_entries(rt: HostRuntime) {
    plays_new(&rt, rt.alloc(), (1, 1), OF_25);
    plays_new(&rt, rt.alloc(), (1, 1), OF_26);
}

const MOST: &str = "
notes 1024 advisory = kept
note error 1024 = dropped
status error = fresh 21 0030
answer-status advisory = fresh
note error 1025 = kept
status error = fresh 21 0030 0001 04 8001 0002 0401
";

#[test]
fn at_most_1024_entries_are_kept(rt: HostRuntime) {
    plays_new(&rt, rt.alloc(), (1, 1), MOST);
}

/// Of three entries the first two are kept. Once one was shown, there is room for one.
const OF_2: &str = "
note error 7 = kept
note advisory 8 = kept
note error 9 = dropped
status error = fresh 21 0030 0001 04 8001 0002 0007
note warning 10 = kept
note error 11 = dropped
status advisory = fresh 21 0030 0001 02 8001 0002 0008 0001 03 8001 0002 000A
note error 12 = kept
";

#[test]
fn a_list_of_2_entries_drops_the_third(rt: HostRuntime) {
    let settings = Settings {
        entries: 2,
        ..Settings::usual(1, 1)
    };
    plays(&rt, rt.alloc(), &mut made(&rt, rt.alloc(), &settings), OF_2);
}

/// The outstanding job has the last place.
const FULL: &str = "
room = false
reserve self-test = none
finish 0 03FF =
";

#[test]
fn a_queue_of_1024_is_filled_and_emptied(rt: HostRuntime) {
    let outbox = Outbox::new(rt.alloc(), MOST_WAITING, 2);
    let mut outbox = outbox.ok().expect(&rt, "a good size");
    plays(&rt, rt.alloc(), &mut outbox, "reserve lamp = 0");
    for number in 0..1023_u16 {
        is_filled(&rt, rt.alloc(), &mut outbox, number);
    }
    plays(&rt, rt.alloc(), &mut outbox, FULL);
    for number in 0..1024_u16 {
        is_emptied(&rt, rt.alloc(), &mut outbox, number);
    }
    plays(
        &rt,
        rt.alloc(),
        &mut outbox,
        "dispense advisory = fresh 21 0030",
    );
}

/// There is room for a message, and one more waits.
fn is_filled(rt: &impl Abort, alloc: Global, outbox: &mut Outbox, number: u16) {
    let waiting = number.saturating_add(1);
    let count = waiting.min(255);
    let rows = format!(in alloc; "room = true\npost {number:04X} =\ncounts = 1 {waiting} {count}");
    plays(rt, alloc, outbox, &rows.expect(rt, "memory"));
}

/// A message is collected, and one less waits.
fn is_emptied(rt: &impl Abort, alloc: Global, outbox: &mut Outbox, number: u16) {
    let waiting = 1023u16.saturating_sub(number);
    let count = waiting.min(255);
    let rows = format!(in alloc;
        "answer advisory = fresh
last = 31 {number:04X}
counts = 0 {waiting} {count}"
    );
    plays(rt, alloc, outbox, &rows.expect(rt, "memory"));
}

const CLEARED: &str = "
room = true
post 0403 =
notes 1024 error = kept
note error 1024 = dropped
clear =
status advisory = fresh 21 0030
notes 1024 error = kept
note error 1024 = dropped
clear =
status advisory = fresh 21 0030
counts = 0 1 1
";

#[test]
fn cleared_entries_leave_room_for_1024_more(rt: HostRuntime) {
    plays_new(&rt, rt.alloc(), (1, 1), CLEARED);
}
