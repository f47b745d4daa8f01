//! What waits at a responder, the message that its firmware drops, and when its jobs are due.

use super::{DEVICE, SET, printed, request, responder_with};
use rdm_deadlines::Deadlines;
use rdm_params::{Change, Entry, Message, Outcome, Severity};
use rdm_responder::{Report, Responder};
use std::process::Abort;

const DMX_START_ADDRESS: u16 = 0x00F0;

/// Changes the start address at the menu, and says whether there was room for the message.
fn change(responder: &mut Responder, start: u16) -> bool {
    responder.change(Change::Start(start)).is_ok()
}

/// The start address that a message tells.
fn start_in(message: &Message) -> Option<u16> {
    match message.body.as_slice() {
        [high, low] if message.pid == DMX_START_ADDRESS => Some(u16::from_be_bytes([*high, *low])),
        _ => None,
    }
}

/// The start address that the message with this index tells.
fn waits(responder: &Responder, index: usize) -> Option<u16> {
    start_in(responder.waiting_at(index)?)
}

#[test]
fn oldest_message_makes_room(rt: HostRuntime) {
    let mut responder = responder_with(&rt, rt.alloc(), 0, 2);
    let room = (
        change(&mut responder, 101),
        change(&mut responder, 102),
        change(&mut responder, 103),
    );
    assert!(rt; room == (true, true, false));
    let dropped = responder.drop_oldest().expect(&rt, "a message");
    assert!(rt; start_in(&dropped) == Some(101));
    assert!(rt; change(&mut responder, 103));
    let left = (
        waits(&responder, 0),
        waits(&responder, 1),
        waits(&responder, 2),
    );
    assert!(rt; left == (Some(102), Some(103), None));
    polls(&rt, &mut responder);
}

/// A poll gets the second message: the first is gone. The last message is the one that was given last.
fn polls(rt: &impl Abort, responder: &mut Responder) {
    let poll = printed(
        rt,
        "CC0119 7FF000000001 7FF000000002 00 01 00 0000 20 0020 01 02 040B",
    );
    let reply = printed(
        rt,
        "CC011A 7FF000000002 7FF000000001 00 00 01 0000 21 00F0 02 0066 0542",
    );
    assert!(rt; responder.step(poll.as_slice()) == (Some(reply), None));
    assert!(rt; responder.drop_oldest().is_some());
    assert!(rt; responder.drop_oldest().is_none());
    let again = printed(
        rt,
        "CC0119 7FF000000001 7FF000000002 01 01 00 0000 20 0020 01 01 040B",
    );
    let repeat = printed(
        rt,
        "CC011A 7FF000000002 7FF000000001 01 00 00 0000 21 00F0 02 0066 0542",
    );
    assert!(rt; responder.step(again.as_slice()) == (Some(repeat), None));
}

#[test]
fn entries_wait_to_be_shown(rt: HostRuntime) {
    let mut responder = responder_with(&rt, rt.alloc(), 0, 1);
    let fan = Entry {
        sub: 0,
        severity: Severity::Warning,
        id: 0x8001,
        v1: 0,
        v2: 0,
    };
    assert!(rt; responder.note(fan));
    assert!(rt; responder.unshown() == 1);
}

/// A lamp takes five seconds, and a second one begins when the first is done. The clock starts again at 0 in between.
#[test]
fn jobs_are_due_by_their_estimates(rt: HostRuntime) {
    let mut responder = responder_with(&rt, rt.alloc(), 0, 8);
    let mut deadlines = Deadlines::new();
    let lamp = request(&rt, DEVICE, 0, SET, 0x0403, &[1]);
    assert!(rt; next_end(&mut deadlines, &responder, 4_294_966_296) == None);
    let first = responder.step(lamp.as_slice()).1.expect(&rt, "a job");
    assert!(rt; next_end(&mut deadlines, &responder, 4_294_966_296) == Some(5000));
    let second = responder.step(lamp.as_slice()).1.expect(&rt, "a job");
    assert!(rt; next_end(&mut deadlines, &responder, 1000) == Some(3000));
    assert!(rt; next_end(&mut deadlines, &responder, 9000) == Some(0));
    assert!(rt; responder.working(0).map(|it| it.job) == Some(first));
    let outcome = Outcome::Done;
    assert!(rt;
        responder
            .arrive(Report {
                job: first,
                outcome
            })
            .is_ok()
    );
    assert!(rt; responder.working(0).map(|it| it.job) == Some(second));
    assert!(rt; next_end(&mut deadlines, &responder, 9000) == Some(5000));
}

/// A self test of ten seconds is worker 1's, and a lamp that is struck meanwhile is due first.
#[test]
fn first_of_two_workers_is_due(rt: HostRuntime) {
    let mut responder = responder_with(&rt, rt.alloc(), 0, 8);
    let mut deadlines = Deadlines::new();
    let test = request(&rt, DEVICE, 0, SET, 0x1020, &[1]);
    let lamp = request(&rt, DEVICE, 1, SET, 0x0403, &[1]);
    assert!(rt; responder.step(test.as_slice()).1.is_some());
    assert!(rt; next_end(&mut deadlines, &responder, 0) == Some(10_000));
    assert!(rt; responder.step(lamp.as_slice()).1.is_some());
    assert!(rt; next_end(&mut deadlines, &responder, 2000) == Some(5000));
    assert!(rt; responder.working(2).is_none());
}

/// Looks at the workers, and says when the first estimate ends.
fn next_end(deadlines: &mut Deadlines, responder: &Responder, now: u32) -> Option<u32> {
    deadlines.look(responder, now);
    deadlines.next(now)
}
