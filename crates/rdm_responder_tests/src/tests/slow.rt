//! Long runs of slow commands, and the example of docs/FIXTURES.md.

use super::{CONTROLLER, DEVICE, GET, IDENTIFY_DEVICE, SET, printed, request, responder_with};
use rdm_frame::{Body, Frame, Wire, encode};
use rdm_outbox::Job;
use rdm_params::{Kind, Outcome, Profile, Severity, Verdict};
use rdm_responder::{Report, Responder, Settings};
use std::alloc::{AllocError, Global};
use std::process::Abort;
use std::test::Fail;

const QUEUED_MESSAGE: u16 = 0x0020;

const STATUS_MESSAGES: u16 = 0x0030;

const LAMP_STATE: u16 = 0x0403;

/// A lamp that failed to strike.
fn failed(severity: Severity, v1: u16) -> Outcome {
    Outcome::Failed {
        severity,
        id: 0x8001,
        v1,
        v2: 0,
    }
}

/// SET LAMP_STATE 1.
fn lamp(rt: &impl Abort, tn: u8) -> Wire {
    request(rt, DEVICE, tn, SET, LAMP_STATE, &[1])
}

/// The reply to the controller with so many messages waiting, that carries these slots of status entries.
fn status_reply(rt: &impl Abort, tn: u8, count: u8, slots: &[u8]) -> Wire {
    encode(&Frame {
        dst: CONTROLLER,
        src: DEVICE,
        tn,
        port: 0,
        count,
        sub: 0,
        class: 0x21,
        pid: STATUS_MESSAGES,
        body: Body::from_slice(slots).expect(rt, "slots of a frame"),
    })
}

/// The job that starts where a responder hears these bytes.
fn started(rt: &impl Abort, responder: &mut Responder, heard: &Wire) -> Job {
    let (_, job) = responder.step(heard.as_slice());
    job.expect(rt, "a job")
}

/// Reports on a job, which may arrive.
fn ends(rt: &impl Abort, responder: &mut Responder, job: Job, outcome: Outcome) {
    assert!(rt; responder.arrive(Report { job, outcome }).is_ok());
}

/// A responder hears bytes, gives this reply, and starts no job.
fn answers(rt: &impl Abort, responder: &mut Responder, heard: &Wire, reply: Wire) {
    let answer = responder.step(heard.as_slice());
    assert!(rt; answer == (Some(reply), None), "{heard:?}");
}

/// 27 lamps fail to strike, the first of them by an advisory.
fn lamps_fail(rt: &impl Abort, responder: &mut Responder) {
    for number in 0..27u8 {
        let job = started(rt, responder, &lamp(rt, number));
        let severity = if number == 0 {
            Severity::Advisory
        } else {
            Severity::Error
        };
        ends(rt, responder, job, failed(severity, u16::from(number)));
    }
}

/// The slots of the entries 1 to 25.
fn first_shown(alloc: Global) -> Result<Vec<u8>, AllocError> {
    let mut shown = Vec::new(alloc);
    for number in 1..26u8 {
        shown.extend_from_slice(&[0, 0, 4, 0x80, 0x01, 0, number, 0, 0])?;
    }
    Ok(shown)
}

/// A GET with a status type, and how many messages wait after it.
#[derive(Clone, Copy)]
struct Asked {
    tn: u8,
    pid: u16,
    status_type: u8,
    count: u8,
}

/// What is asked is answered by these slots of status entries.
fn shows(rt: &impl Abort, responder: &mut Responder, asked: Asked, slots: &[u8]) {
    let Asked {
        tn,
        pid,
        status_type,
        count,
    } = asked;
    let heard = request(rt, DEVICE, tn, GET, pid, &[status_type]);
    answers(rt, responder, &heard, status_reply(rt, tn, count, slots));
}

/// The first entries are shown, and again as the last message; then the rest, and then nothing, while 27 messages wait.
fn shows_25_at_once(rt: &impl Abort, responder: &mut Responder, shown: &[u8], rest: &[u8]) {
    shows(rt, responder, while_27_wait(27, STATUS_MESSAGES, 4), shown);
    shows(rt, responder, while_27_wait(28, QUEUED_MESSAGE, 1), shown);
    shows(rt, responder, while_27_wait(29, STATUS_MESSAGES, 2), rest);
    shows(rt, responder, while_27_wait(30, STATUS_MESSAGES, 2), &[]);
}

/// A GET while 27 messages wait.
fn while_27_wait(tn: u8, pid: u16, status_type: u8) -> Asked {
    Asked {
        tn,
        pid,
        status_type,
        count: 27,
    }
}

#[test]
fn a_status_message_shows_25_entries_once(rt: HostRuntime) {
    let mut responder = responder_with(&rt, rt.alloc(), 0, 27);
    lamps_fail(&rt, &mut responder);
    let shown = first_shown(rt.alloc()).expect(&rt, "memory");
    let rest = printed(&rt, "0000 02 8001 0000 0000 0000 04 8001 001A 0000");
    shows_25_at_once(&rt, &mut responder, &shown, rest.as_slice());
}

/// A lamp fails to strike, and its entry is kept or not.
fn fails(rt: &impl Abort, responder: &mut Responder, tn: u8, kept: bool) {
    let job = started(rt, responder, &lamp(rt, tn));
    let outcome = failed(Severity::Error, u16::from(tn));
    let arrival = responder.arrive(Report { job, outcome });
    let arrival = arrival.expect(rt, "a report that may arrive");
    assert!(rt; arrival.kept == kept, "{tn}");
}

/// A request for status messages of errors is answered by these, while so many messages wait.
fn shows_errors(rt: &impl Abort, responder: &mut Responder, tn: u8, count: u8, shown: &str) {
    let asked = Asked {
        tn,
        pid: STATUS_MESSAGES,
        status_type: 4,
        count,
    };
    shows(rt, responder, asked, printed(rt, shown).as_slice());
}

/// Of three entries the first two are kept and shown, while three messages wait. Then there is room again.
fn keeps_two(rt: &impl Abort, responder: &mut Responder) {
    fails(rt, responder, 0, true);
    fails(rt, responder, 1, true);
    fails(rt, responder, 2, false);
    let shown = "0000 04 8001 0000 0000 0000 04 8001 0001 0000";
    shows_errors(rt, responder, 3, 3, shown);
    fails(rt, responder, 4, true);
    shows_errors(rt, responder, 5, 4, "0000 04 8001 0004 0000");
}

#[test]
fn a_list_of_2_entries_drops_that_of_the_third_failure(rt: HostRuntime) {
    let settings = Settings {
        entries: 2,
        ..Settings::usual(DEVICE, 8)
    };
    let profile = Box::new(rt.alloc(), Profile::demo(0)).expect(&rt, "memory");
    let made = Responder::with_settings(rt.alloc(), &settings, profile);
    keeps_two(&rt, &mut made.expect(&rt, "a good size"));
}

/// IDENTIFY_DEVICE, and QUEUED_MESSAGE twice, while 256 messages wait at first.
const COUNTED: &[(&str, &str)] = &[
    (
        "CC0118 7FF000000001 7FF000000002 00 01 00 0000 20 1000 00 03F7",
        "CC0119 7FF000000002 7FF000000001 00 00 FF 0000 21 1000 01 00 04F8",
    ),
    (
        "CC0119 7FF000000001 7FF000000002 01 01 00 0000 20 0020 01 02 040C",
        "CC0118 7FF000000002 7FF000000001 01 00 FF 0000 31 0403 00 04FE",
    ),
    (
        "CC0119 7FF000000001 7FF000000002 02 01 00 0000 20 0020 01 02 040D",
        "CC0118 7FF000000002 7FF000000001 02 00 FE 0000 31 0403 00 04FE",
    ),
];

/// So many jobs start and are done, with the numbers from 0 on.
fn does_jobs(rt: &impl Abort, responder: &mut Responder, set: &Wire, count: u32) {
    for number in 0..count {
        let job = started(rt, responder, set);
        assert!(rt; job.number == number);
        ends(rt, responder, job, Outcome::Done);
    }
}

#[test]
fn more_than_255_messages_count_as_255(rt: HostRuntime) {
    let mut responder = responder_with(&rt, rt.alloc(), 0, 300);
    does_jobs(&rt, &mut responder, &lamp(&rt, 0), 256);
    for (frame, reply) in COUNTED {
        let heard = printed(&rt, frame);
        answers(&rt, &mut responder, &heard, printed(&rt, reply));
    }
}

/// What is answered to SET LAMP_STATE while 254 messages wait and a job is outstanding, and then, with 255, to
/// IDENTIFY_DEVICE and QUEUED_MESSAGE.
const NO_PLACE: &str = "CC011A 7FF000000002 7FF000000001 00 02 FE 0000 31 0403 02 0007 0509";

const ALL_WAIT: &str = "CC0119 7FF000000002 7FF000000001 00 00 FF 0000 21 1000 01 00 04F8";

const ONE_LESS: &str = "CC0118 7FF000000002 7FF000000001 01 00 FE 0000 31 0403 00 04FD";

#[test]
fn a_queue_of_255_is_used_up_to_its_end(rt: HostRuntime) {
    let set = lamp(&rt, 0);
    let mut responder = responder_with(&rt, rt.alloc(), 0, 255);
    does_jobs(&rt, &mut responder, &set, 254);
    uses_last_place(&rt, &mut responder, &set);
    tells_how_many_wait(&rt, &mut responder);
}

/// The last place is for a job that is outstanding, and then for its message.
fn uses_last_place(rt: &impl Abort, responder: &mut Responder, set: &Wire) {
    let last = started(rt, responder, set);
    assert!(rt; (responder.waiting(), responder.outstanding()) == (254, 1));
    answers(rt, responder, set, printed(rt, NO_PLACE));
    ends(rt, responder, last, Outcome::Done);
}

/// All messages wait, and after one was collected one less.
fn tells_how_many_wait(rt: &impl Abort, responder: &mut Responder) {
    let identify = request(rt, DEVICE, 0, GET, IDENTIFY_DEVICE, &[]);
    answers(rt, responder, &identify, printed(rt, ALL_WAIT));
    let collect = request(rt, DEVICE, 1, GET, QUEUED_MESSAGE, &[2]);
    answers(rt, responder, &collect, printed(rt, ONE_LESS));
}

/// A responder whose jobs are numbered from this number on.
fn numbered_from(rt: &impl Abort, alloc: Global, first: u32) -> Responder {
    let settings = Settings {
        uid: DEVICE,
        queue_size: 8,
        entries: 64,
        first_job: first,
    };
    let profile = Box::new(alloc, Profile::demo(0)).expect(rt, "memory");
    let made = Responder::with_settings(alloc, &settings, profile);
    made.expect(rt, "a good size")
}

/// The next job of a responder has this number. While it is done, a report on a job of the responder before is astray.
fn does(rt: &impl Abort, responder: &mut Responder, number: u32, before: Job) {
    let job = started(rt, responder, &lamp(rt, 0));
    assert!(rt; job.number == number);
    let late = Report {
        job: before,
        outcome: Outcome::Done,
    };
    assert!(rt; responder.arrive(late).is_err(), "{number}");
    ends(rt, responder, job, Outcome::Done);
}

/// The first job of a responder that counts from 7 on.
fn job_7(rt: &impl Abort, alloc: Global) -> Job {
    started(rt, &mut numbered_from(rt, alloc, 7), &lamp(rt, 0))
}

#[test]
fn a_report_for_the_responder_before_is_astray(rt: HostRuntime) {
    let before = job_7(&rt, rt.alloc());
    assert!(rt; before.number == 7);
    for (first, second) in &[(8, 9), (0, 1), (0xFFFF_FFFF, 0)] {
        let mut responder = numbered_from(&rt, rt.alloc(), *first);
        does(&rt, &mut responder, *first, before);
        does(&rt, &mut responder, *second, before);
    }
}

/// SET LAMP_STATE on, QUEUED_MESSAGE, and what is answered to them: ACK_TIMER with 50 tenths of a second, and the response
/// to the SET.
const SET_LAMP_ON: &str = "CC0119 7FF000000001 7FF000000002 00 01 00 0000 30 0403 01 01 0401";

const ASK: &str = "CC0119 7FF000000001 7FF000000002 01 01 00 0000 20 0020 01 02 040C";

const LATER: &str = "CC011A 7FF000000002 7FF000000001 00 01 00 0000 31 0403 02 0032 0435";

const IT_IS_ON: &str = "CC0118 7FF000000002 7FF000000001 01 00 00 0000 31 0403 00 03FF";

#[test]
fn a_lamp_is_struck(rt: HostRuntime) -> Result<(), Fail> {
    let set_lamp_on = printed(&rt, SET_LAMP_ON);
    let queued_message = printed(&rt, ASK);
    let in_five_seconds = printed(&rt, LATER);
    let lamp_is_on = printed(&rt, IT_IS_ON);
    let one = Body::of(&[0, 1]);

    // The example of docs/FIXTURES.md, as it is there.
    let mut responder = Responder::new(rt.alloc(), DEVICE, Profile::demo(0), 8)?;
    // SET LAMP_STATE is slow: the reply is ACK_TIMER, in 5 seconds, and a job starts.
    let (reply, job) = responder.step(set_lamp_on.as_slice());
    assert_eq!(rt; reply, Some(in_five_seconds));
    let job = job.ok_or("a job")?;
    // The lamp burns: the job is done, and its result waits.
    let outcome = Outcome::Done;
    responder.arrive(Report { job, outcome })?;
    // The controller asks for what waits, and gets the response to its SET.
    let (reply, _) = responder.step(queued_message.as_slice());
    assert_eq!(rt; reply, Some(lamp_is_on));
    // The firmware reads where its DMX512 slots begin: at the address that the profile starts with, 1.
    let address = responder.devices().get(0, Kind::DmxStartAddress.pid(), &[]);
    assert_eq!(rt; address, Verdict::Reply(one));
    Ok(())
}
