//! To which fixture a line belongs that names none, and what fixtures said of themselves.

use super::{bytes_of, demo, ends_with};
use rdm_device::Profile;
use rdm_frame::Uid;
use rdm_words::{Known, Learned, Question};
use std::process::Abort;

/// Lines belong to the fixture that was polled: a message that belongs to nobody; one of a fixture that isn't the one that is known; a message and a report of that one, and of the other
/// one although it was asked last; and a search.
pub(super) const TRACE: &str = "message 21 0030 0000 000004800100020000
# 0.000 s
send CC01197FF0000000407FF00000000201010000002000200102044B
reply none
heard nothing
message 21 0030 0000 000004800100020000
# 4294967295.999 s
send CC01197FF0000000017FF00000000201010000002000200102040C
arrive 0 0 failed 04 8001 0002 0000
message 21 0030 0000 000004800100020000
# 12.34 s
# a remark
send CC0124FFFFFFFFFFFF7FF00000000200010000001000010C000000000000FFFFFFFFFFFF0E74
reply FEFEFEFEFEFEFEAAFF7FFAF5AA55AA55AA55AB55AF57EA7F
heard ignored
reply none
heard ignored
";

pub(super) const WORDS: &str = "recorded: GET response STATUS_MESSAGES (0030), root
  status: error (04), status ID 8001, values 2 and 0, root
at 0.000 s
7FF0:00000002 asks 7FF0:00000040: GET QUEUED_MESSAGE (0020), root, transaction 1
  status type advisory (02)
no reply
the controller hears nothing
recorded: GET response STATUS_MESSAGES (0030), root
  status: error (04), status ID 8001, values 2 and 0, root
at 4294967295.999 s
7FF0:00000002 asks 7FF0:00000001: GET QUEUED_MESSAGE (0020), root, transaction 1
  status type advisory (02)
job 0 of worker 0 has failed: error (04), Lamp failed to strike (8001), values 2 and 0
recorded: GET response STATUS_MESSAGES (0030), root
  status: error (04), Lamp failed to strike (8001), values 2 and 0, root
# 12.34 s
# a remark
7FF0:00000002 asks all devices (FFFF:FFFFFFFF): DISCOVERY DISC_UNIQUE_BRANCH (0001), root, transaction 0
  from 0000:00000000 to FFFF:FFFFFFFF
7FF0:00000001 answers: DISC_UNIQUE_BRANCH
the controller hears the answer of 7FF0:00000001
no reply
the controller ignores what it hears
";

/// The fixture that is asked.
const ASKED: Uid = Uid {
    maker: 0x7FF0,
    device: 5,
};

/// A response of that fixture, what is asked before it is said (the parameter, and with what), what is answered, and the words then.
const LEARNED: &[(&str, u16, &str, &str, &str)] = &[
    (
        "CC01217FF0000000027FF00000000500000000002102010900002D0014002D0000046E",
        0x0200,
        "00",
        "000115000000640000006400416D6273",
        "  sensor 0: 45 s, lowest 20, highest 45, recorded 0\n",
    ),
    (
        "CC01217FF0000000027FF00000000500000000002100300900000480010002000004B4",
        0x0031,
        "8001",
        "46616E",
        "  status: error (04), Fan (8001), values 2 and 0, root\n",
    ),
    (
        "CC01197FF0000000027FF000000005000000000021800201020471",
        0x0051,
        "8002",
        "80020103030000000000000000000002000000004D6F6465",
        "  value 2\n  data 02\n",
    ),
];

#[test]
fn fixtures_say_what_their_values_are(rt: HostRuntime) {
    for (reply, pid, asked, told, expected) in LEARNED {
        let mut learned = Learned::new(rt.alloc());
        learns(&rt, &mut learned, (reply, *pid, asked), told);
        ends_with(&rt, rt.alloc(), &Known::learned(&learned), reply, expected);
    }
}

/// Before a response is said, a parameter is asked with this, and the answer is noted: then nothing is missing.
fn learns(
    rt: &impl Abort,
    learned: &mut Learned,
    (reply, pid, asked): (&str, u16, &str),
    told: &str,
) {
    let bytes = bytes_of(reply);
    let question = learned
        .missing(bytes.as_slice())
        .expect(rt, "something is missing");
    let is_asked = question.uid == ASKED
        && question.pid == pid
        && question.data.as_slice() == bytes_of(asked).as_slice();
    assert!(rt; is_asked, "another question: {reply}");
    let told = bytes_of(told);
    learned
        .note(&question, Some(told.as_slice()))
        .expect(rt, "memory");
    let is_missing = learned.missing(bytes.as_slice()).is_some();
    assert!(rt; !is_missing, "asked again: {reply}");
}

/// A sensor of two fixtures, of which the first is the demo fixture, and the other has said what it measures.
const MEASURED: &[(&str, &str)] = &[
    (
        "CC01217FF0000000027FF00000000100000000002102010900002D0014002D0000046A",
        "  sensor 0: 45 °C, lowest 20, highest 45, recorded 0\n",
    ),
    (
        "CC01217FF0000000027FF00000000500000000002102010900002D0014002D0000046E",
        "  sensor 0: 45 s, lowest 20, highest 45, recorded 0\n",
    ),
];

#[test]
fn what_a_fixture_said_is_its_own(rt: HostRuntime) {
    let mut learned = Learned::new(rt.alloc());
    notes(
        &rt,
        &mut learned,
        0x0200,
        "00",
        Some("00011500000064000000640041"),
    );
    let profile = Profile::demo(4);
    let known = demo(&profile).and_learned(&learned);
    for (reply, expected) in MEASURED {
        ends_with(&rt, rt.alloc(), &known, reply, expected);
    }
}

/// The fixture that is asked says this, or nothing.
fn notes(rt: &impl Abort, learned: &mut Learned, pid: u16, asked: &str, told: Option<&str>) {
    let question = Question {
        uid: ASKED,
        pid,
        data: bytes_of(asked),
    };
    let noted = match told {
        Some(told) => learned.note(&question, Some(bytes_of(told).as_slice())),
        None => learned.note(&question, None),
    };
    noted.expect(rt, "memory");
}

/// A fixture that says nothing isn't asked again.
#[test]
fn silence_is_noted(rt: HostRuntime) {
    let mut learned = Learned::new(rt.alloc());
    notes(
        &rt,
        &mut learned,
        0x0200,
        "00",
        Some("00011500000064000000640041"),
    );
    notes(&rt, &mut learned, 0x0031, "8001", None);
    let reply = "CC01217FF0000000027FF00000000500000000002100300900000480010002000004B4";
    let is_missing = learned.missing(bytes_of(reply).as_slice()).is_some();
    assert!(rt; !is_missing);
}
