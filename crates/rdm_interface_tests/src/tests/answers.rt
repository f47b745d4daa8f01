//! Which message answers a request.

use super::{GET_LABEL, LABEL, Line, hears, interface, stream};
use std::process::Abort;

/// GET QUEUED_MESSAGE in transaction 6.
const POLL: &str = "CC01197FF0000000017FF000000002060100000020002001040413";

/// GET STATUS_MESSAGES of the last message again, and of advisory entries, in transaction 6.
const LAST: &str = "CC01197FF0000000017FF000000002060100000020003001010420";

const ADVISORY: &str = "CC01197FF0000000017FF000000002060100000020003001020421";

/// A message that answers the first two: SET_COMMAND_RESPONSE of LAMP_STATE.
const MESSAGE: &str = "CC01187FF0000000027FF0000000010600020000310403000406";

/// DISC_UNIQUE_BRANCH over all UIDs.
const BRANCH: &str = "CC0124FFFFFFFFFFFF7FF00000000207010000001000010C000000000000FFFFFFFFFFFF0E7B";

/// SET IDENTIFY_DEVICE of all devices, in transaction 5.
const TO_ALL: &str = "CC0119FFFFFFFFFFFF7FF000000002050100000030100001010899";

/// A request, with which label it is sent, what comes then, and what is heard.
struct Row {
    asked: &'static str,
    label: u8,
    came: &'static [Line],
    heard: Option<&'static str>,
}

const ROWS: &[Row] = &[
    // A response.
    Row {
        asked: GET_LABEL,
        label: 7,
        came: &[(
            5,
            "00CC011A7FF0000000027FF000000001050000000021008202414204F5",
        )],
        heard: Some(LABEL),
    },
    // Nobody answers.
    Row {
        asked: GET_LABEL,
        label: 7,
        came: &[(12, "")],
        heard: None,
    },
    // NACK answers like any other response type.
    Row {
        asked: GET_LABEL,
        label: 7,
        came: &[(
            5,
            "00CC011A7FF0000000027FF00000000105020000002100820200000474",
        )],
        heard: Some("CC011A7FF0000000027FF00000000105020000002100820200000474"),
    },
    // Other labels: parameters, a serial number, and one that isn't known.
    Row {
        asked: GET_LABEL,
        label: 7,
        came: &[
            (3, "0402090128"),
            (10, "01000000"),
            (77, "05"),
            (
                5,
                "00CC011A7FF0000000027FF000000001050000000021008202414204F5",
            ),
        ],
        heard: Some(LABEL),
    },
    // The response in transaction 4, which is late.
    Row {
        asked: GET_LABEL,
        label: 7,
        came: &[
            (
                5,
                "00CC011A7FF0000000027FF000000001040000000021008202434404F8",
            ),
            (
                5,
                "00CC011A7FF0000000027FF000000001050000000021008202414204F5",
            ),
        ],
        heard: Some(LABEL),
    },
    // That of another device.
    Row {
        asked: GET_LABEL,
        label: 7,
        came: &[
            (
                5,
                "00CC011A7FF0000000027FF000000003050000000021008202454604FF",
            ),
            (
                5,
                "00CC011A7FF0000000027FF000000001050000000021008202414204F5",
            ),
        ],
        heard: Some(LABEL),
    },
    // That to another controller.
    Row {
        asked: GET_LABEL,
        label: 7,
        came: &[
            (
                5,
                "00CC011A7FF0000000037FF00000000105000000002100820247480502",
            ),
            (12, ""),
        ],
        heard: None,
    },
    // Those of another parameter, another sub-device and another command.
    Row {
        asked: GET_LABEL,
        label: 7,
        came: &[
            (
                5,
                "00CC011A7FF0000000027FF000000001050000000021008102494A0504",
            ),
            (
                5,
                "00CC011A7FF0000000027FF0000000010500000001210082024B4C050A",
            ),
            (5, "00CC01187FF0000000027FF000000001050000000031008200047E"),
            (
                5,
                "00CC011A7FF0000000027FF000000001050000000021008202414204F5",
            ),
        ],
        heard: Some(LABEL),
    },
    // A response whose checksum is wrong, the request itself, no byte, and not even a status byte.
    Row {
        asked: GET_LABEL,
        label: 7,
        came: &[
            (
                5,
                "00CC011A7FF0000000027FF000000001050000000021008202414204F6",
            ),
            (5, "00CC01187FF0000000017FF000000002050100000020008200046E"),
            (5, "00"),
            (5, ""),
            (12, ""),
        ],
        heard: None,
    },
    // A poll is answered by a message of any parameter, and by an acknowledgement of itself.
    Row {
        asked: POLL,
        label: 7,
        came: &[(5, "00CC01187FF0000000027FF0000000010600020000310403000406")],
        heard: Some(MESSAGE),
    },
    // And not by one in another transaction.
    Row {
        asked: POLL,
        label: 7,
        came: &[
            (
                5,
                "00CC011A7FF0000000027FF000000001050000000021008202414204F5",
            ),
            (5, "00CC01187FF0000000027FF0000000010600020000310403000406"),
        ],
        heard: Some(MESSAGE),
    },
    // The last message again may be a queued one.
    Row {
        asked: LAST,
        label: 7,
        came: &[(5, "00CC01187FF0000000027FF0000000010600020000310403000406")],
        heard: Some(MESSAGE),
    },
    // Status entries never are.
    Row {
        asked: ADVISORY,
        label: 7,
        came: &[
            (5, "00CC01187FF0000000027FF0000000010600020000310403000406"),
            (12, ""),
        ],
        heard: None,
    },
    // DISC_UNIQUE_BRANCH: any bytes, and the end.
    Row {
        asked: BRANCH,
        label: 11,
        came: &[(5, "00FEFEAA"), (12, "")],
        heard: Some("FEFEAA"),
    },
    // Of more bytes the first are heard.
    Row {
        asked: BRANCH,
        label: 11,
        came: &[(5, "01FF"), (5, "00FEFEAA"), (12, "")],
        heard: Some("FF"),
    },
    // Nobody calls.
    Row {
        asked: BRANCH,
        label: 11,
        came: &[(5, "00"), (12, "")],
        heard: None,
    },
    // Bytes that are no frame are sent, too. No device may answer them, and whatever comes is heard.
    Row {
        asked: "7EE7",
        label: 7,
        came: &[(12, "")],
        heard: None,
    },
    Row {
        asked: "7EE7",
        label: 7,
        came: &[(5, "007EE7")],
        heard: Some("7EE7"),
    },
    Row {
        asked: "7EE7",
        label: 7,
        came: &[(5, "00"), (12, "")],
        heard: None,
    },
    // No device may answer a broadcast, and a response to it is heard, but no late one.
    Row {
        asked: TO_ALL,
        label: 7,
        came: &[(5, "00CC01187FF0000000027FF000000001050000000031100000040C")],
        heard: Some("CC01187FF0000000027FF000000001050000000031100000040C"),
    },
    Row {
        asked: TO_ALL,
        label: 7,
        came: &[
            (5, "00CC01187FF0000000027FF000000001040000000031100000040B"),
            (12, ""),
        ],
        heard: None,
    },
    // A body that looks like messages.
    Row {
        asked: BRANCH,
        label: 11,
        came: &[(5, "007E0C0000E7"), (12, "")],
        heard: Some("7E0C0000E7"),
    },
];

/// Bytes with which no message begins, and two that begin as one does: its last byte is wrong, and its length is 601.
const RUBBISH: &[u8] = &[
    0x00, 0xE7, 0x55, 0x7E, 0x05, 0x01, 0x00, 0x00, 0xE6, 0x7E, 0x05, 0x59, 0x02, 0xFF,
];

#[test]
fn the_message_that_belongs_answers(rt: HostRuntime) {
    for row in ROWS {
        let sent = stream(&rt, &[(row.label, row.asked)]);
        let came = stream(&rt, row.came);
        sends(&rt, row, &[came.as_slice()], sent.as_slice());
    }
}

/// These bytes are sent, and what is heard in these pieces is what the row says.
fn sends(rt: &(impl AllocGlobal + Abort), row: &Row, pieces: &[&[u8]], sent: &[u8]) {
    let mut line = interface(rt, pieces);
    hears(rt, &mut line, row.asked, row.heard);
    let (_reader, written, _clock) = line.into_parts();
    assert!(rt; written.as_slice() == sent);
}

/// What is heard in these pieces is what the row says.
fn is_heard(rt: &(impl AllocGlobal + Abort), row: &Row, pieces: &[&[u8]]) {
    hears(rt, &mut interface(rt, pieces), row.asked, row.heard);
}

#[test]
fn rubbish_before_and_behind_is_passed_over(rt: HostRuntime) {
    for row in ROWS {
        let came = stream(&rt, row.came);
        is_heard(&rt, row, &[RUBBISH, came.as_slice(), RUBBISH]);
    }
}

#[test]
fn a_message_may_be_cut_anywhere(rt: HostRuntime) {
    for row in ROWS {
        let came = stream(&rt, row.came);
        is_heard_if_cut(&rt, row, came.as_slice());
    }
}

/// The same if they are cut anywhere.
fn is_heard_if_cut(rt: &(impl AllocGlobal + Abort), row: &Row, came: &[u8]) {
    for cut in 0..came.len() + 1 {
        is_heard(rt, row, &[&came[..cut], &[], &came[cut..]]);
    }
}

/// The answer, what answers a poll, bytes of an answer to a branch, and silence.
const BEHIND: &[Line] = &[
    (
        5,
        "00CC011A7FF0000000027FF000000001050000000021008202414204F5",
    ),
    (5, "00CC01187FF0000000027FF0000000010600020000310403000406"),
    (5, "00FF"),
    (12, ""),
    (12, ""),
];

#[test]
fn what_comes_behind_the_answer_is_kept(rt: HostRuntime) {
    let came = stream(&rt, BEHIND);
    keeps(&rt, &[came.as_slice()]);
}

/// All of it is heard of one read, request by request.
fn keeps(rt: &(impl AllocGlobal + Abort), pieces: &[&[u8]]) {
    let mut line = interface(rt, pieces);
    hears(rt, &mut line, GET_LABEL, Some(LABEL));
    hears(rt, &mut line, POLL, Some(MESSAGE));
    hears(rt, &mut line, BRANCH, Some("FF"));
    hears(rt, &mut line, GET_LABEL, None);
    let (reader, _writer, _clock) = line.into_parts();
    assert!(rt; reader.reads == 1);
}
