//! Which message is the result of a command, and how a command ends, worked out by hand.

use rdm_console::{
    Action, Awaiting, Command, Entry, MessageView, Response, Severity, Verdict, belongs,
};
use rdm_frame::{Load, Uid};
use std::process::Abort;

const DEVICE: Uid = Uid {
    maker: 0x7FF0,
    device: 1,
};

/// A command: what it does, the sub-device, the parameter and the data.
type Asked = (Action, u16, u16, &'static [u8]);

/// A message: its response type, class, sub-device, parameter and data.
type Came = (Response, u8, u16, u16, &'static [u8]);

fn command(rt: &impl Abort, asked: Asked) -> Command {
    let (action, sub, pid, data) = asked;
    Command {
        dst: DEVICE,
        action,
        sub,
        pid,
        load: Load::from_slice(data).expect(rt, "at most 255 bytes"),
    }
}

fn message(came: Came) -> MessageView<'static> {
    let (response, class, sub, pid, body) = came;
    MessageView {
        response,
        class,
        sub,
        pid,
        body,
    }
}

const ACK: Response = Response::Ack;

const FAULT: Response = Response::Nack { reason: 2 };

const SOON: Response = Response::AckTimer { tenths: 3 };

/// GET SENSOR_VALUE of sensor 0, SET LAMP_STATE on, and its like at sub-device 2.
const SENSOR: Asked = (Action::Get, 0, 0x0201, &[0]);

const LAMP: Asked = (Action::Set, 0, 0x0403, &[2]);

const LAMP_TWO: Asked = (Action::Set, 2, 0x0403, &[2]);

/// A command, a message, and whether that is the result.
const BELONGING: &[(Asked, Came, bool)] = &[
    // The reading of a sensor is that of the sensor asked for.
    (
        SENSOR,
        (ACK, 0x21, 0, 0x0201, &[0, 0, 25, 0, 0, 0, 25, 0, 0]),
        true,
    ),
    (
        SENSOR,
        (ACK, 0x21, 0, 0x0201, &[1, 0, 26, 0, 0, 0, 26, 0, 0]),
        false,
    ),
    (SENSOR, (ACK, 0x21, 0, 0x0201, &[]), false),
    (
        SENSOR,
        (ACK, 0x31, 0, 0x0201, &[0, 0, 25, 0, 0, 0, 25, 0, 0]),
        false,
    ),
    // A reason and an estimate are no index.
    (SENSOR, (FAULT, 0x21, 0, 0x0201, &[0, 2]), true),
    (SENSOR, (SOON, 0x21, 0, 0x0201, &[0, 3]), true),
    (SENSOR, (FAULT, 0x21, 1, 0x0201, &[0, 2]), false),
    // SET SENSOR_VALUE tells the sensor, also if all are meant.
    (
        (Action::Set, 0, 0x0201, &[1]),
        (ACK, 0x31, 0, 0x0201, &[1, 0, 26, 0, 26, 0, 26, 0, 26]),
        true,
    ),
    (
        (Action::Set, 0, 0x0201, &[1]),
        (ACK, 0x31, 0, 0x0201, &[0, 0, 26, 0, 26, 0, 26, 0, 26]),
        false,
    ),
    (
        (Action::Set, 0, 0x0201, &[0xFF]),
        (ACK, 0x31, 0, 0x0201, &[0xFF, 0, 0, 0, 0, 0, 0, 0, 0]),
        true,
    ),
    // An index of two slots: a slot, a scene, a parameter.
    (
        (Action::Get, 0, 0x0121, &[1, 2]),
        (ACK, 0x21, 0, 0x0121, b"\x01\x02Pan"),
        true,
    ),
    (
        (Action::Get, 0, 0x0121, &[1, 2]),
        (ACK, 0x21, 0, 0x0121, b"\x01\x03Tilt"),
        false,
    ),
    (
        (Action::Get, 0, 0x1042, &[0, 1]),
        (ACK, 0x21, 0, 0x1042, &[0, 2, 0, 0, 0, 0, 0, 0, 0]),
        false,
    ),
    (
        (Action::Get, 0, 0x0051, &[0x80, 1]),
        (ACK, 0x21, 0, 0x0051, &[0x80, 2, 1]),
        false,
    ),
    // A text alone has no index: STATUS_ID_DESCRIPTION.
    (
        (Action::Get, 0, 0x0031, &[0x80, 1]),
        (ACK, 0x21, 0, 0x0031, b"Fan blocked"),
        true,
    ),
    // The other parameters with an index of one slot.
    (
        (Action::Get, 0, 0x00E1, &[2]),
        (ACK, 0x21, 0, 0x00E1, b"\x01\x00\x10Basic"),
        false,
    ),
    (
        (Action::Get, 0, 0x1021, &[2]),
        (ACK, 0x21, 0, 0x1021, b"\x01Fans"),
        false,
    ),
    (
        (Action::Get, 3, 0x0344, &[2]),
        (ACK, 0x21, 3, 0x0344, b"\x02Square"),
        true,
    ),
    // The result of a SET has no data, and the value is no result.
    (LAMP, (ACK, 0x31, 0, 0x0403, &[]), true),
    (LAMP, (ACK, 0x21, 0, 0x0403, &[0]), false),
    (LAMP, (FAULT, 0x31, 0, 0x0403, &[0, 2]), true),
    (LAMP, (ACK, 0x31, 2, 0x0403, &[]), false),
    (LAMP_TWO, (ACK, 0x31, 2, 0x0403, &[]), true),
    (LAMP, (ACK, 0x31, 0, 0x0404, &[]), false),
];

#[test]
fn messages_belong_to_commands(rt: HostRuntime) {
    for (asked, came, expected) in BELONGING {
        let is_result = belongs(&command(&rt, *asked), &message(*came));
        assert!(rt; is_result == *expected, "{came:?} after {asked:?}");
    }
}

/// The value that the device kept, and a status message of one entry: an error, status ID 8001, of the root.
const KEPT: Came = (ACK, 0x21, 0, 0x0403, &[0]);

const STRIKE: Came = (ACK, 0x21, 0, 0x0030, &[0, 0, 0x04, 0x80, 0x01, 0, 2, 0, 0]);

const NOTHING: Came = (ACK, 0x21, 0, 0x0030, &[]);

const OTHER: Came = (ACK, 0x21, 0, 0x0201, &[0, 0, 25, 0, 0, 0, 25, 0, 0]);

/// Three entries: of sub-device 2 with two values, of the root, and one of sub-device 2 that is over.
const THREE: Came = (
    ACK,
    0x21,
    0,
    0x0030,
    &[
        0, 2, 0x03, 0x80, 0x02, 0x01, 0x00, 0xFF, 0xFE, 0, 0, 0x04, 0x80, 0x01, 0, 2, 0, 0, 0, 2,
        0x14, 0x80, 0x03, 0, 0, 0, 0,
    ],
);

const LAMP_FAILED: Verdict = Verdict::Failed(Entry {
    sub: 0,
    severity: Severity::Error,
    id: 0x8001,
    v1: 2,
    v2: 0,
});

const LAMP_TWO_FAILED: Verdict = Verdict::Failed(Entry {
    sub: 2,
    severity: Severity::Warning,
    id: 0x8002,
    v1: 0x0100,
    v2: 0xFFFE,
});

/// A command, the messages that come, and what the last of them means for it. All before it leave it waiting.
const ENDINGS: &[(Asked, &[Came], Verdict)] = &[
    (LAMP, &[(ACK, 0x31, 0, 0x0403, &[])], Verdict::Done),
    (
        LAMP,
        &[OTHER, NOTHING, (ACK, 0x31, 0, 0x0403, &[])],
        Verdict::Done,
    ),
    (
        LAMP,
        &[(FAULT, 0x31, 0, 0x0403, &[0, 2])],
        Verdict::Rejected { reason: 2 },
    ),
    (
        LAMP,
        &[(SOON, 0x31, 0, 0x0403, &[0, 3])],
        Verdict::NeedsTime { tenths: 3 },
    ),
    // The value that was kept, and then why.
    (LAMP, &[KEPT, STRIKE], LAMP_FAILED),
    (LAMP, &[KEPT, OTHER, NOTHING, STRIKE], LAMP_FAILED),
    // An entry alone, a value alone, and an entry of another sub-device.
    (LAMP, &[STRIKE], Verdict::Waits),
    (LAMP, &[KEPT, NOTHING], Verdict::Waits),
    (
        LAMP,
        &[(ACK, 0x21, 2, 0x0403, &[0]), STRIKE],
        Verdict::Waits,
    ),
    (
        LAMP_TWO,
        &[(ACK, 0x21, 2, 0x0403, &[0]), THREE],
        LAMP_TWO_FAILED,
    ),
    // Somebody changed the value at the device, and the SET was carried out behind it.
    (LAMP, &[KEPT, (ACK, 0x31, 0, 0x0403, &[])], Verdict::Done),
    // Of a GET the value is the result, and an entry changes nothing.
    (
        SENSOR,
        &[
            (ACK, 0x21, 0, 0x0201, &[1, 0, 26, 0, 0, 0, 26, 0, 0]),
            STRIKE,
        ],
        Verdict::Waits,
    ),
    (
        SENSOR,
        &[(ACK, 0x21, 0, 0x0201, &[0, 0, 25, 0, 0, 0, 25, 0, 0])],
        Verdict::Done,
    ),
];

/// What the last of these messages means for a command.
fn ending(rt: &impl Abort, asked: Asked, messages: &[Came]) -> Verdict {
    let command = command(rt, asked);
    let mut awaiting = Awaiting::new(&command);
    let mut verdict = Verdict::Waits;
    for came in messages {
        assert!(rt; verdict == Verdict::Waits, "before {came:?}");
        verdict = awaiting.hear(&message(*came));
    }
    verdict
}

#[test]
fn commands_end(rt: HostRuntime) {
    for (asked, messages, expected) in ENDINGS {
        let verdict = ending(&rt, *asked, messages);
        assert!(rt; verdict == *expected, "{messages:?} after {asked:?}");
    }
}
