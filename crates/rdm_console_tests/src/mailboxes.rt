//! A mailbox that hears a device, row by row. What each row comes to was worked out by hand.

use rdm_console::{Action, AskError, Came, Command, Mailbox, PollError, Sorted, Uid, Want, Wire};
use rdm_frame::{Body, Frame, Load, decode_view, encode};
use std::process::Abort;
use std::test::Fail;

const CONSOLE: Uid = Uid {
    maker: 0x7FF0,
    device: 2,
};

const FIXTURE: Uid = Uid {
    maker: 0x7FF0,
    device: 1,
};

/// An answer to a poll: whether the poll before it is lost; its response type, parameter and data; what it is; and the data of the
/// message that is handed on.
type Row = (bool, u8, u16, &'static [u8], Sorted, Option<&'static [u8]>);

const ACK: u8 = 0;

const NACK: u8 = 2;

const PART: u8 = 3;

/// SUPPORTED_PARAMETERS, STATUS_MESSAGES and LAMP_STATE.
const LIST: u16 = 0x0050;

const STATUS: u16 = 0x0030;

const LAMP: u16 = 0x0403;

/// An entry of the root: an error, status ID 8001.
const ENTRY: &[u8] = &[0, 0, 0x04, 0x80, 0x01, 0, 2, 0, 0];

const OTHER_ENTRY: &[u8] = &[0, 0, 0x14, 0x80, 0x01, 0, 2, 0, 0];

const ROWS: &[Row] = &[
    // A message alone, its repeat, and the same once more, which the device gives by itself.
    (false, ACK, LAMP, &[1], Sorted::Letter, Some(&[1])),
    (true, ACK, LAMP, &[1], Sorted::Repeat, None),
    (false, ACK, LAMP, &[1], Sorted::Letter, Some(&[1])),
    // A poll is lost, and the next answer is another message: no repeat.
    (true, ACK, LAMP, &[2], Sorted::Letter, Some(&[2])),
    // A deferred NACK isn't an ACK that has the same data.
    (false, ACK, LAMP, &[0, 2], Sorted::Letter, Some(&[0, 2])),
    (true, NACK, LAMP, &[0, 2], Sorted::Letter, Some(&[0, 2])),
    // Two parts, of which the first is repeated; and the second, which ends the message.
    (false, PART, LIST, &[0, 0x60], Sorted::Part, None),
    (true, PART, LIST, &[0, 0x60], Sorted::Part, None),
    (
        false,
        ACK,
        LIST,
        &[0, 0xF0],
        Sorted::Letter,
        Some(&[0, 0x60, 0, 0xF0]),
    ),
    (true, ACK, LIST, &[0, 0xF0], Sorted::Repeat, None),
    // Another message ends as that one did, and its end is asked for again: it is no repeat.
    (false, PART, LIST, &[0, 0x80], Sorted::Part, None),
    (
        true,
        ACK,
        LIST,
        &[0, 0xF0],
        Sorted::Letter,
        Some(&[0, 0x80, 0, 0xF0]),
    ),
    // The rest of a part doesn't come.
    (false, PART, LIST, &[0, 0x60], Sorted::Part, None),
    (false, ACK, LAMP, &[3], Sorted::Letter, Some(&[3])),
    // .. and what comes says what was said before it: it is no repeat of that.
    (false, PART, LIST, &[0, 0x60], Sorted::Part, None),
    (true, ACK, LAMP, &[3], Sorted::Letter, Some(&[3])),
    // Status messages.
    (false, ACK, STATUS, &[], Sorted::Nothing, None),
    (false, ACK, STATUS, ENTRY, Sorted::Letter, Some(ENTRY)),
    (false, ACK, STATUS, ENTRY, Sorted::Nothing, None),
    (
        false,
        ACK,
        STATUS,
        OTHER_ENTRY,
        Sorted::Letter,
        Some(OTHER_ENTRY),
    ),
    // One in parts isn't empty because the last of them is.
    (false, PART, STATUS, ENTRY, Sorted::Part, None),
    (false, ACK, STATUS, &[], Sorted::Letter, Some(ENTRY)),
    // And one isn't the one before because the last of them is.
    (false, PART, STATUS, OTHER_ENTRY, Sorted::Part, None),
    (false, ACK, STATUS, &[], Sorted::Letter, Some(OTHER_ENTRY)),
];

/// The answer of the device to a request.
fn answer(rt: &impl Abort, request: &Wire, port: u8, pid: u16, data: &[u8]) -> Option<Wire> {
    let asked = decode_view(request.as_slice()).ok()?;
    Some(encode(&Frame {
        dst: CONSOLE,
        src: FIXTURE,
        tn: asked.tn,
        port,
        count: 0,
        sub: 0,
        class: asked.class.wrapping_add(1),
        pid,
        body: Body::from_slice(data).expect(rt, "at most 231 bytes"),
    }))
}

#[test]
fn messages_are_handed_on_once(rt: HostRuntime) {
    let mut mailbox = Mailbox::new(rt.alloc(), CONSOLE, FIXTURE, Want::Advisory);
    for (index, row) in ROWS.iter().enumerate() {
        try_row(&rt, &mut mailbox, index, row);
    }
}

fn try_row(rt: &impl Abort, mailbox: &mut Mailbox, index: usize, row: &Row) {
    let (is_lost, port, pid, data, sorted, handed) = *row;
    if is_lost {
        loses_poll(rt, mailbox);
    }
    let request = mailbox.poll().expect(rt, "a poll");
    let came = mailbox.hear(&answer(rt, &request, port, pid, data));
    assert!(rt; came == Came::Message(sorted), "row {index}");
    if let Some(bytes) = handed {
        let letter = mailbox.letter().expect(rt, "a letter");
        assert!(rt;
            (letter.message.body, letter.again) == (bytes, is_lost),
            "row {index}"
        );
    }
}

/// A poll to which nothing is heard.
fn loses_poll(rt: &impl Abort, mailbox: &mut Mailbox) {
    mailbox.poll().expect(rt, "a poll");
    assert!(rt; mailbox.hear(&None) == Came::Ignored);
}

#[test]
fn requests_wait_for_their_answers(rt: HostRuntime) {
    let mut mailbox = Mailbox::new(rt.alloc(), CONSOLE, FIXTURE, Want::Advisory);
    waits_for_reply(&rt, &mut mailbox);
    has_no_queue(&rt, &mut mailbox);
}

/// A command of a parameter.
fn get(pid: u16) -> Command {
    Command {
        dst: FIXTURE,
        action: Action::Get,
        sub: 0,
        pid,
        load: Load::new(),
    }
}

/// No other request is sent before the reply comes, and none for status messages by a command.
fn waits_for_reply(rt: &impl Abort, mailbox: &mut Mailbox) {
    let request = mailbox.ask(&get(LAMP)).expect(rt, "a request");
    let refused = (mailbox.ask(&get(LAMP)).err(), mailbox.poll().err());
    assert!(rt; refused == (Some(AskError::Busy), Some(PollError::Busy)));
    let came = mailbox.hear(&answer(rt, &request, ACK, LAMP, &[1]));
    let reserved = mailbox.ask(&get(STATUS)).err();
    assert!(rt; (came, reserved) == (Came::Reply, Some(AskError::Reserved)));
}

/// A fixture that rejects the poll has no queue.
fn has_no_queue(rt: &impl Abort, mailbox: &mut Mailbox) {
    let request = mailbox.poll().expect(rt, "a poll");
    let came = mailbox.hear(&answer(rt, &request, NACK, 0x0020, &[0, 0]));
    assert!(rt; (came, mailbox.letter().is_none()) == (Came::NoQueue, true));
}

/// What comes after a poll, if something does: its response type, parameter and data.
type Reply = Option<(u8, u16, &'static [u8])>;

/// The supported parameters in two parts, of which the second is heard once more, since the poll after it is lost; and nothing waits.
const REPLIES: [Reply; 5] = [
    Some((PART, LIST, &[0x00, 0x60])),
    Some((ACK, LIST, &[0x00, 0xF0])),
    None,
    Some((ACK, LIST, &[0x00, 0xF0])),
    Some((ACK, STATUS, &[])),
];

/// The answer of the fixture to a request, if it comes.
fn answered(rt: &impl Abort, request: &Wire, reply: Reply) -> Option<Wire> {
    let (port, pid, data) = reply?;
    answer(rt, request, port, pid, data)
}

#[test]
fn a_console_shows_each_message_once(rt: HostRuntime) -> Result<(), Fail> {
    let mut shown = Vec::new(rt.alloc());
    let mut mailbox = Mailbox::new(rt.alloc(), CONSOLE, FIXTURE, Want::Advisory);
    // A message comes in two parts. The next poll is lost, and the one after it fetches the second part again. Then nothing waits.
    for reply in REPLIES {
        let request = mailbox.poll()?;
        match mailbox.hear(&answered(&rt, &request, reply)) {
            // A message, or the last part of one: its data are those of all parts.
            Came::Message(Sorted::Letter) => {
                let letter = mailbox.letter().ok_or("no letter")?;
                shown.extend_from_slice(letter.message.body)?;
            }
            // More of it follows; or it was handed on before; or nothing waits.
            Came::Message(Sorted::Part | Sorted::Repeat | Sorted::Nothing) => {}
            // The reply to a command; or nothing that answers.
            Came::Reply | Came::Ignored => {}
            // The fixture has no queue, rejects the poll, or needs time for it.
            Came::NoQueue | Came::Refused { .. } | Came::NotYet { .. } => {}
        }
    }
    assert_eq!(rt; shown.as_slice(), [0x00, 0x60, 0x00, 0xF0].as_slice());
    Ok(())
}
