//! A console carries commands out on a device that answers by a list. What it does, and how that ends, was worked out by hand.

use rdm_console::{
    Action, Answered, AskError, AskFault, Came, Command, Conversation, Fetched, Fetching, Lack,
    Mailbox, Next, PollFault, Port, PortError, Response, Sorted, Uid, Want, Wire, ask_once,
    ask_through, poll_once,
};
use rdm_frame::digits::bytes_in;
use rdm_frame::{Body, Frame, Load, decode_view, encode};
use std::alloc::Global;
use std::fmt::Write;
use std::process::Abort;
use std::test::Fail;

const CONSOLE: Uid = Uid {
    maker: 0x7FF0,
    device: 2,
};

const FIXTURE: Uid = Uid {
    maker: 0x7FF0,
    device: 1,
};

const QUEUED: u16 = 0x0020;

const LAMP: u16 = 0x0403;

/// A command of LAMP_STATE (0403); what the device answers to each request: its response type, class, parameter and data, or `-` for
/// nothing; and all that the console does: `ask`, `poll`, `again` for a poll for the last message, and how many tenths of a second it
/// waits. Behind that is how it ends.
const RUNS: &[(Action, &str, &str)] = &[
    // It is answered at once: by ACK, by NACK_REASON, and when it is sent the third time; or never.
    (Action::Get, "0021040302", "ask Over(Ack)"),
    (Action::Set, "023104030006", "ask Over(Nack { reason: 6 })"),
    (Action::Set, "- - 00310403", "ask ask ask Over(Ack)"),
    (Action::Get, "- - -", "ask ask ask GiveUp(Silent)"),
    // The reply has parts, of which two are lost; and by a response type that isn't in table A-2.
    (
        Action::Get,
        "0321040302 - - 0321040303 - 0021040304",
        "ask ask ask ask ask ask Over(Ack)",
    ),
    (Action::Get, "04210403", "ask GiveUp(Unknown)"),
    // It takes time, and its result is the first message, or a deferred NACK behind another message.
    (Action::Set, "013104030003 00310403", "ask 3 poll Over(Ack)"),
    (
        Action::Set,
        "013104030003 0021060001 023104030002",
        "ask 3 poll poll Over(Nack { reason: 2 })",
    ),
    // Nothing waits yet: it polls again half a second later. The result needs more time. The poll itself does.
    (
        Action::Set,
        "013104030003 00210030 013104030007 012100200004 00310403",
        "ask 3 poll 5 poll 7 poll 4 poll Over(Ack)",
    ),
    // A poll is lost, and the last message is asked for again: it says what was heard before, and the next one is the result.
    (
        Action::Set,
        "013104030003 0021060001 - 0021060001 00310403",
        "ask 3 poll poll again poll Over(Ack)",
    ),
    // The message has parts, and a poll for the second is lost.
    (
        Action::Get,
        "012104030003 0321040301 - 0021040302",
        "ask 3 poll poll again Over(Ack)",
    ),
    (
        Action::Set,
        "013104030003 - - -",
        "ask 3 poll again again GiveUp(Silent)",
    ),
    // It has no queue, or rejects the poll: a GET is sent again, and polled for again if it needs time; a SET isn't.
    (
        Action::Get,
        "012104030003 022100200000 0021040302",
        "ask 3 poll ask Over(Ack)",
    ),
    (
        Action::Get,
        "012104030003 022100200005 012104030009 022100200000 023104030002 022104030002",
        "ask 3 poll ask 9 poll ask ask Over(Nack { reason: 2 })",
    ),
    (
        Action::Set,
        "013104030003 022100200000",
        "ask 3 poll GiveUp(NoQueue)",
    ),
    // The value that the device kept is no result, nor is that of another parameter. A status entry behind the value says why it failed.
    (
        Action::Set,
        "013104030003 0021040300 00310405 00310403",
        "ask 3 poll poll poll Over(Ack)",
    ),
    (
        Action::Set,
        "013104030003 0021040300 00210030000004800100020000",
        "ask 3 poll poll Failed(Entry { sub: 0, severity: Error, id: 32769, v1: 2, v2: 0 })",
    ),
];

/// A port to a device that answers by a list, which tells what is sent. At its end it is closed.
#[derive(Drop)]
struct Listed {
    replies: &'static str,
    told: String,
}

impl Port for Listed {
    ghost hears = { λ _ _ _ _. Unit {0} };

    ghost fails = { λ _ _ _ _. Unit {0} };

    fn exchange(&mut self, request: &Wire) -> Result<Option<Wire>, PortError> {
        let (reply, rest) = self.replies.split_once(' ').unwrap_or((self.replies, ""));
        self.replies = rest;
        let Ok(asked) = decode_view(request.as_slice()) else {
            return Err(PortError::Write);
        };
        let word = match (asked.pid, asked.body) {
            (QUEUED, [1]) => "again ",
            (QUEUED, _) => "poll ",
            _ => "ask ",
        };
        if self.told.push_str(word).is_err() {
            return Err(PortError::Write);
        }
        match reply {
            "" => Err(PortError::Closed),
            "-" => Ok(None),
            _ => Ok(answer(asked.tn, reply)),
        }
    }
}

/// The answer of the device in this transaction.
fn answer(tn: u8, reply: &str) -> Option<Wire> {
    if reply.len() > 100 {
        return None;
    }
    let load = bytes_in(reply.as_bytes())?;
    let [port, class, high, low, data @ ..] = load.as_slice() else {
        return None;
    };
    Some(encode(&Frame {
        dst: CONSOLE,
        src: FIXTURE,
        tn,
        port: *port,
        count: 0,
        sub: 0,
        class: *class,
        pid: u16::from_be_bytes([*high, *low]),
        body: Body::from_slice(data)?,
    }))
}

/// A port, and the mailbox of its device.
fn begun(alloc: Global, replies: &'static str) -> (Mailbox, Listed) {
    let port = Listed {
        replies,
        told: String::new(alloc),
    };
    (Mailbox::new(alloc, CONSOLE, FIXTURE, Want::Advisory), port)
}

/// How a command ends, that is carried out so.
fn ending(mailbox: &mut Mailbox, port: &mut Listed, command: &Command) -> Result<Next, Fail> {
    let mut conversation = Conversation::new(command);
    let mut next = Next::Ask;
    for _turn in 0..1000 {
        next = match next {
            Next::Ask => {
                let (came, heard) = ask_once(mailbox, port, command)?;
                conversation.hear_answer(Answered::of(came, &heard))
            }
            Next::Poll => {
                let (came, _heard) = poll_once(mailbox, port)?;
                conversation.hear_poll(came, mailbox)
            }
            Next::Wait { tenths } => {
                write!(port.told, "{tenths} ")?;
                conversation.waited()
            }
            end => return Ok(end),
        };
    }
    Ok(next)
}

#[test]
fn commands_are_carried_out(rt: HostRuntime) -> Result<(), Fail> {
    for (action, replies, run) in RUNS {
        let (mut mailbox, mut port) = begun(rt.alloc(), replies);
        runs(&mut mailbox, &mut port, &lamp(*action))?;
        assert!(rt; (port.told.as_str(), port.replies) == (*run, ""), "{run}");
    }
    Ok(())
}

/// Carries a command out, and tells how it ends behind what was done.
fn runs(mailbox: &mut Mailbox, port: &mut Listed, command: &Command) -> Result<(), Fail> {
    let end = ending(mailbox, port, command)?;
    write!(port.told, "{end:?}")?;
    Ok(())
}

/// A command of LAMP_STATE.
fn lamp(action: Action) -> Command {
    Command {
        dst: FIXTURE,
        action,
        sub: 0,
        pid: LAMP,
        load: Load::new(),
    }
}

#[test]
fn a_reply_has_300_parts_at_most(rt: HostRuntime) {
    let command = lamp(Action::Get);
    let mut conversation = Conversation::new(&command);
    let part = Answered::By(Response::AckOverflow);
    for number in 1..300 {
        assert!(rt;
            conversation.hear_answer(part) == Next::Ask,
            "part {number}"
        );
    }
    assert!(rt; conversation.hear_answer(part) == Next::GiveUp(Lack::Endless));
}

#[test]
fn a_message_takes_300_polls_at_most(rt: HostRuntime) {
    let mut fetching = Fetching::new();
    for number in 1..150 {
        let told = (
            fetching.hear(Came::Ignored),
            fetching.hear(Came::Message(Sorted::Part)),
        );
        assert!(rt; told == (None, None), "poll and part {number}");
    }
    let told = (
        fetching.hear(Came::Ignored),
        fetching.hear(Came::Ignored),
        fetching.hear(Came::Ignored),
    );
    assert!(rt; told == (None, Some(Fetched::Endless), None));
}

#[test]
fn sixty_messages_are_fetched_at_most(rt: HostRuntime) {
    let mailbox = Mailbox::new(rt.alloc(), CONSOLE, FIXTURE, Want::Advisory);
    let command = lamp(Action::Set);
    let mut conversation = Conversation::new(&command);
    conversation.hear_answer(Answered::By(Response::AckTimer { tenths: 3 }));
    for number in 1..61 {
        let told = (
            conversation.waited(),
            conversation.hear_poll(Came::NotYet { tenths: 1 }, &mailbox),
        );
        assert!(rt;
            told == (Next::Poll, Next::Wait { tenths: 1 }),
            "poll {number}"
        );
    }
    assert!(rt; conversation.waited() == Next::GiveUp(Lack::NoResult));
}

#[test]
fn a_command_is_sent_three_times(rt: HostRuntime) {
    is_asked(&rt, rt.alloc(), "- - 0021040302", true);
    is_asked(&rt, rt.alloc(), "- - - 0021040302", false);
}

/// A command is sent three times, and answered or not.
fn is_asked(rt: &impl Abort, alloc: Global, replies: &'static str, is_answered: bool) {
    let (mut mailbox, mut port) = begun(alloc, replies);
    let heard = ask_through(&mut mailbox, &mut port, &lamp(Action::Get)).expect(rt, "an end");
    assert!(rt; (heard.is_some(), port.told.as_str()) == (is_answered, "ask ask ask "));
}

#[test]
fn a_port_that_failed_leaves_nothing_open(rt: HostRuntime) {
    let (mut mailbox, mut port) = begun(rt.alloc(), "");
    let mut command = lamp(Action::Get);
    is_closed(&rt, &mut mailbox, &mut port, &command);
    mailbox.ask(&command).expect(&rt, "nothing is open");
    mailbox.hear(&None);
    command.pid = QUEUED;
    let refused = ask_through(&mut mailbox, &mut port, &command).err();
    let wanted = (Some(AskFault::Ask(AskError::Reserved)), "ask poll ");
    assert!(rt; (refused, port.told.as_str()) == wanted);
}

/// A command and a poll fail, since the port is closed.
fn is_closed(rt: &impl Abort, mailbox: &mut Mailbox, port: &mut Listed, command: &Command) {
    let asked = ask_through(mailbox, port, command).err();
    let polled = poll_once(mailbox, port).err();
    let wanted = (
        Some(AskFault::Port(PortError::Closed)),
        Some(PollFault::Port(PortError::Closed)),
    );
    assert!(rt; (asked, polled) == wanted);
}
