//! A request that waits for its answer, and what a frame is taken for then.

ghost use Rattle.std.specs.Prelude.{◌≡◌, IsTrue};
ghost use Rattle.rdm_collector.specs.Answers.{is_message, is_reply, is_poll, taken_for};

use rdm_frame::FrameView;
use rdm_frame::standard::{ACK, GET_COMMAND_RESPONSE, SET_COMMAND_RESPONSE};

/// A request that was sent and waits for its answer.
#[derive(Clone, Copy, Debug, PartialEq, Eq)]
pub(crate) enum Transaction {
    /// A poll.
    Poll {
        /// The transaction number (E1.20 section 6.2.6).
        tn: u8,
    },
    /// A user's command.
    Command {
        /// The transaction number (section 6.2.6).
        tn: u8,
        /// The command class of the request (table A-1).
        class: u8,
        /// The sub-device (section 6.2.9).
        sub: u16,
        /// The parameter ID (section 6.2.10).
        pid: u16,
    },
}

/// What a collector takes bytes for that it hears.
#[derive(Clone, Copy, Debug, PartialEq, Eq)]
pub enum Heard {
    /// The answer to its open poll, which it has recorded.
    Message,
    /// The reply to its open command.
    Reply,
    /// Something else.
    Ignored,
}

/// What the open transaction, if there is one, takes a frame from its target for.
pub(crate) fn taken_for(transaction: Option<Transaction>, frame: &FrameView<'_>) -> Heard
    ensures heard { result ≡ taken_for transaction frame.now }
    ensures poll { result ≡ Heard.Message → IsTrue (is_poll transaction) }
{
    match transaction {
        Some(Transaction::Poll { tn }) if is_message(tn, frame) => Heard::Message,
        Some(
            Transaction::Command {
                tn,
                class,
                sub,
                pid,
            },
        ) if is_reply(tn, class, sub, pid, frame) => Heard::Reply,
        _ => Heard::Ignored,
    }
}

/// Whether a frame is the message that answers the poll with this transaction number.
fn is_message(tn: u8, frame: &FrameView<'_>) -> bool
    ensures { result ≡ is_message tn frame.now }
{
    frame.tn == tn
        && (frame.class == GET_COMMAND_RESPONSE || frame.class == SET_COMMAND_RESPONSE)
        && frame.port == ACK
}

/// Whether a frame is the reply to a command with this transaction number, command class, sub-device and parameter
/// ID.
pub(crate) fn is_reply(tn: u8, class: u8, sub: u16, pid: u16, frame: &FrameView<'_>) -> bool
    ensures { result ≡ is_reply tn class sub pid frame.now }
{
    frame.tn == tn
        && u16::from(frame.class) == u16::from(class) + 1
        && frame.sub == sub
        && frame.pid == pid
}
