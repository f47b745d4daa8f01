//! What a collector for any device takes a frame for.

ghost use Rattle.std.specs.Prelude.{◌≡◌, IsTrue};
ghost use Rattle.rdm_collector.specs.Answers.{is_poll};
ghost use Rattle.rdm_collector.specs.AnyDevice.Answers.{answer_to, taken_for, poll_heard};

use crate::reply::{Response, response_in};
use crate::transaction::{Transaction, is_reply};
use rdm_frame::standard::{GET_COMMAND_RESPONSE, QUEUED_MESSAGE, SET_COMMAND_RESPONSE};
use rdm_frame::{FrameView, Nack};

/// What a collector for any device takes bytes for that it hears.
#[derive(Clone, Copy, Debug, PartialEq, Eq)]
pub enum DeviceHeard {
    /// The answer to its open poll, a message of the device's queue or its status message, which it has recorded. Its response
    /// type may be ACK, NACK_REASON, as of a deferred NACK, or ACK_TIMER (E1.20 sections 6.3 and 10.3.1).
    Message,
    /// ACK_OVERFLOW: a part of such a message, which it has recorded. The next polls fetch the others (section 6.3.2).
    Part,
    /// NACK_REASON of QUEUED_MESSAGE itself, with the reason of an unknown PID: the device has no queue (section 6.3.4, table
    /// A-17).
    Unsupported,
    /// NACK_REASON of QUEUED_MESSAGE itself, with another reason: the device rejects this poll, and the next one goes on.
    Refused {
        /// The code of the reason (table A-17).
        reason: u16,
    },
    /// ACK_TIMER of QUEUED_MESSAGE itself: the device needs time to answer the poll (section 6.3.3).
    NotYet {
        /// The estimate, in tenths of a second.
        tenths: u16,
    },
    /// The reply to its open command, of whatever response type.
    Reply,
    /// Something else.
    Ignored,
}

/// What the open transaction takes a frame for.
#[derive(Clone, Copy, Debug)]
pub(crate) enum Taken {
    /// The answer to its poll, of this response type.
    Answer(Response),
    /// The reply to its command.
    Reply,
    /// Neither.
    Nothing,
}

/// What the open transaction, if there is one, takes a frame from its target for.
pub(crate) fn taken_for(transaction: Option<Transaction>, frame: &FrameView<'_>) -> Taken
    ensures taken { result ≡ taken_for transaction frame.now }
    ensures poll { (r : Response) → result ≡ Taken.Answer r → IsTrue (is_poll transaction) }
{
    match transaction {
        Some(Transaction::Poll { tn }) => match answer_to(tn, frame) {
            Some(response) => Taken::Answer(response),
            None => Taken::Nothing,
        },
        Some(
            Transaction::Command {
                tn,
                class,
                sub,
                pid,
            },
        ) if is_reply(tn, class, sub, pid, frame) => Taken::Reply,
        _ => Taken::Nothing,
    }
}

/// How a frame answers the poll with this transaction number, if it does.
fn answer_to(tn: u8, frame: &FrameView<'_>) -> Option<Response>
    ensures { result ≡ answer_to tn frame.now }
{
    let is_response = frame.class == GET_COMMAND_RESPONSE || frame.class == SET_COMMAND_RESPONSE;
    if frame.tn == tn && is_response {
        response_in(frame.port, frame.body)
    } else {
        None
    }
}

/// What an answer to a poll, of this parameter and response type, is heard as.
pub(crate) fn poll_heard(pid: u16, response: Response) -> DeviceHeard
    ensures { result ≡ poll_heard pid response }
{
    let is_of_poll = pid == QUEUED_MESSAGE;
    match response {
        Response::AckOverflow => DeviceHeard::Part,
        Response::AckTimer { tenths } if is_of_poll => DeviceHeard::NotYet { tenths },
        Response::Nack { reason } if is_of_poll && reason == Nack::UnknownPid.code() => {
            DeviceHeard::Unsupported
        }
        Response::Nack { reason } if is_of_poll => DeviceHeard::Refused { reason },
        Response::Ack | Response::AckTimer { .. } | Response::Nack { .. } => DeviceHeard::Message,
    }
}
