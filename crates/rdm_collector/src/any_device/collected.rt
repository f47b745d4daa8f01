//! What was collected.

ghost use Rattle.std.specs.Prelude.{◌≡◌};
ghost use Rattle.rdm_collector.specs.AnyDevice.Collecting.{collected};

use crate::message::message_of;
use crate::reply::Response;
use rdm_frame::{FrameView, Message};

/// A message that was collected, or a part of one (E1.20 section 10.3.1).
#[derive(Debug, Drop, PartialEq, Eq)]
pub struct Collected {
    /// Its response type: ACK; NACK_REASON, which is a deferred NACK; ACK_TIMER; or ACK_OVERFLOW, if it is a part (section 6.3,
    /// table A-2).
    pub response: Response,
    /// The message. The data of a NACK are its reason, and those of an ACK_TIMER the estimate.
    pub message: Message,
    /// Whether the poll asked for the last message again, STATUS_GET_LAST_MESSAGE (table A-4): it may be a repeat of what was
    /// recorded before it.
    pub again: bool,
    /// Whether a poll has no answer, of those since something was recorded before it: what that poll fetched may be missing here.
    pub after_loss: bool,
}

/// What is recorded of an answer to a poll, of this response type.
pub(crate) fn record_of(
    again: bool,
    after_loss: bool,
    frame: &FrameView<'_>,
    response: Response,
) -> Collected
    ensures { result ≡ collected again after_loss frame.now response }
{
    Collected {
        response,
        message: message_of(frame),
        again,
        after_loss,
    }
}
