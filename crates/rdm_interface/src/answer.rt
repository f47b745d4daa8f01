//! A message that answers.

ghost use Rattle.std.specs.Prelude.{◌≡◌, ◌≤◌, length, take, Some};
ghost use Rattle.rdm_messages.specs.Framing.{message_in};
ghost use Rattle.rdm_interface.specs.Answers.{heard_in, is_from_line};

use crate::wanted::line_bytes;
use rdm_frame::standard::MOST_SLOTS;
use rdm_frame::{Bytes, Wire};
use rdm_messages::labels::FROM_LINE;
use rdm_messages::{MOST_BODY, MessageView};
use std::marker::Model;

/// A message that came. A contract sees the message.
#[derive(Debug, Drop)]
pub(crate) struct Answer {
    label: u8,
    body: Bytes<MOST_BODY>,
}

impl Model for Answer {
    ghost use Rattle.rdm_messages.specs.Framing.{Message};

    ghost Value = { Message };

    ghost view = { λ a. record { label = a.label; body = a.body } };
}

impl Answer {
    /// The message that stands in a buffer.
    pub(crate) fn of(message: &MessageView<'_>) -> Answer
        requires { length message.now.body.now ≤ 600 }
        ensures { result ≡ message_in message.now }
    {
        Answer {
            label: message.label,
            body: Bytes::of(message.body),
        }
    }

    /// What it says.
    pub(crate) fn body(&self) -> &[u8]
        ensures { result.now ≡ self.now.body }
    {
        self.body.as_slice()
    }

    /// Whether it says that bytes came from the line.
    pub(crate) fn is_from_line(&self) -> bool
        ensures { result ≡ is_from_line self.now }
    {
        self.label == FROM_LINE
    }

    /// The bytes that came from the line, if it says that some did.
    pub(crate) fn heard(&self) -> Option<Wire>
        ensures { result ≡ heard_in (Some self.now) }
    {
        if self.is_from_line() {
            Some(front_of_frame(line_bytes(self.body())))
        } else {
            None
        }
    }
}

/// Of these bytes as many as a frame has at most.
fn front_of_frame(bytes: &[u8]) -> Wire
    ensures { result ≡ take 257 bytes.now }
{
    if bytes.len() > MOST_SLOTS {
        Wire::of(&bytes[..MOST_SLOTS])
    } else {
        Wire::of(bytes)
    }
}
