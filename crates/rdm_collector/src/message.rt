//! The message that a response carries.

ghost use Rattle.std.specs.Prelude.{◌≡◌};
ghost use Rattle.rdm_collector.specs.Answers.{message_of};

use rdm_frame::{FrameView, Message};

/// The message that a response carries (E1.20 section 10.3.1).
pub(crate) fn message_of(frame: &FrameView<'_>) -> Message
    ensures { result ≡ message_of frame.now }
{
    Message {
        class: frame.class,
        pid: frame.pid,
        sub: frame.sub,
        body: frame.to_frame().body,
    }
}
