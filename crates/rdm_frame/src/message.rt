//! What a response tells a controller.

ghost use Rattle.std.specs.Prelude.{◌≡◌};

use crate::Body;

/// A message that waits for a controller, or that answers QUEUED_MESSAGE or STATUS_MESSAGES (E1.20 section 10.3.1).
#[derive(Debug, Drop, PartialEq, Eq)]
pub struct Message {
    /// The command class of the response (table A-1).
    pub class: u8,
    /// The PID.
    pub pid: u16,
    /// The sub-device, or 0 for the root.
    pub sub: u16,
    /// The parameter data: at most 231 slots.
    pub body: Body,
}

impl Message {
    /// The same message again.
    pub fn copy(&self) -> Self
        ensures { result ≡ self.now }
    {
        Message {
            class: self.class,
            pid: self.pid,
            sub: self.sub,
            body: self.body.copy(),
        }
    }
}
