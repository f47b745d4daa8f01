//! What a frame says.

use crate::{Body, FrameView, Uid};

/// A request or a response, without its text (E1.20 section 6.2).
#[derive(Debug, Drop, PartialEq, Eq)]
pub struct Frame {
    /// The destination UID (E1.20 section 6.2.4).
    pub dst: Uid,
    /// The source UID (section 6.2.5).
    pub src: Uid,
    /// The transaction number (section 6.2.6).
    pub tn: u8,
    /// The port ID in a request, the response type in a response (section 6.2.7; the response types are those of
    /// [`standard`](crate::standard)).
    pub port: u8,
    /// The message count: how many messages wait in the responder, at most 255; 0 in a request (section 6.2.8).
    pub count: u8,
    /// The sub-device: 0 for the root device, 0xFFFF for all sub-devices (section 6.2.9).
    pub sub: u16,
    /// The command class (section 6.2.10, table A-1).
    pub class: u8,
    /// The parameter ID, PID (section 6.2.10, table A-3).
    pub pid: u16,
    /// The parameter data, at most 231 slots (section 6.2.10).
    pub body: Body,
}

impl Frame {
    ghost use Rattle.std.specs.Prelude.{◌≡◌};

    /// The frame, with its parameter data borrowed.
    pub fn view(&self) -> FrameView<'_>
        ensures { result ≡ self.now }
    {
        FrameView {
            dst: self.dst,
            src: self.src,
            tn: self.tn,
            port: self.port,
            count: self.count,
            sub: self.sub,
            class: self.class,
            pid: self.pid,
            body: self.body.as_slice(),
        }
    }
}
