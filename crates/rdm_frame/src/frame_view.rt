//! A frame whose parameter data are borrowed.

use crate::{Body, Frame, Uid};
use std::marker::Model;

/// What a frame says, with its parameter data borrowed. A contract sees the frame.
#[derive(Debug, Drop)]
pub struct FrameView<'a> {
    /// The destination UID (E1.20 section 6.2.4).
    pub dst: Uid,
    /// The source UID (section 6.2.5).
    pub src: Uid,
    /// The transaction number (section 6.2.6).
    pub tn: u8,
    /// The port ID in a request, the response type in a response (section 6.2.7; the response types are those of
    /// [`standard`](crate::standard)).
    pub port: u8,
    /// The message count: how many messages wait in the responder, at most 255; 0 in a request (section 6.2.8).
    pub count: u8,
    /// The sub-device: 0 for the root device, 0xFFFF for all sub-devices (section 6.2.9).
    pub sub: u16,
    /// The command class (section 6.2.10, table A-1).
    pub class: u8,
    /// The parameter ID, PID (section 6.2.10, table A-3).
    pub pid: u16,
    /// The parameter data, at most 231 slots (section 6.2.10).
    pub body: &'a [u8],
}

impl<'a> Model for FrameView<'a> {
    ghost use Rattle.std.specs.Prelude.{◌≤◌, length};
    ghost use Rattle.rdm_frame.specs.declared.frame.Frame.{Frame as TheFrame};

    ghost Value = { TheFrame };

    ghost view = { λ f. record {
      dst = f.dst;
      src = f.src;
      tn = f.tn;
      port = f.port;
      count = f.count;
      sub = f.sub;
      class = f.class;
      pid = f.pid;
      body = f.body.now;
    } };

    ghost invariant = { λ f. length f.body.now ≤ 231 };
}

impl<'a> FrameView<'a> {
    ghost use Rattle.std.specs.Prelude.{◌≡◌};

    /// The frame, with its own parameter data.
    pub fn to_frame(&self) -> Frame
        ensures { result ≡ self.now }
    {
        let mut body = Body::new();
        body.append(self.body);
        Frame {
            dst: self.dst,
            src: self.src,
            tn: self.tn,
            port: self.port,
            count: self.count,
            sub: self.sub,
            class: self.class,
            pid: self.pid,
            body,
        }
    }
}
