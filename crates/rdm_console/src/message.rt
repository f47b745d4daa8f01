//! A message that a device sent.

use rdm_collector::Response;
use std::marker::Model;

/// A message that a device sent, whole, with its data borrowed.
#[derive(Debug, Drop)]
pub struct MessageView<'a> {
    /// Its response type: ACK; NACK_REASON, which is a deferred NACK; or ACK_TIMER (E1.20 section 6.3, table A-2).
    pub response: Response,
    /// The command class (table A-1).
    pub class: u8,
    /// The sub-device, or 0 for the root (section 9).
    pub sub: u16,
    /// The parameter ID (table A-3).
    pub pid: u16,
    /// The parameter data: of a message that came in parts, those of all parts, one behind the other (section 6.3.2). The data of a
    /// NACK are its reason, and those of an ACK_TIMER the estimate.
    pub body: &'a [u8],
}

impl<'a> Model for MessageView<'a> {
    ghost use Rattle.rdm_console.specs.Belonging.{Told};

    ghost Value = { Told };

    ghost view = { λ m. record {
      response = m.response;
      class = m.class;
      sub = m.sub;
      pid = m.pid;
      body = m.body.now;
    } };
}
