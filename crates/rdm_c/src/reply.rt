//! A reply as numbers.

ghost use Rattle.std.specs.Prelude.{◌≡◌};
ghost use Rattle.rdm_c.specs.Replies.{Says, type_of, reason_of, tenths_of};

use crate::front::write_front;
use rdm_collector::{Reply, Response};
use rdm_frame::standard::{ACK, ACK_TIMER, MOST_DATA, NACK_REASON};

/// What a response says. The header calls it `felosumay_reply`.
#[repr(C)]
#[derive(Clone, Copy)]
pub struct ReplyNumbers {
    /// How many bytes of parameter data it has.
    pub count: usize,
    /// The device ID of the device that answers (E1.20 section 6.2.5).
    pub device: u32,
    /// Its manufacturer ID.
    pub maker: u16,
    /// The sub-device, or 0 for the root.
    pub sub: u16,
    /// The PID.
    pub pid: u16,
    /// The reason of a NACK_REASON (table A-17), else 0.
    pub reason: u16,
    /// The estimate of an ACK_TIMER in tenths of a second (section 6.3.3), else 0.
    pub tenths: u16,
    /// The response type (table A-2).
    pub kind: u8,
    /// The command class of the response (table A-1).
    pub command_class: u8,
    /// How many messages wait in the device, at most 255 (section 6.2.8).
    pub waiting: u8,
    /// The parameter data at the front.
    pub bytes: [u8; MOST_DATA],
}

impl ReplyNumbers {
    /// Tells what a response says.
    pub(crate) fn tell(&mut self, reply: &Reply<'_>)
        ensures { Says self.new reply.now }
    {
        self.count = write_front(reply.body, &mut self.bytes);
        self.device = reply.src.device;
        self.maker = reply.src.maker;
        self.sub = reply.sub;
        self.pid = reply.pid;
        self.command_class = reply.class;
        self.waiting = reply.waiting;
        let (kind, reason, tenths) = numbers_of(reply.response);
        self.kind = kind;
        self.reason = reason;
        self.tenths = tenths;
    }
}

/// The response type, the reason and the estimate.
pub(crate) fn numbers_of(response: Response) -> (u8, u16, u16)
    ensures { (result.0 ≡ type_of response) × (result.1 ≡ reason_of response) × (result.2 ≡ tenths_of response) }
{
    match response {
        Response::Ack => (ACK, 0, 0),
        Response::AckTimer { tenths } => (ACK_TIMER, 0, tenths),
        Response::Nack { reason } => (NACK_REASON, reason, 0),
        Response::AckOverflow => (0x03, 0, 0),
    }
}
