//! What a response says.

ghost use Rattle.std.specs.Prelude.{◌≡◌};
ghost use Rattle.rdm_collector.specs.Replies.{reply_in, is_response, response_in};

use rdm_frame::standard::{
    ACK, ACK_OVERFLOW, ACK_TIMER, DISCOVERY_COMMAND_RESPONSE, GET_COMMAND_RESPONSE, NACK_REASON,
    SET_COMMAND_RESPONSE,
};
use rdm_frame::{Uid, decode_view};
use std::marker::Model;

/// How a request is answered (E1.20 section 6.3, table A-2).
#[derive(Clone, Copy, Debug, PartialEq, Eq)]
pub enum Response {
    /// ACK: it was carried out (section 6.3.1).
    Ack,
    /// ACK_TIMER: its result comes later (section 6.3.3).
    AckTimer {
        /// The estimate, in tenths of a second.
        tenths: u16,
    },
    /// NACK_REASON: it is rejected (section 6.3.4).
    Nack {
        /// The code of the reason (table A-17).
        reason: u16,
    },
    /// ACK_OVERFLOW: its data are a part, and the same request fetches the next (section 6.3.2).
    AckOverflow,
}

/// What a response says, with its parameter data borrowed.
#[derive(Debug, Drop)]
pub struct Reply<'a> {
    /// How the request is answered.
    pub response: Response,
    /// The device that answers (section 6.2.5).
    pub src: Uid,
    /// How many messages wait in it, at most 255 (section 6.2.8).
    pub waiting: u8,
    /// The sub-device, or 0 for the root (section 6.2.9).
    pub sub: u16,
    /// The command class of the response (table A-1).
    pub class: u8,
    /// The parameter ID (table A-3).
    pub pid: u16,
    /// The parameter data, at most 231 bytes: of an ACK_TIMER the estimate, of a NACK_REASON the reason.
    pub body: &'a [u8],
}

impl<'a> Model for Reply<'a> {
    ghost use Rattle.std.specs.Prelude.{◌≤◌, length};
    ghost use Rattle.rdm_collector.specs.Replies.{Said};

    ghost Value = { Said };

    ghost view = { λ r. record {
      response = r.response;
      src = r.src;
      waiting = r.waiting;
      sub = r.sub;
      class = r.class;
      pid = r.pid;
      body = r.body.now;
    } };

    ghost invariant = { λ r. length r.body.now ≤ 231 };
}

/// What bytes say as a response, or `None` if they aren't one: the text of a frame of class 11, 21 or 31 with a response type of
/// table A-2, in which ACK_TIMER and NACK_REASON have two bytes of data (E1.20 section 6.3). Whom it is for isn't asked:
/// `Collector::hear` says whether it answers the open request.
pub fn read_reply(bytes: &[u8]) -> Option<Reply<'_>>
    ensures { result ≡ reply_in bytes.now }
{
    let Ok(frame) = decode_view(bytes) else {
        return None;
    };
    if !is_response(frame.class) {
        return None;
    }
    let response = response_in(frame.port, frame.body)?;
    Some(Reply {
        response,
        src: frame.src,
        waiting: frame.count,
        sub: frame.sub,
        class: frame.class,
        pid: frame.pid,
        body: frame.body,
    })
}

/// Whether a command class is a response's (table A-1).
fn is_response(class: u8) -> bool
    ensures { result ≡ is_response class }
{
    class == DISCOVERY_COMMAND_RESPONSE
        || class == GET_COMMAND_RESPONSE
        || class == SET_COMMAND_RESPONSE
}

/// How a request is answered by this response type with these data.
pub(crate) fn response_in(response_type: u8, body: &[u8]) -> Option<Response>
    ensures { result ≡ response_in response_type body.now }
{
    match (response_type, body) {
        (ACK, _) => Some(Response::Ack),
        (ACK_TIMER, [a, b]) => Some(Response::AckTimer {
            tenths: u16::from_be_bytes([*a, *b]),
        }),
        (NACK_REASON, [a, b]) => Some(Response::Nack {
            reason: u16::from_be_bytes([*a, *b]),
        }),
        (ACK_OVERFLOW, _) => Some(Response::AckOverflow),
        _ => None,
    }
}
