//! What goes wrong with the frames of a transaction on their way.

ghost use Rattle.std.specs.Prelude.{◌≡◌, ◌<◌, IfSome};
ghost use Rattle.rdm_frame.specs.Faults.{raise_of, altered, request_heard, reply_heard};

use crate::Wire;
use crate::ranges::byte_fits;

/// What goes wrong with one transaction. A slot is counted modulo the number of bytes, and raised modulo 256.
#[derive(Clone, Copy, Debug, PartialEq, Eq)]
pub enum Fault {
    /// Nothing.
    None,
    /// The device doesn't hear the request.
    LostRequest,
    /// The controller doesn't hear the reply.
    LostReply,
    /// This slot of the request is raised by this much, from 1 to 255, before the device hears it.
    BadRequest(u16, u8),
    /// This slot of the reply is raised by this much, from 1 to 255, before the controller hears it.
    BadReply(u16, u8),
}

impl Fault {
    /// By how much a slot is raised, if one is.
    pub fn raise(&self) -> Option<u8>
        ensures value { result ≡ raise_of self.now }
        ensures byte { IfSome result (λ raise. raise < 256) }
    {
        match *self {
            Fault::BadRequest(_, raise) | Fault::BadReply(_, raise) => {
                byte_fits(raise);
                Some(raise)
            }
            Fault::LostRequest | Fault::LostReply | Fault::None => None,
        }
    }

    /// What the device hears of a request.
    pub fn request_heard(&self, sent: &Wire) -> Option<Wire>
        ensures { result ≡ request_heard self.now sent.now }
    {
        match *self {
            Fault::LostRequest => None,
            Fault::BadRequest(slot, raise) => Some(altered(sent, slot, raise)),
            Fault::None | Fault::LostReply | Fault::BadReply(_, _) => Some(sent.copy()),
        }
    }

    /// What the controller hears of a reply.
    pub fn reply_heard(&self, reply: &Wire) -> Option<Wire>
        ensures { result ≡ reply_heard self.now reply.now }
    {
        match *self {
            Fault::LostReply => None,
            Fault::BadReply(slot, raise) => Some(altered(reply, slot, raise)),
            Fault::None | Fault::LostRequest | Fault::BadRequest(_, _) => Some(reply.copy()),
        }
    }
}

/// The bytes with one slot raised. The slot is counted modulo their number, and raised modulo 256.
fn altered(bytes: &Wire, slot: u16, raise: u8) -> Wire
    ensures { result ≡ altered bytes.now slot raise }
{
    let slots = bytes.as_slice();
    if slots.is_empty() {
        return Wire::new();
    }
    let at = usize::from(slot) % slots.len();
    let mut altered = Wire::new();
    altered.append(&slots[..at]);
    altered.append(&[slots[at].wrapping_add(raise)]);
    altered.append(&slots[at + 1..]);
    altered
}
