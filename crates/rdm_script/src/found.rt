//! Which fixture a transaction finds.

ghost use Rattle.std.specs.Prelude.{◌≡◌};
ghost use Rattle.rdm_script.specs.Finds.{is_mute, is_ack_of, found_by, found_of, is_reply, found_in};

use rdm_bus::Event;
use rdm_collector::Heard;
use rdm_frame::standard::{ACK, DISC_MUTE, DISCOVERY_COMMAND};
use rdm_frame::{FrameView, Uid, Wire, decode_view};

/// Whether the lines of a run tell which fixtures it finds.
#[derive(Clone, Copy, Debug)]
pub enum Finds {
    /// Behind each transaction that finds a fixture a line tells which.
    Told,
    /// No line tells it.
    Untold,
}

/// The fixture that an event finds: the one that acknowledges its DISC_MUTE (E1.20 section 7.6), which the controller hears.
#[tactic(auto, unfolding(crate::specs::Finds::found_in))]
pub(crate) fn found_in(event: &Event) -> Option<Uid>
    ensures { result ≡ found_in event.now }
{
    match event {
        Event::Bus {
            sent,
            reply,
            heard,
            ..
        } => {
            if !is_reply(*heard) {
                return None;
            }
            match decode_view(sent.as_slice()) {
                Ok(request) => found_of(&request, reply),
                Err(_) => None,
            }
        }
        Event::Arrived { .. } | Event::Changed { .. } => None,
    }
}

/// Whether the controller took what it heard for the reply to its command.
fn is_reply(heard: Option<Heard>) -> bool
    ensures { result ≡ is_reply heard }
{
    match heard {
        Some(Heard::Reply) => true,
        Some(Heard::Message | Heard::Ignored) | None => false,
    }
}

/// The device that the bytes of a reply to a request find.
fn found_of(request: &FrameView<'_>, reply: &Option<Wire>) -> Option<Uid>
    ensures { result ≡ found_of request.now reply.now }
{
    let Some(bytes) = reply else {
        return None;
    };
    match decode_view(bytes.as_slice()) {
        Ok(reply) => found_by(request, &reply),
        Err(_) => None,
    }
}

/// The device that a reply to a request finds.
fn found_by(request: &FrameView<'_>, reply: &FrameView<'_>) -> Option<Uid>
    ensures { result ≡ found_by request.now reply.now }
{
    if is_mute(request) && is_ack_of(request.dst, reply) {
        Some(request.dst)
    } else {
        None
    }
}

/// Whether a request is a DISC_MUTE for one device.
fn is_mute(request: &FrameView<'_>) -> bool
    ensures { result ≡ is_mute request.now }
{
    request.class == DISCOVERY_COMMAND && request.pid == DISC_MUTE && !request.dst.is_broadcast()
}

/// Whether a reply is one of that device whose response type is ACK.
fn is_ack_of(uid: Uid, reply: &FrameView<'_>) -> bool
    ensures { result ≡ is_ack_of uid reply.now }
{
    reply.port == ACK && reply.src == uid
}
