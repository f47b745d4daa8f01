//! Which message answers what is asked.

ghost use Rattle.std.specs.Prelude.{◌≡◌, false, is_some, drop};
ghost use Rattle.std.specs.Option.{option_map_or};
ghost use Rattle.rdm_frame.specs.Reading.{frame_in};
ghost use Rattle.rdm_messages.specs.Framing.{message_in};
ghost use Rattle.rdm_interface.specs.Answers.{asks_again, belongs, comes_from, has_bytes, has_response, is_altered, is_branch, is_fetch, is_mute, is_response, label_for, line_bytes, responds_to, wanted_by};

use rdm_frame::standard::{
    DISC_MUTE, DISC_UNIQUE_BRANCH, DISCOVERY_COMMAND, GET_COMMAND, GET_COMMAND_RESPONSE,
    GET_LAST_MESSAGE, QUEUED_MESSAGE, SET_COMMAND_RESPONSE, STATUS_MESSAGES,
};
use rdm_frame::{FrameView, Uid, decode_view};
use rdm_messages::MessageView;
use rdm_messages::labels::{DISCOVERY, FROM_LINE, REQUEST, TIMEOUT};

/// Which message is waited for.
#[derive(Debug, Drop)]
pub(crate) enum Wanted<'a> {
    /// The one with this label.
    Labelled(u8),
    /// The answer to DISC_UNIQUE_BRANCH (E1.20 section 7.5).
    Branch,
    /// The response to this request (section 6.2).
    Response(FrameView<'a>),
    /// Whatever comes, though nothing may (section 6.2.11).
    Anything,
}

impl Wanted<'_> {
    /// With which label the request is sent.
    pub(crate) fn label(&self) -> u8
        ensures { result ≡ label_for self.now }
    {
        match self {
            Wanted::Branch => DISCOVERY,
            Wanted::Labelled(_) | Wanted::Response(_) | Wanted::Anything => REQUEST,
        }
    }

    /// Whether a message is the one.
    pub(crate) fn belongs(&self, message: &MessageView<'_>) -> bool
        ensures { result ≡ belongs self.now (message_in message.now) }
    {
        match self {
            Wanted::Labelled(label) => message.label == *label,
            Wanted::Branch | Wanted::Anything => message.label == TIMEOUT || has_bytes(message),
            Wanted::Response(request) => {
                message.label == TIMEOUT
                    || has_response(request, message)
                    || is_mute(request) && is_altered(message)
            }
        }
    }
}

/// What is waited for when these bytes are sent on the line.
pub(crate) fn wanted_by(request: &[u8]) -> Wanted<'_>
    ensures { result ≡ wanted_by request.now }
{
    match decode_view(request) {
        Ok(frame) => {
            if is_branch(&frame) {
                Wanted::Branch
            } else {
                Wanted::Response(frame)
            }
        }
        Err(_) => Wanted::Anything,
    }
}

/// Whether a request is DISC_UNIQUE_BRANCH.
fn is_branch(request: &FrameView<'_>) -> bool
    ensures { result ≡ is_branch request.now }
{
    request.class == DISCOVERY_COMMAND && request.pid == DISC_UNIQUE_BRANCH
}

/// Whether a request is DISC_MUTE, which is asked again where the answer was altered.
fn is_mute(request: &FrameView<'_>) -> bool
    ensures { result ≡ is_mute request.now }
{
    request.class == DISCOVERY_COMMAND && request.pid == DISC_MUTE
}

/// Whether a message says that bytes came from the line.
fn has_bytes(message: &MessageView<'_>) -> bool
    ensures { result ≡ has_bytes (message_in message.now) }
{
    message.label == FROM_LINE && message.body.len() > 1
}

/// Whether a message says that a response to a request came from the line.
fn has_response(request: &FrameView<'_>, message: &MessageView<'_>) -> bool
    ensures { result ≡ has_response request.now (message_in message.now) }
{
    message.label == FROM_LINE && is_response_in(request, line_bytes(message.body))
}

/// Whether a message says that bytes came from the line that are no frame.
fn is_altered(message: &MessageView<'_>) -> bool
    ensures { result ≡ is_altered (message_in message.now) }
{
    has_bytes(message) && !is_frame(line_bytes(message.body))
}

/// Whether bytes are the text of a frame.
fn is_frame(bytes: &[u8]) -> bool
    ensures { result ≡ is_some (frame_in bytes.now) }
{
    decode_view(bytes).is_ok()
}

/// The bytes that came from the line, behind the status byte.
pub(crate) fn line_bytes(body: &[u8]) -> &[u8]
    ensures { result.now ≡ drop 1 body.now }
{
    if body.is_empty() { body } else { &body[1..] }
}

/// Whether bytes are the text of a response to a request.
fn is_response_in(request: &FrameView<'_>, bytes: &[u8]) -> bool
    ensures { result ≡ option_map_or (is_response request.now) (frame_in bytes.now) false }
{
    match decode_view(bytes) {
        Ok(frame) => is_response(request, &frame),
        Err(_) => false,
    }
}

/// Whether a frame is a response to a request (E1.20 sections 6.2.4 to 6.2.10).
fn is_response(request: &FrameView<'_>, frame: &FrameView<'_>) -> bool
    ensures { result ≡ is_response request.now frame.now }
{
    frame.tn == request.tn
        && comes_from(request.dst, frame.src)
        && frame.dst == request.src
        && responds_to(request, frame)
}

/// Whether a device may be the one that was asked. To a broadcast no device responds (section 6.2.4): any that does is heard.
fn comes_from(destination: Uid, device: Uid) -> bool
    ensures { result ≡ comes_from destination device }
{
    device == destination || destination.is_broadcast()
}

/// Whether a frame responds to the command of a request: what fetches a message is answered by any (sections 10.3.1 and 10.3.2).
fn responds_to(request: &FrameView<'_>, frame: &FrameView<'_>) -> bool
    ensures { result ≡ responds_to request.now frame.now }
{
    if is_fetch(request) {
        frame.class == GET_COMMAND_RESPONSE || frame.class == SET_COMMAND_RESPONSE
    } else {
        u16::from(frame.class) == u16::from(request.class) + 1
            && frame.sub == request.sub
            && frame.pid == request.pid
    }
}

/// Whether a request fetches a message: GET QUEUED_MESSAGE, or GET STATUS_MESSAGES of the last message again.
fn is_fetch(request: &FrameView<'_>) -> bool
    ensures { result ≡ is_fetch request.now }
{
    request.class == GET_COMMAND
        && (request.pid == QUEUED_MESSAGE
            || request.pid == STATUS_MESSAGES && asks_again(request.body))
}

/// Whether these data are the status type of the last message again (table A-4).
fn asks_again(body: &[u8]) -> bool
    ensures { result ≡ asks_again body.now }
{
    body.len() == 1 && body[0] == GET_LAST_MESSAGE
}
