//! What is asked with a request.

ghost use Rattle.std.specs.Prelude.{◌≡◌};
ghost use Rattle.rdm_responder.specs.Requests.{discovery_of, request_of};
ghost use Rattle.rdm_judge.specs.Judging.{asked_with};

use rdm_frame::standard::{
    DISC_MUTE, DISC_UN_MUTE, DISC_UNIQUE_BRANCH, DISCOVERY_COMMAND, GET_COMMAND, SET_COMMAND,
};
use rdm_frame::{FrameView, Uid, uid_at};

/// What is asked with a request, as the device that is asked sees it.
#[derive(Clone, Copy)]
pub(crate) enum Asked {
    /// Whether the device is unmuted and its UID is one of these (E1.20 section 7.5).
    Branch {
        /// The first of them.
        lower: Uid,
        /// The last of them.
        upper: Uid,
    },
    /// That it mutes or un-mutes itself (section 7.6).
    Mute,
    /// A GET or a SET.
    Command,
    /// Nothing that it takes up.
    Nothing,
}

/// What the device with this UID is asked by a frame.
pub(crate) fn asked_by(own: Uid, request: &FrameView<'_>) -> Asked
    ensures { result ≡ asked_with (request_of own request.now) }
{
    if !request.dst.addresses(own) {
        return Asked::Nothing;
    }
    match request.class {
        DISCOVERY_COMMAND => asked_in_discovery(request),
        GET_COMMAND if request.dst.is_broadcast() => Asked::Nothing,
        GET_COMMAND | SET_COMMAND => Asked::Command,
        _ => Asked::Nothing,
    }
}

/// What is asked by a discovery command.
#[tactic(auto, unfolding(rdm_responder::specs::Requests::discovery_of))]
fn asked_in_discovery(request: &FrameView<'_>) -> Asked
    ensures { result ≡ asked_with (discovery_of request.now) }
{
    if request.sub != 0 {
        return Asked::Nothing;
    }
    let bounds = request.body;
    match request.pid {
        DISC_UNIQUE_BRANCH if bounds.len() == 12 => Asked::Branch {
            lower: uid_at(bounds, 0),
            upper: uid_at(bounds, 6),
        },
        DISC_MUTE | DISC_UN_MUTE if bounds.is_empty() => Asked::Mute,
        _ => Asked::Nothing,
    }
}
