//! The requests of a search.

ghost use Rattle.std.specs.Prelude.{◌≡◌, ◌++◌};
ghost use Rattle.rdm_frame.specs.FrameText.{uid_slots};

use rdm_frame::standard::{
    DISC_MUTE, DISC_UN_MUTE, DISC_UNIQUE_BRANCH, DISCOVERY_COMMAND, FIRST_PORT, ROOT_DEVICE,
};
use rdm_frame::{Body, Frame, Uid};

/// What a search asks.
#[derive(Clone, Copy, Debug, PartialEq, Eq)]
pub enum Request {
    /// DISC_UN_MUTE: all fixtures answer branches again (E1.20 section 7.6).
    UnMute,
    /// DISC_UNIQUE_BRANCH: each unmuted fixture from the lower bound to the upper one answers (section 7.5).
    UniqueBranch(Uid, Uid),
    /// DISC_MUTE: the fixture with this UID answers, and no branch from then on (section 7.6).
    Mute(Uid),
}

impl Request {
    ghost use Rattle.rdm_search.specs.Requests.{request_frame};

    /// The frame of this request, from this controller, in the transaction with this number.
    pub fn frame(&self, source: Uid, tn: u8) -> Frame
        ensures { result ≡ request_frame source tn self.now }
    {
        let (dst, pid, body) = match *self {
            Request::UnMute => (Uid::ALL, DISC_UN_MUTE, Body::new()),
            Request::UniqueBranch(low, high) => (Uid::ALL, DISC_UNIQUE_BRANCH, bounds(low, high)),
            Request::Mute(uid) => (uid, DISC_MUTE, Body::new()),
        };
        Frame {
            dst,
            src: source,
            tn,
            port: FIRST_PORT,
            count: 0,
            sub: ROOT_DEVICE,
            class: DISCOVERY_COMMAND,
            pid,
            body,
        }
    }
}

/// The parameter data of DISC_UNIQUE_BRANCH: the lower bound and the upper one.
fn bounds(low: Uid, high: Uid) -> Body
    ensures { result ≡ uid_slots low ++ uid_slots high }
{
    let mut body = Body::new();
    body.append(&low.maker.to_be_bytes());
    body.append(&low.device.to_be_bytes());
    body.append(&high.maker.to_be_bytes());
    body.append(&high.device.to_be_bytes());
    body
}
