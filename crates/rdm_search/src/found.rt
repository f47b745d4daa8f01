//! What is known of a fixture that was found, and the answer to its mute.

use rdm_frame::standard::{ACK, DISC_MUTE, DISCOVERY_COMMAND_RESPONSE};
use rdm_frame::{FrameView, Uid, decode_view, uid_at};

/// A fixture that was found, with what its answer to DISC_MUTE says (E1.20 section 7.6).
#[derive(Clone, Copy, Debug, PartialEq, Eq)]
pub struct Found {
    /// Its UID.
    pub uid: Uid,
    /// The control field: bit 0 for a managed proxy, bit 1 for sub-devices, bit 2 for a boot loader, bit 3 for a proxied
    /// device. 0 if the answer has none.
    pub control: u16,
    /// The binding UID: the one by which the ports of one device with several of them say that they are one.
    pub binding: Option<Uid>,
}

impl Found {
    ghost use Rattle.std.specs.Prelude.{◌≡◌, Some, None, is_some, if◌then◌else◌};
    ghost use Rattle.rdm_search.specs.Answers.{found_in, is_mute_answer, mute_answer};

    /// What the bytes say, if they are the answer of that device to its mute.
    pub(crate) fn in_answer(uid: Uid, bytes: &[u8]) -> Option<Found>
        ensures { result ≡ mute_answer uid bytes.now }
    {
        match decode_view(bytes) {
            Ok(frame) => Found::in_frame(uid, &frame),
            Err(_) => None,
        }
    }

    /// Whether the bytes are the answer of that device to its mute.
    pub(crate) fn is_answer(uid: Uid, bytes: &[u8]) -> bool
        ensures { result ≡ is_some (mute_answer uid bytes.now) }
    {
        Found::in_answer(uid, bytes).is_some()
    }

    fn in_frame(uid: Uid, frame: &FrameView<'_>) -> Option<Found>
        ensures { result ≡ (if is_mute_answer uid frame.now then Some (found_in frame.now) else None) }
    {
        if frame.class == DISCOVERY_COMMAND_RESPONSE
            && frame.pid == DISC_MUTE
            && frame.port == ACK
            && frame.src == uid
        {
            Some(Found::of_frame(frame))
        } else {
            None
        }
    }

    fn of_frame(frame: &FrameView<'_>) -> Found
        ensures { result ≡ found_in frame.now }
    {
        let body = frame.body;
        Found {
            uid: frame.src,
            control: if body.len() >= 2 {
                u16::from_be_bytes([body[0], body[1]])
            } else {
                0
            },
            binding: if body.len() >= 8 {
                Some(uid_at(body, 2))
            } else {
                None
            },
        }
    }
}
