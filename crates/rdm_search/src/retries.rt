//! Which bytes answer a request, so that it isn't asked again.

ghost use Rattle.std.specs.Prelude.{◌≡◌};
ghost use Rattle.rdm_search.specs.Losses.{is_answered};

use crate::found::Found;
use rdm_frame::Frame;
use rdm_frame::standard::DISC_MUTE;

/// Whether what was heard answers the request in a frame: the valid answer of that device to DISC_MUTE, and any bytes to another
/// request, since those of more than one fixture at once needn't be valid.
pub fn is_answered(frame: &Frame, heard: &[u8]) -> bool
    ensures { result ≡ is_answered frame.now heard.now }
{
    if frame.pid == DISC_MUTE {
        Found::is_answer(frame.dst, heard)
    } else {
        !heard.is_empty()
    }
}
