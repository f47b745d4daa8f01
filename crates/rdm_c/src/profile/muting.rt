//! What a profile says of the answers to DISC_MUTE and DISC_UN_MUTE.

ghost use Rattle.std.specs.Prelude.{◌≡◌, ◌≤◌, length};
ghost use Rattle.rdm_c.specs.Profiles.{binding_in, mute_reply_in};

use crate::profile::ProfileNumbers;
use rdm_frame::{Uid, uid_at};
use rdm_params::MuteReply;

impl ProfileNumbers {
    /// What it tells when it is muted or un-muted (E1.20 section 7.6).
    pub(super) fn mute_reply(&self) -> MuteReply
        ensures { result ≡ mute_reply_in self.now }
    {
        MuteReply {
            proxied_device: self.proxied_device != 0,
            boot_loader: self.boot_loader != 0,
            binding: binding(&self.binding_uid),
        }
    }
}

/// The UID of six slots, or none for six zeros.
fn binding(slots: &[u8]) -> Option<Uid>
    requires { 6 ≤ length slots.now }
    ensures { result ≡ binding_in slots.now }
{
    let uid = uid_at(slots, 0);
    if uid.maker == 0 && uid.device == 0 {
        None
    } else {
        Some(uid)
    }
}
