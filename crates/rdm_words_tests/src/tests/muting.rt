//! What is said of what a fixture tells when it is muted, and of its messages.

use super::FIXTURE;
use rdm_device::{MuteReply, Particular, Particulars, Profile};
use rdm_frame::Uid;
use rdm_words::put_fixture;
use std::alloc::{AllocError, Global};

/// What is said of the fixture itself, behind its boot software.
const MUTED: &str = r#", "Boot 1.0"
  binding UID 7FF0:00000002
  boot loader: needs firmware before it can do anything else
  proxied device: a proxy answers for it
  the message of a change replaces one that waits and tells of the same parameter
no sub-devices
"#;

/// The same, if a proxy answers for it and all else is as usual.
const PROXIED: &str = r#", "Boot 1.0"
  proxied device: a proxy answers for it
no sub-devices
"#;

/// The words of the demonstration fixture with this.
fn words_of(alloc: Global, particular: Particular) -> Result<Vec<u8>, AllocError> {
    let mut profile = Profile::demo(0);
    profile.particulars = Particulars::of(alloc, particular)?;
    let mut said = Vec::new(alloc);
    put_fixture(&mut said, FIXTURE, &profile, &[])?;
    Ok(said)
}

#[test]
fn what_is_told_when_muted_is_said(rt: HostRuntime) {
    let mut particular = Particular::usual();
    particular.mute_reply = MuteReply {
        proxied_device: true,
        boot_loader: true,
        binding: Some(Uid {
            maker: 0x7FF0,
            device: 2,
        }),
    };
    particular.newest_only = true;
    let said = words_of(rt.alloc(), particular).expect(&rt, "memory");
    let text = std::str::from_utf8(said.as_slice()).unwrap_or("");
    assert!(rt; text.ends_with(MUTED), "{text}");
}

#[test]
fn what_is_as_usual_is_not_said(rt: HostRuntime) {
    let mut particular = Particular::usual();
    particular.mute_reply.proxied_device = true;
    let said = words_of(rt.alloc(), particular).expect(&rt, "memory");
    let text = std::str::from_utf8(said.as_slice()).unwrap_or("");
    assert!(rt; text.ends_with(PROXIED), "{text}");
}
