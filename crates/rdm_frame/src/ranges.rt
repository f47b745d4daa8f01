//! What the types say of the numbers of a frame, where a proof needs it said. Each call does nothing.

ghost use Rattle.std.specs.Prelude.{◌<◌, ℕ, slice_index};
ghost use Rattle.rdm_frame.specs.FrameText.{IsUid, IsFrame};

use crate::{FrameView, Uid};

/// A byte is below 256.
pub fn byte_fits(n: u8)
    ensures { n < 256 }
{}

/// A number of 16 bits is below 65,536.
pub fn word_fits(n: u16)
    ensures { n < 65536 }
{}

/// A number of 32 bits is below 4,294,967,296.
pub fn long_fits(n: u32)
    ensures { n < 4294967296 }
{}

/// The numbers of a UID have 16 and 32 bits.
pub fn uid_fits(uid: Uid)
    ensures { IsUid uid }
{
    word_fits(uid.maker);
    long_fits(uid.device);
}

/// Each slot of bytes is a byte.
pub fn bytes_fit(slots: &[u8])
    ensures { (i : ℕ) → slice_index slots.now i < 256 }
{}

/// The numbers of a frame fit its slots.
pub fn frame_fits(frame: &FrameView<'_>)
    ensures { IsFrame frame.now }
{
    uid_fits(frame.dst);
    uid_fits(frame.src);
    word_fits(frame.sub);
    word_fits(frame.pid);
    byte_fits(frame.tn);
    byte_fits(frame.port);
    byte_fits(frame.count);
    byte_fits(frame.class);
    bytes_fit(frame.body);
}
