//! Which test bytes fail that are to be a frame, as C asks for it.

ghost use Rattle.std.specs.Prelude.{◌≡◌, ◌↔◌, ◌≤◌, IfSome, is_some, true};
ghost use Rattle.rdm_frame.specs.Reading.{frame_in, IsFirstFault};
ghost use Rattle.rdm_c.specs.Frames.{frame_fault_in};

use rdm_frame::{FrameError, decode_view};

/// Tells which of the six tests of a frame these bytes fail (E1.20 section 6.2), the first of them in the order of their numbers, or 0 if
/// they fail none, and are a frame. The header lists the tests.
#[unsafe(no_mangle)]
pub extern "C" fn felosumay_frame_fault_nonnull(bytes: &[u8]) -> u8
    ensures frame { (result ≡ 0) ↔ (is_some (frame_in bytes.now) ≡ true) }
    ensures fault { IfSome (frame_fault_in result) (λ fault. IsFirstFault fault bytes.now) }
    ensures numbers { result ≤ 6 }
{
    match decode_view(bytes) {
        Ok(_) => 0,
        Err(FrameError::Short) => 1,
        Err(FrameError::Start) => 2,
        Err(FrameError::SubStart) => 3,
        Err(FrameError::Length) => 4,
        Err(FrameError::Pdl) => 5,
        Err(FrameError::Checksum) => 6,
    }
}
