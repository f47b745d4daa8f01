//! From bytes to the frame that they are the text of.

ghost use Rattle.std.specs.Prelude.{◌≡◌, ◌+◌, true, ◌≤◌, ◌↔◌, length, IfOk, IfErr, OnOk};
ghost use Rattle.std.specs.Result.{result_ok};
ghost use Rattle.rdm_frame.specs.FrameText.{frame_text, IsFrame};
ghost use Rattle.rdm_frame.specs.Reading.{frame_of, frame_in, word_at, uid_at, Passes, PassesAll, IsFirstFault};
ghost use Rattle.rdm_frame.specs.declared.decoding.FrameError.TheVariants.{Start, SubStart};

use crate::encoding::{HEAD_SLOTS, checksum_of};
use crate::standard::START_CODE;
use crate::{Frame, FrameView, Uid};
use thiserror::Error;

/// How many bytes a frame without parameter data has: the header and the checksum.
const SHORTEST: usize = 26;

/// The first two slots of every frame, START code and sub-START code (E1.20 sections 6.2.1 and 6.2.2).
const START_CODES: u16 = 0xCC01;

/// Why bytes aren't a valid frame: the first of six tests, in this order, that they fail (E1.20 section 6.2).
#[derive(Clone, Copy, Debug, PartialEq, Eq, Error)]
pub enum FrameError {
    /// There are fewer than 26 bytes: a header of 24 slots and a checksum of two.
    #[error("fewer bytes than the shortest frame")]
    Short,
    /// Slot 0 isn't the START code of RDM, 0xCC (section 6.2.1).
    #[error("wrong START code")]
    Start,
    /// Slot 1 isn't the sub-START code of a message, 0x01 (section 6.2.2).
    #[error("wrong sub-START code")]
    SubStart,
    /// Slot 2, the message length, is under 24, or isn't two less than the number of bytes (section 6.2.3).
    #[error("the message length doesn't match the number of bytes")]
    Length,
    /// Slot 23, the parameter data length, isn't what the message length leaves for it (section 6.2.10).
    #[error("the parameter data length doesn't match the message length")]
    Pdl,
    /// The last two slots, the checksum, aren't the sum of the others modulo 65536 (section 6.2.11).
    #[error("wrong checksum")]
    Checksum,
}

/// The frame that the bytes are the text of.
///
/// It is `Ok` exactly on the text of a frame. Else the error names the first of the six tests that fails.
pub fn decode(bytes: &[u8]) -> Result<Frame, FrameError>
    // What is read is spelled so.
    ensures ok { IfOk result (λ f. IsFrame f × (bytes.now ≡ frame_text f)) }
    // What is spelled so is read.
    ensures only { (f : Frame) → IsFrame f → bytes.now ≡ frame_text f → result ≡ Ok f }
    // The one frame, as the layers above cite it.
    ensures value { result_ok result ≡ frame_in bytes.now }
    // Each error comes exactly when the tests before its own pass, and its own fails.
    ensures fault { (e : FrameError) → (result ≡ Err e) ↔ IsFirstFault e bytes.now }
{
    match decode_view(bytes) {
        Ok(frame) => Ok(frame.to_frame()),
        Err(e) => Err(e),
    }
}

/// The frame that the bytes are the text of, with its parameter data borrowed from them.
///
/// It is `Ok` exactly on the text of a frame. Else the error names the first of the six tests that fails.
pub fn decode_view(bytes: &[u8]) -> Result<FrameView<'_>, FrameError>
    // What is read is spelled so.
    ensures ok { IfOk result (λ f. IsFrame f × (bytes.now ≡ frame_text f)) }
    // What is spelled so is read.
    ensures only { (f : Frame) → IsFrame f → bytes.now ≡ frame_text f → result ≡ Ok f }
    // The one frame, as the layers above cite it.
    ensures value { result_ok result ≡ frame_in bytes.now }
    // Each error comes exactly when the tests before its own pass, and its own fails.
    ensures fault { (e : FrameError) → (result ≡ Err e) ↔ IsFirstFault e bytes.now }
{
    test(bytes)?;
    Ok(read(bytes))
}

/// The six tests, in their order.
fn test(bytes: &[u8]) -> Result<(), FrameError>
    ensures ok { OnOk result (PassesAll bytes.now) }
    ensures err { IfErr result (λ e. IsFirstFault e bytes.now) }
{
    let len = bytes.len();
    if len < SHORTEST {
        return Err(FrameError::Short);
    }
    if !has_start_codes(bytes) {
        return Err(start_fault(bytes));
    }
    // There are 26 bytes, so a length that matches their number isn't under 24.
    if bytes[2] as usize + 2 != len {
        return Err(FrameError::Length);
    }
    if HEAD_SLOTS + bytes[23] as usize != bytes[2] as usize {
        return Err(FrameError::Pdl);
    }
    if word_at(bytes, len - 2) != checksum_of(&bytes[..len - 2]) {
        return Err(FrameError::Checksum);
    }
    Ok(())
}

/// Whether the first two slots are right.
// Both at once: which of them is wrong is asked only if one is.
#[inline(always)]
fn has_start_codes(bytes: &[u8]) -> bool
    requires { 26 ≤ length bytes.now }
    ensures { (result ≡ true) ↔ (Passes Start bytes.now × Passes SubStart bytes.now) }
{
    u16::from_be_bytes([bytes[0], bytes[1]]) == START_CODES
}

/// Which of the first two slots is wrong.
fn start_fault(bytes: &[u8]) -> FrameError
    requires len { 26 ≤ length bytes.now }
    requires wrong { ¬ (Passes Start bytes.now × Passes SubStart bytes.now) }
    ensures { IsFirstFault result bytes.now }
{
    if bytes[0] != START_CODE {
        FrameError::Start
    } else {
        FrameError::SubStart
    }
}

/// What the slots say. The tests have passed, so that they are a frame's.
#[tactic(auto, unfolding(crate::specs::Reading::frame_of))]
fn read(bytes: &[u8]) -> FrameView<'_>
    requires { PassesAll bytes.now }
    ensures { result ≡ frame_of bytes.now }
{
    let end = HEAD_SLOTS + bytes[23] as usize;
    let body = &bytes[HEAD_SLOTS..end];
    FrameView {
        dst: uid_at(bytes, 3),
        src: uid_at(bytes, 9),
        tn: bytes[15],
        port: bytes[16],
        count: bytes[17],
        sub: word_at(bytes, 18),
        class: bytes[20],
        pid: word_at(bytes, 21),
        body,
    }
}

/// The 16-bit number at a slot.
fn word_at(bytes: &[u8], slot: usize) -> u16
    requires { slot + 2 ≤ length bytes.now }
    ensures { result ≡ word_at bytes.now slot }
{
    u16::from_be_bytes([bytes[slot], bytes[slot + 1]])
}

/// The UID at a slot, of which it takes six (E1.20 sections 6.2.4 and 6.2.5).
pub fn uid_at(bytes: &[u8], slot: usize) -> Uid
    requires { slot + 6 ≤ length bytes.now }
    ensures { result ≡ uid_at bytes.now slot }
{
    let device = [
        bytes[slot + 2],
        bytes[slot + 3],
        bytes[slot + 4],
        bytes[slot + 5],
    ];
    Uid {
        maker: word_at(bytes, slot),
        device: u32::from_be_bytes(device),
    }
}
