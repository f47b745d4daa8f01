//! Byte strings in one, each behind its length.

ghost use Rattle.std.specs.Prelude.{◌≡◌, ◌<◌, ◌^◌, ◌++◌, ℕ, List, [], map, length, IfOk, IfSome, IsNone, IsSomeAnd};
ghost use Rattle.std.specs.Int.{w16, to_be_bytes};
ghost use Rattle.rdm_bench.specs.Packed.{packed, ArePackable};

use std::alloc::{AllocError, Global};

/// The byte strings that are packed here. What stands behind the last whole one is left out.
pub(crate) fn unpack(alloc: Global, bytes: &[u8]) -> Result<Vec<&[u8]>, AllocError>
    ensures { IfOk result (λ found. (frames : List (List ℕ)) → ArePackable frames → bytes.now ≡ packed frames →
        map (λ frame. frame.now) found.items ≡ frames) }
{
    let mut frames = Vec::new(alloc);
    let mut rest = bytes;
    while let Some((frame, behind)) = first_of(rest) {
        frames.push(frame)?;
        rest = behind;
    }
    Ok(frames)
}

/// The first byte string, and what stands behind it.
fn first_of(bytes: &[u8]) -> Option<(&[u8], &[u8])>
    ensures found { (frame behind : List ℕ) → length frame < 2 ^ 16 →
        bytes.now ≡ to_be_bytes w16 (length frame) ++ frame ++ behind →
        IsSomeAnd result (λ x. (x.0.now ≡ frame) × (x.1.now ≡ behind)) }
    ensures end { bytes.now ≡ [] → IsNone result }
    ensures shorter { IfSome result (λ x. length x.1.now < length bytes.now) }
{
    let [high, low, rest @ ..] = bytes else {
        return None;
    };
    let len = usize::from(u16::from_be_bytes([*high, *low]));
    if rest.len() < len {
        return None;
    }
    Some(rest.split_at(len))
}
