//! The lines of a text.

ghost use Rattle.std.specs.Prelude.{◌≡◌, ◌+◌, ◌≤◌, length, map, IfOk};
ghost use Rattle.rdm_trace.specs.Traces.{pieces_of};

use std::alloc::{AllocError, Global};

/// The lines of a text: what stands before, between and behind its LFs.
#[tactic(auto, unfolding(rdm_trace::specs::Traces::pieces_of), using(crate::proofs::Pieces::pieces_count))]
pub(crate) fn pieces_of(alloc: Global, text: &[u8]) -> Result<Vec<&[u8]>, AllocError>
    ensures pieces { IfOk result (λ pieces. map (λ piece. piece.now) pieces.items ≡ pieces_of text.now) }
    ensures within { IfOk result (λ pieces. length pieces.items ≤ length text.now + 1) }
{
    text.split(|byte| *byte == b'\n').collect(alloc)
}
