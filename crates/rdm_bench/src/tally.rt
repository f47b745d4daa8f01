//! What the bytes of replies come to.

ghost use Rattle.std.specs.Prelude.{◌≡◌, ◌≤◌, ◌++◌, ℕ, List, [], length, sum};
ghost use Rattle.rdm_bench.specs.Tally.{tally_of};

use rdm_frame::sum_of;

/// How many bytes of replies there were, and their sum. Both numbers wrap at 64 bits.
#[repr(C)]
#[derive(Clone, Copy, Debug, PartialEq, Eq)]
pub struct Tally {
    /// How many bytes.
    pub bytes: u64,
    /// Their sum.
    pub total: u64,
}

impl Tally {
    /// That of no reply.
    pub(crate) fn new() -> Self
        ensures { result ≡ tally_of [] }
    {
        Tally { bytes: 0, total: 0 }
    }

    /// Adds the bytes of one reply.
    #[tactic(auto, using(crate::proofs::Sums::tally_of_more))]
    pub(crate) fn add(&mut self, reply: &[u8])
        requires { length reply.now ≤ 257 }
        ensures { (before : List ℕ) → self.old ≡ tally_of before → self.new ≡ tally_of (before ++ reply.now) }
    {
        self.bytes = self.bytes.wrapping_add(reply.len() as u64);
        self.total = self.total.wrapping_add(u64::from(sum_of(reply)));
    }
}
