//! Times of a capture.

ghost use Rattle.std.specs.Prelude.{◌≡◌, ◌<◌, ◌≤◌, ◌^◌, ◌*◌, MatchOption};
ghost use Rattle.rdm_capture.specs.Numbers.{ticks_of, nanoseconds};

use crate::packet::Resolution;

/// How many ticks a second has, if that is below 2 ^ 128.
fn ticks_of(resolution: Resolution) -> Option<u128>
    ensures { MatchOption result (2 ^ 128 ≤ ticks_of resolution) (λ ticks. ticks ≡ ticks_of resolution) }
{
    match resolution {
        Resolution::Decimal(digits) => 10u128.checked_pow(digits),
        Resolution::Binary(bits) => 2u128.checked_pow(bits),
    }
}

/// So many ticks, in nanoseconds, or the most that 64 bits hold.
#[tactic(auto, using(crate::proofs::Times::ticks_pos, crate::proofs::Times::none_together, crate::proofs::Times::at_most), unfolding(crate::specs::Numbers::nanoseconds))]
pub(crate) fn nanoseconds(resolution: Resolution, ticks: u128) -> u64
    requires { ticks < 2 ^ 64 }
    ensures value { result ≡ nanoseconds resolution ticks }
    ensures most { result ≤ ticks * 1000000000 }
{
    match ticks_of(resolution) {
        // A tick is so short that they are less than a nanosecond together.
        None => 0,
        Some(second) => {
            let nanoseconds = ticks * 1_000_000_000 / second;
            nanoseconds.min(u128::from(u64::MAX)) as u64
        }
    }
}
