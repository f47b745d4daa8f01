//! The first of what there is, as many as a file can have.

ghost use Rattle.std.specs.Prelude.{◌≡◌, take};

use arrayvec::ArrayVec;

/// The first N.
#[tactic(auto, using(crate::proofs::Lists::cut_more, crate::proofs::Lists::cut_full))]
pub(crate) fn first_of<T: Default + Drop, const N: usize>(list: Vec<T>) -> ArrayVec<T, N>
    ensures { result.items ≡ take N list.items }
{
    let mut first = ArrayVec::new();
    for item in list {
        if !first.is_full() {
            first.push(item);
        }
    }
    first
}
