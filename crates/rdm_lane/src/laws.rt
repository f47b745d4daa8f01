//! Laws of a lane, over all lists. Each is the contract of a call that does nothing.

ghost use Rattle.std.specs.Prelude.{◌≡◌, ◌↔◌, IsTrue};
ghost use Rattle.rdm_lane.specs.Laws.{OfEachPost, TakesAPrefix, EndsAtItsMark, IsWholeAtItsMark};

use crate::{LaneError, PutError, SettleError, Taken};

/// The items of a producer that were taken are a prefix of those that it put, numbered from 0.
pub fn items_taken_are_a_prefix<T>()
    ensures { OfEachPost {T = T} TakesAPrefix }
{}

/// No item and no mark of a producer follows its mark.
pub fn nothing_follows_the_mark<T>()
    ensures { OfEachPost {T = T} (λ p taken xs. EndsAtItsMark p taken) }
{}

/// If the mark of a producer was taken, all of its items were.
pub fn whole_list_is_taken_at_the_mark<T>()
    ensures { OfEachPost {T = T} IsWholeAtItsMark }
{}

/// If items are equal by `==` exactly when they are the same, so are the answers of `Take::take`.
pub fn takens_are_equal_by_value<T: PartialEq>()
    ensures { ((x y : T) → IsTrue (⟦<T as PartialEq>⟧.eq x y) ↔ (x ≡ y)) →
        (a b : Taken T) → IsTrue (⟦<Taken<T> as PartialEq>⟧.eq a b) ↔ (a ≡ b) }
{}

/// If items are equal by `==` exactly when they are the same, so are the refusals of `Post::put`.
pub fn put_errors_are_equal_by_value<T: PartialEq>()
    ensures { ((x y : T) → IsTrue (⟦<T as PartialEq>⟧.eq x y) ↔ (x ≡ y)) →
        (a b : PutError T) → IsTrue (⟦<PutError<T> as PartialEq>⟧.eq a b) ↔ (a ≡ b) }
{}

/// Two values of `LaneError` are equal by `==` exactly when they are the same.
pub fn lane_errors_are_equal_by_value()
    ensures { (a b : LaneError) → IsTrue (⟦<LaneError as PartialEq>⟧.eq a b) ↔ (a ≡ b) }
{}

/// Two values of `SettleError` are equal by `==`: there is only one.
pub fn settle_errors_are_equal_by_value()
    ensures { (a b : SettleError) → IsTrue (⟦<SettleError as PartialEq>⟧.eq a b) ↔ (a ≡ b) }
{}
