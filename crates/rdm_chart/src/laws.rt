//! A law of `==`. It is the contract of a call that does nothing.

ghost use Rattle.std.specs.Prelude.{◌≡◌, ◌↔◌, IsTrue};

use crate::ChartError;

/// Two reasons why no chart was drawn are equal by `==` exactly when they are the same, the line included.
pub fn chart_errors_are_equal_by_value()
    ensures { (a b : ChartError) → IsTrue (⟦<ChartError as PartialEq>⟧.eq a b) ↔ (a ≡ b) }
{}
