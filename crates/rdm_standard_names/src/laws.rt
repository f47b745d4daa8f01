//! A law of the kinds of names, which is the contract of a call that does nothing.

ghost use Rattle.std.specs.Prelude.{◌≡◌, ◌↔◌, IsTrue};

use crate::NameKind;

/// Two values of `NameKind` are equal by `==` exactly when they are the same.
pub fn name_kinds_are_equal_by_value()
    ensures { (a b : NameKind) → IsTrue (⟦<NameKind as PartialEq>⟧.eq a b) ↔ (a ≡ b) }
{}
