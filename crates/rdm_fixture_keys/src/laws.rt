//! Laws of refusals. Each is the contract of a call that does nothing.

ghost use Rattle.std.specs.Prelude.{◌≡◌, ◌↔◌, IsTrue};
ghost use Rattle.rdm_fixture_keys.specs.Refusals.{IsSameEntry, IsSameRefusal};

use crate::{Agreement, Entry, Refusal, Section, Wanted};
use rdm_standard_names::name_kinds_are_equal_by_value;

/// Two values of `Wanted` are equal by `==` exactly when they are the same, bounds included.
pub fn wanteds_are_equal_by_value()
    ensures { (a b : Wanted) → IsTrue (⟦<Wanted as PartialEq>⟧.eq a b) ↔ (a ≡ b) }
{
    agreements_are_equal_by_value();
    name_kinds_are_equal_by_value();
}

/// Two values of `Agreement` are equal by `==` exactly when they are the same.
pub fn agreements_are_equal_by_value()
    ensures { (a b : Agreement) → IsTrue (⟦<Agreement as PartialEq>⟧.eq a b) ↔ (a ≡ b) }
{}

/// Two values of `Section` are equal by `==` exactly when they are the same.
pub fn sections_are_equal_by_value()
    ensures { (a b : Section) → IsTrue (⟦<Section as PartialEq>⟧.eq a b) ↔ (a ≡ b) }
{}

/// Two entries of lists are equal by `==` exactly when the names of their lists and their numbers are.
pub fn entries_are_equal_by_value()
    ensures { (a b : Entry) → IsTrue (⟦<Entry as PartialEq>⟧.eq a b) ↔ IsSameEntry a b }
{}

/// Two refusals of a table are equal by `==` exactly when they are of the same key at the same place, and the same was
/// wanted there.
pub fn refusals_are_equal_by_value()
    ensures { (a b : Refusal) → IsTrue (⟦<Refusal as PartialEq>⟧.eq a b) ↔ IsSameRefusal a b }
{
    sections_are_equal_by_value();
    entries_are_equal_by_value();
    wanteds_are_equal_by_value();
}
