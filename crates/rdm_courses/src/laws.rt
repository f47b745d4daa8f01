//! Laws of `==`. Each is the contract of a call that does nothing.

ghost use Rattle.std.specs.Prelude.{◌≡◌, ◌↔◌, IsTrue};

use crate::{Course, Notice, Point, Way};
use rdm_frame::severities_are_equal_by_value;

/// Two points are equal by `==` exactly when their times and their values are.
pub fn points_are_equal_by_value()
    ensures { (a b : Point) → IsTrue (⟦<Point as PartialEq>⟧.eq a b) ↔ (a ≡ b) }
{}

/// Two values of `Way` are equal by `==` exactly when they are the same.
pub fn ways_are_equal_by_value()
    ensures { (a b : Way) → IsTrue (⟦<Way as PartialEq>⟧.eq a b) ↔ (a ≡ b) }
{}

/// Two courses are equal by `==` exactly when their points, their ways and whether they repeat are.
pub fn courses_are_equal_by_value()
    ensures { (a b : Course) → IsTrue (⟦<Course as PartialEq>⟧.eq a b) ↔ (a ≡ b) }
{
    points_are_equal_by_value();
    ways_are_equal_by_value();
}

/// Two status messages are equal by `==` exactly when all that they say is, and when.
pub fn notices_are_equal_by_value()
    ensures { (a b : Notice) → IsTrue (⟦<Notice as PartialEq>⟧.eq a b) ↔ (a ≡ b) }
{
    severities_are_equal_by_value();
}
