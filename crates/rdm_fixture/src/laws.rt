//! Laws of the format, over every text and every fixture. Each is the contract of a call that does nothing.

ghost use Rattle.std.specs.Prelude.{◌≡◌, ◌↔◌, ℕ, List, IsTrue};
ghost use Rattle.rdm_fixture.specs.Describes.{Describes};

use crate::{Fixture, Starting, WriteError};
use rdm_courses::{courses_are_equal_by_value, notices_are_equal_by_value};
use rdm_device::profiles_are_equal_by_value;
use rdm_frame::uids_are_equal_by_value;
use rdm_outcomes::rules_are_equal_by_value;

/// No text describes two fixtures.
pub fn text_describes_one_fixture()
    ensures { (text : List ℕ) (f g : Fixture) → Describes text f → Describes text g → f ≡ g }
{}

/// Two values of `Starting` are equal by `==` exactly when they are the same.
pub fn starts_are_equal_by_value()
    ensures { (a b : Starting) → IsTrue (⟦<Starting as PartialEq>⟧.eq a b) ↔ (a ≡ b) }
{
    courses_are_equal_by_value();
    notices_are_equal_by_value();
}

/// Two fixtures are equal by `==` exactly when their UIDs, their profiles, their outcomes and what they start with are.
pub fn fixtures_are_equal_by_value()
    ensures { (f g : Fixture) → IsTrue (⟦<Fixture as PartialEq>⟧.eq f g) ↔ (f ≡ g) }
{
    uids_are_equal_by_value();
    profiles_are_equal_by_value();
    rules_are_equal_by_value();
    starts_are_equal_by_value();
}

/// Two reasons why a fixture wasn't written are equal by `==` exactly when they are the same.
pub fn write_errors_are_equal_by_value()
    ensures { (a b : WriteError) → IsTrue (⟦<WriteError as PartialEq>⟧.eq a b) ↔ (a ≡ b) }
{}
