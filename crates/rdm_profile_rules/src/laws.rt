//! The law of `==` of faults, by which tests compare. It is the contract of a call that does nothing.

ghost use Rattle.std.specs.Prelude.{◌≡◌, ◌↔◌, IsTrue};

use crate::ProfileFault;

/// Two faults of profiles are equal by `==` exactly when they are the same.
pub fn profile_faults_are_equal_by_value()
    ensures { (a b : ProfileFault) → IsTrue (⟦<ProfileFault as PartialEq>⟧.eq a b) ↔ (a ≡ b) }
{}
