//! Laws of `==`: contracts of calls that do nothing.

ghost use Rattle.std.specs.Prelude.{◌≡◌, ◌↔◌, IsTrue};

use crate::{ReadFault, WriteFault};

/// Two faults of a reader are equal by `==`: there is only one.
pub fn read_faults_are_equal_by_value()
    ensures { (a b : ReadFault) → IsTrue (⟦<ReadFault as PartialEq>⟧.eq a b) ↔ (a ≡ b) }
{}

/// Two faults of a writer are equal by `==`: there is only one.
pub fn write_faults_are_equal_by_value()
    ensures { (a b : WriteFault) → IsTrue (⟦<WriteFault as PartialEq>⟧.eq a b) ↔ (a ≡ b) }
{}
