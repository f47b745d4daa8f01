//! The law of verdicts, and those of `==`, by which tests compare. Each is the contract of a call that does nothing.

ghost use Rattle.std.specs.Prelude.{◌≡◌, ◌↔◌, IsTrue};
ghost use Rattle.rdm_judge.specs.Judging.{NeverWrong};
ghost use Rattle.rdm_judge.specs.Seen.{NoCaptureIsWrong};

use crate::verdict::{Doubt, Rule, Verdict};

/// What a fixture replies after any history is never judged wrong, whatever history of it the twin has. So a reply that is judged wrong is
/// one that no history of the fixture gives: no values that it keeps, no jobs that end, no turn of its menu.
pub fn no_history_is_judged_wrong()
    ensures { NeverWrong }
{}

/// No reply in a capture of a fixture is judged wrong by what the capture showed before it, whatever happened to the fixture before and
/// between its requests, whichever of these it missed and whichever of its replies were lost, and whatever history the twin has.
pub fn no_capture_is_judged_wrong()
    ensures { NoCaptureIsWrong }
{}

/// Two rules are equal by `==` exactly when they are the same.
pub fn rules_are_equal_by_value()
    ensures { (a b : Rule) → IsTrue (⟦<Rule as PartialEq>⟧.eq a b) ↔ (a ≡ b) }
{}

/// Two doubts are equal by `==` exactly when they are the same.
pub fn doubts_are_equal_by_value()
    ensures { (a b : Doubt) → IsTrue (⟦<Doubt as PartialEq>⟧.eq a b) ↔ (a ≡ b) }
{}

/// Two verdicts are equal by `==` exactly when they are the same, with the same rule or the same doubt.
pub fn verdicts_are_equal_by_value()
    ensures { (a b : Verdict) → IsTrue (⟦<Verdict as PartialEq>⟧.eq a b) ↔ (a ≡ b) }
{
    rules_are_equal_by_value();
    doubts_are_equal_by_value();
}
