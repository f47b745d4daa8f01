//! Laws of a worker's four lists, over all lists, and of `==`. Each is the contract of a call that does nothing.

ghost use Rattle.std.specs.Prelude.{◌≡◌, ◌↔◌, IsTrue};
ghost use Rattle.rdm_crew.specs.Closes.{AfterTheMarkIsRuledOut};
ghost use Rattle.rdm_crew.specs.Law.{NoneAstray, EachIsOnItsJob, NoneMissing, OneMissingAtMost};
ghost use Rattle.rdm_crew.specs.Workers.{in_turn};

use crate::{Part, RunError};

/// The next report that is drawn of a worker is on its oldest job that isn't reported on yet, and its outcome is one that
/// the part gives for the job after those before it. So the n-th that was drawn is on the n-th job that was put.
pub fn no_report_goes_astray<P: Part>()
    ensures next { (part : P) → NoneAstray (in_turn P.gives P.gives_after part) }
    ensures each { (part : P) → EachIsOnItsJob (in_turn P.gives P.gives_after part) }
{}

/// If the marks of both lanes were taken, the reports of a worker that were drawn are one on each job that was put for it,
/// save perhaps on the last one, and that only if its memory was refused.
pub fn no_report_is_missing<P: Part>()
    ensures none { (part : P) → NoneMissing (in_turn P.gives P.gives_after part) }
    ensures one { (part : P) → OneMissingAtMost (in_turn P.gives P.gives_after part) }
{}

/// What the headline of a run rules out: a report that is taken from the report lane after the closing mark of the worker whose
/// job it is on.
pub fn headline_of_run_rules_out()
    ensures after_the_mark { AfterTheMarkIsRuledOut }
{}

/// Two reasons why there is no trace are equal by `==` exactly when they are the same.
pub fn run_errors_are_equal_by_value()
    ensures { (a b : RunError) → IsTrue (⟦<RunError as PartialEq>⟧.eq a b) ↔ (a ≡ b) }
{}
