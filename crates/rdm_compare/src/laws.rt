//! Laws of differences, and of what is kept. Each is the contract of a call that does nothing.

ghost use Rattle.std.specs.Prelude.{◌≡◌, List, [], Ok};
ghost use Rattle.std.specs.List.{AllByRecursion};
ghost use Rattle.rdm_compare.specs.declared.kept.Kept.{Kept};
ghost use Rattle.rdm_compare.specs.Differences.{differences};
ghost use Rattle.rdm_compare.specs.Laws.{AreOnce, IsKept, NothingToSet, SurveysAgree};
ghost use Rattle.rdm_compare.specs.Remedies.{remedies_of};
ghost use Rattle.rdm_compare.specs.Reading.{are_once, survey_in};
ghost use Rattle.rdm_compare.specs.Saving.{saved_json};

/// A survey in which nothing stands twice has no difference from itself.
#[tactic(auto, using(crate::proofs::Comparing::same_survey))]
pub fn same_survey_has_no_difference()
    ensures { (list : List Kept) → AreOnce list → differences list list ≡ [] }
{}

/// Where there is no difference, the two surveys have the same fixtures and sub-devices, and what both tell is the same.
pub fn surveys_with_no_difference_agree()
    ensures { (was is : List Kept) → differences was is ≡ [] → SurveysAgree was is }
{}

/// What is written of a survey is read back exactly, where it has no UID and no sub-device twice.
#[tactic(auto, using(crate::proofs::RoundTrip::survey_back))]
pub fn saved_survey_is_read_back()
    ensures { (list : List Kept) → AllByRecursion IsKept list → are_once list ≡ Ok tt → survey_in (saved_json list) ≡ Ok list }
{}

/// A fixture has a remedy exactly when something that can be set is another now: nothing is set without need, and nothing is left out.
pub fn remedies_are_of_what_differs()
    ensures needed { (was is : Kept) → NothingToSet was is → remedies_of was is ≡ [] }
    ensures complete { (was is : Kept) → remedies_of was is ≡ [] → NothingToSet was is }
{}
