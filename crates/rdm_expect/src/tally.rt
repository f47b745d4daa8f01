//! How many expectations hold.

ghost use Rattle.std.specs.Prelude.{◌≡◌, count_by};
ghost use Rattle.rdm_expect.specs.Verdicts.{is_passed, is_failed, is_skipped};

use crate::judging::Verdict;

/// How many expectations hold, how many don't, and how many can't be judged.
#[derive(Clone, Copy)]
pub struct Tally {
    /// How many hold.
    pub passed: usize,
    /// How many don't.
    pub failed: usize,
    /// How many can't be judged.
    pub skipped: usize,
}

/// The tally of these verdicts.
pub fn tally_of(verdicts: &[Verdict]) -> Tally
    ensures passed { result.passed ≡ count_by is_passed verdicts.now }
    ensures failed { result.failed ≡ count_by is_failed verdicts.now }
    ensures skipped { result.skipped ≡ count_by is_skipped verdicts.now }
{
    Tally {
        passed: passed_in(verdicts),
        failed: failed_in(verdicts),
        skipped: skipped_in(verdicts),
    }
}

/// How many hold.
fn passed_in(verdicts: &[Verdict]) -> usize
    ensures { result ≡ count_by is_passed verdicts.now }
{
    verdicts
        .iter()
        .filter(|verdict| matches!(verdict, Verdict::Passed))
        .count()
}

/// How many don't.
fn failed_in(verdicts: &[Verdict]) -> usize
    ensures { result ≡ count_by is_failed verdicts.now }
{
    verdicts
        .iter()
        .filter(|verdict| matches!(verdict, Verdict::Failed(_)))
        .count()
}

/// How many can't be judged.
fn skipped_in(verdicts: &[Verdict]) -> usize
    ensures { result ≡ count_by is_skipped verdicts.now }
{
    verdicts
        .iter()
        .filter(|verdict| matches!(verdict, Verdict::Skipped))
        .count()
}
