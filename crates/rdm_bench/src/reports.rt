//! The reports of jobs.

ghost use Rattle.std.specs.Prelude.{◌≡◌};
ghost use Rattle.rdm_bench.specs.Reports.{reports_with, done, failed, outcome_of};

use rdm_params::{Outcome, Severity, Verb};

/// How the jobs that start are reported.
#[derive(Clone, Copy, Debug, PartialEq, Eq)]
pub enum Reports {
    /// Not at all.
    Withheld,
    /// As done: a SET is, and a sensor measures 25.
    Done,
    /// As failed, with an advisory.
    Advisory,
    /// As failed, with an error.
    Error,
}

impl Reports {
    /// The reports with this code, 0 to 3.
    pub(crate) fn with_code(code: u8) -> Option<Reports>
        ensures { result ≡ reports_with code }
    {
        match code {
            0 => Some(Reports::Withheld),
            1 => Some(Reports::Done),
            2 => Some(Reports::Advisory),
            3 => Some(Reports::Error),
            _ => None,
        }
    }

    /// How a job of this command is reported to end, where it is reported.
    pub(crate) fn outcome(self, verb: Verb) -> Option<Outcome>
        ensures { result ≡ outcome_of self verb }
    {
        match self {
            Reports::Withheld => None,
            Reports::Done => Some(done(verb)),
            Reports::Advisory => Some(failed(Severity::Advisory)),
            Reports::Error => Some(failed(Severity::Error)),
        }
    }
}

/// What was asked for is done.
fn done(verb: Verb) -> Outcome
    ensures { result ≡ done verb }
{
    match verb {
        Verb::Set => Outcome::Done,
        Verb::Get => Outcome::Reading(25),
    }
}

/// It failed: a lamp failed to strike.
fn failed(severity: Severity) -> Outcome
    ensures { result ≡ failed severity }
{
    Outcome::Failed {
        severity,
        id: 0x8001,
        v1: 0,
        v2: 0,
    }
}
