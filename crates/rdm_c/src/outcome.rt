//! The outcome of a job, and a status entry, as numbers.

ghost use Rattle.std.specs.Prelude.{◌≡◌};
ghost use Rattle.rdm_c.specs.Outcomes.{entry_in, outcome_in, report_in};

use crate::job::JobNumbers;
use rdm_params::{Entry, Outcome, Severity};
use rdm_responder::Report;

/// How a job ended. The header calls it `felosumay_outcome`.
#[repr(C)]
#[derive(Clone, Copy)]
pub struct OutcomeNumbers {
    /// 0 if a SET is done, 1 if a sensor gave a reading, 2 if it failed.
    pub kind: u8,
    /// If it failed: how bad it is (E1.20 table A-4).
    pub severity: u8,
    /// What the sensor measured.
    pub reading: i16,
    /// If it failed: the status ID (section 10.3.3).
    pub id: u16,
    /// If it failed: the first value that the text of the status ID names.
    pub v1: u16,
    /// If it failed: the second value.
    pub v2: u16,
}

impl OutcomeNumbers {
    /// The outcome that the numbers stand for, if they do.
    pub(crate) fn outcome(&self) -> Option<Outcome>
        ensures { result ≡ outcome_in self.now }
    {
        match self.kind {
            0 => Some(Outcome::Done),
            1 => Some(Outcome::Reading(self.reading)),
            2 => {
                let severity = Severity::of(self.severity)?;
                Some(Outcome::Failed {
                    severity,
                    id: self.id,
                    v1: self.v1,
                    v2: self.v2,
                })
            }
            _ => None,
        }
    }
}

/// The report that the numbers of a job and of an outcome stand for, if both stand for something.
pub(crate) fn report_in(job: &JobNumbers, outcome: &OutcomeNumbers) -> Option<Report>
    ensures { result ≡ report_in job.now outcome.now }
{
    let job = job.job()?;
    let outcome = outcome.outcome()?;
    Some(Report { job, outcome })
}

/// The status entry that the numbers stand for, if the status type is one of table A-4.
pub(crate) fn entry_in(sub: u16, severity: u8, id: u16, v1: u16, v2: u16) -> Option<Entry>
    ensures { result ≡ entry_in sub severity id v1 v2 }
{
    let severity = Severity::of(severity)?;
    Some(Entry {
        sub,
        severity,
        id,
        v1,
        v2,
    })
}
