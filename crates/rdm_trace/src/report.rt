//! What a line says of a job.

ghost use Rattle.std.specs.Prelude.{◌≡◌};
ghost use Rattle.rdm_trace.specs.Reading.{job_in, job_of, outcome_in, failed_in, report_in};

use crate::digits::code_in;
use crate::words::first_word;
use crate::{JobName, Line, numbers};
use rdm_frame::digits::word_in;
use rdm_params::{Outcome, Severity};

/// A report: the job, and how it ended.
#[tactic(auto, unfolding(crate::specs::Reading::report_in))]
pub(crate) fn report_in(words: &[u8]) -> Option<Line>
    ensures { result ≡ report_in words.now }
{
    let (worker, rest) = first_word(words);
    let (number, rest) = first_word(rest);
    Some(Line::Arrive {
        job: job_of(worker, number)?,
        outcome: outcome_in(rest)?,
    })
}

/// A job: its worker and its number, both decimal.
#[tactic(auto, unfolding(crate::specs::Reading::job_in))]
pub(crate) fn job_in(words: &[u8]) -> Option<JobName>
    ensures { result ≡ job_in words.now }
{
    let (worker, number) = first_word(words);
    job_of(worker, number)
}

/// The same by two words.
#[tactic(auto, unfolding(crate::specs::Reading::job_of))]
fn job_of(worker: &[u8], number: &[u8]) -> Option<JobName>
    ensures { result ≡ job_of worker.now number.now }
{
    Some(JobName {
        worker: numbers::byte_in(worker)?,
        number: numbers::long_in(number)?,
    })
}

/// How a job ended.
#[tactic(auto, unfolding(crate::specs::Reading::outcome_in))]
fn outcome_in(words: &[u8]) -> Option<Outcome>
    ensures { result ≡ outcome_in words.now }
{
    let (name, rest) = first_word(words);
    if name == b"done".as_slice() {
        if rest.is_empty() {
            Some(Outcome::Done)
        } else {
            None
        }
    } else if name == b"reading".as_slice() {
        Some(Outcome::Reading(numbers::signed_in(rest)?))
    } else if name == b"failed".as_slice() {
        failed_in(rest)
    } else {
        None
    }
}

/// A status entry: its severity, its ID and its two values.
#[tactic(auto, unfolding(crate::specs::Reading::failed_in))]
fn failed_in(words: &[u8]) -> Option<Outcome>
    ensures { result ≡ failed_in words.now }
{
    let (severity, rest) = first_word(words);
    let (id, rest) = first_word(rest);
    let (first, second) = first_word(rest);
    Some(Outcome::Failed {
        severity: Severity::of(code_in(severity)?)?,
        id: word_in(id)?,
        v1: word_in(first)?,
        v2: word_in(second)?,
    })
}
