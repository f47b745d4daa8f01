//! How jobs end, one after another.

ghost use Rattle.std.specs.Prelude.{◌≡◌, List, ◌++◌, ◌∷◌, [], map, find, option_copied};
ghost use Rattle.rdm_outbox.specs.declared.job.Job.{Job as TheJob};
ghost use Rattle.rdm_outcomes.specs.declared.rule.Rule.{Rule as TheRule};
ghost use Rattle.rdm_outcomes.specs.Outcomes.{outcome_of, outcome_at, usual_outcome, holds, note, HasEnded};

use crate::rule::{MOST_RULES, Rule};
use arrayvec::ArrayVec;
use rdm_outbox::Job;
use rdm_params::{Kind, Outcome};

/// A rule, and how many jobs that it speaks of have ended.
#[derive(Clone, Copy, Debug, Default, PartialEq, Eq)]
pub struct Counted {
    /// The rule.
    pub rule: Rule,
    /// How many jobs that it speaks of have ended, or 4,294,967,295 if there are more.
    pub seen: u32,
}

/// How jobs end by rules. The first rule that speaks of a job, and of this one of them, says how it ends; if there is
/// none, a sensor measures 25 and its own number, and every other job is done.
#[derive(Debug, Drop)]
pub struct Planned {
    counted: ArrayVec<Counted, MOST_RULES>,
}

impl Planned {
    /// The rules, before the first job.
    pub fn new(rules: &ArrayVec<Rule, MOST_RULES>) -> Planned
        ensures { HasEnded result rules.now.items [] }
    {
        let mut counted = ArrayVec::new();
        for rule in rules.iter() {
            counted.push(Counted {
                rule: *rule,
                seen: 0,
            });
        }
        Planned { counted }
    }

    /// How the next job ends, after those before.
    pub fn end(&mut self, job: &Job) -> Outcome
        ensures outcome { result ≡ outcome_at self.old.counted.items job.now }
        ensures rules { map (λ c. c.rule) self.new.counted.items ≡ map (λ c. c.rule) self.old.counted.items }
        ensures counts { (rules : List TheRule) (before : List TheJob) → HasEnded self.old rules before →
            (result ≡ outcome_of rules before job.now) × HasEnded self.new rules (before ++ job.now ∷ []) }
    {
        let outcome = outcome_at(self.counted.as_slice(), job);
        note_all(self.counted.as_mut_slice(), job);
        outcome
    }
}

impl Counted {
    /// The rule once a job has ended: it is counted if the rule speaks of it.
    fn after(self, job: &Job) -> Counted
        ensures { result ≡ note job.now self }
    {
        if self.rule.is_for(job) {
            Counted {
                rule: self.rule,
                seen: self.seen.saturating_add(1),
            }
        } else {
            self
        }
    }
}

/// How a job ends now.
fn outcome_at(counted: &[Counted], job: &Job) -> Outcome
    ensures { result ≡ outcome_at counted.now job.now }
{
    match first_for(counted, job) {
        Some(counted) => counted.rule.outcome,
        None => usual(job),
    }
}

/// The first rule that says how a job ends.
fn first_for<'a>(counted: &'a [Counted], job: &Job) -> Option<&'a Counted>
    ensures { option_copied result ≡ find (λ c. holds c.rule c.seen job.now) counted.now }
{
    counted.iter().find(|c| c.rule.holds(c.seen, job))
}

/// Counts a job that has ended.
fn note_all(counted: &mut [Counted], job: &Job)
    ensures { counted.new ≡ map (note job.now) counted.old }
{
    for each in counted.iter_mut() {
        *each = each.after(job);
    }
}

/// How a job ends of which no rule speaks.
fn usual(job: &Job) -> Outcome
    ensures { result ≡ usual_outcome job.now }
{
    if job.work.pid == Kind::SensorValue.pid() {
        Outcome::Reading(25 + i16::from(job.work.arg))
    } else {
        Outcome::Done
    }
}
