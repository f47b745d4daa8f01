//! Parts whose jobs end by rules.

ghost use Rattle.std.specs.Prelude.{◌≡◌, ◌↔◌, List, [], ◌∷◌, ◌++◌};
ghost use Rattle.rdm_crew.specs.RunTrace.{FitsFor};
ghost use Rattle.rdm_outbox.specs.declared.job.Job.{Job as TheJob};
ghost use Rattle.rdm_outcomes.specs.declared.rule.Rule.{Rule as TheRule};
ghost use Rattle.rdm_outcomes.specs.Outcomes.{CanEnd, outcome_of};
ghost use Rattle.rdm_commands.specs.declared.jobs.outcome.Outcome.{Outcome as TheOutcome};
ghost use Rattle.rdm_params.specs.Jobs.Work.{Choice};
ghost use Rattle.rdm_script.specs.Rules.{rules_of, EndsAfter, HasDone};
ghost use Rattle.rdm_script.specs.declared.rules.RuledPart.{RuledPart as ThePart};

use arrayvec::ArrayVec;
use rdm_crew::Part;
use rdm_outbox::Job;
use rdm_outcomes::{MOST_RULES, Planned, Rule, outcomes_fit};
use rdm_params::Outcome;

/// Does the jobs of a worker as rules say.
#[derive(Debug, Drop)]
pub struct RuledPart {
    planned: Planned,
}

impl RuledPart {
    /// A part of these rules that has done no job yet.
    pub fn new(rules: &ArrayVec<Rule, MOST_RULES>) -> RuledPart
        ensures rules { rules_of result ≡ rules.now.items }
        ensures none { HasDone result rules.now.items [] }
    {
        RuledPart {
            planned: Planned::new(rules),
        }
    }
}

impl Part for RuledPart {
    ghost use Rattle.rdm_outcomes.specs.Outcomes.{CanEnd};
    ghost use Rattle.rdm_script.specs.Rules.{rules_of, EndsAfter};

    ghost gives = { λ part job outcome. CanEnd (rules_of part) job outcome };

    ghost gives_after = { λ part before job outcome. EndsAfter part before job outcome };

    // Besides, each job counts: its outcome is the one that the rules give after the jobs that the part has done before.
    fn work(&mut self, job: &Job) -> Outcome
        ensures gives { CanEnd (rules_of self.old) job.now result }
        ensures same { (j : TheJob) (o : TheOutcome) → CanEnd (rules_of self.new) j o ↔ CanEnd (rules_of self.old) j o }
        ensures next { EndsAfter self.old [] job.now result }
        ensures later { (before : List TheJob) (j : TheJob) (o : TheOutcome) →
            EndsAfter self.new before j o → EndsAfter self.old (job.now ∷ before) j o }
        ensures counts { (rules : List TheRule) (before : List TheJob) → HasDone self.old rules before →
            (result ≡ outcome_of rules before job.now) × HasDone self.new rules (before ++ job.now ∷ []) }
    {
        self.planned.end(job)
    }
}

/// Whatever its rules, a part gives outcomes that fit the jobs of either worker, whichever these are. It is the contract of a call that
/// does nothing.
pub fn ruled_parts_fit()
    ensures { (part : ThePart) (ws : Choice) → FitsFor ws 0 (CanEnd (rules_of part)) × FitsFor ws 1 (CanEnd (rules_of part)) }
{
    outcomes_fit();
}
