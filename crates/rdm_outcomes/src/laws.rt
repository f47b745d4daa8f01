//! Laws of rules. Each is the contract of a call that does nothing.

ghost use Rattle.std.specs.Prelude.{◌≡◌, ◌↔◌, List, true, IsTrue};
ghost use Rattle.rdm_commands.specs.declared.jobs.outcome.Outcome.{Outcome as TheOutcome};
ghost use Rattle.rdm_params.specs.Table.Rows.{command_of};
ghost use Rattle.rdm_params.specs.Jobs.Outcome.{fits};
ghost use Rattle.rdm_params.specs.Table.Uses.{is_slow};
ghost use Rattle.rdm_outbox.specs.declared.job.Job.{Job as TheJob};
ghost use Rattle.rdm_outcomes.specs.declared.rule.Rule.{Rule as TheRule};
ghost use Rattle.rdm_outcomes.specs.Outcomes.{CanEnd};
ghost use Rattle.rdm_outcomes.specs.Demo.{demo_rules, demo_outcome};

use crate::{Counted, Rule, Task};
use rdm_params::outcomes_are_equal_by_value;

/// Whatever the rules, what they give for the job of a slow command is an outcome that it can have.
pub fn outcomes_fit()
    ensures { (rules : List TheRule) (job : TheJob) (outcome : TheOutcome) →
        is_slow (command_of job.work.pid job.work.verb) ≡ true → CanEnd rules job outcome → fits job.work outcome ≡ true }
{}

/// The rules of the demonstration give one outcome for a job, whatever was before.
pub fn demo_rules_end_jobs()
    ensures { (job : TheJob) (outcome : TheOutcome) → CanEnd demo_rules job outcome ↔ (outcome ≡ demo_outcome job) }
{}

/// Two tasks are equal by `==` exactly when they are the same.
pub fn tasks_are_equal_by_value()
    ensures { (a b : Task) → IsTrue (⟦<Task as PartialEq>⟧.eq a b) ↔ (a ≡ b) }
{}

/// Two rules are equal by `==` exactly when all their fields are.
pub fn rules_are_equal_by_value()
    ensures { (a b : Rule) → IsTrue (⟦<Rule as PartialEq>⟧.eq a b) ↔ (a ≡ b) }
{
    tasks_are_equal_by_value();
    outcomes_are_equal_by_value();
}

/// Two counted rules are equal by `==` exactly when the rules and the numbers of jobs are.
pub fn counted_are_equal_by_value()
    ensures { (a b : Counted) → IsTrue (⟦<Counted as PartialEq>⟧.eq a b) ↔ (a ≡ b) }
{
    rules_are_equal_by_value();
}
