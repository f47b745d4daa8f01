//! The outcomes of the demonstration.

ghost use Rattle.std.specs.Prelude.{◌≡◌};
ghost use Rattle.rdm_outcomes.specs.Demo as says;

use crate::rule::{MOST_RULES, Rule, Task};
use arrayvec::ArrayVec;
use rdm_params::{Outcome, Severity};

/// The rules of the demonstration: each strike of the lamp fails, and so does each run of the second self test.
pub fn demo_rules() -> ArrayVec<Rule, MOST_RULES>
    ensures { result.items ≡ says.demo_rules }
{
    let mut rules = ArrayVec::new();
    rules.push(failing(Task::LampState, Severity::Error, 0x8001));
    rules.push(failing(Task::PerformSelfTest, Severity::Warning, 0x8002));
    rules
}

/// Each job of a task for the value 2 fails so.
fn failing(task: Task, severity: Severity, id: u16) -> Rule
    ensures { result ≡ says.failing task severity id }
{
    Rule {
        task,
        value: Some(2),
        turn: None,
        outcome: Outcome::Failed {
            severity,
            id,
            v1: 2,
            v2: 0,
        },
    }
}
