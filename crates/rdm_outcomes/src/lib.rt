//! How the jobs of slow commands end, by rules: which jobs a rule speaks of, which of them by their number, and what each
//! of those comes to. A fixture for tests has the third strike of its lamp fail so; the demonstration's outcomes are one
//! list of rules.
//!
//! `specs/Outcomes.antt` says what a list of rules gives for a job, `specs/Demo.antt` what it is for the demonstration.
#![tactic(auto)]

mod demo;
mod laws;
mod planned;
mod rule;

pub use demo::demo_rules;
pub use laws::{
    counted_are_equal_by_value, demo_rules_end_jobs, outcomes_fit, rules_are_equal_by_value,
    tasks_are_equal_by_value,
};
pub use planned::{Counted, Planned};
pub use rule::{MOST_RULES, Rule, Task};
