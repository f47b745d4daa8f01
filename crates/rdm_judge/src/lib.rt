//! A judge of replies: whether the reply of a fixture to a request keeps the reply rules, by the profile of the fixture and by what it was
//! asked before.
//!
//! What isn't known of the fixture, such as which of its jobs have ended, is never held against it: a reply that is judged wrong is one that
//! no fixture with this UID and profile gives (`no_history_is_judged_wrong`).
//!
//! `Seen` judges the replies of a whole capture, and keeps what they say of the fixture: a reply is also wrong if it contradicts those before
//! it (`no_capture_is_judged_wrong`).
#![tactic(auto)]

mod asked;
mod comparing;
mod judging;
mod laws;
mod seen;
mod verdict;

pub use judging::judge;
pub use laws::{
    doubts_are_equal_by_value, no_capture_is_judged_wrong, no_history_is_judged_wrong,
    rules_are_equal_by_value, verdicts_are_equal_by_value,
};
pub use seen::Seen;
pub use verdict::{Doubt, Judged, Rule, Verdict};
