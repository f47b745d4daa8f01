//! Laws of status entries, and of `==`, by which tests compare. Each is the contract of a call that does nothing.

ghost use Rattle.std.specs.Prelude.{◌≡◌, ◌↔◌, IsTrue};
ghost use Rattle.rdm_outbox.specs.Laws.{ShowMarksTheFirst, ShowOnlyMarks, SendsWhatItMarks, NoneIsSentTwice};

use crate::{Dispensed, Full, Job, NewError};

/// What a status message marks as shown are the first entries that are asked for and weren't shown, in order, and those are
/// what it sends. All other entries stay as they were, and none is sent twice, whatever is noted, asked for and cleared
/// (E1.20 section 10.3.2).
pub fn status_messages_mark_what_they_send()
    ensures marks { ShowMarksTheFirst }
    ensures rest { ShowOnlyMarks }
    ensures sends { SendsWhatItMarks }
    ensures once { NoneIsSentTwice }
{}

/// Two jobs are equal by `==` exactly when their numbers and their works are.
pub fn jobs_are_equal_by_value()
    ensures { (j k : Job) → IsTrue (⟦<Job as PartialEq>⟧.eq j k) ↔ (j ≡ k) }
{}

/// Two answers to a controller that collects are equal by `==` exactly when their messages are, and both are fresh or
/// neither is.
pub fn dispensed_are_equal_by_value()
    ensures { (a b : Dispensed) → IsTrue (⟦<Dispensed as PartialEq>⟧.eq a b) ↔ (a ≡ b) }
{}

/// Two refusals of a job are equal by `==` exactly when they are the same.
pub fn refusals_are_equal_by_value()
    ensures { (a b : Full) → IsTrue (⟦<Full as PartialEq>⟧.eq a b) ↔ (a ≡ b) }
{}

/// Two reasons why there is no outbox are equal by `==` exactly when they are the same.
pub fn new_errors_are_equal_by_value()
    ensures { (a b : NewError) → IsTrue (⟦<NewError as PartialEq>⟧.eq a b) ↔ (a ≡ b) }
{}
