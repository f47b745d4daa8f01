//! Laws of histories, and of `==`, by which tests compare. Each is the contract of a call that does nothing.

ghost use Rattle.std.specs.Prelude.{◌≡◌, ◌↔◌, IsTrue};
ghost use Rattle.rdm_responder.specs.Laws.{LawfulHistoriesCanBeShown, LawfulHistoriesHaveOneState, LawfulHistoriesHaveRoom, ResultsAreNeverReplaced, SavedValuesAreRestored};

use crate::{Arrival, Astray, NewError, NoRoom, Output, Report, Started, Stepped};
use rdm_frame::bytes_are_equal_by_value;
use rdm_outbox::jobs_are_equal_by_value;
use rdm_params::{
    changes_are_equal_by_value, messages_are_equal_by_value, told_changes_are_equal_by_value,
};
use rdm_saved::saved_is_restored;

/// For every lawful history there is one state that stands for it, and no other: a history in which each report was of the
/// oldest outstanding job of its worker ends no more jobs than were accepted, and gives no more messages than arrived. That
/// state has the room that an outbox keeps.
pub fn lawful_histories_have_one_state()
    ensures shown { LawfulHistoriesCanBeShown }
    ensures state { LawfulHistoriesHaveOneState }
    ensures room { LawfulHistoriesHaveRoom }
{}

/// What one responder saves is restored by another of the same make: then its values that last are the saved ones, with one
/// more power cycle, and the others stay.
pub fn saved_values_are_restored()
    ensures { SavedValuesAreRestored }
{
    saved_is_restored();
}

/// The message of a change at the fixture's own menu never takes the place of the result of a job: it is for another parameter.
pub fn results_are_never_replaced()
    ensures { ResultsAreNeverReplaced }
{}

/// Two reports are equal by `==` exactly when their jobs and their outcomes are.
pub fn reports_are_equal_by_value()
    ensures { (a b : Report) → IsTrue (⟦<Report as PartialEq>⟧.eq a b) ↔ (a ≡ b) }
{}

/// Two jobs that started are equal by `==` exactly when each of their fields is.
pub fn starts_are_equal_by_value()
    ensures { (a b : Started) → IsTrue (⟦<Started as PartialEq>⟧.eq a b) ↔ (a ≡ b) }
{}

/// Two answers to bytes are equal by `==` exactly when each of their fields is.
pub fn answers_are_equal_by_value()
    ensures { (a b : Stepped) → IsTrue (⟦<Stepped as PartialEq>⟧.eq a b) ↔ (a ≡ b) }
{
    starts_are_equal_by_value();
    told_changes_are_equal_by_value();
}

/// Two arrivals are equal by `==` exactly when their messages are, and each notes an entry or neither does.
pub fn arrivals_are_equal_by_value()
    ensures { (a b : Arrival) → IsTrue (⟦<Arrival as PartialEq>⟧.eq a b) ↔ (a ≡ b) }
{}

/// Two reports that come back are equal by `==` exactly when the reports are.
pub fn astrays_are_equal_by_value()
    ensures { (a b : Astray) → IsTrue (⟦<Astray as PartialEq>⟧.eq a b) ↔ (a ≡ b) }
{}

/// Two changes that come back are equal by `==` exactly when the changes are.
pub fn no_rooms_are_equal_by_value()
    ensures { (a b : NoRoom) → IsTrue (⟦<NoRoom as PartialEq>⟧.eq a b) ↔ (a ≡ b) }
{
    changes_are_equal_by_value();
}

/// Two outputs of a run are equal by `==` exactly when they are of one kind and all that they hold is equal, byte for byte.
pub fn outputs_are_equal_by_value()
    ensures { (a b : Output) → IsTrue (⟦<Output as PartialEq>⟧.eq a b) ↔ (a ≡ b) }
{
    bytes_are_equal_by_value::<257>();
    jobs_are_equal_by_value();
    messages_are_equal_by_value();
    arrivals_are_equal_by_value();
    astrays_are_equal_by_value();
    no_rooms_are_equal_by_value();
}

/// Two reasons why there is no responder are equal by `==` exactly when they are the same.
pub fn new_errors_are_equal_by_value()
    ensures { (a b : NewError) → IsTrue (⟦<NewError as PartialEq>⟧.eq a b) ↔ (a ≡ b) }
{}
