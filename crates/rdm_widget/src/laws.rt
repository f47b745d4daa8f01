//! Laws of requests, of time and of `==`. Each is the contract of a call that does nothing.

ghost use Rattle.std.specs.Prelude.{◌≡◌, ◌↔◌, ◌∷◌, [], ℕ, List, IsTrue, true};
ghost use Rattle.std.specs.List.{list_all};
ghost use Rattle.rdm_line.specs.declared.collision.Collision.{Collision};
ghost use Rattle.rdm_messages.specs.Serving.{Turn, answers, answers_with, is_request, messages_in, replies_in};
ghost use Rattle.rdm_widget.specs.LiveFixtures.{Situation, ReportsAreHandedIn, fixture_hearing};
ghost use Rattle.rdm_widget.specs.Rigs.{rig_hearing};

use crate::{OnLine, ServeError};

/// What `serve` answers to requests is made of what comes from the line for each of them, and of nothing else.
pub fn requests_are_answered<L: OnLine>()
    ensures { (s : L.Situation) (turns : List Turn) → list_all is_request (messages_in turns) ≡ true →
        answers L.hearing s turns ≡ answers_with (messages_in turns) (replies_in L.hearing s turns) }
{}

/// Once the reports are handed in, as they are before each request, no job that is outstanding has ended by now.
pub fn no_job_is_overdue()
    ensures { ReportsAreHandedIn }
{}

/// What comes from a rig of one is the reply of its fixture, whatever collisions are.
pub fn rig_of_one_replies_as_its_fixture()
    ensures { (rule : Collision) (now : ℕ) (s : Situation) (bytes : List ℕ) →
        rig_hearing.reply now (record { rule = rule; fixtures = s ∷ [] }) bytes ≡ fixture_hearing.reply now s bytes }
{}

/// Two reasons why serving ended are equal by `==` exactly when they are the same.
pub fn serve_errors_are_equal_by_value()
    ensures { (a b : ServeError) → IsTrue (⟦<ServeError as PartialEq>⟧.eq a b) ↔ (a ≡ b) }
{}
