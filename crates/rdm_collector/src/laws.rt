//! Laws of a collector, over every value. Each is the contract of a call that does nothing.

ghost use Rattle.std.specs.Prelude.{◌≡◌, ◌↔◌, IsTrue};
ghost use Rattle.rdm_collector.specs.Hearing.{PollsAreAnswered, CommandsAreAnswered};
ghost use Rattle.rdm_collector.specs.Polling.{LawsHold};
ghost use Rattle.rdm_collector.specs.Recording.{JoinsFromTheFront, SkippingIsRefused, RecordingNothingIsRefused, RepeatingAnOlderOneIsRefused};

use crate::{Action, AskError, Command, Heard, PollError, PortError, Response, Want};

/// After a poll, bytes are taken for a message exactly when they are the text of a frame from the target to this collector,
/// with the poll's number, of class 21 or 31 and response type ACK. After a command they are taken for its reply exactly when
/// the frame has the command's number, its class plus 1, its sub-device and its parameter. All else is ignored (E1.20 sections
/// 6.2 and 6.3.1).
pub fn answers_are_taken()
    ensures polls { PollsAreAnswered }
    ensures commands { CommandsAreAnswered }
{}

/// Joining takes the first of two equal neighbours away and leaves all else, from the front.
#[tactic(auto, using(crate::proofs::Joining::joins_from_the_front))]
pub fn joining_goes_from_the_front()
    ensures { JoinsFromTheFront }
{}

/// What a collector recorded, with equal neighbours joined, is what the device dispensed, joined likewise, but for one
/// message at most; and no message that was given is missing from it, but for the last at most. Nothing is missing if
/// the last poll is answered (E1.20 section 10.3.1).
#[tactic(auto, using(crate::proofs::PollingRuns::laws_hold))]
pub fn recording_laws_hold()
    ensures { LawsHold }
{}

/// What the prefix law rules out: a controller that asks for the next message after a loss, or a device that gives it;
/// a controller that records nothing; and a device that doesn't repeat its last answer.
pub fn recording_laws_rule_out()
    ensures skipping { SkippingIsRefused }
    ensures recording_nothing { RecordingNothingIsRefused }
    ensures repeating_an_older_one { RepeatingAnOlderOneIsRefused }
{}

/// Two commands are equal by `==` exactly when each of their fields is.
pub fn commands_are_equal_by_value()
    ensures { (a b : Command) → IsTrue (⟦<Command as PartialEq>⟧.eq a b) ↔ (a ≡ b) }
{}

/// Two values of `Heard` are equal by `==` exactly when they are the same.
pub fn heards_are_equal_by_value()
    ensures { (a b : Heard) → IsTrue (⟦<Heard as PartialEq>⟧.eq a b) ↔ (a ≡ b) }
{}

/// Two values of `Action` are equal by `==` exactly when they are the same.
pub fn actions_are_equal_by_value()
    ensures { (a b : Action) → IsTrue (⟦<Action as PartialEq>⟧.eq a b) ↔ (a ≡ b) }
{}

/// Two values of `Want` are equal by `==` exactly when they are the same.
pub fn wants_are_equal_by_value()
    ensures { (a b : Want) → IsTrue (⟦<Want as PartialEq>⟧.eq a b) ↔ (a ≡ b) }
{}

/// Two refusals of a command are equal by `==` exactly when they are the same.
pub fn ask_errors_are_equal_by_value()
    ensures { (a b : AskError) → IsTrue (⟦<AskError as PartialEq>⟧.eq a b) ↔ (a ≡ b) }
{}

/// Two refusals of a poll are equal by `==` exactly when they are the same.
pub fn poll_errors_are_equal_by_value()
    ensures { (a b : PollError) → IsTrue (⟦<PollError as PartialEq>⟧.eq a b) ↔ (a ≡ b) }
{}

/// Two errors of a port are equal by `==` exactly when they are the same.
pub fn port_errors_are_equal_by_value()
    ensures { (a b : PortError) → IsTrue (⟦<PortError as PartialEq>⟧.eq a b) ↔ (a ≡ b) }
{}

/// Two ways in which a request is answered are equal by `==` exactly when they are the same, with the same number.
pub fn responses_are_equal_by_value()
    ensures { (a b : Response) → IsTrue (⟦<Response as PartialEq>⟧.eq a b) ↔ (a ≡ b) }
{}
