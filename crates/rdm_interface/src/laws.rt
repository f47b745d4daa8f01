//! Laws of what is heard, and of `==`. Each is the contract of a call that does nothing.

ghost use Rattle.std.specs.Prelude.{◌≡◌, ◌↔◌, IsTrue};
ghost use Rattle.rdm_interface.specs.Askings.{LinesAreHeard, LossyLinesAreHeard};
ghost use Rattle.rdm_interface.specs.Sessions.{AnsweredIsInTime, LateAnswersArePassedOver, RepliesAreHeard};

use crate::{Parameters, SearchFault};
use rdm_collector::Port;
use rdm_messages::Clock;

/// Of requests that are answered in time, one after another, what came from the line for each is what is heard of it, and nothing
/// is left over: whatever the line replies, as long as it is bytes that answer the request, or nothing.
pub fn replies_are_heard()
    ensures { RepliesAreHeard }
{}

/// An exchange in which the answer came, and its end if it has one, is one in time, of what was held and what was read.
pub fn answered_is_in_time<C: Clock>()
    ensures { AnsweredIsInTime C.tells }
{}

/// A response answers no two requests that differ in their transaction number, their device (unless one is a broadcast) or their
/// controller, or, but for those that fetch a message, in their command class, sub-device or parameter (E1.20 section 6.2).
pub fn late_answers_are_passed_over()
    ensures { LateAnswersArePassedOver }
{}

/// Where a port's own states tell of the line behind it, what the port hears of a search is what may be heard on that line. So what
/// `discover_through` says of every line on which this run's askings may be heard, it says of that one.
pub fn lines_are_heard<P: Port>()
    ensures line { LinesAreHeard P.hears }
    ensures lossy { LossyLinesAreHeard P.hears }
{}

/// The parameters of two interfaces are equal by `==` exactly when each field is.
pub fn parameters_are_equal_by_value()
    ensures { (a b : Parameters) → IsTrue (⟦<Parameters as PartialEq>⟧.eq a b) ↔ (a ≡ b) }
{}

/// Two reasons why a search ended early are equal by `==` exactly when they are the same.
pub fn search_faults_are_equal_by_value()
    ensures { (a b : SearchFault) → IsTrue (⟦<SearchFault as PartialEq>⟧.eq a b) ↔ (a ≡ b) }
{}
