//! Laws of `==`: contracts of calls that do nothing.

ghost use Rattle.std.specs.Prelude.{◌≡◌, ◌↔◌, IsTrue};
ghost use Rattle.rdm_console.specs.Mailboxes.{MessagesAreTakenOff};
ghost use Rattle.rdm_console.specs.Runs.{ConversationsAreLawful};

use crate::{Answered, AskFault, Came, Fetched, Lack, Next, PollFault, Sorted, Verdict};

/// Two verdicts are equal by `==` exactly if they are the same.
pub fn verdicts_are_equal_by_value()
    ensures { (a b : Verdict) → IsTrue (⟦<Verdict as PartialEq>⟧.eq a b) ↔ (a ≡ b) }
{}

/// Two values of `Sorted` are equal by `==` exactly if they are the same.
pub fn sorteds_are_equal_by_value()
    ensures { (a b : Sorted) → IsTrue (⟦<Sorted as PartialEq>⟧.eq a b) ↔ (a ≡ b) }
{}

/// Two values of `Came` are equal by `==` exactly if they are the same, with the same number.
pub fn cames_are_equal_by_value()
    ensures { (a b : Came) → IsTrue (⟦<Came as PartialEq>⟧.eq a b) ↔ (a ≡ b) }
{
    sorteds_are_equal_by_value();
}

/// Two values of `Fetched` are equal by `==` exactly if they are the same, with the same number.
pub fn fetcheds_are_equal_by_value()
    ensures { (a b : Fetched) → IsTrue (⟦<Fetched as PartialEq>⟧.eq a b) ↔ (a ≡ b) }
{}

/// Two values of `Answered` are equal by `==` exactly if they are the same, with the same response.
pub fn answereds_are_equal_by_value()
    ensures { (a b : Answered) → IsTrue (⟦<Answered as PartialEq>⟧.eq a b) ↔ (a ≡ b) }
{}

/// Two reasons why a result isn't had are equal by `==` exactly if they are the same.
pub fn lacks_are_equal_by_value()
    ensures { (a b : Lack) → IsTrue (⟦<Lack as PartialEq>⟧.eq a b) ↔ (a ≡ b) }
{}

/// Two values of `Next` are equal by `==` exactly if they are the same, with the same response, entry, reason or time.
pub fn nexts_are_equal_by_value()
    ensures { (a b : Next) → IsTrue (⟦<Next as PartialEq>⟧.eq a b) ↔ (a ≡ b) }
{}

/// Two reasons why a command or a poll fails are equal by `==` exactly if they are the same.
pub fn faults_are_equal_by_value()
    ensures ask { (a b : AskFault) → IsTrue (⟦<AskFault as PartialEq>⟧.eq a b) ↔ (a ≡ b) }
    ensures poll { (a b : PollFault) → IsTrue (⟦<PollFault as PartialEq>⟧.eq a b) ↔ (a ≡ b) }
{}

/// In every run of a conversation, whatever is heard, the command is sent first; behind each ACK_TIMER it is waited for as long as the
/// device estimates, before anything is sent; behind the first one the command isn't sent again, unless it is a GET; and what is told as
/// its result belongs to it (E1.20 sections 6.3.3 and 10.3.1).
#[tactic(auto, using(crate::proofs::Runs::conversations_are_lawful))]
pub fn conversations_are_lawful()
    ensures { ConversationsAreLawful }
{}

/// The messages that a mailbox makes of what was collected are those that `first_message` of rdm_collector gives, one after the other.
#[tactic(auto, using(crate::proofs::Messages::taken_off))]
pub fn messages_are_taken_off()
    ensures { MessagesAreTakenOff }
{}
