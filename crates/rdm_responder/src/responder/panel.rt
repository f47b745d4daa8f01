//! What a person changes at the fixture's own menu.

ghost use Rattle.std.specs.Prelude.{◌≡◌, ◌↔◌, IsTrue, IsOk, IfOk, OnOk, OnErr, IfErr};
ghost use Rattle.rdm_outbox.specs.Account.{Account as OutboxAccount};
ghost use Rattle.rdm_outbox.specs.Jobs.{has_place};
ghost use Rattle.rdm_outbox.specs.Shows.{Shows as OutboxShows};
ghost use Rattle.rdm_outbox.specs.State.{place_in};
ghost use Rattle.rdm_responder.specs.History.{History, Changed, then_event};
ghost use Rattle.rdm_responder.specs.Lawful.{IsLawful, MayChange};
ghost use Rattle.rdm_responder.specs.Rules.{account_of, after_message};
ghost use Rattle.rdm_responder.specs.Runs.{IsChange, outbox_of};
ghost use Rattle.rdm_responder.specs.StandsFor.{StandsFor};

use crate::{NoRoom, Responder};
use rdm_outbox::Outbox;
use rdm_params::{Change, Message};

impl Responder {
    /// Whether there is room for the message of a change: outstanding jobs and waiting messages are fewer than the size
    /// of the queue. A change needs a place even where its message would take that of another.
    pub fn room(&self) -> bool
        ensures { (h : History) → StandsFor self.now h → result ≡ has_place (outbox_of h) }
    {
        self.outbox.room()
    }

    /// Changes a parameter of the root, as a person does at the fixture's own menu, and queues the message that tells
    /// the controller: the response to a GET of the parameter (E1.20 section 10.3.1). The message is the result. It is
    /// `None`, and nothing changes, if a SET of the value would be out of range.
    ///
    /// Where the profile asks for the newest only, the message takes the place of one that still waits and tells of the
    /// same parameter, and the others stay where they are. A message that was fetched stays what it was.
    ///
    /// If there is no room for the message, the change comes back, whatever its range, and nothing changes. That is so even
    /// where the message would take the place of another: a change always needs a place of its own.
    pub fn change(&mut self, change: Change) -> Result<Option<Message>, NoRoom>
        ensures lawful { (h : History) → IsLawful h → StandsFor self.old h →
            (IsOk result ↔ IsLawful (then_event h (Changed change))) }
        ensures change { IfOk result (λ message. (h : History) → StandsFor self.old h → IsChange h change message) }
        ensures stands { OnOk result ((h : History) → StandsFor self.old h → StandsFor self.new (then_event h (Changed change))) }
        ensures no_room { IfErr result (λ refused. (refused.change ≡ change)
            × ((h : History) → StandsFor self.old h → ¬ MayChange (account_of h))) }
        ensures same { OnErr result (self.new ≡ self.old) }
    {
        if !self.outbox.room() {
            return Err(NoRoom { change });
        }
        let newest = self.devices.newest_only();
        let message = self.devices.change(&change);
        announce(&mut self.outbox, &message, newest);
        Ok(message)
    }
}

/// Queues a message, if there is one: in the place of one that tells of the same, where only the newest is asked for. There
/// must be room for it.
fn announce(outbox: &mut Outbox, message: &Option<Message>, newest: bool)
    requires { IsTrue (place_in outbox.old) }
    ensures shows { (b : OutboxAccount) → OutboxShows outbox.old b → OutboxShows outbox.new (after_message newest b message.now) }
    ensures workers { outbox.new.workers ≡ outbox.old.workers }
{
    if let Some(message) = message {
        // Copied once: two copies would each have room on the stack.
        let message = message.copy();
        if newest {
            outbox.post_newest(message);
        } else {
            outbox.post(message);
        }
    }
}
