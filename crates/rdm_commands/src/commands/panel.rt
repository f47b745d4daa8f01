//! Changes at the fixture's own menu.

ghost use Rattle.std.specs.Prelude.{◌≡◌};
ghost use Rattle.rdm_commands.specs.Commands.Panel.{after_change, change_message, told};

use super::Devices;
use crate::Change;
use rdm_device::Argument;
use rdm_frame::standard::GET_COMMAND_RESPONSE;
use rdm_frame::{Body, Message};
use rdm_table::{Verb, is_in_range, reply_into};

impl Devices {
    /// Whether the message of a change takes the place of one that still waits and tells of the same, by the profile.
    pub fn newest_only(&self) -> bool
        ensures { result ≡ self.now.profile.particulars.newest_only }
    {
        self.profile.particulars.newest_only()
    }

    /// Takes over what a person changed at the fixture's own menu, and gives the message that tells a controller: the
    /// response to a GET of the parameter at the root, with the data that it reads now (E1.20 section 10.3.1).
    ///
    /// It is `None`, and nothing changes, if the fixture doesn't have the parameter, or a SET of the value would be out of range
    /// at the root.
    #[tactic(auto, unfolding(crate::specs::Commands::Panel::after_change, crate::specs::Commands::Panel::change_message))]
    pub fn change(&mut self, change: &Change) -> Option<Message>
        ensures message { result ≡ change_message self.old change.now }
        ensures after { self.new ≡ after_change self.old change.now }
    {
        let (kind, value) = (change.kind(), change.value());
        if self.profile.lacks(kind.pid()) {
            return None;
        }
        if !is_in_range(kind, Verb::Set, &self.root_place(), &value) {
            return None;
        }
        self.carry_out(0, kind, &value);
        Some(self.told(change))
    }

    /// The message that tells of a change that is made.
    fn told(&self, change: &Change) -> Message
        ensures { result ≡ told self.now change.now }
    {
        let kind = change.kind();
        let nothing = Argument::nothing();
        let mut body = Body::new();
        reply_into(kind, Verb::Get, &self.root_place(), &nothing, &mut body);
        Message {
            class: GET_COMMAND_RESPONSE,
            pid: kind.pid(),
            sub: 0,
            body,
        }
    }
}
