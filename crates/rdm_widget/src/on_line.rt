//! What is on the line behind the interface.

ghost use Rattle.std.specs.Prelude.{◌≡◌};
ghost use Rattle.rdm_responder.specs.Rules.{answered};
ghost use Rattle.rdm_messages.specs.Hearing.{Hearing};

use crate::live_fixture::LiveFixture;
use rdm_frame::Wire;

/// What is on the line behind the interface, and hears its requests: a fixture, or many.
pub trait OnLine {
    // In which situations it can be.
    ghost Situation: { Type 0 };
    // When it is in one, and what a request comes to.
    ghost hearing: { Hearing Self Situation };

    /// Hears a request at this time, in milliseconds, and says whether anything comes from the line, whose bytes are put into
    /// `reply` then.
    fn hear(&mut self, now: u64, request: &[u8], reply: &mut Wire) -> bool
        ensures reply { (s : Situation) → hearing.is_in self.old s → answered result reply.new ≡ hearing.reply now s request.now }
        ensures heard { (s : Situation) → hearing.is_in self.old s → hearing.is_in self.new (hearing.heard now s request.now) };
}

impl OnLine for LiveFixture {
    ghost use Rattle.rdm_widget.specs.LiveFixtures as is;

    ghost Situation = { is.Situation };

    ghost hearing = { is.fixture_hearing };

    fn hear(&mut self, now: u64, request: &[u8], reply: &mut Wire) -> bool {
        self.hear_at(now, request, reply)
    }
}
