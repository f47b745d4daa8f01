//! A rig: many fixtures on one line.

ghost use Rattle.std.specs.Prelude.{◌≡◌, ℕ, List};
ghost use Rattle.rdm_responder.specs.Rules.{answered};
ghost use Rattle.rdm_widget.specs.LiveFixtures.{Situation, IsIn, ready};
ghost use Rattle.rdm_widget.specs.Rigs.{from_wire};

use crate::live_fixture::LiveFixture;
use crate::on_line::OnLine;
use rdm_frame::Wire;
use rdm_line::{Errand, Line, OnWire};

impl OnLine for Line<LiveFixture> {
    ghost use Rattle.rdm_widget.specs.Rigs.{Rig, rig_hearing};

    ghost Situation = { Rig };

    ghost hearing = { rig_hearing };

    fn hear(&mut self, now: u64, request: &[u8], reply: &mut Wire) -> bool {
        self.each(&Arrival { now });
        has_bytes(Line::hear(self, request, reply))
    }
}

/// Whether there are bytes on the wire.
fn has_bytes(on_wire: OnWire) -> bool
    ensures { (bytes : List ℕ) → answered result bytes ≡ from_wire (on_wire, bytes) }
{
    match on_wire {
        OnWire::Nothing => false,
        OnWire::Reply | OnWire::Collision => true,
    }
}

/// A time that has come, in milliseconds.
#[derive(Clone, Copy)]
struct Arrival {
    now: u64,
}

impl Errand<LiveFixture> for Arrival {
    // Each fixture is made ready for it.
    ghost does = { λ time before after. (s : Situation) → IsIn before s → IsIn after (ready time.now s) };

    fn run(&self, device: &mut LiveFixture) {
        device.make_ready(self.now);
    }
}
