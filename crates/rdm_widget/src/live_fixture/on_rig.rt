//! A fixture among others on one line.

use crate::live_fixture::LiveFixture;
use rdm_frame::{Uid, Wire};
use rdm_line::Device;

impl Device for LiveFixture {
    ghost use Rattle.std.specs.Prelude.{◌≡◌, None};
    ghost use Rattle.rdm_responder.specs.StandsFor.{StandsFor};
    ghost use Rattle.rdm_widget.specs.Timing.{Timing, timing_of};

    ghost stands = { λ d h. StandsFor d.responder h × (d.uid ≡ h.setup.uid) };

    ghost muted = { λ d. d.responder.muted };

    ghost mutings = { λ d h is. is.0.muted };

    // It does its jobs itself.
    ghost came_to = { λ _. None };

    ghost Rest = { Timing };

    ghost rest = { timing_of };

    fn uid(&self) -> Uid {
        self.uid
    }

    fn hear(&mut self, bytes: &[u8], wire: &mut Wire) -> bool {
        self.responder.step_into(bytes, wire).replied
    }
}
