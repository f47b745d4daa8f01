//! A responder is what can be on a line.

use crate::Device;
use rdm_frame::{Uid, Wire};
use rdm_responder::Responder;

impl Device for Responder {
    ghost use Rattle.std.specs.Prelude.{None};
    ghost use Rattle.rdm_responder.specs.StandsFor.{StandsFor};

    ghost stands = { StandsFor };

    ghost muted = { λ r. r.muted };

    ghost mutings = { λ r h is. is.muted };

    // It keeps none of it.
    ghost came_to = { λ _. None };

    ghost Rest = { Unit {0} };

    ghost rest = { λ r. tt };

    fn uid(&self) -> Uid {
        Responder::uid(self)
    }

    fn hear(&mut self, bytes: &[u8], wire: &mut Wire) -> bool {
        self.step_into(bytes, wire).replied
    }
}
