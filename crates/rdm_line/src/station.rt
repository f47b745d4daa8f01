//! A responder on a line, and what its last request came to.

use crate::Device;
use rdm_frame::{Uid, Wire};
use rdm_responder::{Responder, Stepped};

/// A responder on a line, with what its last request came to: the job that is to be done, and what changed. That takes 32 bytes
/// more than the responder.
#[derive(Debug, Drop)]
pub struct Station {
    responder: Responder,
    stepped: Stepped,
}

impl Device for Station {
    ghost use Rattle.std.specs.Prelude.{Some};
    ghost use Rattle.rdm_line.specs.Stations.{StationStandsFor};

    ghost stands = { StationStandsFor };

    ghost muted = { λ s. s.responder.muted };

    ghost mutings = { λ s h is. is.muted };

    ghost came_to = { λ s. Some s.stepped };

    ghost Rest = { Unit {0} };

    ghost rest = { λ s. tt };

    fn uid(&self) -> Uid {
        self.responder.uid()
    }

    #[tactic(auto, using(crate::proofs::Keeping::came))]
    fn hear(&mut self, bytes: &[u8], wire: &mut Wire) -> bool {
        self.stepped = self.responder.step_into(bytes, wire);
        self.stepped.replied
    }
}

impl Station {
    ghost use Rattle.std.specs.Borrow.{sem};
    ghost use Rattle.std.specs.Prelude.{◌≡◌, false, None};
    ghost use Rattle.rdm_line.specs.Lends.{lends_responder};

    /// This responder. It has heard no request yet.
    pub fn new(responder: Responder) -> Station
        ensures responder { result.responder ≡ responder }
        ensures stepped { result.stepped ≡ record { replied = false; started = None; changed = None } }
    {
        Station {
            responder,
            stepped: Stepped {
                replied: false,
                started: None,
                changed: None,
            },
        }
    }

    /// What the last request that it heard came to.
    pub fn stepped(&self) -> Stepped
        ensures { result ≡ self.now.stepped }
    {
        self.stepped
    }

    /// The responder.
    pub fn responder(&self) -> &Responder
        ensures { result.now ≡ self.now.responder }
    {
        &self.responder
    }

    /// The responder, for what happens to it beside the line: reports, changes at its menu, and what its firmware tells.
    pub fn responder_mut(&mut self) -> &mut Responder
        ensures* writes_back { sem 𝓛 (lends_responder self.entry result) }
        ensures value { result.now ≡ self.old.responder }
    {
        &mut self.responder
    }
}
