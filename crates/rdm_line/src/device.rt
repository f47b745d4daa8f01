//! What is on a line.

use rdm_frame::{Uid, Wire};

/// A device on a line.
///
/// What it does is a responder's: after any history that it stands for, it answers by the reply rules of `rdm_responder`.
pub trait Device: Drop {
    ghost use Rattle.std.specs.Prelude.{◌≡◌, Bool, Option, IfSome};
    ghost use Rattle.std.specs.Bool.{OnFalse};
    ghost use Rattle.rdm_responder.specs.declared.stepped.Stepped.{Stepped};
    ghost use Rattle.rdm_responder.specs.History.{History, Heard, then_event};
    ghost use Rattle.rdm_responder.specs.Rules.{account_of, answered, is_muted, reply_of};
    ghost use Rattle.rdm_line.specs.Keeping.{CameTo};

    // It is in the state that this history leads to.
    ghost stands: { Self → History → Type 0 };

    // Whether it is muted (E1.20 section 7.6).
    ghost muted: { Self → Bool };

    // What its last request came to, if it keeps that.
    ghost came_to: { Self → Option Stepped };

    // What of it no bytes change.
    ghost Rest: { Type 0 };

    ghost rest: { Self → Rest };

    /// Its UID.
    fn uid(&self) -> Uid
        ensures uid { (h : History) → stands self.now h → result ≡ h.setup.uid };

    /// Hears bytes, and says whether it replied. The bytes of the reply stand in `wire`, which stays as it was if there is none.
    fn hear(&mut self, bytes: &[u8], wire: &mut Wire) -> bool
        ensures reply { (h : History) → stands self.old h → answered result wire.new ≡ reply_of h bytes.now }
        ensures silent { OnFalse result (wire.new ≡ wire.old) }
        ensures kept { (h : History) → stands self.old h → IfSome (came_to self.new) (CameTo h bytes.now) }
        ensures rest { rest self.new ≡ rest self.old }
        ensures stands { (h : History) → stands self.old h → stands self.new (then_event h (Heard bytes.now)) };

    // It is muted if the last muting of its history is a mute.
    ghost mutings: { (d : Self) (h : History) → stands d h → muted d ≡ is_muted (account_of h).mutings };
}
