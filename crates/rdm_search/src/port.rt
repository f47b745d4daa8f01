//! What sends frames and hears answers.

use rdm_frame::{Frame, Wire};

/// A port on a line. `exchange` sends the frame of a request and gives the bytes that came after it, none if nothing did.
///
/// Its clauses say what a line is: what may be heard after each request of a search, and which fixtures are muted then. If
/// more than one fixture answers, any bytes may come, as long as some do. So it may be if one does: its answer was altered on
/// its way then, which the port counts. After a mute that no fixture answers noise may come, which it counts too.
pub trait Port {
    ghost use Rattle.std.specs.Prelude.{◌≡◌, ℕ, ◌+◌, ◌≤◌, List};
    ghost use Rattle.rdm_frame.specs.declared.uid.Uid.{Uid};
    ghost use Rattle.rdm_frame.specs.declared.frame.Frame.{Frame as TheFrame};
    ghost use Rattle.rdm_search.specs.declared.request.Request.{Request};
    ghost use Rattle.rdm_search.specs.Requests.{request_frame, IsRequest};
    ghost use Rattle.rdm_search.specs.Line.{Fixture, IsAnswer, after_request};

    // The fixtures of its line.
    ghost fixtures: { Self → List Fixture };

    // From this state of the port, when this frame is sent, these bytes may be heard, and it is in that state then.
    ghost hears: { Self → TheFrame → List ℕ → Self → Type 0 };

    // How many transactions there were.
    ghost sent: { Self → ℕ };

    // How many answers were altered: those to branches, and noise after mutes that no fixture answers.
    ghost altered: { Self → ℕ };

    /// Sends the frame, and waits for what comes.
    fn exchange(&mut self, frame: &Frame) -> Wire
        ensures exchanged { hears self.old frame.now result self.new }
        ensures heard { (request : Request) (source : Uid) (tn : ℕ) → IsRequest request
            → frame.now ≡ request_frame source tn request
            → IsAnswer request (fixtures self.old) result (altered self.old) (altered self.new) }
        ensures after { (request : Request) (source : Uid) (tn : ℕ) → IsRequest request
            → frame.now ≡ request_frame source tn request → fixtures self.new ≡ after_request request (fixtures self.old) }
        ensures sent { sent self.new ≤ sent self.old + 1 };
}
