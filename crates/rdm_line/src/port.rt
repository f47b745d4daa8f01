//! A line as the port of a search.

ghost use Rattle.std.specs.Prelude.{◌≡◌, ℕ, All};
ghost use Rattle.rdm_frame.specs.declared.uid.Uid.{Uid};
ghost use Rattle.rdm_search.specs.declared.request.Request.{Request};
ghost use Rattle.rdm_search.specs.Line.{IsDevice, IsHeard, after_request};
ghost use Rattle.rdm_search.specs.Requests.{request_frame, IsRequest};
ghost use Rattle.rdm_line.specs.Searching.{fixtures_of, HasHistories, IsSent};

use crate::{Device, Line};
use rdm_frame::ranges::frame_fits;
use rdm_frame::{Frame, Wire, encode};
use rdm_search::Port;

/// A line as the port of a search (E1.20 sections 7.5 and 7.6).
///
/// With every rule of collisions, `discover` of `rdm_search` over it finds exactly the devices of the line, each once, and
/// mutes them.
#[derive(Drop)]
pub struct LinePort<D: Device> {
    line: Line<D>,
    sent: u32,
    ghost alive: { HasHistories D.stands line },
}

impl<D: Device> LinePort<D> {
    /// A port on this line, on which no request was sent yet.
    pub fn new(line: Line<D>) -> LinePort<D>
        requires { HasHistories D.stands line }
        ensures line { result.line ≡ line }
        ensures sent { result.sent ≡ 0 }
        ensures devices { All (λ f. IsDevice f.uid) (fixtures_of D.muted result.line) }
    {
        line.uids_differ();
        LinePort { line, sent: 0 }
    }

    /// How many requests were sent: 4,294,967,295 if there were more.
    pub fn sent(&self) -> u32
        ensures { result ≡ self.now.sent }
    {
        self.sent
    }

    /// The line.
    pub fn into_line(self) -> Line<D>
        ensures line { result ≡ self.line }
        ensures histories { HasHistories D.stands result }
    {
        let LinePort { line, sent: _ } = self;
        line
    }
}

impl<D: Device> Port for LinePort<D> {
    ghost fixtures = { λ p. fixtures_of D.muted p.line };

    ghost hears = { λ p frame heard q. IsSent D.stands p.line frame heard q.line };

    ghost sent = { λ p. p.sent };

    // Nothing is altered on it.
    ghost altered = { λ _. 0 };

    fn exchange(&mut self, frame: &Frame) -> Wire {
        self.sent = self.sent.saturating_add(1);
        ask(&mut self.line, frame)
    }
}

/// Sends a frame on a line, and gives what is on the wire then.
fn ask<D: Device>(line: &mut Line<D>, frame: &Frame) -> Wire
    requires { HasHistories D.stands line.old }
    ensures alive { HasHistories D.stands line.new }
    ensures exchanged { IsSent D.stands line.old frame.now result line.new }
    ensures heard { (request : Request) (source : Uid) (tn : ℕ) → IsRequest request
        → frame.now ≡ request_frame source tn request → IsHeard request (fixtures_of D.muted line.old) result }
    ensures after { (request : Request) (source : Uid) (tn : ℕ) → IsRequest request
        → frame.now ≡ request_frame source tn request
        → fixtures_of D.muted line.new ≡ after_request request (fixtures_of D.muted line.old) }
{
    line.uids_differ();
    frame_fits(&frame.view());
    let mut wire = Wire::new();
    line.hear(encode(frame).as_slice(), &mut wire);
    wire
}
