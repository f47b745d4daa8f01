//! A responder that hears frames over and over.

ghost use Rattle.std.specs.List.{cons_option};
ghost use Rattle.std.specs.Prelude.{◌≡◌, ◌++◌, ℕ, List, [], ◌∷◌, map};
ghost use Rattle.rdm_responder.specs.History.{History};
ghost use Rattle.rdm_responder.specs.StandsFor.{StandsFor};
ghost use Rattle.rdm_bench.specs.Replay.{repeated, IsRunOf, IsReplay};
ghost use Rattle.rdm_bench.specs.Reports.{reports_of};
ghost use Rattle.rdm_bench.specs.Replayed.{HasReplayed};

use crate::{Reports, Tally};
use rdm_frame::Wire;
use rdm_outbox::Job;
use rdm_responder::{Report, Responder};

/// A responder that hears frames, how its jobs are reported, and what the bytes of its replies come to so far. The bytes
/// of a reply stand in one list until the next.
#[derive(Debug, Drop)]
pub(crate) struct Replay {
    responder: Responder,
    reports: Reports,
    wire: Wire,
    tally: Tally,
}

impl Replay {
    /// Nothing was heard yet.
    pub(crate) fn new(responder: Responder, reports: Reports) -> Replay
        ensures replayed { (start : History) → StandsFor responder start → HasReplayed start [] result }
        ensures reports { result.reports ≡ reports }
    {
        Replay {
            responder,
            reports,
            wire: Wire::new(),
            tally: Tally::new(),
        }
    }

    /// Hears the frames one after another, that many times over.
    // The one way to hear frames: so the compiler puts all that is below into the loop, and what is measured has no calls
    // but the responder's.
    pub(crate) fn hear_rounds(&mut self, frames: &[&[u8]], rounds: u32)
        ensures replayed { (start : History) (before : List (List ℕ)) → HasReplayed start before self.old →
            HasReplayed start (before ++ repeated rounds (map (λ frame. frame.now) frames.now)) self.new }
        ensures same { self.new.reports ≡ self.old.reports }
    {
        for _round in 0..rounds {
            self.hear_all(frames);
        }
    }

    /// Hears the frames one after another.
    fn hear_all(&mut self, frames: &[&[u8]])
        ensures replayed { (start : History) (before : List (List ℕ)) → HasReplayed start before self.old →
            HasReplayed start (before ++ map (λ frame. frame.now) frames.now) self.new }
        ensures same { self.new.reports ≡ self.old.reports }
    {
        for frame in frames {
            self.hear(frame);
        }
    }

    /// Hears a frame, and hands in the report of the job that it starts.
    fn hear(&mut self, frame: &[u8])
        ensures replayed { (start : History) (before : List (List ℕ)) → HasReplayed start before self.old →
            HasReplayed start (before ++ frame.now ∷ []) self.new }
        ensures same { self.new.reports ≡ self.old.reports }
    {
        let stepped = self.responder.step_into(frame, &mut self.wire);
        if stepped.replied {
            self.tally.add(self.wire.as_slice());
        }
        report(&mut self.responder, self.reports, stepped.job());
    }

    /// What the bytes of all replies come to.
    pub(crate) fn tally(&self) -> Tally
        ensures { result ≡ self.now.tally }
    {
        self.tally
    }
}

/// Hands in the report of the job that started, if one did and is reported. A report that may not arrive comes back, and
/// changes nothing.
fn report(responder: &mut Responder, reports: Reports, started: Option<Job>)
    ensures { (start : History) → StandsFor responder.old start →
        (end : History) × StandsFor responder.new end × IsRunOf start end [] (reports_of reports (cons_option started [])) [] [] }
{
    let Some(job) = started else {
        return;
    };
    if let Some(outcome) = reports.outcome(job.work.verb) {
        let _ = responder.arrive(Report { job, outcome });
    }
}
