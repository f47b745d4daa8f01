//! Since when each worker is at its job, and when its estimate ends.

ghost use Rattle.std.specs.Prelude.{◌≡◌, ◌≤◌, option_map};
ghost use Rattle.rdm_responder.specs.History.{History};
ghost use Rattle.rdm_responder.specs.Started.{working_at};
ghost use Rattle.rdm_responder.specs.StandsFor.{StandsFor};
ghost use Rattle.rdm_deadlines.specs.Deadlines.{left_of, next_of, seen};

use rdm_responder::{Responder, Started};

/// How many milliseconds a tenth of a second has, the unit of estimates (E1.20 section 6.3.3).
const MILLISECONDS_A_TENTH: u32 = 100;

/// The job that a worker is at, and since when.
#[repr(C)]
#[derive(Clone, Copy, Debug, PartialEq, Eq)]
pub struct AtJob {
    /// The number of the job.
    pub number: u32,
    /// When it was first seen, in milliseconds of the firmware's clock.
    pub begun: u32,
    /// How long it takes by its estimate, in milliseconds.
    pub length: u32,
    /// 1 if the worker is at a job, else 0: then the other fields say nothing.
    pub there: u8,
}

/// The jobs that the two workers are at, and when their estimates end. C calls it `felosumay_deadlines`, and it has the same layout
/// there: all zeros are a new one.
#[repr(C)]
#[derive(Clone, Copy, Debug, PartialEq, Eq)]
pub struct Deadlines {
    /// What worker 0 is at.
    pub first: AtJob,
    /// What worker 1 is at.
    pub second: AtJob,
}

impl AtJob {
    /// At no job.
    fn idle() -> AtJob
        ensures { result ≡ record { number = 0; begun = 0; length = 0; there = 0 } }
    {
        AtJob {
            number: 0,
            begun: 0,
            length: 0,
            there: 0,
        }
    }

    /// Sees the worker at this job, or at none.
    fn see(&mut self, job: Option<Started>, now: u32)
        ensures { self.new ≡ seen self.old job now }
    {
        match job {
            None => self.there = 0,
            Some(started) => {
                if self.there != 1 || self.number != started.job.number {
                    *self = AtJob {
                        number: started.job.number,
                        begun: now,
                        length: MILLISECONDS_A_TENTH * u32::from(started.estimate),
                        there: 1,
                    };
                }
            }
        }
    }

    /// In how many milliseconds the estimate of its job ends.
    fn left(&self, now: u32) -> Option<u32>
        ensures { result ≡ left_of self.now now }
    {
        if self.there == 1 {
            Some(self.length.saturating_sub(now.wrapping_sub(self.begun)))
        } else {
            None
        }
    }
}

impl Deadlines {
    /// Neither worker was seen at a job.
    pub fn new() -> Deadlines
        ensures { result ≡ record {
          first = record { number = 0; begun = 0; length = 0; there = 0 };
          second = record { number = 0; begun = 0; length = 0; there = 0 };
        } }
    {
        Deadlines {
            first: AtJob::idle(),
            second: AtJob::idle(),
        }
    }

    /// Looks which jobs the workers of a responder are at. `now` is the time in milliseconds by a clock of 32 bits, which goes on
    /// at 0 after its greatest number. A job begins when it is first seen: look after each packet and after each report.
    pub fn look(&mut self, responder: &Responder, now: u32)
        ensures first { (h : History) → StandsFor responder.now h → self.new.first ≡ seen self.old.first (working_at h 0) now }
        ensures second { (h : History) → StandsFor responder.now h → self.new.second ≡ seen self.old.second (working_at h 1) now }
    {
        self.first.see(responder.working(0), now);
        self.second.see(responder.working(1), now);
    }

    /// In how many milliseconds the first estimate ends of the jobs that were seen: in 0 if it has ended. It is `None` if no
    /// worker is at a job.
    pub fn next(&self, now: u32) -> Option<u32>
        ensures { result ≡ next_of self.now now }
    {
        match (self.first.left(now), self.second.left(now)) {
            (Some(first), Some(second)) => Some(first.min(second)),
            (first, None) => first,
            (None, second) => second,
        }
    }
}
