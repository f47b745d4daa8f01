//! What the bus thread plays reports with: the bus, and its end of the report lane.

ghost use Rattle.std.specs.Prelude.{◌≡◌, ◌≢◌, ◌+◌, ◌<◌, IfErr, IsErrOf, MatchResult};
ghost use Rattle.rdm_lane.specs.Ends.{IsOver};
ghost use Rattle.rdm_crew.specs.Desks.{IsDrawn, IsSuspect, IsSameDesk, IsCutShort, AfterDraw, HaveArrived, HaveSettled, nones_in};

use crate::Setup;
use crate::bus::stop::Stop;
use crate::threads::waiting::Waiter;
use rdm_bus::{PlayError, Step, System};
use rdm_lane::{Take, Taken};
use rdm_responder::Report;
use std::alloc::AllocError;
use std::snapshot::Snapshot;
use std::sync::Wait;

/// The bus, and the end of the report lane that the bus thread takes from.
#[derive(Drop)]
pub(crate) struct Desk {
    /// What the run was set up with. Proofs alone read it.
    pub(crate) setup: Snapshot<Setup>,
    pub(crate) system: System,
    pub(crate) reports: Take<Report>,
    /// What the bus thread waits with. Every other thread of the run has a bell for it.
    pub(crate) waiter: Waiter,
}

/// What one take from the report lane came to.
pub(crate) enum Drawn {
    /// A report was there, and has arrived.
    Arrived,
    /// A worker has closed its post.
    Mark,
    /// No report was there.
    Empty,
    /// Both workers have closed their posts, and all was taken.
    Closed,
}

impl Desk {
    /// Takes from the report lane. A report arrives on the bus.
    pub(crate) fn draw<R: Wait>(&mut self, rt: &R) -> Result<Drawn, Stop>
        requires { IsDrawn self.old }
        ensures drawn { AfterDraw self.old self.new result }
        ensures same { IsSameDesk self.old self.new }
    {
        match self.reports.take(rt) {
            Ok(Taken::Item { item: report, .. }) => match self.system.play(&Step::Arrive(report)) {
                Ok(()) => Ok(Drawn::Arrived),
                Err(PlayError::OutOfMemory) => Err(Stop::OutOfMemory),
                Err(PlayError::Astray) => Err(Stop::Astray),
                // Commands alone are refused so.
                Err(PlayError::Reserved) => unreachable!(),
                Err(PlayError::TooLong) => unreachable!(),
                // A change alone is.
                Err(PlayError::NoRoom) => unreachable!(),
            },
            Ok(Taken::Mark { .. }) => Ok(Drawn::Mark),
            Ok(Taken::Empty) => Ok(Drawn::Empty),
            Ok(Taken::Closed) => Ok(Drawn::Closed),
            Err(_) => Err(Stop::OutOfMemory),
        }
    }

    /// Draws reports until no job is outstanding. It may find none `empties` times; the next time it is `Unsettled`.
    ///
    /// After the first hundred in a row it sleeps before each further look, until a report comes or 10 ms have passed.
    pub(crate) fn settle<R: Wait>(&mut self, rt: &R, empties: u32) -> Result<(), Stop>
        requires { IsDrawn self.old }
        ensures settled { MatchResult result
            (λ _. IsDrawn self.new × HaveSettled self.old self.new)
            (λ stop. IsCutShort self.old self.new stop) }
        ensures same { IsSameDesk self.old self.new }
    {
        let mut found_none = 0;
        self.settle_within(rt, u64::from(empties), &mut found_none)
    }

    /// Settles as `settle` does, and counts how often it found none.
    fn settle_within<R: Wait>(
        &mut self,
        rt: &R,
        empties: u64,
        found_none: &mut u64,
    ) -> Result<(), Stop>
        requires drawn { IsDrawn self.old }
        requires none { found_none.old ≡ 0 }
        requires bound { empties < 4294967296 }
        ensures settled { MatchResult result
            (λ _. IsDrawn self.new × HaveSettled self.old self.new)
            (λ stop. IsCutShort self.old self.new stop) }
        ensures unsettled { IsErrOf result Stop.Unsettled → found_none.new ≡ empties + 1 }
        ensures same { IsSameDesk self.old self.new }
    {
        let mut looks = 0;
        for _ in rt.forever() {
            if self.system.responder().outstanding() == 0 {
                return Ok(());
            }
            match self.look(rt, found_none) {
                Ok(Drawn::Arrived) => looks = 0,
                Ok(Drawn::Empty) => {
                    if *found_none > empties {
                        return Err(Stop::Unsettled);
                    }
                    looks = self.waiter.wait_a_while(rt, looks);
                }
                // A worker closes its post before the steps end only if its memory was refused.
                Ok(Drawn::Mark) => return Err(Stop::OutOfMemory),
                Ok(Drawn::Closed) => return Err(Stop::OutOfMemory),
                Err(stop) => return Err(stop),
            }
        }
        unreachable!()
    }

    /// Takes from the report lane as `draw` does, and counts if no report was there.
    fn look<R: Wait>(&mut self, rt: &R, found_none: &mut u64) -> Result<Drawn, Stop>
        requires drawn { IsDrawn self.old }
        requires room { found_none.old < 4294967296 }
        ensures drawn { AfterDraw self.old self.new result }
        ensures counted { found_none.new ≡ found_none.old + nones_in result }
        ensures same { IsSameDesk self.old self.new }
    {
        let drawn = self.draw(rt);
        if let Ok(Drawn::Empty) = &drawn {
            *found_none += 1;
        }
        drawn
    }

    /// Draws every report, until both workers have closed their posts.
    pub(crate) fn draw_all<R: Wait>(&mut self, rt: &R) -> Result<(), Stop>
        requires { IsDrawn self.old }
        ensures drawn { MatchResult result
            (λ _. IsDrawn self.new × HaveArrived self.old self.new × IsOver self.new.reports)
            (λ stop. IsCutShort self.old self.new stop) }
        ensures settles { IfErr result (λ stop. stop ≢ Stop.Unsettled) }
        ensures same { IsSameDesk self.old self.new }
    {
        let mut looks = 0;
        for _ in rt.forever() {
            match self.draw(rt) {
                Ok(Drawn::Arrived) => looks = 0,
                Ok(Drawn::Mark) => {}
                Ok(Drawn::Empty) => looks = self.waiter.wait(rt, looks),
                Ok(Drawn::Closed) => return Ok(()),
                Err(stop) => return Err(stop),
            }
        }
        unreachable!()
    }

    /// Takes what is left in the report lane, until both workers have closed their posts. Nothing arrives.
    pub(crate) fn drain<R: Wait>(&mut self, rt: &R) -> Result<(), AllocError>
        requires { IsSuspect self.old }
        ensures suspect { MatchResult result (λ _. IsSuspect self.new × IsOver self.new.reports) (λ _. IsSuspect self.new) }
        ensures system { self.new.system ≡ self.old.system }
        ensures same { IsSameDesk self.old self.new }
    {
        let mut looks = 0;
        for _ in rt.forever() {
            match self.reports.take(rt) {
                Ok(Taken::Item { .. }) => looks = 0,
                Ok(Taken::Mark { .. }) => {}
                Ok(Taken::Empty) => looks = self.waiter.wait(rt, looks),
                Ok(Taken::Closed) => return Ok(()),
                Err(_) => return Err(AllocError),
            }
        }
        unreachable!()
    }
}
