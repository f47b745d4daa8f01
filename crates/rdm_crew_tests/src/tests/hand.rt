//! Parts: one that is done at once, two that wait for each other and are done only where both are at work at once, and one
//! that counts its jobs.

ghost use Rattle.std.specs.Prelude.{◌≡◌, true};
ghost use Rattle.rdm_params.specs.Jobs.Outcome.{ends};

use rdm_crew::Part;
use rdm_outbox::Job;
use rdm_params::{Outcome, Severity, Verb};
use std::alloc::{AllocError, Global};
use std::sync::Arc;
use std::sync::atomic::{AtomicBool, AtomicU32, Ordering};
use std::thread;

/// What every sensor measures.
pub(super) const MEASURED: i16 = 25;

/// How a job ends where the other part doesn't come.
pub(super) const NOT_MET: Outcome = Outcome::Failed {
    severity: Severity::Error,
    id: 0,
    v1: 0,
    v2: 0,
};

/// How often a slow part looks aside before a job has failed: it ends long after all steps were played.
const SLOW_TURNS: u32 = 50_000;

/// Does jobs.
#[derive(Drop)]
pub(super) enum Hand {
    /// Every SET is done, and every sensor measures the same.
    Quick,
    /// A SET is done where the other part comes too, and everything else fails.
    Gate(Gate),
    /// Every job fails, after some time, and is counted.
    Counts(Arc<AtomicU32, Global>),
}

impl Part for Hand {
    ghost use Rattle.std.specs.Prelude.{◌≡◌, true};
    ghost use Rattle.rdm_params.specs.Jobs.Outcome.{ends};

    ghost gives = { λ part job outcome. ends job.work.verb outcome ≡ true };

    ghost gives_after = { λ part before job outcome. ends job.work.verb outcome ≡ true };

    fn work(&mut self, job: &Job) -> Outcome {
        match (self, job.work.verb) {
            (Hand::Quick, Verb::Set) => Outcome::Done,
            (Hand::Quick, Verb::Get) => Outcome::Reading(MEASURED),
            (Hand::Gate(gate), Verb::Set) => gate.comes_and_waits(),
            (Hand::Gate(gate), Verb::Get) => gate.comes(),
            (Hand::Counts(jobs), _) => {
                count_slowly(jobs);
                NOT_MET
            }
        }
    }
}

/// Takes some time, and counts.
fn count_slowly(jobs: &Arc<AtomicU32, Global>) {
    for _ in 0..SLOW_TURNS {
        thread::yield_now();
    }
    jobs.fetch_add(1, Ordering::SeqCst);
}

/// A part that waits for another.
#[derive(Drop)]
pub(super) struct Gate {
    mine: Arc<AtomicBool, Global>,
    other: Arc<AtomicBool, Global>,
    /// How often it looks whether the other comes.
    turns: u32,
}

impl Gate {
    fn new(
        mine: &Arc<AtomicBool, Global>,
        other: &Arc<AtomicBool, Global>,
        turns: u32,
    ) -> Result<Gate, AllocError> {
        Ok(Gate {
            mine: Arc::try_clone(mine)?,
            other: Arc::try_clone(other)?,
            turns,
        })
    }

    /// Says that it is there, and fails.
    fn comes(&self) -> Outcome
        ensures { ends Verb.Get result ≡ true }
    {
        self.mine.store(true, Ordering::SeqCst);
        NOT_MET
    }

    /// Says that it is there, and waits for the other part, for a time.
    fn comes_and_waits(&self) -> Outcome
        ensures { ends Verb.Set result ≡ true }
    {
        self.mine.store(true, Ordering::SeqCst);
        for _ in 0..self.turns {
            if self.other.load(Ordering::SeqCst) {
                return Outcome::Done;
            }
            thread::yield_now();
        }
        NOT_MET
    }
}

/// The parts of both workers.
#[derive(Drop)]
pub(super) struct Hands {
    pub(super) first: Hand,
    pub(super) second: Hand,
}

impl Hands {
    /// They wait for each other where turns are given, so many of them.
    pub(super) fn new(alloc: Global, turns: Option<u32>) -> Result<Hands, AllocError> {
        match turns {
            Some(turns) => {
                let first = Arc::new(alloc, AtomicBool::new(false))?;
                let second = Arc::new(alloc, AtomicBool::new(false))?;
                Hands::gates(&first, &second, turns)
            }
            None => Ok(Hands {
                first: Hand::Quick,
                second: Hand::Quick,
            }),
        }
    }

    /// They say that they are there by these, each by its own.
    fn gates(
        first: &Arc<AtomicBool, Global>,
        second: &Arc<AtomicBool, Global>,
        turns: u32,
    ) -> Result<Hands, AllocError> {
        Ok(Hands {
            first: Hand::Gate(Gate::new(first, second, turns)?),
            second: Hand::Gate(Gate::new(second, first, turns)?),
        })
    }

    /// Both count their jobs there.
    pub(super) fn counting(count: &Arc<AtomicU32, Global>) -> Result<Hands, AllocError> {
        Ok(Hands {
            first: Hand::Counts(Arc::try_clone(count)?),
            second: Hand::Counts(Arc::try_clone(count)?),
        })
    }
}
