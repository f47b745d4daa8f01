//! What the workers do, and that nobody stands at the panel.

ghost use Rattle.std.specs.Prelude.{◌≡◌, true};
ghost use Rattle.rdm_params.specs.Jobs.Outcome.{ends};

use rdm_crew::{Panel, Part};
use rdm_outbox::Job;
use rdm_params::{Change, Outcome, Verb};
use std::thread;
use std::time::{Clock, Duration};

/// How long a slow job takes, in milliseconds.
const SLOW: u64 = 1;

/// Does each job at once.
#[derive(Drop)]
pub(crate) struct Quick;

impl Part for Quick {
    ghost gives = { λ part job outcome. ends job.work.verb outcome ≡ true };

    ghost gives_after = { λ part before job outcome. ends job.work.verb outcome ≡ true };

    fn work(&mut self, job: &Job) -> Outcome {
        outcome_of(job)
    }
}

/// Does each job in a millisecond, in which it sleeps.
#[derive(Drop)]
pub(crate) struct Slow<R: Clock> {
    pub(crate) rt: R,
}

impl<R: Clock + Drop> Part for Slow<R> {
    ghost use Rattle.std.specs.Prelude.{◌≡◌, true};
    ghost use Rattle.rdm_params.specs.Jobs.Outcome.{ends};

    ghost gives = { λ part job outcome. ends job.work.verb outcome ≡ true };

    ghost gives_after = { λ part before job outcome. ends job.work.verb outcome ≡ true };

    fn work(&mut self, job: &Job) -> Outcome {
        thread::sleep(&self.rt, Duration::from_millis(SLOW));
        outcome_of(job)
    }
}

/// A SET is done, and a sensor measures 25.
pub(crate) fn outcome_of(job: &Job) -> Outcome
    ensures { ends job.now.work.verb result ≡ true }
{
    match job.work.verb {
        Verb::Set => Outcome::Done,
        Verb::Get => Outcome::Reading(25),
    }
}

/// Offers no change.
#[derive(Drop)]
pub(crate) struct Nobody;

impl Panel for Nobody {
    ghost offers = { λ panel number change. ⊥ };

    fn next(&mut self, _number: u32) -> Option<Change> {
        None
    }
}
