//! What does the jobs of a worker.

ghost use Rattle.std.specs.Prelude.{◌↔◌, List, [], ◌∷◌};
ghost use Rattle.rdm_commands.specs.declared.jobs.outcome.Outcome.{Outcome};
ghost use Rattle.rdm_outbox.specs.declared.job.Job.{Job};

use rdm_outbox::Job;
use rdm_params::Outcome;

/// Does jobs, on a worker's thread.
pub trait Part: Drop {
    // The outcomes that it may give for a job.
    ghost gives: { Self → Job → Outcome → Type 0 };
    // The outcomes that it may give for a job that comes after these.
    ghost gives_after: { Self → List Job → Job → Outcome → Type 0 };

    /// Does a job, and says how it ended. It waits for no other thread.
    ///
    /// What may be given for a job stays the same for the whole life of a part. Which of these outcomes it is may depend on the jobs that
    /// the part has done before.
    fn work(&mut self, job: &Job) -> Outcome
        ensures gives { gives self.old job.now result }
        ensures same { (j : Job) (o : Outcome) → gives self.new j o ↔ gives self.old j o }
        ensures next { gives_after self.old [] job.now result }
        ensures later { (before : List Job) (j : Job) (o : Outcome) → gives_after self.new before j o → gives_after self.old (job.now ∷ before) j o };
}
