//! The jobs of one worker.

ghost use Rattle.std.specs.Prelude.{◌≡◌, ◌<◌, ◌+◌, [], ◌∷◌, ◌++◌, length, nat_lt, Ok, Err, if◌then◌else◌};
ghost use Rattle.circular_buffer.specs.Buffer.{buffer};
ghost use Rattle.rdm_outbox.specs.Jobs.{number_after, numbered};

use crate::ring::put;
use crate::{Full, Job};
use circular_buffer::HeapCircularBuffer;
use rdm_params::Work;

/// Gives a worker a further job, unless it was given `jobs` already. Its first job had the number `first_job`. There must be
/// room for it.
#[tactic(auto, unfolding(crate::specs::Jobs::number_after))]
pub(crate) fn give(
    outstanding: &mut HeapCircularBuffer<Job>,
    given: &mut u32,
    jobs: u32,
    first_job: u32,
    work: Work,
) -> Result<Job, Full>
    requires { length outstanding.old.items < outstanding.old.capacity }
    ensures answer { result ≡ (if nat_lt given.old jobs
        then Ok (numbered (number_after first_job given.old) work) else Err Full.NoRoom) }
    ensures outstanding { outstanding.new ≡ (if nat_lt given.old jobs
        then buffer (outstanding.old.items ++ numbered (number_after first_job given.old) work ∷ []) outstanding.old.capacity
        else outstanding.old) }
    ensures given { given.new ≡ (if nat_lt given.old jobs then given.old + 1 else given.old) }
{
    if *given >= jobs {
        return Err(Full::NoRoom);
    }
    let number = first_job.wrapping_add(*given);
    put(outstanding, numbered(number, &work));
    *given += 1;
    Ok(numbered(number, &work))
}

/// The job of this number.
// Field by field, and made for each place that it goes to: as a whole it would be copied through memory on the way.
#[inline(always)]
fn numbered(number: u32, work: &Work) -> Job
    ensures { result ≡ numbered number work.now }
{
    Job {
        number,
        work: Work {
            sub: work.sub,
            pid: work.pid,
            verb: work.verb,
            arg: work.arg,
        },
    }
}
