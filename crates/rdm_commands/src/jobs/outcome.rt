//! How a job ends.

ghost use Rattle.std.specs.Prelude.{◌≡◌, ◌<◌, Some, None, IfSome, if◌then◌else◌};
ghost use Rattle.rdm_commands.specs.Jobs.Outcome.{ends, fits};
ghost use Rattle.rdm_commands.specs.Jobs.Work.{worker_at};

use crate::Work;
use crate::jobs::work::{is_slow, way};
use rdm_device::Workers;
use rdm_frame::Severity;
use rdm_table::{Verb, Way};

/// How a job ended.
#[derive(Clone, Copy, Debug, PartialEq, Eq)]
pub enum Outcome {
    /// A slow SET is done.
    Done,
    /// A sensor measured this, in its own unit and prefix (E1.20 section 10.7.2).
    Reading(i16),
    /// The job failed, and nothing changes. A status entry tells of it (section 10.3.2).
    Failed {
        /// How bad it is.
        severity: Severity,
        /// The status ID, whose text STATUS_ID_DESCRIPTION gives (section 10.3.3).
        id: u16,
        /// The first value that the text names.
        v1: u16,
        /// The second value that the text names.
        v2: u16,
    },
}

/// Whether a job of this work can end so: a slow SET with `Done`, a GET of a sensor with `Reading`, and each with
/// `Failed`. It is false if the work isn't a slow command.
pub fn fits(work: &Work, outcome: &Outcome) -> bool
    ensures { result ≡ fits work.now outcome.now }
{
    is_slow(work) && ends(work.verb, outcome)
}

/// The worker that has the job of this work by this choice, or `None` if no such job can end so: what `worker_at` and `fits`
/// tell, for one look at the table.
pub fn fitting_worker(workers: &Workers, work: &Work, outcome: &Outcome) -> Option<u8>
    ensures worker { result ≡ if fits work.now outcome.now then Some (worker_at workers.now work.now) else None }
    ensures two { IfSome result (λ worker. worker < 2) }
{
    match way(work) {
        Way::ByJob(slow) if ends(work.verb, outcome) => Some(slow.worker(workers)),
        _ => None,
    }
}

/// Whether a slow command can end so: a SET with `Done`, a GET with `Reading`, and each with `Failed`.
fn ends(verb: Verb, outcome: &Outcome) -> bool
    ensures { result ≡ ends verb outcome.now }
{
    matches!(
        (verb, outcome),
        (Verb::Set, Outcome::Done) | (Verb::Get, Outcome::Reading(_)) | (_, Outcome::Failed { .. })
    )
}
