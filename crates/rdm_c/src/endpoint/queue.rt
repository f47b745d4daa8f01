//! What waits at a responder, and which jobs its workers are at, for C.

ghost use Rattle.std.specs.Prelude.{◌≡◌, ◌≢◌, ◌↔◌, ◌<◌, false, length, slice_get};
ghost use Rattle.rdm_deadlines.specs.Deadlines.{next_of, seen};
ghost use Rattle.rdm_outbox.specs.Jobs.{waiting_of};
ghost use Rattle.rdm_outbox.specs.Statuses.{unshown};
ghost use Rattle.rdm_responder.specs.History.{History, Dropped, then_event};
ghost use Rattle.rdm_responder.specs.Runs.{outbox_of};
ghost use Rattle.rdm_responder.specs.Started.{working_at};
ghost use Rattle.rdm_responder.specs.StandsFor.{StandsFor};
ghost use Rattle.rdm_c.specs.Endpoints.{IsFor, found, is_responder};
ghost use Rattle.rdm_c.specs.Queues.{DoneIfThere, NumberTold, WaitingTold, WorkingTold};
ghost use Rattle.rdm_c.specs.Statuses.{code_of};

use crate::endpoint::{Endpoint, RunningResponder};
use crate::job::JobNumbers;
use crate::message::MessageNumbers;
use crate::status::Status;
use rdm_deadlines::Deadlines;

/// Tells of a message that waits: the oldest has the index 0.
pub(crate) fn waiting_message(
    endpoint: &Endpoint,
    index: usize,
    message: &mut MessageNumbers,
) -> Status
    ensures told { (h : History) → IsFor endpoint.now h → WaitingTold (code_of result) message.new h index }
    ensures absent { (result ≡ Status.Absent) ↔ (is_responder endpoint.now ≡ false) }
    ensures same { result ≢ Status.Done → message.new ≡ message.old }
{
    let Endpoint::Responder(running) = endpoint else {
        return Status::Absent;
    };
    match running.responder.waiting_at(index) {
        Some(waiting) => {
            message.tell_waiting(waiting);
            Status::Done
        }
        None => Status::NoMore,
    }
}

/// Drops the oldest message that waits.
pub(crate) fn drop_oldest(endpoint: &mut Endpoint) -> Status
    ensures told { (h : History) → IsFor endpoint.old h → DoneIfThere (code_of result) (slice_get (waiting_of (outbox_of h)) 0) }
    ensures stands { (h : History) → IsFor endpoint.old h → IsFor endpoint.new (then_event h Dropped) }
    ensures absent { (result ≡ Status.Absent) ↔ (is_responder endpoint.old ≡ false) }
    ensures same { result ≢ Status.Done → endpoint.new ≡ endpoint.old }
{
    match endpoint {
        Endpoint::Responder(running) => drop_message(running),
        Endpoint::Collector(_) | Endpoint::Searcher(_) => Status::Absent,
    }
}

/// Drops the oldest message that waits, as `drop_oldest`.
fn drop_message(running: &mut RunningResponder) -> Status
    ensures told { (h : History) → StandsFor running.old.responder h →
        DoneIfThere (code_of result) (slice_get (waiting_of (outbox_of h)) 0) }
    ensures stands { (h : History) → StandsFor running.old.responder h → StandsFor running.new.responder (then_event h Dropped) }
    ensures found { result ≢ Status.Absent }
    ensures same { result ≢ Status.Done → running.new ≡ running.old }
{
    match running.responder.drop_oldest() {
        Some(_) => Status::Done,
        None => Status::NoMore,
    }
}

/// Tells how many status entries wait to be shown.
pub(crate) fn entries(endpoint: &Endpoint, count: &mut usize) -> Status
    ensures status { result ≡ found (is_responder endpoint.now) }
    ensures count { (h : History) → IsFor endpoint.now h → count.new ≡ length (unshown (outbox_of h).noted) }
{
    let Endpoint::Responder(running) = endpoint else {
        return Status::Absent;
    };
    *count = running.responder.unshown();
    Status::Done
}

/// Tells of the job that a worker is at.
pub(crate) fn working(endpoint: &Endpoint, worker: u8, job: &mut JobNumbers) -> Status
    ensures told { (h : History) → IsFor endpoint.now h → worker < 2 → WorkingTold (code_of result) job.new h worker }
    ensures absent { (result ≡ Status.Absent) ↔ (is_responder endpoint.now ≡ false) }
    ensures same { result ≢ Status.Done → job.new ≡ job.old }
    ensures statuses { result ≢ Status.Unknown }
{
    let Endpoint::Responder(running) = endpoint else {
        return Status::Absent;
    };
    match running.responder.working(worker) {
        Some(started) => {
            *job = JobNumbers::of(&started);
            Status::Done
        }
        None => Status::NoMore,
    }
}

/// Looks which jobs the workers are at, and tells in how many milliseconds the first of their estimates ends.
pub(crate) fn next_end(
    endpoint: &Endpoint,
    deadlines: &mut Deadlines,
    now: u32,
    milliseconds: &mut u32,
) -> Status
    ensures first { (h : History) → IsFor endpoint.now h → deadlines.new.first ≡ seen deadlines.old.first (working_at h 0) now }
    ensures second { (h : History) → IsFor endpoint.now h → deadlines.new.second ≡ seen deadlines.old.second (working_at h 1) now }
    ensures told { (h : History) → IsFor endpoint.now h → NumberTold (code_of result) milliseconds.new (next_of deadlines.new now) }
    ensures absent { (result ≡ Status.Absent) ↔ (is_responder endpoint.now ≡ false) }
    ensures same { is_responder endpoint.now ≡ false → deadlines.new ≡ deadlines.old }
{
    let Endpoint::Responder(running) = endpoint else {
        return Status::Absent;
    };
    deadlines.look(&running.responder, now);
    match deadlines.next(now) {
        Some(left) => {
            *milliseconds = left;
            Status::Done
        }
        None => Status::NoMore,
    }
}
