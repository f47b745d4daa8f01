//! What waits at a responder, and when its jobs are due, as C calls it.

ghost use Rattle.std.specs.Prelude.{◌≡◌, ◌≢◌, ◌↔◌, ◌<◌, ◌≤◌, false, length, slice_get};
ghost use Rattle.rdm_deadlines.specs.Deadlines.{next_of, seen};
ghost use Rattle.rdm_outbox.specs.Jobs.{waiting_of};
ghost use Rattle.rdm_outbox.specs.Statuses.{unshown};
ghost use Rattle.rdm_responder.specs.History.{History, Dropped, then_event};
ghost use Rattle.rdm_responder.specs.Runs.{outbox_of};
ghost use Rattle.rdm_responder.specs.Started.{working_at};
ghost use Rattle.rdm_c.specs.Endpoints.{HeldFor, found, holds_responder};
ghost use Rattle.rdm_c.specs.Queues.{DoneIfThere, NumberTold, WaitingTold, WorkingTold};
ghost use Rattle.rdm_c.specs.Statuses.{code_of};

use crate::endpoint::queue;
use crate::handle::Handle;
use crate::job::JobNumbers;
use crate::keeping::{put, take};
use crate::message::MessageNumbers;
use crate::status::Status;
use rdm_deadlines::Deadlines;
use std::alloc::Global;

/// Tells of a message that waits for the controller: the oldest has the index 0. There may be no more.
#[unsafe(no_mangle)]
pub extern "C" fn felosumay_responder_waiting_message(
    alloc: Global,
    responder: &mut Handle,
    index: usize,
    message: &mut MessageNumbers,
) -> u8
    ensures told { (h : History) → HeldFor responder.old.held h → WaitingTold result message.new h index }
    ensures absent { (result ≡ code_of Status.Absent) ↔ (holds_responder responder.old.held ≡ false) }
    ensures kept { result ≢ code_of Status.Done → message.new ≡ message.old }
    ensures same { responder.new.held ≡ responder.old.held }
{
    let Some(endpoint) = take(alloc, responder) else {
        return Status::Absent.code();
    };
    let status = queue::waiting_message(&endpoint, index, message);
    put(responder, endpoint);
    status.code()
}

/// Drops the oldest message that waits, which no controller gets then: for firmware whose queue is full since nobody fetches. There may
/// be none.
#[unsafe(no_mangle)]
pub extern "C" fn felosumay_responder_drop_oldest(alloc: Global, responder: &mut Handle) -> u8
    ensures told { (h : History) → HeldFor responder.old.held h → DoneIfThere result (slice_get (waiting_of (outbox_of h)) 0) }
    ensures stands { (h : History) → HeldFor responder.old.held h → HeldFor responder.new.held (then_event h Dropped) }
    ensures absent { (result ≡ code_of Status.Absent) ↔ (holds_responder responder.old.held ≡ false) }
    ensures same { result ≢ code_of Status.Done → responder.new.held ≡ responder.old.held }
{
    let Some(mut endpoint) = take(alloc, responder) else {
        return Status::Absent.code();
    };
    let status = queue::drop_oldest(&mut endpoint);
    put(responder, endpoint);
    status.code()
}

/// Tells how many status entries wait to be shown (E1.20 section 10.3.2).
#[unsafe(no_mangle)]
pub extern "C" fn felosumay_responder_entries(
    alloc: Global,
    responder: &mut Handle,
    count: &mut usize,
) -> u8
    ensures status { result ≡ code_of (found (holds_responder responder.old.held)) }
    ensures count { (h : History) → HeldFor responder.old.held h → count.new ≡ length (unshown (outbox_of h).noted) }
    ensures same { responder.new.held ≡ responder.old.held }
{
    let Some(endpoint) = take(alloc, responder) else {
        return Status::Absent.code();
    };
    let status = queue::entries(&endpoint, count);
    put(responder, endpoint);
    status.code()
}

/// Tells of the job that a worker is at, the oldest of its outstanding ones, as `felosumay_responder_step_nonnull` told of it. It may be
/// at none. A worker that is neither 0 nor 1 is unknown, whatever the handle holds.
#[unsafe(no_mangle)]
pub extern "C" fn felosumay_responder_working(
    alloc: Global,
    responder: &mut Handle,
    worker: u8,
    job: &mut JobNumbers,
) -> u8
    ensures unknown { (result ≡ code_of Status.Unknown) ↔ (2 ≤ worker) }
    ensures told { (h : History) → HeldFor responder.old.held h → worker < 2 → WorkingTold result job.new h worker }
    ensures absent { worker < 2 → ((result ≡ code_of Status.Absent) ↔ (holds_responder responder.old.held ≡ false)) }
    ensures kept { result ≢ code_of Status.Done → job.new ≡ job.old }
    ensures same { responder.new.held ≡ responder.old.held }
{
    if worker >= 2 {
        return Status::Unknown.code();
    }
    let Some(endpoint) = take(alloc, responder) else {
        return Status::Absent.code();
    };
    let status = queue::working(&endpoint, worker, job);
    put(responder, endpoint);
    status.code()
}

/// Looks which jobs the workers are at, and tells in how many milliseconds the first of their estimates ends (E1.20 section 6.3.3): in 0 if
/// it has ended. The workers may be at none. `now` is the time in milliseconds. A job begins when it is first seen.
#[unsafe(no_mangle)]
pub extern "C" fn felosumay_responder_next_end(
    alloc: Global,
    responder: &mut Handle,
    deadlines: &mut Deadlines,
    now: u32,
    milliseconds: &mut u32,
) -> u8
    ensures first { (h : History) → HeldFor responder.old.held h → deadlines.new.first ≡ seen deadlines.old.first (working_at h 0) now }
    ensures second { (h : History) → HeldFor responder.old.held h → deadlines.new.second ≡ seen deadlines.old.second (working_at h 1) now }
    ensures told { (h : History) → HeldFor responder.old.held h → NumberTold result milliseconds.new (next_of deadlines.new now) }
    ensures absent { (result ≡ code_of Status.Absent) ↔ (holds_responder responder.old.held ≡ false) }
    ensures kept { result ≡ code_of Status.Absent → deadlines.new ≡ deadlines.old }
    ensures same { responder.new.held ≡ responder.old.held }
{
    let Some(endpoint) = take(alloc, responder) else {
        return Status::Absent.code();
    };
    let status = queue::next_end(&endpoint, deadlines, now, milliseconds);
    put(responder, endpoint);
    status.code()
}
