//! What a responder does for C.

ghost use Rattle.std.specs.Prelude.{◌≡◌, ◌≢◌, ◌↔◌, Some, false, length};
ghost use Rattle.rdm_added.specs.Map.{value_at};
ghost use Rattle.rdm_params.specs.Commands.Commands.{got};
ghost use Rattle.rdm_outbox.specs.Jobs.{has_place, outstanding_count, waiting_of};
ghost use Rattle.rdm_responder.specs.History.{History, Heard, Arrived, Changed, then_event};
ghost use Rattle.rdm_responder.specs.Rules.{account_of};
ghost use Rattle.rdm_responder.specs.Runs.{outbox_of};
ghost use Rattle.rdm_responder.specs.StandsFor.{StandsFor};
ghost use Rattle.rdm_c.specs.Steps.{ChangeTold, NoChangeTold, ReplyTold, StartTold};
ghost use Rattle.rdm_c.specs.Statuses.{code_of};
ghost use Rattle.rdm_c.specs.Endpoints.{changed, GetTold, IsFor, KeptTold, MayReport, found, flag, is_responder};
ghost use Rattle.rdm_c.specs.Events.{DoneIf, GoesOn, NotingTold};

use crate::endpoint::{Endpoint, RunningResponder};
use crate::front::write_front;
use crate::job::{JobNumbers, SteppedNumbers};
use crate::status::Status;
use rdm_frame::standard::{MOST_DATA, MOST_SLOTS};
use rdm_params::{Change, Verdict};
use rdm_responder::Report;

/// Hears bytes, and tells of the reply, of the job that started and of what changed.
pub(crate) fn step(
    endpoint: &mut Endpoint,
    bytes: &[u8],
    reply: &mut [u8; MOST_SLOTS],
    stepped: &mut SteppedNumbers,
) -> Status
    ensures status { result ≡ found (is_responder endpoint.old) }
    ensures reply { (h : History) → IsFor endpoint.old h → ReplyTold h bytes.now reply.new stepped.new }
    ensures job { (h : History) → IsFor endpoint.old h → StartTold h bytes.now stepped.new }
    ensures stands { (h : History) → IsFor endpoint.old h → IsFor endpoint.new (then_event h (Heard bytes.now)) }
    ensures unchanged { (h : History) → IsFor endpoint.old h → NoChangeTold h bytes.now stepped.new }
    ensures change { ChangeTold bytes.now stepped.new }
    ensures absent { result ≢ Status.Done →
        (endpoint.new ≡ endpoint.old) × (stepped.new.replied ≡ 0) × (stepped.new.started ≡ 0) × (stepped.new.changed ≡ 0) }
{
    stepped.clear();
    let Endpoint::Responder(running) = endpoint else {
        return Status::Absent;
    };
    let outcome = running.responder.step_into(bytes, &mut running.wire);
    if outcome.replied {
        stepped.count = write_front(running.wire.as_slice(), reply);
        stepped.replied = 1;
    }
    stepped.tell_job(outcome.started);
    stepped.tell_change(outcome.changed);
    Status::Done
}

/// Takes the report of a job, of which C handed in these numbers, and says whether it noted a status entry.
pub(crate) fn arrive(
    endpoint: &mut Endpoint,
    job: &JobNumbers,
    report: Report,
    kept: &mut u8,
) -> Status
    ensures absent { (result ≡ Status.Absent) ↔ (is_responder endpoint.old ≡ false) }
    ensures lawful { DoneIf (code_of result) (Some endpoint.old) (λ h. MayReport h job.now report) }
    ensures stands { GoesOn (code_of result) (Some endpoint.old) (Arrived report) (Some endpoint.new) }
    ensures kept { NotingTold (code_of result) (Some endpoint.old) (Arrived report) kept.new }
    ensures same { result ≢ Status.Done → endpoint.new ≡ endpoint.old }
    ensures statuses { (result ≢ Status.Absent) → result ≢ Status.Done → result ≡ Status.Astray }
{
    let Endpoint::Responder(running) = endpoint else {
        return Status::Absent;
    };
    if !job.is_as_told(running.responder.devices(), &report.job) {
        return Status::Astray;
    }
    match running.responder.arrive(report) {
        Ok(arrival) => {
            *kept = if arrival.kept { 1 } else { 0 };
            Status::Done
        }
        Err(_) => Status::Astray,
    }
}

/// Changes a parameter of the root, as a person does at the fixture's own menu.
pub(crate) fn change(endpoint: &mut Endpoint, change: Change) -> Status
    ensures told { (h : History) → IsFor endpoint.old h → result ≡ changed h change }
    ensures stands { (h : History) → IsFor endpoint.old h → result ≢ Status.NoRoom → IsFor endpoint.new (then_event h (Changed change)) }
    ensures no_room { result ≡ Status.NoRoom → endpoint.new ≡ endpoint.old }
    ensures absent { (result ≡ Status.Absent) ↔ (is_responder endpoint.old ≡ false) }
    ensures same { is_responder endpoint.old ≡ false → endpoint.new ≡ endpoint.old }
    ensures short { result ≢ Status.TooLong }
{
    match endpoint {
        Endpoint::Responder(running) => take_change(running, change),
        Endpoint::Collector(_) | Endpoint::Searcher(_) => Status::Absent,
    }
}

/// Changes a parameter of the root, as `change`.
fn take_change(running: &mut RunningResponder, change: Change) -> Status
    ensures told { (h : History) → StandsFor running.old.responder h → result ≡ changed h change }
    ensures stands { (h : History) → StandsFor running.old.responder h → result ≢ Status.NoRoom →
        StandsFor running.new.responder (then_event h (Changed change)) }
    ensures no_room { result ≡ Status.NoRoom → running.new ≡ running.old }
    ensures found { (result ≢ Status.Absent) × (result ≢ Status.TooLong) }
{
    match running.responder.change(change) {
        Ok(Some(_)) => Status::Done,
        Ok(None) => Status::OutOfRange,
        Err(_) => Status::NoRoom,
    }
}

/// Writes what a GET answers: the value to the front, or the reason of the refusal.
pub(crate) fn get(
    endpoint: &Endpoint,
    sub: u16,
    pid: u16,
    argument: &[u8],
    value: &mut [u8; MOST_DATA],
    count: &mut usize,
    reason: &mut u16,
) -> Status
    ensures told { (h : History) → IsFor endpoint.now h →
        GetTold (code_of result) count.new value.new reason.new (got (account_of h).parameters sub pid argument.now) }
    ensures absent { (result ≡ Status.Absent) ↔ (is_responder endpoint.now ≡ false) }
{
    let Endpoint::Responder(running) = endpoint else {
        return Status::Absent;
    };
    match running.responder.devices().get(sub, pid, argument) {
        Verdict::Reply(body) => {
            *count = write_front(body.as_slice(), value);
            Status::Done
        }
        Verdict::Refuse(nack) => {
            *reason = nack.code();
            Status::Refused
        }
        Verdict::Start(_) | Verdict::Queue(_) | Verdict::Status(_) | Verdict::Clear => {
            Status::NoValue
        }
    }
}

/// Writes what is kept of a parameter that the profile adds to the front, if there is one.
pub(crate) fn own_value(
    endpoint: &Endpoint,
    pid: u16,
    value: &mut [u8; MOST_DATA],
    count: &mut usize,
) -> Status
    ensures told { (h : History) → IsFor endpoint.now h →
        KeptTold (code_of result) count.new value.new (value_at (account_of h).parameters.added pid) }
    ensures absent { (result ≡ Status.Absent) ↔ (is_responder endpoint.now ≡ false) }
{
    let Endpoint::Responder(running) = endpoint else {
        return Status::Absent;
    };
    match running.responder.devices().own_value(pid) {
        Some(bytes) => {
            *count = write_front(bytes, value);
            Status::Done
        }
        None => Status::NotStored,
    }
}

/// Tells how many messages wait.
pub(crate) fn waiting(endpoint: &Endpoint, count: &mut usize) -> Status
    ensures status { result ≡ found (is_responder endpoint.now) }
    ensures count { (h : History) → IsFor endpoint.now h → count.new ≡ length (waiting_of (outbox_of h)) }
{
    let Endpoint::Responder(running) = endpoint else {
        return Status::Absent;
    };
    *count = running.responder.waiting();
    Status::Done
}

/// Tells how many jobs are outstanding.
pub(crate) fn outstanding(endpoint: &Endpoint, count: &mut usize) -> Status
    ensures status { result ≡ found (is_responder endpoint.now) }
    ensures count { (h : History) → IsFor endpoint.now h → count.new ≡ outstanding_count (outbox_of h) }
{
    let Endpoint::Responder(running) = endpoint else {
        return Status::Absent;
    };
    *count = running.responder.outstanding();
    Status::Done
}

/// Tells whether there is room for the message of a change.
pub(crate) fn room(endpoint: &Endpoint, room: &mut u8) -> Status
    ensures status { result ≡ found (is_responder endpoint.now) }
    ensures room { (h : History) → IsFor endpoint.now h → room.new ≡ flag (has_place (outbox_of h)) }
{
    let Endpoint::Responder(running) = endpoint else {
        return Status::Absent;
    };
    *room = if running.responder.room() { 1 } else { 0 };
    Status::Done
}
