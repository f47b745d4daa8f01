//! What C reads of a responder.

ghost use Rattle.std.specs.Prelude.{◌≡◌, ◌↔◌, false, length};
ghost use Rattle.rdm_added.specs.Map.{value_at};
ghost use Rattle.rdm_params.specs.Commands.Commands.{got};
ghost use Rattle.rdm_outbox.specs.Jobs.{has_place, outstanding_count, waiting_of};
ghost use Rattle.rdm_responder.specs.History.{History};
ghost use Rattle.rdm_responder.specs.Rules.{account_of};
ghost use Rattle.rdm_responder.specs.Runs.{outbox_of};
ghost use Rattle.rdm_c.specs.Statuses.{code_of};
ghost use Rattle.rdm_c.specs.Endpoints.{HeldFor, GetTold, KeptTold, found, flag, holds_responder};

use crate::endpoint::responder::{get, outstanding, own_value, room, waiting};
use crate::handle::Handle;
use crate::keeping::{put, take};
use crate::status::Status;
use rdm_frame::standard::MOST_DATA;
use std::alloc::Global;

/// Reads a parameter, as a GET of this sub-device, PID and argument would: the value stands at the front of `value`, and
/// `count` says how many bytes it has; or it is rejected, and `reason` is the code of the NACK (E1.20 table A-17); or there
/// is no value, since the command starts a job or fetches a message.
#[unsafe(no_mangle)]
pub extern "C" fn felosumay_responder_get_nonnull(
    alloc: Global,
    responder: &mut Handle,
    sub: u16,
    pid: u16,
    argument: &[u8],
    value: &mut [u8; MOST_DATA],
    count: &mut usize,
    reason: &mut u16,
) -> u8
    ensures told { (h : History) → HeldFor responder.old.held h →
        GetTold result count.new value.new reason.new (got (account_of h).parameters sub pid argument.now) }
    ensures absent { (result ≡ code_of Status.Absent) ↔ (holds_responder responder.old.held ≡ false) }
    ensures same { responder.new.held ≡ responder.old.held }
{
    let Some(endpoint) = take(alloc, responder) else {
        return Status::Absent.code();
    };
    let status = get(&endpoint, sub, pid, argument, value, count, reason);
    put(responder, endpoint);
    status.code()
}

/// Reads what is kept of a parameter that the profile adds, of the root, whichever commands it has: the data of an order, which no GET
/// reads. They stand at the front of `value`, and `count` says how many bytes they have. If the profile adds no such parameter, nothing
/// is stored of it.
#[unsafe(no_mangle)]
pub extern "C" fn felosumay_responder_own_value(
    alloc: Global,
    responder: &mut Handle,
    pid: u16,
    value: &mut [u8; MOST_DATA],
    count: &mut usize,
) -> u8
    ensures told { (h : History) → HeldFor responder.old.held h →
        KeptTold result count.new value.new (value_at (account_of h).parameters.added pid) }
    ensures absent { (result ≡ code_of Status.Absent) ↔ (holds_responder responder.old.held ≡ false) }
    ensures same { responder.new.held ≡ responder.old.held }
{
    let Some(endpoint) = take(alloc, responder) else {
        return Status::Absent.code();
    };
    let status = own_value(&endpoint, pid, value, count);
    put(responder, endpoint);
    status.code()
}

/// Tells how many messages wait for the controller.
#[unsafe(no_mangle)]
pub extern "C" fn felosumay_responder_waiting(
    alloc: Global,
    responder: &mut Handle,
    count: &mut usize,
) -> u8
    ensures status { result ≡ code_of (found (holds_responder responder.old.held)) }
    ensures count { (h : History) → HeldFor responder.old.held h → count.new ≡ length (waiting_of (outbox_of h)) }
    ensures same { responder.new.held ≡ responder.old.held }
{
    let Some(endpoint) = take(alloc, responder) else {
        return Status::Absent.code();
    };
    let status = waiting(&endpoint, count);
    put(responder, endpoint);
    status.code()
}

/// Tells how many jobs are outstanding.
#[unsafe(no_mangle)]
pub extern "C" fn felosumay_responder_outstanding(
    alloc: Global,
    responder: &mut Handle,
    count: &mut usize,
) -> u8
    ensures status { result ≡ code_of (found (holds_responder responder.old.held)) }
    ensures count { (h : History) → HeldFor responder.old.held h → count.new ≡ outstanding_count (outbox_of h) }
    ensures same { responder.new.held ≡ responder.old.held }
{
    let Some(endpoint) = take(alloc, responder) else {
        return Status::Absent.code();
    };
    let status = outstanding(&endpoint, count);
    put(responder, endpoint);
    status.code()
}

/// Tells whether there is room for the message of a change at the fixture's own menu: `there` is 1 then, else 0.
#[unsafe(no_mangle)]
pub extern "C" fn felosumay_responder_room(
    alloc: Global,
    responder: &mut Handle,
    there: &mut u8,
) -> u8
    ensures status { result ≡ code_of (found (holds_responder responder.old.held)) }
    ensures room { (h : History) → HeldFor responder.old.held h → there.new ≡ flag (has_place (outbox_of h)) }
    ensures same { responder.new.held ≡ responder.old.held }
{
    let Some(endpoint) = take(alloc, responder) else {
        return Status::Absent.code();
    };
    let status = room(&endpoint, there);
    put(responder, endpoint);
    status.code()
}
