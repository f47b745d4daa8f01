//! What firmware does with a responder beside answering, for C.

ghost use Rattle.std.specs.Prelude.{◌≡◌, ◌≢◌, ◌↔◌, false};
ghost use Rattle.rdm_params.specs.Commands.Placing.{place_refusal};
ghost use Rattle.rdm_responder.specs.History.{History, Noted, Placed, then_event};
ghost use Rattle.rdm_responder.specs.Lawful.{IsLawful};
ghost use Rattle.rdm_responder.specs.Rules.{account_of};
ghost use Rattle.rdm_responder.specs.StandsFor.{StandsFor};
ghost use Rattle.rdm_c.specs.Statuses.{of_place_refusal};
ghost use Rattle.rdm_c.specs.Endpoints.{IsFor, found, flag, is_noted, is_responder};

use crate::endpoint::{Endpoint, RunningResponder};
use crate::status::Status;
use rdm_params::{Entry, PlaceError};

/// Makes a stored value what a SET of it would make it.
pub(crate) fn place(endpoint: &mut Endpoint, sub: u16, pid: u16, load: &[u8]) -> Status
    ensures told { (h : History) → IsFor endpoint.old h →
        result ≡ of_place_refusal (place_refusal (account_of h).parameters sub pid load.now) }
    ensures lawful { (h : History) → IsLawful h → IsFor endpoint.old h →
        ((result ≡ Status.Done) ↔ IsLawful (then_event h (Placed sub pid load.now))) }
    ensures stands { (h : History) → IsFor endpoint.old h → result ≡ Status.Done →
        IsFor endpoint.new (then_event h (Placed sub pid load.now)) }
    ensures absent { (result ≡ Status.Absent) ↔ (is_responder endpoint.old ≡ false) }
    ensures same { result ≢ Status.Done → endpoint.new ≡ endpoint.old }
{
    match endpoint {
        Endpoint::Responder(running) => place_value(running, sub, pid, load),
        Endpoint::Collector(_) | Endpoint::Searcher(_) => Status::Absent,
    }
}

/// Makes a stored value what a SET of it would make it, as `place`.
fn place_value(running: &mut RunningResponder, sub: u16, pid: u16, load: &[u8]) -> Status
    ensures told { (h : History) → StandsFor running.old.responder h →
        result ≡ of_place_refusal (place_refusal (account_of h).parameters sub pid load.now) }
    ensures lawful { (h : History) → IsLawful h → StandsFor running.old.responder h →
        ((result ≡ Status.Done) ↔ IsLawful (then_event h (Placed sub pid load.now))) }
    ensures stands { (h : History) → StandsFor running.old.responder h → result ≡ Status.Done →
        StandsFor running.new.responder (then_event h (Placed sub pid load.now)) }
    ensures found { result ≢ Status.Absent }
    ensures same { result ≢ Status.Done → running.new ≡ running.old }
{
    match running.responder.place(sub, pid, load) {
        Ok(()) => Status::Done,
        Err(PlaceError::NoDevice) => Status::NoDevice,
        Err(PlaceError::NoValue) => Status::NotStored,
        Err(PlaceError::Length) => Status::BadLength,
        Err(PlaceError::OutOfRange) => Status::OutOfRange,
    }
}

/// Notes a status entry, and says whether it is kept.
pub(crate) fn note(endpoint: &mut Endpoint, entry: Entry, noted: &mut u8) -> Status
    ensures status { result ≡ found (is_responder endpoint.old) }
    ensures noted { (h : History) → IsFor endpoint.old h → noted.new ≡ flag (is_noted h (Noted entry)) }
    ensures stands { (h : History) → IsFor endpoint.old h → IsFor endpoint.new (then_event h (Noted entry)) }
    ensures same { result ≢ Status.Done → endpoint.new ≡ endpoint.old }
{
    match endpoint {
        Endpoint::Responder(running) => {
            *noted = if running.responder.note(entry) { 1 } else { 0 };
            Status::Done
        }
        Endpoint::Collector(_) | Endpoint::Searcher(_) => Status::Absent,
    }
}
