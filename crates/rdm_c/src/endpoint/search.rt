//! What a search does for C.

ghost use Rattle.std.specs.Prelude.{◌≡◌, ◌≢◌, ◌↔◌, IfSome, IsSomeAnd, None, Some, is_some, length, slice_get};
ghost use Rattle.std.specs.Option.{option_map};
ghost use Rattle.rdm_c.specs.Endpoints.{found, search_of};
ghost use Rattle.rdm_c.specs.SearchStates.{HasHeard, next_in, resumed};
ghost use Rattle.rdm_c.specs.Searches.{FoundTold, NextTold, heard_of};
ghost use Rattle.rdm_c.specs.Statuses.{code_of};

use crate::endpoint::Endpoint;
use crate::found::FoundNumbers;
use crate::front::write_front;
use crate::status::Status;
use rdm_frame::encode;
use rdm_frame::standard::MOST_SLOTS;
use rdm_search::{Found, SearchError};

/// Writes the next request to the front, if the search hasn't ended.
pub(crate) fn next(endpoint: &Endpoint, request: &mut [u8; MOST_SLOTS], count: &mut usize) -> Status
    ensures told { IfSome (search_of endpoint.now) (λ s.
        NextTold (code_of result) count.new request.new (next_in s)) }
    ensures absent { (result ≡ Status.Absent) ↔ (search_of endpoint.now ≡ None) }
{
    let Endpoint::Searcher(search) = endpoint else {
        return Status::Absent;
    };
    match search.next() {
        Ok(Some(frame)) => {
            *count = write_front(encode(&frame).as_slice(), request);
            Status::Done
        }
        Ok(None) => Status::NoMore,
        Err(SearchError::Limit) => Status::Limit,
        Err(SearchError::OutOfMemory) => Status::OutOfMemory,
    }
}

/// Hears what came after the request, or that nothing did.
pub(crate) fn hear(endpoint: &mut Endpoint, bytes: &[u8]) -> Status
    ensures heard { IfSome (search_of endpoint.old) (λ s. result ≡ Status.Done →
        IsSomeAnd (search_of endpoint.new) (HasHeard s bytes.now)) }
    ensures absent { (result ≡ Status.Absent) ↔ (search_of endpoint.old ≡ None) }
    ensures same { result ≢ Status.Done → endpoint.new ≡ endpoint.old }
    ensures statuses { result ≢ Status.Done → result ≢ Status.Absent → result ≡ Status.OutOfMemory }
{
    match endpoint {
        Endpoint::Responder(_) | Endpoint::Collector(_) => Status::Absent,
        // No transaction is asked for here, so that want of memory is all that can be in the way.
        Endpoint::Searcher(search) => match search.hear(bytes) {
            Ok(()) => Status::Done,
            Err(_) => Status::OutOfMemory,
        },
    }
}

/// Begins again, with what was found.
pub(crate) fn resume(endpoint: &mut Endpoint, limit: u32) -> Status
    ensures status { result ≡ found (is_some (search_of endpoint.old)) }
    ensures after { IfSome (search_of endpoint.old) (λ s. search_of endpoint.new ≡ Some (resumed s limit)) }
    ensures same { search_of endpoint.old ≡ None → endpoint.new ≡ endpoint.old }
{
    let Endpoint::Searcher(search) = endpoint else {
        return Status::Absent;
    };
    search.resume(limit);
    Status::Done
}

/// Tells how many fixtures were found.
pub(crate) fn count(endpoint: &Endpoint, count: &mut usize) -> Status
    ensures status { result ≡ found (is_some (search_of endpoint.now)) }
    ensures count { IfSome (search_of endpoint.now) (λ s. count.new ≡ length s.found) }
{
    let Endpoint::Searcher(search) = endpoint else {
        return Status::Absent;
    };
    *count = search.found().len();
    Status::Done
}

/// Tells of the fixture with this index among those that were found.
pub(crate) fn fixture(endpoint: &Endpoint, index: usize, fixture: &mut FoundNumbers) -> Status
    ensures told { IfSome (search_of endpoint.now) (λ s. FoundTold (code_of result) fixture.new (slice_get s.found index)) }
    ensures absent { (result ≡ Status.Absent) ↔ (search_of endpoint.now ≡ None) }
{
    let Endpoint::Searcher(search) = endpoint else {
        return Status::Absent;
    };
    let Some(found) = search.found().get(index) else {
        return Status::NoMore;
    };
    *fixture = FoundNumbers::of(found);
    Status::Done
}

/// Tells of the device with this index among those whose answers to mutes weren't valid.
pub(crate) fn unsure(endpoint: &Endpoint, index: usize, fixture: &mut FoundNumbers) -> Status
    ensures told { IfSome (search_of endpoint.now) (λ s.
        FoundTold (code_of result) fixture.new (option_map heard_of (slice_get s.unsure index))) }
    ensures absent { (result ≡ Status.Absent) ↔ (search_of endpoint.now ≡ None) }
{
    let Endpoint::Searcher(search) = endpoint else {
        return Status::Absent;
    };
    let Some(uid) = search.unsure().get(index) else {
        return Status::NoMore;
    };
    *fixture = FoundNumbers::of(&Found {
        uid: *uid,
        control: 0,
        binding: None,
    });
    Status::Done
}
