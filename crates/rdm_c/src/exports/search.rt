//! The search for the fixtures of a line, as C calls it.

ghost use Rattle.std.specs.Prelude.{◌≡◌, ◌≢◌, ◌↔◌, IfSome, IsSomeAnd, None, Some, is_some, length, slice_get};
ghost use Rattle.std.specs.Option.{option_map};
ghost use denote.RawPtr.{Testable};
ghost use types.Logic.{sem};
ghost use Rattle.rdm_c.specs.Places.{handle_at, nobody};
ghost use Rattle.rdm_c.specs.Endpoints.{found, held_search};
ghost use Rattle.rdm_c.specs.SearchStates.{HasHeard, IsNewSearch, next_in, resumed};
ghost use Rattle.rdm_c.specs.Searches.{FoundTold, NextTold, heard_of};
ghost use Rattle.rdm_c.specs.Statuses.{code_of};

use crate::endpoint;
use crate::endpoint::Endpoint;
use crate::found::FoundNumbers;
use crate::handle::Handle;
use crate::keeping::{free_at, put, replace, take};
use crate::running_search::RunningSearch;
use crate::status::Status;
use rdm_frame::Uid;
use rdm_frame::standard::MOST_SLOTS;
use std::alloc::Global;

/// Makes a search for all fixtures of the line (E1.20 sections 7.5 and 7.6), by the controller with this UID, in the place of
/// what the handle held. It takes `limit` transactions at most: 74 for each fixture that the line may have, and 2 more, are
/// enough on every line.
///
/// A UID that addresses more than one device is rejected first, and last comes out of memory. If it is rejected, the handle
/// stays as it was.
#[unsafe(no_mangle)]
pub extern "C" fn felosumay_search_new(
    alloc: Global,
    search: &mut Handle,
    maker: u16,
    device: u32,
    limit: u32,
) -> u8
    ensures made { result ≡ code_of Status.Done →
        IsSomeAnd (held_search search.new.held) (IsNewSearch (record { maker = maker; device = device }) limit) }
    ensures bad_uid { (result ≡ code_of Status.BadUid) ↔ (device ≡ 0xFFFFFFFF) }
    ensures refused { result ≢ code_of Status.Done → search.new ≡ search.old }
    ensures codes { result ≢ code_of Status.Done → result ≢ code_of Status.BadUid → result ≡ code_of Status.OutOfMemory }
{
    let uid = Uid { maker, device };
    if uid.is_broadcast() {
        return Status::BadUid.code();
    }
    let made = RunningSearch::new(alloc, uid, limit);
    replace(alloc, search, Endpoint::Searcher(made)).code()
}

/// Tells what to send next: the request stands at the front of `request` then. There is no more if the search has ended:
/// it asked everywhere. Else its limit may be reached. Nothing changes, so that a call tells the same until `hear`.
#[unsafe(no_mangle)]
pub extern "C" fn felosumay_search_next(
    alloc: Global,
    search: &mut Handle,
    request: &mut [u8; MOST_SLOTS],
    count: &mut usize,
) -> u8
    ensures told { IfSome (held_search search.old.held) (λ s. NextTold result count.new request.new (next_in s)) }
    ensures absent { (result ≡ code_of Status.Absent) ↔ (held_search search.old.held ≡ None) }
    ensures same { search.new.held ≡ search.old.held }
{
    let Some(endpoint) = take(alloc, search) else {
        return Status::Absent.code();
    };
    let status = endpoint::search::next(&endpoint, request, count);
    put(search, endpoint);
    status.code()
}

/// Hears the bytes that came after the request that `felosumay_search_next` told; none if nothing came. If memory for a
/// fixture that was found is refused, the search stands where it stood, and the same bytes can be heard again.
#[unsafe(no_mangle)]
pub extern "C" fn felosumay_search_hear_nonnull(
    alloc: Global,
    search: &mut Handle,
    bytes: &[u8],
) -> u8
    ensures heard { IfSome (held_search search.old.held) (λ s. result ≡ code_of Status.Done →
        IsSomeAnd (held_search search.new.held) (HasHeard s bytes.now)) }
    ensures absent { (result ≡ code_of Status.Absent) ↔ (held_search search.old.held ≡ None) }
    ensures same { result ≢ code_of Status.Done → search.new.held ≡ search.old.held }
    ensures codes { result ≢ code_of Status.Done → result ≢ code_of Status.Absent → result ≡ code_of Status.OutOfMemory }
{
    let Some(mut endpoint) = take(alloc, search) else {
        return Status::Absent.code();
    };
    let status = endpoint::search::hear(&mut endpoint, bytes);
    put(search, endpoint);
    status.code()
}

/// Begins again with what was found, in `limit` transactions at most: for the fixtures that were plugged in since, or that lost
/// power. It un-mutes none, so that 74 transactions for each of these and 1 more are enough.
#[unsafe(no_mangle)]
pub extern "C" fn felosumay_search_resume(alloc: Global, search: &mut Handle, limit: u32) -> u8
    ensures status { result ≡ code_of (found (is_some (held_search search.old.held))) }
    ensures after { IfSome (held_search search.old.held) (λ s. held_search search.new.held ≡ Some (resumed s limit)) }
    ensures same { held_search search.old.held ≡ None → search.new.held ≡ search.old.held }
{
    let Some(mut endpoint) = take(alloc, search) else {
        return Status::Absent.code();
    };
    let status = endpoint::search::resume(&mut endpoint, limit);
    put(search, endpoint);
    status.code()
}

/// Tells how many fixtures were found so far.
#[unsafe(no_mangle)]
pub extern "C" fn felosumay_search_count(
    alloc: Global,
    search: &mut Handle,
    count: &mut usize,
) -> u8
    ensures status { result ≡ code_of (found (is_some (held_search search.old.held))) }
    ensures count { IfSome (held_search search.old.held) (λ s. count.new ≡ length s.found) }
    ensures same { search.new.held ≡ search.old.held }
{
    let Some(endpoint) = take(alloc, search) else {
        return Status::Absent.code();
    };
    let status = endpoint::search::count(&endpoint, count);
    put(search, endpoint);
    status.code()
}

/// Tells of a fixture that was found: that with this index, from 0, in the order in which they were found. There may be no more.
#[unsafe(no_mangle)]
pub extern "C" fn felosumay_search_found(
    alloc: Global,
    search: &mut Handle,
    index: usize,
    fixture: &mut FoundNumbers,
) -> u8
    ensures told { IfSome (held_search search.old.held) (λ s. FoundTold result fixture.new (slice_get s.found index)) }
    ensures absent { (result ≡ code_of Status.Absent) ↔ (held_search search.old.held ≡ None) }
    ensures same { search.new.held ≡ search.old.held }
{
    let Some(endpoint) = take(alloc, search) else {
        return Status::Absent.code();
    };
    let status = endpoint::search::fixture(&endpoint, index, fixture);
    put(search, endpoint);
    status.code()
}

/// Tells of a device that sounded after each mute, though no answer was valid: that with this index, from 0. Of what it is only the UID
/// is known, and the other fields are 0. It may have been found since, and stands among those that were found then.
#[unsafe(no_mangle)]
pub extern "C" fn felosumay_search_unsure(
    alloc: Global,
    search: &mut Handle,
    index: usize,
    fixture: &mut FoundNumbers,
) -> u8
    ensures told { IfSome (held_search search.old.held) (λ s.
        FoundTold result fixture.new (option_map heard_of (slice_get s.unsure index))) }
    ensures absent { (result ≡ code_of Status.Absent) ↔ (held_search search.old.held ≡ None) }
    ensures same { search.new.held ≡ search.old.held }
{
    let Some(endpoint) = take(alloc, search) else {
        return Status::Absent.code();
    };
    let status = endpoint::search::unsure(&endpoint, index, fixture);
    put(search, endpoint);
    status.code()
}

/// Gives up the search that the handle holds, if any, and its memory; the handle is {0} then. NULL is no handle, and nothing
/// happens then.
#[unsafe(no_mangle)]
pub unsafe extern "C" fn felosumay_search_free(alloc: Global, search: *mut Handle)
    ghost handle: { Handle }
    requires address { Testable search }
    requires* lent { sem 𝓛 (handle_at search handle) }
    ensures* empty { sem 𝓛 (handle_at search nobody) }
{
    free_at(alloc, search);
}
