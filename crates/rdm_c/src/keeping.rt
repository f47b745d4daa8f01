//! What a handle holds, taken out and put back.

ghost use Rattle.std.specs.Prelude.{◌≡◌, ◌≢◌, Option, Some, None};
ghost use Rattle.std.specs.Option.{option_map};
ghost use denote.RawPtr.{Testable};
ghost use types.Logic.{sem};
ghost use Rattle.rdm_c.specs.Places.{handle_at, nobody};

use crate::endpoint::Endpoint;
use crate::handle::Handle;
use crate::raw_box::RawBox;
use crate::status::Status;
use std::alloc::Global;
use std::mem;

/// Takes the endpoint out of a handle, if there is one.
pub(crate) fn take(alloc: Global, handle: &mut Handle) -> Option<Box<Endpoint>>
    ensures endpoint { option_map (λ boxed. boxed.value) result ≡ handle.old.held }
    ensures empty { handle.new.held ≡ None }
{
    let (there, held) = mem::replace(handle, Handle::none()).tell();
    if there {
        Some(held.open(alloc).into_box())
    } else {
        held.discard();
        None
    }
}

/// Puts an endpoint into a handle that is empty.
pub(crate) fn put(handle: &mut Handle, endpoint: Box<Endpoint>)
    requires { handle.old.held ≡ None }
    ensures { handle.new.held ≡ Some endpoint.value }
{
    mem::replace(handle, Handle::of(RawBox::of(endpoint))).discard();
}

/// Replaces what a handle held by an endpoint, or says that there is no memory for it. The handle stays as it was then.
pub(crate) fn replace(alloc: Global, handle: &mut Handle, endpoint: Endpoint) -> Status
    ensures done { result ≡ Status.Done → handle.new.held ≡ Some endpoint }
    ensures refused { result ≢ Status.Done → handle.new ≡ handle.old }
    ensures statuses { result ≢ Status.Done → result ≡ Status.OutOfMemory }
{
    let Ok(boxed) = Box::new(alloc, endpoint) else {
        return Status::OutOfMemory;
    };
    free(alloc, handle);
    put(handle, boxed);
    Status::Done
}

/// Gives up what a handle holds, if anything.
pub(crate) fn free(alloc: Global, handle: &mut Handle)
    ensures { handle.new.held ≡ None }
{
    drop(take(alloc, handle));
}

/// Gives up what the handle at this place holds, if anything. At null there is no handle, and nothing happens.
pub(crate) unsafe fn free_at(alloc: Global, place: *mut Handle)
    ghost handle: { Handle }
    requires address { Testable place }
    requires* lent { sem 𝓛 (handle_at place handle) }
    ensures* empty { sem 𝓛 (handle_at place nobody) }
{
    if place.is_null() {
        return;
    }
    free(alloc, unsafe { &mut *place });
}
