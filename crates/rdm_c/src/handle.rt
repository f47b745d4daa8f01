//! A boxed endpoint as its pointer, which C can keep.

ghost use Rattle.std.specs.Prelude.{◌≡◌, Option, Some, None, IsSome};
ghost use Rattle.std.specs.Option.{is_some};
ghost use Rattle.rdm_c.specs.Held.{held_at};
ghost use Rattle.rdm_c.specs.declared.endpoint.Endpoint.{Endpoint};

use crate::endpoint::Endpoint;
use crate::raw_box::RawBox;
use std::alloc::Global;
use std::marker::Model;
use std::ptr::null_mut;

/// The pointer, or null if there is no endpoint. It isn't `Drop`, so that no endpoint is forgotten behind it.
#[repr(C)]
pub struct Handle {
    at: *mut u8,
    pub ghost held: { Option Endpoint },
}

impl Model for Handle {
    ghost also_owns = { λ h. held_at h.at h.held };
}

impl Handle {
    /// Nobody.
    pub(crate) fn none() -> Handle
        ensures { result.held ≡ None }
    {
        Handle { at: null_mut() }
    }

    /// The endpoint of this place.
    pub(crate) fn of(raw_box: RawBox<Endpoint, Global>) -> Handle
        ensures { result.held ≡ Some raw_box.value }
    {
        let RawBox { place, heap: _ } = raw_box;
        Handle {
            at: place as *mut u8,
        }
    }

    /// Whether there is an endpoint, and the same again.
    pub(crate) fn tell(self) -> (bool, Handle)
        ensures { (result.0 ≡ is_some self.held) × (result.1 ≡ self) }
    {
        let Handle { at } = self;
        (!at.is_null(), Handle { at })
    }

    /// The place of the endpoint.
    pub(crate) fn open(self, heap: Global) -> RawBox<Endpoint, Global>
        requires { IsSome self.held }
        ensures { self.held ≡ Some result.value }
    {
        let Handle { at } = self;
        RawBox {
            place: at as *mut Endpoint,
            heap,
        }
    }

    /// Lets an empty handle go.
    pub(crate) fn discard(self)
        requires { self.held ≡ None }
    {
        let Handle { at: _ } = self;
    }
}
