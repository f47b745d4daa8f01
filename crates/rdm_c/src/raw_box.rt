//! Where a boxed value lies.

ghost use Rattle.std.specs.Prelude.{◌≡◌};
ghost use Rattle.std_alloc.specs.Box.Ownership.{box_owns};

use std::alloc::Allocator;
use std::marker::Model;

/// The place of a value that a box held, with the handle of the box's allocator. It isn't `Drop`: it goes back into a box.
pub(crate) struct RawBox<T, A: Allocator> {
    pub(crate) place: *mut T,
    pub(crate) heap: A,
    pub(crate) ghost value: { T },
}

impl<T, A: Allocator> Model for RawBox<T, A> {
    ghost also_owns = { λ raw_box. box_owns (A.dealloc_token raw_box.heap) T.row raw_box.place raw_box.value };
}

impl<T: Drop, A: Allocator> RawBox<T, A> {
    /// The place of the value of a box.
    pub(crate) fn of(boxed: Box<T, A>) -> RawBox<T, A>
        ensures { result.value ≡ boxed.value }
    {
        let (place, heap) = Box::into_raw_with_allocator(boxed);
        RawBox { place, heap }
    }

    /// The value of the place, in a box again.
    pub(crate) fn into_box(self) -> Box<T, A>
        ensures { result.value ≡ self.value }
    {
        let RawBox { place, heap } = self;
        unsafe { Box::from_raw(heap, place) }
    }
}
