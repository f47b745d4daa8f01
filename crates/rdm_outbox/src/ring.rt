//! Rings, which were given all their memory when they were made.

ghost use Rattle.std.specs.Prelude.{◌≡◌, ◌<◌, [], ◌∷◌, ◌++◌, drop, length};
ghost use Rattle.circular_buffer.specs.Buffer.{buffer};

use circular_buffer::HeapCircularBuffer;

/// Puts an item at the end. There must be room, so that none is overwritten.
pub(crate) fn put<T: Drop>(ring: &mut HeapCircularBuffer<T>, item: T)
    requires { length ring.old.items < ring.old.capacity }
    ensures { ring.new ≡ buffer (ring.old.items ++ item ∷ []) ring.old.capacity }
{
    ring.push_back(item);
}

/// Takes the first item away.
pub(crate) fn drop_first<T: Drop>(ring: &mut HeapCircularBuffer<T>)
    ensures { ring.new ≡ buffer (drop 1 ring.old.items) ring.old.capacity }
{
    ring.pop_front();
}
