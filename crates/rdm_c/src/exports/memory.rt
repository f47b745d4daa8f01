//! How much memory a responder takes, as C asks for it.

ghost use Rattle.std.specs.Prelude.{◌≡◌};
ghost use Rattle.rdm_c.specs.Memory.{memory_size, memory_status};
ghost use Rattle.rdm_c.specs.Statuses.{code_of};

use crate::memory::{memory_size, memory_status};

/// Tells how many bytes of memory a responder takes with room for `queue_size` results of slow commands and `entries` status
/// entries, and with so many sub-devices: all its blocks, each rounded up to 16 bytes, and 32 bytes of `felosumay_memory.h`. It
/// asks a heap for no more.
#[unsafe(no_mangle)]
pub extern "C" fn felosumay_responder_size(queue_size: u16, entries: u16, sub_devices: u16) -> usize
    ensures { result ≡ memory_size queue_size entries sub_devices }
{
    memory_size(queue_size, entries, sub_devices)
}

/// Tells whether a responder of this size has room in so many bytes of memory that begin at this address. If the address isn't
/// a multiple of 16 that comes first, and then that there are too few bytes.
#[unsafe(no_mangle)]
pub extern "C" fn felosumay_responder_fits(
    address: usize,
    bytes: usize,
    queue_size: u16,
    entries: u16,
    sub_devices: u16,
) -> u8
    ensures { result ≡ code_of (memory_status address bytes queue_size entries sub_devices) }
{
    memory_status(address, bytes, queue_size, entries, sub_devices).code()
}
