//! What C lends for a call to write.

ghost use types.Logic.{sem};
ghost use Rattle.std.specs.Prelude.{◌≡◌, ◌⊎◌, List, ℕ};
ghost use Rattle.rdm_c.specs.Places.{array_at, writable_at};

/// What lies at the address of no bytes.
const NOTHING: u8 = 0;

/// The address of the bytes that are lent to be written. If there are none, it is one that isn't null.
pub(crate) unsafe fn writable_address_of(at: *mut u8, count: usize) -> *mut u8
    ghost before: { List ℕ }
    requires* lent { sem 𝓛 (writable_at at count before) }
    ensures* same { sem 𝓛 (array_at result count before) }
    ensures place { (count ≡ 0) ⊎ (result ≡ at) }
{
    if count == 0 {
        return &NOTHING as *const u8 as *mut u8;
    }
    at
}
