//! Options of blocks.

ghost use Rattle.std.specs.Prelude.{◌≡◌, ◌≤◌, ◌+◌, ◌*◌, ◌/◌};
ghost use Rattle.std.specs.Option.{option_map};
ghost use Rattle.rdm_capture.specs.Blocks.{option_in, padded};

use crate::order::{behind, front, word_at};
use crate::packet::Order;

/// How many bytes the code and the length of an option have.
const HEAD_BYTES: usize = 4;

/// The code behind the last option.
const END: u16 = 0;

/// The value of the first option of this code. What stands behind the last whole option is passed over.
pub(crate) fn option_in(order: Order, code: u16, options: &[u8]) -> Option<&[u8]>
    ensures { option_map (λ m. m.now) result ≡ option_in order code options.now }
{
    let mut rest = options;
    while rest.len() >= HEAD_BYTES {
        let found = word_at(order, rest, 0);
        let size = usize::from(word_at(order, rest, 2));
        if rest.len() < HEAD_BYTES + size {
            return None;
        }
        if found == END {
            return None;
        }
        if found == code {
            return Some(front(behind(rest, HEAD_BYTES), size));
        }
        rest = behind(rest, HEAD_BYTES + padded(size));
    }
    None
}

/// How many bytes a value takes that is padded.
pub(crate) fn padded(count: usize) -> usize
    requires { count ≤ 4294967296 }
    ensures { result ≡ padded count }
{
    (count + 3) / 4 * 4
}
