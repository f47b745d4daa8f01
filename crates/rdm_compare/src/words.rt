//! Words of what is written.

ghost use Rattle.std.specs.Prelude.{◌≡◌, ◌∷◌, ◌++◌, decimal, OnOk};
ghost use Rattle.rdm_frame.specs.Digits.{digits};

use itoa::Buffer;
use rdm_frame::digits::put_digits;
use std::alloc::AllocError;

/// A number in decimal digits.
pub(crate) fn put_number(text: &mut Vec<u8>, number: u32) -> Result<(), AllocError>
    ensures { OnOk result (text.new.items ≡ text.old.items ++ decimal number) }
{
    text.extend_from_slice(Buffer::new().format(number).as_bytes())
}

/// `0x` and the digits of the bytes of an ID.
pub(crate) fn put_id(text: &mut Vec<u8>, bytes: &[u8]) -> Result<(), AllocError>
    ensures { OnOk result (text.new.items ≡ text.old.items ++ (0x30 ∷ 0x78 ∷ digits bytes.now)) }
{
    text.extend_from_slice(b"0x")?;
    put_digits(text, bytes)
}
