//! Numbers and bytes are put at the end of a text.

ghost use Rattle.std.specs.Prelude.{◌≡◌, ◌++◌, ◌∷◌, OnOk};
ghost use Rattle.rdm_trace.specs.LineText.{word_digits, pair_words, data_words, status_words};

use itoa::{Buffer, Integer};
use rdm_frame::digits::put_digits;
use rdm_params::Severity;
use std::alloc::AllocError;

/// A status entry: its severity, its ID and its two values.
pub(crate) fn put_status(
    text: &mut Vec<u8>,
    severity: Severity,
    id: u16,
    v1: u16,
    v2: u16,
) -> Result<(), AllocError>
    ensures { OnOk result (text.new.items ≡ text.old.items ++ status_words severity id v1 v2) }
{
    put_digits(text, &[severity.code()])?;
    put_word(text, id)?;
    put_word(text, v1)?;
    put_word(text, v2)
}

/// Bytes, or a hyphen if there are none.
pub(crate) fn put_data(text: &mut Vec<u8>, data: &[u8]) -> Result<(), AllocError>
    ensures { OnOk result (text.new.items ≡ text.old.items ++ data_words data.now) }
{
    if data.is_empty() {
        text.extend_from_slice(b"-")
    } else {
        put_digits(text, data)
    }
}

/// A space, and a number in four digits.
pub(crate) fn put_word(text: &mut Vec<u8>, number: u16) -> Result<(), AllocError>
    ensures { OnOk result (text.new.items ≡ text.old.items ++ 32 ∷ word_digits number) }
{
    text.extend_from_slice(b" ")?;
    put_digits(text, &number.to_be_bytes())
}

/// Two numbers, with a space between.
pub(crate) fn put_pair(text: &mut Vec<u8>, first: u32, second: u32) -> Result<(), AllocError>
    ensures { OnOk result (text.new.items ≡ text.old.items ++ pair_words first second) }
{
    put_number(text, first)?;
    text.extend_from_slice(b" ")?;
    put_number(text, second)
}

/// A number, without leading zeros.
pub(crate) fn put_number<I: Integer>(text: &mut Vec<u8>, number: I) -> Result<(), AllocError>
    ensures { OnOk result (text.new.items ≡ text.old.items ++ I.text number) }
{
    text.extend_from_slice(Buffer::new().format(number).as_bytes())
}
